// Tables that a book does not start from.
use crate::books::{LIMITS, text};
use book_core::{Book, StartFault};
use gw_base::Memory;
use keeper_core::{
    ApiRow, DeploymentRow, KeyRow, MemKeeper, MetaRow, Row, StageRow, Table, Tables,
};
use std::alloc::Global;
use std::test::Fail;

/// A row of the tests: of the API `a`, or a key.
#[derive(Clone, Copy)]
enum Given {
    Version(u64),
    Api(&'static str, &'static str),
    Deployment(u64),
    Stage(u64, &'static str),
    Key(&'static str, &'static str),
}

fn api(alloc: Global, name: &str, source: &str) -> Result<Row, Memory> {
    Ok(Row::Api(ApiRow {
        api: text(alloc, name)?,
        text: 1,
        source: text(alloc, source)?,
    }))
}

fn deployment(alloc: Global, number: u64) -> Result<Row, Memory> {
    Ok(Row::Deployment(DeploymentRow {
        api: text(alloc, "a")?,
        number,
        text: 1,
        source: text(alloc, "x")?,
    }))
}

fn stage(alloc: Global, deployment: u64, vars: &str) -> Result<Row, Memory> {
    Ok(Row::Stage(StageRow {
        api: text(alloc, "a")?,
        stage: text(alloc, "s")?,
        deployment,
        vars: text(alloc, vars)?,
        canary: 0,
        share: 0,
        canary_vars: text(alloc, "")?,
    }))
}

fn key(alloc: Global, name: &str, value: &str) -> Result<Row, Memory> {
    Ok(Row::Key(KeyRow {
        key: text(alloc, name)?,
        value: text(alloc, value)?,
        enabled: 1,
    }))
}

fn row(alloc: Global, given: Given) -> Result<Row, Memory> {
    match given {
        Given::Version(version) => Ok(Row::Meta(MetaRow { id: 0, version })),
        Given::Api(name, source) => api(alloc, name, source),
        Given::Deployment(number) => deployment(alloc, number),
        Given::Stage(number, vars) => stage(alloc, number, vars),
        Given::Key(name, value) => key(alloc, name, value),
    }
}

fn tables(alloc: Global, rows: &[Given]) -> Result<Tables, Memory> {
    let mut tables = Tables::new(alloc);
    for given in rows {
        tables.put(row(alloc, *given)?)?;
    }
    Ok(tables)
}

// The row that a book over these tables names.
fn named_in(alloc: Global, tables: Tables) -> Option<(Table, u64)> {
    match Book::start(alloc, MemKeeper::new(tables, Vec::new(alloc)), LIMITS) {
        Err((_, StartFault::BadStore(table, row))) => Some((table, row)),
        _ => None,
    }
}

fn named(alloc: Global, rows: &[Given]) -> Result<Option<(Table, u64)>, Memory> {
    Ok(named_in(alloc, tables(alloc, rows)?))
}

#[test]
fn the_first_bad_row_is_named(rt: HostRuntime) -> Result<(), Fail> {
    let alloc = rt.alloc();
    let a = Given::Api("a", "x");
    let second_alone = named(alloc, &[a, Given::Deployment(2)])?;
    assert!(rt; second_alone == Some((Table::Deployments, 0)));
    assert!(rt; named(alloc, &[a, Given::Deployment(1)])?.is_none());
    let unread = named(alloc, &[a, Given::Api("b", "${x")])?;
    assert!(rt; unread == Some((Table::Apis, 1)));
    assert!(rt; named(alloc, &[Given::Version(2)])? == Some((Table::Meta, 0)));
    Ok(())
}

#[test]
fn keys_and_stages_are_tested(rt: HostRuntime) -> Result<(), Fail> {
    let alloc = rt.alloc();
    let same_value = named(alloc, &[Given::Key("k1", "v"), Given::Key("k2", "v")])?;
    assert!(rt; same_value == Some((Table::Keys, 1)));
    let a = Given::Api("a", "x");
    assert!(rt; named(alloc, &[a, Given::Stage(1, "")])? == Some((Table::Stages, 0)));
    for vars in ["x=%2f", "x=1 x=2", "x"] {
        let bad = named(alloc, &[a, Given::Deployment(1), Given::Stage(1, vars)])?;
        assert!(rt; bad == Some((Table::Stages, 0)));
    }
    Ok(())
}
