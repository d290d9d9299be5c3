// The rows of stores.
use gw_base::{Memory, Text};
use keeper_core::{ApiRow, DeploymentRow, Row, StageRow, Tables};
use std::alloc::Global;

/// A row of the API `hello`.
#[derive(Clone, Copy)]
pub(crate) enum Given {
    Api,
    Deployment(u64),
    Stage(u64),
}

/// The API `hello`, deployed once, and its stage `v1`.
pub(crate) const HELLO: &'static [Given] = &[Given::Api, Given::Deployment(1), Given::Stage(1)];

const TEMPLATE: &str = "Hi $input.body!";

pub(crate) fn text(alloc: Global, from: &str) -> Result<Text, Memory> {
    Ok(Text::of(String::from_str(alloc, from)?))
}

fn api(alloc: Global) -> Result<Row, Memory> {
    Ok(Row::Api(ApiRow {
        api: text(alloc, "hello")?,
        text: 1,
        source: text(alloc, TEMPLATE)?,
    }))
}

fn deployment(alloc: Global, number: u64) -> Result<Row, Memory> {
    Ok(Row::Deployment(DeploymentRow {
        api: text(alloc, "hello")?,
        number,
        text: 1,
        source: text(alloc, TEMPLATE)?,
    }))
}

fn stage(alloc: Global, deployment: u64) -> Result<Row, Memory> {
    Ok(Row::Stage(StageRow {
        api: text(alloc, "hello")?,
        stage: text(alloc, "v1")?,
        deployment,
        vars: text(alloc, "")?,
        canary: 0,
        share: 0,
        canary_vars: text(alloc, "")?,
    }))
}

fn row(alloc: Global, given: Given) -> Result<Row, Memory> {
    match given {
        Given::Api => api(alloc),
        Given::Deployment(number) => deployment(alloc, number),
        Given::Stage(deployment) => stage(alloc, deployment),
    }
}

/// Tables of these rows.
pub(crate) fn tables(alloc: Global, rows: &[Given]) -> Result<Tables, Memory> {
    let mut tables = Tables::new(alloc);
    for given in rows {
        tables.put(row(alloc, *given)?)?;
    }
    Ok(tables)
}
