// Rows of the tests, and how tables are shown.
use gw_base::{Memory, Text};
use keeper_core::{
    ApiRow, DeploymentRow, JoinRow, KeyRow, MetaRow, PlanRow, Row, StageRow, Tables,
};
use std::alloc::Global;

/// A row, with its columns in their order.
#[derive(Clone, Copy)]
pub(crate) enum Given {
    Meta(u64, u64),
    Api(&'static str, u64, &'static str),
    Deployment(&'static str, u64, u64, &'static str),
    Stage(&'static str, &'static str, u64, &'static str),
    Key(&'static str, &'static str, u64),
    Plan(&'static str, u64, u64, &'static str),
    Join(&'static str, &'static str, u64, u64),
}

pub(crate) fn text(alloc: Global, from: &str) -> Result<Text, Memory> {
    Ok(Text::of(String::from_str(alloc, from)?))
}

pub(crate) fn join(
    alloc: Global,
    plan: &str,
    key: &str,
    level: u64,
    used: u64,
) -> Result<JoinRow, Memory> {
    Ok(JoinRow {
        plan: text(alloc, plan)?,
        key: text(alloc, key)?,
        level,
        at: 3,
        tversion: 4,
        pkind: 1,
        pnumber: 5,
        allowance: 6,
        used,
        first: 1,
    })
}

fn stage(
    alloc: Global,
    api: &str,
    stage: &str,
    deployment: u64,
    vars: &str,
) -> Result<StageRow, Memory> {
    Ok(StageRow {
        api: text(alloc, api)?,
        stage: text(alloc, stage)?,
        deployment,
        vars: text(alloc, vars)?,
        canary: 8,
        share: 9,
        canary_vars: text(alloc, "")?,
    })
}

fn plan(
    alloc: Global,
    plan: &str,
    rate: u64,
    tversion: u64,
    stages: &str,
) -> Result<PlanRow, Memory> {
    Ok(PlanRow {
        plan: text(alloc, plan)?,
        rate,
        burst: 2,
        tversion,
        qlimit: 7,
        qoffset: 6,
        qkind: 3,
        stages: text(alloc, stages)?,
    })
}

pub(crate) fn row(alloc: Global, given: Given) -> Result<Row, Memory> {
    match given {
        Given::Meta(id, version) => Ok(Row::Meta(MetaRow { id, version })),
        Given::Api(name, kind, source) => Ok(Row::Api(ApiRow {
            api: text(alloc, name)?,
            text: kind,
            source: text(alloc, source)?,
        })),
        Given::Deployment(name, number, kind, source) => Ok(Row::Deployment(DeploymentRow {
            api: text(alloc, name)?,
            number,
            text: kind,
            source: text(alloc, source)?,
        })),
        Given::Stage(api, name, deployment, vars) => Ok(Row::Stage(stage(
            alloc, api, name, deployment, vars,
        )?)),
        Given::Key(name, value, enabled) => Ok(Row::Key(KeyRow {
            key: text(alloc, name)?,
            value: text(alloc, value)?,
            enabled,
        })),
        Given::Plan(name, rate, tversion, stages) => Ok(Row::Plan(plan(
            alloc, name, rate, tversion, stages,
        )?)),
        Given::Join(name, key, level, used) => Ok(Row::Join(join(alloc, name, key, level, used)?)),
    }
}

fn show_definitions(alloc: Global, mut shown: String, tables: &Tables) -> Result<String, Memory> {
    for row in tables.metas() {
        shown = format!(in alloc; "{shown}meta {} {}\n", row.id, row.version)?;
    }
    for row in tables.apis() {
        shown = format!(in alloc;
            "{shown}api [{}] {} [{}]\n",
            row.api.as_str(),
            row.text,
            row.source.as_str()
        )?;
    }
    for row in tables.deployments() {
        shown = format!(in alloc;
            "{shown}deployment [{}] {} {} [{}]\n",
            row.api.as_str(),
            row.number,
            row.text,
            row.source.as_str()
        )?;
    }
    Ok(shown)
}

fn show_stages(alloc: Global, mut shown: String, tables: &Tables) -> Result<String, Memory> {
    for row in tables.stages() {
        shown = format!(in alloc;
            "{shown}stage [{}] [{}] {} [{}] {} {} [{}]\n",
            row.api.as_str(),
            row.stage.as_str(),
            row.deployment,
            row.vars.as_str(),
            row.canary,
            row.share,
            row.canary_vars.as_str()
        )?;
    }
    for row in tables.keys() {
        shown = format!(in alloc;
            "{shown}key [{}] [{}] {}\n",
            row.key.as_str(),
            row.value.as_str(),
            row.enabled
        )?;
    }
    Ok(shown)
}

fn show_plans(alloc: Global, mut shown: String, tables: &Tables) -> Result<String, Memory> {
    for row in tables.plans() {
        shown = format!(in alloc;
            "{shown}plan [{}] {} {} {} {} {} {} [{}]\n",
            row.plan.as_str(),
            row.rate,
            row.burst,
            row.tversion,
            row.qlimit,
            row.qoffset,
            row.qkind,
            row.stages.as_str()
        )?;
    }
    Ok(shown)
}

fn show_joins(alloc: Global, mut shown: String, tables: &Tables) -> Result<String, Memory> {
    for row in tables.joins() {
        shown = format!(in alloc;
            "{shown}join [{}] [{}] {} {} {} {} {} {} {} {}\n",
            row.plan.as_str(),
            row.key.as_str(),
            row.level,
            row.at,
            row.tversion,
            row.pkind,
            row.pnumber,
            row.allowance,
            row.used,
            row.first
        )?;
    }
    Ok(shown)
}

/// The tables, a row a line, each text between brackets.
pub(crate) fn show(alloc: Global, tables: &Tables) -> Result<String, Memory> {
    let shown = show_definitions(alloc, String::new(alloc), tables)?;
    let shown = show_stages(alloc, shown, tables)?;
    let shown = show_plans(alloc, shown, tables)?;
    show_joins(alloc, shown, tables)
}
