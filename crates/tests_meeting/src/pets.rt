// Tables with one API.
use gw_base::{Memory, Text};
use keeper_core::{ApiRow, DeploymentRow, Row, StageRow, Tables};
use std::alloc::Global;

const DOCUMENT: &str =
    r#"{"version":1,"resources":{"/p":{"GET":{"integration":{"type":"HTTP","method":"GET","uri":"http://127.0.0.1:9002/p","responses":[{"status":200}]}}}}}"#;

pub(crate) fn text(alloc: Global, from: &str) -> Result<Text, Memory> {
    Ok(Text::of(String::from_str(alloc, from)?))
}

fn api(alloc: Global) -> Result<Row, Memory> {
    Ok(Row::Api(ApiRow {
        api: text(alloc, "pets")?,
        text: 0,
        source: text(alloc, DOCUMENT)?,
    }))
}

fn deployment(alloc: Global) -> Result<Row, Memory> {
    Ok(Row::Deployment(DeploymentRow {
        api: text(alloc, "pets")?,
        number: 1,
        text: 0,
        source: text(alloc, DOCUMENT)?,
    }))
}

fn stage(alloc: Global) -> Result<Row, Memory> {
    Ok(Row::Stage(StageRow {
        api: text(alloc, "pets")?,
        stage: text(alloc, "v1")?,
        deployment: 1,
        vars: text(alloc, "")?,
        canary: 0,
        share: 0,
        canary_vars: text(alloc, "")?,
    }))
}

/// Tables of the API `pets`, a document with one method over HTTP, and of its stage `v1`.
pub(crate) fn pets(alloc: Global) -> Result<Tables, Memory> {
    let mut tables = Tables::new(alloc);
    tables.put(api(alloc)?)?;
    tables.put(deployment(alloc)?)?;
    tables.put(stage(alloc)?)?;
    Ok(tables)
}
