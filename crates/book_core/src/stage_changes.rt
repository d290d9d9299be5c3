// The commands on APIs and stages: what each refuses, in order, and the change that it makes ready.
ghost use Rattle.std.specs.Prelude.{◌≡◌, true, false, Some, OnErr, IfOk};
ghost use Rattle.std.specs.Option.{option_copied};
ghost use Rattle.book_rules.specs.Outcomes.{first_refusal, says};
ghost use Rattle.book_rules.specs.StageCommands.{deployed as deployed_of, deployment_by, flush as flush_of, promote as promote_of, promoted, put_api as put_api_of, put_canary as put_canary_of, put_canary_tests, put_stage as put_stage_of, put_stage_tests, stage_of, with_canary as with_canary_of};
ghost use Rattle.book_rules.specs.Machine.{takes_memory};
ghost use Rattle.book_rules.specs.Stored.{form_of as form_of_definition};
ghost use Rattle.keeper_core.specs.Lists.{api_row, stage_row};
ghost use Rattle.book_opening.specs.Ready.{AreReady, canary_of};
ghost use Rattle.book_core.specs.Changes.{IsMeant, IsPrepared};
ghost use Rattle.book_core.specs.Standing.{canary_in};

use crate::changes::{Change, Held, Prepared};
use crate::finds::{find_definition, find_stage};
use crate::names::are_variables;
use api_model::Api;
use book_opening::{Canary, Ready, Standing, read_standing};
use book_rules::{Refusal, Reply};
use call_facts::Vars;
use gw_base::{Memory, Shared, Text, is_name};
use keeper_core::{ApiRow, DeploymentRow, Row, StageRow, Tables};
use record_fields::write_column;
use stage_canary::WHOLE_SHARE;
use std::alloc::Global;

/// The most APIs, the most deployments of one, and the most stages.
const MOST_APIS: usize = 256;

const MOST_DEPLOYMENTS: usize = 1024;

const MOST_STAGES: usize = 1024;

/// The most variables of a stage.
const MOST_VARIABLES: usize = 64;

// The column that tells a template from a document.
fn form_of(api: &Api) -> u64
    ensures { result ≡ form_of_definition api.now }
{
    if api.text_template().is_some() { 1 } else { 0 }
}

// The source of a definition as a text.
fn source_of(alloc: Global, api: &Api) -> Result<Text, Memory>
    ensures { IfOk result (λ text. text ≡ api.now.source) }
{
    // A definition that was read is UTF-8 (RFC 8259, section 8.1), so it is always a text.
    let Ok(text) = str::from_utf8(api.source()) else {
        return Err(Memory);
    };
    Ok(Text::of(String::from_str(alloc, text)?))
}

/// PutApi.
#[tactic(auto, unfolding(book_rules::specs::Limits::most_apis))]
pub fn put_api(
    tables: &Tables,
    alloc: Global,
    api: &Text,
    definition: &Shared<Api>,
) -> Result<Prepared, Memory>
    ensures prepared { IfOk result (IsPrepared tables.now.lists (put_api_of tables.now.lists api.now definition.now)) }
    ensures meant { IfOk result (IsMeant false) }
    ensures memory { OnErr result (takes_memory (put_api_of tables.now.lists api.now definition.now) ≡ true) }
{
    if !is_name(api.as_str()) {
        return Ok(Prepared::Says(Reply::Refused(Refusal::BadName)));
    }
    if tables.api(api.as_str()).is_none() && tables.apis().len() >= MOST_APIS {
        return Ok(Prepared::Says(Reply::Refused(Refusal::Full)));
    }
    let row = ApiRow {
        api: api.copy(alloc)?,
        text: form_of(definition.value()),
        source: source_of(alloc, definition.value())?,
    };
    Ok(Prepared::Writes(Change {
        row: Row::Api(row),
        held: Held::Definition(definition.share()?),
        reply: Reply::Done,
    }))
}

// How many deployments an API has.
#[tactic(auto, unfolding(book_rules::specs::StageCommands::deployed))]
fn deployed(tables: &Tables, api: &str) -> usize
    ensures { result ≡ deployed_of tables.now.lists api.now }
{
    tables
        .deployments()
        .iter()
        .filter(|row| row.api.as_str() == api)
        .count()
}

/// Deploy: the definition that stands, under the next number.
#[tactic(auto, unfolding(book_rules::specs::Limits::most_deployments))]
pub fn deploy(tables: &Tables, ready: &Ready, alloc: Global, api: &Text) -> Result<Prepared, Memory>
    requires ready { AreReady tables.now.lists ready.now }
    ensures prepared { IfOk result (IsPrepared tables.now.lists (deployment_by (api_row tables.now.lists api.now) (deployed_of tables.now.lists api.now))) }
    ensures meant { IfOk result (IsMeant false) }
    ensures memory { OnErr result (takes_memory (deployment_by (api_row tables.now.lists api.now) (deployed_of tables.now.lists api.now)) ≡ true) }
{
    let Some(row) = tables.api(api.as_str()) else {
        return Ok(Prepared::Says(Reply::Refused(Refusal::NoApi)));
    };
    let Some(definition) = find_definition(tables, ready, api.as_str()) else {
        // The row's definition is ready, so this does not come.
        return Ok(Prepared::Says(Reply::Refused(Refusal::NoApi)));
    };
    let count = deployed(tables, api.as_str());
    if count >= MOST_DEPLOYMENTS {
        return Ok(Prepared::Says(Reply::Refused(Refusal::Full)));
    }
    let next = DeploymentRow {
        api: row.api.copy(alloc)?,
        number: count as u64 + 1,
        text: row.text,
        source: row.source.copy(alloc)?,
    };
    Ok(Prepared::Writes(Change {
        row: Row::Deployment(next),
        held: Held::Deployed(definition.share()?),
        reply: Reply::Deployed(count as u32 + 1),
    }))
}

#[tactic(auto, unfolding(book_rules::specs::Limits::most_stages, book_rules::specs::Limits::most_variables))]
fn stage_refusal(
    tables: &Tables,
    api: &str,
    stage: &str,
    deployment: u32,
    variables: &Vars,
) -> Option<Refusal>
    ensures { result ≡ first_refusal (put_stage_tests tables.now.lists api.now stage.now deployment variables.now) }
{
    if !(is_name(api) && is_name(stage) && are_variables(variables)) {
        return Some(Refusal::BadName);
    }
    if tables.api(api).is_none() {
        return Some(Refusal::NoApi);
    }
    if tables.deployment(api, u64::from(deployment)).is_none() {
        return Some(Refusal::NoDeployment);
    }
    if variables.pairs.as_slice().len() > MOST_VARIABLES
        || tables.stage(api, stage).is_none() && tables.stages().len() >= MOST_STAGES
    {
        return Some(Refusal::Full);
    }
    None
}

// The row of a stage; a canary that it has stays.
fn row_of_stage(
    alloc: Global,
    before: Option<&StageRow>,
    api: &Text,
    stage: &Text,
    deployment: u32,
    vars: Text,
) -> Result<StageRow, Memory>
    ensures { IfOk result (λ row. row ≡ stage_of (option_copied before.entry) api.now stage.now deployment vars) }
{
    let (canary, share, canary_vars) = match before {
        Some(row) => (row.canary, row.share, row.canary_vars.copy(alloc)?),
        None => (0, 0, Text::of(String::new(alloc))),
    };
    Ok(StageRow {
        api: api.copy(alloc)?,
        stage: stage.copy(alloc)?,
        deployment: u64::from(deployment),
        vars,
        canary,
        share,
        canary_vars,
    })
}

// The number of the canary's deployment, 0 where there is none.
fn canary_number(found: Option<&Standing>) -> u32
    ensures { result ≡ canary_in (option_copied found.entry) }
{
    match found {
        Some(
            Standing {
                canary: Some(canary),
                ..
            },
        ) => canary.deployment,
        _ => 0,
    }
}

/// PutStage: a stage keeps each variable once, and the canary that it has.
pub fn put_stage(
    tables: &Tables,
    ready: &Ready,
    alloc: Global,
    api: &Text,
    stage: &Text,
    deployment: u32,
    variables: &Shared<Vars>,
) -> Result<Prepared, Memory>
    requires ready { AreReady tables.now.lists ready.now }
    ensures prepared { IfOk result (IsPrepared tables.now.lists (put_stage_of tables.now.lists api.now stage.now deployment variables.now)) }
    ensures meant { IfOk result (IsMeant false) }
    ensures memory { OnErr result (takes_memory (put_stage_of tables.now.lists api.now stage.now deployment variables.now) ≡ true) }
{
    if let Some(refusal) = stage_refusal(
        tables,
        api.as_str(),
        stage.as_str(),
        deployment,
        variables.value(),
    ) {
        return Ok(Prepared::Says(Reply::Refused(refusal)));
    }
    let variables = Vars::once(alloc, variables)?;
    let vars = write_column(alloc, variables.value().pairs.as_slice())?;
    let before = tables.stage(api.as_str(), stage.as_str());
    let row = row_of_stage(alloc, before, api, stage, deployment, vars)?;
    let canary = canary_number(find_stage(tables, ready, api.as_str(), stage.as_str()));
    let stands = read_standing(alloc, &row, deployment, canary)?;
    Ok(Prepared::Writes(Change {
        row: Row::Stage(row),
        held: Held::Stands(stands),
        reply: Reply::Done,
    }))
}

#[tactic(auto, unfolding(book_rules::specs::Limits::most_variables))]
fn canary_refusal(
    tables: &Tables,
    stage: (&str, &str),
    deployment: u32,
    share: u32,
    variables: &Vars,
) -> Option<Refusal>
    ensures { result ≡ first_refusal (put_canary_tests tables.now.lists stage.entry.0.now stage.entry.1.now deployment share variables.now) }
{
    if !(is_name(stage.0) && is_name(stage.1) && are_variables(variables)) {
        return Some(Refusal::BadName);
    }
    if tables.stage(stage.0, stage.1).is_none() {
        return Some(Refusal::NoStage);
    }
    if tables.deployment(stage.0, u64::from(deployment)).is_none() {
        return Some(Refusal::NoDeployment);
    }
    if u64::from(share) > WHOLE_SHARE {
        return Some(Refusal::BadShare);
    }
    if variables.pairs.as_slice().len() > MOST_VARIABLES {
        return Some(Refusal::Full);
    }
    None
}

// The row of a stage with this canary.
fn with_canary(
    alloc: Global,
    row: &StageRow,
    deployment: u32,
    share: u32,
    vars: Text,
) -> Result<StageRow, Memory>
    ensures { IfOk result (λ made. made ≡ with_canary_of deployment share vars row.now) }
{
    Ok(StageRow {
        api: row.api.copy(alloc)?,
        stage: row.stage.copy(alloc)?,
        deployment: row.deployment,
        vars: row.vars.copy(alloc)?,
        canary: u64::from(deployment),
        share: u64::from(share),
        canary_vars: vars,
    })
}

/// PutCanary: the canary keeps each of its variables once.
pub fn put_canary(
    tables: &Tables,
    ready: &Ready,
    alloc: Global,
    stage: (&Text, &Text),
    deployment: u32,
    share: u32,
    variables: &Shared<Vars>,
) -> Result<Prepared, Memory>
    requires ready { AreReady tables.now.lists ready.now }
    ensures prepared { IfOk result (IsPrepared tables.now.lists (put_canary_of tables.now.lists stage.entry.0.now stage.entry.1.now deployment share variables.now)) }
    ensures meant { IfOk result (IsMeant false) }
    ensures memory { OnErr result (takes_memory (put_canary_of tables.now.lists stage.entry.0.now stage.entry.1.now deployment share variables.now) ≡ true) }
{
    let name = (stage.0.as_str(), stage.1.as_str());
    if let Some(refusal) = canary_refusal(tables, name, deployment, share, variables.value()) {
        return Ok(Prepared::Says(Reply::Refused(refusal)));
    }
    let (Some(row), Some(standing)) = (
        tables.stage(name.0, name.1),
        find_stage(tables, ready, name.0, name.1),
    ) else {
        // The stage stands, so this does not come.
        return Ok(Prepared::Says(Reply::Refused(Refusal::NoStage)));
    };
    let variables = Vars::once(alloc, variables)?;
    let vars = write_column(alloc, variables.value().pairs.as_slice())?;
    let row = with_canary(alloc, row, deployment, share, vars)?;
    let stands = read_standing(alloc, &row, standing.deployment, deployment)?;
    Ok(Prepared::Writes(Change {
        row: Row::Stage(row),
        held: Held::Stands(stands),
        reply: Reply::Done,
    }))
}

// The row of a stage whose canary is made the stage, with the merged variables.
fn promoted_row(alloc: Global, row: &StageRow, canary: &Canary) -> Result<StageRow, Memory>
    requires canary { Some canary.now ≡ canary_of row.now }
    ensures { IfOk result (λ made. made ≡ promoted row.now) }
{
    Ok(StageRow {
        api: row.api.copy(alloc)?,
        stage: row.stage.copy(alloc)?,
        deployment: u64::from(canary.deployment),
        vars: write_column(alloc, canary.variables.value().pairs.as_slice())?,
        canary: 0,
        share: 0,
        canary_vars: Text::of(String::new(alloc)),
    })
}

/// PromoteCanary.
#[tactic(auto, unfolding(book_rules::specs::Limits::most_variables))]
pub fn promote(
    tables: &Tables,
    ready: &Ready,
    alloc: Global,
    api: &Text,
    stage: &Text,
) -> Result<Prepared, Memory>
    requires ready { AreReady tables.now.lists ready.now }
    ensures prepared { IfOk result (IsPrepared tables.now.lists (promote_of (stage_row tables.now.lists api.now stage.now))) }
    ensures meant { IfOk result (IsMeant false) }
    ensures memory { OnErr result (takes_memory (promote_of (stage_row tables.now.lists api.now stage.now)) ≡ true) }
{
    let (Some(row), Some(standing)) = (
        tables.stage(api.as_str(), stage.as_str()),
        find_stage(tables, ready, api.as_str(), stage.as_str()),
    ) else {
        return Ok(Prepared::Says(Reply::Refused(Refusal::NoStage)));
    };
    let Some(canary) = &standing.canary else {
        return Ok(Prepared::Says(Reply::Refused(Refusal::NoCanary)));
    };
    if canary.variables.value().pairs.as_slice().len() > MOST_VARIABLES {
        return Ok(Prepared::Says(Reply::Refused(Refusal::Full)));
    }
    let row = promoted_row(alloc, row, canary)?;
    let stands = read_standing(alloc, &row, canary.deployment, 0)?;
    Ok(Prepared::Writes(Change {
        row: Row::Stage(row),
        held: Held::Stands(stands),
        reply: Reply::Done,
    }))
}

/// Flush: whether the stage stands.
pub fn show_flush(tables: &Tables, api: &Text, stage: &Text) -> Reply
    ensures { says result ≡ flush_of (stage_row tables.now.lists api.now stage.now) }
{
    match tables.stage(api.as_str(), stage.as_str()) {
        Some(_) => Reply::Done,
        None => Reply::Refused(Refusal::NoStage),
    }
}
