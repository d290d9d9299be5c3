// The records of deployments, stages and their canaries.
ghost use Rattle.std.specs.Prelude.{◌≡◌, Ok, Err, IfOk};
ghost use Rattle.script_records.specs.Records.{deploy_record as deploy_record_of, stage_record as stage_record_of, canary_record as canary_record_of, promote_record as promote_record_of, flush_record as flush_record_of, shutdown_record as shutdown_record_of, deploy_fields as deploy_fields_of, stage_fields as stage_fields_of, canary_fields as canary_fields_of, promote_fields as promote_fields_of, flush_fields as flush_fields_of, shutdown_fields as shutdown_fields_of, record_of_stages as record_of_stages_by};

use crate::plans::record_of_plans;
use crate::records::{LineFault, Reading, Record};
use book_rules::Command;
use call_facts::Vars;
use gw_base::{Bytes, Memory, Seq, Shared, Text};
use record_fields::{number, pairs_in, small_number, text_of};
use std::alloc::Global;

fn vars_of(alloc: Global, pairs: Vec<(Text, Text)>) -> Result<Shared<Vars>, Memory>
    ensures { IfOk result (λ vars. vars ≡ record { pairs = pairs.items }) }
{
    let pairs = Seq::of(pairs);
    Ok(Shared::new(alloc, Vars { pairs })?)
}

#[tactic(auto, unfolding(crate::specs::Records::deploy_record))]
fn deploy_record(alloc: Global, moment: &[u8], api: &[u8]) -> Result<Reading, Memory>
    ensures { IfOk result (λ r. r ≡ deploy_record_of moment.now api.now) }
{
    let Some(moment) = number(moment) else {
        return Ok(Err(LineFault::BadRecord));
    };
    let Some(api) = text_of(alloc, api)? else {
        return Ok(Err(LineFault::BadRecord));
    };
    let command = Command::Deploy { api };
    Ok(Ok(Record::Ask { moment, command }))
}

#[tactic(auto, unfolding(crate::specs::Records::stage_record))]
fn stage_record(
    alloc: Global,
    moment: &[u8],
    api: &[u8],
    stage: &[u8],
    deployment: &[u8],
    fields: &[Bytes],
) -> Result<Reading, Memory>
    ensures { IfOk result (λ r. r ≡ stage_record_of moment.now api.now stage.now deployment.now fields.now) }
{
    let Some(moment) = number(moment) else {
        return Ok(Err(LineFault::BadRecord));
    };
    let Some(api) = text_of(alloc, api)? else {
        return Ok(Err(LineFault::BadRecord));
    };
    let Some(stage) = text_of(alloc, stage)? else {
        return Ok(Err(LineFault::BadRecord));
    };
    let Some(deployment) = small_number(deployment) else {
        return Ok(Err(LineFault::BadRecord));
    };
    let Some(variables) = pairs_in(alloc, fields)? else {
        return Ok(Err(LineFault::BadRecord));
    };
    let variables = vars_of(alloc, variables)?;
    let command = Command::PutStage {
        api,
        stage,
        deployment,
        variables,
    };
    Ok(Ok(Record::Ask { moment, command }))
}

#[tactic(auto, unfolding(crate::specs::Records::canary_record))]
fn canary_record(
    alloc: Global,
    moment: &[u8],
    api: &[u8],
    stage: &[u8],
    deployment: &[u8],
    share: &[u8],
    fields: &[Bytes],
) -> Result<Reading, Memory>
    ensures { IfOk result (λ r. r ≡ canary_record_of moment.now api.now stage.now deployment.now share.now fields.now) }
{
    let Some(moment) = number(moment) else {
        return Ok(Err(LineFault::BadRecord));
    };
    let Some(api) = text_of(alloc, api)? else {
        return Ok(Err(LineFault::BadRecord));
    };
    let Some(stage) = text_of(alloc, stage)? else {
        return Ok(Err(LineFault::BadRecord));
    };
    let Some(deployment) = small_number(deployment) else {
        return Ok(Err(LineFault::BadRecord));
    };
    let Some(share) = small_number(share) else {
        return Ok(Err(LineFault::BadRecord));
    };
    let Some(variables) = pairs_in(alloc, fields)? else {
        return Ok(Err(LineFault::BadRecord));
    };
    let variables = vars_of(alloc, variables)?;
    let command = Command::PutCanary {
        api,
        stage,
        deployment,
        share,
        variables,
    };
    Ok(Ok(Record::Ask { moment, command }))
}

#[tactic(auto, unfolding(crate::specs::Records::promote_record))]
fn promote_record(alloc: Global, moment: &[u8], api: &[u8], stage: &[u8]) -> Result<Reading, Memory>
    ensures { IfOk result (λ r. r ≡ promote_record_of moment.now api.now stage.now) }
{
    let Some(moment) = number(moment) else {
        return Ok(Err(LineFault::BadRecord));
    };
    let Some(api) = text_of(alloc, api)? else {
        return Ok(Err(LineFault::BadRecord));
    };
    let Some(stage) = text_of(alloc, stage)? else {
        return Ok(Err(LineFault::BadRecord));
    };
    let command = Command::PromoteCanary { api, stage };
    Ok(Ok(Record::Ask { moment, command }))
}

#[tactic(auto, unfolding(crate::specs::Records::flush_record))]
fn flush_record(alloc: Global, moment: &[u8], api: &[u8], stage: &[u8]) -> Result<Reading, Memory>
    ensures { IfOk result (λ r. r ≡ flush_record_of moment.now api.now stage.now) }
{
    let Some(moment) = number(moment) else {
        return Ok(Err(LineFault::BadRecord));
    };
    let Some(api) = text_of(alloc, api)? else {
        return Ok(Err(LineFault::BadRecord));
    };
    let Some(stage) = text_of(alloc, stage)? else {
        return Ok(Err(LineFault::BadRecord));
    };
    let command = Command::Flush { api, stage };
    Ok(Ok(Record::Ask { moment, command }))
}

#[tactic(auto, unfolding(crate::specs::Records::shutdown_record))]
fn shutdown_record(moment: &[u8]) -> Reading
    ensures { result ≡ shutdown_record_of moment.now }
{
    let Some(moment) = number(moment) else {
        return Err(LineFault::BadRecord);
    };
    let command = Command::Shutdown;
    Ok(Record::Ask { moment, command })
}

fn deploy_fields(alloc: Global, fields: &[Bytes]) -> Result<Reading, Memory>
    ensures { IfOk result (λ r. r ≡ deploy_fields_of fields.now) }
{
    match fields {
        [m, a] => deploy_record(alloc, m.as_slice(), a.as_slice()),
        _ => Ok(Err(LineFault::BadRecord)),
    }
}

fn stage_fields(alloc: Global, fields: &[Bytes]) -> Result<Reading, Memory>
    ensures { IfOk result (λ r. r ≡ stage_fields_of fields.now) }
{
    match fields {
        [m, a, s, d, variables @ ..] => stage_record(
            alloc,
            m.as_slice(),
            a.as_slice(),
            s.as_slice(),
            d.as_slice(),
            variables,
        ),
        _ => Ok(Err(LineFault::BadRecord)),
    }
}

fn canary_fields(alloc: Global, fields: &[Bytes]) -> Result<Reading, Memory>
    ensures { IfOk result (λ r. r ≡ canary_fields_of fields.now) }
{
    match fields {
        [m, a, s, d, c, variables @ ..] => canary_record(
            alloc,
            m.as_slice(),
            a.as_slice(),
            s.as_slice(),
            d.as_slice(),
            c.as_slice(),
            variables,
        ),
        _ => Ok(Err(LineFault::BadRecord)),
    }
}

fn promote_fields(alloc: Global, fields: &[Bytes]) -> Result<Reading, Memory>
    ensures { IfOk result (λ r. r ≡ promote_fields_of fields.now) }
{
    match fields {
        [m, a, s] => promote_record(alloc, m.as_slice(), a.as_slice(), s.as_slice()),
        _ => Ok(Err(LineFault::BadRecord)),
    }
}

fn flush_fields(alloc: Global, fields: &[Bytes]) -> Result<Reading, Memory>
    ensures { IfOk result (λ r. r ≡ flush_fields_of fields.now) }
{
    match fields {
        [m, a, s] => flush_record(alloc, m.as_slice(), a.as_slice(), s.as_slice()),
        _ => Ok(Err(LineFault::BadRecord)),
    }
}

fn shutdown_fields(fields: &[Bytes]) -> Reading
    ensures { result ≡ shutdown_fields_of fields.now }
{
    match fields {
        [m] => shutdown_record(m.as_slice()),
        _ => Err(LineFault::BadRecord),
    }
}

/// The record of this name, where it is one of a stage, a plan or a key.
#[tactic(auto, unfolding(crate::specs::Records::record_of_stages))]
pub fn record_of_stages(alloc: Global, name: &[u8], fields: &[Bytes]) -> Result<Reading, Memory>
    ensures { IfOk result (λ r. r ≡ record_of_stages_by name.now fields.now) }
{
    if name == b"deploy".as_slice() {
        return deploy_fields(alloc, fields);
    }
    if name == b"stage".as_slice() {
        return stage_fields(alloc, fields);
    }
    if name == b"canary".as_slice() {
        return canary_fields(alloc, fields);
    }
    if name == b"promote".as_slice() {
        return promote_fields(alloc, fields);
    }
    if name == b"flush".as_slice() {
        return flush_fields(alloc, fields);
    }
    if name == b"shutdown".as_slice() {
        return Ok(shutdown_fields(fields));
    }
    record_of_plans(alloc, name, fields)
}
