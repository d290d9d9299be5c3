// The records of keys and plans.
ghost use Rattle.std.specs.Prelude.{◌≡◌, Ok, Err, IfOk};
ghost use Rattle.script_records.specs.Records.{is_on as is_on_of, key_record as key_record_of, plan_record as plan_record_of, join_record as join_record_of, grant_record as grant_record_of, usage_record as usage_record_of, key_fields as key_fields_of, plan_fields as plan_fields_of, join_fields as join_fields_of, grant_fields as grant_fields_of, usage_fields as usage_fields_of, record_of_plans as record_of_plans_by};

use crate::records::{LineFault, Reading, Record};
use book_rules::Command;
use gw_base::{Bytes, Memory, Seq};
use plan_fields::{plan_stages_in, quota_in, throttle_in};
use record_fields::{number, text_of};
use std::alloc::Global;

// Whether a key is enabled.
#[tactic(auto, unfolding(crate::specs::Records::is_on))]
fn is_on(field: &[u8]) -> Option<bool>
    ensures { result ≡ is_on_of field.now }
{
    if field == b"on".as_slice() {
        return Some(true);
    }
    if field == b"off".as_slice() {
        return Some(false);
    }
    None
}

#[tactic(auto, unfolding(crate::specs::Records::key_record))]
fn key_record(
    alloc: Global,
    moment: &[u8],
    key: &[u8],
    value: &[u8],
    enabled: &[u8],
) -> Result<Reading, Memory>
    ensures { IfOk result (λ r. r ≡ key_record_of moment.now key.now value.now enabled.now) }
{
    let Some(moment) = number(moment) else {
        return Ok(Err(LineFault::BadRecord));
    };
    let Some(key) = text_of(alloc, key)? else {
        return Ok(Err(LineFault::BadRecord));
    };
    let Some(value) = text_of(alloc, value)? else {
        return Ok(Err(LineFault::BadRecord));
    };
    let Some(enabled) = is_on(enabled) else {
        return Ok(Err(LineFault::BadRecord));
    };
    let command = Command::PutKey {
        key,
        value,
        enabled,
    };
    Ok(Ok(Record::Ask { moment, command }))
}

#[tactic(auto, unfolding(crate::specs::Records::plan_record))]
fn plan_record(
    alloc: Global,
    moment: &[u8],
    plan: &[u8],
    throttle: &[u8],
    quota: &[u8],
    fields: &[Bytes],
) -> Result<Reading, Memory>
    ensures { IfOk result (λ r. r ≡ plan_record_of moment.now plan.now throttle.now quota.now fields.now) }
{
    let Some(moment) = number(moment) else {
        return Ok(Err(LineFault::BadRecord));
    };
    let Some(plan) = text_of(alloc, plan)? else {
        return Ok(Err(LineFault::BadRecord));
    };
    let Some(throttle) = throttle_in(throttle) else {
        return Ok(Err(LineFault::BadRecord));
    };
    let Some(quota) = quota_in(quota) else {
        return Ok(Err(LineFault::BadRecord));
    };
    let Some(stages) = plan_stages_in(alloc, fields)? else {
        return Ok(Err(LineFault::BadRecord));
    };
    let command = Command::PutPlan {
        plan,
        throttle,
        quota,
        stages: Seq::of(stages),
    };
    Ok(Ok(Record::Ask { moment, command }))
}

#[tactic(auto, unfolding(crate::specs::Records::join_record))]
fn join_record(alloc: Global, moment: &[u8], plan: &[u8], key: &[u8]) -> Result<Reading, Memory>
    ensures { IfOk result (λ r. r ≡ join_record_of moment.now plan.now key.now) }
{
    let Some(moment) = number(moment) else {
        return Ok(Err(LineFault::BadRecord));
    };
    let Some(plan) = text_of(alloc, plan)? else {
        return Ok(Err(LineFault::BadRecord));
    };
    let Some(key) = text_of(alloc, key)? else {
        return Ok(Err(LineFault::BadRecord));
    };
    let command = Command::JoinKey { plan, key };
    Ok(Ok(Record::Ask { moment, command }))
}

#[tactic(auto, unfolding(crate::specs::Records::grant_record))]
fn grant_record(
    alloc: Global,
    moment: &[u8],
    plan: &[u8],
    key: &[u8],
    amount: &[u8],
) -> Result<Reading, Memory>
    ensures { IfOk result (λ r. r ≡ grant_record_of moment.now plan.now key.now amount.now) }
{
    let Some(moment) = number(moment) else {
        return Ok(Err(LineFault::BadRecord));
    };
    let Some(plan) = text_of(alloc, plan)? else {
        return Ok(Err(LineFault::BadRecord));
    };
    let Some(key) = text_of(alloc, key)? else {
        return Ok(Err(LineFault::BadRecord));
    };
    let Some(amount) = number(amount) else {
        return Ok(Err(LineFault::BadRecord));
    };
    let command = Command::Grant { plan, key, amount };
    Ok(Ok(Record::Ask { moment, command }))
}

#[tactic(auto, unfolding(crate::specs::Records::usage_record))]
fn usage_record(alloc: Global, moment: &[u8], plan: &[u8], key: &[u8]) -> Result<Reading, Memory>
    ensures { IfOk result (λ r. r ≡ usage_record_of moment.now plan.now key.now) }
{
    let Some(moment) = number(moment) else {
        return Ok(Err(LineFault::BadRecord));
    };
    let Some(plan) = text_of(alloc, plan)? else {
        return Ok(Err(LineFault::BadRecord));
    };
    let Some(key) = text_of(alloc, key)? else {
        return Ok(Err(LineFault::BadRecord));
    };
    let command = Command::Usage { plan, key };
    Ok(Ok(Record::Ask { moment, command }))
}

fn key_fields(alloc: Global, fields: &[Bytes]) -> Result<Reading, Memory>
    ensures { IfOk result (λ r. r ≡ key_fields_of fields.now) }
{
    match fields {
        [m, k, v, e] => key_record(
            alloc,
            m.as_slice(),
            k.as_slice(),
            v.as_slice(),
            e.as_slice(),
        ),
        _ => Ok(Err(LineFault::BadRecord)),
    }
}

fn plan_fields(alloc: Global, fields: &[Bytes]) -> Result<Reading, Memory>
    ensures { IfOk result (λ r. r ≡ plan_fields_of fields.now) }
{
    match fields {
        [m, p, t, q, stages @ ..] => plan_record(
            alloc,
            m.as_slice(),
            p.as_slice(),
            t.as_slice(),
            q.as_slice(),
            stages,
        ),
        _ => Ok(Err(LineFault::BadRecord)),
    }
}

fn join_fields(alloc: Global, fields: &[Bytes]) -> Result<Reading, Memory>
    ensures { IfOk result (λ r. r ≡ join_fields_of fields.now) }
{
    match fields {
        [m, p, k] => join_record(alloc, m.as_slice(), p.as_slice(), k.as_slice()),
        _ => Ok(Err(LineFault::BadRecord)),
    }
}

fn grant_fields(alloc: Global, fields: &[Bytes]) -> Result<Reading, Memory>
    ensures { IfOk result (λ r. r ≡ grant_fields_of fields.now) }
{
    match fields {
        [m, p, k, n] => grant_record(
            alloc,
            m.as_slice(),
            p.as_slice(),
            k.as_slice(),
            n.as_slice(),
        ),
        _ => Ok(Err(LineFault::BadRecord)),
    }
}

fn usage_fields(alloc: Global, fields: &[Bytes]) -> Result<Reading, Memory>
    ensures { IfOk result (λ r. r ≡ usage_fields_of fields.now) }
{
    match fields {
        [m, p, k] => usage_record(alloc, m.as_slice(), p.as_slice(), k.as_slice()),
        _ => Ok(Err(LineFault::BadRecord)),
    }
}

/// The record of this name, where it is one of a key or a plan.
#[tactic(auto, unfolding(crate::specs::Records::record_of_plans))]
pub fn record_of_plans(alloc: Global, name: &[u8], fields: &[Bytes]) -> Result<Reading, Memory>
    ensures { IfOk result (λ r. r ≡ record_of_plans_by name.now fields.now) }
{
    if name == b"key".as_slice() {
        return key_fields(alloc, fields);
    }
    if name == b"plan".as_slice() {
        return plan_fields(alloc, fields);
    }
    if name == b"join".as_slice() {
        return join_fields(alloc, fields);
    }
    if name == b"grant".as_slice() {
        return grant_fields(alloc, fields);
    }
    if name == b"usage".as_slice() {
        return usage_fields(alloc, fields);
    }
    Ok(Err(LineFault::BadRecord))
}
