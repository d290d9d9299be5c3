// What the bodies of canaries, keys, plans and grants ask for.
ghost use Rattle.std.specs.Prelude.{◌≡◌, Ok, Err, IfOk};
ghost use Rattle.record_fields.specs.Coding.{fields_of};
ghost use Rattle.admin_routes.specs.Asked.{canary_by, canary_with, grant_by, grant_with, is_on as is_on_of, key_by, key_with, plan_by, plan_with};

use crate::asking::{Asked, no_record};
use book_rules::Command;
use call_facts::Vars;
use gw_base::{Bytes, Memory, Seq, Shared, Text};
use plan_fields::{plan_stages_in, quota_in, throttle_in};
use record_fields::{fields_in, number, pairs_in, small_number, text_of};
use std::alloc::Global;

#[tactic(auto, unfolding(crate::specs::Asked::canary_with))]
fn put_canary(
    alloc: Global,
    api: Text,
    stage: Text,
    deployment: &[u8],
    share: &[u8],
    fields: &[Bytes],
) -> Result<Asked, Memory>
    ensures { IfOk result (λ asked. asked ≡ canary_with api stage deployment.now share.now fields.now) }
{
    let Some(deployment) = small_number(deployment) else {
        return Ok(Err(no_record(alloc)?));
    };
    let Some(share) = small_number(share) else {
        return Ok(Err(no_record(alloc)?));
    };
    let Some(pairs) = pairs_in(alloc, fields)? else {
        return Ok(Err(no_record(alloc)?));
    };
    let variables = Vars {
        pairs: Seq::of(pairs),
    };
    Ok(Ok(Command::PutCanary {
        api,
        stage,
        deployment,
        share,
        variables: Shared::new(alloc, variables)?,
    }))
}

/// The canary of a body: its deployment, its share and its variables.
pub(crate) fn ask_for_canary(
    alloc: Global,
    api: Text,
    stage: Text,
    body: &[u8],
) -> Result<Asked, Memory>
    ensures { IfOk result (λ asked. asked ≡ canary_by api stage (fields_of body.now)) }
{
    let Some(fields) = fields_in(alloc, body)? else {
        return Ok(Err(no_record(alloc)?));
    };
    match fields.as_slice() {
        [deployment, share, variables @ ..] => put_canary(
            alloc,
            api,
            stage,
            deployment.as_slice(),
            share.as_slice(),
            variables,
        ),
        _ => Ok(Err(no_record(alloc)?)),
    }
}

// Whether a key is enabled.
#[tactic(auto, unfolding(crate::specs::Asked::is_on))]
fn is_on(field: &[u8]) -> Option<bool>
    ensures { result ≡ is_on_of field.now }
{
    if field == b"on".as_slice() {
        return Some(true);
    }
    if field == b"off".as_slice() {
        return Some(false);
    }
    None
}

#[tactic(auto, unfolding(crate::specs::Asked::key_with))]
fn put_key(alloc: Global, key: Text, value: &[u8], enabled: &[u8]) -> Result<Asked, Memory>
    ensures { IfOk result (λ asked. asked ≡ key_with key value.now enabled.now) }
{
    let Some(value) = text_of(alloc, value)? else {
        return Ok(Err(no_record(alloc)?));
    };
    let Some(enabled) = is_on(enabled) else {
        return Ok(Err(no_record(alloc)?));
    };
    Ok(Ok(Command::PutKey {
        key,
        value,
        enabled,
    }))
}

/// The key of a body: its value, and whether it is enabled.
pub(crate) fn ask_for_key(alloc: Global, key: Text, body: &[u8]) -> Result<Asked, Memory>
    ensures { IfOk result (λ asked. asked ≡ key_by key (fields_of body.now)) }
{
    let Some(fields) = fields_in(alloc, body)? else {
        return Ok(Err(no_record(alloc)?));
    };
    match fields.as_slice() {
        [value, enabled] => put_key(alloc, key, value.as_slice(), enabled.as_slice()),
        _ => Ok(Err(no_record(alloc)?)),
    }
}

#[tactic(auto, unfolding(crate::specs::Asked::plan_with))]
fn put_plan(
    alloc: Global,
    plan: Text,
    throttle: &[u8],
    quota: &[u8],
    fields: &[Bytes],
) -> Result<Asked, Memory>
    ensures { IfOk result (λ asked. asked ≡ plan_with plan throttle.now quota.now fields.now) }
{
    let Some(throttle) = throttle_in(throttle) else {
        return Ok(Err(no_record(alloc)?));
    };
    let Some(quota) = quota_in(quota) else {
        return Ok(Err(no_record(alloc)?));
    };
    let Some(stages) = plan_stages_in(alloc, fields)? else {
        return Ok(Err(no_record(alloc)?));
    };
    Ok(Ok(Command::PutPlan {
        plan,
        throttle,
        quota,
        stages: Seq::of(stages),
    }))
}

/// The plan of a body: its throttle, its quota and its stages.
pub(crate) fn ask_for_plan(alloc: Global, plan: Text, body: &[u8]) -> Result<Asked, Memory>
    ensures { IfOk result (λ asked. asked ≡ plan_by plan (fields_of body.now)) }
{
    let Some(fields) = fields_in(alloc, body)? else {
        return Ok(Err(no_record(alloc)?));
    };
    match fields.as_slice() {
        [throttle, quota, stages @ ..] => {
            put_plan(alloc, plan, throttle.as_slice(), quota.as_slice(), stages)
        }
        _ => Ok(Err(no_record(alloc)?)),
    }
}

#[tactic(auto, unfolding(crate::specs::Asked::grant_with))]
fn grant(alloc: Global, plan: Text, key: Text, amount: &[u8]) -> Result<Asked, Memory>
    ensures { IfOk result (λ asked. asked ≡ grant_with plan key amount.now) }
{
    match number(amount) {
        Some(amount) => Ok(Ok(Command::Grant { plan, key, amount })),
        None => Ok(Err(no_record(alloc)?)),
    }
}

/// The grant of a body: how many calls more.
pub(crate) fn ask_for_grant(
    alloc: Global,
    plan: Text,
    key: Text,
    body: &[u8],
) -> Result<Asked, Memory>
    ensures { IfOk result (λ asked. asked ≡ grant_by plan key (fields_of body.now)) }
{
    let Some(fields) = fields_in(alloc, body)? else {
        return Ok(Err(no_record(alloc)?));
    };
    match fields.as_slice() {
        [amount] => grant(alloc, plan, key, amount.as_slice()),
        _ => Ok(Err(no_record(alloc)?)),
    }
}
