// The values of `$context` and of `$stageVariables`.
ghost use Rattle.std.specs.Prelude.{◌≡◌, ◌<◌, ◌^◌, IfOk, map, false};
ghost use Rattle.std.specs.Fmt.{decimal};
ghost use Rattle.std.specs.String.{string_bytes};
ghost use Rattle.vtl_eval.specs.Views.{stepped_of};
ghost use Rattle.vtl_values.specs.Val.{text as text_val};
ghost use Rattle.gateway_vars.specs.Escapes.{hex_digits};
ghost use Rattle.call_facts.specs.Pairs.{last_value as last_of};
ghost use Rattle.gateway_vars.specs.Values.{text_or_null};
ghost use Rattle.gateway_vars.specs.Occasions.{occasion_of};
ghost use Rattle.gateway_vars.specs.Facts.{call, failure, agent_of as agent_of_occasion, stage_path as stage_path_of, of_request as of_request_of, of_call as of_call_of, context_named as context_named_of, identity_named as identity_named_of, claim_named as claim_named_of, error_named as error_named_of, context_part as context_part_of, context_one as context_one_of, context_two as context_two_of, context_below as context_below_of, context_value as context_value_of, variable_step as variable_step_of, variable_value as variable_value_of};

use crate::escapes::{json_string, push_digits};
use crate::occasion::Occasion;
use crate::steps::{both_steps, only_step};
use crate::texts::{found_value, made_value, name_value, text_value};
use call_facts::{CallFacts, Kind, Request, Target, first_value, header_value, last_value};
use gw_base::{Memory, Text};
use itoa::Buffer;
use std::alloc::Global;
use vtl_eval::Step;
use vtl_values::Value;

// All that stands behind the API, as it is written.
fn stage_path(alloc: Global, target: &Target) -> Result<String, Memory>
    ensures { IfOk result (λ made. string_bytes made ≡ stage_path_of target.now) }
{
    let mut made = String::from_str(alloc, "/")?;
    made.push_str(target.stage.as_str())?;
    made.push_str(target.path.as_str())?;
    Ok(made)
}

fn of_asked(alloc: Global, request: &Request, target: &Target, name: &str) -> Result<Value, Memory>
    ensures { IfOk result (λ v. v ≡ of_request_of (call request.now target.now) name.now) }
{
    if name == "httpMethod" {
        text_value(alloc, request.method.as_str())
    } else if name == "path" {
        made_value(stage_path(alloc, target)?)
    } else {
        Ok(Value::null())
    }
}

fn of_request(alloc: Global, occasion: Occasion, name: &str) -> Result<Value, Memory>
    ensures { IfOk result (λ v. v ≡ of_request_of (occasion_of occasion.entry) name.now) }
{
    match occasion {
        Occasion::Call(request, target) => of_asked(alloc, request, target, name),
        Occasion::Failure(_, _) => Ok(Value::null()),
    }
}

fn request_number(alloc: Global, place: u64) -> Result<Value, Memory>
    ensures { IfOk result (λ v. v ≡ text_val (hex_digits false 16 place)) }
{
    let mut made = String::new(alloc);
    push_digits(&mut made, place, 16, false)?;
    made_value(made)
}

fn deployment_number(alloc: Global, deployment: u32) -> Result<Value, Memory>
    ensures { IfOk result (λ v. v ≡ text_val (decimal deployment)) }
{
    let mut buffer = Buffer::new();
    text_value(alloc, buffer.format(deployment))
}

fn of_call(
    alloc: Global,
    occasion: Occasion,
    facts: &CallFacts,
    name: &str,
) -> Result<Value, Memory>
    requires { facts.now.at < 2 ^ 63 }
    ensures { IfOk result (λ v. v ≡ of_call_of (occasion_of occasion.entry) facts.now name.now) }
{
    if name == "requestId" {
        request_number(alloc, facts.place)
    } else if name == "requestTimeEpoch" {
        Ok(Value::whole(facts.at as i64))
    } else if name == "deploymentId" {
        deployment_number(alloc, facts.deployment)
    } else if name == "isCanaryRequest" {
        Ok(Value::boolean(facts.canary))
    } else {
        of_request(alloc, occasion, name)
    }
}

#[tactic(auto, unfolding(crate::specs::Facts::context_named))]
fn context_named(
    alloc: Global,
    occasion: Occasion,
    facts: &CallFacts,
    name: &str,
) -> Result<Value, Memory>
    requires { facts.now.at < 2 ^ 63 }
    ensures { IfOk result (λ v. v ≡ context_named_of (occasion_of occasion.entry) facts.now name.now) }
{
    if name == "apiId" {
        text_value(alloc, facts.api.as_str())
    } else if name == "stage" {
        text_value(alloc, facts.stage.as_str())
    } else if name == "resourcePath" {
        text_value(alloc, facts.resource.as_str())
    } else {
        of_call(alloc, occasion, facts, name)
    }
}

// The agent by which a request was made.
fn agent_of(alloc: Global, occasion: Occasion) -> Result<Value, Memory>
    ensures { IfOk result (λ v. v ≡ agent_of_occasion (occasion_of occasion.entry)) }
{
    match occasion {
        Occasion::Call(request, _) => found_value(
            alloc,
            header_value(request.headers.as_slice(), "user-agent"),
        ),
        Occasion::Failure(_, _) => Ok(Value::null()),
    }
}

#[tactic(auto, unfolding(crate::specs::Facts::identity_named))]
fn identity_named(
    alloc: Global,
    occasion: Occasion,
    facts: &CallFacts,
    name: &str,
) -> Result<Value, Memory>
    ensures { IfOk result (λ v. v ≡ identity_named_of (occasion_of occasion.entry) facts.now name.now) }
{
    if name == "apiKeyId" {
        name_value(alloc, facts.key.as_ref())
    } else if name == "sourceIp" {
        text_value(alloc, "127.0.0.1")
    } else if name == "userAgent" {
        agent_of(alloc, occasion)
    } else {
        Ok(Value::null())
    }
}

#[tactic(auto, unfolding(crate::specs::Facts::claim_named))]
fn claim_named(alloc: Global, facts: &CallFacts, name: &str) -> Result<Value, Memory>
    ensures { IfOk result (λ v. v ≡ claim_named_of facts.now name.now) }
{
    let Some(policy) = &facts.policy else {
        return Ok(Value::null());
    };
    let policy = policy.value();
    if name == "principalId" {
        text_value(alloc, policy.principal.as_str())
    } else {
        found_value(alloc, first_value(policy.context.as_slice(), name))
    }
}

#[tactic(auto, unfolding(crate::specs::Facts::error_named))]
fn told_named(alloc: Global, kind: Kind, message: &str, name: &str) -> Result<Value, Memory>
    ensures { IfOk result (λ v. v ≡ error_named_of (failure kind message.now) name.now) }
{
    if name == "message" {
        text_value(alloc, message)
    } else if name == "messageString" {
        made_value(json_string(alloc, message)?)
    } else if name == "responseType" {
        made_value(kind.to_string(alloc)?)
    } else {
        Ok(Value::null())
    }
}

#[tactic(auto, unfolding(crate::specs::Facts::error_named))]
fn error_named(alloc: Global, occasion: Occasion, name: &str) -> Result<Value, Memory>
    ensures { IfOk result (λ v. v ≡ error_named_of (occasion_of occasion.entry) name.now) }
{
    match occasion {
        Occasion::Call(_, _) => Ok(Value::null()),
        Occasion::Failure(kind, message) => told_named(alloc, kind, message, name),
    }
}

fn context_part(
    alloc: Global,
    occasion: Occasion,
    facts: &CallFacts,
    group: &str,
    name: &str,
) -> Result<Value, Memory>
    ensures { IfOk result (λ v. v ≡ context_part_of (occasion_of occasion.entry) facts.now group.now name.now) }
{
    if group == "identity" {
        identity_named(alloc, occasion, facts, name)
    } else if group == "authorizer" {
        claim_named(alloc, facts, name)
    } else if group == "error" {
        error_named(alloc, occasion, name)
    } else {
        Ok(Value::null())
    }
}

fn context_one(
    alloc: Global,
    occasion: Occasion,
    facts: &CallFacts,
    step: &Step,
) -> Result<Value, Memory>
    requires { facts.now.at < 2 ^ 63 }
    ensures { IfOk result (λ v. v ≡ context_one_of (occasion_of occasion.entry) facts.now (stepped_of step.now)) }
{
    match step {
        Step::Name(name) => context_named(alloc, occasion, facts, name.as_str()),
        Step::Index(_) => Ok(Value::null()),
        Step::Call(_, _) => Ok(Value::null()),
    }
}

fn context_two(
    alloc: Global,
    occasion: Occasion,
    facts: &CallFacts,
    step: &Step,
    behind: &Step,
) -> Result<Value, Memory>
    ensures { IfOk result (λ v. v ≡ context_two_of (occasion_of occasion.entry) facts.now (stepped_of step.now) (stepped_of behind.now)) }
{
    match step {
        Step::Name(group) => context_below(alloc, occasion, facts, group.as_str(), behind),
        Step::Index(_) => Ok(Value::null()),
        Step::Call(_, _) => Ok(Value::null()),
    }
}

fn context_below(
    alloc: Global,
    occasion: Occasion,
    facts: &CallFacts,
    group: &str,
    step: &Step,
) -> Result<Value, Memory>
    ensures { IfOk result (λ v. v ≡ context_below_of (occasion_of occasion.entry) facts.now group.now (stepped_of step.now)) }
{
    match step {
        Step::Name(name) => context_part(alloc, occasion, facts, group, name.as_str()),
        Step::Index(_) => Ok(Value::null()),
        Step::Call(_, _) => Ok(Value::null()),
    }
}

/// The value of a path below `$context`.
#[tactic(auto, unfolding(crate::specs::Facts::context_value))]
pub fn context_value(
    alloc: Global,
    occasion: Occasion,
    facts: &CallFacts,
    path: &[Step],
) -> Result<Value, Memory>
    requires { facts.now.at < 2 ^ 63 }
    ensures { IfOk result (λ v. v ≡ context_value_of (occasion_of occasion.entry) facts.now (map stepped_of path.now)) }
{
    match only_step(path) {
        Some(step) => context_one(alloc, occasion, facts, step),
        None => match both_steps(path) {
            Some((step, behind)) => context_two(alloc, occasion, facts, step, behind),
            None => Ok(Value::null()),
        },
    }
}

fn variable(alloc: Global, variables: &[(Text, Text)], name: &str) -> Result<Value, Memory>
    ensures { IfOk result (λ v. v ≡ text_or_null (last_of variables.now name.now)) }
{
    found_value(alloc, last_value(variables, name))
}

fn variable_step(alloc: Global, variables: &[(Text, Text)], step: &Step) -> Result<Value, Memory>
    ensures { IfOk result (λ v. v ≡ variable_step_of variables.now (stepped_of step.now)) }
{
    match step {
        Step::Name(name) => variable(alloc, variables, name.as_str()),
        Step::Index(value) => match value.as_text() {
            Some(name) => variable(alloc, variables, name.as_str()),
            None => Ok(Value::null()),
        },
        Step::Call(_, _) => Ok(Value::null()),
    }
}

/// The value of a path below `$stageVariables`.
#[tactic(auto, unfolding(crate::specs::Facts::variable_value))]
pub fn variable_value(alloc: Global, facts: &CallFacts, path: &[Step]) -> Result<Value, Memory>
    ensures { IfOk result (λ v. v ≡ variable_value_of facts.now (map stepped_of path.now)) }
{
    match only_step(path) {
        Some(step) => variable_step(alloc, facts.variables.value().pairs.as_slice(), step),
        None => Ok(Value::null()),
    }
}
