// Gateway responses.
ghost use Rattle.std.specs.Prelude.{◌≡◌, ◌<◌, IfOk};
ghost use Rattle.std.specs.Option.{option_map};
ghost use Rattle.gateway_answers.specs.Answers.{answer_by as answer_by_of, class_name as class_name_of, failed_made, gateway_answer as gateway_answer_of, headers_in as headers_in_of, rule_for as rule_for_of, status_by as status_by_of, template_in as template_in_of};

use crate::bodies::body_by;
use crate::headers::{given, headers_of};
use api_model::{Api, GatewayRule, Origin};
use call_facts::{Answer, CallFacts, Kind};
use gateway_vars::FailureRoots;
use gw_base::{Memory, Text};
use method_flow::Made;
use std::alloc::Global;
use vtl_reader::Template;

// The name of the rule for all kinds of a class of statuses.
fn class_name(kind: Kind) -> &'static str
    ensures { result.now ≡ class_name_of kind }
{
    if kind.status() < 500 {
        "DEFAULT_4XX"
    } else {
        "DEFAULT_5XX"
    }
}

// The rule of a kind, else that of its class.
fn rule_for<'a>(
    alloc: Global,
    api: Option<&'a Api>,
    kind: Kind,
) -> Result<Option<&'a GatewayRule>, Memory>
    ensures { IfOk result (λ rule. option_map (λ r. r.now) rule ≡ rule_for_of (option_map (λ a. a.now) api.entry) kind) }
{
    let Some(api) = api else {
        return Ok(None);
    };
    let name = kind.to_string(alloc)?;
    match api.gateway(name.as_str()) {
        Some(rule) => Ok(Some(rule)),
        None => Ok(api.gateway(class_name(kind))),
    }
}

fn status_by(rule: Option<&GatewayRule>, kind: Kind) -> u16
    ensures { result ≡ status_by_of (option_map (λ r. r.now) rule.entry) kind }
{
    match rule {
        Some(rule) => rule.status.unwrap_or(kind.status()),
        None => kind.status(),
    }
}

fn headers_in(rule: Option<&GatewayRule>) -> &[(Text, Origin)]
    ensures { result.now ≡ headers_in_of (option_map (λ r. r.now) rule.entry) }
{
    match rule {
        Some(rule) => rule.headers.as_slice(),
        None => &[],
    }
}

fn template_in(rule: Option<&GatewayRule>) -> Option<&Template>
    ensures { option_map (λ t. t.now) result ≡ template_in_of (option_map (λ r. r.now) rule.entry) }
{
    match rule {
        Some(rule) => rule.template.as_ref(),
        None => None,
    }
}

fn answer_by(
    alloc: Global,
    rule: Option<&GatewayRule>,
    roots: &mut FailureRoots,
) -> Result<Answer, Memory>
    ensures { IfOk result (λ answer. answer ≡ answer_by_of (option_map (λ r. r.now) rule.entry) roots.old) }
{
    let kind = roots.kind();
    let given = given(alloc, roots, headers_in(rule))?;
    let headers = headers_of(alloc, kind, &given)?;
    let body = body_by(alloc, template_in(rule), roots)?;
    Ok(Answer {
        status: status_by(rule, kind),
        headers,
        body,
    })
}

/// The gateway response of a kind with a message (API Gateway Developer Guide, "Gateway responses in API Gateway"), by the
/// rules of the API that is called, where one is known. `$context.error` is this kind and message, whatever the facts hold;
/// the call's moment is before the year 2100.
///
/// # Errors
///
/// [`Memory`] where there is no memory for its headers or for its body.
#[tactic(auto, unfolding(crate::specs::Answers::gateway_answer))]
pub fn gateway_answer(
    alloc: Global,
    kind: Kind,
    message: &str,
    api: Option<&Api>,
    facts: &CallFacts,
) -> Result<Answer, Memory>
    requires { facts.now.at < 4102444800000 }
    ensures { IfOk result (λ answer. answer ≡ gateway_answer_of kind message.now (option_map (λ a. a.now) api.entry) facts.now) }
{
    let rule = rule_for(alloc, api, kind)?;
    let mut roots = FailureRoots::new(kind, message, facts);
    answer_by(alloc, rule, &mut roots)
}

/// The same, with its kind as its cause.
pub fn fail_by(
    alloc: Global,
    kind: Kind,
    message: &str,
    api: Option<&Api>,
    facts: &CallFacts,
) -> Result<Made, Memory>
    requires { facts.now.at < 4102444800000 }
    ensures { IfOk result (λ made. made ≡ failed_made kind message.now (option_map (λ a. a.now) api.entry) facts.now) }
{
    Ok(Made {
        answer: gateway_answer(alloc, kind, message, api, facts)?,
        cause: Some(kind),
    })
}
