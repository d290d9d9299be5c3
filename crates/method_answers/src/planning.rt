// What a request to an API that is a document comes to.
ghost use Rattle.std.specs.Prelude.{◌≡◌, ◌<◌, length, IfOk, Ok, Err};
ghost use Rattle.api_model.specs.Definition.{parts_of};
ghost use Rattle.integration_flow.specs.Stopping.{Flows};
ghost use Rattle.integration_request.specs.Requests.{HasStatus, wire_of};
ghost use Rattle.method_answers.specs.Plans.{at_resource as at_resource_of, checked, course_of, integrated, let_by, plan_of, planned, validated, way_of};

use crate::authorizing::plan_authorized;
use crate::calls::RoutedCall;
use crate::failing::failed_by;
use crate::keys::Keyed;
use crate::outcomes::{answer_mapped, answer_stopped};
use crate::plans::{Course, Exchange, Plan, Way};
use api_model::Api;
use backend_core::WireRequest;
use call_facts::{CallFacts, Kind, Request, Target};
use gateway_answers::fail_by;
use gw_base::{Memory, Text};
use integration_flow::{FlowStop, mock_reply};
use integration_request::{Prepared, wire_request};
use method_checks::{Route, route, validate};
use method_flow::Made;
use resource_tree::Found;
use std::alloc::Global;

// What is known of a call behind its route.
fn at_resource(
    alloc: Global,
    api: &Api,
    facts: CallFacts,
    resource: u32,
) -> Result<CallFacts, Memory>
    requires { resource < length (parts_of api.now).resources }
    ensures { IfOk result (λ known. known ≡ at_resource_of api.now facts resource) }
{
    let mut facts = facts;
    facts.resource = Text::of(String::from_str(alloc, api.path(resource))?);
    Ok(facts)
}

fn prepare(alloc: Global, call: &RoutedCall) -> Result<Prepared, FlowStop>
    ensures range { IfOk result HasStatus }
    ensures made { Flows (wire_of call.now.definition call.now.method call.now.request call.now.target call.now.found call.now.facts) result }
{
    wire_request(
        alloc,
        call.api,
        call.method,
        call.request,
        call.target,
        &call.found,
        &call.facts,
    )
}

// By what the integration prepares.
fn integrate<'a>(alloc: Global, call: RoutedCall<'a>) -> Result<Plan<'a>, Memory>
    ensures { IfOk result (λ plan. plan_of plan ≡ integrated call.entry) }
{
    let prepared = match prepare(alloc, &call) {
        Ok(prepared) => prepared,
        Err(stop) => return Ok(Plan::Answered(answer_stopped(alloc, &call, stop)?)),
    };
    let (request, passes) = match prepared {
        Prepared::Wire(request) => (request, false),
        Prepared::Proxy(request) => (request, true),
        Prepared::Mock(status) => {
            let reply = mock_reply(alloc, status);
            return Ok(Plan::Answered(answer_mapped(alloc, &call, &reply)?));
        }
    };
    Ok(Plan::Asks(Exchange {
        request,
        passes,
        call,
    }))
}

// Behind the checks.
fn plan_checked<'a>(
    alloc: Global,
    call: RoutedCall<'a>,
    failed: Option<(Kind, Text)>,
) -> Result<Plan<'a>, Memory>
    ensures { IfOk result (λ plan. plan_of plan ≡ checked call.entry failed) }
{
    match failed {
        Some((kind, message)) => Ok(Plan::Answered(fail_by(
            alloc,
            kind,
            message.as_str(),
            Some(call.api),
            &call.facts,
        )?)),
        None => integrate(alloc, call),
    }
}

/// Makes the checks of a call that may come to its method.
pub(crate) fn plan_validated<'a>(alloc: Global, call: RoutedCall<'a>) -> Result<Plan<'a>, Memory>
    ensures { IfOk result (λ plan. plan_of plan ≡ validated call.entry) }
{
    let failed = validate(
        alloc,
        call.api,
        call.method,
        call.request,
        call.target,
        &call.found,
    )?;
    plan_checked(alloc, call, failed)
}

/// Before the checks of a call that its authorizer lets by: where the method asks for a key, the call must be admitted.
pub(crate) fn plan_let_by<'a>(alloc: Global, call: RoutedCall<'a>) -> Result<Way<'a>, Memory>
    ensures { IfOk result (λ way. way_of way ≡ let_by call.entry) }
{
    if call.api.api_key_required(call.method) {
        Ok(Way::Admits(Keyed { call }))
    } else {
        Ok(Way::Goes(plan_validated(alloc, call)?))
    }
}

/// What a request for an API that is a document comes to: the first of its route, its authorizer, its key, its parameters and its
/// body that fails is answered (API Gateway Developer Guide, "Use API Gateway Lambda authorizers", "API keys", "Request validation"
/// and "Gateway responses"), and behind these checks its method's integration answers it, or asks a backend. Where the method has
/// an authorizer and the call a good token, that is asked; where the method asks for a key, an admission decides. The call's moment
/// is before the year 2100.
///
/// # Errors
///
/// [`Memory`] where there is no memory for the route, for the token, for the name of the call, for the checks, for the request to the
/// backend or for the answer.
#[tactic(auto, unfolding(crate::specs::Plans::planned))]
pub fn plan_method<'a>(
    alloc: Global,
    api: &'a Api,
    request: &'a Request,
    target: &'a Target,
    facts: CallFacts,
) -> Result<Course<'a>, Memory>
    requires { facts.at < 4102444800000 }
    ensures { IfOk result (λ course. course_of course ≡ planned api.now request.now target.now facts) }
{
    let kind = match route(alloc, api, request, target)? {
        Route::Hit(found, method) => {
            let facts = at_resource(alloc, api, facts, found.resource)?;
            return plan_authorized(
                alloc,
                RoutedCall {
                    api,
                    method,
                    request,
                    target,
                    found,
                    facts,
                },
            );
        }
        Route::Missing => Kind::MissingAuthenticationToken,
        Route::TextApi => Kind::ApiConfigurationError,
    };
    let made = failed_by(alloc, kind, api, &facts)?;
    Ok(Course::Free(Way::Goes(Plan::Answered(made))))
}
