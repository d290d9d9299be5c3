// The request of an integration of type HTTP.
ghost use Rattle.std.specs.Prelude.{◌≡◌, ◌<◌, IfOk};
ghost use Rattle.integration_flow.specs.Stopping.{Flows};
ghost use Rattle.integration_request.specs.Requests.{http_made as http_made_of, http_of, http_out as http_out_of};

use crate::asking::Asking;
use crate::headers::with_type;
use crate::mapping::{Mapped, map_parts};
use crate::outgoing::Outgoing;
use crate::placing::over_mapped;
use crate::queries::over_pairs;
use crate::wire::sent;
use crate::writing::{may_be_mapped, may_be_over};
use api_model::Integration;
use backend_core::WireRequest;
use call_facts::{CallFacts, Request, Target};
use gw_base::{Memory, Text};
use integration_flow::{FlowStop, Written, written_over};
use resource_tree::Found;
use std::alloc::Global;
use wire_text::query_text;

// What the request carries.
fn http_out(
    alloc: Global,
    request: &Request,
    mapped: Mapped,
    made: Written,
) -> Result<Outgoing, Memory>
    ensures { IfOk result (λ out. out ≡ http_out_of request.now mapped made) }
{
    let Mapped {
        headers,
        query,
        path,
    } = mapped;
    let Written { body, overrides } = made;
    let headers = written_over(alloc, headers.into_inner(), overrides.headers.as_slice())?;
    let pairs = over_pairs(alloc, query.as_slice(), overrides.query.as_slice())?;
    Ok(Outgoing {
        path: over_mapped(alloc, overrides.path.as_slice(), path.as_slice())?,
        query: query_text(alloc, &pairs)?,
        headers: with_type(alloc, request.headers.as_slice(), headers)?,
        body,
    })
}

#[tactic(auto, unfolding(crate::specs::Requests::http_made))]
fn http_made(
    alloc: Global,
    integration: &Integration,
    request: &Request,
    variables: &[(Text, Text)],
    mapped: Mapped,
    made: Written,
) -> Result<WireRequest, FlowStop>
    ensures { Flows (http_made_of integration.now request.now variables.now mapped made) result }
{
    if !(may_be_mapped(&mapped) && may_be_over(&made.overrides)) {
        return Err(FlowStop::Config);
    }
    let out = http_out(alloc, request, mapped, made)?;
    sent(alloc, integration, variables, out)
}

/// The request of an integration of type HTTP, of a method of the resource of this path.
#[tactic(auto, unfolding(crate::specs::Requests::http_of))]
pub fn http_request(
    alloc: Global,
    integration: &Integration,
    resource: &str,
    request: &Request,
    target: &Target,
    found: &Found,
    facts: &CallFacts,
) -> Result<WireRequest, FlowStop>
    requires { facts.now.at < 4102444800000 }
    ensures { Flows (http_of integration.now resource.now request.now target.now found.now facts.now) result }
{
    let asking = Asking::new(alloc, request, target, found, facts)?;
    let mapped = map_parts(alloc, resource, &asking, integration.parameters.as_slice())?;
    let made = asking.prepare(alloc, integration)?;
    let variables = facts.variables.value().pairs.as_slice();
    http_made(alloc, integration, request, variables, mapped, made)
}
