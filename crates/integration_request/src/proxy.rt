// The request of an integration of type HTTP_PROXY.
ghost use Rattle.std.specs.Prelude.{◌≡◌, ◌<◌, IfOk};
ghost use Rattle.integration_flow.specs.Stopping.{Flows};
ghost use Rattle.integration_request.specs.Requests.{proxy_made as proxy_made_of, proxy_of, proxy_out as proxy_out_of};

use crate::asking::Asking;
use crate::mapping::{Mapped, map_parts};
use crate::outgoing::Outgoing;
use crate::queries::{proxied, raw_query};
use crate::wire::sent;
use crate::writing::may_be_mapped;
use api_model::Integration;
use backend_core::WireRequest;
use call_facts::{CallFacts, Request, Target};
use gw_base::{Memory, Text};
use integration_flow::{FlowStop, written_over};
use resource_tree::Found;
use std::alloc::Global;
use wire_text::passed_on;

// What the request carries.
fn proxy_out(
    alloc: Global,
    request: &Request,
    target: &Target,
    mapped: Mapped,
) -> Result<Outgoing, Memory>
    ensures { IfOk result (λ out. out ≡ proxy_out_of request.now target.now mapped) }
{
    let Mapped {
        headers,
        query,
        path,
    } = mapped;
    let passed = passed_on(alloc, request.headers.as_slice())?;
    let raw = raw_query(request.target.as_str());
    Ok(Outgoing {
        path,
        query: proxied(alloc, raw, target.query.as_slice(), query.as_slice())?,
        headers: written_over(alloc, passed, headers.as_slice())?,
        body: request.body.copy(alloc)?,
    })
}

#[tactic(auto, unfolding(crate::specs::Requests::proxy_made))]
fn proxy_made(
    alloc: Global,
    integration: &Integration,
    request: &Request,
    target: &Target,
    variables: &[(Text, Text)],
    mapped: Mapped,
) -> Result<WireRequest, FlowStop>
    ensures { Flows (proxy_made_of integration.now request.now target.now variables.now mapped) result }
{
    if !may_be_mapped(&mapped) {
        return Err(FlowStop::Config);
    }
    let out = proxy_out(alloc, request, target, mapped)?;
    sent(alloc, integration, variables, out)
}

/// The request of an integration of type HTTP_PROXY, of a method of the resource of this path.
#[tactic(auto, unfolding(crate::specs::Requests::proxy_of))]
pub fn proxy_request(
    alloc: Global,
    integration: &Integration,
    resource: &str,
    request: &Request,
    target: &Target,
    found: &Found,
    facts: &CallFacts,
) -> Result<WireRequest, FlowStop>
    requires { facts.now.at < 4102444800000 }
    ensures { Flows (proxy_of integration.now resource.now request.now target.now found.now facts.now) result }
{
    let asking = Asking::new(alloc, request, target, found, facts)?;
    let mapped = map_parts(alloc, resource, &asking, integration.parameters.as_slice())?;
    let variables = facts.variables.value().pairs.as_slice();
    proxy_made(alloc, integration, request, target, variables, mapped)
}
