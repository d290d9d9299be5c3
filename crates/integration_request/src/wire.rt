// A request with its destination.
ghost use Rattle.std.specs.Prelude.{◌≡◌, IfOk};
ghost use Rattle.std.specs.Option.{option_map};
ghost use Rattle.integration_flow.specs.Stopping.{Flows};
ghost use Rattle.integration_request.specs.Wire.{destination_by as destination_by_of, sent as sent_of, wired as wired_of};

use crate::headers::framed;
use crate::outgoing::Outgoing;
use api_model::{Integration, Uri};
use backend_core::WireRequest;
use gw_base::{Memory, Text};
use integration_flow::FlowStop;
use std::alloc::Global;
use wire_text::{Destination, PathValue, destination, message, with_query};

fn destination_by(
    alloc: Global,
    uri: Option<&Uri>,
    variables: &[(Text, Text)],
    values: &[PathValue],
) -> Result<Option<Destination>, Memory>
    ensures { IfOk result (λ to. to ≡ destination_by_of (option_map (λ u. u.now) uri.entry) variables.now values.now) }
{
    match uri {
        Some(uri) => destination(alloc, uri, variables, values),
        None => Ok(None),
    }
}

// The request as it is written.
fn wired(
    alloc: Global,
    integration: &Integration,
    out: &Outgoing,
    to: Destination,
) -> Result<WireRequest, Memory>
    ensures { IfOk result (λ sent. sent ≡ wired_of integration.now out.now to) }
{
    let target = with_query(alloc, to.path.as_str(), out.query.as_str())?;
    let headers = framed(alloc, &to, out.headers.as_slice(), out.body.as_slice())?;
    let bytes = message(
        alloc,
        integration.method.as_str(),
        target.as_str(),
        &headers,
        out.body.as_slice(),
    )?;
    let Destination {
        host,
        port,
        port_text: _,
        path: _,
    } = to;
    Ok(WireRequest {
        host,
        port,
        timeout: integration.timeout,
        bytes,
    })
}

/// A request to the destination of its integration's uri.
#[tactic(auto, unfolding(crate::specs::Wire::sent))]
pub fn sent(
    alloc: Global,
    integration: &Integration,
    variables: &[(Text, Text)],
    out: Outgoing,
) -> Result<WireRequest, FlowStop>
    ensures { Flows (sent_of integration.now variables.now out) result }
{
    let to = destination_by(
        alloc,
        integration.backend.as_ref(),
        variables,
        out.path.as_slice(),
    )?;
    match to {
        Some(to) => Ok(wired(alloc, integration, &out, to)?),
        None => Err(FlowStop::Config),
    }
}
