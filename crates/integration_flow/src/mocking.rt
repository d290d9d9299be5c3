// What an integration without a backend tells.
ghost use Rattle.std.specs.Prelude.{◌≡◌, ◌≤◌, ◌<◌, IfOk, Some};
ghost use Rattle.gateway_vars.specs.Documents.{document};
ghost use Rattle.integration_flow.specs.Mocking.{mock_reply as mock_reply_of, mock_status as mock_status_of, number_in as number_in_of, status_in as status_in_of};
ghost use Rattle.integration_flow.specs.Stopping.{Flows};
ghost use Rattle.json_subset.specs.Documents.{root_tree};

use crate::preparing::prepared;
use crate::stops::FlowStop;
use crate::written::Written;
use api_model::Integration;
use call_facts::{CallFacts, Request, Target, WireReply};
use gateway_vars::{RequestRoots, read_document};
use gw_base::{Bytes, Seq};
use json_subset::{Doc, Kind};
use resource_tree::Found;
use std::alloc::Global;

fn number_in(kind: Kind) -> Result<u16, FlowStop>
    ensures range { IfOk result (λ n. (100 ≤ n) × (n < 1000)) }
    ensures number { Flows (number_in_of kind) result }
{
    match kind {
        Kind::Whole(z) => {
            if 100 <= z && z <= 999 {
                Ok(z.unsigned_abs() as u16)
            } else {
                Err(FlowStop::Config)
            }
        }
        Kind::Null => Err(FlowStop::Config),
        Kind::Bool(_) => Err(FlowStop::Config),
        Kind::Decimal => Err(FlowStop::Config),
        Kind::Wide => Err(FlowStop::Config),
        Kind::Text => Err(FlowStop::Config),
        Kind::List(_) => Err(FlowStop::Config),
        Kind::Object(_) => Err(FlowStop::Config),
    }
}

fn number_of(doc: &Doc) -> Result<u16, FlowStop>
    ensures range { IfOk result (λ n. (100 ≤ n) × (n < 1000)) }
    ensures number { Flows (status_in_of (Some (root_tree doc.now))) result }
{
    match doc.member(doc.root(), "statusCode") {
        Some(id) => number_in(doc.kind(id)),
        None => Err(FlowStop::Config),
    }
}

// The status that a prepared body tells.
fn status_in(alloc: Global, body: &[u8]) -> Result<u16, FlowStop>
    ensures range { IfOk result (λ n. (100 ≤ n) × (n < 1000)) }
    ensures number { Flows (status_in_of (document body.now)) result }
{
    match read_document(alloc, body)? {
        Some(doc) => number_of(&doc),
        None => Err(FlowStop::Config),
    }
}

/// The status that an integration without a backend tells (API Gateway Developer Guide, "Set up mock integrations"): the body
/// that it prepares is a JSON object whose `statusCode` is a whole number from 100 to 999. What the request's template writes
/// over goes nowhere. The call's moment is before the year 2100.
///
/// # Errors
///
/// - [`FlowStop::Media`] where no template stands for the request's media type, and its body may not be passed on.
/// - [`FlowStop::Config`] where the template stops by a limit, and where the body tells no status.
/// - [`FlowStop::Memory`] where there is no memory for the body.
#[tactic(auto, unfolding(crate::specs::Mocking::mock_status))]
pub fn mock_status(
    alloc: Global,
    integration: &Integration,
    request: &Request,
    target: &Target,
    found: &Found,
    facts: &CallFacts,
) -> Result<u16, FlowStop>
    requires { facts.now.at < 4102444800000 }
    ensures range { IfOk result (λ n. (100 ≤ n) × (n < 1000)) }
    ensures status { Flows (mock_status_of integration.now request.now target.now found.now facts.now) result }
{
    let roots = RequestRoots::new(alloc, request, target, found, facts)?;
    let Written { body, overrides: _ } = prepared(alloc, integration, request, roots)?;
    status_in(alloc, body.as_slice())
}

/// The reply that stands for a backend's: the status, no headers and no body. The answer to the client is made of it as of
/// others, by [`choose_response`](crate::choose_response) and [`client_answer`](crate::client_answer).
pub fn mock_reply(alloc: Global, status: u16) -> WireReply
    ensures { result ≡ mock_reply_of status }
{
    WireReply {
        status,
        headers: Seq::new(alloc),
        body: Bytes::of(Vec::new(alloc)),
    }
}
