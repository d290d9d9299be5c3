// What an integration makes of a request.
ghost use Rattle.std.specs.Prelude.{◌≡◌, ◌<◌, IfOk, length};
ghost use Rattle.api_model.specs.Definition.{parts_of};
ghost use Rattle.integration_flow.specs.Stopping.{Flows};
ghost use Rattle.integration_request.specs.Requests.{HasStatus, made_for as made_for_of, resource_path as resource_path_of, wire_of};

use crate::http::http_request;
use crate::made::Prepared;
use crate::proxy::proxy_request;
use api_model::{Api, Integration, IntegrationKind};
use call_facts::{CallFacts, Request, Target};
use integration_flow::{FlowStop, mock_status};
use resource_tree::Found;
use std::alloc::Global;

// The path of the resource that was found.
#[tactic(auto, using(std::proofs::lemmas::Option::slice_get_past))]
fn resource_path<'a>(api: &'a Api, found: &Found) -> &'a str
    ensures { result.now ≡ resource_path_of api.now found.now }
{
    if found.resource < api.resources() {
        api.path(found.resource)
    } else {
        ""
    }
}

fn made_for(
    alloc: Global,
    integration: &Integration,
    resource: &str,
    request: &Request,
    target: &Target,
    found: &Found,
    facts: &CallFacts,
) -> Result<Prepared, FlowStop>
    requires { facts.now.at < 4102444800000 }
    ensures range { IfOk result HasStatus }
    ensures made { Flows (made_for_of integration.now.kind integration.now resource.now request.now target.now found.now facts.now) result }
{
    match integration.kind {
        IntegrationKind::Mock => {
            let status = mock_status(alloc, integration, request, target, found, facts)?;
            Ok(Prepared::Mock(status))
        }
        IntegrationKind::Http => {
            let sent = http_request(alloc, integration, resource, request, target, found, facts)?;
            Ok(Prepared::Wire(sent))
        }
        IntegrationKind::HttpProxy => {
            let sent = proxy_request(alloc, integration, resource, request, target, found, facts)?;
            Ok(Prepared::Proxy(sent))
        }
    }
}

/// What the integration of a method makes of a request for it (API Gateway Developer Guide, "Integrations for REST APIs"): the
/// status that stands for a reply where it has no backend, else the request that is sent there. The call's moment is before
/// the year 2100.
///
/// # Errors
///
/// - [`FlowStop::Media`] where no template stands for the request's media type, and its body may not be passed on. It comes
///   before all else.
/// - [`FlowStop::Config`] where a template stops by a limit, where the prepared body of an integration without a backend tells
///   no status, where a name or a value that is mapped or written over may not be written, and where the `uri` is none with
///   its values.
/// - [`FlowStop::Memory`] where there is no memory for it.
#[tactic(auto, unfolding(crate::specs::Requests::wire_of))]
pub fn wire_request(
    alloc: Global,
    api: &Api,
    method: u32,
    request: &Request,
    target: &Target,
    found: &Found,
    facts: &CallFacts,
) -> Result<Prepared, FlowStop>
    requires method { method < length (parts_of api.now).methods }
    requires time { facts.now.at < 4102444800000 }
    ensures range { IfOk result HasStatus }
    ensures made { Flows (wire_of api.now method request.now target.now found.now facts.now) result }
{
    let integration = api.integration(method);
    let resource = resource_path(api, found);
    made_for(alloc, integration, resource, request, target, found, facts)
}
