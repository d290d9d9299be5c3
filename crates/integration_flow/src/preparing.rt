// The body that an integration prepares of a request.
ghost use Rattle.std.specs.Prelude.{◌≡◌, ◌≢◌, [], Ok, Err, IfErr, IfOk};
ghost use Rattle.std.specs.Option.{option_map};
ghost use Rattle.gateway_vars.specs.Meanings.{request_held, request_kept};
ghost use Rattle.gateway_vars.specs.declared.slots.Side.TheVariants as sides;
ghost use Rattle.integration_flow.specs.Preparing.{passes as passes_of, prepared as prepared_of, prepared_by as prepared_by_of};
ghost use Rattle.integration_flow.specs.Rendering.{rendered as rendered_of, run as run_of};
ghost use Rattle.integration_flow.specs.Stopping.{Flows};

use crate::answering::template_for;
use crate::rendering::{nothing, rendered_text};
use crate::stops::FlowStop;
use crate::written::Written;
use api_model::{Integration, Passthrough};
use call_facts::Request;
use gateway_vars::RequestRoots;
use media_types::media_type;
use method_flow::BUDGET;
use std::alloc::Global;
use vtl_eval::{Rendered, Stop, render};
use vtl_reader::Template;

fn passes(passthrough: Passthrough, has_none: bool) -> bool
    ensures { result ≡ passes_of passthrough has_none }
{
    match passthrough {
        Passthrough::WhenNoMatch => true,
        Passthrough::WhenNoTemplates => has_none,
        Passthrough::Never => false,
    }
}

// The text of a template over a request, within the budget of all renders.
#[tactic(auto, unfolding(crate::specs::Rendering::run))]
fn run(alloc: Global, template: &Template, roots: &mut RequestRoots) -> Result<Rendered, Stop>
    requires { request_kept roots.old ≡ [] }
    ensures made { IfOk result (λ rendered. run_of sides.Request (request_held roots.old) template.now ≡ Ok (rendered, request_kept roots.new)) }
    ensures stop { IfErr result (λ stop. stop ≢ Stop.Memory → run_of sides.Request (request_held roots.old) template.now ≡ Err (stop, request_kept roots.new)) }
{
    render(alloc, template, roots, BUDGET)
}

// The text of a request's template, and what it writes over.
fn rendered(alloc: Global, template: &Template, roots: RequestRoots) -> Result<Written, FlowStop>
    requires { request_kept roots ≡ [] }
    ensures { Flows (rendered_of sides.Request (request_held roots.entry) template.now) result }
{
    let mut roots = roots;
    match run(alloc, template, &mut roots) {
        Ok(rendered) => Ok(Written {
            overrides: roots.overrides(alloc)?,
            body: rendered_text(rendered),
        }),
        Err(Stop::Memory) => Err(FlowStop::Memory),
        Err(_) => Err(FlowStop::Config),
    }
}

fn prepared_by(
    alloc: Global,
    integration: &Integration,
    template: Option<&Template>,
    request: &Request,
    roots: RequestRoots,
) -> Result<Written, FlowStop>
    requires kept { request_kept roots ≡ [] }
    requires body { (request_held roots).body ≡ request.now.body }
    ensures { Flows (prepared_by_of integration.now (request_held roots.entry) (option_map (λ t. t.now) template.entry)) result }
{
    match template {
        Some(template) => rendered(alloc, template, roots),
        None => {
            if passes(
                integration.passthrough,
                integration.templates.as_slice().is_empty(),
            ) {
                Ok(Written {
                    body: request.body.copy(alloc)?,
                    overrides: nothing(alloc),
                })
            } else {
                Err(FlowStop::Media)
            }
        }
    }
}

/// The body that an integration prepares of a request (API Gateway Developer Guide, "Integration passthrough behaviors"), with
/// what its template writes over: the text of the template for the request's media type, else the request's body. The roots
/// are those of the request, and nothing was written to them.
///
/// # Errors
///
/// - [`FlowStop::Media`] where no template stands for the media type, and the body may not be passed on.
/// - [`FlowStop::Config`] where the template stops by a limit.
/// - [`FlowStop::Memory`] where there is no memory for the body.
#[tactic(auto, unfolding(crate::specs::Preparing::prepared))]
pub fn prepared(
    alloc: Global,
    integration: &Integration,
    request: &Request,
    roots: RequestRoots,
) -> Result<Written, FlowStop>
    requires kept { request_kept roots ≡ [] }
    requires body { (request_held roots).body ≡ request.now.body }
    requires headers { (request_held roots).params.header ≡ request.now.headers }
    ensures { Flows (prepared_of integration.now (request_held roots.entry)) result }
{
    let media = media_type(alloc, request.headers.as_slice())?;
    let template = template_for(integration.templates.as_slice(), media.as_str());
    prepared_by(alloc, integration, template, request, roots)
}
