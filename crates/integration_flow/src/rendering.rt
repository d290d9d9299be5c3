// What a response rule's template makes of a reply.
ghost use Rattle.std.specs.Prelude.{◌≡◌, ◌≢◌, [], Ok, Err, IfOk, IfErr};
ghost use Rattle.std.specs.Option.{option_map};
ghost use Rattle.gateway_vars.specs.Meanings.{response_held, response_kept};
ghost use Rattle.gateway_vars.specs.Overriding.{nothing as no_changes};
ghost use Rattle.integration_flow.specs.Answers.{written as written_of};
ghost use Rattle.gateway_vars.specs.declared.slots.Side.TheVariants as sides;
ghost use Rattle.integration_flow.specs.Rendering.{rendered as rendered_of, run as run_of};
ghost use Rattle.integration_flow.specs.Stopping.{Flows};

use crate::stops::FlowStop;
use crate::written::Written;
use call_facts::WireReply;
use gateway_vars::{Overrides, ResponseRoots};
use gw_base::{Bytes, Seq};
use method_flow::BUDGET;
use std::alloc::Global;
use vtl_eval::{Rendered, Stop, render};
use vtl_reader::Template;

/// Nothing is written over.
pub fn nothing(alloc: Global) -> Overrides
    ensures { result ≡ no_changes }
{
    Overrides {
        headers: Seq::new(alloc),
        query: Seq::new(alloc),
        path: Seq::new(alloc),
        status: None,
    }
}

// The text of a template over a reply, within the budget of all renders.
#[tactic(auto, unfolding(crate::specs::Rendering::run))]
fn run(alloc: Global, template: &Template, roots: &mut ResponseRoots) -> Result<Rendered, Stop>
    requires { response_kept roots.old ≡ [] }
    ensures made { IfOk result (λ rendered. run_of sides.Response (response_held roots.old) template.now ≡ Ok (rendered, response_kept roots.new)) }
    ensures stop { IfErr result (λ stop. stop ≢ Stop.Memory → run_of sides.Response (response_held roots.old) template.now ≡ Err (stop, response_kept roots.new)) }
{
    render(alloc, template, roots, BUDGET)
}

/// The text of a render.
pub fn rendered_text(rendered: Rendered) -> Bytes
    ensures { result ≡ rendered.text }
{
    Bytes::of(rendered.text.into_inner().into_bytes())
}

// The text of a template, and what it writes over.
fn rendered(alloc: Global, template: &Template, roots: ResponseRoots) -> Result<Written, FlowStop>
    requires { response_kept roots ≡ [] }
    ensures { Flows (rendered_of sides.Response (response_held roots.entry) template.now) result }
{
    let mut roots = roots;
    match run(alloc, template, &mut roots) {
        Ok(rendered) => Ok(Written {
            overrides: roots.overrides(alloc)?,
            body: rendered_text(rendered),
        }),
        Err(Stop::Memory) => Err(FlowStop::Memory),
        Err(_) => Err(FlowStop::Config),
    }
}

/// The body of an answer by this template, or where there is none the reply's, with what is written over.
pub fn written(
    alloc: Global,
    template: Option<&Template>,
    roots: ResponseRoots,
    reply: &WireReply,
) -> Result<Written, FlowStop>
    requires { response_kept roots ≡ [] }
    ensures { Flows (written_of (response_held roots.entry) reply.now (option_map (λ t. t.now) template.entry)) result }
{
    match template {
        Some(template) => rendered(alloc, template, roots),
        None => Ok(Written {
            body: reply.body.copy(alloc)?,
            overrides: nothing(alloc),
        }),
    }
}
