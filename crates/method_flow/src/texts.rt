// The answer of a text API.
ghost use Rattle.std.specs.Prelude.{◌≡◌, ◌≢◌, ◌<◌, Ok, Err, IfOk, IfErr};
ghost use Rattle.vtl_grammar.specs.Templates.{tree_of};
ghost use Rattle.method_flow.specs.Answers.{text_answer as text_answer_of, nothing_found as nothing_found_of, text_over, text_made};

use crate::answers::{Made, answer_itself, text};
use call_facts::{Answer, CallFacts, Kind, Request, Target};
use gateway_vars::RequestRoots;
use gw_base::{Bytes, Memory, Seq, Text};
use resource_tree::Found;
use std::alloc::Global;
use vtl_eval::{Rendered, Stop, render};
use vtl_reader::Template;

/// The most evaluated nodes of a render.
pub const BUDGET: u64 = 1_000_000;

fn nothing_found(alloc: Global) -> Found
    ensures { result ≡ nothing_found_of }
{
    Found {
        resource: 0,
        params: Seq::new(alloc),
    }
}

#[tactic(auto, unfolding(crate::specs::Answers::text_answer))]
fn text_answer(alloc: Global, rendered: Text) -> Result<Answer, Memory>
    ensures { IfOk result (λ answer. answer ≡ text_answer_of rendered) }
{
    let mut headers = Seq::new(alloc);
    headers.push((text(alloc, "content-type")?, text(alloc, "text/plain")?))?;
    Ok(Answer {
        status: 200,
        headers,
        body: Bytes::of(rendered.into_inner().into_bytes()),
    })
}

/// The text of a template over a request and its call, within the budget of a text API. The call's moment is before the
/// year 2100.
///
/// # Errors
///
/// The limit that the render meets first, in order of evaluation; [`Stop::Memory`] where memory is wanting.
#[tactic(auto, unfolding(crate::specs::Answers::budget))]
pub fn render_text(
    alloc: Global,
    template: &Template,
    request: &Request,
    target: &Target,
    facts: &CallFacts,
) -> Result<Rendered, Stop>
    requires { facts.now.at < 4102444800000 }
    ensures made { IfOk result (λ rendered. text_over request.now target.now facts.now (tree_of template.now) ≡ Ok rendered) }
    ensures stop { IfErr result (λ stop. stop ≢ Stop.Memory → text_over request.now target.now facts.now (tree_of template.now) ≡ Err stop) }
{
    let found = nothing_found(alloc);
    let Ok(mut roots) = RequestRoots::new(alloc, request, target, &found, facts) else {
        return Err(Stop::Memory);
    };
    render(alloc, template, &mut roots, BUDGET)
}

/// The answer of a text API with this template; where the render stops, the API is configured badly.
pub fn answer_text(
    alloc: Global,
    template: &Template,
    request: &Request,
    target: &Target,
    facts: &CallFacts,
) -> Result<Made, Memory>
    requires { facts.now.at < 4102444800000 }
    ensures { IfOk result (λ made. made ≡ text_made (text_over request.now target.now facts.now (tree_of template.now))) }
{
    match render_text(alloc, template, request, target, facts) {
        Ok(rendered) => Ok(Made {
            answer: text_answer(alloc, rendered.text)?,
            cause: None,
        }),
        Err(Stop::Memory) => Err(Memory),
        Err(_) => answer_itself(alloc, Kind::ApiConfigurationError),
    }
}
