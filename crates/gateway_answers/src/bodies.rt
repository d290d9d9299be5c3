// The body of a gateway response.
ghost use Rattle.std.specs.Prelude.{◌≡◌, ◌≢◌, Ok, Err, IfOk, IfErr};
ghost use Rattle.std.specs.Option.{option_map};
ghost use Rattle.gateway_answers.specs.Answers.{body_by as body_by_of, body_of, default_body as default_body_of, failure_text};

use gateway_vars::{FailureRoots, json_string};
use gw_base::{Bytes, Memory};
use method_flow::BUDGET;
use std::alloc::Global;
use vtl_eval::{Rendered, Stop, render};
use vtl_reader::Template;

#[tactic(auto, unfolding(crate::specs::Answers::default_body))]
fn default_body(alloc: Global, message: &str) -> Result<Bytes, Memory>
    ensures { IfOk result (λ body. body ≡ default_body_of message.now) }
{
    let mut body = String::from_str(alloc, "{\"message\":")?;
    let message = json_string(alloc, message)?;
    body.push_str(message.as_str())?;
    body.push_str("}")?;
    Ok(Bytes::of(body.into_bytes()))
}

// The text of a template in a gateway response, within the budget of all renders.
fn render_failure(
    alloc: Global,
    template: &Template,
    roots: &mut FailureRoots,
) -> Result<Rendered, Stop>
    ensures made { IfOk result (λ rendered. failure_text roots.old template.now ≡ Ok rendered) }
    ensures stop { IfErr result (λ stop. stop ≢ Stop.Memory → failure_text roots.old template.now ≡ Err stop) }
{
    render(alloc, template, roots, BUDGET)
}

fn rendered_body(
    alloc: Global,
    template: &Template,
    roots: &mut FailureRoots,
) -> Result<Bytes, Memory>
    ensures { IfOk result (λ body. body ≡ body_of roots.old.message (failure_text roots.old template.now)) }
{
    let message = roots.message();
    match render_failure(alloc, template, roots) {
        Ok(rendered) => Ok(Bytes::of(rendered.text.into_inner().into_bytes())),
        Err(Stop::Memory) => Err(Memory),
        Err(_) => default_body(alloc, message),
    }
}

/// The body of a gateway response with this template, or with none.
pub(crate) fn body_by(
    alloc: Global,
    template: Option<&Template>,
    roots: &mut FailureRoots,
) -> Result<Bytes, Memory>
    ensures { IfOk result (λ body. body ≡ body_by_of roots.old (option_map (λ t. t.now) template.entry)) }
{
    match template {
        Some(template) => rendered_body(alloc, template, roots),
        None => default_body(alloc, roots.message()),
    }
}
