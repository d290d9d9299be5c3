// What the command `render` prints of its two files.
ghost use Rattle.std.specs.Prelude.{◌≡◌, ◌<◌, true, Some, Ok, Err, IfOk};
ghost use Rattle.vtl_grammar.specs.Templates.{read_of, tree_of};
ghost use Rattle.play_script.specs.Play.{is_command_status};
ghost use Rattle.gateway_cli.specs.Render.{refused as refused_of, stopped as stopped_of, shown as shown_of, shown_over, read_over as read_over_of, judged as judged_of};
ghost use Rattle.method_flow.specs.Answers.{text_over};

use crate::requests::{render_facts, render_request};
use crate::shown::{Shown, too_long};
use call_facts::{CallFacts, Request, Target};
use gw_base::{Bytes, Memory};
use method_flow::render_text;
use play_script::join;
use std::alloc::Global;
use vtl_eval::Stop;
use vtl_grammar::TemplateFault;
use vtl_reader::Template;

#[tactic(auto, unfolding(crate::specs::Render::refused))]
fn refuse(alloc: Global, fault: &str) -> Result<Shown, Memory>
    ensures output { IfOk result (λ shown. refused_of fault.now ≡ record { text = shown.text; status = shown.status }) }
    ensures known { IfOk result (λ shown. is_command_status shown.status ≡ true) }
{
    Ok(Shown {
        text: join(alloc, &["refused ", fault, " at ~", "\n"])?,
        status: 1,
    })
}

#[tactic(auto, unfolding(crate::specs::Render::stopped))]
fn tell_stop(alloc: Global, stop: Stop) -> Result<Shown, Memory>
    ensures output { IfOk result (λ shown. stopped_of stop ≡ record { text = shown.text; status = shown.status }) }
    ensures known { IfOk result (λ shown. is_command_status shown.status ≡ true) }
{
    let name = stop.to_string(alloc)?;
    Ok(Shown {
        text: join(alloc, &["stop ", name.as_str(), "\n"])?,
        status: 1,
    })
}

// Renders a template over a request and its call.
fn render_at(
    alloc: Global,
    template: &Template,
    request: &Request,
    target: &Target,
    facts: &CallFacts,
) -> Result<Shown, Memory>
    requires { facts.now.at < 4102444800000 }
    ensures output { IfOk result (λ shown. shown_of (text_over request.now target.now facts.now (tree_of template.now)) ≡ record { text = shown.text; status = shown.status }) }
    ensures known { IfOk result (λ shown. is_command_status shown.status ≡ true) }
{
    match render_text(alloc, template, request, target, facts) {
        Ok(rendered) => Ok(Shown {
            text: rendered.text,
            status: 0,
        }),
        Err(Stop::Memory) => Err(Memory),
        Err(stop) => tell_stop(alloc, stop),
    }
}

// Renders a template over the command's request with this body.
#[tactic(auto, unfolding(crate::specs::Requests::render_facts, crate::specs::Render::shown_over))]
fn render_over(alloc: Global, template: &Template, body: &[u8]) -> Result<Shown, Memory>
    ensures output { IfOk result (λ shown. shown_over body.now (tree_of template.now) ≡ record { text = shown.text; status = shown.status }) }
    ensures known { IfOk result (λ shown. is_command_status shown.status ≡ true) }
{
    let request = render_request(alloc, body)?;
    let target = Target::read(alloc, request.target.as_str())?;
    let facts = render_facts(alloc)?;
    render_at(alloc, template, &request, &target, &facts)
}

// Reads a template and renders it over a body.
fn read_over(alloc: Global, template: &str, body: &[u8]) -> Result<Shown, Memory>
    ensures output { IfOk result (λ shown. read_over_of (read_of template.now) body.now ≡ record { text = shown.text; status = shown.status }) }
    ensures known { IfOk result (λ shown. is_command_status shown.status ≡ true) }
{
    match Template::read(alloc, template) {
        Ok(template) => render_over(alloc, &template, body),
        Err(TemplateFault::Memory) => Err(Memory),
        Err(fault) => {
            let fault = fault.to_string(alloc)?;
            refuse(alloc, fault.as_str())
        }
    }
}

/// What is printed of a template's bytes over a body's, where none stand for bytes beyond the limit.
pub fn judge(alloc: Global, template: &Option<Bytes>, body: &Option<Bytes>) -> Result<Shown, Memory>
    ensures output { IfOk result (λ shown. judged_of template.now body.now ≡ record { text = shown.text; status = shown.status }) }
    ensures known { IfOk result (λ shown. is_command_status shown.status ≡ true) }
{
    let (Some(template), Some(body)) = (template, body) else {
        return too_long(alloc);
    };
    let template = String::from_utf8_lossy(alloc, template.as_slice())?;
    read_over(alloc, template.as_str(), body.as_slice())
}
