// What a client is answered where a backend replied.
ghost use Rattle.std.specs.Prelude.{◌≡◌, ◌<◌, []};
ghost use Rattle.std.specs.Option.{option_map};
ghost use Rattle.gateway_vars.specs.Meanings.{response_held, response_kept};
ghost use Rattle.integration_flow.specs.Answers.{answer_at as answer_at_of, answer_from as answer_from_of, client_of, rendered_media as rendered_media_of};
ghost use Rattle.integration_flow.specs.Stopping.{Flows};
ghost use Rattle.resource_tree.specs.Parameters.{value_at};

use crate::headers::{are_writable, mapped, typed, written_over};
use crate::rendering::written;
use crate::replies::ReadReply;
use crate::statuses::status_over;
use crate::stops::FlowStop;
use crate::written::Written;
use api_model::ResponseRule;
use call_facts::{Answer, CallFacts, Request, Target, WireReply};
use gateway_vars::ResponseRoots;
use gw_base::Text;
use media_types::media_type;
use resource_tree::Found;
use std::alloc::Global;
use vtl_reader::Template;

/// The template of this media type.
pub fn template_for<'a>(templates: &'a [(Text, Template)], media: &str) -> Option<&'a Template>
    ensures { option_map (λ t. t.now) result ≡ value_at templates.now media.now }
{
    for template in templates {
        if template.0.as_str() == media {
            return Some(&template.1);
        }
    }
    None
}

fn rendered_media<'a>(media: &'a str, template: Option<&Template>) -> Option<&'a str>
    ensures { option_map (λ m. m.now) result ≡ rendered_media_of media.now (option_map (λ t. t.now) template.entry) }
{
    match template {
        Some(_) => Some(media),
        None => None,
    }
}

#[tactic(auto, unfolding(crate::specs::Answers::answer_from))]
fn answer_from(
    alloc: Global,
    status: u16,
    mapped: &[(Text, Text)],
    media: Option<&str>,
    reply: &WireReply,
    written: Written,
) -> Result<Answer, FlowStop>
    ensures { Flows (answer_from_of status mapped.now (option_map (λ m. m.now) media.entry) reply.now written) result }
{
    let Written { body, overrides } = written;
    if !(are_writable(mapped) && are_writable(overrides.headers.as_slice())) {
        return Err(FlowStop::Config);
    }
    let status = status_over(status, overrides.status.as_ref())?;
    let headers = typed(alloc, mapped, media, reply)?;
    Ok(Answer {
        status,
        headers: written_over(alloc, headers, overrides.headers.as_slice())?,
        body,
    })
}

#[tactic(auto, unfolding(crate::specs::Answers::answer_at))]
fn answer_at(
    alloc: Global,
    rule: &ResponseRule,
    roots: ResponseRoots,
    reply: &ReadReply,
    media: &str,
) -> Result<Answer, FlowStop>
    requires { response_kept roots ≡ [] }
    ensures { Flows (answer_at_of rule.now (response_held roots.entry) reply.now media.now) result }
{
    let mapped = mapped(alloc, &roots, reply, rule.parameters.as_slice())?;
    let template = template_for(rule.templates.as_slice(), media);
    let written = written(alloc, template, roots, reply.reply())?;
    let media = rendered_media(media, template);
    answer_from(alloc, rule.status, &mapped, media, reply.reply(), written)
}

/// The answer that a response rule makes of a backend's reply to a request (API Gateway Developer Guide, "Integration
/// response"). The call's moment is before the year 2100.
///
/// # Errors
///
/// - [`FlowStop::Config`] where the template stops by a limit, where a mapped or overriding header may not be written, and
///   where what is written over the status is none from 200 to 599.
/// - [`FlowStop::Memory`] where there is no memory for the answer.
#[tactic(auto, unfolding(crate::specs::Answers::client_of))]
pub fn client_answer(
    alloc: Global,
    rule: &ResponseRule,
    request: &Request,
    target: &Target,
    found: &Found,
    facts: &CallFacts,
    reply: &WireReply,
) -> Result<Answer, FlowStop>
    requires { facts.now.at < 4102444800000 }
    ensures { Flows (client_of rule.now request.now target.now found.now facts.now reply.now) result }
{
    let roots = ResponseRoots::new(alloc, request, target, found, facts, reply)?;
    let media = media_type(alloc, reply.headers.as_slice())?;
    let reply = ReadReply::new(alloc, reply)?;
    answer_at(alloc, rule, roots, &reply, media.as_str())
}
