// What a message comes to.
ghost use Rattle.std.specs.Prelude.{◌≡◌, ◌≢◌, ◌<◌, [], Some, None, Ok, Err, IfOk};
ghost use Rattle.book_rules.specs.Times.{IsInTime};
ghost use Rattle.gate_walk.specs.Planning.{facts_of as facts_of_view, planned_at, planned_by, planned_for, too_large_made};
ghost use Rattle.method_answers.specs.Plans.{answered, course_of, free, goes};
ghost use Rattle.method_flow.specs.Answers.{text_made, text_over};
ghost use Rattle.vtl_grammar.specs.Templates.{tree_of};

use book_rules::{Reply, View};
use call_facts::{CallFacts, Kind, Request, Target};
use gateway_answers::fail_by;
use gw_base::{Memory, Text};
use method_answers::{Course, Plan, Way, plan_method};
use method_flow::{Made, answer_itself, answer_text};
use std::alloc::Global;
use vtl_reader::Template;

// What is known of a call to a stage that has this view.
fn facts_of(alloc: Global, target: &Target, view: &View) -> Result<CallFacts, Memory>
    ensures { IfOk result (λ facts. facts ≡ facts_of_view target.now view.now) }
{
    Ok(CallFacts {
        api: target.api.copy(alloc)?,
        stage: target.stage.copy(alloc)?,
        place: view.place,
        at: view.at,
        deployment: view.deployment,
        canary: view.canary,
        variables: view.variables.share()?,
        resource: Text::of(String::new(alloc)),
        key: None,
        policy: None,
        error: None,
    })
}

// This answer, whoever calls.
fn answers<'a>(made: Made) -> Course<'a>
    ensures { course_of result ≡ free (goes (answered made)) }
{
    Course::Free(Way::Goes(Plan::Answered(made)))
}

// A text API answers with its template.
fn plan_text<'a>(
    alloc: Global,
    template: &Template,
    request: &Request,
    target: &Target,
    facts: &CallFacts,
) -> Result<Course<'a>, Memory>
    requires { facts.now.at < 4102444800000 }
    ensures { IfOk result (λ course. course_of course ≡ free (goes (answered (text_made (text_over request.now target.now facts.now (tree_of template.now)))))) }
{
    Ok(answers(answer_text(alloc, template, request, target, facts)?))
}

// Under a stage that has this view.
fn plan_at<'a>(
    alloc: Global,
    view: &'a View,
    request: &'a Request,
    target: &'a Target,
) -> Result<Course<'a>, Memory>
    requires { view.now.at < 4102444800000 }
    ensures { IfOk result (λ course. course_of course ≡ planned_at view.now.api.is_text view.now request.now target.now) }
{
    let facts = facts_of(alloc, target, view)?;
    let api = view.api.value();
    match api.text_template() {
        Some(template) => plan_text(alloc, template, request, target, &facts),
        None => plan_method(alloc, api, request, target, facts),
    }
}

// A whole message whose Enter was replied so.
fn plan_by<'a>(
    alloc: Global,
    reply: &'a Reply,
    request: &'a Request,
    target: &'a Target,
) -> Result<Course<'a>, Memory>
    requires { IsInTime reply.now }
    ensures { IfOk result (λ course. course_of course ≡ planned_by reply.now request.now target.now) }
{
    match reply {
        Reply::Entered(view) => plan_at(alloc, view, request, target),
        _ => Ok(answers(answer_itself(alloc, Kind::UnknownStage)?)),
    }
}

// A message whose body is too large is refused.
fn refuse_size(alloc: Global, reply: &Reply, target: &Target) -> Result<Made, Memory>
    requires { IsInTime reply.now }
    ensures { IfOk result (λ made. made ≡ too_large_made reply.now target.now) }
{
    let kind = Kind::RequestTooLarge;
    match reply {
        Reply::Entered(view) => {
            let facts = facts_of(alloc, target, view)?;
            fail_by(alloc, kind, kind.message(), Some(view.api.value()), &facts)
        }
        _ => answer_itself(alloc, kind),
    }
}

/// What a message comes to whose Enter was replied so: an answer, an exchange with a backend, what its admission leads to, or what an
/// authorizer lets it come to. The size of its body is tested before its stage.
///
/// # Errors
///
/// [`Memory`] where there is no memory for it.
pub fn plan_for<'a>(
    alloc: Global,
    too_large: bool,
    reply: &'a Reply,
    request: &'a Request,
    target: &'a Target,
) -> Result<Course<'a>, Memory>
    requires { IsInTime reply.now }
    ensures { IfOk result (λ course. course_of course ≡ planned_for too_large reply.now request.now target.now) }
{
    if too_large {
        Ok(answers(refuse_size(alloc, reply, target)?))
    } else {
        plan_by(alloc, reply, request, target)
    }
}
