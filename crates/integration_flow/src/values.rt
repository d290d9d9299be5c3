// The values of the sources of a rule's mappings.
ghost use Rattle.std.specs.Prelude.{◌≡◌, ◌==◌, ℕ, List, [], ◌∷◌, map, IfOk};
ghost use Rattle.std.specs.Borrow.{Bor};
ghost use Rattle.std.specs.List.{slice_split};
ghost use Rattle.call_facts.specs.Pairs.{header_value as reply_header};
ghost use Rattle.gateway_answers.specs.Values.{dotted, text_unless_null};
ghost use Rattle.gateway_vars.specs.Meanings.{response_held};
ghost use Rattle.integration_flow.specs.Values.{value_of as value_of_source};
ghost use Rattle.vtl_eval.specs.Roots.{name as name_step};
ghost use Rattle.vtl_eval.specs.Views.{stepped_of};

use crate::replies::ReadReply;
use api_model::Origin;
use call_facts::header_value;
use gateway_vars::{ResponseRoots, printed_text};
use gw_base::{Memory, Text};
use std::alloc::{AllocError, Global};
use vtl_eval::{Root, Roots, Step};
use vtl_values::Value;

fn names_in<'a>(alloc: Global, dotted: &'a str) -> Result<Vec<&'a str>, AllocError>
    ensures { IfOk result (λ names. map (λ (x : Bor (List ℕ)). x.now) names.items ≡ slice_split (λ b. b == 46) dotted.now) }
{
    dotted.split('.').collect(alloc)
}

fn step_of(alloc: Global, name: &str) -> Result<Step, Memory>
    ensures { IfOk result (λ step. stepped_of step ≡ name_step name.now) }
{
    Ok(Step::Name(Text::of(String::from_str(alloc, name)?)))
}

fn steps_of(alloc: Global, names: &[&str]) -> Result<Vec<Step>, Memory>
    ensures { IfOk result (λ steps. map stepped_of steps.items ≡ map name_step (map (λ (x : Bor (List ℕ)). x.now) names.now)) }
{
    let mut steps = Vec::new(alloc);
    for name in names {
        steps.push(step_of(alloc, name)?)?;
    }
    Ok(steps)
}

fn text_of(alloc: Global, value: &Value) -> Result<Option<Text>, Memory>
    ensures { IfOk result (λ text. text ≡ text_unless_null value.now) }
{
    if value.is_null() {
        Ok(None)
    } else {
        Ok(Some(printed_text(alloc, value)?))
    }
}

/// The text of `context.X` over these roots, by the dotted name X; `None` where it is null.
pub fn context_text<R: Roots>(alloc: Global, roots: &R, name: &str) -> Result<Option<Text>, Memory>
    ensures { IfOk result (λ text. text ≡ text_unless_null ((R.meanings roots.now).value Root.Context (dotted name.now))) }
{
    let names = names_in(alloc, name)?;
    let steps = steps_of(alloc, &names)?;
    let value = roots.get(alloc, Root::Context, &steps)?;
    text_of(alloc, &value)
}

/// The text of a stage variable over these roots; `None` where it is null.
pub fn variable_text<R: Roots>(alloc: Global, roots: &R, name: &str) -> Result<Option<Text>, Memory>
    ensures { IfOk result (λ text. text ≡ text_unless_null ((R.meanings roots.now).value Root.StageVariables (name_step name.now ∷ []))) }
{
    let step = [step_of(alloc, name)?];
    let value = roots.get(alloc, Root::StageVariables, &step)?;
    text_of(alloc, &value)
}

fn header_text(alloc: Global, reply: &ReadReply, name: &str) -> Result<Option<Text>, Memory>
    ensures { IfOk result (λ text. text ≡ reply_header reply.now.headers name.now) }
{
    match header_value(reply.reply().headers.as_slice(), name) {
        Some(value) => Ok(Some(value.copy(alloc)?)),
        None => Ok(None),
    }
}

/// The value of a source where a backend replied so, where it has one.
pub fn value_of(
    alloc: Global,
    roots: &ResponseRoots,
    reply: &ReadReply,
    origin: &Origin,
) -> Result<Option<Text>, Memory>
    ensures { IfOk result (λ text. text ≡ value_of_source (response_held roots.now) reply.now origin.now) }
{
    match origin {
        Origin::Static(text) => Ok(Some(text.copy(alloc)?)),
        Origin::ReplyHeader(name) => header_text(alloc, reply, name.as_str()),
        Origin::Body(path) => reply.text_at(alloc, path),
        Origin::Context(name) => context_text(alloc, roots, name.as_str()),
        Origin::StageVariable(name) => variable_text(alloc, roots, name.as_str()),
        Origin::Parameter(_, _) => Ok(None),
    }
}
