// Expressions.
ghost use Rattle.std.specs.Prelude.{◌≡◌, ◌≤◌, ◌<◌, IsTrue, length, IfOk};
ghost use Rattle.vtl_grammar.specs.Tree.{named, string};
ghost use Rattle.vtl_grammar.specs.Expanded.{base_with, exprs_with, pairs_with, part_with, parts_with, step_with, steps_with};
ghost use Rattle.vtl_values.specs.Making.{listed};
ghost use Rattle.vtl_values.specs.Printed.{printed};
ghost use Rattle.vtl_words.specs.Views.{op_of};
ghost use Rattle.vtl_reader.specs.Nodes.{expr_of, exprs_made, step_made, steps_made, part_made, parts_made, pairs_made, AllBelow, StepBelow, StepsBelow, PartBelow, PartsBelow, PairsBelow, LinksBelow};
ghost use Rattle.vtl_eval.specs.Frames.{arguments_of, is_sound, seen};
ghost use Rattle.vtl_eval.specs.Meaning.{value, started, values_of, pairs_of, piece, pieces, stepped, walked, operated};
ghost use Rattle.vtl_eval.specs.Views.{Gives, scene_of, reached_of};
ghost use Rattle.vtl_eval.specs.Evaluated.{referred, referred_on, chain, linked};
ghost use Rattle.vtl_eval.specs.References.{at_value};

use crate::frame::{Frame, argument};
use crate::operators::{compute, settled_by};
use crate::pieces::{Pieces, text_value};
use crate::reached::Reached;
use crate::references::{
    after_call, after_index, after_name, begin_reference, call_value, end_reference, settle,
    shown_value,
};
use crate::roots::Roots;
use crate::run::{Run, literal, make, spend, spend_all};
use crate::stop::Fail;
use gw_base::{Memory, Text};
use std::alloc::Global;
use vtl_reader::{Arena, ExprNode, Link, Pair, Part, Step as StepNode};
use vtl_values::{ListMaker, MapMaker, Value, item_at, member, ranged};
use vtl_words::operators::Operator;

// The list of values.
fn listed_value(alloc: Global, values: Vec<Value>) -> Result<Value, Memory>
    ensures { IfOk result (λ v. v ≡ listed values.items) }
{
    let mut maker = ListMaker::new(alloc);
    for value in values {
        maker.push(value)?;
    }
    maker.close(alloc)
}

// A literal string.
fn eval_text<R: Roots>(
    alloc: Global,
    _roots: &R,
    budget: u64,
    run: &mut Run,
    k: usize,
    text: &str,
) -> Result<Value, Fail>
    ensures { Gives (λ v. v) result (scene_of run.new) (R.kept _roots.now) (value budget (R.meanings _roots.now) (string text.now) (scene_of run.old, R.kept _roots.now)) }
{
    spend(budget, run)?;
    make(run, text.len() as u64)?;
    Ok(literal(alloc, run, k, text)?)
}

/// The expression with this number.
#[cycle(eval)]
pub fn eval<'a, R: Roots>(
    alloc: Global,
    roots: &R,
    arena: &Arena,
    frame: &'a Frame<'a>,
    budget: u64,
    run: &mut Run,
    k: usize,
) -> Result<Value, Fail>
    requires frame { IsTrue (is_sound (length arena.now.exprs) frame.now) }
    requires stands { k < length arena.now.exprs }
    ensures { Gives (λ v. v) result (scene_of run.new) (R.kept roots.now) (value budget (R.meanings roots.now) (seen arena.now.exprs frame.now k) (scene_of run.old, R.kept roots.now)) }
{
    // Strings are the most frequent of arguments, and a function with few cases makes less room at its beginning.
    match arena.expr(k) {
        ExprNode::Text(text) => eval_text(alloc, roots, budget, run, k, text.as_str()),
        _ => eval_by_case(alloc, roots, arena, frame, budget, run, k),
    }
}

// The expression with this number, whatever it is.
#[cycle(eval)]
#[tactic(auto, using(crate::proofs::Chains::chain_seen))]
fn eval_by_case<'a, R: Roots>(
    alloc: Global,
    roots: &R,
    arena: &Arena,
    frame: &'a Frame<'a>,
    budget: u64,
    run: &mut Run,
    k: usize,
) -> Result<Value, Fail>
    requires frame { IsTrue (is_sound (length arena.now.exprs) frame.now) }
    requires stands { k < length arena.now.exprs }
    ensures { Gives (λ v. v) result (scene_of run.new) (R.kept roots.now) (value budget (R.meanings roots.now) (seen arena.now.exprs frame.now k) (scene_of run.old, R.kept roots.now)) }
{
    match arena.expr(k) {
        ExprNode::Whole(n) => {
            spend(budget, run)?;
            Ok(Value::whole(*n))
        }
        ExprNode::Boolean(truth) => {
            spend(budget, run)?;
            Ok(Value::boolean(*truth))
        }
        ExprNode::Text(text) => eval_text(alloc, roots, budget, run, k, text.as_str()),
        ExprNode::Joined(parts) => {
            spend(budget, run)?;
            let pieces = eval_pieces(alloc, roots, arena, frame, budget, run, parts, k)?;
            pieces.join(alloc, run)
        }
        ExprNode::Negated(j) => {
            spend(budget, run)?;
            let v = eval(alloc, roots, arena, frame, budget, run, *j)?;
            Ok(Value::boolean(!v.is_true()))
        }
        ExprNode::Chain(j, links) => eval_chain(
            alloc, roots, arena, frame, budget, run, *j, links, k,
        ),
        ExprNode::List(ids) => {
            spend(budget, run)?;
            let values = eval_all(alloc, roots, arena, frame, budget, run, ids, k)?;
            Ok(listed_value(alloc, values)?)
        }
        ExprNode::Range(i, j) => {
            spend(budget, run)?;
            let first = eval(alloc, roots, arena, frame, budget, run, *i)?;
            let last = eval(alloc, roots, arena, frame, budget, run, *j)?;
            Ok(ranged(&first, &last))
        }
        ExprNode::Map(pairs) => {
            spend(budget, run)?;
            let maker = eval_pairs(alloc, roots, arena, frame, budget, run, pairs, k)?;
            Ok(maker.close(alloc)?)
        }
        ExprNode::Reference(name, steps) => {
            spend(budget, run)?;
            refer(
                alloc,
                roots,
                arena,
                frame,
                budget,
                run,
                name.as_str(),
                steps,
                k,
            )
        }
    }
}

// Expressions in order.
#[cycle(eval)]
fn eval_all<'a, R: Roots>(
    alloc: Global,
    roots: &R,
    arena: &Arena,
    frame: &'a Frame<'a>,
    budget: u64,
    run: &mut Run,
    ids: &[usize],
    below: usize,
) -> Result<Vec<Value>, Fail>
    requires frame { IsTrue (is_sound (length arena.now.exprs) frame.now) }
    requires stands { below ≤ length arena.now.exprs }
    requires ids { AllBelow below ids.now }
    ensures { Gives (λ vs. vs.items) result (scene_of run.new) (R.kept roots.now) (values_of budget (R.meanings roots.now) (exprs_with (arguments_of arena.now.exprs frame.now) (exprs_made (expr_of arena.now.exprs) ids.now)) (scene_of run.old, R.kept roots.now)) }
{
    let mut values = Vec::new(alloc);
    for k in ids {
        let v = eval(alloc, roots, arena, frame, budget, run, *k)?;
        values.push(v)?;
    }
    Ok(values)
}

// The keys and values of a map, in order.
#[cycle(eval)]
fn eval_pairs<'a, R: Roots>(
    alloc: Global,
    roots: &R,
    arena: &Arena,
    frame: &'a Frame<'a>,
    budget: u64,
    run: &mut Run,
    pairs: &[Pair],
    below: usize,
) -> Result<MapMaker, Fail>
    requires frame { IsTrue (is_sound (length arena.now.exprs) frame.now) }
    requires stands { below ≤ length arena.now.exprs }
    requires pairs { PairsBelow below pairs.now }
    ensures { Gives (λ m. m) result (scene_of run.new) (R.kept roots.now) (pairs_of budget (R.meanings roots.now) (pairs_with (arguments_of arena.now.exprs frame.now) (pairs_made (expr_of arena.now.exprs) pairs.now)) (scene_of run.old, R.kept roots.now)) }
{
    let mut maker = MapMaker::new(alloc);
    for pair in pairs {
        let key = eval(alloc, roots, arena, frame, budget, run, pair.key)?;
        let v = eval(alloc, roots, arena, frame, budget, run, pair.value)?;
        maker.put(&key, v)?;
    }
    Ok(maker)
}

// The parts of a double-quoted string, in order.
#[cycle(eval)]
fn eval_pieces<'a, R: Roots>(
    alloc: Global,
    roots: &R,
    arena: &Arena,
    frame: &'a Frame<'a>,
    budget: u64,
    run: &mut Run,
    parts: &[Part],
    below: usize,
) -> Result<Pieces, Fail>
    requires frame { IsTrue (is_sound (length arena.now.exprs) frame.now) }
    requires stands { below ≤ length arena.now.exprs }
    requires parts { PartsBelow below parts.now }
    ensures { Gives (λ p. p) result (scene_of run.new) (R.kept roots.now) (pieces budget (R.meanings roots.now) (parts_with (arguments_of arena.now.exprs frame.now) (parts_made (expr_of arena.now.exprs) parts.now)) (scene_of run.old, R.kept roots.now)) }
{
    let mut gathered = Pieces::new(alloc);
    for part in parts {
        let v = eval_piece(alloc, roots, arena, frame, budget, run, part, below)?;
        gathered.push(v)?;
    }
    Ok(gathered)
}

// A part of a double-quoted string.
#[cycle(eval)]
fn eval_piece<'a, R: Roots>(
    alloc: Global,
    roots: &R,
    arena: &Arena,
    frame: &'a Frame<'a>,
    budget: u64,
    run: &mut Run,
    part: &Part,
    below: usize,
) -> Result<Value, Fail>
    requires frame { IsTrue (is_sound (length arena.now.exprs) frame.now) }
    requires stands { below ≤ length arena.now.exprs }
    requires part { PartBelow below part.now }
    ensures { Gives printed result (scene_of run.new) (R.kept roots.now) (piece budget (R.meanings roots.now) (part_with (arguments_of arena.now.exprs frame.now) (part_made (expr_of arena.now.exprs) part.now)) (scene_of run.old, R.kept roots.now)) }
{
    match part {
        Part::Bytes(text) => Ok(text_value(alloc, text.as_str())?),
        Part::Printed(source, name, steps) => {
            spend(budget, run)?;
            let v = match refer(
                alloc,
                roots,
                arena,
                frame,
                budget,
                run,
                name.as_str(),
                steps,
                below,
            ) {
                Ok(v) => v,
                Err(e) => return Err(e),
            };
            Ok(shown_value(alloc, source.as_str(), v)?)
        }
    }
}

// A chain of operators of one rank, from the left.
#[cycle(eval)]
fn eval_chain<'a, R: Roots>(
    alloc: Global,
    roots: &R,
    arena: &Arena,
    frame: &'a Frame<'a>,
    budget: u64,
    run: &mut Run,
    first: usize,
    links: &[Link],
    below: usize,
) -> Result<Value, Fail>
    requires frame { IsTrue (is_sound (length arena.now.exprs) frame.now) }
    requires stands { below ≤ length arena.now.exprs }
    requires first { first < below }
    requires links { LinksBelow below links.now }
    ensures { Gives (λ v. v) result (scene_of run.new) (R.kept roots.now) (chain budget (R.meanings roots.now) (seen arena.now.exprs frame.now) (seen arena.now.exprs frame.now first) links.now (scene_of run.old, R.kept roots.now)) }
{
    spend_all(budget, run, links)?;
    let v = eval(alloc, roots, arena, frame, budget, run, first)?;
    eval_links(alloc, roots, arena, frame, budget, run, v, links, below)
}

// Further operands, each behind the value so far.
#[cycle(eval)]
fn eval_links<'a, R: Roots>(
    alloc: Global,
    roots: &R,
    arena: &Arena,
    frame: &'a Frame<'a>,
    budget: u64,
    run: &mut Run,
    first: Value,
    links: &[Link],
    below: usize,
) -> Result<Value, Fail>
    requires frame { IsTrue (is_sound (length arena.now.exprs) frame.now) }
    requires stands { below ≤ length arena.now.exprs }
    requires links { LinksBelow below links.now }
    ensures { Gives (λ v. v) result (scene_of run.new) (R.kept roots.now) (linked budget (R.meanings roots.now) (seen arena.now.exprs frame.now) links.now first (scene_of run.old, R.kept roots.now)) }
{
    let mut v = first;
    for link in links {
        v = eval_link(
            alloc,
            roots,
            arena,
            frame,
            budget,
            run,
            v,
            link.operator,
            link.operand,
        )?;
    }
    Ok(v)
}

// An operator behind its first operand.
#[cycle(eval)]
fn eval_link<'a, R: Roots>(
    alloc: Global,
    roots: &R,
    arena: &Arena,
    frame: &'a Frame<'a>,
    budget: u64,
    run: &mut Run,
    first: Value,
    operator: Operator,
    operand: usize,
) -> Result<Value, Fail>
    requires frame { IsTrue (is_sound (length arena.now.exprs) frame.now) }
    requires stands { operand < length arena.now.exprs }
    ensures { Gives (λ v. v) result (scene_of run.new) (R.kept roots.now) (operated (op_of operator) first (value budget (R.meanings roots.now) (seen arena.now.exprs frame.now operand)) (scene_of run.old, R.kept roots.now)) }
{
    match settled_by(operator, &first) {
        Some(truth) => Ok(Value::boolean(truth)),
        None => {
            let second = eval(alloc, roots, arena, frame, budget, run, operand)?;
            compute(alloc, run, operator, &first, &second)
        }
    }
}

// What a name begins with: a parameter with the value of its argument, in the frame of the call.
#[cycle(eval)]
fn begin_in<'a, R: Roots>(
    alloc: Global,
    roots: &R,
    arena: &Arena,
    frame: &'a Frame<'a>,
    budget: u64,
    run: &mut Run,
    name: &str,
) -> Result<Reached, Fail>
    requires frame { IsTrue (is_sound (length arena.now.exprs) frame.now) }
    ensures { Gives reached_of result (scene_of run.new) (R.kept roots.now) (started budget (R.meanings roots.now) (base_with (arguments_of arena.now.exprs frame.now) (named name.now)) (scene_of run.old, R.kept roots.now)) }
{
    match argument(arena, frame, name) {
        Some((k, caller)) => {
            let v = eval(alloc, roots, arena, caller, budget, run, k)?;
            Ok(Reached::Value(v))
        }
        None => Ok(begin_reference(run, alloc, name)?),
    }
}

// The value of a reference to a name.
#[cycle(eval)]
pub fn refer<'a, R: Roots>(
    alloc: Global,
    roots: &R,
    arena: &Arena,
    frame: &'a Frame<'a>,
    budget: u64,
    run: &mut Run,
    name: &str,
    steps: &[StepNode],
    below: usize,
) -> Result<Value, Fail>
    requires frame { IsTrue (is_sound (length arena.now.exprs) frame.now) }
    requires stands { below ≤ length arena.now.exprs }
    requires steps { StepsBelow below steps.now }
    ensures { Gives (λ v. v) result (scene_of run.new) (R.kept roots.now) (referred budget (R.meanings roots.now) (base_with (arguments_of arena.now.exprs frame.now) (named name.now)) (steps_with (arguments_of arena.now.exprs frame.now) (steps_made (expr_of arena.now.exprs) steps.now)) (scene_of run.old, R.kept roots.now)) }
{
    match begin_in(alloc, roots, arena, frame, budget, run, name)? {
        Reached::Value(value) => walk_value(
            alloc, roots, arena, frame, budget, run, value, steps, below,
        ),
        begun => refer_on(alloc, roots, arena, frame, budget, run, begun, steps, below),
    }
}

// The value of a reference from what its name begins with.
#[cycle(eval)]
fn refer_on<'a, R: Roots>(
    alloc: Global,
    roots: &R,
    arena: &Arena,
    frame: &'a Frame<'a>,
    budget: u64,
    run: &mut Run,
    begun: Reached,
    steps: &[StepNode],
    below: usize,
) -> Result<Value, Fail>
    requires frame { IsTrue (is_sound (length arena.now.exprs) frame.now) }
    requires stands { below ≤ length arena.now.exprs }
    requires steps { StepsBelow below steps.now }
    ensures { Gives (λ v. v) result (scene_of run.new) (R.kept roots.now) (referred_on budget (R.meanings roots.now) (reached_of begun) (steps_with (arguments_of arena.now.exprs frame.now) (steps_made (expr_of arena.now.exprs) steps.now)) (scene_of run.old, R.kept roots.now)) }
{
    let reached = walk(alloc, roots, arena, frame, budget, run, begun, steps, below)?;
    end_reference(alloc, roots, run, reached)
}

// The steps of a reference from a value on: each gives a value.
#[cycle(eval)]
fn walk_value<'a, R: Roots>(
    alloc: Global,
    roots: &R,
    arena: &Arena,
    frame: &'a Frame<'a>,
    budget: u64,
    run: &mut Run,
    first: Value,
    steps: &[StepNode],
    below: usize,
) -> Result<Value, Fail>
    requires frame { IsTrue (is_sound (length arena.now.exprs) frame.now) }
    requires stands { below ≤ length arena.now.exprs }
    requires steps { StepsBelow below steps.now }
    ensures { Gives at_value result (scene_of run.new) (R.kept roots.now) (walked budget (R.meanings roots.now) (steps_with (arguments_of arena.now.exprs frame.now) (steps_made (expr_of arena.now.exprs) steps.now)) (at_value first) (scene_of run.old, R.kept roots.now)) }
{
    let mut value = first;
    for step in steps {
        value = step_value(alloc, roots, arena, frame, budget, run, &value, step, below)?;
    }
    Ok(value)
}

// A step of a reference behind a value.
#[cycle(eval)]
fn step_value<'a, R: Roots>(
    alloc: Global,
    roots: &R,
    arena: &Arena,
    frame: &'a Frame<'a>,
    budget: u64,
    run: &mut Run,
    value: &Value,
    step: &StepNode,
    below: usize,
) -> Result<Value, Fail>
    requires frame { IsTrue (is_sound (length arena.now.exprs) frame.now) }
    requires stands { below ≤ length arena.now.exprs }
    requires step { StepBelow below step.now }
    ensures { Gives at_value result (scene_of run.new) (R.kept roots.now) (stepped budget (R.meanings roots.now) (step_with (arguments_of arena.now.exprs frame.now) (step_made (expr_of arena.now.exprs) step.now)) (at_value value.now) (scene_of run.old, R.kept roots.now)) }
{
    // Calls without arguments are the most frequent, and go by themselves as strings do in `eval`.
    match step {
        StepNode::Call(name, ids) => match ids.as_slice() {
            [] => call_value(alloc, roots, run, value, name.as_str(), &[]),
            _ => step_by_case(alloc, roots, arena, frame, budget, run, value, step, below),
        },
        _ => step_by_case(alloc, roots, arena, frame, budget, run, value, step, below),
    }
}

// The same of any step. The arguments of most methods are few, and stand in no vector.
#[cycle(eval)]
fn step_by_case<'a, R: Roots>(
    alloc: Global,
    roots: &R,
    arena: &Arena,
    frame: &'a Frame<'a>,
    budget: u64,
    run: &mut Run,
    value: &Value,
    step: &StepNode,
    below: usize,
) -> Result<Value, Fail>
    requires frame { IsTrue (is_sound (length arena.now.exprs) frame.now) }
    requires stands { below ≤ length arena.now.exprs }
    requires step { StepBelow below step.now }
    ensures { Gives at_value result (scene_of run.new) (R.kept roots.now) (stepped budget (R.meanings roots.now) (step_with (arguments_of arena.now.exprs frame.now) (step_made (expr_of arena.now.exprs) step.now)) (at_value value.now) (scene_of run.old, R.kept roots.now)) }
{
    match step {
        StepNode::Member(name) => Ok(member(value, name.as_str())?),
        StepNode::Index(k) => {
            let index = eval(alloc, roots, arena, frame, budget, run, *k)?;
            Ok(item_at(&index, value)?)
        }
        StepNode::Call(name, ids) => match ids.as_slice() {
            [] => call_value(alloc, roots, run, value, name.as_str(), &[]),
            [j] => {
                let argument = eval(alloc, roots, arena, frame, budget, run, *j)?;
                call_value(alloc, roots, run, value, name.as_str(), &[argument])
            }
            [i, j] => {
                let first = eval(alloc, roots, arena, frame, budget, run, *i)?;
                let second = eval(alloc, roots, arena, frame, budget, run, *j)?;
                call_value(alloc, roots, run, value, name.as_str(), &[first, second])
            }
            ids => {
                let values = eval_all(alloc, roots, arena, frame, budget, run, ids, below)?;
                call_value(alloc, roots, run, value, name.as_str(), &values)
            }
        },
    }
}

// The steps of a reference, in order.
#[cycle(eval)]
fn walk<'a, R: Roots>(
    alloc: Global,
    roots: &R,
    arena: &Arena,
    frame: &'a Frame<'a>,
    budget: u64,
    run: &mut Run,
    begun: Reached,
    steps: &[StepNode],
    below: usize,
) -> Result<Reached, Fail>
    requires frame { IsTrue (is_sound (length arena.now.exprs) frame.now) }
    requires stands { below ≤ length arena.now.exprs }
    requires steps { StepsBelow below steps.now }
    ensures { Gives reached_of result (scene_of run.new) (R.kept roots.now) (walked budget (R.meanings roots.now) (steps_with (arguments_of arena.now.exprs frame.now) (steps_made (expr_of arena.now.exprs) steps.now)) (reached_of begun) (scene_of run.old, R.kept roots.now)) }
{
    let mut reached = begun;
    for step in steps {
        reached = take_step(
            alloc, roots, arena, frame, budget, run, reached, step, below,
        )?;
    }
    Ok(reached)
}

// A step of a reference.
#[cycle(eval)]
fn take_step<'a, R: Roots>(
    alloc: Global,
    roots: &R,
    arena: &Arena,
    frame: &'a Frame<'a>,
    budget: u64,
    run: &mut Run,
    reached: Reached,
    step: &StepNode,
    below: usize,
) -> Result<Reached, Fail>
    requires frame { IsTrue (is_sound (length arena.now.exprs) frame.now) }
    requires stands { below ≤ length arena.now.exprs }
    requires step { StepBelow below step.now }
    ensures { Gives reached_of result (scene_of run.new) (R.kept roots.now) (stepped budget (R.meanings roots.now) (step_with (arguments_of arena.now.exprs frame.now) (step_made (expr_of arena.now.exprs) step.now)) (reached_of reached) (scene_of run.old, R.kept roots.now)) }
{
    match step {
        StepNode::Member(name) => after_name(alloc, roots, run, reached, name.as_str()),
        StepNode::Call(name, ids) => {
            let settled = settle(alloc, roots, run, reached)?;
            let values = eval_all(alloc, roots, arena, frame, budget, run, ids, below)?;
            after_call(alloc, roots, run, settled, name.as_str(), values)
        }
        StepNode::Index(k) => {
            let settled = settle(alloc, roots, run, reached)?;
            let index = eval(alloc, roots, arena, frame, budget, run, *k)?;
            after_index(alloc, roots, run, settled, index)
        }
    }
}
