// Items.
ghost use Rattle.std.specs.Prelude.{◌≡◌, ◌≤◌, ◌<◌, IsTrue, length, Ok, IfOk, OnErr, OnOk};
ghost use Rattle.vtl_grammar.specs.Tree.{named, output, set, foreach, choose as choose_item};
ghost use Rattle.vtl_grammar.specs.Expanded.{base_with, exprs_with, steps_with, called, most_inside};
ghost use Rattle.vtl_reader.specs.Nodes.{expr_of, exprs_made, item_of, items_made, branches_made, target_of, AllBelow, BranchesBelow, StepsBelow, steps_made};
ghost use Rattle.vtl_reader.specs.Macros.{macros_by};
ghost use Rattle.vtl_values.specs.Parts.{loop_items};
ghost use Rattle.vtl_eval.specs.Meaning.{meaning, run as run_of, chosen, turns, turned, restored, over as over_of, assigned};
ghost use Rattle.vtl_eval.specs.Frames.{arguments_of, is_sound, seen, seen_item, seen_items, seen_branches};
ghost use Rattle.vtl_eval.specs.Idle.{AreMarked};
ghost use Rattle.vtl_eval.specs.Views.{Cuts, Gives, scene_of, names_of};

use crate::eval::{eval, refer};
use crate::frame::Frame;
use crate::idle::is_idle;
use crate::roots::Roots;
use crate::run::{Run, Turn, find, set_name, show, spend, write};
use crate::stop::{Ended, Fail, Limit};
use gw_base::Memory;
use std::alloc::Global;
use vtl_reader::{Arena, Branch, ItemNode, Macros, Step, Target, macro_named};
use vtl_values::{Value, loop_item, loop_length};

// A `#set`.
fn assign<R: Roots>(
    alloc: Global,
    roots: &mut R,
    run: &mut Run,
    target: &Target,
    value: Value,
) -> Result<(), Memory>
    ensures ok { OnOk result ((scene_of run.new, R.kept roots.new) ≡ assigned (R.meanings roots.old) (target_of target.now) value (scene_of run.old, R.kept roots.old)) }
    ensures same { R.meanings roots.new ≡ R.meanings roots.old }
    ensures err { OnErr result (R.kept roots.new ≡ R.kept roots.old) }
{
    if value.is_null() {
        return Ok(());
    }
    match target {
        Target::Variable(name) => set_name(alloc, run, name.as_str(), value),
        Target::Context(path) => {
            roots.write(alloc, path, &value)?;
            Ok(())
        }
    }
}

// A turn of a loop begins.
fn enter(
    alloc: Global,
    run: &mut Run,
    name: &str,
    before: u32,
    all: u32,
    value: Value,
) -> Result<(), Memory>
    ensures { OnOk result (scene_of run.new ≡ turned name.now before all value (scene_of run.old)) }
{
    set_name(alloc, run, name, value)?;
    run.turn = Some(Turn { before, all });
    Ok(())
}

// Behind a loop its variable and the loop's turn are as before it.
fn restore(
    alloc: Global,
    run: &mut Run,
    name: &str,
    value: Value,
    turn: Option<Turn>,
) -> Result<(), Memory>
    ensures { OnOk result (scene_of run.new ≡ restored name.now value turn (scene_of run.old)) }
{
    set_name(alloc, run, name, value)?;
    run.turn = turn;
    Ok(())
}

// A `#break` ends the loop alone.
fn over(ended: Ended) -> Ended
    ensures { result ≡ over_of ended }
{
    match ended {
        Ended::Ran => Ended::Ran,
        Ended::Broke => Ended::Ran,
        Ended::Stopped => Ended::Stopped,
    }
}

// A reference in text.
fn run_output<'a, R: Roots>(
    alloc: Global,
    roots: &R,
    arena: &Arena,
    frame: &'a Frame<'a>,
    budget: u64,
    run: &mut Run,
    source: &str,
    name: &str,
    steps: &[Step],
) -> Result<Ended, Fail>
    requires frame { IsTrue (is_sound (length arena.now.exprs) frame.now) }
    requires steps { StepsBelow (length arena.now.exprs) steps.now }
    ensures { Gives (λ e. e) result (scene_of run.new) (R.kept roots.now) (meaning budget (R.meanings roots.now) (output source.now (base_with (arguments_of arena.now.exprs frame.now) (named name.now)) (steps_with (arguments_of arena.now.exprs frame.now) (steps_made (expr_of arena.now.exprs) steps.now))) (scene_of run.old, R.kept roots.now)) }
{
    spend(budget, run)?;
    let below = arena.expr_count();
    let v = match refer(alloc, roots, arena, frame, budget, run, name, steps, below) {
        Ok(v) => v,
        Err(e) => return Err(e),
    };
    match show(run, source, &v) {
        Ok(()) => Ok(Ended::Ran),
        Err(e) => Err(e),
    }
}

// A `#set`.
fn run_set<'a, R: Roots>(
    alloc: Global,
    roots: &mut R,
    arena: &Arena,
    frame: &'a Frame<'a>,
    budget: u64,
    run: &mut Run,
    target: &Target,
    e: usize,
) -> Result<Ended, Fail>
    requires frame { IsTrue (is_sound (length arena.now.exprs) frame.now) }
    requires stands { e < length arena.now.exprs }
    ensures gives { Gives (λ e. e) result (scene_of run.new) (R.kept roots.new) (meaning budget (R.meanings roots.old) (set (target_of target.now) (seen arena.now.exprs frame.now e)) (scene_of run.old, R.kept roots.old)) }
    ensures same { R.meanings roots.new ≡ R.meanings roots.old }
    ensures err { OnErr result (R.kept roots.new ≡ R.kept roots.old) }
{
    spend(budget, run)?;
    let v = eval(alloc, roots, arena, frame, budget, run, e)?;
    assign(alloc, roots, run, target, v)?;
    Ok(Ended::Ran)
}

// The item with this number.
#[cycle(items)]
fn run_item<'a, R: Roots>(
    alloc: Global,
    roots: &mut R,
    arena: &'a Arena,
    macros: &Macros,
    idle: &[Vec<bool>],
    frame: &'a Frame<'a>,
    left: u32,
    budget: u64,
    run: &mut Run,
    k: usize,
) -> Result<Ended, Fail>
    requires frame { IsTrue (is_sound (length arena.now.exprs) frame.now) }
    requires left { left ≤ most_inside }
    requires defined { AllBelow (length arena.now.items) macros.now.ids }
    requires marked { AreMarked arena.now macros.now idle.now }
    requires stands { k < length arena.now.items }
    ensures gives { Gives (λ e. e) result (scene_of run.new) (R.kept roots.new) (run_of budget (R.meanings roots.old) (seen_item arena.now macros.now left frame.now (item_of arena.now k)) (scene_of run.old, R.kept roots.old)) }
    ensures same { R.meanings roots.new ≡ R.meanings roots.old }
    ensures cut { Cuts result budget (scene_of run.old, R.kept roots.old) (λ n. run_of n (R.meanings roots.old) (seen_item arena.now macros.now left frame.now (item_of arena.now k)) (scene_of run.old, R.kept roots.old)) (R.kept roots.new) }
{
    match arena.item(k) {
        ItemNode::Text(text) => {
            spend(budget, run)?;
            write(run, text.as_str())?;
            Ok(Ended::Ran)
        }
        ItemNode::Comment => Ok(Ended::Ran),
        ItemNode::Output(source, name, steps) => run_output(
            alloc,
            roots,
            arena,
            frame,
            budget,
            run,
            source.as_str(),
            name.as_str(),
            steps,
        ),
        ItemNode::Set(target, e) => run_set(alloc, roots, arena, frame, budget, run, target, *e),
        ItemNode::If(branches, otherwise) => {
            run_choice(
                alloc, roots, arena, macros, idle, frame, left, budget, run, branches, otherwise, k,
            )
        }
        ItemNode::ForEach(name, e, body) => {
            run_loop(
                alloc,
                roots,
                arena,
                macros,
                idle,
                frame,
                left,
                budget,
                run,
                name.as_str(),
                *e,
                body,
                k,
            )
        }
        ItemNode::Break => {
            spend(budget, run)?;
            Ok(Ended::Broke)
        }
        ItemNode::Stop => {
            spend(budget, run)?;
            Ok(Ended::Stopped)
        }
        ItemNode::Define(_, _, _) => Ok(Ended::Ran),
        ItemNode::MacroCall(_, name, ids) => run_call(
            alloc,
            roots,
            arena,
            macros,
            idle,
            frame,
            left,
            budget,
            run,
            name.as_str(),
            ids,
        ),
    }
}

// A macro's call: its body in a frame of its own, unless that does nothing.
#[cycle(items)]
fn run_call<'a, R: Roots>(
    alloc: Global,
    roots: &mut R,
    arena: &'a Arena,
    macros: &Macros,
    idle: &[Vec<bool>],
    frame: &'a Frame<'a>,
    left: u32,
    budget: u64,
    run: &mut Run,
    name: &str,
    ids: &'a [usize],
) -> Result<Ended, Fail>
    requires frame { IsTrue (is_sound (length arena.now.exprs) frame.now) }
    requires left { left ≤ most_inside }
    requires defined { AllBelow (length arena.now.items) macros.now.ids }
    requires marked { AreMarked arena.now macros.now idle.now }
    requires ids { AllBelow (length arena.now.exprs) ids.now }
    ensures gives { Gives (λ e. e) result (scene_of run.new) (R.kept roots.new) (run_of budget (R.meanings roots.old) (called (macros_by arena.now macros.now) left name.now (exprs_with (arguments_of arena.now.exprs frame.now) (exprs_made (expr_of arena.now.exprs) ids.now))) (scene_of run.old, R.kept roots.old)) }
    ensures same { R.meanings roots.new ≡ R.meanings roots.old }
    ensures cut { Cuts result budget (scene_of run.old, R.kept roots.old) (λ n. run_of n (R.meanings roots.old) (called (macros_by arena.now macros.now) left name.now (exprs_with (arguments_of arena.now.exprs frame.now) (exprs_made (expr_of arena.now.exprs) ids.now))) (scene_of run.old, R.kept roots.old)) (R.kept roots.new) }
{
    if left == 0 {
        return Err(Fail::Met(Limit::Depth));
    }
    if is_idle(arena, macros, idle, left, name.as_bytes()) {
        return Ok(Ended::Ran);
    }
    match macro_named(arena, macros, name.as_bytes()) {
        None => Ok(Ended::Ran),
        Some((params, body)) => {
            let inner = Frame::Call(params, ids, frame);
            run_items(
                alloc,
                roots,
                arena,
                macros,
                idle,
                &inner,
                left - 1,
                budget,
                run,
                body,
                arena.item_count(),
            )
        }
    }
}

// An `#if`.
#[cycle(items)]
fn run_choice<'a, R: Roots>(
    alloc: Global,
    roots: &mut R,
    arena: &'a Arena,
    macros: &Macros,
    idle: &[Vec<bool>],
    frame: &'a Frame<'a>,
    left: u32,
    budget: u64,
    run: &mut Run,
    branches: &'a [Branch],
    otherwise: &'a [usize],
    below: usize,
) -> Result<Ended, Fail>
    requires frame { IsTrue (is_sound (length arena.now.exprs) frame.now) }
    requires left { left ≤ most_inside }
    requires defined { AllBelow (length arena.now.items) macros.now.ids }
    requires marked { AreMarked arena.now macros.now idle.now }
    requires stands { below ≤ length arena.now.items }
    requires branches { BranchesBelow (length arena.now.exprs) below branches.now }
    requires otherwise { AllBelow below otherwise.now }
    ensures gives { Gives (λ e. e) result (scene_of run.new) (R.kept roots.new) (meaning budget (R.meanings roots.old) (choose_item (seen_branches arena.now macros.now left frame.now (branches_made (expr_of arena.now.exprs) (item_of arena.now) branches.now (items_made (item_of arena.now) otherwise.now)))) (scene_of run.old, R.kept roots.old)) }
    ensures same { R.meanings roots.new ≡ R.meanings roots.old }
    ensures cut { Cuts result budget (scene_of run.old, R.kept roots.old) (λ n. meaning n (R.meanings roots.old) (choose_item (seen_branches arena.now macros.now left frame.now (branches_made (expr_of arena.now.exprs) (item_of arena.now) branches.now (items_made (item_of arena.now) otherwise.now)))) (scene_of run.old, R.kept roots.old)) (R.kept roots.new) }
{
    spend(budget, run)?;
    choose(
        alloc, roots, arena, macros, idle, frame, left, budget, run, branches, otherwise, below,
    )
}

// Items in order.
#[cycle(items)]
pub fn run_items<'a, R: Roots>(
    alloc: Global,
    roots: &mut R,
    arena: &'a Arena,
    macros: &Macros,
    idle: &[Vec<bool>],
    frame: &'a Frame<'a>,
    left: u32,
    budget: u64,
    run: &mut Run,
    ids: &'a [usize],
    below: usize,
) -> Result<Ended, Fail>
    requires frame { IsTrue (is_sound (length arena.now.exprs) frame.now) }
    requires left { left ≤ most_inside }
    requires defined { AllBelow (length arena.now.items) macros.now.ids }
    requires marked { AreMarked arena.now macros.now idle.now }
    requires stands { below ≤ length arena.now.items }
    requires ids { AllBelow below ids.now }
    ensures gives { Gives (λ e. e) result (scene_of run.new) (R.kept roots.new) (run_of budget (R.meanings roots.old) (seen_items arena.now macros.now left frame.now (items_made (item_of arena.now) ids.now)) (scene_of run.old, R.kept roots.old)) }
    ensures same { R.meanings roots.new ≡ R.meanings roots.old }
    ensures cut { Cuts result budget (scene_of run.old, R.kept roots.old) (λ n. run_of n (R.meanings roots.old) (seen_items arena.now macros.now left frame.now (items_made (item_of arena.now) ids.now)) (scene_of run.old, R.kept roots.old)) (R.kept roots.new) }
{
    for k in ids {
        let ended = match run_item(
            alloc, roots, arena, macros, idle, frame, left, budget, run, *k,
        ) {
            Ok(ended) => ended,
            Err(e) => return Err(e),
        };
        match ended {
            Ended::Ran => {}
            Ended::Broke => return Ok(Ended::Broke),
            Ended::Stopped => return Ok(Ended::Stopped),
        }
    }
    Ok(Ended::Ran)
}

// The first branch whose condition is true.
#[cycle(items)]
fn choose<'a, R: Roots>(
    alloc: Global,
    roots: &mut R,
    arena: &'a Arena,
    macros: &Macros,
    idle: &[Vec<bool>],
    frame: &'a Frame<'a>,
    left: u32,
    budget: u64,
    run: &mut Run,
    branches: &'a [Branch],
    otherwise: &'a [usize],
    below: usize,
) -> Result<Ended, Fail>
    requires frame { IsTrue (is_sound (length arena.now.exprs) frame.now) }
    requires left { left ≤ most_inside }
    requires defined { AllBelow (length arena.now.items) macros.now.ids }
    requires marked { AreMarked arena.now macros.now idle.now }
    requires stands { below ≤ length arena.now.items }
    requires branches { BranchesBelow (length arena.now.exprs) below branches.now }
    requires otherwise { AllBelow below otherwise.now }
    ensures gives { Gives (λ e. e) result (scene_of run.new) (R.kept roots.new) (chosen budget (R.meanings roots.old) (seen_branches arena.now macros.now left frame.now (branches_made (expr_of arena.now.exprs) (item_of arena.now) branches.now (items_made (item_of arena.now) otherwise.now))) (scene_of run.old, R.kept roots.old)) }
    ensures same { R.meanings roots.new ≡ R.meanings roots.old }
    ensures cut { Cuts result budget (scene_of run.old, R.kept roots.old) (λ n. chosen n (R.meanings roots.old) (seen_branches arena.now macros.now left frame.now (branches_made (expr_of arena.now.exprs) (item_of arena.now) branches.now (items_made (item_of arena.now) otherwise.now))) (scene_of run.old, R.kept roots.old)) (R.kept roots.new) }
{
    for branch in branches {
        let v = eval(alloc, roots, arena, frame, budget, run, branch.condition)?;
        if v.is_true() {
            return run_items(
                alloc,
                roots,
                arena,
                macros,
                idle,
                frame,
                left,
                budget,
                run,
                &branch.items,
                below,
            );
        }
    }
    run_items(
        alloc, roots, arena, macros, idle, frame, left, budget, run, otherwise, below,
    )
}

// A loop: its list, its turns, and its variable as before.
#[cycle(items)]
fn run_loop<'a, R: Roots>(
    alloc: Global,
    roots: &mut R,
    arena: &'a Arena,
    macros: &Macros,
    idle: &[Vec<bool>],
    frame: &'a Frame<'a>,
    left: u32,
    budget: u64,
    run: &mut Run,
    name: &str,
    e: usize,
    body: &'a [usize],
    below: usize,
) -> Result<Ended, Fail>
    requires frame { IsTrue (is_sound (length arena.now.exprs) frame.now) }
    requires left { left ≤ most_inside }
    requires defined { AllBelow (length arena.now.items) macros.now.ids }
    requires marked { AreMarked arena.now macros.now idle.now }
    requires stands { below ≤ length arena.now.items }
    requires list { e < length arena.now.exprs }
    requires body { AllBelow below body.now }
    ensures gives { Gives (λ e. e) result (scene_of run.new) (R.kept roots.new) (meaning budget (R.meanings roots.old) (foreach name.now (seen arena.now.exprs frame.now e) (seen_items arena.now macros.now left frame.now (items_made (item_of arena.now) body.now))) (scene_of run.old, R.kept roots.old)) }
    ensures same { R.meanings roots.new ≡ R.meanings roots.old }
    ensures cut { Cuts result budget (scene_of run.old, R.kept roots.old) (λ n. meaning n (R.meanings roots.old) (foreach name.now (seen arena.now.exprs frame.now e) (seen_items arena.now macros.now left frame.now (items_made (item_of arena.now) body.now))) (scene_of run.old, R.kept roots.old)) (R.kept roots.new) }
{
    spend(budget, run)?;
    let list = eval(alloc, roots, arena, frame, budget, run, e)?;
    let old = find(run, name)?;
    let turn = run.turn;
    let ended = match run_turns(
        alloc, roots, arena, macros, idle, frame, left, budget, run, name, body, &list, below,
    ) {
        Ok(ended) => ended,
        Err(e) => return Err(e),
    };
    restore(alloc, run, name, old, turn)?;
    Ok(over(ended))
}

// The turns of a loop.
#[cycle(items)]
fn run_turns<'a, R: Roots>(
    alloc: Global,
    roots: &mut R,
    arena: &'a Arena,
    macros: &Macros,
    idle: &[Vec<bool>],
    frame: &'a Frame<'a>,
    left: u32,
    budget: u64,
    run: &mut Run,
    name: &str,
    body: &'a [usize],
    list: &Value,
    below: usize,
) -> Result<Ended, Fail>
    requires frame { IsTrue (is_sound (length arena.now.exprs) frame.now) }
    requires left { left ≤ most_inside }
    requires defined { AllBelow (length arena.now.items) macros.now.ids }
    requires marked { AreMarked arena.now macros.now idle.now }
    requires stands { below ≤ length arena.now.items }
    requires body { AllBelow below body.now }
    ensures gives { Gives (λ e. e) result (scene_of run.new) (R.kept roots.new) (turns name.now (run_of budget (R.meanings roots.old) (seen_items arena.now macros.now left frame.now (items_made (item_of arena.now) body.now))) 0 (length (loop_items list.now)) (loop_items list.now) (scene_of run.old, R.kept roots.old)) }
    ensures same { R.meanings roots.new ≡ R.meanings roots.old }
    ensures cut { Cuts result budget (scene_of run.old, R.kept roots.old) (λ n. turns name.now (run_of n (R.meanings roots.old) (seen_items arena.now macros.now left frame.now (items_made (item_of arena.now) body.now))) 0 (length (loop_items list.now)) (loop_items list.now) (scene_of run.old, R.kept roots.old)) (R.kept roots.new) }
{
    let all = loop_length(list);
    for n in 0..all {
        let v = loop_item(list, n)?;
        enter(alloc, run, name, n as u32, all as u32, v)?;
        let ended = match run_items(
            alloc, roots, arena, macros, idle, frame, left, budget, run, body, below,
        ) {
            Ok(ended) => ended,
            Err(e) => return Err(e),
        };
        match ended {
            Ended::Ran => {}
            Ended::Broke => return Ok(Ended::Broke),
            Ended::Stopped => return Ok(Ended::Stopped),
        }
    }
    Ok(Ended::Ran)
}
