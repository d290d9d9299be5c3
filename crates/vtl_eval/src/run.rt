// The text that grows, the variables, and what a render has cost.
ghost use Rattle.std.specs.Prelude.{◌≡◌, ◌+◌, ◌-◌, ◌≤◌, ◌<◌, length, drop, IfOk, IfSome, OnOk, Ok};
ghost use Rattle.std.specs.Rc.{rc_str_bytes};
ghost use Rattle.vtl_values.specs.Val.{string_bytes as bytes_in, text as text_val};
ghost use Rattle.vtl_values.specs.Printed.{printed};
ghost use Rattle.vtl_eval.specs.Meaning.{shown, turned};
ghost use Rattle.vtl_eval.specs.World.{begin, most_made, spend as spend_of, make as make_of, write as write_of, put, named};
ghost use Rattle.vtl_eval.specs.Evaluated.{charge};
ghost use Rattle.vtl_eval.specs.Views.{scene_of, names_of, place_of, Does};

use crate::stop::{Fail, Limit};
use gw_base::{Memory, Text};
use std::alloc::Global;
use std::rc::RcStr;
use vtl_reader::Link;
use vtl_values::{Lack, Value, print};

/// The most bytes of a text.
const MOST_OUTPUT: u64 = 10_485_760;

/// The most bytes of all texts made.
const MOST_MADE: u64 = 67_108_864;

/// The literals of so many expressions, the first of a template, are kept.
const MOST_LITERALS: usize = 4096;

/// A turn of a loop: how many went before it, and how many there are in all.
#[derive(Clone, Copy, Debug, PartialEq, Eq)]
pub struct Turn {
    pub before: u32,
    pub all: u32,
}

/// The text so far, the variables, the innermost loop's turn, the nodes that were evaluated, the bytes of all texts made,
/// and the literal texts that were met, by the numbers of their expressions.
#[derive(Drop)]
pub struct Run {
    pub text: String,
    pub names: Vec<(Text, Value)>,
    pub turn: Option<Turn>,
    pub nodes: u64,
    pub made: u64,
    pub literals: Vec<Option<RcStr>>,
}

/// Nothing was evaluated.
pub fn begin_run(alloc: Global) -> Run
    ensures { scene_of result ≡ begin }
{
    Run {
        text: String::new(alloc),
        names: Vec::new(alloc),
        turn: None,
        nodes: 0,
        made: 0,
        literals: Vec::new(alloc),
    }
}

/// Charges one node, within a budget.
pub fn spend(budget: u64, run: &mut Run) -> Result<(), Fail>
    ensures { Does result (scene_of run.new) (spend_of budget (scene_of run.old)) }
{
    if run.nodes < budget {
        run.nodes += 1;
        Ok(())
    } else {
        Err(Fail::Met(Limit::Steps))
    }
}

/// Charges a node for each further operand of a chain, within a budget.
pub fn spend_all(budget: u64, run: &mut Run, links: &[Link]) -> Result<(), Fail>
    ensures { Does result (scene_of run.new) (charge budget links.now (scene_of run.old)) }
{
    let mut rest = links;
    while let [_, more @ ..] = rest {
        spend(budget, run)?;
        rest = more;
    }
    Ok(())
}

/// How many bytes of texts may still be made.
#[tactic(auto, unfolding(crate::specs::World::most_made))]
pub fn room(run: &Run) -> u64
    ensures { result ≡ most_made - run.now.made }
{
    MOST_MADE.saturating_sub(run.made)
}

/// Counts the bytes of texts that were made.
#[tactic(auto, unfolding(crate::specs::World::most_made))]
pub fn make(run: &mut Run, bytes: u64) -> Result<(), Fail>
    ensures { Does result (scene_of run.new) (make_of bytes (scene_of run.old)) }
{
    if run.made <= MOST_MADE && bytes <= MOST_MADE - run.made {
        run.made += bytes;
        Ok(())
    } else {
        Err(Fail::Met(Limit::Bytes))
    }
}

/// Counts the bytes of all strings in a value.
#[tactic(auto, unfolding(crate::specs::World::most_made), using(crate::proofs::Bounds::make_least))]
pub fn make_value(run: &mut Run, value: &Value) -> Result<(), Fail>
    ensures { Does result (scene_of run.new) (make_of (bytes_in value.now) (scene_of run.old)) }
{
    make(run, value.bytes())
}

/// Writes more of the text.
#[tactic(auto, unfolding(crate::specs::World::most_output))]
pub fn write(run: &mut Run, more: &str) -> Result<(), Fail>
    ensures { Does result (scene_of run.new) (write_of more.now (scene_of run.old)) }
{
    let len = run.text.len() as u64;
    if len > MOST_OUTPUT || more.len() as u64 > MOST_OUTPUT - len {
        return Err(Fail::Met(Limit::Bytes));
    }
    make(run, more.len() as u64)?;
    run.text.push_str(more)?;
    Ok(())
}

/// Writes a value, or the source of its reference where it is null.
#[tactic(auto, unfolding(crate::specs::World::most_output, crate::specs::World::most_made))]
pub fn show(run: &mut Run, source: &str, value: &Value) -> Result<(), Fail>
    ensures { Does result (scene_of run.new) (write_of (shown source.now value.now) (scene_of run.old)) }
{
    if value.is_null() {
        return write(run, source);
    }
    let len = run.text.len() as u64;
    let most = MOST_OUTPUT.min(len.saturating_add(room(run)));
    match print(value, &mut run.text, most) {
        Ok(()) => {}
        Err(Lack::Room) => return Err(Fail::Met(Limit::Bytes)),
        Err(Lack::Memory) => return Err(Fail::Memory),
    }
    let grown = run.text.len() as u64 - len;
    make(run, grown)
}

fn place(names: &[(Text, Value)], name: &str) -> usize
    ensures { result ≡ place_of names.now name.now }
{
    let mut i = 0;
    for entry in names {
        if entry.0.as_str() == name {
            return i;
        }
        i += 1;
    }
    i
}

/// The value of a variable.
pub fn find(run: &Run, name: &str) -> Result<Value, Memory>
    ensures { IfOk result (λ v. v ≡ names_of run.now.names.items name.now) }
{
    for entry in &run.names {
        if entry.0.as_str() == name {
            return entry.1.copied();
        }
    }
    Ok(Value::null())
}

/// Sets a variable.
#[tactic(auto, using(crate::proofs::Names::names_set, crate::proofs::Names::names_push))]
pub fn set_name(alloc: Global, run: &mut Run, name: &str, value: Value) -> Result<(), Memory>
    ensures { OnOk result (scene_of run.new ≡ named name.now value (scene_of run.old)) }
{
    let i = place(&run.names, name);
    if i < run.names.len() {
        run.names[i].1 = value;
    } else {
        let name = Text::of(String::from_str(alloc, name)?);
        run.names.push((name, value))?;
    }
    Ok(())
}

// Keeps the text of the expression with this number, where its number is among the first.
fn keep_literal(run: &mut Run, k: usize, text: &RcStr) -> Result<(), Memory>
    ensures { scene_of run.new ≡ scene_of run.old }
{
    if k >= MOST_LITERALS {
        return Ok(());
    }
    while run.literals.len() <= k {
        run.literals.push(None)?;
    }
    run.literals[k] = Some(text.clone()?);
    Ok(())
}

// The text that is kept of the expression with this number, where it is this one.
fn kept_literal(run: &Run, k: usize, text: &str) -> Result<Option<RcStr>, Memory>
    ensures { IfOk result (λ kept. IfSome kept (λ t. rc_str_bytes t ≡ text.now)) }
{
    match run.literals.get(k) {
        Some(Some(kept)) if kept.as_str() == text => Ok(Some(kept.clone()?)),
        _ => Ok(None),
    }
}

/// The value of a literal, by the number of its expression: a template that comes to it again shares its text.
pub fn literal(alloc: Global, run: &mut Run, k: usize, text: &str) -> Result<Value, Memory>
    ensures value { IfOk result (λ v. v ≡ text_val text.now) }
    ensures scene { scene_of run.new ≡ scene_of run.old }
{
    if let Some(kept) = kept_literal(run, k, text)? {
        return Ok(Value::text(kept));
    }
    let made = RcStr::from_str(alloc, text)?;
    keep_literal(run, k, &made)?;
    Ok(Value::text(made))
}
