// Calls of macros that do nothing.
ghost use Rattle.std.specs.Prelude.{◌≡◌, ◌≤◌, ◌<◌, ℕ, Bool, List, [], length, map, IfOk};
ghost use Rattle.std.specs.List.{list_all};
ghost use Rattle.vtl_grammar.specs.Expanded.{most_inside};
ghost use Rattle.vtl_reader.specs.Nodes.{item_of, items_made, AllBelow};
ghost use Rattle.vtl_reader.specs.Macros.{defines, macros_by};
ghost use Rattle.vtl_eval.specs.Idle.{does_nothing, do_nothing, idle_body, idle_call, by_place, doing_nothing, holds as holds_of, row_at, AreMarked};

use gw_base::Memory;
use std::alloc::Global;
use vtl_reader::{Arena, ItemNode, Macros, macro_of};

/// How many macro bodies a call may be inside.
pub const MOST_INSIDE: u32 = 20;

/// What an item does where it is run.
#[derive(Clone, Copy, Debug, PartialEq, Eq)]
pub enum Doing {
    Nothing,
    /// What the macro in this place does.
    Call(usize),
    Something,
}

/// What the body of a macro does.
#[derive(Drop)]
pub enum Body {
    /// Something that costs.
    Active,
    /// What the macros in these places do.
    Calls(Vec<usize>),
}

fn doing_of(arena: &Arena, macros: &Macros, k: usize) -> Doing
    requires stands { k < length arena.now.items }
    ensures { (p : ℕ → Bool) → doing_nothing p result ≡ does_nothing (by_place p macros.now.names) (item_of arena.now k) }
{
    match arena.item(k) {
        ItemNode::Comment | ItemNode::Define(_, _, _) => Doing::Nothing,
        ItemNode::MacroCall(_, name, _) => match macros.place(name.as_str().as_bytes()) {
            Some(j) => Doing::Call(j),
            None => Doing::Something,
        },
        ItemNode::Text(_)
        | ItemNode::Output(_, _, _)
        | ItemNode::Set(_, _)
        | ItemNode::If(_, _)
        | ItemNode::ForEach(_, _, _)
        | ItemNode::Break
        | ItemNode::Stop => Doing::Something,
    }
}

fn calls_in(alloc: Global, arena: &Arena, macros: &Macros, items: &[usize]) -> Result<Body, Memory>
    requires below { AllBelow (length arena.now.items) items.now }
    ensures { IfOk result (λ b. (p : ℕ → Bool) → holds_of p b ≡ do_nothing (by_place p macros.now.names) (items_made (item_of arena.now) items.now)) }
{
    let mut calls = Vec::new(alloc);
    for k in items {
        match doing_of(arena, macros, *k) {
            Doing::Nothing => {}
            Doing::Call(j) => calls.push(j)?,
            Doing::Something => return Ok(Body::Active),
        }
    }
    Ok(Body::Calls(calls))
}

// What the body of the macro does that this item defines.
fn body_of(alloc: Global, arena: &Arena, macros: &Macros, k: usize) -> Result<Body, Memory>
    requires stands { k < length arena.now.items }
    ensures { IfOk result (λ b. (p : ℕ → Bool) → holds_of p b ≡ idle_body (by_place p macros.now.names) (defines (item_of arena.now k))) }
{
    match macro_of(arena, k) {
        Some((_, items)) => calls_in(alloc, arena, macros, items),
        None => Ok(Body::Active),
    }
}

// What the bodies of macros do that the items with these numbers define.
fn bodies_of(
    alloc: Global,
    arena: &Arena,
    macros: &Macros,
    ids: &[usize],
) -> Result<Vec<Body>, Memory>
    requires defined { AllBelow (length arena.now.items) ids.now }
    ensures { IfOk result (λ bs. (p : ℕ → Bool) → map (holds_of p) bs.items ≡ map (λ k. idle_body (by_place p macros.now.names) (defines (item_of arena.now k))) ids.now) }
{
    let mut bodies = Vec::new(alloc);
    for k in ids {
        let body = body_of(alloc, arena, macros, *k)?;
        bodies.push(body)?;
    }
    Ok(bodies)
}

fn is_marked(row: &[bool], j: usize) -> bool
    ensures { result ≡ row_at row.now j }
{
    match row.get(j) {
        Some(marked) => *marked,
        None => false,
    }
}

fn are_marked(row: &[bool], places: &[usize]) -> bool
    ensures { result ≡ list_all (row_at row.now) places.now }
{
    let mut rest = places;
    while let [j, more @ ..] = rest {
        if !is_marked(row, *j) {
            return false;
        }
        rest = more;
    }
    true
}

fn holds(row: &[bool], body: &Body) -> bool
    ensures { result ≡ holds_of (row_at row.now) body.now }
{
    match body {
        Body::Active => false,
        Body::Calls(places) => are_marked(row, places),
    }
}

// The row for one more call inside another.
fn next_row(alloc: Global, bodies: &[Body], row: &[bool]) -> Result<Vec<bool>, Memory>
    ensures { IfOk result (λ next. next.items ≡ map (holds_of (row_at row.now)) bodies.now) }
{
    let mut next = Vec::new(alloc);
    for body in bodies {
        next.push(holds(row, body))?;
    }
    Ok(next)
}

/// Which calls do nothing: for each number of calls that may stand inside one another, from none to twenty, a mark for
/// each macro, by its place.
pub fn idle_rows(alloc: Global, arena: &Arena, macros: &Macros) -> Result<Vec<Vec<bool>>, Memory>
    requires defined { AllBelow (length arena.now.items) macros.now.ids }
    ensures { IfOk result (λ rows. AreMarked arena.now macros.now rows.items) }
{
    let bodies = bodies_of(alloc, arena, macros, macros.ids())?;
    let mut rows = Vec::new(alloc);
    let mut row = Vec::new(alloc);
    for _inside in 0..MOST_INSIDE {
        let next = next_row(alloc, &bodies, &row)?;
        rows.push(row)?;
        row = next;
    }
    rows.push(row)?;
    Ok(rows)
}

/// Whether a call of this name does nothing, where so many calls may stand inside one another, it being one of them.
pub fn is_idle(arena: &Arena, macros: &Macros, rows: &[Vec<bool>], left: u32, name: &[u8]) -> bool
    requires marked { AreMarked arena.now macros.now rows.now }
    requires left { left ≤ most_inside }
    ensures { result ≡ idle_call (macros_by arena.now macros.now) left name.now }
{
    let _ = arena;
    match (macros.place(name), rows.get(left as usize)) {
        (Some(j), Some(row)) => is_marked(row, j),
        _ => false,
    }
}
