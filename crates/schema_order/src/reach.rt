// Whether one thing leads to another.
ghost use Rattle.std.specs.Prelude.{◌≡◌, ◌<◌, ℕ, true, false, List, length, IfOk, OnOk, Some, slice_get};
ghost use Rattle.schema_order.specs.Leads.{AllAmong, AllLed, AllSeen, AreClosed, IsAmong, IsSeen, Leads, SeenAreLed, edges_of, lists_of};

use gw_base::Memory;
use std::alloc::Global;

// Whether a thing was seen.
fn is_seen(seen: &[bool], k: usize) -> bool
    ensures yes { result ≡ true → IsSeen seen.now k }
    ensures no { result ≡ false → IsSeen seen.now k → ⊥ }
{
    match seen.get(k) {
        Some(b) => *b,
        None => false,
    }
}

// One thing more is seen.
fn meet(
    edges: &[Vec<usize>],
    from: usize,
    next: usize,
    seen: &mut Vec<bool>,
    todo: &mut Vec<usize>,
) -> Result<(), Memory>
    requires led { Leads (lists_of edges.now) from next }
    requires seen { SeenAreLed (lists_of edges.now) from seen.old.items }
    requires todo { AllLed (lists_of edges.now) from todo.old.items }
    ensures seen { OnOk result (SeenAreLed (lists_of edges.now) from seen.new.items) }
    ensures todo { OnOk result (AllLed (lists_of edges.now) from todo.new.items) }
{
    if next < seen.len() && !seen[next] {
        todo.push(next)?;
        seen[next] = true;
    }
    Ok(())
}

// What these things are is seen.
fn meet_all(
    edges: &[Vec<usize>],
    from: usize,
    k: usize,
    nexts: &[usize],
    seen: &mut Vec<bool>,
    todo: &mut Vec<usize>,
) -> Result<(), Memory>
    requires led { Leads (lists_of edges.now) from k }
    requires among { AllAmong (edges_of (lists_of edges.now) k) nexts.now }
    requires seen { SeenAreLed (lists_of edges.now) from seen.old.items }
    requires todo { AllLed (lists_of edges.now) from todo.old.items }
    ensures seen { OnOk result (SeenAreLed (lists_of edges.now) from seen.new.items) }
    ensures todo { OnOk result (AllLed (lists_of edges.now) from todo.new.items) }
{
    for next in nexts {
        meet(edges, from, *next, seen, todo)?;
    }
    Ok(())
}

/// What the thing k stands on.
pub fn edges_at(edges: &[Vec<usize>], k: usize) -> &[usize]
    ensures value { result.now ≡ edges_of (lists_of edges.now) k }
    ensures among { AllAmong (edges_of (lists_of edges.now) k) result.now }
{
    if k < edges.len() { &edges[k] } else { &[] }
}

// All that is met from one thing on.
fn search(alloc: Global, edges: &[Vec<usize>], from: usize) -> Result<Vec<bool>, Memory>
    ensures { IfOk result (λ seen. SeenAreLed (lists_of edges.now) from seen.items) }
{
    let mut seen = none_seen(alloc, edges.len())?;
    let mut todo = Vec::new(alloc);
    meet(edges, from, from, &mut seen, &mut todo)?;
    for _ in 0..edges.len() {
        match todo.pop() {
            None => return Ok(seen),
            Some(k) => meet_all(edges, from, k, edges_at(edges, k), &mut seen, &mut todo)?,
        }
    }
    Ok(seen)
}

// Nothing is seen yet.
fn none_seen(alloc: Global, count: usize) -> Result<Vec<bool>, Memory>
    ensures { IfOk result (λ seen. (k : ℕ) → IsSeen seen.items k → ⊥) }
{
    let mut seen = Vec::new(alloc);
    for _ in 0..count {
        seen.push(false)?;
    }
    Ok(seen)
}

// Whether these are all seen.
fn are_seen(seen: &[bool], ks: &[usize]) -> bool
    ensures { result ≡ true → AllSeen seen.now ks.now }
{
    for k in ks {
        if !is_seen(seen, *k) {
            return false;
        }
    }
    true
}

// Whether all that seen things stand on is seen.
fn is_closed(edges: &[Vec<usize>], seen: &[bool]) -> bool
    ensures { result ≡ true → AreClosed (lists_of edges.now) seen.now }
{
    for k in 0..seen.len() {
        if is_seen(seen, k) {
            if !are_seen(seen, edges_at(edges, k)) {
                return false;
            }
        }
    }
    true
}

/// Whether one thing leads to another: it is the other, or stands on what leads there.
pub fn leads(alloc: Global, edges: &[Vec<usize>], from: usize, to: usize) -> Result<bool, Memory>
    ensures yes { IfOk result (λ b. b ≡ true → Leads (lists_of edges.now) from to) }
    ensures no { IfOk result (λ b. b ≡ false → Leads (lists_of edges.now) from to → ⊥) }
{
    let seen = search(alloc, edges, from)?;
    if is_seen(&seen, to) {
        return Ok(true);
    }
    if is_seen(&seen, from) && is_closed(edges, &seen) {
        return Ok(false);
    }
    Err(Memory)
}
