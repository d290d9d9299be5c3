// An order of numbered things.
ghost use Rattle.std.specs.Prelude.{◌≡◌, ◌<◌, ◌+◌, ℕ, true, false, length, slice_index, IfOk, IfSome, OnOk, None};
ghost use Rattle.schema_order.specs.Leads.{edges_of, lists_of};
ghost use Rattle.schema_order.specs.Ranks.{AreBlocked, AreRanked, AreRankedSoFar, AreReady, ComesRound, IsBlocked, IsNext, IsWaiting};

use crate::reach::edges_at;
use gw_base::Memory;
use std::alloc::Global;

// For each thing those that stand on it, once for each edge.
fn users(alloc: Global, edges: &[Vec<usize>]) -> Result<Vec<Vec<usize>>, Memory> {
    let mut users = Vec::new(alloc);
    for _ in edges {
        users.push(Vec::new(alloc))?;
    }
    for k in 0..edges.len() {
        for s in &edges[k] {
            if let Some(list) = users.get_mut(*s) {
                list.push(k)?;
            }
        }
    }
    Ok(users)
}

// A list in which each thing stands behind what it stands on, as far as there is one: each is put in once the last that
// it waits for was. What is ranked is tested again, so that nothing rests on this list but the time that it saves.
fn likely(alloc: Global, edges: &[Vec<usize>]) -> Result<Vec<usize>, Memory> {
    let users = users(alloc, edges)?;
    let mut left = Vec::new(alloc);
    let mut ready = Vec::new(alloc);
    for k in 0..edges.len() {
        left.push(edges[k].len())?;
        if edges[k].is_empty() {
            ready.push(k)?;
        }
    }
    let mut list = Vec::new(alloc);
    for _ in 0..edges.len() {
        match ready.pop() {
            None => return Ok(list),
            Some(k) => {
                list.push(k)?;
                release(&users, k, &mut left, &mut ready)?;
            }
        }
    }
    Ok(list)
}

// Those that stand on the thing k wait for one less.
fn release(
    users: &[Vec<usize>],
    k: usize,
    left: &mut Vec<usize>,
    ready: &mut Vec<usize>,
) -> Result<(), Memory> {
    if k < users.len() {
        for user in &users[k] {
            if let Some(count) = left.get_mut(*user) {
                if *count == 1 {
                    ready.push(*user)?;
                }
                *count = count.saturating_sub(1);
            }
        }
    }
    Ok(())
}

// Whether a thing has no rank.
fn is_waiting(ranks: &[usize], k: usize) -> bool
    ensures yes { result ≡ true → IsWaiting ranks.now k }
    ensures no { result ≡ false → IsWaiting ranks.now k → ⊥ }
{
    k < ranks.len() && ranks[k] == ranks.len()
}

// Whether none of these waits.
fn are_ready(ranks: &[usize], ks: &[usize]) -> bool
    ensures yes { result ≡ true → AreReady ranks.now ks.now }
    ensures no { result ≡ false → IsBlocked ranks.now ks.now }
{
    for s in ks {
        if is_waiting(ranks, *s) {
            return false;
        }
    }
    true
}

// Whether a thing waits, but for none.
fn is_next(edges: &[Vec<usize>], ranks: &[usize], k: usize) -> bool
    ensures yes { result ≡ true → IsNext (lists_of edges.now) ranks.now k }
    ensures no { result ≡ false → IsWaiting ranks.now k → IsBlocked ranks.now (edges_of (lists_of edges.now) k) }
{
    is_waiting(ranks, k) && are_ready(ranks, edges_at(edges, k))
}

// Gives the thing k the next rank, and answers the next rank.
fn rank_next(edges: &[Vec<usize>], ranks: &mut Vec<usize>, next: usize, k: usize) -> usize
    requires ranked { AreRankedSoFar (lists_of edges.now) ranks.old.items next }
    requires next { IsNext (lists_of edges.now) ranks.old.items k }
    ensures ranked { AreRankedSoFar (lists_of edges.now) ranks.new.items result }
    ensures more { result ≡ next + 1 }
{
    ranks[k] = next;
    next + 1
}

// The same, if the thing has no rank and waits for none.
fn rank_if_next(edges: &[Vec<usize>], ranks: &mut Vec<usize>, next: usize, k: usize) -> usize
    requires { AreRankedSoFar (lists_of edges.now) ranks.old.items next }
    ensures { AreRankedSoFar (lists_of edges.now) ranks.new.items result }
{
    if is_next(edges, ranks, k) {
        rank_next(edges, ranks, next, k)
    } else {
        next
    }
}

// Some thing that waits for none.
fn next_ready(edges: &[Vec<usize>], ranks: &[usize]) -> Option<usize>
    ensures some { IfSome result (λ k. IsNext (lists_of edges.now) ranks.now k) }
    ensures none { result ≡ None → AreBlocked (lists_of edges.now) ranks.now }
{
    for k in 0..ranks.len() {
        if is_next(edges, ranks, k) {
            return Some(k);
        }
    }
    None
}

// No thing has a rank.
fn no_ranks(alloc: Global, edges: &[Vec<usize>]) -> Result<Vec<usize>, Memory>
    ensures { IfOk result (λ ranks. AreRankedSoFar (lists_of edges.now) ranks.items 0) }
{
    let mut ranks = Vec::new(alloc);
    for _ in 0..edges.len() {
        ranks.push(edges.len())?;
    }
    Ok(ranks)
}

/// Ranks of numbered things, each below their number and behind those of all that it stands on; or `None`, where some
/// thing leads back to itself.
pub fn order(alloc: Global, edges: &[Vec<usize>]) -> Result<Option<Vec<usize>>, Memory>
    ensures ranks { IfOk result (λ o. IfSome o (λ ranks. AreRanked (lists_of edges.now) ranks.items)) }
    ensures none { IfOk result (λ o. o ≡ None → ComesRound (lists_of edges.now)) }
{
    let mut ranks = no_ranks(alloc, edges)?;
    let mut next = 0;
    for k in &likely(alloc, edges)? {
        next = rank_if_next(edges, &mut ranks, next, *k);
    }
    while next < edges.len() {
        match next_ready(edges, &ranks) {
            None => return Ok(None),
            Some(k) => next = rank_next(edges, &mut ranks, next, k),
        }
    }
    Ok(Some(ranks))
}
