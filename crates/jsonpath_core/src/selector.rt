// The nodes of a document that steps select.
ghost use Rattle.std.specs.Prelude.{◌≡◌, ◌≤◌, ◌^◌, ◌++◌, ◌∷◌, [], ℕ, length, map, slice_get, All, IfOk, OnOk, MatchOption, None, Some, false};
ghost use Rattle.json_subset.specs.Documents.{IsPart, form, item_at, part};
ghost use Rattle.jsonpath_core.specs.Selecting.{children, selected, selected_of_each, select_from};
ghost use Rattle.jsonpath_core.specs.Steps.{is_star, starred};
ghost use Rattle.jsonpath_core.specs.Views.{AreKept, IsKept, step_view, steps_view};

use crate::step::Step;
use gw_base::Memory;
use json_subset::{Doc, Kind, NodeId};
use std::alloc::Global;

/// The one node that steps without a star select below a node, where they select one.
pub fn select_one(steps: &[Step], doc: &Doc, from: NodeId) -> Option<NodeId>
    requires kept { AreKept steps.now }
    requires starless { starred (steps_view steps.now) ≡ false }
    requires from { IsPart doc.now from }
    ensures { MatchOption result (select_from (steps_view steps.now) (part doc.now from ∷ []) ≡ []) (λ k. IsPart doc.now k × (select_from (steps_view steps.now) (part doc.now from ∷ []) ≡ part doc.now k ∷ [])) }
{
    let mut node = from;
    for step in steps {
        node = step_one(step, doc, node)?;
    }
    Some(node)
}

/// The one node that a step other than the star selects of a node, where it selects one.
fn step_one(step: &Step, doc: &Doc, node: NodeId) -> Option<NodeId>
    requires kept { IsKept step.now }
    requires node { IsPart doc.now node }
    requires starless { is_star (step_view step.now) ≡ false }
    ensures { MatchOption result (selected (step_view step.now) (part doc.now node) ≡ []) (λ k. IsPart doc.now k × (selected (step_view step.now) (part doc.now node) ≡ part doc.now k ∷ [])) }
{
    match step {
        Step::Name(name) => doc.member(node, name.as_str()),
        Step::Index(i) => doc.item(node, *i),
        Step::Past(_) => item_past_all(doc, node),
        Step::Star => None,
    }
}

/// The item at a place of 2^32 or more: there is none, since 32 bits count the items of a list.
fn item_past_all(doc: &Doc, node: NodeId) -> Option<NodeId>
    requires { IsPart doc.now node }
    ensures none { result ≡ None }
    ensures past { (place : ℕ) → 2 ^ 32 ≤ place → item_at (form (part doc.now node)) place ≡ None }
{
    let _count = child_count(doc, node);
    None
}

/// The nodes that steps select below a node, in the order of the document.
pub fn select_all(
    alloc: Global,
    steps: &[Step],
    doc: &Doc,
    from: NodeId,
) -> Result<Vec<NodeId>, Memory>
    requires kept { AreKept steps.now }
    requires from { IsPart doc.now from }
    ensures parts { IfOk result (λ v. All (IsPart doc.now) v.items) }
    ensures selected { IfOk result (λ v. map (part doc.now) v.items ≡ select_from (steps_view steps.now) (part doc.now from ∷ [])) }
{
    let mut nodes = Vec::new(alloc);
    nodes.push(from)?;
    for step in steps {
        nodes = step_all(alloc, step, doc, &nodes)?;
    }
    Ok(nodes)
}

/// What a step selects of each of these nodes.
fn step_all(alloc: Global, step: &Step, doc: &Doc, nodes: &[NodeId]) -> Result<Vec<NodeId>, Memory>
    requires kept { IsKept step.now }
    requires nodes { All (IsPart doc.now) nodes.now }
    ensures parts { IfOk result (λ v. All (IsPart doc.now) v.items) }
    ensures selected { IfOk result (λ v. map (part doc.now) v.items ≡ selected_of_each (step_view step.now) (map (part doc.now) nodes.now)) }
{
    let mut found = Vec::new(alloc);
    for node in nodes {
        add_selected(step, doc, *node, &mut found)?;
    }
    Ok(found)
}

/// Adds what a step selects of a node.
fn add_selected(step: &Step, doc: &Doc, node: NodeId, found: &mut Vec<NodeId>) -> Result<(), Memory>
    requires kept { IsKept step.now }
    requires node { IsPart doc.now node }
    requires parts { All (IsPart doc.now) found.old.items }
    ensures parts { OnOk result (All (IsPart doc.now) found.new.items) }
    ensures selected { OnOk result (map (part doc.now) found.new.items ≡ map (part doc.now) found.old.items ++ selected (step_view step.now) (part doc.now node)) }
{
    if let Step::Star = step {
        return add_children(doc, node, found);
    }
    if let Some(one) = step_one(step, doc, node) {
        found.push(one)?;
    }
    Ok(())
}

/// Adds the items of a list, or the values of an object's members.
fn add_children(doc: &Doc, node: NodeId, found: &mut Vec<NodeId>) -> Result<(), Memory>
    requires node { IsPart doc.now node }
    requires parts { All (IsPart doc.now) found.old.items }
    ensures parts { OnOk result (All (IsPart doc.now) found.new.items) }
    ensures selected { OnOk result (map (part doc.now) found.new.items ≡ map (part doc.now) found.old.items ++ children (form (part doc.now node))) }
{
    for i in 0..child_count(doc, node) {
        if let Some(one) = child(doc, node, i) {
            found.push(one)?;
        }
    }
    Ok(())
}

/// How many items a list has, or how many members an object.
fn child_count(doc: &Doc, node: NodeId) -> u32
    requires { IsPart doc.now node }
    ensures { result ≡ length (children (form (part doc.now node))) }
{
    match doc.kind(node) {
        Kind::List(count) => count,
        Kind::Object(count) => count,
        Kind::Null | Kind::Bool(_) | Kind::Whole(_) | Kind::Decimal | Kind::Wide | Kind::Text => 0,
    }
}

/// The item at this place of a list, or the value of the member there of an object.
fn child(doc: &Doc, node: NodeId, i: u32) -> Option<NodeId>
    requires { IsPart doc.now node }
    ensures { MatchOption result (slice_get (children (form (part doc.now node))) i ≡ None) (λ k. IsPart doc.now k × (slice_get (children (form (part doc.now node))) i ≡ Some (part doc.now k))) }
{
    match doc.item(node, i) {
        Some(item) => Some(item),
        None => match doc.entry(node, i) {
            Some(entry) => Some(entry.1),
            None => None,
        },
    }
}
