// The items of a list, and the members of an object.
ghost use Rattle.std.specs.Prelude.{◌≡◌, length, None, Some, MatchOption, slice_get};
ghost use Rattle.json_subset.specs.Documents.{IsPart, form, part};
ghost use Rattle.policy_core.specs.Replies.{entries, items};

use json_subset::{Doc, Kind, NodeId};

/// How many items a list has; another value has none.
pub fn item_count(doc: &Doc, node: NodeId) -> u32
    requires { IsPart doc.now node }
    ensures { result ≡ length (items (form (part doc.now node))) }
{
    match doc.kind(node) {
        Kind::List(count) => count,
        Kind::Null
        | Kind::Bool(_)
        | Kind::Whole(_)
        | Kind::Decimal
        | Kind::Wide
        | Kind::Text
        | Kind::Object(_) => 0,
    }
}

/// How many members an object has; another value has none.
pub fn entry_count(doc: &Doc, node: NodeId) -> u32
    requires { IsPart doc.now node }
    ensures { result ≡ length (entries (form (part doc.now node))) }
{
    match doc.kind(node) {
        Kind::Object(count) => count,
        Kind::Null
        | Kind::Bool(_)
        | Kind::Whole(_)
        | Kind::Decimal
        | Kind::Wide
        | Kind::Text
        | Kind::List(_) => 0,
    }
}

/// The item of a list at this place.
pub fn item(doc: &Doc, node: NodeId, i: u32) -> Option<NodeId>
    requires { IsPart doc.now node }
    ensures { MatchOption result (slice_get (items (form (part doc.now node))) i ≡ None) (λ k. IsPart doc.now k × (slice_get (items (form (part doc.now node))) i ≡ Some (part doc.now k))) }
{
    match doc.item(node, i) {
        Some(item) => Some(item),
        None => None,
    }
}

/// The member of an object at this place: its name and its value.
pub fn entry(doc: &Doc, node: NodeId, i: u32) -> Option<(&str, NodeId)>
    requires { IsPart doc.now node }
    ensures { MatchOption result (slice_get (entries (form (part doc.now node))) i ≡ None) (λ p. IsPart doc.now p.1 × (slice_get (entries (form (part doc.now node))) i ≡ Some (p.0.now, part doc.now p.1))) }
{
    match doc.entry(node, i) {
        Some(entry) => Some(entry),
        None => None,
    }
}
