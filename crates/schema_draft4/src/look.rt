// What stands at a part of a document.
ghost use Rattle.std.specs.Prelude.{◌≡◌, ◌<◌, ◌+◌, option_map, false, true, MatchOption, None, Some};
ghost use Rattle.json_subset.specs.Documents.{IsPart, decoded, form, kind, part, member_named};
ghost use Rattle.json_subset.specs.Grammar.{depth};
ghost use Rattle.json_subset.specs.Tree.{tree, member};
ghost use Rattle.json_subset.specs.declared.doc.Kind.TheVariants as kinds;
ghost use Rattle.schema_draft4.specs.Faults.{rest_items, rest_members};
ghost use Rattle.schema_draft4.specs.Reading as says;

use json_subset::{Doc, Kind, NodeId};
use std::cmp::Ordering;

/// The number that stands here, if it is whole.
pub fn whole_at(doc: &Doc, id: NodeId) -> Option<i64>
    requires { IsPart doc.now id }
    ensures { result ≡ says.whole_of (says.kind_of (part doc.now id)) }
{
    match doc.kind(id) {
        Kind::Whole(z) => Some(z),
        Kind::Null => None,
        Kind::Bool(_) => None,
        Kind::Decimal => None,
        Kind::Wide => None,
        Kind::Text => None,
        Kind::List(_) => None,
        Kind::Object(_) => None,
    }
}

/// True or false, if one of these stands here.
pub fn flag_at(doc: &Doc, id: NodeId) -> Option<bool>
    requires { IsPart doc.now id }
    ensures { result ≡ says.flag_of (says.kind_of (part doc.now id)) }
{
    match doc.kind(id) {
        Kind::Bool(b) => Some(b),
        Kind::Null => None,
        Kind::Whole(_) => None,
        Kind::Decimal => None,
        Kind::Wide => None,
        Kind::Text => None,
        Kind::List(_) => None,
        Kind::Object(_) => None,
    }
}

/// The number that stands here, if it is whole and not negative.
pub fn size_at(doc: &Doc, id: NodeId) -> Option<u64>
    requires { IsPart doc.now id }
    ensures { result ≡ says.size_of (says.whole_of (says.kind_of (part doc.now id))) }
{
    match whole_at(doc, id) {
        None => None,
        Some(z) => match z.cmp(&0) {
            Ordering::Less => None,
            Ordering::Equal => Some(0),
            Ordering::Greater => Some(z.unsigned_abs()),
        },
    }
}

/// Whether the object has this member, and it is true.
pub fn is_sharp(doc: &Doc, all: NodeId, name: &str) -> bool
    requires { IsPart doc.now all }
    ensures { result ≡ says.is_sharp (member_named (form (part doc.now all)) name.now) }
{
    match doc.member(all, name) {
        None => false,
        Some(id) => match flag_at(doc, id) {
            None => false,
            Some(b) => b,
        },
    }
}

/// The item at this place of a list of so many.
pub fn item_of(doc: &Doc, id: NodeId, count: u32, i: u32) -> NodeId
    requires stands { IsPart doc.now id }
    requires list { kind (form (part doc.now id)) ≡ kinds.List count }
    requires within { i < count }
    ensures stands { IsPart doc.now result }
    ensures rest { rest_items (form (part doc.now id)) i ≡ tree (part doc.now result) (rest_items (form (part doc.now id)) (i + 1)) }
    ensures less { depth (part doc.now result) < depth (part doc.now id) }
{
    match doc.item(id, i) {
        Some(item) => item,
        None => unreachable!(),
    }
}

/// The member at this place of an object of so many: its name and its value.
pub fn entry_of(doc: &Doc, id: NodeId, count: u32, i: u32) -> (&str, NodeId)
    requires stands { IsPart doc.now id }
    requires object { kind (form (part doc.now id)) ≡ kinds.Object count }
    requires within { i < count }
    ensures stands { IsPart doc.now result.1 }
    ensures rest { rest_members (form (part doc.now id)) i ≡ member result.0.now (part doc.now result.1) (rest_members (form (part doc.now id)) (i + 1)) }
    ensures less { depth (part doc.now result.1) < depth (part doc.now id) }
{
    match doc.entry(id, i) {
        Some(entry) => entry,
        None => unreachable!(),
    }
}

/// The decoded text that stands here, if it is one.
pub fn text_at(doc: &Doc, id: NodeId) -> Option<&str>
    requires { IsPart doc.now id }
    ensures { option_map (λ t. t.now) result ≡ decoded (form (part doc.now id)) }
{
    doc.text(id)
}

/// How many items stand here, if it is a list.
#[tactic(auto, using(crate::proofs::Rests::no_items))]
pub fn list_len(doc: &Doc, id: NodeId) -> Option<u32>
    requires { IsPart doc.now id }
    ensures { MatchOption result ((says.items_in (form (part doc.now id)) ≡ None) × (says.is_list (says.kind_of (part doc.now id)) ≡ false)) (λ n. kind (form (part doc.now id)) ≡ kinds.List n) }
{
    match doc.kind(id) {
        Kind::List(count) => Some(count),
        Kind::Bool(_) => None,
        Kind::Null => None,
        Kind::Whole(_) => None,
        Kind::Decimal => None,
        Kind::Wide => None,
        Kind::Text => None,
        Kind::Object(_) => None,
    }
}

/// How many items stand here, if it is a list that is not empty.
pub fn full_len(doc: &Doc, id: NodeId) -> Option<u32>
    requires { IsPart doc.now id }
    ensures { MatchOption result (says.is_full_list (says.kind_of (part doc.now id)) ≡ false) (λ n. (kind (form (part doc.now id)) ≡ kinds.List n) × (says.is_full_list (says.kind_of (part doc.now id)) ≡ true)) }
{
    match doc.kind(id) {
        Kind::List(count) => { if count == 0 { None } else { Some(count) } }
        Kind::Bool(_) => None,
        Kind::Null => None,
        Kind::Whole(_) => None,
        Kind::Decimal => None,
        Kind::Wide => None,
        Kind::Text => None,
        Kind::Object(_) => None,
    }
}

/// How many members stand here, if it is an object.
pub fn object_len(doc: &Doc, id: NodeId) -> Option<u32>
    requires { IsPart doc.now id }
    ensures { MatchOption result (says.is_object (says.kind_of (part doc.now id)) ≡ false) (λ n. kind (form (part doc.now id)) ≡ kinds.Object n) }
{
    match doc.kind(id) {
        Kind::Object(count) => Some(count),
        Kind::Bool(_) => None,
        Kind::Null => None,
        Kind::Whole(_) => None,
        Kind::Decimal => None,
        Kind::Wide => None,
        Kind::Text => None,
        Kind::List(_) => None,
    }
}
