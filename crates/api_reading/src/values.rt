// The forms of values.
ghost use Rattle.std.specs.Prelude.{◌≡◌, ◌<◌, ◌≤◌, ◌+◌, ◌∷◌, ◌⊎◌, drop, length, MatchResult, Ok, Err};
ghost use Rattle.json_subset.specs.Documents.{IsPart, form, part};
ghost use Rattle.json_values.specs.Parts.{entries_of, items_of};
ghost use Rattle.api_parts.specs.Reading.{Reads, here};
ghost use Rattle.api_reading.specs.Values.{flag_in, list_in, number_in, numbered, object_in, text_in};

use api_parts::{ApiCause, ApiFault, no_memory};
use gw_base::Text;
use json_subset::{Doc, Kind, NodeId};
use std::alloc::Global;

/// The same text once more.
pub fn copy(alloc: Global, text: &str) -> Result<Text, ApiFault>
    ensures { MatchResult result (λ copy. copy ≡ text.now) (λ e. e.cause ≡ ApiCause.Memory) }
{
    match String::from_str(alloc, text) {
        Ok(copy) => Ok(Text::of(copy)),
        Err(_) => Err(no_memory(alloc)),
    }
}

/// A fault at the value that is read.
pub fn fault_here(alloc: Global, cause: ApiCause) -> ApiFault
    ensures { result ≡ here cause }
{
    ApiFault {
        place: Text::of(String::new(alloc)),
        cause,
    }
}

/// The fault of a value of a wrong form.
pub fn bad_member(alloc: Global, name: &str) -> ApiFault
    ensures { (result.cause ≡ ApiCause.Memory) ⊎ (result ≡ here (ApiCause.BadMember name.now)) }
{
    match copy(alloc, name) {
        Ok(name) => fault_here(alloc, ApiCause::BadMember(name)),
        Err(fault) => fault,
    }
}

/// The fault of a member that the object does not have.
pub fn unknown_member(alloc: Global, name: &str) -> ApiFault
    ensures { (result.cause ≡ ApiCause.Memory) ⊎ (result ≡ here (ApiCause.Unknown name.now)) }
{
    match copy(alloc, name) {
        Ok(name) => fault_here(alloc, ApiCause::Unknown(name)),
        Err(fault) => fault,
    }
}

/// The fault of an object that lacks a member.
pub fn missing_member(alloc: Global, name: &str) -> ApiFault
    ensures { (result.cause ≡ ApiCause.Memory) ⊎ (result ≡ here (ApiCause.Missing name.now)) }
{
    match copy(alloc, name) {
        Ok(name) => fault_here(alloc, ApiCause::Missing(name)),
        Err(fault) => fault,
    }
}

/// True or false.
pub fn flag(alloc: Global, doc: &Doc, name: &str, id: NodeId) -> Result<bool, ApiFault>
    requires { IsPart doc.now id }
    ensures { Reads (flag_in name.now (part doc.now id)) result }
{
    match doc.kind(id) {
        Kind::Bool(b) => Ok(b),
        Kind::Null => Err(bad_member(alloc, name)),
        Kind::Whole(_) => Err(bad_member(alloc, name)),
        Kind::Decimal => Err(bad_member(alloc, name)),
        Kind::Wide => Err(bad_member(alloc, name)),
        Kind::Text => Err(bad_member(alloc, name)),
        Kind::List(_) => Err(bad_member(alloc, name)),
        Kind::Object(_) => Err(bad_member(alloc, name)),
    }
}

/// A whole number within these bounds.
pub fn number(
    alloc: Global,
    doc: &Doc,
    least: u32,
    most: u32,
    name: &str,
    id: NodeId,
) -> Result<u32, ApiFault>
    requires { IsPart doc.now id }
    ensures { Reads (number_in least most name.now (part doc.now id)) result }
{
    match doc.kind(id) {
        Kind::Whole(z) => {
            if i64::from(least) <= z && z <= i64::from(most) {
                Ok(z.unsigned_abs() as u32)
            } else {
                Err(bad_member(alloc, name))
            }
        }
        Kind::Null => Err(bad_member(alloc, name)),
        Kind::Bool(_) => Err(bad_member(alloc, name)),
        Kind::Decimal => Err(bad_member(alloc, name)),
        Kind::Wide => Err(bad_member(alloc, name)),
        Kind::Text => Err(bad_member(alloc, name)),
        Kind::List(_) => Err(bad_member(alloc, name)),
        Kind::Object(_) => Err(bad_member(alloc, name)),
    }
}

/// A text.
pub fn text(alloc: Global, doc: &Doc, name: &str, id: NodeId) -> Result<Text, ApiFault>
    requires { IsPart doc.now id }
    ensures { Reads (text_in name.now (part doc.now id)) result }
{
    match doc.text(id) {
        Some(text) => copy(alloc, text),
        None => Err(bad_member(alloc, name)),
    }
}

/// How many members an object has.
#[tactic(auto, using(crate::proofs::Listed::entries_counted))]
pub fn object(alloc: Global, doc: &Doc, name: &str, id: NodeId) -> Result<u32, ApiFault>
    requires { IsPart doc.now id }
    ensures { MatchResult result (λ n. (object_in name.now (part doc.now id) ≡ Ok (entries_of (form (part doc.now id)))) × (n ≡ length (entries_of (form (part doc.now id))))) (λ e. (e.cause ≡ ApiCause.Memory) ⊎ (object_in name.now (part doc.now id) ≡ Err e)) }
{
    match doc.kind(id) {
        Kind::Object(count) => Ok(count),
        Kind::Null => Err(bad_member(alloc, name)),
        Kind::Bool(_) => Err(bad_member(alloc, name)),
        Kind::Whole(_) => Err(bad_member(alloc, name)),
        Kind::Decimal => Err(bad_member(alloc, name)),
        Kind::Wide => Err(bad_member(alloc, name)),
        Kind::Text => Err(bad_member(alloc, name)),
        Kind::List(_) => Err(bad_member(alloc, name)),
    }
}

/// How many items a list has.
#[tactic(auto, using(crate::proofs::Listed::items_counted))]
pub fn list(alloc: Global, doc: &Doc, name: &str, id: NodeId) -> Result<u32, ApiFault>
    requires { IsPart doc.now id }
    ensures { MatchResult result (λ n. (list_in name.now (part doc.now id) ≡ Ok (numbered 0 (items_of (form (part doc.now id))))) × (n ≡ length (items_of (form (part doc.now id))))) (λ e. (e.cause ≡ ApiCause.Memory) ⊎ (list_in name.now (part doc.now id) ≡ Err e)) }
{
    match doc.kind(id) {
        Kind::List(count) => Ok(count),
        Kind::Null => Err(bad_member(alloc, name)),
        Kind::Bool(_) => Err(bad_member(alloc, name)),
        Kind::Whole(_) => Err(bad_member(alloc, name)),
        Kind::Decimal => Err(bad_member(alloc, name)),
        Kind::Wide => Err(bad_member(alloc, name)),
        Kind::Text => Err(bad_member(alloc, name)),
        Kind::Object(_) => Err(bad_member(alloc, name)),
    }
}

/// How many members a value has: none, where it is no object.
#[tactic(auto, using(crate::proofs::Listed::entries_counted))]
pub fn entry_count(doc: &Doc, id: NodeId) -> u32
    requires { IsPart doc.now id }
    ensures { result ≡ length (entries_of (form (part doc.now id))) }
{
    match doc.kind(id) {
        Kind::Object(count) => count,
        Kind::Null => 0,
        Kind::Bool(_) => 0,
        Kind::Whole(_) => 0,
        Kind::Decimal => 0,
        Kind::Wide => 0,
        Kind::Text => 0,
        Kind::List(_) => 0,
    }
}

/// The member at this place of an object: its name and its value.
pub fn member_at(doc: &Doc, id: NodeId, i: u32) -> (&str, NodeId)
    requires stands { IsPart doc.now id }
    requires within { i < length (entries_of (form (part doc.now id))) }
    ensures stands { IsPart doc.now result.1 }
    ensures rest { drop i (entries_of (form (part doc.now id))) ≡ (result.0.now, part doc.now result.1) ∷ drop (i + 1) (entries_of (form (part doc.now id))) }
{
    match doc.entry(id, i) {
        Some(entry) => entry,
        None => unreachable!(),
    }
}

/// The item at this place of a list.
pub fn item_at(doc: &Doc, id: NodeId, i: u32) -> NodeId
    requires stands { IsPart doc.now id }
    requires within { i < length (items_of (form (part doc.now id))) }
    ensures stands { IsPart doc.now result }
    ensures rest { drop i (items_of (form (part doc.now id))) ≡ part doc.now result ∷ drop (i + 1) (items_of (form (part doc.now id))) }
{
    match doc.item(id, i) {
        Some(item) => item,
        None => unreachable!(),
    }
}
