// Reading the values of a document.
ghost use Rattle.std.specs.Prelude.{◌≡◌, ◌<◌, ◌≤◌, ℕ, length, map, take, true, [], ◌∷◌, ◌++◌, List, OnOk, IfOk, Some, None, if◌then◌else◌};
ghost use Rattle.std.specs.BTreeMap.{get_by_text};
ghost use Rattle.std.specs.Str.{bytes_eq};
ghost use Rattle.std.specs.String.{string_bytes};
ghost use Rattle.json_subset.specs.Tree.{Tree};
ghost use Rattle.json_subset.specs.Nodes.{member_at, AllBelow, AllValuesBelow};
ghost use Rattle.json_subset.specs.Documents.{part, IsPart, form as form_in, item_at, entry_at};
ghost use Rattle.json_subset.specs.Numbered.{number_named};
ghost use Rattle.json_subset.specs.declared.doc.Kind.TheVariants as kinds;
ghost use Rattle.json_subset.specs.Documents.{kind as kind_of};
ghost use Rattle.json_values.specs.Parts.{items_of, entries_of, is_number};
ghost use Rattle.json_values.specs.Values.{first_of, AreSound, IsBelow, IsReady, IsIndexed, Mirror, Extends, source_of, form_of};

use crate::number::decimal_amount;
use crate::value::{Form, Members, Number, Value};
use gw_base::Memory;
use json_subset::{Doc, Kind, NodeId};
use std::alloc::Global;
use std::collections::BTreeMap;

// One more value, behind its parts.
fn add(doc: &Doc, values: &mut Vec<Value>, id: NodeId, form: Form) -> Result<usize, Memory>
    requires sound { AreSound values.old.items }
    requires mirror { Mirror doc.now values.old.items }
    requires stands { IsPart doc.now id }
    requires below { IsBelow (length values.old.items) form }
    requires ready { IsReady form }
    requires alike { form_in (part doc.now id) ≡ form_of (source_of doc.now values.old.items) form }
    ensures sound { OnOk result (AreSound values.new.items) }
    ensures mirror { OnOk result (Mirror doc.now values.new.items) }
    ensures extends { OnOk result (Extends values.old.items values.new.items) }
    ensures stands { IfOk result (λ k. k < length values.new.items) }
    ensures source { IfOk result (λ k. source_of doc.now values.new.items k ≡ part doc.now id) }
{
    let k = values.len();
    values.push(Value { id, form })?;
    Ok(k)
}

// A text of its own.
fn owned(alloc: Global, text: &str) -> Result<String, Memory>
    ensures { IfOk result (λ s. string_bytes s ≡ text.now) }
{
    Ok(String::from_str(alloc, text)?)
}

// A number with its source.
#[tactic(auto, using(crate::proofs::Seen::whole_part, crate::proofs::Seen::decimal_part, crate::proofs::Seen::wide_part))]
fn read_number(alloc: Global, doc: &Doc, values: &[Value], id: NodeId) -> Result<Form, Memory>
    requires stands { IsPart doc.now id }
    requires number { is_number (form_in (part doc.now id)) ≡ true }
    ensures alike { IfOk result (λ f. form_in (part doc.now id) ≡ form_of (source_of doc.now values.now) f) }
    ensures below { IfOk result (λ f. IsBelow 0 f) }
    ensures ready { IfOk result (λ f. IsReady f) }
{
    let source = owned(alloc, doc.span(id))?;
    match doc.kind(id) {
        Kind::Whole(z) => Ok(Form::Number(Number::Whole(z), source)),
        Kind::Decimal => {
            let amount = decimal_amount(source.as_bytes());
            Ok(Form::Number(Number::Decimal(amount), source))
        }
        Kind::Wide => Ok(Form::Number(Number::Wide, source)),
        _ => unreachable!(),
    }
}

// A string with its decoded text.
#[tactic(auto, using(crate::proofs::Seen::text_form, crate::proofs::Seen::text_decoded))]
fn read_text(alloc: Global, doc: &Doc, values: &[Value], id: NodeId) -> Result<Form, Memory>
    requires stands { IsPart doc.now id }
    requires kind { kind_of (form_in (part doc.now id)) ≡ kinds.Text }
    ensures alike { IfOk result (λ f. form_in (part doc.now id) ≡ form_of (source_of doc.now values.now) f) }
    ensures below { IfOk result (λ f. IsBelow 0 f) }
    ensures ready { IfOk result (λ f. IsReady f) }
{
    match doc.text(id) {
        Some(text) => Ok(Form::Text(owned(alloc, text)?)),
        None => unreachable!(),
    }
}

// A name's number, unless the name has one.
fn enter(
    alloc: Global,
    index: &mut BTreeMap<String, usize>,
    name: &str,
    k: usize,
) -> Result<(), Memory>
    ensures { OnOk result ((q : List ℕ) → get_by_text index.new q ≡ first_of (get_by_text index.old q) (if bytes_eq name.now q then Some k else None)) }
{
    if index.contains_key(name) {
        return Ok(());
    }
    let key = owned(alloc, name)?;
    index.insert(key, k)?;
    Ok(())
}

/// One more member; of those of one name the first is found.
#[tactic(auto, using(crate::proofs::Lookups::indexed_push))]
pub fn push_member(
    alloc: Global,
    members: &mut Members,
    member: (String, usize),
) -> Result<(), Memory>
    requires indexed { IsIndexed members.old.list.items members.old.index }
    ensures list { OnOk result (members.new.list.items ≡ members.old.list.items ++ member ∷ []) }
    ensures indexed { OnOk result (IsIndexed members.new.list.items members.new.index) }
{
    enter(alloc, &mut members.index, member.0.as_str(), member.1)?;
    members.list.push(member)?;
    Ok(())
}

/// The values of this part of the document, its own behind those of its parts.
#[cycle(reading)]
pub fn read_part(
    alloc: Global,
    doc: &Doc,
    values: &mut Vec<Value>,
    id: NodeId,
) -> Result<usize, Memory>
    requires sound { AreSound values.old.items }
    requires mirror { Mirror doc.now values.old.items }
    requires stands { IsPart doc.now id }
    ensures sound { OnOk result (AreSound values.new.items) }
    ensures mirror { OnOk result (Mirror doc.now values.new.items) }
    ensures extends { OnOk result (Extends values.old.items values.new.items) }
    ensures stands { IfOk result (λ k. k < length values.new.items) }
    ensures source { IfOk result (λ k. source_of doc.now values.new.items k ≡ part doc.now id) }
{
    match doc.kind(id) {
        Kind::Null => add(doc, values, id, Form::Null),
        Kind::Bool(b) => add(doc, values, id, Form::Bool(b)),
        Kind::Whole(_) | Kind::Decimal | Kind::Wide => {
            let form = read_number(alloc, doc, values, id)?;
            add(doc, values, id, form)
        }
        Kind::Text => {
            let form = read_text(alloc, doc, values, id)?;
            add(doc, values, id, form)
        }
        Kind::List(count) => {
            let ids = read_items(alloc, doc, values, id, count)?;
            add(doc, values, id, Form::List(ids))
        }
        Kind::Object(count) => {
            let members = read_members(alloc, doc, values, id, count)?;
            add(doc, values, id, Form::Object(members))
        }
    }
}

// The item at this place.
#[cycle(reading)]
fn read_item(
    alloc: Global,
    doc: &Doc,
    values: &mut Vec<Value>,
    id: NodeId,
    i: u32,
) -> Result<usize, Memory>
    requires sound { AreSound values.old.items }
    requires mirror { Mirror doc.now values.old.items }
    requires stands { IsPart doc.now id }
    requires item { i < length (items_of (form_in (part doc.now id))) }
    ensures sound { OnOk result (AreSound values.new.items) }
    ensures mirror { OnOk result (Mirror doc.now values.new.items) }
    ensures extends { OnOk result (Extends values.old.items values.new.items) }
    ensures stands { IfOk result (λ k. k < length values.new.items) }
    ensures source { IfOk result (λ k. item_at (form_in (part doc.now id)) i ≡ Some (source_of doc.now values.new.items k)) }
{
    match doc.item(id, i) {
        Some(item) => read_part(alloc, doc, values, item),
        None => unreachable!(),
    }
}

// The items of a list.
#[cycle(reading)]
fn read_items(
    alloc: Global,
    doc: &Doc,
    values: &mut Vec<Value>,
    id: NodeId,
    count: u32,
) -> Result<Vec<usize>, Memory>
    requires sound { AreSound values.old.items }
    requires mirror { Mirror doc.now values.old.items }
    requires stands { IsPart doc.now id }
    requires count { count ≡ length (items_of (form_in (part doc.now id))) }
    ensures sound { OnOk result (AreSound values.new.items) }
    ensures mirror { OnOk result (Mirror doc.now values.new.items) }
    ensures extends { OnOk result (Extends values.old.items values.new.items) }
    ensures below { IfOk result (λ ids. AllBelow (length values.new.items) ids.items) }
    ensures items { IfOk result (λ ids. map (source_of doc.now values.new.items) ids.items ≡ items_of (form_in (part doc.now id))) }
{
    let mut ids = Vec::new(alloc);
    for i in 0..count {
        let k = read_item(alloc, doc, values, id, i)?;
        ids.push(k)?;
    }
    Ok(ids)
}

// The member at this place.
#[cycle(reading)]
fn read_member(
    alloc: Global,
    doc: &Doc,
    values: &mut Vec<Value>,
    id: NodeId,
    i: u32,
) -> Result<(String, usize), Memory>
    requires sound { AreSound values.old.items }
    requires mirror { Mirror doc.now values.old.items }
    requires stands { IsPart doc.now id }
    requires member { i < length (entries_of (form_in (part doc.now id))) }
    ensures sound { OnOk result (AreSound values.new.items) }
    ensures mirror { OnOk result (Mirror doc.now values.new.items) }
    ensures extends { OnOk result (Extends values.old.items values.new.items) }
    ensures stands { IfOk result (λ m. m.1 < length values.new.items) }
    ensures source { IfOk result (λ m. entry_at (form_in (part doc.now id)) i ≡ Some (member_at (source_of doc.now values.new.items) m)) }
{
    match doc.entry(id, i) {
        Some((name, value)) => {
            let name = owned(alloc, name)?;
            let k = read_part(alloc, doc, values, value)?;
            Ok((name, k))
        }
        None => unreachable!(),
    }
}

// The members of an object, in their order and by name.
#[cycle(reading)]
fn read_members(
    alloc: Global,
    doc: &Doc,
    values: &mut Vec<Value>,
    id: NodeId,
    count: u32,
) -> Result<Members, Memory>
    requires sound { AreSound values.old.items }
    requires mirror { Mirror doc.now values.old.items }
    requires stands { IsPart doc.now id }
    requires count { count ≡ length (entries_of (form_in (part doc.now id))) }
    ensures sound { OnOk result (AreSound values.new.items) }
    ensures mirror { OnOk result (Mirror doc.now values.new.items) }
    ensures extends { OnOk result (Extends values.old.items values.new.items) }
    ensures below { IfOk result (λ ms. AllValuesBelow (length values.new.items) ms.list.items) }
    ensures indexed { IfOk result (λ ms. IsIndexed ms.list.items ms.index) }
    ensures members { IfOk result (λ ms. map (member_at (source_of doc.now values.new.items)) ms.list.items ≡ entries_of (form_in (part doc.now id))) }
{
    let mut members = Members {
        list: Vec::new(alloc),
        index: BTreeMap::new(alloc),
    };
    for i in 0..count {
        let member = read_member(alloc, doc, values, id, i)?;
        push_member(alloc, &mut members, member)?;
    }
    Ok(members)
}
