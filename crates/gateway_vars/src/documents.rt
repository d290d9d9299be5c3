// The values of a document.
ghost use Rattle.std.specs.Prelude.{◌≡◌, ◌<◌, ◌++◌, ◌∷◌, [], length, IfOk, OnOk, IfSome};
ghost use Rattle.std.specs.Option.{option_map};
ghost use Rattle.json_subset.specs.Documents.{IsPart, part, form, span as span_of, kind as kind_of, root_tree};
ghost use Rattle.json_subset.specs.declared.doc.Kind.TheVariants as kinds;
ghost use Rattle.vtl_values.specs.Val.{number as number_val};
ghost use Rattle.json_values.specs.Parts.{items_of, entries_of};
ghost use Rattle.gateway_vars.specs.Documents.{value_of, document, parsed};
ghost use Rattle.gateway_vars.specs.Parts.{IsItem, IsMember};

use crate::texts::text_value;
use gw_base::Memory;
use json_subset::{Doc, Json, JsonFault, Kind, NodeId};
use std::alloc::Global;
use std::rc::RcStr;
use vtl_values::{ListMaker, MapMaker, Value};

/// The document that these bytes are; none where they are none.
#[tactic(auto, unfolding(crate::specs::Documents::document))]
pub fn read_document(alloc: Global, bytes: &[u8]) -> Result<Option<Doc>, Memory>
    ensures tree { IfOk result (λ found. option_map root_tree found ≡ document bytes.now) }
    ensures text { IfOk result (λ found. IfSome found (λ d. d.text ≡ bytes.now)) }
{
    match Json::read(alloc, bytes) {
        Ok(doc) => Ok(Some(doc)),
        Err(JsonFault::Memory) => Err(Memory),
        Err(JsonFault::Syntax(_)) => Ok(None),
        Err(JsonFault::Depth(_)) => Ok(None),
        Err(JsonFault::Repeated(_)) => Ok(None),
        Err(JsonFault::NotUtf8(_)) => Ok(None),
    }
}

/// The value of a node of a document.
#[cycle(values)]
pub fn node_value(alloc: Global, doc: &Doc, id: NodeId) -> Result<Value, Memory>
    requires { IsPart doc.now id }
    ensures { IfOk result (λ v. v ≡ value_of (part doc.now id)) }
{
    match doc.kind(id) {
        Kind::Null => Ok(Value::null()),
        Kind::Bool(b) => Ok(Value::boolean(b)),
        Kind::Whole(n) => Ok(Value::whole(n)),
        Kind::Decimal => number_value(alloc, doc, id),
        Kind::Wide => number_value(alloc, doc, id),
        Kind::Text => string_value(alloc, doc, id),
        Kind::List(count) => list_value(alloc, doc, id, count),
        Kind::Object(count) => object_value(alloc, doc, id, count),
    }
}

fn number_value(alloc: Global, doc: &Doc, id: NodeId) -> Result<Value, Memory>
    requires { IsPart doc.now id }
    ensures { IfOk result (λ v. v ≡ number_val (span_of doc.now.text (part doc.now id))) }
{
    Ok(Value::number(RcStr::from_str(alloc, doc.span(id))?))
}

#[tactic(auto, using(crate::proofs::Values::string_value, crate::proofs::Values::some_string))]
fn string_value(alloc: Global, doc: &Doc, id: NodeId) -> Result<Value, Memory>
    requires stands { IsPart doc.now id }
    requires kind { kind_of (form (part doc.now id)) ≡ kinds.Text }
    ensures { IfOk result (λ v. v ≡ value_of (part doc.now id)) }
{
    match doc.text(id) {
        Some(text) => text_value(alloc, text),
        None => Ok(Value::null()),
    }
}

// The value of the item at this place.
#[cycle(values)]
fn item_value(alloc: Global, doc: &Doc, id: NodeId, i: u32) -> Result<Value, Memory>
    requires stands { IsPart doc.now id }
    requires item { i < length (items_of (form (part doc.now id))) }
    ensures { IfOk result (λ v. IsItem (form (part doc.now id)) i v) }
{
    match doc.item(id, i) {
        Some(item) => node_value(alloc, doc, item),
        None => unreachable!(),
    }
}

#[cycle(values)]
fn list_value(alloc: Global, doc: &Doc, id: NodeId, count: u32) -> Result<Value, Memory>
    requires stands { IsPart doc.now id }
    requires kind { kind_of (form (part doc.now id)) ≡ kinds.List count }
    ensures { IfOk result (λ v. v ≡ value_of (part doc.now id)) }
{
    let mut items = ListMaker::new(alloc);
    for i in 0..count {
        let value = item_value(alloc, doc, id, i)?;
        items.push(value)?;
    }
    items.close(alloc)
}

// The name and the value of the member at this place.
#[cycle(values)]
fn member_value(alloc: Global, doc: &Doc, id: NodeId, i: u32) -> Result<(Value, Value), Memory>
    requires stands { IsPart doc.now id }
    requires member { i < length (entries_of (form (part doc.now id))) }
    ensures { IfOk result (λ m. IsMember (form (part doc.now id)) i m) }
{
    match doc.entry(id, i) {
        Some((name, value)) => {
            let name = text_value(alloc, name)?;
            let value = node_value(alloc, doc, value)?;
            Ok((name, value))
        }
        None => unreachable!(),
    }
}

fn put_member(members: &mut MapMaker, member: (Value, Value)) -> Result<(), Memory>
    ensures { OnOk result (members.new ≡ members.old ++ member ∷ []) }
{
    let (name, value) = member;
    members.put(&name, value)
}

#[cycle(values)]
fn object_value(alloc: Global, doc: &Doc, id: NodeId, count: u32) -> Result<Value, Memory>
    requires stands { IsPart doc.now id }
    requires kind { kind_of (form (part doc.now id)) ≡ kinds.Object count }
    ensures { IfOk result (λ v. v ≡ value_of (part doc.now id)) }
{
    let mut members = MapMaker::new(alloc);
    for i in 0..count {
        let member = member_value(alloc, doc, id, i)?;
        put_member(&mut members, member)?;
    }
    members.close(alloc)
}

/// `$util.parseJson` of a text: the value of the document, and null where it is none.
#[tactic(auto, unfolding(crate::specs::Documents::parsed))]
pub fn parse_json(alloc: Global, text: &str) -> Result<Value, Memory>
    ensures { IfOk result (λ v. v ≡ parsed text.now) }
{
    match read_document(alloc, text.as_bytes())? {
        Some(doc) => node_value(alloc, &doc, doc.root()),
        None => Ok(Value::null()),
    }
}
