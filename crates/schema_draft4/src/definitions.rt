// The definitions at the root, by name.
ghost use Rattle.std.specs.Prelude.{◌≡◌, [], map, IfOk};
ghost use Rattle.std.specs.String.{string_bytes};
ghost use Rattle.json_subset.specs.Documents.{IsPart, form, kind, part};
ghost use Rattle.json_subset.specs.declared.doc.Kind.TheVariants as kinds;
ghost use Rattle.json_values.specs.Values.{IsIndexed};
ghost use Rattle.schema_draft4.specs.Reading as says;
ghost use Rattle.schema_rules.specs.Views.{named_schema};

use crate::look::{entry_of, object_len};
use gw_base::Memory;
use json_subset::{Doc, NodeId};
use json_values::{Members, push_member};
use std::alloc::Global;
use std::collections::BTreeMap;

// No definition.
fn no_definitions(alloc: Global) -> Members
    ensures list { map named_schema result.list.items ≡ [] }
    ensures indexed { IsIndexed result.list.items result.index }
{
    Members {
        list: Vec::new(alloc),
        index: BTreeMap::new(alloc),
    }
}

/// The names of the root's definitions, each with the number by which a `$ref` names it.
pub fn read_definitions(alloc: Global, doc: &Doc, id: NodeId) -> Result<Members, Memory>
    requires { IsPart doc.now id }
    ensures list { IfOk result (λ m. map named_schema m.list.items ≡ says.definitions_of (part doc.now id)) }
    ensures indexed { IfOk result (λ m. IsIndexed m.list.items m.index) }
{
    match doc.member(id, "definitions") {
        None => Ok(no_definitions(alloc)),
        Some(all) => definitions_in(alloc, doc, all),
    }
}

#[tactic(auto, using(crate::proofs::Rests::not_numbered))]
fn definitions_in(alloc: Global, doc: &Doc, id: NodeId) -> Result<Members, Memory>
    requires { IsPart doc.now id }
    ensures list { IfOk result (λ m. map named_schema m.list.items ≡ says.numbered_form (form (part doc.now id))) }
    ensures indexed { IfOk result (λ m. IsIndexed m.list.items m.index) }
{
    match object_len(doc, id) {
        None => Ok(no_definitions(alloc)),
        Some(count) => numbered(alloc, doc, id, count),
    }
}

fn numbered(alloc: Global, doc: &Doc, id: NodeId, count: u32) -> Result<Members, Memory>
    requires stands { IsPart doc.now id }
    requires object { kind (form (part doc.now id)) ≡ kinds.Object count }
    ensures list { IfOk result (λ m. map named_schema m.list.items ≡ says.numbered_form (form (part doc.now id))) }
    ensures indexed { IfOk result (λ m. IsIndexed m.list.items m.index) }
{
    let mut members = no_definitions(alloc);
    for i in 0..count {
        let (name, _) = entry_of(doc, id, count, i);
        let name = owned(alloc, name)?;
        push_member(alloc, &mut members, (name, i as usize + 1))?;
    }
    Ok(members)
}

// A text of its own.
fn owned(alloc: Global, text: &str) -> Result<String, Memory>
    ensures { IfOk result (λ s. string_bytes s ≡ text.now) }
{
    Ok(String::from_str(alloc, text)?)
}
