// Reading schemas from a document.
ghost use Rattle.std.specs.Prelude.{◌≡◌, ◌<◌, [], ◌∷◌, ◌++◌, List, ℕ, length, map, Bool, false, true, IfOk, IfErr, OnOk, IfSome};
ghost use Rattle.std.specs.String.{string_bytes};
ghost use Rattle.json_subset.specs.Documents.{IsPart, form, kind, part};
ghost use Rattle.json_subset.specs.Tree.{null};
ghost use Rattle.json_subset.specs.declared.doc.Kind.TheVariants as kinds;
ghost use Rattle.json_values.specs.Values.{IsIndexed};
ghost use Rattle.schema_draft4.specs.Faults.{Gives, rest_items, rest_members};
ghost use Rattle.schema_rules.specs.Made.{AllWellMade, AreWellMade, IsWellMade};
ghost use Rattle.schema_draft4.specs.Reading as says;
ghost use Rattle.schema_rules.specs.Verdict.{place_of};
ghost use Rattle.schema_rules.specs.Views.{named_schema, rule_of, rules_from, rules_in, unnamed};
ghost use Rattle.schema_draft4.specs.Words as word;

use crate::fault::SchemaFault;
use crate::look::{entry_of, flag_at, full_len, item_of, list_len, object_len};
use crate::read_rule::{other_items, other_properties, read_plain};
use crate::word::{Word, word_of};
use gw_base::Memory;
use json_subset::{Doc, Kind, NodeId};
use json_values::Members;
use schema_rules::{Node, Others, Rule};
use std::alloc::Global;

// One more schema, behind the others.
#[tactic(auto, using(crate::proofs::Grown::length_rules, crate::proofs::Grown::rules_push))]
fn close(nodes: &mut Vec<Node>, rules: Vec<Rule>) -> Result<usize, SchemaFault>
    requires made { AreWellMade nodes.old.items }
    requires rules { AllWellMade rules.items }
    ensures number { IfOk result (λ k. k ≡ length (map rules_in nodes.old.items)) }
    ensures rules { OnOk result (map rules_in nodes.new.items ≡ map rules_in nodes.old.items ++ map rule_of rules.items ∷ []) }
    ensures made { OnOk result (AreWellMade nodes.new.items) }
    ensures memory { IfErr result (λ e. e ≡ SchemaFault.Memory) }
{
    let k = nodes.len();
    match nodes.push(Node { rules, rank: 0 }) {
        Ok(()) => Ok(k),
        Err(_) => Err(SchemaFault::Memory),
    }
}

// One more rule, or none.
fn push_rule(rules: &mut Vec<Rule>, rule: Option<Rule>) -> Result<(), SchemaFault>
    requires made { AllWellMade rules.old.items }
    requires rule { IfSome rule IsWellMade }
    ensures rules { OnOk result (map rule_of rules.new.items ≡ map rule_of rules.old.items ++ rules_from rule) }
    ensures made { OnOk result (AllWellMade rules.new.items) }
    ensures memory { IfErr result (λ e. e ≡ SchemaFault.Memory) }
{
    match rule {
        None => Ok(()),
        Some(rule) => match rules.push(rule) {
            Ok(()) => Ok(()),
            Err(_) => Err(SchemaFault::Memory),
        },
    }
}

// Whether a keyword is read.
fn is_read(refers: bool, root: bool, word: Word) -> bool
    ensures { result ≡ says.is_read refers root word }
{
    match word {
        Word::Ref => true,
        Word::Definitions => root || !refers,
        _ => !refers,
    }
}

/// The number of the schema that stands here, behind the schemas so far.
#[cycle(schemas)]
pub fn read_schema(
    alloc: Global,
    doc: &Doc,
    defs: &Members,
    nodes: &mut Vec<Node>,
    root: bool,
    id: NodeId,
) -> Result<usize, SchemaFault>
    requires indexed { IsIndexed defs.now.list.items defs.now.index }
    requires made { AreWellMade nodes.old.items }
    requires stands { IsPart doc.now id }
    ensures gives { Gives doc.now (λ k. (k, map rules_in nodes.new.items)) result (says.schema (map named_schema defs.now.list.items) root (map rules_in nodes.old.items) (part doc.now id)) }
    ensures made { OnOk result (AreWellMade nodes.new.items) }
{
    match object_len(doc, id) {
        None => Err(SchemaFault::BadKeyword(id)),
        Some(count) => {
            let refers = doc.member(id, "$ref").is_some();
            let rules = read_keywords(alloc, doc, defs, nodes, root, refers, id, count)?;
            close(nodes, rules)
        }
    }
}

// The keywords of a schema.
#[cycle(schemas)]
fn read_keywords(
    alloc: Global,
    doc: &Doc,
    defs: &Members,
    nodes: &mut Vec<Node>,
    root: bool,
    refers: bool,
    id: NodeId,
    count: u32,
) -> Result<Vec<Rule>, SchemaFault>
    requires indexed { IsIndexed defs.now.list.items defs.now.index }
    requires made { AreWellMade nodes.old.items }
    requires stands { IsPart doc.now id }
    requires object { kind (form (part doc.now id)) ≡ kinds.Object count }
    requires refers { refers ≡ says.refers_in (form (part doc.now id)) }
    ensures gives { Gives doc.now (λ rs. (map rule_of rs.items, map rules_in nodes.new.items)) result (says.keywords (map named_schema defs.now.list.items) root (form (part doc.now id)) [] (map rules_in nodes.old.items) (rest_members (form (part doc.now id)) 0)) }
    ensures made { OnOk result (AreWellMade nodes.new.items) }
    ensures rules { IfOk result (λ rs. AllWellMade rs.items) }
{
    let mut rules = Vec::new(alloc);
    for i in 0..count {
        let (name, value) = entry_of(doc, id, count, i);
        let rule = read_member(alloc, doc, defs, nodes, root, refers, id, name, value)?;
        push_rule(&mut rules, rule)?;
    }
    Ok(rules)
}

// One member of a schema.
#[cycle(schemas)]
fn read_member(
    alloc: Global,
    doc: &Doc,
    defs: &Members,
    nodes: &mut Vec<Node>,
    root: bool,
    refers: bool,
    all: NodeId,
    name: &str,
    id: NodeId,
) -> Result<Option<Rule>, SchemaFault>
    requires indexed { IsIndexed defs.now.list.items defs.now.index }
    requires made { AreWellMade nodes.old.items }
    requires object { IsPart doc.now all }
    requires stands { IsPart doc.now id }
    ensures gives { Gives doc.now (λ o. (rules_from o, map rules_in nodes.new.items)) result (says.if_read (says.is_read refers root (word.word_of name.now)) (map rules_in nodes.old.items) (says.keyword (map named_schema defs.now.list.items) (form (part doc.now all)) (map rules_in nodes.old.items) name.now (word.word_of name.now) (part doc.now id) (says.schema (map named_schema defs.now.list.items) false (map rules_in nodes.old.items) (part doc.now id)) (says.parts (map named_schema defs.now.list.items) (map rules_in nodes.old.items) (part doc.now id)))) }
    ensures made { OnOk result (AreWellMade nodes.new.items) }
    ensures rule { IfOk result (λ o. IfSome o IsWellMade) }
{
    let word = word_of(name);
    if is_read(refers, root, word) {
        read_keyword(alloc, doc, defs, nodes, all, name, word, id)
    } else {
        Ok(None)
    }
}

// One keyword.
#[cycle(schemas)]
fn read_keyword(
    alloc: Global,
    doc: &Doc,
    defs: &Members,
    nodes: &mut Vec<Node>,
    all: NodeId,
    name: &str,
    word: Word,
    id: NodeId,
) -> Result<Option<Rule>, SchemaFault>
    requires indexed { IsIndexed defs.now.list.items defs.now.index }
    requires made { AreWellMade nodes.old.items }
    requires object { IsPart doc.now all }
    requires stands { IsPart doc.now id }
    ensures gives { Gives doc.now (λ o. (rules_from o, map rules_in nodes.new.items)) result (says.keyword (map named_schema defs.now.list.items) (form (part doc.now all)) (map rules_in nodes.old.items) name.now word (part doc.now id) (says.schema (map named_schema defs.now.list.items) false (map rules_in nodes.old.items) (part doc.now id)) (says.parts (map named_schema defs.now.list.items) (map rules_in nodes.old.items) (part doc.now id))) }
    ensures made { OnOk result (AreWellMade nodes.new.items) }
    ensures rule { IfOk result (λ o. IfSome o IsWellMade) }
{
    match word {
        Word::Properties => Ok(Some(Rule::Properties(read_named(alloc, doc, defs, nodes, id)?))),
        Word::Definitions => Ok(Some(Rule::Defines(read_named(alloc, doc, defs, nodes, id)?))),
        Word::AdditionalProperties => read_other_properties(alloc, doc, defs, nodes, all, id),
        Word::Items => read_items_rule(alloc, doc, defs, nodes, id),
        Word::AdditionalItems => read_other_items(alloc, doc, defs, nodes, all, id),
        Word::AllOf => Ok(Some(Rule::AllOf(read_full(alloc, doc, defs, nodes, id)?))),
        Word::AnyOf => Ok(Some(Rule::AnyOf(read_full(alloc, doc, defs, nodes, id)?))),
        Word::OneOf => Ok(Some(Rule::OneOf(read_full(alloc, doc, defs, nodes, id)?))),
        Word::Not => Ok(Some(Rule::Not(read_schema(alloc, doc, defs, nodes, false, id)?))),
        _ => read_plain(alloc, doc, defs, all, name, word, id),
    }
}

// `additionalProperties`: true, false or a schema.
#[cycle(schemas)]
fn read_other_properties(
    alloc: Global,
    doc: &Doc,
    defs: &Members,
    nodes: &mut Vec<Node>,
    all: NodeId,
    id: NodeId,
) -> Result<Option<Rule>, SchemaFault>
    requires indexed { IsIndexed defs.now.list.items defs.now.index }
    requires made { AreWellMade nodes.old.items }
    requires object { IsPart doc.now all }
    requires stands { IsPart doc.now id }
    ensures gives { Gives doc.now (λ o. (rules_from o, map rules_in nodes.new.items)) result (says.keyword (map named_schema defs.now.list.items) (form (part doc.now all)) (map rules_in nodes.old.items) [] Word.AdditionalProperties (part doc.now id) (says.schema (map named_schema defs.now.list.items) false (map rules_in nodes.old.items) (part doc.now id)) (says.parts (map named_schema defs.now.list.items) (map rules_in nodes.old.items) (part doc.now id))) }
    ensures made { OnOk result (AreWellMade nodes.new.items) }
    ensures rule { IfOk result (λ o. IfSome o IsWellMade) }
{
    match flag_at(doc, id) {
        Some(true) => Ok(None),
        Some(false) => other_properties(alloc, doc, all, Others::Refused),
        None => {
            let k = read_schema(alloc, doc, defs, nodes, false, id)?;
            other_properties(alloc, doc, all, Others::By(k))
        }
    }
}

// `additionalItems`: true, false or a schema.
#[cycle(schemas)]
fn read_other_items(
    alloc: Global,
    doc: &Doc,
    defs: &Members,
    nodes: &mut Vec<Node>,
    all: NodeId,
    id: NodeId,
) -> Result<Option<Rule>, SchemaFault>
    requires indexed { IsIndexed defs.now.list.items defs.now.index }
    requires made { AreWellMade nodes.old.items }
    requires object { IsPart doc.now all }
    requires stands { IsPart doc.now id }
    ensures gives { Gives doc.now (λ o. (rules_from o, map rules_in nodes.new.items)) result (says.keyword (map named_schema defs.now.list.items) (form (part doc.now all)) (map rules_in nodes.old.items) [] Word.AdditionalItems (part doc.now id) (says.schema (map named_schema defs.now.list.items) false (map rules_in nodes.old.items) (part doc.now id)) (says.parts (map named_schema defs.now.list.items) (map rules_in nodes.old.items) (part doc.now id))) }
    ensures made { OnOk result (AreWellMade nodes.new.items) }
    ensures rule { IfOk result (λ o. IfSome o IsWellMade) }
{
    match flag_at(doc, id) {
        Some(true) => Ok(None),
        Some(false) => Ok(other_items(doc, all, Others::Refused)),
        None => {
            let k = read_schema(alloc, doc, defs, nodes, false, id)?;
            Ok(other_items(doc, all, Others::By(k)))
        }
    }
}

// `items`: a schema, or one for each item by its place.
#[cycle(schemas)]
fn read_items_rule(
    alloc: Global,
    doc: &Doc,
    defs: &Members,
    nodes: &mut Vec<Node>,
    id: NodeId,
) -> Result<Option<Rule>, SchemaFault>
    requires indexed { IsIndexed defs.now.list.items defs.now.index }
    requires made { AreWellMade nodes.old.items }
    requires stands { IsPart doc.now id }
    ensures gives { Gives doc.now (λ o. (rules_from o, map rules_in nodes.new.items)) result (says.keyword (map named_schema defs.now.list.items) null (map rules_in nodes.old.items) [] Word.Items (part doc.now id) (says.schema (map named_schema defs.now.list.items) false (map rules_in nodes.old.items) (part doc.now id)) (says.parts (map named_schema defs.now.list.items) (map rules_in nodes.old.items) (part doc.now id))) }
    ensures made { OnOk result (AreWellMade nodes.new.items) }
    ensures rule { IfOk result (λ o. IfSome o IsWellMade) }
{
    match list_len(doc, id) {
        None => Ok(Some(Rule::Items(read_schema(alloc, doc, defs, nodes, false, id)?))),
        Some(count) => Ok(Some(Rule::ItemsEach(read_items(alloc, doc, defs, nodes, id, count)?))),
    }
}

// An object's members as schemas, with their names.
#[cycle(schemas)]
fn read_named(
    alloc: Global,
    doc: &Doc,
    defs: &Members,
    nodes: &mut Vec<Node>,
    id: NodeId,
) -> Result<Vec<(String, usize)>, SchemaFault>
    requires indexed { IsIndexed defs.now.list.items defs.now.index }
    requires made { AreWellMade nodes.old.items }
    requires stands { IsPart doc.now id }
    ensures gives { Gives doc.now (λ ps. (map named_schema ps.items, map rules_in nodes.new.items)) result (says.if_fits (says.is_object (says.kind_of (part doc.now id))) (place_of (part doc.now id)) (says.parts (map named_schema defs.now.list.items) (map rules_in nodes.old.items) (part doc.now id))) }
    ensures made { OnOk result (AreWellMade nodes.new.items) }
{
    match object_len(doc, id) {
        None => Err(SchemaFault::BadKeyword(id)),
        Some(count) => read_members(alloc, doc, defs, nodes, id, count),
    }
}

#[cycle(schemas)]
fn read_members(
    alloc: Global,
    doc: &Doc,
    defs: &Members,
    nodes: &mut Vec<Node>,
    id: NodeId,
    count: u32,
) -> Result<Vec<(String, usize)>, SchemaFault>
    requires indexed { IsIndexed defs.now.list.items defs.now.index }
    requires made { AreWellMade nodes.old.items }
    requires stands { IsPart doc.now id }
    requires object { kind (form (part doc.now id)) ≡ kinds.Object count }
    ensures gives { Gives doc.now (λ ps. (map named_schema ps.items, map rules_in nodes.new.items)) result (says.member_schemas (map named_schema defs.now.list.items) [] (map rules_in nodes.old.items) (rest_members (form (part doc.now id)) 0)) }
    ensures made { OnOk result (AreWellMade nodes.new.items) }
{
    let mut parts = Vec::new(alloc);
    for i in 0..count {
        let (name, value) = entry_of(doc, id, count, i);
        let k = read_schema(alloc, doc, defs, nodes, false, value)?;
        push_named(alloc, &mut parts, name, k)?;
    }
    Ok(parts)
}

// One more name with its schema.
fn push_named(
    alloc: Global,
    parts: &mut Vec<(String, usize)>,
    name: &str,
    k: usize,
) -> Result<(), SchemaFault>
    ensures parts { OnOk result (map named_schema parts.new.items ≡ map named_schema parts.old.items ++ (name.now, k) ∷ []) }
    ensures memory { IfErr result (λ e. e ≡ SchemaFault.Memory) }
{
    match add_named(alloc, parts, name, k) {
        Ok(()) => Ok(()),
        Err(_) => Err(SchemaFault::Memory),
    }
}

#[tactic(auto, using(crate::proofs::Grown::named_push))]
fn add_named(
    alloc: Global,
    parts: &mut Vec<(String, usize)>,
    name: &str,
    k: usize,
) -> Result<(), Memory>
    ensures parts { OnOk result (map named_schema parts.new.items ≡ map named_schema parts.old.items ++ (name.now, k) ∷ []) }
{
    let name = String::from_str(alloc, name)?;
    parts.push((name, k))?;
    Ok(())
}

// A list of schemas that is not empty.
#[cycle(schemas)]
fn read_full(
    alloc: Global,
    doc: &Doc,
    defs: &Members,
    nodes: &mut Vec<Node>,
    id: NodeId,
) -> Result<Vec<usize>, SchemaFault>
    requires indexed { IsIndexed defs.now.list.items defs.now.index }
    requires made { AreWellMade nodes.old.items }
    requires stands { IsPart doc.now id }
    ensures gives { Gives doc.now (λ ids. (map unnamed ids.items, map rules_in nodes.new.items)) result (says.if_fits (says.is_full_list (says.kind_of (part doc.now id))) (place_of (part doc.now id)) (says.parts (map named_schema defs.now.list.items) (map rules_in nodes.old.items) (part doc.now id))) }
    ensures made { OnOk result (AreWellMade nodes.new.items) }
{
    match full_len(doc, id) {
        None => Err(SchemaFault::BadKeyword(id)),
        Some(count) => read_items(alloc, doc, defs, nodes, id, count),
    }
}

// A list's items as schemas.
#[cycle(schemas)]
fn read_items(
    alloc: Global,
    doc: &Doc,
    defs: &Members,
    nodes: &mut Vec<Node>,
    id: NodeId,
    count: u32,
) -> Result<Vec<usize>, SchemaFault>
    requires indexed { IsIndexed defs.now.list.items defs.now.index }
    requires made { AreWellMade nodes.old.items }
    requires stands { IsPart doc.now id }
    requires list { kind (form (part doc.now id)) ≡ kinds.List count }
    ensures gives { Gives doc.now (λ ids. (map unnamed ids.items, map rules_in nodes.new.items)) result (says.item_schemas (map named_schema defs.now.list.items) [] (map rules_in nodes.old.items) (rest_items (form (part doc.now id)) 0)) }
    ensures made { OnOk result (AreWellMade nodes.new.items) }
{
    let mut ids = Vec::new(alloc);
    for i in 0..count {
        let item = item_of(doc, id, count, i);
        let k = read_schema(alloc, doc, defs, nodes, false, item)?;
        push_id(&mut ids, k)?;
    }
    Ok(ids)
}

// One more schema's number.
#[tactic(auto, using(crate::proofs::Grown::unnamed_push))]
fn push_id(ids: &mut Vec<usize>, k: usize) -> Result<(), SchemaFault>
    ensures ids { OnOk result (map unnamed ids.new.items ≡ map unnamed ids.old.items ++ unnamed k ∷ []) }
    ensures memory { IfErr result (λ e. e ≡ SchemaFault.Memory) }
{
    match ids.push(k) {
        Ok(()) => Ok(()),
        Err(_) => Err(SchemaFault::Memory),
    }
}
