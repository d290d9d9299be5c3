// The rules of keywords that have no schema, or no more than one.
ghost use Rattle.std.specs.Prelude.{◌≡◌, ◌<◌, [], ◌∷◌, ◌++◌, List, ℕ, length, map, option_map, Bool, true, IfOk, IfErr, OnOk, IfSome};
ghost use Rattle.json_subset.specs.Documents.{IsPart, form, kind, part, decoded, member_named};
ghost use Rattle.json_subset.specs.declared.doc.Kind.TheVariants as kinds;
ghost use Rattle.schema_draft4.specs.Faults.{Gives};
ghost use Rattle.schema_draft4.specs.Reading as says;
ghost use Rattle.schema_rules.specs.Rules as rules;
ghost use Rattle.schema_draft4.specs.Words as word;
ghost use Rattle.schema_keywords.specs.Views.{test_of, IsSoundTest};
ghost use Rattle.schema_rules.specs.Verdict.{place_of};
ghost use Rattle.json_values.specs.Values.{IsIndexed};
ghost use Rattle.json_subset.specs.Grammar.{depth};
ghost use Rattle.schema_rules.specs.Views.{IsNameSet, names_of, named_schema, others_of, rule_of, rules_from, rules_in};
ghost use Rattle.schema_rules.specs.Made.{AreWellMade, AllWellMade, IsWellMade};

use crate::fault::SchemaFault;
use crate::look::{entry_of, flag_at, text_at};
use crate::read_keyword::read_test;
use crate::reference::{reference_rule, unsupported};
use crate::word::Word;
use gw_base::Memory;
use json_subset::{Doc, Kind, NodeId};
use json_values::Members;
use pattern_core::{Pattern, PatternFault};
use schema_keywords::Test;
use schema_rules::{Names, Others, Rule, no_names, push_name};
use std::alloc::Global;

// The rule of a keyword that looks at the value alone.
fn test_rule(doc: &Doc, id: NodeId, test: Option<Test>) -> Result<Option<Rule>, SchemaFault>
    requires stands { IsPart doc.now id }
    requires sound { IfSome test IsSoundTest }
    ensures gives { Gives doc.now rules_from result (says.plain_rule (place_of (part doc.now id)) (option_map test_of test)) }
    ensures made { IfOk result (λ o. IfSome o IsWellMade) }
{
    match test {
        None => Err(SchemaFault::BadKeyword(id)),
        Some(test) => Ok(Some(Rule::Test(test))),
    }
}

fn pattern_rule(alloc: Global, doc: &Doc, id: NodeId) -> Result<Option<Rule>, SchemaFault>
    requires stands { IsPart doc.now id }
    ensures gives { Gives doc.now rules_from result (says.pattern_rule (place_of (part doc.now id)) (decoded (form (part doc.now id)))) }
    ensures made { IfOk result (λ o. IfSome o IsWellMade) }
{
    match text_at(doc, id) {
        None => Err(SchemaFault::BadKeyword(id)),
        Some(text) => {
            if text.len() > 1024 {
                return Err(SchemaFault::BadKeyword(id));
            }
            match Pattern::build(alloc, text) {
                Ok(pattern) => Ok(Some(Rule::Test(Test::Pattern(pattern)))),
                Err(PatternFault::BadPattern) => Err(SchemaFault::BadPattern(id)),
                Err(PatternFault::Memory) => Err(SchemaFault::Memory),
            }
        }
    }
}

fn flag_rule(doc: &Doc, id: NodeId) -> Result<Option<Rule>, SchemaFault>
    requires stands { IsPart doc.now id }
    ensures gives { Gives doc.now rules_from result (says.flag_rule (place_of (part doc.now id)) (says.flag_of (says.kind_of (part doc.now id)))) }
    ensures made { IfOk result (λ o. IfSome o IsWellMade) }
{
    match flag_at(doc, id) {
        None => Err(SchemaFault::BadKeyword(id)),
        Some(_) => Ok(None),
    }
}

fn unique_rule(doc: &Doc, id: NodeId) -> Result<Option<Rule>, SchemaFault>
    requires stands { IsPart doc.now id }
    ensures gives { Gives doc.now rules_from result (says.unique_rule (place_of (part doc.now id)) (says.flag_of (says.kind_of (part doc.now id)))) }
    ensures made { IfOk result (λ o. IfSome o IsWellMade) }
{
    match flag_at(doc, id) {
        None => Err(SchemaFault::BadKeyword(id)),
        Some(true) => Ok(Some(Rule::Test(Test::UniqueItems))),
        Some(false) => Ok(None),
    }
}

// The names that an object's `properties` has.
fn property_names(alloc: Global, doc: &Doc, all: NodeId) -> Result<Names, Memory>
    requires stands { IsPart doc.now all }
    ensures list { IfOk result (λ x. names_of x ≡ says.property_names (member_named (form (part doc.now all)) word.properties_name)) }
    ensures set { IfOk result (λ x. IsNameSet x) }
{
    match doc.member(all, "properties") {
        None => Ok(no_names(alloc)),
        Some(id) => member_names(alloc, doc, id),
    }
}

// The names of an object's members; of another value none.
fn member_names(alloc: Global, doc: &Doc, id: NodeId) -> Result<Names, Memory>
    requires stands { IsPart doc.now id }
    ensures list { IfOk result (λ x. names_of x ≡ says.named_parts (form (part doc.now id))) }
    ensures set { IfOk result (λ x. IsNameSet x) }
{
    match doc.kind(id) {
        Kind::Object(count) => names_below(alloc, doc, id, count),
        Kind::Null => Ok(no_names(alloc)),
        Kind::Bool(_) => Ok(no_names(alloc)),
        Kind::Whole(_) => Ok(no_names(alloc)),
        Kind::Decimal => Ok(no_names(alloc)),
        Kind::Wide => Ok(no_names(alloc)),
        Kind::Text => Ok(no_names(alloc)),
        Kind::List(_) => Ok(no_names(alloc)),
    }
}

fn names_below(alloc: Global, doc: &Doc, id: NodeId, count: u32) -> Result<Names, Memory>
    requires stands { IsPart doc.now id }
    requires object { kind (form (part doc.now id)) ≡ kinds.Object count }
    ensures list { IfOk result (λ x. names_of x ≡ says.named_parts (form (part doc.now id))) }
    ensures set { IfOk result (λ x. IsNameSet x) }
{
    let mut names = no_names(alloc);
    for i in 0..count {
        let (name, _) = entry_of(doc, id, count, i);
        push_name(alloc, &mut names, name)?;
    }
    Ok(names)
}

/// The rule of `additionalProperties`.
pub fn other_properties(
    alloc: Global,
    doc: &Doc,
    all: NodeId,
    others: Others,
) -> Result<Option<Rule>, SchemaFault>
    requires stands { IsPart doc.now all }
    ensures gives { IfOk result (λ o. rules_from o ≡ rules.additional_properties (says.property_names (member_named (form (part doc.now all)) word.properties_name)) (others_of others) ∷ []) }
    ensures made { IfOk result (λ o. IfSome o IsWellMade) }
    ensures memory { IfErr result (λ e. e ≡ SchemaFault.Memory) }
{
    match property_names(alloc, doc, all) {
        Ok(names) => Ok(Some(Rule::AdditionalProperties(names, others))),
        Err(_) => Err(SchemaFault::Memory),
    }
}

/// The rule of `additionalItems`.
pub fn other_items(doc: &Doc, all: NodeId, others: Others) -> Option<Rule>
    requires stands { IsPart doc.now all }
    ensures gives { rules_from result ≡ says.items_rule (member_named (form (part doc.now all)) word.items_name) (others_of others) }
    ensures made { IfSome result IsWellMade }
{
    match doc.member(all, "items") {
        None => None,
        Some(id) => match doc.kind(id) {
            Kind::List(count) => Some(Rule::AdditionalItems(count as usize, others)),
            Kind::Null => None,
            Kind::Bool(_) => None,
            Kind::Whole(_) => None,
            Kind::Decimal => None,
            Kind::Wide => None,
            Kind::Text => None,
            Kind::Object(_) => None,
        },
    }
}

/// The rule of a keyword that has no schema.
pub fn read_plain(
    alloc: Global,
    doc: &Doc,
    defs: &Members,
    all: NodeId,
    name: &str,
    word: Word,
    id: NodeId,
) -> Result<Option<Rule>, SchemaFault>
    requires indexed { IsIndexed defs.now.list.items defs.now.index }
    requires object { IsPart doc.now all }
    requires stands { IsPart doc.now id }
    ensures gives { Gives doc.now rules_from result (says.plain_keyword (map named_schema defs.now.list.items) (form (part doc.now all)) name.now word (part doc.now id)) }
    ensures made { IfOk result (λ o. IfSome o IsWellMade) }
{
    match word {
        Word::Ref => reference_rule(alloc, doc, defs, id),
        Word::Pattern => pattern_rule(alloc, doc, id),
        Word::ExclusiveMinimum => flag_rule(doc, id),
        Word::ExclusiveMaximum => flag_rule(doc, id),
        Word::UniqueItems => unique_rule(doc, id),
        Word::PatternProperties => Err(unsupported(alloc, name)),
        Word::Dependencies => Err(unsupported(alloc, name)),
        Word::Unknown => Ok(None),
        _ => {
            let test = read_test(alloc, doc, all, word, id)?;
            test_rule(doc, id, test)
        }
    }
}
