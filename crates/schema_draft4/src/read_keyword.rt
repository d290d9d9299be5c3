// Keywords that look at one value alone, by their values.
ghost use Rattle.std.specs.Prelude.{◌≡◌, [], ◌∷◌, List, ℕ, ◌<◌, length, map, option_map, true, IfOk, IfSome, Some, None};
ghost use Rattle.json_subset.specs.Documents.{IsPart, form, kind, part, decoded};
ghost use Rattle.json_subset.specs.declared.doc.Kind.TheVariants as kinds;
ghost use Rattle.json_subset.specs.Nodes.{AllBelow};
ghost use Rattle.json_subset.specs.Tree.{list, trees_of};
ghost use Rattle.json_subset.specs.Bare.{bare};
ghost use Rattle.json_values.specs.Values.{AreSound, plain_of};
ghost use Rattle.json_values.specs.Parts.{trees_in};
ghost use Rattle.schema_draft4.specs.Faults.{rest_items};
ghost use Rattle.std.specs.String.{string_bytes};
ghost use Rattle.schema_draft4.specs.Reading as says;
ghost use Rattle.schema_rules.specs.Views.{IsNameSet, names_of};
ghost use Rattle.schema_draft4.specs.Words as word;
ghost use Rattle.schema_keywords.specs.Keywords as tests;
ghost use Rattle.schema_keywords.specs.Views.{test_of, IsSoundTest};

use crate::look::{is_sharp, item_of, list_len, size_at, text_at, whole_at};
use crate::word::{Word, type_of};
use gw_base::Memory;
use json_distinct::are_distinct;
use json_subset::{Doc, Kind, NodeId};
use json_values::{Form, Value, read_part, value_at};
use schema_keywords::{Test, TypeName};
use schema_rules::{Names, is_named, no_names, push_name};
use std::alloc::Global;

// The names with one more text, if it is one and new.
fn one_text(alloc: Global, names: Names, text: Option<&str>) -> Result<Option<Names>, Memory>
    requires set { IsNameSet names }
    ensures list { IfOk result (λ o. option_map names_of o ≡ says.one_text (names_of names) (option_map (λ t. t.now) text.entry)) }
    ensures set { IfOk result (λ o. IfSome o IsNameSet) }
{
    let mut names = names;
    match text {
        None => Ok(None),
        Some(text) => {
            if is_named(&names, text) {
                Ok(None)
            } else {
                push_name(alloc, &mut names, text)?;
                Ok(Some(names))
            }
        }
    }
}

fn full(names: Names) -> Option<Names>
    requires set { IsNameSet names }
    ensures list { option_map names_of result ≡ says.full (Some (names_of names)) }
    ensures set { IfSome result IsNameSet }
{
    if names.list.is_empty() {
        None
    } else {
        Some(names)
    }
}

// Different texts, one at least, if these stand here.
fn read_texts(alloc: Global, doc: &Doc, id: NodeId) -> Result<Option<Names>, Memory>
    requires stands { IsPart doc.now id }
    ensures list { IfOk result (λ o. option_map names_of o ≡ says.texts_in (part doc.now id)) }
    ensures set { IfOk result (λ o. IfSome o IsNameSet) }
{
    match list_len(doc, id) {
        None => Ok(None),
        Some(count) => read_listed(alloc, doc, id, count),
    }
}

fn read_listed(alloc: Global, doc: &Doc, id: NodeId, count: u32) -> Result<Option<Names>, Memory>
    requires stands { IsPart doc.now id }
    requires list { kind (form (part doc.now id)) ≡ kinds.List count }
    ensures list { IfOk result (λ o. option_map names_of o ≡ says.texts_in (part doc.now id)) }
    ensures set { IfOk result (λ o. IfSome o IsNameSet) }
{
    let mut names = no_names(alloc);
    for i in 0..count {
        let item = item_of(doc, id, count, i);
        match one_text(alloc, names, text_at(doc, item))? {
            None => return Ok(None),
            Some(more) => names = more,
        }
    }
    Ok(full(names))
}

// The types of these names.
fn read_types(alloc: Global, names: &[String]) -> Result<Option<Vec<TypeName>>, Memory>
    ensures { IfOk result (λ o. option_map (λ v. v.items) o ≡ says.types_named (Some []) (map string_bytes names.now)) }
{
    let mut types = Vec::new(alloc);
    for name in names {
        match type_of(name.as_str()) {
            None => return Ok(None),
            Some(t) => types.push(t)?,
        }
    }
    Ok(Some(types))
}

fn read_type(alloc: Global, doc: &Doc, id: NodeId) -> Result<Option<Test>, Memory>
    requires stands { IsPart doc.now id }
    ensures test { IfOk result (λ o. option_map test_of o ≡ option_map tests.type (says.types_of (says.one_or_more (decoded (form (part doc.now id))) (says.texts_in (part doc.now id))))) }
    ensures sound { IfOk result (λ o. IfSome o IsSoundTest) }
{
    match text_at(doc, id) {
        Some(name) => match type_of(name) {
            None => Ok(None),
            Some(t) => {
                let mut types = Vec::new(alloc);
                types.push(t)?;
                Ok(Some(Test::Type(types)))
            }
        },
        None => match read_texts(alloc, doc, id)? {
            None => Ok(None),
            Some(names) => match read_types(alloc, &names.list)? {
                None => Ok(None),
                Some(types) => Ok(Some(Test::Type(types))),
            },
        },
    }
}

fn read_required(alloc: Global, doc: &Doc, id: NodeId) -> Result<Option<Test>, Memory>
    requires stands { IsPart doc.now id }
    ensures test { IfOk result (λ o. option_map test_of o ≡ option_map tests.required (says.texts_in (part doc.now id))) }
    ensures sound { IfOk result (λ o. IfSome o IsSoundTest) }
{
    match read_texts(alloc, doc, id)? {
        None => Ok(None),
        Some(Names { list, index: _ }) => Ok(Some(Test::Required(list))),
    }
}

// The numbers of a list's items.
fn listed(alloc: Global, values: &[Value], k: usize) -> Result<Vec<usize>, Memory>
    requires sound { AreSound values.now }
    requires stands { k < length values.now }
    requires list { says.is_list (kind (form (plain_of values.now k))) ≡ true }
    ensures items { IfOk result (λ ids. form (plain_of values.now k) ≡ list (trees_of (map (plain_of values.now) ids.items))) }
    ensures below { IfOk result (λ ids. AllBelow (length values.now) ids.items) }
{
    match &value_at(values, k).form {
        Form::List(ids) => Ok(Vec::from_slice(alloc, ids)?),
        Form::Null | Form::Bool(_) | Form::Number(_, _) | Form::Text(_) | Form::Object(_) =>
            unreachable!(),
    }
}

// Different values, one at least, if these stand here.
fn read_enum(alloc: Global, doc: &Doc, id: NodeId) -> Result<Option<Test>, Memory>
    requires stands { IsPart doc.now id }
    ensures test { IfOk result (λ o. option_map test_of o ≡ says.enum_of (says.items_in (form (part doc.now id)))) }
    ensures sound { IfOk result (λ o. IfSome o IsSoundTest) }
{
    match list_len(doc, id) {
        None => Ok(None),
        Some(count) => read_values(alloc, doc, id, count),
    }
}

fn read_values(alloc: Global, doc: &Doc, id: NodeId, count: u32) -> Result<Option<Test>, Memory>
    requires stands { IsPart doc.now id }
    requires list { kind (form (part doc.now id)) ≡ kinds.List count }
    ensures test { IfOk result (λ o. option_map test_of o ≡ says.enum_of (says.items_in (form (part doc.now id)))) }
    ensures sound { IfOk result (λ o. IfSome o IsSoundTest) }
{
    let (values, ids) = read_list(alloc, doc, id, count)?;
    if ids.is_empty() || !are_distinct(alloc, &values, &ids)? {
        Ok(None)
    } else {
        Ok(Some(Test::Enum(values, ids)))
    }
}

// The values of a list, and the numbers of its items.
fn read_list(
    alloc: Global,
    doc: &Doc,
    id: NodeId,
    count: u32,
) -> Result<(Vec<Value>, Vec<usize>), Memory>
    requires stands { IsPart doc.now id }
    requires list { kind (form (part doc.now id)) ≡ kinds.List count }
    ensures items { IfOk result (λ p. map (plain_of p.0.items) p.1.items ≡ map bare (trees_in (rest_items (form (part doc.now id)) 0))) }
    ensures sound { IfOk result (λ p. AreSound p.0.items) }
    ensures below { IfOk result (λ p. AllBelow (length p.0.items) p.1.items) }
{
    let mut values = Vec::new(alloc);
    let k = read_part(alloc, doc, &mut values, id)?;
    let ids = listed(alloc, &values, k)?;
    Ok((values, ids))
}

// A size's keyword.
fn sized(word: Word, size: Option<u64>) -> Option<Test>
    ensures test { option_map test_of result ≡ says.sized word size }
    ensures sound { IfSome result IsSoundTest }
{
    match size {
        None => None,
        Some(n) => match word {
            Word::MinLength => Some(Test::MinLength(n)),
            Word::MaxLength => Some(Test::MaxLength(n)),
            Word::MinItems => Some(Test::MinItems(n)),
            Word::MaxItems => Some(Test::MaxItems(n)),
            Word::MinProperties => Some(Test::MinProperties(n)),
            Word::MaxProperties => Some(Test::MaxProperties(n)),
            Word::MultipleOf => {
                if n == 0 {
                    None
                } else {
                    Some(Test::MultipleOf(n))
                }
            }
            _ => None,
        },
    }
}

// A bound's keyword.
fn bounded(word: Word, whole: Option<i64>, low: bool, high: bool) -> Option<Test>
    ensures test { option_map test_of result ≡ says.bounded word whole low high }
    ensures sound { IfSome result IsSoundTest }
{
    match whole {
        None => None,
        Some(z) => match word {
            Word::Minimum => Some(Test::Minimum(z, low)),
            Word::Maximum => Some(Test::Maximum(z, high)),
            _ => None,
        },
    }
}

/// The keyword of this name that stands among the members of an object, if its value is of its form.
pub fn read_test(
    alloc: Global,
    doc: &Doc,
    all: NodeId,
    word: Word,
    id: NodeId,
) -> Result<Option<Test>, Memory>
    requires object { IsPart doc.now all }
    requires stands { IsPart doc.now id }
    ensures test { IfOk result (λ o. option_map test_of o ≡ says.test_by word (form (part doc.now all)) (part doc.now id)) }
    ensures sound { IfOk result (λ o. IfSome o IsSoundTest) }
{
    match word {
        Word::Minimum | Word::Maximum => {
            let low = is_sharp(doc, all, "exclusiveMinimum");
            let high = is_sharp(doc, all, "exclusiveMaximum");
            Ok(bounded(word, whole_at(doc, id), low, high))
        }
        Word::Required => read_required(alloc, doc, id),
        Word::Type => read_type(alloc, doc, id),
        Word::Enum => read_enum(alloc, doc, id),
        _ => Ok(sized(word, size_at(doc, id))),
    }
}
