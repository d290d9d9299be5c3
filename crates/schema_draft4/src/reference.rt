// What a `$ref` names.
ghost use Rattle.std.specs.Prelude.{◌≡◌, ◌∷◌, [], true, length, map, option_map, IfOk, IfErr, IfSome, ◌⊎◌};
ghost use Rattle.schema_rules.specs.Made.{IsWellMade};
ghost use Rattle.std.specs.Str.{IsUtf8};
ghost use Rattle.std.specs.String.{string_bytes};
ghost use Rattle.json_subset.specs.Documents.{IsPart, form, part, decoded};
ghost use Rattle.json_subset.specs.Numbered.{number_named};
ghost use Rattle.json_values.specs.Values.{IsIndexed};
ghost use Rattle.schema_draft4.specs.Faults.{Gives};
ghost use Rattle.schema_draft4.specs.Reading as says;
ghost use Rattle.schema_rules.specs.Verdict.{place_of};
ghost use Rattle.schema_rules.specs.Views.{named_schema, rules_from};
ghost use Rattle.schema_draft4.specs.Words as word;

use crate::fault::SchemaFault;
use crate::look::text_at;
use gw_base::Text;
use json_subset::{Doc, NodeId};
use json_values::Members;
use schema_rules::Rule;
use std::alloc::Global;

// What stands behind this front.
fn behind<'a>(front: &[u8], bytes: &'a [u8]) -> Option<&'a [u8]>
    ensures { option_map (λ t. t.now) result ≡ says.behind front.now bytes.now }
{
    let mut front = front;
    let mut bytes = bytes;
    loop {
        match front {
            [] => return Some(bytes),
            [f, more_front @ ..] => match bytes {
                [] => return None,
                [b, more @ ..] => {
                    if *b != *f {
                        return None;
                    }
                    front = more_front;
                    bytes = more;
                }
            },
        }
    }
}

fn is_letter_or_digit(b: u8) -> bool
    ensures { result ≡ says.is_letter_or_digit b }
{
    (48 <= b && b <= 57) || (65 <= b && b <= 90) || (97 <= b && b <= 122)
}

fn is_inner(b: u8) -> bool
    ensures { result ≡ says.is_inner b }
{
    is_letter_or_digit(b) || b == b'_' || b == b'-'
}

fn are_inner(bytes: &[u8]) -> bool
    ensures { result ≡ says.are_inner bytes.now }
{
    for b in bytes {
        if !is_inner(*b) {
            return false;
        }
    }
    true
}

// 1 to 64 letters, digits, `_` and `-`, the first a letter or digit.
fn is_name(bytes: &[u8]) -> bool
    ensures { result ≡ says.is_name bytes.now }
{
    match bytes {
        [] => false,
        [b, rest @ ..] => is_letter_or_digit(*b) && are_inner(rest) && rest.len() <= 63,
    }
}

// A text for a fault.
fn named_text(alloc: Global, text: &str) -> Result<Text, SchemaFault>
    ensures ok { IfOk result (λ t. t ≡ text.now) }
    ensures memory { IfErr result (λ e. e ≡ SchemaFault.Memory) }
{
    match String::from_str(alloc, text) {
        Ok(text) => Ok(Text::of(text)),
        Err(_) => Err(SchemaFault::Memory),
    }
}

/// A name that is not supported.
pub fn unsupported(alloc: Global, name: &str) -> SchemaFault
    ensures { (result ≡ SchemaFault.Memory) ⊎ (result ≡ SchemaFault.Unsupported name.now) }
{
    match named_text(alloc, name) {
        Ok(text) => SchemaFault::Unsupported(text),
        Err(_) => SchemaFault::Memory,
    }
}

// The target of this name.
fn target_named(defs: &Members, name: &str) -> Option<usize>
    requires indexed { IsIndexed defs.now.list.items defs.now.index }
    ensures { result ≡ number_named defs.now.list.items name.now }
{
    defs.index.get(name).copied()
}

// The definition of this name.
fn target_of(
    alloc: Global,
    doc: &Doc,
    defs: &Members,
    name: &str,
) -> Result<Option<Rule>, SchemaFault>
    requires indexed { IsIndexed defs.now.list.items defs.now.index }
    ensures gives { Gives doc.now rules_from result (says.target_of (map named_schema defs.now.list.items) name.now) }
    ensures made { IfOk result (λ o. IfSome o IsWellMade) }
{
    match target_named(defs, name) {
        Some(t) => Ok(Some(Rule::Refer(t))),
        None => Err(SchemaFault::RefMissing(named_text(alloc, name)?)),
    }
}

fn by_name(
    alloc: Global,
    doc: &Doc,
    defs: &Members,
    name: Option<&[u8]>,
) -> Result<Option<Rule>, SchemaFault>
    requires indexed { IsIndexed defs.now.list.items defs.now.index }
    ensures gives { Gives doc.now rules_from result (says.by_name (map named_schema defs.now.list.items) (option_map (λ t. t.now) name.entry)) }
    ensures made { IfOk result (λ o. IfSome o IsWellMade) }
{
    match name {
        None => Err(unsupported(alloc, "$ref")),
        Some(bytes) => {
            if !is_name(bytes) {
                return Err(unsupported(alloc, "$ref"));
            }
            match std::str::from_utf8(bytes) {
                Ok(name) => target_of(alloc, doc, defs, name),
                Err(_) => unreachable!(),
            }
        }
    }
}

/// The rule of a `$ref`.
pub fn reference_rule(
    alloc: Global,
    doc: &Doc,
    defs: &Members,
    id: NodeId,
) -> Result<Option<Rule>, SchemaFault>
    requires stands { IsPart doc.now id }
    requires indexed { IsIndexed defs.now.list.items defs.now.index }
    ensures gives { Gives doc.now rules_from result (says.reference_rule (map named_schema defs.now.list.items) (place_of (part doc.now id)) (decoded (form (part doc.now id)))) }
    ensures made { IfOk result (λ o. IfSome o IsWellMade) }
{
    match text_at(doc, id) {
        None => Err(SchemaFault::BadKeyword(id)),
        Some(text) => {
            if text == "#" {
                Ok(Some(Rule::Refer(0)))
            } else {
                by_name(alloc, doc, defs, behind(b"#/definitions/", text.as_bytes()))
            }
        }
    }
}
