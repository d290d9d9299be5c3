// A `$ref` that leads back to itself through no properties and no items.
ghost use Rattle.std.specs.Prelude.{◌≡◌, map, is_some, IfOk};
ghost use Rattle.schema_draft4.specs.Cycles.{ComesBackBy, first_refers, reading_order, references, reference_of, references_in, referred, target_name as name_of, up_from};
ghost use Rattle.schema_draft4.specs.Links.{AreLinked, IsBack, IsBackFault, IsFirst, linked_by};
ghost use Rattle.schema_rules.specs.Verdict.{rules_of};
ghost use Rattle.schema_rules.specs.Views.{named_schema, rule_of};

use crate::fault::SchemaFault;
use crate::link::{rules_below, target_at};
use gw_base::{Memory, Text};
use json_values::Members;
use schema_order::leads;
use schema_rules::{Node, Rule};
use std::alloc::Global;

/// Schemas, what their `$ref`s can name, and for each schema those that it names for the same value.
#[derive(Clone, Copy, Drop)]
pub struct Links<'a> {
    pub nodes: &'a [Node],
    pub targets: &'a [usize],
    pub steps: &'a [Vec<usize>],
}

// What a `$ref` names.
fn referred_by(rule: &Rule) -> Option<usize>
    ensures { result ≡ referred (rule_of rule.now) }
{
    match rule {
        Rule::Refer(t) => Some(*t),
        Rule::Test(_)
        | Rule::Properties(_)
        | Rule::AdditionalProperties(_, _)
        | Rule::Items(_)
        | Rule::ItemsEach(_)
        | Rule::AdditionalItems(_, _)
        | Rule::AllOf(_)
        | Rule::AnyOf(_)
        | Rule::OneOf(_)
        | Rule::Not(_)
        | Rule::Defines(_) => None,
    }
}

// Whether a `$ref` of the schema k to t leads back to it.
fn comes_back(alloc: Global, links: &Links<'_>, k: usize, t: usize) -> Result<bool, Memory>
    requires linked { AreLinked links.now }
    ensures { IfOk result (λ b. IsBack (linked_by links.now) (k, t) b) }
{
    leads(alloc, links.steps, target_at(links.targets, t), k)
}

// What a keyword names, if it is a `$ref` that comes back.
fn back_by(alloc: Global, links: &Links<'_>, k: usize, rule: &Rule) -> Result<Option<usize>, Memory>
    requires linked { AreLinked links.now }
    ensures { IfOk result (IsFirst (linked_by links.now) (reference_of k (referred (rule_of rule.now)))) }
{
    match referred_by(rule) {
        Some(t) => {
            if comes_back(alloc, links, k, t)? {
                Ok(Some(t))
            } else {
                Ok(None)
            }
        }
        None => Ok(None),
    }
}

// The first `$ref` of a schema that comes back: what it names.
fn back_among(
    alloc: Global,
    links: &Links<'_>,
    k: usize,
    rules: &[Rule],
) -> Result<Option<usize>, Memory>
    requires linked { AreLinked links.now }
    ensures { IfOk result (IsFirst (linked_by links.now) (references_in k (map rule_of rules.now))) }
{
    for rule in rules {
        let back = back_by(alloc, links, k, rule)?;
        if back.is_some() {
            return Ok(back);
        }
    }
    Ok(None)
}

// The same of the schema k.
fn back_at(alloc: Global, links: &Links<'_>, k: usize) -> Result<Option<usize>, Memory>
    requires linked { AreLinked links.now }
    ensures { IfOk result (IsFirst (linked_by links.now) (references_in k (rules_of (linked_by links.now) k))) }
{
    back_among(alloc, links, k, rules_below(links.nodes, k))
}

// The same of the schemas below this number.
fn back_below(alloc: Global, links: &Links<'_>, count: usize) -> Result<Option<usize>, Memory>
    requires linked { AreLinked links.now }
    ensures { IfOk result (IsFirst (linked_by links.now) (references (linked_by links.now) (up_from 0 count))) }
{
    for k in 0..count {
        let back = back_at(alloc, links, k)?;
        if back.is_some() {
            return Ok(back);
        }
    }
    Ok(None)
}

// Whether a schema's first keyword is its `$ref`.
fn refers_first(rules: &[Rule]) -> bool
    ensures { result ≡ is_some (first_refers (map rule_of rules.now)) }
{
    match rules {
        [] => false,
        [rule, _more @ ..] => referred_by(rule).is_some(),
    }
}

// The first `$ref` in reading order that comes back: what it names.
fn first_back(alloc: Global, links: &Links<'_>) -> Result<Option<usize>, Memory>
    requires linked { AreLinked links.now }
    ensures { IfOk result (IsFirst (linked_by links.now) (reading_order (linked_by links.now))) }
{
    let count = links.nodes.len();
    if count == 0 || !refers_first(rules_below(links.nodes, count - 1)) {
        return back_below(alloc, links, count);
    }
    let back = back_at(alloc, links, count - 1)?;
    if back.is_some() {
        Ok(back)
    } else {
        back_below(alloc, links, count - 1)
    }
}

// The name by which a `$ref` names its target.
fn target_name(definitions: &Members, t: usize) -> &str
    ensures { result.now ≡ name_of (map named_schema definitions.now.list.items) t }
{
    if t > 0 && t - 1 < definitions.list.len() {
        definitions.list[t - 1].0.as_str()
    } else {
        "#"
    }
}

fn cycle_name(alloc: Global, links: &Links<'_>, definitions: &Members) -> Result<Text, Memory>
    requires linked { AreLinked links.now }
    ensures { IfOk result (λ x. ComesBackBy (linked_by links.now) (map named_schema definitions.now.list.items) x) }
{
    match first_back(alloc, links)? {
        Some(t) => {
            let name = String::from_str(alloc, target_name(definitions, t))?;
            Ok(Text::of(name))
        }
        None => Err(Memory),
    }
}

/// The fault of schemas that stand in no order.
pub fn cycle_fault(alloc: Global, links: &Links<'_>, definitions: &Members) -> SchemaFault
    requires linked { AreLinked links.now }
    ensures { IsBackFault (linked_by links.now) (map named_schema definitions.now.list.items) result }
{
    match cycle_name(alloc, links, definitions) {
        Ok(name) => SchemaFault::RefCycle(name),
        Err(_) => SchemaFault::Memory,
    }
}
