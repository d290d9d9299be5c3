// The verdict of a schema on a value.
ghost use Rattle.std.specs.Prelude.{◌≡◌, ◌<◌, ◌+◌, ℕ, List, length, map, drop, IfOk, OnOk};
ghost use Rattle.std.specs.String.{string_bytes};
ghost use Rattle.json_subset.specs.Nodes.{AllBelow, AllValuesBelow};
ghost use Rattle.json_subset.specs.Reading.{named};
ghost use Rattle.schema_rules.specs.Cases.{IsSoundCase, IsKnown, Says, said, seen, schemas_in, value_in, part_in, member_in};
ghost use Rattle.schema_rules.specs.Rules as rules;
ghost use Rattle.schema_rules.specs.Verdict as says;
ghost use Rattle.schema_rules.specs.Views.{AllBefore, AreOthersBelow, AreSoundRules, IsBefore, IsNameSet, IsSoundRule, NamesPart, names_of, named_schema, others_of, rank_of, rule_of};
ghost use Rattle.schema_keywords.specs.declared.keyword.Keyword.TheVariants as keywords;

use crate::case::Case;
use crate::chain::chain_of;
use crate::memo::{Memo, recall, remember};
use crate::names::is_named;
use crate::parts::{failure, judge_test, list_items, member_named, object_members};
use crate::rule::{Names, Others, Rule};
use crate::verdict::Verdict;
use gw_base::Memory;
use schema_keywords::Keyword;
use std::alloc::Global;
use std::collections::BTreeMap;

// The keywords of a schema.
fn rules_at<'a>(case: &Case<'a>, schema: usize) -> &'a [Rule]
    requires sound { IsSoundCase case.now }
    requires stands { schema < length case.now.nodes.now }
    ensures sound { AreSoundRules case.now.nodes.now case.now.targets.now (rank_of case.now.nodes.now schema) result.now }
    ensures says { (i : ℕ) → says.every (schemas_in case.now) (said case.now i) (value_in case.now i) (map rule_of result.now) ≡ said case.now i schema }
{
    &case.nodes[schema].rules
}

// The rank of a schema.
fn rank_at(case: &Case<'_>, schema: usize) -> usize
    requires sound { IsSoundCase case.now }
    requires stands { schema < length case.now.nodes.now }
    ensures rank { result ≡ rank_of case.now.nodes.now schema }
    ensures few { result < length case.now.nodes.now }
{
    case.nodes[schema].rank
}

// What the schema says of the value.
#[cycle(verdicts)]
fn judge(
    alloc: Global,
    case: &Case<'_>,
    memo: &mut Memo,
    value: usize,
    schema: usize,
) -> Result<Verdict, Memory>
    requires sound { IsSoundCase case.now }
    requires known { IsKnown case.now memo.old }
    requires value { value < length case.now.values.now }
    requires schema { schema < length case.now.nodes.now }
    ensures known { OnOk result (IsKnown case.now memo.new) }
    ensures says { IfOk result (λ v. Says case.now v value schema) }
    ensures part { IfOk result (λ v. NamesPart case.now.doc.now v) }
{
    match recall(case, memo, value, schema) {
        Some(verdict) => Ok(verdict),
        None => {
            let rules = rules_at(case, schema);
            let verdict = judge_every(alloc, case, memo, value, schema, rules)?;
            remember(case, memo, value, schema, &verdict)?;
            Ok(verdict)
        }
    }
}

// The keywords in written order.
#[cycle(verdicts)]
fn judge_every(
    alloc: Global,
    case: &Case<'_>,
    memo: &mut Memo,
    value: usize,
    schema: usize,
    rules: &[Rule],
) -> Result<Verdict, Memory>
    requires sound { IsSoundCase case.now }
    requires known { IsKnown case.now memo.old }
    requires value { value < length case.now.values.now }
    requires schema { schema < length case.now.nodes.now }
    requires rules { AreSoundRules case.now.nodes.now case.now.targets.now (rank_of case.now.nodes.now schema) rules.now }
    ensures known { OnOk result (IsKnown case.now memo.new) }
    ensures says { IfOk result (λ v. seen case.now v ≡ says.every (schemas_in case.now) (said case.now value) (value_in case.now value) (map rule_of rules.now)) }
    ensures part { IfOk result (λ v. NamesPart case.now.doc.now v) }
{
    for rule in rules {
        let verdict = judge_one(alloc, case, memo, value, schema, rule)?;
        if let Verdict::Invalid(_, _) = verdict {
            return Ok(verdict);
        }
    }
    Ok(Verdict::Valid)
}

// One keyword.
#[cycle(verdicts)]
fn judge_one(
    alloc: Global,
    case: &Case<'_>,
    memo: &mut Memo,
    value: usize,
    schema: usize,
    rule: &Rule,
) -> Result<Verdict, Memory>
    requires sound { IsSoundCase case.now }
    requires known { IsKnown case.now memo.old }
    requires value { value < length case.now.values.now }
    requires schema { schema < length case.now.nodes.now }
    requires rule { IsSoundRule case.now.nodes.now case.now.targets.now (rank_of case.now.nodes.now schema) rule.now }
    ensures known { OnOk result (IsKnown case.now memo.new) }
    ensures says { IfOk result (λ v. seen case.now v ≡ says.one (schemas_in case.now) (said case.now value) (value_in case.now value) (rule_of rule.now)) }
    ensures part { IfOk result (λ v. NamesPart case.now.doc.now v) }
{
    match rule {
        Rule::Test(test) => judge_test(alloc, case, value, test),
        Rule::Properties(properties) => judge_properties(alloc, case, memo, value, properties),
        Rule::AdditionalProperties(names, others) => {
            judge_unnamed(
                alloc,
                case,
                memo,
                value,
                object_members(case, value),
                names,
                *others,
            )
        }
        Rule::Items(s) => judge_items(alloc, case, memo, value, list_items(case, value), *s),
        Rule::ItemsEach(ids) => judge_in_place(
            alloc,
            case,
            memo,
            value,
            list_items(case, value),
            ids,
        ),
        Rule::AdditionalItems(count, others) => {
            judge_additional(
                alloc,
                case,
                memo,
                value,
                items_behind(case, value, *count),
                *others,
            )
        }
        Rule::AllOf(ids) => judge_all(alloc, case, memo, value, schema, ids),
        Rule::AnyOf(ids) => {
            let met = judge_any(alloc, case, memo, value, schema, ids)?;
            Ok(unless(case, value, met, Keyword::AnyOf))
        }
        Rule::OneOf(ids) => {
            let met = count_valid(alloc, case, memo, value, schema, ids)? == 1;
            Ok(unless(case, value, met, Keyword::OneOf))
        }
        Rule::Not(s) => match judge(alloc, case, memo, value, *s)? {
            Verdict::Valid => Ok(failure(case, value, Keyword::Not)),
            Verdict::Invalid(_, _) => Ok(Verdict::Valid),
        },
        Rule::Defines(_) => Ok(Verdict::Valid),
        Rule::Refer(t) => judge(alloc, case, memo, value, case.targets[*t]),
    }
}

// This keyword's own failure, unless it is met.
fn unless(case: &Case<'_>, value: usize, met: bool, keyword: Keyword) -> Verdict
    requires sound { IsSoundCase case.now }
    requires value { value < length case.now.values.now }
    ensures says { seen case.now result ≡ says.unless met (value_in case.now value).at keyword }
    ensures part { NamesPart case.now.doc.now result }
{
    if met {
        Verdict::Valid
    } else {
        failure(case, value, keyword)
    }
}

// The items that stand behind so many.
fn items_behind<'a>(case: &Case<'a>, value: usize, count: usize) -> &'a [usize]
    requires sound { IsSoundCase case.now }
    requires value { value < length case.now.values.now }
    ensures parts { drop count (value_in case.now value).items ≡ map (part_in case.now) result.now }
    ensures below { AllBelow value result.now }
{
    let ids = list_items(case, value);
    if count < ids.len() {
        &ids[count..]
    } else {
        &[]
    }
}

// All of these schemas, of the same value.
#[cycle(verdicts)]
fn judge_all(
    alloc: Global,
    case: &Case<'_>,
    memo: &mut Memo,
    value: usize,
    schema: usize,
    ids: &[usize],
) -> Result<Verdict, Memory>
    requires sound { IsSoundCase case.now }
    requires known { IsKnown case.now memo.old }
    requires value { value < length case.now.values.now }
    requires schema { schema < length case.now.nodes.now }
    requires before { AllBefore case.now.nodes.now (rank_of case.now.nodes.now schema) ids.now }
    ensures known { OnOk result (IsKnown case.now memo.new) }
    ensures says { IfOk result (λ v. seen case.now v ≡ says.all (said case.now value) ids.now) }
    ensures part { IfOk result (λ v. NamesPart case.now.doc.now v) }
{
    for s in ids {
        let verdict = judge(alloc, case, memo, value, *s)?;
        if let Verdict::Invalid(_, _) = verdict {
            return Ok(verdict);
        }
    }
    Ok(Verdict::Valid)
}

// Whether one of these schemas accepts the same value.
#[cycle(verdicts)]
fn judge_any(
    alloc: Global,
    case: &Case<'_>,
    memo: &mut Memo,
    value: usize,
    schema: usize,
    ids: &[usize],
) -> Result<bool, Memory>
    requires sound { IsSoundCase case.now }
    requires known { IsKnown case.now memo.old }
    requires value { value < length case.now.values.now }
    requires schema { schema < length case.now.nodes.now }
    requires before { AllBefore case.now.nodes.now (rank_of case.now.nodes.now schema) ids.now }
    ensures known { OnOk result (IsKnown case.now memo.new) }
    ensures says { IfOk result (λ b. b ≡ says.any (said case.now value) ids.now) }
{
    for s in ids {
        if let Verdict::Valid = judge(alloc, case, memo, value, *s)? {
            return Ok(true);
        }
    }
    Ok(false)
}

// How many of these schemas accept the same value.
#[cycle(verdicts)]
fn count_valid(
    alloc: Global,
    case: &Case<'_>,
    memo: &mut Memo,
    value: usize,
    schema: usize,
    ids: &[usize],
) -> Result<usize, Memory>
    requires sound { IsSoundCase case.now }
    requires known { IsKnown case.now memo.old }
    requires value { value < length case.now.values.now }
    requires schema { schema < length case.now.nodes.now }
    requires before { AllBefore case.now.nodes.now (rank_of case.now.nodes.now schema) ids.now }
    ensures known { OnOk result (IsKnown case.now memo.new) }
    ensures says { IfOk result (λ n. n ≡ says.how_many (said case.now value) ids.now) }
{
    let mut count = 0;
    for s in ids {
        if let Verdict::Valid = judge(alloc, case, memo, value, *s)? {
            count += 1;
        }
    }
    Ok(count)
}

// One schema, of each item.
#[cycle(verdicts)]
fn judge_items(
    alloc: Global,
    case: &Case<'_>,
    memo: &mut Memo,
    value: usize,
    ids: &[usize],
    schema: usize,
) -> Result<Verdict, Memory>
    requires sound { IsSoundCase case.now }
    requires known { IsKnown case.now memo.old }
    requires value { value < length case.now.values.now }
    requires schema { schema < length case.now.nodes.now }
    requires below { AllBelow value ids.now }
    ensures known { OnOk result (IsKnown case.now memo.new) }
    ensures says { IfOk result (λ v. seen case.now v ≡ says.each_item schema (map (part_in case.now) ids.now)) }
    ensures part { IfOk result (λ v. NamesPart case.now.doc.now v) }
{
    for i in ids {
        let verdict = settle(alloc, case, memo, *i, schema)?;
        if let Verdict::Invalid(_, _) = verdict {
            return Ok(verdict);
        }
    }
    Ok(Verdict::Valid)
}

// A schema for each item by its place.
#[cycle(verdicts)]
fn judge_in_place(
    alloc: Global,
    case: &Case<'_>,
    memo: &mut Memo,
    value: usize,
    ids: &[usize],
    schemas: &[usize],
) -> Result<Verdict, Memory>
    requires sound { IsSoundCase case.now }
    requires known { IsKnown case.now memo.old }
    requires value { value < length case.now.values.now }
    requires schemas { AllBelow (length case.now.nodes.now) schemas.now }
    requires below { AllBelow value ids.now }
    ensures known { OnOk result (IsKnown case.now memo.new) }
    ensures says { IfOk result (λ v. seen case.now v ≡ says.each_in_place schemas.now (map (part_in case.now) ids.now)) }
    ensures part { IfOk result (λ v. NamesPart case.now.doc.now v) }
{
    let mut ids = ids;
    let mut schemas = schemas;
    loop {
        match schemas {
            [] => return Ok(Verdict::Valid),
            [s, more_schemas @ ..] => match ids {
                [] => return Ok(Verdict::Valid),
                [i, more_ids @ ..] => {
                    let verdict = settle(alloc, case, memo, *i, *s)?;
                    if let Verdict::Invalid(_, _) = verdict {
                        return Ok(verdict);
                    }
                    ids = more_ids;
                    schemas = more_schemas;
                }
            },
        }
    }
}

// A part that no other keyword names.
#[cycle(verdicts)]
fn judge_others(
    alloc: Global,
    case: &Case<'_>,
    memo: &mut Memo,
    value: usize,
    others: Others,
    keyword: Keyword,
) -> Result<Verdict, Memory>
    requires sound { IsSoundCase case.now }
    requires known { IsKnown case.now memo.old }
    requires value { value < length case.now.values.now }
    requires others { AreOthersBelow (length case.now.nodes.now) others }
    ensures known { OnOk result (IsKnown case.now memo.new) }
    ensures says { IfOk result (λ v. seen case.now v ≡ says.additional (others_of others) keyword (part_in case.now value)) }
    ensures part { IfOk result (λ v. NamesPart case.now.doc.now v) }
{
    match others {
        Others::Refused => Ok(failure(case, value, keyword)),
        Others::By(s) => settle(alloc, case, memo, value, s),
    }
}

// Each of these items, which no other keyword names.
#[cycle(verdicts)]
fn judge_additional(
    alloc: Global,
    case: &Case<'_>,
    memo: &mut Memo,
    value: usize,
    ids: &[usize],
    others: Others,
) -> Result<Verdict, Memory>
    requires sound { IsSoundCase case.now }
    requires known { IsKnown case.now memo.old }
    requires value { value < length case.now.values.now }
    requires others { AreOthersBelow (length case.now.nodes.now) others }
    requires below { AllBelow value ids.now }
    ensures known { OnOk result (IsKnown case.now memo.new) }
    ensures says { IfOk result (λ v. seen case.now v ≡ says.each_additional (others_of others) (map (part_in case.now) ids.now)) }
    ensures part { IfOk result (λ v. NamesPart case.now.doc.now v) }
{
    for i in ids {
        let verdict = judge_others(alloc, case, memo, *i, others, Keyword::AdditionalItems)?;
        if let Verdict::Invalid(_, _) = verdict {
            return Ok(verdict);
        }
    }
    Ok(Verdict::Valid)
}

// Each member of another name, in the value's order.
#[cycle(verdicts)]
fn judge_unnamed(
    alloc: Global,
    case: &Case<'_>,
    memo: &mut Memo,
    value: usize,
    members: &[(String, usize)],
    names: &Names,
    others: Others,
) -> Result<Verdict, Memory>
    requires sound { IsSoundCase case.now }
    requires known { IsKnown case.now memo.old }
    requires value { value < length case.now.values.now }
    requires names { IsNameSet names.now }
    requires others { AreOthersBelow (length case.now.nodes.now) others }
    requires below { AllValuesBelow value members.now }
    ensures known { OnOk result (IsKnown case.now memo.new) }
    ensures says { IfOk result (λ v. seen case.now v ≡ says.each_unnamed (names_of names.now) (others_of others) (map (member_in case.now) members.now)) }
    ensures part { IfOk result (λ v. NamesPart case.now.doc.now v) }
{
    for member in members {
        if !is_named(names, member.0.as_str()) {
            let verdict = judge_others(
                alloc,
                case,
                memo,
                member.1,
                others,
                Keyword::AdditionalProperties,
            )?;
            if let Verdict::Invalid(_, _) = verdict {
                return Ok(verdict);
            }
        }
    }
    Ok(Verdict::Valid)
}

// The member of this name, where it stands.
#[cycle(verdicts)]
fn judge_property(
    alloc: Global,
    case: &Case<'_>,
    memo: &mut Memo,
    value: usize,
    name: &str,
    schema: usize,
) -> Result<Verdict, Memory>
    requires sound { IsSoundCase case.now }
    requires known { IsKnown case.now memo.old }
    requires value { value < length case.now.values.now }
    requires schema { schema < length case.now.nodes.now }
    ensures known { OnOk result (IsKnown case.now memo.new) }
    ensures says { IfOk result (λ v. seen case.now v ≡ says.where_it_stands schema (says.find name.now (value_in case.now value).members)) }
    ensures part { IfOk result (λ v. NamesPart case.now.doc.now v) }
{
    match member_named(case, value, name) {
        Some(i) => settle(alloc, case, memo, i, schema),
        None => Ok(Verdict::Valid),
    }
}

// Each property that stands, in the schema's order.
#[cycle(verdicts)]
fn judge_properties(
    alloc: Global,
    case: &Case<'_>,
    memo: &mut Memo,
    value: usize,
    properties: &[(String, usize)],
) -> Result<Verdict, Memory>
    requires sound { IsSoundCase case.now }
    requires known { IsKnown case.now memo.old }
    requires value { value < length case.now.values.now }
    requires schemas { AllValuesBelow (length case.now.nodes.now) properties.now }
    ensures known { OnOk result (IsKnown case.now memo.new) }
    ensures says { IfOk result (λ v. seen case.now v ≡ says.each_property (map named_schema properties.now) (value_in case.now value).members) }
    ensures part { IfOk result (λ v. NamesPart case.now.doc.now v) }
{
    for property in properties {
        let verdict = judge_property(alloc, case, memo, value, property.0.as_str(), property.1)?;
        if let Verdict::Invalid(_, _) = verdict {
            return Ok(verdict);
        }
    }
    Ok(Verdict::Valid)
}

// What the schema says of the value, by the schemas that it stands on, lowest first: no recursion goes along a chain.
#[cycle(verdicts)]
fn settle(
    alloc: Global,
    case: &Case<'_>,
    memo: &mut Memo,
    value: usize,
    schema: usize,
) -> Result<Verdict, Memory>
    requires sound { IsSoundCase case.now }
    requires known { IsKnown case.now memo.old }
    requires value { value < length case.now.values.now }
    requires schema { schema < length case.now.nodes.now }
    ensures known { OnOk result (IsKnown case.now memo.new) }
    ensures says { IfOk result (λ v. Says case.now v value schema) }
    ensures part { IfOk result (λ v. NamesPart case.now.doc.now v) }
{
    let rank = rank_at(case, schema);
    let chain = chain_of(alloc, case, memo, value, schema)?;
    let mut left = chain.len();
    while left > 0 {
        left -= 1;
        let k = chain[left];
        if k < case.nodes.len() && rank_at(case, k) < rank {
            judge(alloc, case, memo, value, k)?;
        }
    }
    judge(alloc, case, memo, value, schema)
}

/// What the schema says of the value: valid, or the first failing part and its keyword. It costs at most one verdict for
/// each schema and each part of the value.
pub fn judge_value(
    alloc: Global,
    case: &Case<'_>,
    value: usize,
    schema: usize,
) -> Result<Verdict, Memory>
    requires sound { IsSoundCase case.now }
    requires value { value < length case.now.values.now }
    requires schema { schema < length case.now.nodes.now }
    ensures says { IfOk result (λ v. Says case.now v value schema) }
    ensures part { IfOk result (λ v. NamesPart case.now.doc.now v) }
{
    let mut memo = BTreeMap::new(alloc);
    settle(alloc, case, &mut memo, value, schema)
}
