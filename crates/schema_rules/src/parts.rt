// The parts of a value.
ghost use Rattle.std.specs.Prelude.{◌≡◌, ◌<◌, ℕ, length, map, drop, List, IfSome, MatchOption, Some, None, IfOk};
ghost use Rattle.json_subset.specs.Documents.{IsPart, part, form};
ghost use Rattle.json_subset.specs.Nodes.{AllBelow, AllValuesBelow};
ghost use Rattle.json_values.specs.Values.{IsBelow, IsIndexed, IsReady, form_of};
ghost use Rattle.schema_keywords.specs.Keywords.{meets, keyword_of as keyword_for};
ghost use Rattle.schema_keywords.specs.Views.{test_of, IsSoundTest};
ghost use Rattle.schema_rules.specs.Cases.{IsSoundCase, tree_in, value_in, part_in, member_in, seen};
ghost use Rattle.schema_rules.specs.Verdict as says;
ghost use Rattle.schema_rules.specs.Views.{NamesPart};

use crate::case::Case;
use crate::verdict::Verdict;
use gw_base::Memory;
use json_subset::NodeId;
use json_values::{Form, Members, Value, named};
use schema_keywords::{Keyword, Test, is_met, keyword_of};
use std::alloc::Global;

// A value by its number.
fn value_at<'a>(case: &Case<'a>, i: usize) -> &'a Value
    requires sound { IsSoundCase case.now }
    requires stands { i < length case.now.values.now }
    ensures alike { form (tree_in case.now i) ≡ form_of (tree_in case.now) result.now.form }
    ensures below { IsBelow i result.now.form }
    ensures ready { IsReady result.now.form }
{
    &case.values[i]
}

// The part of the document that a value is.
fn part_at(case: &Case<'_>, i: usize) -> NodeId
    requires sound { IsSoundCase case.now }
    requires stands { i < length case.now.values.now }
    ensures source { tree_in case.now i ≡ part case.now.doc.now result }
    ensures part { IsPart case.now.doc.now result }
{
    case.values[i].id
}

/// This keyword's own failure at the value.
pub fn failure(case: &Case<'_>, i: usize, keyword: Keyword) -> Verdict
    requires sound { IsSoundCase case.now }
    requires stands { i < length case.now.values.now }
    ensures says { seen case.now result ≡ says.invalid (value_in case.now i).at keyword }
    ensures part { NamesPart case.now.doc.now result }
{
    Verdict::Invalid(part_at(case, i), keyword)
}

/// The verdict of a keyword that looks at the value alone.
pub fn judge_test(alloc: Global, case: &Case<'_>, i: usize, test: &Test) -> Result<Verdict, Memory>
    requires sound { IsSoundCase case.now }
    requires stands { i < length case.now.values.now }
    requires test { IsSoundTest test.now }
    ensures says { IfOk result (λ v. seen case.now v ≡ says.unless (meets (value_in case.now i).form (test_of test.now)) (value_in case.now i).at (keyword_for (test_of test.now))) }
    ensures part { IfOk result (λ v. NamesPart case.now.doc.now v) }
{
    let met = is_met(alloc, case.values, i, test)?;
    if met {
        Ok(Verdict::Valid)
    } else {
        Ok(failure(case, i, keyword_of(test)))
    }
}

/// The items of a list; of another value none.
#[tactic(auto, using(crate::proofs::Judged::items_map))]
pub fn list_items<'a>(case: &Case<'a>, i: usize) -> &'a [usize]
    requires sound { IsSoundCase case.now }
    requires stands { i < length case.now.values.now }
    ensures parts { (value_in case.now i).items ≡ map (part_in case.now) result.now }
    ensures below { AllBelow i result.now }
{
    match &value_at(case, i).form {
        Form::List(ids) => ids,
        Form::Null | Form::Bool(_) | Form::Number(_, _) | Form::Text(_) | Form::Object(_) => &[],
    }
}

/// The members of an object in their order; of another value none.
#[tactic(auto, using(crate::proofs::Judged::members_map))]
pub fn object_members<'a>(case: &Case<'a>, i: usize) -> &'a [(String, usize)]
    requires sound { IsSoundCase case.now }
    requires stands { i < length case.now.values.now }
    ensures parts { (value_in case.now i).members ≡ map (member_in case.now) result.now }
    ensures below { AllValuesBelow i result.now }
{
    match &value_at(case, i).form {
        Form::Object(members) => &members.list,
        Form::Null | Form::Bool(_) | Form::Number(_, _) | Form::Text(_) | Form::List(_) => &[],
    }
}

/// The value of an object's first member of this name; of another value none. At most the logarithm of the number of
/// members in look-ups.
pub fn member_named(case: &Case<'_>, i: usize, name: &str) -> Option<usize>
    requires sound { IsSoundCase case.now }
    requires stands { i < length case.now.values.now }
    ensures found { MatchOption result (says.find name.now (value_in case.now i).members ≡ None) (λ k. says.find name.now (value_in case.now i).members ≡ Some (part_in case.now k)) }
    ensures below { IfSome result (λ k. k < i) }
{
    match &value_at(case, i).form {
        Form::Object(members) => named(i, members, name),
        Form::Null | Form::Bool(_) | Form::Number(_, _) | Form::Text(_) | Form::List(_) => None,
    }
}
