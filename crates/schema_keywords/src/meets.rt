// Whether a value meets a keyword that looks at it alone.
ghost use Rattle.std.specs.Prelude.{◌≡◌, ◌<◌, ◌≤◌, length, map, is_some, IfOk};
ghost use Rattle.std.specs.Str.{chars};
ghost use Rattle.std.specs.String.{string_bytes};
ghost use Rattle.json_subset.specs.Documents.{form, first_named, count, count_members};
ghost use Rattle.json_subset.specs.Tree.{trees_of, members_of};
ghost use Rattle.json_subset.specs.Nodes.{member_at, AllBelow, AllValuesBelow};
ghost use Rattle.json_values.specs.Amounts as amounts;
ghost use Rattle.json_values.specs.Values.{AreSound, IsBelow, IsReady, IsIndexed, IsNumberMeasured, form_of, number_view, plain_of};
ghost use Rattle.pattern_core.specs.Search.{matches};
ghost use Rattle.json_distinct.specs.Distinct.{are_distinct as are_distinct_trees};
ghost use Rattle.schema_keywords.specs.Keywords as says;
ghost use Rattle.schema_keywords.specs.Views.{test_of, IsSoundTest};

use crate::keyword::{Keyword, Test, TypeName};
use gw_base::Memory;
use json_distinct::are_distinct;
use json_values::{
    Amount, Form, Members, Number, Value, at_least, at_most, is_multiple, named, same_value,
    value_at,
};
use pattern_core::Pattern;
use std::alloc::Global;

/// The keyword that a failure is named by.
pub fn keyword_of(test: &Test) -> Keyword
    ensures { result ≡ says.keyword_of (test_of test.now) }
{
    match test {
        Test::Type(_) => Keyword::TypeIs,
        Test::Required(_) => Keyword::Required,
        Test::Minimum(_, _) => Keyword::Minimum,
        Test::Maximum(_, _) => Keyword::Maximum,
        Test::MultipleOf(_) => Keyword::MultipleOf,
        Test::MinLength(_) => Keyword::MinLength,
        Test::MaxLength(_) => Keyword::MaxLength,
        Test::Pattern(_) => Keyword::Pattern,
        Test::Enum(_, _) => Keyword::Enum,
        Test::MinItems(_) => Keyword::MinItems,
        Test::MaxItems(_) => Keyword::MaxItems,
        Test::UniqueItems => Keyword::UniqueItems,
        Test::MinProperties(_) => Keyword::MinProperties,
        Test::MaxProperties(_) => Keyword::MaxProperties,
    }
}

fn is_of(values: &[Value], form: &Form, name: TypeName) -> bool
    ensures { result ≡ says.is_of (form_of (plain_of values.now) form.now) name }
{
    match (form, name) {
        (Form::Null, TypeName::Null) => true,
        (Form::Bool(_), TypeName::Boolean) => true,
        (Form::Number(_, _), TypeName::Number) => true,
        (Form::Number(Number::Whole(_), _), TypeName::Integer) => true,
        (Form::Text(_), TypeName::Text) => true,
        (Form::List(_), TypeName::Array) => true,
        (Form::Object(_), TypeName::Object) => true,
        _ => false,
    }
}

fn is_any(values: &[Value], form: &Form, names: &[TypeName]) -> bool
    ensures { result ≡ says.is_any (form_of (plain_of values.now) form.now) names.now }
{
    for name in names {
        if is_of(values, form, *name) {
            return true;
        }
    }
    false
}

// How large a number is.
fn amount(number: Number, source: &str) -> Amount
    requires { IsNumberMeasured number source.now }
    ensures { result ≡ amounts.amount (number_view number) source.now }
{
    match number {
        Number::Whole(z) => Amount::At(z),
        Number::Decimal(amount) => amount,
        Number::Wide => Amount::Unknown,
    }
}

fn meets_minimum(values: &[Value], form: &Form, bound: i64, sharp: bool) -> bool
    requires { IsReady form.now }
    ensures { result ≡ says.if_number (λ x s. amounts.at_least bound sharp (amounts.amount x s)) (form_of (plain_of values.now) form.now) }
{
    match form {
        Form::Number(number, source) => at_least(bound, sharp, amount(*number, source.as_str())),
        Form::Null | Form::Bool(_) | Form::Text(_) | Form::List(_) | Form::Object(_) => true,
    }
}

fn meets_maximum(values: &[Value], form: &Form, bound: i64, sharp: bool) -> bool
    requires { IsReady form.now }
    ensures { result ≡ says.if_number (λ x s. amounts.at_most bound sharp (amounts.amount x s)) (form_of (plain_of values.now) form.now) }
{
    match form {
        Form::Number(number, source) => at_most(bound, sharp, amount(*number, source.as_str())),
        Form::Null | Form::Bool(_) | Form::Text(_) | Form::List(_) | Form::Object(_) => true,
    }
}

fn meets_multiple_of(values: &[Value], form: &Form, of: u64) -> bool
    requires { 0 < of }
    ensures { result ≡ says.if_number (λ x s. says.is_multiple of x) (form_of (plain_of values.now) form.now) }
{
    match form {
        Form::Number(Number::Whole(z), _) => is_multiple(*z, of),
        Form::Number(Number::Decimal(_), _) | Form::Number(Number::Wide, _) => false,
        Form::Null | Form::Bool(_) | Form::Text(_) | Form::List(_) | Form::Object(_) => true,
    }
}

// How many characters a text has.
fn char_count(text: &str) -> u64
    ensures { result ≡ length (chars text.now) }
{
    text.chars().count() as u64
}

fn meets_min_length(values: &[Value], form: &Form, limit: u64) -> bool
    ensures { result ≡ says.meets (form_of (plain_of values.now) form.now) (says.min_length limit) }
{
    match form {
        Form::Text(text) => limit <= char_count(text.as_str()),
        Form::Null | Form::Bool(_) | Form::Number(_, _) | Form::List(_) | Form::Object(_) => true,
    }
}

fn meets_max_length(values: &[Value], form: &Form, limit: u64) -> bool
    ensures { result ≡ says.meets (form_of (plain_of values.now) form.now) (says.max_length limit) }
{
    match form {
        Form::Text(text) => char_count(text.as_str()) <= limit,
        Form::Null | Form::Bool(_) | Form::Number(_, _) | Form::List(_) | Form::Object(_) => true,
    }
}

fn meets_pattern(
    alloc: Global,
    values: &[Value],
    form: &Form,
    pattern: &Pattern,
) -> Result<bool, Memory>
    ensures { IfOk result (λ b. b ≡ says.if_text (matches pattern.now) (form_of (plain_of values.now) form.now)) }
{
    match form {
        Form::Text(text) => pattern.searches(alloc, text.as_str()),
        Form::Null | Form::Bool(_) | Form::Number(_, _) | Form::List(_) | Form::Object(_) => Ok(
            true,
        ),
    }
}

// Whether a value is the same as a listed one.
fn is_among(values: &[Value], k: usize, entries: &[Value], ids: &[usize]) -> bool
    requires sound { AreSound values.now }
    requires stands { k < length values.now }
    requires entries { AreSound entries.now }
    requires listed { AllBelow (length entries.now) ids.now }
    ensures { result ≡ says.is_among (form (plain_of values.now k)) (map (plain_of entries.now) ids.now) }
{
    for id in ids {
        if same_value(values, k, entries, *id) {
            return true;
        }
    }
    false
}

// Whether an object has each of these names.
fn has_all(values: &[Value], k: usize, members: &Members, names: &[String]) -> bool
    requires below { AllValuesBelow k members.now.list.items }
    requires indexed { IsIndexed members.now.list.items members.now.index }
    ensures { result ≡ says.has_all (map string_bytes names.now) (members_of (map (member_at (plain_of values.now)) members.now.list.items)) }
{
    for name in names {
        if !has_name(values, k, members, name.as_str()) {
            return false;
        }
    }
    true
}

// Whether an object has this name.
fn has_name(values: &[Value], k: usize, members: &Members, name: &str) -> bool
    requires below { AllValuesBelow k members.now.list.items }
    requires indexed { IsIndexed members.now.list.items members.now.index }
    ensures { result ≡ is_some (first_named (members_of (map (member_at (plain_of values.now)) members.now.list.items)) name.now) }
{
    named(k, members, name).is_some()
}

fn meets_required(values: &[Value], k: usize, form: &Form, names: &[String]) -> bool
    requires below { IsBelow k form.now }
    requires ready { IsReady form.now }
    ensures { result ≡ says.if_object (says.has_all (map string_bytes names.now)) (form_of (plain_of values.now) form.now) }
{
    match form {
        Form::Object(members) => has_all(values, k, members, names),
        Form::Null | Form::Bool(_) | Form::Number(_, _) | Form::Text(_) | Form::List(_) => true,
    }
}

fn meets_unique_items(
    alloc: Global,
    values: &[Value],
    k: usize,
    form: &Form,
) -> Result<bool, Memory>
    requires sound { AreSound values.now }
    requires stands { k < length values.now }
    requires below { IsBelow k form.now }
    ensures { IfOk result (λ b. b ≡ says.if_list are_distinct_trees (form_of (plain_of values.now) form.now)) }
{
    match form {
        Form::List(ids) => are_distinct_below(alloc, values, k, ids),
        Form::Null | Form::Bool(_) | Form::Number(_, _) | Form::Text(_) | Form::Object(_) => Ok(
            true,
        ),
    }
}

// Whether no two of the parts of a value are the same.
fn are_distinct_below(
    alloc: Global,
    values: &[Value],
    k: usize,
    ids: &[usize],
) -> Result<bool, Memory>
    requires sound { AreSound values.now }
    requires stands { k < length values.now }
    requires below { AllBelow k ids.now }
    ensures { IfOk result (λ b. b ≡ are_distinct_trees (trees_of (map (plain_of values.now) ids.now))) }
{
    are_distinct(alloc, values, ids)
}

// How many items a list has; at most `u64::MAX`.
fn item_count(values: &[Value], ids: &[usize]) -> u64
    ensures { result ≡ count (trees_of (map (plain_of values.now) ids.now)) }
{
    ids.len() as u64
}

fn member_count(values: &[Value], members: &Members) -> u64
    ensures { result ≡ count_members (members_of (map (member_at (plain_of values.now)) members.now.list.items)) }
{
    members.list.len() as u64
}

fn meets_min_items(values: &[Value], form: &Form, limit: u64) -> bool
    ensures { result ≡ says.meets (form_of (plain_of values.now) form.now) (says.min_items limit) }
{
    match form {
        Form::List(ids) => limit <= item_count(values, ids),
        Form::Null | Form::Bool(_) | Form::Number(_, _) | Form::Text(_) | Form::Object(_) => true,
    }
}

fn meets_max_items(values: &[Value], form: &Form, limit: u64) -> bool
    ensures { result ≡ says.meets (form_of (plain_of values.now) form.now) (says.max_items limit) }
{
    match form {
        Form::List(ids) => item_count(values, ids) <= limit,
        Form::Null | Form::Bool(_) | Form::Number(_, _) | Form::Text(_) | Form::Object(_) => true,
    }
}

fn meets_min_properties(values: &[Value], form: &Form, limit: u64) -> bool
    ensures { result ≡ says.meets (form_of (plain_of values.now) form.now) (says.min_properties limit) }
{
    match form {
        Form::Object(members) => limit <= member_count(values, members),
        Form::Null | Form::Bool(_) | Form::Number(_, _) | Form::Text(_) | Form::List(_) => true,
    }
}

fn meets_max_properties(values: &[Value], form: &Form, limit: u64) -> bool
    ensures { result ≡ says.meets (form_of (plain_of values.now) form.now) (says.max_properties limit) }
{
    match form {
        Form::Object(members) => member_count(values, members) <= limit,
        Form::Null | Form::Bool(_) | Form::Number(_, _) | Form::Text(_) | Form::List(_) => true,
    }
}

/// Whether the value of this number meets the keyword. Linear in the value and the keyword; `uniqueItems` takes the
/// logarithm of the items besides, and `enum` compares the value with each of its own.
pub fn is_met(alloc: Global, values: &[Value], k: usize, test: &Test) -> Result<bool, Memory>
    requires sound { AreSound values.now }
    requires stands { k < length values.now }
    requires test { IsSoundTest test.now }
    ensures { IfOk result (λ b. b ≡ says.meets (form (plain_of values.now k)) (test_of test.now)) }
{
    let form = &value_at(values, k).form;
    match test {
        Test::Type(names) => Ok(is_any(values, form, names)),
        Test::Required(names) => Ok(meets_required(values, k, form, names)),
        Test::Minimum(bound, sharp) => Ok(meets_minimum(values, form, *bound, *sharp)),
        Test::Maximum(bound, sharp) => Ok(meets_maximum(values, form, *bound, *sharp)),
        Test::MultipleOf(of) => Ok(meets_multiple_of(values, form, *of)),
        Test::MinLength(limit) => Ok(meets_min_length(values, form, *limit)),
        Test::MaxLength(limit) => Ok(meets_max_length(values, form, *limit)),
        Test::Pattern(pattern) => meets_pattern(alloc, values, form, pattern),
        Test::Enum(entries, ids) => Ok(is_among(values, k, entries, ids)),
        Test::MinItems(limit) => Ok(meets_min_items(values, form, *limit)),
        Test::MaxItems(limit) => Ok(meets_max_items(values, form, *limit)),
        Test::UniqueItems => meets_unique_items(alloc, values, k, form),
        Test::MinProperties(limit) => Ok(meets_min_properties(values, form, *limit)),
        Test::MaxProperties(limit) => Ok(meets_max_properties(values, form, *limit)),
    }
}
