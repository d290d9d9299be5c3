// Whether two values are the same.
ghost use Rattle.std.specs.Prelude.{◌≡◌, ◌<◌, ◌&&◌, ◌==◌, length, map, Option};
ghost use Rattle.std.specs.String.{string_bytes};
ghost use Rattle.json_subset.specs.Tree.{node, trees_of, members_of};
ghost use Rattle.json_subset.specs.Nodes.{member_at, AllBelow, AllValuesBelow};
ghost use Rattle.json_subset.specs.Documents.{count_members, first_named};
ghost use Rattle.json_values.specs.Same as says;
ghost use Rattle.json_values.specs.Values.{AreSound, IsSound, IsIndexed, IsBelow, IsReady, plain_of, form_of, number_view};

use crate::lookup::named;
use crate::value::{Form, Members, Number, Value};

/// A value by its number.
pub fn value_at(values: &[Value], k: usize) -> &Value
    requires sound { AreSound values.now }
    requires stands { k < length values.now }
    ensures plain { plain_of values.now k ≡ node 0 0 (form_of (plain_of values.now) result.now.form) }
    ensures sound { IsSound k result.now }
{
    &values[k]
}

fn same_number(a: Number, s: &str, b: Number, t: &str) -> bool
    ensures { result ≡ says.same_number (number_view a) s.now (number_view b) t.now }
{
    match a {
        Number::Whole(y) => match b {
            Number::Whole(z) => y == z,
            Number::Decimal(_) => false,
            Number::Wide => false,
        },
        Number::Decimal(_) => match b {
            Number::Whole(_) => false,
            Number::Decimal(_) => s == t,
            Number::Wide => false,
        },
        Number::Wide => match b {
            Number::Whole(_) => false,
            Number::Decimal(_) => false,
            Number::Wide => s == t,
        },
    }
}

/// Whether two values are the same.
#[cycle(same)]
pub fn same_value(a: &[Value], i: usize, b: &[Value], j: usize) -> bool
    requires sound_a { AreSound a.now }
    requires sound_b { AreSound b.now }
    requires i { i < length a.now }
    requires j { j < length b.now }
    ensures { result ≡ says.same (plain_of a.now i) (plain_of b.now j) }
{
    same_form(a, i, &value_at(a, i).form, b, j, &value_at(b, j).form)
}

#[cycle(same)]
fn same_form(a: &[Value], i: usize, f: &Form, b: &[Value], j: usize, g: &Form) -> bool
    requires sound_a { AreSound a.now }
    requires sound_b { AreSound b.now }
    requires i { i < length a.now }
    requires j { j < length b.now }
    requires below_f { IsBelow i f.now }
    requires below_g { IsBelow j g.now }
    requires ready_g { IsReady g.now }
    ensures { result ≡ says.same_form (form_of (plain_of a.now) f.now) (form_of (plain_of b.now) g.now) }
{
    match f {
        Form::Null => match g {
            Form::Null => true,
            Form::Bool(_) | Form::Number(_, _) | Form::Text(_) | Form::List(_) | Form::Object(_) =>
                false,
        },
        Form::Bool(x) => match g {
            Form::Bool(y) => *x == *y,
            Form::Null | Form::Number(_, _) | Form::Text(_) | Form::List(_) | Form::Object(_) =>
                false,
        },
        Form::Number(x, s) => match g {
            Form::Number(y, t) => same_number(*x, s.as_str(), *y, t.as_str()),
            Form::Null | Form::Bool(_) | Form::Text(_) | Form::List(_) | Form::Object(_) => false,
        },
        Form::Text(s) => match g {
            Form::Text(t) => s.as_str() == t.as_str(),
            Form::Null | Form::Bool(_) | Form::Number(_, _) | Form::List(_) | Form::Object(_) =>
                false,
        },
        Form::List(xs) => match g {
            Form::List(ys) => same_items(a, i, xs, b, j, ys),
            Form::Null | Form::Bool(_) | Form::Number(_, _) | Form::Text(_) | Form::Object(_) =>
                false,
        },
        Form::Object(xs) => match g {
            Form::Object(ys) => same_count(a, xs, b, ys) && all_in(a, i, &xs.list, b, j, ys),
            Form::Null | Form::Bool(_) | Form::Number(_, _) | Form::Text(_) | Form::List(_) =>
                false,
        },
    }
}

// Item by item.
#[cycle(same)]
fn same_items(a: &[Value], i: usize, xs: &[usize], b: &[Value], j: usize, ys: &[usize]) -> bool
    requires sound_a { AreSound a.now }
    requires sound_b { AreSound b.now }
    requires i { i < length a.now }
    requires j { j < length b.now }
    requires below_a { AllBelow i xs.now }
    requires below_b { AllBelow j ys.now }
    ensures { result ≡ says.same_items (trees_of (map (plain_of a.now) xs.now)) (trees_of (map (plain_of b.now) ys.now)) }
{
    let mut xs = xs;
    let mut ys = ys;
    loop {
        match xs {
            [] => match ys {
                [] => return true,
                [_first, _more @ ..] => return false,
            },
            [x, more_xs @ ..] => match ys {
                [] => return false,
                [y, more_ys @ ..] => {
                    if !same_value(a, *x, b, *y) {
                        return false;
                    }
                    xs = more_xs;
                    ys = more_ys;
                }
            },
        }
    }
}

// Whether two objects have as many members.
fn same_count(a: &[Value], xs: &Members, b: &[Value], ys: &Members) -> bool
    ensures { result ≡ (count_members (members_of (map (member_at (plain_of a.now)) xs.now.list.items)) == count_members (members_of (map (member_at (plain_of b.now)) ys.now.list.items))) }
{
    xs.list.len() == ys.list.len()
}

// Whether the other object has this member's name, with the same value.
#[cycle(same)]
fn same_member(
    a: &[Value],
    i: usize,
    x: &(String, usize),
    b: &[Value],
    j: usize,
    ys: &Members,
) -> bool
    requires sound_a { AreSound a.now }
    requires sound_b { AreSound b.now }
    requires i { i < length a.now }
    requires j { j < length b.now }
    requires below_a { x.now.1 < i }
    requires below_b { AllValuesBelow j ys.now.list.items }
    requires indexed { IsIndexed ys.now.list.items ys.now.index }
    ensures { result ≡ says.if_found (says.same (plain_of a.now x.now.1)) (first_named (members_of (map (member_at (plain_of b.now)) ys.now.list.items)) (string_bytes x.now.0)) }
{
    match named(j, ys, x.0.as_str()) {
        Some(y) => same_value(a, x.1, b, y),
        None => false,
    }
}

// Each member's name stands in the other object, with the same value.
#[cycle(same)]
fn all_in(
    a: &[Value],
    i: usize,
    xs: &[(String, usize)],
    b: &[Value],
    j: usize,
    ys: &Members,
) -> bool
    requires sound_a { AreSound a.now }
    requires sound_b { AreSound b.now }
    requires i { i < length a.now }
    requires j { j < length b.now }
    requires below_a { AllValuesBelow i xs.now }
    requires below_b { AllValuesBelow j ys.now.list.items }
    requires indexed { IsIndexed ys.now.list.items ys.now.index }
    ensures { result ≡ says.all_in (members_of (map (member_at (plain_of a.now)) xs.now)) (members_of (map (member_at (plain_of b.now)) ys.now.list.items)) }
{
    for x in xs {
        if !same_member(a, i, x, b, j, ys) {
            return false;
        }
    }
    true
}
