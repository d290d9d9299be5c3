// A number for each value: what is the same has the same one.
ghost use Rattle.std.specs.Prelude.{◌≡◌, ◌<◌, ◌%◌, ◌^◌, [], length, map};
ghost use Rattle.json_subset.specs.Tree.{list, object, trees_of, members_of};
ghost use Rattle.json_subset.specs.Nodes.{member_at, AllBelow, AllValuesBelow};
ghost use Rattle.json_values.specs.Values.{AreSound, IsBelow, plain_of, form_of, number_view};
ghost use Rattle.json_distinct.specs.Codes as says;

use json_values::{Form, Number, Value, value_at};
use std::hash::{DefaultHasher, Hasher};

// SipHash of a kind, a text and two numbers.
#[tactic(auto, unfolding(crate::specs::Codes::hashed))]
fn hashed(kind: u8, bytes: &[u8], a: u64, b: u64) -> u64
    ensures { result ≡ says.hashed kind bytes.now a b }
{
    let mut hasher = DefaultHasher::new();
    hasher.write_u8(kind);
    hasher.write(bytes);
    hasher.write_u64(a);
    hasher.write_u64(b);
    hasher.finish()
}

fn code_of_number(number: Number, source: &str) -> u64
    ensures { result ≡ says.code_of_number (number_view number) source.now }
{
    match number {
        Number::Whole(z) => hashed(1, &[], z.cast_unsigned(), 0),
        Number::Decimal(_) | Number::Wide => hashed(2, source.as_bytes(), 0, 0),
    }
}

fn code_of_bool(b: bool) -> u64
    ensures { result ≡ says.code_of_bool b }
{
    if b {
        hashed(4, &[], 0, 0)
    } else {
        hashed(5, &[], 0, 0)
    }
}

/// The number of a value. Linear in the value.
#[cycle(codes)]
pub fn code_of(values: &[Value], k: usize) -> u64
    requires sound { AreSound values.now }
    requires stands { k < length values.now }
    ensures { result ≡ says.code (plain_of values.now k) }
{
    code_of_form(values, k, &value_at(values, k).form)
}

#[cycle(codes)]
fn code_of_form(values: &[Value], k: usize, form: &Form) -> u64
    requires sound { AreSound values.now }
    requires stands { k < length values.now }
    requires below { IsBelow k form.now }
    ensures { result ≡ says.code_of_form (form_of (plain_of values.now) form.now) }
{
    match form {
        Form::Null => hashed(3, &[], 0, 0),
        Form::Bool(b) => code_of_bool(*b),
        Form::Number(number, source) => code_of_number(*number, source.as_str()),
        Form::Text(text) => hashed(6, text.as_bytes(), 0, 0),
        Form::List(ids) => code_of_items(values, k, ids),
        Form::Object(members) => code_of_members(values, k, &members.list),
    }
}

#[cycle(codes)]
fn code_of_items(values: &[Value], k: usize, ids: &[usize]) -> u64
    requires sound { AreSound values.now }
    requires stands { k < length values.now }
    requires below { AllBelow k ids.now }
    ensures { result ≡ says.code_of_form (list (trees_of (map (plain_of values.now) ids.now))) }
{
    let mut code = hashed(7, &[], 0, 0);
    for id in ids {
        code = hashed(9, &[], code, code_of(values, *id));
    }
    code
}

// Each member adds to two sums, so that their order tells nothing.
#[cycle(codes)]
fn code_of_members(values: &[Value], k: usize, members: &[(String, usize)]) -> u64
    requires sound { AreSound values.now }
    requires stands { k < length values.now }
    requires below { AllValuesBelow k members.now }
    ensures { result ≡ says.code_of_form (object (members_of (map (member_at (plain_of values.now)) members.now))) }
{
    let mut one: u64 = 0;
    let mut other: u64 = 0;
    for member in members {
        let code = code_of(values, member.1);
        one = one.wrapping_add(hashed(10, member.0.as_bytes(), code, 0));
        other = other.wrapping_add(hashed(11, member.0.as_bytes(), code, 0));
    }
    hashed(8, &[], one, other)
}
