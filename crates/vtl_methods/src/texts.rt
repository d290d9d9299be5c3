// The methods of a text.
ghost use Rattle.std.specs.Prelude.{◌≡◌, map, Ok, IfOk};
ghost use Rattle.std.specs.Option.{option_map};
ghost use Rattle.vtl_texts.specs.Places.{replaced};
ghost use Rattle.vtl_values.specs.Val.{string_bytes, text as text_val};
ghost use Rattle.vtl_values.specs.Making.{listed};
ghost use Rattle.vtl_values.specs.Within.{Within};
ghost use Rattle.vtl_methods.specs.Methods.{text_method as given, part_from as part_from_of, part_between as part_between_of, text_or_null, replaced_all as replaced_all_of, split_by as split_by_of};

use crate::answers::{
    alone, bare, counted, measured, nothing, only, only_text, part_value, part_within, text_within,
    two_texts,
};
use crate::names::TextMethod;
use gw_base::Memory;
use std::alloc::Global;
use vtl_texts::{
    contains, ends_with, index_of, length, literal, lower, replace, replacement, split,
    starts_with, substring, substring_from, trim, upper,
};
use vtl_values::{Lack, ListMaker, Value};

/// What a method of this text gives, and the bytes of its strings, where these have room.
pub(crate) fn on_text(
    alloc: Global,
    method: TextMethod,
    text: &str,
    arguments: &[Value],
    room: u64,
) -> Result<(Value, u64), Lack>
    ensures { Within room (given method text.now arguments.now, string_bytes (given method text.now arguments.now)) result }
{
    match method {
        TextMethod::Length => length_of(text, arguments),
        TextMethod::Equals => equals(text, arguments),
        TextMethod::Contains => contains_text(text, arguments),
        TextMethod::StartsWith => starts_with_text(text, arguments),
        TextMethod::EndsWith => ends_with_text(text, arguments),
        TextMethod::IndexOf => place_of(text, arguments),
        TextMethod::Substring => substring_at(alloc, text, arguments, room),
        TextMethod::ToUpperCase => to_upper(alloc, text, arguments, room),
        TextMethod::ToLowerCase => to_lower(alloc, text, arguments, room),
        TextMethod::Trim => trimmed(alloc, text, arguments, room),
        TextMethod::Replace => replace_texts(alloc, text, arguments, room),
        TextMethod::ReplaceAll => replace_patterns(alloc, text, arguments, room),
        TextMethod::Split => split_text(alloc, text, arguments, room),
        TextMethod::IsEmpty => is_empty(text, arguments),
    }
}

#[tactic(auto, unfolding(crate::specs::Methods::text_method))]
fn length_of(text: &str, arguments: &[Value]) -> Result<(Value, u64), Lack>
    ensures value { result ≡ Ok (given TextMethod.Length text.now arguments.now, 0) }
    ensures bytes { string_bytes (given TextMethod.Length text.now arguments.now) ≡ 0 }
{
    bare(alone(counted(length(text)), arguments))
}

#[tactic(auto, unfolding(crate::specs::Methods::text_method))]
fn is_empty(text: &str, arguments: &[Value]) -> Result<(Value, u64), Lack>
    ensures value { result ≡ Ok (given TextMethod.IsEmpty text.now arguments.now, 0) }
    ensures bytes { string_bytes (given TextMethod.IsEmpty text.now arguments.now) ≡ 0 }
{
    bare(alone(Value::boolean(text.is_empty()), arguments))
}

#[tactic(auto, unfolding(crate::specs::Methods::text_method))]
fn equals(text: &str, arguments: &[Value]) -> Result<(Value, u64), Lack>
    ensures value { result ≡ Ok (given TextMethod.Equals text.now arguments.now, 0) }
    ensures bytes { string_bytes (given TextMethod.Equals text.now arguments.now) ≡ 0 }
{
    let Some(other) = only(arguments) else {
        return nothing();
    };
    match other.as_text() {
        Some(other) => bare(Value::boolean(text == other.as_str())),
        None => bare(Value::boolean(false)),
    }
}

#[tactic(auto, unfolding(crate::specs::Methods::text_method))]
fn contains_text(text: &str, arguments: &[Value]) -> Result<(Value, u64), Lack>
    ensures value { result ≡ Ok (given TextMethod.Contains text.now arguments.now, 0) }
    ensures bytes { string_bytes (given TextMethod.Contains text.now arguments.now) ≡ 0 }
{
    match only_text(arguments) {
        Some(part) => bare(Value::boolean(contains(text, part.as_str()))),
        None => nothing(),
    }
}

#[tactic(auto, unfolding(crate::specs::Methods::text_method))]
fn starts_with_text(text: &str, arguments: &[Value]) -> Result<(Value, u64), Lack>
    ensures value { result ≡ Ok (given TextMethod.StartsWith text.now arguments.now, 0) }
    ensures bytes { string_bytes (given TextMethod.StartsWith text.now arguments.now) ≡ 0 }
{
    match only_text(arguments) {
        Some(part) => bare(Value::boolean(starts_with(text, part.as_str()))),
        None => nothing(),
    }
}

#[tactic(auto, unfolding(crate::specs::Methods::text_method))]
fn ends_with_text(text: &str, arguments: &[Value]) -> Result<(Value, u64), Lack>
    ensures value { result ≡ Ok (given TextMethod.EndsWith text.now arguments.now, 0) }
    ensures bytes { string_bytes (given TextMethod.EndsWith text.now arguments.now) ≡ 0 }
{
    match only_text(arguments) {
        Some(part) => bare(Value::boolean(ends_with(text, part.as_str()))),
        None => nothing(),
    }
}

#[tactic(auto, unfolding(crate::specs::Methods::text_method))]
fn place_of(text: &str, arguments: &[Value]) -> Result<(Value, u64), Lack>
    ensures value { result ≡ Ok (given TextMethod.IndexOf text.now arguments.now, 0) }
    ensures bytes { string_bytes (given TextMethod.IndexOf text.now arguments.now) ≡ 0 }
{
    let Some(part) = only_text(arguments) else {
        return nothing();
    };
    match index_of(text, part.as_str()) {
        Some(place) => bare(counted(place)),
        None => bare(Value::whole(-1)),
    }
}

#[tactic(auto, unfolding(crate::specs::Methods::text_method))]
fn to_upper(alloc: Global, text: &str, arguments: &[Value], room: u64) -> Result<(Value, u64), Lack>
    ensures { Within room (given TextMethod.ToUpperCase text.now arguments.now, string_bytes (given TextMethod.ToUpperCase text.now arguments.now)) result }
{
    if !arguments.is_empty() {
        return nothing();
    }
    text_within(upper(alloc, text)?, room)
}

#[tactic(auto, unfolding(crate::specs::Methods::text_method))]
fn to_lower(alloc: Global, text: &str, arguments: &[Value], room: u64) -> Result<(Value, u64), Lack>
    ensures { Within room (given TextMethod.ToLowerCase text.now arguments.now, string_bytes (given TextMethod.ToLowerCase text.now arguments.now)) result }
{
    if !arguments.is_empty() {
        return nothing();
    }
    text_within(lower(alloc, text)?, room)
}

#[tactic(auto, unfolding(crate::specs::Methods::text_method))]
fn trimmed(alloc: Global, text: &str, arguments: &[Value], room: u64) -> Result<(Value, u64), Lack>
    ensures { Within room (given TextMethod.Trim text.now arguments.now, string_bytes (given TextMethod.Trim text.now arguments.now)) result }
{
    if !arguments.is_empty() {
        return nothing();
    }
    part_within(alloc, trim(text), room)
}

#[tactic(auto, unfolding(crate::specs::Methods::text_method))]
fn substring_at(
    alloc: Global,
    text: &str,
    arguments: &[Value],
    room: u64,
) -> Result<(Value, u64), Lack>
    ensures { Within room (given TextMethod.Substring text.now arguments.now, string_bytes (given TextMethod.Substring text.now arguments.now)) result }
{
    match arguments {
        [from] => part_from(alloc, text, from, room),
        [from, to] => part_between(alloc, text, from, to, room),
        _ => nothing(),
    }
}

fn part_from(alloc: Global, text: &str, from: &Value, room: u64) -> Result<(Value, u64), Lack>
    ensures { Within room (part_from_of text.now from.now, string_bytes (part_from_of text.now from.now)) result }
{
    match from.as_whole() {
        Some(from) => text_or_nothing(alloc, substring_from(text, from), room),
        None => nothing(),
    }
}

fn part_between(
    alloc: Global,
    text: &str,
    from: &Value,
    to: &Value,
    room: u64,
) -> Result<(Value, u64), Lack>
    ensures { Within room (part_between_of text.now from.now to.now, string_bytes (part_between_of text.now from.now to.now)) result }
{
    let Some(from) = from.as_whole() else {
        return nothing();
    };
    let Some(to) = to.as_whole() else {
        return nothing();
    };
    text_or_nothing(alloc, substring(text, from, to), room)
}

fn text_or_nothing(alloc: Global, part: Option<&str>, room: u64) -> Result<(Value, u64), Lack>
    ensures { Within room (text_or_null (option_map (λ p. p.now) part.entry), string_bytes (text_or_null (option_map (λ p. p.now) part.entry))) result }
{
    match part {
        Some(part) => part_within(alloc, part, room),
        None => nothing(),
    }
}

#[tactic(auto, unfolding(crate::specs::Methods::text_method))]
fn replace_texts(
    alloc: Global,
    text: &str,
    arguments: &[Value],
    room: u64,
) -> Result<(Value, u64), Lack>
    ensures { Within room (given TextMethod.Replace text.now arguments.now, string_bytes (given TextMethod.Replace text.now arguments.now)) result }
{
    match two_texts(arguments) {
        Some((from, to)) => replace_by(alloc, text, from.as_str(), to.as_str(), room),
        None => nothing(),
    }
}

#[tactic(auto, unfolding(crate::specs::Methods::text_method))]
fn replace_patterns(
    alloc: Global,
    text: &str,
    arguments: &[Value],
    room: u64,
) -> Result<(Value, u64), Lack>
    ensures { Within room (given TextMethod.ReplaceAll text.now arguments.now, string_bytes (given TextMethod.ReplaceAll text.now arguments.now)) result }
{
    match two_texts(arguments) {
        Some((pattern, to)) => replace_all(alloc, text, pattern.as_str(), to.as_str(), room),
        None => nothing(),
    }
}

#[tactic(auto, unfolding(vtl_texts::specs::Places::replaced, vtl_texts::specs::Places::within))]
fn replace_by(
    alloc: Global,
    text: &str,
    from: &str,
    to: &str,
    room: u64,
) -> Result<(Value, u64), Lack>
    ensures { Within room (text_or_null (replaced text.now from.now to.now), string_bytes (text_or_null (replaced text.now from.now to.now))) result }
{
    if from.is_empty() {
        return nothing();
    }
    match replace(alloc, text, from, to, room)? {
        Some(made) => text_within(made, room),
        None => Err(Lack::Room),
    }
}

fn replace_all(
    alloc: Global,
    text: &str,
    pattern: &str,
    to: &str,
    room: u64,
) -> Result<(Value, u64), Lack>
    ensures { Within room (replaced_all_of text.now pattern.now to.now, string_bytes (replaced_all_of text.now pattern.now to.now)) result }
{
    let Some(from) = literal(alloc, pattern)? else {
        return nothing();
    };
    let Some(to) = replacement(alloc, to)? else {
        return nothing();
    };
    replace_by(alloc, text, from.as_str(), to.as_str(), room)
}

#[tactic(auto, unfolding(crate::specs::Methods::text_method))]
fn split_text(
    alloc: Global,
    text: &str,
    arguments: &[Value],
    room: u64,
) -> Result<(Value, u64), Lack>
    ensures { Within room (given TextMethod.Split text.now arguments.now, string_bytes (given TextMethod.Split text.now arguments.now)) result }
{
    match only_text(arguments) {
        Some(pattern) => measured(split_by(alloc, text, pattern.as_str())?, room),
        None => nothing(),
    }
}

fn split_by(alloc: Global, text: &str, pattern: &str) -> Result<Value, Memory>
    ensures { IfOk result (λ v. v ≡ split_by_of text.now pattern.now) }
{
    let Some(at) = literal(alloc, pattern)? else {
        return Ok(Value::null());
    };
    let parts = split(alloc, text, at.as_str())?;
    list_of_texts(alloc, &parts)
}

fn list_of_texts(alloc: Global, parts: &[&str]) -> Result<Value, Memory>
    ensures { IfOk result (λ v. v ≡ listed (map text_val (map (λ p. p.now) parts.now))) }
{
    let mut made = ListMaker::new(alloc);
    for part in parts {
        made.push(part_value(alloc, part)?)?;
    }
    made.close(alloc)
}
