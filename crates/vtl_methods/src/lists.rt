// The methods of a list or a range.
ghost use Rattle.std.specs.Prelude.{◌≡◌, ◌≢◌, ◌+◌, ◌<◌, ◌==◌, ◌∷◌, map, length};
ghost use Rattle.vtl_values.specs.Val.{whole, string_bytes};
ghost use Rattle.vtl_values.specs.Ranges.{span, distance};
ghost use Rattle.vtl_values.specs.Operations.{are_equal, compared};
ghost use Rattle.vtl_values.specs.Parts.{items_in};
ghost use Rattle.vtl_values.specs.Within.{Within, Decides};
ghost use Rattle.vtl_methods.specs.Comparisons.{is_among, looked_through};
ghost use Rattle.vtl_methods.specs.Methods.{list_method as given, list_texts};

use crate::answers::{alone, measured, only};
use crate::names::ListMethod;
use std::alloc::Global;
use vtl_values::{Lack, Value, View, equal, item_at, size};

/// What a method of this list or range gives.
pub(crate) fn on_list(
    alloc: Global,
    method: ListMethod,
    list: &Value,
    arguments: &[Value],
    room: u64,
) -> Result<(Value, u64), Lack>
    ensures { Within room (given method list.now arguments.now, list_texts method list.now arguments.now + string_bytes (given method list.now arguments.now)) result }
{
    match method {
        ListMethod::Size => Ok((size_of(list, arguments), 0)),
        ListMethod::Get => get(list, arguments, room),
        ListMethod::Contains => contains(alloc, list, arguments, room),
        ListMethod::IsEmpty => Ok((is_empty(list, arguments), 0)),
    }
}

#[tactic(auto, unfolding(crate::specs::Methods::list_method))]
fn size_of(list: &Value, arguments: &[Value]) -> Value
    ensures value { result ≡ given ListMethod.Size list.now arguments.now }
    ensures bytes { string_bytes result ≡ 0 }
{
    match size(list) {
        Some(n) => alone(Value::whole(n), arguments),
        None => Value::null(),
    }
}

#[tactic(auto, unfolding(crate::specs::Methods::list_method))]
fn get(list: &Value, arguments: &[Value], room: u64) -> Result<(Value, u64), Lack>
    ensures { Within room (given ListMethod.Get list.now arguments.now, string_bytes (given ListMethod.Get list.now arguments.now)) result }
{
    match only(arguments) {
        Some(index) => measured(item_at(index, list)?, room),
        None => Ok((Value::null(), 0)),
    }
}

#[tactic(auto, unfolding(crate::specs::Methods::list_method))]
fn is_empty(list: &Value, arguments: &[Value]) -> Value
    ensures value { result ≡ given ListMethod.IsEmpty list.now arguments.now }
    ensures bytes { string_bytes result ≡ 0 }
{
    alone(Value::boolean(has_no_items(list)), arguments)
}

fn has_no_items(list: &Value) -> bool
    ensures { result ≡ (length (items_in list.now) == 0) }
{
    match list.view() {
        View::List(items) => items.is_empty(),
        View::Range(_, _) => false,
        View::Null => true,
        View::Bool(_) => true,
        View::Whole(_) => true,
        View::Number(_) => true,
        View::Text(_) => true,
        View::Map(_) => true,
    }
}

#[tactic(auto, unfolding(crate::specs::Methods::list_method))]
fn contains(
    alloc: Global,
    list: &Value,
    arguments: &[Value],
    room: u64,
) -> Result<(Value, u64), Lack>
    ensures { Within room (given ListMethod.Contains list.now arguments.now, list_texts ListMethod.Contains list.now arguments.now + string_bytes (given ListMethod.Contains list.now arguments.now)) result }
{
    let Some(sought) = only(arguments) else {
        return Ok((Value::null(), 0));
    };
    match is_in(alloc, list, sought, room) {
        Ok((found, bytes)) => Ok((Value::boolean(found), bytes)),
        Err(lack) => Err(lack),
    }
}

fn is_in(alloc: Global, list: &Value, sought: &Value, room: u64) -> Result<(bool, u64), Lack>
    ensures { Decides room (is_among sought.now (items_in list.now)) (looked_through sought.now (items_in list.now)) result }
{
    match list.view() {
        View::List(items) => is_item(alloc, items, sought, room),
        View::Range(first, last) => is_number(alloc, first, last, sought, room),
        View::Null => Ok((false, 0)),
        View::Bool(_) => Ok((false, 0)),
        View::Whole(_) => Ok((false, 0)),
        View::Number(_) => Ok((false, 0)),
        View::Text(_) => Ok((false, 0)),
        View::Map(_) => Ok((false, 0)),
    }
}

fn is_item(alloc: Global, items: &[Value], sought: &Value, room: u64) -> Result<(bool, u64), Lack>
    ensures { Decides room (is_among sought.now items.now) (looked_through sought.now items.now) result }
{
    let mut taken = 0;
    for item in items {
        let (same, bytes) = match equal(alloc, item, sought, room - taken) {
            Ok(found) => found,
            Err(lack) => return Err(lack),
        };
        taken += bytes;
        if same {
            return Ok((true, taken));
        }
    }
    Ok((false, taken))
}

/// The numbers of a range are never spread out: a whole number is compared with its ends, and null with nothing.
fn is_number(
    alloc: Global,
    first: i64,
    last: i64,
    sought: &Value,
    room: u64,
) -> Result<(bool, u64), Lack>
    ensures { Decides room (is_among sought.now (map whole (span first last))) (looked_through sought.now (map whole (span first last))) result }
{
    if let Some(n) = sought.as_whole() {
        return Ok((is_between(first, last, n), 0));
    }
    if sought.is_null() {
        return Ok((false, 0));
    }
    is_printed_number(alloc, first, last, sought, room)
}

/// Whether a number is in a range.
fn is_between(first: i64, last: i64, n: i64) -> bool
    ensures { result ≡ is_among (whole n) (map whole (span first last)) }
{
    if last < first {
        last <= n && n <= first
    } else {
        first <= n && n <= last
    }
}

/// Each comparison takes bytes of the room, so that a long range comes to an end.
fn is_printed_number(
    alloc: Global,
    first: i64,
    last: i64,
    sought: &Value,
    room: u64,
) -> Result<(bool, u64), Lack>
    ensures { Decides room (is_among sought.now (map whole (span first last))) (looked_through sought.now (map whole (span first last))) result }
{
    let mut number = first;
    let mut taken = 0;
    loop {
        let (hit, bytes) = match is_whole(alloc, number, sought, room - taken) {
            Ok(found) => found,
            Err(lack) => return Err(lack),
        };
        taken += bytes;
        if hit {
            return Ok((true, taken));
        }
        if number == last {
            return Ok((false, taken));
        }
        number = next(number, last);
    }
}

fn is_whole(alloc: Global, number: i64, sought: &Value, room: u64) -> Result<(bool, u64), Lack>
    ensures { Decides room (are_equal (whole number) sought.now) (compared (whole number) sought.now) result }
{
    equal(alloc, &Value::whole(number), sought, room)
}

/// The number behind this one, on the way to the last.
fn next(number: i64, last: i64) -> i64
    requires { number ≢ last }
    ensures span { span number last ≡ number ∷ span result last }
    ensures nearer { distance result last < distance number last }
{
    if last < number {
        number - 1
    } else {
        number + 1
    }
}
