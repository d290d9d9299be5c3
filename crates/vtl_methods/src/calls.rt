// A method that is called.
ghost use Rattle.std.specs.Prelude.{◌≡◌, ◌+◌};
ghost use Rattle.vtl_values.specs.Val.{string_bytes, text as text_val, map as map_val};
ghost use Rattle.std.specs.Rc.{rc_str_bytes};
ghost use Rattle.vtl_values.specs.Vals.{rows_of};
ghost use Rattle.vtl_values.specs.Within.{Within};
ghost use Rattle.vtl_methods.specs.Methods.{method_of, method_texts, by_kind, listed_by_name, list_texts_by_name, stringed, of_none};

use crate::answers::{measured, nothing, text_within};
use crate::lists::on_list;
use crate::maps::on_map;
use crate::names::{method_of_list, method_of_map, method_of_text};
use crate::texts::on_text;
use std::alloc::Global;
use std::rc::RcStr;
use vtl_values::{Lack, Value, View, print};

/// What the method of this name gives on this value and with these arguments, and the bytes of the texts that are made
/// for it: those that it compares, and all strings of what it gives. These have `room` bytes.
#[tactic(auto, unfolding(crate::specs::Methods::method_of, crate::specs::Methods::method_texts))]
pub fn call(
    alloc: Global,
    receiver: &Value,
    name: &str,
    arguments: &[Value],
    room: u64,
) -> Result<(Value, u64), Lack>
    ensures { Within room (method_of name.now receiver.now arguments.now, method_texts name.now receiver.now arguments.now + string_bytes (method_of name.now receiver.now arguments.now)) result }
{
    if name == "toString" {
        return to_string(alloc, receiver, arguments, room);
    }
    match receiver.view() {
        View::Text(text) => call_on_text(alloc, text, name, arguments, room),
        View::List(_) => call_on_list(alloc, receiver, name, arguments, room),
        View::Range(_, _) => call_on_list(alloc, receiver, name, arguments, room),
        View::Map(entries) => call_on_map(alloc, receiver, entries, name, arguments, room),
        View::Null => nothing(),
        View::Bool(_) => nothing(),
        View::Whole(_) => nothing(),
        View::Number(_) => nothing(),
    }
}

fn to_string(
    alloc: Global,
    receiver: &Value,
    arguments: &[Value],
    room: u64,
) -> Result<(Value, u64), Lack>
    ensures { Within room (of_none (stringed receiver.now) arguments.now, string_bytes (of_none (stringed receiver.now) arguments.now)) result }
{
    if !arguments.is_empty() {
        return nothing();
    }
    text_of(alloc, receiver, room)
}

#[tactic(auto, unfolding(crate::specs::Methods::stringed))]
fn text_of(alloc: Global, value: &Value, room: u64) -> Result<(Value, u64), Lack>
    ensures { Within room (stringed value.now, string_bytes (stringed value.now)) result }
{
    if value.is_null() {
        return nothing();
    }
    let mut text = String::new(alloc);
    match print(value, &mut text, room) {
        Ok(()) => {}
        Err(lack) => return Err(lack),
    }
    text_within(text, room)
}

fn call_on_text(
    alloc: Global,
    text: &RcStr,
    name: &str,
    arguments: &[Value],
    room: u64,
) -> Result<(Value, u64), Lack>
    ensures { Within room (by_kind name.now (text_val (rc_str_bytes text.now)) arguments.now, string_bytes (by_kind name.now (text_val (rc_str_bytes text.now)) arguments.now)) result }
{
    let Some(method) = method_of_text(name) else {
        return nothing();
    };
    on_text(alloc, method, text.as_str(), arguments, room)
}

fn call_on_map(
    alloc: Global,
    whole: &Value,
    entries: &[(RcStr, Value)],
    name: &str,
    arguments: &[Value],
    room: u64,
) -> Result<(Value, u64), Lack>
    requires { whole.now ≡ map_val (rows_of entries.now) }
    ensures { Within room (by_kind name.now whole.now arguments.now, string_bytes (by_kind name.now whole.now arguments.now)) result }
{
    let Some(method) = method_of_map(name) else {
        return nothing();
    };
    measured(on_map(alloc, method, whole, entries, arguments)?, room)
}

fn call_on_list(
    alloc: Global,
    list: &Value,
    name: &str,
    arguments: &[Value],
    room: u64,
) -> Result<(Value, u64), Lack>
    ensures { Within room (listed_by_name name.now list.now arguments.now, list_texts_by_name name.now list.now arguments.now + string_bytes (listed_by_name name.now list.now arguments.now)) result }
{
    match method_of_list(name) {
        Some(method) => on_list(alloc, method, list, arguments, room),
        None => nothing(),
    }
}
