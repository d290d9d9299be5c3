// Arguments, and values that methods give.
ghost use Rattle.std.specs.Prelude.{◌≡◌, length, Ok, IfOk};
ghost use Rattle.std.specs.Option.{option_map};
ghost use Rattle.std.specs.Rc.{rc_str_bytes};
ghost use Rattle.std.specs.String.{string_bytes as bytes_in};
ghost use Rattle.vtl_values.specs.Val.{null as null_val, text as text_val, string_bytes};
ghost use Rattle.vtl_values.specs.Within.{Within};
ghost use Rattle.vtl_methods.specs.Methods.{only as only_of, only_text as only_text_of, two_texts as two_texts_of, of_none, counted as counted_of};

use gw_base::Memory;
use std::alloc::Global;
use std::rc::RcStr;
use vtl_values::{Lack, Value};

/// The one argument, where there is just one.
pub(crate) fn only(arguments: &[Value]) -> Option<&Value>
    ensures { option_map (λ a. a.now) result ≡ only_of arguments.now }
{
    match arguments {
        [a] => Some(a),
        _ => None,
    }
}

/// The one argument, where it is a text.
pub(crate) fn only_text(arguments: &[Value]) -> Option<&RcStr>
    ensures { option_map (λ t. rc_str_bytes t.now) result ≡ only_text_of arguments.now }
{
    match only(arguments) {
        Some(a) => a.as_text(),
        None => None,
    }
}

/// The two arguments, where they are texts.
pub(crate) fn two_texts(arguments: &[Value]) -> Option<(&RcStr, &RcStr)>
    ensures { option_map (λ p. (rc_str_bytes p.0.now, rc_str_bytes p.1.now)) result ≡ two_texts_of arguments.now }
{
    let [a, b] = arguments else {
        return None;
    };
    let Some(first) = a.as_text() else {
        return None;
    };
    let Some(second) = b.as_text() else {
        return None;
    };
    Some((first, second))
}

/// The value where there are no arguments, and null where there is one.
pub(crate) fn alone(value: Value, arguments: &[Value]) -> Value
    ensures { result ≡ of_none value arguments.now }
{
    if arguments.is_empty() {
        value
    } else {
        Value::null()
    }
}

/// A length or a place; null outside of `i64`.
pub(crate) fn counted(n: usize) -> Value
    ensures { result ≡ counted_of n }
{
    if n <= i64::MAX as usize {
        Value::whole(n as i64)
    } else {
        Value::null()
    }
}

/// The value of a part of a text.
pub(crate) fn part_value(alloc: Global, part: &str) -> Result<Value, Memory>
    ensures { IfOk result (λ v. v ≡ text_val part.now) }
{
    Ok(Value::text(RcStr::from_str(alloc, part)?))
}

/// A value that has no strings.
pub(crate) fn bare(value: Value) -> Result<(Value, u64), Lack>
    ensures { result ≡ Ok (value, 0) }
{
    Ok((value, 0))
}

/// No value.
pub(crate) fn nothing() -> Result<(Value, u64), Lack>
    ensures { result ≡ Ok (null_val, 0) }
{
    Ok((Value::null(), 0))
}

/// The value of a text that was made, and its bytes, where these have room.
pub(crate) fn text_within(made: String, room: u64) -> Result<(Value, u64), Lack>
    ensures { Within room (text_val (bytes_in made), length (bytes_in made)) result }
{
    let bytes = made.len() as u64;
    if room < bytes {
        return Err(Lack::Room);
    }
    Ok((Value::text(RcStr::from_string(made)?), bytes))
}

/// The value of a part of a text, and its bytes, where these have room.
pub(crate) fn part_within(alloc: Global, part: &str, room: u64) -> Result<(Value, u64), Lack>
    ensures { Within room (text_val part.now, length part.now) result }
{
    let bytes = part.len() as u64;
    if room < bytes {
        return Err(Lack::Room);
    }
    Ok((Value::text(RcStr::from_str(alloc, part)?), bytes))
}

/// The value with the bytes of its strings, where these have room. No memory has as many bytes as there are numbers.
pub(crate) fn measured(value: Value, room: u64) -> Result<(Value, u64), Lack>
    ensures { Within room (value, string_bytes value) result }
{
    let bytes = value.bytes();
    if room < bytes {
        return Err(Lack::Room);
    }
    if bytes == u64::MAX {
        return Err(Lack::Memory);
    }
    Ok((value, bytes))
}
