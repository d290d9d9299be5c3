// Whether two values are equal.
ghost use Rattle.std.specs.Prelude.{◌≡◌, ◌++◌, ◌+◌, length, IfSome};
ghost use Rattle.std.specs.String.{string_bytes as bytes_in};
ghost use Rattle.std.specs.Str.{bytes_eq};
ghost use Rattle.vtl_values.specs.Printed.{printed};
ghost use Rattle.vtl_values.specs.Operations.{are_equal, compared, by_value as by_value_of, decided, looked_at};
ghost use Rattle.vtl_values.specs.Within.{Decides, Writes};

use crate::lack::Lack;
use crate::printing::print;
use crate::value::{Shape, Value};
use std::alloc::Global;

/// Whether two values are equal, and the bytes of the texts that were compared: both printed forms, where these decide.
#[tactic(auto, unfolding(crate::specs::Operations::are_equal, crate::specs::Operations::compared))]
pub fn equal(alloc: Global, a: &Value, b: &Value, room: u64) -> Result<(bool, u64), Lack>
    ensures { Decides room (are_equal a.now b.now) (compared a.now b.now) result }
{
    match by_value(a, b) {
        Some(equal) => Ok((equal, 0)),
        None => by_text(alloc, a, b, room),
    }
}

fn by_value(a: &Value, b: &Value) -> Option<bool>
    ensures { result ≡ by_value_of a.now b.now }
{
    match (&a.shape, &b.shape) {
        (Shape::Null, _) => Some(b.is_null()),
        (Shape::Whole(x), Shape::Whole(y)) => Some(*x == *y),
        (Shape::Bool(x), Shape::Bool(y)) => Some(*x == *y),
        (_, Shape::Null) => Some(false),
        _ => None,
    }
}

fn by_text(alloc: Global, a: &Value, b: &Value, room: u64) -> Result<(bool, u64), Lack>
    ensures { Decides room (bytes_eq (printed a.now) (printed b.now)) (length (printed a.now) + length (printed b.now)) result }
{
    match source(a) {
        Some(s) => match source(b) {
            Some(t) => same_text(s, t, room),
            None => same_printed(alloc, a, b, room),
        },
        None => same_printed(alloc, a, b, room),
    }
}

// What is printed as it stands.
fn source(value: &Value) -> Option<&str>
    ensures { IfSome result (λ s. s.now ≡ printed value.now) }
{
    match &value.shape {
        Shape::Number(t) => Some(t.as_str()),
        Shape::Str(s) => Some(s.as_str()),
        _ => None,
    }
}

fn same_text(s: &str, t: &str, room: u64) -> Result<(bool, u64), Lack>
    ensures { Decides room (bytes_eq s.now t.now) (length s.now + length t.now) result }
{
    let first = s.len() as u64;
    let second = t.len() as u64;
    if room < first || room - first < second {
        return Err(Lack::Room);
    }
    Ok((s == t, first + second))
}

fn same_printed(alloc: Global, a: &Value, b: &Value, room: u64) -> Result<(bool, u64), Lack>
    ensures { Decides room (bytes_eq (printed a.now) (printed b.now)) (length (printed a.now) + length (printed b.now)) result }
{
    let mut first = String::new(alloc);
    print(a, &mut first, room)?;
    let taken = first.len() as u64;
    let mut second = String::new(alloc);
    print(b, &mut second, room - taken)?;
    Ok((
        first.as_str() == second.as_str(),
        taken + second.len() as u64,
    ))
}
