// What operators give.
ghost use Rattle.std.specs.Prelude.{◌≡◌, ◌++◌, ◌&&◌, ◌||◌, not, pos, int_div, if◌then◌else◌};
ghost use Rattle.std.specs.String.{string_bytes as bytes_in};
ghost use Rattle.std.specs.Ordering.{int_eq};
ghost use Rattle.vtl_values.specs.Val.{null, string_bytes};
ghost use Rattle.vtl_values.specs.Printed.{printed};
ghost use Rattle.vtl_values.specs.Operations.{in_range, whole_or_null, added, subtracted, multiplied, divided, remaining, less as less_of, greater as greater_of, at_most as at_most_of, at_least as at_least_of, join, glued};
ghost use Rattle.vtl_values.specs.Kinds.{is_text as is_text_val};
ghost use Rattle.vtl_values.specs.Within.{Within, Writes};

use crate::lack::Lack;
use crate::printing::print;
use crate::value::{Shape, Value};
use std::alloc::Global;
use std::rc::RcStr;

/// The sum of two whole numbers; where one is a text and neither is null, both printed, one behind the other; else null.
#[tactic(auto, using(crate::proofs::Wholes::checked_whole), unfolding(crate::specs::Operations::added))]
pub fn add(alloc: Global, a: &Value, b: &Value, room: u64) -> Result<(Value, u64), Lack>
    ensures { Within room (added a.now b.now, string_bytes (added a.now b.now)) result }
{
    match (&a.shape, &b.shape) {
        (Shape::Whole(x), Shape::Whole(y)) => Ok((from_whole(x.checked_add(*y)), 0)),
        _ => glue(alloc, a, b, room),
    }
}

fn from_whole(n: Option<i64>) -> Value
    ensures { result ≡ whole_or_null n }
{
    match n {
        Some(n) => Value::whole(n),
        None => Value::null(),
    }
}

fn is_text(a: &Value) -> bool
    ensures { result ≡ is_text_val a.now }
{
    match &a.shape {
        Shape::Str(_) => true,
        _ => false,
    }
}

fn glue(alloc: Global, a: &Value, b: &Value, room: u64) -> Result<(Value, u64), Lack>
    ensures { Within room (glued a.now b.now, string_bytes (glued a.now b.now)) result }
{
    if (is_text(a) || is_text(b)) && !(a.is_null() || b.is_null()) {
        let mut text = String::new(alloc);
        print(a, &mut text, room)?;
        print(b, &mut text, room)?;
        let bytes = text.len() as u64;
        let text = RcStr::from_string(text)?;
        Ok((Value::text(text), bytes))
    } else {
        Ok((Value::null(), 0))
    }
}

/// The difference of two whole numbers, else null.
#[tactic(auto, using(crate::proofs::Wholes::checked_whole), unfolding(crate::specs::Operations::subtracted))]
pub fn subtract(a: &Value, b: &Value) -> Value
    ensures { result ≡ subtracted a.now b.now }
{
    match (&a.shape, &b.shape) {
        (Shape::Whole(x), Shape::Whole(y)) => from_whole(x.checked_sub(*y)),
        _ => Value::null(),
    }
}

/// The product of two whole numbers, else null.
#[tactic(auto, using(crate::proofs::Wholes::checked_whole), unfolding(crate::specs::Operations::multiplied))]
pub fn multiply(a: &Value, b: &Value) -> Value
    ensures { result ≡ multiplied a.now b.now }
{
    match (&a.shape, &b.shape) {
        (Shape::Whole(x), Shape::Whole(y)) => from_whole(x.checked_mul(*y)),
        _ => Value::null(),
    }
}

/// The quotient of two whole numbers, truncated toward 0, else null.
#[tactic(auto, unfolding(crate::specs::Operations::divided))]
pub fn divide(a: &Value, b: &Value) -> Value
    ensures { result ≡ divided a.now b.now }
{
    match (&a.shape, &b.shape) {
        (Shape::Whole(x), Shape::Whole(y)) => quotient(*x, *y),
        _ => Value::null(),
    }
}

#[tactic(auto, using(crate::proofs::Wholes::divided_whole))]
fn quotient(x: i64, y: i64) -> Value
    ensures { result ≡ (if int_eq y (pos 0) then null else in_range (int_div x y)) }
{
    if y == 0 {
        Value::null()
    } else {
        from_whole(x.checked_div(y))
    }
}

/// What a division leaves, with the sign of the dividend, else null.
#[tactic(auto, unfolding(crate::specs::Operations::remaining))]
pub fn remainder(a: &Value, b: &Value) -> Value
    ensures { result ≡ remaining a.now b.now }
{
    match (&a.shape, &b.shape) {
        (Shape::Whole(x), Shape::Whole(y)) => {
            if *y == 0 {
                Value::null()
            } else {
                Value::whole(x.wrapping_rem(*y))
            }
        }
        _ => Value::null(),
    }
}

/// Whether the first of two whole numbers is below the second; of anything else null.
#[tactic(auto, unfolding(crate::specs::Operations::less))]
pub fn less(a: &Value, b: &Value) -> Value
    ensures { result ≡ less_of a.now b.now }
{
    match (&a.shape, &b.shape) {
        (Shape::Whole(x), Shape::Whole(y)) => Value::boolean(*x < *y),
        _ => Value::null(),
    }
}

/// Whether the first of two whole numbers is above the second; of anything else null.
#[tactic(auto, unfolding(crate::specs::Operations::greater))]
pub fn greater(a: &Value, b: &Value) -> Value
    ensures { result ≡ greater_of a.now b.now }
{
    match (&a.shape, &b.shape) {
        (Shape::Whole(x), Shape::Whole(y)) => Value::boolean(*y < *x),
        _ => Value::null(),
    }
}

/// Whether the first of two whole numbers is not above the second; of anything else null.
#[tactic(auto, unfolding(crate::specs::Operations::at_most))]
pub fn at_most(a: &Value, b: &Value) -> Value
    ensures { result ≡ at_most_of a.now b.now }
{
    match (&a.shape, &b.shape) {
        (Shape::Whole(x), Shape::Whole(y)) => Value::boolean(*x <= *y),
        _ => Value::null(),
    }
}

/// Whether the first of two whole numbers is not below the second; of anything else null.
#[tactic(auto, unfolding(crate::specs::Operations::at_least))]
pub fn at_least(a: &Value, b: &Value) -> Value
    ensures { result ≡ at_least_of a.now b.now }
{
    match (&a.shape, &b.shape) {
        (Shape::Whole(x), Shape::Whole(y)) => Value::boolean(*y <= *x),
        _ => Value::null(),
    }
}
