// Operators.
ghost use Rattle.std.specs.Prelude.{◌≡◌, IfOk};
ghost use Rattle.vtl_values.specs.Val.{string_bytes as bytes_in};
ghost use Rattle.vtl_values.specs.Operations.{added, are_equal, compared};
ghost use Rattle.vtl_words.specs.Views.{op_of};
ghost use Rattle.vtl_eval.specs.World.{make as make_of};
ghost use Rattle.vtl_eval.specs.Meaning.{settled_by as settled_by_of, computed as computed_of};
ghost use Rattle.vtl_eval.specs.Views.{Does, scene_of};

use crate::run::{Run, make, room};
use crate::stop::{Fail, Limit};
use std::alloc::Global;
use vtl_values::{
    Lack, Value, add, at_least, at_most, divide, equal, greater, less, multiply, remainder,
    subtract,
};
use vtl_words::operators::Operator;

/// What the first operand settles alone.
pub fn settled_by(operator: Operator, first: &Value) -> Option<bool>
    ensures { result ≡ settled_by_of (op_of operator) first.now }
{
    match operator {
        Operator::Or => { if first.is_true() { Some(true) } else { None } }
        Operator::And => { if first.is_true() { None } else { Some(false) } }
        Operator::Equal
        | Operator::Unequal
        | Operator::Less
        | Operator::Greater
        | Operator::AtMost
        | Operator::AtLeast
        | Operator::Plus
        | Operator::Minus
        | Operator::Times
        | Operator::Divided
        | Operator::Remainder => None,
    }
}

// Whether two values are equal.
fn compare(alloc: Global, run: &mut Run, a: &Value, b: &Value) -> Result<bool, Fail>
    ensures value { IfOk result (λ equal. equal ≡ are_equal a.now b.now) }
    ensures does { Does result (scene_of run.new) (make_of (compared a.now b.now) (scene_of run.old)) }
{
    match equal(alloc, a, b, room(run)) {
        Ok((equal, bytes)) => {
            make(run, bytes)?;
            Ok(equal)
        }
        Err(Lack::Room) => Err(Fail::Met(Limit::Bytes)),
        Err(Lack::Memory) => Err(Fail::Memory),
    }
}

// The sum of two values, or their texts joined.
fn sum(alloc: Global, run: &mut Run, a: &Value, b: &Value) -> Result<Value, Fail>
    ensures value { IfOk result (λ v. v ≡ added a.now b.now) }
    ensures does { Does result (scene_of run.new) (make_of (bytes_in (added a.now b.now)) (scene_of run.old)) }
{
    match add(alloc, a, b, room(run)) {
        Ok((value, bytes)) => {
            make(run, bytes)?;
            Ok(value)
        }
        Err(Lack::Room) => Err(Fail::Met(Limit::Bytes)),
        Err(Lack::Memory) => Err(Fail::Memory),
    }
}

// A value for which no text was made.
fn textless(run: &mut Run, value: Value) -> Result<Value, Fail>
    ensures value { IfOk result (λ v. v ≡ value) }
    ensures does { Does result (scene_of run.new) (make_of 0 (scene_of run.old)) }
{
    make(run, 0)?;
    Ok(value)
}

/// An operator on both operands.
pub fn compute(
    alloc: Global,
    run: &mut Run,
    operator: Operator,
    a: &Value,
    b: &Value,
) -> Result<Value, Fail>
    ensures value { IfOk result (λ v. v ≡ (computed_of (op_of operator) a.now b.now).0) }
    ensures does { Does result (scene_of run.new) (make_of ((computed_of (op_of operator) a.now b.now).1) (scene_of run.old)) }
{
    match operator {
        Operator::Or => textless(run, Value::boolean(b.is_true())),
        Operator::And => textless(run, Value::boolean(b.is_true())),
        Operator::Equal => Ok(Value::boolean(compare(alloc, run, a, b)?)),
        Operator::Unequal => Ok(Value::boolean(!compare(alloc, run, a, b)?)),
        Operator::Less => textless(run, less(a, b)),
        Operator::Greater => textless(run, greater(a, b)),
        Operator::AtMost => textless(run, at_most(a, b)),
        Operator::AtLeast => textless(run, at_least(a, b)),
        Operator::Plus => sum(alloc, run, a, b),
        Operator::Minus => textless(run, subtract(a, b)),
        Operator::Times => textless(run, multiply(a, b)),
        Operator::Divided => textless(run, divide(a, b)),
        Operator::Remainder => textless(run, remainder(a, b)),
    }
}
