// The parts of a double-quoted string.
ghost use Rattle.std.specs.Prelude.{◌≡◌, ◌++◌, [], length, IfOk, OnOk};
ghost use Rattle.vtl_values.specs.Val.{text as text_val};
ghost use Rattle.vtl_values.specs.Printed.{printed};
ghost use Rattle.vtl_eval.specs.World.{make as make_of};
ghost use Rattle.vtl_eval.specs.Views.{Does, scene_of};
ghost use Rattle.vtl_eval.specs.Evaluated.{all_printed};

use crate::run::{Run, make, room};
use crate::stop::{Fail, Limit};
use gw_base::Memory;
use std::alloc::Global;
use std::marker::Model;
use std::rc::RcStr;
use vtl_values::{Lack, Value, print};

/// A text as a value.
pub fn text_value(alloc: Global, text: &str) -> Result<Value, Memory>
    ensures value { IfOk result (λ v. v ≡ text_val text.now) }
    ensures printed { IfOk result (λ v. printed v ≡ text.now) }
{
    Ok(Value::text(RcStr::from_str(alloc, text)?))
}

/// The parts of a double-quoted string so far. A contract sees the text that they are.
#[derive(Drop)]
pub struct Pieces {
    values: Vec<Value>,
}

impl Model for Pieces {
    ghost use Rattle.std.specs.Prelude.{ℕ, List};
    ghost use Rattle.vtl_eval.specs.Evaluated.{all_printed};

    ghost Value = { List ℕ };

    ghost view = { λ p. all_printed p.values.items };
}

impl Pieces {
    /// No part.
    pub fn new(alloc: Global) -> Self
        ensures { result ≡ [] }
    {
        Pieces {
            values: Vec::new(alloc),
        }
    }

    /// One part more.
    #[tactic(auto, using(crate::proofs::Fronts::printed_more))]
    pub fn push(&mut self, value: Value) -> Result<(), Memory>
        ensures { OnOk result (self.new ≡ self.old ++ printed value) }
    {
        self.values.push(value)?;
        Ok(())
    }

    /// The text, within the room for texts.
    pub fn join(self, alloc: Global, run: &mut Run) -> Result<Value, Fail>
        ensures value { IfOk result (λ v. v ≡ text_val self) }
        ensures does { Does result (scene_of run.new) (make_of (length self) (scene_of run.old)) }
    {
        join(alloc, run, &self.values)
    }
}

// The printed values, one after another, within the room for texts.
fn join(alloc: Global, run: &mut Run, values: &[Value]) -> Result<Value, Fail>
    ensures value { IfOk result (λ v. v ≡ text_val (all_printed values.now)) }
    ensures does { Does result (scene_of run.new) (make_of (length (all_printed values.now)) (scene_of run.old)) }
{
    let mut text = String::new(alloc);
    let most = room(run);
    for value in values {
        match print(value, &mut text, most) {
            Ok(()) => {}
            Err(Lack::Room) => return Err(Fail::Met(Limit::Bytes)),
            Err(Lack::Memory) => return Err(Fail::Memory),
        }
    }
    make(run, text.len() as u64)?;
    Ok(text_value(alloc, &text)?)
}
