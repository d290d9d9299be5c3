// A value, and what is kept beside it.
ghost use Rattle.std.specs.Prelude.{◌≡◌, ◌≤◌, ◌^◌, ◌-◌, min, IfOk, option_map};
ghost use Rattle.std.specs.Rc.{rc_str_bytes};
ghost use Rattle.vtl_values.specs.Val.{Val, null as null_val, boolean as boolean_val, whole as whole_val, number as number_val, text as text_val, range as range_val, depth as depth_of, string_bytes};
ghost use Rattle.vtl_values.specs.Kinds.{whole_in, bool_in, text_in};
ghost use Rattle.vtl_values.specs.Truth.{is_null as is_null_val, is_true as is_true_val};

use crate::places::Places;
use gw_base::Memory;
use std::marker::Model;
use std::rc::{Rc, RcStr};

/// How deep a list or map nests, and the bytes of all its strings, at most 2^64 - 1.
#[derive(Clone, Copy)]
pub struct Size {
    pub depth: u32,
    pub bytes: u64,
}

/// What a value is (Velocity User Guide, "References" and "Literals").
#[derive(Drop)]
#[cycle(value)]
pub enum Shape {
    /// No value.
    Null,
    /// True or false.
    Bool(bool),
    /// A whole number.
    Whole(i64),
    /// A number that is no `Whole`, by its source text.
    Number(RcStr),
    /// A string.
    Str(RcStr),
    /// A list.
    List(Rc<Items>),
    /// The whole numbers from the first to the second, counting down where the first is the greater.
    Range(i64, i64),
    /// A map.
    Map(Rc<Entries>),
}

/// What a list holds, behind one pointer: a value is small, since it is moved at each step.
#[derive(Drop)]
#[cycle(value)]
pub struct Items {
    pub(crate) values: Vec<Value>,
    pub(crate) size: Size,
}

/// What a map holds, behind one pointer: keys and values in order, and the places of the keys where these are many.
#[derive(Drop)]
#[cycle(value)]
pub struct Entries {
    pub(crate) rows: Vec<(RcStr, Value)>,
    pub(crate) size: Size,
    pub(crate) places: Option<Places>,
}

/// A value of a template expression, at most 64 deep. Lists and maps are shared, and nothing walks one to find its depth
/// or the bytes of its strings.
#[derive(Drop)]
#[cycle(value)]
pub struct Value {
    pub(crate) shape: Shape,
}

impl Model for Value {
    ghost use Rattle.vtl_values.specs.Val.{Val, depth};
    ghost use Rattle.vtl_values.specs.Coded.{val_code};

    ghost Value = { Val };

    ghost coded = { val_code };

    ghost use Rattle.vtl_values.specs.Vals.{val_of, IsMeasured};

    ghost view = { λ v. val_of v.shape };

    ghost invariant = { λ v. IsMeasured v.shape };

    ghost size = { depth };

    ghost use Rattle.vtl_values.specs.Falls.{depth_falls};

    ghost size_decreases = { λ a h. depth_falls a.shape };
}

impl Value {
    /// No value.
    pub fn null() -> Self
        ensures { result ≡ null_val }
    {
        Value { shape: Shape::Null }
    }

    /// True or false.
    pub fn boolean(truth: bool) -> Self
        ensures { result ≡ boolean_val truth }
    {
        Value {
            shape: Shape::Bool(truth),
        }
    }

    /// A whole number.
    pub fn whole(n: i64) -> Self
        ensures { result ≡ whole_val n }
    {
        Value {
            shape: Shape::Whole(n),
        }
    }

    /// A number that is no whole number, by its source text.
    pub fn number(source: RcStr) -> Self
        ensures { result ≡ number_val (rc_str_bytes source) }
    {
        Value {
            shape: Shape::Number(source),
        }
    }

    /// A string.
    pub fn text(text: RcStr) -> Self
        ensures { result ≡ text_val (rc_str_bytes text) }
    {
        Value {
            shape: Shape::Str(text),
        }
    }

    /// The whole numbers from the first to the last, counting down where the first is the greater.
    pub fn range(first: i64, last: i64) -> Self
        ensures { result ≡ range_val first last }
    {
        Value {
            shape: Shape::Range(first, last),
        }
    }

    /// The same value once more, sharing its parts. It takes memory only where a count of holders stands at its end.
    pub fn copied(&self) -> Result<Self, Memory>
        ensures { IfOk result (λ other. other ≡ self.now) }
    {
        // Most are strings, and a function with few cases makes less room.
        match &self.shape {
            Shape::Str(s) => Value::shared_text(s),
            _ => self.copied_by_case(),
        }
    }

    // A string once more, sharing its bytes.
    fn shared_text(text: &RcStr) -> Result<Self, Memory>
        ensures { IfOk result (λ v. v ≡ text_val (rc_str_bytes text.now)) }
    {
        Ok(Value::text(text.clone()?))
    }

    // The same value once more, whatever it is.
    fn copied_by_case(&self) -> Result<Self, Memory>
        ensures { IfOk result (λ other. other ≡ self.now) }
    {
        match &self.shape {
            Shape::Null => Ok(Value { shape: Shape::Null }),
            Shape::Bool(b) => Ok(Value {
                shape: Shape::Bool(*b),
            }),
            Shape::Whole(n) => Ok(Value {
                shape: Shape::Whole(*n),
            }),
            Shape::Number(t) => {
                let t = t.clone()?;
                Ok(Value {
                    shape: Shape::Number(t),
                })
            }
            Shape::Str(s) => Value::shared_text(s),
            Shape::List(items) => {
                let items = items.clone()?;
                Ok(Value {
                    shape: Shape::List(items),
                })
            }
            Shape::Range(first, last) => Ok(Value {
                shape: Shape::Range(*first, *last),
            }),
            Shape::Map(entries) => {
                let entries = entries.clone()?;
                Ok(Value {
                    shape: Shape::Map(entries),
                })
            }
        }
    }

    /// Whether it is no value.
    pub fn is_null(&self) -> bool
        ensures { result ≡ is_null_val self.now }
    {
        match &self.shape {
            Shape::Null => true,
            _ => false,
        }
    }

    /// Whether a condition takes it as true: anything but null and false.
    pub fn is_true(&self) -> bool
        ensures { result ≡ is_true_val self.now }
    {
        match &self.shape {
            Shape::Null => false,
            Shape::Bool(b) => *b,
            _ => true,
        }
    }

    /// The number, where it is a whole number.
    pub fn as_whole(&self) -> Option<i64>
        ensures { result ≡ whole_in self.now }
    {
        match &self.shape {
            Shape::Whole(n) => Some(*n),
            _ => None,
        }
    }

    /// The truth value, where it is a boolean.
    pub fn as_bool(&self) -> Option<bool>
        ensures { result ≡ bool_in self.now }
    {
        match &self.shape {
            Shape::Bool(b) => Some(*b),
            _ => None,
        }
    }

    /// The text, where it is a string.
    pub fn as_text(&self) -> Option<&RcStr>
        ensures { option_map (λ t. rc_str_bytes t.now) result ≡ text_in self.now }
    {
        match &self.shape {
            Shape::Str(s) => Some(s),
            _ => None,
        }
    }

    /// How deep lists, ranges and maps nest.
    pub fn depth(&self) -> u32
        ensures value { result ≡ depth_of self.now }
        ensures shallow { result ≤ 64 }
    {
        match &self.shape {
            Shape::List(items) => items.size.depth,
            Shape::Range(_, _) => 1,
            Shape::Map(entries) => entries.size.depth,
            _ => 0,
        }
    }

    /// The bytes of all strings in it, keys among them, each as often as it stands there; at most 2^64 - 1.
    pub fn bytes(&self) -> u64
        ensures { result ≡ min (string_bytes self.now) (2 ^ 64 - 1) }
    {
        match &self.shape {
            Shape::Str(s) => s.len() as u64,
            Shape::List(items) => items.size.bytes,
            Shape::Map(entries) => entries.size.bytes,
            _ => 0,
        }
    }
}
