// What a value is, to be matched on.
ghost use Rattle.std.specs.Prelude.{◌≡◌};
ghost use Rattle.vtl_values.specs.Views.{val_in};

use crate::value::{Shape, Value};
use std::rc::RcStr;

/// What a value is, its parts lent.
#[derive(Clone, Copy)]
pub enum View<'a> {
    /// No value.
    Null,
    /// True or false.
    Bool(bool),
    /// A whole number.
    Whole(i64),
    /// A number that is no `Whole`, by its source text.
    Number(&'a RcStr),
    /// A string.
    Text(&'a RcStr),
    /// The items of a list.
    List(&'a [Value]),
    /// The first and the last whole number of a range.
    Range(i64, i64),
    /// The keys and values of a map, in order.
    Map(&'a [(RcStr, Value)]),
}

impl Value {
    /// What the value is.
    pub fn view(&self) -> View<'_>
        ensures { val_in result ≡ self.now }
    {
        match &self.shape {
            Shape::Null => View::Null,
            Shape::Bool(b) => View::Bool(*b),
            Shape::Whole(n) => View::Whole(*n),
            Shape::Number(t) => View::Number(t),
            Shape::Str(s) => View::Text(s),
            Shape::List(items) => View::List(&items.values),
            Shape::Range(first, last) => View::Range(*first, *last),
            Shape::Map(entries) => View::Map(&entries.rows),
        }
    }
}
