// What no event changes of a book, for contracts alone.
use std::convert::Infallible;
use std::marker::Model;

/// The opening tables, the limits, and the keeper behind its load, which contracts alone speak of: no value is made.
#[derive(Drop)]
pub struct Base {
    never: Infallible,
}

impl Model for Base {
    ghost use Rattle.std.specs.Prelude.{[], None};
    ghost use Rattle.keeper_core.specs.Lists.{no_rows};
    ghost use Rattle.book_rules.specs.History.{Base as Facts};

    ghost Value = { Facts };

    ghost view = { λ _. record {
      opening = no_rows;
      limits = record { entries = 0; bytes = 0 };
      start = record { tables = None; staged = []; faults = 0; loads = 0; planned = None };
    } };
}
