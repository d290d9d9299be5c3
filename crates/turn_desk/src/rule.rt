// The rule of the table, and what each atomic step on it tells.
use crate::machine::Machine;
use crate::view::View;
use atomic_table::{Join, Play, Split, TableRule};
use std::marker::PhantomData;
use std::snapshot::Snapshot;

/// What the rule reads: how many seats there may be, and the machine as it was.
#[derive(Drop)]
pub struct Opening<M> {
    pub seats: u32,
    pub machine: Snapshot<M>,
}

/// One history, and one turn.
pub struct DeskRule<M> {
    machine: PhantomData<M>,
}

impl<M: Machine> TableRule<Option<M>, View<M::Entry, M::Base>, Opening<M>> for DeskRule<M> {
    ghost use Rattle.turn_desk.specs.Rule.{Ruled};
    ghost use Rattle.turn_desk.specs.Views.{first_view};

    ghost holds = { λ key s. Ruled M.history M.base M.seat_of key.seats (M.base key.machine.value) s };

    ghost first = { λ key. first_view key.seats (M.base key.machine.value) };
}

/// A seat draws a ticket.
pub struct DrawTicket;

impl<S, E, B> Play<S, View<E, B>> for DrawTicket {
    ghost use Rattle.turn_desk.specs.Steps.{drew};

    ghost then = { drew };
}

/// A seat looks which ticket is served, and has the turn where it is its own.
pub struct LookAtServed<M> {
    machine: PhantomData<M>,
}

impl<M: Machine> Play<Option<M>, View<M::Entry, M::Base>> for LookAtServed<M> {
    ghost use Rattle.turn_desk.specs.Steps.{looked};

    ghost then = { looked M.history M.base M.seat_of };
}

/// A seat counts the entry of its step.
pub struct Commit<M> {
    machine: PhantomData<M>,
}

impl<M: Machine> Play<Option<M>, View<M::Entry, M::Base>> for Commit<M> {
    ghost use Rattle.turn_desk.specs.Steps.{committed};

    ghost then = { committed M.history M.seat_of };
}

/// A seat gives the turn to the next ticket.
pub struct ServeNext;

impl<S, E, B> Play<S, View<E, B>> for ServeNext {
    ghost use Rattle.turn_desk.specs.Steps.{served};

    ghost then = { served };
}

/// A seat learns what the rule says of its numbers.
pub struct LearnNumbers<M> {
    machine: PhantomData<M>,
}

impl<M: Machine> Play<Option<M>, View<M::Entry, M::Base>> for LearnNumbers<M> {
    ghost use Rattle.turn_desk.specs.Steps.{told};

    ghost then = { told M.seat_of };
}

/// A seat gives its first spare number to a new one.
pub struct SplitOff;

impl<E, B> Split<View<E, B>> for SplitOff {
    ghost use Rattle.turn_desk.specs.Views.{left, right};

    ghost left = { left };

    ghost right = { right };
}

/// A seat takes another one in.
pub struct TakeIn;

impl<E, B> Join<View<E, B>> for TakeIn {
    ghost use Rattle.turn_desk.specs.Views.{both, spent};

    ghost both = { both };

    ghost spent = { spent };
}
