// A caller's place at a desk.
ghost use Rattle.std.specs.Prelude.{◌≡◌, ◌↔◌, IsTrue, length};
ghost use Rattle.turn_desk.specs.Calls.{IsWhole, HasEachNumber, all_numbers};
ghost use Rattle.turn_desk.specs.Views.{AreApart};

use crate::machine::Machine;
use crate::view::View;
use std::marker::Model;

/// What the table knows a seat by. It has no bytes.
pub(crate) type Token<M> = atomic_table::Seat<
    Option<M>,
    View<<M as Machine>::Entry, <M as Machine>::Base>,
>;

/// A caller's place at a desk, which its calls go through.
///
/// Contracts see it as what it knows: `desk`, `seats` (how many numbers the desk has), `number` (its own), `base` (the
/// machine's), `seen` (the beginning of the history that it has seen), `mine` (its own entries, in order), `ended` (the
/// numbers joined into it, each with its entries) and `spare` (the numbers that it may still split off). A seat that
/// anyone has is at rest: it has no ticket and no turn.
///
/// A seat that is dropped is lost to its desk, which then never closes.
#[derive(Drop)]
pub struct Seat<M: Machine> {
    pub(crate) token: Token<M>,
    pub(crate) seats: u32,
    pub(crate) number: u32,
    pub(crate) spare: u32,
    pub(crate) ended: u32,
}

impl<M: Machine> Model for Seat<M> {
    ghost use Rattle.turn_desk.specs.Calls.{SeatFacts, seat_facts_code, facts_of, IsAtRest};

    ghost Value = { SeatFacts M.Entry M.Base };

    ghost coded = { seat_facts_code M.Entry.code M.Base.code };

    ghost view = { λ s. facts_of s.token.table_id s.token.me.0.known };

    ghost invariant = { λ s. IsAtRest M.seat_of s.token.me s.seats s.number s.spare s.ended };
}

impl<M: Machine> Seat<M> {
    /// How many seats it may still split off.
    pub fn spare(&self) -> u32
        ensures { result ≡ length self.now.spare }
    {
        self.spare
    }

    /// Whether it has every number of its desk, so that the desk can close with it: every seat that was split off has
    /// been joined into it again.
    pub fn whole(&self) -> bool
        ensures count { IsTrue result ↔ IsWhole self.now }
        ensures each { IsTrue result ↔ HasEachNumber self.now }
    {
        self.has_as_many_as_there_are()
    }

    fn has_as_many_as_there_are(&self) -> bool
        ensures count { IsTrue result ↔ IsWhole self.now }
        ensures apart { AreApart self.now.seats (all_numbers self.now) }
    {
        let seats = self.seats;
        seats - self.spare == self.ended + 1
    }
}
