// The desk.
ghost use Rattle.std.specs.Prelude.{◌≡◌, ◌≢◌, ◌+◌, ◌<◌, ◌≤◌, ℕ, List, [], ◌∷◌, length, All, IfOk, IfErr, IsSome, Some};
ghost use mathlib.Core.List.{IsPrefix};
ghost use Rattle.turn_desk.specs.Entries.{entries_of, HasNoneFrom};
ghost use Rattle.turn_desk.specs.Calls.{first_seat, without_first_spare, first_spare_of, joined_with, IsSameSeat, HasItsOwn, IsWhole, all_numbers, Taken, NotTaken};
ghost use Rattle.turn_desk.specs.Views.{AreApart};

use crate::machine::Machine;
use crate::rule::{DeskRule, LearnNumbers, Opening, SplitOff, TakeIn};
use crate::seat::Seat;
use crate::turn::{DRAWN, MACHINE, give_back, take_machine};
use crate::view::View;
use atomic_table::{Refused, Table};
use std::alloc::{AllocFailed, Global};
use std::marker::Model;
use std::snapshot::Snapshot;
use std::sync::Wait;

type DeskTable<M> = atomic_table::Table<
    Option<M>,
    View<<M as Machine>::Entry, <M as Machine>::Base>,
    Opening<M>,
    DeskRule<M>,
    Global,
>;

/// A machine behind a turn: threads share the desk, and each calls the machine through a seat of its own.
///
/// Contracts see it as its identity, which each of its seats has as `desk`.
pub struct Desk<M: Machine> {
    table: DeskTable<M>,
}

impl<M: Machine> Model for Desk<M> {
    ghost use Rattle.std.specs.Prelude.{◌≡◌};
    ghost use Rattle.turn_desk.specs.Calls.{TableId, table_id_coded};

    ghost Value = { TableId };

    ghost coded = { table_id_coded };

    ghost view = { λ d. d.table.shared.table_id };

    ghost invariant = { λ d. (d.table.shared.table_id.words ≡ 3) × (d.table.shared.table_id.slots ≡ 1) };
}

// What an option has, where it is known to have something.
fn some_of<T>(value: Option<T>) -> T
    requires { IsSome value }
    ensures { value ≡ Some result }
{
    let Some(found) = value else { unreachable!() };
    found
}

impl<M: Machine> Desk<M> {
    /// The desk of a machine with an empty history, and its first seat. That seat has number 0, and splits off all
    /// others, so a desk of one seat has this one alone.
    ///
    /// `Err` hands the machine back, and comes only where memory is wanting.
    pub fn start(alloc: Global, machine: M, seats: u32) -> Result<(Desk<M>, Seat<M>), M>
        requires few { (1 ≤ seats) × (seats ≤ 9) }
        requires fresh { M.history machine ≡ [] }
        ensures first { IfOk result (λ r. r.1 ≡ first_seat r.0 seats (M.base machine)) }
        ensures whole { IfOk result (λ r. IsWhole r.1) }
        ensures same { IfErr result (λ m. m ≡ machine) }
    {
        let opening = Opening {
            seats,
            machine: Snapshot::of(&machine),
        };
        let Ok(mut slots) = Vec::with_capacity(alloc, 1) else {
            return Err(machine);
        };
        if let Err(failed) = slots.push(Some(machine)) {
            let AllocFailed { value } = failed;
            slots.destroy_empty();
            return Err(some_of(value));
        }
        match Table::new(alloc, &[0, 0, 0], slots, &opening) {
            Ok((table, token)) => Ok((
                Desk { table },
                Seat {
                    token,
                    seats,
                    number: 0,
                    spare: seats - 1,
                    ended: 0,
                },
            )),
            Err(Refused { mut slots }) => {
                let last = slots.pop();
                slots.destroy_empty();
                Err(some_of(some_of(last)))
            }
        }
    }

    /// One step of the machine, at the place in the history at which the seat's turn comes. It may wait for the turn,
    /// asleep, and gives it back before it returns.
    pub fn call<R: Wait>(
        &self,
        rt: &R,
        alloc: Global,
        seat: Seat<M>,
        event: M::Event,
    ) -> (Seat<M>, Result<M::Reply, M::Fault>)
        requires desk { seat.desk ≡ self.now }
        ensures same { IsSameSeat seat result.0 }
        ensures own { HasItsOwn M.seat_of result.0 }
        ensures none_from { HasNoneFrom M.seat_of result.0.seats result.0.seen }
        ensures taken { IfOk result.1 (λ r. Taken M.seat_of M.event_of M.answers seat result.0 event r) }
        ensures refused { IfErr result.1 (λ f. NotTaken M.refuses seat result.0 event f) }
    {
        let Seat {
            mut token,
            seats,
            number,
            spare,
            ended,
        } = seat;
        let table = &self.table.shared;
        let mut machine = take_machine(rt, table, &mut token);
        let reply = machine.step(alloc, number, event);
        give_back(table, &mut token, machine, reply.is_ok());
        (
            Seat {
                token,
                seats,
                number,
                spare,
                ended,
            },
            reply,
        )
    }

    /// Gives the first spare number of a seat to a new seat, which has seen what it had and made no entry.
    pub fn split(&self, seat: Seat<M>) -> (Seat<M>, Seat<M>)
        requires desk { seat.desk ≡ self.now }
        requires some_spare { 0 < length seat.spare }
        ensures left { result.0 ≡ without_first_spare seat }
        ensures new { result.1 ≡ first_spare_of seat }
        ensures apart { AreApart seat.seats (all_numbers seat) }
        ensures own { HasItsOwn M.seat_of result.0 × HasItsOwn M.seat_of result.1 }
    {
        let Seat {
            mut token,
            seats,
            number,
            spare,
            ended,
        } = seat;
        let table = &self.table.shared;
        table.load::<LearnNumbers<M>>(&mut token, DRAWN);
        let mut new = table.split_seat::<SplitOff>(&mut token);
        table.load::<LearnNumbers<M>>(&mut new, DRAWN);
        (
            Seat {
                token,
                seats,
                number,
                spare: spare - 1,
                ended,
            },
            Seat {
                token: new,
                seats,
                number: seats - spare,
                spare: 0,
                ended: 0,
            },
        )
    }

    /// Takes a seat into another one, which has then seen what either had and answers for the numbers of both.
    pub fn join(&self, seat: Seat<M>, ended: Seat<M>) -> Seat<M>
        requires desk { (seat.desk ≡ self.now) × (ended.desk ≡ self.now) }
        ensures both { result ≡ joined_with seat ended }
        ensures behind { IsPrefix seat.seen result.seen × IsPrefix ended.seen result.seen }
        ensures own { HasItsOwn M.seat_of result }
    {
        let Seat {
            mut token,
            seats,
            number,
            spare,
            ended: joined,
        } = seat;
        let Seat {
            token: other,
            seats: _,
            number: _,
            spare: more_spare,
            ended: more_joined,
        } = ended;
        let table = &self.table.shared;
        table.join_seat::<TakeIn>(&mut token, other);
        table.load::<LearnNumbers<M>>(&mut token, DRAWN);
        Seat {
            token,
            seats,
            number,
            spare: spare + more_spare,
            ended: joined + more_joined + 1,
        }
    }

    /// The machine, once one seat has every number.
    pub fn close(self, seat: Seat<M>) -> M
        requires desk { seat.desk ≡ self }
        requires whole { IsWhole seat }
        ensures base { seat.base ≡ Some (M.base result) }
        ensures seen { IsPrefix seat.seen (M.history result) }
        ensures own { seat.mine ≡ entries_of M.seat_of seat.number (M.history result) }
        ensures ended { All (λ p. p.1 ≡ entries_of M.seat_of p.0 (M.history result)) seat.ended }
        ensures no_others { (n : ℕ) → n ≢ seat.number → All (λ p. p.0 ≢ n) seat.ended → entries_of M.seat_of n (M.history result) ≡ [] }
    {
        let Desk { table } = self;
        let Seat {
            token,
            seats: _,
            number: _,
            spare: _,
            ended: _,
        } = seat;
        let mut closed = table.close_with(token);
        let kept = closed.take(MACHINE);
        closed.free();
        some_of(kept)
    }
}
