// One turn: wait for it, take the machine, put it back, and give the turn on.
//
// A ticket is drawn from word 0; word 1 is the ticket that is served, and a caller who waits parks on it. The machine
// lies in the one slot, which is with the seat whose ticket is served, from its look at word 1 to its step on word 1.
ghost use Rattle.std.specs.Prelude.{◌≡◌, ◌+◌, ◌<◌, ◌≤◌, ◌%◌, ◌^◌, ℕ, List, [], ◌∷◌, Some, None};
ghost use mathlib.Core.List.{IsPrefix};
ghost use Rattle.turn_desk.specs.Entries.{entries_of, HasNoneFrom, history_in, Grows};
ghost use Rattle.turn_desk.specs.Steps.{Took, commits_to};
ghost use Rattle.turn_desk.specs.Views.{view, at_history};
ghost use Rattle.turn_desk.specs.declared.view.Phase.TheVariants.{Idle, Waiting, Turn};

use crate::machine::Machine;
use crate::rule::{Commit, DeskRule, DrawTicket, LookAtServed, Opening, ServeNext};
use crate::seat::Token;
use crate::view::View;
use std::sync::Wait;

/// The word that counts the tickets drawn.
pub(crate) const DRAWN: usize = 0;

/// The word that is the ticket served.
const SERVED: usize = 1;

/// The word that counts the entries of the history.
const ENTRIES: usize = 2;

/// The slot that has the machine.
pub(crate) const MACHINE: usize = 0;

/// The part of the table that all threads share.
pub(crate) type SharedTable<M> = atomic_table::Shared<
    Option<M>,
    View<<M as Machine>::Entry, <M as Machine>::Base>,
    Opening<M>,
    DeskRule<M>,
>;

// Draws a ticket, and waits until it is served. It parks while another one is.
fn wait_for_turn<M: Machine, R: Wait>(rt: &R, table: &SharedTable<M>, token: &mut Token<M>)
    requires desk { (token.old.table_id ≡ table.now.table_id) × (table.now.table_id.words ≡ 3) }
    requires idle { (token.old.me.0.phase ≡ Idle) × (token.old.me.1 ≡ []) }
    ensures desk { token.new.table_id ≡ token.old.table_id }
    ensures took { (k : ℕ) × Took M.history M.base M.seat_of k (view (Waiting k) token.old.me.0.known, []) token.new.me }
{
    let ticket = table.fetch_add::<DrawTicket>(token, DRAWN, 1);
    for _ in rt.forever() {
        let served = table.load::<LookAtServed<M>>(token, SERVED);
        if served == ticket {
            return;
        }
        table.park(rt, SERVED, (served % (1 << 32)) as u32);
    }
    unreachable!()
}

/// Waits for the turn, and takes the machine out of its slot.
pub(crate) fn take_machine<M: Machine, R: Wait>(
    rt: &R,
    table: &SharedTable<M>,
    token: &mut Token<M>,
) -> M
    requires desk { (token.old.table_id ≡ table.now.table_id) × (table.now.table_id.words ≡ 3) }
    requires idle { (token.old.me.0.phase ≡ Idle) × (token.old.me.1 ≡ []) }
    ensures desk { token.new.table_id ≡ token.old.table_id }
    ensures turn { (k : ℕ) × (token.new.me ≡ (view (Turn k (M.history result)) token.old.me.0.known, (0, None) ∷ [])) }
    ensures based { token.old.me.0.known.base ≡ Some (M.base result) }
    ensures seen { IsPrefix token.old.me.0.known.seen (M.history result) }
    ensures own { token.old.me.0.known.mine ≡ entries_of M.seat_of token.old.me.0.known.number (M.history result) }
{
    wait_for_turn(rt, table, token);
    let Some(machine) = table.exchange(token, MACHINE, None) else {
        unreachable!()
    };
    machine
}

// Counts the entry of the step, if there is one.
fn commit<M: Machine>(table: &SharedTable<M>, token: &mut Token<M>, taken: bool)
    requires desk { (token.old.table_id ≡ table.now.table_id) × (table.now.table_id.words ≡ 3) }
    requires turn { (k : ℕ) × (found : List M.Entry) × (machine : M) × (token.old.me.0.phase ≡ Turn k found) × (token.old.me.1 ≡ (0, Some machine) ∷ []) × Grows M.seat_of token.old.me.0.known.number taken found (M.history machine) }
    ensures desk { token.new.table_id ≡ token.old.table_id }
    ensures done { token.new.me ≡ (commits_to M.history M.seat_of token.old.me, token.old.me.1) }
    ensures none_from { HasNoneFrom M.seat_of token.old.me.0.known.seats (history_in M.history token.old.me.1) }
{
    if taken {
        table.fetch_add::<Commit<M>>(token, ENTRIES, 1);
    } else {
        table.fetch_add::<Commit<M>>(token, ENTRIES, 0);
    }
}

/// Puts the machine back into its slot, gives the turn to the next ticket, and wakes those who wait, where anyone may.
/// Who draws a ticket later looks later too, and finds the turn given.
pub(crate) fn give_back<M: Machine>(
    table: &SharedTable<M>,
    token: &mut Token<M>,
    machine: M,
    taken: bool,
)
    requires desk { (token.old.table_id ≡ table.now.table_id) × (table.now.table_id.words ≡ 3) }
    requires turn { (k : ℕ) × (found : List M.Entry) × (token.old.me.0.phase ≡ Turn k found) × Grows M.seat_of token.old.me.0.known.number taken found (M.history machine) }
    requires out { token.old.me.1 ≡ (0, None) ∷ [] }
    requires based { token.old.me.0.known.base ≡ Some (M.base machine) }
    ensures desk { token.new.table_id ≡ token.old.table_id }
    ensures idle { token.new.me ≡ (view Idle (at_history M.seat_of (M.history machine) token.old.me.0.known), []) }
    ensures none_from { HasNoneFrom M.seat_of token.old.me.0.known.seats (M.history machine) }
{
    let nothing = table.exchange(token, MACHINE, Some(machine));
    let None = nothing else { unreachable!() };
    commit(table, token, taken);
    let served = table.fetch_add::<ServeNext>(token, SERVED, 1);
    if table.peek(DRAWN) != served.wrapping_add(1) {
        table.wake_all(SERVED);
    }
}
