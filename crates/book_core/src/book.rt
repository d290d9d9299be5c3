// The book.
ghost use Rattle.std.specs.Prelude.{◌≡◌, ◌≢◌, [], ◌∷◌, ◌++◌, length, true, false, Some, None, IfOk, OnOk, OnErr, IfErr, IsErrOf, is_some};
ghost use Rattle.gw_base.specs.Outside.{Rose};
ghost use Rattle.book_rules.specs.Good.{bad_row};
ghost use Rattle.book_rules.specs.History.{Answers, total_size, state_after, tables_after, is_full, wants_memory};
ghost use Rattle.book_rules.specs.Machine.{outcome_of};
ghost use Rattle.book_rules.specs.Times.{IsInTime};
ghost use Rattle.book_core.specs.Books.{Keeps, counts_of};

use crate::counts::Counts;
use crate::current::{Current, take};
use crate::sizes::size;
use crate::stated::check_stated;
use book_rules::{Entry, Event, Limits, Reply};
use good_tables::laws::good_tables_stay_good;
use keeper_core::{Keeper, Tables};
use std::alloc::Global;
use std::marker::Model;
use std::snapshot::Snapshot;

/// Why an event was not taken.
#[derive(Clone, Copy, Debug, PartialEq, Eq)]
pub enum StepFault {
    /// The history is full: it has this many entries, and its events' texts this many bytes.
    SessionFull { entries: u32, bytes: u64 },
    /// Memory is wanting.
    Memory,
}

/// The tables over a keeper, and the history that made them of the opening tables. A contract sees the keeper, what no
/// event changes, and the history: these fix all the rest.
pub struct Book<K: Keeper> {
    pub(crate) keeper: K,
    pub(crate) started: Snapshot<K>,
    pub(crate) opening: Tables,
    pub(crate) current: Current,
    pub(crate) history: Vec<Entry>,
    pub(crate) bytes: u64,
    pub(crate) limits: Limits,
    pub(crate) counts: Counts,
}

// Written by hand, so that a crate that lets a book go sees one call.
impl<K: Keeper + Drop> Drop for Book<K> {
    fn drop(self) {
        let Book {
            keeper: _,
            started: _,
            opening: _,
            current: _,
            history: _,
            bytes: _,
            limits: _,
            counts: _,
        } = self;
    }
}

impl<K: Keeper> Model for Book<K> {
    ghost use Rattle.std.specs.Vec.{vec_capacity};
    ghost use Rattle.book_core.specs.Books.{BookFacts, IsBook};

    ghost Value = { BookFacts K };

    ghost view = { λ b. record { keeper = b.keeper; base = record { opening = b.opening.lists; limits = b.limits; start = K.facts b.started.value }; history = b.history.items } };

    ghost invariant = { λ b. IsBook (record { opening = b.opening.lists; limits = b.limits; start = K.facts b.started.value }) b.history.items (K.facts b.keeper) b.current (vec_capacity b.history) b.bytes b.counts };
}

impl<K: Keeper> Book<K> {
    /// Takes an event of a seat: answers the reply, and adds one entry to the history.
    pub fn step(&mut self, alloc: Global, seat: u32, event: Event) -> Result<Reply, StepFault>
        ensures base { self.new.base ≡ self.old.base }

        // One entry is added, of this seat and event, and the reply is the machine's at its place.
        ensures taken { IfOk result (λ r. (entry : Entry) × (self.new.history ≡ self.old.history ++ entry ∷ []) × (entry.seat ≡ seat) × (entry.event ≡ event) × Answers self.old.base self.old.history entry r) }

        // Store is replied only where the keeper failed in this step.
        ensures store { IfOk result (λ r. r ≡ Reply.Store → Rose (K.facts self.old.keeper).faults (K.facts self.new.keeper).faults) }

        // A request happens before the year 2100, whatever moment it was told.
        ensures time { IfOk result IsInTime }

        // A refusal adds none.
        ensures err { OnErr result (self.new.history ≡ self.old.history) }

        // SessionFull comes exactly where the event would pass a limit, with the history's numbers as they stand.
        ensures room { OnOk result (is_full self.old.base.limits self.old.history event ≡ false) }
        ensures full { IfErr result (λ e. e ≢ StepFault.Memory → (is_full self.old.base.limits self.old.history event ≡ true)
            × (e ≡ StepFault.SessionFull (length self.old.history) (total_size self.old.history))) }

        // Memory runs out only where a definition or a policy is shared, a row is written, or a flush is noted: not where a keeper
        // rewrites a join in its place.
        ensures memory { IsErrOf result StepFault.Memory → wants_memory K.IN_PLACE event (outcome_of (state_after self.old.base.opening self.old.history) (length self.old.history) event) ≡ true }
    {
        let size = size(&event);
        let entries = self.history.len() as u32;
        if entries >= self.limits.entries || size > (self.limits.bytes - self.bytes) as u128 {
            return Err(StepFault::SessionFull {
                entries,
                bytes: self.bytes,
            });
        }
        check_stated(&event);
        let taken = take(
            &mut self.current,
            &mut self.keeper,
            alloc,
            entries as u64,
            &event,
        );
        let Ok(taken) = taken else {
            return Err(StepFault::Memory);
        };
        self.counts = self.counts.with(&event, &taken.reply, taken.kept);
        self.bytes += size as u64;
        self.history
            .push(Entry {
                seat,
                event,
                kept: taken.kept,
            })
            .unwrap();
        Ok(taken.reply)
    }

    /// The entries so far, in order.
    pub fn history(&self) -> &[Entry]
        ensures { result.now ≡ self.now.history }
    {
        self.history.as_slice()
    }

    /// The tables as they stand.
    pub fn tables(&self) -> &Tables
        ensures { result.now.lists ≡ tables_after self.now.base.opening self.now.history }
    {
        &self.current.tables
    }

    /// The tables as they were loaded.
    pub fn opening(&self) -> &Tables
        ensures lists { result.now.lists ≡ self.now.base.opening }
        ensures good { bad_row self.now.base.opening ≡ None }
    {
        &self.opening
    }

    /// How often the session was called, how its calls for admission were replied, and how many changes were not kept.
    pub fn counts(&self) -> Counts
        ensures { result ≡ counts_of self.now.base.opening self.now.history }
    {
        self.counts
    }

    /// Gives back the keeper, the tables and the history, without memory.
    pub fn close(self) -> (K, Tables, Vec<Entry>)
        ensures keeper { result.0 ≡ self.keeper }
        ensures keeps { Keeps self.base self.history (K.facts result.0) }
        ensures tables { result.1.lists ≡ tables_after self.base.opening self.history }

        // Another book may start from the tables: none of their rows is bad.
        ensures good { bad_row (tables_after self.base.opening self.history) ≡ None }
        ensures history { result.2.items ≡ self.history }
    {
        good_tables_stay_good();
        let Book {
            keeper,
            started: _,
            opening: _,
            current,
            history,
            bytes: _,
            limits: _,
            counts: _,
        } = self;
        (keeper, current.tables, history)
    }
}
