// How a book starts over a keeper.
ghost use Rattle.std.specs.Prelude.{◌≡◌, ◌≤◌, [], IfOk, IfErr};
ghost use Rattle.std.specs.Vec.{vec_capacity};
ghost use Rattle.book_rules.specs.Machine.{latest_of as latest_of_rows, opened};
ghost use Rattle.policy_memory.specs.Kept.{Remembers};
ghost use Rattle.book_core.specs.Standing.{standing};
ghost use Rattle.book_core.specs.Starts.{HasStarted, StartFails, FailsAt, is_failed_start, fault_of as fault_of_load};

use crate::book::Book;
use crate::counts::Counts;
use crate::current::Current;
use book_opening::{OpenFault, Ready, open};
use book_rules::{Entry, Limits};
use gw_base::Memory;
use keeper_core::{JoinRow, Keeper, LoadFault, Table, Tables};
use policy_memory::PolicyMemory;
use std::alloc::Global;
use std::snapshot::Snapshot;

/// Why a book did not start.
#[derive(Clone, Copy, Debug, PartialEq, Eq)]
pub enum StartFault {
    /// This row of this table, by its key and counted from 0, is none that a book starts from.
    BadStore(Table, u64),
    /// The keeper failed.
    StoreFault,
    /// Memory is wanting.
    Memory,
}

// What the load's fault is to a book.
fn fault_of(fault: LoadFault) -> StartFault
    ensures { result ≡ fault_of_load fault }
{
    match fault {
        LoadFault::BadRow(table, row) => StartFault::BadStore(table, row),
        LoadFault::Failed => StartFault::StoreFault,
        LoadFault::Memory => StartFault::Memory,
    }
}

// The greatest moment of the rows.
fn latest_of(rows: &[JoinRow]) -> u64
    ensures { result ≡ latest_of_rows rows.now }
{
    let mut latest = 0;
    for row in rows {
        latest = row.at.max(latest);
    }
    latest
}

impl<K: Keeper> Book<K> {
    /// A book over a keeper, whose tables it loads, tests and reads. Room for the whole history is reserved here.
    ///
    /// # Errors
    ///
    /// Hands the keeper back. [`StartFault::BadStore`] names the first row that is refused, [`StartFault::StoreFault`] comes
    /// only where the keeper counted a load's fault, and [`StartFault::Memory`] where there is no memory.
    pub fn start(alloc: Global, keeper: K, limits: Limits) -> Result<Self, (K, StartFault)>
        requires nothing_staged { (K.facts keeper).staged ≡ [] }
        ensures started { IfOk result (λ book. HasStarted (K.facts keeper) limits book.base book.history (K.facts book.keeper)) }
        ensures failed { IfErr result (λ e. StartFails (K.facts keeper) e.1 (K.facts e.0)) }
        ensures tables { IfErr result (λ e. (K.facts e.0).tables ≡ (K.facts keeper).tables) }
        ensures staged { IfErr result (λ e. (K.facts e.0).staged ≡ []) }

        // StoreFault comes exactly where the load is told to fail, where the keeper tells it.
        ensures planned { FailsAt (K.facts keeper).planned (is_failed_start result) }
    {
        let mut keeper = keeper;
        let opening = match keeper.load(alloc) {
            Ok(tables) => tables,
            Err(fault) => return Err((keeper, fault_of(fault))),
        };
        let ready = match open(alloc, &opening) {
            Ok(ready) => ready,
            Err(OpenFault::BadRow(table, row)) => {
                return Err((keeper, StartFault::BadStore(table, row)));
            }
            Err(OpenFault::Memory) => return Err((keeper, StartFault::Memory)),
        };
        opening.are_in_order();
        match stand(alloc, &opening, ready, limits) {
            Ok((current, history)) => {
                let started = Snapshot::of(&keeper);
                Ok(Book {
                    keeper,
                    started,
                    opening,
                    current,
                    history,
                    bytes: 0,
                    limits,
                    counts: Counts::none(),
                })
            }
            Err(Memory) => Err((keeper, StartFault::Memory)),
        }
    }
}

// What stands before the first entry, and room for all entries.
fn stand(
    alloc: Global,
    opening: &Tables,
    ready: Ready,
    limits: Limits,
) -> Result<(Current, Vec<Entry>), Memory>
    ensures stands { IfOk result (λ r. standing [] r.0 ≡ opened opening.now.lists) }
    ensures remembers { IfOk result (λ r. Remembers [] 0 r.0.policies) }
    ensures ready { IfOk result (λ r. r.0.ready ≡ ready) }
    ensures empty { IfOk result (λ r. r.1.items ≡ []) }
    ensures room { IfOk result (λ r. limits.entries ≤ vec_capacity r.1) }
{
    let current = Current {
        tables: opening.copy(alloc)?,
        ready,
        latest: latest_of(opening.joins()),
        closing: false,
        policies: PolicyMemory::start(alloc)?,
    };
    let history = Vec::with_capacity(alloc, limits.entries as usize)?;
    Ok((current, history))
}
