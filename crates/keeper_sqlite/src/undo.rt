// What undoes the change of a row.
ghost use Rattle.std.specs.Prelude.{◌≡◌, IfOk};
ghost use Rattle.keeper_sqlite.specs.Undos.{UndoesBy};

use crate::reading::{Unread, row_of};
use keeper_core::{KeepFault, Row};
use std::alloc::Global;

/// What undoes the change of a row.
#[derive(Drop)]
pub enum Undo {
    /// This earlier row of the key is written back.
    Restore(Row),
    /// There was no row of the key: the row of this one's key is deleted.
    Remove(Row),
}

/// What undoes a change of this row, where the rows that have its key are these.
pub(crate) fn undo_of(alloc: Global, row: &Row, found: &[sqlite::Row]) -> Result<Undo, KeepFault>
    ensures { IfOk result (UndoesBy row.now found.now) }
{
    match found.first() {
        None => Ok(Undo::Remove(row.copy(alloc)?)),
        Some(values) => match row_of(row.table(), values) {
            Ok(earlier) => Ok(Undo::Restore(earlier)),
            Err(Unread::Unfit) => Err(KeepFault::Failed),
            Err(Unread::Memory) => Err(KeepFault::Memory),
        },
    }
}
