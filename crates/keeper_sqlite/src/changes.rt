// Rows that are written in one transaction, and changes that are undone.
ghost use Rattle.std.specs.Prelude.{◌≡◌, ◌++◌, ◌∷◌, [], false, true, map, All, IfOk, OnOk, IsTrue, List};
ghost use Rattle.sqlite.specs.Held.{state};
ghost use Rattle.sqlite.specs.State.{HasCleanDisk, IsUnchanged, Shown};
ghost use Rattle.sqlite.specs.Values.{bound};
ghost use Rattle.sqlite_value.specs.Value.{owned};
ghost use Rattle.sqlite_value.specs.declared.value.Value.{Value};
ghost use Rattle.keeper_core.specs.Lists.{table_of};
ghost use Rattle.keeper_sqlite.specs.Columns.{columns, key_values, can_be_written};
ghost use Rattle.keeper_sqlite.specs.Steps.{IsInside, IsCommit, Ran, IsWritten, AreWritten, AreUndone, IsOneStep};
ghost use Rattle.keeper_sqlite.specs.Texts.{find_text};
ghost use Rattle.keeper_sqlite.specs.Undos.{UndoesBy, undo_text, undo_values};

use crate::fault::keep_fault;
use crate::statements::{ANY_TABLE, delete_from, find_in, upsert_into};
use crate::undo::{Undo, undo_of};
use crate::writing::{can_be_written as can_be_written_in, key_of, values_of};
use gw_base::Memory;
use keeper_core::{KeepFault, Row, Table};
use sqlite::types::ValueRef;
use sqlite::{Alter, Connection, Transaction};
use std::alloc::Global;

fn run<S: Alter>(
    change: &mut Transaction<'_, S>,
    text: &str,
    values: &[ValueRef<'_>],
) -> Result<(), KeepFault>
    ensures same_reference { change.new.conn.ghost_name ≡ change.old.conn.ghost_name }
    ensures inside { IsInside (state S.Store change.old.conn.now) (state S.Store change.new.conn.now) }
    ensures ran { HasCleanDisk (state S.Store change.new.conn.now) → OnOk result (Ran S.Store text.now (bound values.now) change.old.conn.now change.new.conn.now) }
{
    match change.execute(text, values) {
        Ok(_) => Ok(()),
        Err(error) => Err(keep_fault(error)),
    }
}

// The rows that have this key: one or none, since it is the key.
fn find<S: Alter>(
    change: &mut Transaction<'_, S>,
    table: Table,
    key: &[ValueRef<'_>],
) -> Result<Vec<sqlite::Row>, KeepFault>
    requires { HasCleanDisk (state S.Store change.old.conn.now) → IsTrue change.old.conn.now.in_transaction }
    ensures same_reference { change.new.conn.ghost_name ≡ change.old.conn.ghost_name }
    ensures inside { IsInside (state S.Store change.old.conn.now) (state S.Store change.new.conn.now) }
    ensures found { HasCleanDisk (state S.Store change.new.conn.now) → IfOk result (λ rows. Shown (find_text table) (bound key.now) (state S.Store change.old.conn.now) (state S.Store change.new.conn.now) rows.items) }
{
    match change.query_all(find_in(table), key) {
        Ok(rows) => Ok(rows),
        Err(error) => Err(keep_fault(error)),
    }
}

// Reads what undoes the change of the row that has these values.
fn read_undo<S: Alter>(
    alloc: Global,
    change: &mut Transaction<'_, S>,
    row: &Row,
    values: &[ValueRef<'_>],
) -> Result<Undo, KeepFault>
    requires inside { HasCleanDisk (state S.Store change.old.conn.now) → IsTrue change.old.conn.now.in_transaction }
    requires values { map owned values.now ≡ columns row.now }
    ensures same_reference { change.new.conn.ghost_name ≡ change.old.conn.ghost_name }
    ensures inside { IsInside (state S.Store change.old.conn.now) (state S.Store change.new.conn.now) }
    ensures read { HasCleanDisk (state S.Store change.new.conn.now) → IfOk result (λ undo. (found : List (List Value))
        × Shown (find_text (table_of row.now)) (key_values row.now) (state S.Store change.old.conn.now) (state S.Store change.new.conn.now) found × UndoesBy row.now found undo) }
{
    let found = find(change, row.table(), key_of(row, values))?;
    undo_of(alloc, row, &found)
}

fn write_row<S: Alter>(
    alloc: Global,
    change: &mut Transaction<'_, S>,
    row: &Row,
) -> Result<Undo, KeepFault>
    requires fits { can_be_written row.now ≡ true }
    requires inside { HasCleanDisk (state S.Store change.old.conn.now) → IsTrue change.old.conn.now.in_transaction }
    ensures same_reference { change.new.conn.ghost_name ≡ change.old.conn.ghost_name }
    ensures inside { IsInside (state S.Store change.old.conn.now) (state S.Store change.new.conn.now) }
    ensures written { HasCleanDisk (state S.Store change.new.conn.now) → IfOk result (λ undo. IsWritten S.Store row.now undo change.old.conn.now change.new.conn.now) }
    ensures still { HasCleanDisk (state S.Store change.new.conn.now) → OnOk result (IsTrue change.new.conn.now.in_transaction) }
{
    let values = values_of(alloc, row)?;
    let undo = read_undo(alloc, change, row, &values)?;
    run(change, upsert_into(row.table()), &values)?;
    Ok(undo)
}

fn hold(undos: &mut Vec<Undo>, undo: Undo) -> Result<(), Memory>
    ensures { OnOk result (undos.new.items ≡ undos.old.items ++ undo ∷ []) }
{
    undos.push(undo)?;
    Ok(())
}

fn write_each<S: Alter>(
    alloc: Global,
    change: &mut Transaction<'_, S>,
    rows: &[Row],
    undos: &mut Vec<Undo>,
) -> Result<(), KeepFault>
    requires fit { All (λ row. can_be_written row ≡ true) rows.now }
    requires inside { HasCleanDisk (state S.Store change.old.conn.now) → IsTrue change.old.conn.now.in_transaction }
    requires none { undos.old.items ≡ [] }
    ensures same_reference { change.new.conn.ghost_name ≡ change.old.conn.ghost_name }
    ensures inside { IsInside (state S.Store change.old.conn.now) (state S.Store change.new.conn.now) }
    ensures written { HasCleanDisk (state S.Store change.new.conn.now) → OnOk result (AreWritten S.Store rows.now undos.new.items change.old.conn.now change.new.conn.now) }
{
    for row in rows {
        let undo = write_row(alloc, change, row)?;
        hold(undos, undo)?;
    }
    Ok(())
}

fn finish<S: Alter>(change: Transaction<'_, S>) -> Result<(), KeepFault>
    ensures closed { change.exit.0.now.in_transaction ≡ false }
    ensures commits { IsCommit (state S.Store change.entry.conn.now) (state S.Store change.exit.0.now) result }
{
    match change.commit() {
        Ok(()) => Ok(()),
        Err(error) => Err(keep_fault(error)),
    }
}

/// Writes the rows, the first one first, in one transaction. Where it is refused, `undos` may be those of the first rows alone.
pub(crate) fn write_rows<S: Alter>(
    alloc: Global,
    conn: &mut Connection<S>,
    rows: &[Row],
    undos: &mut Vec<Undo>,
) -> Result<(), KeepFault>
    requires closed { conn.old.in_transaction ≡ false }
    requires fit { All (λ row. can_be_written row ≡ true) rows.now }
    requires none { undos.old.items ≡ [] }
    ensures closed { conn.new.in_transaction ≡ false }
    ensures step { IsOneStep S.Store (AreWritten S.Store rows.now undos.new.items) conn.old conn.new result }
{
    let mut change = conn.transaction();
    write_each(alloc, &mut change, rows, undos)?;
    finish(change)
}

fn undo<S: Alter>(
    alloc: Global,
    change: &mut Transaction<'_, S>,
    undo: &Undo,
) -> Result<(), KeepFault>
    ensures same_reference { change.new.conn.ghost_name ≡ change.old.conn.ghost_name }
    ensures inside { IsInside (state S.Store change.old.conn.now) (state S.Store change.new.conn.now) }
    ensures ran { HasCleanDisk (state S.Store change.new.conn.now) → OnOk result (Ran S.Store (undo_text undo.now) (undo_values undo.now) change.old.conn.now change.new.conn.now) }
{
    match undo {
        Undo::Restore(row) => {
            let values = checked_values(alloc, row)?;
            run(change, upsert_into(row.table()), &values)
        }
        Undo::Remove(row) => {
            let values = checked_values(alloc, row)?;
            run(change, delete_from(row.table()), key_of(row, &values))
        }
    }
}

// A row that was read or written has numbers that can be written.
fn checked_values(alloc: Global, row: &Row) -> Result<Vec<ValueRef<'_>>, KeepFault>
    ensures { IfOk result (λ values. map owned values.items ≡ columns row.now) }
{
    if !can_be_written_in(row) {
        return Err(KeepFault::Failed);
    }
    Ok(values_of(alloc, row)?)
}

fn undo_each<S: Alter>(
    alloc: Global,
    change: &mut Transaction<'_, S>,
    undos: &[Undo],
) -> Result<(), KeepFault>
    ensures same_reference { change.new.conn.ghost_name ≡ change.old.conn.ghost_name }
    ensures inside { IsInside (state S.Store change.old.conn.now) (state S.Store change.new.conn.now) }
    ensures undone { HasCleanDisk (state S.Store change.new.conn.now) → OnOk result (AreUndone S.Store undos.now change.old.conn.now change.new.conn.now) }
{
    for it in undos {
        undo(alloc, change, it)?;
    }
    Ok(())
}

/// Undoes changes, the first one first, in one transaction.
pub(crate) fn undo_all<S: Alter>(
    alloc: Global,
    conn: &mut Connection<S>,
    undos: &[Undo],
) -> Result<(), KeepFault>
    requires { conn.old.in_transaction ≡ false }
    ensures closed { conn.new.in_transaction ≡ false }
    ensures step { IsOneStep S.Store (AreUndone S.Store undos.now) conn.old conn.new result }
{
    let mut change = conn.transaction();
    undo_each(alloc, &mut change, undos)?;
    finish(change)
}

/// Whether the connection is still open. It may answer no where memory runs out.
pub(crate) fn is_open<S: Alter>(conn: &mut Connection<S>) -> bool
    requires { conn.old.in_transaction ≡ false }
    ensures closed { conn.new.in_transaction ≡ false }
    ensures inside { IsInside (state S.Store conn.old) (state S.Store conn.new) }
    ensures open { HasCleanDisk (state S.Store conn.new) → IsTrue result → IsUnchanged (state S.Store conn.old) (state S.Store conn.new) }
{
    conn.prepare(ANY_TABLE).is_ok()
}
