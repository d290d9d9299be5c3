// Whether the table `meta` says that the store is of this version.
ghost use Rattle.std.specs.Prelude.{◌≡◌, false, IfErr};
ghost use Rattle.keeper_core.specs.declared.table.Table.TheVariants.{Meta as metas};
ghost use Rattle.keeper_sqlite.specs.Answers.{IsOfTable};
ghost use Rattle.keeper_sqlite.specs.Version.{IsOfMeta, IsOther, first_other as first_other_of};

use crate::database::load_table;
use crate::fault::StartFault;
use keeper_core::{LoadFault, MetaRow, Table, Tables};
use sqlite::{Alter, Connection};
use std::alloc::Global;

/// The version of the layout of the file.
const VERSION: u64 = 1;

// The number of the first row that is not the one row of this version.
fn first_other(rows: &[MetaRow]) -> Option<u64>
    ensures { result ≡ first_other_of rows.now }
{
    match rows.first() {
        None => None,
        Some(row) if row.id != 0 || row.version != VERSION => Some(0),
        Some(_) if rows.len() > 1 => Some(1),
        Some(_) => None,
    }
}

fn fault_of(fault: LoadFault) -> StartFault
    ensures { IsOfTable metas fault → IsOfMeta result }
{
    match fault {
        LoadFault::BadRow(table, row) => StartFault::BadStore(table, row),
        LoadFault::Failed => StartFault::StoreFault,
        LoadFault::Memory => StartFault::Memory,
    }
}

fn test_rows(rows: &[MetaRow]) -> Result<(), StartFault>
    ensures { IfErr result (IsOther rows.now) }
{
    if rows.is_empty() {
        return Err(StartFault::StoreFault);
    }
    match first_other(rows) {
        Some(row) => Err(StartFault::BadStore(Table::Meta, row)),
        None => Ok(()),
    }
}

/// Tests that the file has the one row of this version.
pub(crate) fn test_version<S: Alter>(
    alloc: Global,
    conn: &mut Connection<S>,
) -> Result<(), StartFault>
    requires { conn.old.in_transaction ≡ false }
    ensures closed { conn.new.in_transaction ≡ false }
    ensures err { IfErr result IsOfMeta }
{
    let mut tables = Tables::new(alloc);
    match load_table(conn, Table::Meta, &mut tables) {
        Ok(()) => test_rows(tables.metas()),
        Err(fault) => Err(fault_of(fault)),
    }
}
