// The rows of an answer are put in the tables.
ghost use Rattle.std.specs.Prelude.{◌≡◌, OnOk, IfErr};
ghost use Rattle.keeper_core.specs.Lists.{put};
ghost use Rattle.keeper_core.specs.declared.rows.Row.{Row as AnyRow};
ghost use Rattle.keeper_sqlite.specs.Answers.{IsRowOf, IsPut, IsUnfit, HasUnfit};

use crate::reading::{Unread, row_of};
use keeper_core::{LoadFault, Table, Tables};

fn put_values(
    tables: &mut Tables,
    table: Table,
    number: u64,
    values: &sqlite::Row,
) -> Result<(), LoadFault>
    ensures ok { OnOk result ((row : AnyRow) × IsRowOf table values.now row × (tables.new.lists ≡ put row tables.old.lists)) }
    ensures bad { IfErr result (IsUnfit table number values.now) }
{
    match row_of(table, values) {
        Ok(row) => Ok(tables.put(row)?),
        Err(Unread::Unfit) => Err(LoadFault::BadRow(table, number)),
        Err(Unread::Memory) => Err(LoadFault::Memory),
    }
}

/// Puts the rows of an answer in the tables, the first one first, up to the first that can be no row of this table.
pub(crate) fn put_answer(
    tables: &mut Tables,
    table: Table,
    answer: &[sqlite::Row],
) -> Result<(), LoadFault>
    ensures ok { OnOk result (IsPut table answer.now tables.old.lists tables.new.lists) }
    ensures bad { IfErr result (HasUnfit table answer.now) }
{
    let mut number: u64 = 0;
    for values in answer {
        put_values(tables, table, number, values)?;
        number += 1;
    }
    Ok(())
}
