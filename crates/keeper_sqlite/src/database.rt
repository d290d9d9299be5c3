// What is done with the file: each function one transaction, or one question.
ghost use Rattle.std.specs.Prelude.{◌≡◌, false, IfOk, IfErr};
ghost use Rattle.keeper_sqlite.specs.Answers.{IsOfTable};
ghost use Rattle.keeper_sqlite.specs.Version.{IsOfMeta};

use crate::fault::{StartFault, load_fault, start_fault};
use crate::loading::put_answer;
use crate::statements::{ANY_TABLE, SCHEMA, TABLES, rows_of};
use keeper_core::{LoadFault, Table, Tables};
use sqlite::{Alter, Connection, Error};
use std::alloc::Global;

/// Whether the file has no table yet.
pub(crate) fn is_new<S: Alter>(conn: &mut Connection<S>) -> Result<bool, StartFault>
    requires { conn.old.in_transaction ≡ false }
    ensures closed { conn.new.in_transaction ≡ false }
    ensures err { IfErr result IsOfMeta }
{
    match conn.query_all(ANY_TABLE, &[]) {
        Ok(names) => Ok(names.is_empty()),
        Err(error) => Err(start_fault(error)),
    }
}

fn run_schema<S: Alter>(conn: &mut Connection<S>) -> Result<(), Error>
    requires { conn.old.in_transaction ≡ false }
    ensures { conn.new.in_transaction ≡ false }
{
    let mut change = conn.transaction();
    change.execute_batch(SCHEMA)?;
    change.commit()
}

/// Makes the tables and the row of `meta`.
pub(crate) fn make_tables<S: Alter>(conn: &mut Connection<S>) -> Result<(), StartFault>
    requires { conn.old.in_transaction ≡ false }
    ensures closed { conn.new.in_transaction ≡ false }
    ensures err { IfErr result IsOfMeta }
{
    match run_schema(conn) {
        Ok(()) => Ok(()),
        Err(error) => Err(start_fault(error)),
    }
}

fn answer_of<S: Alter>(
    conn: &mut Connection<S>,
    table: Table,
) -> Result<Vec<sqlite::Row>, LoadFault>
    requires { conn.old.in_transaction ≡ false }
    ensures closed { conn.new.in_transaction ≡ false }
    ensures err { IfErr result (IsOfTable table) }
{
    match conn.query_all(rows_of(table), &[]) {
        Ok(answer) => Ok(answer),
        Err(error) => Err(load_fault(error)),
    }
}

/// The rows of the table, in the order of their keys.
pub(crate) fn load_table<S: Alter>(
    conn: &mut Connection<S>,
    table: Table,
    tables: &mut Tables,
) -> Result<(), LoadFault>
    requires { conn.old.in_transaction ≡ false }
    ensures closed { conn.new.in_transaction ≡ false }
    ensures err { IfErr result (IsOfTable table) }
{
    let answer = answer_of(conn, table)?;
    put_answer(tables, table, &answer)
}

/// The rows of all tables.
pub(crate) fn load_tables<S: Alter>(
    alloc: Global,
    conn: &mut Connection<S>,
) -> Result<Tables, LoadFault>
    requires { conn.old.in_transaction ≡ false }
    ensures { conn.new.in_transaction ≡ false }
{
    let mut tables = Tables::new(alloc);
    for table in TABLES {
        load_table(conn, table, &mut tables)?;
    }
    Ok(tables)
}
