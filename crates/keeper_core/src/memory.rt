// A keeper in memory, whose numbered calls fail.
ghost use Rattle.std.specs.Prelude.{◌≡◌, ◌++◌, ◌∷◌, [], ◌≤◌, true, length, count_by, IfOk, OnOk};
ghost use Rattle.gw_base.specs.Feed.{raised, is_listed as is_listed_in};
ghost use Rattle.keeper_core.specs.Held.{is_in};
ghost use Rattle.keeper_core.specs.Keeping.{HasRoomFor, told_by};
ghost use Rattle.keeper_core.specs.Lists.{put_all};

use crate::keeper::{KeepFault, Keeper, LoadFault};
use crate::rows::{JoinRow, Row};
use crate::table::Table;
use crate::tables::Tables;
use gw_base::Memory;
use std::alloc::Global;
use std::marker::Model;
use std::mem;

/// A keeper of tables in memory. The calls of the given numbers, counted from 0 over all four kinds of calls, fail, and no
/// others. A call that wants memory is not counted.
pub struct MemKeeper {
    tables: Tables,
    staged: Vec<Row>,
    fails: Vec<u32>,
    calls: u64,
    faults: u64,
    loads: u64,
}

// Written by hand, so that what holds a keeper sees one call.
impl Drop for MemKeeper {
    fn drop(self) {
        let MemKeeper {
            tables: _,
            staged: _,
            fails: _,
            calls: _,
            faults: _,
            loads: _,
        } = self;
    }
}

impl Model for MemKeeper {
    ghost use Rattle.keeper_core.specs.Keeping.{MemFacts, HasRoomFor};

    ghost Value = { MemFacts };

    ghost view = { λ k. record {
      lists = k.tables.lists;
      staged = k.staged.items;
      faults = k.faults;
      loads = k.loads;
      planned = record { fails = k.fails.items; calls = k.calls };
    } };

    // So a commit takes no memory.
    ghost invariant = { λ k. HasRoomFor k.staged.items k.tables.room };
}

fn is_listed(fails: &[u32], call: u64) -> bool
    ensures { result ≡ is_listed_in fails.now call }
{
    fails.iter().any(|n| *n as u64 == call)
}

fn raise(count: u64) -> u64
    ensures { result ≡ raised count }
{
    count.saturating_add(1)
}

fn count_in(rows: &[Row], table: Table) -> usize
    ensures value { result ≡ count_by (is_in table) rows.now }
    ensures bound { result ≤ length rows.now }
{
    rows.iter().filter(|row| row.is_in(table)).count()
}

// Room is made for the row in its table before it is staged.
fn stage(alloc: Global, tables: &mut Tables, staged: &mut Vec<Row>, row: &Row) -> Result<(), Memory>
    requires { HasRoomFor staged.old.items tables.old.room }
    ensures lists { tables.new.lists ≡ tables.old.lists }
    ensures ok { OnOk result (staged.new.items ≡ staged.old.items ++ row.now ∷ []) }
    ensures room { OnOk result (HasRoomFor staged.new.items tables.new.room) }
{
    let row = row.copy(alloc)?;
    let table = row.table();
    tables.reserve(table, count_in(staged, table) + 1)?;
    staged.push(row)?;
    Ok(())
}

fn put_rows(tables: &mut Tables, rows: Vec<Row>)
    requires { HasRoomFor rows.items tables.old.room }
    ensures { tables.new.lists ≡ put_all rows.items tables.old.lists }
{
    for row in rows {
        tables.put(row).unwrap();
    }
}

impl MemKeeper {
    /// A keeper of these tables, of which no call was made. It takes no memory.
    pub fn new(tables: Tables, fails: Vec<u32>) -> Self
        ensures { result ≡ record { lists = tables.lists; staged = []; faults = 0; loads = 0; planned = record { fails = fails.items; calls = 0 } } }
    {
        MemKeeper {
            tables,
            staged: Vec::new(*fails.allocator()),
            fails,
            calls: 0,
            faults: 0,
            loads: 0,
        }
    }

    /// The tables that are kept.
    pub fn tables(&self) -> &Tables
        ensures { result.now.lists ≡ self.now.lists }
    {
        &self.tables
    }
}

impl Keeper for MemKeeper {
    const IN_PLACE: bool = true;

    ghost IN_PLACE = { true };

    ghost facts = { told_by };

    fn load(&mut self, alloc: Global) -> Result<Tables, LoadFault> {
        if is_listed(&self.fails, self.calls) {
            self.calls = raise(self.calls);
            self.faults = raise(self.faults);
            self.loads = raise(self.loads);
            return Err(LoadFault::Failed);
        }
        let tables = self.tables.copy(alloc)?;
        self.calls = raise(self.calls);
        Ok(tables)
    }

    fn put_row(&mut self, alloc: Global, row: &Row) -> Result<(), KeepFault> {
        if is_listed(&self.fails, self.calls) {
            self.staged.clear();
            self.calls = raise(self.calls);
            self.faults = raise(self.faults);
            return Err(KeepFault::Failed);
        }
        if stage(alloc, &mut self.tables, &mut self.staged, row).is_err() {
            self.staged.clear();
            return Err(KeepFault::Memory);
        }
        self.calls = raise(self.calls);
        Ok(())
    }

    fn commit(&mut self, alloc: Global) -> Result<(), KeepFault> {
        let staged = mem::replace(&mut self.staged, Vec::new(alloc));
        let fails = is_listed(&self.fails, self.calls);
        self.calls = raise(self.calls);
        if fails {
            self.faults = raise(self.faults);
            return Err(KeepFault::Failed);
        }
        put_rows(&mut self.tables, staged);
        Ok(())
    }

    fn rewrite(&mut self, _alloc: Global, row: &JoinRow) -> Result<(), KeepFault> {
        let fails = is_listed(&self.fails, self.calls);
        self.calls = raise(self.calls);
        if fails {
            self.faults = raise(self.faults);
            return Err(KeepFault::Failed);
        }
        self.tables.rewrite(row);
        Ok(())
    }
}
