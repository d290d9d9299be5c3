// The tables in memory.
ghost use Rattle.std.specs.Prelude.{◌≡◌, ◌+◌, ◌-◌, ◌<◌, ◌≤◌, length, slice_set, IfOk, IsOk, IsSome, OnOk, OnErr, if◌then◌else◌};
ghost use Rattle.std.specs.Vec.{vec_capacity};
ghost use Rattle.keeper_core.specs.Held.{room_in, is_in};
ghost use Rattle.keeper_core.specs.Joins.{join_at, with_numbers};
ghost use Rattle.keeper_core.specs.Lists.{AreInOrder, no_rows, join_row, put as put_of, rows_in, table_of};
ghost use Rattle.keeper_core.specs.declared.rows.Row.TheVariants.{Join as join};
ghost use Rattle.keeper_core.specs.declared.table.Table.{Table as TableName};

mod finds;

use crate::copies::copy_rows;
use crate::numbers::JoinNumbers;
use crate::puts;
use crate::rows::{ApiRow, DeploymentRow, JoinRow, KeyRow, MetaRow, PlanRow, Row, StageRow};
use crate::table::Table;
use gw_base::Memory;
use std::alloc::Global;
use std::marker::Model;

/// The seven tables in memory, the rows of each in the order of their keys.
///
/// A contract sees the lists of rows, and how many rows more each table takes without memory.
pub struct Tables {
    metas: Vec<MetaRow>,
    apis: Vec<ApiRow>,
    deployments: Vec<DeploymentRow>,
    stages: Vec<StageRow>,
    keys: Vec<KeyRow>,
    plans: Vec<PlanRow>,
    joins: Vec<JoinRow>,
}

// Written by hand, so that what holds tables sees one call.
impl Drop for Tables {
    fn drop(self) {
        let Tables {
            metas: _,
            apis: _,
            deployments: _,
            stages: _,
            keys: _,
            plans: _,
            joins: _,
        } = self;
    }
}

impl Model for Tables {
    ghost use Rattle.std.specs.Prelude.{◌-◌, length};
    ghost use Rattle.std.specs.Vec.{vec_capacity};
    ghost use Rattle.keeper_core.specs.Held.{Held};
    ghost use Rattle.keeper_core.specs.Lists.{AreInOrder};

    ghost Value = { Held };

    ghost view = { λ t. record {
      lists = record { metas = t.metas.items; apis = t.apis.items; deployments = t.deployments.items; stages = t.stages.items; keys = t.keys.items; plans = t.plans.items; joins = t.joins.items };
      room = record { metas = vec_capacity t.metas - length t.metas.items; apis = vec_capacity t.apis - length t.apis.items; deployments = vec_capacity t.deployments - length t.deployments.items; stages = vec_capacity t.stages - length t.stages.items; keys = vec_capacity t.keys - length t.keys.items; plans = vec_capacity t.plans - length t.plans.items; joins = vec_capacity t.joins - length t.joins.items };
    } };

    ghost invariant = { λ t. AreInOrder (record { metas = t.metas.items; apis = t.apis.items; deployments = t.deployments.items; stages = t.stages.items; keys = t.keys.items; plans = t.plans.items; joins = t.joins.items }) };
}

fn reserve_rows<T>(rows: &mut Vec<T>, more: usize) -> Result<(), Memory>
    ensures rows { rows.new.items ≡ rows.old.items }
    ensures ok { OnOk result (more ≤ vec_capacity rows.new - length rows.new.items) }
    ensures succeeds { more ≤ vec_capacity rows.old - length rows.old.items → IsOk result }
    ensures room { vec_capacity rows.old - length rows.old.items ≤ vec_capacity rows.new - length rows.new.items }
{
    rows.reserve(more)?;
    Ok(())
}

impl Tables {
    /// No rows, without memory.
    pub fn new(alloc: Global) -> Self
        ensures { result.lists ≡ no_rows }
    {
        Tables {
            metas: Vec::new(alloc),
            apis: Vec::new(alloc),
            deployments: Vec::new(alloc),
            stages: Vec::new(alloc),
            keys: Vec::new(alloc),
            plans: Vec::new(alloc),
            joins: Vec::new(alloc),
        }
    }

    /// Puts a row in its table: before the first of a greater key, or in the place of the row of its key. Rows that are
    /// put in any order come to stand in the order of their keys.
    ///
    /// It takes memory only where its table has no room.
    pub fn put(&mut self, row: Row) -> Result<(), Memory>
        ensures ok { OnOk result (self.new.lists ≡ put_of row self.old.lists) }
        ensures err { OnErr result (self.new.lists ≡ self.old.lists) }
        ensures succeeds { 1 ≤ room_in (table_of row) self.old.room → IsOk result }
        ensures room { (table : TableName) → room_in table self.old.room ≤ room_in table self.new.room + (if is_in table row then 1 else 0) }
    {
        match row {
            Row::Meta(row) => puts::put_meta(&mut self.metas, row),
            Row::Api(row) => puts::put_api(&mut self.apis, row),
            Row::Deployment(row) => puts::put_deployment(&mut self.deployments, row),
            Row::Stage(row) => puts::put_stage(&mut self.stages, row),
            Row::Key(row) => puts::put_key(&mut self.keys, row),
            Row::Plan(row) => puts::put_plan(&mut self.plans, row),
            Row::Join(row) => puts::put_join(&mut self.joins, row),
        }
    }

    /// Puts a join row in the place of the row of its key, without memory.
    pub fn rewrite(&mut self, row: &JoinRow)
        requires { IsSome (join_row self.old.lists row.now.plan row.now.key) }
        ensures lists { self.new.lists ≡ put_of (join row.now) self.old.lists }
        ensures room { self.new.room ≡ self.old.room }
    {
        puts::rewrite_join(&mut self.joins, row);
    }

    /// Replaces the numbers of the join at this place, counted from 0 in the order of the keys, without memory.
    pub fn write_join(&mut self, at: usize, numbers: JoinNumbers)
        requires inside { at < length self.old.lists.joins }
        ensures put { self.new.lists ≡ put_of (join (with_numbers (join_at self.old.lists at) numbers)) self.old.lists }
        ensures joins { self.new.lists ≡ record self.old.lists { joins = slice_set self.old.lists.joins at (with_numbers (join_at self.old.lists at) numbers) } }
        ensures room { self.new.room ≡ self.old.room }
    {
        puts::write_join(&mut self.joins, at, numbers);
    }

    /// Makes room for so many rows more in a table. It takes memory only where that room is not there. No table loses
    /// room, whatever the answer.
    pub fn reserve(&mut self, table: Table, more: usize) -> Result<(), Memory>
        ensures rows { self.new.lists ≡ self.old.lists }
        ensures ok { OnOk result (more ≤ room_in table self.new.room) }
        ensures succeeds { more ≤ room_in table self.old.room → IsOk result }
        ensures room { (any : TableName) → room_in any self.old.room ≤ room_in any self.new.room }
    {
        match table {
            Table::Meta => reserve_rows(&mut self.metas, more),
            Table::Apis => reserve_rows(&mut self.apis, more),
            Table::Deployments => reserve_rows(&mut self.deployments, more),
            Table::Stages => reserve_rows(&mut self.stages, more),
            Table::Keys => reserve_rows(&mut self.keys, more),
            Table::Plans => reserve_rows(&mut self.plans, more),
            Table::Joins => reserve_rows(&mut self.joins, more),
        }
    }

    /// The rows of each table are in the order of their keys. Nothing is done.
    pub fn are_in_order(&self)
        ensures { AreInOrder self.now.lists }
    {
        let _rows = &self.metas;
    }

    /// How many rows a table has.
    pub fn count(&self, table: Table) -> u64
        ensures { result ≡ rows_in table self.now.lists }
    {
        let rows = match table {
            Table::Meta => self.metas.len(),
            Table::Apis => self.apis.len(),
            Table::Deployments => self.deployments.len(),
            Table::Stages => self.stages.len(),
            Table::Keys => self.keys.len(),
            Table::Plans => self.plans.len(),
            Table::Joins => self.joins.len(),
        };
        rows as u64
    }

    /// The same tables once more.
    pub fn copy(&self, alloc: Global) -> Result<Tables, Memory>
        ensures { IfOk result (λ tables. tables.lists ≡ self.now.lists) }
    {
        Ok(Tables {
            metas: copy_rows(alloc, &self.metas)?,
            apis: copy_rows(alloc, &self.apis)?,
            deployments: copy_rows(alloc, &self.deployments)?,
            stages: copy_rows(alloc, &self.stages)?,
            keys: copy_rows(alloc, &self.keys)?,
            plans: copy_rows(alloc, &self.plans)?,
            joins: copy_rows(alloc, &self.joins)?,
        })
    }
}
