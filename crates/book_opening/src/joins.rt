// The table `joins`.
ghost use Rattle.std.specs.Prelude.{◌≡◌, ◌<◌, ◌&&◌, reverse, None, Some, IfOk, OnOk, IfErr};
ghost use Rattle.std.specs.Str.{bytes_eq};
ghost use Rattle.keeper_core.specs.Lists.{plan_row};
ghost use Rattle.book_rules.specs.Good.{refused_by, takes_period as takes_period_of, takes_level as takes_level_of, stages_by as stages_by_plan, joined_already as joined_already_of, takes_join as takes_join_of};
ghost use Rattle.book_rules.specs.PlanStages.{share_a_stage as share_a_stage_of};
ghost use Rattle.usage_plans.specs.Rows.{kind_in as kind_of_number};
ghost use Rattle.book_opening.specs.Faults.{IsFirstIn};

use crate::fault::OpenFault;
use crate::plan_stages::{share_a_stage, stages_of};
use gw_base::{Memory, Text};
use keeper_core::{JoinRow, PlanRow, Table, Tables};
use std::alloc::Global;
use usage_plans::{MOST_UNITS, Period, PeriodKind, YEAR_2100};

/// The most joins.
const MOST_JOINS: usize = 20_000;

/// The parts of an admission in which a level is counted.
const PARTS: u64 = 1000;

fn kind_of(number: u64) -> Option<PeriodKind>
    ensures { result ≡ kind_of_number number }
{
    match number {
        1 => Some(PeriodKind::Day),
        2 => Some(PeriodKind::Week),
        3 => Some(PeriodKind::Month),
        _ => None,
    }
}

// Whether what a row says of its period is taken.
fn takes_period(row: &JoinRow) -> bool
    requires { row.now.at < 4102444800000 }
    ensures { result ≡ takes_period_of row.now (kind_of_number row.now.pkind) }
{
    match kind_of(row.pkind) {
        None => row.pkind == 0
            && row.first == 1
            && row.pnumber == 0
            && row.allowance == 0
            && row.used == 0,
        Some(kind) => {
            let last = Period::of(row.at, kind).number;
            row.first <= 1
                && row.pnumber <= u64::from(last)
                && row.allowance <= MOST_UNITS
                && row.used <= row.allowance
        }
    }
}

// Whether the level of a row is taken under its plan.
fn takes_level(row: &JoinRow, plan: &PlanRow) -> bool
    ensures { result ≡ takes_level_of row.now plan.now }
{
    row.tversion <= plan.tversion
        && (row.tversion != plan.tversion || row.level <= plan.burst.saturating_mul(PARTS))
}

// Whether another row is of the same key, and its plan has one of the stages.
fn clashes(
    alloc: Global,
    tables: &Tables,
    stages: &[(Text, Text)],
    row: &JoinRow,
    other: &JoinRow,
) -> Result<bool, Memory>
    ensures { IfOk result (λ clash. clash ≡ (bytes_eq other.now.key row.now.key && share_a_stage_of stages.now (stages_by_plan (plan_row tables.now.lists other.now.plan)))) }
{
    if other.key.as_str() != row.key.as_str() {
        return Ok(false);
    }
    match tables.plan(other.plan.as_str()) {
        Some(plan) => Ok(share_a_stage(stages, &stages_of(alloc, plan)?)),
        None => Ok(false),
    }
}

// Whether the key of a row has joined another plan that has one of the stages of the row's plan.
fn joined_already(
    alloc: Global,
    tables: &Tables,
    before: &[JoinRow],
    row: &JoinRow,
    plan: &PlanRow,
) -> Result<bool, Memory>
    requires { plan_row tables.now.lists row.now.plan ≡ Some plan.now }
    ensures { IfOk result (λ joined. joined ≡ joined_already_of tables.now.lists (reverse before.now) row.now) }
{
    let stages = stages_of(alloc, plan)?;
    // Each row is compared with each before it: rows stand in the order of their plans, and no table has them by their keys.
    for other in before {
        if clashes(alloc, tables, &stages, row, other)? {
            return Ok(true);
        }
    }
    Ok(false)
}

#[tactic(auto, unfolding(book_rules::specs::Limits::most_joins))]
fn takes_join(
    alloc: Global,
    tables: &Tables,
    before: &[JoinRow],
    row: &JoinRow,
) -> Result<bool, Memory>
    ensures { IfOk result (λ taken. taken ≡ takes_join_of tables.now.lists (reverse before.now) row.now) }
{
    if before.len() >= MOST_JOINS || tables.key(row.key.as_str()).is_none() {
        return Ok(false);
    }
    let Some(plan) = tables.plan(row.plan.as_str()) else {
        return Ok(false);
    };
    if !takes_level(row, plan) || row.at >= YEAR_2100 || !takes_period(row) {
        return Ok(false);
    }
    Ok(!joined_already(alloc, tables, before, row, plan)?)
}

/// Tests the joins.
pub(crate) fn test_joins(alloc: Global, tables: &Tables) -> Result<(), OpenFault>
    ensures taken { OnOk result (refused_by (takes_join_of tables.now.lists) tables.now.lists.joins ≡ None) }
    ensures refused { IfErr result (IsFirstIn Table.Joins (refused_by (takes_join_of tables.now.lists) tables.now.lists.joins)) }
{
    let rows = tables.joins();
    for (i, row) in rows.iter().enumerate() {
        if !takes_join(alloc, tables, &rows[..i], row)? {
            return Err(OpenFault::BadRow(Table::Joins, i as u64));
        }
    }
    Ok(())
}
