// The table `plans`.
ghost use Rattle.std.specs.Prelude.{◌≡◌, ◌&&◌, nat_le, is_some, map, reverse, None, Some, IfOk, OnOk, IfErr};
ghost use Rattle.std.specs.List.{list_all};
ghost use Rattle.keeper_core.specs.Lists.{stage_row};
ghost use Rattle.book_rules.specs.Good.{refused_by, takes_throttle as takes_throttle_of, are_plan_stages as are_plan_stages_of, takes_plan as takes_plan_of};
ghost use Rattle.book_rules.specs.Limits.{most_versions};
ghost use Rattle.usage_plans.specs.declared.terms.TheConstants.{MOST_UNITS as most_units};
ghost use Rattle.book_rules.specs.PlanStages.{stages_of as stages_of_plan};
ghost use Rattle.book_opening.specs.Faults.{IsFirstIn};

use crate::fault::OpenFault;
use crate::plan_stages::{read_stages, stages_differ, stages_of};
use gw_base::{Memory, Seq, Text, is_name};
use keeper_core::{PlanRow, Table, Tables};
use std::alloc::Global;
use usage_plans::MOST_UNITS;

/// The most plans, and the most stages of one.
const MOST_PLANS: usize = 256;

const MOST_STAGES: usize = 64;

/// The most of a rate, and of a burst.
const MOST_PER_SECOND: u64 = 1_000_000;

/// The greatest version of a throttle.
const MOST_VERSIONS: u64 = 9_223_372_036_854_775_807;

/// The number of the last kind of period.
const LAST_KIND: u64 = 3;

// No throttle, or a rate and a burst.
#[tactic(auto, unfolding(book_rules::specs::Limits::most_per_second))]
fn takes_throttle(row: &PlanRow) -> bool
    ensures { result ≡ takes_throttle_of row.now }
{
    row.rate == 0 && row.burst == 0
        || 1 <= row.rate
            && row.rate <= MOST_PER_SECOND
            && 1 <= row.burst
            && row.burst <= MOST_PER_SECOND
}

#[tactic(auto, unfolding(book_rules::specs::Limits::most_versions))]
fn takes_quota(row: &PlanRow) -> bool
    ensures { result ≡ (nat_le row.now.tversion most_versions && nat_le row.now.qkind 3 && nat_le row.now.qlimit most_units && nat_le row.now.qoffset row.now.qlimit) }
{
    row.tversion <= MOST_VERSIONS
        && row.qkind <= LAST_KIND
        && row.qlimit <= MOST_UNITS
        && row.qoffset <= row.qlimit
}

fn stand(tables: &Tables, stages: &[(Text, Text)]) -> bool
    ensures { result ≡ list_all (λ stage. is_some (stage_row tables.now.lists stage.0 stage.1)) stages.now }
{
    stages.iter().all(|stage| tables.stage(stage.0.as_str(), stage.1.as_str()).is_some())
}

// Whether a plan may have the stages: they differ, and stand.
#[tactic(auto, unfolding(book_rules::specs::Limits::most_plan_stages))]
fn are_plan_stages(tables: &Tables, stages: &[(Text, Text)]) -> bool
    ensures { result ≡ are_plan_stages_of tables.now.lists (Some stages.now) }
{
    stages.len() <= MOST_STAGES && stages_differ(stages) && stand(tables, stages)
}

#[tactic(auto, unfolding(book_rules::specs::Limits::most_plans))]
fn takes_plan(
    alloc: Global,
    tables: &Tables,
    before: &[PlanRow],
    row: &PlanRow,
) -> Result<bool, Memory>
    ensures { IfOk result (λ taken. taken ≡ takes_plan_of tables.now.lists (reverse before.now) row.now) }
{
    if before.len() >= MOST_PLANS
        || !is_name(row.plan.as_str())
        || !takes_throttle(row)
        || !takes_quota(row)
    {
        return Ok(false);
    }
    match read_stages(alloc, row.stages.as_str())? {
        Some(stages) => Ok(are_plan_stages(tables, &stages)),
        None => Ok(false),
    }
}

/// Tests the plans.
pub(crate) fn test_plans(alloc: Global, tables: &Tables) -> Result<(), OpenFault>
    ensures taken { OnOk result (refused_by (takes_plan_of tables.now.lists) tables.now.lists.plans ≡ None) }
    ensures refused { IfErr result (IsFirstIn Table.Plans (refused_by (takes_plan_of tables.now.lists) tables.now.lists.plans)) }
{
    let rows = tables.plans();
    for (i, row) in rows.iter().enumerate() {
        if !takes_plan(alloc, tables, &rows[..i], row)? {
            return Err(OpenFault::BadRow(Table::Plans, i as u64));
        }
    }
    Ok(())
}

/// The stages of each plan.
pub(crate) fn read_plans(alloc: Global, rows: &[PlanRow]) -> Result<Vec<Seq<(Text, Text)>>, Memory>
    ensures { IfOk result (λ plans. plans.items ≡ map stages_of_plan rows.now) }
{
    let mut plans = Vec::new(alloc);
    for row in rows {
        plans.push(Seq::of(stages_of(alloc, row)?))?;
    }
    Ok(plans)
}
