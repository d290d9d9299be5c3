// Plans and the keys that joined them, by their rows.
ghost use Rattle.std.specs.Prelude.{◌≡◌, ◌&&◌, ◌++◌, IfOk, OnOk, is_some};
ghost use Rattle.std.specs.List.{list_any};
ghost use Rattle.std.specs.Option.{option_copied, option_map};
ghost use Rattle.std.specs.Str.{bytes_eq};
ghost use Rattle.std.specs.String.{string_bytes};
ghost use Rattle.keeper_core.specs.Lists.{plan_row};
ghost use Rattle.book_rules.specs.Admissions.{allows, plan_for as plan_for_of};
ghost use Rattle.book_rules.specs.PlanCommands.{all_stand as all_stand_of, has_other_plan as has_other_plan_of, is_other_plan as is_other_plan_of, is_stage_taken as is_stage_taken_of};
ghost use Rattle.book_rules.specs.PlanStages.{are_stage_names as are_stage_names_of, each_stage_once, same_stage, stage_field, stages_column as stages_column_of, stages_of};
ghost use Rattle.book_opening.specs.Ready.{AreReady};

use book_opening::{Ready, is_among, share_a_stage};
use gw_base::{Memory, Text, is_name};
use keeper_core::{JoinRow, PlanRow, Tables};
use std::alloc::Global;

/// Whether the stage of this API is one of these.
fn lists_stage(stages: &[(Text, Text)], api: &str, stage: &str) -> bool
    ensures { result ≡ list_any (same_stage (api.now, stage.now)) stages.now }
{
    stages.iter().any(|other| api == other.0.as_str() && stage == other.1.as_str())
}

// Whether the key joined the plan, which has these stages and among them this one.
fn allows_stage(
    tables: &Tables,
    stages: &[(Text, Text)],
    plan: &PlanRow,
    stage: (&str, &str),
    key: &str,
) -> bool
    requires { stages.now ≡ stages_of plan.now }
    ensures { result ≡ allows tables.now.lists (stage.entry.0.now, stage.entry.1.now) key.now plan.now }
{
    lists_stage(stages, stage.0, stage.1) && tables.join(plan.plan.as_str(), key).is_some()
}

/// The name of the plan by which the key calls the stage.
pub fn plan_for<'a>(
    tables: &'a Tables,
    ready: &Ready,
    stage: (&str, &str),
    key: &str,
) -> Option<&'a Text>
    requires ready { AreReady tables.now.lists ready.now }
    ensures { option_copied result ≡ plan_for_of tables.now.lists (stage.entry.0.now, stage.entry.1.now) key.now }
{
    let plans = tables.plans();
    for (i, plan) in plans.iter().enumerate() {
        if allows_stage(tables, ready.plans[i].as_slice(), plan, stage, key) {
            return Some(&plan.plan);
        }
    }
    None
}

/// The stages of the plan of this name.
pub fn plan_stages<'a>(tables: &Tables, ready: &'a Ready, plan: &str) -> Option<&'a [(Text, Text)]>
    requires ready { AreReady tables.now.lists ready.now }
    ensures { option_copied result ≡ option_map stages_of (plan_row tables.now.lists plan.now) }
{
    let plans = tables.plans();
    for (i, row) in plans.iter().enumerate() {
        if row.plan.as_str() == plan {
            return Some(ready.plans[i].as_slice());
        }
    }
    None
}

/// Whether both parts of each stage are names.
pub fn are_stage_names(stages: &[(Text, Text)]) -> bool
    ensures { result ≡ are_stage_names_of stages.now }
{
    stages.iter().all(|stage| is_name(stage.0.as_str()) && is_name(stage.1.as_str()))
}

/// Whether all of these stages stand.
pub fn all_stand(tables: &Tables, stages: &[(Text, Text)]) -> bool
    ensures { result ≡ all_stand_of tables.now.lists stages.now }
{
    stages.iter().all(|stage| tables.stage(stage.0.as_str(), stage.1.as_str()).is_some())
}

// Whether another plan, which has these stages, shares one and was joined by the key.
fn is_other_plan(
    tables: &Tables,
    others: &[(Text, Text)],
    other: &PlanRow,
    plan: &str,
    stages: &[(Text, Text)],
    key: &str,
) -> bool
    requires { others.now ≡ stages_of other.now }
    ensures { result ≡ is_other_plan_of tables.now.lists plan.now stages.now key.now other.now }
{
    other.plan.as_str() != plan
        && tables.join(other.plan.as_str(), key).is_some()
        && share_a_stage(stages, others)
}

/// Whether the key joined another plan that has one of these stages.
pub fn has_other_plan(
    tables: &Tables,
    ready: &Ready,
    plan: &str,
    stages: &[(Text, Text)],
    key: &str,
) -> bool
    requires ready { AreReady tables.now.lists ready.now }
    ensures { result ≡ has_other_plan_of tables.now.lists plan.now stages.now key.now }
{
    let others = tables.plans();
    for (i, other) in others.iter().enumerate() {
        if is_other_plan(tables, ready.plans[i].as_slice(), other, plan, stages, key) {
            return true;
        }
    }
    false
}

// Whether the row is of the plan, and its key joined another plan that has one of these stages.
fn is_taken_by(
    tables: &Tables,
    ready: &Ready,
    plan: &str,
    stages: &[(Text, Text)],
    row: &JoinRow,
) -> bool
    requires ready { AreReady tables.now.lists ready.now }
    ensures { result ≡ (bytes_eq row.now.plan plan.now && has_other_plan_of tables.now.lists plan.now stages.now row.now.key) }
{
    row.plan.as_str() == plan && has_other_plan(tables, ready, plan, stages, row.key.as_str())
}

/// Whether a key that joined the plan joined another one that has one of these stages.
pub fn is_stage_taken(tables: &Tables, ready: &Ready, plan: &str, stages: &[(Text, Text)]) -> bool
    requires ready { AreReady tables.now.lists ready.now }
    ensures { result ≡ is_stage_taken_of tables.now.lists plan.now stages.now }
{
    let rows = tables.joins();
    for row in rows {
        if is_taken_by(tables, ready, plan, stages, row) {
            return true;
        }
    }
    false
}

/// Each stage once: of a repeated one the last stays.
pub fn stages_once(alloc: Global, stages: &[(Text, Text)]) -> Result<Vec<(Text, Text)>, Memory>
    ensures { IfOk result (λ made. made.items ≡ each_stage_once stages.now) }
{
    let mut made = Vec::new(alloc);
    for (i, stage) in stages.iter().enumerate() {
        if !is_among(&stages[i + 1..], stage) {
            made.push((stage.0.copy(alloc)?, stage.1.copy(alloc)?))?;
        }
    }
    Ok(made)
}

// A stage as the field `API/STAGE`, behind what stands in the column.
fn write_stage(column: &mut String, stage: &(Text, Text)) -> Result<(), Memory>
    ensures { OnOk result (string_bytes column.new ≡ string_bytes column.old ++ stage_field stage.now) }
{
    column.push_str(stage.0.as_str())?;
    column.push('/')?;
    column.push_str(stage.1.as_str())?;
    Ok(())
}

/// The column of some stages: fields `API/STAGE` parted by one space.
pub fn stages_column(alloc: Global, stages: &[(Text, Text)]) -> Result<Text, Memory>
    ensures { IfOk result (λ column. column ≡ stages_column_of stages.now) }
{
    let mut column = String::new(alloc);
    for stage in stages {
        // No field is empty, so that a column that is still empty has none.
        if !column.is_empty() {
            column.push(' ')?;
        }
        write_stage(&mut column, stage)?;
    }
    Ok(Text::of(column))
}
