// The stages of a plan, as their column names them.
ghost use Rattle.std.specs.Prelude.{◌≡◌, ℕ, List, map, Some, IfOk};
ghost use Rattle.std.specs.Borrow.{Bor};
ghost use Rattle.std.specs.Option.{option_map};
ghost use Rattle.std.specs.List.{list_any};
ghost use Rattle.record_fields.specs.Coding.{parts_of};
ghost use Rattle.book_rules.specs.PlanStages.{stage_in, all_stages, stages_in, stages_of as stages_of_plan, same_stage as same_stage_of, stages_differ as stages_differ_of, share_a_stage as share_a_stage_of};

use gw_base::{Memory, Text, is_name};
use keeper_core::PlanRow;
use std::alloc::{AllocError, Global};

fn text_of(alloc: Global, text: &str) -> Result<Text, Memory>
    ensures { IfOk result (λ made. made ≡ text.now) }
{
    Ok(Text::of(String::from_str(alloc, text)?))
}

// What stands before the first `/` and behind it, where both are names.
fn names_in(field: &str) -> Option<(&str, &str)>
    ensures { option_map (λ p. (p.0.now, p.1.now)) result ≡ stage_in field.now }
{
    match field.split_once('/') {
        Some((api, stage)) if is_name(api) && is_name(stage) => Some((api, stage)),
        _ => None,
    }
}

// The stage of a field API/STAGE.
fn read_stage(alloc: Global, field: &str) -> Result<Option<(Text, Text)>, Memory>
    ensures { IfOk result (λ stage. stage ≡ stage_in field.now) }
{
    match names_in(field) {
        Some((api, stage)) => Ok(Some((text_of(alloc, api)?, text_of(alloc, stage)?))),
        None => Ok(None),
    }
}

fn parts_in<'a>(alloc: Global, column: &'a str) -> Result<Vec<&'a str>, AllocError>
    ensures { IfOk result (λ parts. map (λ (part : Bor (List ℕ)). part.now) parts.items ≡ parts_of column.now) }
{
    column.split(' ').collect(alloc)
}

fn read_all(alloc: Global, fields: &[&str]) -> Result<Option<Vec<(Text, Text)>>, Memory>
    ensures { IfOk result (λ stages. option_map (λ v. v.items) stages ≡ all_stages (map (λ (field : Bor (List ℕ)). field.now) fields.now)) }
{
    let mut stages = Vec::new(alloc);
    for field in fields {
        let Some(stage) = read_stage(alloc, field)? else {
            return Ok(None);
        };
        stages.push(stage)?;
    }
    Ok(Some(stages))
}

/// The stages of a plan's column, where it has its form: fields API/STAGE, both of which are names, parted by one space.
#[tactic(auto, unfolding(book_rules::specs::PlanStages::stages_in))]
pub(crate) fn read_stages(alloc: Global, column: &str) -> Result<Option<Vec<(Text, Text)>>, Memory>
    ensures { IfOk result (λ stages. option_map (λ v. v.items) stages ≡ stages_in column.now) }
{
    if column.is_empty() {
        return Ok(Some(Vec::new(alloc)));
    }
    let parts = parts_in(alloc, column)?;
    read_all(alloc, &parts)
}

/// The stages of a plan's row; none where its column has not their form.
pub fn stages_of(alloc: Global, plan: &PlanRow) -> Result<Vec<(Text, Text)>, Memory>
    ensures { IfOk result (λ stages. stages.items ≡ stages_of_plan plan.now) }
{
    match read_stages(alloc, plan.stages.as_str())? {
        Some(stages) => Ok(stages),
        None => Ok(Vec::new(alloc)),
    }
}

/// Whether the stage is one of these.
pub fn is_among(stages: &[(Text, Text)], stage: &(Text, Text)) -> bool
    ensures { result ≡ list_any (same_stage_of stage.now) stages.now }
{
    stages.iter().any(|other| stage.0.as_str() == other.0.as_str()
        && stage.1.as_str() == other.1.as_str())
}

/// Whether no stage stands twice.
pub fn stages_differ(stages: &[(Text, Text)]) -> bool
    ensures { result ≡ stages_differ_of stages.now }
{
    for (i, stage) in stages.iter().enumerate() {
        if is_among(&stages[i + 1..], stage) {
            return false;
        }
    }
    true
}

/// Whether a stage stands in both lists.
pub fn share_a_stage(stages: &[(Text, Text)], others: &[(Text, Text)]) -> bool
    ensures { result ≡ share_a_stage_of stages.now others.now }
{
    stages.iter().any(|stage| is_among(others, stage))
}
