// The commands on keys and plans: what each refuses, in order, and the change that it makes ready.
ghost use Rattle.std.specs.Prelude.{◌≡◌, ◌<◌, true, false, Some, IfOk, IfSome, IsNone, OnErr, List, ℕ, length};
ghost use Rattle.std.specs.Option.{option_copied};
ghost use Rattle.keeper_core.specs.Joins.{join_at};
ghost use Rattle.keeper_core.specs.Lists.{plan_row};
ghost use Rattle.keeper_core.specs.declared.rows.PlanRow.{PlanRow as PlanRowOf};
ghost use Rattle.usage_plans.specs.Deeds.{kind_number, same_throttle as same_throttle_of};
ghost use Rattle.usage_plans.specs.Rows.{row_with, tally_in, terms_in};
ghost use Rattle.usage_plans.specs.Tallies.{grant_of as grant_made, joined_at};
ghost use Rattle.book_rules.specs.Fits.{AreFit, IsFitJoin, IsFitPlan};
ghost use Rattle.book_rules.specs.Machine.{takes_memory};
ghost use Rattle.book_rules.specs.Outcomes.{first_refusal, says};
ghost use Rattle.book_rules.specs.PlanCommands.{grant as grant_of, granted as granted_of, is_quota as is_quota_of, is_of_another, is_throttle as is_throttle_of, join_key as join_key_of, join_tests, key_with, plan_of, put_key as put_key_of, put_key_tests, put_plan as put_plan_of, put_plan_tests, unused as unused_of, usage, usage_shown, version_with as version_with_of};
ghost use Rattle.book_rules.specs.PlanStages.{each_stage_once, stages_column as stages_column_of, stages_of};
ghost use Rattle.book_opening.specs.Ready.{AreReady};
ghost use Rattle.book_core.specs.Changes.{IsMeant, IsPrepared};

use crate::changes::{Change, Held, Prepared};
use crate::finds::find_key;
use crate::plans::{
    all_stand, are_stage_names, has_other_plan, is_stage_taken, plan_stages, stages_column,
    stages_once,
};
use book_opening::{Ready, is_key_value, stages_of};
use book_rules::{Refusal, Reply, Usage};
use gw_base::{Memory, Seq, Text, is_name};
use keeper_core::{JoinRow, KeyRow, PlanRow, Row, Tables};
use std::alloc::Global;
use usage_plans::{
    Allowance, GrantRefusal, MOST_UNITS, PeriodKind, Quota, Tally, Throttle, numbers_of, tally_of,
    terms_of,
};

/// The most keys, the most plans, the most stages of one, and the most joins.
const MOST_KEYS: usize = 10_000;

const MOST_PLANS: usize = 256;

const MOST_PLAN_STAGES: usize = 64;

const MOST_JOINS: usize = 20_000;

/// The most of a rate, and of a burst.
const MOST_PER_SECOND: u32 = 1_000_000;

/// The greatest version of a throttle.
const MOST_VERSIONS: u64 = 9_223_372_036_854_775_807;

// Whether another key has the value.
fn is_taken(tables: &Tables, ready: &Ready, key: &str, value: &str) -> bool
    requires ready { AreReady tables.now.lists ready.now }
    ensures { result ≡ is_of_another key.now (key_with tables.now.lists value.now) }
{
    match find_key(tables, ready, value) {
        Some(row) => row.key.as_str() != key,
        None => false,
    }
}

#[tactic(auto, unfolding(book_rules::specs::Limits::most_keys))]
fn key_refusal(tables: &Tables, ready: &Ready, key: &str, value: &str) -> Option<Refusal>
    requires ready { AreReady tables.now.lists ready.now }
    ensures refusal { result ≡ first_refusal (put_key_tests tables.now.lists key.now value.now) }
    ensures free { IsNone result → is_of_another key.now (key_with tables.now.lists value.now) ≡ false }
{
    if !is_name(key) {
        return Some(Refusal::BadName);
    }
    if !is_key_value(value) {
        return Some(Refusal::BadKey);
    }
    if is_taken(tables, ready, key, value) {
        return Some(Refusal::ValueTaken);
    }
    if tables.key(key).is_none() && tables.keys().len() >= MOST_KEYS {
        return Some(Refusal::Full);
    }
    None
}

/// PutKey.
pub fn put_key(
    tables: &Tables,
    ready: &Ready,
    alloc: Global,
    key: &Text,
    value: &Text,
    enabled: bool,
) -> Result<Prepared, Memory>
    requires ready { AreReady tables.now.lists ready.now }
    ensures prepared { IfOk result (IsPrepared tables.now.lists (put_key_of tables.now.lists key.now value.now enabled)) }
    ensures meant { IfOk result (IsMeant false) }
    ensures memory { OnErr result (takes_memory (put_key_of tables.now.lists key.now value.now enabled) ≡ true) }
{
    if let Some(refusal) = key_refusal(tables, ready, key.as_str(), value.as_str()) {
        return Ok(Prepared::Says(Reply::Refused(refusal)));
    }
    Ok(Prepared::Names(KeyRow {
        key: key.copy(alloc)?,
        value: value.copy(alloc)?,
        enabled: u64::from(enabled),
    }))
}

#[tactic(auto, unfolding(book_rules::specs::Limits::most_per_second))]
fn is_throttle(throttle: Option<Throttle>) -> bool
    ensures { result ≡ is_throttle_of throttle }
{
    match throttle {
        None => true,
        Some(Throttle { rate, burst }) => 1 <= rate
            && rate <= MOST_PER_SECOND
            && 1 <= burst
            && burst <= MOST_PER_SECOND,
    }
}

fn is_quota(quota: Option<Quota>) -> bool
    ensures { result ≡ is_quota_of quota }
{
    match quota {
        None => true,
        Some(quota) => quota.limit <= MOST_UNITS && quota.offset <= quota.limit,
    }
}

fn same_throttle(old: Option<Throttle>, new: Option<Throttle>) -> bool
    ensures { result ≡ same_throttle_of old new }
{
    match (old, new) {
        (None, None) => true,
        (Some(old), Some(new)) => old.rate == new.rate && old.burst == new.burst,
        _ => false,
    }
}

// The version of the throttle of a plan that is put: a throttle that differs raises it.
fn version_with(before: Option<&PlanRow>, throttle: Option<Throttle>) -> u64
    requires fits { IfSome (option_copied before) IsFitPlan }
    ensures { result ≡ version_with_of (option_copied before.entry) throttle }
{
    let Some(row) = before else {
        return 0;
    };
    if same_throttle(terms_of(row).throttle, throttle) {
        row.tversion
    } else {
        row.tversion + 1
    }
}

#[tactic(auto, unfolding(book_rules::specs::Limits::most_plans, book_rules::specs::Limits::most_plan_stages, book_rules::specs::Limits::most_versions))]
fn plan_refusal(
    tables: &Tables,
    ready: &Ready,
    plan: &str,
    throttle: Option<Throttle>,
    quota: Option<Quota>,
    stages: &[(Text, Text)],
) -> Option<Refusal>
    requires ready { AreReady tables.now.lists ready.now }
    requires fits { (name : List ℕ) (row : PlanRowOf) → plan_row tables.now.lists name ≡ Some row → IsFitPlan row }
    ensures { result ≡ first_refusal (put_plan_tests tables.now.lists plan.now throttle quota stages.now) }
{
    if !is_name(plan) || !are_stage_names(stages) {
        return Some(Refusal::BadName);
    }
    if !is_throttle(throttle) {
        return Some(Refusal::BadThrottle);
    }
    if !is_quota(quota) {
        return Some(Refusal::BadQuota);
    }
    if !all_stand(tables, stages) {
        return Some(Refusal::NoStage);
    }
    if is_stage_taken(tables, ready, plan, stages) {
        return Some(Refusal::StageTaken);
    }
    let before = tables.plan(plan);
    if stages.len() > MOST_PLAN_STAGES
        || before.is_none() && tables.plans().len() >= MOST_PLANS
        || version_with(before, throttle) > MOST_VERSIONS
    {
        return Some(Refusal::Full);
    }
    None
}

// The number of a period's kind.
fn number_of(kind: PeriodKind) -> u64
    ensures { result ≡ kind_number kind }
{
    match kind {
        PeriodKind::Day => 1,
        PeriodKind::Week => 2,
        PeriodKind::Month => 3,
    }
}

// The row of a plan, whose stages stand in this column.
fn row_of_plan(
    before: Option<&PlanRow>,
    plan: Text,
    throttle: Option<Throttle>,
    quota: Option<Quota>,
    stages: Text,
) -> PlanRow
    requires fits { IfSome (option_copied before) IsFitPlan }
    ensures { (handed : List (List ℕ × List ℕ)) → stages ≡ stages_column_of (each_stage_once handed) → result ≡ plan_of (option_copied before.entry) plan throttle quota handed }
{
    let tversion = version_with(before, throttle);
    let (rate, burst) = match throttle {
        Some(throttle) => (u64::from(throttle.rate), u64::from(throttle.burst)),
        None => (0, 0),
    };
    let (qlimit, qoffset, qkind) = match quota {
        Some(quota) => (quota.limit, quota.offset, number_of(quota.kind)),
        None => (0, 0, 0),
    };
    PlanRow {
        plan,
        rate,
        burst,
        tversion,
        qlimit,
        qoffset,
        qkind,
        stages,
    }
}

/// PutPlan: a plan keeps each stage once.
pub fn put_plan(
    tables: &Tables,
    ready: &Ready,
    alloc: Global,
    plan: &Text,
    throttle: Option<Throttle>,
    quota: Option<Quota>,
    stages: &[(Text, Text)],
) -> Result<Prepared, Memory>
    requires ready { AreReady tables.now.lists ready.now }
    requires fits { (name : List ℕ) (row : PlanRowOf) → plan_row tables.now.lists name ≡ Some row → IsFitPlan row }
    ensures prepared { IfOk result (IsPrepared tables.now.lists (put_plan_of tables.now.lists plan.now throttle quota stages.now)) }
    ensures meant { IfOk result (IsMeant false) }
    ensures memory { OnErr result (takes_memory (put_plan_of tables.now.lists plan.now throttle quota stages.now) ≡ true) }
{
    if let Some(refusal) = plan_refusal(tables, ready, plan.as_str(), throttle, quota, stages) {
        return Ok(Prepared::Says(Reply::Refused(refusal)));
    }
    let once = stages_once(alloc, stages)?;
    let column = stages_column(alloc, &once)?;
    let before = tables.plan(plan.as_str());
    let row = row_of_plan(before, plan.copy(alloc)?, throttle, quota, column);
    let held = Held::Allows(Seq::of(stages_of(alloc, &row)?));
    Ok(Prepared::Writes(Change {
        row: Row::Plan(row),
        held,
        reply: Reply::Done,
    }))
}

// The row of a plan and key, before it has any number.
fn unused(alloc: Global, plan: &Text, key: &Text) -> Result<JoinRow, Memory>
    ensures { IfOk result (λ row. row ≡ unused_of plan.now key.now) }
{
    Ok(JoinRow {
        plan: plan.copy(alloc)?,
        key: key.copy(alloc)?,
        level: 0,
        at: 0,
        tversion: 0,
        pkind: 0,
        pnumber: 0,
        allowance: 0,
        used: 0,
        first: 1,
    })
}

#[tactic(auto, unfolding(book_rules::specs::Limits::most_joins))]
fn join_refusal(
    tables: &Tables,
    ready: &Ready,
    stages: &[(Text, Text)],
    plan: &str,
    key: &str,
) -> Option<Refusal>
    requires ready { AreReady tables.now.lists ready.now }
    ensures { (row : PlanRowOf) → stages.now ≡ stages_of row → result ≡ first_refusal (join_tests tables.now.lists plan.now key.now row) }
{
    if has_other_plan(tables, ready, plan, stages, key) {
        return Some(Refusal::StageTaken);
    }
    if tables.joins().len() >= MOST_JOINS {
        return Some(Refusal::Full);
    }
    None
}

// The row of a key that joins at this moment: a full bucket, and no period.
fn joined_row(
    alloc: Global,
    t: u64,
    of: &PlanRow,
    plan: &Text,
    key: &Text,
) -> Result<JoinRow, Memory>
    requires fits { IsFitPlan of.now }
    ensures { IfOk result (λ row. row ≡ row_with (unused_of plan.now key.now) (joined_at (terms_in of.now) t)) }
{
    let mut row = unused(alloc, plan, key)?;
    row.write_numbers(numbers_of(Tally::joined(terms_of(of), t)));
    Ok(row)
}

/// JoinKey: a key that joined already stays as it is.
pub fn join_key(
    tables: &Tables,
    ready: &Ready,
    alloc: Global,
    t: u64,
    plan: &Text,
    key: &Text,
) -> Result<Prepared, Memory>
    requires ready { AreReady tables.now.lists ready.now }
    requires fits { (name : List ℕ) (row : PlanRowOf) → plan_row tables.now.lists name ≡ Some row → IsFitPlan row }
    ensures prepared { IfOk result (IsPrepared tables.now.lists (join_key_of tables.now.lists t plan.now key.now)) }
    ensures meant { IfOk result (IsMeant false) }
    ensures memory { OnErr result (takes_memory (join_key_of tables.now.lists t plan.now key.now) ≡ true) }
{
    let (Some(of), Some(stages)) = (
        tables.plan(plan.as_str()),
        plan_stages(tables, ready, plan.as_str()),
    ) else {
        return Ok(Prepared::Says(Reply::Refused(Refusal::NoPlan)));
    };
    if tables.key(key.as_str()).is_none() {
        return Ok(Prepared::Says(Reply::Refused(Refusal::NoKey)));
    }
    if tables.join(plan.as_str(), key.as_str()).is_some() {
        return Ok(Prepared::Says(Reply::Done));
    }
    if let Some(refusal) = join_refusal(tables, ready, stages, plan.as_str(), key.as_str()) {
        return Ok(Prepared::Says(Reply::Refused(refusal)));
    }
    Ok(Prepared::Writes(Change {
        row: Row::Join(joined_row(alloc, t, of, plan, key)?),
        held: Held::Nothing,
        reply: Reply::Done,
    }))
}

// The join at this place, which is granted more.
fn granted(tables: &Tables, t: u64, of: &PlanRow, at: usize, amount: u64) -> Prepared
    requires early { t < 4102444800000 }
    requires plan { IsFitPlan of.now }
    requires inside { at < length tables.now.lists.joins }
    requires join { IsFitJoin of.now (join_at tables.now.lists at) t }
    ensures prepared { IsPrepared tables.now.lists (granted_of (join_at tables.now.lists at) (grant_made (terms_in of.now) (tally_in (join_at tables.now.lists at)) amount t)) result }
    ensures meant { IsMeant true result }
{
    match tally_of(tables.join_at(at)).grant(terms_of(of), amount, t) {
        Ok(tally) => Prepared::Rewrites(at, numbers_of(tally), Reply::Done),
        Err(GrantRefusal::NoQuota) => Prepared::Says(Reply::Refused(Refusal::NoQuota)),
        Err(GrantRefusal::TooLarge) => Prepared::Says(Reply::Refused(Refusal::TooLarge)),
    }
}

/// Grant: the period that stands allows so many calls more. It takes no memory.
pub fn grant(tables: &Tables, t: u64, plan: &Text, key: &Text, amount: u64) -> Prepared
    requires fits { AreFit tables.now.lists t }
    ensures prepared { IsPrepared tables.now.lists (grant_of tables.now.lists t plan.now key.now amount) result }
    ensures meant { IsMeant true result }
{
    let (Some(at), Some(of)) = (
        tables.find_join(plan.as_str(), key.as_str()),
        tables.plan(plan.as_str()),
    ) else {
        return Prepared::Says(Reply::Refused(Refusal::NoJoin));
    };
    granted(tables, t, of, at, amount)
}

// What is shown of the period that stands.
fn shown(standing: Option<Allowance>) -> Reply
    ensures { says result ≡ usage_shown standing }
{
    match standing {
        Some(
            Allowance {
                period: Some(period),
                allowance,
                used,
                ..
            },
        ) => Reply::Usage(Usage {
            period,
            allowance,
            used,
        }),
        _ => Reply::Refused(Refusal::NoQuota),
    }
}

/// Usage: what is allowed and used in the period that stands.
pub fn show_usage(tables: &Tables, t: u64, plan: &Text, key: &Text) -> Reply
    requires fits { AreFit tables.now.lists t }
    ensures { says result ≡ usage tables.now.lists t plan.now key.now }
{
    let (Some(row), Some(of)) = (
        tables.join(plan.as_str(), key.as_str()),
        tables.plan(plan.as_str()),
    ) else {
        return Reply::Refused(Refusal::NoJoin);
    };
    shown(tally_of(row).usage(terms_of(of), t))
}
