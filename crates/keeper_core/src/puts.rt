// A row is put in a table: before the first of a greater key, or in the place of the row of its key.
ghost use Rattle.std.specs.Prelude.{◌≡◌, ◌+◌, ◌-◌, ◌<◌, ◌≤◌, length, find, slice_set, IsOk, IsSome, OnOk, OnErr};
ghost use Rattle.keeper_core.specs.Joins.{join_in, put_join as put_join_of, with_numbers};
ghost use Rattle.std.specs.Vec.{vec_capacity};
ghost use Rattle.keeper_core.specs.Lists.{Ascends, put_by, is_meta, is_api, is_deployment, is_stage, is_key, is_plan, is_join, meta_behind, api_behind, deployment_behind, stage_behind, key_behind, plan_behind, join_behind};

use crate::numbers::JoinNumbers;
use crate::place::{Place, put_at};
use crate::rows::{ApiRow, DeploymentRow, JoinRow, KeyRow, MetaRow, PlanRow, StageRow};
use crate::searches::{
    place_of_api, place_of_deployment, place_of_join, place_of_key, place_of_meta, place_of_plan,
    place_of_stage,
};
use gw_base::Memory;

pub(crate) fn put_meta(rows: &mut Vec<MetaRow>, row: MetaRow) -> Result<(), Memory>
    requires { Ascends (λ row. meta_behind row.id) rows.old.items }
    ensures ok { OnOk result (rows.new.items ≡ put_by (is_meta row.id) (meta_behind row.id) row rows.old.items) }
    ensures err { OnErr result (rows.new.items ≡ rows.old.items) }
    ensures order { Ascends (λ row. meta_behind row.id) rows.new.items }
    ensures succeeds { 1 ≤ vec_capacity rows.old - length rows.old.items → IsOk result }
    ensures room { vec_capacity rows.old - length rows.old.items ≤ vec_capacity rows.new - length rows.new.items + 1 }
{
    let place = place_of_meta(rows, row.id);
    put_at(rows, place, row)
}

pub(crate) fn put_api(rows: &mut Vec<ApiRow>, row: ApiRow) -> Result<(), Memory>
    requires { Ascends (λ row. api_behind row.api) rows.old.items }
    ensures ok { OnOk result (rows.new.items ≡ put_by (is_api row.api) (api_behind row.api) row rows.old.items) }
    ensures err { OnErr result (rows.new.items ≡ rows.old.items) }
    ensures order { Ascends (λ row. api_behind row.api) rows.new.items }
    ensures succeeds { 1 ≤ vec_capacity rows.old - length rows.old.items → IsOk result }
    ensures room { vec_capacity rows.old - length rows.old.items ≤ vec_capacity rows.new - length rows.new.items + 1 }
{
    let place = place_of_api(rows, row.api.as_str());
    put_at(rows, place, row)
}

pub(crate) fn put_deployment(
    rows: &mut Vec<DeploymentRow>,
    row: DeploymentRow,
) -> Result<(), Memory>
    requires { Ascends (λ row. deployment_behind row.api row.number) rows.old.items }
    ensures ok { OnOk result (rows.new.items ≡ put_by (is_deployment row.api row.number) (deployment_behind row.api row.number) row rows.old.items) }
    ensures err { OnErr result (rows.new.items ≡ rows.old.items) }
    ensures order { Ascends (λ row. deployment_behind row.api row.number) rows.new.items }
    ensures succeeds { 1 ≤ vec_capacity rows.old - length rows.old.items → IsOk result }
    ensures room { vec_capacity rows.old - length rows.old.items ≤ vec_capacity rows.new - length rows.new.items + 1 }
{
    let place = place_of_deployment(rows, row.api.as_str(), row.number);
    put_at(rows, place, row)
}

pub(crate) fn put_stage(rows: &mut Vec<StageRow>, row: StageRow) -> Result<(), Memory>
    requires { Ascends (λ row. stage_behind row.api row.stage) rows.old.items }
    ensures ok { OnOk result (rows.new.items ≡ put_by (is_stage row.api row.stage) (stage_behind row.api row.stage) row rows.old.items) }
    ensures err { OnErr result (rows.new.items ≡ rows.old.items) }
    ensures order { Ascends (λ row. stage_behind row.api row.stage) rows.new.items }
    ensures succeeds { 1 ≤ vec_capacity rows.old - length rows.old.items → IsOk result }
    ensures room { vec_capacity rows.old - length rows.old.items ≤ vec_capacity rows.new - length rows.new.items + 1 }
{
    let place = place_of_stage(rows, row.api.as_str(), row.stage.as_str());
    put_at(rows, place, row)
}

pub(crate) fn put_key(rows: &mut Vec<KeyRow>, row: KeyRow) -> Result<(), Memory>
    requires { Ascends (λ row. key_behind row.key) rows.old.items }
    ensures ok { OnOk result (rows.new.items ≡ put_by (is_key row.key) (key_behind row.key) row rows.old.items) }
    ensures err { OnErr result (rows.new.items ≡ rows.old.items) }
    ensures order { Ascends (λ row. key_behind row.key) rows.new.items }
    ensures succeeds { 1 ≤ vec_capacity rows.old - length rows.old.items → IsOk result }
    ensures room { vec_capacity rows.old - length rows.old.items ≤ vec_capacity rows.new - length rows.new.items + 1 }
{
    let place = place_of_key(rows, row.key.as_str());
    put_at(rows, place, row)
}

pub(crate) fn put_plan(rows: &mut Vec<PlanRow>, row: PlanRow) -> Result<(), Memory>
    requires { Ascends (λ row. plan_behind row.plan) rows.old.items }
    ensures ok { OnOk result (rows.new.items ≡ put_by (is_plan row.plan) (plan_behind row.plan) row rows.old.items) }
    ensures err { OnErr result (rows.new.items ≡ rows.old.items) }
    ensures order { Ascends (λ row. plan_behind row.plan) rows.new.items }
    ensures succeeds { 1 ≤ vec_capacity rows.old - length rows.old.items → IsOk result }
    ensures room { vec_capacity rows.old - length rows.old.items ≤ vec_capacity rows.new - length rows.new.items + 1 }
{
    let place = place_of_plan(rows, row.plan.as_str());
    put_at(rows, place, row)
}

pub(crate) fn put_join(rows: &mut Vec<JoinRow>, row: JoinRow) -> Result<(), Memory>
    requires { Ascends (λ row. join_behind row.plan row.key) rows.old.items }
    ensures ok { OnOk result (rows.new.items ≡ put_by (is_join row.plan row.key) (join_behind row.plan row.key) row rows.old.items) }
    ensures err { OnErr result (rows.new.items ≡ rows.old.items) }
    ensures order { Ascends (λ row. join_behind row.plan row.key) rows.new.items }
    ensures succeeds { 1 ≤ vec_capacity rows.old - length rows.old.items → IsOk result }
    ensures room { vec_capacity rows.old - length rows.old.items ≤ vec_capacity rows.new - length rows.new.items + 1 }
{
    let place = place_of_join(rows, row.plan.as_str(), row.key.as_str());
    put_at(rows, place, row)
}

pub(crate) fn rewrite_join(rows: &mut Vec<JoinRow>, row: &JoinRow)
    requires order { Ascends (λ row. join_behind row.plan row.key) rows.old.items }
    requires there { IsSome (find (is_join row.now.plan row.now.key) rows.old.items) }
    ensures rows { rows.new.items ≡ put_by (is_join row.now.plan row.now.key) (join_behind row.now.plan row.now.key) row.now rows.old.items }
    ensures order { Ascends (λ row. join_behind row.plan row.key) rows.new.items }
    ensures room { vec_capacity rows.new - length rows.new.items ≡ vec_capacity rows.old - length rows.old.items }
{
    if let Place::At(i) = place_of_join(rows, row.plan.as_str(), row.key.as_str()) {
        rows[i].write_numbers(row.numbers());
    }
}

pub(crate) fn write_join(rows: &mut Vec<JoinRow>, at: usize, numbers: JoinNumbers)
    requires order { Ascends (λ row. join_behind row.plan row.key) rows.old.items }
    requires inside { at < length rows.old.items }
    ensures rows { rows.new.items ≡ slice_set rows.old.items at (with_numbers (join_in rows.old.items at) numbers) }
    ensures put { rows.new.items ≡ put_join_of (with_numbers (join_in rows.old.items at) numbers) rows.old.items }
    ensures order { Ascends (λ row. join_behind row.plan row.key) rows.new.items }
    ensures room { vec_capacity rows.new - length rows.new.items ≡ vec_capacity rows.old - length rows.old.items }
{
    rows[at].write_numbers(numbers);
}
