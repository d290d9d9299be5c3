// Where a key stands in a table: a binary search each.
ghost use Rattle.std.specs.Prelude.{◌≡◌};
ghost use Rattle.keeper_core.specs.Lists.{Ascends, is_meta, is_api, is_deployment, is_stage, is_key, is_plan, is_join, meta_behind, api_behind, deployment_behind, stage_behind, key_behind, plan_behind, join_behind};
ghost use Rattle.keeper_core.specs.Places.{IsPlace};

use crate::place::{Place, place_of};
use crate::rows::{ApiRow, DeploymentRow, JoinRow, KeyRow, MetaRow, PlanRow, StageRow};

pub(crate) fn place_of_meta(rows: &[MetaRow], id: u64) -> Place
    requires { Ascends (λ row. meta_behind row.id) rows.now }
    ensures { IsPlace (is_meta id) (meta_behind id) rows.now result }
{
    place_of(rows.binary_search_by(|row| row.id.cmp(&id)))
}

pub(crate) fn place_of_api(rows: &[ApiRow], api: &str) -> Place
    requires { Ascends (λ row. api_behind row.api) rows.now }
    ensures { IsPlace (is_api api.now) (api_behind api.now) rows.now result }
{
    place_of(rows.binary_search_by(|row| row.api.as_str().cmp(api)))
}

pub(crate) fn place_of_deployment(rows: &[DeploymentRow], api: &str, number: u64) -> Place
    requires { Ascends (λ row. deployment_behind row.api row.number) rows.now }
    ensures { IsPlace (is_deployment api.now number) (deployment_behind api.now number) rows.now result }
{
    place_of(rows.binary_search_by(|row| row.api.as_str().cmp(api).then(row.number.cmp(&number))))
}

pub(crate) fn place_of_stage(rows: &[StageRow], api: &str, stage: &str) -> Place
    requires { Ascends (λ row. stage_behind row.api row.stage) rows.now }
    ensures { IsPlace (is_stage api.now stage.now) (stage_behind api.now stage.now) rows.now result }
{
    place_of(rows.binary_search_by(|row| row
        .api
        .as_str()
        .cmp(api)
        .then(row.stage.as_str().cmp(stage))))
}

pub(crate) fn place_of_key(rows: &[KeyRow], key: &str) -> Place
    requires { Ascends (λ row. key_behind row.key) rows.now }
    ensures { IsPlace (is_key key.now) (key_behind key.now) rows.now result }
{
    place_of(rows.binary_search_by(|row| row.key.as_str().cmp(key)))
}

pub(crate) fn place_of_plan(rows: &[PlanRow], plan: &str) -> Place
    requires { Ascends (λ row. plan_behind row.plan) rows.now }
    ensures { IsPlace (is_plan plan.now) (plan_behind plan.now) rows.now result }
{
    place_of(rows.binary_search_by(|row| row.plan.as_str().cmp(plan)))
}

pub(crate) fn place_of_join(rows: &[JoinRow], plan: &str, key: &str) -> Place
    requires { Ascends (λ row. join_behind row.plan row.key) rows.now }
    ensures { IsPlace (is_join plan.now key.now) (join_behind plan.now key.now) rows.now result }
{
    place_of(rows.binary_search_by(|row| row
        .plan
        .as_str()
        .cmp(plan)
        .then(row.key.as_str().cmp(key))))
}
