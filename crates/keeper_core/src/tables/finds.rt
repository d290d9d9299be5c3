// What stands in the tables: slices of rows, rows by their keys, and places.
ghost use Rattle.std.specs.Prelude.{◌≡◌, ◌<◌, length, IfSome, IsSome, option_map};
ghost use Rattle.std.specs.Option.{option_copied};
ghost use Rattle.keeper_core.specs.Joins.{join_at as join_at_of};
ghost use Rattle.keeper_core.specs.Lists.{api_row, deployment_row, stage_row, key_row, plan_row, join_row, is_api, is_deployment, is_stage, Ascends, meta_behind, api_behind, deployment_behind, stage_behind, key_behind, plan_behind, join_behind};
ghost use Rattle.keeper_core.specs.Places.{IsPlace, IsPlaceOf};

use super::Tables;
use crate::place::{Place, row_at};
use crate::rows::{ApiRow, DeploymentRow, JoinRow, KeyRow, MetaRow, PlanRow, Row, StageRow};
use crate::searches::{
    place_of_api, place_of_deployment, place_of_join, place_of_key, place_of_meta, place_of_plan,
    place_of_stage,
};

impl Tables {
    /// The rows of the table `meta`, by their numbers.
    pub fn metas(&self) -> &[MetaRow]
        ensures rows { result.now ≡ self.now.lists.metas }
        ensures order { Ascends (λ row. meta_behind row.id) result.now }
    {
        self.metas.as_slice()
    }

    /// The APIs, by their names.
    pub fn apis(&self) -> &[ApiRow]
        ensures rows { result.now ≡ self.now.lists.apis }
        ensures order { Ascends (λ row. api_behind row.api) result.now }
    {
        self.apis.as_slice()
    }

    /// The deployments, by their APIs and numbers.
    pub fn deployments(&self) -> &[DeploymentRow]
        ensures rows { result.now ≡ self.now.lists.deployments }
        ensures order { Ascends (λ row. deployment_behind row.api row.number) result.now }
    {
        self.deployments.as_slice()
    }

    /// The stages, by their APIs and names.
    pub fn stages(&self) -> &[StageRow]
        ensures rows { result.now ≡ self.now.lists.stages }
        ensures order { Ascends (λ row. stage_behind row.api row.stage) result.now }
    {
        self.stages.as_slice()
    }

    /// The API keys, by their names.
    pub fn keys(&self) -> &[KeyRow]
        ensures rows { result.now ≡ self.now.lists.keys }
        ensures order { Ascends (λ row. key_behind row.key) result.now }
    {
        self.keys.as_slice()
    }

    /// The usage plans, by their names.
    pub fn plans(&self) -> &[PlanRow]
        ensures rows { result.now ≡ self.now.lists.plans }
        ensures order { Ascends (λ row. plan_behind row.plan) result.now }
    {
        self.plans.as_slice()
    }

    /// The joins, by their plans and keys.
    pub fn joins(&self) -> &[JoinRow]
        ensures rows { result.now ≡ self.now.lists.joins }
        ensures order { Ascends (λ row. join_behind row.plan row.key) result.now }
    {
        self.joins.as_slice()
    }

    /// The row of an API.
    pub fn api(&self, api: &str) -> Option<&ApiRow>
        ensures { option_copied result ≡ api_row self.now.lists api.now }
    {
        row_at(&self.apis, place_of_api(&self.apis, api))
    }

    /// The row of a deployment of an API, by its number from 1.
    pub fn deployment(&self, api: &str, number: u64) -> Option<&DeploymentRow>
        ensures { option_copied result ≡ deployment_row self.now.lists api.now number }
    {
        row_at(
            &self.deployments,
            place_of_deployment(&self.deployments, api, number),
        )
    }

    /// The row of a stage of an API.
    pub fn stage(&self, api: &str, stage: &str) -> Option<&StageRow>
        ensures { option_copied result ≡ stage_row self.now.lists api.now stage.now }
    {
        row_at(&self.stages, place_of_stage(&self.stages, api, stage))
    }

    /// The row of an API key.
    pub fn key(&self, key: &str) -> Option<&KeyRow>
        ensures { option_copied result ≡ key_row self.now.lists key.now }
    {
        row_at(&self.keys, place_of_key(&self.keys, key))
    }

    /// The row of a usage plan.
    pub fn plan(&self, plan: &str) -> Option<&PlanRow>
        ensures { option_copied result ≡ plan_row self.now.lists plan.now }
    {
        row_at(&self.plans, place_of_plan(&self.plans, plan))
    }

    /// The row of a key that joined a plan.
    pub fn join(&self, plan: &str, key: &str) -> Option<&JoinRow>
        ensures { option_copied result ≡ join_row self.now.lists plan.now key.now }
    {
        row_at(&self.joins, place_of_join(&self.joins, plan, key))
    }

    /// The place of a key that joined a plan, counted from 0 in the order of the keys; none where it did not join.
    pub fn find_join(&self, plan: &str, key: &str) -> Option<usize>
        ensures inside { IfSome result (λ at. at < length self.now.lists.joins) }
        ensures row { join_row self.now.lists plan.now key.now ≡ option_map (join_at_of self.now.lists) result }
    {
        match place_of_join(&self.joins, plan, key) {
            Place::At(at) => Some(at),
            Place::Before(_) => None,
        }
    }

    /// The join at this place, counted from 0 in the order of the keys.
    pub fn join_at(&self, at: usize) -> &JoinRow
        requires { at < length self.now.lists.joins }
        ensures row { result.now ≡ join_at_of self.now.lists at }
        ensures there { IsSome (join_row self.now.lists result.now.plan result.now.key) }
    {
        &self.joins[at]
    }

    /// The place of a row's key in its table.
    pub fn place(&self, row: &Row) -> Place
        ensures { IsPlaceOf row.now self.now.lists result }
    {
        match row {
            Row::Meta(row) => place_of_meta(&self.metas, row.id),
            Row::Api(row) => place_of_api(&self.apis, row.api.as_str()),
            Row::Deployment(row) => place_of_deployment(
                &self.deployments,
                row.api.as_str(),
                row.number,
            ),
            Row::Stage(row) => place_of_stage(&self.stages, row.api.as_str(), row.stage.as_str()),
            Row::Key(row) => place_of_key(&self.keys, row.key.as_str()),
            Row::Plan(row) => place_of_plan(&self.plans, row.plan.as_str()),
            Row::Join(row) => place_of_join(&self.joins, row.plan.as_str(), row.key.as_str()),
        }
    }

    /// The place of an API.
    pub fn place_of_api(&self, api: &str) -> Place
        ensures { IsPlace (is_api api.now) (api_behind api.now) self.now.lists.apis result }
    {
        place_of_api(&self.apis, api)
    }

    /// The place of a deployment of an API, by its number from 1.
    pub fn place_of_deployment(&self, api: &str, number: u64) -> Place
        ensures { IsPlace (is_deployment api.now number) (deployment_behind api.now number) self.now.lists.deployments result }
    {
        place_of_deployment(&self.deployments, api, number)
    }

    /// The place of a stage of an API.
    pub fn place_of_stage(&self, api: &str, stage: &str) -> Place
        ensures { IsPlace (is_stage api.now stage.now) (stage_behind api.now stage.now) self.now.lists.stages result }
    {
        place_of_stage(&self.stages, api, stage)
    }
}
