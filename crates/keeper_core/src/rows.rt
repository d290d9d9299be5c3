// The rows of the tables.
ghost use Rattle.std.specs.Prelude.{◌≡◌};
ghost use Rattle.keeper_core.specs.Held.{is_in as is_in_of};
ghost use Rattle.keeper_core.specs.Lists.{table_of};

use crate::table::Table;
use gw_base::Text;

/// The one row of the table `meta`. Its key is `id`.
#[derive(Drop)]
pub struct MetaRow {
    /// The number of the row.
    pub id: u64,
    /// The version of the store's layout.
    pub version: u64,
}

/// An API. Its key is `api`.
#[derive(Drop)]
pub struct ApiRow {
    /// Its name.
    pub api: Text,
    /// 1 where the source is a template that answers every request, 0 where it is a definition document.
    pub text: u64,
    /// The template, or the definition document, as it stands now.
    pub source: Text,
}

/// A deployment of an API. Its key is `api`, then `number`.
#[derive(Drop)]
pub struct DeploymentRow {
    /// The name of the API.
    pub api: Text,
    /// Its number among the deployments of the API, from 1.
    pub number: u64,
    /// 1 where the source is a template that answers every request, 0 where it is a definition document.
    pub text: u64,
    /// The template, or the definition document, as it stood when it was deployed.
    pub source: Text,
}

/// A stage of an API. Its key is `api`, then `stage`.
#[derive(Drop)]
pub struct StageRow {
    /// The name of the API.
    pub api: Text,
    /// The name of the stage.
    pub stage: Text,
    /// The number of the deployment to which it points.
    pub deployment: u64,
    /// Its variables, as fields `name=value` joined by spaces.
    pub vars: Text,
    /// The number of the canary's deployment; 0 where there is no canary.
    pub canary: u64,
    /// The share of requests that the canary takes.
    pub share: u64,
    /// The canary's variables, as fields `name=value` joined by spaces.
    pub canary_vars: Text,
}

/// An API key. Its key is `key`.
#[derive(Drop)]
pub struct KeyRow {
    /// Its name.
    pub key: Text,
    /// The value that a request gives.
    pub value: Text,
    /// 1 where it is enabled, 0 where it is not.
    pub enabled: u64,
}

/// A usage plan. Its key is `plan`.
#[derive(Drop)]
pub struct PlanRow {
    /// Its name.
    pub plan: Text,
    /// Admissions a second; 0, with `burst` 0, where the plan has no throttle.
    pub rate: u64,
    /// The most admissions at once; 0, with `rate` 0, where the plan has no throttle.
    pub burst: u64,
    /// The version of the throttle, which each change raises.
    pub tversion: u64,
    /// The calls that a period of the quota allows.
    pub qlimit: u64,
    /// The calls that are taken off the first period.
    pub qoffset: u64,
    /// The quota's period: 0 where the plan has no quota, 1 DAY, 2 WEEK, 3 MONTH.
    pub qkind: u64,
    /// The stages of the plan, as fields joined by spaces.
    pub stages: Text,
}

/// A key that joined a plan, and its use. Its key is `plan`, then `key`.
#[derive(Drop)]
pub struct JoinRow {
    /// The name of the plan.
    pub plan: Text,
    /// The name of the API key.
    pub key: Text,
    /// The level of the bucket in thousandths of an admission, true at the moment `at` under the throttle `tversion`.
    pub level: u64,
    /// The moment of the level, in milliseconds since 1970 in UTC.
    pub at: u64,
    /// The version of the throttle under which the level is true.
    pub tversion: u64,
    /// The kind of the open period: 0 where none has opened, 1 DAY, 2 WEEK, 3 MONTH.
    pub pkind: u64,
    /// The number of the open period.
    pub pnumber: u64,
    /// The calls that the open period allows.
    pub allowance: u64,
    /// The calls that the open period has used.
    pub used: u64,
    /// 1 until a second period opens, 0 from then on.
    pub first: u64,
}

/// A row of any table.
#[derive(Drop)]
pub enum Row {
    Meta(MetaRow),
    Api(ApiRow),
    Deployment(DeploymentRow),
    Stage(StageRow),
    Key(KeyRow),
    Plan(PlanRow),
    Join(JoinRow),
}

impl Row {
    /// The table in which the row stands.
    pub fn table(&self) -> Table
        ensures { result ≡ table_of self.now }
    {
        match self {
            Row::Meta(_) => Table::Meta,
            Row::Api(_) => Table::Apis,
            Row::Deployment(_) => Table::Deployments,
            Row::Stage(_) => Table::Stages,
            Row::Key(_) => Table::Keys,
            Row::Plan(_) => Table::Plans,
            Row::Join(_) => Table::Joins,
        }
    }

    /// Whether the row stands in this table.
    pub fn is_in(&self, table: Table) -> bool
        ensures { result ≡ is_in_of table self.now }
    {
        self.table() == table
    }
}
