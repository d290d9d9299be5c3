// A path of the table.
use gw_base::Text;

/// A path of the table, with its parameters as they are written.
#[derive(Drop)]
pub enum AdminPath {
    /// An API.
    Document { api: Text },
    /// The template of an API.
    Template { api: Text },
    /// The deployments of an API.
    Deployments { api: Text },
    /// A stage of an API.
    Stage { api: Text, stage: Text },
    /// The canary of a stage.
    Canary { api: Text, stage: Text },
    /// The canary of a stage, as it becomes the stage's own.
    Promote { api: Text, stage: Text },
    /// The policies that are remembered at a stage, as they are forgotten.
    Flush { api: Text, stage: Text },
    /// An API key.
    Key { key: Text },
    /// A usage plan.
    Plan { plan: Text },
    /// A key of a plan.
    PlanKey { plan: Text, key: Text },
    /// The calls that a key of a plan is granted.
    Grant { plan: Text, key: Text },
    /// What a key of a plan has used.
    Usage { plan: Text, key: Text },
    /// The session's end.
    Shutdown,
}
