// The routes of the administration.
ghost use Rattle.std.specs.Prelude.{◌≡◌, ◌==◌, IfOk};
ghost use Rattle.std.specs.List.{list_any, slice_split};
ghost use Rattle.std.specs.Option.{option_and_then};
ghost use Rattle.admin_paths.specs.Paths.{path_in};
ghost use Rattle.record_fields.specs.Coding.{text_of as text_of_field};
ghost use Rattle.admin_routes.specs.Routes.{is_admin as is_admin_of, path_behind_admin, route_at_path, route_in, segments_of};

use admin_paths::{AdminPath, AdminPaths};
use call_facts::Target;
use gw_base::{Memory, Text};
use record_fields::text_of;
use std::alloc::Global;

/// A route, with its parameters as they are written.
#[derive(Drop)]
pub enum Route {
    /// An API gets the definition document in the body.
    PutDocument { api: Text },
    /// An API gets the template in the body, with which it answers each request.
    PutTemplate { api: Text },
    /// An API's definition is deployed.
    Deploy { api: Text },
    /// A stage points to a deployment, and gets its variables.
    PutStage { api: Text, stage: Text },
    /// A stage gets a canary: a deployment, its share of the calls, and its variables.
    PutCanary { api: Text, stage: Text },
    /// The canary of a stage becomes the stage's own deployment.
    Promote { api: Text, stage: Text },
    /// The policies that are remembered at a stage are forgotten.
    Flush { api: Text, stage: Text },
    /// A key gets its value, and is on or off.
    PutKey { key: Text },
    /// A plan gets its throttle, its quota and its stages.
    PutPlan { plan: Text },
    /// A key may call the stages of a plan.
    JoinKey { plan: Text, key: Text },
    /// A key of a plan may call so often more.
    Grant { plan: Text, key: Text },
    /// What a key of a plan may call, and has called.
    Usage { plan: Text, key: Text },
    /// The session closes.
    Shutdown,
}

/// Whether a target's path begins with the segment `_admin`.
#[tactic(auto, unfolding(crate::specs::Routes::is_admin))]
pub fn is_admin(target: &Target) -> bool
    ensures { result ≡ is_admin_of target.now }
{
    target.api.as_str() == "_admin"
}

// The path of a target behind `/_admin/`, where it is text.
fn path_behind(alloc: Global, target: &Target) -> Result<Option<Text>, Memory>
    ensures { IfOk result (λ path. path ≡ text_of_field (path_behind_admin target.now)) }
{
    let mut path = Vec::from_slice(alloc, target.stage.as_str().as_bytes())?;
    if let [_, rest @ ..] = target.path.as_str().as_bytes() {
        path.push(b'/')?;
        path.extend_from_slice(rest)?;
    }
    Ok(text_of(alloc, &path)?)
}

fn has_slash(text: &str) -> bool
    ensures { result ≡ list_any (λ b. b == 47) text.now }
{
    text.as_bytes().contains(&b'/')
}

// The route at a path of the table, where the verb is its own.
fn route_at(verb: &str, path: AdminPath) -> Option<Route>
    ensures { result ≡ route_at_path verb.now path }
{
    let (wanted, route) = match path {
        AdminPath::Document { api } => ("PUT", Route::PutDocument { api }),
        AdminPath::Template { api } => ("PUT", Route::PutTemplate { api }),
        AdminPath::Deployments { api } => ("POST", Route::Deploy { api }),
        AdminPath::Stage { api, stage } => ("PUT", Route::PutStage { api, stage }),
        AdminPath::Canary { api, stage } => ("PUT", Route::PutCanary { api, stage }),
        AdminPath::Promote { api, stage } => ("POST", Route::Promote { api, stage }),
        AdminPath::Flush { api, stage } => ("POST", Route::Flush { api, stage }),
        AdminPath::Key { key } => ("PUT", Route::PutKey { key }),
        AdminPath::Plan { plan } => ("PUT", Route::PutPlan { plan }),
        AdminPath::PlanKey { plan, key } => ("PUT", Route::JoinKey { plan, key }),
        AdminPath::Grant { plan, key } => ("POST", Route::Grant { plan, key }),
        AdminPath::Usage { plan, key } => ("GET", Route::Usage { plan, key }),
        AdminPath::Shutdown => ("POST", Route::Shutdown),
    };
    if verb == wanted { Some(route) } else { None }
}

// The route of a verb and of a path behind `/_admin/`.
fn route_of_path(alloc: Global, verb: &str, path: &str) -> Result<Option<Route>, Memory>
    ensures { IfOk result (λ route. route ≡ option_and_then (route_at_path verb.now) (path_in (slice_split (λ b. b == 47) path.now))) }
{
    let paths = AdminPaths::new(alloc)?;
    match paths.find(alloc, path)? {
        Some(found) => Ok(route_at(verb, found)),
        None => Ok(None),
    }
}

/// The route of a verb and of a target whose path begins with `_admin`. The router of the table is made for this call.
pub fn find_route(alloc: Global, verb: &str, target: &Target) -> Result<Option<Route>, Memory>
    ensures { IfOk result (λ route. route ≡ route_in verb.now (segments_of target.now)) }
{
    if has_slash(target.stage.as_str()) {
        return Ok(None);
    }
    match path_behind(alloc, target)? {
        Some(path) => route_of_path(alloc, verb, path.as_str()),
        None => Ok(None),
    }
}
