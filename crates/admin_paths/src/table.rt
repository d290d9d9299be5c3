// The table of paths, and the router that keeps it.
ghost use Rattle.std.specs.Prelude.{◌≡◌, IfOk, OnOk, [], map};
ghost use Rattle.matchit.specs.Route.{parse_route};
ghost use Rattle.admin_paths.specs.Router.{path_view, rows, with_read, with_routes};

use gw_base::Memory;
use matchit::Router;
use std::alloc::Global;

/// Which path of the table.
#[derive(Clone, Copy)]
pub enum Form {
    /// `apis/{api}`
    Document,
    /// `apis/{api}/text`
    Template,
    /// `apis/{api}/deployments`
    Deployments,
    /// `apis/{api}/stages/{stage}`
    Stage,
    /// `apis/{api}/stages/{stage}/canary`
    Canary,
    /// `apis/{api}/stages/{stage}/promote`
    Promote,
    /// `apis/{api}/stages/{stage}/flush`
    Flush,
    /// `keys/{key}`
    Key,
    /// `plans/{plan}`
    Plan,
    /// `plans/{plan}/keys/{key}`
    PlanKey,
    /// `plans/{plan}/keys/{key}/grant`
    Grant,
    /// `plans/{plan}/keys/{key}/usage`
    Usage,
    /// `shutdown`
    Shutdown,
}

const TABLE: [(&str, Form); 13] = [
    ("apis/{api}", Form::Document),
    ("apis/{api}/text", Form::Template),
    ("apis/{api}/deployments", Form::Deployments),
    ("apis/{api}/stages/{stage}", Form::Stage),
    ("apis/{api}/stages/{stage}/canary", Form::Canary),
    ("apis/{api}/stages/{stage}/promote", Form::Promote),
    ("apis/{api}/stages/{stage}/flush", Form::Flush),
    ("keys/{key}", Form::Key),
    ("plans/{plan}", Form::Plan),
    ("plans/{plan}/keys/{key}", Form::PlanKey),
    ("plans/{plan}/keys/{key}/grant", Form::Grant),
    ("plans/{plan}/keys/{key}/usage", Form::Usage),
    ("shutdown", Form::Shutdown),
];

fn add(router: &mut Router<Form>, path: &str, form: Form) -> Result<(), Memory>
    ensures { OnOk result (router.new ≡ with_read (parse_route path.now) form router.old) }
{
    match router.insert(path, form) {
        Ok(()) => Ok(()),
        Err(_) => Err(Memory),
    }
}

// A router of these paths.
fn router_of(alloc: Global, paths: &[(&str, Form)]) -> Result<Router<Form>, Memory>
    ensures { IfOk result (λ router. router ≡ with_routes [] (map path_view paths.now)) }
{
    let mut router = Router::new(alloc);
    let mut i = 0;
    while i < paths.len() {
        let (path, form) = paths[i];
        add(&mut router, path, form)?;
        i += 1;
    }
    Ok(router)
}

/// A router of the table.
pub fn table_router(alloc: Global) -> Result<Router<Form>, Memory>
    ensures { IfOk result (λ router. router ≡ rows) }
{
    router_of(alloc, &TABLE)
}
