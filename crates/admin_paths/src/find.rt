// The path of the table that a path is.
ghost use Rattle.std.specs.Prelude.{◌≡◌, ◌==◌, ℕ, List, map, Some, IfOk};
ghost use Rattle.std.specs.Borrow.{Bor};
ghost use Rattle.std.specs.List.{slice_split};
ghost use Rattle.std.specs.Option.{option_map};
ghost use Rattle.matchit.specs.Seek.{first};
ghost use Rattle.admin_paths.specs.Paths.{path_in, read_by as read_by_form, with_one as with_one_of, with_two as with_two_of, without as without_of};
ghost use Rattle.admin_paths.specs.Router.{form_of};

use crate::paths::AdminPath;
use crate::table::{Form, table_router};
use gw_base::{Memory, Text};
use matchit::Router;
use std::alloc::{AllocError, Global};
use std::marker::Model;

/// A router of the table.
pub struct AdminPaths {
    router: Router<Form>,
}

impl Drop for AdminPaths {
    fn drop(self) {
        let Self { router } = self;
        drop(router);
    }
}

impl Model for AdminPaths {
    ghost use Rattle.std.specs.Prelude.{◌≡◌};
    ghost use Rattle.admin_paths.specs.Router.{rows};

    ghost Value = { Unit {0} };

    ghost view = { λ a. tt };

    ghost invariant = { λ a. a.router ≡ rows };
}

fn split(alloc: Global, path: &str) -> Result<Vec<&str>, AllocError>
    ensures { IfOk result (λ parts. map (λ (part : Bor (List ℕ)). part.now) parts.items ≡ slice_split (λ b. b == 47) path.now) }
{
    path.split('/').collect(alloc)
}

fn copied(alloc: Global, segment: &str) -> Result<Text, Memory>
    ensures { IfOk result (λ text. text ≡ segment.now) }
{
    Ok(Text::of(String::from_str(alloc, segment)?))
}

// The path of a form without parameters.
fn without(form: Form) -> Option<AdminPath>
    ensures { result ≡ without_of form }
{
    match form {
        Form::Shutdown => Some(AdminPath::Shutdown),
        _ => None,
    }
}

// The path of a form with one parameter.
fn with_one(alloc: Global, form: Form, segment: &str) -> Result<Option<AdminPath>, Memory>
    ensures { IfOk result (λ path. path ≡ with_one_of form segment.now) }
{
    let name = copied(alloc, segment)?;
    Ok(match form {
        Form::Document => Some(AdminPath::Document { api: name }),
        Form::Template => Some(AdminPath::Template { api: name }),
        Form::Deployments => Some(AdminPath::Deployments { api: name }),
        Form::Key => Some(AdminPath::Key { key: name }),
        Form::Plan => Some(AdminPath::Plan { plan: name }),
        _ => None,
    })
}

// The path of a form with two.
fn with_two(
    alloc: Global,
    form: Form,
    first: &str,
    second: &str,
) -> Result<Option<AdminPath>, Memory>
    ensures { IfOk result (λ path. path ≡ with_two_of form first.now second.now) }
{
    let first = copied(alloc, first)?;
    let second = copied(alloc, second)?;
    Ok(match form {
        Form::Stage => Some(AdminPath::Stage {
            api: first,
            stage: second,
        }),
        Form::Canary => Some(AdminPath::Canary {
            api: first,
            stage: second,
        }),
        Form::Promote => Some(AdminPath::Promote {
            api: first,
            stage: second,
        }),
        Form::Flush => Some(AdminPath::Flush {
            api: first,
            stage: second,
        }),
        Form::PlanKey => Some(AdminPath::PlanKey {
            plan: first,
            key: second,
        }),
        Form::Grant => Some(AdminPath::Grant {
            plan: first,
            key: second,
        }),
        Form::Usage => Some(AdminPath::Usage {
            plan: first,
            key: second,
        }),
        _ => None,
    })
}

// The form of a path, with the parameters at their places.
fn read_by(alloc: Global, form: Form, segments: &[&str]) -> Result<Option<AdminPath>, Memory>
    ensures { IfOk result (λ path. path ≡ read_by_form form (map (λ (part : Bor (List ℕ)). part.now) segments.now)) }
{
    match segments {
        [_] => Ok(without(form)),
        [_, name] => with_one(alloc, form, name),
        [_, name, _] => with_one(alloc, form, name),
        [_, first, _, second] => with_two(alloc, form, first, second),
        [_, first, _, second, _] => with_two(alloc, form, first, second),
        _ => Ok(None),
    }
}

impl AdminPaths {
    /// A router of the table.
    pub fn new(alloc: Global) -> Result<Self, Memory> {
        Ok(AdminPaths {
            router: table_router(alloc)?,
        })
    }

    // Which path of the table this one is.
    #[tactic(auto, using(crate::proofs::Search::finds))]
    fn form(&self, path: &str) -> Option<Form>
        ensures { result ≡ option_map form_of (path_in (slice_split (λ b. b == 47) path.now)) }
    {
        match self.router.at(path) {
            Ok(found) => Some(*found.value),
            Err(_) => None,
        }
    }

    /// The path of the table that a path behind `/_admin/` is.
    #[tactic(auto, using(crate::proofs::Search::read_back))]
    pub fn find(&self, alloc: Global, path: &str) -> Result<Option<AdminPath>, Memory>
        ensures { IfOk result (λ found. found ≡ path_in (slice_split (λ b. b == 47) path.now)) }
    {
        let Some(form) = self.form(path) else {
            return Ok(None);
        };
        let segments = split(alloc, path)?;
        read_by(alloc, form, &segments)
    }
}
