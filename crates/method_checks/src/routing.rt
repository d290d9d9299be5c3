// Where a request goes.
ghost use Rattle.std.specs.Prelude.{◌≡◌, ◌<◌, length, IfOk, IfSome};
ghost use Rattle.std.specs.Option.{option_map};
ghost use Rattle.api_model.specs.Definition.{parts_of};
ghost use Rattle.resource_tree.specs.Matching.{IsBest};
ghost use Rattle.method_checks.specs.Best.{best};
ghost use Rattle.method_checks.specs.Routing.{IsWithin, method_at, paths_of, route_by, route_of};

use crate::routes::Route;
use crate::segments::read_segments;
use api_model::Api;
use call_facts::{Request, Target};
use gw_base::{Memory, Text};
use resource_tree::{Found, Hit, Tree};
use std::alloc::Global;

// The best of the paths that match.
fn find_best(tree: &Tree, segments: &[Text]) -> Option<Hit>
    ensures number { option_map (λ hit. hit.resource) result ≡ best tree.now segments.now }
    ensures best { IfSome result (λ hit. IsBest tree.now segments.now hit.resource) }
{
    tree.find(segments)
}

// The tree of the resources' paths.
fn tree_of(api: &Api) -> &Tree
    ensures paths { result.now ≡ paths_of api.now }
    ensures count { length result.now ≡ length (parts_of api.now).resources }
{
    api.tree()
}

// The method of a resource for a verb.
fn find_method(api: &Api, resource: u32, verb: &str) -> Option<u32>
    requires { resource < length (parts_of api.now).resources }
    ensures method { result ≡ method_at api.now resource verb.now }
    ensures within { IfSome result (λ m. m < length (parts_of api.now).methods) }
{
    api.entry(resource, verb)
}

// The best resource of these segments, and its method for this verb.
#[tactic(auto, unfolding(crate::specs::Routing::route_by))]
fn find_route(alloc: Global, api: &Api, verb: &str, segments: &[Text]) -> Result<Route, Memory>
    ensures route { IfOk result (λ found. found ≡ route_by api.now verb.now segments.now) }
    ensures within { IfOk result (IsWithin api.now) }
{
    let tree = tree_of(api);
    let Some(hit) = find_best(tree, segments) else {
        return Ok(Route::Missing);
    };
    match find_method(api, hit.resource, verb) {
        Some(method) => Ok(Route::Hit(Found::fill(alloc, tree, hit, segments)?, method)),
        None => Ok(Route::Missing),
    }
}

/// Where a request goes (API Gateway Developer Guide, "REST API methods"): the best resource of its path, and there the
/// method of its verb, else that of `ANY`. The parts of its target are handed in as [`Target::read`] gives them.
///
/// # Errors
///
/// [`Memory`] where there is no memory for the path's segments or for the parameters.
#[tactic(auto, unfolding(crate::specs::Routing::route_of))]
pub fn route(alloc: Global, api: &Api, request: &Request, target: &Target) -> Result<Route, Memory>
    ensures route { IfOk result (λ found. found ≡ route_of api.now request.now target.now) }
    // What is hit is a resource and a method of the definition.
    ensures within { IfOk result (IsWithin api.now) }
{
    if api.text_template().is_some() {
        return Ok(Route::TextApi);
    }
    let segments = read_segments(alloc, target.path.as_str())?;
    find_route(alloc, api, request.method.as_str(), &segments)
}
