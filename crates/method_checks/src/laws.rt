//! What holds of routes, and of the parameters that are missing.
ghost use Rattle.std.specs.Prelude.{map};
ghost use Rattle.api_model.specs.Definition.{parts_of};
ghost use Rattle.api_resources.specs.Paths.{IsTree};
ghost use Rattle.api_resources.specs.Resources.{path_of};
ghost use Rattle.method_checks.specs.Laws.{AlwaysNamesInTurn, AlwaysTellsBest, HitsTheBest, MissesWithCause, PrefersOwnEntry};
ghost use Rattle.method_checks.specs.Routing.{paths_of};

use api_model::Api;

/// The best path is the one that the paths' own relation tells, and there is none just where no path matches.
pub fn the_best_path_is_found()
    ensures { AlwaysTellsBest }
{}

/// What a request hits is the best resource, with the parameters that its path takes.
pub fn the_best_resource_is_hit()
    ensures { HitsTheBest }
{}

/// The parts of each resource's path are those that the path is read as.
pub fn each_path_has_its_parts(api: &Api)
    ensures { IsTree (map path_of (parts_of api.now).resources) (paths_of api.now) }
{
    let _tree = api.tree();
}

/// A request goes nowhere just where no path of a resource matches, or the best resource has no entry for its verb and none
/// for `ANY`.
pub fn a_request_that_goes_nowhere_has_its_cause()
    ensures { MissesWithCause }
{}

/// Where the resource has an entry for the verb of a request, that is its method, whatever it has for `ANY`.
pub fn an_own_entry_comes_before_any()
    ensures { PrefersOwnEntry }
{}

/// Each parameter that is missing is named, once, in the order of the definition, and no other is.
pub fn each_missing_parameter_is_named_in_turn()
    ensures { AlwaysNamesInTurn }
{}
