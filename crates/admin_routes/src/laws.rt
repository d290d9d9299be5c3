// What holds of routes.
ghost use Rattle.admin_routes.specs.Routes.{RoutesAreFound};

/// A route is found exactly where the verb is its own and the path has its literals in their places and one segment with a
/// byte for each parameter.
pub fn a_route_is_found_by_its_verb_and_path()
    ensures { RoutesAreFound }
{}
