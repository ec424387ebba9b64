ghost use Rattle.request_routes.specs.Laws.{OneRouteAtMost};

/// No two rows of the table of routes have the method and the path of one request.
pub fn one_route_at_most()
    ensures { OneRouteAtMost }
{}
