ghost use Rattle.std.specs.Prelude.{◌≡◌, IfOk};
ghost use Rattle.request_routes.specs.Patterns.{FindsPaths, path_with};

use matchit::{InsertError, Router};
use search_base::NoMemory;
use std::alloc::Global;
use std::marker::Model;

/// The paths of the routes.
#[derive(Clone, Copy, Debug, PartialEq, Eq, Drop)]
pub(crate) enum Path {
    /// `/health`
    Health,
    /// `/indexes`
    Indexes,
    /// `/indexes/{uid}`
    Index,
    /// `/indexes/{uid}/documents`
    Documents,
    /// `/indexes/{uid}/documents/{id}`
    Document,
    /// `/indexes/{uid}/settings`
    Settings,
    /// `/indexes/{uid}/search`
    Search,
    /// `/multi-search`
    MultiSearch,
    /// `/indexes/{uid}/facet-search`
    FacetSearch,
    /// `/tasks/{uid}`
    Task,
}

/// The table of paths, in which a request's path is looked up. It is made once, before the first request.
///
/// A path stands in it by its pattern, a text with `_` for each named part. Contracts see nothing of a table, since
/// each has the same paths.
#[derive(Drop)]
pub struct RouteTable {
    router: Router<Path>,
}

impl Model for RouteTable {
    ghost use Rattle.request_routes.specs.Patterns.{FindsPaths};

    ghost Value = { Unit {0} };

    ghost view = { λ table. tt };

    ghost invariant = { λ table. FindsPaths table.router };
}

impl RouteTable {
    /// The table. Its one error is want of memory.
    pub fn new(alloc: Global) -> Result<RouteTable, NoMemory> {
        match router_of_paths(alloc) {
            Ok(router) => Ok(RouteTable { router }),
            Err(_) => Err(NoMemory),
        }
    }

    /// The path that has a pattern. Takes no memory.
    pub(crate) fn path_with(&self, pattern: &str) -> Option<Path>
        ensures { result ≡ path_with pattern.now }
    {
        match self.router.at(pattern) {
            Ok(found) => Some(*found.value),
            Err(_) => None,
        }
    }
}

// No two of these patterns conflict, so the one error is want of memory.
fn router_of_paths(alloc: Global) -> Result<Router<Path>, InsertError>
    ensures { IfOk result FindsPaths }
{
    let mut router = Router::new(alloc);
    router.insert("/health", Path::Health)?;
    router.insert("/indexes", Path::Indexes)?;
    router.insert("/indexes/_", Path::Index)?;
    router.insert("/indexes/_/documents", Path::Documents)?;
    router.insert("/indexes/_/documents/_", Path::Document)?;
    router.insert("/indexes/_/settings", Path::Settings)?;
    router.insert("/indexes/_/search", Path::Search)?;
    router.insert("/multi-search", Path::MultiSearch)?;
    router.insert("/indexes/_/facet-search", Path::FacetSearch)?;
    router.insert("/tasks/_", Path::Task)?;
    Ok(router)
}
