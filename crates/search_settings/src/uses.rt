ghost use Rattle.std.specs.Prelude.{◌≡◌, ◌+◌, ◌<◌, ◌≤◌, ◌++◌, length, IfOk, IfSome};
ghost use Rattle.std.specs.List.{AllByRecursion};
ghost use Rattle.search_settings.specs.Uses.{same_use as is_same_use, use_alike as are_alike, use_of as use_in, uses_from};

use doc_rows::PathUse;
use index_settings::{Settings, is_faceted, rank_of};
use search_base::{NoMemory, Word};
use std::alloc::Global;

/// How the settings use each path of a registry, in its order.
pub fn uses_of(alloc: Global, settings: &Settings, paths: &[Word]) -> Result<Vec<PathUse>, NoMemory>
    requires { length paths.now ≤ 1000 }
    ensures uses { IfOk result (λ uses. uses.items ≡ uses_from settings.now 0 paths.now) }
    ensures len { IfOk result (λ uses. length uses.items ≡ length paths.now) }
{
    uses_behind(alloc, settings, &[], paths)
}

/// How the settings use each path of a registry that gains paths: those that are known, and behind them the uses of the
/// paths that it gains. No other path is looked at.
pub fn uses_behind(
    alloc: Global,
    settings: &Settings,
    known: &[PathUse],
    added: &[Word],
) -> Result<Vec<PathUse>, NoMemory>
    requires { length known.now + length added.now ≤ 1000 }
    ensures { IfOk result (λ uses. uses.items ≡ known.now ++ uses_from settings.now (length known.now) added.now) }
{
    let mut uses = Vec::with_capacity(alloc, known.len() + added.len())?;
    uses.extend_from_slice(known)?;
    for (place, path) in added.iter().enumerate() {
        uses.push(use_of(settings, path, (known.len() + place) as u16))?;
    }
    Ok(uses)
}

/// The rank of each path that is searched is below 65,535. It does nothing.
pub fn ranks_are_low(settings: &Settings, paths: &[Word])
    requires { length paths.now ≤ 1000 }
    ensures { AllByRecursion (λ path_use. IfSome path_use.rank (λ rank. rank < 65535))
        (uses_from settings.now 0 paths.now) }
{
    // No more than 65,535 entries say what is searched.
    let _entries = settings.searchable_attributes();
}

/// Whether both settings use each path of a registry alike. Takes no memory.
pub fn use_alike(settings: &Settings, others: &Settings, paths: &[Word]) -> bool
    requires { length paths.now ≤ 1000 }
    ensures { result ≡ are_alike settings.now others.now paths.now }
{
    for (number, path) in paths.iter().enumerate() {
        let path_use = use_of(settings, path, number as u16);
        if !same_use(path_use, use_of(others, path, number as u16)) {
            return false;
        }
    }
    true
}

// How the settings use the path of this number.
fn use_of(settings: &Settings, path: &Word, number: u16) -> PathUse
    ensures { result ≡ use_in settings.now path.now number }
{
    PathUse {
        rank: rank_of(settings, path.as_str(), number),
        faceted: is_faceted(settings, path.as_str()),
    }
}

fn same_use(path_use: PathUse, other: PathUse) -> bool
    ensures { result ≡ is_same_use path_use other }
{
    path_use.rank == other.rank && path_use.faceted == other.faceted
}
