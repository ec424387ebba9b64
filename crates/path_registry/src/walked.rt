ghost use Rattle.std.specs.Prelude.{◌≡◌, ◌+◌, ◌≤◌, ◌<◌, ◌++◌, length, true, false, IfOk};
ghost use Rattle.path_registry.specs.Paths.{has_path, with_path, registered};

use crate::registry::{MAX_PATHS, Registry};
use search_base::{NoMemory, Word};

/// Adds paths to the fresh ones, each that is neither registered nor added to the registry nor among them, in the order
/// in which the registry gains them. Tells whether the registry would have more than 1,000 paths. Then, and after an
/// error, a part of them may be added. All three together have at most 1,000 paths before.
pub fn note_walk(
    registry: &Registry,
    added: &Registry,
    fresh: &mut Registry,
    walk: Vec<Word>,
) -> Result<bool, NoMemory>
    requires { length registry.now.paths + length added.now.paths + length fresh.old.paths ≤ MAX_PATHS }
    ensures noted { IfOk result (λ spent. spent ≡ false → (registry.now.paths ++ added.now.paths) ++ fresh.new.paths
        ≡ registered walk.items ((registry.now.paths ++ added.now.paths) ++ fresh.old.paths)) }
    ensures within { IfOk result (λ spent. spent ≡ false
        → length registry.now.paths + length added.now.paths + length fresh.new.paths ≤ MAX_PATHS) }
    ensures spent { IfOk result (λ spent. spent ≡ true
        → MAX_PATHS < length (registered walk.items ((registry.now.paths ++ added.now.paths) ++ fresh.old.paths))) }
{
    for path in walk {
        if note_path(registry, added, fresh, path)? {
            return Ok(true);
        }
    }
    Ok(false)
}

// Adds a path to the fresh ones where it is neither registered nor added nor among them, and tells whether there would
// be too many. Then it is not added.
fn note_path(
    registry: &Registry,
    added: &Registry,
    fresh: &mut Registry,
    path: Word,
) -> Result<bool, NoMemory>
    requires { length registry.now.paths + length added.now.paths + length fresh.old.paths ≤ MAX_PATHS }
    ensures noted { IfOk result (λ spent. spent ≡ false → (registry.now.paths ++ added.now.paths) ++ fresh.new.paths
        ≡ with_path path ((registry.now.paths ++ added.now.paths) ++ fresh.old.paths)) }
    ensures within { IfOk result (λ spent. spent ≡ false
        → length registry.now.paths + length added.now.paths + length fresh.new.paths ≤ MAX_PATHS) }
    ensures spent { IfOk result (λ spent. spent ≡ true
        → MAX_PATHS < length (with_path path ((registry.now.paths ++ added.now.paths) ++ fresh.old.paths))) }
{
    if is_noted(registry, added, fresh, &path) {
        return Ok(false);
    }
    if registry.len() + added.len() + fresh.len() == MAX_PATHS {
        return Ok(true);
    }
    fresh.add(path)?;
    Ok(false)
}

fn is_noted(registry: &Registry, added: &Registry, fresh: &Registry, path: &Word) -> bool
    ensures { result ≡ has_path path.now ((registry.now.paths ++ added.now.paths) ++ fresh.now.paths) }
{
    is_known(registry, added, path) || fresh.find(path).is_some()
}

fn is_known(registry: &Registry, added: &Registry, path: &Word) -> bool
    ensures { result ≡ has_path path.now (registry.now.paths ++ added.now.paths) }
{
    registry.find(path).is_some() || added.find(path).is_some()
}
