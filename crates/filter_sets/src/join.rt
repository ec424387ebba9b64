ghost use Rattle.std.specs.Prelude.{◌≡◌, ℕ, Bool, not, ◌&&◌, ◌||◌, filter, IfOk};
ghost use Rattle.doc_sets.specs.Sets.{has};

use doc_sets::{DocSet, DocSetBuilder, operations_are_on_members, sets_are_their_members};
use search_base::NoMemory;
use std::alloc::Global;

/// The documents of a set but for those that pass.
pub(crate) fn except(alloc: Global, all: &DocSet, docs: &DocSet) -> Result<DocSet, NoMemory>
    ensures { IfOk result (λ rest. (passes : ℕ → Bool) → docs.now.ids ≡ filter passes all.now.ids
        → rest.ids ≡ filter (λ id. not (passes id)) all.now.ids) }
{
    operations_are_on_members();
    sets_are_their_members();
    let rest = all.minus(alloc, docs)?;
    let _lens = (rest.len(), all.len());
    Ok(rest)
}

/// The documents of a set that pass one test or the other.
pub(crate) fn either(
    alloc: Global,
    docs: &DocSet,
    more: &DocSet,
    all: &DocSet,
) -> Result<DocSet, NoMemory>
    ensures { IfOk result (λ both. (passes other : ℕ → Bool) → docs.now.ids ≡ filter passes all.now.ids
        → more.now.ids ≡ filter other all.now.ids → both.ids ≡ filter (λ id. passes id || other id) all.now.ids) }
{
    operations_are_on_members();
    sets_are_their_members();
    let both = docs.or(alloc, more)?;
    let _lens = (both.len(), all.len());
    Ok(both)
}

/// The set of the documents that were found among all.
pub(crate) fn finish(alloc: Global, found: DocSetBuilder, all: &DocSet) -> Result<DocSet, NoMemory>
    ensures { IfOk result (λ docs. (passes : ℕ → Bool)
        → ((id : ℕ) → has found id ≡ (passes id && has all.now.ids id)) → docs.ids ≡ filter passes all.now.ids) }
{
    sets_are_their_members();
    let docs = found.finish(alloc)?;
    let _lens = (docs.len(), all.len());
    Ok(docs)
}
