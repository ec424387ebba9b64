ghost use Rattle.std.specs.Prelude.{◌≡◌, ℕ, not, ◌&&◌, ◌||◌, IfOk, OnOk};
ghost use Rattle.doc_sets.specs.Sets.{has};
ghost use Rattle.leaf_table.specs.Changes.{numbers};

use doc_sets::{DocSet, DocSetBuilder, operations_are_on_members};
use search_base::{DocId, NoMemory};
use std::alloc::Global;

// The ids after some went and others came. An id that goes and comes is there.
pub(crate) fn ids_after(
    alloc: Global,
    ids: &DocSet,
    gone: &[DocId],
    come: &[DocId],
) -> Result<DocSet, NoMemory>
    ensures { IfOk result (λ set. (id : ℕ) → has set.ids id
        ≡ (has (numbers come.now) id || (has ids.now.ids id && not (has (numbers gone.now) id)))) }
{
    operations_are_on_members();
    let gone = set_of(alloc, gone)?;
    let stay = ids.minus(alloc, &gone)?;
    let mut all = DocSetBuilder::new(alloc, 0)?;
    all.add(&stay)?;
    add_ids(&mut all, come)?;
    all.finish(alloc)
}

// The set of some ids, in any order.
fn set_of(alloc: Global, ids: &[DocId]) -> Result<DocSet, NoMemory>
    ensures { IfOk result (λ set. (id : ℕ) → has set.ids id ≡ has (numbers ids.now) id) }
{
    let mut set = DocSetBuilder::new(alloc, 0)?;
    add_ids(&mut set, ids)?;
    set.finish(alloc)
}

// Adds some ids to a set.
fn add_ids(set: &mut DocSetBuilder, ids: &[DocId]) -> Result<(), NoMemory>
    ensures { OnOk result ((id : ℕ) → has set.new id ≡ (has (numbers ids.now) id || has set.old id)) }
{
    operations_are_on_members();
    for id in ids {
        set.add_id(*id)?;
    }
    Ok(())
}
