ghost use Rattle.std.specs.Prelude.{◌≡◌, ◌<◌, length, slice_get, take, Some, IfOk};
ghost use Rattle.std.specs.List.{enumerate_from};
ghost use Rattle.posting_sets.specs.Numbers.{set_at};

use doc_sets::DocSet;
use search_base::NoMemory;
use std::alloc::Global;

// The same documents.
pub(crate) fn copy_of(set: &DocSet) -> Result<DocSet, NoMemory>
    ensures { IfOk result (λ copy. copy.ids ≡ set.now.ids) }
{
    let copy = set.clone()?;
    Ok(copy)
}

// The set at a number, which is empty where there is none.
pub(crate) fn set_at(alloc: Global, rows: &[(u16, DocSet)], number: u16) -> Result<DocSet, NoMemory>
    ensures { IfOk result (λ set. set.ids ≡ set_at number rows.now) }
{
    for row in rows {
        if row.0 == number {
            return copy_of(&row.1);
        }
    }
    Ok(DocSet::new(alloc))
}

// The set at an index, where there is one.
pub(crate) fn nth(alloc: Global, sets: Vec<DocSet>, index: usize) -> DocSet
    ensures { index < length sets.items → slice_get sets.items index ≡ Some result }
{
    if index < sets.len() {
        let mut sets = sets;
        return sets.swap_remove(index);
    }
    DocSet::new(alloc)
}

// One more than the greatest pair cost by which documents are told.
const PAIR_COSTS: usize = 7;

// The sets of pair costs, each with its cost.
pub(crate) fn numbered(alloc: Global, sets: Vec<DocSet>) -> Result<Vec<(u16, DocSet)>, NoMemory>
    ensures { IfOk result (λ rows. rows.items ≡ enumerate_from 0 (take 7 sets.items)) }
{
    let mut sets = sets;
    sets.truncate(PAIR_COSTS);
    let mut rows = Vec::with_capacity(alloc, sets.len())?;
    let mut cost: u16 = 0;
    for set in sets {
        rows.push((cost, set))?;
        cost += 1;
    }
    Ok(rows)
}
