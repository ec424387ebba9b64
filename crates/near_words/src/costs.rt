ghost use Rattle.std.specs.Prelude.{◌≡◌, ℕ, ◌+◌, ◌<◌, map, IfOk, OnOk};
ghost use Rattle.doc_sets.specs.Sets.{IsIncreasing};
ghost use Rattle.near_words.specs.FromDocument.{from_document};
ghost use Rattle.near_words.specs.ByCost.{cost_in, ids_at, ids_by_cost, costed_at};

use crate::by_document::read;
use crate::near::pair_cost;
use doc_sets::DocSet;
use search_base::{DocId, NoMemory};
use sorted_pages::{Entries, SortedPages};
use std::alloc::Global;

// The entries of one document in each of two lists.
#[derive(Drop)]
struct Runs {
    left: Vec<u64>,
    right: Vec<u64>,
}

// A document, and its pair cost.
#[derive(Clone, Copy, Drop)]
struct Costed {
    id: DocId,
    cost: u8,
}

// The pair cost in a document, of which both lists pass the entries.
fn cost_at(
    left: &mut Entries<'_>,
    right: &mut Entries<'_>,
    id: DocId,
    runs: &mut Runs,
) -> Result<u8, NoMemory>
    ensures cost { IfOk result (λ cost. cost ≡ cost_in left.old right.old id.0) }
    ensures left { OnOk result (left.new ≡ from_document (id.0 + 1) left.old) }
    ensures right { OnOk result (right.new ≡ from_document (id.0 + 1) right.old) }
{
    runs.left.clear();
    runs.right.clear();
    read(left, id, &mut runs.left)?;
    read(right, id, &mut runs.right)?;
    Ok(pair_cost(runs.left.as_slice(), runs.right.as_slice()))
}

// The documents whose pair cost is below 7, with it.
fn find_costs(
    alloc: Global,
    universe: &DocSet,
    left: &SortedPages,
    right: &SortedPages,
) -> Result<Vec<Costed>, NoMemory>
    ensures found { IfOk result (λ found. (cost : ℕ) → cost < 7 → costed_at found.items cost
        ≡ ids_at (cost_in left.now.entries right.now.entries) universe.now.ids cost) }
    ensures increasing { IsIncreasing universe.now.ids }
{
    let mut runs = Runs {
        left: Vec::new(alloc),
        right: Vec::new(alloc),
    };
    let mut lefts = left.iter();
    let mut rights = right.iter();
    let mut found = Vec::new(alloc);
    for id in universe.iter() {
        let cost = cost_at(&mut lefts, &mut rights, id, &mut runs)?;
        if cost < 7 {
            found.push(Costed { id, cost })?;
        }
    }
    Ok(found)
}

// The documents that were found with a cost.
fn set_at(alloc: Global, found: &[Costed], cost: u8) -> Result<DocSet, NoMemory>
    requires { IsIncreasing (costed_at found.now cost) }
    ensures { IfOk result (λ set. set.ids ≡ costed_at found.now cost) }
{
    let mut ids = Vec::new(alloc);
    for each in found {
        if each.cost == cost {
            ids.push(each.id)?;
        }
    }
    DocSet::from_sorted(alloc, ids.as_slice())
}

// The documents of the universe by the pair cost of two words, given the lists of both: for each cost from 0 to 6 the
// documents that have it. The universe is gone over once, and of each list only what the universe's documents have.
pub(crate) fn documents_by_cost(
    alloc: Global,
    universe: &DocSet,
    left: &SortedPages,
    right: &SortedPages,
) -> Result<Vec<DocSet>, NoMemory>
    ensures { IfOk result (λ sets. map (λ set. set.ids) sets.items
        ≡ ids_by_cost (cost_in left.now.entries right.now.entries) universe.now.ids) }
{
    let found = find_costs(alloc, universe, left, right)?;
    let mut sets = Vec::new(alloc);
    for cost in 0..7 {
        sets.push(set_at(alloc, found.as_slice(), cost)?)?;
    }
    Ok(sets)
}
