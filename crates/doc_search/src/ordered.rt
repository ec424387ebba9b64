ghost use Rattle.std.specs.Prelude.{reverse, IfOk};
ghost use Rattle.doc_sets.specs.Sets.{IsIncreasing};
ghost use Rattle.sort_rule.specs.Entries.{AreEntriesOf};
ghost use Rattle.sort_rule.specs.Ordered.{AreOrdered};
ghost use Rattle.facet_index.specs.Sorts.{sort_entry};
ghost use Rattle.leaf_table.specs.Tables.{kept_at};

use bucket_sort::Bucket;
use doc_sets::DocSet;
use facet_index::{entry_of, first_value};
use leaf_table::LeafTable;
use search_base::{NoMemory, PathId};
use sort_rule::{Entry, buckets_of};
use std::alloc::Global;

/// The documents of a universe in buckets by their entries under a path in a direction, ascending or not, the bucket of
/// the least entry last; a document without an entry there stands in no bucket. Goes over the leaves of each document
/// of the universe once, and sorts their entries.
pub(crate) fn ordered(
    alloc: Global,
    leaves: &LeafTable,
    path: PathId,
    up: bool,
    universe: &DocSet,
) -> Result<Vec<Bucket>, NoMemory>
    ensures { IfOk result (λ buckets. AreOrdered (λ d. sort_entry up path.0 (kept_at d leaves.now))
        universe.now.ids (reverse buckets.items)) }
{
    let entries = entries_of(alloc, leaves, path, up, universe)?;
    buckets_of(alloc, entries)
}

// The documents of the universe that have an entry, with it.
fn entries_of(
    alloc: Global,
    leaves: &LeafTable,
    path: PathId,
    up: bool,
    universe: &DocSet,
) -> Result<Vec<Entry>, NoMemory>
    ensures theirs { IfOk result (λ entries. AreEntriesOf (λ d. sort_entry up path.0 (kept_at d leaves.now))
        universe.now.ids entries.items) }
    ensures increasing { IsIncreasing universe.now.ids }
{
    let mut entries = Vec::new(alloc);
    let mut own = Vec::new(alloc);
    for id in universe.iter() {
        leaves.copy_under(id, path, &mut own)?;
        if let Some(value) = first_value(own.as_slice(), path, up) {
            let key = entry_of(up, value.clone()?);
            entries.push(Entry { key, id })?;
        }
    }
    Ok(entries)
}
