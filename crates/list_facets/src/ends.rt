ghost use Rattle.std.specs.Prelude.{◌≡◌, ℕ, List, map, IfOk};
ghost use Rattle.search_base.specs.RowsView.{RowsView};
ghost use Rattle.search_base.specs.SortKeys.{numbers, first_by};
ghost use Rattle.facet_counts.specs.Counts.{leaves_at, stats_of, both_of};
ghost use Rattle.list_facets.specs.Ends.{comes_first, entry_number};
ghost use Rattle.list_facets.specs.Rows.{AreRowsOf};

use doc_sets::DocSet;
use facet_index::Indexed;
use search_base::{CostKey, NoMemory, PathId, SortKey};
use std::alloc::Global;

/// The least and the greatest number that documents of the set have under the path, where one has a number. Looks at no
/// value between them.
pub(crate) fn stats<I: Indexed>(
    alloc: Global,
    index: &I,
    path: PathId,
    matching: &DocSet,
) -> Result<Option<(i128, i128)>, NoMemory>
    ensures { IfOk result (λ stats. (rows : ℕ → RowsView) → AreRowsOf rows (I.documents index.now)
        → stats ≡ stats_of path.0 (map rows matching.now.ids)) }
{
    let least = end_number(alloc, index, path, true, matching)?;
    let greatest = end_number(alloc, index, path, false, matching)?;
    Ok(both(least, greatest))
}

fn both(least: Option<i128>, greatest: Option<i128>) -> Option<(i128, i128)>
    ensures { result ≡ both_of least greatest }
{
    match (least, greatest) {
        (Some(least), Some(greatest)) => Some((least, greatest)),
        _ => None,
    }
}

// The number that comes first, ascending or descending. As numbers come before texts in both directions, it is that of
// the first entry that a document has, if that entry is a number.
fn end_number<I: Indexed>(
    alloc: Global,
    index: &I,
    path: PathId,
    up: bool,
    matching: &DocSet,
) -> Result<Option<i128>, NoMemory>
    ensures { IfOk result (λ number. (rows : ℕ → RowsView) → AreRowsOf rows (I.documents index.now)
        → number ≡ first_by (comes_first up) (numbers (leaves_at path.0 (map rows matching.now.ids)))) }
{
    match index.facets().next_sort(alloc, path, up, None, matching)? {
        Some(first) => Ok(number_of(&first)),
        None => Ok(None),
    }
}

// The number of an entry, where it is one of a number.
fn number_of(key: &CostKey) -> Option<i128>
    ensures { result ≡ entry_number key.now }
{
    match key {
        CostKey::Up(SortKey::Number(number)) => Some(*number),
        CostKey::Down(SortKey::Number(number)) => Some(*number),
        _ => None,
    }
}
