ghost use Rattle.std.specs.Prelude.{◌≡◌, ℕ, map, filter, take, nat_eq, IfOk};
ghost use Rattle.std.specs.List.{starts_with};
ghost use Rattle.search_base.specs.RowsView.{RowsView};
ghost use Rattle.facet_counts.specs.Counts.{counted};
ghost use Rattle.list_facets.specs.Rows.{AreKeptRows, rows_asked};

use crate::query::FacetQuery;
use doc_sets::DocSet;
use facet_counts::{CountRow, FacetCounts, FacetPath, FacetReply};
use leaf_table::LeafTable;
use search_base::{NoMemory, PathId, Word};
use std::alloc::Global;

// A set of at most so many documents is counted by what each of them has.
const ONE_BY_ONE: u64 = 1_024;

/// Whether the documents of the set are so few that each of them is looked at.
pub(crate) fn are_few(matching: &DocSet) -> bool {
    matching.len() <= ONE_BY_ONE
}

/// The first `most` values of an attribute that documents of the set have, and the least and the greatest number there,
/// by the leaves that the table keeps for these documents. Looks at each leaf of each of them, and copies those of the
/// attribute.
pub(crate) fn own_counts(
    alloc: Global,
    leaves: &LeafTable,
    matching: &DocSet,
    asked: FacetPath,
    most: u64,
) -> Result<FacetReply, NoMemory>
    ensures { IfOk result (λ reply. (rows : ℕ → RowsView) → AreKeptRows rows leaves.now
        → reply ≡ counted most (map rows matching.now.ids) asked) }
{
    let path = asked.path.unwrap_or(PathId(0));
    let all_asked = Vec::from_array(alloc, [asked])?;
    let mut counts = FacetCounts::new(alloc, all_asked)?;
    let mut own = Vec::new(alloc);
    for id in matching.iter() {
        leaves.copy_under(id, path, &mut own)?;
        counts.add_leaves(alloc, own.as_slice())?;
    }
    let mut replies = counts.finish(alloc, most)?;
    Ok(replies.swap_remove(0))
}

/// The values that the query asks for, of those that documents of the set have, by the leaves that the table keeps for
/// these documents. Looks at each leaf of each of them.
pub(crate) fn own_rows(
    alloc: Global,
    leaves: &LeafTable,
    matching: &DocSet,
    query: &FacetQuery,
) -> Result<Vec<CountRow>, NoMemory>
    ensures { IfOk result (λ found. (rows : ℕ → RowsView) → AreKeptRows rows leaves.now
        → found.items ≡ rows_asked query.now (map rows matching.now.ids)) }
{
    let under_path = FacetPath {
        attribute: Word::new(alloc, "")?,
        path: Some(query.path),
    };
    let all = own_counts(alloc, leaves, matching, under_path, u64::MAX)?;
    Ok(asked_of(all.rows, query))
}

// Those of all rows that the query asks for.
fn asked_of(rows: Vec<CountRow>, query: &FacetQuery) -> Vec<CountRow>
    ensures { result.items
        ≡ take query.now.most (filter (λ row. starts_with nat_eq row.value query.now.prefix) rows.items) }
{
    let mut asked = rows;
    asked.retain(|row| begins_so(row, query));
    asked.truncate(query.most as usize);
    asked
}

// Whether the value begins as the query asks.
fn begins_so(row: &CountRow, query: &FacetQuery) -> bool
    ensures { result ≡ starts_with nat_eq row.now.value query.now.prefix }
{
    row.value.as_str().starts_with(query.prefix.as_str())
}
