ghost use Rattle.std.specs.Prelude.{◌≡◌, ℕ, map, IfOk};
ghost use Rattle.search_base.specs.RowsView.{RowsView};
ghost use Rattle.facet_counts.specs.Counts.{counted};
ghost use Rattle.leaf_table.specs.Tables.{AreLeavesOf};
ghost use Rattle.list_facets.specs.Rows.{AreRowsOf, rows_asked};

use crate::ends::stats;
use crate::own::{are_few, own_counts, own_rows};
use crate::query::FacetQuery;
use crate::rows::{count_rows, count_rows_from};
use doc_sets::DocSet;
use facet_counts::{CountRow, FacetPath, FacetReply};
use facet_index::Indexed;
use leaf_table::LeafTable;
use search_base::NoMemory;
use std::alloc::Global;

/// The first `most` values of an attribute that documents of the set have, in the order of their bytes, and the least
/// and the greatest number there; nothing for an attribute without a path. The table has the leaves of the documents of
/// the index: few matches are counted one after the other by their leaves, and many by the lists of the index.
/// `NoMemory` comes where memory is wanting; the index and the table stay as they were.
pub fn counts<I: Indexed>(
    alloc: Global,
    index: &I,
    leaves: &LeafTable,
    matching: &DocSet,
    asked: FacetPath,
    most: u64,
) -> Result<FacetReply, NoMemory>
    requires { AreLeavesOf leaves.now (I.documents index.now) }
    ensures { IfOk result (λ reply. (rows : ℕ → RowsView) → AreRowsOf rows (I.documents index.now)
        → reply ≡ counted most (map rows matching.now.ids) asked) }
{
    if are_few(matching) {
        own_counts(alloc, leaves, matching, asked, most)
    } else {
        list_counts(alloc, index, matching, asked, most)
    }
}

// The same, by the lists of the index.
fn list_counts<I: Indexed>(
    alloc: Global,
    index: &I,
    matching: &DocSet,
    asked: FacetPath,
    most: u64,
) -> Result<FacetReply, NoMemory>
    ensures { IfOk result (λ reply. (rows : ℕ → RowsView) → AreRowsOf rows (I.documents index.now)
        → reply ≡ counted most (map rows matching.now.ids) asked) }
{
    let FacetPath { attribute, path } = asked;
    let Some(path) = path else {
        return Ok(FacetReply {
            attribute,
            rows: Vec::new(alloc),
            stats: None,
        });
    };
    let rows = count_rows(alloc, index.facets().keys(), path, matching, most)?;
    let stats = stats(alloc, index, path, matching)?;
    Ok(FacetReply {
        attribute,
        rows,
        stats,
    })
}

/// The values that the query asks for, of those that documents of the set have, in the order of their bytes. The table
/// has the leaves of the documents of the index: few matches are counted one after the other by their leaves, and many
/// by the lists of the index, of which none is looked at whose value begins otherwise or stands behind the last that is
/// given. `NoMemory` comes where memory is wanting; the index and the table stay as they were.
pub fn counts_from<I: Indexed>(
    alloc: Global,
    index: &I,
    leaves: &LeafTable,
    matching: &DocSet,
    query: &FacetQuery,
) -> Result<Vec<CountRow>, NoMemory>
    requires { AreLeavesOf leaves.now (I.documents index.now) }
    ensures { IfOk result (λ found. (rows : ℕ → RowsView) → AreRowsOf rows (I.documents index.now)
        → found.items ≡ rows_asked query.now (map rows matching.now.ids)) }
{
    if are_few(matching) {
        own_rows(alloc, leaves, matching, query)
    } else {
        count_rows_from(alloc, index.facets().keys(), query, matching)
    }
}
