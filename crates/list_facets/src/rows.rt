ghost use Rattle.std.specs.Prelude.{◌≡◌, ℕ, ◌++◌, List, [], map, IfOk};
ghost use Rattle.search_base.specs.RowsView.{RowsView};
ghost use Rattle.facet_counts.specs.Counts.{count_rows as count_rows_of};
ghost use Rattle.facet_keys.specs.Keys.{counted, key_bytes, IsNarrow};
ghost use Rattle.postings.specs.Dictionary.{list_at};
ghost use Rattle.list_facets.specs.Rows.{AreRowsIn, row_if, listed, rows_asked};

use crate::hits::hits_at;
use crate::matching::Matching;
use crate::query::FacetQuery;
use crate::spellings::{rest_of, shown_in};
use doc_sets::DocSet;
use facet_counts::CountRow;
use facet_keys::{counted_key, keys_tell_facets_apart};
use posting_list::PostingList;
use postings::Postings;
use search_base::{NoMemory, PathId, Word};
use std::alloc::Global;

/// The first `most` values that documents of the set have under the path. Looks at no later value.
pub(crate) fn count_rows(
    alloc: Global,
    keys: &Postings,
    path: PathId,
    matching: &DocSet,
    most: u64,
) -> Result<Vec<CountRow>, NoMemory>
    ensures { IfOk result (λ found. (rows : ℕ → RowsView) → AreRowsIn keys.now rows
        → found.items ≡ count_rows_of path.0 most (map rows matching.now.ids)) }
{
    let prefix = Word::new(alloc, "")?;
    let all = FacetQuery { path, prefix, most };
    count_rows_from(alloc, keys, &all, matching)
}

/// The values that the query asks for, of those that documents of the set have. Looks at no value that begins otherwise,
/// and at none behind the last that it gives.
pub(crate) fn count_rows_from(
    alloc: Global,
    keys: &Postings,
    query: &FacetQuery,
    matching: &DocSet,
) -> Result<Vec<CountRow>, NoMemory>
    ensures { IfOk result (λ found. (rows : ℕ → RowsView) → AreRowsIn keys.now rows
        → found.items ≡ rows_asked query.now (map rows matching.now.ids)) }
{
    let first = counted_key(alloc, query.path, "")?;
    let begin = counted_key(alloc, query.path, query.prefix.as_str())?;
    let matching = Matching::of(alloc, matching)?;
    rows_from(alloc, keys, query, &first, &begin, &matching)
}

// The same, where the keys of all values begin as `first`, and those of the values that are looked at as `begin`.
fn rows_from(
    alloc: Global,
    keys: &Postings,
    query: &FacetQuery,
    first: &Word,
    begin: &Word,
    matching: &Matching<'_>,
) -> Result<Vec<CountRow>, NoMemory>
    requires first { first.now ≡ key_bytes query.now.path.0 (counted []) }
    requires begin { begin.now ≡ key_bytes query.now.path.0 (counted query.now.prefix) }
    requires narrow { IsNarrow query.now.path.0 (counted []) }
    ensures { IfOk result (λ found. (rows : ℕ → RowsView) → AreRowsIn keys.now rows
        → found.items ≡ rows_asked query.now (map rows matching.now.ids)) }
{
    keys_tell_facets_apart();
    let mut found = Vec::new(alloc);
    for (key, list) in keys.with_prefix(begin) {
        if found.len() as u64 >= query.most {
            return Ok(found);
        }
        match row_of(alloc, keys, query.path, first, key, list, matching)? {
            Some(row) => found.push(row)?,
            None => {}
        }
    }
    Ok(found)
}

// The row of the value of a key, if a document of the set has it. The keys of all values begin as `first`.
fn row_of(
    alloc: Global,
    keys: &Postings,
    path: PathId,
    first: &Word,
    key: &Word,
    list: &PostingList,
    matching: &Matching<'_>,
) -> Result<Option<CountRow>, NoMemory>
    requires first { first.now ≡ key_bytes path.0 (counted []) }
    requires narrow { IsNarrow path.0 (counted []) }
    ensures { IfOk result (λ row. (rows : ℕ → RowsView) (text : List ℕ) → AreRowsIn keys.now rows
        → key.now ≡ first.now ++ text → list.now.entries ≡ list_at key.now keys.now
        → listed row ≡ row_if path.0 (map rows matching.now.ids) text) }
{
    keys_tell_facets_apart();
    let hits = hits_at(list, matching)?;
    match hits.first {
        Some(id) => {
            let value = rest_of(alloc, key, first)?;
            let shown = shown_in(alloc, keys, path, &value, id)?;
            Ok(Some(CountRow {
                value,
                shown,
                count: hits.count,
            }))
        }
        None => Ok(None),
    }
}
