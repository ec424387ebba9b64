ghost use Rattle.std.specs.Prelude.{◌≡◌, ◌==◌, ◌<◌, ℕ, Bool, filter, reverse, IfOk, IfSome, IfNone};
ghost use Rattle.std.specs.List.{AllByRecursion};
ghost use Rattle.std.specs.Option.{option_copied};
ghost use Rattle.search_base.specs.Whole.{whole_cost};
ghost use Rattle.condition_graph.specs.Meets.{IsRanked};
ghost use Rattle.sort_rule.specs.Numbers.{AreNumbered};
ghost use Rattle.sort_rule.specs.Ordered.{AreOrdered};
ghost use Rattle.sort_rule.specs.Rows.{is_under, IsNextFor, HasNoneAfter};
ghost use Rattle.rule_buckets.specs.Entries.{sort_entry};
ghost use Rattle.doc_search.specs.Entries.{sort_keys};
ghost use Rattle.doc_search.specs.Rows.{rows_at};

use crate::indexed::IndexedRows;
use crate::ordered::ordered;
use bucket_sort::Bucket;
use doc_sets::DocSet;
use search_base::{CostKey, DocId, NoMemory, PathId, Word};
use std::alloc::Global;
use whole_words::documents_at_whole_cost;

// The documents of a universe are few where they are at most one of so many. Putting one of them in order costs about as
// much as passing three entries. Going through the entries to twenty hits passes some three hundred where one document of
// sixteen is in the universe, and nearly all where those stand late in the order.
const ONE_OF_FEW: u64 = 16;

// Reading the number of each document of a universe costs less than going through the entries where they are at most one
// of so many. Going through them to twenty hits passes some eighty then.
const ONE_OF_SOME: u64 = 4;

/// A number above each rank of the rows of any id.
pub(crate) fn above_ranks<I: IndexedRows>(rows: &I) -> u16
    ensures { (d : ℕ) → AllByRecursion (IsRanked result) (rows_at (I.documents rows.now) d).places }
{
    let count = rows.rank_count();
    count
}

/// The documents of the universe that are so near to being these words.
pub(crate) fn documents_at_cost<I: IndexedRows>(
    alloc: Global,
    rows: &I,
    words: &[Word],
    cost: u32,
    universe: &DocSet,
) -> Result<DocSet, NoMemory>
    requires { cost < 2 }
    ensures { IfOk result (λ docs. docs.ids
        ≡ filter (λ d. whole_cost (rows_at (I.documents rows.now) d).places words.now == cost) universe.now.ids) }
{
    let index = rows.index();
    let places = index.places();
    let lengths = index.lengths();
    let docs = documents_at_whole_cost(alloc, places, lengths, words, cost, universe)?;
    Ok(docs)
}

/// The least entry that a document of the universe has under a path after another, or the least of all.
pub(crate) fn next_entry<I: IndexedRows>(
    alloc: Global,
    rows: &I,
    path: PathId,
    up: bool,
    after: Option<&CostKey>,
    universe: &DocSet,
) -> Result<Option<CostKey>, NoMemory>
    ensures some { IfOk result (λ found. IfSome found (λ next.
        IsNextFor (sort_keys up path.0 (I.documents rows.now))
        (λ d. sort_entry up path.0 (rows_at (I.documents rows.now) d).leaves)
        universe.now.ids (option_copied after.entry) next)) }
    ensures none { IfOk result (λ found. IfNone found
        (HasNoneAfter (λ d. sort_entry up path.0 (rows_at (I.documents rows.now) d).leaves) universe.now.ids
        (option_copied after.entry))) }
{
    let index = rows.index();
    let facets = index.facets();
    let found = facets.next_sort(alloc, path, up, after, universe)?;
    Ok(found)
}

/// The documents of the universe that have an entry under a path.
pub(crate) fn documents_under<I: IndexedRows>(
    alloc: Global,
    rows: &I,
    path: PathId,
    up: bool,
    at: &CostKey,
    universe: &DocSet,
) -> Result<DocSet, NoMemory>
    ensures { IfOk result (λ docs. docs.ids
        ≡ filter (λ d. is_under at.now (sort_entry up path.0 (rows_at (I.documents rows.now) d).leaves)) universe.now.ids) }
{
    let index = rows.index();
    let facets = index.facets();
    let docs = facets.sort_docs(alloc, path, up, at, universe)?;
    Ok(docs)
}

/// The documents of the universe, each with the number that is its one value under a path, where they are at most a
/// quarter of all documents, and else none. None too where one of them has another value there, or none.
pub(crate) fn numbers_under<I: IndexedRows>(
    alloc: Global,
    rows: &I,
    path: PathId,
    universe: &DocSet,
) -> Result<Option<Vec<(i64, DocId)>>, NoMemory>
    ensures { IfOk result (λ found. IfSome found (λ pairs. (up : Bool)
        → AreNumbered (λ d. sort_entry up path.0 (rows_at (I.documents rows.now) d).leaves)
        up universe.now.ids pairs.items)) }
{
    let index = rows.index();
    if universe.len() > index.ids().len() / ONE_OF_SOME {
        return Ok(None);
    }
    let leaves = index.leaves();
    let pairs = leaves.numbers(alloc, path, universe)?;
    Ok(pairs)
}

/// The documents of the universe in buckets by their entries under a path, that of the least entry last, where they are
/// few of all documents, and else none, as of many the entries are sooner gone through.
pub(crate) fn ordered_under<I: IndexedRows>(
    alloc: Global,
    rows: &I,
    path: PathId,
    up: bool,
    universe: &DocSet,
) -> Result<Option<Vec<Bucket>>, NoMemory>
    ensures { IfOk result (λ found. IfSome found (λ buckets.
        AreOrdered (λ d. sort_entry up path.0 (rows_at (I.documents rows.now) d).leaves)
        universe.now.ids (reverse buckets.items))) }
{
    let index = rows.index();
    if universe.len() > index.ids().len() / ONE_OF_FEW {
        return Ok(None);
    }
    let leaves = index.leaves();
    let buckets = ordered(alloc, leaves, path, up, universe)?;
    Ok(Some(buckets))
}
