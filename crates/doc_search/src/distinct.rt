ghost use Rattle.std.specs.Prelude.{◌≡◌, ◌*◌, length, map, is_err, IfOk, OnOk, OnErr};
ghost use Rattle.search_base.specs.Graphs.{IsGraph};
ghost use Rattle.bucket_sort.specs.Opens.{Opens, log_state};
ghost use Rattle.bucket_sort.specs.Told.{RisesAtMost};
ghost use Rattle.distinct_hits.specs.Distinct.{AsksFor, AsksForSome};
ghost use Rattle.doc_search.specs.Found.{matches_in, counts_in, distinct_in, reach_in, taken_in, opened_for};

use crate::documents::IndexedDocuments;
use crate::found::{DocumentsFound, Search, with_counts};
use crate::over::rules_over;
use crate::parts::copy_of;
use crate::source::Snapshot;
use bucket_sort::BucketLog;
use distinct_hits::{Values, distinct_page};
use rule_buckets::HitWindow;
use search_base::{NoMemory, Steps};
use std::alloc::Global;

/// What a search finds among documents of which no two hits have a value in common. The documents that match are looked
/// at in the order of `search_documents`, each is asked for its values once, and one is a hit where none of them is a
/// value of an earlier hit, until the window is full. How many documents match, and the counts, are over all that
/// match. Each bucket that is opened on the way to the documents that are looked at is told to the log and is one step.
/// `NoMemory` comes where memory is wanting. Then some of these documents were asked for, and some of the buckets were
/// opened, from the first on.
pub fn search_distinct<V: Values, G>(
    alloc: Global,
    documents: &IndexedDocuments<'_>,
    search: Search<'_>,
    values: &mut V,
    log: &mut Box<dyn BucketLog>,
    openings: &mut Steps<G>,
) -> Result<DocumentsFound, NoMemory>
    requires { IsGraph search.query.now }
    ensures hits { IfOk result (λ found. map (λ id. id.0) found.hits.items
        ≡ distinct_in documents.now search.entry (V.values values.old)) }
    ensures total { IfOk result (λ found. found.total ≡ length (matches_in documents.now search.entry)) }
    ensures facets { IfOk result (λ found. found.facets.items ≡ counts_in documents.now search.entry) }
    ensures asks { OnOk result (AsksFor V.Asks values.old
        (taken_in documents.now search.entry (V.values values.old)) values.new) }
    ensures err_asks { OnErr result (AsksForSome V.Asks values.old
        (taken_in documents.now search.entry (V.values values.old)) values.new) }
    ensures opens { Opens (is_err result) (opened_for documents.now search.entry (V.values values.old))
        (log_state (told log.old) openings.old) (log_state (told log.new) openings.new) }
    ensures few { RisesAtMost openings.old openings.new
        (length search.entry.rules.now * reach_in documents.now search.entry (V.values values.old)) }
{
    let Search {
        query,
        filter,
        rules,
        window,
        counts,
    } = search;
    let snapshot = Snapshot::of_query(alloc, documents, query)?;
    let rules = rules_over(alloc, &snapshot, query, filter, rules)?;
    let matching = rules.matching();
    let all = copy_of(matching)?;
    let HitWindow { offset, limit } = window;
    let hits = distinct_page(alloc, &rules, values, all, offset, limit, log, openings)?;
    with_counts(alloc, documents, matching, counts, hits)
}
