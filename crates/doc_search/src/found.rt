ghost use Rattle.std.specs.Prelude.{◌≡◌, length, map, is_err, IfOk};
ghost use Rattle.search_base.specs.Graphs.{IsGraph};
ghost use Rattle.facet_counts.specs.Counts.{counted};
ghost use Rattle.bucket_sort.specs.Opens.{Opens, log_state};
ghost use Rattle.rule_buckets.specs.Matches.{ids_of};
ghost use Rattle.doc_search.specs.Found.{matches_in, hits_in, counts_in, opened_in};
ghost use Rattle.doc_search.specs.Rows.{rows_at};

use crate::documents::IndexedDocuments;
use crate::facets::{AskedCounts, all_counts};
use crate::over::rules_over;
use crate::source::Snapshot;
use bucket_sort::BucketLog;
use doc_sets::DocSet;
use facet_counts::FacetReply;
use filter_tree::Filter;
use rule_buckets::{HitWindow, page};
use search_base::{DocId, Graph, NoMemory, Rule, Steps};
use std::alloc::Global;

/// What a search asks for: the documents that pass the filter and that the query matches, ranked by the rules; of these
/// the hits of a window, and counts over all of them.
#[derive(Drop)]
pub struct Search<'a> {
    pub query: &'a Graph,
    pub filter: &'a Filter,
    pub rules: &'a [Rule],
    pub window: HitWindow,
    pub counts: AskedCounts,
}

/// What a search finds before a document is read: the asked hits, the best first, how many documents match, and the
/// counts over all of these.
#[derive(Drop)]
pub struct DocumentsFound {
    pub hits: Vec<DocId>,
    pub total: u64,
    pub facets: Vec<FacetReply>,
}

/// What a search finds among documents: the hits of its window by their costs under the rules and then by internal id,
/// how many documents match, and the counts. Each bucket that is opened on the way is told to the log and is one step.
/// `NoMemory` comes where memory is wanting, and then some of the buckets were opened, from the first on.
pub fn search_documents<G>(
    alloc: Global,
    documents: &IndexedDocuments<'_>,
    search: Search<'_>,
    log: &mut Box<dyn BucketLog>,
    openings: &mut Steps<G>,
) -> Result<DocumentsFound, NoMemory>
    requires { IsGraph search.query.now }
    ensures hits { IfOk result (λ found.
        map (λ id. id.0) found.hits.items ≡ ids_of (hits_in documents.now search.entry)) }
    ensures total { IfOk result (λ found. found.total ≡ length (matches_in documents.now search.entry)) }
    ensures facets { IfOk result (λ found. found.facets.items ≡ counts_in documents.now search.entry) }
    ensures opens { Opens (is_err result) (opened_in documents.now search.entry)
        (log_state (told log.old) openings.old) (log_state (told log.new) openings.new) }
{
    let Search {
        query,
        filter,
        rules,
        window,
        counts,
    } = search;
    let snapshot = Snapshot::of_query(alloc, documents, query)?;
    let rules = rules_over(alloc, &snapshot, query, filter, rules)?;
    let hits = page(alloc, &rules, window, log, openings)?;
    with_counts(alloc, documents, rules.matching(), counts, hits)
}

/// What a search finds with these hits: how many documents match, and the counts over them.
pub(crate) fn with_counts(
    alloc: Global,
    documents: &IndexedDocuments<'_>,
    matching: &DocSet,
    asked: AskedCounts,
    hits: Vec<DocId>,
) -> Result<DocumentsFound, NoMemory>
    ensures hits { IfOk result (λ found. found.hits.items ≡ hits.items) }
    ensures total { IfOk result (λ found. found.total ≡ length matching.now.ids) }
    ensures facets { IfOk result (λ found. found.facets.items
        ≡ map (counted asked.most (map (rows_at documents.now.documents) matching.now.ids)) asked.attributes.items) }
{
    let facets = all_counts(alloc, documents, matching, asked)?;
    Ok(DocumentsFound {
        hits,
        total: matching.len(),
        facets,
    })
}
