ghost use Rattle.std.specs.Prelude.{◌≡◌, ℕ, ◌+◌, ◌≤◌, [], length, map, is_err, IfOk};
ghost use Rattle.search_base.specs.Graphs.{IsGraph};
ghost use Rattle.bucket_sort.specs.Opens.{Opens, log_state};
ghost use Rattle.doc_search.specs.Found.{matches_in, counts_in, distinct_in, opened_for, reach_in};
ghost use Rattle.index_core.specs.Distinct.{values_under};
ghost use Rattle.index_core.specs.Among.{stored_values};

use bucket_sort::BucketLog;
use distinct_hits::Values;
use doc_index::rows_in;
use doc_rows::PathUse;
use doc_search::{DocumentsFound, IndexedDocuments, Search, search_distinct};
use doc_store::DocStore;
use doc_values::DocumentText;
use search_base::{DocId, FacetValue, Leaf, NoMemory, Steps, Word};
use std::alloc::Global;

/// The values of stored documents under an attribute, and the documents that were asked for them. Each is read for
/// them, as often as it is asked.
#[derive(Drop)]
pub(crate) struct StoredValues<'a, F> {
    store: &'a DocStore,
    attribute: &'a Word,
    fetches: &'a mut Steps<F>,
    asked: &'a mut Vec<DocId>,
}

impl<'a, F> Values for StoredValues<'a, F> {
    ghost use Rattle.std.specs.Prelude.{◌≡◌, ◌+◌, ◌≤◌, map};
    ghost use Rattle.index_core.specs.Among.{stored_values};

    ghost values = { λ stored. stored_values stored.attribute.now stored.store.now.content.rows };

    ghost asked = { λ stored. map (λ id. id.0) stored.asked.now.items };

    ghost Asks = { λ before d after. (after.fetches.ghost_name ≡ before.fetches.ghost_name)
        × (after.fetches.now ≤ before.fetches.now + 1) };

    fn values(&mut self, alloc: Global, id: DocId) -> Result<Vec<FacetValue>, NoMemory> {
        let values = match self.store.fetch(id, self.fetches) {
            Some(text) => values_of(alloc, text, self.attribute)?,
            None => Vec::new(alloc),
        };
        self.asked.push(id)?;
        Ok(values)
    }
}

/// What a search finds of which no two hits have a value of the attribute in common. Each document that is looked at is
/// read once; where memory is wanting, no more are read.
pub(crate) fn search_stored<F, G>(
    alloc: Global,
    store: &DocStore,
    attribute: &Word,
    documents: &IndexedDocuments<'_>,
    search: Search<'_>,
    log: &mut Box<dyn BucketLog>,
    fetches: &mut Steps<F>,
    openings: &mut Steps<G>,
) -> Result<DocumentsFound, NoMemory>
    requires { IsGraph search.query.now }
    ensures hits { IfOk result (λ found. map (λ id. id.0) found.hits.items
        ≡ distinct_in documents.now search.entry (stored_values attribute.now store.now.content.rows)) }
    ensures total { IfOk result (λ found. found.total ≡ length (matches_in documents.now search.entry)) }
    ensures facets { IfOk result (λ found. found.facets.items ≡ counts_in documents.now search.entry) }
    ensures opens { Opens (is_err result)
        (opened_for documents.now search.entry (stored_values attribute.now store.now.content.rows))
        (log_state (told log.old) openings.old) (log_state (told log.new) openings.new) }
    ensures fetches { fetches.new ≤ fetches.old
        + reach_in documents.now search.entry (stored_values attribute.now store.now.content.rows) }
{
    let mut asked = Vec::new(alloc);
    let mut values = StoredValues {
        store,
        attribute,
        fetches,
        asked: &mut asked,
    };
    search_apart(alloc, documents, search, &mut values, log, openings)
}

// The same, where these are asked for the values.
fn search_apart<F, G>(
    alloc: Global,
    documents: &IndexedDocuments<'_>,
    search: Search<'_>,
    values: &mut StoredValues<F>,
    log: &mut Box<dyn BucketLog>,
    openings: &mut Steps<G>,
) -> Result<DocumentsFound, NoMemory>
    requires { IsGraph search.query.now }
    ensures same { values.new.fetches.ghost_name ≡ values.old.fetches.ghost_name }
    ensures hits { IfOk result (λ found. map (λ id. id.0) found.hits.items ≡ distinct_in documents.now search.entry
        (stored_values values.old.attribute.now values.old.store.now.content.rows)) }
    ensures total { IfOk result (λ found. found.total ≡ length (matches_in documents.now search.entry)) }
    ensures facets { IfOk result (λ found. found.facets.items ≡ counts_in documents.now search.entry) }
    ensures opens { Opens (is_err result) (opened_for documents.now search.entry
        (stored_values values.old.attribute.now values.old.store.now.content.rows))
        (log_state (told log.old) openings.old) (log_state (told log.new) openings.new) }
    ensures fetches { values.new.fetches.now ≤ values.old.fetches.now + reach_in documents.now search.entry
        (stored_values values.old.attribute.now values.old.store.now.content.rows) }
{
    search_distinct(alloc, documents, search, values, log, openings)
}

// The values of a document under an attribute. It is read back from its text and let go again.
fn values_of(
    alloc: Global,
    text: &DocumentText,
    attribute: &Word,
) -> Result<Vec<FacetValue>, NoMemory>
    ensures { IfOk result (λ values. values.items ≡ values_under attribute.now text.now) }
{
    let path = vec![in alloc; attribute.clone()?]?;
    let kept = vec![in alloc;
        PathUse {
            rank: None,
            faceted: true
        },
    ]?;
    let rows = rows_in(alloc, text, path.as_slice(), kept.as_slice())?;
    values_in(alloc, rows.leaves.as_slice())
}

// The values of leaves.
fn values_in(alloc: Global, leaves: &[Leaf]) -> Result<Vec<FacetValue>, NoMemory>
    ensures { IfOk result (λ values. values.items ≡ map (λ leaf. leaf.value) leaves.now) }
{
    let mut values = Vec::new(alloc);
    for leaf in leaves {
        values.push(leaf.value.clone()?)?;
    }
    Ok(values)
}
