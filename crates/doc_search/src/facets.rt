ghost use Rattle.std.specs.Prelude.{◌≡◌, map, IfOk};
ghost use Rattle.facet_counts.specs.Counts.{counted};
ghost use Rattle.doc_search.specs.Rows.{rows_at};

use crate::documents::IndexedDocuments;
use doc_sets::DocSet;
use facet_counts::{FacetPath, FacetReply};
use list_facets::counts;
use search_base::NoMemory;
use std::alloc::Global;

/// The attributes whose values a search counts, and how many values of each it is told of at most.
#[derive(Drop)]
pub struct AskedCounts {
    pub attributes: Vec<FacetPath>,
    pub most: u64,
}

/// The counts that are asked for, over the documents of a set.
pub(crate) fn all_counts(
    alloc: Global,
    documents: &IndexedDocuments<'_>,
    matching: &DocSet,
    asked: AskedCounts,
) -> Result<Vec<FacetReply>, NoMemory>
    ensures { IfOk result (λ replies. replies.items
        ≡ map (counted asked.most (map (rows_at documents.now.documents) matching.now.ids)) asked.attributes.items) }
{
    let AskedCounts { attributes, most } = asked;
    let mut replies = Vec::with_capacity(alloc, attributes.len())?;
    for facet in attributes {
        replies.push(count_values(alloc, documents, matching, facet, most)?)?;
    }
    Ok(replies)
}

fn count_values(
    alloc: Global,
    documents: &IndexedDocuments<'_>,
    matching: &DocSet,
    facet: FacetPath,
    most: u64,
) -> Result<FacetReply, NoMemory>
    ensures { IfOk result (λ reply.
        reply ≡ counted most (map (rows_at documents.now.documents) matching.now.ids) facet) }
{
    counts(alloc, documents, documents.leaves(), matching, facet, most)
}
