ghost use Rattle.std.specs.Prelude.{◌≡◌, IfOk};
ghost use Rattle.search_base.specs.Graphs.{IsGraph};
ghost use Rattle.filter_tree.specs.View.{view};
ghost use Rattle.doc_search.specs.Found.{values_in};

use crate::documents::IndexedDocuments;
use crate::over::rules_over;
use crate::source::Snapshot;
use facet_counts::CountRow;
use filter_tree::Filter;
use list_facets::{FacetQuery, counts_from};
use search_base::{Graph, NoMemory};
use std::alloc::Global;

/// The values that are asked for, of those that documents have which pass the filter and which the query matches, in the
/// order of their bytes. No bucket is opened, and no document is read. `NoMemory` comes where memory is wanting.
pub fn facet_values(
    alloc: Global,
    documents: &IndexedDocuments<'_>,
    query: &Graph,
    filter: &Filter,
    asked: &FacetQuery,
) -> Result<Vec<CountRow>, NoMemory>
    requires { IsGraph query.now }
    ensures { IfOk result (λ rows. rows.items ≡ values_in documents.now query.now (view filter.now) asked.now) }
{
    let snapshot = Snapshot::new(alloc, documents);
    let rules = rules_over(alloc, &snapshot, query, filter, &[])?;
    let rows = counts_from(
        alloc,
        documents,
        documents.leaves(),
        rules.matching(),
        asked,
    )?;
    Ok(rows)
}
