ghost use Rattle.std.specs.Prelude.{◌≡◌, ◌≤◌, length, IfOk};
ghost use Rattle.std.specs.List.{filter as those_of};
ghost use Rattle.filter_tree.specs.View.{view};
ghost use Rattle.row_filter.specs.Holds.{holds};
ghost use Rattle.doc_search.specs.Rows.{rows_at};

use crate::indexed::IndexedRows;
use doc_sets::DocSet;
use filter_sets::{Facets, select};
use filter_tree::{Filter, Test};
use search_base::{NoMemory, Word};
use std::alloc::Global;

/// The documents of the universe that pass a filter, in an index with this registry of paths.
pub fn documents_passing<I: IndexedRows>(
    alloc: Global,
    rows: &I,
    filter: &Filter,
    paths: &[Word],
    universe: &DocSet,
) -> Result<DocSet, NoMemory>
    requires { length paths.now ≤ 1000 }
    ensures { IfOk result (λ docs. docs.ids
        ≡ those_of (λ d. holds paths.now (rows_at (I.documents rows.now) d) (view filter.now)) universe.now.ids) }
{
    let index = rows.index();
    let facets = Facets {
        index: index.facets(),
        leaves: index.leaves(),
    };
    let docs = select(alloc, &facets, filter, paths, universe)?;
    Ok(docs)
}

/// Whether a filter is answered by one list, or by none. Then asking it of all documents costs little, however many they
/// are.
pub(crate) fn names_one_list(filter: &Filter) -> bool {
    match filter {
        Filter::All => true,
        Filter::Test { test, .. } => is_of_one_list(test),
        _ => false,
    }
}

// Whether a test is answered by one list. A text that writes a number has two.
fn is_of_one_list(test: &Test) -> bool {
    match test {
        Test::Equal(_) => true,
        Test::Exists => true,
        Test::Null => true,
        Test::Empty => true,
        _ => false,
    }
}
