ghost use Rattle.std.specs.Prelude.{◌≡◌, ◌≤◌, length, IfOk};
ghost use Rattle.std.specs.Option.{option_map};
ghost use Rattle.doc_rows.specs.Rows.{rows_of};
ghost use Rattle.search_base.specs.Graphs.{IsGraph};
ghost use Rattle.search_base.specs.Tuple.{tuple};

use doc_index::rows_in;
use doc_rows::PathUse;
use doc_values::DocumentText;
use plain_rank::cost_tuple;
use search_base::{CostKey, Graph, NoMemory, Rule, Word};
use std::alloc::Global;

/// How an index ranks the documents of a search: how it uses each path of its registry, what the search asks for, and
/// the rules.
#[derive(Drop)]
pub(crate) struct Ranking<'a> {
    pub(crate) uses: &'a [PathUse],
    pub(crate) query: Graph,
    pub(crate) rules: Vec<Rule>,
}

/// The costs of a document in an index with these paths, where the query matches it. It is read back from its text and
/// let go again.
pub(crate) fn costs_of(
    alloc: Global,
    text: &DocumentText,
    paths: &[Word],
    ranking: &Ranking,
) -> Result<Option<Vec<CostKey>>, NoMemory>
    requires few { length paths.now ≤ 1000 }
    requires uses { length ranking.now.uses.now ≡ length paths.now }
    requires graph { IsGraph ranking.now.query }
    ensures { IfOk result (λ found. option_map (λ costs. costs.items) found
        ≡ tuple (rows_of text.now paths.now ranking.now.uses.now) ranking.now.query ranking.now.rules.items) }
{
    let rows = rows_in(alloc, text, paths, ranking.uses)?;
    cost_tuple(alloc, &ranking.query, &rows, ranking.rules.as_slice())
}
