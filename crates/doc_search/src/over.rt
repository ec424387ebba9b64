ghost use Rattle.std.specs.Prelude.{IfOk};
ghost use Rattle.search_base.specs.Graphs.{IsGraph};
ghost use Rattle.filter_tree.specs.View.{view};
ghost use Rattle.doc_search.specs.Found.{AreRulesOver};

use crate::documents::IndexedDocuments;
use crate::passing::{documents_passing, names_one_list};
use crate::source::Snapshot;
use filter_tree::Filter;
use rule_buckets::Rules;
use search_base::{Graph, NoMemory, Rule};
use std::alloc::Global;

/// The rules over the documents that pass a filter and that a query matches.
pub(crate) fn rules_over<'a, 'b, 'c>(
    alloc: Global,
    snapshot: &'a Snapshot<'b, IndexedDocuments<'c>>,
    query: &'a Graph,
    filter: &Filter,
    rules: &'a [Rule],
) -> Result<Rules<'a, Snapshot<'b, IndexedDocuments<'c>>>, NoMemory>
    requires { IsGraph query.now }
    ensures { IfOk result (AreRulesOver snapshot.now query.now (view filter.now) rules.now) }
{
    if query.levels.is_empty() || names_one_list(filter) {
        passing_first(alloc, snapshot, query, filter, rules)
    } else {
        matching_first(alloc, snapshot, query, filter, rules)
    }
}

// The same, where the filter is asked of all documents, and the query of those that pass.
fn passing_first<'a, 'b, 'c>(
    alloc: Global,
    snapshot: &'a Snapshot<'b, IndexedDocuments<'c>>,
    query: &'a Graph,
    filter: &Filter,
    rules: &'a [Rule],
) -> Result<Rules<'a, Snapshot<'b, IndexedDocuments<'c>>>, NoMemory>
    requires { IsGraph query.now }
    ensures { IfOk result (AreRulesOver snapshot.now query.now (view filter.now) rules.now) }
{
    let documents = snapshot.rows();
    let paths = documents.paths();
    let universe = documents_passing(alloc, documents, filter, paths, documents.ids())?;
    let made = Rules::new(alloc, snapshot, query, rules, &universe)?;
    Ok(made)
}

// The same, where the query is asked of all documents, and the filter of those that match.
fn matching_first<'a, 'b, 'c>(
    alloc: Global,
    snapshot: &'a Snapshot<'b, IndexedDocuments<'c>>,
    query: &'a Graph,
    filter: &Filter,
    rules: &'a [Rule],
) -> Result<Rules<'a, Snapshot<'b, IndexedDocuments<'c>>>, NoMemory>
    requires { IsGraph query.now }
    ensures { IfOk result (AreRulesOver snapshot.now query.now (view filter.now) rules.now) }
{
    let documents = snapshot.rows();
    let paths = documents.paths();
    let all = Rules::new(alloc, snapshot, query, rules, documents.ids())?;
    let docs = documents_passing(alloc, documents, filter, paths, all.matching())?;
    let made = all.narrowed(alloc, docs)?;
    Ok(made)
}
