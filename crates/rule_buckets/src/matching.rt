ghost use Rattle.std.specs.Prelude.{◌≡◌, ◌<◌, ◌≤◌, ◌&&◌, ℕ, length, map, slice_get, IfOk, IfSome};
ghost use Rattle.std.specs.List.{list_any};
ghost use Rattle.search_base.specs.Graphs.{IsGraph};
ghost use Rattle.search_base.specs.WordsCost.{level_matches};
ghost use Rattle.doc_sets.specs.Sets.{has, intersection, IsIncreasing};
ghost use Rattle.rule_buckets.specs.Entries.{is_match};
ghost use Rattle.rule_buckets.specs.Rules.{AreLevels};

use crate::asked::Asked;
use crate::source::RuleSource;
use condition_graph::conditions;
use doc_sets::DocSet;
use path_costs::PathCosts;
use search_base::{Graph, NoMemory, Rule};
use std::alloc::Global;

// The documents of the universe that a level of the query matches.
fn matching_level<S: RuleSource>(
    alloc: Global,
    source: &S,
    graph: &Graph,
    level: usize,
    universe: &DocSet,
) -> Result<DocSet, NoMemory>
    requires graph { IsGraph graph.now }
    requires level { level < length graph.now.levels }
    ensures { IfOk result (λ docs. IfSome (slice_get graph.now.levels level) (λ view. (d : ℕ) → has docs.ids d
        ≡ (has universe.now.ids d && level_matches (S.rows source.now d).places view))) }
{
    let made = conditions(alloc, graph, Rule::Words, level, source.ranks())?;
    let all = universe.clone()?;
    let mut costs = PathCosts::new(alloc, made, Asked::new(alloc, source), all)?;
    match costs.next_cost(alloc)? {
        Some((_, docs)) => Ok(docs),
        None => Ok(DocSet::new(alloc)),
    }
}

/// How many levels a query has.
pub(crate) fn level_count(graph: &Graph) -> usize
    ensures { result ≡ length graph.now.levels }
{
    graph.levels.len()
}

/// The documents of the universe that a query of at most one level matches.
pub(crate) fn matching_alone<S: RuleSource>(
    alloc: Global,
    source: &S,
    graph: &Graph,
    universe: &DocSet,
) -> Result<DocSet, NoMemory>
    requires graph { IsGraph graph.now }
    requires one { length graph.now.levels ≤ 1 }
    ensures docs { IfOk result (λ docs. (d : ℕ)
        → has docs.ids d ≡ (has universe.now.ids d && is_match (S.rows source.now d) graph.now)) }
    ensures increasing { IfOk result (λ docs. IsIncreasing docs.ids) }
{
    let docs = if level_count(graph) == 0 {
        universe.clone()?
    } else {
        matching_level(alloc, source, graph, 0, universe)?
    };
    let _len = docs.len();
    Ok(docs)
}

/// For each level of the query the documents of the universe that it matches first. A query without a level matches
/// all of them at once, and they stand at level 0.
pub(crate) fn matching_levels<S: RuleSource>(
    alloc: Global,
    source: &S,
    graph: &Graph,
    universe: &DocSet,
) -> Result<Vec<DocSet>, NoMemory>
    requires { IsGraph graph.now }
    ensures { IfOk result (λ levels. AreLevels (S.rows source.now) graph.now universe.now.ids levels.items) }
{
    let mut levels = Vec::new(alloc);
    let mut rest = universe.clone()?;
    let count = level_count(graph);
    if count == 0 {
        levels.push(rest)?;
        return Ok(levels);
    }
    for level in 0..count {
        let docs = matching_level(alloc, source, graph, level, &rest)?;
        rest.subtract(alloc, &docs)?;
        levels.push(docs)?;
    }
    Ok(levels)
}

/// The documents of all levels.
pub(crate) fn all_of(alloc: Global, levels: &[DocSet]) -> Result<DocSet, NoMemory>
    ensures docs { IfOk result (λ all. (d : ℕ) → has all.ids d ≡ list_any (λ s. has s.ids d) levels.now) }
    ensures increasing { IfOk result (λ all. IsIncreasing all.ids) }
{
    let mut all = DocSet::new(alloc);
    for docs in levels {
        let copy = docs.clone()?;
        let more = all.join(alloc, copy)?;
        all = more;
    }
    let _len = all.len();
    Ok(all)
}

/// Of each level the documents that are in the universe.
pub(crate) fn within(
    alloc: Global,
    levels: &[DocSet],
    universe: &DocSet,
) -> Result<Vec<DocSet>, NoMemory>
    ensures { IfOk result (λ sets. map (λ s. s.ids) sets.items
        ≡ map (λ s. intersection s.ids universe.now.ids) levels.now) }
{
    let mut sets = Vec::with_capacity(alloc, levels.len())?;
    for docs in levels {
        let both = docs.and(alloc, universe)?;
        sets.push(both)?;
    }
    Ok(sets)
}
