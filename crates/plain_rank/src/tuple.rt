ghost use Rattle.std.specs.Prelude.{◌≡◌, ◌≢◌, [], ◌↔◌, ◌≤◌, length, map, IfOk, IsNone};
ghost use Rattle.std.specs.Option.{option_map};
ghost use Rattle.std.specs.List.{AllByRecursion};
ghost use Rattle.search_base.specs.Graphs.{IsGraph, IsLevel};
ghost use Rattle.search_base.specs.Tuple.{cost_of, path_cost, whole_of, entry, tuple};
ghost use Rattle.search_base.specs.Query.{Query, query_of, cost_under};
ghost use Rattle.search_base.specs.RowsView.{RowsView};
ghost use Rattle.search_base.specs.WordsCost.{words_cost_from};
ghost use Rattle.plain_rank.specs.FirstMatch.{IsFirstMatch, MatchesNone};

use crate::level::level_matches;
use crate::sort_key::{greatest_under, least_under};
use crate::sums::least_cost;
use crate::whole::whole_cost;
use search_base::{CostKey, DocRows, Graph, LevelGraph, NoMemory, Place, Rule};
use std::alloc::Global;

/// The costs of a document by the rules, in their order, or nothing where it does not match the
/// query. It matches where some level of the query has a reading each of whose blocks occurs in
/// it, and always where the query has no level.
///
/// Each rule gives one entry, a repeated rule one each time. That of `Rule::Words` is the number of
/// the first level that matches. Those of proximity, field, position and inexact are each the least
/// sum over the readings of this level that match. That of `Rule::Whole` is 0 where the words of a
/// path are the whole query, 1 where those of a path begin with it, and else 2. Where the query has
/// no level all of these are 0. Those of `Rule::Up` and `Rule::Down` are the document's sort keys
/// under a path, missing where there is no path. The one error is want of memory.
///
/// The time grows with the blocks of the query and not with its readings.
pub fn cost_tuple(
    alloc: Global,
    graph: &Graph,
    rows: &DocRows,
    rules: &[Rule],
) -> Result<Option<Vec<CostKey>>, NoMemory>
    requires { IsGraph graph.now }
    ensures costs { IfOk result (λ found.
        option_map (λ costs. costs.items) found ≡ tuple rows.now graph.now rules.now) }
    ensures none { IfOk result (λ found. IsNone found ↔ MatchesNone rows.now.places (query_of graph.now).levels) }
{
    match document_cost(&rows.places, &graph.levels) {
        Some(level) => Ok(Some(entries(alloc, graph, rows, rules, level)?)),
        None => Ok(None),
    }
}

// The entries of the rules.
fn entries(
    alloc: Global,
    graph: &Graph,
    rows: &DocRows,
    rules: &[Rule],
    level: u32,
) -> Result<Vec<CostKey>, NoMemory>
    requires { IsGraph graph.now }
    ensures { IfOk result (λ costs. costs.items ≡ map (entry rows.now graph.now level) rules.now) }
{
    let mut costs = Vec::new(alloc);
    for rule in rules {
        costs.push(entry(alloc, graph, rows, level, *rule)?)?;
    }
    Ok(costs)
}

// The entry of a rule.
fn entry(
    alloc: Global,
    graph: &Graph,
    rows: &DocRows,
    level: u32,
    rule: Rule,
) -> Result<CostKey, NoMemory>
    requires { IsGraph graph.now }
    ensures { IfOk result (λ key. key ≡ entry rows.now graph.now level rule) }
{
    match rule {
        Rule::Words => Ok(CostKey::Number(level)),
        Rule::Proximity => path_entry(alloc, graph, rows, level, Rule::Proximity),
        Rule::Field => path_entry(alloc, graph, rows, level, Rule::Field),
        Rule::Position => path_entry(alloc, graph, rows, level, Rule::Position),
        Rule::Whole => Ok(CostKey::Number(whole_of(graph, rows))),
        Rule::Inexact => path_entry(alloc, graph, rows, level, Rule::Inexact),
        Rule::Up(path) => Ok(CostKey::Up(least_under(&rows.leaves, path)?)),
        Rule::Down(path) => Ok(CostKey::Down(greatest_under(&rows.leaves, path)?)),
    }
}

// The entry of a rule that sums over readings.
fn path_entry(
    alloc: Global,
    graph: &Graph,
    rows: &DocRows,
    level: u32,
    rule: Rule,
) -> Result<CostKey, NoMemory>
    requires { IsGraph graph.now }
    ensures { IfOk result (λ key. key ≡ CostKey.Number (path_cost rule rows.now.places graph.now.levels level)) }
{
    let cost = path_cost(alloc, rule, &rows.places, &graph.levels, level)?;
    Ok(CostKey::Number(cost))
}

// What the cheapest matching reading of the level with this number costs, 0 where there is none.
fn path_cost(
    alloc: Global,
    rule: Rule,
    places: &[Place],
    levels: &[LevelGraph],
    level: u32,
) -> Result<u32, NoMemory>
    requires { AllByRecursion IsLevel levels.now }
    ensures { IfOk result (λ cost. cost ≡ path_cost rule places.now levels.now level) }
{
    match levels.get(level as usize) {
        Some(level) => {
            let least = least_cost(alloc, rule, places, level)?;
            Ok(least.unwrap_or(0))
        }
        None => Ok(0),
    }
}

// How far the document is from the whole query, 0 where the query has no level.
fn whole_of(graph: &Graph, rows: &DocRows) -> u32
    requires { IsGraph graph.now }
    ensures { result ≡ whole_of rows.now.places graph.now.levels graph.now.whole }
{
    if graph.levels.is_empty() {
        0
    } else {
        whole_cost(&rows.places, &graph.whole)
    }
}

// The words cost, which is 0 where the query has no level.
fn document_cost(places: &[Place], levels: &[LevelGraph]) -> Option<u32>
    requires few { length levels.now ≤ 10 }
    requires levels { AllByRecursion IsLevel levels.now }
    ensures { result ≡ cost_of places.now levels.now }
{
    if levels.is_empty() {
        Some(0)
    } else {
        words_cost(places, levels)
    }
}

// The number of the first level that matches.
fn words_cost(places: &[Place], levels: &[LevelGraph]) -> Option<u32>
    requires few { length levels.now ≤ 10 }
    requires levels { AllByRecursion IsLevel levels.now }
    ensures { result ≡ words_cost_from 0 places.now levels.now }
{
    for (j, level) in levels.iter().enumerate() {
        if level_matches(places, level.items, &level.blocks) {
            return Some(j as u32);
        }
    }
    None
}

/// The words cost under a query that has a level is the least number of a level of which a reading matches the
/// document, and missing only where no level has such a reading. It does nothing.
pub fn the_first_match_counts()
    ensures { (rows : RowsView) (query : Query) → query.levels ≢ []
        → IsFirstMatch rows.places query.levels (cost_under rows.places query.levels) }
{}
