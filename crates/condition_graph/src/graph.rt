ghost use Rattle.std.specs.Prelude.{◌≡◌, ◌<◌, true, length, IfOk, IfSome, slice_get, Some};
ghost use Rattle.std.specs.List.{AllByRecursion};
ghost use Rattle.search_base.specs.Graphs.{IsGraph, IsLevel};
ghost use Rattle.condition_graph.specs.Promise.{has_graph, IsConditionGraph, GivesLeastCost};
ghost use Rattle.condition_graph.specs.Walks.{AreTheWalks};

use crate::along::block_graph;
use crate::condition::Condition;
use crate::pairs::pair_graph;
use search_base::{Graph, LevelGraph, NoMemory, Rule};
use std::alloc::Global;
use std::marker::Model;

/// An edge, which documents that meet its condition may take at its cost.
#[derive(Debug, Drop)]
pub struct ConditionEdge {
    pub from: u64,
    pub to: u64,
    pub condition: Condition,
    pub cost: u32,
}

/// Edges between the nodes from 0. Each path goes from node 0 to the last node.
#[derive(Debug, Drop)]
pub struct ConditionGraph {
    pub nodes: u64,
    pub edges: Vec<ConditionEdge>,
}

impl Model for ConditionGraph {
    ghost use Rattle.condition_graph.specs.EdgesView.{EdgesView};

    ghost Value = { EdgesView };

    ghost view = { λ graph. record { nodes = graph.nodes; edges = graph.edges.items } };
}

/// The conditions of one level of a query under a rule that is none of `Rule::Whole`, `Rule::Up`
/// and `Rule::Down`, for documents whose ranks are all below `ranks`. The least cost of a path whose
/// conditions a document meets is the least sum of that rule over the level's readings that match
/// the document, and there is such a path exactly where a reading matches. Under the rule on words
/// each cost is 0. The one error is want of memory.
///
/// Under the rule on proximity a level of n blocks gives 2n + 2 nodes, under the others a node for
/// each place between items.
pub fn conditions(
    alloc: Global,
    graph: &Graph,
    rule: Rule,
    level: usize,
    ranks: u16,
) -> Result<ConditionGraph, NoMemory>
    requires graph { IsGraph graph.now }
    requires level { level < length graph.now.levels }
    requires rule { has_graph rule ≡ true }
    ensures graph { IfOk result IsConditionGraph }
    ensures cost { IfOk result (λ made.
        IfSome (slice_get graph.now.levels level) (λ view. GivesLeastCost rule ranks view made)) }
{
    let made = level_conditions(alloc, level_at(&graph.levels, level), rule, ranks)?;
    Ok(made)
}

fn level_at(levels: &[LevelGraph], level: usize) -> &LevelGraph
    requires level { level < length levels.now }
    requires levels { AllByRecursion IsLevel levels.now }
    ensures is { slice_get levels.now level ≡ Some result.now }
    ensures right { IsLevel result.now }
{
    &levels[level]
}

fn level_conditions(
    alloc: Global,
    level: &LevelGraph,
    rule: Rule,
    ranks: u16,
) -> Result<ConditionGraph, NoMemory>
    requires level { IsLevel level.now }
    requires rule { has_graph rule ≡ true }
    ensures graph { IfOk result IsConditionGraph }
    ensures cost { IfOk result (GivesLeastCost rule ranks level.now) }
{
    if matches!(rule, Rule::Proximity) {
        pair_graph(alloc, level)
    } else {
        block_graph(alloc, level, rule, ranks)
    }
}

/// The paths of a condition graph are the ways to join its edges end to end, from node 0 to the
/// last node. It does nothing.
pub fn paths_are_the_walks(graph: &ConditionGraph)
    requires { IsConditionGraph graph.now }
    ensures { AreTheWalks graph.now }
{}
