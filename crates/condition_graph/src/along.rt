//! Graphs whose nodes are the places between a level's items, with the edges along its blocks.
ghost use Rattle.std.specs.Prelude.{◌≡◌, ◌+◌, ◌*◌, ◌<◌, ◌++◌, ◌∷◌, [], true, IfOk, OnOk};
ghost use Rattle.search_base.specs.Graphs.{IsLevel};
ghost use Rattle.search_base.specs.BlockCosts.{inexact_of};
ghost use Rattle.condition_graph.specs.Promise.{is_along, IsConditionGraph, GivesLeastCost};
ghost use Rattle.condition_graph.specs.BlockEdges.{along, buckets, rank_edge, rank_edges, bucket_edge};
ghost use Rattle.condition_graph.specs.BlockEdges.{bucket_edges, block_edges, graph_along};

use crate::condition::Condition;
use crate::graph::{ConditionEdge, ConditionGraph};
use search_base::{Kind, LevelGraph, NoMemory, PlacedBlock, Rule};
use std::alloc::Global;

/// The graph of a rule that costs nothing between two blocks.
pub(crate) fn block_graph(
    alloc: Global,
    level: &LevelGraph,
    rule: Rule,
    ranks: u16,
) -> Result<ConditionGraph, NoMemory>
    requires level { IsLevel level.now }
    requires rule { is_along rule ≡ true }
    ensures graph { IfOk result IsConditionGraph }
    ensures cost { IfOk result (GivesLeastCost rule ranks level.now) }
{
    let graph = graph_along(alloc, level, rule, ranks)?;
    Ok(graph)
}

fn graph_along(
    alloc: Global,
    level: &LevelGraph,
    rule: Rule,
    ranks: u16,
) -> Result<ConditionGraph, NoMemory>
    ensures { IfOk result (λ graph. graph ≡ graph_along rule ranks level.now) }
{
    let mut edges = Vec::new(alloc);
    for placed in &level.blocks {
        add_edges(rule, ranks, placed, &mut edges)?;
    }
    Ok(ConditionGraph {
        nodes: level.items as u64 + 1,
        edges,
    })
}

// Adds the edges along a block.
fn add_edges(
    rule: Rule,
    ranks: u16,
    placed: &PlacedBlock,
    edges: &mut Vec<ConditionEdge>,
) -> Result<(), NoMemory>
    ensures { OnOk result (edges.new.items ≡ edges.old.items ++ block_edges rule ranks placed.now) }
{
    match rule {
        Rule::Field => add_ranks(ranks, placed, edges),
        Rule::Position => add_buckets(placed, edges),
        Rule::Inexact => add_occurrence(placed, inexact_cost(placed), edges),
        _ => add_occurrence(placed, 0, edges),
    }
}

// An edge for each rank of a path in which the block can stand.
fn add_ranks(
    ranks: u16,
    placed: &PlacedBlock,
    edges: &mut Vec<ConditionEdge>,
) -> Result<(), NoMemory>
    ensures { OnOk result (edges.new.items ≡ edges.old.items ++ rank_edges placed.now ranks) }
{
    for rank in 0..ranks {
        add_rank(placed, rank, edges)?;
    }
    Ok(())
}

fn add_rank(placed: &PlacedBlock, rank: u16, edges: &mut Vec<ConditionEdge>) -> Result<(), NoMemory>
    ensures { OnOk result (edges.new.items ≡ edges.old.items ++ rank_edge placed.now rank ∷ []) }
{
    let term = placed.block.term.clone()?;
    let cost = placed.block.span as u32 * rank as u32;
    add_edge(placed, Condition::AtRank { term, rank }, cost, edges)
}

// An edge for each bucket of a position at which the block can stand.
fn add_buckets(placed: &PlacedBlock, edges: &mut Vec<ConditionEdge>) -> Result<(), NoMemory>
    ensures { OnOk result (edges.new.items ≡ edges.old.items ++ bucket_edges placed.now buckets) }
{
    for bucket in 0..BUCKETS {
        add_bucket(placed, bucket, edges)?;
    }
    Ok(())
}

// One more than the greatest bucket, that of position 65,535.
const BUCKETS: u8 = 21;

fn add_bucket(
    placed: &PlacedBlock,
    bucket: u8,
    edges: &mut Vec<ConditionEdge>,
) -> Result<(), NoMemory>
    ensures { OnOk result (edges.new.items ≡ edges.old.items ++ bucket_edge placed.now bucket ∷ []) }
{
    let term = placed.block.term.clone()?;
    let cost = placed.block.span as u32 * bucket as u32;
    add_edge(placed, Condition::AtBucket { term, bucket }, cost, edges)
}

// An edge that wants the block somewhere.
fn add_occurrence(
    placed: &PlacedBlock,
    cost: u32,
    edges: &mut Vec<ConditionEdge>,
) -> Result<(), NoMemory>
    ensures { OnOk result (edges.new.items
        ≡ edges.old.items ++ along placed.now (Condition.Occurs placed.now.block.term) cost ∷ []) }
{
    let term = placed.block.term.clone()?;
    add_edge(placed, Condition::Occurs(term), cost, edges)
}

fn add_edge(
    placed: &PlacedBlock,
    condition: Condition,
    cost: u32,
    edges: &mut Vec<ConditionEdge>,
) -> Result<(), NoMemory>
    ensures { OnOk result (edges.new.items ≡ edges.old.items ++ along placed.now condition cost ∷ []) }
{
    edges.push(ConditionEdge {
        from: placed.from as u64,
        to: placed.to as u64,
        condition,
        cost,
    })?;
    Ok(())
}

// A word counts where it is read otherwise than it was written.
fn inexact_cost(placed: &PlacedBlock) -> u32
    ensures { result ≡ placed.now.block.span * inexact_of placed.now.block.kind }
{
    match placed.block.kind {
        Kind::Plain | Kind::Phrase => 0,
        Kind::Prefix | Kind::Joined | Kind::Synonym => placed.block.span as u32,
    }
}
