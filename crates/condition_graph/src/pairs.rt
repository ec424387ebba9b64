//! Graphs whose nodes know the last block, so that the cost of two blocks in succession hangs on an edge.
ghost use Rattle.std.specs.Prelude.{◌≡◌, ℕ, ◌+◌, ◌*◌, ◌<◌, ◌≤◌, ◌^◌, ◌==◌, IfOk, OnOk, if◌then◌else◌};
ghost use Rattle.std.specs.Prelude.{[], ◌∷◌, ◌++◌, length, flat_map};
ghost use Rattle.std.specs.List.{AllByRecursion, enumerate_from};
ghost use Rattle.search_base.specs.Graphs.{IsLevel, IsPlaced};
ghost use Rattle.search_base.specs.PairCost.{first_word, last_word};
ghost use Rattle.search_base.specs.Readings.{blocks_from};
ghost use Rattle.condition_graph.specs.PairEdges.{in_order, before, after, free_edge, cost_edge, pair_costs};
ghost use Rattle.condition_graph.specs.PairEdges.{cost_edges, pair_edges, start_edges, own_edge, end_edges};
ghost use Rattle.condition_graph.specs.PairEdges.{edges_at, graph_of_pairs};
ghost use Rattle.condition_graph.specs.Promise.{IsConditionGraph, GivesLeastCost};

use crate::condition::Condition;
use crate::graph::{ConditionEdge, ConditionGraph};
use search_base::{LevelGraph, NoMemory, PlacedBlock, Rule, Word};
use std::alloc::Global;

/// The graph of the rule on proximity.
pub(crate) fn pair_graph(alloc: Global, level: &LevelGraph) -> Result<ConditionGraph, NoMemory>
    requires { IsLevel level.now }
    ensures graph { IfOk result IsConditionGraph }
    ensures cost { (ranks : ℕ) → IfOk result (GivesLeastCost Rule.Proximity ranks level.now) }
{
    let graph = graph_of_pairs(alloc, level)?;
    Ok(graph)
}

fn graph_of_pairs(alloc: Global, level: &LevelGraph) -> Result<ConditionGraph, NoMemory>
    requires { IsLevel level.now }
    ensures { IfOk result (λ graph. graph ≡ graph_of_pairs level.now) }
{
    let blocks = in_order(alloc, level)?;
    let edges = edges_between(alloc, level.items, &blocks)?;
    Ok(ConditionGraph {
        nodes: before(blocks.len()) + 1,
        edges,
    })
}

// The blocks by the places where they begin, so that each goes on to later ones.
fn in_order(alloc: Global, level: &LevelGraph) -> Result<Vec<PlacedBlock>, NoMemory>
    ensures { IfOk result (λ blocks. blocks.items ≡ in_order level.now.items level.now.blocks) }
{
    let mut sorted = Vec::new(alloc);
    for at in 0..level.items {
        add_from(at, &level.blocks, &mut sorted)?;
    }
    Ok(sorted)
}

// Adds the blocks that begin at a place.
fn add_from(at: u8, blocks: &[PlacedBlock], sorted: &mut Vec<PlacedBlock>) -> Result<(), NoMemory>
    ensures { OnOk result (sorted.new.items ≡ sorted.old.items ++ blocks_from blocks.now at) }
{
    for placed in blocks {
        if placed.from == at {
            sorted.push(copy(placed)?)?;
        }
    }
    Ok(())
}

fn copy(placed: &PlacedBlock) -> Result<PlacedBlock, NoMemory>
    ensures { IfOk result (λ copy. copy ≡ placed.now) }
{
    let block = placed.block.clone()?;
    Ok(PlacedBlock {
        from: placed.from,
        to: placed.to,
        block,
    })
}

// The nodes before and after a block.
fn before(i: usize) -> u64
    requires { i < 2 ^ 62 }
    ensures { result ≡ before i }
{
    2 * i as u64 + 1
}

fn after(i: usize) -> u64
    requires { i < 2 ^ 62 }
    ensures { result ≡ after i }
{
    2 * i as u64 + 2
}

fn edges_between(
    alloc: Global,
    items: u8,
    blocks: &[PlacedBlock],
) -> Result<Vec<ConditionEdge>, NoMemory>
    requires { AllByRecursion (IsPlaced items) blocks.now }
    ensures { IfOk result (λ edges. edges.items ≡ flat_map (edges_at items blocks.now) (enumerate_from 0 blocks.now)) }
{
    let mut edges = Vec::new(alloc);
    for i in 0..blocks.len() {
        add_block(items, blocks, i, &blocks[i], &mut edges)?;
    }
    Ok(edges)
}

// Adds the edges to a block, along it and from it.
fn add_block(
    items: u8,
    blocks: &[PlacedBlock],
    i: usize,
    placed: &PlacedBlock,
    edges: &mut Vec<ConditionEdge>,
) -> Result<(), NoMemory>
    requires all { AllByRecursion (IsPlaced items) blocks.now }
    requires one { IsPlaced items placed.now }
    requires within { i < length blocks.now }
    ensures { OnOk result (edges.new.items ≡ edges.old.items ++ edges_at items blocks.now (i, placed.now)) }
{
    add_start(i, placed, edges)?;
    let term = placed.block.term.clone()?;
    edges.push(ConditionEdge {
        from: before(i),
        to: after(i),
        condition: Condition::Occurs(term),
        cost: placed.block.span as u32 - 1,
    })?;
    add_end(items, before(blocks.len()), i, placed, edges)?;
    add_pairs(items, blocks, i, placed, edges)
}

fn add_free(from: u64, to: u64, cost: u32, edges: &mut Vec<ConditionEdge>) -> Result<(), NoMemory>
    ensures { OnOk result (edges.new.items ≡ edges.old.items ++ free_edge from to cost ∷ []) }
{
    edges.push(ConditionEdge {
        from,
        to,
        condition: Condition::Free,
        cost,
    })?;
    Ok(())
}

fn add_start(i: usize, placed: &PlacedBlock, edges: &mut Vec<ConditionEdge>) -> Result<(), NoMemory>
    requires { i < 2 ^ 62 }
    ensures { OnOk result (edges.new.items ≡ edges.old.items ++ start_edges i placed.now) }
{
    if placed.from == 0 {
        add_free(0, before(i), 0, edges)?;
    }
    Ok(())
}

fn add_end(
    items: u8,
    last: u64,
    i: usize,
    placed: &PlacedBlock,
    edges: &mut Vec<ConditionEdge>,
) -> Result<(), NoMemory>
    requires { i < 2 ^ 62 }
    ensures { OnOk result (edges.new.items ≡ edges.old.items ++ end_edges items last i placed.now) }
{
    if placed.to == items {
        add_free(after(i), last, 0, edges)?;
    }
    Ok(())
}

// Adds the edges from a block to those that begin at its end.
fn add_pairs(
    items: u8,
    blocks: &[PlacedBlock],
    i: usize,
    placed: &PlacedBlock,
    edges: &mut Vec<ConditionEdge>,
) -> Result<(), NoMemory>
    requires all { AllByRecursion (IsPlaced items) blocks.now }
    requires one { IsPlaced items placed.now }
    requires within { i < length blocks.now }
    ensures { OnOk result (edges.new.items
        ≡ edges.old.items
        ++ flat_map (λ (j, next). pair_edges i placed.now j next) (enumerate_from 0 blocks.now)) }
{
    for j in 0..blocks.len() {
        add_pair(items, i, placed, j, &blocks[j], edges)?;
    }
    Ok(())
}

fn add_pair(
    items: u8,
    i: usize,
    left: &PlacedBlock,
    j: usize,
    right: &PlacedBlock,
    edges: &mut Vec<ConditionEdge>,
) -> Result<(), NoMemory>
    requires left { IsPlaced items left.now }
    requires right { IsPlaced items right.now }
    requires i { i < 2 ^ 62 }
    requires j { j < 2 ^ 62 }
    ensures { OnOk result (edges.new.items ≡ edges.old.items ++ pair_edges i left.now j right.now) }
{
    if right.from != left.to {
        return Ok(());
    }
    let last = last_word(&left.block.term.words);
    let first = first_word(&right.block.term.words);
    let prefix = right.block.term.prefix;
    add_costs(after(i), before(j), last, first, prefix, edges)
}

// The pair costs that documents are told by; any greater one is 7, for which no words need stand near.
const PAIR_COSTS: u8 = 7;

// Adds an edge for each pair cost of two words, and one that each document may take.
fn add_costs(
    from: u64,
    to: u64,
    left: &Word,
    right: &Word,
    prefix: bool,
    edges: &mut Vec<ConditionEdge>,
) -> Result<(), NoMemory>
    ensures { OnOk result (edges.new.items ≡ edges.old.items ++ cost_edges from to left.now right.now prefix) }
{
    for cost in 0..PAIR_COSTS {
        add_cost(from, to, left, right, prefix, cost, edges)?;
    }
    add_free(from, to, PAIR_COSTS as u32, edges)
}

fn add_cost(
    from: u64,
    to: u64,
    left: &Word,
    right: &Word,
    prefix: bool,
    cost: u8,
    edges: &mut Vec<ConditionEdge>,
) -> Result<(), NoMemory>
    ensures { OnOk result (edges.new.items ≡ edges.old.items ++ cost_edge from to left.now right.now prefix cost ∷ []) }
{
    let left = left.clone()?;
    let right = right.clone()?;
    edges.push(ConditionEdge {
        from,
        to,
        condition: Condition::Pair {
            left,
            right,
            right_prefix: prefix,
            cost,
        },
        cost: cost as u32,
    })?;
    Ok(())
}

fn last_word(words: &[Word]) -> &Word
    requires { 0 < length words.now }
    ensures { result.now ≡ last_word words.now }
{
    &words[words.len() - 1]
}

fn first_word(words: &[Word]) -> &Word
    requires { 0 < length words.now }
    ensures { result.now ≡ first_word words.now }
{
    &words[0]
}
