ghost use Rattle.std.specs.Prelude.{◌≡◌, ℕ, ◌+◌, ◌-◌, ◌<◌, ◌≤◌, ◌==◌, length, map, None, if◌then◌else◌, IfOk, IfSome};
ghost use Rattle.std.specs.List.{AllByRecursion};
ghost use Rattle.std.specs.Option.{option_map};
ghost use Rattle.search_base.specs.BlockCosts.{link_cost};
ghost use Rattle.search_base.specs.Graphs.{IsPlaced, IsLevel};
ghost use Rattle.search_base.specs.LeastSums.{least_sum, sum_from};
ghost use Rattle.search_base.specs.Sums.{least_cost};
ghost use Rattle.plain_rank.specs.Numbers.{cost_if, IsCheap};
ghost use Rattle.plain_rank.specs.Table.{known_sum, table, least_at_start};

use crate::least::lesser_sum;
use crate::numbers::cost_if;
use crate::pairs::term_cost;
use search_base::{Block, LevelGraph, NoMemory, Place, PlacedBlock, Rule};
use std::alloc::{AllocError, Global};

// The cost of two blocks in succession.
fn link_cost(rule: Rule, places: &[Place], left: &Block, right: &Block) -> u32
    requires left { 0 < length left.now.term.words }
    requires right { 0 < length right.now.term.words }
    ensures value { result ≡ link_cost rule places.now left.now right.now }
    ensures small { result ≤ 7 }
{
    match rule {
        Rule::Proximity => term_cost(places, &left.term, &right.term),
        Rule::Words
        | Rule::Field
        | Rule::Position
        | Rule::Whole
        | Rule::Inexact
        | Rule::Up(_)
        | Rule::Down(_) => 0,
    }
}

// The blocks of a level of so many items, beside the places of a document under a rule.
#[derive(Clone, Copy, Drop)]
struct Level<'a> {
    rule: Rule,
    places: &'a [Place],
    items: u8,
    blocks: &'a [PlacedBlock],
}

// What a block that begins at a place contributes there, after another block.
fn onward(
    level: Level<'_>,
    block: &Block,
    at: u8,
    placed: &PlacedBlock,
    sum: Option<u32>,
) -> Option<u32>
    requires left { 0 < length block.now.term.words }
    requires right { 0 < length placed.now.block.term.words }
    requires small { IfSome sum (λ n. n ≤ 7300000) }
    ensures { result
        ≡ (if placed.now.from == at
        then option_map (λ n. link_cost level.entry.rule level.entry.places.now block.now placed.now.block + n) sum
        else None) }
{
    if placed.from != at {
        return None;
    }
    match sum {
        Some(sum) => Some(link_cost(level.rule, level.places, block, &placed.block) + sum),
        None => None,
    }
}

// The least sum of what comes after a block.
fn least_after(level: Level<'_>, block: &Block, at: u8, sums: &[Option<u32>]) -> Option<u32>
    requires few { level.items ≤ 10 }
    requires placed { AllByRecursion (IsPlaced level.items) level.blocks.now }
    requires cheap { AllByRecursion (IsCheap level.rule level.places.now) level.blocks.now }
    requires some { 0 < length block.now.term.words }
    requires before_end { at < level.items }
    requires known { (k : ℕ) × (k ≤ at)
        × (sums.now ≡ table level.rule level.places.now level.items level.blocks.now k) }
    ensures { result
        ≡ least_sum level.entry.rule level.entry.places.now level.entry.items level.entry.blocks.now
        (link_cost level.entry.rule level.entry.places.now block.now) (level.entry.items - at) at }
{
    let mut least = None;
    let blocks = level.blocks;
    for i in 0..blocks.len() {
        let sum = onward(level, block, at, &blocks[i], sums[i]);
        least = lesser_sum(least, sum);
    }
    least
}

// The least sum of what comes after a block of the level.
fn rest_of(level: Level<'_>, placed: &PlacedBlock, sums: &[Option<u32>]) -> Option<u32>
    requires few { level.items ≤ 10 }
    requires placed { AllByRecursion (IsPlaced level.items) level.blocks.now }
    requires cheap { AllByRecursion (IsCheap level.rule level.places.now) level.blocks.now }
    requires one { IsPlaced level.items placed.now }
    requires known { (k : ℕ) × (k ≤ placed.now.to)
        × (sums.now ≡ table level.rule level.places.now level.items level.blocks.now k) }
    ensures value { result
        ≡ least_sum level.entry.rule level.entry.places.now level.entry.items level.entry.blocks.now
        (link_cost level.entry.rule level.entry.places.now placed.now.block)
        (level.entry.items - placed.now.to) placed.now.to }
    ensures small { IfSome result (λ n. n ≤ 6600000) }
{
    if placed.to == level.items {
        Some(0)
    } else {
        least_after(level, &placed.block, placed.to, sums)
    }
}

// The least sum of a block of this cost and of what comes after it.
fn sum_from(
    level: Level<'_>,
    placed: &PlacedBlock,
    cost: Option<u32>,
    sums: &[Option<u32>],
) -> Option<u32>
    requires few { level.items ≤ 10 }
    requires placed { AllByRecursion (IsPlaced level.items) level.blocks.now }
    requires cheap { AllByRecursion (IsCheap level.rule level.places.now) level.blocks.now }
    requires one { IsPlaced level.items placed.now }
    requires one_cheap { IsCheap level.rule level.places.now placed.now }
    requires cost { cost ≡ cost_if level.rule level.places.now placed.now.block }
    requires known { (k : ℕ) × (k ≤ placed.now.to)
        × (sums.now ≡ table level.rule level.places.now level.items level.blocks.now k) }
    ensures { result
        ≡ sum_from level.entry.rule level.entry.places.now level.entry.items level.entry.blocks.now
        (level.entry.items - placed.now.to) placed.now }
{
    let Some(cost) = cost else {
        return None;
    };
    match rest_of(level, placed, sums) {
        Some(rest) => Some(cost + rest),
        None => None,
    }
}

// The sums of the blocks that begin at a place or later, from those that begin later.
fn earlier(
    alloc: Global,
    level: Level<'_>,
    at: u8,
    costs: &[Option<u32>],
    sums: &[Option<u32>],
) -> Result<Vec<Option<u32>>, NoMemory>
    requires few { level.items ≤ 10 }
    requires placed { AllByRecursion (IsPlaced level.items) level.blocks.now }
    requires cheap { AllByRecursion (IsCheap level.rule level.places.now) level.blocks.now }
    requires before_end { at < level.items }
    requires costs { costs.now ≡ map (λ placed. cost_if level.rule level.places.now placed.block) level.blocks.now }
    requires known { sums.now ≡ table level.rule level.places.now level.items level.blocks.now (at + 1) }
    ensures { IfOk result (λ next. next.items
        ≡ table level.entry.rule level.entry.places.now level.entry.items level.entry.blocks.now at) }
{
    let blocks = level.blocks;
    let mut next = Vec::new(alloc);
    for i in 0..blocks.len() {
        let placed = &blocks[i];
        let sum = if placed.from == at {
            sum_from(level, placed, costs[i], sums)
        } else {
            sums[i]
        };
        next.push(sum)?;
    }
    Ok(next)
}

fn nothing_known(alloc: Global, blocks: &[PlacedBlock]) -> Result<Vec<Option<u32>>, AllocError>
    ensures { IfOk result (λ sums. sums.items ≡ map (λ _. None) blocks.now) }
{
    blocks.iter().map(|_| None).collect(alloc)
}

// The costs of the blocks, each if the block occurs.
fn costs_of(alloc: Global, level: Level<'_>) -> Result<Vec<Option<u32>>, NoMemory>
    requires few { level.items ≤ 10 }
    requires placed { AllByRecursion (IsPlaced level.items) level.blocks.now }
    ensures costs { IfOk result (λ costs.
        costs.items ≡ map (λ placed. cost_if level.entry.rule level.entry.places.now placed.block)
        level.entry.blocks.now) }
    ensures cheap { IfOk result (λ _.
        AllByRecursion (IsCheap level.entry.rule level.entry.places.now) level.entry.blocks.now) }
{
    let mut costs = Vec::new(alloc);
    for placed in level.blocks {
        costs.push(cost_if(level.rule, level.places, &placed.block))?;
    }
    Ok(costs)
}

// The least sum of the blocks that begin at the start.
fn least_first(blocks: &[PlacedBlock], sums: &[Option<u32>]) -> Option<u32>
    requires { length sums.now ≡ length blocks.now }
    ensures { result ≡ least_at_start blocks.now sums.now }
{
    let mut least = None;
    for i in 0..blocks.len() {
        least = lesser_sum(least, at_start(&blocks[i], sums[i]));
    }
    least
}

fn at_start(placed: &PlacedBlock, sum: Option<u32>) -> Option<u32>
    ensures { result ≡ (if placed.now.from == 0 then sum else None) }
{
    if placed.from == 0 { sum } else { None }
}

// The least sum over the readings of some blocks that match.
fn least_sum(alloc: Global, level: Level<'_>) -> Result<Option<u32>, NoMemory>
    requires some { 0 < level.items }
    requires few { level.items ≤ 10 }
    requires placed { AllByRecursion (IsPlaced level.items) level.blocks.now }
    ensures { IfOk result (λ sum. sum
        ≡ least_sum level.entry.rule level.entry.places.now level.entry.items level.entry.blocks.now (λ _. 0)
        level.entry.items 0) }
{
    let costs = costs_of(alloc, level)?;
    let mut sums = nothing_known(alloc, level.blocks)?;
    let mut at = level.items;
    while at > 0 {
        at -= 1;
        sums = earlier(alloc, level, at, &costs, &sums)?;
    }
    Ok(least_first(level.blocks, &sums))
}

// The least sum over the readings of the level that match the document.
pub fn least_cost(
    alloc: Global,
    rule: Rule,
    places: &[Place],
    level: &LevelGraph,
) -> Result<Option<u32>, NoMemory>
    requires { IsLevel level.now }
    ensures { IfOk result (λ sum. sum ≡ least_cost rule places.now level.now) }
{
    let level = Level {
        rule,
        places,
        items: level.items,
        blocks: &level.blocks,
    };
    least_sum(alloc, level)
}
