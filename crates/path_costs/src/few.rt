ghost use Rattle.std.specs.Prelude.{◌≡◌, ◌≢◌, ◌-◌, ◌+◌, ◌<◌, ◌≤◌, ◌^◌, ◌==◌, not, ℕ, min, map, filter, length, slice_get, List};
ghost use Rattle.std.specs.Prelude.{IfOk, OnOk, IfSome, IfNone, Some, None, true, false, Bool, Vec};
ghost use Rattle.std.specs.declared.alloc.Global.{Global};
ghost use Rattle.std.specs.List.{AllByRecursion};
ghost use Rattle.doc_sets.specs.Sets.{has, IsIncreasing};
ghost use Rattle.condition_graph.specs.declared.graph.ConditionEdge.{ConditionEdge};
ghost use Rattle.path_costs.specs.declared.few.Row.{Row};
ghost use Rattle.path_costs.specs.Costs.{cost_of, IsBucket};
ghost use Rattle.path_costs.specs.Links.{IsLinks, IsSmall, graph_of};
ghost use Rattle.path_costs.specs.Found.{AreMet};
ghost use Rattle.path_costs.specs.Few.{AreMarked, IsLeast, AreLeast, AreRows, IsLeastOf};

use crate::fill::{condition_at, edge_at, is_free, meeting_among, next_out, out_of};
use crate::found::NO_COST;
use crate::links::Links;
use crate::resolve::Resolve;
use doc_sets::DocSet;
use search_base::{DocId, NoMemory};
use std::alloc::Global;

/// A document and its cost; one that meets no path costs 2^32.
#[derive(Drop)]
pub(crate) struct Row {
    pub(crate) id: u32,
    pub(crate) cost: u64,
}

// Whether a number stands at a place.
fn stands_at(numbers: &[u32], at: usize, number: u32) -> bool
    ensures yes { result ≡ true → slice_get numbers.now at ≡ Some number }
    ensures no { result ≡ false → slice_get numbers.now at ≢ Some number }
{
    at < numbers.len() && numbers[at] == number
}

fn next_place(at: usize, is: bool) -> usize
    requires { at < 2 ^ 64 - 1 }
    ensures yes { is ≡ true → result ≡ at + 1 }
    ensures no { is ≡ false → result ≡ at }
{
    if is { at + 1 } else { at }
}

// Which documents are among those that are kept of them, in one pass over both.
fn marks_in(alloc: Global, ids: &[u32], kept: &[u32]) -> Result<Vec<bool>, NoMemory>
    requires { IsIncreasing ids.now }
    ensures { IfOk result (λ marks. (p : ℕ → Bool) → kept.now ≡ filter p ids.now → marks.items ≡ map p ids.now) }
{
    let mut marks = Vec::new(alloc);
    let mut at = 0;
    for i in 0..ids.len() {
        let id = number_at(ids, i);
        let is = stands_at(kept, at, id);
        marks.push(is)?;
        at = next_place(at, is);
    }
    Ok(marks)
}

fn all_marked(alloc: Global, ids: &[u32]) -> Result<Vec<bool>, NoMemory>
    ensures { IfOk result (λ marks. marks.items ≡ map (λ d. true) ids.now) }
{
    let mut marks = Vec::new(alloc);
    for i in 0..ids.len() {
        let _id = number_at(ids, i);
        marks.push(true)?;
    }
    Ok(marks)
}

// Which of the universe's documents meet the condition of an edge.
fn marks_of<R: Resolve>(
    alloc: Global,
    links: &Links,
    source: &mut R,
    universe: &DocSet,
    ids: &[u32],
    met: &Vec<Option<DocSet>>,
    edge: usize,
) -> Result<Vec<bool>, NoMemory>
    requires links { IsLinks links.now }
    requires edge { edge < length links.now.edges.items }
    requires ids { ids.now ≡ universe.now.ids }
    requires len { length met.now.items ≡ length links.now.edges.items }
    requires right { AreMet (R.meets source.old) links.now.edges.items universe.now.ids met.now.items }
    ensures kept { R.meets source.new ≡ R.meets source.old }
    ensures marks { IfOk result (λ marks. (e : ConditionEdge) → slice_get links.now.edges.items edge ≡ Some e
        → marks.items ≡ map (R.meets source.old e.condition) ids.now) }
{
    if is_free(&condition_at(links, edge).condition) {
        let marks = all_marked(alloc, ids)?;
        return Ok(marks);
    }
    let _many = universe.len();
    let docs = meeting_among(alloc, links, source, universe, met, edge, universe)?;
    let kept = numbers_of(alloc, &docs)?;
    let marks = marks_in(alloc, ids, &kept)?;
    Ok(marks)
}

// Which of the universe's documents meet the condition of each edge.
fn marks_of_edges<R: Resolve>(
    alloc: Global,
    links: &Links,
    source: &mut R,
    universe: &DocSet,
    ids: &[u32],
    met: &Vec<Option<DocSet>>,
) -> Result<Vec<Vec<bool>>, NoMemory>
    requires links { IsLinks links.now }
    requires ids { ids.now ≡ universe.now.ids }
    requires len { length met.now.items ≡ length links.now.edges.items }
    requires right { AreMet (R.meets source.old) links.now.edges.items universe.now.ids met.now.items }
    ensures kept { R.meets source.new ≡ R.meets source.old }
    ensures marks { IfOk result (λ marks. AreMarked (R.meets source.old) links.now.edges.items ids.now marks.items
        (length links.now.edges.items)) }
{
    let mut marks = Vec::new(alloc);
    for k in 0..links.edges.len() {
        let of_edge = marks_of(alloc, links, source, universe, ids, met, k)?;
        marks.push(of_edge)?;
    }
    Ok(marks)
}

fn marks_at(marks: &Vec<Vec<bool>>, edge: usize) -> &Vec<bool>
    requires { edge < length marks.now.items }
    ensures { slice_get marks.now.items edge ≡ Some result.now }
{
    &marks[edge]
}

fn mark_at(marks: &Vec<bool>, at: usize) -> bool
    requires { at < length marks.now.items }
    ensures { slice_get marks.now.items at ≡ Some result }
{
    marks[at]
}

// Whether the document at a place meets the condition of an edge.
fn is_marked<R: Resolve>(
    links: &Links,
    _source: &R,
    ids: &[u32],
    marks: &Vec<Vec<bool>>,
    edge: usize,
    at: usize,
) -> bool
    requires edge { edge < length links.now.edges.items }
    requires at { at < length ids.now }
    requires marks { AreMarked (R.meets _source.now) links.now.edges.items ids.now marks.now.items
        (length links.now.edges.items) }
    ensures { (e : ConditionEdge) (id : ℕ) → slice_get links.now.edges.items edge ≡ Some e → slice_get ids.now at ≡ Some id
        → result ≡ R.meets _source.now e.condition id }
{
    let met = marks_at(marks, edge);
    mark_at(met, at)
}

// The lesser of a bound and what an edge of this cost leads to, where the document meets its condition.
fn bound_past(costs: &Vec<u64>, to: u64, bound: u64, step: u32, meets: bool) -> u64
    requires { to < length costs.now.items }
    ensures met { meets ≡ true → (c : ℕ) → slice_get costs.now.items to ≡ Some c → c ≤ 2 ^ 32 → result ≡ min bound (step + c) }
    ensures other { meets ≡ false → result ≡ bound }
{
    if !meets {
        return bound;
    }
    bound.min(costs[to as usize].saturating_add(step as u64))
}

// The least cost from a node, where those from the nodes behind it are known.
fn least_out<R: Resolve>(
    links: &Links,
    source: &R,
    ids: &[u32],
    marks: &Vec<Vec<bool>>,
    costs: &Vec<u64>,
    node: u64,
    at: usize,
) -> u64
    requires links { IsLinks links.now }
    requires at { at < length ids.now }
    requires node { node < links.now.last }
    requires marks { AreMarked (R.meets source.now) links.now.edges.items ids.now marks.now.items
        (length links.now.edges.items) }
    requires len { length costs.now.items ≡ links.now.last + 1 }
    requires costs { (id : ℕ) → slice_get ids.now at ≡ Some id
        → AreLeast (R.meets source.now) links.now id costs.now.items (node + 1) }
    ensures { (id : ℕ) → slice_get ids.now at ≡ Some id
        → IsLeast (R.meets source.now) links.now.last links.now.edges.items node id result }
{
    let mut bound = NO_COST;
    let list = out_of(links, node);
    for i in 0..list.len() {
        let index = next_out(links, node, list, i);
        let edge = edge_at(links, node, index);
        let meets = is_marked(links, source, ids, marks, index, at);
        bound = bound_past(costs, edge.to, bound, edge.cost, meets);
    }
    bound
}

fn set_cost(costs: &mut Vec<u64>, node: u64, cost: u64)
    requires { node < length costs.old.items }
    ensures len { length costs.new.items ≡ length costs.old.items }
    ensures here { slice_get costs.new.items node ≡ Some cost }
    ensures others { (v c : ℕ) → node < v → slice_get costs.new.items v ≡ Some c → slice_get costs.old.items v ≡ Some c }
{
    costs[node as usize] = cost;
}

fn first_cost(costs: &Vec<u64>) -> u64
    requires { 0 < length costs.now.items }
    ensures { slice_get costs.now.items 0 ≡ Some result }
{
    costs[0]
}

// The least cost of the document at a place, found node by node from the last one.
fn least_at<R: Resolve>(
    links: &Links,
    source: &R,
    ids: &[u32],
    marks: &Vec<Vec<bool>>,
    costs: &mut Vec<u64>,
    at: usize,
) -> u64
    requires links { IsLinks links.now }
    requires at { at < length ids.now }
    requires marks { AreMarked (R.meets source.now) links.now.edges.items ids.now marks.now.items
        (length links.now.edges.items) }
    requires len { length costs.old.items ≡ links.now.last + 1 }
    ensures len { length costs.new.items ≡ links.now.last + 1 }
    ensures least { (id : ℕ) → slice_get ids.now at ≡ Some id
        → IsLeast (R.meets source.now) links.now.last links.now.edges.items 0 id result }
{
    let last = links.last;
    set_cost(costs, last, 0);
    for done in 0..last {
        let node = last - 1 - done;
        let cost = least_out(links, source, ids, marks, costs, node, at);
        set_cost(costs, node, cost);
    }
    first_cost(costs)
}

fn no_costs(alloc: Global, nodes: u64) -> Result<Vec<u64>, NoMemory>
    ensures { IfOk result (λ costs. length costs.items ≡ nodes) }
{
    let mut costs = Vec::new(alloc);
    for _node in 0..nodes {
        costs.push(NO_COST)?;
    }
    Ok(costs)
}

fn numbers_of(alloc: Global, universe: &DocSet) -> Result<Vec<u32>, NoMemory>
    ensures { IfOk result (λ ids. ids.items ≡ universe.now.ids) }
{
    let mut ids = Vec::new(alloc);
    for id in universe.iter() {
        ids.push(id.0)?;
    }
    Ok(ids)
}

fn number_at(ids: &[u32], at: usize) -> u32
    requires { at < length ids.now }
    ensures { slice_get ids.now at ≡ Some result }
{
    ids[at]
}

// The documents with their costs, found document by document.
fn costed<R: Resolve>(
    alloc: Global,
    links: &Links,
    source: &R,
    ids: &[u32],
    marks: &Vec<Vec<bool>>,
) -> Result<Vec<Row>, NoMemory>
    requires links { IsLinks links.now }
    requires marks { AreMarked (R.meets source.now) links.now.edges.items ids.now marks.now.items
        (length links.now.edges.items) }
    ensures ids { IfOk result (λ rows. map (λ row. row.id) rows.items ≡ ids.now) }
    ensures costs { IfOk result (λ rows. AllByRecursion (λ row. IsLeast (R.meets source.now) links.now.last
        links.now.edges.items 0 row.id row.cost) rows.items) }
{
    let mut costs = no_costs(alloc, links.last + 1)?;
    let mut rows = Vec::new(alloc);
    for at in 0..ids.len() {
        let cost = least_at(links, source, ids, marks, &mut costs, at);
        let id = number_at(ids, at);
        rows.push(Row { id, cost })?;
    }
    Ok(rows)
}

/// A universe's documents with their costs.
pub(crate) fn rows_of<R: Resolve>(
    alloc: Global,
    links: &Links,
    source: &mut R,
    universe: &DocSet,
    met: &Vec<Option<DocSet>>,
) -> Result<Vec<Row>, NoMemory>
    requires links { IsLinks links.now }
    requires len { length met.now.items ≡ length links.now.edges.items }
    requires right { AreMet (R.meets source.old) links.now.edges.items universe.now.ids met.now.items }
    ensures kept { R.meets source.new ≡ R.meets source.old }
    ensures rows { IfOk result (λ rows. AreRows (R.meets source.old) links.now universe.now.ids rows.items) }
{
    let ids = numbers_of(alloc, universe)?;
    let marks = marks_of_edges(alloc, links, source, universe, &ids, met)?;
    let rows = costed(alloc, links, source, &ids, &marks)?;
    Ok(rows)
}

fn row_at(rows: &[Row], i: usize) -> &Row
    requires { i < length rows.now }
    ensures { slice_get rows.now i ≡ Some result.now }
{
    &rows[i]
}

// The least cost of the rows, or 2^32.
fn least_cost(rows: &[Row]) -> u64
    ensures { IsLeastOf rows.now result }
{
    let mut least = NO_COST;
    for i in 0..rows.len() {
        let row = row_at(rows, i);
        least = least.min(row.cost);
    }
    least
}

// The documents of a cost.
fn ids_at(alloc: Global, rows: &[Row], cost: u64) -> Result<Vec<DocId>, NoMemory>
    ensures { IfOk result (λ ids. map (λ id. id.0) ids.items ≡ map (λ row. row.id) (filter (λ row. row.cost == cost) rows.now)) }
{
    let mut ids = Vec::new(alloc);
    for i in 0..rows.len() {
        if rows[i].cost == cost {
            ids.push(DocId(rows[i].id))?;
        }
    }
    Ok(ids)
}

fn leave_out(rows: &mut Vec<Row>, cost: u64)
    ensures { rows.new.items ≡ filter (λ row. not (row.cost == cost)) rows.old.items }
{
    rows.retain(|row| row.cost != cost);
}

/// Takes the documents of the least cost out of the rows.
pub(crate) fn next_of_few<R: Resolve>(
    alloc: Global,
    _links: &Links,
    _source: &R,
    rows: &mut Vec<Row>,
    remaining: &mut DocSet,
) -> Result<Option<(u32, DocSet)>, NoMemory>
    requires small { IsSmall (graph_of _links.now) }
    requires rows { AreRows (R.meets _source.now) _links.now remaining.old.ids rows.old.items }
    ensures rows { OnOk result (AreRows (R.meets _source.now) _links.now remaining.new.ids rows.new.items) }
    ensures some { IfOk result (λ given. IfSome given
        (λ (cost, docs). IsBucket (cost_of (R.meets _source.now)
        (graph_of _links.now)) remaining.old.ids remaining.new.ids cost docs.ids)) }
    ensures none { IfOk result (λ given. IfNone given ((d : ℕ) → has remaining.old.ids d ≡ true
        → cost_of (R.meets _source.now) (graph_of _links.now) d ≡ None)) }
    ensures rest { IfOk result (λ given. IfNone given (remaining.new.ids ≡ remaining.old.ids)) }
{
    let cost = least_cost(rows);
    if cost >= NO_COST {
        return Ok(None);
    }
    let _many = remaining.len();
    let ids = ids_at(alloc, rows, cost)?;
    let docs = DocSet::from_sorted(alloc, &ids)?;
    remaining.subtract(alloc, &docs)?;
    leave_out(rows, cost);
    Ok(Some((cost as u32, docs)))
}
