ghost use Rattle.std.specs.Prelude.{◌≡◌, ◌+◌, ◌<◌, ◌≤◌, ◌^◌, ◌==◌, ◌&&◌, ◌||◌, ℕ, min, length, slice_get};
ghost use Rattle.std.specs.Prelude.{IfOk, OnOk, Some, true, Option};
ghost use Rattle.doc_sets.specs.Sets.{has};
ghost use Rattle.doc_sets.specs.SetView.{SetView};
ghost use Rattle.condition_graph.specs.declared.graph.ConditionEdge.{ConditionEdge};
ghost use Rattle.path_costs.specs.declared.found.Filled.{Filled};
ghost use Rattle.path_costs.specs.Links.{IsLinks, IsFrom, IsOut};
ghost use Rattle.path_costs.specs.Found.{AreMet, AreMeeting, IsFound, IsFilledAt};

use crate::found::{Filled, Found, NO_COST, filled_at, find, put, take_at};
use crate::links::Links;
use crate::resolve::Resolve;
use condition_graph::{Condition, ConditionEdge};
use doc_sets::DocSet;
use search_base::NoMemory;
use std::alloc::Global;

// The universe at cost 0, and no document at another.
fn at_end(alloc: Global, universe: &DocSet, cost: u32) -> Result<DocSet, NoMemory>
    ensures { IfOk result (λ set. (d : ℕ) → has set.ids d ≡ (has universe.now.ids d && (0 == cost))) }
{
    if cost == 0 {
        let all = universe.clone()?;
        Ok(all)
    } else {
        Ok(DocSet::new(alloc))
    }
}

// The indices of the edges that go from a node.
pub(crate) fn out_of(links: &Links, node: u64) -> &[usize]
    requires right { IsLinks links.now }
    requires node { node < links.now.last + 1 }
    ensures { IsOut links.now.edges.items node result.now }
{
    links.out[node as usize].as_slice()
}

// The i-th of these indices.
pub(crate) fn next_out(_links: &Links, _node: u64, list: &[usize], i: usize) -> usize
    requires here { i < length list.now }
    requires out { IsOut _links.now.edges.items _node list.now }
    ensures is { slice_get list.now i ≡ Some result }
    ensures from { IsFrom _links.now.edges.items _node result }
    ensures within { result < length _links.now.edges.items }
{
    list[i]
}

// The edge at an index, which goes from a node.
pub(crate) fn edge_at(links: &Links, _node: u64, at: usize) -> &ConditionEdge
    requires right { IsLinks links.now }
    requires from { IsFrom links.now.edges.items _node at }
    ensures is { slice_get links.now.edges.items at ≡ Some result.now }
    ensures ahead { _node < result.now.to }
    ensures within { result.now.to < links.now.last + 1 }
{
    &links.edges[at]
}

// The edge at an index.
pub(crate) fn condition_at(links: &Links, at: usize) -> &ConditionEdge
    requires { at < length links.now.edges.items }
    ensures { slice_get links.now.edges.items at ≡ Some result.now }
{
    &links.edges[at]
}

// The documents of a set that meet the condition of an edge, so far as they are the universe's. It is asked for unless
// the universe's documents that meet it are known.
pub(crate) fn meeting_among<R: Resolve>(
    alloc: Global,
    links: &Links,
    source: &mut R,
    _universe: &DocSet,
    met: &Vec<Option<DocSet>>,
    edge: usize,
    docs: &DocSet,
) -> Result<DocSet, NoMemory>
    requires links { IsLinks links.now }
    requires edge { edge < length links.now.edges.items }
    requires len { length met.now.items ≡ length links.now.edges.items }
    requires right { AreMet (R.meets source.old) links.now.edges.items _universe.now.ids met.now.items }
    ensures kept { R.meets source.new ≡ R.meets source.old }
    ensures docs { IfOk result (λ set. (e : ConditionEdge) → slice_get links.now.edges.items edge ≡ Some e
        → AreMeeting (R.meets source.old e.condition) _universe.now.ids docs.now.ids set.ids) }
{
    if is_met(met, edge) {
        let both = docs.and(alloc, met_at(met, edge))?;
        return Ok(both);
    }
    let asked = condition_at(links, edge);
    let set = source.docs(alloc, &asked.condition, docs)?;
    Ok(set)
}

fn is_met(met: &Vec<Option<DocSet>>, edge: usize) -> bool
    requires { edge < length met.now.items }
    ensures { result ≡ true → (set : SetView) × (slice_get met.now.items edge ≡ Some (Some set)) }
{
    met[edge].is_some()
}

fn met_at(met: &Vec<Option<DocSet>>, edge: usize) -> &DocSet
    requires { (set : SetView) × (slice_get met.now.items edge ≡ Some (Some set)) }
    ensures { slice_get met.now.items edge ≡ Some (Some result.now) }
{
    match &met[edge] {
        Some(docs) => docs,
        None => unreachable!(),
    }
}

pub(crate) fn is_free(condition: &Condition) -> bool
    ensures { result ≡ true → condition.now ≡ Condition.Free }
{
    matches!(condition, Condition::Free)
}

// Adds the documents of a set that meet the condition of an edge. Where the set is empty, or all
// meet it, the condition is not asked for; else it is asked of the set alone, where it is.
fn add_met<R: Resolve>(
    alloc: Global,
    links: &Links,
    source: &mut R,
    universe: &DocSet,
    met: &Vec<Option<DocSet>>,
    edge: usize,
    rest: &DocSet,
    docs: DocSet,
) -> Result<DocSet, NoMemory>
    requires links { IsLinks links.now }
    requires edge { edge < length links.now.edges.items }
    requires len { length met.now.items ≡ length links.now.edges.items }
    requires right { AreMet (R.meets source.old) links.now.edges.items universe.now.ids met.now.items }
    ensures kept { R.meets source.new ≡ R.meets source.old }
    ensures docs { IfOk result (λ set. (e : ConditionEdge) → slice_get links.now.edges.items edge ≡ Some e
        → (d : ℕ) → has universe.now.ids d ≡ true → has set.ids d
        ≡ (has docs.ids d || (R.meets source.old e.condition d && has rest.now.ids d))) }
{
    if rest.is_empty() {
        return Ok(docs);
    }
    if is_free(&condition_at(links, edge).condition) {
        let copy = rest.clone()?;
        let with_rest = docs.join(alloc, copy)?;
        return Ok(with_rest);
    }
    let both = meeting_among(alloc, links, source, universe, met, edge, rest)?;
    let all = docs.join(alloc, both)?;
    Ok(all)
}

// Adds the documents of the universe that meet the condition of an edge to the last node, where no cost is left there.
fn add_last<R: Resolve>(
    alloc: Global,
    links: &Links,
    source: &mut R,
    universe: &DocSet,
    met: &Vec<Option<DocSet>>,
    edge: usize,
    left: u32,
    docs: DocSet,
) -> Result<DocSet, NoMemory>
    requires links { IsLinks links.now }
    requires edge { edge < length links.now.edges.items }
    requires len { length met.now.items ≡ length links.now.edges.items }
    requires right { AreMet (R.meets source.old) links.now.edges.items universe.now.ids met.now.items }
    ensures kept { R.meets source.new ≡ R.meets source.old }
    ensures docs { IfOk result (λ set. (e : ConditionEdge) → slice_get links.now.edges.items edge ≡ Some e
        → (d : ℕ) → has universe.now.ids d ≡ true → has set.ids d
        ≡ (has docs.ids d || (R.meets source.old e.condition d && (has universe.now.ids d && (0 == left))))) }
{
    if left > 0 {
        return Ok(docs);
    }
    add_met(alloc, links, source, universe, met, edge, universe, docs)
}

// The lesser of a bound and what comes next along an edge of this cost.
fn bound_along(list: &Vec<Filled>, at: usize, bound: u64, cost: u32) -> u64
    requires { at < length list.now.items }
    ensures { (f : Filled) → slice_get list.now.items at ≡ Some f → f.beyond ≤ 2 ^ 32 → result
        ≡ min bound (cost + f.beyond) }
{
    let filled = filled_at(list, at);
    bound.min(filled.beyond.saturating_add(cost as u64))
}

// The lesser of a bound and a cost.
fn bound_of(bound: u64, cost: u32) -> u64
    ensures { result ≡ min bound cost }
{
    bound.min(cost as u64)
}

// Fills the documents of a node and a cost, and those from which they are made. The answer is where
// they stand.
pub(crate) fn fill<R: Resolve>(
    alloc: Global,
    links: &Links,
    source: &mut R,
    universe: &DocSet,
    found: &mut Found,
    node: u64,
    cost: u32,
) -> Result<usize, NoMemory>
    requires links { IsLinks links.now }
    requires node { node < links.now.last + 1 }
    requires found { IsFound (R.meets source.old) links.now universe.now.ids found.old }
    ensures kept { R.meets source.new ≡ R.meets source.old }
    ensures found { OnOk result (IsFound (R.meets source.old) links.now universe.now.ids found.new) }
    ensures filled { IfOk result (IsFilledAt found.new.filled.items node cost) }
{
    if let Some(at) = find(found, node, cost) {
        return Ok(at);
    }
    if node == links.last {
        let docs = at_end(alloc, universe, cost)?;
        let filled = Filled {
            node,
            cost,
            docs,
            beyond: NO_COST,
        };
        let at = put(found, filled)?;
        return Ok(at);
    }
    let mut docs = DocSet::new(alloc);
    let mut beyond = NO_COST;
    let list = out_of(links, node);
    for i in 0..list.len() {
        let index = next_out(links, node, list, i);
        let edge = edge_at(links, node, index);
        let step = edge.cost;
        if cost < step {
            beyond = bound_of(beyond, step);
            continue;
        }
        if edge.to == links.last {
            docs = add_last(
                alloc,
                links,
                source,
                universe,
                &found.met,
                index,
                cost - step,
                docs,
            )?;
            continue;
        }
        let at = fill(alloc, links, source, universe, found, edge.to, cost - step)?;
        beyond = bound_along(&found.filled, at, beyond, step);
        let rest = filled_at(&found.filled, at);
        docs = add_met(
            alloc, links, source, universe, &found.met, index, &rest.docs, docs,
        )?;
    }
    let new = take_at(alloc, found, node, cost, docs)?;
    let filled = Filled {
        node,
        cost,
        docs: new,
        beyond,
    };
    let at = put(found, filled)?;
    Ok(at)
}
