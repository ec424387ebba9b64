//! The edges of a graph that a document of the universe may take, so far as one question tells.
ghost use Rattle.std.specs.Prelude.{◌≡◌, ◌≢◌, ◌++◌, ◌∷◌, [], ℕ, true, length, filter, slice_get};
ghost use Rattle.std.specs.Prelude.{IfOk, OnOk, IfSome, Some, is_some, is_none};
ghost use Rattle.std.specs.List.{AllByRecursion};
ghost use Rattle.doc_sets.specs.Sets.{has};
ghost use Rattle.doc_sets.specs.SetView.{SetView};
ghost use Rattle.condition_graph.specs.Numbers.{number_of, at_number};
ghost use Rattle.condition_graph.specs.Promise.{IsCondition, IsConditionGraph};
ghost use Rattle.path_costs.specs.Costs.{cost_of};
ghost use Rattle.path_costs.specs.Found.{AreMet};
ghost use Rattle.path_costs.specs.Sets.{set_at};
ghost use Rattle.path_costs.specs.Usable.{IsNumbered, is_usable, AreKnown};

use crate::resolve::Resolve;
use condition_graph::{Condition, ConditionEdge, ConditionGraph};
use doc_sets::DocSet;
use search_base::NoMemory;
use std::alloc::Global;

// Up to how many edges between two nodes are asked for cost by cost. Of more than that each cost would go over all.
const FEW_EDGES: usize = 64;

/// Some edges, and of each the documents of a universe that meet its condition, where they are known. The sets of the
/// last condition on a number are kept for the next.
#[derive(Drop)]
pub(crate) struct Usable {
    pub(crate) edges: Vec<ConditionEdge>,
    pub(crate) met: Vec<Option<DocSet>>,
    pub(crate) last: Option<Numbered>,
}

/// The documents of a universe by the number of a condition.
#[derive(Drop)]
pub(crate) struct Numbered {
    pub(crate) condition: Condition,
    pub(crate) rows: Vec<(u16, DocSet)>,
}

// The sets of a condition on a number: the last ones, where they are of the same words or term, and else new ones.
fn numbered_for<R: Resolve>(
    alloc: Global,
    source: &R,
    universe: &DocSet,
    last: Option<Numbered>,
    condition: &Condition,
) -> Result<Numbered, NoMemory>
    requires condition { IsCondition condition.now }
    requires number { is_some (number_of condition.now) ≡ true }
    requires last { IfSome last (IsNumbered (R.meets source.now) universe.now.ids) }
    ensures right { IfOk result (IsNumbered (R.meets source.now) universe.now.ids) }
    ensures alike { IfOk result (λ numbered. (n : ℕ) → number_of condition.now ≡ Some n
        → condition.now ≡ at_number n numbered.condition) }
{
    if let Some(numbered) = last {
        if numbered.condition.is_alike(condition) {
            return Ok(numbered);
        }
    }
    let rows = source.docs_by_number(alloc, condition, universe)?;
    let condition = condition.clone()?;
    Ok(Numbered { condition, rows })
}

// The set at a number, which is empty where there is none.
fn set_at(alloc: Global, rows: &[(u16, DocSet)], number: u16) -> Result<DocSet, NoMemory>
    ensures { IfOk result (λ set. set.ids ≡ set_at number rows.now) }
{
    for row in rows {
        if row.0 == number {
            let set = row.1.clone()?;
            return Ok(set);
        }
    }
    Ok(DocSet::new(alloc))
}

// The documents of the universe that meet a condition on a number, and none for another condition, which is not asked.
fn docs_of<R: Resolve>(
    alloc: Global,
    source: &R,
    universe: &DocSet,
    last: &mut Option<Numbered>,
    condition: &Condition,
) -> Result<Option<DocSet>, NoMemory>
    requires condition { IsCondition condition.now }
    requires last { IfSome last.old (IsNumbered (R.meets source.now) universe.now.ids) }
    ensures last { OnOk result (IfSome last.new (IsNumbered (R.meets source.now) universe.now.ids)) }
    ensures docs { IfOk result (λ found. IfSome found (λ docs.
        docs.ids ≡ filter (R.meets source.now condition.now) universe.now.ids)) }
    ensures number { IfOk result (λ found. is_none found ≡ is_none (number_of condition.now)) }
{
    let Some(number) = condition.number() else {
        return Ok(None);
    };
    let numbered = numbered_for(alloc, source, universe, last.take(), condition)?;
    let docs = set_at(alloc, numbered.rows.as_slice(), number)?;
    *last = Some(numbered);
    Ok(Some(docs))
}

// Adds an edge, and what is known of it.
fn push(usable: &mut Usable, edge: ConditionEdge, met: Option<DocSet>) -> Result<(), NoMemory>
    ensures edges { OnOk result (usable.new.edges.items ≡ usable.old.edges.items ++ edge ∷ []) }
    ensures met { OnOk result (usable.new.met.items ≡ usable.old.met.items ++ met ∷ []) }
    ensures last { usable.new.last ≡ usable.old.last }
{
    usable.edges.push(edge)?;
    usable.met.push(met)?;
    Ok(())
}

// Adds an edge, unless its condition is on a number and no document of the universe meets it.
fn add_usable<R: Resolve>(
    alloc: Global,
    source: &R,
    universe: &DocSet,
    edge: ConditionEdge,
    usable: &mut Usable,
) -> Result<(), NoMemory>
    requires condition { IsCondition edge.condition }
    requires known { AreKnown (R.meets source.now) universe.now.ids usable.old }
    ensures known { OnOk result (AreKnown (R.meets source.now) universe.now.ids usable.new) }
    ensures edges { OnOk result (usable.new.edges.items
        ≡ usable.old.edges.items ++ filter (is_usable (R.meets source.now) universe.now.ids) (edge ∷ [])) }
{
    match docs_of(alloc, source, universe, &mut usable.last, &edge.condition)? {
        None => push(usable, edge, None),
        Some(docs) => {
            if docs.is_empty() {
                Ok(())
            } else {
                push(usable, edge, Some(docs))?;
                Ok(())
            }
        }
    }
}

// The edges that are usable. The conditions on a number are asked for, those of the same words or term in one go where
// they stand in a row; the others are not.
fn usable_edges<R: Resolve>(
    alloc: Global,
    source: &R,
    universe: &DocSet,
    edges: Vec<ConditionEdge>,
) -> Result<Usable, NoMemory>
    requires { AllByRecursion (λ edge. IsCondition edge.condition) edges.items }
    ensures edges { IfOk result (λ usable.
        usable.edges.items ≡ filter (is_usable (R.meets source.now) universe.now.ids) edges.items) }
    ensures known { IfOk result (AreKnown (R.meets source.now) universe.now.ids) }
{
    let mut usable = Usable {
        edges: Vec::new(alloc),
        met: Vec::new(alloc),
        last: None,
    };
    for edge in edges {
        add_usable(alloc, source, universe, edge, &mut usable)?;
    }
    Ok(usable)
}

// Whether a cost asks for the edges that it needs: they are few, and each is a whole path.
fn are_asked_for_by_cost(nodes: u64, edges: &[ConditionEdge]) -> bool {
    nodes <= 2 && edges.len() <= FEW_EDGES
}

// Nothing is known of any edge.
fn nothing_met(alloc: Global, edges: usize) -> Result<Vec<Option<DocSet>>, NoMemory>
    ensures len { IfOk result (λ met. length met.items ≡ edges) }
    ensures none { IfOk result (λ met. (i : ℕ) (set : SetView) → slice_get met.items i ≢ Some (Some set)) }
{
    let mut met = Vec::new(alloc);
    for _edge in 0..edges {
        met.push(None)?;
    }
    Ok(met)
}

/// The graph without edges that no document of the universe may take, where one question tells of many edges, and what
/// was found of those that are left. Few edges between two nodes stay as they are, and nothing is known of them. Each
/// document of the universe costs the same.
pub(crate) fn usable_graph<R: Resolve>(
    alloc: Global,
    source: &R,
    universe: &DocSet,
    graph: ConditionGraph,
) -> Result<(ConditionGraph, Vec<Option<DocSet>>), NoMemory>
    requires { IsConditionGraph graph }
    ensures graph { IfOk result (λ (made, met). IsConditionGraph made) }
    ensures cost { IfOk result (λ (made, met). (d : ℕ) → has universe.now.ids d ≡ true
        → cost_of (R.meets source.now) made d ≡ cost_of (R.meets source.now) graph d) }
    ensures met { IfOk result (λ (made, met).
        AreMet (R.meets source.now) made.edges universe.now.ids met.items) }
    ensures count { IfOk result (λ (made, met). length met.items ≡ length made.edges) }
{
    let ConditionGraph { nodes, edges } = graph;
    if are_asked_for_by_cost(nodes, edges.as_slice()) {
        let met = nothing_met(alloc, edges.len())?;
        return Ok((ConditionGraph { nodes, edges }, met));
    }
    let usable = usable_edges(alloc, source, universe, edges)?;
    let Usable {
        edges,
        met,
        last: _,
    } = usable;
    Ok((ConditionGraph { nodes, edges }, met))
}
