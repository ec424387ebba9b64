ghost use Rattle.std.specs.Prelude.{◌≡◌, ◌≤◌, IfOk};
ghost use Rattle.condition_graph.specs.Promise.{IsCondition, IsConditionGraph};

use crate::checks::{check, check_ids, set, word};
use crate::conditions::one_item;
use condition_graph::{Condition, ConditionEdge, ConditionGraph, conditions};
use doc_sets::DocSet;
use path_costs::{PathCosts, Resolve};
use search_base::{Kind, NoMemory, Rule, Term, Word};
use std::alloc::Global;
use std::process::Abort;

// The documents with a word, and those with a word that begins so, which may be refused. Each rank is that of the first
// documents, and is never told by number.
#[derive(Drop)]
struct TwoSets {
    first: DocSet,
    second: DocSet,
    refuses: bool,
}

impl Resolve for TwoSets {
    ghost use Rattle.std.specs.Prelude.{true, if◌then◌else◌, refl};
    ghost use Rattle.doc_sets.specs.Sets.{has};
    ghost use Rattle.condition_graph.specs.declared.condition.Condition.TheVariants.{Free, Occurs, Pair};
    ghost use Rattle.condition_graph.specs.declared.condition.Condition.TheVariants.{AtRank, AtBucket};

    ghost meets = { λ sets condition d. elim condition [
      | Free ↦ true
      | Occurs term ↦ if term.prefix then has sets.second.ids d else has sets.first.ids d
      | Pair left right prefix number ↦ true
      | AtRank term rank ↦ has sets.first.ids d
      | AtBucket term bucket ↦ true
    ] };

    ghost free = { λ source d. refl };

    fn docs(
        &mut self,
        alloc: Global,
        condition: &Condition,
        universe: &DocSet,
    ) -> Result<DocSet, NoMemory> {
        match condition {
            Condition::Occurs(term) => {
                if !term.prefix {
                    universe.and(alloc, &self.first)
                } else if self.refuses {
                    Err(NoMemory)
                } else {
                    universe.and(alloc, &self.second)
                }
            }
            Condition::AtRank { .. } => universe.and(alloc, &self.first),
            _ => Err(NoMemory),
        }
    }

    fn docs_by_number(
        &self,
        alloc: Global,
        condition: &Condition,
        universe: &DocSet,
    ) -> Result<Vec<(u16, DocSet)>, NoMemory> {
        Err(NoMemory)
    }
}

// An edge from the first node to the second, for a word or for those that begin with it.
fn edge(alloc: Global, prefix: bool, cost: u32) -> Result<ConditionEdge, NoMemory>
    ensures from { IfOk result (λ edge. edge.from ≡ 0) }
    ensures to { IfOk result (λ edge. edge.to ≡ 1) }
    ensures cost { IfOk result (λ edge. edge.cost ≡ cost) }
    ensures condition { IfOk result (λ edge. IsCondition edge.condition) }
{
    let word = Word::new(alloc, "dark")?;
    let words = Vec::from_array(alloc, [word])?;
    Ok(ConditionEdge {
        from: 0,
        to: 1,
        condition: Condition::Occurs(Term { words, prefix }),
        cost,
    })
}

// Two edges from the first node to the second, the dear one first.
fn two_edges(alloc: Global) -> Result<ConditionGraph, NoMemory>
    ensures { IfOk result IsConditionGraph }
{
    let dear = edge(alloc, true, 3)?;
    let cheap = edge(alloc, false, 1)?;
    let edges = Vec::from_array(alloc, [dear, cheap])?;
    Ok(ConditionGraph { nodes: 2, edges })
}

fn two_costs(rt: &impl Abort, alloc: Global, refuses: bool) -> PathCosts<TwoSets> {
    let graph = two_edges(alloc).expect(rt, "memory");
    let sets = TwoSets {
        first: set(rt, alloc, &[2]),
        second: set(rt, alloc, &[1, 2]),
        refuses,
    };
    let universe = set(rt, alloc, &[1, 2, 9]);
    PathCosts::new(alloc, graph, sets, universe).expect(rt, "memory")
}

// The next cost, and the documents that have it.
fn check_next(
    rt: &impl Abort,
    alloc: Global,
    costs: &mut PathCosts<TwoSets>,
    wanted: u32,
    ids: &[u32],
) {
    let next = costs.next_cost(alloc).expect(rt, "memory");
    let (cost, docs) = next.expect(rt, "a cost");
    check(rt, cost == wanted, "cost");
    check_ids(rt, &docs, ids, "documents");
}

fn check_no_next(rt: &impl Abort, alloc: Global, costs: &mut PathCosts<TwoSets>) {
    let next = costs.next_cost(alloc).expect(rt, "memory");
    check(rt, next.is_none(), "no cost is left");
}

fn check_refused(rt: &impl Abort, alloc: Global, costs: &mut PathCosts<TwoSets>) {
    let refused = costs.next_cost(alloc).is_err();
    check(rt, refused, "refused");
}

#[test]
fn two_edges_between_two_nodes(rt: HostRuntime) {
    let mut costs = two_costs(&rt, rt.alloc(), false);
    check_next(&rt, rt.alloc(), &mut costs, 1, &[2]);
    check_next(&rt, rt.alloc(), &mut costs, 3, &[1]);
    check_no_next(&rt, rt.alloc(), &mut costs);
    check_no_next(&rt, rt.alloc(), &mut costs);
}

// The costs of a word by the rank of its path, of which there are so many.
fn rank_costs(rt: &impl Abort, alloc: Global, ranks: u16) -> Result<PathCosts<TwoSets>, NoMemory> {
    let dark = Vec::from_array(alloc, [word(rt, alloc, "dark")]).expect(rt, "memory");
    let query = one_item(rt, alloc, dark, Kind::Plain);
    let graph = conditions(alloc, &query, Rule::Field, 0, ranks).expect(rt, "memory");
    let sets = TwoSets {
        first: set(rt, alloc, &[2]),
        second: set(rt, alloc, &[1, 2]),
        refuses: true,
    };
    PathCosts::new(alloc, graph, sets, set(rt, alloc, &[1, 2, 9]))
}

#[test]
fn few_edges_are_asked_for_when_a_cost_needs_them(rt: HostRuntime) {
    let mut costs = rank_costs(&rt, rt.alloc(), 64).expect(&rt, "memory");
    check_next(&rt, rt.alloc(), &mut costs, 0, &[2]);
    check_no_next(&rt, rt.alloc(), &mut costs);
}

#[test]
fn the_numbers_of_many_edges_are_asked_for_at_once(rt: HostRuntime) {
    let refused = rank_costs(&rt, rt.alloc(), 65).is_err();
    check(&rt, refused, "refused");
}

#[test]
fn a_greater_cost_is_not_asked_for(rt: HostRuntime) {
    let mut costs = two_costs(&rt, rt.alloc(), true);
    check_next(&rt, rt.alloc(), &mut costs, 1, &[2]);
    check_refused(&rt, rt.alloc(), &mut costs);
    check_refused(&rt, rt.alloc(), &mut costs);
}
