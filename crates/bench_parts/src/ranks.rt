//! The costs of words in a row, each of which costs nothing in the documents of its own rank.
ghost use Rattle.std.specs.Prelude.{◌≡◌, ℕ, ◌<◌, refl, IfOk, OnOk};
ghost use Rattle.std.specs.List.{AllByRecursion};
ghost use Rattle.search_base.specs.Graphs.{IsTerm};
ghost use Rattle.condition_graph.specs.Promise.{IsCondition, IsConditionGraph};
ghost use Rattle.doc_sets.specs.Sets.{intersection};
ghost use Rattle.path_costs.specs.Sets.{set_at};
ghost use Rattle.bench_parts.specs.Splits.{ids_at};
ghost use Rattle.bench_parts.specs.Ranks.{rank_of, is_ranked, IsStep};

use condition_graph::{Condition, ConditionEdge, ConditionGraph};
use doc_sets::DocSet;
use path_costs::Resolve;
use search_base::{NoMemory, Term, Word};
use std::alloc::Global;

/// The documents of each rank. All documents meet the conditions that ask for no rank.
#[derive(Drop)]
pub(crate) struct Ranks<'a> {
    pub(crate) sets: &'a [DocSet],
}

impl<'a> Resolve for Ranks<'a> {
    ghost meets = { λ ranks. is_ranked ranks.sets.now };

    ghost free = { λ ranks d. refl };

    fn docs(
        &mut self,
        alloc: Global,
        condition: &Condition,
        universe: &DocSet,
    ) -> Result<DocSet, NoMemory> {
        match rank_of(condition) {
            Some(rank) => of_rank(alloc, self.sets, rank, universe),
            None => {
                let all = universe.clone()?;
                Ok(all)
            }
        }
    }

    fn docs_by_number(
        &self,
        alloc: Global,
        condition: &Condition,
        universe: &DocSet,
    ) -> Result<Vec<(u16, DocSet)>, NoMemory> {
        match rank_of(condition) {
            Some(_) => {
                let rows = of_each_rank(alloc, self.sets, universe)?;
                Ok(rows)
            }
            None => Err(NoMemory),
        }
    }
}

fn rank_of(condition: &Condition) -> Option<u16>
    ensures { result ≡ rank_of condition.now }
{
    match condition {
        Condition::AtRank { rank, .. } => Some(*rank),
        Condition::Free
        | Condition::Occurs(_)
        | Condition::Pair { .. }
        | Condition::AtBucket { .. } => None,
    }
}

fn of_rank(alloc: Global, sets: &[DocSet], rank: u16, universe: &DocSet) -> Result<DocSet, NoMemory>
    ensures { IfOk result (λ set. set.ids ≡ intersection universe.now.ids (ids_at sets.now rank)) }
{
    match sets.get(rank as usize) {
        Some(set) => universe.and(alloc, set),
        None => Ok(DocSet::new(alloc)),
    }
}

// The documents of each rank, where the ranks are few enough.
fn of_each_rank(
    alloc: Global,
    sets: &[DocSet],
    universe: &DocSet,
) -> Result<Vec<(u16, DocSet)>, NoMemory>
    ensures { IfOk result (λ rows. (n : ℕ) → set_at n rows.items ≡ intersection universe.now.ids (ids_at sets.now n)) }
{
    let mut rows = Vec::new(alloc);
    let mut rank: u16 = 0;
    for set in sets {
        if rank == u16::MAX {
            return Err(NoMemory);
        }
        let both = universe.and(alloc, set)?;
        rows.push((rank, both))?;
        rank += 1;
    }
    Ok(rows)
}

// A term of one word.
fn a_term(alloc: Global) -> Result<Term, NoMemory>
    ensures { IfOk result IsTerm }
{
    let word = Word::new(alloc, "dark")?;
    let words = Vec::from_array(alloc, [word])?;
    Ok(Term {
        words,
        prefix: false,
    })
}

// Adds an edge over a word.
fn add_step(
    words: u16,
    from: u16,
    condition: Condition,
    cost: u32,
    edges: &mut Vec<ConditionEdge>,
) -> Result<(), NoMemory>
    requires from { from < words }
    requires condition { IsCondition condition }
    requires cost { cost < 2 }
    requires steps { AllByRecursion (IsStep words) edges.old.items }
    ensures { OnOk result (AllByRecursion (IsStep words) edges.new.items) }
{
    edges.push(ConditionEdge {
        from: from as u64,
        to: from as u64 + 1,
        condition,
        cost,
    })?;
    Ok(())
}

/// So many words in a row: each costs nothing at the rank of its own number, and 1 anywhere.
pub(crate) fn row_of(alloc: Global, words: u16) -> Result<ConditionGraph, NoMemory>
    ensures { IfOk result IsConditionGraph }
{
    let mut edges = Vec::new(alloc);
    for from in 0..words {
        let term = a_term(alloc)?;
        let own_rank = Condition::AtRank { term, rank: from };
        add_step(words, from, own_rank, 0, &mut edges)?;
        let term = a_term(alloc)?;
        add_step(words, from, Condition::Occurs(term), 1, &mut edges)?;
    }
    Ok(ConditionGraph {
        nodes: words as u64 + 1,
        edges,
    })
}
