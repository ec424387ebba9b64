ghost use Rattle.std.specs.Prelude.{◌≡◌, ◌<◌, ◌≤◌, ◌^◌, ℕ, List, false, true, IfOk, OnOk, OnErr, IsErr};
ghost use Rattle.std.specs.Prelude.{IfSome, IfNone, None};
ghost use Rattle.doc_sets.specs.Sets.{has};
ghost use Rattle.condition_graph.specs.Promise.{IsConditionGraph};
ghost use Rattle.path_costs.specs.Costs.{cost_of, cost_in, IsBucket};
ghost use Rattle.path_costs.specs.Links.{IsLinks, IsSmall, graph_of};
ghost use Rattle.path_costs.specs.Found.{IsFound, IsLive};
ghost use Rattle.std.specs.Prelude.{Some, Vec, ◌⊎◌};
ghost use Rattle.std.specs.declared.alloc.Global.{Global};
ghost use Rattle.path_costs.specs.declared.few.Row.{Row};
ghost use Rattle.path_costs.specs.Few.{AreRows, IsGoing};

use crate::few::{Row, next_of_few, rows_of};
use crate::fill::fill;
use crate::found::{Found, NO_COST, filled_at, nothing_found};
use crate::links::{Links, links_of};
use crate::resolve::Resolve;
use crate::usable::usable_graph;
use condition_graph::ConditionGraph;
use doc_sets::DocSet;
use search_base::NoMemory;
use std::alloc::Global;
use std::marker::Model;

// Up to how many documents costs are found document by document.
const FEW: u64 = 128;

/// The documents of a universe by their costs, cost after cost.
#[derive(Drop)]
pub struct PathCosts<R: Resolve + Drop> {
    links: Links,
    pub(crate) source: R,
    found: Found,
    // The documents that remain with their costs, where they were few.
    few: Option<Vec<Row>>,
    begun: bool,
    remaining: DocSet,
    next: u64,
    failed: bool,
}

impl<R: Resolve + Drop> Model for PathCosts<R> {
    ghost use Rattle.std.specs.Prelude.{◌≡◌, false};
    ghost use Rattle.path_costs.specs.Costs.{CostsView};
    ghost use Rattle.path_costs.specs.Links.{IsLinks, IsSmall, graph_of};
    ghost use Rattle.path_costs.specs.Few.{IsGoing};

    ghost Value = { CostsView R };

    ghost view = { λ p. record {
      graph = graph_of p.links;
      source = p.source;
      remaining = p.remaining.ids;
      failed = p.failed;
    } };

    ghost invariant = { λ p. IsLinks p.links × IsSmall (graph_of p.links)
        × (p.failed ≡ false → IsGoing (R.meets p.source) p.links p.remaining.ids p.next p.found p.few) };
}

// Goes on to the cheapest of the documents that remain, and takes them out.
fn advance<R: Resolve>(
    alloc: Global,
    links: &Links,
    source: &mut R,
    found: &mut Found,
    remaining: &mut DocSet,
    next: &mut u64,
) -> Result<Option<(u32, DocSet)>, NoMemory>
    requires links { IsLinks links.now }
    requires small { IsSmall (graph_of links.now) }
    requires live { IsLive (R.meets source.old) links.now remaining.old.ids next.old found.old }
    ensures kept { R.meets source.new ≡ R.meets source.old }
    ensures live { OnOk result (IsLive (R.meets source.old) links.now remaining.new.ids next.new found.new) }
    ensures some { IfOk result (λ given. IfSome given
        (λ (cost, docs). IsBucket (cost_of (R.meets source.old)
        (graph_of links.now)) remaining.old.ids remaining.new.ids cost docs.ids)) }
    ensures none { IfOk result (λ given. IfNone given ((d : ℕ) → has remaining.old.ids d ≡ true
        → cost_of (R.meets source.old) (graph_of links.now) d ≡ None)) }
    ensures rest { IfOk result (λ given. IfNone given (remaining.new.ids ≡ remaining.old.ids)) }
{
    'costs: while *next < NO_COST {
        if remaining.is_empty() {
            return Ok(None);
        }
        let cost = *next as u32;
        let at = fill(alloc, links, source, remaining, found, 0, cost)?;
        let filled = filled_at(&found.filled, at);
        let docs = remaining.and(alloc, &filled.docs)?;
        *next = filled.beyond;
        if docs.is_empty() {
            continue;
        }
        remaining.subtract(alloc, &docs)?;
        return Ok(Some((cost, docs)));
    }
    Ok(None)
}

// Whether a stream goes on as it is: rows are made only at its beginning, and not where paths have one edge or the
// documents are many.
fn goes_on(links: &Links, few: &Option<Vec<Row>>, begun: bool, remaining: &DocSet) -> bool
    ensures { result ≡ false → few.now ≡ None }
{
    few.is_some() || begun || links.last < 2 || remaining.len() > FEW
}

// Finds the costs document by document, where nothing is found yet and the documents are few.
fn begin<R: Resolve>(
    alloc: Global,
    links: &Links,
    source: &mut R,
    found: &Found,
    few: &mut Option<Vec<Row>>,
    begun: &mut bool,
    remaining: &DocSet,
) -> Result<(), NoMemory>
    requires links { IsLinks links.now }
    requires found { few.old ≡ None → IsFound (R.meets source.old) links.now remaining.now.ids found.now }
    ensures kept { R.meets source.new ≡ R.meets source.old }
    ensures few { OnOk result ((few.new ≡ few.old) ⊎ ((rows : Vec Row Global) × (few.new ≡ Some rows)
        × AreRows (R.meets source.old) links.now remaining.now.ids rows.items)) }
{
    let goes_on = goes_on(links, few, *begun, remaining);
    *begun = true;
    if goes_on {
        return Ok(());
    }
    let rows = rows_of(alloc, links, source, remaining, &found.met)?;
    *few = Some(rows);
    Ok(())
}

// The same from rows, where the documents are few, and else node by node.
fn step<R: Resolve>(
    alloc: Global,
    links: &Links,
    source: &mut R,
    found: &mut Found,
    few: &mut Option<Vec<Row>>,
    begun: &mut bool,
    remaining: &mut DocSet,
    next: &mut u64,
) -> Result<Option<(u32, DocSet)>, NoMemory>
    requires links { IsLinks links.now }
    requires small { IsSmall (graph_of links.now) }
    requires going { IsGoing (R.meets source.old) links.now remaining.old.ids next.old found.old few.old }
    ensures kept { R.meets source.new ≡ R.meets source.old }
    ensures going { OnOk result (IsGoing (R.meets source.old) links.now remaining.new.ids next.new found.new few.new) }
    ensures some { IfOk result (λ given. IfSome given
        (λ (cost, docs). IsBucket (cost_of (R.meets source.old)
        (graph_of links.now)) remaining.old.ids remaining.new.ids cost docs.ids)) }
    ensures none { IfOk result (λ given. IfNone given ((d : ℕ) → has remaining.old.ids d ≡ true
        → cost_of (R.meets source.old) (graph_of links.now) d ≡ None)) }
    ensures rest { IfOk result (λ given. IfNone given (remaining.new.ids ≡ remaining.old.ids)) }
{
    begin(alloc, links, source, found, few, begun, remaining)?;
    if let Some(rows) = few {
        let given = next_of_few(alloc, links, source, rows, remaining)?;
        return Ok(given);
    }
    let given = advance(alloc, links, source, found, remaining, next)?;
    Ok(given)
}

impl<R: Resolve + Drop> PathCosts<R> {
    /// The costs of the universe's documents. The conditions on a number are asked for at once, those of the same words
    /// or term in one go where their edges stand in a row; the others when a cost needs them. Of at most 64 edges between
    /// two nodes all are asked for when a cost needs them.
    pub fn new(
        alloc: Global,
        graph: ConditionGraph,
        source: R,
        universe: DocSet,
    ) -> Result<PathCosts<R>, NoMemory>
        requires { IsConditionGraph graph }
        ensures cost { IfOk result (λ costs. (d : ℕ) → has universe.ids d ≡ true
            → cost_in R.meets costs d ≡ cost_of (R.meets source) graph d) }
        ensures remaining { IfOk result (λ costs. costs.remaining ≡ universe.ids) }
        ensures failed { IfOk result (λ costs. costs.failed ≡ false) }
    {
        let (usable, met) = usable_graph(alloc, &source, &universe, graph)?;
        let links = links_of(alloc, usable)?;
        let nodes = links.out.as_slice().len();
        let found = nothing_found(alloc, nodes, met)?;
        Ok(PathCosts {
            links,
            source,
            found,
            few: None,
            begun: false,
            remaining: universe,
            next: 0,
            failed: false,
        })
    }

    /// The least cost of all documents that remain, and the documents of that cost, which it takes
    /// out; none where no document that remains meets a path. Once memory has run out it is the
    /// answer from then on.
    pub fn next_cost(&mut self, alloc: Global) -> Result<Option<(u32, DocSet)>, NoMemory>
        ensures some { IfOk result (λ given.
            IfSome given (λ (cost, docs). IsBucket
            (cost_in R.meets self.old) self.old.remaining self.new.remaining cost docs.ids)) }
        ensures none { IfOk result (λ given. IfNone given ((d : ℕ) → has self.old.remaining d ≡ true
            → cost_in R.meets self.old d ≡ None)) }
        ensures rest { IfOk result (λ given. IfNone given (self.new.remaining ≡ self.old.remaining)) }
        ensures kept { cost_in R.meets self.new ≡ cost_in R.meets self.old }
        ensures works { OnOk result (self.new.failed ≡ false) }
        ensures failed { OnErr result (self.new.failed ≡ true) }
        ensures stays { self.old.failed ≡ true → IsErr result }
    {
        if self.failed {
            return Err(NoMemory);
        }
        match step(
            alloc,
            &self.links,
            &mut self.source,
            &mut self.found,
            &mut self.few,
            &mut self.begun,
            &mut self.remaining,
            &mut self.next,
        ) {
            Ok(given) => Ok(given),
            Err(refused) => {
                self.failed = true;
                Err(refused)
            }
        }
    }
}
