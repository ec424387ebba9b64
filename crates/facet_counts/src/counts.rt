ghost use Rattle.std.specs.Prelude.{◌≡◌, ◌++◌, ◌∷◌, [], List, map, IsTrue, IfOk, OnOk};
ghost use Rattle.std.specs.List.{list_all};
ghost use Rattle.search_base.specs.RowsView.{RowsView};
ghost use Rattle.facet_counts.specs.declared.rows.FacetPath.{FacetPath as Asked};
ghost use Rattle.facet_counts.specs.Counting.{AreCountsOf, has_no_path};
ghost use Rattle.facet_counts.specs.Counts.{counted};

use crate::counter::Counter;
use crate::rows::{FacetPath, FacetReply};
use search_base::{Leaf, NoMemory};
use std::alloc::Global;
use std::marker::Model;

/// The counts of some attributes over documents, which are added one after the other, in the order of their internal
/// ids. Contracts see it through `AreCountsOf`.
#[derive(Drop)]
pub struct FacetCounts {
    counters: Vec<Counter>,
}

impl Model for FacetCounts {
    ghost use Rattle.std.specs.Prelude.{List, map};
    ghost use Rattle.facet_counts.specs.Counting.{CounterView, counter_view};

    ghost Value = { List CounterView };

    ghost view = { λ counts. map counter_view counts.counters.items };
}

impl FacetCounts {
    /// The counts of these attributes over no document. `NoMemory` comes where memory is wanting.
    pub fn new(alloc: Global, asked: Vec<FacetPath>) -> Result<FacetCounts, NoMemory>
        ensures { IfOk result (λ counts. AreCountsOf counts asked.items []) }
    {
        let mut counters = Vec::with_capacity(alloc, asked.len())?;
        for facet in asked {
            counters.push(Counter::new(alloc, facet))?;
        }
        Ok(FacetCounts { counters })
    }

    /// Whether no attribute has a path. Then documents need not be added, for there is nothing to count in them.
    pub fn is_empty(&self) -> bool
        ensures { IsTrue result → (asked : List Asked) (documents more : List RowsView)
            → AreCountsOf self.now asked documents → AreCountsOf self.now asked more }
    {
        have_no_path(&self.counters)
    }

    /// Counts one more document, which has these leaves. `NoMemory` comes where memory is wanting, and at a document
    /// beyond the last number of 64 bits; after it nothing is known of the counts.
    pub fn add_leaves(&mut self, alloc: Global, leaves: &[Leaf]) -> Result<(), NoMemory>
        ensures { OnOk result ((asked : List Asked) (documents : List RowsView) (rows : RowsView)
            → rows.leaves ≡ leaves.now → AreCountsOf self.old asked documents
            → AreCountsOf self.new asked (documents ++ rows ∷ [])) }
    {
        for counter in self.counters.iter_mut() {
            counter.add(alloc, leaves)?;
        }
        Ok(())
    }

    /// For each attribute, in the order asked, its first `most` values in the order of their bytes, and its least and
    /// greatest number. `NoMemory` comes where memory is wanting.
    pub fn finish(self, alloc: Global, most: u64) -> Result<Vec<FacetReply>, NoMemory>
        ensures { IfOk result (λ replies. (asked : List Asked) (documents : List RowsView)
            → AreCountsOf self asked documents → replies.items ≡ map (counted most documents) asked) }
    {
        let mut replies = Vec::with_capacity(alloc, self.counters.len())?;
        for counter in self.counters {
            replies.push(counter.reply(alloc, most)?)?;
        }
        Ok(replies)
    }
}

fn have_no_path(counters: &[Counter]) -> bool
    ensures { result ≡ list_all has_no_path counters.now }
{
    counters.iter().all(|counter| !counter.has_path())
}
