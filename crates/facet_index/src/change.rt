ghost use Rattle.std.specs.Prelude.{List, [], ◌∷◌, OnOk};
ghost use Rattle.facet_index.specs.LeavesView.{LeavesView, leaves_at};
ghost use Rattle.facet_index.specs.Batches.{IsChangeFor};

use crate::places::places_of;
use postings::{Change, Prepared};
use search_base::{DocId, Leaf, Mark, NoMemory};
use std::alloc::Global;
use std::marker::Model;

/// Whole documents that go from the facet index, and others that come. One that is replaced goes and comes.
#[derive(Drop)]
pub struct FacetChange {
    pub(crate) keys: Change,
}

impl Model for FacetChange {
    ghost use Rattle.postings.specs.Changes.{ChangeView};

    ghost Value = { ChangeView };

    ghost view = { λ change. change.keys };
}

/// A change of the facet index whose memory was taken.
#[derive(Drop)]
pub struct PreparedFacets {
    pub(crate) keys: Prepared,
}

impl Model for PreparedFacets {
    ghost use Rattle.postings.specs.Changes.{ChangeView};

    ghost Value = { ChangeView };

    ghost view = { λ prepared. prepared.keys };
}

impl FacetChange {
    /// A change of no document. Takes no memory.
    pub fn new(alloc: Global) -> FacetChange
        ensures { IsChangeFor result [] [] }
    {
        FacetChange {
            keys: Change::new(alloc),
        }
    }

    /// A document goes, with all the leaves and marks that it has. After a refusal the change is of no use.
    pub fn take_out(
        &mut self,
        alloc: Global,
        id: DocId,
        leaves: &[Leaf],
        marks: &[Mark],
    ) -> Result<(), NoMemory>
        ensures { OnOk result ((gone come : List LeavesView) → IsChangeFor self.old gone come
            → IsChangeFor self.new (leaves_at id.0 leaves.now marks.now ∷ gone) come) }
    {
        let places = places_of(alloc, leaves, marks)?;
        self.keys.take_out(alloc, id, places.as_slice())?;
        Ok(())
    }

    /// A document comes, with these leaves and marks. After a refusal the change is of no use.
    pub fn put_in(
        &mut self,
        alloc: Global,
        id: DocId,
        leaves: &[Leaf],
        marks: &[Mark],
    ) -> Result<(), NoMemory>
        ensures { OnOk result ((gone come : List LeavesView) → IsChangeFor self.old gone come
            → IsChangeFor self.new gone (leaves_at id.0 leaves.now marks.now ∷ come)) }
    {
        let places = places_of(alloc, leaves, marks)?;
        self.keys.put_in(alloc, id, places.as_slice())?;
        Ok(())
    }
}
