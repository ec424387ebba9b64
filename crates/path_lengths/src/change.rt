ghost use Rattle.std.specs.Prelude.{◌≡◌, List, [], ◌∷◌, OnOk};
ghost use Rattle.postings.specs.Documents.{Document};
ghost use Rattle.path_lengths.specs.Measured.{IsLengthChangeOf};

use crate::places::length_places;
use postings::{Change, Prepared};
use search_base::{DocId, NoMemory, Place};
use std::alloc::Global;
use std::marker::Model;

/// Whole documents that go, and others that come, by the lengths of their paths. One that is replaced goes and comes.
#[derive(Drop)]
pub struct LengthChange {
    pub(crate) keys: Change,
}

impl Model for LengthChange {
    ghost use Rattle.postings.specs.Changes.{ChangeView};

    ghost Value = { ChangeView };

    ghost view = { λ change. change.keys };
}

/// A change of lengths whose memory was taken.
#[derive(Drop)]
pub struct PreparedLengths {
    pub(crate) keys: Prepared,
}

impl Model for PreparedLengths {
    ghost use Rattle.postings.specs.Changes.{ChangeView};

    ghost Value = { ChangeView };

    ghost view = { λ prepared. prepared.keys };
}

impl LengthChange {
    /// A change of no document. Takes no memory.
    pub fn new(alloc: Global) -> LengthChange
        ensures { IsLengthChangeOf result [] [] }
    {
        LengthChange {
            keys: Change::new(alloc),
        }
    }

    /// A document goes, with all the places that it has. After a refusal the change is of no use.
    pub fn take_out(&mut self, alloc: Global, id: DocId, places: &[Place]) -> Result<(), NoMemory>
        ensures { OnOk result ((gone come : List Document) → IsLengthChangeOf self.old gone come
            → IsLengthChangeOf self.new (record { id = id.0; places = places.now } ∷ gone) come) }
    {
        let lengths = length_places(alloc, places)?;
        self.keys.take_out(alloc, id, lengths.as_slice())
    }

    /// A document comes, with these places. After a refusal the change is of no use.
    pub fn put_in(&mut self, alloc: Global, id: DocId, places: &[Place]) -> Result<(), NoMemory>
        ensures { OnOk result ((gone come : List Document) → IsLengthChangeOf self.old gone come
            → IsLengthChangeOf self.new gone (record { id = id.0; places = places.now } ∷ come)) }
    {
        let lengths = length_places(alloc, places)?;
        self.keys.put_in(alloc, id, lengths.as_slice())
    }
}
