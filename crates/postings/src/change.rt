ghost use Rattle.std.specs.Prelude.{◌≡◌, ℕ, List, [], ◌∷◌, ◌==◌, ◌&&◌, ◌||◌, OnOk};
ghost use Rattle.sorted_pages.specs.Entries.{has};
ghost use Rattle.search_base.specs.declared.document.Place.{Place as PlaceData};
ghost use Rattle.postings.specs.Documents.{Document, AreNarrow, is_place, stands_in};
ghost use Rattle.postings.specs.declared.change.Side.{Side as SideData};
ghost use Rattle.postings.specs.Changes.{is_side, side_of, gathered, IsChangeOf};

use crate::entry::entry_of;
use crate::gathered::Gathered;
use search_base::{DocId, NoMemory, Place, Word};
use std::alloc::Global;
use std::marker::Model;

// Whether an entry goes or comes.
#[derive(Clone, Copy)]
pub(crate) enum Side {
    Goes,
    Comes,
}

// What the list of a word loses, and what it gains.
#[derive(Drop)]
pub(crate) struct WordChange {
    pub(crate) gone: Vec<u64>,
    pub(crate) come: Vec<u64>,
}

/// Whole documents that go, and others that come. One that is replaced goes and comes, and the places that it has
/// before and after stay.
#[derive(Drop)]
pub struct Change {
    pub(crate) gathered: Gathered,
}

impl Model for Change {
    ghost use Rattle.postings.specs.Changes.{ChangeView};

    ghost Value = { ChangeView };

    ghost view = { λ change. record { words = change.gathered.rows.items } };
}

/// A change whose memory was taken. Each of its words has a place that goes or comes, and none that does both.
#[derive(Drop)]
pub struct Prepared {
    pub(crate) words: Vec<(Word, WordChange)>,
    // The numbers that the words had in the dictionary.
    pub(crate) numbers: Vec<u32>,
}

impl Model for Prepared {
    ghost use Rattle.postings.specs.Changes.{ChangeView, AreSettled};

    ghost Value = { ChangeView };

    ghost view = { λ prepared. record { words = prepared.words.items } };

    ghost invariant = { λ prepared. AreSettled prepared.words.items };
}

impl Change {
    /// A change of no document. Takes no memory.
    pub fn new(alloc: Global) -> Change
        ensures { IsChangeOf result [] [] }
    {
        Change {
            gathered: Gathered::new(alloc),
        }
    }

    /// A document goes, with all the places that it has. After a refusal the change is of no use.
    pub fn take_out(&mut self, alloc: Global, id: DocId, places: &[Place]) -> Result<(), NoMemory>
        ensures { OnOk result ((gone come : List Document) → IsChangeOf self.old gone come
            → IsChangeOf self.new (record { id = id.0; places = places.now } ∷ gone) come) }
    {
        name_places(alloc, &mut self.gathered, Side::Goes, id, places)
    }

    /// A document comes, with these places. After a refusal the change is of no use.
    pub fn put_in(&mut self, alloc: Global, id: DocId, places: &[Place]) -> Result<(), NoMemory>
        ensures { OnOk result ((gone come : List Document) → IsChangeOf self.old gone come
            → IsChangeOf self.new gone (record { id = id.0; places = places.now } ∷ come)) }
    {
        name_places(alloc, &mut self.gathered, Side::Comes, id, places)
    }
}

// Names the places of a document.
fn name_places(
    alloc: Global,
    words: &mut Gathered,
    side: Side,
    id: DocId,
    places: &[Place],
) -> Result<(), NoMemory>
    ensures named { OnOk result ((s : SideData) (word : List ℕ) (entry : ℕ) → gathered s word entry words.new.rows.items
        ≡ ((is_side side s && stands_in word entry id.0 places.now) || gathered s word entry words.old.rows.items)) }
    ensures narrow { OnOk result (AreNarrow places.now) }
{
    for place in places {
        let entry = entry_of(id, place);
        words.name(alloc, side, &place.word, entry)?;
    }
    Ok(())
}

// Adds an entry to one side of a word's change.
pub(crate) fn add_entry(change: &mut WordChange, side: Side, entry: u64) -> Result<(), NoMemory>
    ensures { OnOk result ((s : SideData) (e : ℕ) → has (side_of s change.new) e
        ≡ ((is_side side s && (entry == e)) || has (side_of s change.old) e)) }
{
    match side {
        Side::Goes => change.gone.push(entry)?,
        Side::Comes => change.come.push(entry)?,
    }
    Ok(())
}
