ghost use Rattle.std.specs.Prelude.{◌≡◌, ℕ, List, [], filter, IfOk, MatchResult};
ghost use Rattle.postings.specs.Documents.{Document, IsBatch, after, places_of};
ghost use Rattle.postings.specs.Dictionary.{list_at, HasRooms, IsTight, none};
ghost use Rattle.path_lengths.specs.Lengths.{has_length};
ghost use Rattle.path_lengths.specs.Measured.{AreLengthsOf, IsLengthChangeOf, IsPreparedFor};

use crate::change::{LengthChange, PreparedLengths};
use crate::places::length_key;
use doc_sets::DocSet;
use facet_keys::keys_tell_facets_apart;
use postings::Postings;
use search_base::{NoMemory, PathId, Term};
use std::alloc::Global;
use std::marker::Model;

/// For each path and length the documents in which the path has that length.
#[derive(Drop)]
pub struct PathLengths {
    keys: Postings,
}

impl Model for PathLengths {
    ghost use Rattle.postings.specs.Dictionary.{PostingsView};

    ghost Value = { PostingsView };

    ghost view = { λ lengths. lengths.keys };
}

impl PathLengths {
    /// The lengths of no document. Takes no memory.
    pub fn new(alloc: Global) -> PathLengths
        ensures fresh { AreLengthsOf result [] }
        ensures tight { IsTight none result.lists }
    {
        PathLengths {
            keys: Postings::new(alloc),
        }
    }

    /// The documents of the universe in which the path has this length: its last word stands at the position before. No
    /// document is at length 0. An id of the universe that no document has is not in the answer.
    pub fn documents(
        &self,
        alloc: Global,
        path: PathId,
        length: usize,
        universe: &DocSet,
    ) -> Result<DocSet, NoMemory>
        ensures { IfOk result (λ set. (documents : List Document) → AreLengthsOf self.now documents
            → set.ids ≡ filter (λ id. has_length (places_of id documents) path.0 length) universe.now.ids) }
    {
        keys_tell_facets_apart();
        let key = length_key(alloc, path, length)?;
        let term = Term {
            words: Vec::from_array(alloc, [key])?,
            prefix: false,
        };
        posting_sets::documents(alloc, &self.keys, &term, universe)
    }

    /// Takes all memory that the change needs. Each answer stays as it was, whatever the result, and after a refusal no
    /// room is left behind.
    pub fn prepare(
        &mut self,
        alloc: Global,
        change: LengthChange,
    ) -> Result<PreparedLengths, NoMemory>
        ensures lists { (key : List ℕ) → list_at key self.new ≡ list_at key self.old }
        ensures same { (documents : List Document) → AreLengthsOf self.old documents → AreLengthsOf self.new documents }
        ensures made { IfOk result (λ prepared. (gone come : List Document) → IsLengthChangeOf change gone come
            → IsPreparedFor prepared gone come) }
        ensures room { IfOk result (λ prepared. HasRooms self.new.lists prepared.words) }
        ensures tight { IsTight none self.old.lists
            → MatchResult result (λ prepared. IsTight prepared.words self.new.lists)
            (λ _. IsTight none self.new.lists) }
    {
        let keys = self.keys.prepare(alloc, change.keys)?;
        Ok(PreparedLengths { keys })
    }

    /// Makes a change that was prepared on these lengths as they are. Takes no memory. Where they were those of some
    /// documents, they are those of the documents after the change.
    pub fn commit(&mut self, prepared: PreparedLengths)
        requires { HasRooms self.old.lists prepared.words }
        ensures fresh { (gone come documents : List Document) → IsPreparedFor prepared gone come
            → IsBatch gone come documents → AreLengthsOf self.old documents
            → AreLengthsOf self.new (after gone come documents) }
        ensures tight { IsTight prepared.words self.old.lists → IsTight none self.new.lists }
    {
        self.keys.commit(prepared.keys);
    }

    /// Gives back the room of a prepared change that is not to be made. Each answer stays as it was. Takes no memory.
    pub fn release(&mut self, prepared: PreparedLengths)
        ensures lists { (key : List ℕ) → list_at key self.new ≡ list_at key self.old }
        ensures same { (documents : List Document) → AreLengthsOf self.old documents → AreLengthsOf self.new documents }
        ensures tight { IsTight prepared.words self.old.lists → IsTight none self.new.lists }
    {
        self.keys.release(prepared.keys);
    }
}
