ghost use Rattle.std.specs.Prelude.{◌≡◌, List, [], IfOk, MatchResult};
ghost use Rattle.row_index.specs.Documents.{IndexedDocument, IsBatch, after};
ghost use Rattle.row_index.specs.Standing.{StandsFor};
ghost use Rattle.row_index.specs.Changes.{IsChangeOf, IsPreparedOf, HasRooms, IsTight, IsTightBut, AnswersAsBefore};

use crate::change::{PreparedRows, RowChange};
use crate::ids::ids_after;
use doc_sets::DocSet;
use facet_index::FacetIndex;
use leaf_table::LeafTable;
use path_lengths::PathLengths;
use postings::Postings;
use search_base::NoMemory;
use std::alloc::Global;
use std::marker::Model;

/// What is kept of documents so that searches are answered without them.
#[derive(Drop)]
pub struct RowIndex {
    places: Postings,
    lengths: PathLengths,
    facets: FacetIndex,
    leaves: LeafTable,
    ids: DocSet,
}

impl Model for RowIndex {
    ghost use Rattle.row_index.specs.Standing.{RowIndexView};

    ghost Value = { RowIndexView };

    ghost view = { λ index. record {
      places = index.places;
      lengths = index.lengths;
      facets = index.facets;
      leaves = index.leaves;
      ids = index.ids.ids;
    } };
}

impl RowIndex {
    /// The index of no document. Takes no memory.
    pub fn new(alloc: Global) -> RowIndex
        ensures stands { StandsFor result [] }
        ensures tight { IsTight result }
    {
        RowIndex {
            places: Postings::new(alloc),
            lengths: PathLengths::new(alloc),
            facets: FacetIndex::new(alloc),
            leaves: LeafTable::new(alloc),
            ids: DocSet::new(alloc),
        }
    }

    /// The posting lists of the documents' places. Takes no memory.
    pub fn places(&self) -> &Postings
        ensures { result.now ≡ self.now.places }
    {
        &self.places
    }

    /// The lengths of the documents' paths. Takes no memory.
    pub fn lengths(&self) -> &PathLengths
        ensures { result.now ≡ self.now.lengths }
    {
        &self.lengths
    }

    /// The facet index of the documents' leaves and marks. Takes no memory.
    pub fn facets(&self) -> &FacetIndex
        ensures { result.now ≡ self.now.facets }
    {
        &self.facets
    }

    /// The documents' leaves by their ids. Takes no memory.
    pub fn leaves(&self) -> &LeafTable
        ensures { result.now ≡ self.now.leaves }
    {
        &self.leaves
    }

    /// The ids of the documents. Takes no memory.
    pub fn ids(&self) -> &DocSet
        ensures { result.now.ids ≡ self.now.ids }
    {
        &self.ids
    }

    /// Takes out all documents. Takes no memory.
    pub fn clear(&mut self, alloc: Global)
        ensures stands { StandsFor self.new [] }
        ensures tight { IsTight self.new }
    {
        *self = RowIndex::new(alloc);
    }

    /// Takes all memory that the change needs: in proportion to the change, a bit or an id for each document that
    /// stands, and an empty row of leaves for each id up to the greatest that comes. Each answer stays as it was,
    /// whatever the result, and after a refusal no room is left behind but such rows and room for leaves.
    pub fn prepare(&mut self, alloc: Global, change: RowChange) -> Result<PreparedRows, NoMemory>
        ensures answers { AnswersAsBefore self.old self.new }
        ensures same { (documents : List IndexedDocument) → StandsFor self.old documents → StandsFor self.new documents }
        ensures made { IfOk result (λ prepared. (gone come : List IndexedDocument) → IsChangeOf change gone come
            → IsPreparedOf self.new prepared gone come) }
        ensures room { IfOk result (λ prepared. HasRooms self.new prepared) }
        ensures tight { IsTight self.old → MatchResult result (λ prepared. IsTightBut prepared self.new)
            (λ _. IsTight self.new) }
    {
        let RowChange {
            places,
            lengths,
            facets,
            leaves,
            gone,
            come,
        } = change;
        let ids = ids_after(alloc, &self.ids, gone.as_slice(), come.as_slice())?;
        let leaves = self.leaves.prepare(leaves)?;
        let places = self.places.prepare(alloc, places)?;
        let lengths = match self.lengths.prepare(alloc, lengths) {
            Ok(lengths) => lengths,
            Err(refused) => {
                self.places.release(places);
                return Err(refused);
            }
        };
        match self.facets.prepare(alloc, facets) {
            Ok(facets) => Ok(PreparedRows {
                places,
                lengths,
                facets,
                leaves,
                ids,
            }),
            Err(refused) => {
                self.lengths.release(lengths);
                self.places.release(places);
                Err(refused)
            }
        }
    }

    /// Makes a change that was prepared on this index as it is. Takes no memory. Where the index stood for some
    /// documents, it stands for the documents after the change.
    pub fn commit(&mut self, prepared: PreparedRows)
        requires { HasRooms self.old prepared }
        ensures stands { (gone come documents : List IndexedDocument) → IsPreparedOf self.old prepared gone come
            → IsBatch gone come documents → StandsFor self.old documents
            → StandsFor self.new (after gone come documents) }
        ensures tight { IsTightBut prepared self.old → IsTight self.new }
    {
        self.places.commit(prepared.places);
        self.lengths.commit(prepared.lengths);
        self.facets.commit(prepared.facets);
        self.leaves.commit(prepared.leaves);
        self.ids = prepared.ids;
    }

    /// Gives back the room of a prepared change that is not to be made, but for empty rows of leaves and room for
    /// leaves. Each answer stays as it was. Takes no memory.
    pub fn release(&mut self, prepared: PreparedRows)
        ensures answers { AnswersAsBefore self.old self.new }
        ensures same { (documents : List IndexedDocument) → StandsFor self.old documents → StandsFor self.new documents }
        ensures tight { IsTightBut prepared self.old → IsTight self.new }
    {
        self.places.release(prepared.places);
        self.lengths.release(prepared.lengths);
        self.facets.release(prepared.facets);
    }
}
