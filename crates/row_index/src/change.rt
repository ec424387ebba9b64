ghost use Rattle.std.specs.Prelude.{List, [], ◌∷◌, OnOk};
ghost use Rattle.row_index.specs.Documents.{IndexedDocument, document_with};
ghost use Rattle.row_index.specs.Changes.{IsChangeOf};

use doc_sets::DocSet;
use facet_index::{FacetChange, PreparedFacets};
use leaf_table::{LeafChange, PreparedLeaves};
use path_lengths::{LengthChange, PreparedLengths};
use postings::{Change, Prepared};
use search_base::{DocId, DocRows, NoMemory};
use std::alloc::Global;
use std::marker::Model;

/// Whole documents that go, and others that come. One that is replaced goes and comes.
#[derive(Drop)]
pub struct RowChange {
    pub(crate) places: Change,
    pub(crate) lengths: LengthChange,
    pub(crate) facets: FacetChange,
    pub(crate) leaves: LeafChange,
    pub(crate) gone: Vec<DocId>,
    pub(crate) come: Vec<DocId>,
}

impl Model for RowChange {
    ghost use Rattle.leaf_table.specs.Changes.{numbers};
    ghost use Rattle.row_index.specs.Changes.{RowChangeView};

    ghost Value = { RowChangeView };

    ghost view = { λ change. record {
      places = change.places;
      lengths = change.lengths;
      facets = change.facets;
      leaves = change.leaves;
      gone = numbers change.gone.items;
      come = numbers change.come.items;
    } };
}

/// A change whose memory was taken, for the index as it was then.
#[derive(Drop)]
pub struct PreparedRows {
    pub(crate) places: Prepared,
    pub(crate) lengths: PreparedLengths,
    pub(crate) facets: PreparedFacets,
    pub(crate) leaves: PreparedLeaves,
    pub(crate) ids: DocSet,
}

impl Model for PreparedRows {
    ghost use Rattle.row_index.specs.Changes.{PreparedView};

    ghost Value = { PreparedView };

    ghost view = { λ prepared. record {
      places = prepared.places;
      lengths = prepared.lengths;
      facets = prepared.facets;
      leaves = prepared.leaves;
      ids = prepared.ids.ids;
    } };
}

impl RowChange {
    /// A change of no document. Takes no memory.
    pub fn new(alloc: Global) -> RowChange
        ensures { IsChangeOf result [] [] }
    {
        RowChange {
            places: Change::new(alloc),
            lengths: LengthChange::new(alloc),
            facets: FacetChange::new(alloc),
            leaves: LeafChange::new(alloc),
            gone: Vec::new(alloc),
            come: Vec::new(alloc),
        }
    }

    /// A document goes, with all the rows that it has. After a refusal the change is of no use.
    pub fn take_out(&mut self, alloc: Global, id: DocId, rows: &DocRows) -> Result<(), NoMemory>
        ensures { OnOk result ((gone come : List IndexedDocument) → IsChangeOf self.old gone come
            → IsChangeOf self.new (document_with id.0 rows.now ∷ gone) come) }
    {
        let places = rows.places.as_slice();
        let leaves = rows.leaves.as_slice();
        let marks = rows.marks.as_slice();
        self.places.take_out(alloc, id, places)?;
        self.lengths.take_out(alloc, id, places)?;
        self.facets.take_out(alloc, id, leaves, marks)?;
        self.leaves.take_out(id)?;
        self.gone.push(id)?;
        Ok(())
    }

    /// A document comes, with these rows. After a refusal the change is of no use.
    pub fn put_in(&mut self, alloc: Global, id: DocId, rows: &DocRows) -> Result<(), NoMemory>
        ensures { OnOk result ((gone come : List IndexedDocument) → IsChangeOf self.old gone come
            → IsChangeOf self.new gone (document_with id.0 rows.now ∷ come)) }
    {
        let places = rows.places.as_slice();
        let leaves = rows.leaves.as_slice();
        let marks = rows.marks.as_slice();
        self.places.put_in(alloc, id, places)?;
        self.lengths.put_in(alloc, id, places)?;
        self.facets.put_in(alloc, id, leaves, marks)?;
        self.leaves.put_in(alloc, id, leaves)?;
        self.come.push(id)?;
        Ok(())
    }
}
