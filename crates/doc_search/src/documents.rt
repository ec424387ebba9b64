ghost use Rattle.std.specs.Prelude.{◌≡◌, ◌≤◌, ◌<◌, length, map, IfOk, IfSome};
ghost use Rattle.leaf_table.specs.Tables.{AreLeavesOf};
ghost use Rattle.doc_store.specs.Sound.{IsSound};
ghost use Rattle.row_index.specs.Standing.{StandsFor, faceted};
ghost use Rattle.doc_index.specs.Documents.{documents_of};
ghost use Rattle.doc_search.specs.Matches.{AreInOrder};
ghost use Rattle.doc_search.specs.Ranked.{ranks_of as ranks_in, RankedBelow};
ghost use Rattle.doc_search.specs.Searched.{documents_in};

use crate::indexed::IndexedRows;
use doc_rows::PathUse;
use doc_sets::DocSet;
use doc_store::DocStore;
use facet_index::{FacetIndex, Indexed};
use leaf_table::LeafTable;
use row_index::RowIndex;
use search_base::{NoMemory, Word};
use std::alloc::Global;
use std::marker::Model;

/// The documents of a store, their row index, and the ranks of the paths as these are used. Seen as the registry of
/// paths and the documents with their rows.
#[derive(Drop)]
pub struct IndexedDocuments<'a> {
    store: &'a DocStore,
    rows: &'a RowIndex,
    uses: &'a [PathUse],
    ranks: Vec<Option<u16>>,
    bound: u16,
}

impl<'a> Model for IndexedDocuments<'a> {
    ghost use Rattle.doc_search.specs.Searched.{DocumentsView, IsSearched, documents_in};

    ghost Value = { DocumentsView };

    ghost view = { λ d. documents_in d.store.now.content d.uses.now };

    ghost invariant = { λ d. IsSearched d.rows.now d.ranks.items d.bound
        (documents_in d.store.now.content d.uses.now) };
}

impl<'a> IndexedDocuments<'a> {
    /// The documents of a store, whose paths are used so. The rows are theirs, and each rank is below 65,535.
    pub fn new(
        alloc: Global,
        store: &'a DocStore,
        rows: &'a RowIndex,
        uses: &'a [PathUse],
    ) -> Result<IndexedDocuments<'a>, NoMemory>
        requires sound { IsSound store.now.content }
        requires ranks { RankedBelow 65535 uses.now }
        requires stands { StandsFor rows.now
            (documents_of store.now.content.paths uses.now store.now.content.rows) }
        ensures { IfOk result (λ documents. documents ≡ documents_in store.now.content uses.now) }
    {
        let ranks = ranks_of(alloc, uses)?;
        Ok(IndexedDocuments {
            store,
            rows,
            uses,
            ranks,
            bound: bound_of(uses),
        })
    }

    /// The registry of paths.
    pub(crate) fn paths(&self) -> &[Word]
        ensures paths { result.now ≡ self.now.paths }
        ensures few { length result.now ≤ 1000 }
        ensures order { AreInOrder self.now.documents }
    {
        let _rows = self.rows;
        self.store.paths()
    }

    /// The ids of the documents.
    pub(crate) fn ids(&self) -> &DocSet
        ensures { result.now.ids ≡ map (λ document. document.id) self.now.documents }
    {
        let ids = self.rows.ids();
        let _count = ids.len();
        ids
    }

    /// The leaves of each document.
    pub(crate) fn leaves(&self) -> &LeafTable
        ensures { AreLeavesOf result.now (map faceted self.now.documents) }
    {
        self.rows.leaves()
    }
}

impl<'a> IndexedRows for IndexedDocuments<'a> {
    ghost documents = { λ d. d.documents };

    fn index(&self) -> &RowIndex {
        self.rows
    }

    fn ranks(&self) -> &[Option<u16>] {
        self.ranks.as_slice()
    }

    fn rank_count(&self) -> u16 {
        self.bound
    }
}

impl<'a> Indexed for IndexedDocuments<'a> {
    ghost use Rattle.std.specs.Prelude.{map};
    ghost use Rattle.row_index.specs.Standing.{faceted};

    ghost documents = { λ d. map faceted d.documents };

    fn facets(&self) -> &FacetIndex {
        self.rows.facets()
    }
}

// The rank of each path, where it has one.
fn ranks_of(alloc: Global, uses: &[PathUse]) -> Result<Vec<Option<u16>>, NoMemory>
    ensures { IfOk result (λ ranks. ranks.items ≡ ranks_in uses.now) }
{
    Ok(uses.iter().map(|path_use| path_use.rank).collect(alloc)?)
}

// The least number above each rank.
fn bound_of(uses: &[PathUse]) -> u16
    requires { RankedBelow 65535 uses.now }
    ensures { RankedBelow result uses.now }
{
    let mut bound: u16 = 0;
    for path_use in uses {
        bound = bound.max(above(*path_use));
    }
    bound
}

// A number above the rank of a path, where it has one.
fn above(path_use: PathUse) -> u16
    requires { IfSome path_use.rank (λ rank. rank < 65535) }
    ensures { IfSome path_use.rank (λ rank. rank < result) }
{
    match path_use.rank {
        Some(rank) => rank + 1,
        None => 0,
    }
}
