ghost use Rattle.std.specs.Prelude.{◌≡◌, [], IfOk};
ghost use Rattle.facet_index.specs.Batches.{IsChangeFor};
ghost use Rattle.leaf_table.specs.Changes.{IsLeafChangeOf};
ghost use Rattle.leaf_table.specs.Tables.{AreLeavesOf};
ghost use Rattle.tests_leaves.specs.Shelves.{numbered};

use facet_index::{FacetChange, FacetIndex, Indexed};
use leaf_table::{LeafChange, LeafTable};
use search_base::{DocId, Leaf, NoMemory};
use std::alloc::Global;
use std::marker::Model;

/// The leaves of documents, and the facet index and the table of these documents.
#[derive(Drop)]
pub(crate) struct Shelf {
    facets: FacetIndex,
    table: LeafTable,
    documents: Vec<Vec<Leaf>>,
}

impl Model for Shelf {
    ghost use Rattle.tests_leaves.specs.Shelves.{ShelfView, IsShelf, numbered};

    ghost Value = { ShelfView };

    ghost view = { λ shelf. record { documents = numbered shelf.documents.items } };

    ghost invariant = { λ shelf. IsShelf shelf.facets shelf.table (numbered shelf.documents.items) };
}

impl Shelf {
    /// The documents of these leaves, which have the numbers from 0 on, and no marks. `NoMemory` comes where memory is
    /// wanting.
    pub(crate) fn of(alloc: Global, leaves: Vec<Vec<Leaf>>) -> Result<Shelf, NoMemory>
        ensures { IfOk result (λ shelf. shelf.documents ≡ numbered leaves.items) }
    {
        let (facet_change, leaf_change) = changes_of(alloc, leaves.as_slice())?;
        let mut facets = FacetIndex::new(alloc);
        let prepared_facets = facets.prepare(alloc, facet_change)?;
        facets.commit(prepared_facets);
        let mut table = LeafTable::new(alloc);
        let prepared_leaves = table.prepare(leaf_change)?;
        table.commit(prepared_leaves);
        Ok(Shelf {
            facets,
            table,
            documents: leaves,
        })
    }

    /// The leaves of each document by its number.
    pub(crate) fn leaves(&self) -> &LeafTable
        ensures { AreLeavesOf result.now self.now.documents }
    {
        &self.table
    }
}

// The changes in which the documents come.
fn changes_of(alloc: Global, leaves: &[Vec<Leaf>]) -> Result<(FacetChange, LeafChange), NoMemory>
    ensures { IfOk result (λ changes. IsChangeFor changes.0 [] (numbered leaves.now)
        × IsLeafChangeOf changes.1 [] (numbered leaves.now)) }
{
    let mut facet_change = FacetChange::new(alloc);
    let mut leaf_change = LeafChange::new(alloc);
    let mut next: u32 = 0;
    for each in leaves {
        let own = each.as_slice();
        facet_change.put_in(alloc, DocId(next), own, &[])?;
        leaf_change.put_in(alloc, DocId(next), own)?;
        next = next.checked_add(1).ok_or(NoMemory)?;
    }
    Ok((facet_change, leaf_change))
}

impl Indexed for Shelf {
    ghost documents = { λ shelf. shelf.documents };

    fn facets(&self) -> &FacetIndex {
        &self.facets
    }
}
