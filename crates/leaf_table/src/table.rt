ghost use Rattle.std.specs.Prelude.{◌≡◌, ◌≤◌, ◌<◌, ℕ, List, [], map, filter, reverse, length, IfSome, IfOk, OnOk};
ghost use Rattle.std.specs.List.{All};
ghost use Rattle.search_base.specs.SortKeys.{leaves_under};
ghost use Rattle.facet_index.specs.LeavesView.{LeavesView};
ghost use Rattle.facet_index.specs.Batches.{after};
ghost use Rattle.leaf_table.specs.Tables.{row_at, kept_at, AreLeavesOf};
ghost use Rattle.leaf_table.specs.Numbers.{has_between, AreNumbersOf};
ghost use Rattle.leaf_table.specs.Changes.{numbers, IsLeafChangeOf, HasRows, leaf_count, come_at, left_at};

use crate::change::{
    LeafChange, PreparedLeaves, PreparedRow, Row, leaf_count, prepared_rows, rows_for,
};
use crate::columns::{column_of, set_leaves, unset_leaves, widen};
use crate::leaf_rows::LeafRows;
use crate::numbers::{NumberRange, between, numbers};
use doc_sets::DocSet;
use search_base::{DocId, Leaf, NoMemory, PathId};
use std::alloc::Global;
use std::marker::Model;

// Leaves are let go where as many documents went as a share of the rows.
const ONE_OF_SOME: usize = 4;

/// For each document its leaves.
#[derive(Drop)]
pub struct LeafTable {
    rows: LeafRows,
    // How many documents went since leaves were let go.
    gone: usize,
    // For each path, by its number, what each document has there, by its internal id.
    columns: Vec<Vec<i64>>,
    // For each path how many numbers there are, and how many came with changes that found no memory.
    counts: Vec<usize>,
}

impl Model for LeafTable {
    ghost use Rattle.leaf_table.specs.Tables.{TableView};
    ghost use Rattle.leaf_table.specs.Columns.{AreColumns};

    ghost Value = { TableView };

    ghost view = { λ table. table.rows };

    ghost invariant = { λ table. AreColumns table.columns.items table.rows.rows };
}

impl LeafTable {
    /// The table of no document. Takes no memory.
    pub fn new(alloc: Global) -> LeafTable
        ensures { AreLeavesOf result [] }
    {
        LeafTable {
            rows: LeafRows::new(alloc),
            gone: 0,
            columns: Vec::new(alloc),
            counts: Vec::new(alloc),
        }
    }

    /// Puts copies of the leaves that the document of this id has under a path in place of what stands in a list, whose
    /// memory is used again; a long text is shared. After a refusal the list is of no use.
    pub fn copy_under(
        &self,
        id: DocId,
        path: PathId,
        copies: &mut Vec<Leaf>,
    ) -> Result<(), NoMemory>
        ensures { OnOk result (copies.new.items ≡ leaves_under path.0 (kept_at id.0 self.now)) }
    {
        self.rows.copy_under(id.0 as usize, path, copies)
    }

    /// The documents of the universe that have a number from `low` to `high` under the path, both ends among them. Goes
    /// over the universe once. Looks only at the leaves of those that have several there, or one that is no number of
    /// 64 bits above the two least, and of those behind the end of the path's column: of all where it has none.
    pub fn between(
        &self,
        alloc: Global,
        path: PathId,
        low: i128,
        high: i128,
        universe: &DocSet,
    ) -> Result<DocSet, NoMemory>
        ensures { IfOk result (λ docs.
            docs.ids ≡ filter (λ d. has_between path.0 low high (kept_at d self.now)) universe.now.ids) }
    {
        let column = column_of(self.columns.as_slice(), path);
        let range = NumberRange { path, low, high };
        between(alloc, &self.rows, column, &range, universe)
    }

    /// Each document of the universe with the number that is its only leaf under the path, in the order of the
    /// universe. None where a document of the universe has no leaf there, or several, or one that is no number of 64
    /// bits above the two least; none too where so few documents have a number there that it is not known without
    /// looking at their leaves. Goes over the universe once, and stops at the first such document.
    pub fn numbers(
        &self,
        alloc: Global,
        path: PathId,
        universe: &DocSet,
    ) -> Result<Option<Vec<(i64, DocId)>>, NoMemory>
        ensures { IfOk result (λ found. IfSome found (λ pairs.
            AreNumbersOf path.0 self.now universe.now.ids pairs.items)) }
    {
        let column = column_of(self.columns.as_slice(), path);
        numbers(alloc, &self.rows, column, path, universe)
    }

    /// Takes all memory that the change needs: there is a row for each id up to the greatest that comes, and room for
    /// each leaf. The leaves of each document stay as they were, whatever the result; after a refusal some empty rows
    /// and some room may be left behind.
    pub fn prepare(&mut self, change: LeafChange) -> Result<PreparedLeaves, NoMemory>
        ensures same { (id : ℕ) → row_at id self.new ≡ row_at id self.old }
        ensures made { IfOk result (λ prepared. prepared ≡ change) }
        ensures rows { IfOk result (λ prepared. HasRows self.new prepared) }
    {
        let LeafChange { gone, come } = change;
        let alloc = *self.columns.allocator();
        self.grow(alloc, come.as_slice())?;
        self.widen(alloc, come.as_slice())?;
        let come = prepared_rows(alloc, come)?;
        Ok(PreparedLeaves { gone, come })
    }

    /// Makes a change that was prepared on this table as it is. A leaf that a document has already is shared with it,
    /// as far as it is found. Takes no memory. Where the table had the leaves of some documents, it has those of the
    /// documents after the change.
    pub fn commit(&mut self, prepared: PreparedLeaves)
        requires { HasRows self.old prepared }
        ensures { (gone come documents : List LeavesView) → IsLeafChangeOf prepared gone come
            → AreLeavesOf self.old documents → AreLeavesOf self.new (after gone come documents) }
    {
        let PreparedLeaves { gone, come } = prepared;
        self.take_out(gone.as_slice());
        self.put_in(come);
        self.let_go(gone.len());
    }

    // Adds empty rows for those that come, and makes room for their leaves. A refusal leaves what was made.
    fn grow(&mut self, alloc: Global, come: &[Row]) -> Result<(), NoMemory>
        ensures same { (id : ℕ) → row_at id self.new ≡ row_at id self.old }
        ensures rows { OnOk result (All (λ row. row.id < length self.new.rows) come.now) }
        ensures room { OnOk result (leaf_count come.now ≤ self.new.room) }
    {
        let Some(leaves) = leaf_count(come) else {
            return Err(NoMemory);
        };
        self.rows.grow(rows_for(come))?;
        self.rows.reserve(alloc, leaves)
    }

    // Makes the columns long enough for the numbers that come, where they are not.
    fn widen(&mut self, alloc: Global, come: &[Row]) -> Result<(), NoMemory>
        ensures { self.new ≡ self.old }
    {
        widen(alloc, &mut self.columns, &mut self.counts, &self.rows, come)
    }

    // Empties the rows of these ids.
    fn take_out(&mut self, gone: &[DocId])
        ensures each { (id : ℕ) → row_at id self.new ≡ left_at id (reverse (numbers gone.now)) (row_at id self.old) }
        ensures rows { length self.new.rows ≡ length self.old.rows }
        ensures room { self.new.room ≡ self.old.room }
    {
        for id in gone {
            if (id.0 as usize) < self.rows.len() {
                unset_leaves(self.columns.as_mut_slice(), *id);
                self.rows.uncount(id.0 as usize, self.counts.as_mut_slice());
                self.rows.take_out(*id);
            }
        }
    }

    // Sets these rows.
    fn put_in(&mut self, come: Vec<PreparedRow>)
        requires rows { All (λ row. row.id < length self.old.rows) come.items }
        requires room { leaf_count come.items ≤ self.old.room }
        ensures { (id : ℕ) → row_at id self.new ≡ come_at id (reverse come.items) (row_at id self.old) }
    {
        for row in come {
            set_leaves(self.columns.as_mut_slice(), row.id, row.leaves.as_slice());
            self.rows.put_in(row);
        }
    }

    // Lets go the leaves that no document has any longer, once in so many documents that go. So what is kept stays in
    // proportion to the rows, at a constant cost a change.
    fn let_go(&mut self, gone: usize)
        ensures { self.new ≡ self.old }
    {
        self.gone = self.gone.saturating_add(gone);
        if self.gone > self.rows.len() / ONE_OF_SOME {
            self.rows.let_go();
            self.gone = 0;
        }
    }
}
