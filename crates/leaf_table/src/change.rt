ghost use Rattle.std.specs.Prelude.{◌≡◌, ◌<◌, ◌≤◌, List, [], ◌∷◌, IfOk, OnOk, IfSome};
ghost use Rattle.std.specs.List.{All};
ghost use Rattle.facet_index.specs.LeavesView.{LeavesView, leaves_at};
ghost use Rattle.leaf_table.specs.Changes.{IsLeafChangeOf, leaf_count};

use crate::leaf_row::LeafRow;
use search_base::{DocId, Leaf, NoMemory};
use std::alloc::Global;
use std::marker::Model;

/// A document that comes, with its leaves.
#[derive(Drop)]
pub(crate) struct Row {
    pub(crate) id: DocId,
    pub(crate) leaves: Vec<Leaf>,
}

impl Model for Row {
    ghost use Rattle.leaf_table.specs.Changes.{RowView};

    ghost Value = { RowView };

    ghost view = { λ row. record { id = row.id.0; leaves = row.leaves.items } };
}

/// A document that comes, with its leaves, and the row in which their numbers are to stand.
#[derive(Drop)]
pub(crate) struct PreparedRow {
    pub(crate) id: DocId,
    pub(crate) leaves: Vec<Leaf>,
    pub(crate) numbers: LeafRow,
}

impl Model for PreparedRow {
    ghost use Rattle.std.specs.Prelude.{◌≡◌, [], length, IsSome, unwrap_or};
    ghost use Rattle.leaf_table.specs.Changes.{RowView};

    ghost Value = { RowView };

    ghost view = { λ row. record { id = row.id.0; leaves = row.leaves.items } };

    ghost invariant = { λ row. IsSome row.numbers × (length (unwrap_or row.numbers []) ≡ length row.leaves.items) };
}

/// Whole documents that go from a table of leaves, and others that come. One that is replaced goes and comes.
#[derive(Drop)]
pub struct LeafChange {
    pub(crate) gone: Vec<DocId>,
    pub(crate) come: Vec<Row>,
}

impl Model for LeafChange {
    ghost use Rattle.std.specs.Prelude.{reverse};
    ghost use Rattle.leaf_table.specs.Changes.{ChangeView, numbers};

    ghost Value = { ChangeView };

    ghost view = { λ change. record {
      gone = reverse (numbers change.gone.items);
      come = reverse change.come.items;
    } };
}

/// A change of a table of leaves whose memory was taken.
#[derive(Drop)]
pub struct PreparedLeaves {
    pub(crate) gone: Vec<DocId>,
    pub(crate) come: Vec<PreparedRow>,
}

impl Model for PreparedLeaves {
    ghost use Rattle.std.specs.Prelude.{reverse};
    ghost use Rattle.leaf_table.specs.Changes.{ChangeView, numbers};

    ghost Value = { ChangeView };

    ghost view = { λ prepared. record {
      gone = reverse (numbers prepared.gone.items);
      come = reverse prepared.come.items;
    } };
}

impl LeafChange {
    /// A change of no document. Takes no memory.
    pub fn new(alloc: Global) -> LeafChange
        ensures { IsLeafChangeOf result [] [] }
    {
        LeafChange {
            gone: Vec::new(alloc),
            come: Vec::new(alloc),
        }
    }

    /// A document goes, with all the leaves that it has. After a refusal the change is of no use.
    pub fn take_out(&mut self, id: DocId) -> Result<(), NoMemory>
        ensures { OnOk result ((document : LeavesView) (gone come : List LeavesView) → document.id ≡ id.0
            → IsLeafChangeOf self.old gone come → IsLeafChangeOf self.new (document ∷ gone) come) }
    {
        self.gone.push(id)?;
        Ok(())
    }

    /// A document comes, with these leaves, which are copied; a long text is shared. After a refusal the change is of
    /// no use.
    pub fn put_in(&mut self, alloc: Global, id: DocId, leaves: &[Leaf]) -> Result<(), NoMemory>
        ensures { OnOk result ((document : LeavesView) (gone come : List LeavesView) → document.id ≡ id.0
            → document.leaves ≡ leaves.now
            → IsLeafChangeOf self.old gone come → IsLeafChangeOf self.new gone (document ∷ come)) }
    {
        let leaves = copy_of(alloc, leaves)?;
        self.come.push(Row { id, leaves })?;
        Ok(())
    }
}

// The leaves once more.
fn copy_of(alloc: Global, leaves: &[Leaf]) -> Result<Vec<Leaf>, NoMemory>
    ensures { IfOk result (λ copy. copy.items ≡ leaves.now) }
{
    let mut copy = Vec::with_capacity(alloc, leaves.len())?;
    for leaf in leaves {
        copy.push(leaf.clone()?)?;
    }
    Ok(copy)
}

// The rows of those that come, with memory for the numbers of their leaves.
pub(crate) fn prepared_rows(alloc: Global, come: Vec<Row>) -> Result<Vec<PreparedRow>, NoMemory>
    ensures { IfOk result (λ rows. rows.items ≡ come.items) }
{
    let mut rows = Vec::with_capacity(alloc, come.len())?;
    for row in come {
        rows.push(prepared_row(alloc, row)?)?;
    }
    Ok(rows)
}

// The row of one that comes.
fn prepared_row(alloc: Global, come: Row) -> Result<PreparedRow, NoMemory>
    ensures { IfOk result (λ row. row ≡ come) }
{
    let numbers = LeafRow::of_len(alloc, come.leaves.len())?;
    Ok(PreparedRow {
        id: come.id,
        leaves: come.leaves,
        numbers,
    })
}

// How many leaves those that come have, where it is a number of so many bits.
pub(crate) fn leaf_count(come: &[Row]) -> Option<usize>
    ensures { IfSome result (λ count. leaf_count come.now ≤ count) }
{
    let mut count: usize = 0;
    for row in come {
        count = count.checked_add(row.leaves.len())?;
    }
    Some(count)
}

// How many rows a table needs for those that come.
pub(crate) fn rows_for(come: &[Row]) -> usize
    ensures { All (λ row. row.id < result) come.now }
{
    let mut most = 0;
    for row in come {
        let needed = row.id.0 as usize + 1;
        if most < needed {
            most = needed;
        }
    }
    most
}
