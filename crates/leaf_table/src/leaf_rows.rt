ghost use Rattle.std.specs.Prelude.{◌≡◌, ◌<◌, ◌≤◌, ◌+◌, ℕ, [], length, set, slice_index_or, unwrap_or, None, Some, IsSome, OnOk};
ghost use Rattle.std.specs.List.{All};
ghost use Rattle.search_base.specs.declared.document.Leaf.{Leaf};
ghost use Rattle.search_base.specs.SortKeys.{leaves_under};
ghost use Rattle.leaf_table.specs.Columns.{leaves_in, Tells};
ghost use Rattle.leaf_table.specs.Numbers.{has_between};
ghost use Rattle.leaf_table.specs.Rows.{leaf_in, leaves_named, room_of};
ghost use Rattle.leaf_table.specs.Tables.{row_at};

use crate::change::PreparedRow;
use crate::columns::{make_room, told, uncount};
use crate::copies::copy_under;
use crate::leaf_row::LeafRow;
use crate::numbers::{NumberRange, some_inside};
use crate::pool::LeafPool;
use search_base::{DocId, Leaf, NoMemory, PathId};
use std::alloc::Global;
use std::marker::Model;

/// By their internal ids, the leaves that documents have: numbers, each of which names a leaf of a pool.
#[derive(Drop)]
pub(crate) struct LeafRows {
    rows: Vec<LeafRow>,
    pool: LeafPool,
}

impl Model for LeafRows {
    ghost use Rattle.std.specs.Prelude.{IsSome};
    ghost use Rattle.leaf_table.specs.Rows.{leaf_in, rows_named, room_of, Each};
    ghost use Rattle.leaf_table.specs.Tables.{TableView};

    ghost Value = { TableView };

    ghost view = { λ it. record {
      rows = rows_named it.pool.leaves.items it.rows.items;
      room = room_of it.pool.leaves;
    } };

    ghost invariant = { λ it. Each (λ number. IsSome (leaf_in it.pool.leaves.items number)) it.rows.items };
}

impl LeafRows {
    /// No rows. Takes no memory.
    pub(crate) fn new(alloc: Global) -> LeafRows
        ensures { result.rows ≡ [] }
    {
        LeafRows {
            rows: Vec::new(alloc),
            pool: LeafPool::new(alloc),
        }
    }

    /// How many rows there are.
    pub(crate) fn len(&self) -> usize
        ensures { result ≡ length self.now.rows }
    {
        self.rows.len()
    }

    /// Adds empty rows until there are so many. A refusal leaves those that were added.
    pub(crate) fn grow(&mut self, len: usize) -> Result<(), NoMemory>
        ensures same { (id : ℕ) → row_at id self.new ≡ row_at id self.old }
        ensures rows { OnOk result (len ≤ length self.new.rows) }
    {
        make_room(&mut self.rows, len)?;
        while self.rows.len() < len {
            self.rows.push(LeafRow::nothing())?;
        }
        Ok(())
    }

    /// Takes memory for so many leaves more.
    pub(crate) fn reserve(&mut self, alloc: Global, leaves: usize) -> Result<(), NoMemory>
        ensures rows { self.new.rows ≡ self.old.rows }
        ensures room { OnOk result (leaves ≤ self.new.room) }
    {
        self.pool.reserve(alloc, leaves)
    }

    /// Takes the numbers of a document off the counts of their paths.
    pub(crate) fn uncount(&self, at: usize, counts: &mut [usize]) {
        let numbers = numbers_at(self.rows.as_slice(), at);
        uncount(counts, self.pool.leaves.as_slice(), numbers);
    }

    /// Empties the row of an id.
    pub(crate) fn take_out(&mut self, id: DocId)
        requires { id.0 < length self.old.rows }
        ensures rows { self.new.rows ≡ set self.old.rows id.0 None }
        ensures room { self.new.room ≡ self.old.room }
    {
        self.rows[id.0 as usize] = LeafRow::nothing();
    }

    /// Sets the row of a document. Takes no memory.
    pub(crate) fn put_in(&mut self, row: PreparedRow)
        requires rows { row.id < length self.old.rows }
        requires room { length row.leaves ≤ self.old.room }
        ensures rows { self.new.rows ≡ set self.old.rows row.id (Some row.leaves) }
        ensures room { self.old.room ≤ self.new.room + length row.leaves }
    {
        let PreparedRow {
            id,
            leaves,
            numbers,
        } = row;
        self.rows[id.0 as usize] = numbered(&mut self.pool, leaves, numbers);
    }

    /// Lets go the leaves that no row has any longer. Takes no memory.
    pub(crate) fn let_go(&mut self)
        ensures { self.new ≡ self.old }
    {
        self.pool.let_go(self.rows.as_slice());
    }

    /// What the column of a path says of a document.
    pub(crate) fn told(&self, at: usize, path: PathId) -> i64
        ensures { Tells result (leaves_under path.0 (leaves_in at self.now.rows)) }
    {
        told(
            self.pool.leaves.as_slice(),
            numbers_at(self.rows.as_slice(), at),
            path,
        )
    }

    /// Whether a document has a number of the range.
    pub(crate) fn some_inside(&self, at: usize, range: &NumberRange) -> bool
        ensures { result
            ≡ has_between range.now.path.0 range.now.low range.now.high (leaves_in at self.now.rows) }
    {
        some_inside(
            self.pool.leaves.as_slice(),
            numbers_at(self.rows.as_slice(), at),
            range,
        )
    }

    /// Puts copies of the leaves of a document under a path in place of what stands in a list.
    pub(crate) fn copy_under(
        &self,
        at: usize,
        path: PathId,
        copies: &mut Vec<Leaf>,
    ) -> Result<(), NoMemory>
        ensures { OnOk result (copies.new.items ≡ leaves_under path.0 (leaves_in at self.now.rows)) }
    {
        let numbers = numbers_at(self.rows.as_slice(), at);
        copy_under(self.pool.leaves.as_slice(), numbers, path, copies)
    }
}

// The numbers of the row of an id, and none where it has no row.
fn numbers_at(rows: &[LeafRow], at: usize) -> &[u32]
    ensures { result.now ≡ unwrap_or (slice_index_or rows.now at None) [] }
{
    match rows.get(at) {
        Some(row) => row.numbers(),
        None => &[],
    }
}

// The row of these leaves, which are given numbers.
fn numbered(pool: &mut LeafPool, leaves: Vec<Leaf>, row: LeafRow) -> LeafRow
    requires some { IsSome row }
    requires len { length (unwrap_or row []) ≡ length leaves.items }
    requires room { length leaves.items ≤ room_of pool.old.leaves }
    ensures some { IsSome result }
    ensures leaves { leaves_named pool.new.leaves.items (unwrap_or result []) ≡ leaves.items }
    ensures named { All (λ number. IsSome (leaf_in pool.new.leaves.items number)) (unwrap_or result []) }
    ensures others { (number : ℕ) (other : Leaf) → leaf_in pool.old.leaves.items number ≡ Some other
        → leaf_in pool.new.leaves.items number ≡ Some other }
    ensures room { room_of pool.old.leaves ≤ room_of pool.new.leaves + length leaves.items }
{
    let mut row = row;
    let mut at = 0;
    for leaf in leaves {
        row.set(at, pool.number(leaf));
        at += 1;
    }
    row
}
