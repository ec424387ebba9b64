ghost use Rattle.std.specs.Prelude.{◌≡◌, ◌==◌, ◌≤◌, ℕ, true, false, int_lt, OnOk};
ghost use Rattle.std.specs.Prelude.{List, [], ◌∷◌, ◌++◌, length, slice_index_or, vec_capacity};
ghost use Rattle.search_base.specs.declared.document.Leaf.{Leaf};
ghost use Rattle.search_base.specs.SortKeys.{leaves_under};
ghost use Rattle.leaf_table.specs.Rows.{leaves_named};
ghost use Rattle.leaf_table.specs.Columns.{Tells, IsColumn, AreColumns, cell_in, cell_at, columns_of};

use crate::change::Row;
use crate::leaf_rows::LeafRows;
use crate::pool::{leaf_at, leaf_under};
use search_base::{DocId, FacetValue, Leaf, NoMemory, PathId};
use std::alloc::Global;

/// What a cell says where the document may have several leaves under the path, or one that is no number of 64 bits
/// above it. A number above it is the only leaf, and below it there is none.
pub(crate) const OTHER: i64 = i64::MIN + 1;

// What a cell says where the document has no leaf under the path.
const NOTHING: i64 = i64::MIN;

// The column of a path; an empty one where there is none.
pub(crate) fn column_of(columns: &[Vec<i64>], path: PathId) -> &[i64]
    ensures { result.now ≡ slice_index_or (columns_of columns.now) path.0 [] }
{
    match columns.get(usize::from(path.0)) {
        Some(column) => column.as_slice(),
        None => &[],
    }
}

// The cell of a document; where a column is too short, it says that there may be anything.
pub(crate) fn cell_of(column: &[i64], id: DocId) -> i64
    ensures { result ≡ cell_in id.0 column.now }
{
    let at = id.0 as usize;
    if at < column.len() { column[at] } else { OTHER }
}

// Makes each column tell what the leaves of one document are.
pub(crate) fn set_leaves(columns: &mut [Vec<i64>], id: DocId, leaves: &[Leaf])
    ensures told { (path : ℕ) → Tells (cell_at path id.0 columns.new) (leaves_under path leaves.now) }
    ensures others { (path d : ℕ) → (id.0 == d) ≡ false → cell_at path d columns.new ≡ cell_at path d columns.old }
{
    unset_leaves(columns, id);
    for leaf in leaves {
        add_leaf(columns, id, leaf);
    }
}

// Makes each column tell that one document has no leaf.
pub(crate) fn unset_leaves(columns: &mut [Vec<i64>], id: DocId)
    ensures told { (path : ℕ) → Tells (cell_at path id.0 columns.new) [] }
    ensures others { (path d : ℕ) → (id.0 == d) ≡ false → cell_at path d columns.new ≡ cell_at path d columns.old }
{
    for column in columns {
        unset(column.as_mut_slice(), id);
    }
}

// Makes a column tell that one document has no leaf.
fn unset(column: &mut [i64], id: DocId)
    ensures told { Tells (cell_in id.0 column.new) [] }
    ensures others { (d : ℕ) → (id.0 == d) ≡ false → cell_in d column.new ≡ cell_in d column.old }
{
    let at = id.0 as usize;
    if at < column.len() {
        column[at] = NOTHING;
    }
}

// Adds a leaf to those that a document has.
fn add_leaf(columns: &mut [Vec<i64>], id: DocId, leaf: &Leaf)
    ensures told { (path : ℕ) (leaves : List Leaf) → Tells (cell_at path id.0 columns.old) (leaves_under path leaves)
        → Tells (cell_at path id.0 columns.new) (leaves_under path (leaves ++ leaf.now ∷ [])) }
    ensures others { (path d : ℕ) → (id.0 == d) ≡ false → cell_at path d columns.new ≡ cell_at path d columns.old }
{
    let path = usize::from(leaf.path.0);
    if path < columns.len() {
        add_value(columns[path].as_mut_slice(), id, &leaf.value);
    }
}

// Adds a value to what a document has under the path of the column.
fn add_value(column: &mut [i64], id: DocId, value: &FacetValue)
    ensures told { (leaves : List Leaf) (leaf : Leaf) → leaf.value ≡ value.now → Tells (cell_in id.0 column.old) leaves
        → Tells (cell_in id.0 column.new) (leaves ++ leaf ∷ []) }
    ensures others { (d : ℕ) → (id.0 == d) ≡ false → cell_in d column.new ≡ cell_in d column.old }
{
    let at = id.0 as usize;
    if at < column.len() {
        column[at] = with_value(column[at], value);
    }
}

// What a cell says once a value came.
fn with_value(cell: i64, value: &FacetValue) -> i64
    ensures { (leaves : List Leaf) (leaf : Leaf) → leaf.value ≡ value.now → Tells cell leaves
        → Tells result (leaves ++ leaf ∷ []) }
{
    if cell < OTHER {
        number_of(value)
    } else {
        OTHER
    }
}

// The number of a value, where a cell can say it.
fn number_of(value: &FacetValue) -> i64
    ensures some { int_lt result OTHER ≡ false }
    ensures number { int_lt OTHER result ≡ true → value.now ≡ FacetValue.Number result }
{
    match value {
        FacetValue::Number(number) => {
            if i128::from(OTHER) < *number && *number <= i128::from(i64::MAX) {
                *number as i64
            } else {
                OTHER
            }
        }
        FacetValue::Text(_) => OTHER,
    }
}

// A path has no column before one id in so many has a number there: a column costs eight bytes an id.
const SPARSE: usize = 32;

// Makes the columns long enough for the numbers that come, where these are not too few, and counts them.
pub(crate) fn widen(
    alloc: Global,
    columns: &mut Vec<Vec<i64>>,
    counts: &mut Vec<usize>,
    rows: &LeafRows,
    come: &[Row],
) -> Result<(), NoMemory>
    requires { AreColumns columns.old.items rows.now.rows }
    ensures { AreColumns columns.new.items rows.now.rows }
{
    for row in come {
        for leaf in &row.leaves {
            if let FacetValue::Number(_) = &leaf.value {
                if rows.len() / SPARSE <= counted(counts, leaf.path)? {
                    widen_at(alloc, columns, rows, leaf.path)?;
                }
            }
        }
    }
    Ok(())
}

// Counts one number more under a path, and tells how many there are.
fn counted(counts: &mut Vec<usize>, path: PathId) -> Result<usize, NoMemory> {
    let at = usize::from(path.0);
    while counts.len() <= at {
        counts.push(0)?;
    }
    counts[at] = counts[at].saturating_add(1);
    Ok(counts[at])
}

// Takes the numbers among some leaves off the counts of their paths.
pub(crate) fn uncount(counts: &mut [usize], leaves: &[Option<Leaf>], numbers: &[u32]) {
    for number in numbers {
        if let Some(leaf) = leaf_at(leaves, *number) {
            if let FacetValue::Number(_) = &leaf.value {
                let at = usize::from(leaf.path.0);
                if at < counts.len() {
                    counts[at] = counts[at].saturating_sub(1);
                }
            }
        }
    }
}

// Makes the column of a path long enough, where there is memory.
fn widen_at(
    alloc: Global,
    columns: &mut Vec<Vec<i64>>,
    rows: &LeafRows,
    path: PathId,
) -> Result<(), NoMemory>
    requires { AreColumns columns.old.items rows.now.rows }
    ensures { AreColumns columns.new.items rows.now.rows }
{
    let at = usize::from(path.0);
    add_columns(alloc, columns, at + 1)?;
    fill(&mut columns[at], path, rows)
}

// Adds empty columns until there are so many.
fn add_columns(alloc: Global, columns: &mut Vec<Vec<i64>>, len: usize) -> Result<(), NoMemory>
    ensures same { (path : ℕ) → slice_index_or (columns_of columns.new.items) path []
        ≡ slice_index_or (columns_of columns.old.items) path [] }
    ensures enough { OnOk result (len ≤ length columns.new.items) }
{
    while columns.len() < len {
        columns.push(Vec::new(alloc))?;
    }
    Ok(())
}

// Makes a column as long as the rows.
fn fill(column: &mut Vec<i64>, path: PathId, rows: &LeafRows) -> Result<(), NoMemory>
    requires { IsColumn path.0 column.old.items rows.now.rows }
    ensures { IsColumn path.0 column.new.items rows.now.rows }
{
    make_room(column, rows.len())?;
    while column.len() < rows.len() {
        let cell = rows.told(column.len(), path);
        column.push(cell)?;
    }
    Ok(())
}

// Makes room for so many items in all, and for an eighth more where there is none. They stay as they are.
pub(crate) fn make_room<T>(items: &mut Vec<T>, len: usize) -> Result<(), NoMemory>
    ensures items { items.new.items ≡ items.old.items }
    ensures room { OnOk result (len ≤ vec_capacity items.new) }
{
    if items.capacity() < len {
        items.reserve_exact((len - items.len()).saturating_add(len / 8))?;
    }
    Ok(())
}

// What the leaves of these numbers are under a path.
pub(crate) fn told(leaves: &[Option<Leaf>], numbers: &[u32], path: PathId) -> i64
    ensures { Tells result (leaves_under path.0 (leaves_named leaves.now numbers.now)) }
{
    let mut cell = NOTHING;
    for number in numbers {
        if let Some(leaf) = leaf_under(leaves, *number, path) {
            cell = with_value(cell, &leaf.value);
        }
    }
    cell
}
