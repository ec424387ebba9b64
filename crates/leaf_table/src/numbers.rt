ghost use Rattle.std.specs.Prelude.{◌≡◌, ℕ, filter, IfOk, IfSome};
ghost use Rattle.facet_index.specs.Documents.{is_number_that, is_between};
ghost use Rattle.leaf_table.specs.Rows.{leaves_named};
ghost use Rattle.leaf_table.specs.Columns.{IsColumn, leaves_in};
ghost use Rattle.leaf_table.specs.Numbers.{has_between, AreNumbersOf};

use crate::columns::{OTHER, cell_of};
use crate::leaf_rows::LeafRows;
use crate::pool::leaf_under;
use doc_sets::{DocSet, DocSetBuilder};
use search_base::{DocId, FacetValue, Leaf, NoMemory, PathId};
use std::alloc::Global;

// The numbers from `low` to `high`, both ends among them, under a path.
#[derive(Drop)]
pub(crate) struct NumberRange {
    pub(crate) path: PathId,
    pub(crate) low: i128,
    pub(crate) high: i128,
}

// The documents of the universe that have a number of the range.
pub(crate) fn between(
    alloc: Global,
    rows: &LeafRows,
    column: &[i64],
    range: &NumberRange,
    universe: &DocSet,
) -> Result<DocSet, NoMemory>
    requires { IsColumn range.now.path.0 column.now rows.now.rows }
    ensures { IfOk result (λ docs. docs.ids ≡ filter (λ d.
        has_between range.now.path.0 range.now.low range.now.high (leaves_in d rows.now.rows))
        universe.now.ids) }
{
    let limit = rows.len().min(0xffff_ffff) as u32;
    let mut found = DocSetBuilder::new(alloc, limit)?;
    for id in universe.iter() {
        if is_inside(rows, column, range, id) {
            found.add_id(id)?;
        }
    }
    found.finish(alloc)
}

// Whether a document has a number of the range, as its cell tells, or else its leaves.
fn is_inside(rows: &LeafRows, column: &[i64], range: &NumberRange, id: DocId) -> bool
    requires { IsColumn range.now.path.0 column.now rows.now.rows }
    ensures { result
        ≡ has_between range.now.path.0 range.now.low range.now.high (leaves_in id.0 rows.now.rows) }
{
    let cell = cell_of(column, id);
    if cell > OTHER {
        return has_number(range, i128::from(cell));
    }
    if cell < OTHER {
        return false;
    }
    rows.some_inside(id.0 as usize, range)
}

// Whether one of the leaves of these numbers is a number of the range.
pub(crate) fn some_inside(leaves: &[Option<Leaf>], numbers: &[u32], range: &NumberRange) -> bool
    ensures { result ≡ has_between range.now.path.0 range.now.low range.now.high
        (leaves_named leaves.now numbers.now) }
{
    for number in numbers {
        if let Some(leaf) = leaf_under(leaves, *number, range.path) {
            if has_value(range, &leaf.value) {
                return true;
            }
        }
    }
    false
}

// Whether a value is a number from the low end to the high one.
fn has_value(range: &NumberRange, value: &FacetValue) -> bool
    ensures { result ≡ is_number_that (is_between range.now.low range.now.high) value.now }
{
    match value {
        FacetValue::Number(number) => has_number(range, *number),
        FacetValue::Text(_) => false,
    }
}

// Whether a number is from the low end to the high one.
fn has_number(range: &NumberRange, number: i128) -> bool
    ensures { result ≡ is_between range.now.low range.now.high number }
{
    range.low <= number && number <= range.high
}

// The documents of the universe with their numbers, where each has a cell that says a number.
pub(crate) fn numbers(
    alloc: Global,
    rows: &LeafRows,
    column: &[i64],
    path: PathId,
    universe: &DocSet,
) -> Result<Option<Vec<(i64, DocId)>>, NoMemory>
    requires { IsColumn path.0 column.now rows.now.rows }
    ensures { IfOk result (λ found. IfSome found (λ pairs.
        AreNumbersOf path.0 rows.now universe.now.ids pairs.items)) }
{
    let mut pairs = Vec::with_capacity(alloc, universe.len() as usize)?;
    for id in universe.iter() {
        let cell = cell_of(column, id);
        if cell <= OTHER {
            return Ok(None);
        }
        pairs.push((cell, id))?;
    }
    Ok(Some(pairs))
}
