ghost use Rattle.std.specs.Prelude.{◌≡◌, ◌≤◌, length, IfOk, OnOk};
ghost use Rattle.doc_rows.specs.Rows.{and_rows, path_rows, rows_of};

use crate::path_facets::{add_leaves, add_marks};
use crate::path_use::PathUse;
use crate::path_values::values_at;
use crate::path_words::add_places;
use doc_values::{Document, Flat, values_by_path};
use search_base::{DocRows, NoMemory, Word};
use std::alloc::Global;

/// What a search sees of a document, in an index whose registry of paths is `paths` and which uses each of these as
/// `uses` says: the words of the paths that have a rank, and the leaves and marks of those that are faceted, path
/// by path in the registry's order. A path that is not in the registry is left out. The document is read once.
///
/// A path has the words of its leaves, leaf after leaf as the walk finds them: those of a text, of the digits of a
/// number, or of `true` and `false`. Their positions grow from 0, as those of one text do, and by eight from the last
/// word of a leaf to the first one of the next. No word has a position above 65,535.
///
/// The leaves of a path come in the order of the walk, each as the number, or as the normal form of its text, with
/// its spelling. A mark of a path comes once: that it has a value, that one is null, that one is an empty text,
/// array or object.
pub fn rows(
    alloc: Global,
    document: &Document,
    paths: &[Word],
    uses: &[PathUse],
) -> Result<DocRows, NoMemory>
    requires few { length paths.now ≤ 1000 }
    requires uses { length uses.now ≡ length paths.now }
    ensures { IfOk result (λ rows. rows ≡ rows_of document.now paths.now uses.now) }
{
    let values = values_by_path(alloc, document)?;
    let mut rows = DocRows {
        places: Vec::new(alloc),
        leaves: Vec::new(alloc),
        marks: Vec::new(alloc),
    };
    for (number, path) in paths.iter().enumerate() {
        let values = values_at(&values, path);
        add_path(alloc, number as u16, &uses[number], values, &mut rows)?;
    }
    Ok(rows)
}

// What a search sees of the path with this number, which has these values.
fn add_path(
    alloc: Global,
    number: u16,
    path_use: &PathUse,
    values: &[Flat],
    rows: &mut DocRows,
) -> Result<(), NoMemory>
    ensures { OnOk result (rows.new ≡ and_rows rows.old (path_rows number path_use.now values.now)) }
{
    add_places(alloc, number, path_use.rank, values, &mut rows.places)?;
    if path_use.faceted {
        add_leaves(alloc, number, values, &mut rows.leaves)?;
        add_marks(number, values, &mut rows.marks)?;
    }
    Ok(())
}
