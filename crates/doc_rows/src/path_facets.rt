ghost use Rattle.std.specs.Prelude.{◌≡◌, ◌++◌, IfOk, OnOk};
ghost use Rattle.std.specs.List.{filter_map};
ghost use Rattle.doc_rows.specs.Facets.{leaf_at, leaves_of_path, marks_of_path, value_of as value_of_leaf};
ghost use Rattle.doc_rows.specs.Facets.{has_mark as holds_mark, is_mark as is_that_mark, mark_if};

use crate::path_texts::leaf_text;
use doc_values::Flat;
use search_base::{FacetValue, Leaf, Mark, MarkKind, NoMemory, PathId, Word};
use std::alloc::Global;
use token_words::normal;

/// Adds the leaves of the path with this number, which has these values.
pub fn add_leaves(
    alloc: Global,
    number: u16,
    values: &[Flat],
    leaves: &mut Vec<Leaf>,
) -> Result<(), NoMemory>
    ensures { OnOk result (leaves.new.items ≡ leaves.old.items ++ leaves_of_path number values.now) }
{
    for value in values {
        if let Some(shown) = leaf_text(alloc, value)? {
            leaves.push(Leaf {
                path: PathId(number),
                value: value_of(alloc, value, &shown)?,
                shown,
            })?;
        }
    }
    Ok(())
}

// What a leaf that is spelled so is compared as.
fn value_of(alloc: Global, value: &Flat, shown: &Word) -> Result<FacetValue, NoMemory>
    ensures { IfOk result (λ found. found ≡ value_of_leaf value.now shown.now) }
{
    match value {
        Flat::Number(number) => Ok(FacetValue::Number(*number)),
        _ => Ok(FacetValue::Text(normal(alloc, shown.as_str())?)),
    }
}

/// Adds the marks that hold of the path with this number, which has these values, each once.
pub fn add_marks(number: u16, values: &[Flat], marks: &mut Vec<Mark>) -> Result<(), NoMemory>
    ensures { OnOk result (marks.new.items ≡ marks.old.items ++ marks_of_path number values.now) }
{
    add_mark(number, MarkKind::Exists, values, marks)?;
    add_mark(number, MarkKind::Null, values, marks)?;
    add_mark(number, MarkKind::Empty, values, marks)
}

fn add_mark(
    number: u16,
    kind: MarkKind,
    values: &[Flat],
    marks: &mut Vec<Mark>,
) -> Result<(), NoMemory>
    ensures { OnOk result (marks.new.items ≡ marks.old.items ++ mark_if number kind values.now) }
{
    if has_mark(kind, values) {
        marks.push(Mark {
            path: PathId(number),
            kind,
        })?;
    }
    Ok(())
}

fn has_mark(kind: MarkKind, values: &[Flat]) -> bool
    ensures { result ≡ holds_mark kind values.now }
{
    for value in values {
        if is_mark(kind, value) {
            return true;
        }
    }
    false
}

fn is_mark(kind: MarkKind, value: &Flat) -> bool
    ensures { result ≡ is_that_mark kind value.now }
{
    match value {
        Flat::Mark(found) => *found == kind,
        _ => false,
    }
}
