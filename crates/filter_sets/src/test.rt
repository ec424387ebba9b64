ghost use Rattle.std.specs.Prelude.{ℤ, Bool, not, ◌&&◌, int_lt, IfOk};
ghost use Rattle.std.specs.List.{list_any};
ghost use Rattle.std.specs.Option.{option_map};
ghost use Rattle.search_base.specs.SortKeys.{leaves_under};
ghost use Rattle.filter_tree.specs.View.{test_view};
ghost use Rattle.row_filter.specs.Holds.{meets, meets_at, is_equal, some_value, some_number, has_mark, marks_under};
ghost use Rattle.facet_index.specs.Documents.{is_same};
ghost use Rattle.filter_sets.specs.Selects.{Selects, AreBetween};

use crate::join::{either, finish};
use crate::source::Facets;
use doc_sets::{DocSet, DocSetBuilder, operations_are_on_members};
use filter_tree::{Test, whole_number};
use search_base::{FacetValue, MarkKind, NoMemory, PathId, Word};
use std::alloc::Global;
use std::collections::BTreeSet;
use token_words::normal;

/// The documents of a set that meet a test at a path; a path that is not there is met by none.
pub(crate) fn select_test(
    alloc: Global,
    facets: &Facets<'_>,
    path: Option<PathId>,
    test: &Test,
    all: &DocSet,
) -> Result<DocSet, NoMemory>
    ensures { IfOk result (λ docs.
        Selects facets.now (λ rows. meets_at (test_view test.now) rows (option_map (λ p. p.0) path)) all.now.ids docs.ids) }
{
    match path {
        Some(path) => select_at(alloc, facets, path, test, all),
        None => Ok(DocSet::new(alloc)),
    }
}

/// The documents of a set whose values under a path meet a test.
pub(crate) fn select_at(
    alloc: Global,
    facets: &Facets<'_>,
    path: PathId,
    test: &Test,
    all: &DocSet,
) -> Result<DocSet, NoMemory>
    ensures { IfOk result (λ docs. Selects facets.now
        (λ rows. meets (test_view test.now) (leaves_under path.0 rows.leaves) (marks_under path.0 rows.marks))
        all.now.ids docs.ids) }
{
    match test {
        Test::Equal(text) => equal(alloc, facets, path, text, all),
        Test::Above(n) => above(alloc, facets, path, n, all),
        Test::AtLeast(n) => at_least(alloc, facets, path, n, all),
        Test::Below(n) => below(alloc, facets, path, n, all),
        Test::AtMost(n) => at_most(alloc, facets, path, n, all),
        Test::Between(low, high) => between(alloc, facets, path, low, high, all),
        Test::OneOf(texts) => one_of(alloc, facets, path, texts.as_slice(), all),
        Test::Exists => marked(alloc, facets, path, MarkKind::Exists, all),
        Test::Null => marked(alloc, facets, path, MarkKind::Null, all),
        Test::Empty => marked(alloc, facets, path, MarkKind::Empty, all),
    }
}

// The documents of a set that have a wanted number under a path, where those between two are wanted.
fn numbers(
    alloc: Global,
    facets: &Facets<'_>,
    path: PathId,
    low: i128,
    high: i128,
    all: &DocSet,
) -> Result<DocSet, NoMemory>
    ensures { IfOk result (λ docs. (wanted : ℤ → Bool) → AreBetween low high wanted → Selects facets.now
        (λ rows. some_number wanted (leaves_under path.0 rows.leaves)) all.now.ids docs.ids) }
{
    match facets.index.short_range(alloc, path, low, high, all)? {
        Some(docs) => Ok(docs),
        None => facets.leaves.between(alloc, path, low, high, all),
    }
}

// The documents of a set that have a number above one under a path.
fn above(
    alloc: Global,
    facets: &Facets<'_>,
    path: PathId,
    n: &i128,
    all: &DocSet,
) -> Result<DocSet, NoMemory>
    ensures { IfOk result (λ docs. Selects facets.now
        (λ rows. some_number (λ m. int_lt n.now m) (leaves_under path.0 rows.leaves)) all.now.ids docs.ids) }
{
    match n.checked_add(1) {
        Some(low) => numbers(alloc, facets, path, low, i128::MAX, all),
        None => Ok(DocSet::new(alloc)),
    }
}

// The documents of a set that have a number from one on under a path.
fn at_least(
    alloc: Global,
    facets: &Facets<'_>,
    path: PathId,
    n: &i128,
    all: &DocSet,
) -> Result<DocSet, NoMemory>
    ensures { IfOk result (λ docs. Selects facets.now
        (λ rows. some_number (λ m. not (int_lt m n.now)) (leaves_under path.0 rows.leaves)) all.now.ids docs.ids) }
{
    numbers(alloc, facets, path, *n, i128::MAX, all)
}

// The documents of a set that have a number below one under a path.
fn below(
    alloc: Global,
    facets: &Facets<'_>,
    path: PathId,
    n: &i128,
    all: &DocSet,
) -> Result<DocSet, NoMemory>
    ensures { IfOk result (λ docs. Selects facets.now
        (λ rows. some_number (λ m. int_lt m n.now) (leaves_under path.0 rows.leaves)) all.now.ids docs.ids) }
{
    match n.checked_sub(1) {
        Some(high) => numbers(alloc, facets, path, i128::MIN, high, all),
        None => Ok(DocSet::new(alloc)),
    }
}

// The documents of a set that have a number up to one under a path.
fn at_most(
    alloc: Global,
    facets: &Facets<'_>,
    path: PathId,
    n: &i128,
    all: &DocSet,
) -> Result<DocSet, NoMemory>
    ensures { IfOk result (λ docs. Selects facets.now
        (λ rows. some_number (λ m. not (int_lt n.now m)) (leaves_under path.0 rows.leaves)) all.now.ids docs.ids) }
{
    numbers(alloc, facets, path, i128::MIN, *n, all)
}

// The documents of a set that have a number between two under a path, both among them.
fn between(
    alloc: Global,
    facets: &Facets<'_>,
    path: PathId,
    low: &i128,
    high: &i128,
    all: &DocSet,
) -> Result<DocSet, NoMemory>
    ensures { IfOk result (λ docs. Selects facets.now
        (λ rows. some_number (λ m. not (int_lt m low.now) && not (int_lt high.now m)) (leaves_under path.0 rows.leaves)) all.now.ids docs.ids) }
{
    numbers(alloc, facets, path, *low, *high, all)
}

// The documents of a set that have a mark of a kind under a path.
fn marked(
    alloc: Global,
    facets: &Facets<'_>,
    path: PathId,
    kind: MarkKind,
    all: &DocSet,
) -> Result<DocSet, NoMemory>
    ensures { IfOk result (λ docs.
        Selects facets.now (λ rows. has_mark kind (marks_under path.0 rows.marks)) all.now.ids docs.ids) }
{
    facets.index.marked(alloc, path, kind, all)
}

// The documents of a set that have a value under a path.
fn valued(
    alloc: Global,
    facets: &Facets<'_>,
    path: PathId,
    value: &FacetValue,
    all: &DocSet,
) -> Result<DocSet, NoMemory>
    ensures { IfOk result (λ docs.
        Selects facets.now (λ rows. some_value (is_same value.now) (leaves_under path.0 rows.leaves)) all.now.ids docs.ids) }
{
    facets.index.equal(alloc, path, value, all)
}

// The documents of a set that have a value equal to a text under a path: the number that it writes, or its normal form.
fn equal(
    alloc: Global,
    facets: &Facets<'_>,
    path: PathId,
    text: &Word,
    all: &DocSet,
) -> Result<DocSet, NoMemory>
    ensures { IfOk result (λ docs.
        Selects facets.now (λ rows. some_value (is_equal text.now) (leaves_under path.0 rows.leaves)) all.now.ids docs.ids) }
{
    let form = FacetValue::Text(normal(alloc, text.as_str())?);
    let docs = valued(alloc, facets, path, &form, all)?;
    match whole_number(text.as_str()) {
        Some(number) => {
            let more = valued(alloc, facets, path, &FacetValue::Number(number), all)?;
            either(alloc, &docs, &more, all)
        }
        None => Ok(docs),
    }
}

// The documents of a set that have a value equal to one of some texts under a path.
fn one_of(
    alloc: Global,
    facets: &Facets<'_>,
    path: PathId,
    texts: &[Word],
    all: &DocSet,
) -> Result<DocSet, NoMemory>
    ensures { IfOk result (λ docs. Selects facets.now
        (λ rows. list_any (λ text. some_value (is_equal text) (leaves_under path.0 rows.leaves)) texts.now)
        all.now.ids docs.ids) }
{
    operations_are_on_members();
    let mut found = DocSetBuilder::new(alloc, 0)?;
    let mut asked = BTreeSet::new(alloc);
    for text in texts {
        if asked.contains(text) {
            continue;
        }
        let docs = equal(alloc, facets, path, text, all)?;
        found.add(&docs)?;
        asked.insert(text.clone()?)?;
    }
    finish(alloc, found, all)
}
