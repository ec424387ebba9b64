ghost use Rattle.std.specs.Prelude.{◌≡◌, ◌≤◌, ◌<◌, true, List, length, IsTrue, IfOk, IfSome, IsSomeAnd};
ghost use Rattle.std.specs.List.{list_all, list_any};
ghost use Rattle.std.specs.Option.{option_map};
ghost use Rattle.search_base.specs.RowsView.{RowsView};
ghost use Rattle.search_base.specs.declared.document.Leaf.{Leaf};
ghost use Rattle.search_base.specs.declared.document.Mark.{Mark};
ghost use Rattle.filter_tree.specs.View.{view, test_view};
ghost use Rattle.row_filter.specs.Holds.{holds, meets, number_named as number_named_in};
ghost use Rattle.filter_sets.specs.Selects.{Selects};
ghost use Rattle.filter_sets.specs.Conditions.{is_met, Implies};

use crate::join::finish;
use crate::source::Facets;
use crate::test::select_at;
use doc_sets::{DocSet, DocSetBuilder, operations_are_on_members};
use filter_tree::{Filter, Test};
use search_base::{NoMemory, PathId, Word};
use std::alloc::Global;
use std::cmp::Ordering;

/// A test of the values under a path.
#[derive(Clone, Copy)]
pub(crate) struct Condition<'a> {
    pub(crate) path: PathId,
    pub(crate) test: &'a Test,
}

/// The condition that a filter is, where it is a test of a path that the registry has.
pub(crate) fn condition_of<'a>(filter: &'a Filter, paths: &[Word]) -> Option<Condition<'a>>
    requires { length paths.now ≤ 1000 }
    ensures { IfSome result (λ condition. (rows : RowsView)
        → holds paths.now rows (view filter.now) ≡ is_met rows condition) }
{
    match filter {
        Filter::Test { attribute, test } => match path_named(paths, attribute) {
            Some(path) => Some(Condition { path, test }),
            None => None,
        },
        _ => None,
    }
}

/// The path of this name in a registry, where it has one.
pub(crate) fn path_named(paths: &[Word], name: &Word) -> Option<PathId>
    requires { length paths.now ≤ 1000 }
    ensures { option_map (λ path. path.0) result ≡ number_named_in paths.now name.now }
{
    match number_named(paths, name) {
        Some(number) => Some(PathId(number as u16)),
        None => None,
    }
}

fn number_named(paths: &[Word], name: &Word) -> Option<usize>
    ensures number { result ≡ number_named_in paths.now name.now }
    ensures within { IfSome result (λ number. number < length paths.now) }
{
    paths.iter().position(|path| path.as_str() == name.as_str())
}

/// The documents of a set that meet each of some conditions. They are sorted, so that a condition that another one
/// implies stands behind it and is not asked.
pub(crate) fn each_met(
    alloc: Global,
    facets: &Facets<'_>,
    mut conditions: Vec<Condition<'_>>,
    all: &DocSet,
) -> Result<DocSet, NoMemory>
    ensures { IfOk result (λ docs.
        Selects facets.now (λ rows. list_all (is_met rows) conditions.entry.items) all.now.ids docs.ids) }
{
    conditions.sort_by(|a, b| strongest_first(a, b))?;
    narrowed(alloc, facets, conditions.as_slice(), all)
}

// The same, in the order of the conditions. One that the last that was asked implies is not asked.
fn narrowed(
    alloc: Global,
    facets: &Facets<'_>,
    conditions: &[Condition<'_>],
    all: &DocSet,
) -> Result<DocSet, NoMemory>
    ensures { IfOk result (λ docs.
        Selects facets.now (λ rows. list_all (is_met rows) conditions.now) all.now.ids docs.ids) }
{
    let mut docs = all.clone()?;
    let mut last = None;
    for condition in conditions {
        if is_implied_by(condition, last) {
            continue;
        }
        let fewer = met(alloc, facets, condition, &docs)?;
        docs = fewer;
        last = Some(*condition);
    }
    Ok(docs)
}

/// The documents of a set that meet one of some conditions. They are sorted, so that a condition that implies another
/// one stands behind it and is not asked.
pub(crate) fn one_met(
    alloc: Global,
    facets: &Facets<'_>,
    mut conditions: Vec<Condition<'_>>,
    all: &DocSet,
) -> Result<DocSet, NoMemory>
    ensures { IfOk result (λ docs.
        Selects facets.now (λ rows. list_any (is_met rows) conditions.entry.items) all.now.ids docs.ids) }
{
    conditions.sort_by(|a, b| strongest_first(b, a))?;
    joined(alloc, facets, conditions.as_slice(), all)
}

// The same, in the order of the conditions. One that implies the last that was asked is not asked.
fn joined(
    alloc: Global,
    facets: &Facets<'_>,
    conditions: &[Condition<'_>],
    all: &DocSet,
) -> Result<DocSet, NoMemory>
    ensures { IfOk result (λ docs.
        Selects facets.now (λ rows. list_any (is_met rows) conditions.now) all.now.ids docs.ids) }
{
    operations_are_on_members();
    let mut found = DocSetBuilder::new(alloc, 0)?;
    let mut last = None;
    for condition in conditions {
        if implies_last(condition, last) {
            continue;
        }
        let docs = met(alloc, facets, condition, all)?;
        found.add(&docs)?;
        last = Some(*condition);
    }
    finish(alloc, found, all)
}

// The documents of a set that meet a condition.
fn met(
    alloc: Global,
    facets: &Facets<'_>,
    condition: &Condition<'_>,
    all: &DocSet,
) -> Result<DocSet, NoMemory>
    ensures { IfOk result (λ docs. Selects facets.now (λ rows. is_met rows condition.now) all.now.ids docs.ids) }
{
    select_at(alloc, facets, condition.path, condition.test, all)
}

// Where true, what meets the last condition, which there is, meets the condition.
fn is_implied_by(condition: &Condition<'_>, last: Option<Condition<'_>>) -> bool
    ensures { IsTrue result → IsSomeAnd last.entry (λ other. Implies other condition.now) }
{
    match last {
        Some(other) => implies(&other, condition),
        None => false,
    }
}

// Where true, what meets the condition meets the last one, which there is.
fn implies_last(condition: &Condition<'_>, last: Option<Condition<'_>>) -> bool
    ensures { IsTrue result → IsSomeAnd last.entry (λ other. Implies condition.now other) }
{
    match last {
        Some(other) => implies(condition, &other),
        None => false,
    }
}

// Where true, what meets the one condition meets the other.
fn implies(condition: &Condition<'_>, other: &Condition<'_>) -> bool
    ensures { IsTrue result → Implies condition.now other.now }
{
    condition.path == other.path && test_implies(condition.test, other.test)
}

// Where true, leaves and marks that meet the one test meet the other.
fn test_implies(test: &Test, other: &Test) -> bool
    ensures { IsTrue result → (leaves : List Leaf) (marks : List Mark)
        → meets (test_view test.now) leaves marks ≡ true → meets (test_view other.now) leaves marks ≡ true }
{
    match (test, other) {
        (Test::Equal(text), Test::Equal(same)) => text.as_str() == same.as_str(),
        (Test::Above(n), Test::Above(m)) => m <= n,
        (Test::AtLeast(n), Test::AtLeast(m)) => m <= n,
        (Test::Below(n), Test::Below(m)) => n <= m,
        (Test::AtMost(n), Test::AtMost(m)) => n <= m,
        (Test::Between(low, high), Test::Between(lower, higher)) => lower <= low && high <= higher,
        (Test::Exists, Test::Exists) => true,
        (Test::Null, Test::Null) => true,
        (Test::Empty, Test::Empty) => true,
        _ => false,
    }
}

// An order in which the conditions of one kind and path stand in a row, those first that others follow from, and ranges
// behind what a list answers. It decides which conditions are asked and not what is found.
fn strongest_first(condition: &Condition<'_>, other: &Condition<'_>) -> Ordering {
    let (kind, next) = (kind_of(condition.test), kind_of(other.test));
    match kind.cmp(&next).then(condition.path.cmp(&other.path)) {
        Ordering::Equal => stronger_first(condition.test, other.test),
        order => order,
    }
}

// The same of two tests of one kind.
fn stronger_first(test: &Test, other: &Test) -> Ordering {
    match (test, other) {
        (Test::Equal(text), Test::Equal(next)) => text.cmp(next),
        (Test::Above(n), Test::Above(m)) => m.cmp(n),
        (Test::AtLeast(n), Test::AtLeast(m)) => m.cmp(n),
        (Test::Below(n), Test::Below(m)) => n.cmp(m),
        (Test::AtMost(n), Test::AtMost(m)) => n.cmp(m),
        (Test::Between(low, high), Test::Between(lower, higher)) => {
            lower.cmp(low).then(high.cmp(higher))
        }
        _ => Ordering::Equal,
    }
}

// A number for each kind of test, the least for those that one list answers.
fn kind_of(test: &Test) -> u8 {
    match test {
        Test::Equal(_) => 0,
        Test::Null => 1,
        Test::Empty => 2,
        Test::Exists => 3,
        Test::OneOf(_) => 4,
        Test::Above(_) => 5,
        Test::AtLeast(_) => 6,
        Test::Below(_) => 7,
        Test::AtMost(_) => 8,
        Test::Between(_, _) => 9,
    }
}
