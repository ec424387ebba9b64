ghost use Rattle.std.specs.Prelude.{◌≤◌, length, map, IfOk};
ghost use Rattle.filter_tree.specs.Tree.{trees_of};
ghost use Rattle.filter_tree.specs.View.{view};
ghost use Rattle.row_filter.specs.Holds.{holds, all_hold, one_holds};
ghost use Rattle.filter_sets.specs.Selects.{Selects};

use crate::conditions::{condition_of, each_met, one_met, path_named};
use crate::join::{except, finish};
use crate::source::Facets;
use crate::test::select_test;
use doc_sets::{DocSet, DocSetBuilder, operations_are_on_members};
use filter_tree::Filter;
use search_base::{NoMemory, Word};
use std::alloc::Global;

/// The documents of a set that pass a filter, under this registry of paths. A negation is the complement within that
/// set.
#[cycle(select)]
pub fn select(
    alloc: Global,
    facets: &Facets<'_>,
    tree: &Filter,
    paths: &[Word],
    all: &DocSet,
) -> Result<DocSet, NoMemory>
    requires { length paths.now ≤ 1000 }
    ensures { IfOk result (λ docs. Selects facets.now (λ rows. holds paths.now rows (view tree.now)) all.now.ids docs.ids) }
{
    match tree {
        Filter::All => Ok(all.clone()?),
        Filter::And(members) => select_each(alloc, facets, members, paths, all),
        Filter::Or(members) => select_any(alloc, facets, members, paths, all),
        Filter::Not(inner) => {
            let docs = select(alloc, facets, inner, paths, all)?;
            except(alloc, all, &docs)
        }
        Filter::Test { attribute, test } => {
            select_test(alloc, facets, path_named(paths, attribute), test, all)
        }
    }
}

// The documents of a set that pass each of some filters.
#[cycle(select)]
fn select_each(
    alloc: Global,
    facets: &Facets<'_>,
    members: &[Filter],
    paths: &[Word],
    all: &DocSet,
) -> Result<DocSet, NoMemory>
    requires { length paths.now ≤ 1000 }
    ensures { IfOk result (λ docs.
        Selects facets.now (λ rows. all_hold paths.now rows (trees_of (map view members.now))) all.now.ids docs.ids) }
{
    let mut docs = all.clone()?;
    let mut conditions = Vec::new(alloc);
    for member in members {
        if let Some(condition) = condition_of(member, paths) {
            conditions.push(condition)?;
            continue;
        }
        let fewer = select(alloc, facets, member, paths, &docs)?;
        docs = fewer;
    }
    each_met(alloc, facets, conditions, &docs)
}

// The documents of a set that pass one of some filters.
#[cycle(select)]
fn select_any(
    alloc: Global,
    facets: &Facets<'_>,
    members: &[Filter],
    paths: &[Word],
    all: &DocSet,
) -> Result<DocSet, NoMemory>
    requires { length paths.now ≤ 1000 }
    ensures { IfOk result (λ docs.
        Selects facets.now (λ rows. one_holds paths.now rows (trees_of (map view members.now))) all.now.ids docs.ids) }
{
    operations_are_on_members();
    let mut found = DocSetBuilder::new(alloc, 0)?;
    let mut conditions = Vec::new(alloc);
    for member in members {
        if let Some(condition) = condition_of(member, paths) {
            conditions.push(condition)?;
            continue;
        }
        let docs = select(alloc, facets, member, paths, all)?;
        found.add(&docs)?;
    }
    let meeting = one_met(alloc, facets, conditions, all)?;
    found.add(&meeting)?;
    finish(alloc, found, all)
}
