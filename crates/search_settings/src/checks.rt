// Whether the settings let a search sort, filter and count as it does, and a search of values filter and count so.
ghost use Rattle.std.specs.Prelude.{◌≡◌};
ghost use Rattle.std.specs.Option.{option_copied, option_map};
ghost use Rattle.search_base.specs.Gives.{Checks};
ghost use Rattle.filter_tree.specs.View.{view as tree_of};
ghost use Rattle.search_settings.specs.declared.refusal.SearchRefusal.TheVariants.{NotFacet};
ghost use Rattle.search_settings.specs.SearchFaults.{search_fault, facet_search_fault, name_fault, sort_fault as fault_of_sort, filter_fault, facet_fault, first_uncovered as first_uncovered_of, first_unsortable as first_unsortable_of, first_uncountable as first_uncountable_of, have_sort as has_rule_sort};

use crate::refusal::{SearchFault, SearchRefusal};
use filter_tree::Filter;
use index_settings::{Settings, is_covered};
use row_filter::attributes;
use search_base::{Fault, Word};
use search_call::{Criterion, FacetCall, SearchCall};
use std::alloc::Global;

/// Tries the criteria of a search, then the attributes of its filter, and then those that it counts.
pub fn check_search(
    alloc: Global,
    settings: &Settings,
    call: &SearchCall,
) -> Result<(), SearchFault>
    ensures { Checks result (search_fault settings.now call.now) }
{
    check_sort(settings, &call.sort)?;
    check_filter(alloc, settings, &call.filter)?;
    check_facets(settings, call)
}

/// Tries the attributes of the filter of a search of values, and then the attribute whose values are searched.
pub fn check_facet_search(
    alloc: Global,
    settings: &Settings,
    call: &FacetCall,
) -> Result<(), SearchFault>
    ensures { Checks result (facet_search_fault settings.now call.now) }
{
    check_filter(alloc, settings, &call.filter)?;
    check_name(settings, &call.name)
}

fn check_sort(settings: &Settings, sort: &[Criterion]) -> Result<(), SearchFault>
    ensures { Checks result (fault_of_sort settings.now sort.now) }
{
    if sort.is_empty() {
        return Ok(());
    }
    if !has_sort(settings) {
        return Err(Fault::Refused(SearchRefusal::NoSortRule));
    }
    match first_unsortable(settings.sortable_attributes(), sort) {
        Some(criterion) => Err(Fault::Refused(SearchRefusal::NotSortable {
            attribute: criterion.attribute.clone()?,
        })),
        None => Ok(()),
    }
}

// Whether the ranking rules have the rule `sort`.
fn has_sort(settings: &Settings) -> bool
    ensures { result ≡ has_rule_sort settings.now }
{
    settings
        .ranking_rules()
        .iter()
        .any(|rule| rule.as_str() == "sort")
}

// The first criterion whose attribute no entry covers.
fn first_unsortable<'a>(entries: &[Word], sort: &'a [Criterion]) -> Option<&'a Criterion>
    ensures { option_copied result ≡ first_unsortable_of entries.now sort.now }
{
    sort.iter().find(|criterion| !is_covered(entries, criterion.attribute.as_str()))
}

fn check_filter(alloc: Global, settings: &Settings, filter: &Filter) -> Result<(), SearchFault>
    ensures { Checks result (filter_fault settings.now (tree_of filter.now)) }
{
    let names = attributes(alloc, filter)?;
    match first_uncovered(settings.filterable_attributes(), &names) {
        Some(name) => Err(Fault::Refused(SearchRefusal::NotFilterable {
            attribute: name.clone()?,
        })),
        None => Ok(()),
    }
}

// The first of the names that no entry covers.
fn first_uncovered<'a>(entries: &[Word], names: &'a [Word]) -> Option<&'a Word>
    ensures { option_copied result ≡ first_uncovered_of entries.now names.now }
{
    names
        .iter()
        .find(|name| !is_covered(entries, name.as_str()))
}

fn check_facets(settings: &Settings, call: &SearchCall) -> Result<(), SearchFault>
    ensures { Checks result (facet_fault settings.now call.now.facets) }
{
    match &call.facets {
        Some(names) => check_names(settings.filterable_attributes(), names),
        None => Ok(()),
    }
}

fn check_names(entries: &[Word], names: &[Word]) -> Result<(), SearchFault>
    ensures { Checks result (option_map NotFacet (first_uncountable_of entries.now names.now)) }
{
    match first_uncountable(entries, names) {
        Some(name) => Err(Fault::Refused(SearchRefusal::NotFacet {
            attribute: name.clone()?,
        })),
        None => Ok(()),
    }
}

fn check_name(settings: &Settings, name: &Word) -> Result<(), SearchFault>
    ensures { Checks result (name_fault settings.now name.now) }
{
    if is_covered(settings.filterable_attributes(), name.as_str()) {
        return Ok(());
    }
    Err(Fault::Refused(SearchRefusal::NotFacet {
        attribute: name.clone()?,
    }))
}

// The first of the names that is not `*` and that no entry covers.
fn first_uncountable<'a>(entries: &[Word], names: &'a [Word]) -> Option<&'a Word>
    ensures { option_copied result ≡ first_uncountable_of entries.now names.now }
{
    names.iter().find(|name| name.as_str() != "*" && !is_covered(entries, name.as_str()))
}
