ghost use Rattle.std.specs.Prelude.{◌≡◌, IfOk};
ghost use Rattle.serde_json.specs.View.{view, members_view};
ghost use Rattle.filter_tree.specs.Tree as tree;
ghost use Rattle.filter_tree.specs.View.{view as tree_of};
ghost use Rattle.search_base.specs.Gives.{Gives};
ghost use Rattle.search_bodies.specs.Searches.{given_by};
ghost use Rattle.search_bodies.specs.FacetSearches.{shared_tried, facet_member_tried, facet_tried, facet_call as facet_call_with, facets_from, facets_of};

use crate::json::{read_json, text_at};
use crate::members::try_member;
use crate::values::{strategy_at, text_or};
use filter_tree::Filter;
use request_refusals::{Refusal, SearchMember, member_named};
use search_base::{Fault, NoMemory, Word};
use search_call::FacetCall;
use serde_json::{Map, Value};
use std::alloc::Global;

/// The facet search that a body asks for. Refused is what is no JSON (`NotJson`) or no object, then the first member in
/// byte order that is unknown or has no value of its own, and then a body that names no facet. The one other error is
/// want of memory.
pub fn read_facets(alloc: Global, body: &[u8]) -> Result<FacetCall, Fault<Refusal>>
    ensures { Gives (λ call. call) result (facets_of body.now) }
{
    let value = read_json(alloc, body)?;
    facet_search(alloc, &value)
}

fn facet_search(alloc: Global, value: &Value) -> Result<FacetCall, Fault<Refusal>>
    ensures { Gives (λ call. call) result (facets_from (view value.now)) }
{
    let filter = match value {
        Value::Object(members) => try_facet_members(alloc, members)?,
        _ => {
            return Err(Fault::Refused(Refusal::Unknown {
                name: Word::new(alloc, "body")?,
            }));
        }
    };
    match text_at(alloc, value, "facetName")? {
        Some(name) => Ok(facet_call(alloc, name, filter, value)?),
        None => Err(Fault::Refused(Refusal::MissingFacetName)),
    }
}

// Tries the members in the byte order of their names, and gives the filter among them.
fn try_facet_members(alloc: Global, members: &Map<String, Value>) -> Result<Filter, Fault<Refusal>>
    ensures { Gives tree_of result (facet_tried (given_by (members_view members.now.entries)) tree.all) }
{
    let mut filter = Filter::All;
    for (name, value) in members.iter() {
        filter = try_facet_member(alloc, filter, name.as_str(), value)?;
    }
    Ok(filter)
}

fn try_facet_member(
    alloc: Global,
    filter: Filter,
    name: &str,
    value: &Value,
) -> Result<Filter, Fault<Refusal>>
    ensures { Gives tree_of result (facet_member_tried (name.now, view value.now) (tree_of filter)) }
{
    match name {
        "facetName" if value.is_string() => Ok(filter),
        "facetName" => Err(Fault::Refused(Refusal::InvalidFacetName)),
        "facetQuery" if value.is_string() || value.is_null() => Ok(filter),
        "facetQuery" => Err(Fault::Refused(Refusal::InvalidFacetQuery)),
        _ => try_shared(alloc, filter, name, value),
    }
}

// Tries a member that a search has too.
fn try_shared(
    alloc: Global,
    filter: Filter,
    name: &str,
    value: &Value,
) -> Result<Filter, Fault<Refusal>>
    ensures { Gives tree_of result (shared_tried (name.now, view value.now) (tree_of filter)) }
{
    match member_named(name) {
        Some(SearchMember::Query | SearchMember::Filter | SearchMember::MatchingStrategy) => {
            try_member(alloc, filter, name, value)
        }
        _ => Err(Fault::Refused(Refusal::Unknown {
            name: Word::new(alloc, name)?,
        })),
    }
}

// The facet search that the members of an object ask for, with its name and its filter.
fn facet_call(
    alloc: Global,
    name: Word,
    filter: Filter,
    object: &Value,
) -> Result<FacetCall, NoMemory>
    ensures { IfOk result (λ call. call ≡ facet_call_with name (tree_of filter) (view object.now)) }
{
    Ok(FacetCall {
        name,
        query: text_at(alloc, object, "facetQuery")?,
        q: text_or(alloc, object, SearchMember::Query, "")?,
        filter,
        strategy: strategy_at(object),
    })
}
