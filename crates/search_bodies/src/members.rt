ghost use Rattle.std.specs.Prelude.{◌≡◌};
ghost use Rattle.serde_json.specs.View.{view, members_view};
ghost use Rattle.filter_tree.specs.Tree as tree;
ghost use Rattle.filter_tree.specs.View.{view as tree_of};
ghost use Rattle.search_base.specs.Gives.{Gives};
ghost use Rattle.request_refusals.specs.Members.{row_of};
ghost use Rattle.search_bodies.specs.Searches.{filter_refusal as refusal_of_filter, filter_in, kept_if as kept_as, value_tried, member_tried, tried, given_by};

use crate::values::{names_in, sort_in, strategy_in};
use filter_expr::FilterRefusal;
use filter_tree::Filter;
use request_refusals::{Refusal, SearchMember, Shape, member_named};
use search_base::{Fault, Word};
use serde_json::{Map, Value};
use std::alloc::Global;

/// Tries the members of an object in the byte order of their names, and gives the filter among them: it lets all pass
/// where there is none. Refused is the first name that no member has (`Unknown`), or value that is no value of its
/// member. The one other error is want of memory.
pub(crate) fn try_members(
    alloc: Global,
    members: &Map<String, Value>,
) -> Result<Filter, Fault<Refusal>>
    ensures { Gives tree_of result (tried (given_by (members_view members.now.entries)) tree.all) }
{
    let mut filter = Filter::All;
    for (name, value) in members.iter() {
        filter = try_member(alloc, filter, name.as_str(), value)?;
    }
    Ok(filter)
}

/// Tries a member with its value, after those that gave this filter.
pub(crate) fn try_member(
    alloc: Global,
    filter: Filter,
    name: &str,
    value: &Value,
) -> Result<Filter, Fault<Refusal>>
    ensures { Gives tree_of result (member_tried (name.now, view value.now) (tree_of filter)) }
{
    match member_named(name) {
        Some(member) => try_value(alloc, filter, member, value),
        None => Err(Fault::Refused(Refusal::Unknown {
            name: Word::new(alloc, name)?,
        })),
    }
}

fn try_value(
    alloc: Global,
    filter: Filter,
    member: SearchMember,
    value: &Value,
) -> Result<Filter, Fault<Refusal>>
    ensures { Gives tree_of result
        (value_tried (row_of member).shape member (view value.now) (tree_of filter)) }
{
    match member.row().shape {
        Shape::Text => kept_if(value.is_string(), filter, member, value),
        Shape::Count => kept_if(value.is_u64(), filter, member, value),
        Shape::Flag => kept_if(value.is_boolean(), filter, member, value),
        Shape::Names => kept_if(names_in(alloc, value)?.is_some(), filter, member, value),
        Shape::Criteria => kept_if(sort_in(alloc, value)?.is_some(), filter, member, value),
        Shape::Strategy => kept_if(strategy_in(value).is_some(), filter, member, value),
        Shape::Filter => filter_of(alloc, value),
    }
}

// The filter stays what it is, where the member has this value or null.
fn kept_if(
    fits: bool,
    filter: Filter,
    member: SearchMember,
    value: &Value,
) -> Result<Filter, Fault<Refusal>>
    ensures { Gives tree_of result (kept_as fits member (view value.now) (tree_of filter)) }
{
    if fits || value.is_null() {
        Ok(filter)
    } else {
        Err(Fault::Refused(Refusal::InvalidSearch { member }))
    }
}

// What a hit must pass: by null nothing.
fn filter_of(alloc: Global, value: &Value) -> Result<Filter, Fault<Refusal>>
    ensures { Gives tree_of result (filter_in (view value.now)) }
{
    match filter_expr::parse(alloc, value) {
        Ok(filter) => Ok(filter),
        Err(Fault::Refused(refusal)) => Err(Fault::Refused(filter_refusal(refusal))),
        Err(Fault::NoMemory) => Err(Fault::NoMemory),
    }
}

/// Why a request is refused, by its filter.
fn filter_refusal(refusal: FilterRefusal) -> Refusal
    ensures { result ≡ refusal_of_filter refusal }
{
    match refusal {
        FilterRefusal::NotText => Refusal::InvalidSearch {
            member: SearchMember::Filter,
        },
        FilterRefusal::Syntax { text, place } => Refusal::FilterSyntax { text, place },
        FilterRefusal::TooDeep { text, place } => Refusal::FilterTooDeep { text, place },
        FilterRefusal::NotANumber { value } => Refusal::FilterNotANumber { value },
    }
}
