ghost use Rattle.std.specs.Prelude.{◌≡◌, IfOk, map, unwrap_or};
ghost use Rattle.serde_json.specs.Data.{string, put as put_member};
ghost use Rattle.serde_json.specs.View.{view, members_view};
ghost use Rattle.filter_tree.specs.View.{view as tree_of};
ghost use Rattle.search_base.specs.Gives.{Gives};
ghost use Rattle.request_refusals.specs.Members.{member_named as member_by_name};
ghost use Rattle.request_refusals.specs.declared.member.SearchMember.TheVariants.{AttributesToRetrieve};
ghost use Rattle.request_routes.specs.Held.{pair_of};
ghost use Rattle.request_routes.specs.Query.{number_of as number_in};
ghost use Rattle.search_bodies.specs.Values.{said, names_in};
ghost use Rattle.search_bodies.specs.Searches.{object_in, all_names as all_names_list, window_of, window_in as window_by, search_in as search_with, search_from, search_of, search_by, written as written_in, written_as as written_by, list_written, flag_or_text, number_or_text};

use crate::formats::formats_in;
use crate::json::read_json;
use crate::members::{try_member, try_members};
use crate::values::{count_at, flag_at, names_at, sort_at, strategy_at, text_at, text_or};
use filter_tree::Filter;
use request_refusals::{Refusal, SearchMember, Shape, member_named};
use request_routes::{Pair, number_of, texts_of};
use search_base::{Fault, NoMemory, Word};
use search_call::{SearchCall, Window};
use serde_json::{Map, Value};
use std::alloc::Global;

/// The search that a body asks for; an empty body counts as an object with no members. Refused is what is no JSON
/// (`NotJson`) or no object, and then the first member in byte order that no search has, or whose value is none of its
/// values. The one other error is want of memory.
pub fn read_search(alloc: Global, body: &[u8]) -> Result<SearchCall, Fault<Refusal>>
    ensures { Gives (λ call. call) result (search_of body.now) }
{
    let value = read_object(alloc, body)?;
    search_call(alloc, &value)
}

// An empty body counts as an object with no members.
fn read_object(alloc: Global, body: &[u8]) -> Result<Value, Fault<Refusal>>
    ensures { Gives view result (object_in body.now) }
{
    if body.is_empty() {
        return Ok(Value::Object(Map::new(alloc)));
    }
    read_json(alloc, body)
}

fn search_call(alloc: Global, value: &Value) -> Result<SearchCall, Fault<Refusal>>
    ensures { Gives (λ call. call) result (search_from (view value.now)) }
{
    match value {
        Value::Object(members) => {
            let filter = try_members(alloc, members)?;
            Ok(search_in(alloc, filter, value)?)
        }
        _ => Err(Fault::Refused(Refusal::Unknown {
            name: Word::new(alloc, "body")?,
        })),
    }
}

/// The search that the pairs of a query string ask for. Refused is the first pair that no search has, or whose value is
/// none of its values. The one other error is want of memory.
pub fn search_by_pairs(alloc: Global, pairs: &[Pair]) -> Result<SearchCall, Fault<Refusal>>
    ensures { Gives (λ call. call) result (search_by (map pair_of pairs.now)) }
{
    let mut members = Map::new(alloc);
    let mut filter = Filter::All;
    for pair in pairs {
        let value = written(alloc, pair.name.as_str(), pair.value.as_str())?;
        filter = try_member(alloc, filter, pair.name.as_str(), &value)?;
        put(alloc, &mut members, pair.name.as_str(), value)?;
    }
    Ok(search_in(alloc, filter, &Value::Object(members))?)
}

fn put(
    alloc: Global,
    members: &mut Map<String, Value>,
    name: &str,
    value: Value,
) -> Result<(), NoMemory>
    ensures { IfOk result (λ u.
        members_view members.new.entries ≡ put_member name.now (view value) (members_view members.old.entries)) }
{
    let name = String::from_str(alloc, name)?;
    drop(members.insert(name, value)?);
    Ok(())
}

/// The search that the members of an object ask for, with its filter. Each has its default until it is given.
pub(crate) fn search_in(
    alloc: Global,
    filter: Filter,
    object: &Value,
) -> Result<SearchCall, NoMemory>
    ensures { IfOk result (λ call. call ≡ search_with (tree_of filter) (view object.now)) }
{
    Ok(SearchCall {
        q: text_or(alloc, object, SearchMember::Query, "")?,
        window: window_in(object),
        filter,
        facets: names_at(alloc, object, SearchMember::Facets)?,
        sort: sort_at(alloc, object)?,
        strategy: strategy_at(object),
        costs: flag_at(object, SearchMember::ShowCosts),
        retrieve: retrieved(alloc, object)?,
        formats: formats_in(alloc, object)?,
        distinct: text_at(alloc, object, SearchMember::Distinct)?,
    })
}

fn window_in(object: &Value) -> Window
    ensures { result ≡ window_by (view object.now) }
{
    let slice = Window::Slice {
        offset: count_at(object, SearchMember::Offset).unwrap_or(0),
        limit: count_at(object, SearchMember::Limit).unwrap_or(20),
    };
    let page = count_at(object, SearchMember::Page);
    window(page, count_at(object, SearchMember::HitsPerPage), slice)
}

// A page, where its number or its size is given, or else the slice.
fn window(page: Option<u64>, per: Option<u64>, slice: Window) -> Window
    ensures { result ≡ window_of page per slice }
{
    match (page, per) {
        (None, None) => slice,
        (page, per) => Window::Page {
            page: page.unwrap_or(1),
            per: per.unwrap_or(20),
        },
    }
}

// The names of the members that hits show.
fn retrieved(alloc: Global, object: &Value) -> Result<Vec<Word>, NoMemory>
    ensures { IfOk result (λ names.
        names.items ≡ unwrap_or (said names_in AttributesToRetrieve (view object.now)) all_names_list) }
{
    match names_at(alloc, object, SearchMember::AttributesToRetrieve)? {
        Some(names) => Ok(names),
        None => all_names(alloc),
    }
}

// `*`, which stands for all names.
fn all_names(alloc: Global) -> Result<Vec<Word>, NoMemory>
    ensures { IfOk result (λ names. names.items ≡ all_names_list) }
{
    let mut names = Vec::new(alloc);
    names.push(Word::new(alloc, "*")?)?;
    Ok(names)
}

// What the text of a name stands for.
fn written(alloc: Global, name: &str, text: &str) -> Result<Value, NoMemory>
    ensures { IfOk result (λ value. view value ≡ written_in (member_by_name name.now) text.now) }
{
    match member_named(name) {
        Some(member) => written_as(alloc, member.row().shape, text),
        None => text_value(alloc, text),
    }
}

fn written_as(alloc: Global, shape: Shape, text: &str) -> Result<Value, NoMemory>
    ensures { IfOk result (λ value. view value ≡ written_by shape text.now) }
{
    match shape {
        Shape::Count => number_value(alloc, text),
        Shape::Flag => flag_value(alloc, text),
        Shape::Names | Shape::Criteria => list_value(alloc, text),
        Shape::Text | Shape::Strategy | Shape::Filter => text_value(alloc, text),
    }
}

fn text_value(alloc: Global, text: &str) -> Result<Value, NoMemory>
    ensures { IfOk result (λ value. view value ≡ string text.now) }
{
    Ok(Value::String(String::from_str(alloc, text)?))
}

// A number where the text writes one, and else the text.
fn number_value(alloc: Global, text: &str) -> Result<Value, NoMemory>
    ensures { IfOk result (λ value. view value ≡ number_or_text text.now (number_in text.now)) }
{
    match number_of(text) {
        Some(number) => Ok(Value::from(number)),
        None => text_value(alloc, text),
    }
}

// A truth value where the text writes one, and else the text.
fn flag_value(alloc: Global, text: &str) -> Result<Value, NoMemory>
    ensures { IfOk result (λ value. view value ≡ flag_or_text text.now) }
{
    match text {
        "true" => Ok(Value::Bool(true)),
        "false" => Ok(Value::Bool(false)),
        _ => text_value(alloc, text),
    }
}

fn list_value(alloc: Global, text: &str) -> Result<Value, NoMemory>
    ensures { IfOk result (λ value. view value ≡ list_written text.now) }
{
    let mut items = Vec::new(alloc);
    for item in texts_of(alloc, text)? {
        items.push(text_value(alloc, item.as_str())?)?;
    }
    Ok(Value::Array(items))
}
