ghost use Rattle.std.specs.Prelude.{◌≡◌, ◌&&◌, nat_le, codes, Some};
ghost use Rattle.serde_json.specs.Events.{items_len};
ghost use Rattle.serde_json.specs.Find.{get, as_object};
ghost use Rattle.serde_json.specs.View.{view, members_view, items_view};
ghost use Rattle.filter_tree.specs.Tree as tree;
ghost use Rattle.filter_tree.specs.View.{view as tree_of};
ghost use Rattle.search_base.specs.Gives.{Gives, Checks};
ghost use Rattle.search_bodies.specs.Searches.{tried};
ghost use Rattle.search_bodies.specs.Multi.{uid_in, given_beside, query_from, queries_from, other_member, are_objects as objects_among, multi_from, multi_of};

use crate::json::read_json;
use crate::members::try_member;
use crate::search::search_in;
use doc_values::is_uid;
use filter_tree::Filter;
use request_refusals::Refusal;
use search_base::{Fault, Word};
use search_call::SearchCall;
use serde_json::{Map, Value};
use std::alloc::Global;
use std::marker::Model;

/// A body asks for at most so many searches.
const MAX_QUERIES: usize = 100;

/// One of several searches: the uid of the index that is searched, and what is searched for. Contracts see it as a
/// `MultiData`.
#[derive(Debug, Drop)]
pub struct MultiCall {
    pub uid: Word,
    pub call: SearchCall,
}

impl Model for MultiCall {
    ghost use Rattle.search_bodies.specs.MultiData.{MultiData};
    ghost use Rattle.std.specs.Coded.{codes};
    ghost use Rattle.search_call.specs.TreeCode.{tree_code};

    ghost Value = { MultiData };

    ghost coded = { Prim.hlevel (codes, tree_code) };

    ghost view = { λ multi. record {
      uid = multi.uid;
      call = multi.call;
    } };
}

/// The searches that a body asks for, in order. Refused is a body that is no list of at most 100 queries, and then the
/// first query with a fault. The one other error is want of memory.
pub fn read_multi(alloc: Global, body: &[u8]) -> Result<Vec<MultiCall>, Fault<Refusal>>
    ensures { Gives (λ calls. calls.items) result (multi_of body.now) }
{
    let value = read_json(alloc, body)?;
    multi_calls(alloc, &value)
}

fn multi_calls(alloc: Global, value: &Value) -> Result<Vec<MultiCall>, Fault<Refusal>>
    ensures { Gives (λ calls. calls.items) result (multi_from (view value.now)) }
{
    match value {
        Value::Object(members) => try_names(alloc, members)?,
        _ => {
            return Err(Fault::Refused(Refusal::Unknown {
                name: Word::new(alloc, "body")?,
            }));
        }
    }
    match value.get("queries") {
        Some(Value::Array(items)) if are_queries(items) => read_queries(alloc, items),
        _ => Err(Fault::Refused(Refusal::BadQueries)),
    }
}

// The body has no other member than `queries`.
fn try_names(alloc: Global, members: &Map<String, Value>) -> Result<(), Fault<Refusal>>
    ensures { Checks result (other_member (members_view members.now.entries)) }
{
    for (name, _) in members.iter() {
        if name.as_str() != "queries" {
            return Err(Fault::Refused(Refusal::Unknown {
                name: Word::new(alloc, name.as_str())?,
            }));
        }
    }
    Ok(())
}

// At most 100 objects.
#[tactic(auto, using(crate::proofs::Lengths::items_len_of_view))]
fn are_queries(items: &[Value]) -> bool
    ensures { result ≡ (nat_le (items_len (items_view items.now)) 100 && objects_among (items_view items.now)) }
{
    items.len() <= MAX_QUERIES && are_objects(items)
}

fn are_objects(items: &[Value]) -> bool
    ensures { result ≡ objects_among (items_view items.now) }
{
    for item in items {
        if !item.is_object() {
            return false;
        }
    }
    true
}

fn read_queries(alloc: Global, queries: &[Value]) -> Result<Vec<MultiCall>, Fault<Refusal>>
    ensures { Gives (λ calls. calls.items) result (queries_from 1 (items_view queries.now)) }
{
    let mut calls = Vec::new(alloc);
    for before in 0..queries.len() {
        calls.push(read_query(alloc, before as u64 + 1, &queries[before])?)?;
    }
    Ok(calls)
}

// The search that the query of this number asks for, from 1.
fn read_query(alloc: Global, place: u64, query: &Value) -> Result<MultiCall, Fault<Refusal>>
    ensures { Gives (λ call. call) result (query_from place (view query.now)) }
{
    let uid = query_uid(alloc, place, query)?;
    let filter = try_query(alloc, query)?;
    let call = search_in(alloc, filter, query)?;
    Ok(MultiCall { uid, call })
}

fn query_uid(alloc: Global, place: u64, query: &Value) -> Result<Word, Fault<Refusal>>
    ensures { Gives (λ uid. uid) result (uid_in place (get (codes "indexUid") (view query.now))) }
{
    match query.get("indexUid") {
        None => Err(Fault::Refused(Refusal::MissingQueryUid { query: place })),
        Some(Value::String(text)) if is_uid(text.as_str()) => Ok(Word::new(alloc, text.as_str())?),
        Some(_) => Err(Fault::Refused(Refusal::InvalidUid)),
    }
}

// Tries the members of a query but its uid, and gives the filter among them.
fn try_query(alloc: Global, query: &Value) -> Result<Filter, Fault<Refusal>>
    ensures { Gives tree_of result (tried (given_beside (as_object (view query.now))) tree.all) }
{
    match query {
        Value::Object(members) => try_beside(alloc, members),
        _ => Ok(Filter::All),
    }
}

fn try_beside(alloc: Global, members: &Map<String, Value>) -> Result<Filter, Fault<Refusal>>
    ensures { Gives tree_of result (tried (given_beside (Some (members_view members.now.entries))) tree.all) }
{
    let mut filter = Filter::All;
    for (name, value) in members.iter() {
        if name.as_str() != "indexUid" {
            filter = try_member(alloc, filter, name.as_str(), value)?;
        }
    }
    Ok(filter)
}
