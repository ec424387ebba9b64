// Where the matched words of a hit stand.
ghost use Rattle.std.specs.Prelude.{◌≡◌, ◌+◌, ◌++◌, ◌∷◌, IfOk, OnOk, length, map, string_bytes, false};
ghost use Rattle.json.specs.Print.{quoted};
ghost use Rattle.serde_json.specs.Data.{Members};
ghost use Rattle.serde_json.specs.View.{view, items_view, members_view};
ghost use Rattle.serde_json.specs.Written.{compact_text, members_text};
ghost use Rattle.hit_format.specs.Matched.{matched};
ghost use Rattle.search_replies.specs.Added.{members_of};
ghost use Rattle.search_replies.specs.Positions.{place_data, place_of as place_of_span, places_data, places_from, places_in, positions_data, texts_in, texts_in_items, texts_in_members, with_places};

use crate::marks::Marks;
use crate::own::Own;
use crate::text::{put_comma, put_name};
use hit_format::{Span, TermSet};
use search_base::NoMemory;
use serde_json::{Map, Value};
use std::alloc::Global;

/// Where a matched word stands in a member: its bytes, and the number of its text among the texts of the member.
#[derive(Clone, Copy)]
pub(crate) struct Place {
    length: u64,
    start: u64,
    text: u64,
}

// The places so far, and how many texts there were.
#[derive(Drop)]
struct Places {
    places: Vec<Place>,
    texts: u64,
}

/// Puts the object that says where matched words stand in the members that a hit has from its document.
pub(crate) fn put_positions(
    alloc: Global,
    text: &mut String,
    own: &Own,
    marks: &Marks,
) -> Result<(), NoMemory>
    ensures { OnOk result (string_bytes text.new ≡ string_bytes text.old
        ++ compact_text (positions_data marks.now.terms
        (members_of own.now))) }
{
    text.push_str("{")?;
    let mut later = false;
    for (name, value) in own.members.iter() {
        if own.has(name.as_str()) {
            let places = places_in(alloc, marks.terms(), value)?;
            later = put_if_any(alloc, text, later, name.as_str(), places.as_slice())?;
        }
    }
    text.push_str("}")?;
    Ok(())
}

// Puts a member with its places, where it has one. Says whether something stands before what comes next.
fn put_if_any(
    alloc: Global,
    text: &mut String,
    later: bool,
    name: &str,
    places: &[Place],
) -> Result<bool, NoMemory>
    ensures { IfOk result (λ after. (rest : Members) → string_bytes text.new ++ members_text after rest
        ≡ string_bytes text.old ++ members_text later (with_places name.now places.now rest)) }
{
    if places.is_empty() {
        return Ok(later);
    }
    put_comma(text, later)?;
    put_name(alloc, text, name)?;
    put_places(alloc, text, places)?;
    Ok(true)
}

fn put_places(alloc: Global, text: &mut String, places: &[Place]) -> Result<(), NoMemory>
    ensures { OnOk result (string_bytes text.new ≡ string_bytes text.old ++ compact_text (places_data places.now)) }
{
    text.push_str("[")?;
    let mut later = false;
    for place in places {
        put_comma(text, later)?;
        put_place(alloc, text, *place)?;
        later = true;
    }
    text.push_str("]")?;
    Ok(())
}

fn put_place(alloc: Global, text: &mut String, place: Place) -> Result<(), NoMemory>
    ensures { OnOk result (string_bytes text.new ≡ string_bytes text.old ++ compact_text (place_data place)) }
{
    let Place {
        length,
        start,
        text: number,
    } = place;
    let place = format!(in alloc; "{{\"length\":{length},\"start\":{start},\"text\":{number}}}")?;
    text.push_str(&place)?;
    Ok(())
}

// The places of the matched words in a member, in their order.
fn places_in(alloc: Global, terms: &TermSet, value: &Value) -> Result<Vec<Place>, NoMemory>
    ensures { IfOk result (λ places. places.items ≡ places_in terms.now (view value.now)) }
{
    let mut found = Places {
        places: Vec::new(alloc),
        texts: 0,
    };
    add_value(alloc, terms, value, &mut found)?;
    Ok(found.places)
}

#[cycle(places)]
fn add_value(
    alloc: Global,
    terms: &TermSet,
    value: &Value,
    found: &mut Places,
) -> Result<(), NoMemory>
    ensures places { OnOk result (found.new.places.items ≡ found.old.places.items
        ++ places_from terms.now found.old.texts (texts_in (view value.now))) }
    ensures texts { OnOk result (found.new.texts ≡ found.old.texts + length (texts_in (view value.now))) }
{
    match value {
        Value::String(plain) => add_text(alloc, terms, plain.as_str(), found),
        Value::Array(items) => add_items(alloc, terms, items, found),
        Value::Object(members) => add_members(alloc, terms, members, found),
        _ => Ok(()),
    }
}

// A text behind 2^64 - 1 others counts as one for which there is no memory.
fn add_text(alloc: Global, terms: &TermSet, plain: &str, found: &mut Places) -> Result<(), NoMemory>
    ensures places { OnOk result (found.new.places.items ≡ found.old.places.items
        ++ map (place_of_span found.old.texts) (matched plain.now terms.now)) }
    ensures texts { OnOk result (found.new.texts ≡ found.old.texts + 1) }
{
    if found.texts == u64::MAX {
        return Err(NoMemory);
    }
    let spans = terms.matched(alloc, plain)?;
    for span in &spans {
        found.places.push(place_of(found.texts, *span))?;
    }
    found.texts += 1;
    Ok(())
}

fn place_of(text: u64, span: Span) -> Place
    ensures { result ≡ place_of_span text span }
{
    Place {
        length: span.end.saturating_sub(span.start),
        start: span.start,
        text,
    }
}

#[cycle(places)]
fn add_items(
    alloc: Global,
    terms: &TermSet,
    items: &Vec<Value>,
    found: &mut Places,
) -> Result<(), NoMemory>
    ensures places { OnOk result (found.new.places.items ≡ found.old.places.items
        ++ places_from terms.now found.old.texts (texts_in_items (items_view items.now.items))) }
    ensures texts { OnOk result (found.new.texts
        ≡ found.old.texts + length (texts_in_items (items_view items.now.items))) }
{
    for item in items {
        add_value(alloc, terms, item, found)?;
    }
    Ok(())
}

#[cycle(places)]
fn add_members(
    alloc: Global,
    terms: &TermSet,
    members: &Map<String, Value>,
    found: &mut Places,
) -> Result<(), NoMemory>
    ensures places { OnOk result (found.new.places.items ≡ found.old.places.items
        ++ places_from terms.now found.old.texts (texts_in_members (members_view members.now.entries))) }
    ensures texts { OnOk result (found.new.texts
        ≡ found.old.texts + length (texts_in_members (members_view members.now.entries))) }
{
    for (_, member) in members.iter() {
        add_value(alloc, terms, member, found)?;
    }
    Ok(())
}
