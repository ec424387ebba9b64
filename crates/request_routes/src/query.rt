ghost use Rattle.std.specs.Prelude.{◌≡◌, ◌≤◌, length, map, drop, IfOk, option_map};
ghost use Rattle.std.specs.List.{list_all};
ghost use Rattle.std.specs.Map.{lookup};
ghost use Rattle.std.specs.Str.{bytes_eq};
ghost use Rattle.search_base.specs.Gives.{Gives, Checks};
ghost use Rattle.request_routes.specs.Held.{pair_of};
ghost use Rattle.request_routes.specs.Query.{decoded, pairs_of, has_name as has_name_in, last_pairs as last_of, takes_each as takes_each_pair, takes as takes_pair, first_unknown, query_for, value_of as value_in, count_in as count_at, fields_in as fields_at, texts_of as texts_in, number_of as number_in, is_digit, names, has_shape as has_shape_in};

use crate::parts::parts_of;
use crate::routes::Route;
use request_refusals::Refusal;
use search_base::{Fault, NoMemory, Word};
use std::alloc::Global;

/// What the value of a name is: a whole number, a text that is not empty, or a list of texts.
#[derive(Clone, Copy, Debug, PartialEq, Eq)]
pub(crate) enum Shape {
    Count,
    Text,
    Texts,
}

/// A name of a query string, with its value.
#[derive(Drop)]
pub struct Pair {
    pub name: Word,
    pub value: Word,
}

/// The pairs of a query string that count, where the route takes each. Names and values are decoded as those of HTML
/// forms (URL Standard, application/x-www-form-urlencoded). Of a repeated name the last pair alone counts, at its own
/// place.
///
/// Refused is the first of these pairs whose name the route does not have, or whose value has a wrong shape (`Unknown`,
/// with the name); none of a search, whose pairs are tried where it is read. Its one other error is want of memory.
pub fn read_query(alloc: Global, route: Route, query: &str) -> Result<Vec<Pair>, Fault<Refusal>>
    ensures { Gives (λ pairs. map pair_of pairs.items) result (query_for route query.now) }
{
    let all = read_pairs(alloc, query)?;
    let pairs = last_pairs(alloc, &all)?;
    check_pairs(route, &pairs)?;
    Ok(pairs)
}

/// The value of a name, where it has one. Takes no memory.
pub(crate) fn value_of<'a>(pairs: &'a [Pair], name: &str) -> Option<&'a Word>
    ensures { option_map (λ word. word.now) result ≡ value_in name.now (map pair_of pairs.now) }
{
    for pair in pairs {
        if pair.name.as_str() == name {
            return Some(&pair.value);
        }
    }
    None
}

/// The text of a name, where it has one. Its one error is want of memory.
pub fn text_in(pairs: &[Pair], name: &str) -> Result<Option<Word>, NoMemory>
    ensures { IfOk result (λ value. value ≡ value_in name.now (map pair_of pairs.now)) }
{
    match value_of(pairs, name) {
        Some(value) => Ok(Some(value.clone()?)),
        None => Ok(None),
    }
}

/// The number of a name, or its default where it has none. Takes no memory.
pub fn count_in(pairs: &[Pair], name: &str, default: u64) -> u64
    ensures { result ≡ count_at name.now default (map pair_of pairs.now) }
{
    match value_of(pairs, name) {
        Some(value) => number_of(value.as_str()).unwrap_or(default),
        None => default,
    }
}

/// The names of the members that are asked for: `*`, which stands for all, where none are named. Its one error is want
/// of memory.
pub fn fields_in(alloc: Global, pairs: &[Pair]) -> Result<Vec<Word>, NoMemory>
    ensures { IfOk result (λ fields. fields.items ≡ fields_at (map pair_of pairs.now)) }
{
    match value_of(pairs, "fields") {
        Some(value) => texts_of(alloc, value.as_str()),
        None => {
            let mut all = Vec::new(alloc);
            all.push(Word::new(alloc, "*")?)?;
            Ok(all)
        }
    }
}

/// The texts of a list, which is written with commas. The empty text is the empty list. Its one error is want of
/// memory.
pub fn texts_of(alloc: Global, list: &str) -> Result<Vec<Word>, NoMemory>
    ensures { IfOk result (λ texts. texts.items ≡ texts_in list.now) }
{
    let mut texts = Vec::new(alloc);
    if !list.is_empty() {
        for text in parts_of(alloc, list, ',')? {
            texts.push(Word::new(alloc, text)?)?;
        }
    }
    Ok(texts)
}

/// The number that decimal digits write, where it is below 2^64 and nothing else stands there. Takes no memory.
pub fn number_of(text: &str) -> Option<u64>
    ensures { result ≡ number_in text.now }
{
    if !are_digits(text.as_bytes()) {
        return None;
    }
    match text.parse::<u64>() {
        Ok(number) => Some(number),
        Err(_) => None,
    }
}

fn are_digits(bytes: &[u8]) -> bool
    ensures { result ≡ list_all is_digit bytes.now }
{
    bytes.iter().all(u8::is_ascii_digit)
}

fn read_pairs(alloc: Global, query: &str) -> Result<Vec<Pair>, NoMemory>
    ensures { IfOk result (λ pairs. map pair_of pairs.items ≡ pairs_of query.now) }
{
    let mut pairs = Vec::new(alloc);
    for (name, value) in form_urlencoded::raw_pairs(query.as_bytes()) {
        pairs.push(Pair {
            name: decoded_word(alloc, name)?,
            value: decoded_word(alloc, value)?,
        })?;
    }
    Ok(pairs)
}

// What the bytes of a name or a value stand for.
fn decoded_word(alloc: Global, bytes: &[u8]) -> Result<Word, NoMemory>
    ensures { IfOk result (λ word. word ≡ decoded bytes.now) }
{
    let text = form_urlencoded::decode(alloc, bytes)?;
    Word::new(alloc, text.as_str())
}

fn rest_of(pairs: &[Pair], at: usize) -> &[Pair]
    requires { at ≤ length pairs.now }
    ensures { result.now ≡ drop at pairs.now }
{
    &pairs[at..]
}

fn has_name(pairs: &[Pair], name: &str) -> bool
    ensures { result ≡ has_name_in name.now (map pair_of pairs.now) }
{
    for pair in pairs {
        if pair.name.as_str() == name {
            return true;
        }
    }
    false
}

// Of a repeated name the last pair alone.
fn last_pairs(alloc: Global, pairs: &[Pair]) -> Result<Vec<Pair>, NoMemory>
    ensures { IfOk result (λ kept. map pair_of kept.items ≡ last_of (map pair_of pairs.now)) }
{
    let mut kept = Vec::new(alloc);
    for place in 0..pairs.len() {
        let pair = &pairs[place];
        if !has_name(rest_of(pairs, place + 1), pair.name.as_str()) {
            kept.push(Pair {
                name: pair.name.clone()?,
                value: pair.value.clone()?,
            })?;
        }
    }
    Ok(kept)
}

// The names of each route's query string, and the shapes of their values.
fn shape_of(route: Route, name: &str) -> Option<Shape>
    ensures { result ≡ lookup (bytes_eq name.now) (names route) }
{
    match route {
        Route::ListIndexes => match name {
            "offset" | "limit" => Some(Shape::Count),
            _ => None,
        },
        Route::AddDocuments | Route::UpdateDocuments => match name {
            "primaryKey" => Some(Shape::Text),
            _ => None,
        },
        Route::ListDocuments => match name {
            "offset" | "limit" => Some(Shape::Count),
            "fields" => Some(Shape::Texts),
            _ => None,
        },
        Route::ShowDocument => match name {
            "fields" => Some(Shape::Texts),
            _ => None,
        },
        _ => None,
    }
}

fn has_shape(shape: Shape, value: &str) -> bool
    ensures { result ≡ has_shape_in shape value.now }
{
    match shape {
        Shape::Count => number_of(value).is_some(),
        Shape::Text => !value.is_empty(),
        Shape::Texts => true,
    }
}

// The pairs of a search are tried where it is read.
fn takes_each(route: Route) -> bool
    ensures { result ≡ takes_each_pair route }
{
    matches!(route, Route::SearchByQuery)
}

fn takes(route: Route, pair: &Pair) -> bool
    ensures { result ≡ takes_pair route (pair_of pair.now) }
{
    if takes_each(route) {
        return true;
    }
    match shape_of(route, pair.name.as_str()) {
        Some(shape) => has_shape(shape, pair.value.as_str()),
        None => false,
    }
}

fn check_pairs(route: Route, pairs: &[Pair]) -> Result<(), Fault<Refusal>>
    ensures { Checks result (first_unknown route (map pair_of pairs.now)) }
{
    for pair in pairs {
        if !takes(route, pair) {
            return Err(Fault::Refused(Refusal::Unknown {
                name: pair.name.clone()?,
            }));
        }
    }
    Ok(())
}
