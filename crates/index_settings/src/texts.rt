ghost use Rattle.std.specs.Prelude.{◌≡◌, ◌&&◌, nat_le, IfOk};
ghost use Rattle.serde_json.specs.Events.{items_len};
ghost use Rattle.serde_json.specs.View.{view as data_of, items_view, members_view};
ghost use Rattle.index_settings.specs.Values.{items_are_texts, are_texts as are_texts_in, are_texts_up_to as are_texts_up_to_in, members_are_texts, are_synonyms as are_synonyms_in, item_texts, texts_in, is_number_up_to as is_number_in};

use search_base::{NoMemory, Word};
use serde_json::{Map, Value};
use std::alloc::Global;

/// Whether a value is a whole number from 0 to `most`.
pub(crate) fn is_number_up_to(value: &Value, most: u64) -> bool
    ensures { result ≡ is_number_in most (data_of value.now) }
{
    match value.as_u64() {
        Some(number) => number <= most,
        None => false,
    }
}

/// Whether a value is an array of texts.
pub(crate) fn are_texts(value: &Value) -> bool
    ensures { result ≡ are_texts_in (data_of value.now) }
{
    match value {
        Value::Array(items) => items_are_text(items),
        _ => false,
    }
}

/// Whether a value is an array of at most so many texts. A longer one is not looked into.
pub(crate) fn are_texts_up_to(value: &Value, most: usize) -> bool
    ensures { result ≡ are_texts_up_to_in most (data_of value.now) }
{
    match value {
        Value::Array(items) => are_few_texts(items, most),
        _ => false,
    }
}

#[tactic(auto, using(crate::proofs::Lengths::items_len_of_view))]
fn are_few_texts(items: &Vec<Value>, most: usize) -> bool
    ensures { result ≡ (nat_le (items_len (items_view items.now.items)) most
        && items_are_texts (items_view items.now.items)) }
{
    items.len() <= most && items_are_text(items)
}

fn items_are_text(items: &Vec<Value>) -> bool
    ensures { result ≡ items_are_texts (items_view items.now.items) }
{
    for item in items {
        if !item.is_string() {
            return false;
        }
    }
    true
}

/// Whether a value is an object of arrays of texts.
pub(crate) fn are_synonyms(value: &Value) -> bool
    ensures { result ≡ are_synonyms_in (data_of value.now) }
{
    match value {
        Value::Object(members) => members_are_text(members),
        _ => false,
    }
}

fn members_are_text(members: &Map<String, Value>) -> bool
    ensures { result ≡ members_are_texts (members_view members.now.entries) }
{
    for (_, value) in members.iter() {
        if !are_texts(value) {
            return false;
        }
    }
    true
}

/// The texts of an array, in order; what else stands there is passed over. Of another value none.
pub(crate) fn texts_of(alloc: Global, value: &Value) -> Result<Vec<Word>, NoMemory>
    ensures { IfOk result (λ texts. texts.items ≡ texts_in (data_of value.now)) }
{
    match value {
        Value::Array(items) => texts_of_items(alloc, items),
        _ => Ok(Vec::new(alloc)),
    }
}

fn texts_of_items(alloc: Global, items: &Vec<Value>) -> Result<Vec<Word>, NoMemory>
    ensures { IfOk result (λ texts. texts.items ≡ item_texts (items_view items.now.items)) }
{
    let mut texts = Vec::new(alloc);
    for item in items {
        if let Some(text) = item.as_str() {
            texts.push(Word::new(alloc, text)?)?;
        }
    }
    Ok(texts)
}
