ghost use Rattle.std.specs.Prelude.{◌≡◌, IfOk, option_map};
ghost use Rattle.serde_json.specs.View.{view as data_of, items_view};
ghost use Rattle.change_payloads.specs.Answers.{Gives};
ghost use Rattle.change_payloads.specs.Fields.{json_of, item_texts, texts_of, ids_of, json_at, ids_at};

use crate::fault::ReadFault;
use crate::fields::piece;
use doc_values::has_float;
use search_base::{NoMemory, Word};
use serde_json::Value;
use std::alloc::Global;

/// A JSON value, and the bytes behind its text.
#[tactic(auto, unfolding(crate::specs::Fields::json_at))]
pub(crate) fn value(alloc: Global, bytes: &[u8]) -> Result<(Value, &[u8]), ReadFault>
    ensures { Gives (λ x. (data_of x.0, x.1.now)) result (json_at bytes.now) }
{
    let (front, rest) = piece(bytes)?;
    match value_of(alloc, front)? {
        Some(value) => Ok((value, rest)),
        None => Err(ReadFault::Left(front.len() + rest.len())),
    }
}

/// The texts of a JSON array, and the bytes behind its text.
#[tactic(auto, unfolding(crate::specs::Fields::ids_at))]
pub(crate) fn ids(alloc: Global, bytes: &[u8]) -> Result<(Vec<Word>, &[u8]), ReadFault>
    ensures { Gives (λ x. (x.0.items, x.1.now)) result (ids_at bytes.now) }
{
    let (front, rest) = piece(bytes)?;
    match texts_at(alloc, front)? {
        Some(texts) => Ok((texts, rest)),
        None => Err(ReadFault::Left(front.len() + rest.len())),
    }
}

/// The value whose compact text bytes are; none where they are that of no value without floats.
fn value_of(alloc: Global, bytes: &[u8]) -> Result<Option<Value>, NoMemory>
    ensures { IfOk result (λ value. option_map data_of value ≡ json_of bytes.now) }
{
    let value = match Value::from_slice(alloc, bytes) {
        Ok(value) => value,
        Err(e) => return if e.is_memory() {
            Err(NoMemory)
        } else {
            Ok(None)
        },
    };
    if has_float(&value) {
        return Ok(None);
    }
    let own = value.to_vec(alloc)?;
    if own.as_slice() == bytes {
        Ok(Some(value))
    } else {
        Ok(None)
    }
}

/// The texts of the array whose compact text bytes are; none where they are that of no array of texts.
fn texts_at(alloc: Global, bytes: &[u8]) -> Result<Option<Vec<Word>>, NoMemory>
    ensures { IfOk result (λ texts. option_map (λ v. v.items) texts ≡ ids_of bytes.now) }
{
    match value_of(alloc, bytes)? {
        Some(value) => texts_in(alloc, &value),
        None => Ok(None),
    }
}

fn texts_in(alloc: Global, value: &Value) -> Result<Option<Vec<Word>>, NoMemory>
    ensures { IfOk result (λ texts. option_map (λ v. v.items) texts ≡ texts_of (data_of value.now)) }
{
    match value {
        Value::Array(items) => texts_of_items(alloc, items),
        _ => Ok(None),
    }
}

fn texts_of_items(alloc: Global, items: &Vec<Value>) -> Result<Option<Vec<Word>>, NoMemory>
    ensures { IfOk result (λ texts. option_map (λ v. v.items) texts ≡ item_texts (items_view items.now.items)) }
{
    let mut texts = Vec::new(alloc);
    for item in items {
        match item.as_str() {
            Some(text) => texts.push(Word::new(alloc, text)?)?,
            None => return Ok(None),
        }
    }
    Ok(Some(texts))
}
