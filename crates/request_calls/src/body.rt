ghost use Rattle.std.specs.Prelude.{◌≡◌};
ghost use Rattle.serde_json.specs.View.{view, members_view, items_view};
ghost use Rattle.search_base.specs.Gives.{Gives, Checks};
ghost use Rattle.request_calls.specs.Held.{new_index};
ghost use Rattle.request_calls.specs.Bodies.{body_refusal as refusal_of_body, documents_in as documents_of_body, index_in, index_from, index_member_fault, index_members_fault, is_key_or_null as key_or_null, is_uid_text, ids_in, ids_from};
ghost use Rattle.search_bodies.specs.Json.{as_text};

use doc_values::{id_of, is_uid};
use document_changes::Documents;
use document_stream::BodyRefusal;
use request_refusals::Refusal;
use search_base::{Fault, Word};
use search_bodies::{read_json, text_at};
use serde_json::{Map, Value};
use std::alloc::Global;

/// An index that is to be made: its uid, and its primary key where one is given.
pub(crate) struct NewIndex {
    pub uid: Word,
    pub key: Option<Word>,
}

/// The documents of a body, read one by one, each noted with its id under a key, or under the one that the first gives.
pub(crate) fn read_documents(
    alloc: Global,
    body: &[u8],
    key: Option<Word>,
) -> Result<Documents, Fault<Refusal>>
    ensures { Gives (λ documents. documents) result (documents_of_body body.now) }
{
    match document_stream::read_documents(alloc, body, key) {
        Ok(documents) => Ok(documents),
        Err(Fault::Refused(refusal)) => Err(Fault::Refused(body_refusal(refusal))),
        Err(Fault::NoMemory) => Err(Fault::NoMemory),
    }
}

/// Why a request is refused, by its body of documents.
fn body_refusal(refusal: BodyRefusal) -> Refusal
    ensures { result ≡ refusal_of_body refusal }
{
    match refusal {
        BodyRefusal::NotJson => Refusal::NotJson,
        BodyRefusal::NotList => Refusal::NotList,
        BodyRefusal::NotObject { document } => Refusal::NotObject { document },
        BodyRefusal::NumberNotWhole { document, path } => {
            Refusal::NumberNotWhole { document, path }
        }
    }
}

/// The ids of a body.
pub(crate) fn read_ids(alloc: Global, body: &[u8]) -> Result<Vec<Word>, Fault<Refusal>>
    ensures { Gives (λ ids. ids.items) result (ids_in body.now) }
{
    match read_json(alloc, body)? {
        Value::Array(items) => ids_among(alloc, &items),
        _ => Err(Fault::Refused(Refusal::NotList)),
    }
}

fn ids_among(alloc: Global, items: &[Value]) -> Result<Vec<Word>, Fault<Refusal>>
    ensures { Gives (λ ids. ids.items) result (ids_from 1 (items_view items.now)) }
{
    let mut ids = Vec::new(alloc);
    for before in 0..items.len() {
        match id_of(alloc, &items[before])? {
            Some(id) => ids.push(id)?,
            None => {
                return Err(Fault::Refused(Refusal::BadListedId {
                    place: before as u64 + 1,
                }));
            }
        }
    }
    Ok(ids)
}

/// The index that a body asks for.
pub(crate) fn read_index(alloc: Global, body: &[u8]) -> Result<NewIndex, Fault<Refusal>>
    ensures { Gives new_index result (index_in body.now) }
{
    let value = read_json(alloc, body)?;
    index_call(alloc, &value)
}

fn index_call(alloc: Global, value: &Value) -> Result<NewIndex, Fault<Refusal>>
    ensures { Gives new_index result (index_from (view value.now)) }
{
    match value {
        Value::Object(members) => check_members(alloc, members)?,
        _ => {
            return Err(Fault::Refused(Refusal::Unknown {
                name: Word::new(alloc, "body")?,
            }));
        }
    }
    match text_at(alloc, value, "uid")? {
        Some(uid) => {
            let key = text_at(alloc, value, "primaryKey")?;
            Ok(NewIndex { uid, key })
        }
        None => Err(Fault::Refused(Refusal::MissingUid)),
    }
}

fn check_members(alloc: Global, members: &Map<String, Value>) -> Result<(), Fault<Refusal>>
    ensures { Checks result (index_members_fault (members_view members.now.entries)) }
{
    for (name, value) in members.iter() {
        check_member(alloc, name.as_str(), value)?;
    }
    Ok(())
}

fn check_member(alloc: Global, name: &str, value: &Value) -> Result<(), Fault<Refusal>>
    ensures { Checks result (index_member_fault name.now (view value.now)) }
{
    match name {
        "primaryKey" if is_key_or_null(value) => Ok(()),
        "uid" if names_index(value) => Ok(()),
        "uid" => Err(Fault::Refused(Refusal::InvalidUid)),
        _ => Err(Fault::Refused(Refusal::Unknown {
            name: Word::new(alloc, name)?,
        })),
    }
}

// A text that is not empty, or null.
fn is_key_or_null(value: &Value) -> bool
    ensures { result ≡ key_or_null (view value.now) }
{
    match value {
        Value::Null => true,
        Value::String(text) => !text.is_empty(),
        _ => false,
    }
}

fn names_index(value: &Value) -> bool
    ensures { result ≡ is_uid_text (as_text (view value.now)) }
{
    match value {
        Value::String(text) => is_uid(text.as_str()),
        _ => false,
    }
}
