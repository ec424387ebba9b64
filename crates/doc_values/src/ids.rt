ghost use Rattle.std.specs.Prelude.{◌≡◌, IfOk};
ghost use Rattle.std.specs.List.{list_all};
ghost use Rattle.serde_json.specs.View.{view};
ghost use Rattle.search_base.specs.Gives.{Gives};
ghost use Rattle.doc_values.specs.Ids.{external_id_of, id_in, is_id as is_id_text, is_id_byte, is_uid as is_uid_text};

use crate::document::Document;
use search_base::{Fault, NoMemory, Word};
use serde_json::Value;
use std::alloc::Global;

/// Why a document has no id under a key.
#[derive(Debug, Drop)]
pub enum IdRefusal {
    /// It has no member of that name at its top.
    MissingId,
    /// The member's value is no id.
    BadId,
}

/// Why there is no id: what `IdRefusal` says, or want of memory.
pub type IdFault = Fault<IdRefusal>;

/// The external id of a document: what its top member named `key` holds, where that is an id.
pub fn external_id(alloc: Global, document: &Document, key: &str) -> Result<Word, IdFault>
    ensures { Gives (λ id. id) result (external_id_of key.now document.now) }
{
    match document.as_json().get(key) {
        None => Err(Fault::Refused(IdRefusal::MissingId)),
        Some(value) => match id_of(alloc, value)? {
            Some(id) => Ok(id),
            None => Err(Fault::Refused(IdRefusal::BadId)),
        },
    }
}

/// The external id that a value gives: a whole number's decimal text, or a text of 1 to 511 bytes that are ASCII
/// letters, digits, `-` or `_`. None where it is neither.
pub fn id_of(alloc: Global, value: &Value) -> Result<Option<Word>, NoMemory>
    ensures { IfOk result (λ id. id ≡ id_in (view value.now)) }
{
    if let Some(n) = value.as_u64() {
        let text = n.to_string(alloc)?;
        return Ok(Some(Word::new(alloc, text.as_str())?));
    }
    if let Some(n) = value.as_i64() {
        let text = n.to_string(alloc)?;
        return Ok(Some(Word::new(alloc, text.as_str())?));
    }
    match value {
        Value::String(text) => if is_id(text.as_str()) {
            Ok(Some(Word::new(alloc, text.as_str())?))
        } else {
            Ok(None)
        },
        _ => Ok(None),
    }
}

/// Whether a text is the uid of an index: 1 to 400 bytes that are ASCII letters, digits, `-` or `_`. Takes no memory.
pub fn is_uid(text: &str) -> bool
    ensures { result ≡ is_uid_text text.now }
{
    !text.is_empty() && text.len() <= 400 && are_id_bytes(text.as_bytes())
}

fn is_id(text: &str) -> bool
    ensures { result ≡ is_id_text text.now }
{
    !text.is_empty() && text.len() <= 511 && are_id_bytes(text.as_bytes())
}

fn are_id_bytes(bytes: &[u8]) -> bool
    ensures { result ≡ list_all is_id_byte bytes.now }
{
    bytes
        .iter()
        .all(|b| b.is_ascii_alphanumeric() || *b == b'-' || *b == b'_')
}
