ghost use Rattle.std.specs.Prelude.{◌≡◌, ◌≤◌, ◌-◌, ◌^◌, length};
ghost use Rattle.serde_json.specs.View.{members_view};
ghost use Rattle.search_base.specs.Gives.{Gives};
ghost use Rattle.doc_values.specs.Ids.{ends_in_id as ends_in, candidates, key_of, only};

use crate::document::Document;
use search_base::{Fault, Word};
use serde_json::{Map, Value};
use std::alloc::Global;

/// Why no primary key is inferred from a document.
#[derive(Debug, Drop)]
pub enum KeyRefusal {
    /// No name at its top ends in `id`.
    NoCandidate,
    /// More than one does: `count` of them.
    SeveralCandidates { count: u32 },
}

/// Why there is no key: what `KeyRefusal` says, or want of memory.
pub type KeyFault = Fault<KeyRefusal>;

/// The primary key of a document: the one name at its top that ends in `id`, ASCII case ignored.
///
/// A document of 2^32 candidates or more counts as one for which there is no memory.
pub fn infer_key(alloc: Global, document: &Document) -> Result<Word, KeyFault>
    ensures { Gives (λ key. key) result (key_of document.now) }
{
    match document.as_json() {
        Value::Object(members) => key_among(alloc, members),
        _ => Err(Fault::Refused(KeyRefusal::NoCandidate)),
    }
}

fn key_among(alloc: Global, members: &Map<String, Value>) -> Result<Word, KeyFault>
    ensures { Gives (λ key. key) result (only (candidates (members_view members.now.entries))) }
{
    let mut first: Option<&str> = None;
    let mut count: u32 = 0;
    for (name, _) in members.iter() {
        if ends_in_id(name.as_str()) {
            if count == u32::MAX {
                return Err(Fault::NoMemory);
            }
            first = first.or(Some(name.as_str()));
            count += 1;
        }
    }
    match first {
        None => Err(Fault::Refused(KeyRefusal::NoCandidate)),
        Some(name) => if count == 1 {
            Ok(Word::new(alloc, name)?)
        } else {
            Err(Fault::Refused(KeyRefusal::SeveralCandidates { count }))
        },
    }
}

fn ends_in_id(name: &str) -> bool
    ensures { result ≡ ends_in name.now }
{
    let bytes = name.as_bytes();
    bytes.len() >= 2 && bytes[bytes.len() - 2..].eq_ignore_ascii_case(b"id")
}
