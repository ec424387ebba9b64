//! Changes of indexes as bytes: the payloads of the journal, and the fields of which images are made too.
//!
//! Promises that what is encoded is the one spelling of a change, that exactly spellings are decoded, to what was
//! spelled, and that damage is told by the place where the first bad field begins.
//! Contracts see a `Change` through `change_view`, and bytes as lists of numbers; what reads a field answers, by `Gives` of
//! specs/Answers.antt, what specs/Fields.antt reads there, unless memory ran out.
//! Stands on `search_base` for words, on `document_changes` for changes, on `doc_values` for documents, and on
//! `serde_json` for JSON.
#![tactic(auto)]

mod change;
mod fault;
mod fields;
mod json;
mod writing;

pub use change::{damage, decode_change, kind_at};
pub use fault::{ImageFault, ReadFault};
pub use fields::{optional, text, u8_at, u32_at};
pub use writing::{encode_change, put_length, put_optional, put_word};
