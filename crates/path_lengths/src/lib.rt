//! The lengths of paths: which documents have a path of so many words.
//!
//! The length of a path in a document is the position of its last word and 1; a path without a word has none. For each
//! path and length there is a posting list of its documents, so lengths are changed as posting lists are: whole documents
//! go and come, each with its places, `prepare` takes all memory and leaves every answer, and `commit` and `release` take
//! none and cannot be refused. After any changes each answer is that of the places of the documents as they stand. The
//! crate stands on `search_base`, `doc_sets`, `postings`, `posting_sets` and `facet_keys`.
#![tactic(auto)]

mod change;
mod lasts;
mod path_lengths;
mod places;

pub use change::{LengthChange, PreparedLengths};
pub use path_lengths::PathLengths;
