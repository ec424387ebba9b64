//! Questions of posting lists: which documents of a universe a term occurs in.
//!
//! A term is a word, a prefix, or some words in a row; its posting lists are walked inside a set of
//! documents, which is all that is looked at. The places of a prefix can be gathered once
//! (`PrefixPlaces`) and asked several questions. Each answer is exactly the documents of the universe
//! of which the definition says so, whatever documents the lists stand for. Contracts see a walk as
//! the list of the places that it has left. The crate stands on `search_base`, `doc_sets`,
//! `sorted_pages`, `posting_list` and `postings`, and keeps nothing between two calls.
#![tactic(auto)]

mod by_number;
mod entry;
mod finder;
mod found;
mod law;
mod lists;
mod number;
mod numbered;
mod occurrences;
mod prefix;

pub use by_number::{
    documents_at_first, documents_by_beginning, documents_by_bucket, documents_by_rank,
};
pub use found::documents;
pub use law::numbers_are_those_of_blocks;
pub use prefix::PrefixPlaces;
