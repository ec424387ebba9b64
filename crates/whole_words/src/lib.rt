//! The documents that a whole query is, or that begin with it, from posting lists and the lengths of paths.
//!
//! A path begins with the words where they stand at its positions 0, 1 and so on, and is the words where it is just as
//! long. Of a universe the documents of each path that begins so come from one walk over the list of the rarest word, and
//! those that are as long from a posting list. Answers are those of the definition, whatever documents the lists stand
//! for. The crate stands on `search_base`, `doc_sets`, `postings`, `posting_sets` and `path_lengths`, and keeps nothing
//! between two calls.
#![tactic(auto)]

mod at_cost;
mod whole;

pub use at_cost::documents_at_whole_cost;
