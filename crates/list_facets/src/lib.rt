//! How many documents of a set have each value of an attribute, and their least and greatest number, from a facet index
//! and a table of the leaves of its documents.
//!
//! Promises that the counts are those of the definitions of `facet_counts`, over the documents of the set in the order
//! of their internal ids: each value once, in the order of bytes, with its first spelling and the number of documents
//! that have it. `counts` gives the first of them, and `counts_from` the first of those that begin as a text. Where at
//! most 1,024 documents match, they are counted one after the other by their own leaves, and no list is looked at. Where
//! more do, no document is looked at: the list of each value is walked against the set, or the set against the list
//! where it is much shorter, and no set is made of it. The crate stands on `search_base`, `doc_sets`, `sorted_pages`,
//! `posting_list`, `postings`, `facet_counts`, `facet_keys`, `facet_index` and `leaf_table`.
#![tactic(auto)]

mod ends;
mod hits;
mod matching;
mod own;
mod query;
mod reply;
mod rows;
mod spellings;

pub use query::FacetQuery;
pub use reply::{counts, counts_from};
