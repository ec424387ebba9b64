//! How near two words stand in documents, from their posting lists.
//!
//! The pair cost of two words is the least distance from one to the other in one path of a document, cut at 8, less 1;
//! a distance backwards is one more. `pair_cost` finds it from the entries of one document's places, and goes over both
//! lists once. `documents_by_pair_cost` finds the documents of a universe by it: each list is walked once, and sought by
//! steps that double where the next document is far. `documents_by_prefix_cost` does the same for a right word that is a
//! prefix, from its gathered places. Contracts say the cost by its definition over the places of
//! documents. The crate stands on `search_base`, `doc_sets`, `sorted_pages`, `posting_list`, `postings` and
//! `posting_sets`.
#![tactic(auto)]

mod asked;
mod by_document;
mod costs;
mod near;

pub use asked::{documents_by_pair_cost, documents_by_prefix_cost};
pub use near::pair_cost;
