//! All that an index keeps of its documents so that it can answer searches, changed as one.
//!
//! A `RowIndex` stands for one list of documents, each an internal id with its rows: it has the posting lists of their
//! places, the lengths of their paths, the facet index of their leaves and marks, the table of their leaves by their
//! ids, and the set of their ids. Whole documents go and come: a `RowChange` gathers them, `prepare` takes all memory
//! and leaves every answer, and `commit` and `release` take none and cannot be refused. After any changes the parts are
//! those of the documents as they stand, as if built afresh. The crate stands on `search_base`, `doc_sets`, `postings`,
//! `path_lengths`, `facet_index` and `leaf_table`.
#![tactic(auto)]

mod change;
mod ids;
mod row_index;

pub use change::{PreparedRows, RowChange};
pub use row_index::RowIndex;
