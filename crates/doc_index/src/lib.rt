//! Changes of stored documents, together with the row index that searches are answered from.
//!
//! A row index stands for the documents of a store: each under its internal id, with what searches see of it. The
//! documents that a change names are read once, all at the start (`read_named`); from their texts come the rows that
//! go. `store_documents` and `remove_documents` take all memory first, so that a refusal leaves store and index as they
//! were; then the store has changed, and the index stands for the documents that it holds. `clear_documents` takes none.
//! `index_of_all` builds an index afresh, and `rows_in` gives what searches see of one document, read back from its
//! text. The crate stands on `doc_store`, which keeps the documents, on `doc_rows`, which says what searches see of one,
//! and on `row_index`.
#![tactic(auto)]

mod change;
mod named;
mod store;
mod whole;

pub use change::rows_in;
pub use named::{Stored, read_named};
pub use store::{clear_documents, remove_documents, store_documents};
pub use whole::{index_of_all, index_of_change};
