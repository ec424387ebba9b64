//! Documents out of the body of a request, read one by one.
//!
//! Promises the documents that the body's JSON value holds, or why there are none: what `doc_values::documents_of`
//! finds in the value read whole, and no JSON before any other cause. One document at a time is held as a tree, which
//! no clause says.
//! Contracts see a body as its bytes, `Documents` as the list of their JSON data, and a reader as the tokens that are left.
//! Stands on `doc_values` for documents, on `document_changes` for what is noted of them, on `json` for tokens, and on
//! `serde_json` for values as RFC 8259 has them.
#![tactic(auto)]

mod documents;
mod fault;
mod number;
mod values;

pub use documents::read_documents;
pub use fault::{BodyFault, BodyRefusal};
