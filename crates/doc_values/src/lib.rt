//! Documents: JSON objects whose numbers are all whole, and what is read off them.
//!
//! Promises the walk of a document (its paths, and what each holds), its id and primary key, the documents of a body,
//! the merge of an update, and a canonical text that gives the document back. A refusal names its cause exactly.
//! Contracts see a `Document` as its JSON data and a `Word` as its bytes.
//! Stands on `search_base` for words and on `serde_json` for JSON as RFC 8259 has it.
#![tactic(auto)]

mod bodies;
mod document;
mod floats;
mod ids;
mod keys;
mod merge;
mod rows;
mod stored;
mod walk;

pub use bodies::{BodyFault, BodyRefusal, documents_of};
pub use document::{Document, DocumentFault, DocumentRefusal};
pub use floats::has_float;
pub use ids::{IdFault, IdRefusal, external_id, id_of, is_uid};
pub use keys::{KeyFault, KeyRefusal, infer_key};
pub use merge::merged;
pub use rows::{Flat, PathValues, values_by_path};
pub use stored::DocumentText;
pub use walk::paths;
