//! The documents of one index under their internal ids, and its registry of paths.
//!
//! Promises that a document keeps its internal id while it is there, that the id is never given again, and that each
//! path of a document is in the registry. Documents are admitted, at once or more of them at a time, which tries the
//! limits; then prepared, which takes all memory, stages them and changes no answer; and then committed, which takes
//! none and cannot be refused. A removal takes steps in proportion to the logarithm of the store, and a list of ids
//! passes over the documents before it by their counts.
//! Contracts see a `DocStore` as its content (paths, next internal id, rows), the documents that are staged and the
//! room that it has for more, and a `StorePlan` as the ids of the documents that are staged and the paths that are
//! new.
//! Stands on `path_registry`, which numbers names and paths, on `doc_values`, which has documents and their walk, on
//! `staged_slots` and on `search_base`.
#![tactic(auto)]

mod admitting;
mod changes;
mod counts;
mod given;
mod laws;
mod listing;
mod restore;
mod rows;
mod slots;
mod store;

pub use admitting::{Admission, Admitting, NewPaths};
pub use laws::{documents_keep_their_ids, stores_stay_sound};
pub use rows::{MAX_IDS, StoreFault, StoreRefusal, StoreRow, StoredRow};
pub use store::{DocStore, StorePlan};
