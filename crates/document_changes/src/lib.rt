//! Changes of an index, and the documents that they bring.
//!
//! Promises that documents which come are the ones that were read, in their order, and that what was noted of them
//! while each stood there as a tree (the key that the first gives, their ids under a key, and their paths) is what
//! reading them again would tell. So nobody has to: a change is taken in by these notes, wherever they are for its key.
//! Contracts see `Documents` as the list of their data, and a `Change` as a `ChangeData`.
//! Stands on `path_registry` for the paths that documents have, and on `doc_values` and `search_base`.
#![tactic(auto)]

mod change;
mod documents;
mod notes;
mod reading;

pub use change::{Change, ChangeKind};
pub use documents::{Documents, NotedDocuments};
pub use reading::DocumentReading;
