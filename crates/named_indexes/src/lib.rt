//! The indexes of a server, each by its uid, and the changes that they take as tasks.
//!
//! Promises that a batch of changes of one index is made as if its changes came one by one, where one that is refused
//! changes nothing (specs/Changes.antt); that a payload records exactly one change, and one that an index takes
//! (specs/Payloads.antt); and that the rows of an image that the indexes give are a state that may stand in an image,
//! and give the indexes back (specs/Images.antt). Contracts see `Indexes` as a list of uids and indexes, in the order of
//! the uids' bytes, and a `Payload` as the change that it records. Stands on `index_core`, which is one index, on
//! `index_changes`, which says what a change does to it, on `queued_changes` and `task_queue`, which hand it batches, on
//! `change_payloads` and `index_image` for payloads and images, on `request_refusals` for why a task fails, on
//! `document_changes` for changes, on `doc_values` for uids, and on `index_settings` for patches.
#![tactic(auto)]

mod changes;
mod copies;
mod images;
mod indexes;
mod payload;
mod worker;

pub use indexes::Indexes;
pub use payload::{Payload, Recorded, recorded_change};
