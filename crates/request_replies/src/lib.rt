//! The replies to calls that are not refused: what is shown of documents, searches, indexes and settings, how a change
//! is acknowledged, and what is told of the task that it became.
//!
//! Promises that each reply is the answer of its definition in specs/Replies.antt, byte for byte; the one error is want
//! of memory. Contracts see a `ResultText` as its bytes. Stands on `search_replies` for the documents and hits in them,
//! `doc_values` for documents, `index_settings` for settings, `search_call` and `search_result` for searches and what
//! they found, `facet_counts` for counts of values, `task_queue` for what is told of a task, `request_refusals` for the
//! codes of failed ones, `http_wire` for replies, and on nothing that keeps documents.
#![tactic(auto)]

mod facets;
mod found;
mod listing;
mod replies;
mod result;
mod several;
mod tasks;

pub use replies::{
    document_reply, documents_reply, facet_hits_reply, health_reply, hits_reply, index_reply,
    index_value, list_reply, result_text, results_reply, settings_reply,
};
pub use result::ResultText;
pub use tasks::{accepted_reply, task_reply};
