//! From a request to the call that it asks for: its route, its query string and its body, or the reply that refuses it.
//!
//! Promises that the call is the one of `call_of` in specs/Calls.antt, or the reply to the request's first fault, whose
//! status, code and message are those of `told_of` in specs/Refusals.antt; its one free answer is want of memory.
//! Contracts see a `Call` as a `CallData`, a change or a read whose vectors are lists. Stands on http_wire for requests
//! and replies, on request_refusals for why a request is refused, on request_routes for routes and query strings, on
//! search_bodies for the searches that bodies and query strings ask for, on search_call for what these are, on
//! doc_values for ids, on document_changes for changes, on document_stream for documents, on index_settings for what a
//! patch of settings may say, and on serde_json for other bodies.
#![tactic(auto)]

mod body;
mod call;
mod reply;
mod settings;

pub use call::{Call, ReadCall, read_call};
pub use reply::refusal_reply;
pub use settings::settings_fault;
