//! What replies show of documents and of the hits of a search.
//!
//! Promises that a document shows its top members that are asked for, and a hit those that are displayed too, with what
//! the search adds to them: `_costs`, `_formatted`, which has these members with their texts marked and cropped, and
//! `_matchesPosition`, which says where matched words stand in them. Texts are those of the definitions in
//! specs/Shown.antt, byte for byte; the one error is want of memory. A `Display` is made once for all hits of a reply.
//! Stands on `doc_values` for documents, `search_call` and `search_result` for searches and their hits, `hit_format`
//! for marked texts, `serde_json` for JSON, and on nothing that keeps documents or sends replies.
#![tactic(auto)]

mod added;
mod costs;
mod crops;
mod display;
mod formatted;
mod marks;
mod names;
mod own;
mod positions;
mod shown;
mod text;

pub use display::Display;
pub use shown::{put_documents, put_hits, shown_text};
pub use text::{put_comma, quoted_text};
