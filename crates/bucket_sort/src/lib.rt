//! The hits of a search in nested lazy buckets.
//!
//! A rule set gives the documents of one key after the other, level by level. A page asks only for
//! the buckets that its hits need: `page` is the asked slice of the documents by their keys and
//! then by id, its log gains exactly the trace of the window, and after each hit of a `HitStream`
//! the log has gained exactly the trace of the window that ends with it. `specs/` says what these
//! are: hits by counting who stands before whom, the trace as the classes of all documents that
//! meet four conditions. The crate stands on `search_base` and `doc_sets`, and knows no rule.
#![tactic(auto)]

mod bucket;
mod hits;
mod law;
mod log;
mod pending;

pub use bucket::{Bucket, BucketStream, RuleSet};
pub use hits::{HitStream, page};
pub use law::{
    places_are_of_first_documents, streams_give_their_window, windows_have_their_hits,
    windows_open_few_classes,
};
pub use log::{BucketLog, Opening, RecordLog, RefuseLog, SilentLog};
