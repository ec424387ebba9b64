//! How many documents have each value of an attribute, and their least and greatest number there.
//!
//! Promises that the counts of documents that are added one after the other are those of the definitions in
//! specs/Counts.antt, over all of them: each value once, in the order of bytes, with its first spelling and the number
//! of documents that have it. Contracts see a `FacetCounts` through `AreCountsOf`. Stands on `search_base` alone.
#![tactic(auto)]

mod counter;
mod counts;
mod order;
mod rows;

pub use counts::FacetCounts;
pub use order::in_order;
pub use rows::{CountRow, FacetPath, FacetReply};
