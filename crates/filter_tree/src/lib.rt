//! Filters as trees of tests.
//!
//! A `Filter` holds data and promises nothing. Contracts see it as its `Tree`, which is `view` of specs/View.antt. The
//! whole numbers that a value may write are those of `number_of` in specs/Number.antt. The crate stands on `search_base`
//! alone: what reads filters out of texts stands above it, and so does what finds the documents that pass one.
#![tactic(auto)]

mod number;
mod tree;

pub use number::whole_number;
pub use tree::{Filter, Test};
