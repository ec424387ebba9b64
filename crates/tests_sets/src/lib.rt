//! Tests of words and sort keys, sets of documents, sorted lists in pages, nested buckets, and distinct hits.
//!
//! They use what these crates offer to others, and stand in a crate of their own, so that the crates they try are proved
//! once and not twice. The crate has nothing but tests, and promises nothing.
#![tactic(auto)]

#[cfg(test)]
mod base;
#[cfg(test)]
mod buckets;
#[cfg(test)]
mod checks;
#[cfg(test)]
mod distinct;
#[cfg(test)]
mod doc_lists;
#[cfg(test)]
mod pages;
