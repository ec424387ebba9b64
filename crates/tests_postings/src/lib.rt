//! Tests of posting lists and of their questions, through what `posting_list`, `postings`, `posting_sets` and
//! `near_words` offer.
//!
//! They stand in a crate of their own, so that the crates they try are proved once and not twice. The crate has nothing
//! but tests, and promises nothing.
#![tactic(auto)]

#[cfg(test)]
mod checks;
#[cfg(test)]
mod near;
#[cfg(test)]
mod places;
#[cfg(test)]
mod questions;
