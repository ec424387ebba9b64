//! Tests of words, synonyms, queries and filters.
//!
//! They use what these crates offer to others, and stand in a crate of their own, so that the crates they try are proved
//! once and not twice. The crate has nothing but tests, and promises nothing.
#![tactic(auto)]

#[cfg(test)]
mod attributes;
#[cfg(test)]
mod checks;
#[cfg(test)]
mod filters;
#[cfg(test)]
mod graphs;
#[cfg(test)]
mod synonyms;
#[cfg(test)]
mod words;
