//! Tests of the keys of facets, the facet index, and the sets that filters select.
//!
//! They stand in a crate of their own, so that the crates they try are proved once and not twice. The crate has nothing
//! but tests, and promises nothing.
#![tactic(auto)]

#[cfg(test)]
mod checks;
#[cfg(test)]
mod facets;
#[cfg(test)]
mod films;
#[cfg(test)]
mod filter_texts;
#[cfg(test)]
mod filters;
#[cfg(test)]
mod sorts;
