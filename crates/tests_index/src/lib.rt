//! Tests of what a search of an index opens, of hits of which no two have a value in common, of which values a search
//! of values finds, and of documents that are read from an image.
//!
//! They use what these crates offer to others, and stand in a crate of their own, so that the crates they try are proved
//! once and not twice. The crate has nothing but tests, and promises nothing.
#![tactic(auto)]

#[cfg(test)]
mod checks;
#[cfg(test)]
mod distinct;
#[cfg(test)]
mod images;
#[cfg(test)]
mod index;
#[cfg(test)]
mod values;
