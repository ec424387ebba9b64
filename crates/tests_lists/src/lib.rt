//! Tests of one posting list, of the lists of words that come, go and come again, and of the words from a bound on.
//!
//! They stand in a crate of their own, so that the crates they try are proved once and not twice. The crate has nothing
//! but tests, and promises nothing.
#![tactic(auto)]

#[cfg(test)]
mod checks;
#[cfg(test)]
mod lists;
#[cfg(test)]
mod many_words;
