//! Tests of the table of leaves, its columns of numbers, and the counts of values.
//!
//! They stand in a crate of their own, so that the crates they try are proved once and not twice. The crate has nothing
//! but tests, and promises nothing.
#![tactic(auto)]

#[cfg(test)]
mod checks;
#[cfg(test)]
mod columns;
#[cfg(test)]
mod counts;
#[cfg(test)]
mod shared_leaves;
#[cfg(test)]
mod shelf;
