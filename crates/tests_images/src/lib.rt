//! Tests of what is recorded: payloads of changes, and images of what they left.
//!
//! They use what these crates offer to others, and stand in a crate of their own, so that the crates they try are proved
//! once and not twice. The crate has nothing but tests, and promises nothing.
#![tactic(auto)]

#[cfg(test)]
mod checks;
#[cfg(test)]
mod images;
#[cfg(test)]
mod payloads;
