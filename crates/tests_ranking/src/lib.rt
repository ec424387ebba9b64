//! Tests of costs, and of a search over an index.
//!
//! They use what these crates offer to others, and stand in a crate of their own, so that the crates they try are proved
//! once and not twice. The crate has nothing but tests, and promises nothing.
#![tactic(auto)]

#[cfg(test)]
mod at_hand;
#[cfg(test)]
mod checks;
#[cfg(test)]
mod costs;
#[cfg(test)]
mod searched;
#[cfg(test)]
mod shelves;
