//! Tests of the conditions of rules, of least path costs over them, of the documents that meet one, of the lengths of
//! paths, and of whole queries.
//!
//! They use what these crates offer to others, and stand in a crate of their own, so that the crates they try are
//! proved once and not twice. The crate has nothing but tests, and promises nothing.
#![tactic(auto)]

#[cfg(test)]
mod checks;
#[cfg(test)]
mod conditions;
#[cfg(test)]
mod meeting;
#[cfg(test)]
mod paths;
#[cfg(test)]
mod texts;
#[cfg(test)]
mod whole;
