//! Tests of documents: their values, streams, readings, settings, rows, slots and stores.
//!
//! They use what these crates offer to others, and stand in a crate of their own, so that the crates they try are
//! proved once and not twice. The crate has nothing but tests, and promises nothing.
#![tactic(auto)]

#[cfg(test)]
mod checks;
#[cfg(test)]
mod readings;
#[cfg(test)]
mod rows;
#[cfg(test)]
mod settings;
#[cfg(test)]
mod slots;
#[cfg(test)]
mod stores;
#[cfg(test)]
mod streams;
#[cfg(test)]
mod values;
