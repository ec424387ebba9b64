//! Tests of the server, through what `search_server` offers.
//!
//! They stand in a crate of their own, so that the crate they try is proved once and not twice. The crate has nothing
//! but tests, and promises nothing.
#![tactic(auto)]

#[cfg(test)]
mod checks;
#[cfg(test)]
mod disks;
#[cfg(test)]
mod links;
#[cfg(test)]
mod logs;
#[cfg(test)]
mod modes;
#[cfg(test)]
mod starving;
#[cfg(test)]
mod stops;
