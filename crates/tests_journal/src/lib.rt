//! Tests of the journal on two disks, through what `change_journal` offers.
//!
//! They stand in a crate of their own, so that the crate they try is proved once and not twice. The crate has nothing
//! but tests, and promises nothing.
#![tactic(auto)]

#[cfg(test)]
mod checkpoints;
#[cfg(test)]
mod contents;
#[cfg(test)]
mod disks;
#[cfg(test)]
mod older;
#[cfg(test)]
mod opening;
