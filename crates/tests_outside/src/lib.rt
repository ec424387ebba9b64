//! Tests of links, disks, doors and the wire, through what `outside_io`, `link_doors` and `http_wire` offer.
//!
//! They stand in a crate of their own, so that the crates they try are proved once and not twice. The crate has nothing
//! but tests, and promises nothing.
#![tactic(auto)]

#[cfg(test)]
mod doors;
#[cfg(test)]
mod links;
#[cfg(test)]
mod wire;
