//! Tests of routes, calls, the replies of refusals and tasks, and the demo.
//!
//! They use what these crates offer to others, and stand in a crate of their own, so that the crates they try are proved
//! once and not twice. The crate has nothing but tests, and promises nothing.
#![tactic(auto)]

#[cfg(test)]
mod calls;
#[cfg(test)]
mod checks;
#[cfg(test)]
mod demo;
#[cfg(test)]
mod routes;
#[cfg(test)]
mod searches;
#[cfg(test)]
mod tasks;
