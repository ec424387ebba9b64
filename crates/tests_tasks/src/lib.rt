//! Tests of the queue of tasks, and of a machine whose changes wait in it.
//!
//! They use what these crates offer to others, and stand in a crate of their own, so that the queue is proved once and
//! not twice. The crate has nothing but tests, and promises nothing.
#![tactic(auto)]

#[cfg(test)]
mod counter;
#[cfg(test)]
mod queues;
#[cfg(test)]
mod settling;
