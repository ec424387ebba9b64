//! The readings of a query's level as a graph of conditions, whose paths cost what readings cost.
//!
//! `conditions` promises that for each document the least cost of a path whose conditions it meets
//! is the least sum of a rule over the readings that match it. Contracts see a graph as its number
//! of nodes and the list of its edges. `specs/` says what a path is and which conditions a document
//! meets. The crate stands on `search_base` alone.
#![tactic(auto)]

mod along;
mod condition;
mod graph;
mod pairs;

pub use condition::Condition;
pub use graph::{ConditionEdge, ConditionGraph, conditions, paths_are_the_walks};
