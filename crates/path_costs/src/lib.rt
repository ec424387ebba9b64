//! The costs of a condition graph's paths, cost after cost, with the documents that have each.
//!
//! `PathCosts::next_cost` promises the documents that are cheapest of those that remain, all of
//! them, and their cost. A document costs the least sum of a path whose conditions it meets. The
//! conditions on the numbers of one term are one question, asked when a stream is made; edges that
//! no document of the universe may take are left out. Few edges that are whole paths are asked for
//! when a cost needs them. Few documents are costed one by one, many cost by cost.
//! Contracts see a stream as the cost of each document, the documents that remain, and whether
//! memory ran out. The crate stands on `search_base`, `condition_graph` and `doc_sets`.
#![tactic(auto)]

mod few;
mod fill;
mod found;
mod links;
mod resolve;
mod stream;
mod usable;

pub use resolve::Resolve;
pub use stream::PathCosts;
