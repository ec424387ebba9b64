//! What a query asks for: the items of its text, and the graph of how they may be read.
//!
//! `items` is exactly its definition in `specs/`. The graph that `build_graph` makes has the
//! readings of the items that each level keeps, and so the costs of every document: a block is kept
//! once, however many readings it is in, and no reading is ever listed. Contracts see `Items` as
//! the list of its items, and an item as a record of lists. The crate stands on `token_words`,
//! which cuts texts into words, and on `synonym_terms`.
#![tactic(auto)]

mod block;
mod graph;
mod item;
mod text;

pub use graph::{build_graph, readings_cut_the_items};
pub use item::{Item, Items};
pub use text::items;
