//! The plain types that every crate of the search server shares, and the definitions of a search.
//!
//! Each type holds data and promises little: a `Word` is its bytes, `CostKey::before` is a total
//! order, and a tick adds one to its counter. Contracts see a type with a vector among its parts
//! as a record of lists, and each other type as it is declared. `specs/` says what a search means:
//! where a term occurs in a document, the readings of a query, and the costs by which documents
//! are ranked.
#![tactic(auto)]

mod cost_key;
mod document;
mod fault;
mod memory;
mod outcome;
mod position;
mod query;
mod rule;
mod short_text;
mod steps;
mod token;
mod value;
mod word;

pub use cost_key::{CostKey, SortKey, keys_are_ordered};
pub use document::{DocId, DocRows, Leaf, Mark, MarkKind, PathId, Place};
pub use fault::Fault;
pub use memory::NoMemory;
pub use outcome::OutcomeRow;
pub use position::bucket;
pub use query::{
    Block, Graph, Kind, LevelGraph, PlacedBlock, Strategy, Term, empty_queries_cost_nothing,
    matches_have_sums, readings_are_the_paths,
};
pub use rule::Rule;
pub use steps::Steps;
pub use token::Token;
pub use value::FacetValue;
pub use word::Word;
