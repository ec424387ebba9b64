//! The leaves of each document, by its internal id.
//!
//! A facet index tells which documents have a value; a `LeafTable` tells which values a document has. So few documents
//! are counted or sorted by what they have themselves, and not by going through all values of a path. It is changed as
//! the facet index is: whole documents go and come, `prepare` takes all memory and leaves every answer, and `commit`
//! takes none and cannot be refused. Documents that have the same leaf share it, as far as it is found. The crate
//! stands on `search_base`, `doc_sets` and `facet_index`.
#![tactic(auto)]

mod change;
mod columns;
mod copies;
mod few_numbers;
mod hints;
mod leaf_row;
mod leaf_rows;
mod numbers;
mod pool;
mod table;

pub use change::{LeafChange, PreparedLeaves};
pub use table::LeafTable;
