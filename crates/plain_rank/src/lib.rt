//! The costs of one document under a query, from the document's rows alone.
//!
//! `cost_tuple` gives exactly the entries by which documents are ranked, and says which documents
//! match at all. It is the plain way to rank: it asks one document, and the program makes no list
//! of the query's readings. Contracts see rows and query as `search_base` does, whose definitions
//! the answer is. The crate stands on `search_base` alone.
#![tactic(auto)]

mod least;
mod level;
mod near;
mod numbers;
mod occurrence;
mod pairs;
mod runs;
mod sort_key;
mod sums;
mod tuple;
mod whole;

pub use tuple::{cost_tuple, the_first_match_counts};
