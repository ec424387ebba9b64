//! The synonyms of an index: which words may stand for which other words.
//!
//! A table is seen as the list of the rows that it was built from. `rows_for` gives the terms of
//! exactly the rows whose key is the words asked for: a map by key says which rows these are, so it
//! does not go through the others. Synonyms go one way: a term is not looked up in its turn. The crate
//! stands on `search_base` alone.
#![tactic(auto)]

mod table;

pub use table::{SynonymRow, SynonymTable};
