//! What it is that a document passes a filter, and which attributes a filter names.
//!
//! The meaning of a filter is told of the leaves and marks of one document, by the definition `holds` in
//! specs/Holds.antt. No code tries one document: `filter_sets` answers by sets, and is proved by this meaning.
//! `attributes` lists the attributes of a filter's tests. Stands on `filter_tree` for filters, on `token_words` for
//! normal forms, and on `search_base`.
#![tactic(auto)]

mod attribute_list;

pub use attribute_list::attributes;
