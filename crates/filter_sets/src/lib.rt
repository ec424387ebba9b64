//! The documents that pass a filter, as a set that the facet index and the table of leaves answer.
//!
//! `select` promises exactly the documents of a set of which the filter's meaning holds, by the definition over their
//! leaves and marks: a negation is the complement within that set. It asks the index for each test, but for those that
//! a test beside them decides; a range of numbers whose lists are long is asked of the leaves of each document of the
//! set. No document is read. The crate stands on `search_base`, `doc_sets`, `token_words` for normal forms,
//! `filter_tree`, `row_filter` for the meaning of filters, `facet_index` and `leaf_table`.
#![tactic(auto)]

mod conditions;
mod documents;
mod join;
mod source;
mod test;

pub use documents::select;
pub use source::Facets;
