//! The facet index: which documents have a value, a number of a range, or a mark under a path, and in which order they
//! are sorted by its values.
//!
//! It stands on posting lists whose words are the keys of facets, so it is changed as they are: whole documents go and
//! come, `prepare` takes all memory and leaves every answer, and `commit` and `release` take none and cannot be
//! refused. After any changes each answer is that of the leaves and marks of the documents as they stand, inside a
//! universe of documents. A document stands once more at the key of its least value under each path, and at that of its
//! greatest, so that `next_sort` comes to the next entry in one walk over the keys, and `sort_docs` gives the documents
//! of an entry. It stands at the key of each text as which it is counted too, and at that of its first spelling, where
//! this is another. `first_value` and `entry_of` tell what leaves are sorted by, without an index. The crate stands on
//! `search_base`, `doc_sets`, `sorted_pages`, `posting_list`, `postings`, `facet_counts`, for what is counted as one,
//! and `facet_keys`.
#![tactic(auto)]

mod change;
mod counted;
mod ends;
mod facet_index;
mod indexed;
mod lists;
mod places;
mod ranges;
mod sorts;

pub use change::{FacetChange, PreparedFacets};
pub use ends::first_value;
pub use facet_index::FacetIndex;
pub use indexed::Indexed;
pub use sorts::entry_of;
