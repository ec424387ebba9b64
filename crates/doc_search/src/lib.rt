//! A search over the documents of a store, answered from their row index with no document read.
//!
//! `IndexedDocuments` borrows a store, the row index of its documents, and how its paths are used, so that no change is
//! made while it lives. `search_documents` takes it with a `Search`. It gives the hits of the search as internal ids,
//! the best first, how many documents match, and the counts of facets over all that match. `search_distinct` gives the
//! same with hits of which no two have a value in common; what the values of a document are is its caller's to say, and
//! `LeafValues` gives those that the index keeps. `facet_values` gives of these counts the rows of the values of one
//! path that begin as a text. Definitions know the documents of the store alone.
//!
//! A search is three steps: the documents that pass the filter (`documents_passing`), the rules over those of them that
//! match (`Rules` of `rule_buckets`), and the hits of the window over these (`page`, or `distinct_page` of
//! `distinct_hits`). A search of values takes the first two, under no rule. A filter that is answered by one list is
//! asked of all documents; where there are words, any other is asked of those alone that match them. Below them a
//! `Snapshot` borrows what has a `RowIndex` and knows of which documents it is the index. It is a `RuleSource`: each
//! question of the ranking rules is one of posting lists, lengths, the facet index or the documents' own leaves, and
//! the rows of an id are those of its document, or none. Each condition of a condition graph is one question of
//! `posting_sets` or `near_words` (`meeting`), or of the places of a prefix (`SearchLists`), which are gathered once a
//! search; one on ranks, buckets or pair costs is answered for all numbers in one pass (`meeting_by_number`), and the
//! one on the first bucket alone where it is at hand. Few documents are sorted by their own numbers or leaves, and many
//! by the keys of the facet index. The crate stands on `doc_store`, `doc_index`, `row_index`, `whole_words`,
//! `near_words`, `filter_sets`, `sort_rule`, `rule_buckets`, `distinct_hits`, and on `list_facets`, which counts.
#![tactic(auto)]

mod answers;
mod by_number;
mod distinct;
mod documents;
mod facets;
mod found;
mod indexed;
mod leaf_values;
mod lists;
mod met;
mod ordered;
mod over;
mod parts;
mod passing;
mod source;
mod values;

pub use by_number::meeting_by_number;
pub use distinct::search_distinct;
pub use documents::IndexedDocuments;
pub use facets::AskedCounts;
pub use found::{DocumentsFound, Search, search_documents};
pub use indexed::IndexedRows;
pub use leaf_values::LeafValues;
pub use lists::SearchLists;
pub use met::meeting;
pub use passing::documents_passing;
pub use source::Snapshot;
pub use values::facet_values;
