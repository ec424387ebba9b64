//! What the settings of an index and a search come to, before a document is looked at.
//!
//! Promises that a search is refused exactly as its settings say (`check_search`), and so is a search of the values of an
//! attribute (`check_facet_search`), and gives by which rules documents are ranked, how each path of the registry is
//! used, which words of a query are left out and which stand for others, which attributes are counted, and which slice
//! of the hits is asked for. Knows settings, a registry of paths and a search, and no index. Stands on `index_settings`,
//! on `query_graph` and `synonym_terms`, which read queries, on `search_call`, `row_filter`, which names the attributes
//! of a filter, `facet_counts`, which orders those that are counted, and `doc_rows`, which has the use of a path.
#![tactic(auto)]

mod asked;
mod checks;
mod query_words;
mod refusal;
mod rules;
mod synonyms;
mod uses;
mod windows;

pub use asked::asked_paths;
pub use checks::{check_facet_search, check_search};
pub use query_words::QueryWords;
pub use refusal::{SearchFault, SearchRefusal};
pub use rules::{path_named, rules_of};
pub use uses::{ranks_are_low, use_alike, uses_behind, uses_of};
pub use windows::{window_end, window_start};
