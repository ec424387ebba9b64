//! The searches that bodies and query strings ask for: one, several in one body, or one of a facet's values.
//!
//! Promises that each search is the one of its definition in specs/Searches.antt, specs/Multi.antt or
//! specs/FacetSearches.antt, or the first fault is told; the one free answer is want of memory. A search is read the
//! same from a body, from a query string and among the queries of one body that asks for several; a search of a facet's
//! values shares the text, the filter and the strategy with them. Contracts see a `MultiCall` as a `MultiData`. Stands
//! on request_refusals for why a request is refused and for the members of a search, on request_routes for the pairs of
//! query strings, on search_call for searches, on filter_expr for their filters, on index_settings for what a search
//! may sort by, on document_stream for when a body is JSON, on serde_json for its value, and knows no route.
#![tactic(auto)]

mod facets;
mod formats;
mod json;
mod members;
mod multi;
mod search;
mod values;

pub use facets::read_facets;
pub use json::{read_json, text_at};
pub use multi::{MultiCall, read_multi};
pub use search::{read_search, search_by_pairs};
