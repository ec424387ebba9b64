//! The route that a request takes, the uid, the id or the number that its path names, and what its query string says.
//!
//! Promises that a method and a path give the route of `route_of` in specs/Routes.antt, and a route and a query string
//! the pairs of `query_for` in specs/Query.antt, or else the refusal of that definition; the one free answer is want of
//! memory. Paths are looked up in a `RouteTable`, which is made before the first request. The pairs of a search are not
//! tried here. No request has two routes (`one_route_at_most`). Contracts see a `Found` through `given_by` and a `Pair`
//! through `pair_of` of specs/Held.antt. Stands on request_refusals for refusals, on doc_values for uids, on matchit
//! for paths, and on form_urlencoded for query strings.
#![tactic(auto)]

mod laws;
mod parts;
mod query;
mod routes;
mod table;

pub use laws::one_route_at_most;
pub use query::{Pair, count_in, fields_in, number_of, read_query, text_in, texts_of};
pub use routes::{Found, Route, check_named, find_route, split_target, task_number};
pub use table::RouteTable;
