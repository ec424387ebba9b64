//! The demo: many documents that are made from one number, the requests that send them and search them, and the lines
//! that the replies come to.
//!
//! Promises that a `Demo` gives exactly the requests of `steps` in specs/Steps.antt, one after the other, and that a
//! line of the summary is `search_line` of specs/Summary.antt, whatever the reply's body is; the one error is want of
//! memory. Contracts see a `Demo` as the list of the requests that it has left, and a `Step` through `view_of`. Stands
//! on `http_wire` for requests, and on nothing that answers them.
#![tactic(auto)]

mod demo;
mod documents;
mod draws;
mod summary;

pub use demo::{Demo, Step};
pub use summary::{first_line, search_line};
