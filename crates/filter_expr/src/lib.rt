//! The filter language: filters of a search as texts, and their parser.
//!
//! Want of memory apart, `parse` answers `Ok` exactly for the filters of the grammar, with the tree
//! that the grammar gives, and else the first fault with its place. The grammar is a relation over
//! derivations and spelled tokens in `Grammar` and `Text` of `filter_machine/specs`, which knows nothing
//! of the parser; contracts see a filter as its tree. The contract of `parse` names its answer as a
//! function of the value, `parsed` in `specs/Answer.antt`. The laws say that the grammar allows this
//! answer, and no other. The parser feeds characters to the machine of `filter_machine`, which has a
//! stack of its own, so no input makes it recurse. The crate stands on `filter_machine`, `filter_tree`,
//! `search_base` and `serde_json`.
#![tactic(auto)]

mod fault;
mod feed;
mod laws;
mod member;
mod shape;
mod text;
mod wide;

pub use fault::{FilterFault, FilterRefusal};
pub use laws::{a_text_has_one_tree, a_value_has_one_answer, answers_are_the_grammars};
pub use member::parse;
