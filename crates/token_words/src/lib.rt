//! The words of a text, in any script, and the normal form by which words are compared.
//!
//! A text is cut where Unicode says that words begin and end (UAX #29), and each piece that holds
//! a letter or a number is a word. Contracts give both calls exactly: `tokens` and `normal` are
//! their definitions in `specs/`, and `tokens_are_the_words` says in other words what the first of
//! these gives. Of a text that is ASCII the normal form is its lower case. The crate stands on the
//! kit's tables and rules of Unicode 18.0.
#![tactic(auto)]

mod normal_form;
mod segment;
mod token_list;

pub use normal_form::normal;
pub use token_list::{first_tokens, tokens, tokens_are_the_words};
