//! One posting list: the places of a word in documents, changed in place, with sets of these documents beside it.
//!
//! A place is one number, of its document, path and position, and the list is strictly increasing. Beside a long list
//! stands the set of its documents, as bits, and beside a longer one also that of the documents that begin a path with
//! the word, and both sets for each of the first paths. A set that is there has exactly the documents of the places it
//! is for; which lists have sets is a matter of speed, and no contract says it. `reserve` takes all memory and leaves
//! the places, and `change` takes none and cannot be refused: a set without room goes. Contracts see a list as its
//! pages, and places as numbers. The crate stands on `search_base`, `doc_sets` and `sorted_pages`, and knows no words.
#![tactic(auto)]

mod documents;
mod moved;
mod part;
mod posting_list;

pub use documents::last_document;
pub use posting_list::PostingList;
