//! Posting lists: for each word the places where it stands in the documents, changed in place.
//!
//! A place is one number, of its document, path and position, and the list of a word is strictly
//! increasing. After any changes the list of each word is exactly its places in the documents as
//! they stand, each once, and a word without a place has no list. Whole documents go and come: a
//! `Change` gathers them, `prepare` takes all memory and leaves every answer, and `commit` and
//! `release` take none and cannot be refused. A place that goes and comes stays: where a document
//! is replaced, only the words whose places differ are part of what is prepared. A word is looked up
//! by a hash that is only a hint: a number is taken where its word is the one that is asked for, and
//! else the ordered map of words is asked. A change gathers its words by such hints too: a word whose
//! hint was lost stands in several rows, which are joined. Each list with its sets is one of
//! `posting_list`.
//! Contracts see postings as lists by word, a change as what each word loses and gains. The crate
//! stands on `search_base`, `sorted_pages` and `posting_list`.
#![tactic(auto)]

mod change;
mod dictionary;
mod entry;
mod gathered;
mod hints;
mod joined;
mod postings;
mod prefix;
mod settled;
mod slots;
mod words;

pub use change::{Change, Prepared};
pub use postings::Postings;
pub use prefix::PrefixLists;
pub use words::WordLists;
