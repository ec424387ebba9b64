//! Sets of documents: increasing lists of their internal ids, or a bit for each id.
//!
//! Each call is an operation on lists: what it gives, and what it leaves in the set, is one
//! equation on the ids, whichever form the set has. Contracts see a set as the record of its ids
//! and of `spare`, which is how many more ids fit without memory; up to four ids never take any. A
//! set with about one id in 128 or more below its greatest is made as bits, which meet and join a
//! word at a time; a set that grows by `insert` from `new`, or that has room reserved, is a list, and
//! one with room made for it is bits. `join` and `subtract` change a set of bits where it stands. The
//! crate stands on `search_base` and `smallvec`.
#![tactic(auto)]

mod bits;
mod builder;
mod doc_set;
mod in_place;
mod kept;
mod law;
mod merge;
mod words;

pub use bits::{BitIter, Bits};
pub use builder::DocSetBuilder;
pub use doc_set::{DocIter, DocSet};
pub use law::{operations_are_on_members, sets_are_their_members};
