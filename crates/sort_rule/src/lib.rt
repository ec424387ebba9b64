//! Documents in the order of a sort key, one bucket after the other.
//!
//! `SortBuckets::next_bucket` promises of the documents that remain those with the least key, all of them, and the key;
//! those that stand under no key come last, under a key of their own. It is a `BucketStream` over any rows that know
//! their keys in order, and goes through these up to the one that it gives, and none after it. Rows that know the number
//! of each document may tell these when the stream is made (`OrderedRows::numbers`): they go into a heap in linear time,
//! and each bucket is taken off it. Or rows that know the key of each document may put them in order then
//! (`OrderedRows::ordered`), as is sooner done for few documents, and each bucket is taken from that order. `buckets_of`
//! makes it of documents with their keys. The crate stands on `search_base`, `doc_sets` and `bucket_sort`.
#![tactic(auto)]

mod entries;
mod grouped;
mod heap;
mod rows;
mod stream;

pub use entries::Entry;
pub use grouped::buckets_of;
pub use rows::{Numbered, OrderedRows};
pub use stream::SortBuckets;
