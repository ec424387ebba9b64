//! One index: its primary key, its settings, the documents that it holds under their ids, and the search for words in
//! them.
//!
//! Promises that a change is first planned, which tries the key and each id, or the members of a patch, and changes
//! nothing, and then applied as one step that is done whole or not at all; that a search gives the asked slice of the
//! documents that match, by their costs and then by internal id, reads no other document, and tells a log each bucket
//! that it opens on the way; that where an attribute is distinct, no two hits have a value of it in common, and beside
//! the hits no documents are read but those that are looked at until the slice is full; that the terms by which texts
//! are marked are those of the query; and that a search of the values of an attribute gives those that documents have
//! which match, and reads none of them. The rows of an image that an index gives are a state that may stand in an
//! image, and give the index back. Contracts see an `IndexCore` as an `Index`: its key, its store of paths and rows,
//! and its settings. The costs of a document are those under the readings of the query, of which definitions know no
//! graph. Stands on `index_changes`, which plans changes, does their work and has what contracts see of an index, on
//! `doc_store`, which keeps the documents, on `search_settings`, which reads searches by the settings, on `row_index`
//! and `doc_search`, which keep what a search sees of documents and search it, on `list_facets`, which has what values
//! are asked for, on `distinct_hits`, which has what values are told apart by, on `hit_format`, which gives the terms
//! of a query, on `plain_rank`, which gives the costs of a hit, and on `index_image`, which has the rows of images.
#![tactic(auto)]

mod call;
mod distinct;
mod findings;
mod index;
mod laws;
mod ranking;
mod read;
mod terms;
mod values;

pub use call::Listing;
pub use index::IndexCore;
pub use index_changes::{
    CoreFault, CoreRefusal, Plan, changes_keep_key_paths_and_ids, documents_stay_under_their_ids,
    settings_read_once,
};
pub use laws::{hits_are_each_once, no_word_finds_the_list, other_patches_leave_ranking};
