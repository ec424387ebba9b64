//! What a change does to one index: the plan that is made of it, and the work that the plan asks for, on the store, the
//! settings and what is kept of the documents for searches. Also the index as the rows of an image, and from them.
//!
//! Promises that a plan tries the key of a change and then each id, or the members of a patch, and changes nothing; and
//! that the work is done whole or not at all: all memory is taken first, and a refusal leaves store and settings as
//! they were. An update is its documents stored one after the other, each over the one that is stored by then. What is
//! kept stays what a search sees of the documents, under the settings. Contracts see an index as an `Index`: its key,
//! its store of paths and rows, and its settings. It knows no search. Stands on `doc_store`, which keeps the documents,
//! on `doc_values`, which reads keys and ids off them, on `index_settings`, which patches settings, on
//! `search_settings`, which says how they use paths, on `row_index` and `doc_index`, which keep what a search sees of
//! documents, and on `index_image`, which has the rows of images.
#![tactic(auto)]

mod batch;
mod change;
mod external_ids;
mod gathered;
mod image;
mod kept;
mod key;
mod laws;
mod new_settings;
mod plan;
mod refusal;
mod update;

pub use batch::{BatchKind, batch_kind, no_faults, removed_ids};
pub use change::{remove_named, replace_documents, store_gathered, update_documents};
pub use gathered::{Gathered, gather};
pub use image::{ReadDocuments, image_of, read_documents};
pub use kept::KeptRows;
pub use laws::{
    changes_keep_key_paths_and_ids, documents_stay_under_their_ids, settings_read_once,
};
pub use new_settings::{patch_settings, reset_settings};
pub use plan::{Plan, Work, keeping_key, no_work, planned_patch, planned_replace, planned_update};
pub use refusal::{CoreFault, CoreRefusal, refusal_in};
