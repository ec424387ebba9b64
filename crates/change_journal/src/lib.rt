//! A journal of changes on two disks: what was acknowledged survives a crash at any moment.
//!
//! Two disks stand for an image of a state and the changes since, in order. A crash while a change is
//! added or a checkpoint is made leaves what stood before or what was to be, and a crash after it
//! succeeded always the latter; opening gives what is stored, or the first byte that is damaged. At
//! the last generation no checkpoint is made any more. Contracts see the bytes of two disks as their
//! `stored_pair`, and a `Record` as an `Entry`. Stands on `search_base`, on `outside_io` for disks,
//! and on `index_image` and `change_payloads` for images.
#![tactic(auto)]

mod add;
mod entry;
mod first;
mod journal;
mod making;
mod opening;
mod remake;
mod through;

pub use entry::Record;
pub use first::FirstJournal;
pub use journal::{Journal, Side};
pub use making::record;
pub use opening::{JournalFault, Opened, StoredChange, open};
