//! What a server touches outside its own memory: links that bytes come from and go to, and disks.
//!
//! A trait says what the outside means, where it tells it, and counts its faults; a call fails only
//! where its count rose. `MemoryLink` and `MemoryDisk` tell their bytes and fail at the calls that
//! they are told; `StdLink` is standard input and output, `FileDisk` a file, and both tell none.
//! Contracts see a `MemoryLink` as a `MemoryLinkState` and a `MemoryDisk` as a `MemoryDiskState`.
//! Stands on `search_base` alone.
#![tactic(auto)]

mod disk;
mod file_disk;
mod link;
mod memory_disk;
mod memory_link;
mod std_link;

pub use disk::Disk;
pub use file_disk::FileDisk;
pub use link::{Failed, Link};
pub use memory_disk::MemoryDisk;
pub use memory_link::MemoryLink;
pub use std_link::StdLink;
