//! A machine whose accepted tasks stand on two disks.
//!
//! Promises: the machine is opened as the two disks hold it (`held` in specs/Held.antt), or the first byte that is
//! damaged is named. It answers requests as the plain machine does, and gives no reply to a change that it accepts
//! before its task stands on a disk. So where nothing failed, whatever a crash leaves there holds what the machine
//! leaves once all its tasks have run, with what became of them, and where a disk failed, that from before the call or
//! that with the task of the request. Running a batch changes neither disk. The active image is of version 2 from the
//! opening on, unless its generation is the last (`IsMigrated` in specs/Durable.antt). Contracts see `DurableMachine`
//! as a record of a `State` and a `Journal`, and tie it to the disks by `IsDurable`, and by `CrashHolds` what a crash
//! may leave on them. Stands on search_routes for the machine, on queued_changes, task_queue and named_indexes for its
//! tasks and their changes, on change_journal for the two disks, on index_image and change_payloads for images and
//! payloads, on request_calls for what a request asks, on http_wire for requests and replies, on bucket_sort for logs
//! and what they are told, and on outside_io for disks.
#![tactic(auto)]

mod machine;
mod opening;
mod recording;

pub use machine::{Answered, DurableMachine};
