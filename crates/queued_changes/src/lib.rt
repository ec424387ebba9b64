//! A machine whose changes wait and are made in batches, over any worker that makes them.
//!
//! A change that is accepted waits as a task; 16 may wait. To settle hands the oldest batch to the worker, and what the
//! machine holds then is what its tasks leave one by one. Laws say that what waits, once it has run, is what was
//! accepted, run in order, whatever the batches were. Contracts see a `Queued` as a `State`: the number of finished
//! tasks, those that wait, the outcomes of the last ones, and what the worker holds. Stands on `task_queue` for the
//! tasks, and on `search_base` for words and steps.
#![tactic(auto)]

mod laws;
mod queued;
mod worker;

pub use laws::{
    opening_runs_each_task, outcomes_tell_what_was_made, requests_run_their_tasks_in_order,
    running_in_batches_is_running_in_order,
};
pub use queued::Queued;
pub use worker::Worker;
