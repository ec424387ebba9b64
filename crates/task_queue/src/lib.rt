//! The tasks of a server: those that wait their turn, and what became of the last ones that ran.
//!
//! A queue holds at most 16 tasks, numbered without a gap, and the outcomes of the last 1,000 tasks that have finished.
//! The oldest tasks of one index and one kind among storing, updating and removing documents are a batch. After `new`
//! or `restore` nothing takes memory but `outcomes`. What a change is, is the caller's: of it only the byte of its kind
//! counts. Contracts see a `TaskQueue` as a `Tasks`: the number of finished tasks and two lists, oldest first. Stands on `search_base` for words, and on `circular_buffer`, in which the outcomes
//! go round.
#![tactic(auto)]

mod laws;
mod outcome;
mod queue;
mod task;

pub use laws::{a_batch_is_the_longest_of_its_kind, each_task_is_found_until_it_is_forgotten};
pub use outcome::Outcome;
pub use queue::TaskQueue;
pub use task::{Task, TaskState, TaskView};
