//! The plain machine of the search server: a call is performed, and has one reply.
//!
//! Promises: the reply to a request is that of `step` in specs/Machine.antt, and the machine's state follows it; or the
//! reply is the constant one for want of memory, and the state stays. A change is accepted as a task, which waits; the
//! tasks run in batches, as `queued_changes` says. A machine gives an image of what its finished tasks left and of what
//! became of the last of them, which opens to that, and the payload that records the change of a task is read again as
//! this task (specs/Images.antt, specs/Redo.antt). Contracts see `Machine` as a `State`: the number of finished tasks,
//! those that wait, what became of the last ones, and each index by its uid. Stands on named_indexes, which are the
//! indexes and the changes that they take, on queued_changes and task_queue for the tasks, on index_core, which is one
//! index, on index_image and change_payloads for images and payloads, on request_calls, which reads a request into a
//! call, on search_bodies for several searches in one body, on request_refusals for why a request is refused, on
//! request_replies for what is shown of what was done, on multi_search for making several searches in one call, on
//! doc_values for documents, on document_changes for changes, and on http_wire for requests and replies.
#![tactic(auto)]

mod asking;
mod indexes;
mod laws;
mod machine;
mod multi;
mod performing;
mod reads;
mod searching;
mod tasks;

pub use asking::ask;
pub use laws::{
    each_is_answered_alike, none_answers_503, what_is_accepted_is_counted, what_is_accepted_waits,
};
pub use machine::Machine;
pub use performing::{answer, is_followed, perform};
pub use request_calls::{Call, ReadCall, read_call};
pub use request_refusals::Refusal;
pub use search_call::SearchCall;
pub use tasks::{PreparedTask, task_again};
