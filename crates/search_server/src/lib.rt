//! The server: it opens the machine that two disks hold, serves a link from it, or the links of a door one after the
//! other, and shows the demo, as the words of the command line ask. The wire promise is the clause `promise` of
//! `serve_link`, and `pipe` of `run_search_server`: the bytes written on a link are the replies of the plain machine to
//! the requests in the bytes read, by the status with which it ended (`specs/Served.antt`). A change is accepted as a
//! task, which waits; behind each reply that is neither 202 nor the one for want of memory the oldest batch of tasks
//! runs, and where it finds no memory the link ends with the batch put off. The crash promise stands beside it: no byte
//! of a reply is written before the task stands on a disk. So whatever a crash may leave on the disks holds all tasks
//! that were accepted, run in order (`NoTaskIsLost` in `specs/Laws.antt`); where a disk failed, these, with the one of
//! the last request, of whose reply no byte was written, or without it. The clause `serve` says that links are taken in
//! the door's order, that each is served by these promises from what the one before left and given back once, and that
//! a line for each is written to the pipe, save for one at which a disk failed (`specs/Links.antt`). Both clauses say
//! how the machine was opened, or why it was not (`specs/Opening.antt`); the clause `demo`, that what is printed are
//! the totals and ids that a machine answers to the demo's requests, where all tasks run behind each reply
//! (`specs/Demo.antt`). A log is told, request by request, each bucket that a search opens (`Logs` in
//! `specs/Run.antt`). What a link or a disk tells it goes on telling (`specs/Telling.antt`). Disks of version 1 hold an
//! image of version 2 before a link is served from them (`migrated` of `run_search_server`). Contracts see `LinkEnd`,
//! `Status` and `Command` as they are. Stands on `durable_machine` for the machine on its disks, `change_journal` for
//! why it was not opened, `search_routes` for the machine of the demo, `queued_changes` and `named_indexes` for what
//! becomes of tasks, `bucket_sort` and `index_core` for logs and what they are told, `http_wire` for the bytes,
//! `outside_io` and `link_doors` for links, disks and doors, and `demo_input` for the demo.
#![tactic(auto)]

mod demo;
mod laws;
mod line;
mod links;
mod run;
mod serve;
mod status;
mod turn;
mod words;

pub use laws::{
    disks_go_on_telling, last_task_is_not_lost, no_task_is_lost, reads_go_on_telling,
    turns_go_on_telling, writes_go_on_telling,
};
pub use run::run_search_server;
pub use serve::serve_link;
pub use status::{LinkEnd, Status};
pub use words::Command;
