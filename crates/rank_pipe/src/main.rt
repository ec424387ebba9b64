//! The server as a program once more, which the gate runs with `pipe`: on the two files of `data/`, which hold an image
//! and a journal, and on the requests in `stdin`, which end inside one. `stdout` and `status` are what a second machine
//! answers, written independently from the same rules; they never come from this program. `bench/stream.py` adds
//! requests.
#![tactic(auto)]

use std::process::ExitCode;

fn main(rt: HostRuntime) -> ExitCode {
    rank_program::run(&rt)
}
