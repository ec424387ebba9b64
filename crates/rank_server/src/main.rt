//! The server as a program: all that it does stands in `rank_program`.
#![tactic(auto)]

use std::process::ExitCode;

fn main(rt: HostRuntime) -> ExitCode {
    rank_program::run(&rt)
}
