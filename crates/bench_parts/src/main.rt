//! A program for four scripts under bench/: it does one thing with one part of the server as often as it is told, and
//! prints what it counted last.
//!
//! Its first word says which part: `words` (bench/words.py), `formats` (bench/formats.py), `pages` (bench/buckets.py)
//! or `lists` (bench/postings.py). What stands behind it is said in the module of that name. Any other words end with
//! status 1, and so does want of memory.
#![tactic(auto)]

mod asked;
mod filled;
mod formats;
mod lists;
mod pages;
mod ranks;
mod rules;
mod words;

use std::env;
use std::io::{self, Write};
use std::process::ExitCode;

// The words after the program's own name.
fn words_of(rt: &HostRuntime) -> io::Result<Vec<String>> {
    let mut words = Vec::new(rt.alloc());
    for word in env::args(rt)?.skip(1) {
        words.push(word)?;
    }
    Ok(words)
}

// What was counted last, as text.
fn told(rt: &HostRuntime) -> Option<String> {
    let words = words_of(rt).ok()?;
    let (part, rest) = words.split_first()?;
    let count = match part.as_str() {
        "words" => words::counted(rt, rest)?,
        "formats" => formats::counted(rt, rest)?,
        "lists" => lists::counted(rt.alloc(), rest)?,
        "pages" => return pages::told(rt.alloc(), rest),
        _ => return None,
    };
    format!(in rt.alloc(); "{count}").ok()
}

fn main(rt: HostRuntime) -> ExitCode {
    match told(&rt) {
        Some(text) => {
            let _ = writeln!(rt.stdout(), "{text}");
            ExitCode::SUCCESS
        }
        None => ExitCode::FAILURE,
    }
}
