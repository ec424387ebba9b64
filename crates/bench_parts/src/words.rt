//! Cuts a text on standard input into words, `words`, or only scans its bytes, `scan`, as often as the second word says,
//! and counts the words or the bytes that are no blank.

use std::io::{self, Read};
use token_words::tokens;

fn text(rt: &HostRuntime) -> io::Result<String> {
    let mut text = String::new(rt.alloc());
    rt.stdin().read_to_string(&mut text)?;
    Ok(text)
}

fn count(rt: &HostRuntime, what: &str, text: &str) -> Option<u64> {
    let count = if what == "words" {
        tokens(rt.alloc(), text).ok()?.len()
    } else {
        text.bytes().filter(|b| *b != b' ').count()
    };
    Some(count as u64)
}

pub(crate) fn counted(rt: &HostRuntime, words: &[String]) -> Option<u64> {
    let [what, rounds] = words else {
        return None;
    };
    let rounds = rounds.parse::<u32>().ok()?;
    let text = text(rt).ok()?;
    let mut last = 0;
    for _ in 0..rounds {
        last = count(rt, what, &text)?;
    }
    Some(last)
}
