//! Fills posting lists with documents of 46 words, does one thing to them as often as it is told, and gives what it
//! counted last.
//!
//! Its words are what to do, how many thousands of documents there are, and how often. `put` puts one more document in,
//! `replace` takes one out and puts it in with other words, `walk` goes over each list, and the rest ask a question
//! about all documents: `word`, `prefix`, `phrase`, `pair`, `near` (a pair whose right word is a prefix) and `bucket`.

use crate::asked::{all_of, asked, walked};
use crate::filled::{fill, put, replace};
use postings::Postings;
use search_base::NoMemory;
use std::alloc::Global;

fn done(alloc: Global, what: &str, thousands: u32, rounds: u32) -> Result<u64, NoMemory> {
    let mut postings = Postings::new(alloc);
    fill(alloc, &mut postings, thousands)?;
    let size = thousands.saturating_mul(1_000);
    let universe = all_of(alloc, size)?;
    let mut last = 0;
    for round in 0..rounds {
        last = match what {
            "put" => put(alloc, &mut postings, size.saturating_add(round))?,
            "replace" => replace(alloc, &mut postings, size, round)?,
            "walk" => walked(alloc, &postings)?,
            _ => asked(alloc, &postings, what, &universe)?,
        };
    }
    Ok(last)
}

pub(crate) fn counted(alloc: Global, words: &[String]) -> Option<u64> {
    let [what, thousands, rounds] = words else {
        return None;
    };
    let thousands = thousands.parse::<u32>().ok()?;
    let rounds = rounds.parse::<u32>().ok()?;
    done(alloc, what, thousands, rounds).ok()
}
