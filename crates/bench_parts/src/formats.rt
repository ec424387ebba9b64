//! Formats the lines of a text on standard input, as hits of one search show them, and counts the bytes that are shown,
//! as often as it is told.
//!
//! Its words are what to do, the query, how many more terms there are, and how often. `format` shows each line with its
//! matched words between tags and cropped to 30 words, `matched` finds these words, and `words` only cuts the line.

use hit_format::{Format, TermSet};
use search_base::{NoMemory, Term, Word};
use std::alloc::Global;
use std::io::{self, Read};
use token_words::tokens;

fn text(rt: &HostRuntime) -> io::Result<String> {
    let mut text = String::new(rt.alloc());
    rt.stdin().read_to_string(&mut text)?;
    Ok(text)
}

fn term(alloc: Global, text: &str, prefix: bool) -> Result<Term, NoMemory> {
    let mut words = Vec::with_capacity(alloc, 1)?;
    words.push(Word::new(alloc, text)?)?;
    Ok(Term { words, prefix })
}

// The query's words, the last of them also as a prefix, and so many words more that stand in no text.
fn terms_of(alloc: Global, query: &str, more: u32) -> Result<Vec<Term>, NoMemory> {
    let mut terms = Vec::new(alloc);
    let mut last = "";
    for word in query.split(' ') {
        terms.push(term(alloc, word, false)?)?;
        last = word;
    }
    terms.push(term(alloc, last, true)?)?;
    for number in 0..more {
        let word = format!(in alloc; "synonym{number}")?;
        terms.push(term(alloc, &word, false)?)?;
    }
    Ok(terms)
}

fn cropped(alloc: Global) -> Result<Format, NoMemory> {
    Ok(Format {
        highlight: true,
        pre: Word::new(alloc, "<em>")?,
        post: Word::new(alloc, "</em>")?,
        crop: Some(30),
        marker: Word::new(alloc, "…")?,
    })
}

fn count(
    alloc: Global,
    what: &str,
    line: &str,
    terms: &TermSet,
    how: &Format,
) -> Result<u64, NoMemory> {
    let count = match what {
        "words" => tokens(alloc, line)?.len(),
        "matched" => terms.matched(alloc, line)?.len(),
        _ => terms.format(alloc, line, how)?.as_str().len(),
    };
    Ok(count as u64)
}

// One search: the terms of its query are made once, and each line is one hit.
fn search(
    alloc: Global,
    what: &str,
    text: &str,
    terms: &[Term],
    how: &Format,
) -> Result<u64, NoMemory> {
    let terms = TermSet::new(alloc, terms)?;
    let mut sum: u64 = 0;
    for line in text.lines() {
        sum = sum.saturating_add(count(alloc, what, line, &terms, how)?);
    }
    Ok(sum)
}

pub(crate) fn counted(rt: &HostRuntime, words: &[String]) -> Option<u64> {
    let [what, query, more, rounds] = words else {
        return None;
    };
    let alloc = rt.alloc();
    let terms = terms_of(alloc, query, more.parse::<u32>().ok()?).ok()?;
    let how = cropped(alloc).ok()?;
    let text = text(rt).ok()?;
    let mut last = 0;
    for _round in 0..rounds.parse::<u32>().ok()? {
        last = search(alloc, what, &text, terms.as_slice(), &how).ok()?;
    }
    Some(last)
}
