use crate::checks::check;
use postings::{Change, Postings};
use search_base::{DocId, PathId, Place, Word};
use std::alloc::Global;
use std::ops::Bound;
use std::process::Abort;

// The number of a document, its first word, the word behind its last, and whether it comes or goes.
type Turn = (u32, u32, u32, bool);

const WORDS: u32 = 900;

const DOCUMENTS: u32 = 3;

// Words come, go, and come again under numbers that others had in between.
const TURNS: [Turn; 8] = [
    (0, 0, 300, true),
    (1, 100, 200, true),
    (0, 0, 300, false),
    (2, 500, 900, true),
    (0, 0, 300, true),
    (1, 100, 200, false),
    (2, 500, 900, false),
    (1, 250, 700, true),
];

fn word(rt: &impl Abort, alloc: Global, number: u32) -> Word {
    let mut text = String::new(alloc);
    write!(text, "word{number}").expect(rt, "memory");
    Word::from_string(text).expect(rt, "memory")
}

// Each word of the document once.
fn places(rt: &impl Abort, alloc: Global, turn: &Turn) -> Vec<Place> {
    let mut places = Vec::new(alloc);
    for number in turn.1..turn.2 {
        let place = Place {
            path: PathId(0),
            rank: 0,
            position: 7,
            word: word(rt, alloc, number),
        };
        places.push(place).expect(rt, "memory");
    }
    places
}

fn commit(rt: &impl Abort, alloc: Global, postings: &mut Postings, turn: &Turn) {
    let places = places(rt, alloc, turn);
    let mut change = Change::new(alloc);
    let id = DocId(turn.0);
    if turn.3 {
        change.put_in(alloc, id, &places).expect(rt, "memory");
    } else {
        change.take_out(alloc, id, &places).expect(rt, "memory");
    }
    let prepared = postings.prepare(alloc, change).expect(rt, "memory");
    postings.commit(prepared);
}

// Whether a word stands in a document after these turns.
fn stands(done: &[Turn], id: u32, number: u32) -> bool {
    let mut found = false;
    for (document, from, to, comes) in done {
        if *document == id && *from <= number && number < *to {
            found = *comes;
        }
    }
    found
}

// In how many documents a word stands.
fn count(done: &[Turn], number: u32) -> usize {
    let mut count = 0_usize;
    for id in 0..DOCUMENTS {
        if stands(done, id, number) {
            count = count.saturating_add(1);
        }
    }
    count
}

// The list of a word is that of the documents, and tells how long it is.
fn check_word(
    rt: &impl Abort,
    alloc: Global,
    postings: &Postings,
    done: &[Turn],
    number: u32,
) -> bool {
    let wanted = count(done, number);
    let Some(list) = postings.row(&word(rt, alloc, number)) else {
        check(rt, wanted == 0, "a list");
        return false;
    };
    check(
        rt,
        !list.is_empty() && list.pages().len() == wanted,
        "places",
    );
    for entry in list.pages().iter() {
        check(rt, stands(done, (entry >> 32) as u32, number), "documents");
        check(rt, entry & 0xFFFF_FFFF == 7, "positions");
    }
    true
}

fn check_words(rt: &impl Abort, alloc: Global, postings: &Postings, done: &[Turn]) {
    let mut wanted = 0_usize;
    for number in 0..WORDS {
        if check_word(rt, alloc, postings, done, number) {
            wanted = wanted.saturating_add(1);
        }
    }
    let mut found = 0_usize;
    for (_word, list) in postings.words_from(Bound::Unbounded) {
        check(rt, !list.is_empty(), "shown");
        found = found.saturating_add(1);
    }
    check(rt, found == wanted, "words");
}

#[test]
fn words_that_come_again(rt: HostRuntime) {
    let alloc = rt.alloc();
    let mut postings = Postings::new(alloc);
    let mut done: Vec<Turn> = Vec::new(alloc);
    for turn in &TURNS {
        commit(&rt, alloc, &mut postings, turn);
        done.push(*turn).expect(&rt, "memory");
        check_words(&rt, alloc, &postings, &done);
    }
}

// How many places the words from a bound on have.
fn places_from(postings: &Postings, low: Bound<&Word>) -> usize {
    let mut count = 0_usize;
    for (_word, list) in postings.words_from(low) {
        count = count.saturating_add(list.pages().len());
    }
    count
}

// A text, and how many of the words 1, 10 and 2 stand from it on, with it and without it.
const BOUNDS: [(&str, usize, usize); 6] = [
    ("", 3, 3),
    ("word1", 3, 2),
    ("word1-", 2, 2),
    ("word10", 2, 1),
    ("word2", 1, 0),
    ("word3", 0, 0),
];

#[test]
fn words_from_a_bound(rt: HostRuntime) {
    let alloc = rt.alloc();
    let mut postings = Postings::new(alloc);
    commit(&rt, alloc, &mut postings, &(2, 1, 3, true));
    commit(&rt, alloc, &mut postings, &(0, 10, 11, true));
    for (text, with, without) in &BOUNDS {
        let word = Word::new(alloc, text).expect(&rt, "memory");
        let from = places_from(&postings, Bound::Included(&word));
        check(&rt, from == *with, text);
        let behind = places_from(&postings, Bound::Excluded(&word));
        check(&rt, behind == *without, text);
    }
    check(&rt, places_from(&postings, Bound::Unbounded) == 3, "all");
}
