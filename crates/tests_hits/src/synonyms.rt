ghost use Rattle.synonym_terms.specs.Synonyms.{HasTerm};

use crate::asked::{tagged, terms_of};
use crate::checks::{check_text, word};
use hit_format::format;
use search_base::Word;
use std::alloc::Global;
use std::process::Abort;
use synonym_terms::{SynonymRow, SynonymTable};

// What a text shows, the text, the query, the words that have a synonym, the words of this in front of its last one,
// its last one, how many words are shown, and the format. A second machine, written from the rules alone, gave these.
const SYNONYMS: [(&str, &str, &str, &str, &str, &str, Option<u64>, &str); 6] = [
    (
        "a word for several",
        "NYC is new york, not new",
        "nyc ",
        "nyc",
        "new",
        "york",
        None,
        "<NYC> is <new> <york>, not new",
    ),
    (
        "several words for one",
        "the big apple is NYC",
        "big apple ",
        "big apple",
        "",
        "nyc",
        None,
        "the <big> <apple> is <NYC>",
    ),
    (
        "three words for two, cropped",
        "the city of new york lies there",
        "big apple ",
        "big apple",
        "city of",
        "new",
        Some(3),
        "…<city> <of> <new>…",
    ),
    (
        "several words must stand in a row",
        "new old york",
        "nyc ",
        "nyc",
        "new",
        "york",
        None,
        "new old york",
    ),
    (
        "no prefix of a synonym",
        "new yorker",
        "nyc",
        "nyc",
        "new",
        "york",
        None,
        "new yorker",
    ),
    (
        "a synonym goes one way",
        "nyc new york",
        "new york ",
        "nyc",
        "new",
        "york",
        None,
        "nyc <new> <york>",
    ),
];

// The words between blanks, none of an empty text.
fn words(rt: &impl Abort, alloc: Global, text: &str) -> Vec<Word> {
    let mut words = Vec::new(alloc);
    for part in text.split_whitespace() {
        words.push(word(rt, alloc, part)).expect(rt, "memory");
    }
    words
}

// A row whose term is words in front and a last one.
fn row(rt: &impl Abort, alloc: Global, key: &str, front: &str, last: &str) -> SynonymRow
    ensures { HasTerm result }
{
    let key = words(rt, alloc, key);
    let mut term = words(rt, alloc, front);
    term.push(word(rt, alloc, last)).expect(rt, "memory");
    SynonymRow { key, term }
}

fn table(rt: &impl Abort, alloc: Global, key: &str, front: &str, last: &str) -> SynonymTable {
    let rows = [row(rt, alloc, key, front, last)];
    let rows = Vec::from_array(alloc, rows).expect(rt, "memory");
    SynonymTable::build(alloc, rows).expect(rt, "memory")
}

#[test]
fn synonyms_of_several_words_are_marked(rt: HostRuntime) {
    let alloc = rt.alloc();
    for (name, text, q, key, front, last, crop, wanted) in &SYNONYMS {
        let terms = terms_of(&rt, alloc, q, table(&rt, alloc, key, front, last));
        let how = tagged(&rt, alloc, *crop);
        let found = format(alloc, text, terms.as_slice(), &how).expect(&rt, "memory");
        check_text(&rt, found.as_str(), wanted, name);
    }
}
