ghost use Rattle.synonym_terms.specs.Synonyms.{HasTerm};

use crate::checks::{add, add_words, check, check_text, word, words};
use search_base::Term;
use std::alloc::Global;
use std::process::Abort;
use synonym_terms::*;

// What a look-up shows, the words, and the terms of the rows with this key.
const LOOK_UPS: [(&str, &str, &str); 8] = [
    ("one row", "ny", "new york;"),
    ("two rows of one key", "batman", "dark knight;bruce wayne;"),
    ("words of a term are no key", "dark", ""),
    ("a key of two words", "dark knight", "the batman;"),
    ("the words of a key in another order", "knight dark", ""),
    ("a longer key", "dark knight rises", ""),
    ("a key of four words", "a b c d", "an x;"),
    ("no row has this key", "knight", ""),
];

// A row whose term is words in front and a last one.
pub(crate) fn row(rt: &impl Abort, alloc: Global, key: &str, front: &str, last: &str) -> SynonymRow
    ensures { HasTerm result }
{
    let key = words(rt, alloc, key);
    let mut term = words(rt, alloc, front);
    term.push(word(rt, alloc, last)).expect(rt, "memory");
    SynonymRow { key, term }
}

fn table(rt: &impl Abort, alloc: Global) -> SynonymTable {
    let rows = [
        row(rt, alloc, "batman", "dark", "knight"),
        row(rt, alloc, "ny", "new", "york"),
        row(rt, alloc, "dark knight", "the", "batman"),
        row(rt, alloc, "batman", "bruce", "wayne"),
        row(rt, alloc, "a b c d", "an", "x"),
    ];
    let rows = Vec::from_array(alloc, rows).expect(rt, "memory");
    SynonymTable::build(alloc, rows).expect(rt, "memory")
}

fn tell(rt: &impl Abort, term: &Term, text: &mut String) {
    add_words(rt, text, &term.words, " ");
    add(rt, text, if term.prefix { "*;" } else { ";" });
}

fn told(rt: &impl Abort, alloc: Global, table: &SynonymTable, key: &str) -> String {
    let key = words(rt, alloc, key);
    let mut text = String::new(alloc);
    for term in &table.rows_for(alloc, &key).expect(rt, "memory") {
        tell(rt, term, &mut text);
    }
    text
}

#[test]
fn keys_have_these_terms(rt: HostRuntime) {
    let alloc = rt.alloc();
    let table = table(&rt, alloc);
    for (shows, key, wanted) in &LOOK_UPS {
        check_text(&rt, &told(&rt, alloc, &table, key), wanted, shows);
    }
    let none = SynonymTable::new(alloc);
    check(&rt, told(&rt, alloc, &none, "ny").is_empty(), "no row");
}
