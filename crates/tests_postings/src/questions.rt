use crate::checks::check;
use crate::places::{
    Document, Spot, WORDS, add_document, any_spots, commit, leave, next, spots_of as spots_from,
    word,
};
use doc_sets::{DocSet, DocSetBuilder};
use posting_sets::{
    PrefixPlaces, documents, documents_at_first, documents_by_beginning, documents_by_bucket,
    documents_by_rank, numbers_are_those_of_blocks,
};
use postings::Postings;
use search_base::{DocId, Term, bucket};
use std::alloc::Global;
use std::process::Abort;

// The ranks of the paths. The one in the middle has none.
const RANKS: [Option<u16>; 3] = [Some(1), None, Some(0)];

// What is asked: words of the table in a row, and whether the one word is a prefix.
type Asked = (Vec<usize>, bool);

fn text(at: usize) -> &'static str {
    WORDS.get(at).copied().unwrap_or("none")
}

// Whether a word of the table, or a longer one that begins so, stands at a position of a path.
fn stands(spots: &[Spot], word: usize, prefix: bool, path: u16, position: u32) -> bool {
    for (at, other, from) in spots {
        let same = text(*at) == text(word) || (prefix && text(*at).starts_with(text(word)));
        if same && *other == path && u32::from(*from) == position {
            return true;
        }
    }
    false
}

// Whether the words stand in a row from here on.
fn stands_at(spots: &[Spot], asked: &Asked, path: u16, from: u16) -> bool {
    let mut position = u32::from(from);
    for word in &asked.0 {
        if !stands(spots, *word, asked.1, path, position) {
            return false;
        }
        position = position.wrapping_add(1);
    }
    true
}

// The least rank or bucket of the places where the term occurs, and whether it occurs.
fn least(spots: &[Spot], asked: &Asked, by_rank: bool) -> (bool, Option<u16>) {
    let mut occurs = false;
    let mut least: Option<u16> = None;
    for (_at, path, position) in spots {
        if stands_at(spots, asked, *path, *position) {
            occurs = true;
            let number = if by_rank {
                RANKS.get(usize::from(*path)).copied().flatten()
            } else {
                Some(u16::from(bucket(*position)))
            };
            if let Some(number) = number {
                least = Some(least.unwrap_or(number).min(number));
            }
        }
    }
    (occurs, least)
}

fn spots_of<'a>(all: &'a [Document], id: u32) -> &'a [Spot] {
    for (other, spots) in all {
        if *other == id {
            return spots.as_slice();
        }
    }
    &[]
}

fn set_of(rt: &impl Abort, alloc: Global, ids: &[u32]) -> DocSet {
    let mut set = DocSetBuilder::new(alloc, 0).expect(rt, "memory");
    for id in ids {
        set.add_id(DocId(*id)).expect(rt, "memory");
    }
    set.finish(alloc).expect(rt, "memory")
}

fn term(rt: &impl Abort, alloc: Global, asked: &Asked) -> Term {
    let mut words = Vec::new(alloc);
    for at in &asked.0 {
        words.push(word(rt, alloc, *at)).expect(rt, "memory");
    }
    let prefix = asked.1;
    Term { words, prefix }
}

// Whether these are the documents of the universe by their numbers, in order.
fn are_numbered(
    all: &[Document],
    asked: &Asked,
    universe: &[u32],
    by_rank: bool,
    rows: &[(u16, DocSet)],
) -> bool {
    let mut left = 0_u64;
    for id in universe {
        let numbered = least(spots_of(all, *id), asked, by_rank).1.is_some();
        left = left.wrapping_add(u64::from(numbered));
    }
    let mut before: Option<u16> = None;
    for (number, set) in rows {
        if before >= Some(*number) || set.is_empty() {
            return false;
        }
        before = Some(*number);
        left = left.wrapping_sub(set.len());
        for id in set.iter() {
            if !universe.contains(&id.0) || least(spots_of(all, id.0), asked, by_rank).1 != before {
                return false;
            }
        }
    }
    left == 0
}

// The documents of the universe are found where the term occurs.
fn check_found(rt: &impl Abort, found: &DocSet, all: &[Document], asked: &Asked, universe: &[u32]) {
    let mut left = found.len();
    for id in universe {
        let occurs = least(spots_of(all, *id), asked, false).0;
        check(rt, found.contains(DocId(*id)) == occurs, "found");
        left = left.wrapping_sub(u64::from(occurs));
    }
    check(rt, left == 0, "no other is found");
}

// The documents of the universe where the term occurs in bucket 0 are found, where they are known.
fn check_first(
    rt: &impl Abort,
    found: Option<&DocSet>,
    all: &[Document],
    asked: &Asked,
    universe: &[u32],
) {
    check(rt, found.is_some() || !asked.1, "known of a prefix");
    let Some(found) = found else {
        return;
    };
    let mut left = found.len();
    for id in universe {
        let first = least(spots_of(all, *id), asked, false).1 == Some(0);
        check(rt, found.contains(DocId(*id)) == first, "first");
        left = left.wrapping_sub(u64::from(first));
    }
    check(rt, left == 0, "no other is first");
}

// The documents of the universe that begin a path with the words are found.
fn check_beginning(
    rt: &impl Abort,
    found: &[DocSet],
    all: &[Document],
    asked: &Asked,
    universe: &[u32],
) {
    for path in 0..10_u16 {
        for id in universe {
            let begins = stands_at(spots_of(all, *id), asked, path, 0);
            let holds = match found.get(usize::from(path)) {
                Some(set) => set.contains(DocId(*id)),
                None => false,
            };
            check(rt, holds == begins, "beginning");
        }
    }
}

// The places of a prefix are gathered once, and each question about them is answered as the documents say.
fn check_prefix_answers(
    rt: &impl Abort,
    alloc: Global,
    places: &PrefixPlaces<'_>,
    all: &[Document],
    asked: &Asked,
    universe: &[u32],
) {
    let set = set_of(rt, alloc, universe);
    let found = places.documents(alloc, &set).expect(rt, "memory");
    check_found(rt, &found, all, asked, universe);
    let rows = places.by_rank(alloc, &RANKS, &set).expect(rt, "memory");
    check(rt, are_numbered(all, asked, universe, true, &rows), "ranks");
    let rows = places.by_bucket(alloc, &set).expect(rt, "memory");
    let right = are_numbered(all, asked, universe, false, &rows);
    check(rt, right, "buckets");
    let first = places.at_first(alloc, &set).expect(rt, "memory");
    check_first(rt, Some(&first), all, asked, universe);
}

// Each question is answered as the documents say.
fn check_answers(
    rt: &impl Abort,
    alloc: Global,
    postings: &Postings,
    all: &[Document],
    asked: &Asked,
    universe: &[u32],
) {
    let term = term(rt, alloc, asked);
    assert!(rt; !term.words.is_empty() && (!term.prefix || term.words.len() == 1));
    let set = set_of(rt, alloc, universe);
    let found = documents(alloc, postings, &term, &set).expect(rt, "memory");
    check_found(rt, &found, all, asked, universe);
    let rows = documents_by_rank(alloc, postings, &term, &RANKS, &set).expect(rt, "memory");
    check(rt, are_numbered(all, asked, universe, true, &rows), "ranks");
    let rows = documents_by_bucket(alloc, postings, &term, &set).expect(rt, "memory");
    check(
        rt,
        are_numbered(all, asked, universe, false, &rows),
        "buckets",
    );
    let first = documents_at_first(alloc, postings, &term, &set).expect(rt, "memory");
    check_first(rt, first.as_ref(), all, asked, universe);
    if term.prefix {
        let places = PrefixPlaces::new(alloc, postings, &term.words[0]).expect(rt, "memory");
        check(rt, *places.prefix() == term.words[0], "prefix");
        check_prefix_answers(rt, alloc, &places, all, asked, universe);
    } else {
        let words = term.words.as_slice();
        let found = documents_by_beginning(alloc, postings, words, &set).expect(rt, "memory");
        check_beginning(rt, &found, all, asked, universe);
    }
}

fn check_all_answers(
    rt: &impl Abort,
    alloc: Global,
    postings: &Postings,
    all: &[Document],
    terms: &[Asked],
    universe: &[u32],
) {
    for asked in terms {
        check_answers(rt, alloc, postings, all, asked, universe);
    }
}

fn add_term(rt: &impl Abort, alloc: Global, words: &[usize], prefix: bool, terms: &mut Vec<Asked>) {
    let words = Vec::from_slice(alloc, words).expect(rt, "memory");
    terms.push((words, prefix)).expect(rt, "memory");
}

// Some terms of the words of the table: each word, each prefix, and words in a row.
fn terms(rt: &impl Abort, alloc: Global) -> Vec<Asked> {
    let mut terms = Vec::new(alloc);
    for at in 0..WORDS.len() {
        add_term(rt, alloc, &[at], false, &mut terms);
        add_term(rt, alloc, &[at], true, &mut terms);
        add_term(rt, alloc, &[at, 4], false, &mut terms);
        add_term(rt, alloc, &[2, at, 2], false, &mut terms);
    }
    terms
}

// The documents of a turn, and a universe of about two in three of them.
fn coming(
    rt: &impl Abort,
    alloc: Global,
    turn: u32,
    universe: &mut Vec<u32>,
    seed: &mut u64,
) -> Vec<Document> {
    let mut come = Vec::new(alloc);
    for place in 0..40_u32 {
        let id = turn.wrapping_mul(40).wrapping_add(place);
        add_document(rt, &mut come, id, any_spots(rt, alloc, seed));
        if next(seed) % 3 > 0 {
            universe.push(id).expect(rt, "memory");
        }
    }
    come
}

fn take_turn(
    rt: &impl Abort,
    alloc: Global,
    postings: &mut Postings,
    all: &mut Vec<Document>,
    turn: u32,
    terms: &[Asked],
    seed: &mut u64,
) {
    let gone = leave(rt, alloc, all, seed);
    let mut universe = Vec::new(alloc);
    let mut come = coming(rt, alloc, turn, &mut universe, seed);
    commit(rt, alloc, postings, &gone, &come);
    all.append(&mut come).expect(rt, "memory");
    check_all_answers(rt, alloc, postings, all, terms, &universe);
}

#[test]
fn questions_after_random_batches(rt: HostRuntime) {
    let alloc = rt.alloc();
    let mut seed = 5;
    let mut postings = Postings::new(alloc);
    let mut all: Vec<Document> = Vec::new(alloc);
    let terms = terms(&rt, alloc);
    for turn in 0..12_u32 {
        take_turn(&rt, alloc, &mut postings, &mut all, turn, &terms, &mut seed);
    }
}

// Documents with words in a row, in two paths, and the wrong way round.
const NAMED: [(u32, &[Spot]); 4] = [
    (0, &[(2, 0, 0), (4, 0, 1)]),
    (63, &[(2, 0, u16::MAX), (4, 1, 0)]),
    (64, &[(4, 0, 0), (2, 0, 1)]),
    (999_999, &[(3, 2, 9), (2, 0, 0), (4, 0, 1), (1, 1, 20)]),
];

const UNIVERSES: [[u32; 4]; 3] = [[0, 63, 64, 999_999], [1, 64, 65, 999_998], [0, 2, 3, 4]];

fn named(rt: &impl Abort, alloc: Global) -> Vec<Document> {
    let mut all = Vec::new(alloc);
    for (id, spots) in &NAMED {
        add_document(rt, &mut all, *id, spots_from(rt, alloc, spots));
    }
    all
}

// The documents that have `dark knight`.
fn phrase_found(rt: &impl Abort, alloc: Global, postings: &Postings, universe: &[u32]) -> DocSet {
    let words = Vec::from_array(alloc, [2, 4]).expect(rt, "memory");
    let phrase = term(rt, alloc, &(words, false));
    assert!(rt; !phrase.words.is_empty() && !phrase.prefix);
    let universe = set_of(rt, alloc, universe);
    documents(alloc, postings, &phrase, &universe).expect(rt, "memory")
}

#[test]
fn questions_about_named_documents(rt: HostRuntime) {
    let alloc = rt.alloc();
    let mut postings = Postings::new(alloc);
    let all = named(&rt, alloc);
    commit(&rt, alloc, &mut postings, &[], &all);
    let universe = [0, 5, 63, 64, 70_000, 999_999];
    let found = phrase_found(&rt, alloc, &postings, &universe);
    check(&rt, found.contains(DocId(0)), "0");
    check(&rt, found.contains(DocId(999_999)), "999999");
    check(&rt, found.len() == 2, "two");
    numbers_are_those_of_blocks();
    let terms = terms(&rt, alloc);
    for universe in &UNIVERSES {
        check_all_answers(&rt, alloc, &postings, &all, &terms, universe);
    }
}

// So many documents of the same words, and a universe of one in a hundred and the last. The last has a rare word too.
fn alike(rt: &impl Abort, alloc: Global, many: u32, universe: &mut Vec<u32>) -> Vec<Document> {
    let mut all = Vec::new(alloc);
    for id in 0..many {
        let spots = [(2, 0, 0), (4, 0, 1), (3, 2, (id % 40) as u16)];
        let mut spots = spots_from(rt, alloc, &spots);
        let is_last = id.wrapping_add(1) == many;
        if is_last {
            spots.push((1, 1, 3)).expect(rt, "memory");
        }
        add_document(rt, &mut all, id, spots);
        if id % 100 == 99 || is_last {
            universe.push(id).expect(rt, "memory");
        }
    }
    all
}

fn check_alike(rt: &impl Abort, alloc: Global, many: u32) {
    let mut postings = Postings::new(alloc);
    let mut universe = Vec::new(alloc);
    let all = alike(rt, alloc, many, &mut universe);
    commit(rt, alloc, &mut postings, &[], &all);
    let terms = terms(rt, alloc);
    check_all_answers(rt, alloc, &postings, &all, &terms, &universe);
}

#[test]
fn questions_at_the_edges_of_pages(rt: HostRuntime) {
    for many in &[255_u32, 257, 511, 513] {
        check_alike(&rt, rt.alloc(), *many);
    }
}

// So many documents with `dark`, of which the first and the last have `knight` behind it.
fn few_knights(
    rt: &impl Abort,
    alloc: Global,
    many: u32,
    universe: &mut Vec<u32>,
) -> Vec<Document> {
    let mut all = Vec::new(alloc);
    for id in 0..many {
        universe.push(id).expect(rt, "memory");
        let mut spots = spots_from(rt, alloc, &[(2, 0, 0)]);
        if id == 0 || id.wrapping_add(1) == many {
            spots.push((4, 0, 1)).expect(rt, "memory");
        }
        add_document(rt, &mut all, id, spots);
    }
    all
}

#[test]
fn phrases_of_a_frequent_word(rt: HostRuntime) {
    let alloc = rt.alloc();
    for many in &[90_u32, 2_000, 7_000] {
        let mut postings = Postings::new(alloc);
        let mut universe = Vec::new(alloc);
        let all = few_knights(&rt, alloc, *many, &mut universe);
        commit(&rt, alloc, &mut postings, &[], &all);
        let found = phrase_found(&rt, alloc, &postings, &universe);
        check(&rt, found.len() == 2 && found.contains(DocId(0)), "two");
    }
}
