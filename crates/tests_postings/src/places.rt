use crate::checks::check;
use doc_sets::DocSet;
use posting_list::PostingList;
use postings::{Change, Postings};
use search_base::{DocId, PathId, Place, Word};
use std::alloc::Global;
use std::process::Abort;

pub(crate) const WORDS: [&str; 6] = ["", "d", "dark", "darken", "knight", "ß"];

// A word of a document, as its place in the table, and where it stands.
pub(crate) type Spot = (usize, u16, u16);

// A document: its number and its words.
pub(crate) type Document = (u32, Vec<Spot>);

pub(crate) fn word(rt: &impl Abort, alloc: Global, at: usize) -> Word {
    Word::new(alloc, WORDS.get(at).copied().unwrap_or("none")).expect(rt, "memory")
}

fn places(rt: &impl Abort, alloc: Global, spots: &[Spot]) -> Vec<Place> {
    let mut places = Vec::new(alloc);
    for (at, path, position) in spots {
        let place = Place {
            path: PathId(*path),
            rank: 0,
            position: *position,
            word: word(rt, alloc, *at),
        };
        places.push(place).expect(rt, "memory");
    }
    places
}

fn change(rt: &impl Abort, alloc: Global, gone: &[Document], come: &[Document]) -> Change {
    let mut change = Change::new(alloc);
    for (id, spots) in gone {
        let places = places(rt, alloc, spots);
        change
            .take_out(alloc, DocId(*id), &places)
            .expect(rt, "memory");
    }
    for (id, spots) in come {
        let places = places(rt, alloc, spots);
        change
            .put_in(alloc, DocId(*id), &places)
            .expect(rt, "memory");
    }
    change
}

pub(crate) fn commit(
    rt: &impl Abort,
    alloc: Global,
    postings: &mut Postings,
    gone: &[Document],
    come: &[Document],
) {
    let change = change(rt, alloc, gone, come);
    let prepared = postings.prepare(alloc, change).expect(rt, "memory");
    postings.commit(prepared);
}

// The list of a word, empty where it has none.
fn listed(rt: &impl Abort, alloc: Global, postings: &Postings, at: usize) -> Vec<u64> {
    let mut entries = Vec::new(alloc);
    if let Some(list) = postings.list(&word(rt, alloc, at)) {
        for entry in list.iter() {
            entries.push(entry).expect(rt, "memory");
        }
        check(rt, !entries.is_empty(), "a list has a place");
    }
    entries
}

fn entry(id: u32, path: u16, position: u16) -> u64 {
    (u64::from(id) << 32) | (u64::from(path) << 16) | u64::from(position)
}

// The same, from the documents.
fn standing(rt: &impl Abort, alloc: Global, documents: &[Document], sought: usize) -> Vec<u64> {
    let mut entries = Vec::new(alloc);
    for (id, spots) in documents {
        for (at, path, position) in spots {
            if *at == sought {
                let entry = entry(*id, *path, *position);
                entries.push(entry).expect(rt, "memory");
            }
        }
    }
    entries.sort_unstable();
    entries.dedup();
    entries
}

// Each list is that of the documents.
fn check_lists(rt: &impl Abort, alloc: Global, postings: &Postings, documents: &[Document]) {
    for at in 0..WORDS.len() {
        let found = listed(rt, alloc, postings, at);
        let wanted = standing(rt, alloc, documents, at);
        check(rt, found.as_slice() == wanted.as_slice(), "lists");
        let _kept = keeps_documents(rt, alloc, postings, at);
    }
}

// These are the documents of the entries, which are in order.
fn check_documents(rt: &impl Abort, alloc: Global, set: &DocSet, entries: &[u64]) {
    let mut ids = Vec::new(alloc);
    for entry in entries {
        ids.push((*entry >> 32) as u32).expect(rt, "memory");
    }
    ids.dedup();
    let mut kept = Vec::new(alloc);
    for id in set.iter() {
        kept.push(id.0).expect(rt, "memory");
    }
    check(rt, ids.as_slice() == kept.as_slice(), "documents");
}

// These are the documents of the entries of a list in a path, if one is given, and at the beginning of a path, where
// only these are asked for.
fn check_part(
    rt: &impl Abort,
    alloc: Global,
    list: &PostingList,
    set: &DocSet,
    path: Option<u16>,
    only_first: bool,
) {
    let mut entries = Vec::new(alloc);
    for entry in list.pages().iter() {
        let inside = path.is_none_or(|path| (entry >> 16) & 0xffff == u64::from(path));
        if inside && (!only_first || entry & 0xffff == 0) {
            entries.push(entry).expect(rt, "memory");
        }
    }
    check_documents(rt, alloc, set, entries.as_slice());
}

// The documents of a path, and those that begin it so, are those of its entries, where they are kept as sets.
fn check_path(rt: &impl Abort, alloc: Global, list: &PostingList, path: u16) {
    let inside = list.in_path(PathId(path));
    let starting = list.starting(PathId(path));
    check(rt, inside.is_some() == starting.is_some(), "both sets");
    if let Some(set) = inside {
        check_part(rt, alloc, list, set, Some(path), false);
    }
    if let Some(set) = starting {
        check_part(rt, alloc, list, set, Some(path), true);
    }
}

// Whether the documents of a word are kept as a set. They are those of its list then, and those of each path are its.
fn keeps_documents(rt: &impl Abort, alloc: Global, postings: &Postings, at: usize) -> bool {
    let word = word(rt, alloc, at);
    let Some(list) = postings.row(&word) else {
        return false;
    };
    for path in 0..10 {
        check_path(rt, alloc, list, path);
    }
    if let Some(set) = list.starting_any() {
        check_part(rt, alloc, list, set, None, true);
    }
    let Some(set) = list.documents() else {
        return false;
    };
    check_part(rt, alloc, list, set, None, false);
    true
}

// Whether a document begins a path with a word, where the documents that do are kept as a set.
fn begins(
    rt: &impl Abort,
    alloc: Global,
    postings: &Postings,
    at: usize,
    id: u32,
    path: u16,
) -> Option<bool> {
    let word = word(rt, alloc, at);
    let set = postings.row(&word)?.starting(PathId(path))?;
    Some(set.contains(DocId(id)))
}

// What the paths of a word are below, where their documents are kept as sets.
fn path_limit(rt: &impl Abort, alloc: Global, postings: &Postings, at: usize) -> Option<u16> {
    postings.row(&word(rt, alloc, at))?.path_limit()
}

// Numbers that look random.
pub(crate) fn next(seed: &mut u64) -> u64 {
    *seed = seed
        .wrapping_mul(6364136223846793005)
        .wrapping_add(1442695040888963407);
    *seed >> 33
}

fn any_spot(seed: &mut u64) -> Spot {
    let at = (next(seed) % 6) as usize;
    let path = (next(seed) % 3) as u16;
    let position = match next(seed) % 4 {
        0 => u16::MAX,
        _ => (next(seed) % 5) as u16,
    };
    (at, path, position)
}

pub(crate) fn any_spots(rt: &impl Abort, alloc: Global, seed: &mut u64) -> Vec<Spot> {
    let mut spots = Vec::new(alloc);
    for _ in 0..next(seed) % 9 {
        spots.push(any_spot(seed)).expect(rt, "memory");
    }
    spots
}

// Takes about a third of the documents out, and gives them.
pub(crate) fn leave(
    rt: &impl Abort,
    alloc: Global,
    documents: &mut Vec<Document>,
    seed: &mut u64,
) -> Vec<Document> {
    let mut gone = Vec::new(alloc);
    let mut stay = Vec::new(alloc);
    for _ in 0..documents.len() {
        if let Some(document) = documents.pop() {
            if next(seed) % 3 == 0 {
                gone.push(document).expect(rt, "memory");
            } else {
                stay.push(document).expect(rt, "memory");
            }
        }
    }
    *documents = stay;
    gone
}

pub(crate) fn add_document(
    rt: &impl Abort,
    documents: &mut Vec<Document>,
    id: u32,
    spots: Vec<Spot>,
) {
    documents.push((id, spots)).expect(rt, "memory");
}

// About half of those that go come again, and so many new ones.
fn coming(
    rt: &impl Abort,
    alloc: Global,
    gone: &[Document],
    fresh: u32,
    many: u32,
    seed: &mut u64,
) -> Vec<Document> {
    let mut come = Vec::new(alloc);
    for (id, _spots) in gone {
        if next(seed) % 2 == 0 {
            add_document(rt, &mut come, *id, any_spots(rt, alloc, seed));
        }
    }
    for number in 0..many {
        let id = fresh.wrapping_add(number);
        add_document(rt, &mut come, id, any_spots(rt, alloc, seed));
    }
    come
}

fn release(
    rt: &impl Abort,
    alloc: Global,
    postings: &mut Postings,
    gone: &[Document],
    come: &[Document],
) {
    let change = change(rt, alloc, gone, come);
    let prepared = postings.prepare(alloc, change).expect(rt, "memory");
    postings.release(prepared);
}

fn take_turn(
    rt: &impl Abort,
    alloc: Global,
    postings: &mut Postings,
    documents: &mut Vec<Document>,
    turn: u32,
    fresh: u32,
    seed: &mut u64,
) {
    let gone = leave(rt, alloc, documents, seed);
    let mut come = coming(rt, alloc, &gone, fresh, turn % 4, seed);
    if turn % 5 == 0 {
        release(rt, alloc, postings, &gone, &come);
    }
    commit(rt, alloc, postings, &gone, &come);
    documents.append(&mut come).expect(rt, "memory");
    check_lists(rt, alloc, postings, documents);
}

// What is prepared is not there before it is committed.
fn check_emptied(rt: &impl Abort, alloc: Global, postings: &mut Postings, documents: &[Document]) {
    let change = change(rt, alloc, documents, &[]);
    let prepared = postings.prepare(alloc, change).expect(rt, "memory");
    check_lists(rt, alloc, postings, documents);
    postings.commit(prepared);
    check_lists(rt, alloc, postings, &[]);
}

#[test]
fn random_batches(rt: HostRuntime) {
    let alloc = rt.alloc();
    let mut seed = 11;
    let mut postings = Postings::new(alloc);
    let mut documents: Vec<Document> = Vec::new(alloc);
    let mut fresh: u32 = 0;
    for turn in 0..40_u32 {
        take_turn(
            &rt,
            alloc,
            &mut postings,
            &mut documents,
            turn,
            fresh,
            &mut seed,
        );
        fresh = fresh.wrapping_add(turn % 4);
    }
    check_emptied(&rt, alloc, &mut postings, &documents);
}

const NUMBERS: [u32; 5] = [0, 63, 64, 999_999, u32::MAX];

const FIRST_AND_LAST: [Spot; 2] = [(2, 0, 0), (2, u16::MAX, u16::MAX)];

pub(crate) fn spots_of(rt: &impl Abort, alloc: Global, spots: &[Spot]) -> Vec<Spot> {
    Vec::from_slice(alloc, spots).expect(rt, "memory")
}

fn numbered(rt: &impl Abort, alloc: Global) -> Vec<Document> {
    let mut documents = Vec::new(alloc);
    for id in &NUMBERS {
        let spots = spots_of(rt, alloc, &FIRST_AND_LAST);
        add_document(rt, &mut documents, *id, spots);
    }
    documents
}

#[test]
fn numbers_of_documents(rt: HostRuntime) {
    let alloc = rt.alloc();
    let mut postings = Postings::new(alloc);
    let mut documents = numbered(&rt, alloc);
    commit(&rt, alloc, &mut postings, &[], &documents);
    check_lists(&rt, alloc, &postings, &documents);
    let last = documents.pop().expect(&rt, "a document");
    let gone = Vec::from_array(alloc, [last]).expect(&rt, "memory");
    commit(&rt, alloc, &mut postings, &gone, &[]);
    check_lists(&rt, alloc, &postings, &documents);
}

// A document of this number with one word at every position of a path.
pub(crate) fn over_and_over(rt: &impl Abort, alloc: Global) -> Vec<Document> {
    let mut spots = Vec::new(alloc);
    for position in 0..0x1_0000_u32 {
        spots.push((2, 1, position as u16)).expect(rt, "memory");
    }
    Vec::from_array(alloc, [(7, spots)]).expect(rt, "memory")
}

#[test]
fn one_word_over_and_over(rt: HostRuntime) {
    let alloc = rt.alloc();
    let mut postings = Postings::new(alloc);
    let documents = over_and_over(&rt, alloc);
    commit(&rt, alloc, &mut postings, &[], &documents);
    check(&rt, listed(&rt, alloc, &postings, 2).len() == 65_536, "all");
    commit(&rt, alloc, &mut postings, &documents, &[]);
    let none = postings.list(&word(&rt, alloc, 2)).is_none();
    check(&rt, none, "none");
}

// A document of each of these numbers with one word at one position.
fn with_word(rt: &impl Abort, alloc: Global, from: u32, many: u32, position: u16) -> Vec<Document> {
    let mut documents = Vec::new(alloc);
    for id in from..from.saturating_add(many) {
        let spots = Vec::from_array(alloc, [(2, 1, position)]).expect(rt, "memory");
        documents.push((id, spots)).expect(rt, "memory");
    }
    documents
}

#[test]
fn few_documents_with_high_numbers(rt: HostRuntime) {
    let alloc = rt.alloc();
    let mut postings = Postings::new(alloc);
    let high = with_word(&rt, alloc, 3_000, 63, 0);
    let low = with_word(&rt, alloc, 0, 1, 0);
    let other = with_word(&rt, alloc, 0, 1, 5);
    commit(&rt, alloc, &mut postings, &[], &high);
    check(&rt, !keeps_documents(&rt, alloc, &postings, 2), "short");
    commit(&rt, alloc, &mut postings, &[], &low);
    check(&rt, keeps_documents(&rt, alloc, &postings, 2), "long");
    commit(&rt, alloc, &mut postings, &low, &other);
    check(&rt, keeps_documents(&rt, alloc, &postings, 2), "replaced");
    let higher = with_word(&rt, alloc, 9_000, 1, 0);
    commit(&rt, alloc, &mut postings, &[], &higher);
    check(&rt, keeps_documents(&rt, alloc, &postings, 2), "higher");
    commit(&rt, alloc, &mut postings, &high, &[]);
    check(&rt, !keeps_documents(&rt, alloc, &postings, 2), "few");
    commit(&rt, alloc, &mut postings, &other, &[]);
    check(&rt, listed(&rt, alloc, &postings, 2).len() == 1, "one");
}

// Documents that come, and whether those of the word are kept as a set then.
const FAR: [(u32, u32, bool); 4] = [
    (0, 400, true),
    (70_000, 5, true),
    (70_100, 1, true),
    (4_000_000, 2, false),
];

#[test]
fn few_documents_far_behind(rt: HostRuntime) {
    let alloc = rt.alloc();
    let mut postings = Postings::new(alloc);
    let mut first = with_word(&rt, alloc, 0, 1, 0);
    for (from, many, kept) in &FAR {
        let come = with_word(&rt, alloc, *from, *many, 0);
        commit(&rt, alloc, &mut postings, &[], &come);
        let keeps = keeps_documents(&rt, alloc, &postings, 2);
        check(&rt, keeps == *kept, "far");
        let other = with_word(&rt, alloc, 0, 1, *many as u16);
        commit(&rt, alloc, &mut postings, &first, &other);
        first = other;
        let keeps = keeps_documents(&rt, alloc, &postings, 2);
        check(&rt, keeps == *kept, "replaced");
    }
    for (from, many, _kept) in &FAR {
        let gone = with_word(&rt, alloc, *from, *many, 0);
        commit(&rt, alloc, &mut postings, &gone, &[]);
        let _kept = keeps_documents(&rt, alloc, &postings, 2);
    }
    check(&rt, listed(&rt, alloc, &postings, 2).len() == 1, "one");
}

// A path in which the word comes too, and what its paths are below then.
const PATHS: [(u16, Option<u16>); 5] = [
    (0, Some(8)),
    (2, Some(8)),
    (7, Some(8)),
    (8, None),
    (u16::MAX, None),
];

#[test]
fn one_word_in_several_paths(rt: HostRuntime) {
    let alloc = rt.alloc();
    let mut postings = Postings::new(alloc);
    let many = with_word(&rt, alloc, 0, 100, 3);
    commit(&rt, alloc, &mut postings, &[], &many);
    for (path, limit) in &PATHS {
        let spots = [(2, 1, 0), (2, *path, 1), (2, *path, 9)];
        let come = one_document(&rt, alloc, 100, &spots);
        commit(&rt, alloc, &mut postings, &[], &come);
        check(&rt, keeps_documents(&rt, alloc, &postings, 2), "kept");
        let below = path_limit(&rt, alloc, &postings, 2);
        check(&rt, below == *limit, "limit");
        commit(&rt, alloc, &mut postings, &come, &[]);
        check(&rt, keeps_documents(&rt, alloc, &postings, 2), "gone");
        let below = path_limit(&rt, alloc, &postings, 2);
        check(&rt, below == Some(8), "limit without");
    }
}

// A place of the word in one document, and whether it begins the path with the word then, where that is kept.
const BEGINNINGS: [(u32, u16, u16, Option<bool>); 9] = [
    (100, 0, 0, Some(true)),
    (100, 0, 1, Some(false)),
    (100, 1, 0, Some(true)),
    (100, 1, u16::MAX, Some(false)),
    (100, 7, 0, Some(true)),
    (100, 8, 0, None),
    (1_500, 2, 0, Some(true)),
    (1_500, 2, 1, Some(false)),
    (4_000_000, 2, 0, None),
];

#[test]
fn one_word_at_the_beginning_of_paths(rt: HostRuntime) {
    let alloc = rt.alloc();
    for (id, path, position, wanted) in &BEGINNINGS {
        let mut postings = Postings::new(alloc);
        let many = with_word(&rt, alloc, 0, 100, 0);
        let first = one_document(&rt, alloc, *id, &[(2, *path, 0)]);
        commit(&rt, alloc, &mut postings, &[], &many);
        commit(&rt, alloc, &mut postings, &[], &first);
        let other = one_document(&rt, alloc, *id, &[(2, *path, *position)]);
        commit(&rt, alloc, &mut postings, &first, &other);
        let found = begins(&rt, alloc, &postings, 2, *id, *path);
        check(&rt, found == *wanted, "replaced");
        let _kept = keeps_documents(&rt, alloc, &postings, 2);
        commit(&rt, alloc, &mut postings, &other, &[]);
        let found = begins(&rt, alloc, &postings, 2, *id, *path);
        check(&rt, found != Some(true), "gone");
        let _kept = keeps_documents(&rt, alloc, &postings, 2);
    }
}

// So many words begin so, those of the table from a place on, and they have so many places.
fn check_prefix(
    rt: &impl Abort,
    alloc: Global,
    postings: &Postings,
    prefix: &str,
    from: usize,
    many: usize,
    places: usize,
) {
    let sought = Word::new(alloc, prefix).expect(rt, "memory");
    let mut at = from;
    let mut count = 0_usize;
    for (word, list) in postings.with_prefix(&sought) {
        check(rt, WORDS.get(at).copied() == Some(word.as_str()), prefix);
        at = at.saturating_add(1);
        count = count.saturating_add(list.pages().len());
    }
    check(rt, at.saturating_sub(from) == many, prefix);
    check(rt, count == places, prefix);
}

const EACH_WORD: [Spot; 7] = [
    (0, 0, 0),
    (1, 0, 1),
    (2, 0, 2),
    (3, 0, 3),
    (4, 0, 4),
    (5, 0, 5),
    (2, 0, 6),
];

// A prefix, from which place of the table on words begin so, how many, and their places.
const PREFIXES: [(&str, usize, usize, usize); 7] = [
    ("", 0, 6, 9),
    ("d", 1, 3, 6),
    ("da", 2, 2, 4),
    ("darke", 3, 1, 2),
    ("darkens", 4, 0, 0),
    ("k", 4, 1, 1),
    ("z", 5, 0, 0),
];

pub(crate) fn one_document(
    rt: &impl Abort,
    alloc: Global,
    id: u32,
    spots: &[Spot],
) -> Vec<Document> {
    let spots = spots_of(rt, alloc, spots);
    Vec::from_array(alloc, [(id, spots)]).expect(rt, "memory")
}

#[test]
fn words_that_begin_so(rt: HostRuntime) {
    let alloc = rt.alloc();
    let mut postings = Postings::new(alloc);
    let first = one_document(&rt, alloc, 1, &EACH_WORD);
    let second = one_document(&rt, alloc, 2, &[(1, 0, 0), (3, 9, 9)]);
    commit(&rt, alloc, &mut postings, &[], &first);
    commit(&rt, alloc, &mut postings, &[], &second);
    for (prefix, from, many, places) in &PREFIXES {
        check_prefix(&rt, alloc, &postings, prefix, *from, *many, *places);
    }
    commit(&rt, alloc, &mut postings, &second, &[]);
    check_prefix(&rt, alloc, &postings, "d", 1, 3, 4);
}
