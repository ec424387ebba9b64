use crate::checks::check;
use crate::places::{Document, Spot, WORDS, add_document, commit, next, over_and_over, word};
use doc_sets::DocSet;
use near_words::{documents_by_pair_cost, documents_by_prefix_cost, pair_cost};
use posting_sets::PrefixPlaces;
use postings::Postings;
use search_base::DocId;
use sorted_pages::is_increasing;
use std::alloc::Global;
use std::process::Abort;

// The entries of the left word, those of the right one, and the cost.
const PAIRS: [([u64; 2], [u64; 2], u8); 13] = [
    ([1, 100], [2, 200], 0),
    ([2, 100], [1, 200], 1),
    ([1, 100], [8, 200], 6),
    ([1, 100], [9, 200], 7),
    ([8, 100], [2, 200], 6),
    ([8, 100], [1, 200], 7),
    ([3, 4], [3, 4], 0),
    ([4, 90], [4, 80], 7),
    ([1, 50], [30, 53], 2),
    ([1, 53], [30, 50], 3),
    ([0xffff, 0x5_0000], [0x1_0000, 0x9_0000], 7),
    ([0x1_0000, 0x5_0000], [0xffff, 0x9_0000], 7),
    (
        [0xffff_ffff, 0x5_0000_0000],
        [0x1_0000_0000, 0x9_0000_0000],
        7,
    ),
];

// The pair cost of two lists of entries, each of which is below the next.
fn check_cost(rt: &impl Abort, left: &[u64], right: &[u64], cost: u8) {
    assert!(rt; is_increasing(left));
    assert!(rt; is_increasing(right));
    check(rt, pair_cost(left, right) == cost, "cost");
}

#[test]
fn pair_costs(rt: HostRuntime) {
    for (left, right, cost) in &PAIRS {
        check_cost(&rt, left, right, *cost);
    }
    check_cost(&rt, &[], &[1], 7);
}

// Whether the word is asked for, each by its place in the table.
fn is_asked(prefix: bool, asked: usize, at: usize) -> bool {
    let word = WORDS.get(at).copied().unwrap_or("");
    let asked = WORDS.get(asked).copied().unwrap_or("");
    if prefix {
        word.starts_with(asked)
    } else {
        word == asked
    }
}

// The distance between two spots, and 8 where they do not stand for the words in one path.
fn distance(left: usize, prefix: bool, right: usize, from: &Spot, to: &Spot) -> u32 {
    if from.0 != left || !is_asked(prefix, right, to.0) || from.1 != to.1 || from.2 == to.2 {
        8
    } else if from.2 < to.2 {
        u32::from(to.2 - from.2)
    } else {
        u32::from(from.2 - to.2) + 1
    }
}

// The pair cost in a document, each spot with each.
fn plain_cost(spots: &[Spot], left: usize, prefix: bool, right: usize) -> u32 {
    let mut least = 8;
    for from in spots {
        for to in spots {
            least = least.min(distance(left, prefix, right, from, to));
        }
    }
    least.saturating_sub(1)
}

// Whether the document is in the set of its cost, if it is in the universe, and in no other.
fn is_right(sets: &[DocSet], id: DocId, member: bool, cost: u32) -> bool {
    let mut at: u32 = 0;
    for set in sets {
        if set.contains(id) != (member && cost == at) {
            return false;
        }
        at = at.wrapping_add(1);
    }
    at == 7
}

fn sets_of(
    rt: &impl Abort,
    alloc: Global,
    postings: &Postings,
    universe: &DocSet,
    (left, prefix, right): (usize, bool, usize),
) -> Vec<DocSet> {
    let (left, right) = (word(rt, alloc, left), word(rt, alloc, right));
    if prefix {
        let places = PrefixPlaces::new(alloc, postings, &right).expect(rt, "memory");
        documents_by_prefix_cost(alloc, universe, postings, &left, &places).expect(rt, "memory")
    } else {
        documents_by_pair_cost(alloc, universe, postings, &left, &right).expect(rt, "memory")
    }
}

// The sets of two words are those of the documents.
fn check_sets(
    rt: &impl Abort,
    alloc: Global,
    postings: &Postings,
    documents: &[Document],
    universe: &DocSet,
    (left, prefix, right): (usize, bool, usize),
) {
    let sets = sets_of(rt, alloc, postings, universe, (left, prefix, right));
    for (id, spots) in documents {
        let id = DocId(*id);
        let cost = plain_cost(spots, left, prefix, right);
        check(rt, is_right(&sets, id, universe.contains(id), cost), "sets");
    }
}

fn any_spot(seed: &mut u64) -> Spot {
    let at = (next(seed) % 6) as usize;
    let path = (next(seed) % 2) as u16;
    let position = match next(seed) % 8 {
        0 => u16::MAX,
        _ => (next(seed) % 24) as u16,
    };
    (at, path, position)
}

fn any_spots(rt: &impl Abort, alloc: Global, seed: &mut u64) -> Vec<Spot> {
    let mut spots = Vec::new(alloc);
    for _ in 0..next(seed) % 12 {
        spots.push(any_spot(seed)).expect(rt, "memory");
    }
    spots
}

fn insert(rt: &impl Abort, universe: &mut DocSet, id: u32) {
    let _new = universe.insert(DocId(id)).expect(rt, "memory");
}

// Sixty documents, and a universe of about two in three of them and of others.
fn any_documents(
    rt: &impl Abort,
    alloc: Global,
    universe: &mut DocSet,
    seed: &mut u64,
) -> Vec<Document> {
    let mut documents = Vec::new(alloc);
    let mut id: u32 = 0;
    for _ in 0..60 {
        id = id.wrapping_add((next(seed) % 40) as u32 + 1);
        add_document(rt, &mut documents, id, any_spots(rt, alloc, seed));
        if next(seed) % 3 > 0 {
            insert(rt, universe, id);
        }
        insert(rt, universe, id.wrapping_add(1));
    }
    documents
}

#[test]
fn random_documents(rt: HostRuntime) {
    let alloc = rt.alloc();
    let mut seed = 21;
    let mut postings = Postings::new(alloc);
    let mut universe = DocSet::new(alloc);
    let documents = any_documents(&rt, alloc, &mut universe, &mut seed);
    commit(&rt, alloc, &mut postings, &[], &documents);
    for pair in 0..36_usize {
        let (left, right) = (pair / 6, pair % 6);
        check_sets(
            &rt,
            alloc,
            &postings,
            &documents,
            &universe,
            (left, false, right),
        );
        check_sets(
            &rt,
            alloc,
            &postings,
            &documents,
            &universe,
            (left, true, right),
        );
    }
}

#[test]
fn near_itself(rt: HostRuntime) {
    let alloc = rt.alloc();
    let mut postings = Postings::new(alloc);
    let documents = over_and_over(&rt, alloc);
    commit(&rt, alloc, &mut postings, &[], &documents);
    let mut universe = DocSet::new(alloc);
    insert(&rt, &mut universe, 7);
    let exact = sets_of(&rt, alloc, &postings, &universe, (2, false, 2));
    check(&rt, is_right(&exact, DocId(7), true, 0), "the word");
    let longer = sets_of(&rt, alloc, &postings, &universe, (2, true, 2));
    check(&rt, is_right(&longer, DocId(7), true, 0), "the prefix");
}
