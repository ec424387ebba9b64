use crate::checks::{check, word};
use leaf_table::{LeafChange, LeafTable};
use search_base::{DocId, FacetValue, Leaf, PathId};
use std::alloc::Global;
use std::process::Abort;

// A value as it is written here.
enum Given {
    Number(i128),
    Text(&'static str),
}

// Paths, values and spellings of leaves, each of which differs from another in one of the three alone.
const KINDS: [(u16, Given, &str); 9] = [
    (0, Given::Number(7), "7"),
    (0, Given::Number(7), "7.0"),
    (1, Given::Number(7), "7"),
    (0, Given::Text("7"), "7"),
    (0, Given::Text("nike"), "Nike"),
    (0, Given::Text("nike"), "nike"),
    (0, Given::Number(-7), "7"),
    (
        1,
        Given::Text("a maker of many bytes"),
        "A maker of many bytes",
    ),
    (
        1,
        Given::Text("a maker of many bytes"),
        "a maker of many bytes",
    ),
];

// The documents from the first id to the one before the last go, and come with leaves of these kinds where there are
// any.
struct Round {
    first: u32,
    last: u32,
    kinds: Option<&'static [usize]>,
}

const ROUNDS: [Round; 15] = [
    Round {
        first: 0,
        last: 30,
        kinds: Some(&[0, 4]),
    },
    Round {
        first: 30,
        last: 40,
        kinds: Some(&[1, 5]),
    },
    Round {
        first: 10,
        last: 20,
        kinds: Some(&[2]),
    },
    Round {
        first: 20,
        last: 25,
        kinds: Some(&[3, 0, 1, 2, 3]),
    },
    Round {
        first: 5,
        last: 35,
        kinds: Some(&[]),
    },
    Round {
        first: 0,
        last: 40,
        kinds: None,
    },
    Round {
        first: 0,
        last: 12,
        kinds: Some(&[7, 8]),
    },
    Round {
        first: 3,
        last: 12,
        kinds: Some(&[8, 7, 4, 6]),
    },
    Round {
        first: 0,
        last: 12,
        kinds: Some(&[0, 6]),
    },
    Round {
        first: 1,
        last: 12,
        kinds: None,
    },
    Round {
        first: 2,
        last: 3,
        kinds: Some(&[0]),
    },
    Round {
        first: 0,
        last: 40,
        kinds: None,
    },
    Round {
        first: 0,
        last: 9,
        kinds: Some(&[8, 7, 6, 5, 4, 3, 2, 1, 0]),
    },
    Round {
        first: 4,
        last: 7,
        kinds: Some(&[0, 2, 4, 6, 8]),
    },
    Round {
        first: 6,
        last: 12,
        kinds: Some(&[1, 3, 5, 7, 0, 2]),
    },
];

fn leaf(rt: &impl Abort, alloc: Global, kind: usize) -> Leaf {
    let (path, given, shown) = KINDS.get(kind).expect(rt, "a kind");
    let value = match given {
        Given::Number(number) => FacetValue::Number(*number),
        Given::Text(text) => FacetValue::Text(word(rt, alloc, text)),
    };
    Leaf {
        path: PathId(*path),
        value,
        shown: word(rt, alloc, shown),
    }
}

fn is_of(rt: &impl Abort, leaf: &Leaf, kind: usize) -> bool {
    let (path, given, shown) = KINDS.get(kind).expect(rt, "a kind");
    let same = match (&leaf.value, given) {
        (FacetValue::Number(own), Given::Number(number)) => *own == *number,
        (FacetValue::Text(own), Given::Text(text)) => own.as_str() == *text,
        _ => false,
    };
    same && leaf.path.0 == *path && leaf.shown.as_str() == *shown
}

fn leaves_of(rt: &impl Abort, alloc: Global, kinds: &[usize]) -> Vec<Leaf> {
    let mut leaves = Vec::new(alloc);
    for kind in kinds {
        leaves.push(leaf(rt, alloc, *kind)).expect(rt, "memory");
    }
    leaves
}

fn commit(rt: &impl Abort, alloc: Global, table: &mut LeafTable, round: &Round) {
    let mut change = LeafChange::new(alloc);
    for id in round.first..round.last {
        change.take_out(DocId(id)).expect(rt, "memory");
        if let Some(kinds) = round.kinds {
            let leaves = leaves_of(rt, alloc, kinds);
            change
                .put_in(alloc, DocId(id), leaves.as_slice())
                .expect(rt, "memory");
        }
    }
    let prepared = table.prepare(change).expect(rt, "memory");
    table.commit(prepared);
}

// The kinds of a document's leaves after so many rounds.
fn kinds_after(id: u32, done: usize) -> &'static [usize] {
    let mut kinds: &'static [usize] = &[];
    for round in ROUNDS.iter().take(done) {
        if round.first <= id && id < round.last {
            kinds = round.kinds.unwrap_or(&[]);
        }
    }
    kinds
}

// Those of the kinds that stand under a path.
fn under(rt: &impl Abort, alloc: Global, kinds: &[usize], path: u16) -> Vec<usize> {
    let mut found = Vec::new(alloc);
    for kind in kinds {
        let (of, _given, _shown) = KINDS.get(*kind).expect(rt, "a kind");
        if *of == path {
            found.push(*kind).expect(rt, "memory");
        }
    }
    found
}

fn check_document(
    rt: &impl Abort,
    table: &LeafTable,
    id: u32,
    kinds: &[usize],
    copies: &mut Vec<Leaf>,
) {
    let mut found: usize = 0;
    for path in [0, 1, 2] {
        let kinds = under(rt, *copies.allocator(), kinds, path);
        let copied = table.copy_under(DocId(id), PathId(path), copies);
        copied.expect(rt, "memory");
        check(rt, copies.len() == kinds.len(), "how many copies");
        for (leaf, kind) in copies.iter().zip(kinds.iter()) {
            check(rt, is_of(rt, leaf, *kind), "copy");
        }
        found = found.saturating_add(copies.len());
    }
    check(rt, found == kinds.len(), "how many leaves");
}

#[test]
fn leaves_that_documents_share(rt: HostRuntime) {
    let alloc = rt.alloc();
    let mut table = LeafTable::new(alloc);
    let mut copies = Vec::new(alloc);
    for (done, round) in ROUNDS.iter().enumerate() {
        commit(&rt, alloc, &mut table, round);
        for id in 0..41 {
            let kinds = kinds_after(id, done + 1);
            check_document(&rt, &table, id, kinds, &mut copies);
        }
    }
}
