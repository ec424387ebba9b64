use crate::checks::{check, check_ids, set, word};
use doc_sets::DocSet;
use leaf_table::{LeafChange, LeafTable};
use search_base::{DocId, FacetValue, Leaf, PathId};
use std::alloc::Global;
use std::process::Abort;

const PRICE: u16 = 0;

const TAG: u16 = 3;

const YEAR: u16 = 700;

const LEAST: i128 = -(1 << 63);

const GREATEST: i128 = (1 << 63) - 1;

// A value as it is written here.
enum Given {
    Number(i128),
    Text(&'static str),
}

// A document that goes, where it has no values, or else comes, in this order.
struct Step {
    id: u32,
    goes: bool,
    values: &'static [(u16, Given)],
}

// The documents that go and come, in one change each.
const STEPS: [&[Step]; 4] = [
    &[
        Step {
            id: 0,
            goes: false,
            values: &[
                (PRICE, Given::Number(7)),
                (TAG, Given::Text("seven")),
                (YEAR, Given::Number(-1)),
            ],
        },
        Step {
            id: 1,
            goes: false,
            values: &[(PRICE, Given::Number(-7)), (YEAR, Given::Number(LEAST))],
        },
        Step {
            id: 2,
            goes: false,
            values: &[(PRICE, Given::Number(7)), (PRICE, Given::Number(900))],
        },
        Step {
            id: 3,
            goes: false,
            values: &[
                (PRICE, Given::Text("7")),
                (PRICE, Given::Number(8)),
                (YEAR, Given::Number(LEAST + 1)),
            ],
        },
    ],
    &[
        Step {
            id: 4,
            goes: false,
            values: &[(YEAR, Given::Number(GREATEST))],
        },
        Step {
            id: 6,
            goes: false,
            values: &[
                (YEAR, Given::Number(GREATEST + 1)),
                (PRICE, Given::Text("nine")),
            ],
        },
        Step {
            id: 7,
            goes: false,
            values: &[(YEAR, Given::Number(LEAST + 2)), (PRICE, Given::Number(0))],
        },
    ],
    &[
        Step {
            id: 0,
            goes: true,
            values: &[],
        },
        Step {
            id: 0,
            goes: false,
            values: &[(PRICE, Given::Number(70))],
        },
        Step {
            id: 1,
            goes: true,
            values: &[],
        },
    ],
    &[Step {
        id: 100,
        goes: false,
        values: &[(TAG, Given::Number(-5)), (PRICE, Given::Number(7))],
    }],
];

// Each document that was ever there, and some that were not.
const ALL: [u32; 9] = [0, 1, 2, 3, 4, 5, 6, 7, 100];

// How many of the steps were done, the path, the low end and the high one, and the documents inside.
const RANGES: [(usize, u16, i128, i128, &[u32]); 24] = [
    (1, PRICE, 7, 7, &[0, 2]),
    (1, PRICE, -7, 8, &[0, 1, 2, 3]),
    (1, PRICE, -8, -7, &[1]),
    (1, PRICE, -6, 6, &[]),
    (1, PRICE, 8, 8, &[3]),
    (1, PRICE, 900, 901, &[2]),
    (1, PRICE, 8, 7, &[]),
    (1, TAG, i128::MIN, i128::MAX, &[]),
    (1, YEAR, i128::MIN, i128::MAX, &[0, 1, 3]),
    (1, YEAR, i128::MIN, LEAST, &[1]),
    (1, YEAR, LEAST + 1, -1, &[0, 3]),
    (2, YEAR, GREATEST, GREATEST, &[4]),
    (2, YEAR, GREATEST + 1, i128::MAX, &[6]),
    (2, YEAR, GREATEST, GREATEST + 1, &[4, 6]),
    (2, YEAR, LEAST, LEAST + 1, &[1, 3]),
    (2, YEAR, LEAST + 2, 0, &[0, 7]),
    (2, PRICE, 0, 0, &[7]),
    (3, PRICE, 7, 7, &[2]),
    (3, PRICE, 70, 70, &[0]),
    (3, PRICE, i128::MIN, -1, &[]),
    (3, YEAR, i128::MIN, i128::MAX, &[3, 4, 6, 7]),
    (4, PRICE, 7, 7, &[2, 100]),
    (4, TAG, -5, -5, &[100]),
    (4, 701, i128::MIN, i128::MAX, &[]),
];

// How many of the steps were done, the path, the universe, and its numbers where each document has one alone and is not
// among the few with a number there.
const NUMBERS: [(usize, u16, &[u32], Option<&[i64]>); 14] = [
    (1, PRICE, &[0, 1], Some(&[7, -7])),
    (1, PRICE, &[0, 2], None),
    (1, PRICE, &[3], None),
    (1, PRICE, &[0, 5], None),
    (1, TAG, &[0], None),
    (1, YEAR, &[0], Some(&[-1])),
    (1, YEAR, &[1], None),
    (2, YEAR, &[4, 7], Some(&[i64::MAX, i64::MIN + 2])),
    (2, YEAR, &[4, 6], None),
    (3, PRICE, &[0, 7], Some(&[70, 0])),
    (3, PRICE, &[1], None),
    (3, YEAR, &[0], None),
    (4, TAG, &[100], None),
    (4, PRICE, &[0, 7, 100], Some(&[70, 0, 7])),
];

fn leaf(rt: &impl Abort, alloc: Global, path: u16, given: &Given) -> Leaf {
    let value = match given {
        Given::Number(number) => FacetValue::Number(*number),
        Given::Text(text) => FacetValue::Text(word(rt, alloc, text)),
    };
    Leaf {
        path: PathId(path),
        value,
        shown: word(rt, alloc, "shown"),
    }
}

fn change_of(rt: &impl Abort, alloc: Global, steps: &[Step]) -> LeafChange {
    let mut change = LeafChange::new(alloc);
    for step in steps {
        if step.goes {
            change.take_out(DocId(step.id)).expect(rt, "memory");
        } else {
            let mut leaves = Vec::new(alloc);
            for (path, given) in step.values {
                let leaf = leaf(rt, alloc, *path, given);
                leaves.push(leaf).expect(rt, "memory");
            }
            change
                .put_in(alloc, DocId(step.id), leaves.as_slice())
                .expect(rt, "memory");
        }
    }
    change
}

// The table after so many changes.
fn table_after(rt: &impl Abort, alloc: Global, done: usize) -> LeafTable {
    let mut table = LeafTable::new(alloc);
    for steps in STEPS.iter().take(done) {
        let change = change_of(rt, alloc, steps);
        let prepared = table.prepare(change).expect(rt, "memory");
        table.commit(prepared);
    }
    table
}

#[test]
fn documents_with_a_number_of_a_range(rt: HostRuntime) {
    let alloc = rt.alloc();
    for (done, path, low, high, want) in &RANGES {
        let table = table_after(&rt, alloc, *done);
        let all = set(&rt, alloc, &ALL);
        let docs = table.between(alloc, PathId(*path), *low, *high, &all);
        check_ids(&rt, &docs.expect(&rt, "memory"), want, "range");
        let few = set(&rt, alloc, &[3, 100]);
        let docs = table.between(alloc, PathId(*path), *low, *high, &few);
        for id in docs.expect(&rt, "memory").iter() {
            check(&rt, want.contains(&id.0) && few.contains(id), "inside");
        }
    }
}

// A number of each document of a universe, in its order.
fn check_numbers(
    rt: &impl Abort,
    table: &LeafTable,
    path: u16,
    docs: &DocSet,
    want: Option<&[i64]>,
    alloc: Global,
) {
    let found = table
        .numbers(alloc, PathId(path), docs)
        .expect(rt, "memory");
    match (found, want) {
        (Some(pairs), Some(numbers)) => {
            check(rt, pairs.len() == numbers.len(), "how many");
            for ((pair, number), id) in pairs.iter().zip(numbers).zip(docs.iter()) {
                check(rt, pair.0 == *number && pair.1 == id, "number");
            }
        }
        (None, None) => {}
        _ => check(rt, false, "numbers"),
    }
}

#[test]
fn the_one_number_of_each_document(rt: HostRuntime) {
    let alloc = rt.alloc();
    for (done, path, universe, want) in &NUMBERS {
        let table = table_after(&rt, alloc, *done);
        let docs = set(&rt, alloc, universe);
        check_numbers(&rt, &table, *path, &docs, *want, alloc);
    }
}

#[test]
fn the_leaves_of_a_document(rt: HostRuntime) {
    let alloc = rt.alloc();
    let table = table_after(&rt, alloc, 3);
    let mut copies = Vec::new(alloc);
    for (id, len) in [(0, 1), (1, 0), (2, 2), (3, 3), (5, 0), (7, 2), (5_000, 0)] {
        let mut found: usize = 0;
        for path in [PRICE, TAG, YEAR] {
            let copied = table.copy_under(DocId(id), PathId(path), &mut copies);
            copied.expect(&rt, "memory");
            found = found.saturating_add(copies.len());
        }
        check(&rt, found == len, "leaves");
    }
}
