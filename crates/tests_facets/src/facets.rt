use crate::checks::{check, check_ids, set, wide_set, word};
use doc_sets::DocSet;
use facet_index::{FacetChange, FacetIndex};
use facet_keys::{greatest_key, least_key, mark_key, value_key};
use leaf_table::{LeafChange, LeafTable};
use search_base::{DocId, FacetValue, Leaf, Mark, MarkKind, PathId, Word};
use std::alloc::Global;
use std::process::Abort;

// A document with its leaves and marks.
#[derive(Drop)]
pub(crate) struct DocLeaves {
    pub(crate) id: DocId,
    pub(crate) leaves: Vec<Leaf>,
    pub(crate) marks: Vec<Mark>,
}

const FIRST: i128 = -(1 << 63);

const LAST: i128 = (1 << 64) - 1;

// A value as it is written here.
enum Given {
    Number(i128),
    Text(&'static str),
}

fn value(rt: &impl Abort, alloc: Global, given: &Given) -> FacetValue {
    match given {
        Given::Number(number) => FacetValue::Number(*number),
        Given::Text(text) => FacetValue::Text(word(rt, alloc, text)),
    }
}

// A document: its number, its values with their paths, and its marks with theirs.
struct Document {
    id: u32,
    values: &'static [(u16, Given)],
    marks: &'static [(u16, MarkKind)],
}

// Two paths: 0 has numbers and texts, 1 has texts. Each document has a mark of another kind.
const DOCUMENTS: [Document; 3] = [
    Document {
        id: 1,
        values: &[(0, Given::Number(FIRST)), (1, Given::Text("all"))],
        marks: &[(0, MarkKind::Exists)],
    },
    Document {
        id: 5,
        values: &[
            (0, Given::Number(7)),
            (0, Given::Text("7")),
            (1, Given::Text("all")),
        ],
        marks: &[(0, MarkKind::Exists), (1, MarkKind::Null)],
    },
    Document {
        id: 700,
        values: &[
            (0, Given::Number(LAST)),
            (0, Given::Number(-1)),
            (1, Given::Text("all")),
            (1, Given::Text("one")),
        ],
        marks: &[(1, MarkKind::Empty)],
    },
];

fn leaf(rt: &impl Abort, alloc: Global, path: u16, value: FacetValue) -> Leaf {
    Leaf {
        path: PathId(path),
        value,
        shown: word(rt, alloc, "as it was written"),
    }
}

fn leaves_of(rt: &impl Abort, alloc: Global, values: &[(u16, Given)]) -> Vec<Leaf> {
    let mut leaves = Vec::new(alloc);
    for (path, given) in values {
        let leaf = leaf(rt, alloc, *path, value(rt, alloc, given));
        leaves.push(leaf).expect(rt, "memory");
    }
    leaves
}

fn marks_of(rt: &impl Abort, alloc: Global, marks: &[(u16, MarkKind)]) -> Vec<Mark> {
    let mut kept = Vec::new(alloc);
    for (path, kind) in marks {
        let mark = Mark {
            path: PathId(*path),
            kind: *kind,
        };
        kept.push(mark).expect(rt, "memory");
    }
    kept
}

fn documents(rt: &impl Abort, alloc: Global) -> Vec<DocLeaves> {
    let mut documents = Vec::new(alloc);
    for document in &DOCUMENTS {
        let leaves = DocLeaves {
            id: DocId(document.id),
            leaves: leaves_of(rt, alloc, document.values),
            marks: marks_of(rt, alloc, document.marks),
        };
        documents.push(leaves).expect(rt, "memory");
    }
    documents
}

// The change in which these documents go and these come.
fn change(rt: &impl Abort, alloc: Global, gone: &[DocLeaves], come: &[DocLeaves]) -> FacetChange {
    let mut change = FacetChange::new(alloc);
    for document in gone {
        let (leaves, marks) = (document.leaves.as_slice(), document.marks.as_slice());
        let taken = change.take_out(alloc, document.id, leaves, marks);
        taken.expect(rt, "memory");
    }
    for document in come {
        let (leaves, marks) = (document.leaves.as_slice(), document.marks.as_slice());
        let put = change.put_in(alloc, document.id, leaves, marks);
        put.expect(rt, "memory");
    }
    change
}

pub(crate) fn commit(
    rt: &impl Abort,
    alloc: Global,
    index: &mut FacetIndex,
    gone: &[DocLeaves],
    come: &[DocLeaves],
) {
    let prepared = index.prepare(alloc, change(rt, alloc, gone, come));
    index.commit(prepared.expect(rt, "memory"));
}

// Prepares a change and lets it go, and then does it.
fn commit_again(
    rt: &impl Abort,
    alloc: Global,
    index: &mut FacetIndex,
    gone: &[DocLeaves],
    come: &[DocLeaves],
) {
    let prepared = index.prepare(alloc, change(rt, alloc, gone, come));
    index.release(prepared.expect(rt, "memory"));
    commit(rt, alloc, index, gone, come);
}

fn check_equal(
    rt: &impl Abort,
    alloc: Global,
    index: &FacetIndex,
    path: u16,
    value: &FacetValue,
    universe: &DocSet,
    ids: &[u32],
) {
    let docs = index.equal(alloc, PathId(path), value, universe);
    check_ids(rt, &docs.expect(rt, "memory"), ids, "equal");
}

fn check_marked(
    rt: &impl Abort,
    alloc: Global,
    index: &FacetIndex,
    path: u16,
    kind: MarkKind,
    universe: &DocSet,
    ids: &[u32],
) {
    let docs = index.marked(alloc, PathId(path), kind, universe);
    check_ids(rt, &docs.expect(rt, "memory"), ids, "marked");
}

// A path, a value, and the documents that have it there.
const EQUAL: [(u16, Given, &[u32]); 8] = [
    (1, Given::Text("all"), &[1, 5, 700]),
    (1, Given::Text("one"), &[700]),
    (0, Given::Text("7"), &[5]),
    (0, Given::Number(7), &[5]),
    (0, Given::Number(FIRST), &[1]),
    (0, Given::Number(LAST), &[700]),
    (1, Given::Number(7), &[]),
    (1, Given::Text("al"), &[]),
];

fn check_values(rt: &impl Abort, alloc: Global, index: &FacetIndex, all: &DocSet) {
    for (path, given, ids) in &EQUAL {
        let value = value(rt, alloc, given);
        check_equal(rt, alloc, index, *path, &value, all, ids);
    }
}

#[test]
fn values_and_marks(rt: HostRuntime) {
    let alloc = rt.alloc();
    let mut index = FacetIndex::new(alloc);
    let documents = documents(&rt, alloc);
    commit_again(&rt, alloc, &mut index, &[], &documents);
    let all = set(&rt, alloc, &[1, 3, 5, 700]);
    let some = set(&rt, alloc, &[3, 5]);
    check_values(&rt, alloc, &index, &all);
    let text = value(&rt, alloc, &Given::Text("all"));
    check_equal(&rt, alloc, &index, 1, &text, &some, &[5]);
    check_marked(&rt, alloc, &index, 0, MarkKind::Exists, &all, &[1, 5]);
    check_marked(&rt, alloc, &index, 1, MarkKind::Null, &all, &[5]);
    check_marked(&rt, alloc, &index, 1, MarkKind::Empty, &some, &[]);
    commit_again(&rt, alloc, &mut index, &documents, &[]);
    check_equal(&rt, alloc, &index, 1, &text, &all, &[]);
}

// The table of the leaves of documents, where these went before they came.
pub(crate) fn table(
    rt: &impl Abort,
    alloc: Global,
    gone: &[DocLeaves],
    come: &[DocLeaves],
) -> LeafTable {
    let mut table = LeafTable::new(alloc);
    commit_leaves(rt, alloc, &mut table, &[], gone);
    commit_leaves(rt, alloc, &mut table, gone, come);
    table
}

fn commit_leaves(
    rt: &impl Abort,
    alloc: Global,
    table: &mut LeafTable,
    gone: &[DocLeaves],
    come: &[DocLeaves],
) {
    let mut change = LeafChange::new(alloc);
    for document in gone {
        change.take_out(document.id).expect(rt, "memory");
    }
    for document in come {
        let put = change.put_in(alloc, document.id, document.leaves.as_slice());
        put.expect(rt, "memory");
    }
    let prepared = table.prepare(change).expect(rt, "memory");
    table.commit(prepared);
}

// The ends, and which of the documents 1, 5 and 700 have a number there.
const RANGES: [(i128, i128, &[u32]); 10] = [
    (FIRST, LAST, &[1, 5, 700]),
    (i128::MIN, i128::MAX, &[1, 5, 700]),
    (i128::MIN, FIRST, &[1]),
    (FIRST, -1, &[1, 700]),
    (FIRST + 1, -2, &[]),
    (7, 7, &[5]),
    (8, LAST - 1, &[]),
    (LAST, i128::MAX, &[700]),
    (LAST + 1, i128::MAX, &[]),
    (7, -1, &[]),
];

// How many of the documents 5 and 700 are among these.
fn count_of_some(ids: &[u32]) -> u64 {
    u64::from(ids.contains(&5)) + u64::from(ids.contains(&700))
}

// The documents of a range whose lists are short beside the universe.
fn check_short(
    rt: &impl Abort,
    alloc: Global,
    index: &FacetIndex,
    (low, high): (i128, i128),
    ids: &[u32],
) {
    let wide = wide_set(rt, alloc, &[1, 5, 700]);
    for (path, ids) in [(0, ids), (1, &[])] {
        let docs = index.short_range(alloc, PathId(path), low, high, &wide);
        match docs.expect(rt, "memory") {
            Some(docs) => check_ids(rt, &docs, ids, "short"),
            None => check(rt, false, "short lists"),
        }
    }
    let some = set(rt, alloc, &[5, 700]);
    let docs = index.short_range(alloc, PathId(0), low, high, &some);
    let docs = docs.expect(rt, "memory");
    check(
        rt,
        docs.is_none() != ids.is_empty(),
        "lists that are not short",
    );
}

// The documents of a range by the leaves of each.
fn check_between(
    rt: &impl Abort,
    alloc: Global,
    table: &LeafTable,
    (low, high): (i128, i128),
    ids: &[u32],
) {
    let all = set(rt, alloc, &[1, 5, 700]);
    for (path, ids) in [(0, ids), (1, &[]), (2, &[])] {
        let docs = table.between(alloc, PathId(path), low, high, &all);
        check_ids(rt, &docs.expect(rt, "memory"), ids, "all");
    }
    let some = set(rt, alloc, &[5, 700]);
    let inside = table.between(alloc, PathId(0), low, high, &some);
    let inside = inside.expect(rt, "memory");
    check(rt, inside.len() == count_of_some(ids), "some");
}

#[test]
fn ranges_of_numbers(rt: HostRuntime) {
    let alloc = rt.alloc();
    let mut index = FacetIndex::new(alloc);
    let documents = documents(&rt, alloc);
    commit_again(&rt, alloc, &mut index, &[], &documents);
    let table = table(&rt, alloc, &documents, &documents);
    for (low, high, ids) in &RANGES {
        check_short(&rt, alloc, &index, (*low, *high), ids);
        check_between(&rt, alloc, &table, (*low, *high), ids);
    }
}

// Document 9 with ten thousand numbers at path 3.
fn many(rt: &impl Abort, alloc: Global) -> Vec<DocLeaves> {
    let mut leaves = Vec::new(alloc);
    for n in 0..10_000_u32 {
        let leaf = leaf(rt, alloc, 3, FacetValue::Number(i128::from(n)));
        leaves.push(leaf).expect(rt, "memory");
    }
    let document = DocLeaves {
        id: DocId(9),
        leaves,
        marks: Vec::new(alloc),
    };
    Vec::from_array(alloc, [document]).expect(rt, "memory")
}

// No document has a number of the range under path 3.
fn check_empty(
    rt: &impl Abort,
    alloc: Global,
    index: &FacetIndex,
    (low, high): (i128, i128),
    all: &DocSet,
) {
    let docs = index.short_range(alloc, PathId(3), low, high, all);
    let docs = docs.expect(rt, "memory").expect(rt, "no list is short");
    check(rt, docs.is_empty(), "no number");
}

#[test]
fn a_document_of_many_values(rt: HostRuntime) {
    let alloc = rt.alloc();
    let mut index = FacetIndex::new(alloc);
    let many = many(&rt, alloc);
    commit(&rt, alloc, &mut index, &[], &many);
    let all = set(&rt, alloc, &[9, 10]);
    let last = FacetValue::Number(9_999);
    check_equal(&rt, alloc, &index, 3, &last, &all, &[9]);
    check_empty(&rt, alloc, &index, (10_000, LAST), &all);
    commit(&rt, alloc, &mut index, &many, &[]);
    check_empty(&rt, alloc, &index, (FIRST, LAST), &all);
}

const PATHS: [PathId; 4] = [PathId(0), PathId(127), PathId(128), PathId(u16::MAX)];

const KINDS: [MarkKind; 3] = [MarkKind::Exists, MarkKind::Null, MarkKind::Empty];

// Values in order: numbers, and then texts.
const VALUES: [Given; 12] = [
    Given::Number(i128::MIN),
    Given::Number(FIRST),
    Given::Number(-1),
    Given::Number(0),
    Given::Number(1),
    Given::Number(127),
    Given::Number(128),
    Given::Number(LAST),
    Given::Number(i128::MAX),
    Given::Text(""),
    Given::Text("a"),
    Given::Text("ab"),
];

fn add_keys(rt: &impl Abort, alloc: Global, path: PathId, keys: &mut Vec<Word>) {
    for kind in &KINDS {
        let key = mark_key(alloc, path, *kind).expect(rt, "memory");
        keys.push(key).expect(rt, "memory");
    }
    for given in &VALUES {
        let key = value_key(alloc, path, &value(rt, alloc, given));
        keys.push(key.expect(rt, "memory")).expect(rt, "memory");
    }
}

fn add_bounds(rt: &impl Abort, alloc: Global, path: PathId, keys: &mut Vec<Word>) {
    let number = FacetValue::Number(5);
    let text = FacetValue::Text(word(rt, alloc, "a"));
    let key = least_key(alloc, path, &number).expect(rt, "memory");
    keys.push(key).expect(rt, "memory");
    let key = least_key(alloc, path, &text).expect(rt, "memory");
    keys.push(key).expect(rt, "memory");
    let key = greatest_key(alloc, path, &text).expect(rt, "memory");
    keys.push(key).expect(rt, "memory");
    let key = greatest_key(alloc, path, &number).expect(rt, "memory");
    keys.push(key).expect(rt, "memory");
}

// The keys in order: by path, then marks, numbers, texts and least values, and greatest values with texts first.
#[test]
fn keys_in_order(rt: HostRuntime) {
    let alloc = rt.alloc();
    let mut keys = Vec::new(alloc);
    for path in &PATHS {
        add_keys(&rt, alloc, *path, &mut keys);
        add_bounds(&rt, alloc, *path, &mut keys);
    }
    for (key, next) in keys.iter().zip(keys.iter().skip(1)) {
        check(&rt, key < next, "keys");
    }
}
