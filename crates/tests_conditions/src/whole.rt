ghost use Rattle.std.specs.Prelude.{◌<◌};

use crate::checks::{check_text, set};
use crate::texts::{DOCUMENTS, Lists, change, listed, standing_lists, words};
use search_base::PathId;
use std::alloc::Global;
use std::process::Abort;
use whole_words::documents_at_whole_cost;

// A path, a length, and the documents in which it has that length.
const LENGTHS: [(u16, usize, &str); 7] = [
    (0, 0, ""),
    (0, 1, ""),
    (0, 2, "1 3 4 "),
    (0, 3, "2 "),
    (1, 1, "2 "),
    (1, 2, "3 "),
    (2, 2, ""),
];

// The same once document 2 has one word.
const LENGTHS_AFTER: [(u16, usize, &str); 5] = [
    (0, 1, "2 "),
    (0, 2, "1 4 "),
    (0, 3, ""),
    (1, 1, ""),
    (1, 2, ""),
];

fn check_lengths(rt: &impl Abort, alloc: Global, lists: &Lists, rows: &[(u16, usize, &str)]) {
    let all = set(rt, alloc, &[1, 2, 3, 4, 5, 700]);
    for (path, length, wanted) in rows {
        let docs = lists.lengths.documents(alloc, PathId(*path), *length, &all);
        let docs = docs.expect(rt, "memory");
        check_text(rt, &listed(rt, alloc, &docs), wanted, "a length");
    }
}

#[test]
fn lengths_of_paths(rt: HostRuntime) {
    let alloc = rt.alloc();
    let mut lists = standing_lists(&rt, alloc);
    check_lengths(&rt, alloc, &lists, &LENGTHS);
    change(
        &rt,
        alloc,
        &mut lists,
        &DOCUMENTS[1..3],
        &[(2, "rises", "")],
    );
    check_lengths(&rt, alloc, &lists, &LENGTHS_AFTER);
}

// The documents of the universe at a cost.
fn at_cost(rt: &impl Abort, alloc: Global, text: &str, cost: u32, universe: &[u32]) -> String
    requires { cost < 2 }
{
    let lists = standing_lists(rt, alloc);
    let asked = words(rt, alloc, text);
    let universe = set(rt, alloc, universe);
    let docs = documents_at_whole_cost(
        alloc,
        &lists.postings,
        &lists.lengths,
        asked.as_slice(),
        cost,
        &universe,
    );
    listed(rt, alloc, &docs.expect(rt, "memory"))
}

const ALL: [u32; 6] = [1, 2, 3, 4, 5, 700];

// Words, the documents that have a path of just these, and those that have one which begins so.
const QUERIES: [(&str, &str, &str); 7] = [
    ("dark knight", "1 3 ", "2 "),
    ("dark", "2 ", "1 3 "),
    ("knight", "", "4 "),
    ("dark knight rises", "2 ", ""),
    ("dark knight falls", "", ""),
    ("knight rises", "", ""),
    ("", "", "1 2 3 4 "),
];

#[test]
fn whole_queries(rt: HostRuntime) {
    let alloc = rt.alloc();
    for (text, whole, begun) in QUERIES {
        check_text(&rt, &at_cost(&rt, alloc, text, 0, &ALL), whole, text);
        check_text(&rt, &at_cost(&rt, alloc, text, 1, &ALL), begun, text);
    }
    let few = at_cost(&rt, alloc, "dark", 1, &[2, 3]);
    check_text(&rt, &few, "3 ", "two documents");
}
