ghost use Rattle.std.specs.Prelude.{◌<◌, ◌≤◌};
ghost use Rattle.condition_graph.specs.Promise.{IsCondition};
ghost use Rattle.search_base.specs.Graphs.{IsTerm};

use crate::checks::{check_text, set, word};
use crate::texts::{listed, standing_lists};
use condition_graph::Condition;
use doc_search::{SearchLists, meeting};
use search_base::Term;
use std::alloc::Global;
use std::process::Abort;

// The ranks of the paths.
const RANKS: [Option<u16>; 2] = [Some(0), Some(1)];

fn term(rt: &impl Abort, alloc: Global, text: &str, prefix: bool) -> Term
    ensures { IsTerm result }
{
    let words = Vec::from_array(alloc, [word(rt, alloc, text)]).expect(rt, "memory");
    Term { words, prefix }
}

fn pair(
    rt: &impl Abort,
    alloc: Global,
    left: &str,
    right: &str,
    right_prefix: bool,
    cost: u8,
) -> Condition
    requires { cost < 7 }
    ensures { IsCondition result }
{
    Condition::Pair {
        left: word(rt, alloc, left),
        right: word(rt, alloc, right),
        right_prefix,
        cost,
    }
}

fn at_rank(rt: &impl Abort, alloc: Global, text: &str, rank: u16) -> Condition
    ensures { IsCondition result }
{
    Condition::AtRank {
        term: term(rt, alloc, text, false),
        rank,
    }
}

fn at_bucket(rt: &impl Abort, alloc: Global, text: &str, bucket: u8) -> Condition
    requires { bucket ≤ 20 }
    ensures { IsCondition result }
{
    Condition::AtBucket {
        term: term(rt, alloc, text, false),
        bucket,
    }
}

// The documents that meet a condition are those of the row.
fn check_met(rt: &impl Abort, alloc: Global, condition: &Condition, wanted: &str, row: &str)
    requires { IsCondition condition.now }
{
    let lists = standing_lists(rt, alloc);
    let all = set(rt, alloc, &[1, 2, 3, 4, 700]);
    let lists = SearchLists::new(alloc, &lists.postings, &RANKS);
    let docs = meeting(alloc, &lists, condition, &all).expect(rt, "memory");
    check_text(rt, &listed(rt, alloc, &docs), wanted, row);
}

// A text, whether it begins words, and the documents that have it.
const TERMS: [(&str, bool, &str); 3] = [
    ("dark", false, "1 2 3 4 "),
    ("kn", false, ""),
    ("ris", true, "2 "),
];

// A word, a rank, and the documents that have the word at that rank first.
const AT_RANKS: [(&str, u16, &str); 3] = [
    ("dark", 0, "1 2 4 "),
    ("dark", 1, "3 "),
    ("knight", 1, ""),
];

#[test]
fn conditions(rt: HostRuntime) {
    let alloc = rt.alloc();
    check_met(&rt, alloc, &Condition::Free, "1 2 3 4 700 ", "free");
    for (text, prefix, wanted) in TERMS {
        let condition = Condition::Occurs(term(&rt, alloc, text, prefix));
        check_met(&rt, alloc, &condition, wanted, text);
    }
    for (text, rank, wanted) in AT_RANKS {
        let condition = at_rank(&rt, alloc, text, rank);
        check_met(&rt, alloc, &condition, wanted, text);
    }
}

#[test]
fn places_and_pairs(rt: HostRuntime) {
    let alloc = rt.alloc();
    let first = at_bucket(&rt, alloc, "knight", 0);
    check_met(&rt, alloc, &first, "4 ", "first bucket");
    let second = at_bucket(&rt, alloc, "knight", 1);
    check_met(&rt, alloc, &second, "1 2 3 ", "second bucket");
    let near = pair(&rt, alloc, "dark", "knight", false, 0);
    check_met(&rt, alloc, &near, "1 2 3 ", "side by side");
    let turned = pair(&rt, alloc, "dark", "knight", false, 1);
    check_met(&rt, alloc, &turned, "4 ", "the wrong way round");
    let least = pair(&rt, alloc, "dark", "", true, 0);
    check_met(&rt, alloc, &least, "1 2 3 ", "side by side with any word");
    let other = pair(&rt, alloc, "dark", "", true, 1);
    check_met(&rt, alloc, &other, "4 ", "any word in front");
}
