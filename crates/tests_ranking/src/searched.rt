ghost use Rattle.std.specs.Prelude.{◌<◌};

use crate::checks::{check, word};
use crate::costs::{CASES, KNIGHT, RULES, graph, rows};
use crate::shelves::{Shelf, make_shelf};
use bucket_sort::{BucketLog, RecordLog};
use doc_search::{IndexedRows, Snapshot, documents_passing};
use filter_tree::{Filter, Test};
use rule_buckets::{HitWindow, Rules, page};
use search_base::{DocId, PathId, Rule, Steps};
use std::alloc::Global;
use std::process::Abort;

struct Counted;

// The documents of some lines, each of which ends with the costs of its document.
pub(crate) fn shelf(rt: &impl Abort, alloc: Global, lines: &str) -> Shelf {
    let mut all = Vec::new(alloc);
    for line in lines.split('\n') {
        let (document, _costs) = line.split_once(" ~").unwrap_or((line, ""));
        all.push(rows(rt, alloc, document)).expect(rt, "memory");
    }
    make_shelf(rt, alloc, all)
}

// What a search finds: the hits, and how many documents match.
#[derive(Drop)]
struct HitsFound {
    hits: Vec<DocId>,
    total: u64,
}

// What a search finds, whose filter names the paths by their numbers.
fn found(
    rt: &impl Abort,
    alloc: Global,
    shelf: &Shelf,
    query: &str,
    filter: &Filter,
    rules: &[Rule],
    window: HitWindow,
) -> HitsFound {
    let graph = graph(rt, alloc, query);
    let paths = [
        word(rt, alloc, "0"),
        word(rt, alloc, "1"),
        word(rt, alloc, "2"),
    ];
    let log = Box::new(alloc, RecordLog::new(alloc)).expect(rt, "memory");
    let mut log: Box<dyn BucketLog> = log;
    let mut openings: Steps<Counted> = Steps::new();
    let snapshot = Snapshot::of_query(alloc, shelf, &graph).expect(rt, "memory");
    let all = shelf.index().ids();
    let passing = documents_passing(alloc, shelf, filter, &paths, all).expect(rt, "memory");
    let rules = Rules::new(alloc, &snapshot, &graph, rules, &passing).expect(rt, "memory");
    let hits = page(alloc, &rules, window, &mut log, &mut openings).expect(rt, "memory");
    HitsFound {
        hits,
        total: rules.matching().len(),
    }
}

// The costs of a document, told so that they stand in the order of their numbers, and none where it does not match.
fn costs(rt: &impl Abort, alloc: Global, lines: &str, id: u32) -> Vec<u32> {
    let line = lines.split('\n').nth(id as usize).unwrap_or("");
    let (_document, told) = line.split_once(" ~").unwrap_or((line, ""));
    let mut costs = Vec::new(alloc);
    for cost in told.split(' ') {
        if let Ok(cost) = cost.parse::<u32>() {
            costs.push(cost).expect(rt, "memory");
        }
    }
    costs
}

// How many of the documents have costs.
fn match_count(lines: &str) -> u64 {
    lines
        .split('\n')
        .filter(|line| !line.ends_with(" none"))
        .count() as u64
}

// Whether a document stands before another by the costs from one place on to before another.
fn stand_in_order(
    rt: &impl Abort,
    alloc: Global,
    lines: &str,
    found: &HitsFound,
    from: usize,
    to: usize,
) -> bool {
    let mut last: Option<(Vec<u32>, u32)> = None;
    for id in &found.hits {
        let mut costs = costs(rt, alloc, lines, id.0);
        costs.truncate(to);
        let costs = costs.split_off(from.min(costs.len())).expect(rt, "memory");
        let next = Some((costs, id.0));
        if last >= next {
            return false;
        }
        last = next;
    }
    true
}

fn check_found(rt: &impl Abort, alloc: Global, query: &str, lines: &str, from: usize, to: usize)
    requires { to < 7 }
{
    let shelf = shelf(rt, alloc, lines);
    let rules = &RULES[from.min(to)..to];
    let window = HitWindow {
        offset: 0,
        limit: 100,
    };
    let found = found(rt, alloc, &shelf, query, &Filter::All, rules, window);
    check(rt, found.total == match_count(lines), lines);
    check(rt, found.hits.len() as u64 == match_count(lines), lines);
    check(
        rt,
        stand_in_order(rt, alloc, lines, &found, from, to),
        query,
    );
}

#[test]
fn hits_stand_by_the_worked_costs(rt: HostRuntime) {
    for (query, lines) in &CASES {
        for rule in 0..6 {
            check_found(&rt, rt.alloc(), query, lines, rule, rule + 1);
        }
        check_found(&rt, rt.alloc(), query, lines, 0, 6);
    }
}

// Documents with a title and a year.
const SHELF: &str = "the dark knight/2008\ndark knight rises/2012\nknight/1999\ndarkness/2002";

const YEAR: Option<PathId> = Some(PathId(1));

const NEWEST: [Rule; 2] = [Rule::Words, Rule::Down(YEAR)];

const OLDEST: [Rule; 1] = [Rule::Up(YEAR)];

const PLAIN: [Rule; 2] = [Rule::Words, Rule::Inexact];

// A query, the least year that passes, rules, a window, the hits, and the number of matches.
#[derive(Drop)]
struct Search {
    query: &'static str,
    least: Option<i128>,
    rules: &'static [Rule],
    offset: u64,
    limit: u64,
    hits: &'static [u32],
    total: u64,
}

const SEARCHES: [Search; 7] = [
    Search {
        query: KNIGHT,
        least: None,
        rules: &NEWEST,
        offset: 0,
        limit: 20,
        hits: &[1, 0, 2],
        total: 3,
    },
    Search {
        query: KNIGHT,
        least: None,
        rules: &NEWEST,
        offset: 1,
        limit: 1,
        hits: &[0],
        total: 3,
    },
    Search {
        query: KNIGHT,
        least: None,
        rules: &NEWEST,
        offset: 2,
        limit: 0,
        hits: &[],
        total: 3,
    },
    Search {
        query: "",
        least: None,
        rules: &OLDEST,
        offset: 0,
        limit: 3,
        hits: &[2, 3, 0],
        total: 4,
    },
    Search {
        query: "",
        least: None,
        rules: &PLAIN,
        offset: 1,
        limit: 2,
        hits: &[1, 2],
        total: 4,
    },
    Search {
        query: KNIGHT,
        least: Some(2000),
        rules: &NEWEST,
        offset: 1,
        limit: 19,
        hits: &[0],
        total: 2,
    },
    Search {
        query: "",
        least: Some(2002),
        rules: &PLAIN,
        offset: 0,
        limit: 2,
        hits: &[0, 1],
        total: 3,
    },
];

// The documents of this year and later, or all.
fn filter(rt: &impl Abort, alloc: Global, least: Option<i128>) -> Filter {
    match least {
        None => Filter::All,
        Some(year) => Filter::Test {
            attribute: word(rt, alloc, "1"),
            test: Test::AtLeast(year),
        },
    }
}

fn check_search(rt: &impl Abort, alloc: Global, search: &Search) {
    let shelf = shelf(rt, alloc, SHELF);
    let filter = filter(rt, alloc, search.least);
    let window = HitWindow {
        offset: search.offset,
        limit: search.limit,
    };
    let found = found(
        rt,
        alloc,
        &shelf,
        search.query,
        &filter,
        search.rules,
        window,
    );
    check(rt, found.total == search.total, search.query);
    check(rt, found.hits.len() == search.hits.len(), search.query);
    for (hit, id) in found.hits.iter().zip(search.hits) {
        check(rt, hit.0 == *id, search.query);
    }
}

#[test]
fn windows_filters_and_orders(rt: HostRuntime) {
    for search in &SEARCHES {
        check_search(&rt, rt.alloc(), search);
    }
}
