ghost use Rattle.std.specs.Prelude.{◌≡◌, ◌<◌, ◌≤◌, true, IsTrue, length, IfSome};
ghost use Rattle.std.specs.List.{AllByRecursion};
ghost use Rattle.search_base.specs.Graphs.{IsTerm, IsPlaced, IsLevel, IsGraph};

use crate::checks::{add, check_text, word};
use plain_rank::*;
use search_base::{
    Block, CostKey, DocRows, FacetValue, Graph, Kind, Leaf, LevelGraph, PathId, Place, PlacedBlock,
    Rule, SortKey, Term, Word,
};
use std::alloc::Global;
use std::process::Abort;

// What stands for all rules of a search: words, proximity, attribute and exactness.
pub(crate) const RULES: [Rule; 6] = [
    Rule::Words,
    Rule::Proximity,
    Rule::Field,
    Rule::Position,
    Rule::Whole,
    Rule::Inexact,
];

// Queries, each with documents and their costs by all rules.
//
// A query is the words of all its items, then the number of items of its first level and the
// blocks of that, and the same of its second level, if it has one. A block has the place where it
// begins and the one where it ends, its kind, and a word or two in a row. A star stands for words
// that begin so.
//
// A document is the words of its paths between strokes, as genres/id/title/year, and the rank of a
// path is its number. A number after an at sign is the position of the next word.
pub(crate) const CASES: [(&str, &str); 9] = [
    // no word
    (
        "",
        "action @8 drama/1/the dark knight/2008 ~ 0 0 0 0 0 0\n\
         / ~ 0 0 0 0 0 0",
    ),
    // one word, at positions where buckets begin and end
    (
        "dark: 1: 0 1 plain dark, 0 1 prefix dark*",
        "action/2/dark knight rises/2012 ~ 0 0 2 0 1 0\n\
         drama/4/darkness/2002 ~ 0 0 2 0 2 1\n\
         action @8 drama/1/the dark knight/2008 ~ 0 0 2 1 2 0\n\
         /3/knight of the dark/1999 ~ 0 0 2 3 2 0\n\
         / ~ none\n\
         @7 dark ~ 0 0 0 7 2 0\n\
         @8 dark ~ 0 0 0 8 2 0\n\
         @15 dark ~ 0 0 0 8 2 0\n\
         @16 dark ~ 0 0 0 9 2 0\n\
         @65535 dark ~ 0 0 0 20 2 0\n\
         @65535 dark/@16 dark ~ 0 0 0 9 2 0\n\
         dark rises/dark ~ 0 0 0 0 0 0\n\
         @1 dark/@2 dark ~ 0 0 0 1 2 0",
    ),
    // two words near each other, in both orders, in one path and in two, and joined
    (
        "dark knight: 2: 0 1 plain dark, 1 2 plain knight, 1 2 prefix knight*, \
         0 2 joined darkknight*: 1: 0 1 plain dark",
        "action @8 drama/1/the dark knight/2008 ~ 0 0 4 3 2 0\n\
         action/2/dark knight rises/2012 ~ 0 0 4 1 1 0\n\
         /3/knight of the dark/1999 ~ 0 3 4 3 2 0\n\
         drama/4/darkness/2002 ~ none\n\
         dark knight ~ 0 0 0 1 0 0\n\
         dark knights ~ 0 0 0 1 2 1\n\
         dark a b c d e f knight ~ 0 6 0 7 2 0\n\
         dark @8 knight ~ 0 7 0 8 2 0\n\
         dark @9 knight ~ 0 7 0 8 2 0\n\
         knight dark ~ 0 1 0 1 2 0\n\
         knight @6 dark ~ 0 6 0 6 2 0\n\
         knight @7 dark ~ 0 7 0 7 2 0\n\
         knight dark @16 dark knight ~ 0 0 0 1 2 0\n\
         dark/knight ~ 0 7 1 0 2 0\n\
         dark/knight @20 knights dark ~ 0 1 1 0 2 0\n\
         darkknights ~ 0 1 0 0 2 2\n\
         dark knighta @60 darkknight ~ 0 0 0 1 2 1\n\
         a dark ~ 1 0 0 1 2 0\n\
         a darks ~ none",
    ),
    // one place, and two, for a word asked twice
    (
        "dark dark: 2: 0 1 plain dark, 1 2 plain dark, 1 2 prefix dark*, 0 2 joined darkdark*: 1: \
         0 1 plain dark",
        "action @8 drama/1/the dark knight/2008 ~ 0 7 4 2 2 0\n\
         action/2/dark knight rises/2012 ~ 0 7 4 0 2 0\n\
         /3/knight of the dark/1999 ~ 0 7 4 6 2 0\n\
         drama/4/darkness/2002 ~ none\n\
         dark dark ~ 0 0 0 0 0 0\n\
         dark a dark ~ 0 1 0 0 2 0\n\
         dark/dark ~ 0 7 0 0 2 0\n\
         dark @8 dark ~ 0 7 0 0 2 0",
    ),
    // joined words before dropped words
    (
        "dark ness: 2: 0 1 plain dark, 1 2 plain ness, 1 2 prefix ness*, 0 2 joined darkness*: 1: \
         0 1 plain dark",
        "action @8 drama/1/the dark knight/2008 ~ 1 0 2 1 2 0\n\
         action/2/dark knight rises/2012 ~ 1 0 2 0 2 0\n\
         /3/knight of the dark/1999 ~ 1 0 2 3 2 0\n\
         drama/4/darkness/2002 ~ 0 1 4 0 2 2",
    ),
    // a phrase, and the beginning of a word
    (
        "dark knight ri: 2: 0 1 phrase dark knight, 1 2 plain ri, 1 2 prefix ri*: 1: \
         0 1 phrase dark knight",
        "action/2/dark knight rises/2012 ~ 0 0 4 2 2 1\n\
         action @8 drama/1/the dark knight/2008 ~ 1 0 2 1 2 0\n\
         /3/knight of the dark/1999 ~ none\n\
         @5 dark knight/ri a @30 dark knight ri ~ 0 0 1 5 2 0",
    ),
    // a word with a synonym of two words: each rule has its own reading
    (
        "batman: 1: 0 1 plain batman, 0 1 prefix batman*, 0 1 synonym dark knight",
        "action @8 drama/1/the dark knight/2008 ~ 0 0 2 1 2 1\n\
         action/2/dark knight rises/2012 ~ 0 0 2 0 2 1\n\
         /3/knight of the dark/1999 ~ none\n\
         @5 dark knight/batman ~ 0 0 0 0 0 0",
    ),
    // two words joined, and three
    (
        "a b c: 3: 0 1 plain a, 1 2 plain b, 2 3 plain c, 0 2 joined ab, 1 3 joined bc, \
         0 3 joined abc",
        "/@2 abc ~ 0 2 3 6 2 3\n\
         /@2 ab @4 c @9 b ~ 0 2 3 8 2 2\n\
         c a @9 bc b ~ 0 8 0 9 2 0",
    ),
    // ten words, of which the last is dropped
    (
        "4 4 4 4 4 4 4 4 4 dar: 10: 0 1 plain 4, 1 2 plain 4, 2 3 plain 4, 3 4 plain 4, \
         4 5 plain 4, 5 6 plain 4, 6 7 plain 4, 7 8 plain 4, 8 9 plain 4, 9 10 plain dar: 9: \
         0 1 plain 4, 1 2 plain 4, 2 3 plain 4, 3 4 plain 4, 4 5 plain 4, 5 6 plain 4, \
         6 7 plain 4, 7 8 plain 4, 8 9 plain 4",
        "drama/4/darkness/2002 ~ 1 56 9 0 2 0",
    ),
];

// The words asked for, one or two in a row. A star counts at the last item alone.
fn term(rt: &impl Abort, alloc: Global, first: &str, second: Option<&str>, last: bool) -> Term
    ensures term { IsTerm result }
    ensures last { IsTrue result.prefix → last ≡ true }
{
    if let Some(second) = second {
        let words = [word(rt, alloc, first), word(rt, alloc, second)];
        return Term {
            words: Vec::from_array(alloc, words).expect(rt, "memory"),
            prefix: false,
        };
    }
    let beginning = first.strip_suffix('*');
    let only = word(rt, alloc, beginning.unwrap_or(first));
    Term {
        words: Vec::from_array(alloc, [only]).expect(rt, "memory"),
        prefix: last && beginning.is_some(),
    }
}

fn kind(name: &str) -> Kind {
    match name {
        "plain" => Kind::Plain,
        "prefix" => Kind::Prefix,
        "phrase" => Kind::Phrase,
        "joined" => Kind::Joined,
        _ => Kind::Synonym,
    }
}

fn number(rt: &impl Abort, text: Option<&str>) -> u8 {
    let text = text.unwrap_or("").trim();
    text.parse::<u8>().expect(rt, "a number")
}

// A block of a level of this many items, if it stands within it.
fn placed(rt: &impl Abort, alloc: Global, items: u8, text: &str) -> Option<PlacedBlock>
    ensures { IfSome result (IsPlaced items) }
{
    let mut parts = text.trim().split(' ');
    let from = number(rt, parts.next());
    let to = number(rt, parts.next());
    let kind = kind(parts.next().unwrap_or(""));
    let first = parts.next().unwrap_or("");
    let term = term(rt, alloc, first, parts.next(), to == items);
    if from < to && to <= items {
        let span = to - from;
        let block = Block { span, term, kind };
        Some(PlacedBlock { from, to, block })
    } else {
        None
    }
}

// The blocks of a level of this many items.
fn blocks(rt: &impl Abort, alloc: Global, items: u8, text: &str) -> Vec<PlacedBlock>
    ensures { AllByRecursion (IsPlaced items) result.items }
{
    let mut blocks = Vec::new(alloc);
    for text in text.split(',') {
        if let Some(placed) = placed(rt, alloc, items, text) {
            blocks.push(placed).expect(rt, "memory");
        }
    }
    blocks
}

// A level of at most ten items.
fn level(rt: &impl Abort, alloc: Global, items: &str, text: Option<&str>) -> LevelGraph
    ensures { IsLevel result }
{
    let items = number(rt, Some(items)).min(10).max(1);
    let blocks = blocks(rt, alloc, items, text.unwrap_or(""));
    LevelGraph { items, blocks }
}

// The levels of a query that has words: one, or two.
fn levels(rt: &impl Abort, alloc: Global, text: &str) -> Vec<LevelGraph>
    ensures few { length result.items ≤ 10 }
    ensures levels { AllByRecursion IsLevel result.items }
{
    let mut parts = text.split(':');
    let items = parts.next().unwrap_or("");
    let first = level(rt, alloc, items, parts.next());
    match parts.next() {
        None => Vec::from_array(alloc, [first]).expect(rt, "memory"),
        Some(items) => {
            let second = level(rt, alloc, items, parts.next());
            Vec::from_array(alloc, [first, second]).expect(rt, "memory")
        }
    }
}

// The words between spaces.
fn words(rt: &impl Abort, alloc: Global, text: &str) -> Vec<Word> {
    let mut words = Vec::new(alloc);
    for part in text.split(' ') {
        if !part.is_empty() {
            words.push(word(rt, alloc, part)).expect(rt, "memory");
        }
    }
    words
}

// A query without words has no level.
pub(crate) fn graph(rt: &impl Abort, alloc: Global, query: &str) -> Graph
    ensures { IsGraph result }
{
    let (whole, rest) = query.split_once(':').unwrap_or((query, ""));
    let whole = words(rt, alloc, whole);
    let levels = if whole.is_empty() {
        Vec::new(alloc)
    } else {
        levels(rt, alloc, rest)
    };
    Graph { levels, whole }
}

fn place(rt: &impl Abort, alloc: Global, path: u16, position: u32, text: &str) -> Place {
    Place {
        path: PathId(path),
        rank: path,
        position: u16::try_from(position).expect(rt, "a position"),
        word: word(rt, alloc, text),
    }
}

// The words of a path, whose rank is its number.
fn add_places(rt: &impl Abort, alloc: Global, path: u16, words: &str, places: &mut Vec<Place>) {
    let mut next = 0u32;
    for word in words.split(' ') {
        if let Some(position) = word.strip_prefix('@') {
            next = position.parse::<u32>().expect(rt, "a position");
        } else if !word.is_empty() {
            let place = place(rt, alloc, path, next, word);
            places.push(place).expect(rt, "memory");
            next = next.saturating_add(1);
        }
    }
}

// A number or a text of a path, as a leaf.
fn leaf(rt: &impl Abort, alloc: Global, path: u16, text: &str) -> Leaf {
    let value = match text.parse::<i128>() {
        Ok(number) => FacetValue::Number(number),
        Err(_) => FacetValue::Text(word(rt, alloc, text)),
    };
    let shown = word(rt, alloc, text);
    let path = PathId(path);
    Leaf { path, value, shown }
}

fn add_leaves(rt: &impl Abort, alloc: Global, path: u16, words: &str, leaves: &mut Vec<Leaf>) {
    for word in words.split(' ') {
        if !word.is_empty() {
            let leaf = leaf(rt, alloc, path, word);
            leaves.push(leaf).expect(rt, "memory");
        }
    }
}

// A document with these words in its paths, each of which is a leaf too.
pub(crate) fn rows(rt: &impl Abort, alloc: Global, text: &str) -> DocRows {
    let mut places = Vec::new(alloc);
    let mut leaves = Vec::new(alloc);
    let mut path = 0_u16;
    for words in text.split('/') {
        add_places(rt, alloc, path, words, &mut places);
        add_leaves(rt, alloc, path, words, &mut leaves);
        path = path.saturating_add(1);
    }
    let marks = Vec::new(alloc);
    DocRows {
        places,
        leaves,
        marks,
    }
}

// An entry of the costs, as it is written in the tables.
fn tell(rt: &impl Abort, key: &CostKey, text: &mut String) {
    match key {
        CostKey::Number(cost) => write!(text, " {cost}").expect(rt, "memory"),
        CostKey::Up(key) => tell_key(rt, " ", key, text),
        CostKey::Down(key) => tell_key(rt, " -", key, text),
    }
}

// A missing key is told alike in both directions.
fn tell_key(rt: &impl Abort, sign: &str, key: &SortKey, text: &mut String) {
    match key {
        SortKey::Number(number) => write!(text, "{sign}{number}").expect(rt, "memory"),
        SortKey::Text(form) => write!(text, "{sign}{}", form.as_str()).expect(rt, "memory"),
        SortKey::Missing => add(rt, text, " missing"),
    }
}

// The costs of a document by some rules, as they are written in the tables.
fn told(rt: &impl Abort, alloc: Global, query: &str, document: &str, rules: &[Rule]) -> String {
    let graph = graph(rt, alloc, query);
    let rows = rows(rt, alloc, document);
    the_first_match_counts();
    let mut text = String::new(alloc);
    match cost_tuple(alloc, &graph, &rows, rules).expect(rt, "memory") {
        Some(costs) => tell_all(rt, &costs, &mut text),
        None => add(rt, &mut text, " none"),
    }
    text
}

fn tell_all(rt: &impl Abort, costs: &[CostKey], text: &mut String) {
    for key in costs {
        tell(rt, key, text);
    }
}

fn check_costs(
    rt: &impl Abort,
    alloc: Global,
    query: &str,
    document: &str,
    rules: &[Rule],
    costs: &str,
) {
    let found = told(rt, alloc, query, document, rules);
    check_text(rt, &found, costs, document);
}

// Lines of a document and its costs by some rules.
fn check_documents(rt: &impl Abort, alloc: Global, query: &str, documents: &str, rules: &[Rule]) {
    for line in documents.split('\n') {
        let (document, costs) = line.split_once(" ~").unwrap_or((line, ""));
        check_costs(rt, alloc, query, document, rules, costs);
    }
}

#[test]
fn costs_by_all_rules(rt: HostRuntime) {
    for (query, documents) in &CASES {
        check_documents(&rt, rt.alloc(), query, documents, &RULES);
    }
}

// Documents with the ascending and the descending key of their second path.
const KEYS: [(&str, &str); 8] = [
    ("/5", " 5 -5"),
    ("/t", " t -t"),
    ("/", " missing missing"),
    ("7", " missing missing"),
    ("/9 10 -2/100", " -2 -10"),
    ("1/b 9 10 a", " 9 -10"),
    ("/true ab a b", " a -true"),
    ("/-5 -7 false", " -7 --5"),
];

const SECOND: Option<PathId> = Some(PathId(1));

const BY_SECOND: [Rule; 2] = [Rule::Up(SECOND), Rule::Down(SECOND)];

/// Two words, of which the first may stay alone.
pub(crate) const KNIGHT: &str =
    "knight dark: 2: 0 1 plain knight, 1 2 plain dark: 1: 0 1 plain knight";

// Queries, rules, and documents with a title and a year, each with its costs.
const YEARS: [(&str, &[Rule], &str); 3] = [
    (
        KNIGHT,
        &[Rule::Words, Rule::Down(SECOND)],
        "the dark knight/2008 ~ 0 -2008\n\
         dark knight rises/2012 ~ 0 -2012\n\
         knight/1999 ~ 1 -1999\n\
         darkness/2002 ~ none",
    ),
    (
        "",
        &[Rule::Up(SECOND)],
        "the dark knight/2008 ~ 2008\n\
         knight/1999 ~ 1999\n\
         darkness/2002 ~ 2002",
    ),
    (
        "",
        &[Rule::Words, Rule::Inexact],
        "the dark knight/2008 ~ 0 0\n\
         dark knight rises/2012 ~ 0 0\n\
         knight/1999 ~ 0 0",
    ),
];

const BY_NONE: [Rule; 2] = [Rule::Up(None), Rule::Down(None)];

#[test]
fn sort_keys(rt: HostRuntime) {
    for (document, keys) in &KEYS {
        check_costs(&rt, rt.alloc(), "", document, &BY_SECOND, keys);
    }
    check_costs(&rt, rt.alloc(), "", "1/2", &BY_NONE, " missing missing");
    for (query, rules, documents) in &YEARS {
        check_documents(&rt, rt.alloc(), query, documents, rules);
    }
}

// Rules, and the costs of one document under one query: as the rules are told, one entry each.
const ORDERS: [(&[Rule], &str); 3] = [
    (&[Rule::Proximity], " 1"),
    (&[], ""),
    (
        &[
            Rule::Inexact,
            Rule::Down(SECOND),
            Rule::Field,
            Rule::Inexact,
            Rule::Words,
        ],
        " 2 -4 4 2 0",
    ),
];

#[test]
fn rules_in_their_order(rt: HostRuntime) {
    let query =
        "dark ness: 2: 0 1 plain dark, 1 2 prefix ness*, 0 2 joined darkness*: 1: 0 1 plain dark";
    for (rules, costs) in &ORDERS {
        check_costs(
            &rt,
            rt.alloc(),
            query,
            "drama/4/darkness/2002",
            rules,
            costs,
        );
    }
}
