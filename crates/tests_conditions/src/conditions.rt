ghost use Rattle.std.specs.Prelude.{◌≡◌, ◌<◌, ◌≤◌, ◌*◌, true, length};
ghost use Rattle.search_base.specs.Graphs.{IsGraph, IsPlaced};
ghost use Rattle.condition_graph.specs.Promise.{has_graph};

use crate::checks::{add, check, check_text, word};
use condition_graph::*;
use search_base::{Block, Graph, Kind, LevelGraph, PlacedBlock, Rule, Term, Word};
use std::alloc::Global;
use std::process::Abort;

// A block of one word, in a level of this many items. At the last item it stands for any word that begins so, save
// where it is read as it was written.
fn block(
    rt: &impl Abort,
    alloc: Global,
    items: u8,
    from: u8,
    to: u8,
    text: &str,
    kind: Kind,
) -> PlacedBlock
    requires forward { from < to }
    requires within { to ≤ items }
    ensures { IsPlaced items result }
{
    let prefix = to == items && !matches!(kind, Kind::Plain);
    let words = Vec::from_array(alloc, [word(rt, alloc, text)]).expect(rt, "memory");
    let term = Term { words, prefix };
    let span = to - from;
    let block = Block { span, term, kind };
    PlacedBlock { from, to, block }
}

// The query `dark ness`, whose last word may be only the beginning of one.
fn dark_ness(rt: &impl Abort, alloc: Global) -> Graph
    ensures graph { IsGraph result }
    ensures level { length result.levels ≡ 1 }
{
    let words = [word(rt, alloc, "dark"), word(rt, alloc, "ness")];
    let blocks = [
        block(rt, alloc, 2, 1, 2, "ness", Kind::Prefix),
        block(rt, alloc, 2, 0, 2, "darkness", Kind::Joined),
        block(rt, alloc, 2, 0, 1, "dark", Kind::Plain),
    ];
    let blocks = Vec::from_array(alloc, blocks).expect(rt, "memory");
    let level = LevelGraph { items: 2, blocks };
    Graph {
        levels: Vec::from_array(alloc, [level]).expect(rt, "memory"),
        whole: Vec::from_array(alloc, words).expect(rt, "memory"),
    }
}

// A query of one item, which is these words in a row.
pub(crate) fn one_item(rt: &impl Abort, alloc: Global, words: Vec<Word>, kind: Kind) -> Graph
    requires { 0 < length words.items }
    ensures graph { IsGraph result }
    ensures level { length result.levels ≡ 1 }
{
    let whole = words.clone().expect(rt, "memory");
    let prefix = false;
    let block = Block {
        span: 1,
        term: Term { words, prefix },
        kind,
    };
    let placed = PlacedBlock {
        from: 0,
        to: 1,
        block,
    };
    let blocks = Vec::from_array(alloc, [placed]).expect(rt, "memory");
    let level = LevelGraph { items: 1, blocks };
    let levels = Vec::from_array(alloc, [level]).expect(rt, "memory");
    Graph { levels, whole }
}

// The rule itself, if it has a graph.
fn with_graph(rule: Rule) -> Rule
    ensures { has_graph result ≡ true }
{
    match rule {
        Rule::Proximity => Rule::Proximity,
        Rule::Field => Rule::Field,
        Rule::Position => Rule::Position,
        Rule::Inexact => Rule::Inexact,
        _ => Rule::Words,
    }
}

// The edges under a rule, with their conditions in short.
fn shown(rt: &impl Abort, alloc: Global, graph: &Graph, rule: Rule, ranks: u16) -> String
    requires graph { IsGraph graph.now }
    requires level { length graph.now.levels ≡ 1 }
{
    let made = conditions(alloc, graph, with_graph(rule), 0, ranks).expect(rt, "memory");
    let mut text = String::new(alloc);
    write!(text, "{}:", made.nodes).expect(rt, "memory");
    for edge in &made.edges {
        write!(text, " {}-{} ", edge.from, edge.to).expect(rt, "memory");
        show_condition(rt, &edge.condition, &mut text);
        write!(text, " {};", edge.cost).expect(rt, "memory");
    }
    text
}

fn show_condition(rt: &impl Abort, condition: &Condition, text: &mut String) {
    match condition {
        Condition::Free => add(rt, text, "free"),
        Condition::Occurs(term) => show_term(rt, term, text),
        Condition::Pair {
            left,
            right,
            right_prefix,
            cost,
        } => {
            let more = if *right_prefix { "*" } else { "" };
            let (left, right) = (left.as_str(), right.as_str());
            write!(text, "{left}~{right}{more}@{cost}").expect(rt, "memory");
        }
        Condition::AtRank { term, rank } => {
            show_term(rt, term, text);
            write!(text, "#{rank}").expect(rt, "memory");
        }
        Condition::AtBucket { term, bucket } => {
            show_term(rt, term, text);
            write!(text, "%{bucket}").expect(rt, "memory");
        }
    }
}

fn show_term(rt: &impl Abort, term: &Term, text: &mut String) {
    for word in &term.words {
        add(rt, text, word.as_str());
        add(rt, text, if term.prefix { "*" } else { "." });
    }
}

// The number of nodes and the edges of `dark ness`. A star stands for words that begin so, a dot for the word alone,
// and two words have a pair cost.
const DARK_NESS: [(Rule, &str); 4] = [
    (
        Rule::Proximity,
        "8: 0-1 free 0; 1-2 darkness* 1; 2-7 free 0; 0-3 free 0; 3-4 dark. 0; \
         4-5 dark~ness*@0 0; 4-5 dark~ness*@1 1; 4-5 dark~ness*@2 2; 4-5 dark~ness*@3 3; \
         4-5 dark~ness*@4 4; 4-5 dark~ness*@5 5; 4-5 dark~ness*@6 6; 4-5 free 7; 5-6 ness* 0; \
         6-7 free 0;",
    ),
    (
        Rule::Field,
        "3: 1-2 ness*#0 0; 1-2 ness*#1 1; 0-2 darkness*#0 0; 0-2 darkness*#1 2; 0-1 dark.#0 0; \
         0-1 dark.#1 1;",
    ),
    (Rule::Words, "3: 1-2 ness* 0; 0-2 darkness* 0; 0-1 dark. 0;"),
    (
        Rule::Inexact,
        "3: 1-2 ness* 1; 0-2 darkness* 2; 0-1 dark. 0;",
    ),
];

#[test]
fn dark_ness_by_each_rule(rt: HostRuntime) {
    let graph = dark_ness(&rt, rt.alloc());
    for (rule, edges) in &DARK_NESS {
        let text = shown(&rt, rt.alloc(), &graph, *rule, 2);
        check_text(&rt, &text, edges, "dark ness");
    }
}

#[test]
fn a_phrase_in_a_rank_and_in_each_bucket(rt: HostRuntime) {
    let words = [
        word(&rt, rt.alloc(), "dark"),
        word(&rt, rt.alloc(), "knight"),
    ];
    let phrase = Vec::from_array(rt.alloc(), words).expect(&rt, "memory");
    let graph = one_item(&rt, rt.alloc(), phrase, Kind::Phrase);
    let field = shown(&rt, rt.alloc(), &graph, Rule::Field, 1);
    check_text(&rt, &field, "2: 0-1 dark.knight.#0 0;", "rank");
    let position = shown(&rt, rt.alloc(), &graph, Rule::Position, 0);
    let first = "2: 0-1 dark.knight.%0 0; 0-1 dark.knight.%1 1;";
    check(&rt, position.starts_with(first), first);
    let last = " 0-1 dark.knight.%19 19; 0-1 dark.knight.%20 20;";
    check(&rt, position.ends_with(last), last);
}
