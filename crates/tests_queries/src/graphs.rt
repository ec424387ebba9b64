ghost use Rattle.query_graph.specs.Items.{AreItems};

use crate::checks::{add, add_words, check_text, words};
use crate::synonyms::row;
use query_graph::*;
use search_base::{Kind, LevelGraph, PlacedBlock, Strategy};
use std::alloc::Global;
use std::process::Abort;
use synonym_terms::SynonymTable;

// What a query shows, the query, the stop words, and its items: a phrase in quotes, and a star
// behind the prefix word.
const QUERIES: [(&str, &str, &str, &str); 23] = [
    ("two words", "dark knight", "", "dark knight*"),
    ("a blank at the end", "Knight rises ", "", "knight rises"),
    ("empty text", "", "", ""),
    ("blank text", " \t", "", ""),
    (
        "a hard separator between",
        "Dark. Knight!",
        "",
        "dark knight",
    ),
    (
        "a phrase and the prefix word",
        "the \"dark knight\" ri",
        "the",
        "\"dark knight\" ri*",
    ),
    (
        "a phrase closed at the end",
        "ri \"dark knight\"",
        "",
        "ri \"dark knight\"",
    ),
    (
        "an unclosed quote",
        "ri \"dark knight",
        "",
        "ri \"dark knight\"",
    ),
    ("empty and blank quotes", "\"\" a \" . \" b", "", "a b*"),
    (
        "a quote inside a word",
        "da\"rk\" kni\"ght",
        "",
        "da \"rk\" kni \"ght\"",
    ),
    ("a word ends at a quote", "dark\"", "", "dark"),
    ("a phrase of one word", "\"Dark\" x", "", "\"dark\" x*"),
    ("two phrases", "\"a b\"\"c d\"", "", "\"a b\" \"c d\""),
    (
        "eleven items",
        "a b c d e f g h i j k",
        "",
        "a b c d e f g h i j",
    ),
    (
        "the tenth item is the last",
        "a b c d e f g h i j",
        "",
        "a b c d e f g h i j*",
    ),
    (
        "a phrase is one item of ten",
        "\"a b c\" d e f g h i j k l m",
        "",
        "\"a b c\" d e f g h i j k l",
    ),
    (
        "a stop word inside a phrase",
        "\"the dark\" the knight",
        "the",
        "\"the dark\" knight*",
    ),
    (
        "a phrase of a stop word alone",
        "\"the\" x",
        "the x",
        "\"the\" x*",
    ),
    (
        "stop words at the start and the end",
        "the dark of the ",
        "the of",
        "dark",
    ),
    (
        "stop words are left out of the first ten",
        "the b c d e f g h i j k",
        "the",
        "b c d e f g h i j",
    ),
    ("all are stop words", "The of ", "the of", "the of"),
    ("the prefix word stays", "dark the", "the", "dark the*"),
    ("only the prefix word stays", "the of", "the of", "of*"),
];

// What a query shows, the query, the stop words, the strategy, and its graph: for each level the
// number of its items and its blocks, and then the words of all items. Between the places of a block
// and its words stands a dot where it is plain, ~ for a prefix, ' for a phrase, + where words are
// joined and = for a synonym. A star behind the words says that longer ones are meant too.
const GRAPHS: [(&str, &str, &str, Strategy, &str); 13] = [
    (
        "a phrase and a prefix word",
        "the \"dark knight\" ri",
        "the",
        Strategy::Last,
        "2: 0-1'dark_knight 1-2.ri 1-2~ri*; 1: 0-1'dark_knight; dark knight ri",
    ),
    (
        "a phrase stays when words are dropped",
        "\"a b\" c d ",
        "",
        Strategy::Last,
        "3: 0-1'a_b 1-2.c 1-3+cd 2-3.d; 2: 0-1'a_b 1-2.c; 1: 0-1'a_b; a b c d",
    ),
    (
        "every word is asked for",
        "dark knight",
        "",
        Strategy::All,
        "2: 0-1.dark 0-2+darkknight* 0-2=the_batman 1-2.knight 1-2~knight*; dark knight",
    ),
    (
        "words written together",
        "a b c d",
        "",
        Strategy::All,
        "4: 0-1.a 0-2+ab 0-3+abc 1-2.b 1-3+bc 1-4+bcd* 2-3.c 2-4+cd* 3-4.d 3-4~d*; a b c d",
    ),
    (
        "no word is joined across a phrase",
        "a \"b\" c d ",
        "",
        Strategy::All,
        "4: 0-1.a 1-2'b 2-3.c 2-4+cd 3-4.d; a b c d",
    ),
    (
        "two rows of one key",
        "batman ",
        "",
        Strategy::All,
        "1: 0-1.batman 0-1=dark_knight 0-1=bruce_wayne; batman",
    ),
    (
        "a key of two words across separators",
        "Dark, knight! ",
        "",
        Strategy::All,
        "2: 0-1.dark 0-2+darkknight 0-2=the_batman 1-2.knight; dark knight",
    ),
    (
        "a key that spans a stop word",
        "dark the knight ",
        "the",
        Strategy::All,
        "2: 0-1.dark 0-2+darkknight 0-2=the_batman 1-2.knight; dark knight",
    ),
    (
        "a key of three words",
        "big red apple ",
        "",
        Strategy::All,
        "3: 0-1.big 0-2+bigred 0-3+bigredapple 0-3=an_x 1-2.red 1-3+redapple 2-3.apple; big red apple",
    ),
    (
        "a key of four words never matches",
        "a b c d ",
        "",
        Strategy::All,
        "4: 0-1.a 0-2+ab 0-3+abc 1-2.b 1-3+bc 1-4+bcd 2-3.c 2-4+cd 3-4.d; a b c d",
    ),
    (
        "a phrase is no key",
        "\"dark knight\" batman",
        "",
        Strategy::All,
        "2: 0-1'dark_knight 1-2.batman 1-2~batman* 1-2=dark_knight 1-2=bruce_wayne; dark knight batman",
    ),
    (
        "words stand for themselves",
        "new york ",
        "",
        Strategy::All,
        "2: 0-1.new 0-2+newyork 0-2=new_york 1-2.york; new york",
    ),
    ("no items", " ", "", Strategy::Last, ""),
];

fn query(rt: &impl Abort, alloc: Global, q: &str, stop_words: &str) -> Items
    ensures { AreItems result }
{
    let stop_words = words(rt, alloc, stop_words);
    items(alloc, q, &stop_words).expect(rt, "memory")
}

fn tell_item(rt: &impl Abort, item: &Item, text: &mut String) {
    let quote = if item.phrase { "\"" } else { "" };
    add(rt, text, quote);
    add_words(rt, text, &item.words, " ");
    add(rt, text, quote);
    add(rt, text, if item.prefix { "*" } else { "" });
}

fn items_told(rt: &impl Abort, alloc: Global, items: &Items) -> String {
    let mut text = String::new(alloc);
    let mut blank = "";
    for item in &items.list {
        add(rt, &mut text, blank);
        tell_item(rt, item, &mut text);
        blank = " ";
    }
    text
}

fn check_items(
    rt: &impl Abort,
    alloc: Global,
    q: &str,
    stop_words: &str,
    wanted: &str,
    shows: &str,
) {
    let items = query(rt, alloc, q, stop_words);
    check_text(rt, &items_told(rt, alloc, &items), wanted, shows);
}

#[test]
fn queries_have_these_items(rt: HostRuntime) {
    for (shows, q, stop_words, wanted) in &QUERIES {
        check_items(&rt, rt.alloc(), q, stop_words, wanted, shows);
    }
}

fn synonyms(rt: &impl Abort, alloc: Global) -> SynonymTable {
    let rows = [
        row(rt, alloc, "batman", "dark", "knight"),
        row(rt, alloc, "batman", "bruce", "wayne"),
        row(rt, alloc, "dark knight", "the", "batman"),
        row(rt, alloc, "big red apple", "an", "x"),
        row(rt, alloc, "a b c d", "a", "y"),
        row(rt, alloc, "new york", "new", "york"),
    ];
    let rows = Vec::from_array(alloc, rows).expect(rt, "memory");
    SynonymTable::build(alloc, rows).expect(rt, "memory")
}

fn mark_of(kind: Kind) -> &'static str {
    match kind {
        Kind::Plain => ".",
        Kind::Prefix => "~",
        Kind::Phrase => "'",
        Kind::Joined => "+",
        Kind::Synonym => "=",
    }
}

fn tell_block(rt: &impl Abort, placed: &PlacedBlock, text: &mut String) {
    let mark = mark_of(placed.block.kind);
    write!(text, " {}-{}{mark}", placed.from, placed.to).expect(rt, "memory");
    let term = &placed.block.term;
    add_words(rt, text, &term.words, "_");
    add(rt, text, if term.prefix { "*" } else { "" });
}

fn tell_level(rt: &impl Abort, level: &LevelGraph, text: &mut String) {
    write!(text, "{}:", level.items).expect(rt, "memory");
    for placed in &level.blocks {
        tell_block(rt, placed, text);
    }
    add(rt, text, "; ");
}

fn graph_told(rt: &impl Abort, alloc: Global, items: &Items, strategy: Strategy) -> String
    requires { AreItems items.now }
{
    let synonyms = synonyms(rt, alloc);
    let graph = build_graph(alloc, items, &synonyms, strategy).expect(rt, "memory");
    let mut text = String::new(alloc);
    for level in &graph.levels {
        tell_level(rt, level, &mut text);
    }
    add_words(rt, &mut text, &graph.whole, " ");
    text
}

#[test]
fn queries_have_these_graphs(rt: HostRuntime) {
    let alloc = rt.alloc();
    for (shows, q, stop_words, strategy, wanted) in &GRAPHS {
        let items = query(&rt, alloc, q, stop_words);
        check_text(
            &rt,
            &graph_told(&rt, alloc, &items, *strategy),
            wanted,
            shows,
        );
    }
}
