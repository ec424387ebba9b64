use crate::checks::{add, check, check_text, document_of, word};
use doc_rows::{PathUse, rows};
use search_base::{DocRows, FacetValue, Leaf, Place, Word};
use std::alloc::Global;
use std::process::Abort;

// A document, the registry with the rank of each path and `f` where it is faceted, and the rows: words as
// `path rank position word`, leaves as `path=number` or `path~normal form` and the spelling, marks as `path kind`.
const DOCUMENTS: &str = r#"{"a":[{"b":"x y"},{"b":"z"}]}|a:0 a.b:1|1 1 0 x;1 1 1 y;1 1 9 z;
{"a":[["x"],[["y"],"z"]]}|a:0|0 0 0 x;0 0 8 y;0 0 16 z;
{"a.b":"x","a":{"b":"y"}}|a:0 a.b:1|1 1 0 y;1 1 8 x;
{"n":[12,-3,true,false]}|n:0|0 0 0 12;0 0 8 3;0 0 16 true;0 0 24 false;
{"t":["?","a. b","?!","c"]}|t:0|0 0 0 a;0 0 8 b;0 0 16 c;
{"a":"x","b":"y","c":"z"}|a:7 b:- c:7|0 7 0 x;2 7 0 z;
{"a":"x x","b":"x"}|a:65535 b:0|0 65535 0 x;0 65535 1 x;1 0 0 x;
{"a":"É","b":[3,true,"3",[-7]]}|a:-:f b:-:f|0~e É;1=3 3;1~true true;1~3 3;1=-7 -7;0 Exists;1 Exists;
{"a":"X","b":"Y"}|a:0:f b:1|0 0 0 x;1 1 0 y;0~x X;0 Exists;
{"a":[{"b":null},{"b":""},{"b":null}]}|a:0:f a.b:1:f|1~ ;0 Exists;1 Exists;1 Null;1 Empty;
{"c":{},"d":[null]}|c:2:f d:-:f|0 Exists;0 Empty;1 Exists;"#;

// The paths of a registry.
fn paths(rt: &impl Abort, alloc: Global, registry: &str) -> Vec<Word> {
    let mut paths = Vec::new(alloc);
    for entry in registry.split(' ') {
        let (path, _) = entry.split_once(':').unwrap_or((entry, ""));
        paths.push(word(rt, alloc, path)).expect(rt, "memory");
    }
    paths
}

// The rank of each path of a registry, and whether it is faceted.
fn uses(rt: &impl Abort, alloc: Global, registry: &str) -> Vec<PathUse> {
    let mut uses = Vec::new(alloc);
    for entry in registry.split(' ') {
        let mut parts = entry.split(':').skip(1);
        let rank = parts.next().unwrap_or("").parse::<u16>().ok();
        let faceted = parts.next() == Some("f");
        uses.push(PathUse { rank, faceted }).expect(rt, "memory");
    }
    uses
}

fn found(rt: &impl Abort, alloc: Global, document: &str, registry: &str) -> DocRows {
    let document = document_of(rt, alloc, document);
    let paths = paths(rt, alloc, registry);
    let uses = uses(rt, alloc, registry);
    let (paths, uses) = (paths.as_slice(), uses.as_slice());
    assert!(rt; paths.len() <= 1000 && uses.len() == paths.len());
    rows(alloc, &document, paths, uses).expect(rt, "memory")
}

fn tell_place(rt: &impl Abort, place: &Place, text: &mut String) {
    let (path, rank, position) = (place.path.0, place.rank, place.position);
    let word = place.word.as_str();
    write!(text, "{path} {rank} {position} {word};").expect(rt, "memory");
}

fn tell_leaf(rt: &impl Abort, leaf: &Leaf, text: &mut String) {
    let (path, shown) = (leaf.path.0, leaf.shown.as_str());
    match &leaf.value {
        FacetValue::Number(number) => {
            write!(text, "{path}={number} {shown};").expect(rt, "memory");
        }
        FacetValue::Text(form) => {
            write!(text, "{path}~{} {shown};", form.as_str()).expect(rt, "memory");
        }
    }
}

fn told(rt: &impl Abort, alloc: Global, rows: &DocRows) -> String {
    let mut text = String::new(alloc);
    for place in &rows.places {
        tell_place(rt, place, &mut text);
    }
    for leaf in &rows.leaves {
        tell_leaf(rt, leaf, &mut text);
    }
    for mark in &rows.marks {
        write!(text, "{} {:?};", mark.path.0, mark.kind).expect(rt, "memory");
    }
    text
}

fn check_row(rt: &impl Abort, alloc: Global, row: &str) {
    let mut parts = row.split('|');
    let document = parts.next().unwrap_or("");
    let registry = parts.next().unwrap_or("");
    let rows = found(rt, alloc, document, registry);
    let text = told(rt, alloc, &rows);
    check_text(rt, &text, parts.next().unwrap_or(""), document);
}

fn check_table(rt: &impl Abort, alloc: Global, table: &str) {
    for row in table.lines() {
        check_row(rt, alloc, row);
    }
}

#[test]
fn documents_have_these_rows(rt: HostRuntime) {
    check_table(&rt, rt.alloc(), DOCUMENTS);
}

// A text of one word at steps of eight, the last of these at 65,520, and then nine from 65,528 to 65,536.
fn long_text(rt: &impl Abort, alloc: Global) -> String {
    let mut text = String::new(alloc);
    add(rt, &mut text, "{\"t\":[\"");
    for _ in 0..8191 {
        add(rt, &mut text, "a. ");
    }
    add(rt, &mut text, "b c d e f g h i j\",\"z\"]}");
    text
}

#[test]
fn words_behind_the_last_position_are_left_out(rt: HostRuntime) {
    let text = long_text(&rt, rt.alloc());
    let rows = found(&rt, rt.alloc(), &text, "t:0");
    check(&rt, rows.places.len() == 8199, "8199 words");
    let last = rows.places.last().expect(&rt, "a word");
    check(&rt, last.position == 65535, "the last position");
    check_text(&rt, last.word.as_str(), "i", "the last word");
}
