use crate::checks::{check, set, wide_set, word};
use crate::facets::{DocLeaves, commit, table};
use doc_sets::DocSet;
use facet_index::FacetIndex;
use filter_expr::parse;
use filter_sets::{Facets, select};
use filter_tree::Filter;
use search_base::{DocId, FacetValue, Leaf, Mark, MarkKind, PathId, Word};
use serde_json::Value;
use std::alloc::Global;
use std::process::Abort;

const PATHS: [&str; 3] = ["colour", "size", "on"];

// The number of a document, with its leaves of text as `path=form` and of number as `path#number`, and its marks as
// `path!kind`.
const DOCUMENTS: [(u32, &str); 6] = [
    (0, "0=red;1#7;0!exists;1!exists"),
    (1, "0=strasse;1#-9223372036854775808;0!exists;1!exists"),
    (2, "1#18446744073709551615;1=007;1!exists"),
    (3, "0!exists;0!null"),
    (4, "2=true;0!exists;0!empty;2!exists"),
    (5, ""),
];

// A filter, and the documents that pass it.
const FILTERS: [(&str, &str); 45] = [
    ("", "0 1 2 3 4 5 "),
    ("colour = red", "0 "),
    ("colour = RÉD", "0 "),
    ("colour = Straße", "1 "),
    ("colour = re", ""),
    ("colour != red", "1 2 3 4 5 "),
    ("NOT colour = red", "1 2 3 4 5 "),
    ("NOT colour != red", "0 "),
    ("gone = red", ""),
    ("gone != red", "0 1 2 3 4 5 "),
    ("gone NOT EXISTS", "0 1 2 3 4 5 "),
    ("on = TRUE", "4 "),
    ("on != true", "0 1 2 3 5 "),
    ("size = 7", "0 "),
    ("size = 007", "0 2 "),
    ("size = -9223372036854775808", "1 "),
    ("size = 18446744073709551615", "2 "),
    ("size = 18446744073709551616", ""),
    ("size > 7", "2 "),
    ("size >= 7", "0 2 "),
    ("size < 7", "1 "),
    ("size <= 7", "0 1 "),
    ("size >= -9223372036854775808", "0 1 2 "),
    ("colour > 0", ""),
    ("size 7 TO 18446744073709551615", "0 2 "),
    ("size -9223372036854775808 TO 7", "0 1 "),
    ("size 8 TO 9", ""),
    ("colour IN [RED, strasse]", "0 1 "),
    ("colour NOT IN [red, strasse]", "2 3 4 5 "),
    ("colour IN []", ""),
    ("colour EXISTS", "0 1 3 4 "),
    ("colour NOT EXISTS", "2 5 "),
    ("colour IS NULL", "3 "),
    ("colour IS NOT NULL", "0 1 2 4 5 "),
    ("colour IS EMPTY", "4 "),
    ("colour IS NOT EMPTY", "0 1 2 3 5 "),
    ("colour = red AND size = 7 AND on NOT EXISTS", "0 "),
    ("colour = red OR on = true", "0 4 "),
    ("size > 7 OR size >= 7 OR size > 0", "0 2 "),
    ("size 0 TO 8 OR size 5 TO 100 OR size = 7", "0 "),
    ("size > 0 AND size > 6 AND size < 100 AND size < 8", "0 "),
    ("size > 0 AND size < 0", ""),
    ("size = 7 AND size = 7", "0 "),
    ("colour IN [red, RED, Red, strasse, red]", "0 1 "),
    ("colour = red AND colour = RED AND NOT colour = red", ""),
];

fn filter_of(rt: &impl Abort, alloc: Global, text: &str) -> Filter {
    let text = String::from_str(alloc, text).expect(rt, "memory");
    parse(alloc, &Value::String(text)).expect(rt, "a filter")
}

fn paths(rt: &impl Abort, alloc: Global) -> Vec<Word> {
    let mut paths = Vec::new(alloc);
    for path in &PATHS {
        paths.push(word(rt, alloc, path)).expect(rt, "memory");
    }
    paths
}

fn add_leaf(
    rt: &impl Abort,
    alloc: Global,
    path: &str,
    value: FacetValue,
    document: &mut DocLeaves,
) {
    let leaf = Leaf {
        path: path_id(path),
        value,
        shown: word(rt, alloc, ""),
    };
    document.leaves.push(leaf).expect(rt, "memory");
}

fn add_part(rt: &impl Abort, alloc: Global, part: &str, document: &mut DocLeaves) {
    if let Some((path, form)) = part.split_once('=') {
        let value = FacetValue::Text(word(rt, alloc, form));
        add_leaf(rt, alloc, path, value, document);
    } else if let Some((path, number)) = part.split_once('#') {
        let value = FacetValue::Number(number.parse::<i128>().unwrap_or(0));
        add_leaf(rt, alloc, path, value, document);
    } else if let Some((path, kind)) = part.split_once('!') {
        let (path, kind) = (path_id(path), kind_of(kind));
        document
            .marks
            .push(Mark { path, kind })
            .expect(rt, "memory");
    }
}

fn document(rt: &impl Abort, alloc: Global, id: u32, text: &str) -> DocLeaves {
    let mut document = DocLeaves {
        id: DocId(id),
        leaves: Vec::new(alloc),
        marks: Vec::new(alloc),
    };
    for part in text.split(';') {
        add_part(rt, alloc, part, &mut document);
    }
    document
}

fn path_id(path: &str) -> PathId {
    PathId(path.parse::<u16>().unwrap_or(0))
}

fn kind_of(kind: &str) -> MarkKind {
    match kind {
        "null" => MarkKind::Null,
        "empty" => MarkKind::Empty,
        _ => MarkKind::Exists,
    }
}

fn documents(rt: &impl Abort, alloc: Global) -> Vec<DocLeaves> {
    let mut documents = Vec::new(alloc);
    for (id, text) in &DOCUMENTS {
        let document = document(rt, alloc, *id, text);
        documents.push(document).expect(rt, "memory");
    }
    documents
}

// The documents of a universe that pass a filter, of those that there are.
fn passing(
    rt: &impl Abort,
    alloc: Global,
    facets: &Facets<'_>,
    filter: &Filter,
    universe: &DocSet,
) -> String {
    let paths = paths(rt, alloc);
    assert!(rt; paths.len() <= 1000);
    let docs = select(alloc, facets, filter, paths.as_slice(), universe).expect(rt, "memory");
    let mut passing = String::new(alloc);
    for id in docs.iter().filter(|id| id.0 < 6) {
        write!(passing, "{} ", id.0).expect(rt, "memory");
    }
    passing
}

// A range is asked of lists in the one universe, and of leaves in the other.
fn check_filter(rt: &impl Abort, alloc: Global, facets: &Facets<'_>, text: &str, wanted: &str) {
    let filter = filter_of(rt, alloc, text);
    let ids = [0, 1, 2, 3, 4, 5];
    for universe in [set(rt, alloc, &ids), wide_set(rt, alloc, &ids)] {
        let found = passing(rt, alloc, facets, &filter, &universe);
        check(rt, found.as_str() == wanted, text);
    }
}

#[test]
fn documents_pass_where_the_filter_holds(rt: HostRuntime) {
    let alloc = rt.alloc();
    let documents = documents(&rt, alloc);
    let mut index = FacetIndex::new(alloc);
    commit(&rt, alloc, &mut index, &[], &documents);
    let facets = Facets {
        index: &index,
        leaves: &table(&rt, alloc, &documents, &documents),
    };
    for (text, wanted) in &FILTERS {
        check_filter(&rt, alloc, &facets, text, wanted);
    }
}
