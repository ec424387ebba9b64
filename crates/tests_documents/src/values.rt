use crate::checks::{add, check, check_text, document_of};
use doc_values::{
    BodyFault, BodyRefusal, Document, DocumentRefusal, DocumentText, Flat, IdRefusal, KeyRefusal,
    documents_of, external_id, id_of, infer_key, merged, paths, values_by_path,
};
use search_base::{Fault, MarkKind};
use serde_json::Value;
use std::alloc::Global;
use std::process::Abort;

// A value, and the path in brackets at which an object has its first number that is not whole, or the fault.
const WHOLE: [(&str, &str); 7] = [
    ("[]", "no object"),
    ("{\"a\":{\"b\":[1,2.5]}}", "[a.b]"),
    ("{\"a\":[{\"b\":1.5},2.5]}", "[a]"),
    ("{\"a\":[{\"b\":1.5},2],\"Z\":1e3}", "[Z]"),
    ("{\"\":{\"\":-0}}", "[.]"),
    (
        "{\"a.b\":[[[1],[{\"c\":18446744073709551616}]]]}",
        "[a.b.c]",
    ),
    (
        "{\"a\":-9223372036854775808,\"b\":18446744073709551615}",
        "whole",
    ),
];

fn fault_of(rt: &impl Abort, alloc: Global, text: &str) -> String {
    let value = Value::from_str(alloc, text).expect(rt, "JSON");
    let shown = match &Document::from_json(alloc, value) {
        Ok(_) => format!(in alloc; "whole"),
        Err(Fault::Refused(DocumentRefusal::NotObject)) => format!(in alloc; "no object"),
        Err(Fault::Refused(DocumentRefusal::NumberNotWhole { path })) => {
            format!(in alloc; "[{}]", path.as_str())
        }
        Err(Fault::NoMemory) => format!(in alloc; "no memory"),
    };
    shown.expect(rt, "memory")
}

#[test]
fn first_number_that_is_not_whole(rt: HostRuntime) {
    for (text, wanted) in &WHOLE {
        let found = fault_of(&rt, rt.alloc(), text);
        check_text(&rt, &found, wanted, text);
    }
}

fn tell_value(rt: &impl Abort, value: &Flat, text: &mut String) {
    match value {
        Flat::Text(leaf) => write!(text, "`{}`", leaf.as_str()).expect(rt, "memory"),
        Flat::Number(leaf) => write!(text, "{leaf}").expect(rt, "memory"),
        Flat::Bool(leaf) => write!(text, "{leaf}").expect(rt, "memory"),
        Flat::Mark(MarkKind::Exists) => add(rt, text, "Exists"),
        Flat::Mark(MarkKind::Null) => add(rt, text, "Null"),
        Flat::Mark(MarkKind::Empty) => add(rt, text, "Empty"),
    }
}

fn values_text(rt: &impl Abort, alloc: Global, document: &Document) -> String {
    let mut text = String::new(alloc);
    for (path, values) in &values_by_path(alloc, document).expect(rt, "memory") {
        add(rt, &mut text, path.as_str());
        for value in values {
            add(rt, &mut text, " ");
            tell_value(rt, value, &mut text);
        }
        add(rt, &mut text, "; ");
    }
    text
}

fn paths_text(rt: &impl Abort, alloc: Global, document: &Document) -> String {
    let mut text = String::new(alloc);
    for path in paths(alloc, document).expect(rt, "memory") {
        add(rt, &mut text, path.as_str());
        add(rt, &mut text, " ");
    }
    text
}

// A document, the paths of its walk, and what each path holds.
const WALKS: [(&str, &str, &str); 3] = [
    ("{}", "", ""),
    (
        "{\"a\":{\"b\":[true,null]},\"c\":\"\"}",
        "a a.b c ",
        "a Exists; a.b Exists true; c Exists Empty ``; ",
    ),
    (
        "{\"b\":[1,{\"\":null},[[-2]],{\"\":3}],\"a\":{}}",
        "a b b. b. ",
        "a Exists Empty; b Exists 1 -2; b. Exists Null Exists 3; ",
    ),
];

#[test]
fn values_and_paths_of_the_walk(rt: HostRuntime) {
    let alloc = rt.alloc();
    for (text, visited, values) in &WALKS {
        let document = document_of(&rt, alloc, text);
        check_text(&rt, &values_text(&rt, alloc, &document), values, text);
        check_text(&rt, &paths_text(&rt, alloc, &document), visited, text);
    }
}

// A document, and its id or what is wrong with it.
const IDS: [(&str, &str); 3] = [
    ("{\"id\":7}", "7"),
    ("{\"id\":\"a b\"}", "bad id"),
    ("{}", "missing id"),
];

fn id_text(rt: &impl Abort, alloc: Global, text: &str) -> String {
    let document = document_of(rt, alloc, text);
    let mut found = String::new(alloc);
    match &external_id(alloc, &document, "id") {
        Ok(id) => add(rt, &mut found, id.as_str()),
        Err(Fault::Refused(IdRefusal::BadId)) => add(rt, &mut found, "bad id"),
        Err(Fault::Refused(IdRefusal::MissingId)) => add(rt, &mut found, "missing id"),
        Err(Fault::NoMemory) => add(rt, &mut found, "no memory"),
    }
    found
}

// So many letters, and whether they are an id.
const LENGTHS: [(usize, bool); 3] = [(0, false), (511, true), (512, false)];

fn check_length(rt: &impl Abort, alloc: Global, length: usize, wanted: bool) {
    let text = "x".repeat(alloc, length).expect(rt, "memory");
    let id = id_of(alloc, &Value::String(text)).expect(rt, "memory");
    check(rt, id.is_some() == wanted, "length");
}

#[test]
fn ids_of_documents(rt: HostRuntime) {
    for (text, wanted) in &IDS {
        check_text(&rt, &id_text(&rt, rt.alloc(), text), wanted, text);
    }
    for (length, wanted) in &LENGTHS {
        check_length(&rt, rt.alloc(), *length, *wanted);
    }
}

// A document, and the key that it gives or the number of candidates in brackets.
const KEYS: [(&str, &str); 4] = [
    ("{\"movieId\":1}", "movieId"),
    ("{\"t\":1}", "[0]"),
    ("{\"ID\":1,\"pid\":2}", "[2]"),
    ("{\"i\":{\"id\":1},\"id \":2,\"iD\":3}", "iD"),
];

fn shown_key(rt: &impl Abort, alloc: Global, text: &str) -> String {
    let shown = match &infer_key(alloc, &document_of(rt, alloc, text)) {
        Ok(key) => format!(in alloc; "{}", key.as_str()),
        Err(Fault::Refused(KeyRefusal::NoCandidate)) => format!(in alloc; "[0]"),
        Err(Fault::Refused(KeyRefusal::SeveralCandidates { count })) => {
            format!(in alloc; "[{count}]")
        }
        Err(Fault::NoMemory) => format!(in alloc; "no memory"),
    };
    shown.expect(rt, "memory")
}

#[test]
fn keys_of_documents(rt: HostRuntime) {
    for (text, wanted) in &KEYS {
        check_text(&rt, &shown_key(&rt, rt.alloc(), text), wanted, text);
    }
}

// A body, and how many documents it has or why it has none.
const BODIES: [(&str, &str); 5] = [
    ("[{},{\"a\":1}]", "2"),
    ("{\"a\":[1]}", "1"),
    ("[{},{\"a\":[1.0]},7]", "not whole at 2 [a]"),
    ("[1.5]", "no object at 1"),
    ("\"\"", "no list"),
];

fn fault_text(rt: &impl Abort, alloc: Global, fault: &BodyFault) -> String {
    let shown = match fault {
        Fault::Refused(BodyRefusal::NotList) => format!(in alloc; "no list"),
        Fault::Refused(BodyRefusal::NotObject { document }) => {
            format!(in alloc; "no object at {document}")
        }
        Fault::Refused(BodyRefusal::NumberNotWhole { document, path }) => {
            format!(in alloc; "not whole at {document} [{}]", path.as_str())
        }
        Fault::NoMemory => format!(in alloc; "no memory"),
    };
    shown.expect(rt, "memory")
}

fn body_text(rt: &impl Abort, alloc: Global, body: &str) -> String {
    let value = Value::from_str(alloc, body).expect(rt, "JSON");
    match &documents_of(alloc, value) {
        Ok(documents) => documents.len().to_string(alloc).expect(rt, "memory"),
        Err(fault) => fault_text(rt, alloc, fault),
    }
}

#[test]
fn documents_of_bodies(rt: HostRuntime) {
    for (body, wanted) in &BODIES {
        check_text(&rt, &body_text(&rt, rt.alloc(), body), wanted, body);
    }
}

fn text_of(rt: &impl Abort, alloc: Global, document: &Document) -> DocumentText {
    DocumentText::of(alloc, document).expect(rt, "memory")
}

fn check_kept(rt: &impl Abort, alloc: Global, text: &str, wanted: bool) {
    let kept = DocumentText::at(alloc, text.as_bytes()).expect(rt, "memory");
    check(rt, kept.is_some() == wanted, text);
}

const MERGED: &str = "{\"a\":{\"y\":null},\"b\":2,\"c\":3,\"id\":1}";

// Texts that are not those of a document, as it is kept.
const NOT_KEPT: [&str; 5] = ["{\"b\":1,\"a\":2}", "{ }", "[]", "{\"a\":1.5}", "{"];

#[test]
fn update_and_kept_text(rt: HostRuntime) {
    let alloc = rt.alloc();
    let old = document_of(&rt, alloc, "{ \"id\": 1, \"a\": {\"x\": 1}, \"b\": 2 }");
    let new = document_of(&rt, alloc, "{\"c\":3,\"a\":{\"y\":null}}");
    let both = merged(alloc, &old, &new).expect(&rt, "memory");
    let kept = text_of(&rt, alloc, &both);
    check_text(&rt, kept.text(), MERGED, "kept");
    let back = kept.document(alloc).expect(&rt, "memory");
    check_text(&rt, text_of(&rt, alloc, &back).text(), MERGED, "back");
    check_kept(&rt, alloc, MERGED, true);
    for text in &NOT_KEPT {
        check_kept(&rt, alloc, text, false);
    }
}
