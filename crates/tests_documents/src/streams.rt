use crate::checks::{add, check, check_text};
use document_stream::{BodyFault, BodyRefusal, read_documents};
use search_base::Fault;
use std::alloc::Global;
use std::process::Abort;

fn tell_fault(rt: &impl Abort, fault: &BodyFault, text: &mut String) {
    match fault {
        Fault::Refused(BodyRefusal::NotJson) => add(rt, text, "no JSON"),
        Fault::Refused(BodyRefusal::NotList) => add(rt, text, "no list"),
        Fault::Refused(BodyRefusal::NotObject { document }) => {
            write!(text, "no object at {document}").expect(rt, "memory");
        }
        Fault::Refused(BodyRefusal::NumberNotWhole { document, path }) => {
            write!(text, "not whole at {document} [{}]", path.as_str()).expect(rt, "memory");
        }
        Fault::NoMemory => add(rt, text, "no memory"),
    }
}

// The documents' texts with a blank behind each, or the fault.
fn shown_body(rt: &impl Abort, alloc: Global, body: &[u8]) -> String {
    let mut text = String::new(alloc);
    match &read_documents(alloc, body, None) {
        Ok(documents) => {
            for document in documents.texts() {
                add(rt, &mut text, document.text());
                add(rt, &mut text, " ");
            }
        }
        Err(fault) => tell_fault(rt, fault, &mut text),
    }
    text
}

fn check_body(rt: &impl Abort, alloc: Global, body: &[u8], wanted: &str, row: &str) {
    let found = shown_body(rt, alloc, body);
    check_text(rt, &found, wanted, row);
}

const BODIES: [(&str, &str); 33] = [
    ("{}", "{} "),
    (" { \"b\" : 1 , \"a\" : [ ] }\n", "{\"a\":[],\"b\":1} "),
    ("[]", ""),
    (" \t[\r\n] ", ""),
    (
        "[ { } , {\"id\":2,\"a\":null}\n]\n",
        "{} {\"a\":null,\"id\":2} ",
    ),
    ("[{\"a\":1,\"a\":2,\"A\":3}]", "{\"A\":3,\"a\":2} "),
    (
        "[{\"a\":{\"b\":[[{}],\"\\u00e9\"]}}]",
        "{\"a\":{\"b\":[[{}],\"é\"]}} ",
    ),
    (
        "[{\"a\":-9223372036854775808,\"b\":18446744073709551615}]",
        "{\"a\":-9223372036854775808,\"b\":18446744073709551615} ",
    ),
    (
        "[{\"a\":0,\"b\":-1,\"c\":true,\"d\":false}]",
        "{\"a\":0,\"b\":-1,\"c\":true,\"d\":false} ",
    ),
    ("[{},{\"a\":[1.5]},{}]", "not whole at 2 [a]"),
    ("[{},{\"a\":[1.5]},{}", "no JSON"),
    ("[{},{\"a\":[1.5]},{}]]", "no JSON"),
    ("[{},{\"a\":[1.5]},{\"b\":01}]", "no JSON"),
    ("[{},{\"a\":[1.5]},1e400]", "no JSON"),
    ("[{},7,{\"a\":-0}]", "no object at 2"),
    ("[{},7,{\"a\":-0},]", "no JSON"),
    ("[{\"a\":18446744073709551616},7]", "not whole at 1 [a]"),
    ("[1.5]", "no object at 1"),
    ("[[{}]]", "no object at 1"),
    ("{\"a\":{\"b\":1e3}}", "not whole at 1 [a.b]"),
    ("{\"a\":1}{", "no JSON"),
    ("{\"a\":1},{\"a\":1}", "no JSON"),
    ("{\"a\" 1}", "no JSON"),
    ("{1:1}", "no JSON"),
    ("7", "no list"),
    ("null", "no list"),
    ("true", "no list"),
    ("\"[]\"", "no list"),
    ("", "no JSON"),
    ("[", "no JSON"),
    ("]", "no JSON"),
    ("[{}}", "no JSON"),
    ("[\"a\":{}]", "no JSON"),
];

#[test]
fn documents_of_bodies(rt: HostRuntime) {
    for (body, wanted) in &BODIES {
        check_body(&rt, rt.alloc(), body.as_bytes(), wanted, body);
    }
    check_body(&rt, rt.alloc(), b"[{\"\xff\":1}]", "no JSON", "no text");
}

// `levels` lists, each in the one before, with `first` before them and `last` behind.
fn nested(rt: &impl Abort, alloc: Global, first: &str, levels: usize, last: &str) -> String {
    let mut text = String::new(alloc);
    add(rt, &mut text, first);
    for _ in 0..levels {
        add(rt, &mut text, "[");
    }
    for _ in 0..levels {
        add(rt, &mut text, "]");
    }
    add(rt, &mut text, last);
    text
}

// How many documents a body has, or none where it is not JSON.
fn count(alloc: Global, body: &str) -> Option<usize> {
    match &read_documents(alloc, body.as_bytes(), None) {
        Ok(documents) => Some(documents.texts().len()),
        Err(Fault::Refused(BodyRefusal::NotJson)) => None,
        Err(_) => Some(99),
    }
}

// What stands before lists and behind them, how many lists there are, and how many documents.
const DEPTHS: [(&str, usize, &str, Option<usize>); 4] = [
    ("[{\"a\":", 125, "}]", Some(1)),
    ("[{\"a\":", 126, "}]", None),
    ("{\"a\":", 126, "}", Some(1)),
    ("{\"a\":", 127, "}", None),
];

fn check_depth(
    rt: &impl Abort,
    alloc: Global,
    first: &str,
    levels: usize,
    last: &str,
    wanted: Option<usize>,
) {
    let body = nested(rt, alloc, first, levels, last);
    check(rt, count(alloc, &body) == wanted, &body);
}

#[test]
fn depth_of_127_in_all(rt: HostRuntime) {
    for (first, levels, last, wanted) in &DEPTHS {
        check_depth(&rt, rt.alloc(), first, *levels, last, *wanted);
    }
}
