use crate::checks::{check, check_text, string, word};
use http_wire::{Reply, Wire};
use request_calls::{Call, ReadCall, read_call, refusal_reply};
use request_refusals::Refusal;
use request_routes::RouteTable;
use search_base::Word;
use std::alloc::Global;
use std::process::Abort;
use std::str;

// A refusal that only a machine's state gives, its status, its code and its message.
const BY_STATE: &str = r#"NoIndex~404~index_not_found~No index `m`.
NoTask~404~task_not_found~No task 18446744073709551615.
NoDocument~404~document_not_found~No document `m`.
ChangesSpent~400~changes_spent~No more changes.
NoSortRule~400~invalid_search_sort~The ranking rules have no sort.
NotSortable~400~invalid_search_sort~`m` is not sortable.
NotFilterable~400~invalid_search_filter~`m` is not filterable.
NotFacet~400~invalid_search_facets~`m` is not filterable."#;

fn wire(rt: &impl Abort, alloc: Global, method: &str, target: &str, body: &str) -> Wire {
    Wire {
        method: word(rt, alloc, method),
        target: word(rt, alloc, target),
        body: body.as_bytes().to_vec(alloc).expect(rt, "memory"),
        closes: false,
    }
}

pub(crate) fn call_of(
    rt: &impl Abort,
    alloc: Global,
    method: &str,
    target: &str,
    body: &str,
) -> Call {
    let wire = wire(rt, alloc, method, target, body);
    let table = RouteTable::new(alloc).expect(rt, "memory");
    read_call(alloc, &table, &wire).expect(rt, "memory")
}

pub(crate) fn reply_text(rt: &impl Abort, alloc: Global, reply: &Reply) -> String {
    match reply {
        Reply::Made { status, body, .. } => {
            let text = str::from_utf8(body).unwrap_or("no text");
            format!(in alloc; "{status} {text}").expect(rt, "memory")
        }
        Reply::Memory => string(rt, alloc, "refused"),
    }
}

pub(crate) fn refusal(
    rt: &impl Abort,
    alloc: Global,
    status: &str,
    code: &str,
    message: &str,
) -> String {
    let text = format!(in alloc;
        "{status} {{\"code\":\"{code}\",\"message\":\"{message}\",\"type\":\"invalid_request\"}}"
    );
    text.expect(rt, "memory")
}

// The refusal of this name; its uid, id or attribute is `m`, and its number the greatest.
fn refusal_named(name: &str, m: Word) -> Refusal {
    match name {
        "NoIndex" => Refusal::NoIndex { uid: m },
        "NoTask" => Refusal::NoTask { number: u64::MAX },
        "NoDocument" => Refusal::NoDocument { id: m },
        "ChangesSpent" => Refusal::ChangesSpent,
        "NoSortRule" => Refusal::NoSortRule,
        "NotSortable" => Refusal::NotSortable { attribute: m },
        "NotFilterable" => Refusal::NotFilterable { attribute: m },
        _ => Refusal::NotFacet { attribute: m },
    }
}

fn check_refusal(rt: &impl Abort, alloc: Global, row: &str) {
    let mut parts = row.split('~');
    let name = parts.next().unwrap_or("");
    let refused = refusal_named(name, word(rt, alloc, "m"));
    let reply = refusal_reply(alloc, &refused).expect(rt, "memory");
    let found = reply_text(rt, alloc, &reply);
    let status = parts.next().unwrap_or("");
    let code = parts.next().unwrap_or("");
    let wanted = refusal(rt, alloc, status, code, parts.next().unwrap_or(""));
    check_text(rt, &found, &wanted, name);
}

fn check_refusals(rt: &impl Abort, alloc: Global, table: &str) {
    for row in table.lines() {
        check_refusal(rt, alloc, row);
    }
}

#[test]
fn replies_to_what_the_state_refuses(rt: HostRuntime) {
    check_refusals(&rt, rt.alloc(), BY_STATE);
}

fn check_documents(rt: &impl Abort, call: &Call) {
    match call {
        Call::Read(
            ReadCall::Documents {
                uid,
                offset,
                limit,
                fields,
            },
        ) => {
            check_text(rt, uid.as_str(), "m", "uid");
            check(rt, *offset == 0, "offset");
            check(rt, *limit == 7, "limit");
            check(rt, fields.len() == 3, "fields");
            check(rt, fields.iter().any(|name| name.as_str() == "b"), "b");
        }
        _ => check(rt, false, "documents"),
    }
}

fn check_document(rt: &impl Abort, call: &Call) {
    match call {
        Call::Read(ReadCall::Document { id, fields, .. }) => {
            check_text(rt, id.as_str(), "a%20b", "id");
            check(rt, fields.iter().all(|name| name.as_str() == "*"), "*");
        }
        _ => check(rt, false, "document"),
    }
}

#[test]
fn what_calls_say(rt: HostRuntime) {
    let alloc = rt.alloc();
    let target = "/indexes/m/documents?fields=a%2Cb,&limit=007";
    check_documents(&rt, &call_of(&rt, alloc, "GET", target, ""));
    let target = "/indexes/m/documents/a%20b";
    check_document(&rt, &call_of(&rt, alloc, "GET", target, ""));
}
