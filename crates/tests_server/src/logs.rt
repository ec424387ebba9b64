ghost use Rattle.std.specs.Prelude.{Some};
ghost use Rattle.durable_machine.specs.Durable.{IsDurable};
ghost use Rattle.outside_io.specs.MemoryDisk.{contents_of};

use crate::checks::{check, check_text, silent, text_of};
use crate::disks::empty_disk;
use bucket_sort::{BucketLog, Opening, RecordLog, RefuseLog};
use durable_machine::DurableMachine;
use outside_io::{MemoryDisk, MemoryLink};
use search_base::{CostKey, Steps};
use search_server::{Status, serve_link};
use std::alloc::Global;
use std::process::Abort;

const ADD: &str = "/indexes/m/documents";

const FOUR: &str = r#"[{"id":1,"title":"The Dark Knight","year":2008,"genres":["Action","Drama"]},
{"id":2,"title":"Dark Knight Rises","year":2012,"genres":["Action"]},{"id":3,"title":"Knight of the Dark","year":1999},
{"id":4,"title":"Darkness","year":2002,"genres":["drama"]}]"#;

const SEVERAL: &str = "/multi-search";

const NONE: &str = r#"{"queries":[]}"#;

const NONE_FOUND: &str = r#"{"results":[]}"#;

const SEARCH: &str = "/indexes/m/search";

const DARK: &str = r#"{"q":"dark","attributesToRetrieve":["id"]}"#;

const FOUND: &str =
    r#"{"estimatedTotalHits":4,"hits":[{"id":2},{"id":4},{"id":1},{"id":3}],"limit":20,"offset":0,"query":"dark"}"#;

// A search, and how many openings its log takes; those that the log has heard then, each by its level, its key and its
// size; and the status and the body of the reply.
struct Row {
    search: &'static str,
    most: u64,
    told: &'static str,
    status: &'static str,
    body: &'static str,
}

const ROWS: [Row; 4] = [
    Row {
        search: DARK,
        most: 8,
        told: "(1,0,4)(2,0,4)(3,2,4)(4,0,2)(5,1,1)(5,2,1)(4,1,1)(4,3,1)",
        status: "200 OK",
        body: FOUND,
    },
    Row {
        search: r#"{"q":"dark","limit":1,"attributesToRetrieve":["id"]}"#,
        most: 5,
        told: "(1,0,4)(2,0,4)(3,2,4)(4,0,2)(5,1,1)",
        status: "200 OK",
        body: r#"{"estimatedTotalHits":4,"hits":[{"id":2}],"limit":1,"offset":0,"query":"dark"}"#,
    },
    Row {
        search: r#"{"q":"dark","limit":0}"#,
        most: 0,
        told: "",
        status: "200 OK",
        body: r#"{"estimatedTotalHits":4,"hits":[],"limit":0,"offset":0,"query":"dark"}"#,
    },
    Row {
        search: DARK,
        most: 2,
        told: "(1,0,4)(2,0,4)",
        status: "503 Service Unavailable",
        body: r#"{"code":"no_memory","message":"No memory.","type":"system"}"#,
    },
];

fn add_opening(rt: &impl Abort, text: &mut String, opening: &Opening) {
    let Opening { level, key, size } = opening;
    let written = match key {
        CostKey::Number(cost) => write!(text, "({level},{cost},{size})"),
        CostKey::Up(_) | CostKey::Down(_) => write!(text, "({level},?,{size})"),
    };
    written.expect(rt, "memory");
}

// What a log has heard.
fn heard(rt: &impl Abort, alloc: Global, log: &Box<dyn BucketLog>) -> String {
    let mut text = String::new(alloc);
    for opening in log.heard().unwrap_or(&[]) {
        add_opening(rt, &mut text, opening);
    }
    text
}

fn link(rt: &impl Abort, alloc: Global, target: &str, body: &str) -> MemoryLink {
    let request = format!(in alloc;
        "POST {target} HTTP/1.1\r\ncontent-length: {}\r\n\r\n{body}",
        body.len()
    );
    let request = request.expect(rt, "memory").into_bytes();
    MemoryLink::new(alloc, request, Vec::new(alloc)).expect(rt, "memory")
}

// The reply to a request, which comes on a link of its own.
fn reply(
    rt: &impl Abort,
    alloc: Global,
    machine: &mut DurableMachine,
    disk_a: &mut MemoryDisk,
    disk_b: &mut MemoryDisk,
    log: &mut Box<dyn BucketLog>,
    target: &str,
    body: &str,
) -> String
    requires durable { IsDurable machine.old (Some (contents_of disk_a.old)) (Some (contents_of disk_b.old)) }
    ensures durable { IsDurable machine.new (Some (contents_of disk_a.new)) (Some (contents_of disk_b.new)) }
{
    let mut link = link(rt, alloc, target, body);
    let mut fetches: Steps<()> = Steps::new();
    let mut openings: Steps<()> = Steps::new();
    let end = serve_link(
        alloc,
        machine,
        &mut link,
        disk_a,
        disk_b,
        log,
        &mut fetches,
        &mut openings,
    );
    if let Status::DiskFault = end.status {
        panic!(rt; "a disk failed");
    }
    text_of(rt, link.written())
        .to_string(alloc)
        .expect(rt, "memory")
}

fn check_reply(rt: &impl Abort, reply: &str, status: &str, body: &str) {
    let first = reply.split("\r\n").next().unwrap_or("");
    check(rt, first.strip_prefix("HTTP/1.1 ") == Some(status), status);
    check(rt, reply.ends_with(body), body);
}

// A machine of the four documents, which are added behind the reply to a request without searches, is searched on one
// link, of which a log is told, and then for `dark` on the next, of which a quiet one is told.
fn check_row(
    rt: &impl Abort,
    alloc: Global,
    log: &mut Box<dyn BucketLog>,
    quiet: &mut Box<dyn BucketLog>,
    row: &Row,
) {
    let mut disk_a = empty_disk(rt, alloc);
    let mut disk_b = empty_disk(rt, alloc);
    let mut fetches: Steps<()> = Steps::new();
    let opened = DurableMachine::opened(alloc, &mut disk_a, &mut disk_b, &mut fetches);
    let mut machine = opened.expect(rt, "a machine");
    let (machine, a, b) = (&mut machine, &mut disk_a, &mut disk_b);
    let added = reply(rt, alloc, machine, a, b, log, ADD, FOUR);
    check_reply(rt, &added, "202 Accepted", "");
    let followed = reply(rt, alloc, machine, a, b, log, SEVERAL, NONE);
    check_reply(rt, &followed, "200 OK", NONE_FOUND);
    let found = reply(rt, alloc, machine, a, b, log, SEARCH, row.search);
    check_reply(rt, &found, row.status, row.body);
    check_text(rt, &heard(rt, alloc, log), row.told, row.search);
    let found = reply(rt, alloc, machine, a, b, quiet, SEARCH, DARK);
    check_reply(rt, &found, "200 OK", FOUND);
}

#[test]
fn a_log_hears_each_bucket_that_a_search_opens(rt: HostRuntime) {
    let alloc = rt.alloc();
    let mut quiet: Box<dyn BucketLog> = silent(&rt, alloc);
    let record = Box::new(alloc, RecordLog::new(alloc)).expect(&rt, "memory");
    let mut log: Box<dyn BucketLog> = record;
    check_row(&rt, alloc, &mut log, &mut quiet, &ROWS[0]);
    for row in &ROWS {
        let refuse = Box::new(alloc, RefuseLog::new(alloc, row.most)).expect(&rt, "memory");
        let mut log: Box<dyn BucketLog> = refuse;
        check_row(&rt, alloc, &mut log, &mut quiet, row);
    }
}
