use crate::checks::{add, check_text};
use demo_input::{Demo, Step, first_line, search_line};
use std::alloc::Global;
use std::process::Abort;
use std::str;

// The next request of a demo.
fn next(rt: &impl Abort, alloc: Global, demo: &mut Demo) -> Option<Step> {
    demo.next(alloc).expect(rt, "memory")
}

// A count of documents, a seed, and how long each body of documents is.
const BATCHES: [(u32, u32, &str); 6] = [
    (0, 1, ""),
    (1, 1, " 75"),
    (999, 1, " 75813"),
    (1000, 1, " 75890"),
    (1001, 1, " 75890 79"),
    (2000, 7, " 75911 76980"),
];

fn tell_batch(rt: &impl Abort, step: &Step, told: &mut String) {
    if step.wire.target.as_str() == "/indexes/demo/documents" {
        write!(told, " {}", step.wire.body.len()).expect(rt, "memory");
    }
}

#[test]
fn batches_of_a_thousand(rt: HostRuntime) {
    let alloc = rt.alloc();
    for (count, seed, wanted) in &BATCHES {
        let mut told = String::new(alloc);
        let mut demo = Demo::new(*count, *seed);
        for _ in 0..20 {
            if let Some(step) = next(&rt, alloc, &mut demo) {
                tell_batch(&rt, &step, &mut told);
            }
        }
        check_text(&rt, &told, wanted, wanted);
    }
}

// A count of documents, a seed, and the documents that the numbers drawn from it make, each on a line.
const DOCUMENTS: [(u32, u32, &str); 2] = [
    (
        3,
        1,
        r#"[{"id":1,"tags":["green"],"title":"pebble cloud garden north","year":2013},
{"id":2,"tags":["white"],"title":"bridge jungle delta pebble","year":2007},
{"id":3,"tags":["green"],"title":"lantern north jungle delta","year":2004}]"#,
    ),
    (
        1,
        2_147_483_646,
        r#"[{"id":1,"tags":["blue"],"title":"amber north jungle cloud","year":2004}]"#,
    ),
];

fn tell_documents(rt: &impl Abort, step: &Step, told: &mut String) {
    for part in str::from_utf8(&step.wire.body)
        .unwrap_or("no text")
        .split(",{")
    {
        if !told.as_str().is_empty() {
            add(rt, told, ",\n{");
        }
        add(rt, told, part);
    }
}

#[test]
fn documents_of_a_seed(rt: HostRuntime) {
    let alloc = rt.alloc();
    for (count, seed, wanted) in &DOCUMENTS {
        let mut demo = Demo::new(*count, *seed);
        let _settings = next(&rt, alloc, &mut demo);
        let mut told = String::new(alloc);
        if let Some(step) = next(&rt, alloc, &mut demo) {
            tell_documents(&rt, &step, &mut told);
        }
        check_text(&rt, &told, wanted, wanted);
    }
}

// The number of a search, the method, the target and the body of each request for one document.
const REQUESTS: &str =
    r#"PATCH /indexes/demo/settings {"filterableAttributes":["tags","year"],"sortableAttributes":["year"]}
POST /indexes/demo/documents [{"id":1,"tags":["green"],"title":"pebble cloud garden north","year":2013}]
1 POST /indexes/demo/search {"q":"cloud garden"}
2 POST /indexes/demo/search {"q":"amber bri"}
3 POST /indexes/demo/search {"q":"\"north pebble\""}
4 POST /indexes/demo/search {"q":"ocean delta forest"}
5 POST /indexes/demo/search {"q":"delta","filter":"year > 2005"}
6 POST /indexes/demo/search {"q":"","sort":["year:desc"],"limit":5}
7 POST /indexes/demo/search {"facets":["tags"],"limit":0}
8 POST /indexes/demo/search {"q":"ember","matchingStrategy":"all","filter":"tags = red"}
9 POST /indexes/demo/search {"q":"harb our"}
10 POST /indexes/demo/search {"q":"kettle lantern","page":2,"hitsPerPage":3}
"#;

fn tell_request(rt: &impl Abort, step: &Step, told: &mut String) {
    if let Some(number) = step.search {
        write!(told, "{number} ").expect(rt, "memory");
    }
    let method = step.wire.method.as_str();
    let target = step.wire.target.as_str();
    let body = str::from_utf8(&step.wire.body).unwrap_or("no text");
    write!(told, "{method} {target} {body}\n").expect(rt, "memory");
}

#[test]
fn the_requests_of_one_document(rt: HostRuntime) {
    let alloc = rt.alloc();
    let mut told = String::new(alloc);
    let mut demo = Demo::new(1, 1);
    for _ in 0..20 {
        if let Some(step) = next(&rt, alloc, &mut demo) {
            tell_request(&rt, &step, &mut told);
        }
    }
    check_text(&rt, &told, REQUESTS, "requests");
}

// The number of a search, the body of the reply to it, and its line.
const LINES: [(u8, &[u8], &str); 8] = [
    (
        5,
        b"{\"estimatedTotalHits\":3,\"hits\":[{\"id\":7,\"year\":2019},{\"id\":26},{\"id\":36}],\"limit\":20}",
        "search 5 total 3 ids 7 26 36\n",
    ),
    (
        7,
        b"{\"estimatedTotalHits\":40,\"facetDistribution\":{\"tags\":{\"blue\":9}},\"hits\":[]}",
        "search 7 total 40 ids\n",
    ),
    (
        10,
        b"{\"hits\":[{\"id\":14}],\"hitsPerPage\":3,\"page\":2,\"totalHits\":10,\"totalPages\":4}",
        "search 10 total 10 ids 14\n",
    ),
    (
        1,
        b"{\"estimatedTotalHits\":2,\"hits\":[{\"id\":\"a\"},{\"id\":2}],\"totalHits\":5}",
        "search 1 total 2 ids 2\n",
    ),
    (
        2,
        b"{\"code\":\"no_memory\",\"message\":\"No memory.\"}",
        "search 2 total 0 ids\n",
    ),
    (3, b"[{\"id\":1}]", "search 3 total 0 ids\n"),
    (4, b"{\"hits\":[{\"id\":1}", "search 4 total 0 ids\n"),
    (
        255,
        b"{\"totalHits\":1,\"hits\":\"\xff\"}",
        "search 255 total 0 ids\n",
    ),
];

#[test]
fn what_replies_come_to(rt: HostRuntime) {
    let alloc = rt.alloc();
    for (number, body, wanted) in &LINES {
        let line = search_line(alloc, *number, body).expect(&rt, "memory");
        check_text(&rt, &line, wanted, wanted);
    }
    let line = first_line(alloc, 100_000).expect(&rt, "memory");
    check_text(&rt, &line, "documents 100000\n", "the first line");
}
