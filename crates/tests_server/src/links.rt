ghost use Rattle.std.specs.Prelude.{◌<◌};

use crate::checks::{add, bytes, check};
use crate::disks::{crashed, empty_disk, serve_on};
use http_wire::HeadKind;
use outside_io::MemoryLink;
use search_server::{LinkEnd, Status};
use std::alloc::Global;
use std::process::Abort;

// The task of the first request runs behind the reply to the second.
const ADD_AND_SEARCH: &[u8] =
    b"POST /indexes/m/documents HTTP/1.1\r\ncontent-length: 254\r\n\r\n[{\"id\":1,\
    \"title\":\"The Dark Knight\",\"year\":2008,\"genres\":[\"Action\",\"Drama\"]\
    },{\"id\":2,\"title\":\"Dark Knight Rises\",\"year\":2012,\"genres\":[\"Action\"]\
    },{\"id\":3,\"title\":\"Knight of the Dark\",\"year\":1999},{\"id\":4,\"title\":\"Darkness\",\
    \"year\":2002,\"genres\":[\"drama\"]}]POST /multi-search HTTP/1.1\r\n\
    content-length: 14\r\n\r\n{\"queries\":[]}POST /indexes/m/search HTTP/1.1\r\n\
    content-length: 2\r\n\r\n{}";

const ADDED_AND_FOUND: &[u8] =
    b"HTTP/1.1 202 Accepted\r\ncontent-length: 82\r\ncontent-type: application/json\r\n\
    \r\n{\"indexUid\":\"m\",\"status\":\"enqueued\",\"taskUid\":0,\"type\":\"documentAdditionOrUpdate\"}\
    HTTP/1.1 200 OK\r\ncontent-length: 14\r\ncontent-type: application/json\r\n\
    \r\n{\"results\":[]}HTTP/1.1 200 OK\r\ncontent-length: 319\r\ncontent-type: application/json\r\n\
    \r\n{\"estimatedTotalHits\":4,\"hits\":[{\"genres\":[\"Action\",\"Drama\"]\
    ,\"id\":1,\"title\":\"The Dark Knight\",\"year\":2008},{\"genres\":[\"Action\"]\
    ,\"id\":2,\"title\":\"Dark Knight Rises\",\"year\":2012},{\"id\":3,\"title\":\"Knight of the Dark\",\
    \"year\":1999},{\"genres\":[\"drama\"],\"id\":4,\"title\":\"Darkness\",\"year\":2002}]\
    ,\"limit\":20,\"offset\":0,\"query\":\"\"}";

const NO_ROUTE: &[u8] =
    b"HTTP/1.1 404 Not Found\r\ncontent-length: 72\r\ncontent-type: application/json\r\n\
    \r\n{\"code\":\"not_found\",\"message\":\"No such route.\",\"type\":\"invalid_request\"}";

// A link that gives these bytes, at most so many at a time, and fails at these calls.
fn link(rt: &impl Abort, alloc: Global, input: &[u8], failing: &[u64], most: usize) -> MemoryLink
    requires { 0 < most }
{
    let input = bytes(rt, alloc, input);
    let failing = failing.to_vec(alloc).expect(rt, "memory");
    MemoryLink::paced(alloc, input, failing, most).expect(rt, "memory")
}

fn serve(rt: &impl Abort, alloc: Global, link: &mut MemoryLink) -> LinkEnd {
    let mut disk_a = empty_disk(rt, alloc);
    let mut disk_b = empty_disk(rt, alloc);
    serve_on(rt, alloc, link, &mut disk_a, &mut disk_b)
}

fn check_end(rt: &impl Abort, end: LinkEnd, status: Status, requests: u64) {
    check(rt, end.status == status, "status");
    check(rt, end.requests == requests, "requests");
    check(rt, end.passed == 0, "passed");
    check(rt, !end.put_off, "no batch is put off");
}

// A new machine serves a link, which ends so and on which this is written.
fn check_served(
    rt: &impl Abort,
    alloc: Global,
    link: MemoryLink,
    status: Status,
    requests: u64,
    written: &[u8],
) {
    let mut served = link;
    let end = serve(rt, alloc, &mut served);
    check_end(rt, end, status, requests);
    check(rt, served.written() == written, "written");
}

fn check_page_at(rt: &impl Abort, alloc: Global, most: usize)
    requires { 0 < most }
{
    let link = link(rt, alloc, ADD_AND_SEARCH, &[], most);
    check_served(rt, alloc, link, Status::Done, 3, ADDED_AND_FOUND);
}

#[test]
fn add_documents_and_page_in_pieces_of_every_size(rt: HostRuntime) {
    for most in 1..65_usize {
        check_page_at(&rt, rt.alloc(), most);
    }
    check_page_at(&rt, rt.alloc(), 1 << 20);
}

// Requests that are not whole, and how many bytes stand there.
const CUT_SHORT: [(&[u8], u64); 2] = [
    (
        b"POST /indexes/m/documents HTTP/1.1\r\ncontent-length: 2\r\n\r\n[",
        58,
    ),
    (b"GET /health HT", 14),
];

#[test]
fn input_that_ends_inside_a_request(rt: HostRuntime) {
    for (input, rest) in &CUT_SHORT {
        let link = link(&rt, rt.alloc(), input, &[], 4096);
        let status = Status::CutShort { rest: *rest };
        check_served(&rt, rt.alloc(), link, status, 0, b"");
    }
}

// A request without a route on a link that fails at a call.
fn failing_link(rt: &impl Abort, alloc: Global, call: u64, most: usize) -> MemoryLink
    requires { 0 < most }
{
    link(rt, alloc, b"GET /none HTTP/1.1\r\n\r\n", &[call], most)
}

#[test]
fn a_read_or_a_write_that_fails_ends_the_link(rt: HostRuntime) {
    let alloc = rt.alloc();
    let link = failing_link(&rt, alloc, 0, 4096);
    check_served(&rt, alloc, link, Status::ReadFault, 0, b"");
    let link = failing_link(&rt, alloc, 1, 4096);
    check_served(&rt, alloc, link, Status::WriteFault, 1, b"");
    let link = failing_link(&rt, alloc, 2, 4096);
    check_served(&rt, alloc, link, Status::ReadFault, 1, NO_ROUTE);
    let link = failing_link(&rt, alloc, 2, 100);
    let hundred = NO_ROUTE.get(..100).unwrap_or(&[]);
    check_served(&rt, alloc, link, Status::WriteFault, 1, hundred);
}

const ANOTHER: &[u8] = b"GET /none HTTP/1.1\n\n";

// A head, why it is refused and with which number, and the status and the body of the reply.
const BAD_HEADS: [(&[u8], HeadKind, u64, &str, &str); 5] = [
    (
        b"POST / HTTP/1.1\n\n",
        HeadKind::NoLength,
        17,
        "411 Length Required",
        r#"{"code":"length_required","message":"Length required.","type":"invalid_request"}"#,
    ),
    (
        b"GET / HTTP/1.1\ncontent-length: 16777217\n\n",
        HeadKind::BodyTooLarge,
        16777217,
        "413 Payload Too Large",
        r#"{"code":"payload_too_large","message":"Body too large.","type":"invalid_request"}"#,
    ),
    (
        b"GET / HTTP/1.1\ncontent-length: 1\ncontent-length: 1\n\na",
        HeadKind::Malformed,
        52,
        "400 Bad Request",
        r#"{"code":"bad_request","message":"Bad request.","type":"invalid_request"}"#,
    ),
    (
        b"GET / HTTP/1.1\ntransfer-encoding: chunked\n\n",
        HeadKind::Coded,
        43,
        "501 Not Implemented",
        r#"{"code":"not_implemented","message":"Coded body.","type":"invalid_request"}"#,
    ),
    (
        b"GET / HTTP/1.1\na: \x00\n\n",
        HeadKind::Malformed,
        21,
        "400 Bad Request",
        r#"{"code":"bad_request","message":"Bad request.","type":"invalid_request"}"#,
    ),
];

// A head between two requests is refused by this reply, and the second request is not read.
fn check_bad_head(
    rt: &impl Abort,
    alloc: Global,
    head: &[u8],
    end: Status,
    status: &str,
    body: &str,
) {
    let mut input = bytes(rt, alloc, ANOTHER);
    add(rt, &mut input, head);
    add(rt, &mut input, ANOTHER);
    let refusal = format!(in alloc;
        "HTTP/1.1 {status}\r\ncontent-length: {}\r\ncontent-type: application/json\r\n\
        connection: close\r\n\r\n{body}",
        body.len()
    );
    let mut wanted = bytes(rt, alloc, NO_ROUTE);
    add(rt, &mut wanted, refusal.expect(rt, "memory").as_bytes());
    let link = link(rt, alloc, &input, &[], 4096);
    check_served(rt, alloc, link, end, 1, &wanted);
}

#[test]
fn a_refused_head_ends_the_link(rt: HostRuntime) {
    for (head, kind, number, status, body) in &BAD_HEADS {
        let end = Status::BadHead {
            kind: *kind,
            number: *number,
        };
        check_bad_head(&rt, rt.alloc(), head, end, status, body);
    }
}

fn check_long_head(rt: &impl Abort, alloc: Global, head: &[u8], kind: HeadKind, number: u64) {
    let end = Status::BadHead { kind, number };
    let status = "431 Request Header Fields Too Large";
    let body = r#"{"code":"head_too_large","message":"Head too large.","type":"invalid_request"}"#;
    check_bad_head(rt, alloc, head, end, status, body);
}

#[test]
fn a_head_that_is_too_long_ends_the_link(rt: HostRuntime) {
    let alloc = rt.alloc();
    for byte in [b'a', b'\n'] {
        let head = vec![in alloc; byte; 16384].expect(&rt, "memory");
        check_long_head(&rt, alloc, &head, HeadKind::HeadTooLong, 16384);
    }
    let mut head = bytes(&rt, alloc, b"GET / HTTP/1.1\n");
    for _ in 0..65 {
        add(&rt, &mut head, b"a: b\n");
    }
    add(&rt, &mut head, b"\n");
    check_long_head(&rt, alloc, &head, HeadKind::TooManyHeaders, 67);
}

#[test]
fn line_ends_alone_are_passed_over(rt: HostRuntime) {
    let alloc = rt.alloc();
    let input = vec![in alloc; b'\n'; 16383].expect(&rt, "memory");
    let link = link(&rt, alloc, &input, &[], 4096);
    check_served(&rt, alloc, link, Status::Done, 0, b"");
}

// What a crash leaves of the disks is opened again.
#[test]
fn a_link_that_failed_once_is_served_afterwards(rt: HostRuntime) {
    let alloc = rt.alloc();
    let mut link = link(&rt, alloc, ADD_AND_SEARCH, &[0], usize::MAX);
    let mut disk_a = empty_disk(&rt, alloc);
    let mut disk_b = empty_disk(&rt, alloc);
    let end = serve_on(&rt, alloc, &mut link, &mut disk_a, &mut disk_b);
    check_end(&rt, end, Status::ReadFault, 0);
    let mut disk_a = crashed(&rt, &disk_a, 0);
    let mut disk_b = crashed(&rt, &disk_b, 0);
    let end = serve_on(&rt, alloc, &mut link, &mut disk_a, &mut disk_b);
    check_end(&rt, end, Status::Done, 3);
    check(&rt, link.written() == ADDED_AND_FOUND, "written");
}

// A target, a body, and the status and the body of the reply.
const EXCHANGES: [(&str, &str, &str, &str); 7] = [
    (
        "/indexes",
        r#"{"uid":"e"}"#,
        "202 Accepted",
        r#"{"indexUid":"e","status":"enqueued","taskUid":1,"type":"indexCreation"}"#,
    ),
    (
        "/multi-search",
        r#"{"queries":[]}"#,
        "200 OK",
        r#"{"results":[]}"#,
    ),
    (
        "/indexes/e/search",
        "{}",
        "200 OK",
        r#"{"estimatedTotalHits":0,"hits":[],"limit":20,"offset":0,"query":""}"#,
    ),
    (
        "/indexes/m/search",
        r#"{"q":"dark knight","attributesToRetrieve":["id"]}"#,
        "200 OK",
        r#"{"estimatedTotalHits":3,"hits":[{"id":2},{"id":1},{"id":3}],"limit":20,"offset":0,"query":"dark knight"}"#,
    ),
    (
        "/indexes/m/search",
        r#"{"q":"\"dark knight\"","attributesToRetrieve":["id"]}"#,
        "200 OK",
        r#"{"estimatedTotalHits":2,"hits":[{"id":2},{"id":1}],"limit":20,"offset":0,"query":"\"dark knight\""}"#,
    ),
    (
        "/indexes/m/search",
        r#"{"q":"dark","attributesToRetrieve":["id"]}"#,
        "200 OK",
        r#"{"estimatedTotalHits":4,"hits":[{"id":2},{"id":4},{"id":1},{"id":3}],"limit":20,"offset":0,"query":"dark"}"#,
    ),
    (
        "/indexes/none/search",
        "{}",
        "404 Not Found",
        r#"{"code":"index_not_found","message":"No index `none`.","type":"invalid_request"}"#,
    ),
];

fn add_request(rt: &impl Abort, alloc: Global, target: &str, body: &str, input: &mut Vec<u8>) {
    let request = format!(in alloc;
        "POST {target} HTTP/1.1\r\ncontent-length: {}\r\n\r\n{body}",
        body.len()
    );
    add(rt, input, request.expect(rt, "memory").as_bytes());
}

fn add_reply(rt: &impl Abort, alloc: Global, status: &str, body: &str, output: &mut Vec<u8>) {
    let reply = format!(in alloc;
        "HTTP/1.1 {status}\r\ncontent-length: {}\r\ncontent-type: application/json\r\n\r\n{body}",
        body.len()
    );
    add(rt, output, reply.expect(rt, "memory").as_bytes());
}

fn check_exchanges(rt: &impl Abort, alloc: Global, most: usize)
    requires { 0 < most }
{
    let mut input = bytes(rt, alloc, ADD_AND_SEARCH);
    let mut output = bytes(rt, alloc, ADDED_AND_FOUND);
    for (target, body, status, answer) in &EXCHANGES {
        add_request(rt, alloc, target, body, &mut input);
        add_reply(rt, alloc, status, answer, &mut output);
    }
    let link = link(rt, alloc, &input, &[], most);
    check_served(rt, alloc, link, Status::Done, 10, &output);
}

#[test]
fn requests_and_replies_go_one_byte_at_a_time(rt: HostRuntime) {
    check_exchanges(&rt, rt.alloc(), 1);
    check_exchanges(&rt, rt.alloc(), 7);
    check_exchanges(&rt, rt.alloc(), 1 << 20);
}
