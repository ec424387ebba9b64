ghost use Rattle.std.specs.Prelude.{◌<◌};

use http::StatusCode;
use http_wire::{
    HeadKind, Kept, Reply, Wire, WireEnd, make_reply, read_request, write_refusal, write_reply,
};
use outside_io::{Failed, MemoryLink};
use std::alloc::Global;
use std::process::Abort;

const HEALTH: &[u8] = b"GET /health HTTP/1.1\r\nHost: x\r\n\r\n";

// What is read of a link that gives these bytes, at most so many at a time.
fn read_first(rt: &impl Abort, alloc: Global, input: Vec<u8>, most: usize) -> Result<Wire, WireEnd>
    requires { 0 < most }
{
    let mut link = MemoryLink::paced(alloc, input, Vec::new(alloc), most).expect(rt, "memory");
    let mut kept = Kept::new(alloc).expect(rt, "memory");
    read_request(alloc, &mut link, &mut kept)
}

// Of these bytes no request is read, for this reason.
fn check(rt: &impl Abort, alloc: Global, input: Vec<u8>, end: WireEnd) {
    assert!(rt; read_first(rt, alloc, input, 1000).err() == Some(end));
}

#[test]
fn a_request_in_pieces_is_read_whole(rt: HostRuntime) {
    for most in [1usize, 7, 4096] {
        let input = b"\r\n\nPUT /a?b HTTP/1.0\ncontent-length: 3\nhost: x\n\nabcGET";
        let input = input.to_vec(rt.alloc()).expect(&rt, "memory");
        let wire = read_first(&rt, rt.alloc(), input, most).expect(&rt, "a request");
        assert!(rt; wire.method.as_str() == "PUT");
        assert!(rt; wire.target.as_str() == "/a?b");
        assert!(rt; wire.body.as_slice() == b"abc".as_slice());
        assert!(rt; wire.closes, "version 1.0 asks to close");
    }
}

const POST: &[u8] = b"POST /indexes/m/documents HTTP/1.1\r\ncontent-length: 2\r\n\r\n[";

const ENDS: [(&[u8], WireEnd); 4] = [
    (POST, WireEnd::CutShort { rest: 58 }),
    (b"GET /health HT", WireEnd::CutShort { rest: 14 }),
    (b"\r\n\n", WireEnd::End),
    (b"\r", WireEnd::CutShort { rest: 1 }),
];

#[test]
fn input_that_ends_inside_a_request_is_cut_short(rt: HostRuntime) {
    for (input, end) in ENDS {
        let input = input.to_vec(rt.alloc()).expect(&rt, "memory");
        check(&rt, rt.alloc(), input, end);
    }
}

const TOO_LONG: WireEnd = WireEnd::Bad {
    kind: HeadKind::HeadTooLong,
    number: 16384,
};

// So many of one byte, and why no request is read of them.
const ONE_BYTE: [(u8, usize, WireEnd); 3] = [
    (b'a', 16384, TOO_LONG),
    (b'\n', 16384, TOO_LONG),
    (b'\n', 16383, WireEnd::End),
];

#[test]
fn heads_that_are_too_long(rt: HostRuntime) {
    for (byte, count, end) in ONE_BYTE {
        let input = vec![in rt.alloc(); byte; count].expect(&rt, "memory");
        check(&rt, rt.alloc(), input, end);
    }
    let mut many = b"GET / HTTP/1.1\n".to_vec(rt.alloc()).expect(&rt, "memory");
    for _ in 0..65 {
        many.extend_from_slice(b"a: b\n").expect(&rt, "memory");
    }
    many.extend_from_slice(b"\n").expect(&rt, "memory");
    let kind = HeadKind::TooManyHeaders;
    check(&rt, rt.alloc(), many, WireEnd::Bad { kind, number: 67 });
}

const REFUSALS: [(&[u8], HeadKind, u64); 10] = [
    (b"GET / HTTP/1.1\na: \x00\n\n", HeadKind::Malformed, 21),
    (b"GET /\xff HTTP/1.1\n\n", HeadKind::Malformed, 17),
    (
        b"GET / HTTP/1.1\ntransfer-encoding: identity\n\n",
        HeadKind::Coded,
        44,
    ),
    (
        b"GET / HTTP/1.1\ncontent-encoding: gzip\n\n",
        HeadKind::Coded,
        39,
    ),
    (
        b"GET / HTTP/1.1\ncontent-length: 1\ncontent-length: 1\n\na",
        HeadKind::Malformed,
        52,
    ),
    (
        b"GET / HTTP/1.1\ncontent-length: +1\n\na",
        HeadKind::Malformed,
        35,
    ),
    (
        b"GET / HTTP/1.1\ncontent-length:\n\n",
        HeadKind::Malformed,
        32,
    ),
    (b"PATCH / HTTP/1.1\n\n", HeadKind::NoLength, 18),
    (
        b"GET / HTTP/1.1\ncontent-length: 16777217\n\n",
        HeadKind::BodyTooLarge,
        16777217,
    ),
    (
        b"GET / HTTP/1.1\ncontent-length: 99999999999999999999\n\n",
        HeadKind::BodyTooLarge,
        u64::MAX,
    ),
];

#[test]
fn each_other_refusal_of_a_head(rt: HostRuntime) {
    for (input, kind, number) in REFUSALS {
        let input = input.to_vec(rt.alloc()).expect(&rt, "memory");
        check(&rt, rt.alloc(), input, WireEnd::Bad { kind, number });
    }
}

const CONNECTIONS: [(&[u8], bool); 5] = [
    (
        b"GET / HTTP/1.1\nconnection: keep-alive ,\tCLOSE , x\ncontent-encoding: Identity\n\n",
        true,
    ),
    (
        b"GET / HTTP/1.1\nconnection: x\nconnection: close\n\n",
        true,
    ),
    (b"GET / HTTP/1.1\nconnection: not close, closed\n\n", false),
    (b"GET / HTTP/1.1\n\n", false),
    (b"GET / HTTP/1.0\nconnection: keep-alive\n\n", true),
];

#[test]
fn connection_is_a_list(rt: HostRuntime) {
    for (input, closes) in CONNECTIONS {
        let input = input.to_vec(rt.alloc()).expect(&rt, "memory");
        let wire = read_first(&rt, rt.alloc(), input, 1000).expect(&rt, "a request");
        assert!(rt; wire.closes == closes);
    }
}

#[test]
fn a_long_body_and_what_follows_it(rt: HostRuntime) {
    let mut input = b"POST / HTTP/1.1\ncontent-length: 20000\n\n"
        .to_vec(rt.alloc())
        .expect(&rt, "memory");
    let body = vec![in rt.alloc(); b'x'; 20000].expect(&rt, "memory");
    for part in [body.as_slice(), HEALTH, HEALTH] {
        input.extend_from_slice(part).expect(&rt, "memory");
    }
    let mut link = MemoryLink::new(rt.alloc(), input, Vec::new(rt.alloc())).expect(&rt, "memory");
    let mut kept = Kept::new(rt.alloc()).expect(&rt, "memory");
    let wire = read_request(rt.alloc(), &mut link, &mut kept).expect(&rt, "a request");
    assert!(rt; wire.body.as_slice() == body.as_slice());
    for _ in 0..2 {
        let wire = read_request(rt.alloc(), &mut link, &mut kept).expect(&rt, "a request");
        assert!(rt; wire.target.as_str() == "/health");
    }
    assert!(rt; read_request(rt.alloc(), &mut link, &mut kept).err() == Some(WireEnd::End));
}

// What is written of a reply, of one for want of memory that closes, and of a refusal.
const WRITTEN: &[u8] =
    b"HTTP/1.1 202 Accepted\r\ncontent-length: 2\r\ncontent-type: application/json\r\n\r\n{}HTTP/1.1 503 Service Unavailable\r\ncontent-length: 59\r\ncontent-type: application/json\r\nconnection: close\r\n\r\n{\"code\":\"no_memory\",\"message\":\"No memory.\",\"type\":\"system\"}HTTP/1.1 411 Length Required\r\ncontent-length: 80\r\ncontent-type: application/json\r\nconnection: close\r\n\r\n{\"code\":\"length_required\",\"message\":\"Length required.\",\"type\":\"invalid_request\"}";

#[test]
fn replies_are_written(rt: HostRuntime) {
    let failing = [0].to_vec(rt.alloc()).expect(&rt, "memory");
    let mut link = MemoryLink::new(rt.alloc(), Vec::new(rt.alloc()), failing).expect(&rt, "memory");
    let body = b"{}".to_vec(rt.alloc()).expect(&rt, "memory");
    let reply = make_reply(rt.alloc(), StatusCode::ACCEPTED, body).expect(&rt, "memory");
    assert!(rt; write_reply(&mut link, &reply, false) == Err(Failed));
    assert!(rt; link.written() == b"".as_slice());
    assert!(rt; write_reply(&mut link, &reply, false) == Ok(()));
    assert!(rt; write_reply(&mut link, &Reply::Memory, true) == Ok(()));
    assert!(rt; write_refusal(&mut link, HeadKind::NoLength) == Ok(()));
    assert!(rt; link.written() == WRITTEN);
}
