// What the head of a request says.
ghost use Rattle.std.specs.Prelude.{◌≡◌, ◌==◌, ◌≤◌, ◌∷◌, length, count_by, IfOk, [], IsUtf8};
ghost use Rattle.httparse.specs.Spans.{IsWithin, span_bytes};
ghost use Rattle.http_wire.specs.Fields.{verdict_of, parts_of_line, by_held};
ghost use Rattle.http_wire.specs.Judge.{Judged, by_lengths, needs_length};

use crate::HeadKind;
use crate::fields::{
    Field, Lengths, any_coding, asks_to_close, find_lengths, gather, is_number, number_of,
};
use httparse::Status;
use httparse::spans::{EMPTY_HEADER_SPAN, Span, parse_request};
use search_base::NoMemory;
use std::alloc::Global;
use std::str;

const MOST_LINE_FEEDS: usize = 66;

const MOST_FIELDS: usize = 64;

const MOST_BODY: u64 = 16_777_216;

/// The first line of a request, of HTTP/1.`minor`.
#[derive(Clone, Copy)]
pub struct RequestLine<'b> {
    pub method: &'b str,
    pub target: &'b str,
    pub minor: u8,
}

/// What a head comes to.
pub enum Ruling<'b> {
    Refused {
        kind: HeadKind,
        number: u64,
    },
    /// A body of `size` bytes follows.
    Accepted {
        method: &'b str,
        target: &'b str,
        closes: bool,
        size: usize,
    },
}

#[tactic(auto, unfolding(crate::specs::Judge::needs_length))]
fn method_needs_length(method: &str) -> bool
    ensures { result ≡ needs_length method.now }
{
    method == "POST" || method == "PUT" || method == "PATCH"
}

// By the text of its one length, for a head of `size` bytes.
fn rule_length<'b>(line: RequestLine<'b>, closes: bool, text: &[u8], size: usize) -> Ruling<'b>
    ensures { verdict_of result ≡ by_lengths (parts_of_line line.entry closes) size (text.now ∷ []) }
{
    if !is_number(text) {
        return Ruling::Refused {
            kind: HeadKind::Malformed,
            number: size as u64,
        };
    }
    let number = number_of(text);
    if number > MOST_BODY {
        return Ruling::Refused {
            kind: HeadKind::BodyTooLarge,
            number,
        };
    }
    Ruling::Accepted {
        method: line.method,
        target: line.target,
        closes,
        size: number as usize,
    }
}

// Where there is no length.
fn rule_no_length(line: RequestLine<'_>, closes: bool, size: usize) -> Ruling<'_>
    ensures { verdict_of result ≡ by_lengths (parts_of_line line.entry closes) size [] }
{
    if method_needs_length(line.method) {
        return Ruling::Refused {
            kind: HeadKind::NoLength,
            number: size as u64,
        };
    }
    Ruling::Accepted {
        method: line.method,
        target: line.target,
        closes,
        size: 0,
    }
}

// By the fields, for a head of `size` bytes.
#[tactic(auto, using(crate::proofs::Verdicts::several))]
fn rule<'b>(line: RequestLine<'b>, fields: &[Field<'_>], size: usize) -> Ruling<'b>
    ensures { verdict_of result ≡ by_held line.entry fields.now size }
{
    if any_coding(fields) {
        return Ruling::Refused {
            kind: HeadKind::Coded,
            number: size as u64,
        };
    }
    let closes = asks_to_close(line.minor, fields);
    match find_lengths(fields) {
        Lengths::Absent => rule_no_length(line, closes, size),
        Lengths::One(text) => rule_length(line, closes, text, size),
        Lengths::Several => Ruling::Refused {
            kind: HeadKind::Malformed,
            number: size as u64,
        },
    }
}

fn count_line_feeds(head: &[u8]) -> usize
    ensures { result ≡ count_by (λ b. b == 10) head.now }
{
    head.iter().filter(|b| **b == b'\n').count()
}

// A part of a head, which is text.
fn text_at(head: &[u8], span: Span) -> &str
    requires within { IsWithin (length head.now) span }
    requires text { IsUtf8 (span_bytes head.now span) }
    ensures { result.now ≡ span_bytes head.now span }
{
    match str::from_utf8(span.of(head)) {
        Ok(text) => text,
        Err(_) => unreachable!(),
    }
}

/// What the bytes of a head say. `NoMemory`: there was none for the list of its fields.
pub fn judge<'b>(alloc: Global, head: &'b [u8]) -> Result<Ruling<'b>, NoMemory>
    ensures { IfOk result (λ ruling. Judged head.now (verdict_of ruling)) }
{
    let line_feeds = count_line_feeds(head);
    if line_feeds > MOST_LINE_FEEDS {
        return Ok(Ruling::Refused {
            kind: HeadKind::TooManyHeaders,
            number: line_feeds as u64,
        });
    }
    let mut spans = [EMPTY_HEADER_SPAN; MOST_FIELDS];
    match parse_request(head, &mut spans) {
        Ok(Status::Complete(found)) => {
            let fields = gather(alloc, head, &spans[..found.headers])?;
            let line = RequestLine {
                method: text_at(head, found.method),
                target: text_at(head, found.path),
                minor: found.version,
            };
            Ok(rule(line, &fields, head.len()))
        }
        _ => Ok(Ruling::Refused {
            kind: HeadKind::Malformed,
            number: head.len() as u64,
        }),
    }
}
