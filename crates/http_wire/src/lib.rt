//! Requests and replies as bytes on a link: HTTP/1.1 and 1.0 messages by RFC 9112, with bodies of a stated length.
//!
//! `specs/Stream.antt` says which whole requests stand in a list of bytes and how they end, and
//! `requests_are_determined` that no other reading is possible. `read_request` takes the first of
//! them from a link, however the reads cut the bytes, and loses no byte where it finds none.
//! Contracts see `Kept` as the bytes that were read and are not yet used. Heads are found by
//! `httparse`, statuses come from `http`; stands on `outside_io` and `search_base`.
#![tactic(auto)]

mod fields;
mod head;
mod judge;
mod kept;
mod reading;
mod refusal;
mod reply;

pub use kept::Kept;
pub use reading::{Wire, WireEnd, read_request, requests_are_determined};
pub use refusal::write_refusal;
pub use reply::{Reply, make_reply, write_all, write_reply};

/// Why a head is refused. The first that holds is the one, in the order in which they are written
/// here, but `Malformed` stands twice: after `TooManyHeaders` for a head that is none, and after
/// `Coded` for one whose lengths are.
#[derive(Clone, Copy, Debug, PartialEq, Eq)]
pub enum HeadKind {
    /// 431: the line ends before the head have 16,384 bytes or more, or the first 16,384 bytes of
    /// the head hold no empty line. The number is 16,384.
    HeadTooLong,
    /// 431: the head has more than 66 line feeds, and so more than 64 headers. The number is theirs.
    TooManyHeaders,
    /// 400: `httparse` finds no head with UTF-8 target and at most 64 headers in these bytes; or it
    /// has two `Content-Length` headers, or one that is not one or more digits. The number is the
    /// head's length.
    Malformed,
    /// 501: there is a `Transfer-Encoding`, or a `Content-Encoding` that is not `identity`. The
    /// number is the head's length.
    Coded,
    /// 411: a POST, PUT or PATCH has no `Content-Length`. The number is the head's length.
    NoLength,
    /// 413: the body is longer than 16,777,216 bytes. The number is its length, or 2^64 - 1 where
    /// that is less.
    BodyTooLarge,
}
