// Requests, read from a link one after the other.
ghost use Rattle.std.specs.Prelude.{◌≡◌, ℕ, ◌+◌, ◌<◌, ◌≤◌, length, IfOk, IfErr, OnOk, OnErr, List};
ghost use Rattle.std.specs.Io.{StartsWith};
ghost use Rattle.std.specs.Io.KnownBytes.{prepend_known};
ghost use Rattle.http_wire.specs.Head.{IsHeadAt, head_bytes};
ghost use Rattle.http_wire.specs.Judge.{Judged, accepted};
ghost use Rattle.http_wire.specs.Stops.{HeadStops, BodyStops, HeadRefused, TakesFront, Stops};
ghost use Rattle.http_wire.specs.Stream.{IsWithinLimits, Request, End, Requests};
ghost use Rattle.http_wire.specs.Wire.{request_of, parts_of_head};

use crate::head::{Cut, find_head};
use crate::judge::{Ruling, judge};
use crate::{HeadKind, Kept};
use outside_io::Link;
use search_base::{NoMemory, Word};
use std::alloc::Global;

/// Why no request was read.
#[derive(Clone, Copy, Debug, PartialEq, Eq)]
pub enum WireEnd {
    /// The input ended where a request may begin: what is left are line ends, or nothing, and less
    /// than 16,384 bytes.
    End,
    /// The input ended inside a request, `rest` bytes, above 0, after the last whole one.
    CutShort { rest: u64 },
    /// What follows is a head that is refused.
    Bad { kind: HeadKind, number: u64 },
    /// The link's count of read faults rose.
    ReadFault,
    NoMemory,
}

/// A whole request. Its target has at most 16,384 bytes and its body at most 16,777,216.
#[derive(Drop)]
pub struct Wire {
    pub method: Word,
    pub target: Word,
    pub body: Vec<u8>,
    /// Whether the link is to be closed behind the reply: the request has version 1.0, or `close` in
    /// the list of a `Connection` header.
    pub closes: bool,
}

// What an accepted head says. A body of `size` bytes follows it.
#[derive(Drop)]
struct Head {
    method: Word,
    target: Word,
    closes: bool,
    size: usize,
}

// Reads until a whole head is there, and says where it begins and how long it is.
fn await_head<P: Link>(link: &mut P, kept: &mut Kept) -> Result<(usize, usize), WireEnd>
    ensures same { prepend_known kept.new (P.left link.new) ≡ prepend_known kept.old (P.left link.old) }
    ensures head { IfOk result (λ head. IsHeadAt kept.new head.0 head.1 × (head.0 + head.1 ≤ length kept.new)) }
    ensures stops { IfErr result (HeadStops kept.new (P.left link.new) (P.read_faults link.old) (P.read_faults link.new)) }
    ensures later { P.read_faults link.old ≤ P.read_faults link.new }
    ensures told { P.told link.new ≡ P.told link.old }
    ensures write_faults { P.write_faults link.new ≡ P.write_faults link.old }
{
    loop {
        let cut = find_head(kept.bytes());
        match cut {
            Cut::Head { start, len } => return Ok((start, len)),
            Cut::TooLong => {
                return Err(WireEnd::Bad {
                    kind: HeadKind::HeadTooLong,
                    number: 16384,
                });
            }
            Cut::Blank => {
                if !kept.fill(link)? {
                    return Err(WireEnd::End);
                }
            }
            Cut::InHead => {
                if !kept.fill(link)? {
                    return Err(WireEnd::CutShort {
                        rest: kept.len() as u64,
                    });
                }
            }
        }
    }
}

// Reads until the `size` bytes of a body are there, which begin at `start`.
fn await_body<P: Link>(
    link: &mut P,
    kept: &mut Kept,
    start: usize,
    size: usize,
) -> Result<(), WireEnd>
    requires { start ≤ length kept.old }
    ensures same { prepend_known kept.new (P.left link.new) ≡ prepend_known kept.old (P.left link.old) }
    ensures front { StartsWith kept.new kept.old }
    ensures enough { OnOk result (start + size ≤ length kept.new) }
    ensures stops { IfErr result (BodyStops kept.new (start + size) (P.left link.new) (P.read_faults link.old) (P.read_faults link.new)) }
    ensures later { P.read_faults link.old ≤ P.read_faults link.new }
    ensures told { P.told link.new ≡ P.told link.old }
    ensures write_faults { P.write_faults link.new ≡ P.write_faults link.old }
{
    let Ok(()) = kept.make_room(start.saturating_add(size)) else {
        return Err(WireEnd::NoMemory);
    };
    while kept.len() - start < size {
        if !kept.fill(link)? {
            return Err(WireEnd::CutShort {
                rest: kept.len() as u64,
            });
        }
    }
    Ok(())
}

// What the bytes of a head say, with its texts owned.
fn read_head(alloc: Global, head: &[u8]) -> Result<Head, WireEnd>
    ensures ok { IfOk result (λ r. Judged head.now (accepted (parts_of_head r) r.size)) }
    ensures err { IfErr result (HeadRefused head.now) }
{
    match judge(alloc, head) {
        Err(NoMemory) => Err(WireEnd::NoMemory),
        Ok(Ruling::Refused { kind, number }) => Err(WireEnd::Bad { kind, number }),
        Ok(
            Ruling::Accepted {
                method,
                target,
                closes,
                size,
            },
        ) => {
            let Ok(method) = Word::new(alloc, method) else {
                return Err(WireEnd::NoMemory);
            };
            let Ok(target) = Word::new(alloc, target) else {
                return Err(WireEnd::NoMemory);
            };
            Ok(Head {
                method,
                target,
                closes,
                size,
            })
        }
    }
}

// The bytes of a head.
fn head_slice(bytes: &[u8], start: usize, len: usize) -> &[u8]
    requires { start + len ≤ length bytes.now }
    ensures { result.now ≡ head_bytes bytes.now start len }
{
    &bytes[start..start + len]
}

/// Reads the next request of a link, from the bytes that are kept and those that the link has left.
///
/// It is the request at the front of these bytes, by `specs/Stream.antt`; the bytes after it stay kept
/// or left. Where none is read no byte is lost: what is kept and left together is as it was, and
/// each `WireEnd` comes as it says. Writes nothing.
pub fn read_request<P: Link>(alloc: Global, link: &mut P, kept: &mut Kept) -> Result<Wire, WireEnd>
    ensures request { IfOk result (λ wire. TakesFront (prepend_known kept.old (P.left link.old)) (request_of wire)
        (prepend_known kept.new (P.left link.new))) }
    ensures limits { IfOk result (λ wire. IsWithinLimits (request_of wire)) }
    ensures same { OnErr result (prepend_known kept.new (P.left link.new) ≡ prepend_known kept.old (P.left link.old)) }
    ensures stops { IfErr result (Stops (prepend_known kept.old (P.left link.old)) kept.new (P.read_faults link.old) (P.read_faults link.new)) }
    ensures later { P.read_faults link.old ≤ P.read_faults link.new }
    ensures told { P.told link.new ≡ P.told link.old }
    ensures write_faults { P.write_faults link.new ≡ P.write_faults link.old }
{
    let (start, len) = match await_head(link, kept) {
        Ok(found) => found,
        Err(why) => return Err(why),
    };
    let end = start + len;
    let head = match read_head(alloc, head_slice(kept.bytes(), start, len)) {
        Ok(head) => head,
        Err(why) => return Err(why),
    };
    match await_body(link, kept, end, head.size) {
        Ok(()) => {}
        Err(why) => return Err(why),
    }
    let Ok(body) = kept.take_body(alloc, end, head.size) else {
        return Err(WireEnd::NoMemory);
    };
    Ok(Wire {
        method: head.method,
        target: head.target,
        body,
        closes: head.closes,
    })
}

/// The requests in the bytes of a link are determined, and so is how they end.
pub fn requests_are_determined()
    ensures { (bytes : List ℕ) (qs rs : List Request) (e f : End)
        → Requests bytes qs e → Requests bytes rs f → (qs ≡ rs) × (e ≡ f) }
{}
