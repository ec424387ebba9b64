// Replies, and how they are written.
ghost use Rattle.std.specs.Prelude.{◌≡◌, ◌++◌, ◌+◌, ◌<◌, ◌≤◌, ◌^◌, length, take, drop, IfOk, OnOk, OnErr, true, false};
ghost use Rattle.std.specs.Io.KnownBytes.{append_known};
ghost use Rattle.outside_io.specs.Faults.{HasCause};
ghost use Rattle.http.specs.StatusCode.{IsStatusCode};
ghost use Rattle.http_wire.specs.Reply.{WrotePart, close_line, reply_head, wire, memory_answer};
ghost use Rattle.http_wire.specs.Sent.{sent, IsSentAs};

use http::StatusCode;
use outside_io::{Failed, Link};
use search_base::NoMemory;
use std::alloc::Global;

/// What is answered to a request.
#[derive(Drop)]
pub enum Reply {
    /// A reply with its bytes: the head for a link that stays open, the head for one that closes,
    /// and the body.
    Made {
        status: u16,
        head: Vec<u8>,
        head_close: Vec<u8>,
        body: Vec<u8>,
    },
    /// The one reply for want of memory, of status 503, which takes none.
    Memory,
}

fn rest_of(piece: &[u8], at: usize) -> &[u8]
    requires { at ≤ length piece.now }
    ensures { result.now ≡ drop at piece.now }
{
    &piece[at..]
}

/// Writes all of a piece, as a link takes it. `Failed`: the count of write faults rose, and a part of the piece was
/// written, not the whole.
pub fn write_all<P: Link>(link: &mut P, piece: &[u8]) -> Result<(), Failed>
    ensures ok { OnOk result (P.told link.new ≡ append_known (P.told link.old) piece.now) }
    ensures err { OnErr result (WrotePart (P.told link.old) (P.told link.new) piece.now) }
    ensures cause { HasCause (P.write_faults link.old) (P.write_faults link.new) result }
    ensures left { P.left link.new ≡ P.left link.old }
    ensures read_faults { P.read_faults link.new ≡ P.read_faults link.old }
{
    let mut at = 0;
    while at < piece.len() {
        match link.write(rest_of(piece, at)) {
            Ok(count) => at += count,
            Err(Failed) => return Err(Failed),
        }
    }
    Ok(())
}

fn close_text(closes: bool) -> &'static str
    ensures { result.now ≡ close_line closes }
{
    if closes { "connection: close\r\n" } else { "" }
}

// The head of a reply.
#[tactic(auto, unfolding(crate::specs::Reply::reply_head))]
fn make_head(
    alloc: Global,
    status: StatusCode,
    size: usize,
    closes: bool,
) -> Result<Vec<u8>, NoMemory>
    ensures { IfOk result (λ head. head.items ≡ reply_head status size closes) }
{
    let close = close_text(closes);
    let text = format!(in alloc;
        "HTTP/1.1 {status}\r\ncontent-length: {size}\r\ncontent-type: application/json\r\n{close}\r\n"
    )?;
    Ok(text.into_bytes())
}

/// A reply with this status and a body of JSON: the status line, `content-length`, `content-type`,
/// `connection: close` where the link closes, an empty line and the body, by RFC 9112.
pub fn make_reply(alloc: Global, status: StatusCode, body: Vec<u8>) -> Result<Reply, NoMemory>
    ensures { IfOk result (λ reply. IsSentAs reply (record { status = status; body = body.items })) }
{
    let head = make_head(alloc, status, body.len(), false)?;
    let head_close = make_head(alloc, status, body.len(), true)?;
    Ok(Reply::Made {
        status: status.as_u16(),
        head,
        head_close,
        body,
    })
}

const MEMORY: &[u8] =
    b"HTTP/1.1 503 Service Unavailable\r\ncontent-length: 59\r\ncontent-type: application/json\r\n\r\n{\"code\":\"no_memory\",\"message\":\"No memory.\",\"type\":\"system\"}";

const MEMORY_CLOSE: &[u8] =
    b"HTTP/1.1 503 Service Unavailable\r\ncontent-length: 59\r\ncontent-type: application/json\r\nconnection: close\r\n\r\n{\"code\":\"no_memory\",\"message\":\"No memory.\",\"type\":\"system\"}";

#[tactic(auto, unfolding(crate::specs::Reply::reply_head))]
fn memory_open() -> &'static [u8]
    ensures { result.now ≡ wire memory_answer false }
{
    MEMORY
}

#[tactic(auto, unfolding(crate::specs::Reply::reply_head))]
fn memory_close() -> &'static [u8]
    ensures { result.now ≡ wire memory_answer true }
{
    MEMORY_CLOSE
}

fn memory_bytes(closes: bool) -> &'static [u8]
    ensures { result.now ≡ wire memory_answer closes }
{
    if closes {
        memory_close()
    } else {
        memory_open()
    }
}

// How many bytes are written in one call where a reply has no more.
const PACKET: usize = 8192;

// Puts two pieces one behind the other, and says where they end.
fn put_both(into: &mut [u8], front: &[u8], back: &[u8]) -> usize
    requires room { length front.now + length back.now ≤ length into.old }
    ensures end { result ≤ length into.new }
    ensures both { take result into.new ≡ front.now ++ back.now }
{
    let end = front.len() + back.len();
    into[..front.len()].copy_from_slice(front);
    into[front.len()..end].copy_from_slice(back);
    end
}

// Writes two pieces in one call where they fit, so that no peer waits for the second.
fn write_packet<P: Link>(link: &mut P, front: &[u8], back: &[u8]) -> Result<(), Failed>
    requires room { length front.now + length back.now ≤ 8192 }
    ensures ok { OnOk result (P.told link.new ≡ append_known (P.told link.old) (front.now ++ back.now)) }
    ensures err { OnErr result (WrotePart (P.told link.old) (P.told link.new) (front.now ++ back.now)) }
    ensures cause { HasCause (P.write_faults link.old) (P.write_faults link.new) result }
    ensures left { P.left link.new ≡ P.left link.old }
    ensures read_faults { P.read_faults link.new ≡ P.read_faults link.old }
{
    let mut packet = [0; PACKET];
    let end = put_both(&mut packet, front, back);
    write_all(link, &packet[..end])
}

// Writes one piece and then another.
fn write_apart<P: Link>(link: &mut P, front: &[u8], back: &[u8]) -> Result<(), Failed>
    ensures ok { OnOk result (P.told link.new ≡ append_known (P.told link.old) (front.now ++ back.now)) }
    ensures err { OnErr result (WrotePart (P.told link.old) (P.told link.new) (front.now ++ back.now)) }
    ensures cause { HasCause (P.write_faults link.old) (P.write_faults link.new) result }
    ensures left { P.left link.new ≡ P.left link.old }
    ensures read_faults { P.read_faults link.new ≡ P.read_faults link.old }
{
    match write_all(link, front) {
        Ok(()) => match write_all(link, back) {
            Ok(()) => Ok(()),
            Err(Failed) => Err(Failed),
        },
        Err(Failed) => Err(Failed),
    }
}

// Writes one piece and then another, in one call where they fit.
fn write_both<P: Link>(link: &mut P, front: &[u8], back: &[u8]) -> Result<(), Failed>
    ensures ok { OnOk result (P.told link.new ≡ append_known (P.told link.old) (front.now ++ back.now)) }
    ensures err { OnErr result (WrotePart (P.told link.old) (P.told link.new) (front.now ++ back.now)) }
    ensures cause { HasCause (P.write_faults link.old) (P.write_faults link.new) result }
    ensures left { P.left link.new ≡ P.left link.old }
    ensures read_faults { P.read_faults link.new ≡ P.read_faults link.old }
{
    if front.len() <= PACKET && back.len() <= PACKET - front.len() {
        write_packet(link, front, back)
    } else {
        write_apart(link, front, back)
    }
}

// The head and the body of a reply.
fn reply_parts(reply: &Reply, closes: bool) -> (&[u8], &[u8])
    ensures { result.0.now ++ result.1.now ≡ sent reply.now closes }
{
    match reply {
        Reply::Made {
            head,
            head_close,
            body,
            ..
        } => {
            if closes {
                (head_close, body)
            } else {
                (head, body)
            }
        }
        Reply::Memory => (memory_bytes(closes), b""),
    }
}

/// Writes a reply to a link that closes after it or stays open. Takes no memory. `Failed`: the
/// count of write faults rose, and a part of the reply was written, not the whole.
pub fn write_reply<P: Link>(link: &mut P, reply: &Reply, closes: bool) -> Result<(), Failed>
    ensures ok { OnOk result (P.told link.new ≡ append_known (P.told link.old) (sent reply.now closes)) }
    ensures err { OnErr result (WrotePart (P.told link.old) (P.told link.new) (sent reply.now closes)) }
    ensures cause { HasCause (P.write_faults link.old) (P.write_faults link.new) result }
    ensures left { P.left link.new ≡ P.left link.old }
    ensures read_faults { P.read_faults link.new ≡ P.read_faults link.old }
{
    let (front, back) = reply_parts(reply, closes);
    write_both(link, front, back)
}
