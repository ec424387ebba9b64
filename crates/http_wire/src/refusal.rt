// The answers to heads that are refused, which take no memory.
ghost use Rattle.std.specs.Prelude.{◌≡◌, ◌++◌, OnOk, OnErr, true};
ghost use Rattle.std.specs.Io.KnownBytes.{append_known};
ghost use Rattle.outside_io.specs.Faults.{HasCause};
ghost use Rattle.http_wire.specs.Reply.{WrotePart, wire, refusal_answer};

use crate::HeadKind;
use crate::reply::write_all;
use outside_io::{Failed, Link};

const HEAD_TOO_LARGE: &[u8] =
    b"HTTP/1.1 431 Request Header Fields Too Large\r\ncontent-length: 78\r\ncontent-type: application/json\r\nconnection: close\r\n\r\n{\"code\":\"head_too_large\",\"message\":\"Head too large.\",\"type\":\"invalid_request\"}";

const BAD_REQUEST: &[u8] =
    b"HTTP/1.1 400 Bad Request\r\ncontent-length: 72\r\ncontent-type: application/json\r\nconnection: close\r\n\r\n{\"code\":\"bad_request\",\"message\":\"Bad request.\",\"type\":\"invalid_request\"}";

const NOT_IMPLEMENTED: &[u8] =
    b"HTTP/1.1 501 Not Implemented\r\ncontent-length: 75\r\ncontent-type: application/json\r\nconnection: close\r\n\r\n{\"code\":\"not_implemented\",\"message\":\"Coded body.\",\"type\":\"invalid_request\"}";

const LENGTH_REQUIRED: &[u8] =
    b"HTTP/1.1 411 Length Required\r\ncontent-length: 80\r\ncontent-type: application/json\r\nconnection: close\r\n\r\n{\"code\":\"length_required\",\"message\":\"Length required.\",\"type\":\"invalid_request\"}";

const PAYLOAD_TOO_LARGE: &[u8] =
    b"HTTP/1.1 413 Payload Too Large\r\ncontent-length: 81\r\ncontent-type: application/json\r\nconnection: close\r\n\r\n{\"code\":\"payload_too_large\",\"message\":\"Body too large.\",\"type\":\"invalid_request\"}";

fn head_too_large() -> &'static [u8]
    ensures { result.now ≡ wire (refusal_answer HeadKind.HeadTooLong) true }
{
    HEAD_TOO_LARGE
}

fn bad_request() -> &'static [u8]
    ensures { result.now ≡ wire (refusal_answer HeadKind.Malformed) true }
{
    BAD_REQUEST
}

fn not_implemented() -> &'static [u8]
    ensures { result.now ≡ wire (refusal_answer HeadKind.Coded) true }
{
    NOT_IMPLEMENTED
}

fn length_required() -> &'static [u8]
    ensures { result.now ≡ wire (refusal_answer HeadKind.NoLength) true }
{
    LENGTH_REQUIRED
}

fn payload_too_large() -> &'static [u8]
    ensures { result.now ≡ wire (refusal_answer HeadKind.BodyTooLarge) true }
{
    PAYLOAD_TOO_LARGE
}

// The bytes of the answer to a head that is refused.
fn refusal(kind: HeadKind) -> &'static [u8]
    ensures { result.now ≡ wire (refusal_answer kind) true }
{
    match kind {
        HeadKind::HeadTooLong | HeadKind::TooManyHeaders => head_too_large(),
        HeadKind::Malformed => bad_request(),
        HeadKind::Coded => not_implemented(),
        HeadKind::NoLength => length_required(),
        HeadKind::BodyTooLarge => payload_too_large(),
    }
}

/// Writes the answer to a head that is refused, which closes the link: 431, 400, 501, 411 or 413 as
/// `HeadKind` says. Takes no memory. `Failed`: the count of write faults rose, and a part of the
/// answer was written, not the whole.
pub fn write_refusal<P: Link>(link: &mut P, kind: HeadKind) -> Result<(), Failed>
    ensures ok { OnOk result (P.told link.new ≡ append_known (P.told link.old) (wire (refusal_answer kind) true)) }
    ensures err { OnErr result (WrotePart (P.told link.old) (P.told link.new) (wire (refusal_answer kind) true)) }
    ensures cause { HasCause (P.write_faults link.old) (P.write_faults link.new) result }
    ensures left { P.left link.new ≡ P.left link.old }
    ensures read_faults { P.read_faults link.new ≡ P.read_faults link.old }
{
    match write_all(link, refusal(kind)) {
        Ok(()) => Ok(()),
        Err(Failed) => Err(Failed),
    }
}
