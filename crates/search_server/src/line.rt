// What is told of a link that was served.
ghost use Rattle.std.specs.Prelude.{◌≡◌, ◌+◌, ◌++◌, ◌≤◌, length, take, decimal, OnOk, OnErr};
ghost use Rattle.std.specs.Io.KnownBytes.{append_known};
ghost use Rattle.outside_io.specs.Faults.{HasCause};
ghost use Rattle.http_wire.specs.Reply.{WrotePart};
ghost use Rattle.search_server.specs.Lines.{line_end as end_of_line, link_line};

use crate::LinkEnd;
use http_wire::write_all;
use itoa::Buffer;
use outside_io::{Failed, Link};

// Puts a piece behind what stands in the first `at` bytes, and says where it ends.
fn put(into: &mut [u8], at: usize, piece: &[u8]) -> usize
    requires room { at + length piece.now ≤ length into.old }
    ensures end { result ≡ at + length piece.now }
    ensures front { take result into.new ≡ take at into.old ++ piece.now }
    ensures size { length into.new ≡ length into.old }
{
    let end = at + piece.len();
    into[at..end].copy_from_slice(piece);
    end
}

// Puts a number in decimal digits behind what stands there.
fn put_number(into: &mut [u8], at: usize, number: u64) -> usize
    requires room { at + 20 ≤ length into.old }
    ensures end { result ≤ at + 20 }
    ensures front { take result into.new ≡ take at into.old ++ decimal number }
    ensures size { length into.new ≡ length into.old }
{
    put(into, at, Buffer::new().format(number).as_bytes())
}

// How a line ends, by whether a batch was put off.
fn line_end(put_off: bool) -> &'static [u8]
    ensures end { result.now ≡ end_of_line put_off }
    ensures size { length result.now ≤ 9 }
{
    if put_off { b" put off\n" } else { b"\n" }
}

/// Tells how a link ended, in a line of its own. It takes no memory. `Failed`: the count of write faults rose, and a
/// part of the line was written, not the whole.
pub fn write_line<P: Link>(pipe: &mut P, number: u64, end: &LinkEnd) -> Result<(), Failed>
    ensures ok { OnOk result (P.told pipe.new ≡ append_known (P.told pipe.old) (link_line number end.now)) }
    ensures err { OnErr result (WrotePart (P.told pipe.old) (P.told pipe.new) (link_line number end.now)) }
    ensures cause { HasCause (P.write_faults pipe.old) (P.write_faults pipe.new) result }
    ensures left { P.left pipe.new ≡ P.left pipe.old }
    ensures read_faults { P.read_faults pipe.new ≡ P.read_faults pipe.old }
{
    let mut line = [0; 96];
    let at = put(&mut line, 0, b"link ");
    let at = put_number(&mut line, at, number);
    let at = put(&mut line, at, b" status ");
    let at = put_number(&mut line, at, end.status.number() as u64);
    let at = put(&mut line, at, b" requests ");
    let at = put_number(&mut line, at, end.requests);
    let at = put(&mut line, at, line_end(end.put_off));
    write_all(pipe, &line[..at])
}
