// The bytes that were read from a link and are not yet used.
ghost use Rattle.std.specs.Prelude.{◌≡◌, ◌+◌, ◌<◌, ◌≤◌, length, IsTrue, IsFalse, IfOk, IfErr, OnOk, OnErr, take, drop, []};
ghost use Rattle.std.specs.Io.{StartsWith};
ghost use Rattle.std.specs.Io.KnownBytes.{prepend_known};
ghost use Rattle.outside_io.specs.Bytes.{IsSpent};
ghost use Rattle.http_wire.specs.Stops.{FillStops};

use crate::WireEnd;
use outside_io::{Failed, Link};
use search_base::NoMemory;
use std::alloc::Global;
use std::marker::Model;
use std::mem;

// How much is asked of a link at a time.
const CHUNK: usize = 16384;

/// The bytes that were read from a link and are not yet used.
#[derive(Drop)]
pub struct Kept {
    buffer: Vec<u8>,
    // What stands before this place is used up. It is dropped before the next read, and so at most
    // once a request, when nothing but a part of that request is left to be moved.
    at: usize,
}

impl Model for Kept {
    ghost use Rattle.std.specs.Prelude.{List, ℕ, drop, length, ◌≤◌};

    ghost Value = { List ℕ };

    ghost view = { λ k. drop k.at k.buffer.items };

    ghost invariant = { λ k. k.at ≤ length k.buffer.items };
}

// Drops the front of the bytes.
fn drop_front(bytes: &mut Vec<u8>, count: usize)
    requires { count ≤ length bytes.old.items }
    ensures { bytes.new.items ≡ drop count bytes.old.items }
{
    if count > 0 {
        let left = bytes.len() - count;
        bytes.copy_within(count.., 0);
        bytes.truncate(left);
    }
}

// Reads once onto the end of the bytes, and says whether there was something.
fn read_onto<P: Link>(bytes: &mut Vec<u8>, link: &mut P) -> Result<bool, WireEnd>
    ensures same { prepend_known bytes.new.items (P.left link.new) ≡ prepend_known bytes.old.items (P.left link.old) }
    ensures grows { IfOk result (λ more. IsTrue more → length bytes.old.items < length bytes.new.items) }
    ensures spent { IfOk result (λ more. IsFalse more → IsSpent (P.left link.new) × (bytes.new.items ≡ bytes.old.items)) }
    ensures err { OnErr result (bytes.new.items ≡ bytes.old.items) }
    ensures front { StartsWith bytes.new.items bytes.old.items }
    ensures cause { IfErr result (FillStops (P.read_faults link.old) (P.read_faults link.new)) }
    ensures later { P.read_faults link.old ≤ P.read_faults link.new }
    ensures told { P.told link.new ≡ P.told link.old }
    ensures write_faults { P.write_faults link.new ≡ P.write_faults link.old }
{
    // The room is made first, so that what was read is never lost.
    if bytes.reserve(CHUNK).is_err() {
        return Err(WireEnd::NoMemory);
    }
    let mut chunk = [0; CHUNK];
    match link.read(&mut chunk) {
        Err(Failed) => Err(WireEnd::ReadFault),
        Ok(count) => {
            if count == 0 {
                return Ok(false);
            }
            match bytes.extend_from_slice(&chunk[..count]) {
                Ok(()) => Ok(true),
                Err(_) => unreachable!(),
            }
        }
    }
}

impl Kept {
    /// No bytes yet.
    pub fn new(alloc: Global) -> Result<Kept, NoMemory>
        ensures { IfOk result (λ kept. kept ≡ []) }
    {
        Ok(Kept {
            buffer: Vec::new(alloc),
            at: 0,
        })
    }

    pub(crate) fn len(&self) -> usize
        ensures { result ≡ length self.now }
    {
        self.buffer.len() - self.at
    }

    pub(crate) fn bytes(&self) -> &[u8]
        ensures { result.now ≡ self.now }
    {
        &self.buffer[self.at..]
    }

    // Reads once, and says whether there was something.
    pub(crate) fn fill<P: Link>(&mut self, link: &mut P) -> Result<bool, WireEnd>
        ensures same { prepend_known self.new (P.left link.new) ≡ prepend_known self.old (P.left link.old) }
        ensures grows { IfOk result (λ more. IsTrue more → length self.old < length self.new) }
        ensures spent { IfOk result (λ more. IsFalse more → IsSpent (P.left link.new) × (self.new ≡ self.old)) }
        ensures err { OnErr result (self.new ≡ self.old) }
        ensures front { StartsWith self.new self.old }
        ensures cause { IfErr result (FillStops (P.read_faults link.old) (P.read_faults link.new)) }
        ensures later { P.read_faults link.old ≤ P.read_faults link.new }
        ensures told { P.told link.new ≡ P.told link.old }
        ensures write_faults { P.write_faults link.new ≡ P.write_faults link.old }
    {
        drop_front(&mut self.buffer, self.at);
        self.at = 0;
        read_onto(&mut self.buffer, link)
    }

    // Makes room for so many bytes in all and one more read, so that a long body is copied once.
    pub(crate) fn make_room(&mut self, size: usize) -> Result<(), NoMemory>
        ensures { self.new ≡ self.old }
    {
        drop_front(&mut self.buffer, self.at);
        self.at = 0;
        let missing = size.saturating_sub(self.buffer.len());
        if missing > 0 {
            self.buffer.reserve(missing.saturating_add(CHUNK))?;
        }
        Ok(())
    }

    // Takes the first `start + size` bytes away, and gives the last `size` of them.
    pub(crate) fn take_body(
        &mut self,
        alloc: Global,
        start: usize,
        size: usize,
    ) -> Result<Vec<u8>, NoMemory>
        requires { start + size ≤ length self.old }
        ensures body { IfOk result (λ body. body.items ≡ take size (drop start self.old)) }
        ensures rest { OnOk result (self.new ≡ drop (start + size) self.old) }
        ensures err { OnErr result (self.new ≡ self.old) }
    {
        if size < CHUNK {
            self.copy_body(alloc, start, size)
        } else {
            self.split_body(alloc, start, size)
        }
    }

    // Copies a short body, and leaves what follows where it is.
    fn copy_body(&mut self, alloc: Global, start: usize, size: usize) -> Result<Vec<u8>, NoMemory>
        requires { start + size ≤ length self.old }
        ensures body { IfOk result (λ body. body.items ≡ take size (drop start self.old)) }
        ensures rest { OnOk result (self.new ≡ drop (start + size) self.old) }
        ensures err { OnErr result (self.new ≡ self.old) }
    {
        let from = self.at + start;
        let body = self.buffer[from..from + size].to_vec(alloc)?;
        self.at = from + size;
        Ok(body)
    }

    // Gives the buffer itself for a long body, and copies what follows, which is short beside it.
    fn split_body(&mut self, alloc: Global, start: usize, size: usize) -> Result<Vec<u8>, NoMemory>
        requires { start + size ≤ length self.old }
        ensures body { IfOk result (λ body. body.items ≡ take size (drop start self.old)) }
        ensures rest { OnOk result (self.new ≡ drop (start + size) self.old) }
        ensures err { OnErr result (self.new ≡ self.old) }
    {
        let from = self.at + start;
        let rest = self.buffer[from + size..].to_vec(alloc)?;
        let mut body = mem::replace(&mut self.buffer, rest);
        self.at = 0;
        body.truncate(from + size);
        drop_front(&mut body, from);
        Ok(body)
    }
}
