ghost use Rattle.std.specs.Prelude.{◌≡◌, ◌⊎◌, ◌↔◌, ◌+◌, ◌-◌, ◌^◌, ◌<◌, ◌≤◌, [], Some, IfOk, OnOk, OnErr, IsErr, IsTrue, Contains, min, length, take, drop, ◌++◌};
ghost use Rattle.outside_io.specs.Bytes.{Reads, Writes};
ghost use Rattle.outside_io.specs.Faults.{HasCause, more_faults};
ghost use Rattle.outside_io.specs.MemoryLink.{MemoryLinkState, new_link};

use crate::{Failed, Link};
use search_base::NoMemory;
use std::alloc::Global;
use std::marker::Model;

/// A link in memory, which tells its bytes, fails at the calls that it is told, and may give and
/// take few bytes at a time.
#[derive(Drop)]
pub struct MemoryLink {
    input: Vec<u8>,
    at: usize,
    output: Vec<u8>,
    failing: Vec<u64>,
    most: usize,
    calls: u64,
    read_faults: u64,
    write_faults: u64,
    starved: u64,
}

impl Model for MemoryLink {
    ghost use Rattle.std.specs.Prelude.{◌<◌, ◌≤◌, drop, length};
    ghost use Rattle.outside_io.specs.MemoryLink.{MemoryLinkState};

    ghost Value = { MemoryLinkState };

    ghost view = { λ m. record {
      left = drop m.at m.input.items;
      written = m.output.items;
      failing = m.failing.items;
      most = m.most;
      calls = m.calls;
      read_faults = m.read_faults;
      write_faults = m.write_faults;
      starved = m.starved;
    } };

    ghost invariant = { λ m. (m.at ≤ length m.input.items) × (0 < m.most) };
}

impl MemoryLink {
    /// A link that gives these bytes, and fails at the calls of these numbers, counted over reads
    /// and writes together from 0.
    pub fn new(alloc: Global, input: Vec<u8>, failing: Vec<u64>) -> Result<MemoryLink, NoMemory>
        ensures { IfOk result (λ link. link ≡ new_link input.items failing.items (2 ^ 64 - 1)) }
    {
        MemoryLink::paced(alloc, input, failing, usize::MAX)
    }

    /// The same, where each read gives and each write takes at most `most` bytes, 1 or more.
    pub fn paced(
        alloc: Global,
        input: Vec<u8>,
        failing: Vec<u64>,
        most: usize,
    ) -> Result<MemoryLink, NoMemory>
        requires { 0 < most }
        ensures { IfOk result (λ link. link ≡ new_link input.items failing.items most) }
    {
        Ok(MemoryLink {
            input,
            at: 0,
            output: Vec::new(alloc),
            failing,
            most,
            calls: 0,
            read_faults: 0,
            write_faults: 0,
            starved: 0,
        })
    }

    /// The bytes written so far.
    pub fn written(&self) -> &[u8]
        ensures { result.now ≡ self.now.written }
    {
        &self.output
    }

    /// How many writes failed for want of memory. They count among the faults too.
    pub fn starved(&self) -> u64
        ensures { result ≡ self.now.starved }
    {
        self.starved
    }

    // Counts a write that fails.
    fn fails(&mut self) -> Failed
        ensures { self.new ≡ record self.old { write_faults = min (self.old.write_faults + 1) (2 ^ 64 - 1) } }
    {
        self.write_faults = self.write_faults.saturating_add(1);
        Failed
    }

    // Counts a write that finds no memory.
    fn starves(&mut self) -> Failed
        ensures { self.new ≡ record self.old {
          write_faults = min (self.old.write_faults + 1) (2 ^ 64 - 1);
          starved = min (self.old.starved + 1) (2 ^ 64 - 1);
        } }
    {
        self.write_faults = self.write_faults.saturating_add(1);
        self.starved = self.starved.saturating_add(1);
        Failed
    }
}

// Whether the call of this number is to fail.
pub(crate) fn is_listed(failing: &[u64], call: u64) -> bool
    ensures { IsTrue result ↔ Contains failing.now call }
{
    failing.contains(&call)
}

// Copies the front of what is left into a slice, and says how much.
fn give(rest: &[u8], into: &mut [u8], most: usize) -> usize
    requires room { 0 < length into.old }
    requires some { 0 < most }
    ensures count { result ≡ min (min (length rest.now) (length into.new)) most }
    ensures front { rest.now ≡ take result into.new ++ drop result rest.now }
    ensures spent { result ≡ 0 → rest.now ≡ [] }
{
    let count = rest.len().min(into.len()).min(most);
    into[..count].copy_from_slice(&rest[..count]);
    count
}

impl Link for MemoryLink {
    ghost left = { λ m. Some m.left };

    ghost told = { λ m. Some m.written };

    ghost read_faults = { λ m. m.read_faults };

    ghost write_faults = { λ m. m.write_faults };

    fn read(&mut self, into: &mut [u8]) -> Result<usize, Failed>
        requires { 0 < length into.old }
        ensures bytes { Reads (Some self.old.left) (Some self.new.left) result into.new }
        ensures cause { HasCause self.old.read_faults self.new.read_faults result }
        ensures told { Some self.new.written ≡ Some self.old.written }
        ensures write_faults { self.new.write_faults ≡ self.old.write_faults }
        // It gives as much as there is, as there is room for, and as its pace allows.
        ensures count { IfOk result (λ n. n ≡ min (min (length self.old.left) (length into.new)) self.old.most) }
        // It fails exactly where its number is listed.
        ensures listed { IsErr result ↔ Contains self.old.failing self.old.calls }
        ensures rest { self.new ≡ record self.old {
          left = self.new.left;
          calls = min (self.old.calls + 1) (2 ^ 64 - 1);
          read_faults = more_faults self.old.read_faults result;
        } }
    {
        let listed = is_listed(&self.failing, self.calls);
        self.calls = self.calls.saturating_add(1);
        if listed {
            self.read_faults = self.read_faults.saturating_add(1);
            return Err(Failed);
        }
        let count = give(&self.input[self.at..], into, self.most);
        self.at += count;
        Ok(count)
    }

    fn write(&mut self, piece: &[u8]) -> Result<usize, Failed>
        requires { 0 < length piece.now }
        ensures bytes { Writes (Some self.old.written) (Some self.new.written) result piece.now }
        ensures cause { HasCause self.old.write_faults self.new.write_faults result }
        ensures left { Some self.new.left ≡ Some self.old.left }
        ensures read_faults { self.new.read_faults ≡ self.old.read_faults }
        // It takes as much as its pace allows.
        ensures count { IfOk result (λ n. n ≡ min (length piece.now) self.old.most) }
        // It fails where its number is listed, and otherwise only for want of memory.
        ensures named { Contains self.old.failing self.old.calls → IsErr result }
        ensures listed { OnErr result (Contains self.old.failing self.old.calls
            ⊎ (self.new.starved ≡ min (self.old.starved + 1) (2 ^ 64 - 1))) }
        ensures fed { OnOk result (self.new.starved ≡ self.old.starved) }
        ensures named_fed { Contains self.old.failing self.old.calls → self.new.starved ≡ self.old.starved }
        ensures rest { self.new ≡ record self.old {
          written = self.new.written;
          calls = min (self.old.calls + 1) (2 ^ 64 - 1);
          write_faults = more_faults self.old.write_faults result;
          starved = self.new.starved;
        } }
    {
        let listed = is_listed(&self.failing, self.calls);
        self.calls = self.calls.saturating_add(1);
        if listed {
            return Err(self.fails());
        }
        let count = piece.len().min(self.most);
        match self.output.extend_from_slice(&piece[..count]) {
            Ok(()) => Ok(count),
            Err(_) => Err(self.starves()),
        }
    }
}
