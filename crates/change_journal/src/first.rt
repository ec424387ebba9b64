ghost use Rattle.std.specs.Prelude.{◌≡◌, ◌+◌, ◌<◌, ◌≤◌, ◌^◌, [], ◌∷◌, ◌++◌, OnOk, OnErr, length};
ghost use Rattle.change_journal.specs.First.{First, AreShort, gate_or, journal_bytes};

use crate::making::put_record;
use search_base::NoMemory;
use std::alloc::Global;
use std::marker::Model;

/// The payloads with which a journal begins, in order, and the number of the first: what a checkpoint
/// writes behind its image. All memory that the checkpoint needs for them is taken here, and none
/// where there are none.
#[derive(Drop)]
pub struct FirstJournal {
    number: u64,
    count: u64,
    // A record behind an open gate for each payload, and a shut gate; nothing where there is no payload.
    bytes: Vec<u8>,
}

impl Model for FirstJournal {
    ghost use Rattle.change_journal.specs.First.{First, first_in, IsFirst};

    ghost Value = { First };

    ghost view = { λ f. first_in f.number f.bytes.items };

    ghost invariant = { λ f. IsFirst f.number f.bytes.items f.count };
}

impl FirstJournal {
    /// No payload; the first will have this number. It takes no memory.
    pub fn new(alloc: Global, number: u64) -> FirstJournal
        ensures { result ≡ record { number = number; payloads = [] } }
    {
        FirstJournal {
            number,
            count: 0,
            bytes: Vec::new(alloc),
        }
    }

    /// Adds a payload behind the others. `NoMemory`: all is as it was.
    pub fn add(&mut self, payload: &[u8]) -> Result<(), NoMemory>
        requires short { length payload.now < 2 ^ 32 }
        requires room { self.old.number + length self.old.payloads < 2 ^ 64 }
        ensures added { OnOk result (self.new ≡ record { number = self.old.number; payloads = self.old.payloads ++ payload.now ∷ [] }) }
        ensures stays { OnErr result (self.new ≡ self.old) }
    {
        keep_gate(&mut self.bytes)?;
        let gate = self.bytes.len() - 1;
        put_record(&mut self.bytes, self.number + self.count, payload)?;
        self.bytes[gate] = 1;
        self.count += 1;
        Ok(())
    }

    // What is written behind an image.
    pub(crate) fn bytes(&self) -> &[u8]
        ensures bytes { result.now ≡ journal_bytes self.now.number self.now.payloads }
        ensures short { AreShort self.now.payloads }
        ensures small { self.now.number + length self.now.payloads ≤ 2 ^ 64 }
    {
        if self.bytes.is_empty() {
            return &[0];
        }
        &self.bytes
    }
}

// Keeps the gate of a journal that has no payload yet. On an error all is as it was.
#[tactic(auto, using(crate::proofs::Firsts::gate_stands))]
fn keep_gate(bytes: &mut Vec<u8>) -> Result<(), NoMemory>
    ensures kept { OnOk result (bytes.new.items ≡ gate_or bytes.old.items) }
    ensures stays { OnErr result (bytes.new.items ≡ bytes.old.items) }
{
    if bytes.is_empty() {
        bytes.push(0)?;
    }
    Ok(())
}
