// One turn of a link: one request and its reply.
ghost use Rattle.std.specs.Prelude.{◌≡◌, ◌≢◌, ◌⊎◌, ◌==◌, ◌||◌, ◌<◌, ◌≤◌, ◌+◌, true, false, [], Option, IfSome, OnOk, OnErr, if◌then◌else◌};
ghost use Rattle.std.specs.Io.KnownBytes.{prepend_known};
ghost use Rattle.outside_io.specs.Disks.{Contents};
ghost use Rattle.change_journal.specs.Shut.{is_told};
ghost use Rattle.queued_changes.specs.State.{accepted};
ghost use Rattle.queued_changes.specs.Machine.{settle};
ghost use Rattle.named_indexes.specs.Changes.{changed};
ghost use Rattle.search_routes.specs.Needs.{batch_need};
ghost use Rattle.durable_machine.specs.Durable.{IsDurable};
ghost use Rattle.bucket_sort.specs.Opens.{log_state};
ghost use Rattle.search_server.specs.LinkState.{link_state, shared_state};
ghost use Rattle.search_server.specs.Passed.{PassedIfDue};
ghost use Rattle.search_server.specs.Turns.{TurnIs, end_by};

use crate::{LinkEnd, Status};
use bucket_sort::BucketLog;
use durable_machine::{Answered, DurableMachine};
use http_wire::{HeadKind, Kept, WireEnd, read_request, write_refusal, write_reply};
use outside_io::{Disk, Failed, Link};
use search_base::{NoMemory, Steps};
use std::alloc::Global;

/// What a turn came to.
#[derive(Clone, Copy)]
pub enum Turn {
    /// A reply was written, and another request may come.
    Next,
    /// A reply was written to a request that asked to close.
    Closed,
    /// A reply was written, and the batch of tasks behind it found no memory.
    PutOff,
    End,
    CutShort { rest: u64 },
    /// A head was refused, and the answer to it was written.
    Bad { kind: HeadKind, number: u64 },
    ReadFault,
    /// A request was taken, and its reply was not written whole.
    ReplyFault,
    /// A head was refused, and the answer to it was not written whole.
    RefusalFault { kind: HeadKind, number: u64 },
    /// A request was taken, and a disk failed before its reply was begun.
    DiskFault,
    NoMemory,
}

impl Turn {
    /// How a link ends by this turn, where `before` requests were read before it and `passed` checkpoints were passed
    /// over up to now. None where another request may come.
    pub fn end(self, before: u64, passed: u64) -> Option<LinkEnd>
        requires { before < 1000000 }
        ensures turn { result ≡ end_by before passed self }
        ensures passed { IfSome result (λ end. end.passed ≡ passed) }
    {
        let put_off = matches!(self, Turn::PutOff);
        let (status, requests) = match self {
            Turn::Next => return None,
            Turn::Closed => (Status::Done, before + 1),
            Turn::PutOff => (Status::NoMemory, before + 1),
            Turn::End => (Status::Done, before),
            Turn::CutShort { rest } => (Status::CutShort { rest }, before),
            Turn::Bad { kind, number } => (Status::BadHead { kind, number }, before),
            Turn::ReadFault => (Status::ReadFault, before),
            Turn::ReplyFault => (Status::WriteFault, before + 1),
            Turn::RefusalFault { .. } => (Status::WriteFault, before),
            Turn::DiskFault => (Status::DiskFault, before + 1),
            Turn::NoMemory => (Status::NoMemory, before),
        };
        Some(LinkEnd {
            status,
            requests,
            passed,
            put_off,
        })
    }
}

// Whether a reply says that the link closes, where `left` requests may still come.
fn says_close(closes: bool, left: u64) -> bool
    ensures { result ≡ (closes || left == 1) }
{
    closes || left == 1
}

// Counts a checkpoint where it was passed over.
fn count(passed: &mut u64, is_passed: bool)
    ensures counted { is_passed ≡ true → 0 < passed.new }
    ensures later { passed.old ≤ passed.new }
    ensures most { passed.new ≤ passed.old + 1 }
    ensures none { is_passed ≡ false → passed.new ≡ passed.old }
{
    if is_passed {
        *passed = passed.saturating_add(1);
    }
}

// Runs the oldest batch of tasks where it comes behind the reply. Its error is want of memory: the batch waits, and all
// is as it was.
fn follow<F>(
    alloc: Global,
    machine: &mut DurableMachine,
    follows: bool,
    fetches: &mut Steps<F>,
) -> Result<(), NoMemory>
    ensures ran { OnOk result (machine.new.machine
        ≡ (if follows then settle changed machine.old.machine else machine.old.machine)) }
    ensures stays { OnErr result (machine.new.machine ≡ machine.old.machine) }
    ensures waits { OnErr result (machine.old.machine.queue ≢ []) }
    ensures journal { machine.new.journal ≡ machine.old.journal }
    ensures accepted { accepted machine.new.machine ≡ accepted machine.old.machine }
    ensures durable { (a b : Option Contents) → IsDurable machine.old a b → IsDurable machine.new a b }
    ensures fetched { fetches.new ≤ fetches.old + (if follows then batch_need machine.old.machine else 0) }
{
    if follows {
        machine.settle(alloc, fetches)?;
    }
    Ok(())
}

/// Reads one request and writes its reply, where `left` requests may still come. The reply is begun only once the
/// request is recorded, and behind one that is neither 202 nor the one for want of memory the oldest batch of tasks
/// runs. `passed` counts the checkpoints that are due and were passed over. The log is told each bucket that the
/// request opens.
pub fn serve_one<P: Link, K: Disk, F, G>(
    alloc: Global,
    machine: &mut DurableMachine,
    link: &mut P,
    disk_a: &mut K,
    disk_b: &mut K,
    kept: &mut Kept,
    left: u64,
    passed: &mut u64,
    log: &mut Box<dyn BucketLog>,
    fetches: &mut Steps<F>,
    openings: &mut Steps<G>,
) -> Turn
    requires durable { IsDurable machine.old (K.contents disk_a.old) (K.contents disk_b.old) }
    ensures turn { TurnIs left
        (link_state (λ l. prepend_known kept.old (P.left l)) P.told P.read_faults P.write_faults link.old
        (shared_state K.contents K.disk_faults machine.old.machine fetches.old
        (log_state ((BucketLog-box log.old).told log.old.value) openings.old) disk_a.old disk_b.old))
        (link_state (λ l. prepend_known kept.new (P.left l)) P.told P.read_faults P.write_faults link.new
        (shared_state K.contents K.disk_faults machine.new.machine fetches.new
        (log_state ((BucketLog-box log.new).told log.new.value) openings.new) disk_a.new disk_b.new))
        kept.new result }
    ensures durable { (result ≡ Turn.DiskFault) ⊎ IsDurable machine.new (K.contents disk_a.new) (K.contents disk_b.new) }
    ensures due { (result ≡ Turn.DiskFault) ⊎ PassedIfDue machine.old machine.new passed.new }
    ensures passed { passed.old ≤ passed.new }
    ensures passed_few { passed.new + accepted machine.old.machine ≤ passed.old + accepted machine.new.machine }
    ensures read_later { P.read_faults link.old ≤ P.read_faults link.new }
    ensures write_later { P.write_faults link.old ≤ P.write_faults link.new }
    ensures told_a { is_told (K.contents disk_a.new) ≡ is_told (K.contents disk_a.old) }
    ensures told_b { is_told (K.contents disk_b.new) ≡ is_told (K.contents disk_b.old) }
    ensures later_a { K.disk_faults disk_a.old ≤ K.disk_faults disk_a.new }
    ensures later_b { K.disk_faults disk_b.old ≤ K.disk_faults disk_b.new }
{
    match read_request(alloc, link, kept) {
        Err(WireEnd::End) => Turn::End,
        Err(WireEnd::CutShort { rest }) => Turn::CutShort { rest },
        Err(WireEnd::Bad { kind, number }) => match write_refusal(link, kind) {
            Ok(()) => Turn::Bad { kind, number },
            Err(Failed) => Turn::RefusalFault { kind, number },
        },
        Err(WireEnd::ReadFault) => Turn::ReadFault,
        Err(WireEnd::NoMemory) => Turn::NoMemory,
        Ok(wire) => {
            let closes = wire.closes;
            match machine.answer(alloc, wire, disk_a, disk_b, log, fetches, openings) {
                Err(Failed) => Turn::DiskFault,
                Ok(
                    Answered {
                        reply,
                        passed: is_passed,
                        follows,
                    },
                ) => {
                    count(passed, is_passed);
                    match write_reply(link, &reply, says_close(closes, left)) {
                        Err(Failed) => Turn::ReplyFault,
                        Ok(()) => match follow(alloc, machine, follows, fetches) {
                            Err(NoMemory) => Turn::PutOff,
                            Ok(()) => { if closes { Turn::Closed } else { Turn::Next } }
                        },
                    }
                }
            }
        }
    }
}
