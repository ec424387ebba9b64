ghost use Rattle.std.specs.Prelude.{◌≡◌, ◌+◌, ◌≤◌, Bool};
ghost use Rattle.bucket_sort.specs.Opens.{log_state};
ghost use Rattle.document_changes.specs.Changes.{change_view};
ghost use Rattle.http_wire.specs.Sent.{IsSentAs, status_of};
ghost use Rattle.http_wire.specs.Stream.{Request};
ghost use Rattle.http_wire.specs.Wire.{request_of};
ghost use Rattle.request_calls.specs.Asked.{write};
ghost use Rattle.request_calls.specs.Calls.{IsAccepted, IsCall, OnChange, call_of};
ghost use Rattle.request_calls.specs.Refusals.{refused};
ghost use Rattle.search_routes.specs.Chosen.{answer_of, is_followed as is_followed_by, or_memory};
ghost use Rattle.search_routes.specs.Done.{Answered, Answers, Leaves, Performs, held_most, held_need, noted};
ghost use Rattle.search_routes.specs.Machine.{performed};
ghost use Rattle.search_routes.specs.Needs.{change_need, needed_fetches};
ghost use Rattle.search_routes.specs.Openings.{most_opened_by};
ghost use Rattle.search_routes.specs.State.{State};

use crate::asking::ask;
use crate::machine::Machine;
use bucket_sort::BucketLog;
use document_changes::Change;
use http_wire::{Reply, Wire};
use request_calls::{Call, refusal_reply};
use request_refusals::Refusal;
use search_base::{Fault, Steps};
use std::alloc::Global;

/// Answers one request.
///
/// The reply and the state after it are those of `step` in specs/Machine.antt; or there was no memory, the reply says
/// so and the machine is as it was. The request is let go, with its body, before its call is performed. `fetches`
/// counts the stored documents that are read: at most those that the request needs, by specs/Needs.antt. The log is
/// told each bucket that the request opens, by specs/Openings.antt, and `openings` counts them. No batch runs behind
/// the reply: where `is_followed` says so one is to, by `Machine::settle`.
///
/// The `requires` asks nothing of the caller: it keeps a body from putting a log of its own in the place of the one
/// that is handed in, so that callers know theirs to be the same.
pub fn answer<F, G>(
    alloc: Global,
    machine: &mut Machine,
    wire: Wire,
    log: &mut Box<dyn BucketLog>,
    fetches: &mut Steps<F>,
    openings: &mut Steps<G>,
) -> Reply
    requires { Unit {0} }
    ensures answered { Answered (noted machine.old (log_state (told log.old) openings.old)) (request_of wire) result
        (noted machine.new (log_state (told log.new) openings.new)) }
    ensures fetched { fetches.new ≤ fetches.old + needed_fetches machine.old (request_of wire) }
    ensures few { openings.new ≤ openings.old + most_opened_by machine.old (request_of wire) }
{
    match ask(alloc, machine.table(), wire) {
        Ok(call) => perform(alloc, machine, call, log, fetches, openings),
        Err(_) => Reply::Memory,
    }
}

/// Performs a call, of which a change is one that `read_call` accepts.
///
/// The reply and the state after it are those of `performed` in specs/Machine.antt; or there was no memory, the reply
/// says so and the machine is as it was. A call that is refused gives its own reply and changes nothing. A change is
/// accepted: it takes its memory, that of its reply too, before room is made for its task, and the task waits.
/// `fetches` counts the stored documents that are read: at most those that the call needs, by specs/Needs.antt. The log
/// is told each bucket that the call opens, by specs/Openings.antt, and `openings` counts them; a change opens none.
pub fn perform<F, G>(
    alloc: Global,
    machine: &mut Machine,
    call: Call,
    log: &mut Box<dyn BucketLog>,
    fetches: &mut Steps<F>,
    openings: &mut Steps<G>,
) -> Reply
    requires accepted { OnChange IsAccepted call }
    ensures performed { Performs (noted machine.old (log_state (told log.old) openings.old)) call result
        (noted machine.new (log_state (told log.new) openings.new)) }
    ensures answered { (q : Request) → IsCall call (call_of q) → Answered
        (noted machine.old (log_state (told log.old) openings.old)) q result
        (noted machine.new (log_state (told log.new) openings.new)) }
    ensures fetched { fetches.new ≤ fetches.old + held_need machine.old call }
    ensures needed { (q : Request) → IsCall call (call_of q)
        → fetches.new ≤ fetches.old + needed_fetches machine.old q }
    ensures few { openings.new ≤ openings.old + held_most machine.old call }
    ensures few_for { (q : Request) → IsCall call (call_of q)
        → openings.new ≤ openings.old + most_opened_by machine.old q }
{
    match call {
        Call::Refused(reply) => reply,
        Call::Write(change) => accept(alloc, machine, &change, fetches),
        Call::Read(call) => machine.read(alloc, call, log, fetches, openings),
    }
}

// Accepts a change: its task waits.
fn accept<F>(alloc: Global, machine: &mut Machine, change: &Change, fetches: &mut Steps<F>) -> Reply
    requires accepted { IsAccepted (change_view change.now) }
    ensures made { Leaves machine.old (performed machine.old (write (change_view change.now))) result machine.new }
    ensures fetched { fetches.new ≤ fetches.old + change_need machine.old }
{
    let prepared = match machine.prepare_task(alloc, change) {
        Ok(prepared) => prepared,
        Err(reply) => return reply,
    };
    match machine.make_room(alloc, fetches) {
        Ok(()) => machine.enqueue(prepared),
        Err(_) => Reply::Memory,
    }
}

/// Whether the oldest batch is to run behind this reply to a request: it does so behind each but one of status 202, and
/// the one for want of memory. Takes no memory.
pub fn is_followed(reply: &Reply) -> bool
    ensures { (s : State) (q : Request) (starved : Bool) → IsSentAs reply.now (answer_of s q starved)
        → result ≡ is_followed_by s q starved }
{
    match reply {
        Reply::Made { status, .. } => *status != 202 && *status != 503,
        Reply::Memory => false,
    }
}

/// The reply to what was done, or to why it was not.
pub(crate) fn reply_to(alloc: Global, done: Result<Reply, Fault<Refusal>>) -> Reply
    ensures { Answers done result }
{
    match done {
        Ok(reply) => reply,
        Err(Fault::Refused(refusal)) => refusal_or_memory(alloc, &refusal),
        Err(Fault::NoMemory) => Reply::Memory,
    }
}

fn refusal_or_memory(alloc: Global, refusal: &Refusal) -> Reply
    ensures { (starved : Bool) × IsSentAs result (or_memory (refused refusal.now) starved) }
{
    match refusal_reply(alloc, refusal) {
        Ok(reply) => reply,
        Err(_) => Reply::Memory,
    }
}
