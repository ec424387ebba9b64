// Changes as tasks: a new one, and one that was recorded.
ghost use Rattle.std.specs.Prelude.{◌≡◌, ◌<◌, IfOk};
ghost use Rattle.change_payloads.specs.declared.fault.ImageFault.TheVariants.{Damaged};
ghost use Rattle.document_changes.specs.Changes.{change_view};
ghost use Rattle.request_calls.specs.Calls.{IsAccepted};
ghost use Rattle.named_indexes.specs.Payloads.{Accepts, first_byte};
ghost use Rattle.search_routes.specs.Done.{IsPrepared, Prepares};
ghost use Rattle.search_routes.specs.Redo.{ReadsTask, task_again as task_of_bytes};
ghost use Rattle.search_routes.specs.State.{most_changes};

use change_payloads::{ImageFault, damage};
use document_changes::Change;
use http_wire::Reply;
use named_indexes::{Payload, Recorded, recorded_change};
use request_refusals::Refusal;
use request_replies::accepted_reply;
use search_base::{Fault, NoMemory};
use std::alloc::Global;
use task_queue::Task;

const MOST_CHANGES: u64 = 1_000_000_000;

/// A task that may wait, with all memory that it needs, and the reply by which its change is accepted.
#[derive(Drop)]
pub struct PreparedTask {
    pub task: Task<Payload>,
    pub reply: Reply,
}

/// The task of a change, where so many were accepted.
pub(crate) fn prepare(
    alloc: Global,
    accepted: u64,
    change: &Change,
) -> Result<PreparedTask, Fault<Refusal>>
    requires { IsAccepted (change_view change.now) }
    ensures { Prepares accepted (change_view change.now) result }
{
    if accepted >= MOST_CHANGES {
        return Err(Fault::Refused(Refusal::ChangesSpent));
    }
    Ok(prepared_task(alloc, accepted, change)?)
}

fn prepared_task(alloc: Global, number: u64, change: &Change) -> Result<PreparedTask, NoMemory>
    requires accepted { IsAccepted (change_view change.now) }
    requires room { number < most_changes }
    ensures { IfOk result (IsPrepared number (change_view change.now)) }
{
    let Recorded { uid, kind, payload } = Recorded::new(alloc, change)?;
    let reply = accepted_reply(alloc, uid.as_str(), kind, number)?;
    let task = Task {
        number,
        uid,
        kind,
        change: payload,
    };
    Ok(PreparedTask { task, reply })
}

/// The task of this number, read from the payload that records its change. A payload that spells no change is damaged
/// where `decode_change` says, and at its first byte where no index takes the change or the number is past the limit of
/// tasks. One of 2^32 bytes or more counts as one for which there is no memory.
pub fn task_again(alloc: Global, number: u64, bytes: Vec<u8>) -> Result<Task<Payload>, ImageFault>
    ensures exact { ReadsTask result (task_of_bytes number bytes.items) }
    ensures accepts { IfOk result (λ t. Accepts t.uid t.kind t.change) }
    ensures number { IfOk result (λ t. t.number ≡ number) }
    ensures room { IfOk result (λ t. number < most_changes) }
{
    let damaged = first_damage(&bytes);
    let Recorded { uid, kind, payload } = recorded_change(alloc, bytes)?;
    if number >= MOST_CHANGES {
        return Err(damaged);
    }
    Ok(Task {
        number,
        uid,
        kind,
        change: payload,
    })
}

// Damage at the first byte.
fn first_damage(bytes: &[u8]) -> ImageFault
    ensures { result ≡ Damaged (first_byte bytes.now).place (first_byte bytes.now).found }
{
    damage(bytes, bytes.len())
}
