// The loop over one link.
ghost use Rattle.std.specs.Prelude.{◌≡◌, ◌+◌, ◌≤◌};
ghost use Rattle.change_journal.specs.Shut.{is_told};
ghost use Rattle.queued_changes.specs.State.{accepted};
ghost use Rattle.durable_machine.specs.Durable.{IsDurable};
ghost use Rattle.bucket_sort.specs.Opens.{log_state};
ghost use Rattle.search_server.specs.LinkState.{link_state, shared_state};
ghost use Rattle.search_server.specs.Passed.{PassedIfDue};
ghost use Rattle.search_server.specs.Served.{Serves};
ghost use Rattle.search_server.specs.Statuses.{IsGoing};

use crate::turn::serve_one;
use crate::{LinkEnd, Status};
use bucket_sort::BucketLog;
use durable_machine::DurableMachine;
use http_wire::Kept;
use outside_io::{Disk, Link};
use search_base::Steps;
use std::alloc::Global;

const MOST_REQUESTS: u64 = 1_000_000;

/// Serves one link to its end: each request gets the machine's reply or, for want of memory, the one constant reply,
/// which leaves the machine as it is. A request that asks to close is the last, and so is the 1,000,000th. The task of
/// a change that is accepted is recorded on the disks before its reply, 202, is begun; behind each other reply, save
/// for the one for want of memory, the oldest batch of tasks runs. Where that finds no memory the link ends with
/// `NoMemory` and `put_off`: the reply is written whole, also where the request asked to close, and the tasks wait.
///
/// Where the link tells its bytes, `promise` says what was written by the status: all replies for `Done`, `CutShort`,
/// `BadHead` and `RequestsSpent`; the replies to all that the link gave for `ReadFault`; all but the last, and of it a
/// part, for `WriteFault`; all but the last, and of it nothing, for `DiskFault`; the replies to the first requests for
/// `NoMemory`. It also says what a crash may now leave on the disks: where no disk failed, all tasks that were
/// accepted, and for `DiskFault` these, with the one of the last request or without it. `fetches` counts the stored
/// documents that are read: at most those that these requests and the batches behind their replies need, one after the
/// other. The log is told, request by request, exactly the buckets that searches open, or some of them where one found
/// no memory, and `openings` counts them; a search that the log refuses is answered as one without memory.
///
/// Where no disk failed, the machine and the disks are fit to go on (`durable`), and a checkpoint that is due was
/// passed over for want of memory, or was due before and no task was accepted since (`due`). After `DiskFault` the
/// disks are to be opened again.
pub fn serve_link<P: Link, K: Disk, F, G>(
    alloc: Global,
    machine: &mut DurableMachine,
    link: &mut P,
    disk_a: &mut K,
    disk_b: &mut K,
    log: &mut Box<dyn BucketLog>,
    fetches: &mut Steps<F>,
    openings: &mut Steps<G>,
) -> LinkEnd
    requires durable { IsDurable machine.old (K.contents disk_a.old) (K.contents disk_b.old) }
    ensures promise { Serves
        (link_state P.left P.told P.read_faults P.write_faults link.old
        (shared_state K.contents K.disk_faults machine.old.machine fetches.old
        (log_state ((BucketLog-box log.old).told log.old.value) openings.old) disk_a.old disk_b.old))
        (link_state P.left P.told P.read_faults P.write_faults link.new
        (shared_state K.contents K.disk_faults machine.new.machine fetches.new
        (log_state ((BucketLog-box log.new).told log.new.value) openings.new) disk_a.new disk_b.new))
        result }
    ensures durable { IsGoing result.status → IsDurable machine.new (K.contents disk_a.new) (K.contents disk_b.new) }
    ensures due { IsGoing result.status → PassedIfDue machine.old machine.new result.passed }
    ensures requests { result.requests ≤ 1000000 }
    ensures passed_few { result.passed + accepted machine.old.machine ≤ accepted machine.new.machine }
    ensures read_later { P.read_faults link.old ≤ P.read_faults link.new }
    ensures write_later { P.write_faults link.old ≤ P.write_faults link.new }
    ensures told_a { is_told (K.contents disk_a.new) ≡ is_told (K.contents disk_a.old) }
    ensures told_b { is_told (K.contents disk_b.new) ≡ is_told (K.contents disk_b.old) }
    ensures later_a { K.disk_faults disk_a.old ≤ K.disk_faults disk_a.new }
    ensures later_b { K.disk_faults disk_b.old ≤ K.disk_faults disk_b.new }
{
    let Ok(mut kept) = Kept::new(alloc) else {
        return LinkEnd {
            status: Status::NoMemory,
            requests: 0,
            passed: 0,
            put_off: false,
        };
    };
    let mut passed = 0;
    for served in 0..MOST_REQUESTS {
        let left = MOST_REQUESTS - served;
        let turn = serve_one(
            alloc,
            machine,
            link,
            disk_a,
            disk_b,
            &mut kept,
            left,
            &mut passed,
            log,
            fetches,
            openings,
        );
        if let Some(end) = turn.end(served, passed) {
            return end;
        }
    }
    LinkEnd {
        status: Status::RequestsSpent,
        requests: MOST_REQUESTS,
        passed,
        put_off: false,
    }
}
