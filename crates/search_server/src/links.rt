// The loop over the links of a door.
ghost use Rattle.std.specs.Prelude.{◌≡◌, ◌≤◌, true, false};
ghost use Rattle.change_journal.specs.Shut.{is_told};
ghost use Rattle.durable_machine.specs.Durable.{IsDurable};
ghost use Rattle.bucket_sort.specs.Opens.{log_state};
ghost use Rattle.search_server.specs.LinkState.{link_state, shared_state};
ghost use Rattle.search_server.specs.Links.{ServesDoor, door_state};
ghost use Rattle.search_server.specs.Statuses.{IsGoing};

use crate::line::write_line;
use crate::{Status, serve_link};
use bucket_sort::BucketLog;
use durable_machine::DurableMachine;
use link_doors::Door;
use outside_io::{Disk, Failed, Link};
use search_base::Steps;
use std::alloc::Global;

/// Serves so many links of an open door, one after the other, and tells of each in a line on the pipe.
///
/// Each link is served to its end, as `serve_link` says, from the machine and the disks that the one before left, and
/// then given back. `Done`: so many were served, or no more came. `DoorFault`: the door gave none, and its count of
/// faults rose. `WriteFault`: the pipe took a part of the last line. `DiskFault`: a disk failed while the last link was
/// served, and no line tells of that link. How a link ended otherwise ends no other. Where no disk failed, the machine
/// and the disks are fit to go on (`durable`).
pub fn serve_links<P: Link, D: Door, K: Disk, F, G>(
    alloc: Global,
    machine: &mut DurableMachine,
    connections: u32,
    pipe: &mut P,
    door: &mut D,
    disk_a: &mut K,
    disk_b: &mut K,
    log: &mut Box<dyn BucketLog>,
    fetches: &mut Steps<F>,
    openings: &mut Steps<G>,
) -> Status
    requires open { D.is_open door.old ≡ true }
    requires none_out { D.is_out door.old ≡ false }
    requires durable { IsDurable machine.old (K.contents disk_a.old) (K.contents disk_b.old) }
    ensures promise { ServesDoor (link_state D.Link.left D.Link.told D.Link.read_faults D.Link.write_faults) connections
        (door_state D.coming D.returned D.door_faults P.told P.write_faults door.old pipe.old
        (shared_state K.contents K.disk_faults machine.old.machine fetches.old
        (log_state ((BucketLog-box log.old).told log.old.value) openings.old) disk_a.old disk_b.old))
        (door_state D.coming D.returned D.door_faults P.told P.write_faults door.new pipe.new
        (shared_state K.contents K.disk_faults machine.new.machine fetches.new
        (log_state ((BucketLog-box log.new).told log.new.value) openings.new) disk_a.new disk_b.new))
        result }
    ensures durable { IsGoing result → IsDurable machine.new (K.contents disk_a.new) (K.contents disk_b.new) }
    ensures none_out { D.is_out door.new ≡ false }
    ensures left { P.left pipe.new ≡ P.left pipe.old }
    ensures read_faults { P.read_faults pipe.new ≡ P.read_faults pipe.old }
    ensures write_later { P.write_faults pipe.old ≤ P.write_faults pipe.new }
    ensures told_a { is_told (K.contents disk_a.new) ≡ is_told (K.contents disk_a.old) }
    ensures told_b { is_told (K.contents disk_b.new) ≡ is_told (K.contents disk_b.old) }
    ensures later_a { K.disk_faults disk_a.old ≤ K.disk_faults disk_a.new }
    ensures later_b { K.disk_faults disk_b.old ≤ K.disk_faults disk_b.new }
{
    for served in 0..connections as u64 {
        match door.next() {
            Err(Failed) => return Status::DoorFault,
            Ok(None) => return Status::Done,
            Ok(Some(given)) => {
                let mut link = given;
                let end = serve_link(
                    alloc, machine, &mut link, disk_a, disk_b, log, fetches, openings,
                );
                door.give_back(link);
                if let Status::DiskFault = end.status {
                    return Status::DiskFault;
                }
                match write_line(pipe, served + 1, &end) {
                    Ok(()) => {}
                    Err(Failed) => return Status::WriteFault,
                }
            }
        }
    }
    Status::Done
}
