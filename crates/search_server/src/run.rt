// What the program does for the words of the command line.
ghost use Rattle.std.specs.Prelude.{◌≡◌, ◌↔◌, ◌≤◌, ℕ, Bool, Some, None, false, IfErr, IfOk};
ghost use Rattle.change_journal.specs.Fits.{BothTold};
ghost use Rattle.change_journal.specs.Format.{stored};
ghost use Rattle.change_journal.specs.Shut.{is_told};
ghost use Rattle.durable_machine.specs.Durable.{IsDurable, IsMigrated};
ghost use Rattle.bucket_sort.specs.Opens.{log_state};
ghost use Rattle.search_server.specs.LinkState.{link_state, shared_state};
ghost use Rattle.search_server.specs.Served.{Serves};
ghost use Rattle.search_server.specs.Links.{ServesDoor, door_state};
ghost use Rattle.search_server.specs.Demo.{ShowsDemo};
ghost use Rattle.search_server.specs.Opening.{Heard, NotOpened, Opened, OpensAndServes, unopened_state};
ghost use Rattle.search_server.specs.Statuses.{HasOpened};
ghost use Rattle.search_server.specs.Telling.{GoesOnTelling};
ghost use Rattle.search_server.specs.Words.{UsesDisks, command_of};

use crate::demo::show_demo;
use crate::links::serve_links;
use crate::words::{Command, command_of};
use crate::{Status, serve_link};
use bucket_sort::BucketLog;
use change_journal::JournalFault;
use durable_machine::DurableMachine;
use link_doors::Door;
use outside_io::{Disk, Failed, Link};
use search_base::Steps;
use std::alloc::Global;

// Opens the machine that two disks hold, or says how the program ends.
fn open_machine<K: Disk, F>(
    alloc: Global,
    disk_a: &mut K,
    disk_b: &mut K,
    fetches: &mut Steps<F>,
) -> Result<DurableMachine, Status>
    ensures opened { IfOk result (λ machine. (heard : Heard) (openings : ℕ) → Opened heard
        (unopened_state K.contents K.disk_faults fetches.old openings disk_a.old disk_b.old)
        (shared_state K.contents K.disk_faults machine.machine fetches.new (log_state heard openings)
        disk_a.new disk_b.new)) }
    ensures durable { IfOk result (λ machine. IsDurable machine (K.contents disk_a.new) (K.contents disk_b.new)) }
    ensures not_opened { IfErr result (λ status. (openings : ℕ) → NotOpened
        (unopened_state K.contents K.disk_faults fetches.old openings disk_a.old disk_b.old)
        (unopened_state K.contents K.disk_faults fetches.new openings disk_a.new disk_b.new)
        status) }
    ensures told_a { is_told (K.contents disk_a.new) ≡ is_told (K.contents disk_a.old) }
    ensures told_b { is_told (K.contents disk_b.new) ≡ is_told (K.contents disk_b.old) }
    ensures later_a { K.disk_faults disk_a.old ≤ K.disk_faults disk_a.new }
    ensures later_b { K.disk_faults disk_b.old ≤ K.disk_faults disk_b.new }
{
    match DurableMachine::opened(alloc, disk_a, disk_b, fetches) {
        Ok(machine) => Ok(machine),
        Err(JournalFault::DiskFault) => Err(Status::DiskFault),
        Err(JournalFault::Damaged { disk, place, found }) => Err(Status::Damaged {
            disk,
            place,
            found,
        }),
        Err(JournalFault::NoMemory) => Err(Status::NoMemory),
    }
}

/// Does what the words of the command line, after the program's own name, ask for.
///
/// `pipe` opens the machine that the two disks hold and serves the link from it, as `serve_link` says. `serve PORT
/// CONNECTIONS` opens the machine and then the door, and serves so many of its links, as `serve_links` says. Where no
/// machine is opened, nothing else is done: `DiskFault`, a disk's count of faults rose; `Damaged`, the first byte that
/// is damaged; or `NoMemory`; and whatever a crash may leave still holds what the disks held. Where the disks held
/// nothing, or an image of version 1, opening writes one of version 2, before the link is read or the door is opened:
/// so with any status but these and `BadWords` the disks hold one of version 2, unless no generation is left for it
/// (`migrated`). `demo COUNT SEED` prints what a machine that holds nothing answers to the demo, as `show_demo` says.
/// `BadWords` comes exactly for all other words, and then nothing is touched; `pipe` leaves the door as it was, and
/// `demo` the door and the disks. `fetches` counts the stored documents that are read, and `openings` the buckets that
/// searches open. The log is told these, and is let go at the end.
///
/// `ReadFault`, `CutShort`, `BadHead` and `RequestsSpent` come with `pipe` alone, `DoorFault` with `serve` alone,
/// `DiskFault` and `Damaged` with these two.
pub fn run_search_server<P: Link, D: Door, K: Disk, F, G>(
    alloc: Global,
    words: &[String],
    pipe: &mut P,
    door: &mut D,
    disk_a: &mut K,
    disk_b: &mut K,
    log: Box<dyn BucketLog>,
    fetches: &mut Steps<F>,
    openings: &mut Steps<G>,
) -> Status
    requires none_out { D.is_out door.old ≡ false }
    ensures bad_words { (result ≡ Status.BadWords) ↔ (command_of words.now ≡ None) }
    ensures untouched { command_of words.now ≡ None → (pipe.new ≡ pipe.old) × (door.new ≡ door.old)
        × (disk_a.new ≡ disk_a.old) × (disk_b.new ≡ disk_b.old) × (fetches.new ≡ fetches.old)
        × (openings.new ≡ openings.old) }
    ensures pipe { command_of words.now ≡ Some Command.Pipe → (door.new ≡ door.old)
        × OpensAndServes ((BucketLog-box log).told log.value)
        (unopened_state K.contents K.disk_faults fetches.old openings.old disk_a.old disk_b.old)
        (unopened_state K.contents K.disk_faults fetches.new openings.new disk_a.new disk_b.new)
        result (pipe.new ≡ pipe.old)
        (λ found left. (requests passed : ℕ) × (put_off : Bool) × Serves
        (link_state P.left P.told P.read_faults P.write_faults pipe.old found)
        (link_state P.left P.told P.read_faults P.write_faults pipe.new left)
        (record { status = result; requests = requests; passed = passed; put_off = put_off })) }
    ensures serve { (port connections : ℕ) → command_of words.now ≡ Some (Command.Serve port connections)
        → (P.left pipe.new ≡ P.left pipe.old) × (P.read_faults pipe.new ≡ P.read_faults pipe.old)
        × OpensAndServes ((BucketLog-box log).told log.value)
        (unopened_state K.contents K.disk_faults fetches.old openings.old disk_a.old disk_b.old)
        (unopened_state K.contents K.disk_faults fetches.new openings.new disk_a.new disk_b.new)
        result ((pipe.new ≡ pipe.old) × (door.new ≡ door.old))
        (λ found left. ServesDoor (link_state D.Link.left D.Link.told D.Link.read_faults D.Link.write_faults) connections
        (door_state D.coming D.returned D.door_faults P.told P.write_faults door.old pipe.old found)
        (door_state D.coming D.returned D.door_faults P.told P.write_faults door.new pipe.new left)
        result) }
    ensures demo { (count seed : ℕ) → command_of words.now ≡ Some (Command.Demo count seed)
        → (door.new ≡ door.old) × (disk_a.new ≡ disk_a.old) × (disk_b.new ≡ disk_b.old)
        × (P.left pipe.new ≡ P.left pipe.old) × (P.read_faults pipe.new ≡ P.read_faults pipe.old)
        × ShowsDemo count seed
        (record {
          told = P.told pipe.old;
          fetches = fetches.old;
          openings = openings.old;
          write_faults = P.write_faults pipe.old;
        })
        (record {
          told = P.told pipe.new;
          fetches = fetches.new;
          openings = openings.new;
          write_faults = P.write_faults pipe.new;
        })
        result }
    ensures migrated { UsesDisks (command_of words.now) → HasOpened result
        → BothTold (K.contents disk_a.new) (K.contents disk_b.new) (λ xs ys. IsMigrated (stored xs ys)) }
    ensures none_out { D.is_out door.new ≡ false }
    ensures read_later { P.read_faults pipe.old ≤ P.read_faults pipe.new }
    ensures write_later { P.write_faults pipe.old ≤ P.write_faults pipe.new }
    ensures left_telling { GoesOnTelling (P.left pipe.old) (P.left pipe.new) }
    ensures told_telling { GoesOnTelling (P.told pipe.old) (P.told pipe.new) }
    ensures told_a { is_told (K.contents disk_a.new) ≡ is_told (K.contents disk_a.old) }
    ensures told_b { is_told (K.contents disk_b.new) ≡ is_told (K.contents disk_b.old) }
    ensures later_a { K.disk_faults disk_a.old ≤ K.disk_faults disk_a.new }
    ensures later_b { K.disk_faults disk_b.old ≤ K.disk_faults disk_b.new }
{
    let mut log = log;
    match command_of(words) {
        None => Status::BadWords,
        Some(Command::Pipe) => match open_machine(alloc, disk_a, disk_b, fetches) {
            Err(status) => status,
            Ok(mut machine) => serve_link(
                alloc,
                &mut machine,
                pipe,
                disk_a,
                disk_b,
                &mut log,
                fetches,
                openings,
            )
            .status,
        },
        Some(Command::Serve { port, connections }) => {
            match open_machine(alloc, disk_a, disk_b, fetches) {
                Err(status) => status,
                Ok(mut machine) => match door.open(port) {
                    Err(Failed) => Status::DoorFault,
                    Ok(()) => serve_links(
                        alloc,
                        &mut machine,
                        connections,
                        pipe,
                        door,
                        disk_a,
                        disk_b,
                        &mut log,
                        fetches,
                        openings,
                    ),
                },
            }
        }
        Some(Command::Demo { count, seed }) => {
            show_demo(alloc, count, seed, pipe, &mut log, fetches, openings)
        }
    }
}
