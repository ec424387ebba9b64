ghost use Rattle.std.specs.Prelude.{◌≡◌, ◌≢◌, ◌+◌, ◌<◌, ◌≤◌, ◌^◌, ℕ, List, [], Ok, Err, IfOk, IfErr, OnOk, length, true, false};
ghost use Rattle.change_journal.specs.Format.{shut, stored};
ghost use Rattle.change_journal.specs.declared.opening.JournalFault.TheVariants.{DiskFault};
ghost use Rattle.change_journal.specs.Opens.{behind, IsReady, Stands};
ghost use Rattle.document_changes.specs.Changes.{ChangeData};
ghost use Rattle.index_image.specs.Rows.{image_view};
ghost use Rattle.index_image.specs.State.{IsState};
ghost use Rattle.task_queue.specs.declared.task.Task.{Task as TaskIn};
ghost use Rattle.queued_changes.specs.State.{accepted};
ghost use Rattle.queued_changes.specs.Machine.{behind as waits_behind, make_room, run_out};
ghost use Rattle.queued_changes.specs.Needs.{fill_need};
ghost use Rattle.named_indexes.specs.Changes.{changed};
ghost use Rattle.named_indexes.specs.Needs.{need};
ghost use Rattle.search_routes.specs.State.{State};
ghost use Rattle.search_routes.specs.Images.{state_of, image_need};
ghost use Rattle.search_routes.specs.Redo.{ReadsTask, redone, task_again as task_of_bytes};
ghost use Rattle.durable_machine.specs.Held.{held, opening_need, if_redone, run_from, tasks_from};
ghost use Rattle.durable_machine.specs.Reopened.{AllBelow, IsCurrent, IsDamage, IsHeld, IsMade, IsOld, IsRun, task_need};

use crate::machine::DurableMachine;
use change_journal::{JournalFault, Opened, StoredChange};
use change_payloads::ImageFault;
use index_image::ImageRows;
use search_base::Steps;
use search_routes::{Machine, task_again};
use std::alloc::Global;

// The version of the images that are written.
const VERSION: u8 = 2;

/// Whether what was opened is given out only behind a checkpoint: no disk is open, or the image is of version 1 and the
/// generation is not the last.
pub(crate) fn needs_checkpoint(opened: &Opened) -> bool
    ensures old { result ≡ true → IsOld opened.now }
    ensures current { result ≡ false → IsCurrent opened.now }
{
    opened.image.is_none() || opened.version != VERSION && !opened.journal.is_last()
}

/// The machine of what two disks held when they were opened, in which the tasks behind the image have run again, or the
/// first byte that is damaged. Where no disk was open the machine holds nothing.
pub(crate) fn make_again<F>(
    alloc: Global,
    opened: Opened,
    fetches: &mut Steps<F>,
) -> Result<DurableMachine, JournalFault>
    requires ready { IsReady opened }
    requires room { opened.journal.gate < 2 ^ 64 }
    ensures held { (xs ys : List ℕ) → Stands opened (stored xs ys) → IsHeld result (held xs ys) }
    ensures journal { IfOk result (λ made. made.journal ≡ opened.journal) }
    ensures idle { IfOk result (λ made. made.machine.queue ≡ []) }
    ensures counted { IfOk result (λ made. made.machine.finished ≡ opened.journal.count) }
    ensures fault { IfErr result (λ fault. fault ≢ DiskFault) }
    ensures fetched { (xs ys : List ℕ) → Stands opened (stored xs ys) → fetches.new ≤ fetches.old + opening_need xs ys }
{
    let Opened {
        journal,
        active,
        image,
        changes,
        ..
    } = opened;
    match image {
        None => match Machine::new(alloc) {
            Ok(machine) => Ok(DurableMachine { machine, journal }),
            Err(_) => Err(JournalFault::NoMemory),
        },
        Some(rows) => match machine_of(alloc, active, rows, changes, fetches) {
            Ok(machine) => Ok(DurableMachine { machine, journal }),
            Err(fault) => Err(fault),
        },
    }
}

// The machine of the rows of an image, in which the tasks behind it have run.
fn machine_of<F>(
    alloc: Global,
    disk: u8,
    rows: ImageRows,
    changes: Vec<StoredChange>,
    fetches: &mut Steps<F>,
) -> Result<Machine, JournalFault>
    requires { IsState (image_view rows) }
    ensures run { (gate : ℕ) → gate < 2 ^ 64 → AllBelow gate (behind changes.items (shut gate))
        → IsMade result (run_from disk (state_of (image_view rows)) (behind changes.items (shut gate))) }
    ensures idle { IfOk result (λ machine. machine.queue ≡ []) }
    ensures counted { IfOk result (λ machine. machine.finished ≡ rows.changes + length changes.items) }
    ensures fault { IfErr result (λ fault. fault ≢ DiskFault) }
    ensures fetched { (gate : ℕ) → fetches.new ≤ fetches.old + (image_need (image_view rows)
        + fill_need changed need (tasks_from rows.changes (behind changes.items (shut gate)))
        (state_of (image_view rows))) }
{
    let mut machine = match Machine::from_image(alloc, rows, fetches) {
        Ok(machine) => machine,
        Err(_) => return Err(JournalFault::NoMemory),
    };
    match run_all(alloc, &mut machine, disk, changes, fetches) {
        Ok(()) => Ok(machine),
        Err(fault) => Err(fault),
    }
}

// Runs the tasks behind an image, in order, up to the first that is damaged. Each comes to wait, with room made for it,
// and at the end all that wait run; so they run in batches.
fn run_all<F>(
    alloc: Global,
    machine: &mut Machine,
    disk: u8,
    changes: Vec<StoredChange>,
    fetches: &mut Steps<F>,
) -> Result<(), JournalFault>
    ensures run { (gate : ℕ) → gate < 2 ^ 64 → AllBelow gate (behind changes.items (shut gate))
        → IsRun result (run_from disk (run_out changed machine.old) (behind changes.items (shut gate))) machine.new }
    ensures idle { OnOk result (machine.new.queue ≡ []) }
    ensures counted { OnOk result (accepted machine.new ≡ accepted machine.old + length changes.items) }
    ensures fault { IfErr result (λ fault. fault ≢ DiskFault) }
    ensures fetched { (gate : ℕ) → fetches.new ≤ fetches.old
        + fill_need changed need (tasks_from (accepted machine.old) (behind changes.items (shut gate))) machine.old }
{
    for change in changes {
        wait_again(alloc, machine, disk, change, fetches)?;
    }
    match machine.settle_all(alloc, fetches) {
        Ok(()) => Ok(()),
        Err(_) => Err(JournalFault::NoMemory),
    }
}

// A task behind an image comes to wait, with room made for it, where its payload is not damaged.
fn wait_again<F>(
    alloc: Global,
    machine: &mut Machine,
    disk: u8,
    change: StoredChange,
    fetches: &mut Steps<F>,
) -> Result<(), JournalFault>
    ensures run { change.place + length change.payload.items < 2 ^ 64
        → IsRun result (if_redone disk change.place (redone (run_out changed machine.old) change.payload.items) Ok)
        (run_out changed machine.new) }
    ensures waits { OnOk result ((t : TaskIn ChangeData)
        × (task_of_bytes (accepted machine.old) change.payload.items ≡ Ok t)
        × (machine.new ≡ waits_behind t (make_room changed machine.old))) }
    ensures fault { IfErr result (λ fault. fault ≢ DiskFault) }
    ensures fetched { fetches.new
        ≤ fetches.old + task_need (task_of_bytes (accepted machine.old) change.payload.items) machine.old }
{
    let StoredChange { place, payload } = change;
    let task = match task_again(alloc, machine.accepted(), payload) {
        Ok(task) => task,
        Err(fault) => return Err(fault_at(disk, place, fault)),
    };
    match machine.make_room(alloc, fetches) {
        Ok(()) => {
            machine.push(task);
            Ok(())
        }
        Err(_) => Err(JournalFault::NoMemory),
    }
}

// A fault of a payload that stands at a place of a disk.
fn fault_at(disk: u8, at: u64, fault: ImageFault) -> JournalFault
    ensures fault { result ≢ DiskFault }
    ensures damage { (s : State) (bytes : List ℕ) → at + length bytes < 2 ^ 64
        → ReadsTask (Err fault) (task_of_bytes (accepted s) bytes)
        → IsDamage result (if_redone disk at (redone s bytes) Ok) }
{
    match fault {
        ImageFault::NoMemory => JournalFault::NoMemory,
        ImageFault::Damaged { place, found } => JournalFault::Damaged {
            disk,
            place: at.saturating_add(place),
            found,
        },
    }
}
