ghost use Rattle.std.specs.Prelude.{◌≡◌, ◌≢◌, ◌⊎◌, ◌+◌, ◌-◌, ◌<◌, ◌≤◌, ◌^◌, ◌∷◌, ℕ, List, None, Some, Ok, Err, IfOk, OnOk, OnErr, length};
ghost use Rattle.std.specs.Option.{option_map};
ghost use Rattle.outside_io.specs.Disks.{fresh, settled};
ghost use Rattle.outside_io.specs.Faults.{HasCause, Rose};
ghost use Rattle.change_journal.specs.Fits.{BothTold, Fits, HasCount, IsDue, IsSettled, disk_on, next_side};
ghost use Rattle.change_journal.specs.First.{First, journal_bytes};
ghost use Rattle.change_journal.specs.Format.{stored, version_of};
ghost use Rattle.change_journal.specs.Opens.{AnswersAll, IsReady, Stands};
ghost use Rattle.change_journal.specs.Shut.{image_disk, is_told};
ghost use Rattle.change_journal.specs.declared.opening.JournalFault.TheVariants.{DiskFault};
ghost use Rattle.index_image.specs.Image.{state_at};
ghost use Rattle.queued_changes.specs.Machine.{run_out};
ghost use Rattle.named_indexes.specs.Changes.{changed};
ghost use Rattle.search_routes.specs.State.{State};
ghost use Rattle.search_routes.specs.Images.{Spells};
ghost use Rattle.search_routes.specs.Redo.{redone};
ghost use Rattle.durable_machine.specs.Durable.{CrashHolds, Hold, IsDurable};
ghost use Rattle.durable_machine.specs.Recorded.{AreTasks};

use change_journal::{FirstJournal, Journal, JournalFault, Opened, Record, open};
use outside_io::{Disk, Failed};
use search_base::NoMemory;
use search_routes::Machine;
use std::alloc::Global;

/// Reads what two disks hold, and then makes it last: after `Ok` nothing is pending on them. It writes nothing.
pub(crate) fn read_and_sync<K: Disk>(
    alloc: Global,
    disk_a: &mut K,
    disk_b: &mut K,
) -> Result<Opened, JournalFault>
    ensures stored { BothTold (K.contents disk_a.old) (K.contents disk_b.old) (λ a b. AnswersAll result (stored a b)) }
    ensures fits { IfOk result (λ opened. Fits opened.journal (K.contents disk_a.new) (K.contents disk_b.new)) }
    ensures ready { IfOk result IsReady }
    ensures now { IfOk result
        (λ opened. (xs ys : List ℕ) → K.contents disk_a.new ≡ Some (fresh xs) → K.contents disk_b.new ≡ Some (fresh ys)
        → Stands opened (stored xs ys)) }
    ensures settled_a { OnOk result (IsSettled (K.contents disk_a.new)) }
    ensures settled_b { OnOk result (IsSettled (K.contents disk_b.new)) }
    ensures kept_a { (xs : List ℕ) → K.contents disk_a.old ≡ Some (fresh xs) → K.contents disk_a.new ≡ Some (fresh xs) }
    ensures kept_b { (ys : List ℕ) → K.contents disk_b.old ≡ Some (fresh ys) → K.contents disk_b.new ≡ Some (fresh ys) }
    ensures told_a { is_told (K.contents disk_a.new) ≡ is_told (K.contents disk_a.old) }
    ensures told_b { is_told (K.contents disk_b.new) ≡ is_told (K.contents disk_b.old) }
    ensures fault { result ≡ Err DiskFault → Rose (K.disk_faults disk_a.old) (K.disk_faults disk_a.new)
        ⊎ Rose (K.disk_faults disk_b.old) (K.disk_faults disk_b.new) }
    ensures later_a { K.disk_faults disk_a.old ≤ K.disk_faults disk_a.new }
    ensures later_b { K.disk_faults disk_b.old ≤ K.disk_faults disk_b.new }
{
    let opened = match open(alloc, disk_a, disk_b) {
        Ok(opened) => opened,
        Err(fault) => return Err(fault),
    };
    match sync_both(disk_a, disk_b) {
        Ok(()) => Ok(opened),
        Err(Failed) => Err(JournalFault::DiskFault),
    }
}

// Makes what two disks hold last. `Failed`: a disk's count of faults rose. What they hold stays either way.
fn sync_both<K: Disk>(disk_a: &mut K, disk_b: &mut K) -> Result<(), Failed>
    ensures now_a { OnOk result (K.contents disk_a.new ≡ option_map settled (K.contents disk_a.old)) }
    ensures now_b { OnOk result (K.contents disk_b.new ≡ option_map settled (K.contents disk_b.old)) }
    ensures kept_a { (xs : List ℕ) → K.contents disk_a.old ≡ Some (fresh xs) → K.contents disk_a.new ≡ Some (fresh xs) }
    ensures kept_b { (ys : List ℕ) → K.contents disk_b.old ≡ Some (fresh ys) → K.contents disk_b.new ≡ Some (fresh ys) }
    ensures told_a { is_told (K.contents disk_a.new) ≡ is_told (K.contents disk_a.old) }
    ensures told_b { is_told (K.contents disk_b.new) ≡ is_told (K.contents disk_b.old) }
    ensures cause { OnErr result (Rose (K.disk_faults disk_a.old) (K.disk_faults disk_a.new)
        ⊎ Rose (K.disk_faults disk_b.old) (K.disk_faults disk_b.new)) }
    ensures later_a { K.disk_faults disk_a.old ≤ K.disk_faults disk_a.new }
    ensures later_b { K.disk_faults disk_b.old ≤ K.disk_faults disk_b.new }
{
    sync_one(disk_a)?;
    sync_one(disk_b)
}

fn sync_one<K: Disk>(disk: &mut K) -> Result<(), Failed>
    ensures now { OnOk result (K.contents disk.new ≡ option_map settled (K.contents disk.old)) }
    ensures kept { (xs : List ℕ) → K.contents disk.old ≡ Some (fresh xs) → K.contents disk.new ≡ Some (fresh xs) }
    ensures told { is_told (K.contents disk.new) ≡ is_told (K.contents disk.old) }
    ensures cause { HasCause (K.disk_faults disk.old) (K.disk_faults disk.new) result }
{
    disk.sync()
}

/// The tasks that wait in a machine, as the journal behind an image. Its error is want of memory.
pub(crate) fn first_of(alloc: Global, machine: &Machine) -> Result<FirstJournal, NoMemory>
    ensures number { IfOk result (λ first. first.number ≡ machine.now.finished) }
    ensures tasks { IfOk result (λ first. AreTasks machine.now.finished first.payloads machine.now.queue) }
{
    let mut first = FirstJournal::new(alloc, machine.finished());
    for task in machine.queued() {
        first.add(task.change.bytes())?;
    }
    Ok(first)
}

/// Adds the record of a task to the journal, which the disks hold then behind the others: it is the last to run.
/// `Failed`: a disk's count of faults rose.
pub(crate) fn append<K: Disk>(
    journal: &mut Journal,
    disk_a: &mut K,
    disk_b: &mut K,
    entry: Record,
) -> Result<(), Failed>
    requires active { journal.old.active ≢ None }
    requires fits { Fits journal.old (K.contents disk_a.old) (K.contents disk_b.old) }
    requires number { entry.number ≡ journal.old.count }
    requires room { entry.number + 1 < 2 ^ 64 }
    ensures durable { OnOk result ((s t : State)
        → IsDurable (record { machine = s; journal = journal.old }) (K.contents disk_a.old) (K.contents disk_b.old)
        → redone (run_out changed s) entry.payload ≡ Ok (run_out changed t)
        → IsDurable (record { machine = t; journal = journal.new }) (K.contents disk_a.new) (K.contents disk_b.new)) }
    ensures crash { OnErr result ((s t : State)
        → IsDurable (record { machine = s; journal = journal.old }) (K.contents disk_a.old) (K.contents disk_b.old)
        → redone (run_out changed s) entry.payload ≡ Ok (run_out changed t)
        → CrashHolds (K.contents disk_a.new) (K.contents disk_b.new)
        (λ u. (u ≡ run_out changed s) ⊎ (u ≡ run_out changed t))) }
    ensures grown { OnOk result (journal.new.grown ≡ journal.old.grown + length entry.payload + 13) }
    ensures generation { journal.new.generation ≡ journal.old.generation }
    ensures told_a { is_told (K.contents disk_a.new) ≡ is_told (K.contents disk_a.old) }
    ensures told_b { is_told (K.contents disk_b.new) ≡ is_told (K.contents disk_b.old) }
    ensures cause { OnErr result (Rose (K.disk_faults disk_a.old) (K.disk_faults disk_a.new)
        ⊎ Rose (K.disk_faults disk_b.old) (K.disk_faults disk_b.new)) }
    ensures later_a { K.disk_faults disk_a.old ≤ K.disk_faults disk_a.new }
    ensures later_b { K.disk_faults disk_b.old ≤ K.disk_faults disk_b.new }
{
    match journal.append(disk_a, disk_b, entry) {
        Ok(()) => Ok(()),
        Err(Failed) => Err(Failed),
    }
}

/// Makes a checkpoint of an image of the finished part of a machine, with its tasks that wait behind it; it takes no
/// memory. `Failed`: a disk's count of faults rose.
pub(crate) fn checkpoint<K: Disk>(
    journal: &mut Journal,
    disk_a: &mut K,
    disk_b: &mut K,
    image: &[u8],
    first: &FirstJournal,
) -> Result<(), Failed>
    requires fits { Fits journal.old (K.contents disk_a.old) (K.contents disk_b.old) }
    requires image { HasCount image.now first.now.number }
    requires version { version_of image.now ≡ 2 }
    requires held { journal.old.count ≡ first.now.number + length first.now.payloads }
    requires few { journal.old.generation < 2 ^ 64 - 1 }
    requires settled_a { IsSettled (K.contents disk_a.old) }
    requires settled_b { IsSettled (K.contents disk_b.old) }
    ensures durable { OnOk result ((s : State) → Spells image.now s (state_at image.now)
        → AreTasks s.finished first.now.payloads s.queue
        → IsDurable (record { machine = s; journal = journal.new }) (K.contents disk_a.new) (K.contents disk_b.new)) }
    ensures crash { OnErr result ((s : State) → Spells image.now s (state_at image.now)
        → AreTasks s.finished first.now.payloads s.queue
        → Hold (K.contents disk_a.old) (K.contents disk_b.old) s
        → CrashHolds (K.contents disk_a.new) (K.contents disk_b.new) (λ u. u ≡ run_out changed s)) }
    ensures done { OnOk result (IsDue journal.new → ⊥) }
    ensures made { OnOk result ((ys : List ℕ)
        → K.contents (disk_on (next_side journal.old.active) disk_a.old disk_b.old) ≡ Some (fresh ys)
        → K.contents (disk_on (next_side journal.old.active) disk_a.new disk_b.new)
        ≡ Some (fresh (1 ∷ image_disk (journal.old.generation + 1) image.now
        (journal_bytes first.now.number first.now.payloads)))) }
    ensures other { disk_on (next_side journal.old.active) disk_b.new disk_a.new
        ≡ disk_on (next_side journal.old.active) disk_b.old disk_a.old }
    ensures stays { OnErr result (journal.new ≡ journal.old) }
    ensures told_a { is_told (K.contents disk_a.new) ≡ is_told (K.contents disk_a.old) }
    ensures told_b { is_told (K.contents disk_b.new) ≡ is_told (K.contents disk_b.old) }
    ensures cause { OnErr result (Rose (K.disk_faults disk_a.old) (K.disk_faults disk_a.new)
        ⊎ Rose (K.disk_faults disk_b.old) (K.disk_faults disk_b.new)) }
    ensures later_a { K.disk_faults disk_a.old ≤ K.disk_faults disk_a.new }
    ensures later_b { K.disk_faults disk_b.old ≤ K.disk_faults disk_b.new }
{
    match journal.checkpoint(disk_a, disk_b, image, first) {
        Ok(()) => Ok(()),
        Err(Failed) => Err(Failed),
    }
}
