ghost use Rattle.std.specs.Prelude.{◌≡◌, ◌≢◌, ◌⊎◌, ◌+◌, ◌-◌, ◌<◌, ◌≤◌, ◌^◌, ℕ, List, [], length, Bool, true, false, Option, None, Some, Ok, Err, IfErr, IfOk, OnOk, OnErr};
ghost use Rattle.outside_io.specs.Disks.{Contents, fresh};
ghost use Rattle.outside_io.specs.Faults.{Rose};
ghost use Rattle.http_wire.specs.Sent.{IsSentAs};
ghost use Rattle.http_wire.specs.Stream.{Request};
ghost use Rattle.http_wire.specs.Wire.{request_of};
ghost use Rattle.change_journal.specs.Fits.{Fits, IsDue, IsSettled};
ghost use Rattle.change_journal.specs.Format.{stored};
ghost use Rattle.change_journal.specs.Shut.{is_told};
ghost use Rattle.change_journal.specs.declared.opening.JournalFault.TheVariants.{Damaged, DiskFault};
ghost use Rattle.document_changes.specs.Changes.{ChangeData, change_view};
ghost use Rattle.request_calls.specs.Asked.{write};
ghost use Rattle.request_calls.specs.Calls.{IsAccepted, call_of};
ghost use Rattle.task_queue.specs.Queue.{most_queued};
ghost use Rattle.queued_changes.specs.State.{accepted};
ghost use Rattle.queued_changes.specs.Machine.{behind, run_out, settle as settled};
ghost use Rattle.named_indexes.specs.Changes.{changed};
ghost use Rattle.named_indexes.specs.Payloads.{Records};
ghost use Rattle.search_routes.specs.State.{State};
ghost use Rattle.search_routes.specs.Chosen.{answer_of, is_followed as is_followed_by, state_after};
ghost use Rattle.search_routes.specs.Done.{IsPrepared, Leaves};
ghost use Rattle.search_routes.specs.Machine.{performed};
ghost use Rattle.bucket_sort.specs.Opens.{log_state, Opens};
ghost use Rattle.search_routes.specs.Needs.{batch_need, needed_fetches};
ghost use Rattle.search_routes.specs.Openings.{opened_by, most_opened_by};
ghost use Rattle.search_routes.specs.Redo.{redone};
ghost use Rattle.durable_machine.specs.Held.{held, opening_need};
ghost use Rattle.durable_machine.specs.Durable.{CrashHolds, Hold, IsDurable, IsFirst, NeedsCheckpoint};

use crate::opening::{make_again, needs_checkpoint};
use crate::recording::{append, checkpoint, first_of, read_and_sync};
use bucket_sort::BucketLog;
use change_journal::{FirstJournal, Journal, JournalFault, Record, record};
use document_changes::Change;
use http_wire::{Reply, Wire};
use named_indexes::Payload;
use outside_io::{Disk, Failed};
use search_base::{NoMemory, Steps};
use search_routes::{Call, Machine, PreparedTask, ask, is_followed};
use std::alloc::Global;
use task_queue::Task;

/// A machine, and the journal in which its tasks are recorded.
#[derive(Drop)]
pub struct DurableMachine {
    pub(crate) machine: Machine,
    pub(crate) journal: Journal,
}

/// A reply; whether a checkpoint that was due was passed over for want of memory; and whether the oldest batch is to
/// run behind the reply, which it is behind each that is neither 202 nor the one for want of memory.
#[derive(Drop)]
pub struct Answered {
    pub reply: Reply,
    pub passed: bool,
    pub follows: bool,
}

impl DurableMachine {
    /// Opens the machine that two disks hold, in which all their tasks have run. Both disks are synced once they were
    /// read, before anything else is written, so that nothing is pending from then on. Where no disk is open it makes
    /// the first checkpoint, of a machine that holds nothing. Where the image found is of version 1 it makes a
    /// checkpoint of all the tasks, version 2, to the other disk, unless the generation is the last. Anywhere else what
    /// the disks hold stays as it is, damage too. `fetches` counts the stored documents that are read, at most
    /// `opening_need`.
    ///
    /// `Damaged` comes only with the first byte that is damaged, `DiskFault` only where a disk's count of faults rose,
    /// and `NoMemory` for want of memory, that of the checkpoint too. On an error, whatever a crash leaves on the disks
    /// holds what they held before.
    pub fn opened<K: Disk, F>(
        alloc: Global,
        disk_a: &mut K,
        disk_b: &mut K,
        fetches: &mut Steps<F>,
    ) -> Result<DurableMachine, JournalFault>
        ensures durable { IfOk result (λ m. IsDurable m (K.contents disk_a.new) (K.contents disk_b.new)) }
        ensures idle { IfOk result (λ m. m.machine.queue ≡ []) }
        ensures crash_now { IfOk result
            (λ m. CrashHolds (K.contents disk_a.new) (K.contents disk_b.new) (λ t. t ≡ run_out changed m.machine)) }
        ensures state { IfOk result
            (λ m. (xs ys : List ℕ) → K.contents disk_a.old ≡ Some (fresh xs) → K.contents disk_b.old ≡ Some (fresh ys)
            → held xs ys ≡ Ok m.machine) }
        ensures damaged { (disk place : ℕ) (found : Option ℕ) → result ≡ Err (Damaged disk place found)
            → (xs ys : List ℕ) → K.contents disk_a.old ≡ Some (fresh xs) → K.contents disk_b.old ≡ Some (fresh ys)
            → held xs ys ≡ Err (record { disk = disk; place = place; found = found }) }
        ensures kept { OnErr result ((xs ys : List ℕ) (s : State) → K.contents disk_a.old ≡ Some (fresh xs)
            → K.contents disk_b.old ≡ Some (fresh ys)
            → held xs ys ≡ Ok s → CrashHolds (K.contents disk_a.new) (K.contents disk_b.new)
            (λ t. t ≡ run_out changed s)) }
        ensures fault { result ≡ Err DiskFault → Rose (K.disk_faults disk_a.old) (K.disk_faults disk_a.new)
            ⊎ Rose (K.disk_faults disk_b.old) (K.disk_faults disk_b.new) }
        ensures later_a { K.disk_faults disk_a.old ≤ K.disk_faults disk_a.new }
        ensures later_b { K.disk_faults disk_b.old ≤ K.disk_faults disk_b.new }
        ensures untouched { (xs ys : List ℕ) → K.contents disk_a.old ≡ Some (fresh xs)
            → K.contents disk_b.old ≡ Some (fresh ys)
            → (NeedsCheckpoint xs ys → ⊥) → (K.contents disk_a.new ≡ K.contents disk_a.old)
            × (K.contents disk_b.new ≡ K.contents disk_b.old) }
        ensures first { IfOk result
            (λ m. (xs ys : List ℕ) → K.contents disk_a.old ≡ Some (fresh xs) → K.contents disk_b.old ≡ Some (fresh ys)
            → stored xs ys ≡ Ok None → IsFirst m.machine (K.contents disk_a.new)
            × (K.contents disk_b.new ≡ K.contents disk_b.old)) }
        ensures told_a { is_told (K.contents disk_a.new) ≡ is_told (K.contents disk_a.old) }
        ensures told_b { is_told (K.contents disk_b.new) ≡ is_told (K.contents disk_b.old) }
        ensures fetched { (xs ys : List ℕ) → K.contents disk_a.old ≡ Some (fresh xs)
            → K.contents disk_b.old ≡ Some (fresh ys)
            → fetches.new ≤ fetches.old + opening_need xs ys }
    {
        let opened = match read_and_sync(alloc, disk_a, disk_b) {
            Ok(opened) => opened,
            Err(fault) => return Err(fault),
        };
        let is_old = needs_checkpoint(&opened);
        let mut made = match make_again(alloc, opened, fetches) {
            Ok(made) => made,
            Err(fault) => return Err(fault),
        };
        if !is_old {
            return Ok(made);
        }
        match made.checkpoint_of_all(alloc, disk_a, disk_b) {
            Ok(()) => Ok(made),
            Err(fault) => Err(fault),
        }
    }

    /// Answers one request. A change that is accepted stands in the journal as a task before there is a reply; where 16
    /// wait already the oldest batch runs first. Where the journal is long by then, a checkpoint follows of the
    /// finished tasks and those that wait, unless memory is wanting for that. `fetches` counts the stored documents
    /// that are read: at most those that the request needs. The log is told each bucket that the request opens, and
    /// `openings` counts them.
    ///
    /// Where memory is wanting for a change it has the reply for that, and the machine is as it was. `Failed`: a disk's
    /// count of faults rose, and whatever a crash leaves on the disks holds the tasks that were accepted before, or
    /// these and the one of the request.
    pub fn answer<K: Disk, F, G>(
        &mut self,
        alloc: Global,
        wire: Wire,
        disk_a: &mut K,
        disk_b: &mut K,
        log: &mut Box<dyn BucketLog>,
        fetches: &mut Steps<F>,
        openings: &mut Steps<G>,
    ) -> Result<Answered, Failed>
        requires durable { IsDurable self.old (K.contents disk_a.old) (K.contents disk_b.old) }
        ensures step { (starved : Bool)
            × IfOk result (λ done. (self.new.machine ≡ state_after self.old.machine (request_of wire) starved)
            × IsSentAs done.reply (answer_of self.old.machine (request_of wire) starved)
            × (done.follows ≡ is_followed_by self.old.machine (request_of wire) starved))
            × Opens starved (opened_by self.old.machine (request_of wire))
            (log_state (told log.old) openings.old) (log_state (told log.new) openings.new) }
        ensures durable { OnOk result (IsDurable self.new (K.contents disk_a.new) (K.contents disk_b.new)) }
        ensures crash_now { OnOk result (CrashHolds (K.contents disk_a.new) (K.contents disk_b.new)
            (λ t. t ≡ run_out changed self.new.machine)) }
        ensures crash { OnErr result (CrashHolds (K.contents disk_a.new) (K.contents disk_b.new)
            (λ t. (t ≡ run_out changed self.old.machine)
            ⊎ (t ≡ run_out changed (state_after self.old.machine (request_of wire) false)))) }
        ensures due { IfOk result
            (λ done. IsDue self.new.journal → (done.passed ≡ true)
            ⊎ (IsDue self.old.journal × (accepted self.new.machine ≡ accepted self.old.machine))) }
        ensures passed { IfOk result
            (λ done. done.passed ≡ true → IsDue self.new.journal
            × (accepted self.new.machine ≡ accepted self.old.machine + 1)) }
        ensures later { accepted self.old.machine ≤ accepted self.new.machine }
        ensures only_due { self.new.journal.generation ≢ self.old.journal.generation
            → (payload : List ℕ) × (redone (run_out changed self.old.machine) payload
            ≡ Ok (run_out changed self.new.machine))
            × (16777216 < self.old.journal.grown + length payload + 13) }
        ensures told_a { is_told (K.contents disk_a.new) ≡ is_told (K.contents disk_a.old) }
        ensures told_b { is_told (K.contents disk_b.new) ≡ is_told (K.contents disk_b.old) }
        ensures cause { OnErr result (Rose (K.disk_faults disk_a.old) (K.disk_faults disk_a.new)
            ⊎ Rose (K.disk_faults disk_b.old) (K.disk_faults disk_b.new)) }
        ensures later_a { K.disk_faults disk_a.old ≤ K.disk_faults disk_a.new }
        ensures later_b { K.disk_faults disk_b.old ≤ K.disk_faults disk_b.new }
        ensures fetched { fetches.new ≤ fetches.old + needed_fetches self.old.machine (request_of wire) }
        ensures few { openings.new ≤ openings.old + most_opened_by self.old.machine (request_of wire) }
    {
        let call = match ask(alloc, self.machine.table(), wire) {
            Ok(call) => call,
            Err(_) => return Ok(replied(Reply::Memory)),
        };
        match call {
            Call::Refused(reply) => Ok(replied(reply)),
            Call::Read(call) => {
                let reply = self.machine.read(alloc, call, log, fetches, openings);
                Ok(replied(reply))
            }
            Call::Write(change) => self.write(alloc, change, disk_a, disk_b, fetches),
        }
    }

    /// Runs the oldest batch of the tasks that wait, if any do. The journal is as it was, and what the disks hold is
    /// still what the machine leaves. `fetches` counts the stored documents that are read. Its error is want of memory:
    /// then a task waits, and the machine is as it was.
    pub fn settle<F>(&mut self, alloc: Global, fetches: &mut Steps<F>) -> Result<(), NoMemory>
        ensures settled { OnOk result (self.new.machine ≡ settled changed self.old.machine) }
        ensures journal { self.new.journal ≡ self.old.journal }
        ensures stays { OnErr result (self.new ≡ self.old) }
        ensures waits { OnErr result (self.old.machine.queue ≢ []) }
        ensures accepted { accepted self.new.machine ≡ accepted self.old.machine }
        ensures out { run_out changed self.new.machine ≡ run_out changed self.old.machine }
        ensures durable { (a b : Option Contents) → IsDurable self.old a b → IsDurable self.new a b }
        ensures fetched { fetches.new ≤ fetches.old + batch_need self.old.machine }
    {
        self.machine.settle(alloc, fetches)?;
        Ok(())
    }

    // Answers a change: takes all memory for its task, makes room, and accepts it.
    fn write<K: Disk, F>(
        &mut self,
        alloc: Global,
        change: Change,
        disk_a: &mut K,
        disk_b: &mut K,
        fetches: &mut Steps<F>,
    ) -> Result<Answered, Failed>
        requires durable { IsDurable self.old (K.contents disk_a.old) (K.contents disk_b.old) }
        requires accepted { IsAccepted (change_view change) }
        ensures step { (q : Request) → call_of q ≡ Ok (write (change_view change)) → (starved : Bool)
            × IfOk result (λ done. (self.new.machine ≡ state_after self.old.machine q starved)
            × IsSentAs done.reply (answer_of self.old.machine q starved)
            × (done.follows ≡ is_followed_by self.old.machine q starved)) }
        ensures durable { OnOk result (IsDurable self.new (K.contents disk_a.new) (K.contents disk_b.new)) }
        ensures crash { (q : Request) → call_of q ≡ Ok (write (change_view change))
            → OnErr result (CrashHolds (K.contents disk_a.new) (K.contents disk_b.new)
            (λ t. (t ≡ run_out changed self.old.machine)
            ⊎ (t ≡ run_out changed (state_after self.old.machine q false)))) }
        ensures due { IfOk result
            (λ done. IsDue self.new.journal → (done.passed ≡ true)
            ⊎ (IsDue self.old.journal × (accepted self.new.machine ≡ accepted self.old.machine))) }
        ensures passed { IfOk result
            (λ done. done.passed ≡ true → IsDue self.new.journal
            × (accepted self.new.machine ≡ accepted self.old.machine + 1)) }
        ensures later { accepted self.old.machine ≤ accepted self.new.machine }
        ensures only_due { self.new.journal.generation ≢ self.old.journal.generation
            → (payload : List ℕ) × (redone (run_out changed self.old.machine) payload
            ≡ Ok (run_out changed self.new.machine))
            × (16777216 < self.old.journal.grown + length payload + 13) }
        ensures told_a { is_told (K.contents disk_a.new) ≡ is_told (K.contents disk_a.old) }
        ensures told_b { is_told (K.contents disk_b.new) ≡ is_told (K.contents disk_b.old) }
        ensures cause { OnErr result (Rose (K.disk_faults disk_a.old) (K.disk_faults disk_a.new)
            ⊎ Rose (K.disk_faults disk_b.old) (K.disk_faults disk_b.new)) }
        ensures later_a { K.disk_faults disk_a.old ≤ K.disk_faults disk_a.new }
        ensures later_b { K.disk_faults disk_b.old ≤ K.disk_faults disk_b.new }
        ensures fetched { (q : Request) → call_of q ≡ Ok (write (change_view change))
            → fetches.new ≤ fetches.old + needed_fetches self.old.machine q }
    {
        let ready = match make_ready(alloc, &self.machine, change) {
            Ok(ready) => ready,
            Err(reply) => return Ok(replied(reply)),
        };
        match self.machine.make_room(alloc, fetches) {
            Ok(()) => self.accept(alloc, ready, disk_a, disk_b),
            Err(_) => Ok(replied(Reply::Memory)),
        }
    }

    // Records a task, where there is room for it, and puts it behind those that wait. Makes a checkpoint where one is
    // due by then.
    fn accept<K: Disk>(
        &mut self,
        alloc: Global,
        ready: Ready,
        disk_a: &mut K,
        disk_b: &mut K,
    ) -> Result<Answered, Failed>
        requires durable { IsDurable self.old (K.contents disk_a.old) (K.contents disk_b.old) }
        requires free { length self.old.machine.queue < most_queued }
        requires prepared { (c : ChangeData) × IsPrepared (accepted self.old.machine) c ready.prepared }
        requires number { ready.entry.number ≡ accepted self.old.machine }
        requires records { Records ready.prepared.task.change ready.entry.payload }
        ensures machine { OnOk result (self.new.machine ≡ behind ready.prepared.task self.old.machine) }
        ensures reply { IfOk result (λ done. done.reply ≡ ready.prepared.reply) }
        ensures follows { IfOk result (λ done. done.follows ≡ false) }
        ensures durable { OnOk result (IsDurable self.new (K.contents disk_a.new) (K.contents disk_b.new)) }
        ensures crash { OnErr result (CrashHolds (K.contents disk_a.new) (K.contents disk_b.new)
            (λ t. (t ≡ run_out changed self.old.machine)
            ⊎ (t ≡ run_out changed (behind ready.prepared.task self.old.machine)))) }
        ensures due { IfOk result (λ done. IsDue self.new.journal → done.passed ≡ true) }
        ensures passed { IfOk result (λ done. done.passed ≡ true → IsDue self.new.journal) }
        ensures later { accepted self.old.machine ≤ accepted self.new.machine }
        ensures only_due { self.new.journal.generation ≢ self.old.journal.generation
            → (redone (run_out changed self.old.machine) ready.entry.payload ≡ Ok (run_out changed self.new.machine))
            × (16777216 < self.old.journal.grown + length ready.entry.payload + 13) }
        ensures told_a { is_told (K.contents disk_a.new) ≡ is_told (K.contents disk_a.old) }
        ensures told_b { is_told (K.contents disk_b.new) ≡ is_told (K.contents disk_b.old) }
        ensures cause { OnErr result (Rose (K.disk_faults disk_a.old) (K.disk_faults disk_a.new)
            ⊎ Rose (K.disk_faults disk_b.old) (K.disk_faults disk_b.new)) }
        ensures later_a { K.disk_faults disk_a.old ≤ K.disk_faults disk_a.new }
        ensures later_b { K.disk_faults disk_b.old ≤ K.disk_faults disk_b.new }
    {
        let Ready { prepared, entry } = ready;
        append(&mut self.journal, disk_a, disk_b, entry)?;
        let reply = self.machine.enqueue(prepared);
        let passed = self.checkpoint_if_due(alloc, disk_a, disk_b)?;
        Ok(Answered {
            reply,
            passed,
            follows: false,
        })
    }

    // Makes a checkpoint where one is due, and says whether it was passed over for want of memory.
    fn checkpoint_if_due<K: Disk>(
        &mut self,
        alloc: Global,
        disk_a: &mut K,
        disk_b: &mut K,
    ) -> Result<bool, Failed>
        requires { IsDurable self.old (K.contents disk_a.old) (K.contents disk_b.old) }
        ensures machine { self.new.machine ≡ self.old.machine }
        ensures durable { OnOk result (IsDurable self.new (K.contents disk_a.new) (K.contents disk_b.new)) }
        ensures crash { OnErr result (CrashHolds (K.contents disk_a.new) (K.contents disk_b.new)
            (λ t. t ≡ run_out changed self.old.machine)) }
        ensures due { IfOk result (λ passed. IsDue self.new.journal → passed ≡ true) }
        ensures passed { IfOk result (λ passed. passed ≡ true → IsDue self.new.journal) }
        ensures only_due { self.new.journal.generation ≢ self.old.journal.generation → IsDue self.old.journal }
        ensures told_a { is_told (K.contents disk_a.new) ≡ is_told (K.contents disk_a.old) }
        ensures told_b { is_told (K.contents disk_b.new) ≡ is_told (K.contents disk_b.old) }
        ensures cause { OnErr result (Rose (K.disk_faults disk_a.old) (K.disk_faults disk_a.new)
            ⊎ Rose (K.disk_faults disk_b.old) (K.disk_faults disk_b.new)) }
        ensures later_a { K.disk_faults disk_a.old ≤ K.disk_faults disk_a.new }
        ensures later_b { K.disk_faults disk_b.old ≤ K.disk_faults disk_b.new }
    {
        if !self.journal.due() {
            return Ok(false);
        }
        let image = match self.machine.image(alloc) {
            Ok(image) => image,
            Err(_) => return Ok(true),
        };
        let first = match first_of(alloc, &self.machine) {
            Ok(first) => first,
            Err(_) => return Ok(true),
        };
        checkpoint(&mut self.journal, disk_a, disk_b, &image, &first)?;
        Ok(false)
    }

    // Makes a checkpoint of a machine in which no task waits, before it is given out. Its error is want of memory, or a
    // disk's count of faults rose.
    fn checkpoint_of_all<K: Disk>(
        &mut self,
        alloc: Global,
        disk_a: &mut K,
        disk_b: &mut K,
    ) -> Result<(), JournalFault>
        requires few { self.old.journal.generation < 2 ^ 64 - 1 }
        requires fits { Fits self.old.journal (K.contents disk_a.old) (K.contents disk_b.old) }
        requires counted { self.old.machine.finished ≡ self.old.journal.count }
        requires idle { self.old.machine.queue ≡ [] }
        requires settled_a { IsSettled (K.contents disk_a.old) }
        requires settled_b { IsSettled (K.contents disk_b.old) }
        ensures machine { self.new.machine ≡ self.old.machine }
        ensures durable { OnOk result (IsDurable self.new (K.contents disk_a.new) (K.contents disk_b.new)) }
        ensures kept { OnErr result (Hold (K.contents disk_a.old) (K.contents disk_b.old) self.old.machine
            → CrashHolds (K.contents disk_a.new) (K.contents disk_b.new) (λ t. t ≡ run_out changed self.old.machine)) }
        ensures whole { (disk place : ℕ) (found : Option ℕ) → result ≡ Err (Damaged disk place found) → ⊥ }
        ensures fault { result ≡ Err DiskFault → Rose (K.disk_faults disk_a.old) (K.disk_faults disk_a.new)
            ⊎ Rose (K.disk_faults disk_b.old) (K.disk_faults disk_b.new) }
        ensures made { OnOk result (self.old.journal.active ≡ None → (xs : List ℕ)
            → K.contents disk_a.old ≡ Some (fresh xs) → IsFirst self.old.machine (K.contents disk_a.new)) }
        ensures other { self.old.journal.active ≡ None → disk_b.new ≡ disk_b.old }
        ensures told_a { is_told (K.contents disk_a.new) ≡ is_told (K.contents disk_a.old) }
        ensures told_b { is_told (K.contents disk_b.new) ≡ is_told (K.contents disk_b.old) }
        ensures later_a { K.disk_faults disk_a.old ≤ K.disk_faults disk_a.new }
        ensures later_b { K.disk_faults disk_b.old ≤ K.disk_faults disk_b.new }
    {
        let image = match self.machine.image(alloc) {
            Ok(image) => image,
            Err(_) => return Err(JournalFault::NoMemory),
        };
        let first = FirstJournal::new(alloc, self.machine.finished());
        match checkpoint(&mut self.journal, disk_a, disk_b, &image, &first) {
            Ok(()) => Ok(()),
            Err(Failed) => Err(JournalFault::DiskFault),
        }
    }
}

// A reply without a checkpoint.
fn replied(reply: Reply) -> Answered
    ensures reply { result.reply ≡ reply }
    ensures passed { result.passed ≡ false }
    ensures follows { (s : State) (q : Request) (starved : Bool) → IsSentAs reply (answer_of s q starved)
        → result.follows ≡ is_followed_by s q starved }
{
    let follows = is_followed(&reply);
    Answered {
        reply,
        passed: false,
        follows,
    }
}

// A task with its reply and its record.
#[derive(Drop)]
struct Ready {
    prepared: PreparedTask,
    entry: Record,
}

// Takes all memory that a change needs as a task, and lets the change go. Where there is no task, this is the reply.
fn make_ready(alloc: Global, machine: &Machine, change: Change) -> Result<Ready, Reply>
    requires { IsAccepted (change_view change) }
    ensures prepared { IfOk result (λ ready. IsPrepared (accepted machine.now) (change_view change) ready.prepared) }
    ensures number { IfOk result (λ ready. ready.entry.number ≡ accepted machine.now) }
    ensures records { IfOk result (λ ready. Records ready.prepared.task.change ready.entry.payload) }
    ensures unmade { IfErr result
        (λ reply. Leaves machine.now (performed machine.now (write (change_view change))) reply machine.now) }
{
    let prepared = match machine.prepare_task(alloc, &change) {
        Ok(prepared) => prepared,
        Err(reply) => return Err(reply),
    };
    match record_of(alloc, &prepared.task) {
        Ok(entry) => Ok(Ready { prepared, entry }),
        Err(_) => Err(Reply::Memory),
    }
}

// The record of a task. Its error is want of memory.
fn record_of(alloc: Global, task: &Task<Payload>) -> Result<Record, NoMemory>
    ensures number { IfOk result (λ entry. entry.number ≡ task.now.number) }
    ensures records { IfOk result (λ entry. Records task.now.change entry.payload) }
{
    record(alloc, task.number, task.change.bytes())
}
