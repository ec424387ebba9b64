ghost use Rattle.std.specs.Prelude.{◌≡◌, ◌≢◌, ◌+◌, ◌-◌, ◌^◌, ◌<◌, ◌≤◌, ◌↔◌, [], IsTrue, length, IfOk, OnOk, OnErr};
ghost use Rattle.std.specs.List.{AllByRecursion};
ghost use Rattle.std.specs.Option.{option_map};
ghost use Rattle.task_queue.specs.Queue.{AreNumbered, found, shown, most_queued};
ghost use Rattle.queued_changes.specs.State.{accepted, idle, tasks_of};
ghost use Rattle.queued_changes.specs.Machine.{settle as settled, run_out, make_room as with_room, behind, task_of};
ghost use Rattle.queued_changes.specs.Needs.{batch_need, room_need, out_need};

use crate::Worker;
use search_base::{NoMemory, OutcomeRow, Steps, Word};
use std::alloc::Global;
use std::marker::Model;
use task_queue::{Task, TaskQueue, TaskView};

/// A worker, the changes that wait for it, and what became of the last ones that it made.
#[derive(Drop)]
pub struct Queued<C: Drop, W: Worker<C>> {
    queue: TaskQueue<C>,
    worker: W,
}

impl<C: Drop, W: Worker<C>> Model for Queued<C, W> {
    ghost use Rattle.std.specs.List.{AllByRecursion};
    ghost use Rattle.queued_changes.specs.State.{State};

    ghost Value = { State C W };

    ghost view = { λ q. record {
      finished = q.queue.finished;
      queue = q.queue.queued;
      outcomes = q.queue.outcomes;
      indexes = q.worker;
    } };

    ghost invariant = { λ q. AllByRecursion (λ t. W.accepts t.uid t.kind t.change) q.queue.queued };
}

impl<C: Drop, W: Worker<C>> Queued<C, W> {
    /// A worker after so many finished tasks, of which nothing is known. No task waits. Takes all room that the tasks
    /// will ever need; its error is want of memory.
    pub fn new(alloc: Global, finished: u64, worker: W) -> Result<Queued<C, W>, NoMemory>
        ensures { IfOk result (λ q. q ≡ idle finished [] worker) }
    {
        Ok(Queued {
            queue: TaskQueue::new(alloc, finished)?,
            worker,
        })
    }

    /// The same with these outcomes of the last tasks, the oldest first.
    pub fn restore(
        alloc: Global,
        finished: u64,
        outcomes: Vec<OutcomeRow>,
        worker: W,
    ) -> Result<Queued<C, W>, NoMemory>
        requires few { length outcomes.items ≤ 1000 }
        requires within { length outcomes.items ≤ finished }
        ensures { IfOk result (λ q. q ≡ idle finished outcomes.items worker) }
    {
        Ok(Queued {
            queue: TaskQueue::restore(alloc, finished, outcomes)?,
            worker,
        })
    }

    /// How many tasks were accepted: the number of the next.
    pub fn accepted(&self) -> u64
        ensures { result ≡ accepted self.now }
    {
        self.queue.accepted()
    }

    /// How many tasks have finished.
    pub fn finished(&self) -> u64
        ensures { result ≡ self.now.finished }
    {
        self.queue.finished()
    }

    /// The tasks that wait, in order.
    pub fn waiting(&self) -> &[Task<C>]
        ensures tasks { result.now ≡ self.now.queue }
        ensures accepted { AllByRecursion (λ t. W.accepts t.uid t.kind t.change) self.now.queue }
        ensures numbered { AreNumbered self.now.finished self.now.queue }
        ensures few { length self.now.queue ≤ most_queued }
    {
        self.queue.queued()
    }

    /// The task of a number, if it waits or is among the last 1,000 that finished.
    pub fn find(&self, number: u64) -> Option<TaskView<'_>>
        ensures { option_map shown result ≡ found number (tasks_of self.now) }
    {
        self.queue.find(number)
    }

    /// The outcomes of the last tasks that finished, the oldest first. Its error is want of memory.
    pub fn outcomes(&self, alloc: Global) -> Result<Vec<OutcomeRow>, NoMemory>
        ensures rows { IfOk result (λ rows. rows.items ≡ self.now.outcomes) }
        ensures few { length self.now.outcomes ≤ 1000 }
        ensures within { length self.now.outcomes ≤ self.now.finished }
    {
        self.queue.outcomes(alloc)
    }

    /// What the finished tasks left.
    pub fn worker(&self) -> &W
        ensures { result.now ≡ self.now.indexes }
    {
        &self.worker
    }

    /// Puts a change behind those that wait. Takes no memory.
    pub fn enqueue(&mut self, uid: Word, kind: u8, change: C)
        requires room { length self.old.queue < most_queued }
        requires last { accepted self.old < 2 ^ 64 - 1 }
        requires accepts { W.accepts uid kind change }
        ensures { self.new ≡ behind (task_of uid kind change self.old) self.old }
    {
        let number = self.queue.accepted();
        self.queue.push(Task {
            number,
            uid,
            kind,
            change,
        });
    }

    /// Makes the changes of the oldest batch; false where none waits. `fetches` counts the stored documents that are
    /// read. Its error is want of memory: then some change waits, and all is as it was.
    pub fn settle<F>(&mut self, alloc: Global, fetches: &mut Steps<F>) -> Result<bool, NoMemory>
        ensures settled { OnOk result (self.new ≡ settled W.changed self.old) }
        ensures some { IfOk result (λ some. IsTrue some ↔ (self.old.queue ≢ [])) }
        ensures shorter { IfOk result (λ some. IsTrue some → length self.new.queue < length self.old.queue) }
        ensures counted { accepted self.new ≡ accepted self.old }
        ensures stays { OnErr result (self.new ≡ self.old) }
        ensures waits { OnErr result (self.old.queue ≢ []) }
        ensures fetched { fetches.new ≤ fetches.old + batch_need W.need self.old }
    {
        let count = self.queue.batch_len();
        if count == 0 {
            return Ok(false);
        }
        let outcomes = self
            .worker
            .apply(alloc, &self.queue.queued()[..count], fetches)?;
        self.queue.finish(&outcomes);
        Ok(true)
    }

    /// The same where 16 tasks wait, and nothing where fewer do.
    pub fn make_room<F>(&mut self, alloc: Global, fetches: &mut Steps<F>) -> Result<(), NoMemory>
        ensures room { OnOk result (self.new ≡ with_room W.changed self.old) }
        ensures free { OnOk result (length self.new.queue < most_queued) }
        ensures counted { accepted self.new ≡ accepted self.old }
        ensures stays { OnErr result (self.new ≡ self.old) }
        ensures fetched { fetches.new ≤ fetches.old + room_need W.need self.old }
    {
        if self.queue.full() {
            self.settle(alloc, fetches)?;
        }
        Ok(())
    }

    /// Makes all changes that wait, batch by batch. Its error is want of memory: then some batches may have run, and the
    /// others wait.
    pub fn settle_all<F>(&mut self, alloc: Global, fetches: &mut Steps<F>) -> Result<(), NoMemory>
        ensures all { OnOk result (self.new ≡ run_out W.changed self.old) }
        ensures some { run_out W.changed self.new ≡ run_out W.changed self.old }
        ensures counted { accepted self.new ≡ accepted self.old }
        ensures fetched { fetches.new ≤ fetches.old + out_need W.changed W.need self.old }
    {
        while self.settle(alloc, fetches)? {}
        Ok(())
    }
}
