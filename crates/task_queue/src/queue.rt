ghost use Rattle.std.specs.Prelude.{◌≡◌, ◌+◌, ◌-◌, ◌^◌, ◌<◌, ◌≤◌, ◌∷◌, [], false, ℕ, length, map, IfOk};
ghost use Rattle.std.specs.Option.{option_map};
ghost use Rattle.task_queue.specs.Queue.{Tasks, AreNumbered, most_queued, is_full, no_tasks, joined, batch_len as batch_of, run_of, is_joined as joins_kind, joins as joins_first, row_of, one_done, all_done, found, shown, state_of as state_in, queued_shown, outcome_shown};

use crate::{Outcome, Task, TaskState, TaskView};
use circular_buffer::HeapCircularBuffer;
use search_base::{NoMemory, OutcomeRow, Word};
use std::alloc::Global;
use std::marker::Model;

const MOST_QUEUED: usize = 16;

const MOST_OUTCOMES: usize = 1_000;

/// The tasks that wait, in order, and the outcomes of the last tasks that finished.
#[derive(Drop)]
pub struct TaskQueue<C> {
    finished: u64,
    queued: Vec<Task<C>>,
    outcomes: HeapCircularBuffer<OutcomeRow>,
}

impl<C> Model for TaskQueue<C> {
    ghost use Rattle.task_queue.specs.Queue.{Tasks};
    ghost use Rattle.task_queue.specs.Rooms.{HasRoom};
    ghost use Rattle.std.specs.Vec.{vec_capacity};

    ghost Value = { Tasks C };

    ghost view = { λ q. record { finished = q.finished; queued = q.queued.items; outcomes = q.outcomes.items } };

    ghost invariant = { λ q. HasRoom q.finished q.queued.items q.outcomes (vec_capacity q.queued) };
}

impl<C: Drop> TaskQueue<C> {
    /// No tasks, where so many have finished before. Takes all room that the queue will ever need.
    pub fn new(alloc: Global, finished: u64) -> Result<TaskQueue<C>, NoMemory>
        ensures { IfOk result (λ q. q ≡ no_tasks finished) }
    {
        Ok(TaskQueue {
            finished,
            queued: Vec::with_capacity(alloc, MOST_QUEUED)?,
            outcomes: HeapCircularBuffer::with_capacity(alloc, MOST_OUTCOMES)?,
        })
    }

    /// The same with these outcomes of the last tasks, the oldest first.
    pub fn restore(
        alloc: Global,
        finished: u64,
        outcomes: Vec<OutcomeRow>,
    ) -> Result<TaskQueue<C>, NoMemory>
        requires few { length outcomes.items ≤ 1000 }
        requires within { length outcomes.items ≤ finished }
        ensures { IfOk result (λ q. q ≡ record { finished = finished; queued = []; outcomes = outcomes.items }) }
    {
        let mut ring = HeapCircularBuffer::with_capacity(alloc, MOST_OUTCOMES)?;
        put_in(&mut ring, outcomes);
        Ok(TaskQueue {
            finished,
            queued: Vec::with_capacity(alloc, MOST_QUEUED)?,
            outcomes: ring,
        })
    }

    /// Whether 16 tasks wait.
    pub fn full(&self) -> bool
        ensures full { result ≡ is_full self.now }
        ensures few { length self.now.queued ≤ most_queued }
    {
        self.queued.len() >= MOST_QUEUED
    }

    /// Puts a task behind the others, which has the next number.
    pub fn push(&mut self, task: Task<C>)
        requires room { is_full self.old ≡ false }
        requires next { task.number ≡ self.old.finished + length self.old.queued }
        requires last { task.number < 2 ^ 64 - 1 }
        ensures { self.new ≡ joined task self.old }
    {
        match self.queued.push(task) {
            Ok(()) => {}
            Err(_) => {}
        }
    }

    /// The tasks that wait, in order.
    pub fn queued(&self) -> &[Task<C>]
        ensures tasks { result.now ≡ self.now.queued }
        ensures numbered { AreNumbered self.now.finished self.now.queued }
        ensures few { length self.now.queued ≤ most_queued }
    {
        &self.queued
    }

    /// How many tasks are the oldest batch: 0 exactly where none waits.
    pub fn batch_len(&self) -> usize
        ensures { result ≡ batch_of self.now.queued }
    {
        match self.queued.as_slice() {
            [] => 0,
            [first, rest @ ..] => batch_from(first, rest),
        }
    }

    /// Moves as many of the oldest tasks to those that have finished as outcomes are given. Where there are more than
    /// 1,000 then, the oldest are forgotten.
    pub fn finish(&mut self, outcomes: &[Outcome])
        requires { length outcomes.now ≤ length self.old.queued }
        ensures { self.new ≡ all_done (map row_of outcomes.now) self.old }
    {
        for outcome in outcomes {
            self.finish_first(*outcome);
        }
    }

    /// The task of a number, if it waits or is among the last 1,000 that finished.
    pub fn find(&self, number: u64) -> Option<TaskView<'_>>
        ensures { option_map shown result ≡ found number self.now }
    {
        if number < self.finished {
            self.find_finished(number)
        } else {
            self.find_queued(number)
        }
    }

    /// How many tasks have finished.
    pub fn finished(&self) -> u64
        ensures { result ≡ self.now.finished }
    {
        self.finished
    }

    /// How many tasks have come, finished ones and those that wait: the number of the next.
    pub fn accepted(&self) -> u64
        ensures { result ≡ self.now.finished + length self.now.queued }
    {
        self.finished + self.queued.len() as u64
    }

    /// The outcomes of the last tasks that finished, the oldest first.
    pub fn outcomes(&self, alloc: Global) -> Result<Vec<OutcomeRow>, NoMemory>
        ensures rows { IfOk result (λ rows. rows.items ≡ self.now.outcomes) }
        ensures few { length self.now.outcomes ≤ 1000 }
        ensures within { length self.now.outcomes ≤ self.now.finished }
    {
        rows_in(alloc, &self.outcomes)
    }

    fn finish_first(&mut self, outcome: Outcome)
        requires { 0 < length self.old.queued }
        ensures { self.new ≡ one_done (row_of outcome) self.old }
    {
        let Task { uid, kind, .. } = self.queued.remove(0);
        self.finished += 1;
        let row = row_number(outcome);
        self.outcomes.push_back(OutcomeRow { uid, kind, row });
    }

    fn find_finished(&self, number: u64) -> Option<TaskView<'_>>
        requires { number < self.now.finished }
        ensures { option_map shown result ≡ found number self.now }
    {
        match self
            .outcomes
            .nth_back((self.finished - number - 1) as usize)
        {
            Some(row) => Some(TaskView {
                number,
                uid: &row.uid,
                kind: row.kind,
                state: state_of(row.row),
            }),
            None => None,
        }
    }

    fn find_queued(&self, number: u64) -> Option<TaskView<'_>>
        requires { self.now.finished ≤ number }
        ensures { option_map shown result ≡ found number self.now }
    {
        match self.queued.get((number - self.finished) as usize) {
            Some(task) => Some(TaskView {
                number: task.number,
                uid: &task.uid,
                kind: task.kind,
                state: TaskState::Enqueued,
            }),
            None => None,
        }
    }
}

fn row_number(outcome: Outcome) -> u8
    ensures { result ≡ row_of outcome }
{
    match outcome {
        Outcome::Succeeded => 0,
        Outcome::Failed { row } => row,
    }
}

fn state_of(row: u8) -> TaskState
    ensures { result ≡ state_in row }
{
    if row == 0 {
        TaskState::Succeeded
    } else {
        TaskState::Failed { row }
    }
}

// How many tasks the first one and those behind it are.
fn batch_from<C>(first: &Task<C>, rest: &[Task<C>]) -> usize
    ensures { result ≡ batch_of (first.now ∷ rest.now) }
{
    if joins_kind(first.kind) {
        1 + run_len(first, rest)
    } else {
        1
    }
}

// Whether a kind is one of those that a batch may have several of.
fn joins_kind(kind: u8) -> bool
    ensures { result ≡ joins_kind kind }
{
    3 <= kind && kind <= 5
}

// How many tasks follow the first one in its batch.
fn run_len<C>(first: &Task<C>, rest: &[Task<C>]) -> usize
    ensures count { result ≡ run_of first.now rest.now }
    ensures within { result ≤ length rest.now }
{
    let mut count = 0;
    for task in rest {
        if !joins(first, task) {
            return count;
        }
        count += 1;
    }
    count
}

fn joins<C>(first: &Task<C>, task: &Task<C>) -> bool
    ensures { result ≡ joins_first first.now task.now }
{
    task.uid == first.uid && task.kind == first.kind
}

// Puts outcomes into a ring that has room for all of them.
fn put_in(ring: &mut HeapCircularBuffer<OutcomeRow>, outcomes: Vec<OutcomeRow>)
    requires empty { ring.old.items ≡ [] }
    requires room { length outcomes.items ≤ ring.old.capacity }
    ensures items { ring.new.items ≡ outcomes.items }
    ensures capacity { ring.new.capacity ≡ ring.old.capacity }
{
    for row in outcomes {
        ring.push_back(row);
    }
}

fn rows_in(
    alloc: Global,
    ring: &HeapCircularBuffer<OutcomeRow>,
) -> Result<Vec<OutcomeRow>, NoMemory>
    ensures { IfOk result (λ rows. rows.items ≡ ring.now.items) }
{
    let mut rows = Vec::with_capacity(alloc, ring.len())?;
    for at in 0..ring.len() {
        if let Some(row) = ring.get(at) {
            let uid = row.uid.clone()?;
            rows.push(OutcomeRow {
                uid,
                kind: row.kind,
                row: row.row,
            })?;
        }
    }
    Ok(rows)
}
