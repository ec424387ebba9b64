ghost use Rattle.std.specs.Prelude.{◌≡◌, ◌≢◌, ◌+◌, ◌<◌, ◌≤◌, ◌↔◌, ◌∷◌, IsTrue, List, [], length, ℕ};
ghost use Rattle.std.specs.Prelude.{IfErr, IfOk, OnErr, OnOk};
ghost use Rattle.std.specs.List.{AllByRecursion};
ghost use Rattle.bucket_sort.specs.Opens.{log_state};
ghost use Rattle.document_changes.specs.Changes.{change_view};
ghost use Rattle.http_wire.specs.Stream.{Request};
ghost use Rattle.index_image.specs.Image.{state_at};
ghost use Rattle.index_image.specs.Rows.{image_view};
ghost use Rattle.index_image.specs.State.{IsState};
ghost use Rattle.request_calls.specs.Asked.{read, read_view, write};
ghost use Rattle.request_calls.specs.Calls.{IsAccepted, call_of};
ghost use Rattle.task_queue.specs.Queue.{AreNumbered, most_queued};
ghost use Rattle.queued_changes.specs.State.{accepted};
ghost use Rattle.queued_changes.specs.Machine.{behind, make_room as with_room, run_out, settle as settled};
ghost use Rattle.queued_changes.specs.Needs.{out_need};
ghost use Rattle.named_indexes.specs.Changes.{changed};
ghost use Rattle.named_indexes.specs.Needs.{need};
ghost use Rattle.named_indexes.specs.Payloads.{Accepts};
ghost use Rattle.search_routes.specs.Done.{Answered, IsPrepared, Leaves, Makes, noted};
ghost use Rattle.search_routes.specs.Images.{Opens, Spells, image_need, need_of, state_of};
ghost use Rattle.search_routes.specs.Machine.{performed};
ghost use Rattle.search_routes.specs.Needs.{batch_need, needed_fetches, read_need, room_need};
ghost use Rattle.search_routes.specs.Openings.{most_opened_by, read_most, read_opened};
ghost use Rattle.search_routes.specs.Redo.{IsReadAgain};
ghost use Rattle.search_routes.specs.State.{empty_state, most_changes};

use crate::performing::reply_to;
use crate::reads::read_queued;
use crate::tasks::{PreparedTask, prepare};
use bucket_sort::BucketLog;
use change_payloads::ImageFault;
use document_changes::Change;
use http_wire::Reply;
use index_image::{ImageRows, decode, encode};
use named_indexes::{Indexes, Payload};
use queued_changes::Queued;
use request_calls::ReadCall;
use request_routes::RouteTable;
use search_base::{NoMemory, Steps};
use std::alloc::Global;
use std::marker::Model;
use task_queue::Task;

/// The indexes of a server, each by its uid, and the tasks that change them: those that wait, at most 16, and what
/// became of the last that finished. At most 1,000,000,000 tasks are accepted. A machine also has the table in which
/// the paths of its requests are looked up, which is made once, with the machine.
#[derive(Drop)]
pub struct Machine {
    queued: Queued<Payload, Indexes>,
    table: RouteTable,
}

impl Model for Machine {
    ghost use Rattle.std.specs.Coded.{codes};
    ghost use Rattle.doc_values.specs.DataCode.{data_code};
    ghost use Rattle.index_changes.specs.Index.{index_code};
    ghost use Rattle.search_routes.specs.State.{State};
    ghost use Rattle.search_routes.specs.Good.{IsFit};

    ghost Value = { State };

    ghost coded = { Prim.hlevel (codes, data_code, index_code) };

    ghost view = { λ m. m.queued };

    ghost invariant = { λ m. IsFit m.queued };
}

impl Machine {
    /// A machine with no index, which has accepted no task. Its error is want of memory.
    pub fn new(alloc: Global) -> Result<Machine, NoMemory>
        ensures { IfOk result (λ machine. machine ≡ empty_state) }
    {
        let indexes = Indexes::new(alloc);
        Ok(Machine {
            queued: Queued::new(alloc, 0, indexes)?,
            table: RouteTable::new(alloc)?,
        })
    }

    /// The machine of the rows of an image, with what became of its last tasks, and no task that waits. Reads each
    /// document once. Its error is want of memory.
    pub fn from_image<F>(
        alloc: Global,
        rows: ImageRows,
        fetches: &mut Steps<F>,
    ) -> Result<Machine, NoMemory>
        requires { IsState (image_view rows) }
        ensures state { IfOk result (λ machine. machine ≡ state_of (image_view rows)) }
        ensures fetched { fetches.new ≤ fetches.old + image_need (image_view rows) }
    {
        let table = RouteTable::new(alloc)?;
        let ImageRows {
            changes,
            indexes,
            outcomes,
        } = rows;
        let indexes = Indexes::from_rows(alloc, indexes, fetches)?;
        let queued = Queued::restore(alloc, changes, outcomes, indexes)?;
        Ok(Machine { queued, table })
    }

    /// The machine of an image, or the first byte of the image that is damaged. Reads each document once.
    pub fn open<F>(
        alloc: Global,
        image: &[u8],
        fetches: &mut Steps<F>,
    ) -> Result<Machine, ImageFault>
        ensures exact { Opens result (state_at image.now) }
        ensures fetched { fetches.new ≤ fetches.old + need_of (state_at image.now) }
    {
        let rows = decode(alloc, image)?;
        let machine = Machine::from_image(alloc, rows, fetches)?;
        Ok(machine)
    }

    /// The image, version 2, of what the finished tasks left, and of what became of the last of them, which `open`
    /// opens. The tasks that wait do not stand in it. Its error is want of memory.
    pub fn image(&self, alloc: Global) -> Result<Vec<u8>, NoMemory>
        ensures state { IfOk result (λ bytes. Spells bytes.items self.now (state_at bytes.items)) }
        ensures version { IfOk result (λ bytes. (rest : List ℕ) × (bytes.items ≡ 2 ∷ rest)) }
    {
        let rows = ImageRows {
            changes: self.queued.finished(),
            indexes: self.queued.worker().rows(alloc)?,
            outcomes: self.queued.outcomes(alloc)?,
        };
        let bytes = encode(alloc, &rows)?;
        Ok(bytes)
    }

    /// The table in which the paths of requests are looked up. Takes no memory.
    pub fn table(&self) -> &RouteTable {
        &self.table
    }

    /// How many tasks were accepted, from 0 to 1,000,000,000: the number of the next. Takes no memory.
    pub fn accepted(&self) -> u64
        ensures count { result ≡ accepted self.now }
        ensures fit { accepted self.now ≤ most_changes }
    {
        self.queued.accepted()
    }

    /// How many tasks have finished. Takes no memory.
    pub fn finished(&self) -> u64
        ensures { result ≡ self.now.finished }
    {
        self.queued.finished()
    }

    /// The tasks that wait, in order. What records the change of one is read again as this task, by `task_again`. Takes
    /// no memory.
    pub fn queued(&self) -> &[Task<Payload>]
        ensures tasks { result.now ≡ self.now.queue }
        ensures accepts { AllByRecursion (λ t. Accepts t.uid t.kind t.change) self.now.queue }
        ensures again { AllByRecursion IsReadAgain self.now.queue }
        ensures numbered { AreNumbered self.now.finished self.now.queue }
        ensures few { length self.now.queue ≤ most_queued }
        ensures fit { accepted self.now ≤ most_changes }
    {
        self.queued.waiting()
    }

    /// Takes all memory that a change needs as a task, that of its reply too. The change is one that `read_call`
    /// accepts. Past the limit of tasks, or for want of memory, there is no task, and this is the reply.
    pub fn prepare_task(&self, alloc: Global, change: &Change) -> Result<PreparedTask, Reply>
        requires { IsAccepted (change_view change.now) }
        ensures prepared { IfOk result (IsPrepared (accepted self.now) (change_view change.now)) }
        ensures unmade { IfErr result
            (λ reply. Leaves self.now (performed self.now (write (change_view change.now))) reply self.now) }
    {
        match prepare(alloc, self.queued.accepted(), change) {
            Ok(prepared) => Ok(prepared),
            Err(fault) => Err(reply_to(alloc, Err(fault))),
        }
    }

    /// Runs the oldest batch where 16 tasks wait. Its error is want of memory: then all is as it was.
    pub fn make_room<F>(&mut self, alloc: Global, fetches: &mut Steps<F>) -> Result<(), NoMemory>
        ensures room { OnOk result (self.new ≡ with_room changed self.old) }
        ensures free { OnOk result (length self.new.queue < most_queued) }
        ensures counted { accepted self.new ≡ accepted self.old }
        ensures stays { OnErr result (self.new ≡ self.old) }
        ensures fetched { fetches.new ≤ fetches.old + room_need self.old }
    {
        self.queued.make_room(alloc, fetches)
    }

    /// Puts the next task behind those that wait. Takes no memory.
    pub fn push(&mut self, task: Task<Payload>)
        requires free { length self.old.queue < most_queued }
        requires room { accepted self.old < most_changes }
        requires number { task.number ≡ accepted self.old }
        requires accepts { Accepts task.uid task.kind task.change }
        ensures { self.new ≡ behind task self.old }
    {
        let Task {
            uid,
            kind,
            change,
            ..
        } = task;
        self.queued.enqueue(uid, kind, change);
    }

    /// The same with a task that was prepared, and its reply. Takes no memory.
    pub fn enqueue(&mut self, prepared: PreparedTask) -> Reply
        requires free { length self.old.queue < most_queued }
        requires room { accepted self.old < most_changes }
        requires number { prepared.task.number ≡ accepted self.old }
        requires accepts { Accepts prepared.task.uid prepared.task.kind prepared.task.change }
        ensures task { self.new ≡ behind prepared.task self.old }
        ensures reply { result ≡ prepared.reply }
    {
        let PreparedTask { task, reply } = prepared;
        self.push(task);
        reply
    }

    /// Runs the oldest batch; false where no task waits. `fetches` counts the stored documents that are read. Its error
    /// is want of memory: then some task waits, and all is as it was.
    pub fn settle<F>(&mut self, alloc: Global, fetches: &mut Steps<F>) -> Result<bool, NoMemory>
        ensures settled { OnOk result (self.new ≡ settled changed self.old) }
        ensures some { IfOk result (λ some. IsTrue some ↔ (self.old.queue ≢ [])) }
        ensures shorter { IfOk result (λ some. IsTrue some → length self.new.queue < length self.old.queue) }
        ensures counted { accepted self.new ≡ accepted self.old }
        ensures stays { OnErr result (self.new ≡ self.old) }
        ensures waits { OnErr result (self.old.queue ≢ []) }
        ensures fetched { fetches.new ≤ fetches.old + batch_need self.old }
    {
        self.queued.settle(alloc, fetches)
    }

    /// Runs all tasks that wait, batch by batch. Its error is want of memory: then some batches may have run, and the
    /// others wait.
    pub fn settle_all<F>(&mut self, alloc: Global, fetches: &mut Steps<F>) -> Result<(), NoMemory>
        ensures all { OnOk result (self.new ≡ run_out changed self.old) }
        ensures some { run_out changed self.new ≡ run_out changed self.old }
        ensures counted { accepted self.new ≡ accepted self.old }
        ensures fetched { fetches.new ≤ fetches.old + out_need changed need self.old }
    {
        while self.settle(alloc, fetches)? {}
        Ok(())
    }

    /// Answers a call that changes nothing, or says that there was no memory. `fetches` counts the stored documents
    /// that are read, at most those that the call needs, by specs/Needs.antt. The log is told each bucket that the call
    /// opens, by specs/Openings.antt, and `openings` counts them.
    pub fn read<F, G>(
        &self,
        alloc: Global,
        call: ReadCall,
        log: &mut Box<dyn BucketLog>,
        fetches: &mut Steps<F>,
        openings: &mut Steps<G>,
    ) -> Reply
        ensures made { Makes (performed self.now (read (read_view call)))
            (read_opened self.now.indexes (read_view call))
            (noted self.now (log_state (told log.old) openings.old)) result
            (noted self.now (log_state (told log.new) openings.new)) }
        ensures answered { (q : Request) → call_of q ≡ Ok (read (read_view call)) → Answered
            (noted self.now (log_state (told log.old) openings.old)) q result
            (noted self.now (log_state (told log.new) openings.new)) }
        ensures fetched { fetches.new ≤ fetches.old + read_need self.now.indexes (read_view call) }
        ensures needed { (q : Request) → call_of q ≡ Ok (read (read_view call))
            → fetches.new ≤ fetches.old + needed_fetches self.now q }
        ensures few { openings.new ≤ openings.old + read_most self.now.indexes (read_view call) }
        ensures few_for { (q : Request) → call_of q ≡ Ok (read (read_view call))
            → openings.new ≤ openings.old + most_opened_by self.now q }
    {
        let done = read_queued(alloc, &self.queued, call, log, fetches, openings);
        reply_to(alloc, done)
    }
}
