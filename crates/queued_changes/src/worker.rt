ghost use Rattle.std.specs.Prelude.{◌≡◌, ◌≢◌, ◌+◌, ◌≤◌, ℕ, List, map, Result, Err, IfOk, OnOk, OnErr};
ghost use Rattle.std.specs.List.{AllByRecursion};
ghost use Rattle.task_queue.specs.declared.task.Task.{Task};
ghost use Rattle.task_queue.specs.Queue.{row_of};
ghost use Rattle.queued_changes.specs.Batches.{IsBatch, after_each, rows_of};

use search_base::{NoMemory, Steps};
use std::alloc::Global;
use task_queue::{Outcome, Task};

/// What changes are made on. A batch is of one index: an implementor hands its changes on to that index, all at once.
pub trait Worker<C>: Drop {
    // What it may be asked for: a change of the index of a uid, with the byte of its kind.
    ghost accepts: { List ℕ → ℕ → C → Type 0 };

    // What a change of the index of a uid leaves, or the number of the refusal that refuses it.
    ghost changed: { List ℕ → C → Self → Result Self ℕ };

    // How many stored documents a batch needs to read.
    ghost need: { List (Task C) → Self → ℕ };

    /// Makes the changes of a batch. What is held then is what they leave one by one, where one that is refused changes
    /// nothing, and the outcomes are theirs, in order. `fetches` counts the stored documents that are read. For want
    /// of memory nothing changes.
    fn apply<F>(
        &mut self,
        alloc: Global,
        batch: &[Task<C>],
        fetches: &mut Steps<F>,
    ) -> Result<Vec<Outcome>, NoMemory>
        requires batch { IsBatch batch.now }
        requires accepted { AllByRecursion (λ t. accepts t.uid t.kind t.change) batch.now }
        ensures applied { OnOk result (self.new ≡ after_each changed batch.now self.old) }
        ensures outcomes { IfOk result (λ outcomes. map row_of outcomes.items ≡ rows_of changed batch.now self.old) }
        ensures stays { OnErr result (self.new ≡ self.old) }
        ensures fetched { fetches.new ≤ fetches.old + need batch.now self.old };

    // No refusal has the number 0, which stands for a change that was made.
    ghost numbered: { (uid : List ℕ) (kind : ℕ) (change : C) (worker : Self)
        → accepts uid kind change → changed uid change worker ≢ Err 0 };
}
