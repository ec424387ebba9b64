// A worker that keeps the amounts that changes bring, and tells how it was asked for them.
ghost use Rattle.std.specs.Prelude.{◌≡◌, [], map, IfOk};
ghost use Rattle.tests_tasks.specs.Counter.{counted, outcome_of, amounts_of, has_number};

use queued_changes::Worker;
use search_base::{NoMemory, Steps};
use std::alloc::Global;
use std::marker::Model;
use task_queue::{Outcome, Task};

// The amounts that were kept, in order. Seen as these alone: how many tasks each batch had, and how often memory is still
// to be wanting, are for tests to see.
#[derive(Drop)]
pub(crate) struct Counter {
    pub(crate) kept: Vec<u8>,
    pub(crate) batches: Vec<usize>,
    pub(crate) refusals: u64,
}

impl Model for Counter {
    ghost use Rattle.std.specs.Prelude.{List, ℕ};

    ghost Value = { List ℕ };

    ghost view = { λ counter. counter.kept.items };
}

impl Counter {
    pub(crate) fn new(alloc: Global, refusals: u64) -> Counter
        ensures { result ≡ [] }
    {
        Counter {
            kept: Vec::new(alloc),
            batches: Vec::new(alloc),
            refusals,
        }
    }
}

impl Worker<u8> for Counter {
    ghost accepts = { λ uid kind amount. Unit {0} };

    ghost changed = { counted };

    ghost need = { λ batch kept. 0 };

    #[tactic(auto, using(crate::proofs::Counting::after_is, crate::proofs::Counting::rows_are))]
    fn apply<F>(
        &mut self,
        alloc: Global,
        batch: &[Task<u8>],
        _fetches: &mut Steps<F>,
    ) -> Result<Vec<Outcome>, NoMemory> {
        if self.refusals > 0 {
            self.refusals -= 1;
            return Err(NoMemory);
        }
        let mut more = amounts(alloc, batch)?;
        let outcomes = outcomes(alloc, batch)?;
        self.batches.push(batch.len())?;
        self.kept.append(&mut more)?;
        Ok(outcomes)
    }

    ghost numbered = { λ uid kind amount kept accepted. has_number uid amount kept };
}

// The amounts that are kept of tasks, in order.
fn amounts(alloc: Global, batch: &[Task<u8>]) -> Result<Vec<u8>, NoMemory>
    ensures { IfOk result (λ more. more.items ≡ amounts_of batch.now) }
{
    let amounts = batch
        .iter()
        .map(|task| task.change)
        .filter(|amount| *amount > 0)
        .collect(alloc)?;
    Ok(amounts)
}

fn outcomes(alloc: Global, batch: &[Task<u8>]) -> Result<Vec<Outcome>, NoMemory>
    ensures { IfOk result (λ outcomes. outcomes.items ≡ map (λ t. outcome_of t.change) batch.now) }
{
    let outcomes = batch
        .iter()
        .map(|task| outcome(task.change))
        .collect(alloc)?;
    Ok(outcomes)
}

// An amount of 0 is refused.
fn outcome(amount: u8) -> Outcome
    ensures { result ≡ outcome_of amount }
{
    if amount > 0 {
        Outcome::Succeeded
    } else {
        Outcome::Failed { row: 27 }
    }
}
