// The indexes as what a batch of changes is made on.
ghost use Rattle.named_indexes.specs.Changes.{changed as changed_in};
ghost use Rattle.named_indexes.specs.Needs.{need as need_in};
ghost use Rattle.named_indexes.specs.Payloads.{Accepts};
ghost use Rattle.named_indexes.specs.Numbers.{numbered as number_of};

use crate::changes::{changes_of, make};
use crate::indexes::Indexes;
use crate::payload::Payload;
use queued_changes::Worker;
use search_base::{NoMemory, Steps};
use std::alloc::Global;
use task_queue::{Outcome, Task};

impl Worker<Payload> for Indexes {
    ghost accepts = { Accepts };

    ghost changed = { changed_in };

    ghost need = { need_in };

    fn apply<F>(
        &mut self,
        alloc: Global,
        batch: &[Task<Payload>],
        fetches: &mut Steps<F>,
    ) -> Result<Vec<Outcome>, NoMemory> {
        match batch {
            [] => Ok(Vec::new(alloc)),
            [first, ..] => {
                let changes = changes_of(alloc, batch)?;
                make(alloc, &mut self.entries, &first.uid, changes, fetches)
            }
        }
    }

    ghost numbered = { λ uid kind change es accepted. number_of uid kind change es accepted };
}
