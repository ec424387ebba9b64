ghost use Rattle.std.specs.Prelude.{◌≡◌, ◌<◌, [], length, slice_get, Some};
ghost use Rattle.std.specs.List.{slice_set};
ghost use Rattle.doc_sets.specs.Sets.{IsIncreasing};
ghost use Rattle.doc_sets.specs.SetView.{SetView};

use crate::query::RuleQuery;
use crate::source::RuleSource;
use bucket_sort::{Bucket, BucketStream};
use doc_sets::DocSet;
use search_base::{CostKey, NoMemory, Steps};
use std::alloc::Global;
use std::marker::Model;
use std::mem;

/// Documents whose entries are known: those of entry 0, then those of entry 1, and so on.
#[derive(Drop)]
pub(crate) struct ListedBuckets<'a, S: RuleSource> {
    pub(crate) query: RuleQuery<'a, S>,
    pub(crate) sets: Vec<DocSet>,
    pub(crate) next: usize,
}

impl<'a, S: RuleSource> Model for ListedBuckets<'a, S> {
    ghost use Rattle.rule_buckets.specs.Entries.{StreamView, entry_in};
    ghost use Rattle.rule_buckets.specs.Listed.{AreListed, left_from};

    ghost Value = { StreamView S };

    ghost view = { λ l. record { query = l.query; remaining = left_from l.next l.sets.items } };

    ghost invariant = { λ l. AreListed (entry_in S.rows l.query) l.sets.items };
}

// The set at a place, in whose place stands an empty one.
fn take_at(alloc: Global, sets: &mut Vec<DocSet>, at: usize) -> DocSet
    requires { at < length sets.old.items }
    ensures taken { slice_get sets.old.items at ≡ Some result }
    ensures increasing { IsIncreasing result.ids }
    ensures left { (none : SetView) × (none.ids ≡ []) × (sets.new.items ≡ slice_set sets.old.items at none) }
{
    let docs = mem::replace(&mut sets[at], DocSet::new(alloc));
    let _len = docs.len();
    docs
}

impl<'a, S: RuleSource> BucketStream for ListedBuckets<'a, S> {
    ghost use Rattle.rule_buckets.specs.Entries.{entry_in};

    ghost remaining = { λ l. l.remaining };

    ghost key = { λ l. entry_in S.rows l.query };

    fn next_bucket<G>(
        &mut self,
        alloc: Global,
        openings: &mut Steps<G>,
    ) -> Result<Option<Bucket>, NoMemory> {
        while self.next < self.sets.len() {
            let at = self.next;
            let docs = take_at(alloc, &mut self.sets, at);
            self.next = at + 1;
            if docs.len() > 0 {
                openings.tick();
                return Ok(Some(Bucket {
                    key: CostKey::Number(at as u32),
                    docs,
                }));
            }
        }
        Ok(None)
    }
}
