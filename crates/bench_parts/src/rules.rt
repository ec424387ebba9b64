//! Rules that put some documents before all others.
ghost use Rattle.std.specs.Prelude.{◌≡◌, length, true, [], IfOk, IfSome, IfNone};
ghost use Rattle.search_base.specs.CostOrder.{before};
ghost use Rattle.bucket_sort.specs.Buckets.{IsBucket};
ghost use Rattle.bench_parts.specs.Splits.{split_key, ids_at};

use bucket_sort::{Bucket, BucketStream, RuleSet};
use doc_sets::DocSet;
use search_base::{CostKey, NoMemory, Steps};
use std::alloc::Global;

/// A set for each level. Its documents are before all others there.
#[derive(Drop)]
pub(crate) struct Splits<'a> {
    pub(crate) first: &'a [DocSet],
}

/// Some of the documents at a level: first those of a set, and then the others.
#[derive(Drop)]
pub(crate) struct Split<'a> {
    first: &'a DocSet,
    left: DocSet,
}

// Takes out the documents of the least key, which is told beside them.
fn take_least(
    alloc: Global,
    first: &DocSet,
    left: &mut DocSet,
) -> Result<Option<(u32, DocSet)>, NoMemory>
    ensures some { IfOk result (λ taken. IfSome taken (λ (key, docs). IsBucket before
        (split_key first.now.ids) left.old.ids left.new.ids (CostKey.Number key) docs.ids)) }
    ensures none { IfOk result (λ taken. IfNone taken (left.old.ids ≡ [])) }
{
    let chosen = left.and(alloc, first)?;
    let others = left.minus(alloc, first)?;
    if !chosen.is_empty() {
        *left = others;
        return Ok(Some((0, chosen)));
    }
    if !others.is_empty() {
        *left = chosen;
        return Ok(Some((1, others)));
    }
    Ok(None)
}

impl<'a> BucketStream for Split<'a> {
    ghost remaining = { λ split. split.left.ids };

    ghost key = { λ split. split_key split.first.now.ids };

    fn next_bucket<G>(
        &mut self,
        alloc: Global,
        openings: &mut Steps<G>,
    ) -> Result<Option<Bucket>, NoMemory> {
        let Some((key, docs)) = take_least(alloc, self.first, &mut self.left)? else {
            return Ok(None);
        };
        openings.tick();
        Ok(Some(Bucket {
            key: CostKey::Number(key),
            docs,
        }))
    }
}

impl<'a> RuleSet for Splits<'a> {
    type Stream = Split<'a>;

    ghost documents = { λ rules d. true };

    ghost key = { λ rules level. split_key (ids_at rules.first.now level) };

    ghost count = { λ rules. length rules.first.now };

    fn levels(&self) -> usize {
        self.first.len()
    }

    fn open(&self, _alloc: Global, level: usize, universe: DocSet) -> Result<Split<'a>, NoMemory> {
        Ok(Split {
            first: &self.first[level],
            left: universe,
        })
    }
}
