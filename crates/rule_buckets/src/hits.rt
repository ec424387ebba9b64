ghost use Rattle.std.specs.Prelude.{◌≡◌, map, is_err, IfOk};
ghost use Rattle.bucket_sort.specs.Opens.{Opens, log_state};
ghost use Rattle.rule_buckets.specs.Matches.{ids_of, hits_in, opened_in};

use crate::rules::Rules;
use crate::source::RuleSource;
use bucket_sort::BucketLog;
use search_base::{DocId, NoMemory, Steps};
use std::alloc::Global;

/// Which hits are asked for: those from number `offset` on, and `limit` of them at most.
#[derive(Clone, Copy, Drop)]
pub struct HitWindow {
    pub offset: u64,
    pub limit: u64,
}

/// The hits of a window over the documents that match, by their costs under the rules and then by internal id. Each
/// bucket that is opened on the way is told to the log and is one step. `NoMemory` comes where memory is wanting, and
/// then some of the buckets were opened, from the first on.
pub fn page<S: RuleSource, G>(
    alloc: Global,
    rules: &Rules<'_, S>,
    window: HitWindow,
    log: &mut Box<dyn BucketLog>,
    openings: &mut Steps<G>,
) -> Result<Vec<DocId>, NoMemory>
    ensures hits { IfOk result (λ hits. map (λ id. id.0) hits.items ≡ ids_of (hits_in S.rows rules.now window)) }
    ensures opens { Opens (is_err result) (opened_in S.rows rules.now window)
        (log_state (told log.old) openings.old) (log_state (told log.new) openings.new) }
{
    let all = rules.matching().clone()?;
    let HitWindow { offset, limit } = window;
    bucket_sort::page(alloc, rules, all, offset, limit, log, openings)
}
