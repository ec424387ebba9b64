ghost use Rattle.std.specs.Prelude.{◌≡◌, true, IfOk, is_some};
ghost use Rattle.condition_graph.specs.Numbers.{number_of};
ghost use Rattle.condition_graph.specs.Promise.{IsCondition};
ghost use Rattle.doc_search.specs.Meeting.{AreMeetingByNumber};

use crate::lists::SearchLists;
use crate::parts::numbered;
use condition_graph::Condition;
use doc_sets::DocSet;
use posting_sets::numbers_are_those_of_blocks;
use search_base::NoMemory;
use std::alloc::Global;

/// The documents of the universe that meet a condition on a number, such as a condition graph has, for all its numbers
/// in one pass: rows with a number and the documents that meet the condition on it. Of a number that is in no row there
/// are none. Where there is no memory, nothing has changed.
pub fn meeting_by_number(
    alloc: Global,
    lists: &SearchLists<'_>,
    condition: &Condition,
    universe: &DocSet,
) -> Result<Vec<(u16, DocSet)>, NoMemory>
    requires condition { IsCondition condition.now }
    requires number { is_some (number_of condition.now) ≡ true }
    ensures { IfOk result (λ rows.
        AreMeetingByNumber lists.now.postings lists.now.ranks condition.now universe.now.ids rows.items) }
{
    numbers_are_those_of_blocks();
    match condition {
        Condition::Free | Condition::Occurs(_) => Ok(Vec::new(alloc)),
        Condition::Pair {
            left,
            right,
            right_prefix,
            ..
        } => {
            let sets = lists.by_pair_cost(alloc, left, *right_prefix, right, universe)?;
            numbered(alloc, sets)
        }
        Condition::AtRank { term, .. } => lists.by_rank(alloc, term, universe),
        Condition::AtBucket { term, .. } => lists.by_bucket(alloc, term, universe),
    }
}
