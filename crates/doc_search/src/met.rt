ghost use Rattle.std.specs.Prelude.{IfOk, IfSome};
ghost use Rattle.condition_graph.specs.Promise.{IsCondition};
ghost use Rattle.doc_search.specs.Meeting.{AreMeeting};

use crate::lists::SearchLists;
use crate::parts::{copy_of, nth, set_at};
use condition_graph::Condition;
use doc_sets::DocSet;
use posting_sets::numbers_are_those_of_blocks;
use search_base::NoMemory;
use std::alloc::Global;

/// The documents of the universe that meet a condition, such as a condition graph has. The ranks of the lists are those
/// of the documents' places; an id of the universe that no document has meets the free condition alone. Where there is
/// no memory, nothing has changed.
pub fn meeting(
    alloc: Global,
    lists: &SearchLists<'_>,
    condition: &Condition,
    universe: &DocSet,
) -> Result<DocSet, NoMemory>
    requires { IsCondition condition.now }
    ensures { IfOk result (λ set. AreMeeting lists.now.postings lists.now.ranks condition.now universe.now.ids set.ids) }
{
    numbers_are_those_of_blocks();
    match condition {
        Condition::Free => copy_of(universe),
        Condition::Occurs(term) => lists.documents(alloc, term, universe),
        Condition::Pair {
            left,
            right,
            right_prefix,
            cost,
        } => {
            let sets = lists.by_pair_cost(alloc, left, *right_prefix, right, universe)?;
            Ok(nth(alloc, sets, usize::from(*cost)))
        }
        Condition::AtRank { term, rank } => {
            let rows = lists.by_rank(alloc, term, universe)?;
            set_at(alloc, rows.as_slice(), *rank)
        }
        Condition::AtBucket { term, bucket } => {
            let rows = lists.by_bucket(alloc, term, universe)?;
            set_at(alloc, rows.as_slice(), u16::from(*bucket))
        }
    }
}

/// The same, where it is known without a walk over a long list, and else none. It is known of a condition on the first
/// bucket alone.
pub(crate) fn meeting_at_hand(
    alloc: Global,
    lists: &SearchLists<'_>,
    condition: &Condition,
    universe: &DocSet,
) -> Result<Option<DocSet>, NoMemory>
    requires { IsCondition condition.now }
    ensures { IfOk result (λ found. IfSome found (λ set.
        AreMeeting lists.now.postings lists.now.ranks condition.now universe.now.ids set.ids)) }
{
    numbers_are_those_of_blocks();
    let Condition::AtBucket { term, bucket } = condition else {
        return Ok(None);
    };
    if *bucket != 0 {
        return Ok(None);
    }
    let found = lists.at_first(alloc, term, universe)?;
    Ok(found)
}
