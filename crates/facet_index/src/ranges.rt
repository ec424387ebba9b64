ghost use Rattle.std.specs.Prelude.{◌≡◌, ℕ, Bool, ◌&&◌, ◌||◌, filter, IsTrue, IfOk, IfSome};
ghost use Rattle.std.specs.List.Sorted.{IsStrictlySortedBy};
ghost use Rattle.std.specs.Map.{keys_of};
ghost use Rattle.doc_sets.specs.Sets.{has};
ghost use Rattle.postings.specs.Dictionary.{word_cmp};
ghost use Rattle.facet_index.specs.Ranges.{is_listed, PassesInside};

use crate::lists::{add_documents, finish};
use doc_sets::{DocSet, DocSetBuilder};
use posting_list::PostingList;
use postings::{Postings, WordLists};
use search_base::{NoMemory, Word};
use std::alloc::Global;
use std::ops::Bound;

// Going to a list takes about as long as testing so many documents.
const A_LIST: u64 = 16;

// So many documents of a set are taken in the time in which one is tested.
const OF_A_SET: u64 = 16;

// The documents of the universe that have a key from the first to the last, where their lists are short beside it, and
// else none.
pub(crate) fn documents_in_short(
    alloc: Global,
    keys: &Postings,
    first: &Word,
    last: &Word,
    universe: &DocSet,
) -> Result<Option<DocSet>, NoMemory>
    ensures { IfOk result (λ found. IfSome found (λ docs.
        (passes : ℕ → Bool) → PassesInside first.now last.now keys.now passes
        → docs.ids ≡ filter passes universe.now.ids)) }
{
    let mut found = DocSetBuilder::new(alloc, 0)?;
    let rows = keys.words_from(Bound::Included(first));
    if !add_short(alloc, &mut found, rows, last, universe)? {
        return Ok(None);
    }
    Ok(Some(finish(alloc, found, universe)?))
}

// Adds the documents of the universe that have one of the keys up to the last, and tells whether these are all. Stops
// before it has cost as much as testing half of the universe.
fn add_short(
    alloc: Global,
    found: &mut DocSetBuilder,
    rows: WordLists<'_>,
    last: &Word,
    universe: &DocSet,
) -> Result<bool, NoMemory>
    requires { IsStrictlySortedBy word_cmp (keys_of rows) }
    ensures { IfOk result (λ whole. IsTrue whole → (d : ℕ) → has found.new d
        ≡ ((is_listed last.now d rows.entry && has universe.now.ids d) || has found.old d)) }
{
    let mut left = universe.len() / 2;
    for (key, list) in rows {
        if last < key {
            return Ok(true);
        }
        let cost = cost_of(list);
        if left < cost {
            return Ok(false);
        }
        left -= cost;
        add_documents(alloc, found, list, universe)?;
    }
    Ok(true)
}

// How many documents are tested in the time in which those of a list are added.
fn cost_of(list: &PostingList) -> u64 {
    let places = list.pages().len() as u64;
    let cost = match list.documents() {
        Some(_) => places / OF_A_SET,
        None => places,
    };
    cost.saturating_add(A_LIST)
}
