ghost use Rattle.std.specs.Prelude.{◌≡◌, ℕ, List, [], ◌∷◌, None, filter, find, IfOk, IfSome, IfNone, if◌then◌else◌};
ghost use Rattle.std.specs.List.{list_any};
ghost use Rattle.std.specs.List.Sorted.{IsStrictlySortedBy};
ghost use Rattle.std.specs.Map.{keys_of};
ghost use Rattle.std.specs.Option.{option_copied, option_map};
ghost use Rattle.std.specs.Range.Bound.{bound_map};
ghost use Rattle.postings.specs.Dictionary.{word_cmp, value_at, list_at, some_list};
ghost use Rattle.facet_index.specs.LeavesView.{LeavesView};
ghost use Rattle.facet_index.specs.Places.{IsIndexOf, has_document};
ghost use Rattle.facet_index.specs.Sorts.{sort_key, sort_keys_of, is_under, next_of};
ghost use Rattle.facet_index.specs.Starts.{entry_of as entry_of_value, entry_value, key_value, behind_key, first_start as first_start_in, start_of as start_after, bound_by, is_from, in_direction, stops_at, IsNext, HasNoneFrom};

use crate::ends::end_key;
use crate::facet_index::FacetIndex;
use crate::lists::{document_of, documents_at};
use doc_sets::DocSet;
use facet_keys::{end_of_key, is_end_key, keys_are_in_order, keys_tell_facets_apart};
use posting_list::PostingList;
use postings::{Postings, WordLists};
use search_base::{CostKey, FacetValue, NoMemory, PathId, SortKey, Word, keys_are_ordered};
use std::alloc::Global;
use std::ops::Bound;

impl FacetIndex {
    /// The entry that comes next in the direction: of those that a document of the universe has under the path, the
    /// first behind the given one, or simply the first where none is given. None exactly where there is none. Passes
    /// the keys that no document of the universe has, and looks at none behind the one that it gives.
    pub fn next_sort(
        &self,
        alloc: Global,
        path: PathId,
        up: bool,
        after: Option<&CostKey>,
        universe: &DocSet,
    ) -> Result<Option<CostKey>, NoMemory>
        ensures { IfOk result (λ found. (documents : List LeavesView) → IsIndexOf self.now documents
            → found ≡ next_of (sort_keys_of up path.0 documents universe.now.ids) (option_copied after.entry)) }
    {
        keys_tell_facets_apart();
        keys_are_in_order();
        keys_are_ordered();
        let Some(start) = start_of(up, after)? else {
            return Ok(None);
        };
        let first = end_key(alloc, path, up, &start.value)?;
        let Some(word) = next_word(&self.keys, path, up, start.behind, &first, universe) else {
            return Ok(None);
        };
        match end_of_key(alloc, path, up, word)? {
            Some(value) => Ok(Some(entry_of(up, value))),
            None => Ok(None),
        }
    }

    /// The documents of the universe that have this entry under the path, in the direction.
    pub fn sort_docs(
        &self,
        alloc: Global,
        path: PathId,
        up: bool,
        at: &CostKey,
        universe: &DocSet,
    ) -> Result<DocSet, NoMemory>
        ensures { IfOk result (λ docs. (documents : List LeavesView) → IsIndexOf self.now documents
            → docs.ids ≡ filter (λ d. is_under at.now (sort_key up path.0 documents d)) universe.now.ids) }
    {
        keys_tell_facets_apart();
        let Some(value) = value_of(up, at)? else {
            return Ok(DocSet::new(alloc));
        };
        let key = end_key(alloc, path, up, &value)?;
        documents_at(alloc, &self.keys, &key, universe)
    }
}

/// A value as an entry of the direction, ascending or not. Takes no memory.
pub fn entry_of(up: bool, value: FacetValue) -> CostKey
    ensures { result ≡ entry_of_value up value }
{
    let key = match value {
        FacetValue::Number(number) => SortKey::Number(number),
        FacetValue::Text(text) => SortKey::Text(text),
    };
    if up {
        CostKey::Up(key)
    } else {
        CostKey::Down(key)
    }
}

// The value of an entry of the direction, if it is one of a value.
fn value_of(up: bool, at: &CostKey) -> Result<Option<FacetValue>, NoMemory>
    ensures { IfOk result (λ value. value ≡ entry_value up at.now) }
{
    match at {
        CostKey::Number(_) => Ok(None),
        CostKey::Up(key) => { if up { value_in(key) } else { Ok(None) } }
        CostKey::Down(key) => { if up { Ok(None) } else { value_in(key) } }
    }
}

fn value_in(key: &SortKey) -> Result<Option<FacetValue>, NoMemory>
    ensures { IfOk result (λ value. value ≡ key_value key.now) }
{
    match key {
        SortKey::Number(number) => Ok(Some(FacetValue::Number(*number))),
        SortKey::Text(text) => Ok(Some(FacetValue::Text(text.clone()?))),
        SortKey::Missing => Ok(None),
    }
}

// Where values begin: at one, or behind it.
#[derive(Drop)]
struct Start {
    value: FacetValue,
    behind: bool,
}

// Where the values begin whose entries come after another, if there are such.
fn start_of(up: bool, after: Option<&CostKey>) -> Result<Option<Start>, NoMemory>
    ensures { IfOk result (λ start. start ≡ start_after up (option_copied after.entry)) }
{
    let Some(after) = after else {
        return Ok(Some(first_start(up)));
    };
    match after {
        CostKey::Number(_) => Ok(Some(first_start(up))),
        CostKey::Up(key) => {
            if up {
                behind(key)
            } else {
                Ok(Some(first_start(up)))
            }
        }
        CostKey::Down(key) => { if up { Ok(None) } else { behind(key) } }
    }
}

// Behind a key, where one can come behind it.
fn behind(key: &SortKey) -> Result<Option<Start>, NoMemory>
    ensures { IfOk result (λ start. start ≡ behind_key key.now) }
{
    match value_in(key)? {
        Some(value) => Ok(Some(Start {
            value,
            behind: true,
        })),
        None => Ok(None),
    }
}

// At the first of all values.
fn first_start(up: bool) -> Start
    ensures { result ≡ first_start_in up }
{
    let number = if up { i128::MIN } else { i128::MAX };
    Start {
        value: FacetValue::Number(number),
        behind: false,
    }
}

// The first word from a start on, in the direction, that a document of the universe has, or that is no key of a value
// that comes first under the path.
fn next_word<'a>(
    keys: &'a Postings,
    path: PathId,
    up: bool,
    behind: bool,
    start: &'a Word,
    universe: &DocSet,
) -> Option<&'a Word>
    ensures some { IfSome result (λ word.
        IsNext up behind path.0 start.now universe.now.ids keys.now word.now) }
    ensures none { IfNone result (HasNoneFrom up behind start.now universe.now.ids keys.now) }
{
    let rows = words_on(keys, up, behind, start);
    first_had(rows, path, up, universe)
}

// The words from a start on, in the direction.
fn words_on<'a>(keys: &'a Postings, up: bool, behind: bool, start: &'a Word) -> WordLists<'a>
    ensures lists { (word : List ℕ) → value_at word result
        ≡ (if is_from up behind start.now word then some_list (list_at word keys.now) else None) }
    ensures order { IsStrictlySortedBy word_cmp (keys_of result) }
{
    let bound = bound_at(behind, start);
    if up {
        keys.words_from(bound)
    } else {
        keys.words_up_to(bound)
    }
}

// The first of some words, in the direction, that a document of the universe has, or that is no key of a value that
// comes first under the path.
fn first_had<'a>(
    mut rows: WordLists<'a>,
    path: PathId,
    up: bool,
    universe: &DocSet,
) -> Option<&'a Word>
    ensures { option_copied result
        ≡ option_map (λ row. row.0) (find (stops_at up path.0 universe.now.ids) (in_direction up rows.entry)) }
{
    while let Some((word, list)) = step(&mut rows, up) {
        if is_held(list, universe) || !is_end_key(path, up, word) {
            return Some(word);
        }
    }
    None
}

// The next of the words that are left, in the direction, with its list, which is taken out of them.
fn step<'a>(rows: &mut WordLists<'a>, up: bool) -> Option<(&'a Word, &'a PostingList)>
    ensures some { IfSome result (λ row.
        in_direction up rows.old ≡ (row.0.now, row.1.now.entries) ∷ in_direction up rows.new) }
    ensures none { IfNone result (in_direction up rows.old ≡ []) }
{
    if up { rows.next() } else { rows.next_back() }
}

// Whether a document of the universe has a place in the list.
fn is_held(list: &PostingList, universe: &DocSet) -> bool
    ensures { result ≡ list_any (λ d. has_document d list.now.entries) universe.now.ids }
{
    for entry in list.pages().iter() {
        if universe.contains(document_of(entry)) {
            return true;
        }
    }
    false
}

// The bound at a word, or behind it.
fn bound_at<'a>(behind: bool, word: &'a Word) -> Bound<&'a Word>
    ensures { bound_map (λ w. w.now) result ≡ bound_by behind word.now }
{
    if behind {
        Bound::Excluded(word)
    } else {
        Bound::Included(word)
    }
}
