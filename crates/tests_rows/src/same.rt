use crate::stored::index_of;
use doc_sets::{DocSet, DocSetBuilder};
use doc_store::DocStore;
use postings::Postings;
use row_index::RowIndex;
use search_base::{DocId, PathId};
use sorted_pages::SortedPages;
use std::alloc::Global;
use std::ops::Bound;
use std::process::Abort;

fn is_same_list(one: &SortedPages, other: &SortedPages) -> bool {
    one.iter().eq(other.iter())
}

fn is_same_set(one: &DocSet, other: &DocSet) -> bool {
    one.iter().eq(other.iter())
}

// Whether both have the same words with the same lists, from the first word on.
fn are_same<'a>(one: &'a Postings, other: &'a Postings) -> bool {
    let mut others = other.words_from(Bound::Unbounded);
    for (word, list) in one.words_from(Bound::Unbounded) {
        let Some((same, entries)) = others.next() else {
            return false;
        };
        if word.as_str() != same.as_str() || !is_same_list(list.pages(), entries.pages()) {
            return false;
        }
    }
    others.next().is_none()
}

// Whether they have them from the last word back.
fn are_same_back<'a>(one: &'a Postings, other: &'a Postings) -> bool {
    let mut ones = one.words_up_to(Bound::Unbounded);
    let mut others = other.words_up_to(Bound::Unbounded);
    for _ in one.words_from(Bound::Unbounded) {
        let Some((word, list)) = ones.next_back() else {
            return false;
        };
        let Some((same, entries)) = others.next_back() else {
            return false;
        };
        if word.as_str() != same.as_str() || !is_same_list(list.pages(), entries.pages()) {
            return false;
        }
    }
    ones.next_back().is_none() && others.next_back().is_none()
}

fn are_same_both_ways(one: &Postings, other: &Postings) -> bool {
    are_same(one, other) && are_same_back(one, other)
}

// The documents that have a length of a path, of all that ever were.
fn have_same_lengths(
    rt: &impl Abort,
    alloc: Global,
    one: &RowIndex,
    other: &RowIndex,
    path: PathId,
    ever: &DocSet,
) -> bool {
    let (one, other) = (one.lengths(), other.lengths());
    for length in 0..5 {
        let some = one
            .documents(alloc, path, length, ever)
            .expect(rt, "memory");
        let others = other
            .documents(alloc, path, length, ever)
            .expect(rt, "memory");
        if !is_same_set(&some, &others) {
            return false;
        }
    }
    true
}

// The internal ids of all documents that ever were.
fn ever(rt: &impl Abort, alloc: Global, store: &DocStore) -> DocSet {
    let mut ids = DocSetBuilder::new(alloc, store.next_id()).expect(rt, "memory");
    for id in 0..store.next_id() {
        ids.add_id(DocId(id)).expect(rt, "memory");
    }
    ids.finish(alloc).expect(rt, "memory")
}

// Whether an index is the same, part by part, as one that is made of the documents of a store.
pub(crate) fn is_theirs(
    rt: &impl Abort,
    alloc: Global,
    store: &DocStore,
    index: &RowIndex,
) -> bool {
    let fresh = index_of(rt, alloc, store);
    let ever = ever(rt, alloc, store);
    for path in 0..4 {
        if !have_same_lengths(rt, alloc, index, &fresh, PathId(path), &ever) {
            return false;
        }
    }
    is_same_set(index.ids(), fresh.ids())
        && are_same_both_ways(index.places(), fresh.places())
        && are_same_both_ways(index.facets().keys(), fresh.facets().keys())
}
