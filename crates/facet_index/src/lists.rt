ghost use Rattle.std.specs.Prelude.{◌≡◌, ℕ, Bool, ◌&&◌, ◌||◌, ◌/◌, ◌^◌, filter, IfOk, OnOk};
ghost use Rattle.doc_sets.specs.Sets.{has};
ghost use Rattle.postings.specs.Dictionary.{list_at};
ghost use Rattle.facet_index.specs.Places.{has_document};

use doc_sets::{DocSet, DocSetBuilder, operations_are_on_members, sets_are_their_members};
use posting_list::PostingList;
use postings::Postings;
use search_base::{DocId, NoMemory, Word};
use sorted_pages::SortedPages;
use std::alloc::Global;

// Adds the documents of a list that are in the universe. Where they are kept as a set, no place is looked at.
pub(crate) fn add_documents(
    alloc: Global,
    found: &mut DocSetBuilder,
    list: &PostingList,
    universe: &DocSet,
) -> Result<(), NoMemory>
    ensures { OnOk result ((d : ℕ) → has found.new d
        ≡ ((has_document d list.now.entries && has universe.now.ids d) || has found.old d)) }
{
    operations_are_on_members();
    match list.documents() {
        Some(kept) => {
            let docs = universe.and(alloc, kept)?;
            found.add(&docs)
        }
        None => add_places(found, list.pages(), universe),
    }
}

// Adds the documents of some places that are in the universe.
fn add_places(
    found: &mut DocSetBuilder,
    places: &SortedPages,
    universe: &DocSet,
) -> Result<(), NoMemory>
    ensures { OnOk result ((d : ℕ) → has found.new d
        ≡ ((has_document d places.now.entries && has universe.now.ids d) || has found.old d)) }
{
    operations_are_on_members();
    for entry in places.iter() {
        let id = document_of(entry);
        if universe.contains(id) {
            found.add_id(id)?;
        }
    }
    Ok(())
}

// The document of an entry.
pub(crate) fn document_of(entry: u64) -> DocId
    ensures { result.0 ≡ entry / 2 ^ 32 }
{
    DocId((entry >> 32) as u32)
}

// The documents of the universe that have a place in the list. Where those of the list are kept as a set, no place is
// looked at.
fn documents_of(alloc: Global, list: &PostingList, universe: &DocSet) -> Result<DocSet, NoMemory>
    ensures { IfOk result (λ docs.
        docs.ids ≡ filter (λ d. has_document d list.now.entries) universe.now.ids) }
{
    if let Some(kept) = list.documents() {
        return universe.and(alloc, kept);
    }
    let mut found = DocSetBuilder::new(alloc, 0)?;
    add_places(&mut found, list.pages(), universe)?;
    finish(alloc, found, universe)
}

// The set of the documents that were found in the universe.
pub(crate) fn finish(
    alloc: Global,
    found: DocSetBuilder,
    universe: &DocSet,
) -> Result<DocSet, NoMemory>
    ensures { IfOk result (λ docs. (passes : ℕ → Bool)
        → ((d : ℕ) → has found d ≡ (passes d && has universe.now.ids d)) → docs.ids ≡ filter passes universe.now.ids) }
{
    sets_are_their_members();
    let docs = found.finish(alloc)?;
    let _lens = (docs.len(), universe.len());
    Ok(docs)
}

// The documents of the universe that have the key.
pub(crate) fn documents_at(
    alloc: Global,
    keys: &Postings,
    key: &Word,
    universe: &DocSet,
) -> Result<DocSet, NoMemory>
    ensures { IfOk result (λ docs.
        docs.ids ≡ filter (λ d. has_document d (list_at key.now keys.now)) universe.now.ids) }
{
    match keys.row(key) {
        Some(list) => documents_of(alloc, list, universe),
        None => Ok(DocSet::new(alloc)),
    }
}
