ghost use Rattle.std.specs.Prelude.{◌≡◌, ℕ, ◌*◌, ◌^◌, ◌∷◌, [], ◌++◌, List, filter, IfOk, OnOk};
ghost use Rattle.doc_sets.specs.Sets.{has};
ghost use Rattle.sorted_pages.specs.Entries.{has as has_entry};
ghost use Rattle.facet_index.specs.Places.{has_document};
ghost use Rattle.list_facets.specs.Hits.{ids_of, AreHits, IsWhole};

use crate::matching::Matching;
use doc_sets::{DocSet, sets_are_their_members};
use posting_list::PostingList;
use search_base::{DocId, NoMemory};
use sorted_pages::SortedPages;

/// How many documents of a list are in a set, and the first of them.
#[derive(Drop)]
pub(crate) struct Hits {
    pub(crate) count: u64,
    pub(crate) first: Option<DocId>,
}

impl Hits {
    // No document.
    fn none() -> Hits
        ensures { AreHits result [] }
    {
        Hits {
            count: 0,
            first: None,
        }
    }

    // One document more, behind the others.
    fn see(&mut self, id: DocId) -> Result<(), NoMemory>
        ensures { OnOk result ((ids : List ℕ) → AreHits self.old ids → AreHits self.new (ids ++ id.0 ∷ [])) }
    {
        if self.first.is_none() {
            self.first = Some(id);
        }
        self.count = self.count.checked_add(1).ok_or(NoMemory)?;
        Ok(())
    }

    // Those of a page more, behind the others. The page is gone over again only for the first of all.
    fn see_page(&mut self, page: &[u64], matching: &Matching<'_>) -> Result<(), NoMemory>
        ensures { OnOk result ((ids : List ℕ) → AreHits self.old ids
            → AreHits self.new (ids ++ filter (has matching.now.ids) (ids_of page.now))) }
    {
        let count = matching.count_in(page);
        if count == 0 {
            return Ok(());
        }
        if self.first.is_none() {
            self.first = matching.first_in(page);
        }
        self.count = self.count.checked_add(count).ok_or(NoMemory)?;
        Ok(())
    }
}

// Finding a document of the set in a list takes about as long as asking for the documents of so many entries.
const LOOK_UP: u64 = 32;

// Whether a list of so many entries is walked, and not the set of so many documents.
fn is_walked(entries: usize, documents: u64) -> bool {
    entries as u64 / LOOK_UP <= documents
}

/// The documents of the set that have an entry in the list. Where those of the list are kept as a set, no entry is looked
/// at.
pub(crate) fn hits_at(list: &PostingList, matching: &Matching<'_>) -> Result<Hits, NoMemory>
    ensures { IfOk result (λ hits. IsWhole list.now.entries
        → AreHits hits (filter (λ d. has_document d list.now.entries) matching.now.ids)) }
{
    match list.documents() {
        Some(kept) => Ok(hits_in_kept(kept, matching)),
        None => hits_of(list.pages(), matching),
    }
}

// The documents that are in both sets.
fn hits_in_kept(kept: &DocSet, matching: &Matching<'_>) -> Hits
    ensures { AreHits result (filter (has kept.now.ids) matching.now.ids) }
{
    Hits {
        count: matching.count_both(kept),
        first: matching.first_both(kept),
    }
}

// The same of its entries. They are walked, or the set where this is much shorter.
fn hits_of(list: &SortedPages, matching: &Matching<'_>) -> Result<Hits, NoMemory>
    ensures { IfOk result (λ hits. IsWhole list.now.entries
        → AreHits hits (filter (λ d. has_document d list.now.entries) matching.now.ids)) }
{
    sets_are_their_members();
    if is_walked(list.len(), matching.len()) {
        hits_in_list(list, matching)
    } else {
        hits_in_set(list, matching)
    }
}

// The documents of the list that are in the set.
fn hits_in_list(list: &SortedPages, matching: &Matching<'_>) -> Result<Hits, NoMemory>
    ensures { IfOk result (λ hits. AreHits hits (filter (has matching.now.ids) (ids_of list.now.entries))) }
{
    let mut hits = Hits::none();
    for page in list.pages() {
        hits.see_page(page, matching)?;
    }
    Ok(hits)
}

// The documents of the set that are in the list.
fn hits_in_set(list: &SortedPages, matching: &Matching<'_>) -> Result<Hits, NoMemory>
    ensures { IfOk result (λ hits.
        AreHits hits (filter (λ d. has_entry list.now.entries (d * 2 ^ 32)) matching.now.ids)) }
{
    let mut hits = Hits::none();
    for id in matching.iter() {
        if list.contains(u64::from(id.0) << 32) {
            hits.see(id)?;
        }
    }
    Ok(hits)
}
