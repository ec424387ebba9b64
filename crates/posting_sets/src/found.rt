ghost use Rattle.std.specs.Prelude.{◌≡◌, ℕ, ◌<◌, true, false, ◌&&◌, ◌||◌, List, [], ◌∷◌, map, length};
ghost use Rattle.std.specs.Prelude.{IfOk, IfSome, OnOk};
ghost use Rattle.std.specs.List.{filter};
ghost use Rattle.doc_sets.specs.Sets.{has, IsIncreasing};
ghost use Rattle.search_base.specs.Graphs.{IsTerm};
ghost use Rattle.postings.specs.Dictionary.{list_at};
ghost use Rattle.posting_list.specs.Sets.{IsSetOf};
ghost use Rattle.posting_sets.specs.Found.{has_document, AreInLists, AreOccurring, IsKeptOf, IsNarrowed, term_of};

use crate::entry::document_of;
use crate::lists::{is_walked, lists_of};
use crate::occurrences::Occurrences;
use crate::prefix::PrefixPlaces;
use doc_sets::{DocSet, DocSetBuilder};
use posting_list::PostingList;
use postings::Postings;
use search_base::{DocId, NoMemory, Term, Word};
use sorted_pages::SortedPages;
use std::alloc::Global;

// A list with an entry for so many documents of the universe has its documents as bits.
const FEW: u64 = 128;

// A list with an entry for fewer of so many documents of the universe is looked up, and the universe is not narrowed.
const FEW_TO_LOOK_UP: u64 = 2048;

// The documents of the places.
fn documents_of(alloc: Global, occurrences: Occurrences<'_>) -> Result<Vec<DocId>, NoMemory>
    requires { IsIncreasing occurrences }
    ensures increasing { IfOk result (λ ids. IsIncreasing (map (λ id. id.0) ids.items)) }
    ensures each { IfOk result (λ ids. (q : ℕ) → has (map (λ id. id.0) ids.items) q
        ≡ has_document occurrences.entry q) }
{
    let mut ids = Vec::new(alloc);
    let mut left = occurrences;
    while let Some(start) = left.next() {
        let id = document_of(start);
        ids.push(id)?;
        left.pass(id);
    }
    Ok(ids)
}

// Adds the documents of the places to a set.
fn add_documents(builder: &mut DocSetBuilder, occurrences: Occurrences<'_>) -> Result<(), NoMemory>
    requires { IsIncreasing occurrences }
    ensures { OnOk result ((q : ℕ) → has builder.new q ≡ (has_document occurrences.entry q || has builder.old q)) }
{
    let mut left = occurrences;
    while let Some(start) = left.next() {
        let id = document_of(start);
        builder.add_id(id)?;
        left.pass(id);
    }
    Ok(())
}

// Adds the documents of all entries of a list to a set.
fn add_entries(builder: &mut DocSetBuilder, list: &SortedPages) -> Result<(), NoMemory>
    ensures { OnOk result ((q : ℕ) → has builder.new q ≡ (has_document list.now.entries q || has builder.old q)) }
{
    for entry in list.iter() {
        builder.add_id(document_of(entry))?;
    }
    Ok(())
}

// Adds the documents of a list to a set, maybe with some from outside of the universe.
fn add_list(
    alloc: Global,
    builder: &mut DocSetBuilder,
    list: &SortedPages,
    universe: &DocSet,
) -> Result<(), NoMemory>
    ensures { OnOk result ((q : ℕ) → (has universe.now.ids q && has builder.new q)
        ≡ (has universe.now.ids q && (has_document list.now.entries q || has builder.old q))) }
{
    if is_walked(list.len(), universe.len()) {
        return add_entries(builder, list);
    }
    let lists = [list];
    let occurrences = Occurrences::new(alloc, &lists, universe)?;
    add_documents(builder, occurrences)
}

// Adds the documents of a list to a set, maybe with some from outside of the universe. Where they are kept beside a list
// that would be walked, they are taken from there.
pub(crate) fn add_kept_or_list(
    alloc: Global,
    builder: &mut DocSetBuilder,
    list: &PostingList,
    universe: &DocSet,
) -> Result<(), NoMemory>
    ensures { OnOk result ((q : ℕ) → (has universe.now.ids q && has builder.new q)
        ≡ (has universe.now.ids q && (has_document list.now.entries q || has builder.old q))) }
{
    let pages = list.pages();
    if is_walked(pages.len(), universe.len()) {
        if let Some(kept) = list.documents() {
            return builder.add(kept);
        }
    }
    add_list(alloc, builder, pages, universe)
}

// The documents of the universe that have an entry in the list.
fn documents_of_list(
    alloc: Global,
    list: &SortedPages,
    universe: &DocSet,
) -> Result<DocSet, NoMemory>
    ensures { IfOk result (λ set. set.ids ≡ filter (has_document list.now.entries) universe.now.ids) }
{
    let mut builder = DocSetBuilder::new(alloc, 0)?;
    add_entries(&mut builder, list)?;
    let listed = builder.finish(alloc)?;
    universe.and(alloc, &listed)
}

// The documents in which the words of these lists stand in a row. A list that is about as long as
// the universe gives all its documents; otherwise the shorter of the two is walked.
fn documents_of_lists(
    alloc: Global,
    lists: &[&SortedPages],
    universe: &DocSet,
) -> Result<DocSet, NoMemory>
    requires { 0 < length lists.now }
    ensures { IfOk result (λ set. AreInLists universe.now.ids (map (λ list. list.now.entries) lists.now) set.ids) }
{
    let list = lists[0];
    let entries = list.len();
    let documents = universe.len();
    if lists.len() == 1 && is_walked(entries, documents) && documents / FEW <= entries as u64 {
        return documents_of_list(alloc, list, universe);
    }
    let occurrences = Occurrences::new(alloc, lists, universe)?;
    let ids = documents_of(alloc, occurrences)?;
    DocSet::from_sorted(alloc, ids.as_slice())
}

// The documents of a word, where they are kept as a set.
fn kept_of<'a>(postings: &'a Postings, word: &Word) -> Option<&'a DocSet>
    ensures { IfSome result (λ set. IsSetOf set.now.ids (list_at word.now postings.now)) }
{
    postings.row(word)?.documents()
}

// The documents of a single word, where they are kept as a set.
fn kept_documents<'a>(postings: &'a Postings, words: &[Word]) -> Option<&'a DocSet>
    ensures { IfSome result (λ set. IsKeptOf postings.now words.now set.now.ids) }
{
    if words.len() == 1 {
        kept_of(postings, &words[0])
    } else {
        None
    }
}

// Whether no list is so short that to look up its entries costs less than to narrow a universe of so many documents.
fn are_long(lists: &[&SortedPages], documents: u64) -> bool {
    for list in lists {
        if (list.len() as u64) < documents / FEW_TO_LOOK_UP {
            return false;
        }
    }
    true
}

// The documents of the universe that are among those of each word whose documents are kept as a set, or none where
// those of no word are kept.
fn narrowed(
    alloc: Global,
    postings: &Postings,
    words: &[Word],
    universe: &DocSet,
) -> Result<Option<DocSet>, NoMemory>
    ensures { IfOk result (λ narrow. IfSome narrow (λ set.
        IsNarrowed postings.now words.now universe.now.ids set.ids)) }
{
    let mut narrow = None;
    for word in words {
        if let Some(kept) = kept_of(postings, word) {
            let set = kept.and(alloc, narrow.as_ref().unwrap_or(universe))?;
            narrow = Some(set);
        }
    }
    Ok(narrow)
}

// The documents in which the words of these lists stand in a row. Most of the documents of long lists have not all
// words, and are passed over by the sets that are kept.
fn documents_of_row(
    alloc: Global,
    postings: &Postings,
    words: &[Word],
    lists: &[&SortedPages],
    universe: &DocSet,
) -> Result<DocSet, NoMemory>
    requires some { 0 < length lists.now }
    requires lists { map (λ list. list.now.entries) lists.now ≡ map (λ word. list_at word postings.now) words.now }
    ensures { IfOk result (λ set. AreInLists universe.now.ids (map (λ list. list.now.entries) lists.now) set.ids) }
{
    if are_long(lists, universe.len()) {
        if let Some(narrow) = narrowed(alloc, postings, words, universe)? {
            return documents_of_lists(alloc, lists, &narrow);
        }
    }
    documents_of_lists(alloc, lists, universe)
}

// The documents in which the words stand in a row.
fn documents_of_words(
    alloc: Global,
    postings: &Postings,
    words: &[Word],
    universe: &DocSet,
) -> Result<DocSet, NoMemory>
    requires words { 0 < length words.now }
    requires universe { IsIncreasing universe.now.ids }
    ensures { IfOk result (λ set. AreOccurring postings.now (term_of false words.now) universe.now.ids set.ids) }
{
    if let Some(kept) = kept_documents(postings, words) {
        return universe.and(alloc, kept);
    }
    match lists_of(alloc, postings, words)? {
        Some(lists) => documents_of_row(alloc, postings, words, lists.as_slice(), universe),
        None => Ok(DocSet::new(alloc)),
    }
}

// The documents in which a word stands that begins so.
fn documents_of_prefix(
    alloc: Global,
    postings: &Postings,
    prefix: &Word,
    universe: &DocSet,
) -> Result<DocSet, NoMemory>
    ensures { IfOk result (λ set. AreOccurring postings.now (term_of true (prefix.now ∷ [])) universe.now.ids set.ids) }
{
    let places = PrefixPlaces::new(alloc, postings, prefix)?;
    places.documents(alloc, universe)
}

/// The documents of the universe in which the term occurs: its words in a row, or a word that begins
/// as the word of a prefix term does. A term has a word at least, and a prefix term has just one. The
/// documents are those that the postings stand for; an id of the universe that none of them has is
/// not in the answer. It looks at the lists of the term's words alone: a list much longer than the
/// universe is sought in, and of several words the rarest is walked. Of a single word whose documents
/// are kept as a set no list is looked at. Where there is no memory,
/// nothing has changed.
pub fn documents(
    alloc: Global,
    postings: &Postings,
    term: &Term,
    universe: &DocSet,
) -> Result<DocSet, NoMemory>
    requires { IsTerm term.now }
    ensures { IfOk result (λ set. AreOccurring postings.now term.now universe.now.ids set.ids) }
{
    let _documents = universe.len();
    if term.prefix {
        return documents_of_prefix(alloc, postings, &term.words[0], universe);
    }
    documents_of_words(alloc, postings, term.words.as_slice(), universe)
}
