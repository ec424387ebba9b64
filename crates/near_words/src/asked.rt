ghost use Rattle.std.specs.Prelude.{◌≡◌, ℕ, true, false, List, [], ◌++◌, ◌&&◌, ◌/◌, ◌^◌, map, flat_map, IfOk, OnOk};
ghost use Rattle.search_base.specs.PairCost.{pair_cost, asked_cost};
ghost use Rattle.doc_sets.specs.Sets.{has as has_id};
ghost use Rattle.sorted_pages.specs.Entries.{has, IsIncreasing};
ghost use Rattle.postings.specs.Documents.{Document, places_of};
ghost use Rattle.postings.specs.Dictionary.{list_at};
ghost use Rattle.postings.specs.Fresh.{StandsFor};
ghost use Rattle.near_words.specs.ByCost.{ids_by_cost};
ghost use Rattle.posting_sets.specs.Prefixes.{in_rows, AreGathered};
ghost use Rattle.near_words.specs.Inside.{inside};
ghost use Rattle.near_words.specs.Narrowed.{AreNarrowed};

use crate::by_document::{document, read, seek};
use crate::costs::documents_by_cost;
use doc_sets::DocSet;
use posting_list::PostingList;
use posting_sets::{PrefixPlaces, documents};
use postings::Postings;
use search_base::{DocId, NoMemory, Term, Word};
use sorted_pages::SortedPages;
use std::alloc::Global;

// The list of a word, and an empty one where the word has none.
fn list_of<'a>(postings: &'a Postings, word: &Word, none: &'a SortedPages) -> &'a SortedPages
    requires { none.now.entries ≡ [] }
    ensures { result.now.entries ≡ list_at word.now postings.now }
{
    match postings.list(word) {
        Some(list) => list,
        None => none,
    }
}

// Adds the entries of a list whose documents are in the universe.
fn add_inside(universe: &DocSet, list: &SortedPages, entries: &mut Vec<u64>) -> Result<(), NoMemory>
    ensures { OnOk result (entries.new.items ≡ entries.old.items ++ inside universe.now.ids list.now.entries) }
{
    let mut left = list.iter();
    while let Some(id) = document(&left) {
        if universe.contains(id) {
            read(&mut left, id, entries)?;
        } else {
            match universe.next_after(id) {
                Some(next) => seek(&mut left, next),
                None => return Ok(()),
            }
        }
    }
    Ok(())
}

// The same entries in order, each once.
fn in_order(entries: Vec<u64>) -> Vec<u64>
    ensures increasing { IsIncreasing result.items }
    ensures same { (entry : ℕ) → has result.items entry ≡ has entries.items entry }
{
    let mut entries = entries;
    entries.sort_unstable();
    entries.dedup();
    entries
}

// Adds the places of a row whose documents are in the universe.
fn add_row_inside(universe: &DocSet, row: &[u64], entries: &mut Vec<u64>) -> Result<(), NoMemory>
    ensures { OnOk result (entries.new.items ≡ entries.old.items ++ inside universe.now.ids row.now) }
{
    for entry in row {
        if universe.contains(DocId((*entry / 0x1_0000_0000) as u32)) {
            entries.push(*entry)?;
        }
    }
    Ok(())
}

// Adds the entries of some lists whose documents are in the universe, list after list.
fn add_lists_inside(
    universe: &DocSet,
    lists: &[&PostingList],
    entries: &mut Vec<u64>,
) -> Result<(), NoMemory>
    ensures { OnOk result (entries.new.items
        ≡ entries.old.items ++ flat_map (λ list. inside universe.now.ids list.now.entries) lists.now) }
{
    for list in lists {
        add_inside(universe, list.pages(), entries)?;
    }
    Ok(())
}

// The places in the universe of all words that begin so.
fn places_inside(
    alloc: Global,
    universe: &DocSet,
    prefix: &PrefixPlaces<'_>,
) -> Result<Vec<u64>, NoMemory>
    ensures { IfOk result (λ entries. (entry : ℕ) → has entries.items entry
        ≡ (in_rows prefix.now entry && has_id universe.now.ids (entry / 2 ^ 32))) }
{
    let mut entries = Vec::new(alloc);
    add_lists_inside(universe, prefix.long(), &mut entries)?;
    add_row_inside(universe, prefix.short(), &mut entries)?;
    Ok(entries)
}

// The same as a list in pages.
fn list_inside(
    alloc: Global,
    universe: &DocSet,
    prefix: &PrefixPlaces<'_>,
) -> Result<SortedPages, NoMemory>
    ensures { IfOk result (λ list. (entry : ℕ) → has list.entries entry
        ≡ (in_rows prefix.now entry && has_id universe.now.ids (entry / 2 ^ 32))) }
{
    let entries = in_order(places_inside(alloc, universe, prefix)?);
    let mut list = SortedPages::new(alloc);
    list.reserve(alloc, entries.as_slice())?;
    list.insert_reserved(entries.as_slice());
    Ok(list)
}

// How many places the word has.
fn place_count(postings: &Postings, word: &Word) -> u64 {
    match postings.list(word) {
        Some(list) => list.len() as u64,
        None => 0,
    }
}

// The same word.
fn copy_word(word: &Word) -> Result<Word, NoMemory>
    ensures { IfOk result (λ copy. copy ≡ word.now) }
{
    Ok(word.clone()?)
}

// The documents of the universe in which the word stands, where it has fewer places than the universe has documents,
// and else the whole universe.
fn narrowed(
    alloc: Global,
    universe: &DocSet,
    postings: &Postings,
    word: &Word,
) -> Result<DocSet, NoMemory>
    ensures { IfOk result (λ set. AreNarrowed postings.now word.now universe.now.ids set.ids) }
{
    if universe.len() <= place_count(postings, word) {
        let all = universe.clone()?;
        return Ok(all);
    }
    let copy = copy_word(word)?;
    let term = Term {
        words: Vec::from_array(alloc, [copy])?,
        prefix: false,
    };
    documents(alloc, postings, &term, universe)
}

/// The documents of the universe by the pair cost of two words, where the postings are those of some documents: a set
/// for each cost from 0 to 6, in this order. A document in which the words do not stand near each other is in none.
///
/// Where a word has fewer places than the universe has documents, only its documents are gone over. An error is want of
/// memory, which is in proportion to the universe.
pub fn documents_by_pair_cost(
    alloc: Global,
    universe: &DocSet,
    postings: &Postings,
    left: &Word,
    right: &Word,
) -> Result<Vec<DocSet>, NoMemory>
    ensures { IfOk result (λ sets. (documents : List Document) → StandsFor postings.now documents
        → map (λ set. set.ids) sets.items
        ≡ ids_by_cost (λ id. asked_cost (places_of id documents) left.now false right.now) universe.now.ids) }
{
    let near = narrowed(alloc, universe, postings, left)?;
    let nearer = narrowed(alloc, &near, postings, right)?;
    let none = SortedPages::new(alloc);
    let lefts = list_of(postings, left, &none);
    let rights = list_of(postings, right, &none);
    documents_by_cost(alloc, &nearer, lefts, rights)
}

/// The same, where the right word stands for each word that begins as a prefix does, whose places were gathered from the
/// postings. Those of them that are inside the universe are collected and sorted. An error is want of memory, which is in
/// proportion to the universe and to those places.
pub fn documents_by_prefix_cost(
    alloc: Global,
    universe: &DocSet,
    postings: &Postings,
    left: &Word,
    right: &PrefixPlaces<'_>,
) -> Result<Vec<DocSet>, NoMemory>
    ensures { IfOk result (λ sets. (documents : List Document) → StandsFor postings.now documents
        → AreGathered documents right.now → map (λ set. set.ids) sets.items
        ≡ ids_by_cost (λ id. asked_cost (places_of id documents) left.now true right.now.prefix) universe.now.ids) }
{
    let near = narrowed(alloc, universe, postings, left)?;
    let none = SortedPages::new(alloc);
    let lefts = list_of(postings, left, &none);
    let rights = list_inside(alloc, &near, right)?;
    documents_by_cost(alloc, &near, lefts, &rights)
}
