ghost use Rattle.std.specs.Prelude.{◌≡◌, ◌≤◌, ◌^◌, ◌&&◌, ◌||◌, ℕ, true, map, ◌++◌, length, List, Some, IfOk, OnOk};
ghost use Rattle.std.specs.List.{list_any};
ghost use Rattle.search_base.specs.Bucket.{bucket_of};
ghost use Rattle.doc_sets.specs.Sets.{has};
ghost use Rattle.postings.specs.Documents.{Document};
ghost use Rattle.posting_sets.specs.Found.{has_document};
ghost use Rattle.posting_sets.specs.Numbers.{rank_at};
ghost use Rattle.posting_sets.specs.Gathered.{ids_at, is_numbered, has_number, place_number};
ghost use Rattle.posting_sets.specs.Prefixes.{in_rows, AreGathered, AreGatheredFrom, prefix_term, HavePrefix, AreNumberedByPrefix, HavePrefixAtFirst};

use crate::entry::document_of;
use crate::found::add_kept_or_list;
use crate::number::Number;
use crate::numbered::{add_entry, add_list, first_set, least_sets};
use doc_sets::{DocSet, DocSetBuilder};
use posting_list::PostingList;
use postings::Postings;
use search_base::{NoMemory, Word};
use sorted_pages::SortedPages;
use std::alloc::Global;
use std::marker::Model;

// The places of a list of at most so many are put into the row.
const FEW_PLACES: usize = 128;

/// The places of all words that begin so: the longer of their lists as they are, and the places of all short ones in one
/// row, list by list. They are gathered once, and then asked several questions.
#[derive(Drop)]
pub struct PrefixPlaces<'a> {
    prefix: &'a Word,
    long: Vec<&'a PostingList>,
    short: Vec<u64>,
}

impl<'a> Model for PrefixPlaces<'a> {
    ghost use Rattle.std.specs.Prelude.{map};
    ghost use Rattle.posting_sets.specs.Prefixes.{PrefixView};

    ghost Value = { PrefixView };

    ghost view = { λ places. record {
      prefix = places.prefix.now;
      long = map (λ list. list.now.entries) places.long.items;
      short = places.short.items;
    } };
}

// Adds the places of a list to a row.
fn add_places(row: &mut Vec<u64>, list: &SortedPages) -> Result<(), NoMemory>
    ensures { OnOk result (row.new.items ≡ row.old.items ++ list.now.entries) }
{
    for entry in list.iter() {
        row.push(entry)?;
    }
    Ok(())
}

// Adds the documents of some lists to a set, maybe with some from outside of the universe.
fn add_lists(
    alloc: Global,
    builder: &mut DocSetBuilder,
    lists: &[&PostingList],
    universe: &DocSet,
) -> Result<(), NoMemory>
    ensures { OnOk result ((q : ℕ) → (has universe.now.ids q && has builder.new q)
        ≡ (has universe.now.ids q && (list_any (λ list. has_document list.now.entries q) lists.now || has builder.old q))) }
{
    for list in lists {
        add_kept_or_list(alloc, builder, *list, universe)?;
    }
    Ok(())
}

// Adds the documents of some places to a set.
fn add_row(builder: &mut DocSetBuilder, row: &[u64]) -> Result<(), NoMemory>
    ensures { OnOk result ((q : ℕ) → has builder.new q ≡ (has_document row.now q || has builder.old q)) }
{
    for entry in row {
        builder.add_id(document_of(*entry))?;
    }
    Ok(())
}

// Adds the documents of the universe that some lists have entries of to the sets of the numbers of these.
fn add_numbers_of_lists(
    alloc: Global,
    sets: &mut Vec<DocSetBuilder>,
    lists: &[&PostingList],
    number: Number<'_>,
    universe: &DocSet,
) -> Result<(), NoMemory>
    requires { length sets.old.items ≤ 2 ^ 16 }
    ensures each { OnOk result ((n q : ℕ) → has (ids_at n sets.new.items) q ≡ (list_any (λ list.
        has universe.now.ids q && list_any (is_numbered number.entry n q) list.now.entries) lists.now
        || has (ids_at n sets.old.items) q)) }
    ensures few { length sets.new.items ≤ 2 ^ 16 }
{
    for list in lists {
        add_list(alloc, sets, *list, number, universe)?;
    }
    Ok(())
}

// The same for places.
fn add_numbers_of_row(
    alloc: Global,
    sets: &mut Vec<DocSetBuilder>,
    row: &[u64],
    number: Number<'_>,
    universe: &DocSet,
) -> Result<(), NoMemory>
    requires { length sets.old.items ≤ 2 ^ 16 }
    ensures each { OnOk result ((n q : ℕ) → has (ids_at n sets.new.items) q
        ≡ ((has universe.now.ids q && list_any (is_numbered number.entry n q) row.now) || has (ids_at n sets.old.items) q)) }
    ensures few { length sets.new.items ≤ 2 ^ 16 }
{
    for entry in row {
        if universe.contains(document_of(*entry)) {
            add_entry(alloc, sets, *entry, number)?;
        }
    }
    Ok(())
}

impl<'a> PrefixPlaces<'a> {
    // Adds the places of one more list.
    fn gather(&mut self, list: &'a PostingList) -> Result<(), NoMemory>
        ensures prefix { self.new.prefix ≡ self.old.prefix }
        ensures rows { OnOk result ((entry : ℕ) → in_rows self.new entry ≡ (has list.now.entries entry || in_rows self.old entry)) }
    {
        let pages = list.pages();
        if pages.len() <= FEW_PLACES {
            return add_places(&mut self.short, pages);
        }
        self.long.push(list)?;
        Ok(())
    }

    /// Gathers the places of the words that begin so. It goes over all of their lists, but for the places of the longer
    /// ones. An error is want of memory, which is in proportion to the lists and to the places of the short ones.
    pub fn new(
        alloc: Global,
        postings: &'a Postings,
        prefix: &'a Word,
    ) -> Result<PrefixPlaces<'a>, NoMemory>
        ensures prefix { IfOk result (λ places. places.prefix ≡ prefix.now) }
        ensures gathered { IfOk result (AreGatheredFrom postings.now) }
    {
        let mut places = PrefixPlaces {
            prefix,
            long: Vec::new(alloc),
            short: Vec::new(alloc),
        };
        for (_word, list) in postings.with_prefix(prefix) {
            places.gather(list)?;
        }
        Ok(places)
    }

    /// The prefix. Takes no memory.
    pub fn prefix(&self) -> &Word
        ensures { result.now ≡ self.now.prefix }
    {
        self.prefix
    }

    /// The longer lists. Takes no memory.
    pub fn long(&self) -> &[&'a PostingList]
        ensures { map (λ list. list.now.entries) result.now ≡ self.now.long }
    {
        self.long.as_slice()
    }

    /// The places of all other lists, list by list. Takes no memory.
    pub fn short(&self) -> &[u64]
        ensures { result.now ≡ self.now.short }
    {
        self.short.as_slice()
    }

    /// The documents of the universe in which a word begins so. Where there is no memory, nothing has changed.
    pub fn documents(&self, alloc: Global, universe: &DocSet) -> Result<DocSet, NoMemory>
        ensures { IfOk result (λ set. HavePrefix self.now universe.now.ids set.ids) }
    {
        let _documents = universe.len();
        let mut builder = DocSetBuilder::new(alloc, 0)?;
        add_lists(alloc, &mut builder, self.long(), universe)?;
        add_row(&mut builder, self.short())?;
        let all = builder.finish(alloc)?;
        universe.and(alloc, &all)
    }

    // The documents of each number of a place with a word that begins so.
    pub(crate) fn numbers(
        &self,
        alloc: Global,
        number: Number<'_>,
        universe: &DocSet,
    ) -> Result<Vec<DocSetBuilder>, NoMemory>
        ensures each { IfOk result (λ sets. (documents : List Document) → AreGathered documents self.now → (n id : ℕ)
            → has (ids_at n sets.items) id
            ≡ has_number documents (prefix_term self.now) (place_number number.entry) universe.now.ids n id) }
        ensures few { IfOk result (λ sets. length sets.items ≤ 2 ^ 16) }
    {
        let mut sets = Vec::new(alloc);
        add_numbers_of_lists(alloc, &mut sets, self.long(), number, universe)?;
        add_numbers_of_row(alloc, &mut sets, self.short(), number, universe)?;
        Ok(sets)
    }

    // The documents by the least number of the places where a word begins so.
    fn documents_by(
        &self,
        alloc: Global,
        number: Number<'_>,
        universe: &DocSet,
    ) -> Result<Vec<(u16, DocSet)>, NoMemory>
        ensures { IfOk result (λ rows. AreNumberedByPrefix self.now (place_number number.entry) universe.now.ids rows.items) }
    {
        let _documents = universe.len();
        let sets = self.numbers(alloc, number, universe)?;
        least_sets(alloc, sets)
    }

    /// The documents of the universe by the least rank of the paths in which a word begins so, in order of the ranks, of
    /// which each has a document. The ranks are given by path: a path past their end has none, and a place in a path
    /// without a rank does not count. Where there is no memory, nothing has changed.
    pub fn by_rank(
        &self,
        alloc: Global,
        ranks: &[Option<u16>],
        universe: &DocSet,
    ) -> Result<Vec<(u16, DocSet)>, NoMemory>
        ensures { IfOk result (λ rows. AreNumberedByPrefix self.now (λ place. rank_at ranks.now place.path.0)
            universe.now.ids rows.items) }
    {
        self.documents_by(alloc, Number::Rank(ranks), universe)
    }

    /// The documents of the universe by the least bucket of the positions at which a word begins so, in order of the
    /// buckets, of which each has a document. Where there is no memory, nothing has changed.
    pub fn by_bucket(
        &self,
        alloc: Global,
        universe: &DocSet,
    ) -> Result<Vec<(u16, DocSet)>, NoMemory>
        ensures { IfOk result (λ rows. AreNumberedByPrefix self.now (λ place. Some (bucket_of place.position))
            universe.now.ids rows.items) }
    {
        self.documents_by(alloc, Number::Bucket, universe)
    }

    /// The documents of the universe in which a word begins so at the beginning of a path, which are those of bucket 0
    /// (`by_bucket`). Where there is no memory, nothing has changed.
    pub fn at_first(&self, alloc: Global, universe: &DocSet) -> Result<DocSet, NoMemory>
        ensures { IfOk result (λ set. HavePrefixAtFirst self.now universe.now.ids set.ids) }
    {
        let _documents = universe.len();
        let sets = self.numbers(alloc, Number::First, universe)?;
        first_set(alloc, sets)
    }
}
