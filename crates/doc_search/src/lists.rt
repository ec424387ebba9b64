ghost use Rattle.std.specs.Prelude.{◌≡◌, ℕ, true, List, [], ◌∷◌, map, Some, IfOk, IfSome};
ghost use Rattle.search_base.specs.Bucket.{bucket_of};
ghost use Rattle.search_base.specs.Graphs.{IsTerm};
ghost use Rattle.search_base.specs.PairCost.{asked_cost};
ghost use Rattle.postings.specs.Documents.{Document, places_of};
ghost use Rattle.postings.specs.Fresh.{StandsFor};
ghost use Rattle.posting_sets.specs.Found.{AreOccurring, term_of};
ghost use Rattle.posting_sets.specs.Numbers.{rank_at, AreNumbered};
ghost use Rattle.posting_sets.specs.Beginnings.{AreAtFirst};
ghost use Rattle.posting_sets.specs.Prefixes.{AreGatheredFrom, prefix_term};
ghost use Rattle.near_words.specs.ByCost.{ids_by_cost};

use doc_sets::DocSet;
use near_words::{documents_by_pair_cost, documents_by_prefix_cost};
use posting_sets::{
    PrefixPlaces, documents, documents_at_first, documents_by_bucket, documents_by_rank,
};
use postings::Postings;
use search_base::{Graph, NoMemory, Term, Word};
use std::alloc::Global;
use std::marker::Model;

/// What the conditions of a search are asked of: posting lists, the rank of each path by its number, where it has one,
/// and the places of some prefixes. A prefix whose places were gathered is asked of these, and any other one of the
/// posting lists; what is found is the same.
#[derive(Drop)]
pub struct SearchLists<'a> {
    postings: &'a Postings,
    ranks: &'a [Option<u16>],
    prefixes: Vec<PrefixPlaces<'a>>,
}

impl<'a> Model for SearchLists<'a> {
    ghost use Rattle.std.specs.List.{AllByRecursion};
    ghost use Rattle.posting_sets.specs.Prefixes.{AreGatheredFrom};
    ghost use Rattle.doc_search.specs.Lists.{ListsView};

    ghost Value = { ListsView };

    ghost view = { λ lists. record { postings = lists.postings.now; ranks = lists.ranks.now } };

    ghost invariant = { λ lists. AllByRecursion (AreGatheredFrom lists.postings.now) lists.prefixes.items };
}

// The one word of a term, where longer words are meant too.
fn prefix_of(term: &Term) -> Option<&Word>
    ensures { IfSome result (λ word. term.now ≡ term_of true (word.now ∷ [])) }
{
    if term.prefix && term.words.len() == 1 {
        Some(&term.words[0])
    } else {
        None
    }
}

impl<'a> SearchLists<'a> {
    /// No prefix is gathered yet. Takes no memory.
    pub fn new(alloc: Global, postings: &'a Postings, ranks: &'a [Option<u16>]) -> SearchLists<'a>
        ensures postings { result.postings ≡ postings.now }
        ensures ranks { result.ranks ≡ ranks.now }
    {
        SearchLists {
            postings,
            ranks,
            prefixes: Vec::new(alloc),
        }
    }

    // Gathers the places of a prefix, if they are not there yet.
    fn gather(&mut self, alloc: Global, prefix: &'a Word) -> Result<(), NoMemory>
        ensures { self.new ≡ self.old }
    {
        if self.gathered(prefix).is_some() {
            return Ok(());
        }
        let places = PrefixPlaces::new(alloc, self.postings, prefix)?;
        self.prefixes.push(places)?;
        Ok(())
    }

    /// Gathers the places of each prefix of a query. An error is want of memory; then some of them are gathered.
    pub fn gather_all(&mut self, alloc: Global, query: &'a Graph) -> Result<(), NoMemory>
        ensures { self.new ≡ self.old }
    {
        for level in &query.levels {
            for placed in &level.blocks {
                if let Some(prefix) = prefix_of(&placed.block.term) {
                    self.gather(alloc, prefix)?;
                }
            }
        }
        Ok(())
    }

    // The places of a prefix, if they were gathered.
    fn gathered(&self, prefix: &Word) -> Option<&PrefixPlaces<'a>>
        ensures prefix { IfSome result (λ places. places.now.prefix ≡ prefix.now) }
        ensures gathered { IfSome result (λ places. AreGatheredFrom self.now.postings places.now) }
    {
        for places in &self.prefixes {
            if *places.prefix() == *prefix {
                return Some(places);
            }
        }
        None
    }

    // The places of a term that is a prefix, if they were gathered.
    fn of_term(&self, term: &Term) -> Option<&PrefixPlaces<'a>>
        ensures term { IfSome result (λ places. term.now ≡ prefix_term places.now) }
        ensures gathered { IfSome result (λ places. AreGatheredFrom self.now.postings places.now) }
    {
        self.gathered(prefix_of(term)?)
    }

    // The documents of the universe in which a term occurs.
    pub(crate) fn documents(
        &self,
        alloc: Global,
        term: &Term,
        universe: &DocSet,
    ) -> Result<DocSet, NoMemory>
        requires { IsTerm term.now }
        ensures { IfOk result (λ set. AreOccurring self.now.postings term.now universe.now.ids set.ids) }
    {
        if let Some(places) = self.of_term(term) {
            return places.documents(alloc, universe);
        }
        documents(alloc, self.postings, term, universe)
    }

    // The same by the least rank of the paths in which it occurs.
    pub(crate) fn by_rank(
        &self,
        alloc: Global,
        term: &Term,
        universe: &DocSet,
    ) -> Result<Vec<(u16, DocSet)>, NoMemory>
        requires { IsTerm term.now }
        ensures { IfOk result (λ rows. AreNumbered self.now.postings term.now
            (λ place. rank_at self.now.ranks place.path.0) universe.now.ids rows.items) }
    {
        if let Some(places) = self.of_term(term) {
            return places.by_rank(alloc, self.ranks, universe);
        }
        documents_by_rank(alloc, self.postings, term, self.ranks, universe)
    }

    // The same by the least bucket of the positions at which it occurs.
    pub(crate) fn by_bucket(
        &self,
        alloc: Global,
        term: &Term,
        universe: &DocSet,
    ) -> Result<Vec<(u16, DocSet)>, NoMemory>
        requires { IsTerm term.now }
        ensures { IfOk result (λ rows. AreNumbered self.now.postings term.now
            (λ place. Some (bucket_of place.position)) universe.now.ids rows.items) }
    {
        if let Some(places) = self.of_term(term) {
            return places.by_bucket(alloc, universe);
        }
        documents_by_bucket(alloc, self.postings, term, universe)
    }

    // Those of the first bucket, where they are known without a walk over a long list.
    pub(crate) fn at_first(
        &self,
        alloc: Global,
        term: &Term,
        universe: &DocSet,
    ) -> Result<Option<DocSet>, NoMemory>
        requires { IsTerm term.now }
        ensures { IfOk result (λ found. IfSome found (λ set.
            AreAtFirst self.now.postings term.now universe.now.ids set.ids)) }
    {
        if let Some(places) = self.of_term(term) {
            let set = places.at_first(alloc, universe)?;
            return Ok(Some(set));
        }
        documents_at_first(alloc, self.postings, term, universe)
    }

    // The documents of the universe by the pair cost of a word and a prefix.
    fn by_prefix_cost(
        &self,
        alloc: Global,
        left: &Word,
        right: &Word,
        universe: &DocSet,
    ) -> Result<Vec<DocSet>, NoMemory>
        ensures { IfOk result (λ sets. (documents : List Document) → StandsFor self.now.postings documents
            → map (λ set. set.ids) sets.items
            ≡ ids_by_cost (λ id. asked_cost (places_of id documents) left.now true right.now) universe.now.ids) }
    {
        if let Some(places) = self.gathered(right) {
            return documents_by_prefix_cost(alloc, universe, self.postings, left, places);
        }
        let places = PrefixPlaces::new(alloc, self.postings, right)?;
        documents_by_prefix_cost(alloc, universe, self.postings, left, &places)
    }

    // The documents of the universe by the pair cost of two words, of which the right one may be a prefix.
    pub(crate) fn by_pair_cost(
        &self,
        alloc: Global,
        left: &Word,
        prefix: bool,
        right: &Word,
        universe: &DocSet,
    ) -> Result<Vec<DocSet>, NoMemory>
        ensures { IfOk result (λ sets. (documents : List Document) → StandsFor self.now.postings documents
            → map (λ set. set.ids) sets.items
            ≡ ids_by_cost (λ id. asked_cost (places_of id documents) left.now prefix right.now) universe.now.ids) }
    {
        if prefix {
            self.by_prefix_cost(alloc, left, right, universe)
        } else {
            documents_by_pair_cost(alloc, universe, self.postings, left, right)
        }
    }
}
