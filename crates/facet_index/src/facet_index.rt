ghost use Rattle.std.specs.Prelude.{◌≡◌, ℕ, List, [], filter, IfOk, IfSome, MatchResult};
ghost use Rattle.postings.specs.Dictionary.{list_at, HasRooms, IsTight, none};
ghost use Rattle.facet_index.specs.LeavesView.{LeavesView};
ghost use Rattle.facet_index.specs.Documents.{has_value, has_mark, has_number_that, is_between, passes_at};
ghost use Rattle.facet_index.specs.Places.{IsIndexOf};
ghost use Rattle.facet_index.specs.Batches.{IsBatch, IsChangeFor, IsPreparedFor, after};

use crate::change::{FacetChange, PreparedFacets};
use crate::lists::documents_at;
use crate::ranges::documents_in_short;
use doc_sets::DocSet;
use facet_keys::{keys_are_in_order, keys_tell_facets_apart, mark_key, value_key};
use postings::Postings;
use search_base::{FacetValue, MarkKind, NoMemory, PathId};
use std::alloc::Global;
use std::marker::Model;

/// For each facet the documents that have it.
#[derive(Drop)]
pub struct FacetIndex {
    pub(crate) keys: Postings,
}

impl Model for FacetIndex {
    ghost use Rattle.postings.specs.Dictionary.{PostingsView};

    ghost Value = { PostingsView };

    ghost view = { λ index. index.keys };
}

impl FacetIndex {
    /// The index of no document. Takes no memory.
    pub fn new(alloc: Global) -> FacetIndex
        ensures index { IsIndexOf result [] }
        ensures tight { IsTight none result.lists }
    {
        FacetIndex {
            keys: Postings::new(alloc),
        }
    }

    /// The keys of facets with their documents, each of which stands at position 0 of path 0.
    pub fn keys(&self) -> &Postings
        ensures { result.now ≡ self.now }
    {
        &self.keys
    }

    /// The documents of the universe that have a leaf of this value under the path.
    pub fn equal(
        &self,
        alloc: Global,
        path: PathId,
        value: &FacetValue,
        universe: &DocSet,
    ) -> Result<DocSet, NoMemory>
        ensures { IfOk result (λ docs. (documents : List LeavesView) → IsIndexOf self.now documents
            → docs.ids ≡ filter (passes_at (has_value value.now path.0) documents) universe.now.ids) }
    {
        keys_tell_facets_apart();
        let key = value_key(alloc, path, value)?;
        documents_at(alloc, &self.keys, &key, universe)
    }

    /// The documents of the universe that have a mark of this kind under the path.
    pub fn marked(
        &self,
        alloc: Global,
        path: PathId,
        kind: MarkKind,
        universe: &DocSet,
    ) -> Result<DocSet, NoMemory>
        ensures { IfOk result (λ docs. (documents : List LeavesView) → IsIndexOf self.now documents
            → docs.ids ≡ filter (passes_at (has_mark kind path.0) documents) universe.now.ids) }
    {
        keys_tell_facets_apart();
        let key = mark_key(alloc, path, kind)?;
        documents_at(alloc, &self.keys, &key, universe)
    }

    /// The documents of the universe that have a number from `low` to `high`, both ends among them, under the
    /// path, where the lists of these numbers are short beside the universe, and else none, as testing each of its
    /// documents takes less time then. Looks at no number outside.
    pub fn short_range(
        &self,
        alloc: Global,
        path: PathId,
        low: i128,
        high: i128,
        universe: &DocSet,
    ) -> Result<Option<DocSet>, NoMemory>
        ensures { IfOk result (λ found. IfSome found (λ docs.
            (documents : List LeavesView) → IsIndexOf self.now documents → docs.ids
            ≡ filter (passes_at (has_number_that (is_between low high) path.0) documents) universe.now.ids)) }
    {
        keys_are_in_order();
        let first = value_key(alloc, path, &FacetValue::Number(low))?;
        let last = value_key(alloc, path, &FacetValue::Number(high))?;
        documents_in_short(alloc, &self.keys, &first, &last, universe)
    }

    /// Takes all memory that the change needs, in proportion to the change. Each answer stays as it
    /// was, whatever the result, and after a refusal no room is left behind.
    pub fn prepare(
        &mut self,
        alloc: Global,
        change: FacetChange,
    ) -> Result<PreparedFacets, NoMemory>
        ensures lists { (key : List ℕ) → list_at key self.new ≡ list_at key self.old }
        ensures same { (documents : List LeavesView) → IsIndexOf self.old documents → IsIndexOf self.new documents }
        ensures made { IfOk result (λ prepared. (gone come : List LeavesView) → IsChangeFor change gone come
            → IsPreparedFor prepared gone come) }
        ensures room { IfOk result (λ prepared. HasRooms self.new.lists prepared.words) }
        ensures tight { IsTight none self.old.lists
            → MatchResult result (λ prepared. IsTight prepared.words self.new.lists)
            (λ _. IsTight none self.new.lists) }
    {
        let keys = self.keys.prepare(alloc, change.keys)?;
        Ok(PreparedFacets { keys })
    }

    /// Makes a change that was prepared on this index as it is. Takes no memory. Where the index was
    /// that of some documents, it is that of the documents after the change.
    pub fn commit(&mut self, prepared: PreparedFacets)
        requires { HasRooms self.old.lists prepared.words }
        ensures index { (gone come documents : List LeavesView) → IsPreparedFor prepared gone come
            → IsBatch gone come documents → IsIndexOf self.old documents
            → IsIndexOf self.new (after gone come documents) }
        ensures tight { IsTight prepared.words self.old.lists → IsTight none self.new.lists }
    {
        self.keys.commit(prepared.keys);
    }

    /// Gives back the room of a prepared change that is not to be made. Each answer stays as it was.
    /// Takes no memory.
    pub fn release(&mut self, prepared: PreparedFacets)
        ensures lists { (key : List ℕ) → list_at key self.new ≡ list_at key self.old }
        ensures same { (documents : List LeavesView) → IsIndexOf self.old documents → IsIndexOf self.new documents }
        ensures tight { IsTight prepared.words self.old.lists → IsTight none self.new.lists }
    {
        self.keys.release(prepared.keys);
    }
}
