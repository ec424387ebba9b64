ghost use Rattle.std.specs.Prelude.{◌≡◌, ◌+◌, ◌-◌, ◌*◌, ◌≤◌, List, [], ◌∷◌, true, false, min, length, map, take, drop, IfOk, OnOk, OnErr, IsTrue, ◌↔◌, None, is_err, if◌then◌else◌};
ghost use Rattle.std.specs.List.{AllByRecursion, filter_map};
ghost use Rattle.std.specs.Option.{option_copied, option_map, is_some, IfSome};
ghost use Rattle.std.specs.Result.{result_err, result_unwrap_or};
ghost use Rattle.search_base.specs.Gives.{Gives, Checks};
ghost use Rattle.document_changes.specs.Changes.{kind_view};
ghost use Rattle.doc_values.specs.Ids.{is_uid};
ghost use Rattle.doc_store.specs.Sound.{IsSound};
ghost use Rattle.doc_store.specs.Store.{spent};
ghost use Rattle.index_image.specs.Rows.{IndexData, index_view};
ghost use Rattle.index_image.specs.State.{IsIndex, is_above};
ghost use Rattle.index_changes.specs.Batches.{AreOf, IsOneBatch, after_each, batch_kind_of, batch_needed, changed_by, faults_of};
ghost use Rattle.index_changes.specs.declared.batch.BatchKind.TheVariants.{Remove as Removing, Single as Alone};
ghost use Rattle.index_changes.specs.Gathering.{Stores};
ghost use Rattle.index_changes.specs.Images.{index_of};
ghost use Rattle.index_changes.specs.Keyed.{HasKey, IsKeyedWork};
ghost use Rattle.index_changes.specs.Index.{empty_index, documents as documents_in, document_under};
ghost use Rattle.index_changes.specs.Refusals.{store_refusal};
ghost use Rattle.index_changes.specs.PlanView.{work_view, IsGood};
ghost use Rattle.index_changes.specs.Plans.{planned, applied, after_work, settings_after, IsPlanFor};
ghost use Rattle.index_changes.specs.Fetches.{needed};
ghost use Rattle.index_core.specs.Distinct.{distinct_attribute_in};
ghost use Rattle.index_core.specs.Fetches.{compared, documents_needed};
ghost use Rattle.index_core.specs.Looked.{looked_at};
ghost use Rattle.index_core.specs.Among.{IsSearchOf, IsFound, IsKeptPath, opened_found, compared_found};
ghost use Rattle.index_core.specs.Terms.{terms_in};
ghost use Rattle.search_base.specs.Graphs.{IsGraph};
ghost use Rattle.search_base.specs.Terms.{HaveSame};
ghost use Rattle.search_call.specs.Windows.{offset_of};
ghost use Rattle.index_core.specs.Found.{found, candidates, most_hits, window_size};
ghost use Rattle.index_core.specs.Matching.{matching, rules_in, uses_in};
ghost use Rattle.index_core.specs.FacetHits.{facet_found, hits_at};
ghost use Rattle.doc_search.specs.Searched.{documents_in as documents_searched};
ghost use Rattle.bucket_sort.specs.Opens.{log_state, Opens, is_starved};
ghost use Rattle.index_core.specs.Opened.{opened, opened_in, most_opened};
ghost use Rattle.index_core.specs.Ranking.{IsRankingOf};
ghost use Rattle.index_core.specs.Shown.{hit_at, Finds};
ghost use Rattle.search_result.specs.View.{found_view, hit_view};

use crate::call::Listing;
use crate::distinct::search_stored;
use crate::findings::{Findings, if_asked};
use crate::ranking::{Ranking, costs_of};
use crate::read::read;
use crate::terms::terms_shown;
use crate::values::values_asked;
use bucket_sort::BucketLog;
use doc_index::clear_documents;
use doc_search::{
    AskedCounts, DocumentsFound, IndexedDocuments, LeafValues, Search, facet_values,
    search_distinct, search_documents,
};
use doc_store::DocStore;
use doc_values::DocumentText;
use document_changes::ChangeKind;
use facet_counts::CountRow;
use index_changes::{
    BatchKind, CoreFault, CoreRefusal, Gathered, KeptRows, Plan, ReadDocuments, Work, batch_kind,
    gather, image_of, keeping_key, no_faults, no_work, patch_settings, planned_patch,
    planned_replace, planned_update, read_documents, refusal_in, remove_named, removed_ids,
    replace_documents, reset_settings, store_gathered, update_documents,
};
use index_image::ImageIndex;
use index_settings::Settings;
use row_index::RowIndex;
use rule_buckets::HitWindow;
use search_base::{DocId, NoMemory, PathId, Steps, Word};
use search_call::{FacetCall, SearchCall};
use search_result::{Hit, SearchResult};
use search_settings::{
    QueryWords, SearchFault, asked_paths, check_facet_search, check_search, ranks_are_low,
    rules_of, window_end, window_start,
};
use std::alloc::Global;
use std::marker::Model;
use std::mem;

/// One index, seen as its primary key, its store and its settings. What it keeps so that a search reads no document,
/// cuts no words of the settings and asks them of no path is not seen. Nothing is staged in it between two calls.
#[derive(Drop)]
pub struct IndexCore {
    key: Option<Word>,
    store: DocStore,
    settings: Settings,
    words: QueryWords,
    kept: KeptRows,
}

impl Model for IndexCore {
    ghost use Rattle.index_changes.specs.Index.{Index, index_code};
    ghost use Rattle.index_core.specs.Whole.{IsWhole};

    ghost Value = { Index };

    ghost coded = { index_code };

    ghost view = { λ index. record { key = index.key; store = index.store.content; settings = index.settings } };

    ghost invariant = { λ index. IsWhole index.key index.store index.settings index.words index.kept };
}

impl IndexCore {
    /// An index with no key and no documents, and the settings of a new index.
    pub fn new(alloc: Global) -> Result<IndexCore, NoMemory>
        ensures { IfOk result (λ index. index ≡ empty_index) }
    {
        let settings = Settings::defaults(alloc)?;
        Ok(IndexCore {
            key: None,
            store: DocStore::new(alloc)?,
            words: QueryWords::of(alloc, &settings)?,
            settings,
            kept: KeptRows {
                rows: RowIndex::new(alloc),
                uses: Vec::new(alloc),
            },
        })
    }

    /// The primary key, where the index has one. Takes no memory.
    pub fn key(&self) -> Option<&Word>
        ensures { option_copied result ≡ self.now.key }
    {
        self.key.as_ref()
    }

    /// The settings. Takes no memory.
    pub fn settings(&self) -> &Settings
        ensures { result.now ≡ self.now.settings }
    {
        &self.settings
    }

    /// How many documents the index holds. Takes no memory.
    pub fn len(&self) -> u64
        ensures count { result ≡ length (documents_in self.now) }
        ensures sound { IsSound self.now.store }
    {
        self.store.len()
    }

    /// Whether the index holds no document. Takes no memory.
    pub fn is_empty(&self) -> bool
        ensures { IsTrue result ↔ (length (documents_in self.now) ≡ 0) }
    {
        self.len() == 0
    }

    /// Tries the key of a change and then the id of each document, in order, or the members of a patch, and changes
    /// nothing. A key that the change gives is not empty.
    ///
    /// A change that makes an index or drops it is planned as one of no documents. A change of 2^32 documents or more
    /// counts as one for which there is no memory.
    pub fn plan(&self, alloc: Global, change: ChangeKind) -> Result<Plan, CoreFault>
        requires key { HasKey (kind_view change) }
        ensures plan { Gives (λ plan. plan) result (planned self.now (kind_view change)) }
        ensures fits { IfOk result (λ plan. IsPlanFor plan self.now) }
    {
        let own = self.key.as_ref();
        match change {
            ChangeKind::Replace { key, documents } => planned_replace(alloc, own, key, documents),
            ChangeKind::Update { key, documents } => planned_update(alloc, own, key, documents),
            ChangeKind::Remove { ids } => Ok(keeping_key(own, Work::Remove { ids })?),
            ChangeKind::Clear => Ok(keeping_key(own, Work::Clear)?),
            ChangeKind::Patch { members } => planned_patch(alloc, own, members),
            ChangeKind::Reset => Ok(keeping_key(own, Work::Reset)?),
            _ => Ok(keeping_key(own, no_work(alloc))?),
        }
    }

    /// Does what a plan says, under its key. The index has taken no other change since the plan was made, or at least
    /// none that gave it another key. Takes its memory before it changes anything: a refusal, want of memory too,
    /// leaves the index as it was.
    ///
    /// Where ids or paths are spent, ids are named first. Documents that come or go read each stored document that they
    /// name once, and new settings read each document once where they use some path otherwise; no other change reads
    /// one. What a patch does not name is not looked at, and stays as it was.
    pub fn apply<F>(
        &mut self,
        alloc: Global,
        plan: Plan,
        fetches: &mut Steps<F>,
    ) -> Result<(), CoreFault>
        requires { IsPlanFor plan self.old }
        ensures answer { Gives (λ _. self.new) result (applied plan self.old) }
        ensures stays { OnErr result (self.new ≡ self.old) }
        ensures fetches { OnOk result (fetches.new ≡ fetches.old + needed plan.work self.old) }
        ensures at_most { fetches.new ≤ fetches.old + needed plan.work self.old }
    {
        let Plan { key, work } = plan;
        let before = mem::replace(&mut self.key, key);
        if let Err(fault) = self.work(alloc, work, fetches) {
            self.key = before;
            return Err(fault);
        }
        Ok(())
    }

    /// Applies the changes of a batch as if they came one by one, and tells of each why it is refused, if it is; a
    /// refused change leaves nothing behind, and those behind it go on. These are one change, or several of one kind
    /// among replace, update and remove. A key that one of them gives is not empty.
    ///
    /// Several are made in one go. Each stored document that they name is read once at most, and a patch or a reset reads
    /// each document once at most; no other batch reads one. All memory is taken before anything changes: where it is
    /// wanting, the index stays as it was.
    pub fn apply_batch<F>(
        &mut self,
        alloc: Global,
        changes: Vec<ChangeKind>,
        fetches: &mut Steps<F>,
    ) -> Result<Vec<Option<CoreRefusal>>, NoMemory>
        requires batch { IsOneBatch (map kind_view changes.items) }
        requires keys { AllByRecursion HasKey (map kind_view changes.items) }
        ensures faults { IfOk result (λ faults. faults.items ≡ faults_of (map kind_view changes.items) self.old) }
        ensures applied { OnOk result (self.new ≡ after_each (map kind_view changes.items) self.old) }
        ensures stays { OnErr result (self.new ≡ self.old) }
        ensures at_most { fetches.new ≤ fetches.old + batch_needed (map kind_view changes.items) self.old }
    {
        match batch_kind(changes.as_slice()) {
            BatchKind::Single => self.apply_single(alloc, changes, fetches),
            BatchKind::Remove => self.remove_batch(alloc, changes, fetches),
            kind => self.store_batch(alloc, kind, changes, fetches),
        }
    }

    // Changes that store documents.
    fn store_batch<F>(
        &mut self,
        alloc: Global,
        kind: BatchKind,
        changes: Vec<ChangeKind>,
        fetches: &mut Steps<F>,
    ) -> Result<Vec<Option<CoreRefusal>>, NoMemory>
        requires kind { AreOf kind (map kind_view changes.items) }
        requires stores { AllByRecursion Stores (map kind_view changes.items) }
        requires keys { AllByRecursion HasKey (map kind_view changes.items) }
        ensures faults { IfOk result (λ faults. faults.items ≡ faults_of (map kind_view changes.items) self.old) }
        ensures applied { OnOk result (self.new ≡ after_each (map kind_view changes.items) self.old) }
        ensures stays { OnErr result (self.new ≡ self.old) }
        ensures at_most { fetches.new ≤ fetches.old + batch_needed (map kind_view changes.items) self.old }
    {
        let Gathered {
            key,
            rows,
            admission,
            faults,
        } = gather(alloc, self.key.as_ref(), &self.store, changes)?;
        let settings = &self.settings;
        let (store, kept) = (&mut self.store, &mut self.kept);
        store_gathered(alloc, kind, settings, store, kept, rows, admission, fetches)?;
        self.key = key;
        Ok(faults)
    }

    // Changes that take out documents by their external ids.
    fn remove_batch<F>(
        &mut self,
        alloc: Global,
        changes: Vec<ChangeKind>,
        fetches: &mut Steps<F>,
    ) -> Result<Vec<Option<CoreRefusal>>, NoMemory>
        requires { AreOf Removing (map kind_view changes.items) }
        ensures faults { IfOk result (λ faults. faults.items ≡ faults_of (map kind_view changes.items) self.old) }
        ensures applied { OnOk result (self.new ≡ after_each (map kind_view changes.items) self.old) }
        ensures stays { OnErr result (self.new ≡ self.old) }
        ensures at_most { fetches.new ≤ fetches.old + batch_needed (map kind_view changes.items) self.old }
    {
        let faults = no_faults(alloc, changes.len())?;
        let ids = removed_ids(alloc, changes)?;
        let settings = &self.settings;
        let (store, kept) = (&mut self.store, &mut self.kept);
        remove_named(alloc, settings, store, kept, ids.as_slice(), fetches)?;
        Ok(faults)
    }

    // A change by itself.
    fn apply_single<F>(
        &mut self,
        alloc: Global,
        changes: Vec<ChangeKind>,
        fetches: &mut Steps<F>,
    ) -> Result<Vec<Option<CoreRefusal>>, NoMemory>
        requires few { length changes.items ≤ 1 }
        requires kind { AreOf Alone (map kind_view changes.items) }
        requires keys { AllByRecursion HasKey (map kind_view changes.items) }
        ensures faults { IfOk result (λ faults. faults.items ≡ faults_of (map kind_view changes.items) self.old) }
        ensures applied { OnOk result (self.new ≡ after_each (map kind_view changes.items) self.old) }
        ensures stays { OnErr result (self.new ≡ self.old) }
        ensures at_most { fetches.new ≤ fetches.old + batch_needed (map kind_view changes.items) self.old }
    {
        let mut changes = changes;
        let mut faults = Vec::with_capacity(alloc, 1)?;
        if let Some(change) = changes.pop() {
            let fault = self.take(alloc, change, fetches)?;
            faults.push(fault)?;
        }
        Ok(faults)
    }

    // Applies a change, and tells why it is refused, if it is.
    fn take<F>(
        &mut self,
        alloc: Global,
        change: ChangeKind,
        fetches: &mut Steps<F>,
    ) -> Result<Option<CoreRefusal>, NoMemory>
        requires kind { batch_kind_of (kind_view change) ≡ Alone }
        requires key { HasKey (kind_view change) }
        ensures fault { IfOk result (λ fault. fault ≡ result_err (changed_by (kind_view change) self.old)) }
        ensures taken { OnOk result (self.new ≡ result_unwrap_or (changed_by (kind_view change) self.old) self.old) }
        ensures stays { OnErr result (self.new ≡ self.old) }
        ensures at_most { fetches.new ≤ fetches.old + batch_needed (kind_view change ∷ []) self.old }
    {
        let plan = match self.plan(alloc, change) {
            Ok(plan) => plan,
            Err(fault) => return Ok(Some(refusal_in(fault)?)),
        };
        match self.apply(alloc, plan, fetches) {
            Ok(()) => Ok(None),
            Err(fault) => Ok(Some(refusal_in(fault)?)),
        }
    }

    fn work<F>(
        &mut self,
        alloc: Global,
        work: Work,
        fetches: &mut Steps<F>,
    ) -> Result<(), CoreFault>
        requires good { IsGood (work_view work) }
        requires keyed { IsKeyedWork self.old.key (work_view work) }
        ensures key { self.new.key ≡ self.old.key }
        ensures done { OnOk result (self.new.store ≡ after_work (work_view work) self.old.store) }
        ensures within { Checks result (option_map store_refusal (spent (after_work (work_view work) self.old.store))) }
        ensures settings { OnOk result (self.new.settings ≡ settings_after (work_view work) self.old.settings) }
        ensures stays { OnErr result (self.new ≡ self.old) }
        ensures fetches { OnOk result (fetches.new ≡ fetches.old + needed (work_view work) self.old) }
        ensures at_most { fetches.new ≤ fetches.old + needed (work_view work) self.old }
    {
        let settings = &mut self.settings;
        match work {
            Work::Replace { rows } => {
                let (store, kept) = (&mut self.store, &mut self.kept);
                replace_documents(alloc, settings, store, kept, rows, fetches)
            }
            Work::Update { rows } => {
                let (store, kept) = (&mut self.store, &mut self.kept);
                update_documents(alloc, settings, store, kept, rows, fetches)
            }
            Work::Remove { ids } => {
                let (store, kept) = (&mut self.store, &mut self.kept);
                let ids = ids.as_slice();
                remove_named(alloc, settings, store, kept, ids, fetches)?;
                Ok(())
            }
            Work::Clear => {
                clear_documents(alloc, &mut self.store, &mut self.kept.rows);
                Ok(())
            }
            Work::Patch { members } => {
                let (kept, words) = (&mut self.kept, &mut self.words);
                patch_settings(alloc, &self.store, kept, words, settings, &members, fetches)?;
                Ok(())
            }
            Work::Reset => {
                let (kept, words) = (&mut self.kept, &mut self.words);
                reset_settings(alloc, &self.store, kept, words, settings, fetches)?;
                Ok(())
            }
        }
    }

    /// What a search finds: its hits, each a stored document, with its costs where these are asked for, the terms of
    /// the query, where hits show which of their words are matched, the number of matches, and the counts that it asks
    /// for, over all matches. The hits are the asked slice of the documents that match, in the order of their costs
    /// and then of their internal ids; there are as many as the window has room for and documents match behind its
    /// offset. Where the call or else the settings name an attribute as distinct, a document that has a value of it in
    /// common with one before it that may be a hit is none. The settings say which costs count and in which order,
    /// which paths are searched, which words of a query are left out or stand for others, and how many matches and
    /// values are counted or handed out.
    ///
    /// Refused is a search that sorts where the ranking rules do not (`NoSortRule`) or by an attribute that may not be
    /// sorted by (`NotSortable`), then one that filters (`NotFilterable`), and then one that counts (`NotFacet`) by an
    /// attribute that may not be filtered by; the first such attribute is named. Reads no other document than the hits,
    /// and each of them once at most, and before them, where an attribute is distinct, those that are looked at for its
    /// values, from the best on until the window is full; where it is refused, none.
    ///
    /// Each bucket that is opened on the way to the hits, or to the last document that is looked at, is told to the log
    /// and is one step: exactly those of the definition, in their order, or for want of memory some of them, from the
    /// first on. A log that finds no memory ends the search so. At each level at most as many are opened as documents
    /// match, up to the end of the window or the last document that is looked at.
    ///
    /// The `requires` asks nothing of the caller: it keeps a body from putting a log of its own in the place of the one
    /// that is handed in, so that callers know theirs to be the same.
    pub fn search<F, G>(
        &self,
        alloc: Global,
        call: &SearchCall,
        log: &mut Box<dyn BucketLog>,
        fetches: &mut Steps<F>,
        openings: &mut Steps<G>,
    ) -> Result<SearchResult, SearchFault>
        requires { Unit {0} }
        ensures answer { Gives found_view result (found self.now call.now) }
        ensures terms { IfOk result (λ found. HaveSame found.terms.items (terms_in self.now call.now)) }
        ensures full { IfOk result (λ found. length found.hits.items ≡ min (window_size (most_hits self.now) call.now)
            (length (candidates self.now call.now) - offset_of call.now.window)) }
        ensures fetches { distinct_attribute_in self.now call.now ≡ None
            → IfOk result (λ found. fetches.new ≡ fetches.old + length found.hits.items) }
        ensures at_most { fetches.new ≤ fetches.old + documents_needed self.now call.now }
        ensures opens { Opens (is_starved result) (opened self.now call.now)
            (log_state (told log.old) openings.old) (log_state (told log.new) openings.new) }
        ensures few { openings.new ≤ openings.old + most_opened self.now call.now }
    {
        check_search(alloc, &self.settings, call)?;
        let ranking = self.ranking(alloc, call)?;
        let terms = terms_shown(alloc, &call.formats, &ranking.query)?;
        let Findings { ids, total, facets } = self.find(
            alloc, call, &ranking, log, fetches, openings,
        )?;
        let hits = self.hits(alloc, call, &ranking, ids.as_slice(), fetches)?;
        Ok(SearchResult {
            hits,
            terms,
            total,
            facets,
        })
    }

    // How the documents of a search are ranked.
    fn ranking(&self, alloc: Global, call: &SearchCall) -> Result<Ranking<'_>, NoMemory>
        ensures { IfOk result (λ ranking. IsRankingOf ranking self.now call.now) }
    {
        let paths = self.store.paths();
        Ok(Ranking {
            uses: self.kept.uses.as_slice(),
            query: self.words.query(alloc, &call.q, call.strategy)?,
            rules: rules_of(alloc, &self.settings, paths, &call.sort)?,
        })
    }

    // The documents with their rows, as they are searched.
    fn documents(&self, alloc: Global) -> Result<IndexedDocuments<'_>, NoMemory>
        ensures { IfOk result (λ documents. documents ≡ documents_searched self.now.store (uses_in self.now)) }
    {
        ranks_are_low(&self.settings, self.store.paths());
        let uses = self.kept.uses.as_slice();
        let documents = IndexedDocuments::new(alloc, &self.store, &self.kept.rows, uses)?;
        Ok(documents)
    }

    // Finds the hits of a search, and counts matches and values. No document is read but those that are told apart.
    fn find<F, G>(
        &self,
        alloc: Global,
        call: &SearchCall,
        ranking: &Ranking,
        log: &mut Box<dyn BucketLog>,
        fetches: &mut Steps<F>,
        openings: &mut Steps<G>,
    ) -> Result<Findings, NoMemory>
        requires { IsRankingOf ranking.now self.now call.now }
        ensures found { IfOk result (λ found. Finds self.now call.now (map (λ id. id.0) found.ids.items) found.total
            (option_map (λ facets. facets.items) found.facets)) }
        ensures opens { OnOk result (Opens false (opened_in self.now call.now)
            (log_state (told log.old) openings.old) (log_state (told log.new) openings.new)) }
        ensures starved { OnErr result (Opens true (opened_in self.now call.now)
            (log_state (told log.old) openings.old) (log_state (told log.new) openings.new)) }
        ensures few { openings.new ≤ openings.old + length (rules_in self.now call.now)
            * min (looked_at self.now call.now).end (length (matching self.now call.now)) }
        ensures none_read { distinct_attribute_in self.now call.now ≡ None → fetches.new ≡ fetches.old }
        ensures at_most { fetches.new ≤ fetches.old + compared self.now call.now }
    {
        let most = self.settings.max_total_hits();
        let search = self.search_of(alloc, call, ranking)?;
        let documents = self.documents(alloc)?;
        let attribute = self.distinct_attribute(call);
        let found = self.found(alloc, &documents, search, attribute, log, fetches, openings)?;
        Ok(Findings {
            ids: found.hits,
            total: found.total.min(most),
            facets: if_asked(call, found.facets),
        })
    }

    // What a search asks of the documents of the index.
    fn search_of<'a>(
        &self,
        alloc: Global,
        call: &'a SearchCall,
        ranking: &'a Ranking<'_>,
    ) -> Result<Search<'a>, NoMemory>
        requires { IsRankingOf ranking.now self.now call.now }
        ensures { IfOk result (λ search. IsSearchOf search self.now call.now) }
    {
        let attributes = asked_paths(alloc, &self.settings, self.store.paths(), call)?;
        let offset = window_start(call.window);
        let end = window_end(self.settings.max_total_hits(), call.window);
        Ok(Search {
            query: &ranking.query,
            filter: &call.filter,
            rules: ranking.rules.as_slice(),
            window: HitWindow {
                offset,
                limit: end.saturating_sub(offset),
            },
            counts: AskedCounts {
                attributes,
                most: self.settings.max_values_per_facet(),
            },
        })
    }

    // The attribute of whose values no two hits of a search have one in common, where there is one.
    fn distinct_attribute<'a>(&'a self, call: &'a SearchCall) -> Option<&'a Word>
        ensures { option_map (λ attribute. attribute.now) result ≡ distinct_attribute_in self.now call.now }
    {
        match &call.distinct {
            Some(attribute) => Some(attribute),
            None => self.settings.distinct_attribute(),
        }
    }

    // What a search finds among the documents of the index, no two hits with a value of the attribute in common, where
    // one is named. Their values are those that are kept, and are read of the stored documents where none are.
    fn found<F, G>(
        &self,
        alloc: Global,
        documents: &IndexedDocuments<'_>,
        search: Search<'_>,
        attribute: Option<&Word>,
        log: &mut Box<dyn BucketLog>,
        fetches: &mut Steps<F>,
        openings: &mut Steps<G>,
    ) -> Result<DocumentsFound, NoMemory>
        requires graph { IsGraph search.query.now }
        requires documents { documents.now ≡ documents_searched self.now.store (uses_in self.now) }
        ensures found { IfOk result (λ found. IsFound (option_map (λ attribute. attribute.now) attribute.entry)
            self.now.store.rows documents.now search.entry found) }
        ensures opens { Opens (is_err result) (opened_found (option_map (λ attribute. attribute.now) attribute.entry)
            self.now.store.rows documents.now search.entry)
            (log_state (told log.old) openings.old) (log_state (told log.new) openings.new) }
        ensures none_read { option_map (λ attribute. attribute.now) attribute.entry ≡ None → fetches.new ≡ fetches.old }
        ensures at_most { fetches.new ≤ fetches.old
            + compared_found (option_map (λ attribute. attribute.now) attribute.entry) self.now.store.rows
            documents.now search.entry }
    {
        let Some(attribute) = attribute else {
            return search_documents(alloc, documents, search, log, openings);
        };
        match self.kept_path(attribute) {
            Some(path) => {
                let mut values = LeafValues::new(alloc, documents, path);
                search_distinct(alloc, documents, search, &mut values, log, openings)
            }
            None => {
                let store = &self.store;
                search_stored(
                    alloc, store, attribute, documents, search, log, fetches, openings,
                )
            }
        }
    }

    // The path of this name, where its leaves are kept.
    fn kept_path(&self, attribute: &Word) -> Option<PathId>
        ensures { IfSome result (λ path. IsKeptPath self.now attribute.now path) }
    {
        let path = self.store.path_id(attribute)?;
        let path_use = self.kept.uses.get(path.0 as usize)?;
        if path_use.faceted { Some(path) } else { None }
    }

    // The documents with these internal ids as hits, in this order. Each is read once; where memory is wanting, no more
    // are read.
    fn hits<F>(
        &self,
        alloc: Global,
        call: &SearchCall,
        ranking: &Ranking,
        ids: &[DocId],
        fetches: &mut Steps<F>,
    ) -> Result<Vec<Hit>, NoMemory>
        requires { IsRankingOf ranking.now self.now call.now }
        ensures hits { IfOk result (λ hits. map hit_view hits.items
            ≡ filter_map (λ id. hit_at self.now call.now id.0) ids.now) }
        ensures fetches { OnOk result (fetches.new ≡ fetches.old + length ids.now) }
        ensures at_most { fetches.new ≤ fetches.old + length ids.now }
    {
        let mut hits = Vec::with_capacity(alloc, ids.len())?;
        for id in ids {
            if let Some(hit) = self.hit(alloc, call, ranking, *id, fetches)? {
                hits.push(hit)?;
            }
        }
        Ok(hits)
    }

    // The document with an internal id as a hit, where there is one.
    fn hit<F>(
        &self,
        alloc: Global,
        call: &SearchCall,
        ranking: &Ranking,
        id: DocId,
        fetches: &mut Steps<F>,
    ) -> Result<Option<Hit>, NoMemory>
        requires { IsRankingOf ranking.now self.now call.now }
        ensures hit { IfOk result (λ hit. option_map hit_view hit ≡ hit_at self.now call.now id.0) }
        ensures step { fetches.new ≡ fetches.old + 1 }
    {
        let Some(document) = self.store.fetch(id, fetches) else {
            return Ok(None);
        };
        let costs = if call.costs {
            costs_of(alloc, document, self.store.paths(), ranking)?
        } else {
            None
        };
        Ok(Some(Hit { document, costs }))
    }

    /// The values of an attribute that documents have which match a search, in the order of their bytes: of each the
    /// spelling of its first leaf and the number of these documents that have it. Where the call has a query, they are
    /// those whose normal form begins as the normal form of the query. Of them the first are given, as many as the
    /// settings let a search tell of an attribute. An attribute that is no path of the registry has none.
    ///
    /// Refused is a call that filters by an attribute that may not be filtered by (`NotFilterable`, which names the
    /// first such), and then one whose own attribute may not be filtered by (`NotFacet`). Reads no document, and opens
    /// no bucket.
    pub fn facet_search(
        &self,
        alloc: Global,
        call: &FacetCall,
    ) -> Result<Vec<CountRow>, SearchFault>
        ensures { Gives (λ rows. rows.items) result (facet_found self.now call.now) }
    {
        check_facet_search(alloc, &self.settings, call)?;
        match self.store.path_id(&call.name) {
            Some(path) => {
                let rows = self.values(alloc, call, path)?;
                Ok(rows)
            }
            None => Ok(Vec::new(alloc)),
        }
    }

    // The values at a path that a search of values asks for.
    fn values(
        &self,
        alloc: Global,
        call: &FacetCall,
        path: PathId,
    ) -> Result<Vec<CountRow>, NoMemory>
        ensures { IfOk result (λ rows. rows.items ≡ hits_at self.now call.now path) }
    {
        let query = self.words.query(alloc, &call.q, call.strategy)?;
        let asked = values_asked(alloc, call, path, self.settings.max_values_per_facet())?;
        let documents = self.documents(alloc)?;
        let rows = facet_values(alloc, &documents, &query, &call.filter, &asked)?;
        Ok(rows)
    }

    /// The document with an external id. Reads that document once, and none where there is none. Takes no memory.
    pub fn get<F>(&self, external: &Word, fetches: &mut Steps<F>) -> Option<&DocumentText>
        ensures document { option_map (λ document. document.now) result
            ≡ document_under external.now self.now.store.rows }
        ensures fetches { fetches.new ≡ fetches.old + (if is_some result then 1 else 0) }
    {
        match self.store.id_of(external) {
            Some(id) => self.store.fetch(id, fetches),
            None => None,
        }
    }

    /// The documents without the first `offset` of them, and at most `limit` of the rest, in the order of their
    /// internal ids. Reads no other documents, and each of them once.
    pub fn list<F>(
        &self,
        alloc: Global,
        offset: u64,
        limit: u64,
        fetches: &mut Steps<F>,
    ) -> Result<Listing, NoMemory>
        ensures documents { IfOk result (λ listing. map (λ document. document.now) listing.documents.items
            ≡ take limit (drop offset (documents_in self.now))) }
        ensures total { IfOk result (λ listing. listing.total ≡ length (documents_in self.now)) }
        ensures fetches { OnOk result (fetches.new ≡ fetches.old
            + length (take limit (drop offset (documents_in self.now)))) }
        ensures starved { OnErr result (fetches.new ≡ fetches.old) }
    {
        let ids = self.store.ids(alloc, offset, limit)?;
        let documents = read(alloc, &self.store, ids.as_slice(), fetches)?;
        Ok(Listing {
            total: self.store.len(),
            documents,
        })
    }

    /// The index as the rows of an image, under a uid. The documents share their texts with the index.
    pub fn to_image(&self, alloc: Global, uid: Word) -> Result<ImageIndex, NoMemory>
        ensures uid { IfOk result (λ image. image.uid ≡ uid) }
        ensures index { IfOk result (λ image. index_of (index_view image) ≡ self.now) }
        ensures state { IfOk result (λ image. is_uid uid ≡ true → (before : List IndexData) → is_above before uid ≡ true
            → IsIndex before (index_view image)) }
    {
        let key = self.key.as_ref();
        image_of(alloc, uid, key, &self.store, &self.settings)
    }

    /// The index that stands in these rows, which an image may hold. Reads each document once.
    pub fn from_image<F>(
        alloc: Global,
        image: ImageIndex,
        fetches: &mut Steps<F>,
    ) -> Result<IndexCore, NoMemory>
        requires state { (before : List IndexData) × IsIndex before (index_view image) }
        ensures index { IfOk result (λ index. index ≡ index_of (index_view image)) }
        ensures fetches { OnOk result (fetches.new ≡ fetches.old + length image.documents.items) }
        ensures at_most { fetches.new ≤ fetches.old + length image.documents.items }
    {
        let ImageIndex {
            uid: _,
            key,
            next_id,
            paths,
            settings,
            documents,
        } = image;
        let ReadDocuments { rows, kept } = read_documents(
            alloc,
            &key,
            paths.as_slice(),
            &settings,
            documents,
            fetches,
        )?;
        let store = DocStore::restore(alloc, paths, next_id, rows)?;
        Ok(IndexCore {
            key,
            store,
            words: QueryWords::of(alloc, &settings)?,
            settings,
            kept,
        })
    }
}
