ghost use Rattle.std.specs.Prelude.{◌≡◌, ◌↔◌, ◌+◌, ◌≤◌, ◌++◌, List, [], ◌∷◌, Some, Err, map, length, take, drop, position, bytes_eq, IsTrue, IfOk, OnOk, OnErr, IfErr};
ghost use Rattle.std.specs.Option.{option_map, is_some};
ghost use Rattle.search_base.specs.Gives.{Checks};
ghost use Rattle.path_registry.specs.Names.{AreKept};
ghost use Rattle.doc_store.specs.Store.{all_stored, externals, id_of, spent, row_at, removed};
ghost use Rattle.doc_store.specs.Sound.{IsSound};
ghost use Rattle.doc_store.specs.Restored.{restored};
ghost use Rattle.doc_store.specs.StoreView.{IsAdmitted, IsPlanFor};
ghost use Rattle.doc_store.specs.Admitting.{IsAdmitting, IsNoted};
ghost use Rattle.path_registry.specs.Met.{all_registered};
ghost use Rattle.doc_store.specs.declared.rows.StoreRow.{StoreRow as Row};

use crate::admitting::{Admission, Admitting, NewPaths, add_noted};
use crate::changes::{push_paths, put_rows, stage_rows, take_row};
use crate::counts::{Counts, count_new, counts_of, no_counts, uncount};
use crate::given::more_ids;
use crate::listing::listed_ids;
use crate::restore::put_back;
use crate::rows::{StoreFault, StoreRow, StoredRow};
use crate::slots::{Slots, document_at, external_at};
use doc_values::{Document, DocumentText, paths};
use path_registry::{Places, Registry, note_walk};
use search_base::{DocId, NoMemory, PathId, Steps, Word};
use staged_slots::StagedSlots;
use std::alloc::Global;
use std::marker::Model;

/// The documents of one index with their internal ids, and its registry of paths.
#[derive(Drop)]
pub struct DocStore {
    ids: Places,
    slots: Slots,
    paths: Registry,
    count: u64,
    counts: Counts,
}

impl Model for DocStore {
    ghost use Rattle.doc_store.specs.StoreView.{StoreView};
    ghost use Rattle.doc_store.specs.Codes.{view_code};
    ghost use Rattle.doc_store.specs.Slots.{content_of, IsStore};

    ghost Value = { StoreView };

    ghost coded = { view_code };

    ghost view = { λ s. record {
      content = content_of s.paths.paths s.slots.slots;
      staged = s.slots.staged;
      ids = s.ids;
      path_room = s.paths.room;
      path_places = s.paths.places;
    } };

    ghost invariant = { λ s. IsStore s.ids s.slots.slots s.paths.paths s.count s.counts.items };
}

/// What documents that are staged take of a store, for which all memory is there. It can be carried out on the store
/// that it was made for, while nothing else changes that.
#[derive(Drop)]
pub struct StorePlan {
    ids: Vec<DocId>,
    added: Vec<Word>,
}

impl Model for StorePlan {
    ghost use Rattle.std.specs.Prelude.{map};
    ghost use Rattle.doc_store.specs.StoreView.{PlanView};
    ghost use Rattle.doc_store.specs.Codes.{plan_code};

    ghost Value = { PlanView };

    ghost coded = { plan_code };

    ghost view = { λ p. record { ids = map (λ id. id.0) p.ids.items; added = p.added.items } };
}

impl DocStore {
    /// The empty store.
    pub fn new(alloc: Global) -> Result<DocStore, NoMemory>
        ensures content { IfOk result (λ store. store.content ≡ record { paths = []; next_id = 0; rows = [] }) }
        ensures staged { IfOk result (λ store. store.staged ≡ []) }
    {
        Ok(DocStore {
            ids: Places::new(alloc),
            slots: StagedSlots::new(alloc),
            paths: Registry::new(alloc),
            count: 0,
            counts: no_counts(alloc)?,
        })
    }

    /// The store with exactly these paths and documents, in the order of their internal ids.
    pub fn restore(
        alloc: Global,
        paths: Vec<Word>,
        next_id: u32,
        documents: Vec<StoredRow>,
    ) -> Result<DocStore, NoMemory>
        requires { IsSound (restored paths.items next_id documents.items) }
        ensures content { IfOk result (λ store. store.content ≡ restored paths.items next_id documents.items) }
        ensures staged { IfOk result (λ store. store.staged ≡ []) }
    {
        let count = documents.len() as u64;
        let counts = counts_of(alloc, documents.as_slice())?;
        let mut ids = Places::new(alloc);
        let mut slots = Vec::with_capacity(alloc, next_id as usize)?;
        put_back(&mut ids, &mut slots, next_id, documents)?;
        Ok(DocStore {
            ids,
            slots: StagedSlots::from_slots(slots),
            paths: Registry::from_paths(alloc, paths)?,
            count,
            counts,
        })
    }

    /// The internal id of the document with an external id. It takes no memory.
    pub fn id_of(&self, external: &Word) -> Option<DocId>
        ensures { option_map (λ id. id.0) result ≡ id_of external.now self.now.content.rows }
    {
        match self.ids.find(external) {
            Some(id) => Some(DocId(id)),
            None => None,
        }
    }

    /// How many documents there are.
    pub fn len(&self) -> u64
        ensures count { result ≡ length self.now.content.rows }
        ensures sound { IsSound self.now.content }
    {
        self.count
    }

    pub fn is_empty(&self) -> bool
        ensures { IsTrue result ↔ (self.now.content.rows ≡ []) }
    {
        self.count == 0
    }

    /// The internal ids of the documents in order, without the first `offset`, and at most `limit` of the rest. What
    /// stands before the thousand internal ids where they begin is not looked at.
    pub fn ids(&self, alloc: Global, offset: u64, limit: u64) -> Result<Vec<DocId>, NoMemory>
        ensures { IfOk result (λ ids. map (λ id. id.0) ids.items
            ≡ take limit (drop offset (map (λ r. r.id) self.now.content.rows))) }
    {
        listed_ids(
            alloc,
            self.slots.as_slice(),
            self.counts.as_slice(),
            offset,
            limit,
        )
    }

    /// The document with an internal id. It takes one step and no memory.
    pub fn fetch<F>(&self, id: DocId, fetches: &mut Steps<F>) -> Option<&DocumentText>
        ensures document { option_map (λ document. document.now) result
            ≡ option_map (λ row. row.document) (row_at id.0 self.now.content.rows) }
        ensures step { fetches.new ≡ fetches.old + 1 }
    {
        fetches.tick();
        document_at(self.slots.as_slice(), id)
    }

    /// The external id of the document with an internal id. It takes no memory.
    pub fn external(&self, id: DocId) -> Option<&Word>
        ensures { option_map (λ external. external.now) result
            ≡ option_map (λ row. row.external) (row_at id.0 self.now.content.rows) }
    {
        external_at(self.slots.as_slice(), id)
    }

    /// Whether there is a document with an internal id. It takes no memory.
    pub fn holds(&self, id: DocId) -> bool
        ensures { result ≡ is_some (row_at id.0 self.now.content.rows) }
    {
        document_at(self.slots.as_slice(), id).is_some()
    }

    /// The internal id that the next new document takes, at most 1,000,000.
    pub fn next_id(&self) -> u32
        ensures { result ≡ self.now.content.next_id }
    {
        self.slots.len() as u32
    }

    /// The paths of the registry in the order in which they came, by which they are numbered, from 0.
    pub fn paths(&self) -> &[Word]
        ensures { result.now ≡ self.now.content.paths }
    {
        self.paths.paths()
    }

    /// The number of a path: its place in the registry, where the registry has it. It takes no memory.
    pub fn path_id(&self, path: &Word) -> Option<PathId>
        ensures { option_map (λ id. id.0) result ≡ position (λ p. bytes_eq p path.now) self.now.content.paths }
    {
        match self.paths.find(path) {
            Some(place) => Some(PathId(place as u16)),
            None => None,
        }
    }

    /// The internal ids that documents take which are stored one after the other, and the paths that the registry gains
    /// by them. Nothing changes. `IdsSpent` comes where an internal id would be 1,000,000, and else `PathsSpent`
    /// where the registry would have more than 1,000 paths. There are fewer than 2^32 documents.
    pub fn admit(&self, alloc: Global, rows: &[StoreRow]) -> Result<Admission, StoreFault>
        ensures admitted { IfOk result (λ admission. IsAdmitted self.now.content rows.now admission) }
        ensures refused { IfErr result (λ fault. Checks (Err fault) (spent (all_stored rows.now self.now.content))) }
    {
        let mut admitting = self.start_admitting(alloc);
        self.admit_more(alloc, &mut admitting, rows)?;
        Ok(admitting.finish())
    }

    /// An admission to which documents may come, and which has none so far.
    pub fn start_admitting(&self, alloc: Global) -> Admitting
        ensures { IsAdmitting self.now.ids self.now.content [] result }
    {
        Admitting {
            fresh: Places::new(alloc),
            free: self.slots.len() as u32,
            ids: Vec::new(alloc),
            added: Registry::new(alloc),
        }
    }

    /// Admits more documents, behind those that are admitted so far. Each is read back from its text and let go again
    /// before the next. The store stays. What is refused is what `admit` refuses of all of them together, by the same
    /// refusal. After an error the admission is of no use, and is begun again from the documents before.
    pub fn admit_more(
        &self,
        alloc: Global,
        admitting: &mut Admitting,
        rows: &[StoreRow],
    ) -> Result<(), StoreFault>
        requires { (before : List Row) × IsAdmitting self.now.ids self.now.content before admitting.old }
        ensures more { OnOk result ((before : List Row)
            → IsAdmitting self.now.ids self.now.content before admitting.old
            → IsAdmitting self.now.ids self.now.content (before ++ rows.now) admitting.new) }
        ensures refused { (before : List Row) → IsAdmitting self.now.ids self.now.content before admitting.old
            → IfErr result (λ fault. Checks (Err fault) (spent (all_stored (before ++ rows.now) self.now.content))) }
    {
        let new = self.noted(alloc, admitting, rows)?;
        self.admit_noted(admitting, rows, new)
    }

    // The paths of documents, each of which is read back from its text.
    fn noted(
        &self,
        alloc: Global,
        admitting: &Admitting,
        rows: &[StoreRow],
    ) -> Result<NewPaths, NoMemory>
        requires { (before : List Row) × IsAdmitting self.now.ids self.now.content before admitting.now }
        ensures { IfOk result (λ new. IsNoted self.now.content admitting.now rows.now new) }
    {
        let mut new = admitting.new_paths(alloc);
        for row in rows {
            let document = row.document.document(alloc)?;
            self.note(alloc, admitting, &document, &mut new)?;
        }
        Ok(new)
    }

    /// Notes the paths of a document that is to be admitted behind those whose paths are noted. Store and admission
    /// stay.
    pub fn note(
        &self,
        alloc: Global,
        admitting: &Admitting,
        document: &Document,
        new: &mut NewPaths,
    ) -> Result<(), NoMemory>
        requires { (rows : List Row) × IsNoted self.now.content admitting.now rows new.old }
        ensures { OnOk result ((rows : List Row) (row : Row) → row.document ≡ document.now
            → IsNoted self.now.content admitting.now rows new.old
            → IsNoted self.now.content admitting.now (rows ++ row ∷ []) new.new) }
    {
        if new.spent {
            return Ok(());
        }
        let walk = paths(alloc, document)?;
        new.spent = note_walk(&self.paths, &admitting.added, &mut new.fresh, walk)?;
        Ok(())
    }

    /// The paths that the registry gains by documents that are to be admitted behind those that are, where `met` are
    /// the paths of these documents as `MetPaths` meets them. Store and admission stay.
    pub fn note_met(
        &self,
        alloc: Global,
        admitting: &Admitting,
        met: Vec<Word>,
    ) -> Result<NewPaths, NoMemory>
        requires { (before : List Row) × IsAdmitting self.now.ids self.now.content before admitting.now }
        ensures { IfOk result (λ new. (rows : List Row)
            → met.items ≡ all_registered (map (λ r. r.document) rows) []
            → IsNoted self.now.content admitting.now rows new) }
    {
        let mut new = admitting.new_paths(alloc);
        new.spent = note_walk(&self.paths, &admitting.added, &mut new.fresh, met)?;
        Ok(new)
    }

    /// Admits more documents as `admit_more` does, which were read and whose paths were noted.
    pub fn admit_noted(
        &self,
        admitting: &mut Admitting,
        rows: &[StoreRow],
        new: NewPaths,
    ) -> Result<(), StoreFault>
        requires admitting { (before : List Row) × IsAdmitting self.now.ids self.now.content before admitting.old }
        requires noted { IsNoted self.now.content admitting.old rows.now new }
        ensures more { OnOk result ((before : List Row)
            → IsAdmitting self.now.ids self.now.content before admitting.old
            → IsAdmitting self.now.ids self.now.content (before ++ rows.now) admitting.new) }
        ensures refused { (before : List Row) → IsAdmitting self.now.ids self.now.content before admitting.old
            → IfErr result (λ fault. Checks (Err fault) (spent (all_stored (before ++ rows.now) self.now.content))) }
    {
        more_ids(
            &self.ids,
            &mut admitting.fresh,
            &mut admitting.free,
            &mut admitting.ids,
            rows,
        )?;
        add_noted(&mut admitting.added, new)?;
        Ok(())
    }

    /// Takes all memory that it takes to store documents that were admitted to the store as it is, and stages them,
    /// in place of what was staged. What the store holds stays. Where memory is wanting, nothing is staged.
    pub fn prepare(
        &mut self,
        rows: Vec<StoreRow>,
        admission: Admission,
    ) -> Result<StorePlan, NoMemory>
        requires { IsAdmitted self.old.content rows.items admission }
        ensures content { self.new.content ≡ self.old.content }
        ensures staged { OnOk result (self.new.staged ≡ rows.items) }
        ensures plan { IfOk result (λ plan. IsPlanFor self.new plan) }
        ensures starved { OnErr result (self.new.staged ≡ []) }
    {
        let Admission { ids, added } = admission;
        match self.stage(rows, added.as_slice()) {
            Ok(()) => Ok(StorePlan { ids, added }),
            Err(refused) => {
                self.slots.unstage();
                Err(refused)
            }
        }
    }

    // Stages documents, and takes the memory for paths.
    fn stage(&mut self, rows: Vec<StoreRow>, added: &[Word]) -> Result<(), NoMemory>
        ensures content { self.new.content ≡ self.old.content }
        ensures staged { OnOk result (self.new.staged ≡ rows.items) }
        ensures ids { OnOk result (AreKept (externals rows.items) self.new.ids) }
        ensures paths { OnOk result (length added.now ≤ self.new.path_room) }
        ensures path_places { OnOk result (AreKept added.now self.new.path_places) }
    {
        stage_rows(&mut self.ids, &mut self.slots, rows)?;
        self.paths.reserve(added)
    }

    /// The documents that are staged, in order; each is there. It takes no memory.
    pub fn staged(&self) -> &[Option<StoreRow>]
        ensures { result.now ≡ map Some self.now.staged }
    {
        self.slots.staged()
    }

    /// Lets go the documents that are staged. It takes no memory.
    pub fn unstage(&mut self)
        ensures content { self.new.content ≡ self.old.content }
        ensures staged { self.new.staged ≡ [] }
    {
        self.slots.unstage();
    }

    /// Stores the documents that are staged, by the plan that was made for them and the store as it is, and gives the
    /// internal id of each, in order. It takes no memory.
    pub fn commit(&mut self, plan: StorePlan) -> Vec<DocId>
        requires { IsPlanFor self.old plan }
        ensures content { self.new.content ≡ all_stored self.old.staged self.old.content }
        ensures ids { map (λ id. id.0) result.items ≡ plan.ids }
        ensures staged { self.new.staged ≡ [] }
    {
        let StorePlan { ids, added } = plan;
        let first = self.slots.len();
        put_rows(&mut self.ids, &mut self.slots);
        let end = self.slots.len();
        self.count += (end - first) as u64;
        count_new(&mut self.counts, first, end);
        push_paths(&mut self.paths, added);
        ids
    }

    /// Takes a document out, and tells whether it was there. Its internal id is never given again. It takes no memory.
    pub fn remove(&mut self, id: DocId) -> bool
        ensures content { self.new.content ≡ removed id.0 self.old.content }
        ensures found { result ≡ is_some (row_at id.0 self.old.content.rows) }
        ensures staged { self.new.staged ≡ self.old.staged }
    {
        let found = take_row(&mut self.ids, &mut self.slots, id);
        if found {
            self.count -= 1;
            uncount(&mut self.counts, id.0);
        }
        found
    }
}
