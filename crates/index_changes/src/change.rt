ghost use Rattle.std.specs.Prelude.{◌≡◌, ◌+◌, ◌≤◌, ◌++◌, [], length, IfOk, OnOk, OnErr};
ghost use Rattle.std.specs.Option.{option_map};
ghost use Rattle.doc_store.specs.Store.{all_stored, externals, spent};
ghost use Rattle.doc_store.specs.Sound.{IsSound};
ghost use Rattle.doc_store.specs.StoreView.{AdmissionView, IsAdmitted};
ghost use Rattle.doc_index.specs.Left.{without_named};
ghost use Rattle.doc_index.specs.Named.{named, AreRead};
ghost use Rattle.search_base.specs.Gives.{Checks};
ghost use Rattle.index_changes.specs.Gathering.{stored_by};
ghost use Rattle.index_changes.specs.Indexed.{IsIndexed};
ghost use Rattle.index_changes.specs.Keyed.{AreReadBack};
ghost use Rattle.index_changes.specs.Plans.{all_updated};
ghost use Rattle.index_changes.specs.Refusals.{store_refusal};

use crate::batch::BatchKind;
use crate::external_ids::ids_of;
use crate::kept::KeptRows;
use crate::refusal::{CoreFault, of_store};
use crate::update::update_rows;
use doc_index::{Stored, read_named, remove_documents, store_documents};
use doc_store::{Admission, DocStore, StoreRow};
use index_settings::Settings;
use search_base::{NoMemory, Steps, Word};
use search_settings::uses_behind;
use std::alloc::Global;

/// Stores documents whole, one after the other, and indexes them. Reads the stored ones of their external ids, each
/// once, and no others. All memory is taken before anything changes.
pub fn replace_documents<F>(
    alloc: Global,
    settings: &Settings,
    store: &mut DocStore,
    kept: &mut KeptRows,
    rows: Vec<StoreRow>,
    fetches: &mut Steps<F>,
) -> Result<(), CoreFault>
    requires indexed { IsIndexed kept.old settings.now store.old.content }
    requires no_documents { store.old.staged ≡ [] }
    ensures indexed { IsIndexed kept.new settings.now store.new.content }
    ensures no_documents { store.new.staged ≡ [] }
    ensures stored { OnOk result (store.new.content ≡ all_stored rows.items store.old.content) }
    ensures within { Checks result (option_map store_refusal (spent (all_stored rows.items store.old.content))) }
    ensures stays { OnErr result (store.new.content ≡ store.old.content) }
    ensures fetches { OnOk result (fetches.new
        ≡ fetches.old + length (named (externals rows.items) store.old.content.rows)) }
    ensures at_most { fetches.new ≤ fetches.old + length (named (externals rows.items) store.old.content.rows) }
{
    let ids = ids_of(alloc, rows.as_slice())?;
    let replaced = read_named(alloc, store, ids.as_slice(), fetches)?;
    let replaced = replaced.as_slice();
    store_rows(alloc, settings, store, kept, rows, replaced)
}

/// Stores documents one after the other, each over the stored one of its external id, and indexes them. Reads these
/// stored ones, each once, and no others. All memory is taken before anything changes.
pub fn update_documents<F>(
    alloc: Global,
    settings: &Settings,
    store: &mut DocStore,
    kept: &mut KeptRows,
    updates: Vec<StoreRow>,
    fetches: &mut Steps<F>,
) -> Result<(), CoreFault>
    requires indexed { IsIndexed kept.old settings.now store.old.content }
    requires no_documents { store.old.staged ≡ [] }
    ensures indexed { IsIndexed kept.new settings.now store.new.content }
    ensures no_documents { store.new.staged ≡ [] }
    ensures updated { OnOk result (store.new.content ≡ all_updated updates.items store.old.content) }
    ensures back { OnOk result (AreReadBack updates.items) }
    ensures within { Checks result (option_map store_refusal (spent (all_updated updates.items store.old.content))) }
    ensures stays { OnErr result (store.new.content ≡ store.old.content) }
    ensures fetches { OnOk result (fetches.new
        ≡ fetches.old + length (named (externals updates.items) store.old.content.rows)) }
    ensures at_most { fetches.new ≤ fetches.old + length (named (externals updates.items) store.old.content.rows) }
{
    let ids = ids_of(alloc, updates.as_slice())?;
    let replaced = read_named(alloc, store, ids.as_slice(), fetches)?;
    let replaced = replaced.as_slice();
    let rows = update_rows(alloc, store, updates, replaced)?;
    store_rows(alloc, settings, store, kept, rows, replaced)
}

/// Takes out the documents with these external ids, from the index too. Reads these, each once, and no others. All
/// memory is taken before anything changes.
pub fn remove_named<F>(
    alloc: Global,
    settings: &Settings,
    store: &mut DocStore,
    kept: &mut KeptRows,
    ids: &[Word],
    fetches: &mut Steps<F>,
) -> Result<(), NoMemory>
    requires indexed { IsIndexed kept.old settings.now store.old.content }
    ensures indexed { IsIndexed kept.new settings.now store.new.content }
    ensures staged { store.new.staged ≡ store.old.staged }
    ensures removed { OnOk result (store.new.content ≡ without_named ids.now store.old.content) }
    ensures stays { OnErr result (store.new.content ≡ store.old.content) }
    ensures fetches { OnOk result (fetches.new ≡ fetches.old + length (named ids.now store.old.content.rows)) }
    ensures at_most { fetches.new ≤ fetches.old + length (named ids.now store.old.content.rows) }
{
    let removed = read_named(alloc, store, ids, fetches)?;
    let removed = removed.as_slice();
    remove_documents(
        alloc,
        store,
        &mut kept.rows,
        ids,
        removed,
        kept.uses.as_slice(),
    )
}

/// Stores documents one after the other, as changes of this kind do, and indexes them; as they come, they were admitted
/// to the store as it is. Reads the stored ones of their external ids, each once, and no others. All memory is taken
/// before anything changes.
pub fn store_gathered<F>(
    alloc: Global,
    kind: BatchKind,
    settings: &Settings,
    store: &mut DocStore,
    kept: &mut KeptRows,
    rows: Vec<StoreRow>,
    admission: Admission,
    fetches: &mut Steps<F>,
) -> Result<(), NoMemory>
    requires indexed { IsIndexed kept.old settings.now store.old.content }
    requires no_documents { store.old.staged ≡ [] }
    requires admitted { IsAdmitted store.old.content rows.items admission }
    ensures indexed { IsIndexed kept.new settings.now store.new.content }
    ensures no_documents { store.new.staged ≡ [] }
    ensures stored { OnOk result (store.new.content ≡ stored_by kind rows.items store.old.content) }
    ensures stays { OnErr result (store.new.content ≡ store.old.content) }
    ensures at_most { fetches.new ≤ fetches.old + length (named (externals rows.items) store.old.content.rows) }
{
    let ids = ids_of(alloc, rows.as_slice())?;
    let replaced = read_named(alloc, store, ids.as_slice(), fetches)?;
    let replaced = replaced.as_slice();
    let rows = rows_of(alloc, kind, store, rows, replaced)?;
    put_rows(alloc, settings, store, kept, rows, admission, replaced)
}

// The documents that changes of this kind store: whole, or those of an update over the stored ones, which were read.
fn rows_of(
    alloc: Global,
    kind: BatchKind,
    store: &DocStore,
    rows: Vec<StoreRow>,
    replaced: &[Stored],
) -> Result<Vec<StoreRow>, NoMemory>
    requires sound { IsSound store.now.content }
    requires read { AreRead replaced.now (named (externals rows.items) store.now.content.rows) }
    ensures ids { IfOk result (λ all. externals all.items ≡ externals rows.items) }
    ensures stored { IfOk result
        (λ all. all_stored all.items store.now.content ≡ stored_by kind rows.items store.now.content) }
    ensures admitted { IfOk result (λ all. (admission : AdmissionView)
        → IsAdmitted store.now.content rows.items admission → IsAdmitted store.now.content all.items admission) }
{
    match kind {
        BatchKind::Update => update_rows(alloc, store, rows, replaced),
        _ => Ok(rows),
    }
}

// Stores documents one after the other, and indexes them. The stored ones of their external ids were read. All memory
// is taken before anything changes.
fn store_rows(
    alloc: Global,
    settings: &Settings,
    store: &mut DocStore,
    kept: &mut KeptRows,
    rows: Vec<StoreRow>,
    replaced: &[Stored],
) -> Result<(), CoreFault>
    requires indexed { IsIndexed kept.old settings.now store.old.content }
    requires no_documents { store.old.staged ≡ [] }
    requires replaced { AreRead replaced.now (named (externals rows.items) store.old.content.rows) }
    ensures indexed { IsIndexed kept.new settings.now store.new.content }
    ensures no_documents { store.new.staged ≡ [] }
    ensures stored { OnOk result (store.new.content ≡ all_stored rows.items store.old.content) }
    ensures within { Checks result (option_map store_refusal (spent (all_stored rows.items store.old.content))) }
    ensures stays { OnErr result (store.new.content ≡ store.old.content) }
{
    let admission = match store.admit(alloc, rows.as_slice()) {
        Ok(admission) => admission,
        Err(fault) => return Err(of_store(fault)),
    };
    put_rows(alloc, settings, store, kept, rows, admission, replaced)?;
    Ok(())
}

// Stores documents that were admitted, and indexes them. The stored ones of their external ids were read. How the
// settings use a path is asked of the paths that the registry gains alone. All memory is taken before anything
// changes.
fn put_rows(
    alloc: Global,
    settings: &Settings,
    store: &mut DocStore,
    kept: &mut KeptRows,
    rows: Vec<StoreRow>,
    admission: Admission,
    replaced: &[Stored],
) -> Result<(), NoMemory>
    requires indexed { IsIndexed kept.old settings.now store.old.content }
    requires no_documents { store.old.staged ≡ [] }
    requires admitted { IsAdmitted store.old.content rows.items admission }
    requires replaced { AreRead replaced.now (named (externals rows.items) store.old.content.rows) }
    ensures indexed { IsIndexed kept.new settings.now store.new.content }
    ensures no_documents { store.new.staged ≡ [] }
    ensures stored { OnOk result (store.new.content ≡ all_stored rows.items store.old.content) }
    ensures stays { OnErr result (store.new.content ≡ store.old.content) }
{
    let paths = joined(alloc, store.paths(), admission.added())?;
    let uses = uses_behind(alloc, settings, kept.uses.as_slice(), admission.added())?;
    store_documents(
        alloc,
        store,
        &mut kept.rows,
        rows,
        admission,
        replaced,
        paths.as_slice(),
        uses.as_slice(),
    )?;
    kept.uses = uses;
    Ok(())
}

/// Paths, and behind them those that a registry gains.
pub(crate) fn joined(alloc: Global, paths: &[Word], added: &[Word]) -> Result<Vec<Word>, NoMemory>
    ensures { IfOk result (λ all. all.items ≡ paths.now ++ added.now) }
{
    let mut all = Vec::with_capacity(alloc, paths.len())?;
    add_paths(paths, &mut all)?;
    add_paths(added, &mut all)?;
    Ok(all)
}

fn add_paths(paths: &[Word], all: &mut Vec<Word>) -> Result<(), NoMemory>
    ensures { OnOk result (all.new.items ≡ all.old.items ++ paths.now) }
{
    for path in paths {
        all.push(path.clone()?)?;
    }
    Ok(())
}
