ghost use Rattle.std.specs.Prelude.{◌≡◌, ◌≤◌, [], length, OnOk, OnErr};
ghost use Rattle.doc_store.specs.Sound.{IsSound};
ghost use Rattle.doc_store.specs.Store.{all_stored, externals};
ghost use Rattle.doc_store.specs.StoreView.{IsAdmitted};
ghost use Rattle.row_index.specs.Standing.{StandsFor};
ghost use Rattle.row_index.specs.Changes.{IsTight};
ghost use Rattle.doc_index.specs.Documents.{documents_of};
ghost use Rattle.doc_index.specs.Named.{named, AreRead};
ghost use Rattle.doc_index.specs.Left.{without_named, without_all};

use crate::change::{commit, prepare_put, prepare_remove};
use crate::named::Stored;
use doc_rows::PathUse;
use doc_store::{Admission, DocStore, StoreRow};
use row_index::RowIndex;
use search_base::{DocId, NoMemory, Word};
use std::alloc::Global;

/// Stores documents that were admitted, in place of the stored ones of their external ids, which were read, and changes
/// the index with them. The paths are those of the registry once the documents are stored, each used as `uses` says. All
/// memory is taken first: a refusal leaves store and index as they were.
pub fn store_documents(
    alloc: Global,
    store: &mut DocStore,
    index: &mut RowIndex,
    documents: Vec<StoreRow>,
    admission: Admission,
    replaced: &[Stored],
    paths: &[Word],
    uses: &[PathUse],
) -> Result<(), NoMemory>
    requires few { length paths.now ≤ 1000 }
    requires uses { length uses.now ≡ length paths.now }
    requires sound { IsSound store.old.content }
    requires admitted { IsAdmitted store.old.content documents.items admission }
    requires replaced { AreRead replaced.now (named (externals documents.items) store.old.content.rows) }
    requires stands { StandsFor index.old (documents_of paths.now uses.now store.old.content.rows) }
    ensures stored { OnOk result (store.new.content ≡ all_stored documents.items store.old.content) }
    ensures stays { OnErr result (store.new.content ≡ store.old.content) }
    ensures staged { store.old.staged ≡ [] → store.new.staged ≡ [] }
    ensures stands { StandsFor index.new (documents_of paths.now uses.now store.new.content.rows) }
    ensures tight { IsTight index.old → IsTight index.new }
{
    let rows = documents.as_slice();
    let ids = admission.ids();
    let prepared = prepare_put(alloc, store, index, rows, ids, replaced, paths, uses)?;
    match store.prepare(documents, admission) {
        Ok(plan) => {
            let _ids = store.commit(plan);
            commit(index, prepared);
            Ok(())
        }
        Err(refused) => {
            index.release(prepared);
            Err(refused)
        }
    }
}

/// Takes out the documents with these external ids, which were read, and changes the index with them. The paths of the
/// registry are used as `uses` says. All memory is taken first: a refusal leaves store and index as they were.
pub fn remove_documents(
    alloc: Global,
    store: &mut DocStore,
    index: &mut RowIndex,
    externals: &[Word],
    removed: &[Stored],
    uses: &[PathUse],
) -> Result<(), NoMemory>
    requires uses { length uses.now ≡ length store.old.content.paths }
    requires sound { IsSound store.old.content }
    requires removed { AreRead removed.now (named externals.now store.old.content.rows) }
    requires stands { StandsFor index.old
        (documents_of store.old.content.paths uses.now store.old.content.rows) }
    ensures removed { OnOk result (store.new.content ≡ without_named externals.now store.old.content) }
    ensures stays { OnErr result (store.new.content ≡ store.old.content) }
    ensures staged { store.new.staged ≡ store.old.staged }
    ensures stands { StandsFor index.new
        (documents_of store.new.content.paths uses.now store.new.content.rows) }
    ensures tight { IsTight index.old → IsTight index.new }
{
    let paths = store.paths();
    let prepared = prepare_remove(alloc, store, index, externals, removed, paths, uses)?;
    take_out_all(store, externals, removed);
    commit(index, prepared);
    Ok(())
}

// Takes out the documents that were read.
fn take_out_all(store: &mut DocStore, externals: &[Word], removed: &[Stored])
    requires sound { IsSound store.old.content }
    requires removed { AreRead removed.now (named externals.now store.old.content.rows) }
    ensures removed { store.new.content ≡ without_named externals.now store.old.content }
    ensures staged { store.new.staged ≡ store.old.staged }
{
    for document in removed {
        let _there = store.remove(document.id);
    }
}

/// Takes out all documents, from the index too. Takes no memory.
pub fn clear_documents(alloc: Global, store: &mut DocStore, index: &mut RowIndex)
    requires { IsSound store.old.content }
    ensures cleared { store.new.content ≡ without_all store.old.content }
    ensures staged { store.new.staged ≡ store.old.staged }
    ensures stands { StandsFor index.new [] }
    ensures tight { IsTight index.new }
{
    index.clear(alloc);
    for id in 0..store.next_id() {
        let _there = store.remove(DocId(id));
    }
}
