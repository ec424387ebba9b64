ghost use Rattle.std.specs.Prelude.{◌≡◌, ◌+◌, ◌≤◌, List, [], length, IfOk, OnOk, if◌then◌else◌};
ghost use Rattle.std.specs.Option.{is_some};
ghost use Rattle.doc_store.specs.Sound.{IsSound};
ghost use Rattle.doc_store.specs.Store.{row_at};
ghost use Rattle.row_index.specs.Documents.{IndexedDocument, AreApart};
ghost use Rattle.row_index.specs.Standing.{StandsFor};
ghost use Rattle.row_index.specs.Changes.{IsChangeOf, IsTight};
ghost use Rattle.doc_index.specs.Documents.{documents_of, rising, with_document};

use crate::change::rows_in;
use doc_rows::PathUse;
use doc_store::DocStore;
use row_index::{RowChange, RowIndex};
use search_base::{DocId, NoMemory, Steps};
use std::alloc::Global;

/// The index of all documents of a store, whose paths are used as `uses` says. Each document is read once, in the order
/// of the internal ids, and all come in one change. Where memory is wanting, no document is read twice.
pub fn index_of_all<F>(
    alloc: Global,
    store: &DocStore,
    uses: &[PathUse],
    fetches: &mut Steps<F>,
) -> Result<RowIndex, NoMemory>
    requires sound { IsSound store.now.content }
    requires uses { length uses.now ≡ length store.now.content.paths }
    ensures stands { IfOk result (λ index. StandsFor index
        (documents_of store.now.content.paths uses.now store.now.content.rows)) }
    ensures tight { IfOk result (λ index. IsTight index) }
    ensures fetches { OnOk result (fetches.new ≡ fetches.old + length store.now.content.rows) }
    ensures at_most { fetches.new ≤ fetches.old + length store.now.content.rows }
{
    let change = change_to_all(alloc, store, uses, fetches)?;
    index_of_change(alloc, change)
}

/// The index of the documents that come by a change, which takes none out.
pub fn index_of_change(alloc: Global, change: RowChange) -> Result<RowIndex, NoMemory>
    ensures stands { IfOk result (λ index. (documents : List IndexedDocument) → IsChangeOf change [] documents
        → AreApart documents → StandsFor index documents) }
    ensures tight { IfOk result (λ index. IsTight index) }
{
    let mut index = RowIndex::new(alloc);
    let prepared = index.prepare(alloc, change)?;
    index.commit(prepared);
    Ok(index)
}

// The change by which all documents of a store come, in the order of their internal ids.
fn change_to_all<F>(
    alloc: Global,
    store: &DocStore,
    uses: &[PathUse],
    fetches: &mut Steps<F>,
) -> Result<RowChange, NoMemory>
    requires sound { IsSound store.now.content }
    requires uses { length uses.now ≡ length store.now.content.paths }
    ensures change { IfOk result (λ change. IsChangeOf change []
        (rising store.now.content.paths uses.now store.now.content.rows [])) }
    ensures fetches { OnOk result (fetches.new ≡ fetches.old + length store.now.content.rows) }
    ensures at_most { fetches.new ≤ fetches.old + length store.now.content.rows }
{
    let mut change = RowChange::new(alloc);
    for id in 0..store.next_id() {
        put_stored(alloc, store, uses, DocId(id), &mut change, fetches)?;
    }
    Ok(change)
}

// The document with an internal id comes, where there is one.
fn put_stored<F>(
    alloc: Global,
    store: &DocStore,
    uses: &[PathUse],
    id: DocId,
    change: &mut RowChange,
    fetches: &mut Steps<F>,
) -> Result<(), NoMemory>
    requires few { length store.now.content.paths ≤ 1000 }
    requires uses { length uses.now ≡ length store.now.content.paths }
    ensures change { OnOk result ((come : List IndexedDocument) → IsChangeOf change.old [] come
        → IsChangeOf change.new [] (with_document store.now.content.paths uses.now
        (row_at id.0 store.now.content.rows) come)) }
    ensures fetches { OnOk result (fetches.new
        ≡ fetches.old + (if is_some (row_at id.0 store.now.content.rows) then 1 else 0)) }
    ensures at_most { fetches.new
        ≤ fetches.old + (if is_some (row_at id.0 store.now.content.rows) then 1 else 0) }
{
    if !store.holds(id) {
        return Ok(());
    }
    let Some(text) = store.fetch(id, fetches) else {
        return Ok(());
    };
    let rows = rows_in(alloc, text, store.paths(), uses)?;
    change.put_in(alloc, id, &rows)
}
