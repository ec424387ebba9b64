ghost use Rattle.std.specs.Prelude.{◌≡◌, ◌≤◌, List, [], ◌∷◌, length, map, filter, not, IfOk, OnOk, MatchResult};
ghost use Rattle.doc_store.specs.Sound.{IsSound};
ghost use Rattle.doc_store.specs.Store.{all_stored, externals, ids_given};
ghost use Rattle.doc_rows.specs.Rows.{rows_of};
ghost use Rattle.row_index.specs.Documents.{IndexedDocument};
ghost use Rattle.row_index.specs.Standing.{StandsFor};
ghost use Rattle.row_index.specs.Changes.{IsChangeOf, HasRooms, IsTight, IsTightBut};
ghost use Rattle.doc_index.specs.Documents.{indexed, documents_of};
ghost use Rattle.doc_index.specs.Named.{is_named, named, AreRead};
ghost use Rattle.doc_index.specs.Last.{with_last, last_of, AreTheirIds};
ghost use Rattle.doc_index.specs.Ready.{IsReady};

use crate::named::Stored;
use doc_rows::{PathUse, rows};
use doc_sets::{Bits, operations_are_on_members};
use doc_store::{DocStore, StoreRow};
use doc_values::DocumentText;
use row_index::{PreparedRows, RowChange, RowIndex};
use search_base::{DocId, DocRows, NoMemory, Word};
use std::alloc::Global;

/// Takes the memory for documents that come, under these internal ids and in place of the stored ones of their external
/// ids, which were read. The paths are those of the registry once the documents are stored, each used as `uses` says.
/// Each answer of the index stays as it was, and after a refusal no room is left behind but that of the leaves.
pub(crate) fn prepare_put(
    alloc: Global,
    store: &DocStore,
    index: &mut RowIndex,
    documents: &[StoreRow],
    ids: &[DocId],
    replaced: &[Stored],
    paths: &[Word],
    uses: &[PathUse],
) -> Result<PreparedRows, NoMemory>
    requires few { length paths.now ≤ 1000 }
    requires uses { length uses.now ≡ length paths.now }
    requires sound { IsSound store.now.content }
    requires ids { map (λ id. id.0) ids.now ≡ ids_given documents.now store.now.content }
    requires replaced { AreRead replaced.now (named (externals documents.now) store.now.content.rows) }
    requires stands { StandsFor index.old (documents_of paths.now uses.now store.now.content.rows) }
    ensures stands { StandsFor index.new (documents_of paths.now uses.now store.now.content.rows) }
    ensures ready { IfOk result (λ prepared. IsReady prepared index.new
        (documents_of paths.now uses.now (all_stored documents.now store.now.content).rows)) }
    ensures tight { IsTight index.old → MatchResult result (λ prepared. IsTightBut prepared index.new)
        (λ _. IsTight index.new) }
{
    let mut change = RowChange::new(alloc);
    take_out(alloc, &mut change, replaced, paths, uses)?;
    put_in(alloc, &mut change, documents, ids, paths, uses)?;
    index.prepare(alloc, change)
}

/// Takes the memory for documents that go, which have these external ids and were read. Each answer of the index stays
/// as it was, and after a refusal no room is left behind.
pub(crate) fn prepare_remove(
    alloc: Global,
    store: &DocStore,
    index: &mut RowIndex,
    externals: &[Word],
    removed: &[Stored],
    paths: &[Word],
    uses: &[PathUse],
) -> Result<PreparedRows, NoMemory>
    requires few { length paths.now ≤ 1000 }
    requires uses { length uses.now ≡ length paths.now }
    requires sound { IsSound store.now.content }
    requires removed { AreRead removed.now (named externals.now store.now.content.rows) }
    requires stands { StandsFor index.old (documents_of paths.now uses.now store.now.content.rows) }
    ensures stands { StandsFor index.new (documents_of paths.now uses.now store.now.content.rows) }
    ensures ready { IfOk result (λ prepared. IsReady prepared index.new
        (documents_of paths.now uses.now (filter (λ r. not (is_named externals.now r)) store.now.content.rows))) }
    ensures tight { IsTight index.old → MatchResult result (λ prepared. IsTightBut prepared index.new)
        (λ _. IsTight index.new) }
{
    let mut change = RowChange::new(alloc);
    take_out(alloc, &mut change, removed, paths, uses)?;
    index.prepare(alloc, change)
}

/// Makes a change that was prepared on this index as it is. Takes no memory.
pub(crate) fn commit(index: &mut RowIndex, prepared: PreparedRows)
    requires { HasRooms index.old prepared }
    ensures stands { (documents : List IndexedDocument) → IsReady prepared index.old documents
        → StandsFor index.new documents }
    ensures tight { IsTightBut prepared index.old → IsTight index.new }
{
    index.commit(prepared);
}

// Documents that were read go.
fn take_out(
    alloc: Global,
    change: &mut RowChange,
    stored: &[Stored],
    paths: &[Word],
    uses: &[PathUse],
) -> Result<(), NoMemory>
    requires few { length paths.now ≤ 1000 }
    requires uses { length uses.now ≡ length paths.now }
    requires change { IsChangeOf change.old [] [] }
    ensures { OnOk result (IsChangeOf change.new (map (λ r. indexed paths.now uses.now r.id.0 r.text) stored.now) []) }
{
    let mut i = stored.len();
    while i > 0 {
        i -= 1;
        take_one(alloc, change, &stored[i], paths, uses)?;
    }
    Ok(())
}

fn take_one(
    alloc: Global,
    change: &mut RowChange,
    stored: &Stored,
    paths: &[Word],
    uses: &[PathUse],
) -> Result<(), NoMemory>
    requires few { length paths.now ≤ 1000 }
    requires uses { length uses.now ≡ length paths.now }
    ensures { OnOk result ((gone come : List IndexedDocument) → IsChangeOf change.old gone come
        → IsChangeOf change.new (indexed paths.now uses.now stored.now.id.0 stored.now.text ∷ gone) come) }
{
    let rows = rows_in(alloc, &stored.text, paths, uses)?;
    change.take_out(alloc, stored.id, &rows)
}

// Of documents that come one after the other, the last of each internal id comes.
fn put_in(
    alloc: Global,
    change: &mut RowChange,
    documents: &[StoreRow],
    ids: &[DocId],
    paths: &[Word],
    uses: &[PathUse],
) -> Result<(), NoMemory>
    requires few { length paths.now ≤ 1000 }
    requires uses { length uses.now ≡ length paths.now }
    requires many { length ids.now ≡ length documents.now }
    ensures { OnOk result ((gone : List IndexedDocument) → IsChangeOf change.old gone []
        → IsChangeOf change.new gone (last_of paths.now uses.now (map (λ id. id.0) ids.now) documents.now)) }
{
    let mut later = Bits::new(alloc, 0)?;
    let mut i = ids.len();
    while i > 0 {
        i -= 1;
        put_last(
            alloc,
            change,
            &mut later,
            ids[i],
            &documents[i],
            paths,
            uses,
        )?;
    }
    Ok(())
}

// A document comes, unless one of its internal id comes later.
fn put_last(
    alloc: Global,
    change: &mut RowChange,
    later: &mut Bits,
    id: DocId,
    row: &StoreRow,
    paths: &[Word],
    uses: &[PathUse],
) -> Result<(), NoMemory>
    requires few { length paths.now ≤ 1000 }
    requires uses { length uses.now ≡ length paths.now }
    ensures change { OnOk result ((gone come : List IndexedDocument) → IsChangeOf change.old gone come
        → AreTheirIds later.old.ids come
        → IsChangeOf change.new gone (with_last paths.now uses.now id.0 row.now come)) }
    ensures later { OnOk result ((come : List IndexedDocument) → AreTheirIds later.old.ids come
        → AreTheirIds later.new.ids (with_last paths.now uses.now id.0 row.now come)) }
{
    operations_are_on_members();
    if later.contains(id) {
        return Ok(());
    }
    later.grow(u64::from(id.0) + 1)?;
    later.set(id);
    let rows = rows_in(alloc, &row.document, paths, uses)?;
    change.put_in(alloc, id, &rows)
}

/// What searches see of a document, read back from its text, by the paths of a registry, each used as `uses` says.
/// `NoMemory` comes where memory is wanting.
pub fn rows_in(
    alloc: Global,
    text: &DocumentText,
    paths: &[Word],
    uses: &[PathUse],
) -> Result<DocRows, NoMemory>
    requires few { length paths.now ≤ 1000 }
    requires uses { length uses.now ≡ length paths.now }
    ensures { IfOk result (λ rows. rows ≡ rows_of text.now paths.now uses.now) }
{
    let document = text.document(alloc)?;
    rows(alloc, &document, paths, uses)
}
