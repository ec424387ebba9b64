ghost use Rattle.std.specs.Prelude.{◌≡◌, ◌+◌, ◌≤◌, ℕ, List, [], ◌∷◌, length, map, true, IfOk, OnOk, unwrap_or};
ghost use Rattle.std.specs.Option.{option_copied};
ghost use Rattle.doc_values.specs.Ids.{is_uid};
ghost use Rattle.doc_store.specs.Restored.{restored, restored_row};
ghost use Rattle.doc_store.specs.Sound.{IsSound};
ghost use Rattle.row_index.specs.Changes.{IsChangeOf};
ghost use Rattle.row_index.specs.Documents.{IndexedDocument};
ghost use Rattle.doc_index.specs.Documents.{indexed, rising};
ghost use Rattle.index_image.specs.Rows.{IndexData, index_view};
ghost use Rattle.index_image.specs.State.{IsIndex, id_under, is_above};
ghost use Rattle.index_changes.specs.Images.{index_of, row_under, document_of};
ghost use Rattle.index_changes.specs.Indexed.{IsIndexed};
ghost use Rattle.index_changes.specs.Keyed.{IsKeyed};

use crate::change::joined;
use crate::kept::KeptRows;
use crate::key::{copy_of, text_of};
use doc_index::index_of_change;
use doc_rows::{PathUse, rows};
use doc_store::{DocStore, StoredRow};
use doc_values::{Document, external_id};
use index_image::{ImageDocument, ImageIndex};
use index_settings::{Settings, patch_checked};
use row_index::RowChange;
use search_base::{NoMemory, Steps, Word};
use search_settings::uses_of;
use serde_json::{Map, Value};
use std::alloc::Global;

// The mark of the steps by which documents are copied, which nothing counts.
struct Copied;

/// An index as the rows of an image, under a uid. The documents share their texts with the store.
pub fn image_of(
    alloc: Global,
    uid: Word,
    key: Option<&Word>,
    store: &DocStore,
    settings: &Settings,
) -> Result<ImageIndex, NoMemory>
    requires sound { IsSound store.now.content }
    requires keyed { IsKeyed (option_copied key) store.now.content.rows }
    ensures uid { IfOk result (λ image. image.uid ≡ uid) }
    ensures index { IfOk result (λ image. index_of (index_view image)
        ≡ record { key = option_copied key.entry; store = store.now.content; settings = settings.now }) }
    ensures state { IfOk result (λ image. is_uid uid ≡ true → (before : List IndexData) → is_above before uid ≡ true
        → IsIndex before (index_view image)) }
{
    Ok(ImageIndex {
        uid,
        key: copy_of(key)?,
        next_id: store.next_id(),
        paths: joined(alloc, store.paths(), &[])?,
        settings: copy_of_settings(alloc, settings)?,
        documents: image_documents(alloc, store)?,
    })
}

// Settings that share their lists with these: those after a patch that names nothing.
fn copy_of_settings(alloc: Global, settings: &Settings) -> Result<Settings, NoMemory>
    ensures { IfOk result (λ copy. copy ≡ settings.now) }
{
    patch_checked(alloc, settings, &Value::Object(Map::new(alloc)))
}

// The documents of a store under their internal ids, in the order of these. They share their texts with the store.
fn image_documents(alloc: Global, store: &DocStore) -> Result<Vec<ImageDocument>, NoMemory>
    requires { IsSound store.now.content }
    ensures { IfOk result (λ documents. documents.items ≡ map document_of store.now.content.rows) }
{
    let mut steps = Steps::<Copied>::new();
    let ids = store.ids(alloc, 0, store.len())?;
    let mut documents = Vec::with_capacity(alloc, ids.len())?;
    for id in ids {
        if let Some(text) = store.fetch(id, &mut steps) {
            let document = text.clone()?;
            documents.push(ImageDocument { id, document })?;
        }
    }
    Ok(documents)
}

/// The documents of an image as they were read.
#[derive(Drop)]
pub struct ReadDocuments {
    /// Each with the external id that it has by the key, in the order of the internal ids.
    pub rows: Vec<StoredRow>,
    /// What an index keeps of them.
    pub kept: KeptRows,
}

// What the documents of an image are read by: the key, the paths of the registry, and how each of these is used.
#[derive(Drop)]
struct Reader<'a> {
    key: &'a str,
    paths: &'a [Word],
    uses: &'a [PathUse],
}

/// Reads the documents of an image, each once, for their external ids by the key and for what an index with these
/// paths keeps of them under these settings. One that has no id counts as want of memory; an image has no such document.
pub fn read_documents<F>(
    alloc: Global,
    key: &Option<Word>,
    paths: &[Word],
    settings: &Settings,
    documents: Vec<ImageDocument>,
    fetches: &mut Steps<F>,
) -> Result<ReadDocuments, NoMemory>
    requires few { length paths.now ≤ 1000 }
    ensures rows { IfOk result (λ read. map restored_row read.rows.items
        ≡ map (row_under (unwrap_or key.now [])) documents.items) }
    ensures kept { IfOk result (λ read. (next_id : ℕ) → IsSound (restored paths.now next_id read.rows.items)
        → IsIndexed read.kept settings.now (restored paths.now next_id read.rows.items)) }
    ensures fetches { OnOk result (fetches.new ≡ fetches.old + length documents.items) }
    ensures at_most { fetches.new ≤ fetches.old + length documents.items }
{
    let uses = uses_of(alloc, settings, paths)?;
    let reader = Reader {
        key: text_of(key),
        paths,
        uses: uses.as_slice(),
    };
    let mut change = RowChange::new(alloc);
    let rows = read_each(alloc, &reader, documents, &mut change, fetches)?;
    let kept = KeptRows {
        rows: index_of_change(alloc, change)?,
        uses,
    };
    Ok(ReadDocuments { rows, kept })
}

// Reads documents, which come to the index by the change.
fn read_each<F>(
    alloc: Global,
    reader: &Reader<'_>,
    documents: Vec<ImageDocument>,
    change: &mut RowChange,
    fetches: &mut Steps<F>,
) -> Result<Vec<StoredRow>, NoMemory>
    requires few { length reader.now.paths.now ≤ 1000 }
    requires uses { length reader.now.uses.now ≡ length reader.now.paths.now }
    ensures rows { IfOk result (λ rows. map restored_row rows.items
        ≡ map (row_under reader.now.key.now) documents.items) }
    ensures change { OnOk result (IsChangeOf change.old [] [] → IsChangeOf change.new [] (rising
        reader.now.paths.now reader.now.uses.now (map (row_under reader.now.key.now) documents.items) [])) }
    ensures fetches { OnOk result (fetches.new ≡ fetches.old + length documents.items) }
    ensures at_most { fetches.new ≤ fetches.old + length documents.items }
{
    let mut rows = Vec::with_capacity(alloc, documents.len())?;
    for document in documents {
        fetches.tick();
        rows.push(read_one(alloc, reader, document, change)?)?;
    }
    Ok(rows)
}

// Reads a document, which comes to the index by the change.
fn read_one(
    alloc: Global,
    reader: &Reader<'_>,
    document: ImageDocument,
    change: &mut RowChange,
) -> Result<StoredRow, NoMemory>
    requires few { length reader.now.paths.now ≤ 1000 }
    requires uses { length reader.now.uses.now ≡ length reader.now.paths.now }
    ensures row { IfOk result (λ row. restored_row row ≡ row_under reader.now.key.now document) }
    ensures change { OnOk result ((come : List IndexedDocument) → IsChangeOf change.old [] come
        → IsChangeOf change.new [] (indexed reader.now.paths.now reader.now.uses.now document.id.0 document.document
        ∷ come)) }
{
    let ImageDocument { id, document: text } = document;
    let document = text.document(alloc)?;
    let external = external_under(alloc, &document, reader.key)?;
    let rows = rows(alloc, &document, reader.paths, reader.uses)?;
    change.put_in(alloc, id, &rows)?;
    Ok(StoredRow {
        id,
        external,
        document: text,
    })
}

// The external id of a document under a key. One that has none counts as want of memory.
fn external_under(alloc: Global, document: &Document, key: &str) -> Result<Word, NoMemory>
    ensures { IfOk result (λ external. external ≡ unwrap_or (id_under key.now document.now) []) }
{
    match external_id(alloc, document, key) {
        Ok(external) => Ok(external),
        Err(_) => Err(NoMemory),
    }
}
