ghost use Rattle.std.specs.Prelude.{◌≡◌, ℕ, List, [], Ok, IfOk};
ghost use Rattle.std.specs.Option.{option_copied};
ghost use Rattle.search_base.specs.Gives.{Gives};
ghost use Rattle.search_base.specs.Trying.{refused_as};
ghost use Rattle.doc_store.specs.Admitting.{IsAdmitting, IsNoted};
ghost use Rattle.path_registry.specs.Met.{all_registered};
ghost use Rattle.document_changes.specs.Notes.{AreIdsUnder};
ghost use Rattle.doc_store.specs.Store.{externals};
ghost use Rattle.doc_store.specs.declared.rows.StoreRow.{StoreRow as Row};
ghost use Rattle.doc_values.specs.Ids.{external_id_of};
ghost use Rattle.index_changes.specs.Keyed.{AreReadBack};
ghost use Rattle.index_changes.specs.Refusals.{id_refusal};
ghost use Rattle.index_changes.specs.Plans.{rows_for as rows_of_change, rows_under as rows_from};

use crate::refusal::{CoreFault, CoreRefusal};
use doc_store::{Admitting, DocStore, NewPaths, StoreRow};
use doc_values::{Document, DocumentText, IdRefusal, external_id};
use document_changes::{Documents, NotedDocuments};
use search_base::{Fault, NoMemory, Word};
use std::alloc::Global;

/// The documents of a change, each with its external id under the key. Without a key there are no documents.
pub(crate) fn rows_for(
    alloc: Global,
    key: Option<&Word>,
    documents: Vec<DocumentText>,
) -> Result<Vec<StoreRow>, CoreFault>
    ensures rows { Gives (λ rows. rows.items) result (rows_of_change (option_copied key.entry) documents.items) }
    ensures back { IfOk result (λ rows. AreReadBack rows.items) }
{
    match key {
        Some(key) => rows_under(alloc, key.as_str(), documents),
        None => Ok(Vec::new(alloc)),
    }
}

fn rows_under(
    alloc: Global,
    key: &str,
    documents: Vec<DocumentText>,
) -> Result<Vec<StoreRow>, CoreFault>
    ensures rows { Gives (λ rows. rows.items) result (rows_from key.now 1 documents.items) }
    ensures back { IfOk result (λ rows. AreReadBack rows.items) }
{
    let mut rows = Vec::with_capacity(alloc, documents.len())?;
    let mut before: u32 = 0;
    for document in documents {
        if before == u32::MAX {
            return Err(Fault::NoMemory);
        }
        // A document is read back from its text, so that each name stands in it once.
        let _text = document.text();
        let external = id_at(alloc, &document, key, before + 1)?;
        rows.push(StoreRow { external, document })?;
        before += 1;
    }
    Ok(rows)
}

/// The same documents, with the paths that the store gains by them behind those that were admitted. Each is read once,
/// unless ids under this key were noted when they came.
pub(crate) fn rows_noted(
    alloc: Global,
    store: &DocStore,
    admitting: &Admitting,
    key: Option<&Word>,
    documents: Documents,
) -> Result<(Vec<StoreRow>, NewPaths), CoreFault>
    requires { (before : List Row) × IsAdmitting store.now.ids store.now.content before admitting.now }
    ensures rows { Gives (λ read. read.0.items) result (rows_of_change (option_copied key.entry) documents) }
    ensures back { IfOk result (λ read. AreReadBack read.0.items) }
    ensures noted { IfOk result (λ read. IsNoted store.now.content admitting.now read.0.items read.1) }
{
    match key {
        Some(key) => match documents.noted_under(key.as_str()) {
            Ok(noted) => Ok(rows_as_noted(alloc, store, admitting, noted)?),
            Err(texts) => rows_noted_under(alloc, store, admitting, key.as_str(), texts),
        },
        None => Ok((Vec::new(alloc), admitting.new_paths(alloc))),
    }
}

// Documents under the ids that were noted of them. None is read.
fn rows_as_noted(
    alloc: Global,
    store: &DocStore,
    admitting: &Admitting,
    noted: NotedDocuments,
) -> Result<(Vec<StoreRow>, NewPaths), NoMemory>
    requires admitting { (before : List Row) × IsAdmitting store.now.ids store.now.content before admitting.now }
    requires ids { (key : List ℕ) × AreIdsUnder key noted.texts.items noted.ids.items }
    requires paths { noted.paths.items ≡ all_registered noted.texts.items [] }
    ensures rows { IfOk result (λ read. (key : List ℕ) → AreIdsUnder key noted.texts.items noted.ids.items
        → rows_from key 1 noted.texts.items ≡ Ok read.0.items) }
    ensures back { IfOk result (λ read. AreReadBack read.0.items) }
    ensures noted { IfOk result (λ read. IsNoted store.now.content admitting.now read.0.items read.1) }
{
    let NotedDocuments { texts, ids, paths } = noted;
    let mut rows = Vec::with_capacity(alloc, texts.len())?;
    for (external, document) in ids.into_iter().zip(texts) {
        // A document is read back from its text, so that each name stands in it once.
        let _text = document.text();
        rows.push(StoreRow { external, document })?;
    }
    let new = store.note_met(alloc, admitting, paths)?;
    Ok((rows, new))
}

fn rows_noted_under(
    alloc: Global,
    store: &DocStore,
    admitting: &Admitting,
    key: &str,
    documents: Vec<DocumentText>,
) -> Result<(Vec<StoreRow>, NewPaths), CoreFault>
    requires { (before : List Row) × IsAdmitting store.now.ids store.now.content before admitting.now }
    ensures rows { Gives (λ read. read.0.items) result (rows_from key.now 1 documents.items) }
    ensures back { IfOk result (λ read. AreReadBack read.0.items) }
    ensures noted { IfOk result (λ read. IsNoted store.now.content admitting.now read.0.items read.1) }
{
    let mut rows = Vec::with_capacity(alloc, documents.len())?;
    let mut paths = admitting.new_paths(alloc);
    let mut before: u32 = 0;
    for text in documents {
        if before == u32::MAX {
            return Err(Fault::NoMemory);
        }
        // A document is read back from its text, so that each name stands in it once.
        let _text = text.text();
        let document = text.document(alloc)?;
        let external = id_of(alloc, &document, key, before + 1)?;
        store.note(alloc, admitting, &document, &mut paths)?;
        rows.push(StoreRow {
            external,
            document: text,
        })?;
        before += 1;
    }
    Ok((rows, paths))
}

// The external id of the document at a place, which is read back from its text and let go at once.
fn id_at(alloc: Global, text: &DocumentText, key: &str, place: u32) -> Result<Word, CoreFault>
    ensures { Gives (λ id. id) result (refused_as (id_refusal place) (external_id_of key.now text.now)) }
{
    let document = text.document(alloc)?;
    id_of(alloc, &document, key, place)
}

fn id_of(alloc: Global, document: &Document, key: &str, place: u32) -> Result<Word, CoreFault>
    ensures { Gives (λ id. id) result (refused_as (id_refusal place) (external_id_of key.now document.now)) }
{
    match external_id(alloc, document, key) {
        Ok(id) => Ok(id),
        Err(Fault::Refused(IdRefusal::MissingId)) => {
            Err(Fault::Refused(CoreRefusal::MissingId { document: place }))
        }
        Err(Fault::Refused(IdRefusal::BadId)) => {
            Err(Fault::Refused(CoreRefusal::BadId { document: place }))
        }
        Err(Fault::NoMemory) => Err(Fault::NoMemory),
    }
}

/// The external ids of documents that come.
pub(crate) fn ids_of(alloc: Global, rows: &[StoreRow]) -> Result<Vec<Word>, NoMemory>
    ensures { IfOk result (λ ids. ids.items ≡ externals rows.now) }
{
    let mut ids = Vec::with_capacity(alloc, rows.len())?;
    for row in rows {
        ids.push(row.external.clone()?)?;
    }
    Ok(ids)
}
