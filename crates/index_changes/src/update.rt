ghost use Rattle.std.specs.Prelude.{◌≡◌, List, ℕ, true, IfOk, OnOk, bytes_eq, if◌then◌else◌};
ghost use Rattle.std.specs.Option.{option_copied, option_map};
ghost use Rattle.std.specs.BTreeMap.{get};
ghost use Rattle.std.specs.Cmp.Lexicographic.{slice_cmp};
ghost use Rattle.std.specs.Ordering.{nat_cmp};
ghost use Rattle.doc_index.specs.Named.{named, AreRead};
ghost use Rattle.path_registry.specs.Paths.{last_place};
ghost use Rattle.doc_store.specs.Sound.{IsSound};
ghost use Rattle.doc_store.specs.Store.{externals};
ghost use Rattle.index_changes.specs.Index.{document_under};
ghost use Rattle.index_changes.specs.Keyed.{AreReadBack};
ghost use Rattle.index_changes.specs.Plans.{over};
ghost use Rattle.index_changes.specs.Updating.{updated_rows, row_of, is_place, waits_after, ArePlaces, IsRead};

use doc_index::Stored;
use doc_store::{DocStore, StoreRow};
use doc_values::{DocumentText, merged};
use search_base::{NoMemory, Word};
use std::alloc::Global;
use std::collections::BTreeMap;

// The place, among documents that come, of the last one of each external id.
type Places = BTreeMap<Word, usize>;

// What the updates of an external id come to, one over the other, while more of them are to come.
type Waiting = BTreeMap<Word, DocumentText>;

/// The documents of an update, as they are to be stored one after the other: the last of each external id over those
/// before it and over the stored one, and the others as they came, so that of each id one document is held whole. The
/// stored documents that the update names were read.
pub(crate) fn update_rows(
    alloc: Global,
    store: &DocStore,
    documents: Vec<StoreRow>,
    stored: &[Stored],
) -> Result<Vec<StoreRow>, NoMemory>
    requires sound { IsSound store.now.content }
    requires read { AreRead stored.now (named (externals documents.items) store.now.content.rows) }
    ensures rows { IfOk result (λ rows. rows.items ≡ updated_rows documents.items store.now.content) }
    ensures back { OnOk result (AreReadBack documents.items) }
{
    let places = last_places(alloc, documents.as_slice())?;
    let mut waiting = BTreeMap::new(alloc);
    let mut rows = Vec::with_capacity(alloc, documents.len())?;
    for row in documents {
        // A document is read back from its text, so that each name stands in it once.
        let _text = row.document.text();
        let is_last = stands_at(&places, &row.external, rows.len());
        let old = stored_text(store, stored, &row.external);
        let updated = updated(alloc, row, old, is_last, &mut waiting)?;
        rows.push(updated)?;
    }
    Ok(rows)
}

fn last_places(alloc: Global, documents: &[StoreRow]) -> Result<Places, NoMemory>
    ensures { IfOk result (λ places. ArePlaces places documents.now) }
{
    let mut places = BTreeMap::new(alloc);
    for (place, row) in documents.iter().enumerate() {
        places.insert(row.external.clone()?, place)?;
    }
    Ok(places)
}

// Whether the external id has this place.
fn stands_at(places: &Places, external: &Word, place: usize) -> bool
    ensures { result ≡ is_place (get (slice_cmp nat_cmp) places.now external.now) place }
{
    match places.get(external) {
        Some(found) => *found == place,
        None => false,
    }
}

// A document as it is to be stored: the last of its external id over those that wait and over the stored one. Another
// stands as it came, and waits over those before it.
fn updated(
    alloc: Global,
    row: StoreRow,
    old: Option<&DocumentText>,
    is_last: bool,
    waiting: &mut Waiting,
) -> Result<StoreRow, NoMemory>
    ensures row { IfOk result (λ updated. updated ≡ (if is_last then row_of row.external (over (option_copied old.entry)
        (over (get (slice_cmp nat_cmp) waiting.old row.external) row.document)) else row)) }
    ensures waiting { OnOk result ((q : List ℕ) → get (slice_cmp nat_cmp) waiting.new q
        ≡ (if bytes_eq row.external q
        then waits_after is_last (over (get (slice_cmp nat_cmp) waiting.old row.external) row.document)
        else get (slice_cmp nat_cmp) waiting.old q)) }
{
    let StoreRow { external, document } = row;
    let before = waiting.remove(&external);
    let all = text_over(alloc, before.as_ref(), &document)?;
    if is_last {
        let document = text_over(alloc, old, &all)?;
        return Ok(StoreRow { external, document });
    }
    waiting.insert(external.clone()?, all)?;
    Ok(StoreRow { external, document })
}

// The stored document with an external id, where there is one. It is among those that were read, which stand in the
// order of their internal ids.
fn stored_text<'a>(
    store: &DocStore,
    stored: &'a [Stored],
    external: &Word,
) -> Option<&'a DocumentText>
    requires sound { IsSound store.now.content }
    requires read { IsRead external.now stored.now store.now.content }
    ensures { option_map (λ text. text.now) result ≡ document_under external.now store.now.content.rows }
{
    let id = store.id_of(external)?;
    let place = stored.partition_point(|found| found.id.0 < id.0);
    match stored.get(place) {
        Some(found) => Some(&found.text),
        None => None,
    }
}

// The text of a document over another one, where there is one. Both are read back from their texts and let go at once;
// alone, a document keeps its text.
fn text_over(
    alloc: Global,
    old: Option<&DocumentText>,
    new: &DocumentText,
) -> Result<DocumentText, NoMemory>
    ensures { IfOk result (λ text. text ≡ over (option_copied old.entry) new.now) }
{
    let Some(old) = old else {
        return Ok(new.clone()?);
    };
    let old = old.document(alloc)?;
    let new = new.document(alloc)?;
    let all = merged(alloc, &old, &new)?;
    DocumentText::of(alloc, &all)
}
