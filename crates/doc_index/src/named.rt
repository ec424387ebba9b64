ghost use Rattle.std.specs.Prelude.{◌≡◌, ◌+◌, ◌≤◌, length, map, IfOk, OnOk};
ghost use Rattle.doc_store.specs.Sound.{IsSound};
ghost use Rattle.doc_index.specs.Named.{named, AreRead};

use doc_sets::{DocSet, DocSetBuilder};
use doc_store::DocStore;
use doc_values::DocumentText;
use search_base::{DocId, NoMemory, Steps, Word};
use std::alloc::Global;

/// A stored document that was read, under its internal id. Its text is shared with the store.
#[derive(Drop)]
pub struct Stored {
    pub id: DocId,
    pub text: DocumentText,
}

/// The stored documents with these external ids, each once, in the order of their internal ids. Each is read once; an
/// external id that no document has is passed over. Where memory is wanting, no more are read than these.
pub fn read_named<F>(
    alloc: Global,
    store: &DocStore,
    externals: &[Word],
    fetches: &mut Steps<F>,
) -> Result<Vec<Stored>, NoMemory>
    requires { IsSound store.now.content }
    ensures found { IfOk result (λ found. AreRead found.items (named externals.now store.now.content.rows)) }
    ensures fetches { OnOk result (fetches.new
        ≡ fetches.old + length (named externals.now store.now.content.rows)) }
    ensures at_most { fetches.new ≤ fetches.old + length (named externals.now store.now.content.rows) }
{
    let ids = ids_named(alloc, store, externals)?;
    let mut found = Vec::new(alloc);
    for id in ids.iter() {
        if let Some(text) = store.fetch(id, fetches) {
            let text = text.clone()?;
            found.push(Stored { id, text })?;
        }
    }
    Ok(found)
}

// The internal ids of the stored documents with these external ids.
fn ids_named(alloc: Global, store: &DocStore, externals: &[Word]) -> Result<DocSet, NoMemory>
    requires { IsSound store.now.content }
    ensures { IfOk result (λ set. set.ids ≡ map (λ r. r.id) (named externals.now store.now.content.rows)) }
{
    let mut ids = DocSetBuilder::new(alloc, store.next_id())?;
    for external in externals {
        if let Some(id) = store.id_of(external) {
            ids.add_id(id)?;
        }
    }
    ids.finish(alloc)
}
