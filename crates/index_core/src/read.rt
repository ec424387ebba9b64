ghost use Rattle.std.specs.Prelude.{◌≡◌, ◌+◌, length, map, IfOk, OnOk, OnErr};
ghost use Rattle.std.specs.Option.{option_map};
ghost use Rattle.std.specs.List.{filter_map};
ghost use Rattle.doc_store.specs.Store.{row_at};

use doc_store::DocStore;
use doc_values::DocumentText;
use search_base::{DocId, NoMemory, Steps};
use std::alloc::Global;

/// The documents with these internal ids, in this order. Each id is one step; no step is taken where memory is wanting.
pub(crate) fn read<'a, F>(
    alloc: Global,
    store: &'a DocStore,
    ids: &[DocId],
    fetches: &mut Steps<F>,
) -> Result<Vec<&'a DocumentText>, NoMemory>
    ensures documents { IfOk result (λ documents. map (λ document. document.now) documents.items
        ≡ filter_map (λ id. option_map (λ row. row.document) (row_at id.0 store.now.content.rows)) ids.now) }
    ensures fetches { OnOk result (fetches.new ≡ fetches.old + length ids.now) }
    ensures starved { OnErr result (fetches.new ≡ fetches.old) }
{
    let mut documents = Vec::with_capacity(alloc, ids.len())?;
    for id in ids {
        if let Some(document) = store.fetch(*id, fetches) {
            documents.push_reserved(document);
        }
    }
    Ok(documents)
}
