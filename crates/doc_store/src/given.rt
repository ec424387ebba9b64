ghost use Rattle.std.specs.Prelude.{◌≡◌, ℕ, ◌+◌, ◌≤◌, ◌++◌, List, Some, Err, map, bytes_eq, IfOk, OnOk, IfErr, if◌then◌else◌};
ghost use Rattle.std.specs.Option.{is_some, unwrap_or};
ghost use Rattle.search_base.specs.Gives.{Checks};
ghost use Rattle.doc_store.specs.Given.{known_id, AreIdsOf};
ghost use Rattle.doc_store.specs.Store.{Store, all_stored, ids_given, ids_spent};

use crate::rows::{MAX_IDS, StoreFault, StoreRefusal, StoreRow};
use path_registry::Places;
use search_base::{DocId, Fault, Word};

/// The internal ids of more documents that come one after the other, behind those that are given so far. `fresh` are
/// those of documents that are new, and `free` is the next one. A refusal may give a part of them.
pub(crate) fn more_ids(
    ids: &Places,
    fresh: &mut Places,
    free: &mut u32,
    given: &mut Vec<DocId>,
    rows: &[StoreRow],
) -> Result<(), StoreFault>
    requires { free.old ≤ MAX_IDS }
    ensures known { OnOk result ((s : Store) → AreIdsOf ids.now fresh.old free.old s
        → AreIdsOf ids.now fresh.new free.new (all_stored rows.now s)) }
    ensures given { OnOk result ((s : Store) → AreIdsOf ids.now fresh.old free.old s
        → map (λ id. id.0) given.new.items ≡ map (λ id. id.0) given.old.items ++ ids_given rows.now s) }
    ensures within { OnOk result (free.new ≤ MAX_IDS) }
    ensures spent { (s : Store) → AreIdsOf ids.now fresh.old free.old s
        → IfErr result (λ fault. Checks (Err fault) (ids_spent (all_stored rows.now s).next_id)) }
{
    given.reserve(rows.len())?;
    for row in rows {
        let id = give_id(ids, fresh, free, &row.external)?;
        given.push(DocId(id))?;
    }
    Ok(())
}

/// The internal id of one document that comes. `fresh` are those that this change has given already.
fn give_id(
    ids: &Places,
    fresh: &mut Places,
    free: &mut u32,
    external: &Word,
) -> Result<u32, StoreFault>
    requires { free.old ≤ MAX_IDS }
    ensures id { IfOk result (λ id. id ≡ unwrap_or (known_id ids.now fresh.old external.now) free.old) }
    ensures free { OnOk result (free.new
        ≡ (if is_some (known_id ids.now fresh.old external.now) then free.old else free.old + 1)) }
    ensures within { OnOk result (free.new ≤ MAX_IDS) }
    ensures known { IfOk result (λ id. (q : List ℕ) → known_id ids.now fresh.new q
        ≡ (if bytes_eq external.now q then Some id else known_id ids.now fresh.old q)) }
    ensures spent { IfErr result (λ fault. Checks (Err fault)
        (ids_spent (if is_some (known_id ids.now fresh.old external.now) then free.old else free.old + 1))) }
{
    if let Some(id) = known(ids, fresh, external) {
        return Ok(id);
    }
    let id = *free;
    if id == MAX_IDS {
        return Err(Fault::Refused(StoreRefusal::IdsSpent));
    }
    fresh.reserve(external)?;
    fresh.give(external, id);
    *free = id + 1;
    Ok(id)
}

fn known(ids: &Places, fresh: &Places, external: &Word) -> Option<u32>
    ensures { result ≡ known_id ids.now fresh.now external.now }
{
    match ids.find(external) {
        Some(id) => Some(id),
        None => fresh.find(external),
    }
}
