ghost use Rattle.std.specs.Prelude.{◌≡◌, ◌++◌, [], map, Some, None, IfOk, OnOk, IfSome};
ghost use Rattle.std.specs.List.{AllByRecursion};
ghost use Rattle.std.specs.Option.{option_copied, option_map};
ghost use Rattle.std.specs.Result.{result_err, result_unwrap_or};
ghost use Rattle.search_base.specs.Gives.{Gives};
ghost use Rattle.document_changes.specs.Changes.{kind_view};
ghost use Rattle.doc_store.specs.Admitting.{IsAdmitting, IsNoted};
ghost use Rattle.doc_store.specs.Sound.{IsSound};
ghost use Rattle.index_changes.specs.Batches.{AreOf};
ghost use Rattle.index_changes.specs.Gathering.{IsGathered, Stores, WouldReadBack, documents_in, key_in, planned_rows, rows_in, rows_planned, with_change, with_planned};
ghost use Rattle.index_changes.specs.Index.{Index};
ghost use Rattle.index_changes.specs.Keyed.{AreReadBack, HasKey, IsKeyed};
ghost use Rattle.index_changes.specs.declared.batch.BatchKind.{BatchKind};

use crate::external_ids::rows_noted;
use crate::key::{copy_of, key_for};
use crate::refusal::{CoreFault, CoreRefusal, of_store, refusal_in};
use doc_store::{Admission, Admitting, DocStore, NewPaths, StoreRow};
use document_changes::{ChangeKind, Documents};
use search_base::{NoMemory, Word};
use std::alloc::Global;

/// What changes that store documents come to for an index that takes them together.
#[derive(Drop)]
pub struct Gathered {
    /// The primary key after them.
    pub key: Option<Word>,
    /// The documents of those that are not refused, in order.
    pub rows: Vec<StoreRow>,
    /// What these documents take of the store.
    pub admission: Admission,
    /// Why each change is refused, if it is.
    pub faults: Vec<Option<CoreRefusal>>,
}

// The same of those changes that were looked at.
#[derive(Drop)]
struct Gathering {
    key: Option<Word>,
    rows: Vec<StoreRow>,
    admitting: Admitting,
}

// The documents of a change under the primary key that it leaves, and the paths that the store gains by them.
#[derive(Drop)]
struct Planned {
    key: Option<Word>,
    rows: Vec<StoreRow>,
    paths: NewPaths,
}

/// Tries changes that store documents one after the other, each on what those before it leave: its key, the id of each
/// document, and then whether the store has an internal id and paths for them. A change that is refused leaves nothing
/// behind. No stored document is read, and each that comes is read once, and once more for each change behind it that
/// the store refuses.
pub fn gather(
    alloc: Global,
    own: Option<&Word>,
    store: &DocStore,
    changes: Vec<ChangeKind>,
) -> Result<Gathered, NoMemory>
    requires sound { IsSound store.now.content }
    requires keyed { IsKeyed (option_copied own) store.now.content.rows }
    requires keys { AllByRecursion HasKey (map kind_view changes.items) }
    requires stores { AllByRecursion Stores (map kind_view changes.items) }
    ensures { IfOk result (λ gathered. (kind : BatchKind) (index : Index) → index.key ≡ option_copied own.entry
        → index.store ≡ store.now.content → AreOf kind (map kind_view changes.items)
        → IsGathered kind (map kind_view changes.items) index gathered) }
{
    let mut faults = Vec::with_capacity(alloc, changes.len())?;
    let mut gathering = Gathering {
        key: copy_of(own)?,
        rows: Vec::new(alloc),
        admitting: store.start_admitting(alloc),
    };
    for change in changes {
        let fault = take(alloc, store, &mut gathering, change)?;
        faults.push(fault)?;
    }
    let Gathering {
        key,
        rows,
        admitting,
    } = gathering;
    Ok(Gathered {
        key,
        rows,
        admission: admitting.finish(),
        faults,
    })
}

// Tries one change behind those that were looked at, and takes its documents unless it is refused.
fn take(
    alloc: Global,
    store: &DocStore,
    gathering: &mut Gathering,
    change: ChangeKind,
) -> Result<Option<CoreRefusal>, NoMemory>
    requires stores { Stores (kind_view change) }
    requires admitting { IsAdmitting store.now.ids store.now.content gathering.old.rows.items gathering.old.admitting }
    ensures fault { IfOk result (λ fault. fault ≡ result_err (with_change (rows_in gathering.old)
        (key_in (kind_view change)) (documents_in (kind_view change)) store.now.content)) }
    ensures taken { OnOk result (rows_in gathering.new ≡ result_unwrap_or (with_change (rows_in gathering.old)
        (key_in (kind_view change)) (documents_in (kind_view change)) store.now.content) (rows_in gathering.old)) }
    ensures back { OnOk result (WouldReadBack (rows_in gathering.old)
        (key_in (kind_view change)) (documents_in (kind_view change))) }
    ensures admitting { OnOk result
        (IsAdmitting store.now.ids store.now.content gathering.new.rows.items gathering.new.admitting) }
{
    match change {
        ChangeKind::Replace { key, documents } => {
            take_documents(alloc, store, gathering, key, documents)
        }
        ChangeKind::Update { key, documents } => {
            take_documents(alloc, store, gathering, key, documents)
        }
        _ => Ok(None),
    }
}

fn take_documents(
    alloc: Global,
    store: &DocStore,
    gathering: &mut Gathering,
    given: Option<Word>,
    documents: Documents,
) -> Result<Option<CoreRefusal>, NoMemory>
    requires { IsAdmitting store.now.ids store.now.content gathering.old.rows.items gathering.old.admitting }
    ensures fault { IfOk result (λ fault. fault ≡ result_err
        (with_change (rows_in gathering.old) given documents store.now.content)) }
    ensures taken { OnOk result (rows_in gathering.new ≡ result_unwrap_or
        (with_change (rows_in gathering.old) given documents store.now.content) (rows_in gathering.old)) }
    ensures back { OnOk result (WouldReadBack (rows_in gathering.old) given documents) }
    ensures admitting { OnOk result
        (IsAdmitting store.now.ids store.now.content gathering.new.rows.items gathering.new.admitting) }
{
    match plan_documents(alloc, store, gathering, given, documents) {
        Ok(planned) => admit(alloc, store, gathering, planned),
        Err(fault) => Ok(Some(refusal_in(fault)?)),
    }
}

// The documents of a change under the primary key that it leaves. Each is read once.
fn plan_documents(
    alloc: Global,
    store: &DocStore,
    gathering: &Gathering,
    given: Option<Word>,
    documents: Documents,
) -> Result<Planned, CoreFault>
    requires { IsAdmitting store.now.ids store.now.content gathering.now.rows.items gathering.now.admitting }
    ensures planned { Gives planned_rows result (rows_planned gathering.now.key given documents) }
    ensures back { IfOk result (λ planned. AreReadBack planned.rows.items) }
    ensures noted { IfOk result (λ planned. IsNoted store.now.content gathering.now.admitting
        planned.rows.items planned.paths) }
{
    let key = key_for(alloc, gathering.key.as_ref(), given, &documents)?;
    let (rows, paths) = rows_noted(alloc, store, &gathering.admitting, key.as_ref(), documents)?;
    Ok(Planned { key, rows, paths })
}

// Takes the documents of a change, unless the store has no internal id or no path more for them.
fn admit(
    alloc: Global,
    store: &DocStore,
    gathering: &mut Gathering,
    planned: Planned,
) -> Result<Option<CoreRefusal>, NoMemory>
    requires admitting { IsAdmitting store.now.ids store.now.content gathering.old.rows.items gathering.old.admitting }
    requires noted { IsNoted store.now.content gathering.old.admitting planned.rows.items planned.paths }
    ensures fault { IfOk result (λ fault. fault ≡ result_err
        (with_planned (rows_in gathering.old) (planned_rows planned) store.now.content)) }
    ensures taken { OnOk result (rows_in gathering.new ≡ result_unwrap_or
        (with_planned (rows_in gathering.old) (planned_rows planned) store.now.content) (rows_in gathering.old)) }
    ensures admitting { OnOk result
        (IsAdmitting store.now.ids store.now.content gathering.new.rows.items gathering.new.admitting) }
{
    let Planned {
        key,
        rows: mut more,
        paths,
    } = planned;
    match store.admit_noted(&mut gathering.admitting, more.as_slice(), paths) {
        Ok(()) => {
            gathering.rows.append(&mut more)?;
            gathering.key = key;
            Ok(None)
        }
        Err(fault) => {
            let why = refusal_in(of_store(fault))?;
            gathering.admitting = admitted_again(alloc, store, gathering.rows.as_slice())?;
            Ok(Some(why))
        }
    }
}

// The same documents admitted anew. They were admitted before, so memory alone can be wanting.
fn admitted_again(alloc: Global, store: &DocStore, rows: &[StoreRow]) -> Result<Admitting, NoMemory>
    ensures { IfOk result (λ admitting. IsAdmitting store.now.ids store.now.content rows.now admitting) }
{
    let mut admitting = store.start_admitting(alloc);
    match store.admit_more(alloc, &mut admitting, rows) {
        Ok(()) => Ok(admitting),
        Err(_) => Err(NoMemory),
    }
}
