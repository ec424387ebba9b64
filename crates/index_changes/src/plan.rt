ghost use Rattle.std.specs.Prelude.{◌≡◌, ◌<◌, [], length, IfOk, IfErr, IfSome};
ghost use Rattle.std.specs.Option.{option_copied};
ghost use Rattle.serde_json.specs.View.{view as data_of};
ghost use Rattle.search_base.specs.Gives.{Gives};
ghost use Rattle.search_base.specs.declared.fault.Fault.TheVariants.{NoMemory as Memory};
ghost use Rattle.index_image.specs.State.{IsPrimaryKey};
ghost use Rattle.index_settings.specs.Table.{patch_fault};
ghost use Rattle.index_changes.specs.Keyed.{IsReady};
ghost use Rattle.index_changes.specs.PlanView.{replace as replace_rows, update as update_rows, work_view};
ghost use Rattle.index_changes.specs.Plans.{documents_planned, patch_planned, plan_of};

use crate::external_ids::rows_for;
use crate::key::{copy_of, key_for};
use crate::refusal::{CoreFault, CoreRefusal};
use doc_store::StoreRow;
use document_changes::Documents;
use index_settings::check_patch;
use search_base::{Fault, NoMemory, Word};
use serde_json::Value;
use std::alloc::Global;
use std::marker::Model;

/// A change that an index has found good: the primary key after it, and what is to be done. It may be dropped.
#[derive(Drop)]
pub struct Plan {
    pub key: Option<Word>,
    pub work: Work,
}

/// What a plan does to an index.
#[derive(Drop)]
pub enum Work {
    /// Stores documents whole, in order.
    Replace { rows: Vec<StoreRow> },
    /// Stores documents, in order, each over the one of its external id.
    Update { rows: Vec<StoreRow> },
    /// Takes out the documents with these external ids.
    Remove { ids: Vec<Word> },
    /// Takes out all documents.
    Clear,
    /// Gives the index's settings these members, a patch that is not refused.
    Patch { members: Value },
    /// Gives the index the settings of a new one.
    Reset,
}

impl Model for Plan {
    ghost use Rattle.index_changes.specs.Keyed.{IsReady};
    ghost use Rattle.index_changes.specs.PlanView.{PlanView, plan_code, work_view};

    ghost Value = { PlanView };

    ghost coded = { plan_code };

    ghost view = { λ plan. record { key = plan.key; work = work_view plan.work } };

    ghost invariant = { λ plan. IsReady plan.key (work_view plan.work) };
}

/// The documents of a change that stores them whole.
pub fn planned_replace(
    alloc: Global,
    own: Option<&Word>,
    given: Option<Word>,
    documents: Documents,
) -> Result<Plan, CoreFault>
    requires own { IsPrimaryKey (option_copied own) }
    requires given { IfSome given (λ text. 0 < length text) }
    ensures { Gives (λ plan. plan) result (documents_planned
        (option_copied own.entry) given documents replace_rows) }
{
    let key = key_for(alloc, own, given, &documents)?;
    let rows = rows_for(alloc, key.as_ref(), documents.into_texts())?;
    Ok(Plan {
        key,
        work: Work::Replace { rows },
    })
}

/// The documents of a change that stores each over the one of its external id.
pub fn planned_update(
    alloc: Global,
    own: Option<&Word>,
    given: Option<Word>,
    documents: Documents,
) -> Result<Plan, CoreFault>
    requires own { IsPrimaryKey (option_copied own) }
    requires given { IfSome given (λ text. 0 < length text) }
    ensures { Gives (λ plan. plan) result (documents_planned
        (option_copied own.entry) given documents update_rows) }
{
    let key = key_for(alloc, own, given, &documents)?;
    let rows = rows_for(alloc, key.as_ref(), documents.into_texts())?;
    Ok(Plan {
        key,
        work: Work::Update { rows },
    })
}

/// The members of a patch of an index's settings, where it is not refused.
pub fn planned_patch(alloc: Global, own: Option<&Word>, members: Value) -> Result<Plan, CoreFault>
    requires own { IsPrimaryKey (option_copied own) }
    ensures { Gives (λ plan. plan) result (patch_planned (option_copied own.entry) (data_of members) (patch_fault
        (data_of members))) }
{
    match check_patch(alloc, &members) {
        Ok(()) => Ok(keeping_key(own, Work::Patch { members })?),
        Err(Fault::Refused(refusal)) => Err(Fault::Refused(CoreRefusal::Settings(refusal))),
        Err(Fault::NoMemory) => Err(Fault::NoMemory),
    }
}

/// The plan of work under the key that the index has.
pub fn keeping_key(own: Option<&Word>, work: Work) -> Result<Plan, NoMemory>
    requires { IsReady (option_copied own) (work_view work) }
    ensures { IfOk result (λ plan. plan ≡ plan_of (option_copied own.entry) (work_view work)) }
{
    Ok(Plan {
        key: copy_of(own)?,
        work,
    })
}

/// No document to store.
pub fn no_work(alloc: Global) -> Work
    ensures { work_view result ≡ replace_rows [] }
{
    Work::Replace {
        rows: Vec::new(alloc),
    }
}
