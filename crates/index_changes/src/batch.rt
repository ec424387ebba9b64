ghost use Rattle.std.specs.Prelude.{◌≡◌, ◌++◌, None, map, flat_map, replicate, IfOk, OnOk};
ghost use Rattle.document_changes.specs.Changes.{kind_view};
ghost use Rattle.index_changes.specs.Batches.{first_kind, names_in};

use crate::refusal::CoreRefusal;
use document_changes::ChangeKind;
use search_base::{NoMemory, Word};
use std::alloc::Global;

/// What changes have in common that an index takes in one go.
#[derive(Clone, Copy, Debug, Drop, PartialEq, Eq)]
pub enum BatchKind {
    /// They store documents whole.
    Replace,
    /// They store documents, each over the one of its external id.
    Update,
    /// They take out documents by their external ids.
    Remove,
    /// Each of them is applied by itself.
    Single,
}

/// The kind of the first of these changes. Without one it is `Single`.
pub fn batch_kind(changes: &[ChangeKind]) -> BatchKind
    ensures { result ≡ first_kind (map kind_view changes.now) }
{
    match changes.first() {
        Some(ChangeKind::Replace { .. }) => BatchKind::Replace,
        Some(ChangeKind::Update { .. }) => BatchKind::Update,
        Some(ChangeKind::Remove { .. }) => BatchKind::Remove,
        _ => BatchKind::Single,
    }
}

/// The external ids of those changes that take out documents by them, one change behind the other.
pub fn removed_ids(alloc: Global, changes: Vec<ChangeKind>) -> Result<Vec<Word>, NoMemory>
    ensures { IfOk result (λ ids. ids.items ≡ flat_map (names_in None) (map kind_view changes.items)) }
{
    let mut ids = Vec::new(alloc);
    for change in changes {
        push_ids(&mut ids, change)?;
    }
    Ok(ids)
}

fn push_ids(ids: &mut Vec<Word>, change: ChangeKind) -> Result<(), NoMemory>
    ensures { OnOk result (ids.new.items ≡ ids.old.items ++ names_in None (kind_view change)) }
{
    if let ChangeKind::Remove { ids: mut more } = change {
        ids.append(&mut more)?;
    }
    Ok(())
}

/// So many changes of which none is refused.
pub fn no_faults(alloc: Global, changes: usize) -> Result<Vec<Option<CoreRefusal>>, NoMemory>
    ensures { IfOk result (λ faults. faults.items ≡ replicate changes None) }
{
    let mut faults = Vec::with_capacity(alloc, changes)?;
    for _ in 0..changes {
        faults.push(None)?;
    }
    Ok(faults)
}
