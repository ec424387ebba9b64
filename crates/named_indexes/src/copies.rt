// Copies of changes. The texts of documents are shared, and JSON values are copied.
ghost use Rattle.std.specs.Prelude.{◌≡◌, IfOk};
ghost use Rattle.document_changes.specs.Changes.{change_view, kind_view};

use document_changes::{Change, ChangeKind};
use search_base::NoMemory;

/// A copy of a change.
pub(crate) fn copy_of(change: &Change) -> Result<Change, NoMemory>
    ensures { IfOk result (λ copy. change_view copy ≡ change_view change.now) }
{
    Ok(Change {
        uid: change.uid.clone()?,
        kind: kind_copy(&change.kind)?,
    })
}

fn kind_copy(kind: &ChangeKind) -> Result<ChangeKind, NoMemory>
    ensures { IfOk result (λ copy. kind_view copy ≡ kind_view kind.now) }
{
    Ok(match kind {
        ChangeKind::Create { key } => ChangeKind::Create { key: key.clone()? },
        ChangeKind::Drop => ChangeKind::Drop,
        ChangeKind::Replace { key, documents } => ChangeKind::Replace {
            key: key.clone()?,
            documents: documents.clone()?,
        },
        ChangeKind::Update { key, documents } => ChangeKind::Update {
            key: key.clone()?,
            documents: documents.clone()?,
        },
        ChangeKind::Remove { ids } => ChangeKind::Remove { ids: ids.clone()? },
        ChangeKind::Clear => ChangeKind::Clear,
        ChangeKind::Patch { members } => ChangeKind::Patch {
            members: members.clone()?,
        },
        ChangeKind::Reset => ChangeKind::Reset,
    })
}
