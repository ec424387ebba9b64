ghost use Rattle.std.specs.Prelude.{◌≡◌, true, ◌+◌, ◌++◌, OnOk, IfSome, IfNone, []};
ghost use Rattle.sorted_pages.specs.Entries.{IsIncreasing};
ghost use Rattle.near_words.specs.ByCost.{run_of};
ghost use Rattle.near_words.specs.FromDocument.{from_document, begins_before};

use search_base::{DocId, NoMemory};
use sorted_pages::Entries;

// Passes the entries before a document.
pub(crate) fn seek(left: &mut Entries<'_>, id: DocId)
    ensures { left.new ≡ from_document id.0 left.old }
{
    left.seek(u64::from(id.0) * 0x1_0000_0000);
}

// Adds the entries of a document to a run, and passes them and those before.
pub(crate) fn read(left: &mut Entries<'_>, id: DocId, run: &mut Vec<u64>) -> Result<(), NoMemory>
    ensures left { OnOk result (left.new ≡ from_document (id.0 + 1) left.old) }
    ensures run { OnOk result (run.new.items ≡ run.old.items ++ run_of id.0 left.old) }
    ensures increasing { IsIncreasing left.old }
{
    let _first = left.first();
    seek(left, id);
    while let Some(entry) = left.first() {
        if entry / 0x1_0000_0000 != u64::from(id.0) {
            return Ok(());
        }
        run.push(entry)?;
        let _entry = left.next();
    }
    Ok(())
}

// The first document of which entries are left.
pub(crate) fn document(left: &Entries<'_>) -> Option<DocId>
    ensures some { IfSome result (λ id. from_document id.0 left.now ≡ left.now) }
    ensures passed { IfSome result (λ id. begins_before (id.0 + 1) left.now ≡ true) }
    ensures none { IfNone result (left.now ≡ []) }
    ensures increasing { IsIncreasing left.now }
{
    match left.first() {
        Some(entry) => Some(DocId((entry / 0x1_0000_0000) as u32)),
        None => None,
    }
}
