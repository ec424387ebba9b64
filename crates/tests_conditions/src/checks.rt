ghost use Rattle.std.specs.Prelude.{◌≡◌};

use doc_sets::DocSet;
use search_base::{DocId, Word};
use std::alloc::Global;
use std::process::Abort;

// Whether a row has what it is to have.
pub(crate) fn check(rt: &impl Abort, holds: bool, row: &str) {
    assert!(rt; holds, "{row}");
}

// Whether a row has the text that it is to have.
pub(crate) fn check_text(rt: &impl Abort, found: &str, wanted: &str, row: &str) {
    assert!(rt; found == wanted, "{row}: {found}");
}

pub(crate) fn word(rt: &impl Abort, alloc: Global, text: &str) -> Word
    ensures { result ≡ text.now }
{
    Word::new(alloc, text).expect(rt, "memory")
}

pub(crate) fn add(rt: &impl Abort, text: &mut String, part: &str) {
    text.push_str(part).expect(rt, "memory");
}

pub(crate) fn set(rt: &impl Abort, alloc: Global, ids: &[u32]) -> DocSet {
    let mut set = DocSet::new(alloc);
    for id in ids {
        let _new = set.insert(DocId(*id)).expect(rt, "memory");
    }
    set
}

// The set lists these ids.
pub(crate) fn check_ids(rt: &impl Abort, set: &DocSet, ids: &[u32], row: &str) {
    check(rt, set.len() == ids.len() as u64, row);
    let mut wanted = ids.iter();
    for id in set.iter() {
        check(rt, wanted.next() == Some(&id.0), row);
    }
}
