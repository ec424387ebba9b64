use doc_sets::DocSet;
use search_base::{DocId, Word};
use std::alloc::Global;
use std::process::Abort;

// Whether a row has what it is to have.
pub(crate) fn check(rt: &impl Abort, holds: bool, row: &str) {
    assert!(rt; holds, "{row}");
}

pub(crate) fn word(rt: &impl Abort, alloc: Global, text: &str) -> Word {
    Word::new(alloc, text).expect(rt, "memory")
}

pub(crate) fn set(rt: &impl Abort, alloc: Global, ids: &[u32]) -> DocSet {
    let mut set = DocSet::new(alloc);
    for id in ids {
        let _new = set.insert(DocId(*id)).expect(rt, "memory");
    }
    set
}

// The set has exactly these documents.
pub(crate) fn check_ids(rt: &impl Abort, docs: &DocSet, ids: &[u32], row: &str) {
    check(rt, docs.len() == ids.len() as u64, row);
    for id in ids {
        check(rt, docs.contains(DocId(*id)), row);
    }
}
