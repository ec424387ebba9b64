use doc_sets::DocSet;
use search_base::{DocId, Word};
use std::alloc::Global;
use std::process::Abort;

// Whether a row has what it is to have.
pub(crate) fn check(rt: &impl Abort, holds: bool, row: &str) {
    assert!(rt; holds, "{row}");
}

pub(crate) fn word(rt: &impl Abort, alloc: Global, text: &str) -> Word {
    Word::new(alloc, text).expect(rt, "memory")
}

pub(crate) fn set(rt: &impl Abort, alloc: Global, ids: &[u32]) -> DocSet {
    let mut set = DocSet::new(alloc);
    for id in ids {
        let _new = set.insert(DocId(*id)).expect(rt, "memory");
    }
    set
}

// These documents and five hundred others, beside which the list of a value is short.
pub(crate) fn wide_set(rt: &impl Abort, alloc: Global, ids: &[u32]) -> DocSet {
    let mut set = set(rt, alloc, ids);
    for id in 1_000..1_500_u32 {
        let _new = set.insert(DocId(id)).expect(rt, "memory");
    }
    set
}

// The set has exactly these documents.
pub(crate) fn check_ids(rt: &impl Abort, docs: &DocSet, ids: &[u32], row: &str) {
    check(rt, docs.len() == ids.len() as u64, row);
    for id in ids {
        check(rt, docs.contains(DocId(*id)), row);
    }
}
