use crate::checks::word;
use hit_format::{Format, terms};
use query_graph::{build_graph, items};
use search_base::{Strategy, Term};
use std::alloc::Global;
use std::process::Abort;
use synonym_terms::SynonymTable;

pub(crate) fn no_synonyms(rt: &impl Abort, alloc: Global) -> SynonymTable {
    SynonymTable::build(alloc, Vec::new(alloc)).expect(rt, "memory")
}

// The terms of a query under these synonyms.
pub(crate) fn terms_of(
    rt: &impl Abort,
    alloc: Global,
    q: &str,
    synonyms: SynonymTable,
) -> Vec<Term> {
    let list = items(alloc, q, &[]).expect(rt, "memory");
    let graph = build_graph(alloc, &list, &synonyms, Strategy::Last).expect(rt, "memory");
    terms(alloc, &graph).expect(rt, "memory")
}

// Short tags and an ellipsis.
pub(crate) fn tagged(rt: &impl Abort, alloc: Global, crop: Option<u64>) -> Format {
    Format {
        highlight: true,
        pre: word(rt, alloc, "<"),
        post: word(rt, alloc, ">"),
        crop,
        marker: word(rt, alloc, "…"),
    }
}
