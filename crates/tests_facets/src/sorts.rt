use crate::checks::{set, word};
use crate::facets::{DocLeaves, commit};
use doc_sets::DocSet;
use facet_index::FacetIndex;
use search_base::{CostKey, DocId, FacetValue, Leaf, Mark, MarkKind, PathId, SortKey};
use std::alloc::Global;
use std::process::Abort;

const YEAR: PathId = PathId(0);

const GENRES: PathId = PathId(1);

const ALL: [u32; 5] = [0, 1, 2, 3, 9];

// A document of these years and genres, which exist where there are some. Document 1 has an empty genre too, and 2 null.
fn document(rt: &impl Abort, alloc: Global, id: u32, years: &[i128], genres: &[&str]) -> DocLeaves {
    let mut leaves = Vec::new(alloc);
    let mut marks = Vec::new(alloc);
    for year in years {
        leaves
            .push(Leaf {
                path: YEAR,
                value: FacetValue::Number(*year),
                shown: word(rt, alloc, "a year"),
            })
            .expect(rt, "memory");
    }
    for genre in genres {
        leaves
            .push(Leaf {
                path: GENRES,
                value: FacetValue::Text(word(rt, alloc, genre)),
                shown: word(rt, alloc, genre),
            })
            .expect(rt, "memory");
    }
    for (path, some) in [(YEAR, !years.is_empty()), (GENRES, !genres.is_empty())] {
        if some {
            let kind = MarkKind::Exists;
            marks.push(Mark { path, kind }).expect(rt, "memory");
        }
    }
    for (of, kind) in [(1, MarkKind::Empty), (2, MarkKind::Null)] {
        if of == id {
            let path = GENRES;
            marks.push(Mark { path, kind }).expect(rt, "memory");
        }
    }
    DocLeaves {
        id: DocId(id),
        leaves,
        marks,
    }
}

// Four documents.
pub(crate) fn standing(rt: &impl Abort, alloc: Global) -> Vec<DocLeaves> {
    Vec::from_array(
        alloc,
        [
            document(rt, alloc, 0, &[1999, 2012], &["drama", "action"]),
            document(rt, alloc, 1, &[2005], &["Zoo"]),
            document(rt, alloc, 2, &[], &[]),
            document(rt, alloc, 3, &[2002], &["drama"]),
        ],
    )
    .expect(rt, "memory")
}

// A fifth document, which went.
pub(crate) fn gone(rt: &impl Abort, alloc: Global) -> Vec<DocLeaves> {
    Vec::from_array(alloc, [document(rt, alloc, 9, &[-3], &["a"])]).expect(rt, "memory")
}

// The index of the four documents, after the fifth.
pub(crate) fn index(rt: &impl Abort, alloc: Global) -> FacetIndex {
    let mut index = FacetIndex::new(alloc);
    let gone = gone(rt, alloc);
    commit(rt, alloc, &mut index, &[], &gone);
    commit(rt, alloc, &mut index, &gone, &standing(rt, alloc));
    index
}

// Whether the set has exactly these documents of all.
pub(crate) fn is(docs: &DocSet, ids: &[u32]) -> bool {
    ALL.iter()
        .all(|id| docs.contains(DocId(*id)) == ids.contains(id))
}

fn number(up: bool, n: i128) -> CostKey {
    let key = SortKey::Number(n);
    if up {
        CostKey::Up(key)
    } else {
        CostKey::Down(key)
    }
}

fn text(rt: &impl Abort, alloc: Global, up: bool, form: &str) -> CostKey {
    let key = SortKey::Text(word(rt, alloc, form));
    if up {
        CostKey::Up(key)
    } else {
        CostKey::Down(key)
    }
}

#[test]
fn keys_in_both_directions(rt: HostRuntime) {
    let alloc = rt.alloc();
    let index = index(&rt, alloc);
    let all = set(&rt, alloc, &ALL);
    // A path, a direction, and its keys in order with their documents.
    let rows = [
        (
            YEAR,
            true,
            [number(true, 1999), number(true, 2002), number(true, 2005)],
            [0, 3, 1],
        ),
        (
            YEAR,
            false,
            [
                number(false, 2012),
                number(false, 2005),
                number(false, 2002),
            ],
            [0, 1, 3],
        ),
    ];
    for (path, up, keys, ids) in &rows {
        let mut last: Option<&CostKey> = None;
        for (key, id) in keys.iter().zip(ids.iter()) {
            let next = index
                .next_sort(alloc, *path, *up, last, &all)
                .expect(&rt, "memory");
            assert!(rt; next.as_ref() == Some(key));
            let docs = index
                .sort_docs(alloc, *path, *up, key, &all)
                .expect(&rt, "memory");
            assert!(rt; is(&docs, &[*id]));
            last = Some(key);
        }
        assert!(rt;
            index
                .next_sort(alloc, *path, *up, last, &all)
                .expect(&rt, "memory")
                .is_none()
        );
    }
}

#[test]
fn keys_that_no_document_of_the_universe_has_are_passed(rt: HostRuntime) {
    let alloc = rt.alloc();
    let index = index(&rt, alloc);
    // The documents of the universe, a direction, a key and the one that comes first after it.
    for (ids, up, after, next) in [
        ([1].as_slice(), true, None, Some(number(true, 2005))),
        ([1].as_slice(), true, Some(number(true, 2005)), None),
        (
            [1, 3].as_slice(),
            false,
            Some(number(false, 2012)),
            Some(number(false, 2005)),
        ),
        ([3].as_slice(), false, None, Some(number(false, 2002))),
        ([].as_slice(), true, None, None),
    ] {
        let universe = set(&rt, alloc, ids);
        let found = index
            .next_sort(alloc, YEAR, up, after.as_ref(), &universe)
            .expect(&rt, "memory");
        assert!(rt; found == next);
    }
}

#[test]
fn texts_and_what_is_missing(rt: HostRuntime) {
    let alloc = rt.alloc();
    let index = index(&rt, alloc);
    let all = set(&rt, alloc, &ALL);
    let missing = CostKey::Up(SortKey::Missing);
    // A direction, the key that comes first after another, and the documents of the one that is asked for.
    for (up, after, next) in [
        (true, None, Some(text(&rt, alloc, true, "Zoo"))),
        (
            true,
            Some(text(&rt, alloc, true, "Zoo")),
            Some(text(&rt, alloc, true, "action")),
        ),
        (true, Some(text(&rt, alloc, true, "drama")), None),
        (true, Some(missing), None),
        (false, None, Some(text(&rt, alloc, false, "drama"))),
        (
            false,
            Some(text(&rt, alloc, false, "drama")),
            Some(text(&rt, alloc, false, "Zoo")),
        ),
        (false, Some(text(&rt, alloc, false, "Zoo")), None),
        (
            false,
            Some(text(&rt, alloc, true, "Zoo")),
            Some(text(&rt, alloc, false, "drama")),
        ),
    ] {
        let found = index
            .next_sort(alloc, GENRES, up, after.as_ref(), &all)
            .expect(&rt, "memory");
        assert!(rt; found == next);
    }
    for (up, key, ids) in [
        (true, text(&rt, alloc, true, "action"), [0].as_slice()),
        (true, text(&rt, alloc, true, "drama"), [3].as_slice()),
        (false, text(&rt, alloc, false, "drama"), [0, 3].as_slice()),
        (true, text(&rt, alloc, false, "drama"), [].as_slice()),
        (true, CostKey::Up(SortKey::Missing), [].as_slice()),
        (true, number(true, 2005), [].as_slice()),
    ] {
        let docs = index
            .sort_docs(alloc, GENRES, up, &key, &all)
            .expect(&rt, "memory");
        assert!(rt; is(&docs, ids));
    }
}
