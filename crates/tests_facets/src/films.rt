use crate::checks::{check, check_ids, set, wide_set, word};
use crate::facets::{DocLeaves, commit};
use facet_index::FacetIndex;
use search_base::{CostKey, DocId, FacetValue, Leaf, Mark, MarkKind, PathId, SortKey};
use std::alloc::Global;
use std::process::Abort;

const YEAR: PathId = PathId(0);

const GENRES: PathId = PathId(1);

// The number of each film, its year, and its genres: their normal form and how they are written.
const FILMS: [(u32, i128, &[(&str, &str)]); 4] = [
    (0, 2008, &[("action", "Action"), ("drama", "Drama")]),
    (1, 2012, &[("action", "Action")]),
    (2, 1999, &[]),
    (3, 2002, &[("drama", "drama")]),
];

fn leaf(rt: &impl Abort, alloc: Global, path: PathId, value: FacetValue, shown: &str) -> Leaf {
    let shown = word(rt, alloc, shown);
    Leaf { path, value, shown }
}

fn leaves_of(rt: &impl Abort, alloc: Global, year: i128, genres: &[(&str, &str)]) -> Vec<Leaf> {
    let mut leaves = Vec::new(alloc);
    let leaf_of_year = leaf(rt, alloc, YEAR, FacetValue::Number(year), "a year");
    leaves.push(leaf_of_year).expect(rt, "memory");
    for (form, shown) in genres {
        let value = FacetValue::Text(word(rt, alloc, form));
        let leaf = leaf(rt, alloc, GENRES, value, shown);
        leaves.push(leaf).expect(rt, "memory");
    }
    leaves
}

fn index(rt: &impl Abort, alloc: Global) -> FacetIndex {
    let mut films = Vec::new(alloc);
    for (id, year, genres) in &FILMS {
        let mut marks = Vec::new(alloc);
        if !genres.is_empty() {
            let (path, kind) = (GENRES, MarkKind::Exists);
            marks.push(Mark { path, kind }).expect(rt, "memory");
        }
        let film = DocLeaves {
            id: DocId(*id),
            leaves: leaves_of(rt, alloc, *year, genres),
            marks,
        };
        films.push(film).expect(rt, "memory");
    }
    let mut index = FacetIndex::new(alloc);
    commit(rt, alloc, &mut index, &[], &films);
    index
}

#[test]
fn films_by_value_mark_and_range(rt: HostRuntime) {
    let alloc = rt.alloc();
    let index = index(&rt, alloc);
    let all = set(&rt, alloc, &[0, 1, 2, 3]);
    let drama = FacetValue::Text(word(&rt, alloc, "drama"));
    let docs = index.equal(alloc, GENRES, &drama, &all);
    check_ids(&rt, &docs.expect(&rt, "memory"), &[0, 3], "drama");
    let docs = index.marked(alloc, GENRES, MarkKind::Exists, &all);
    check_ids(&rt, &docs.expect(&rt, "memory"), &[0, 1, 3], "genres");
    let wide = wide_set(&rt, alloc, &[0, 1, 2, 3]);
    let docs = index.short_range(alloc, YEAR, 2000, 2010, &wide);
    let docs = docs.expect(&rt, "memory").expect(&rt, "short lists");
    check_ids(&rt, &docs, &[0, 3], "years");
}

#[test]
fn films_by_year(rt: HostRuntime) {
    let alloc = rt.alloc();
    let index = index(&rt, alloc);
    let all = set(&rt, alloc, &[0, 1, 2, 3]);
    // A year, the one that comes next, and the films of that one.
    for (after, next, ids) in [
        (None, Some(1999), [2].as_slice()),
        (Some(1999), Some(2002), [3].as_slice()),
        (Some(2002), Some(2008), [0].as_slice()),
        (Some(2012), None, [].as_slice()),
    ] {
        let after = after.map(|year| CostKey::Up(SortKey::Number(year)));
        let next = next.map(|year| CostKey::Up(SortKey::Number(year)));
        let found = index.next_sort(alloc, YEAR, true, after.as_ref(), &all);
        let found = found.expect(&rt, "memory");
        check(&rt, found == next, "next year");
        if let Some(year) = found {
            let docs = index.sort_docs(alloc, YEAR, true, &year, &all);
            check_ids(&rt, &docs.expect(&rt, "memory"), ids, "films of it");
        }
    }
}
