use doc_index::index_of_change;
use row_index::{RowChange, RowIndex};
use search_base::{DocId, DocRows, FacetValue, Leaf, Mark, MarkKind, PathId, Place, Word};
use std::alloc::Global;
use std::process::Abort;
use std::test::Fail;

// A document of version n has the first n + 1 of these words, and the number n.
const WORDS: [&str; 3] = ["dark", "knight", "rises"];

// One state of the index after the other: the version of each document, by its id, and a dot where there is none.
const STATES: [&str; 7] = [
    "0.......", "012.0...", "112.0..2", "1.2.02.2", "........", "22222222", "0.1.2.0.",
];

fn word(rt: &impl Abort, alloc: Global, text: &str) -> Word {
    Word::new(alloc, text).expect(rt, "memory")
}

fn versions(rt: &impl Abort, alloc: Global, state: &str) -> Vec<Option<u32>> {
    let mut versions = Vec::new(alloc);
    for version in state.chars() {
        versions.push(version.to_digit(10)).expect(rt, "memory");
    }
    versions
}

// The version of the document with an id.
fn version_at(versions: &[Option<u32>], id: u32) -> Option<u32> {
    match versions.get(id as usize) {
        Some(version) => *version,
        None => None,
    }
}

fn rows(rt: &impl Abort, alloc: Global, version: u32) -> DocRows {
    let mut rows = DocRows {
        places: Vec::new(alloc),
        leaves: Vec::new(alloc),
        marks: Vec::new(alloc),
    };
    for position in 0..3_u16 {
        if u32::from(position) <= version {
            let place = Place {
                path: PathId(0),
                rank: 0,
                position,
                word: word(rt, alloc, WORDS[usize::from(position)]),
            };
            rows.places.push(place).expect(rt, "memory");
        }
    }
    let leaf = Leaf {
        path: PathId(1),
        value: FacetValue::Number(i128::from(version)),
        shown: word(rt, alloc, "a number"),
    };
    rows.leaves.push(leaf).expect(rt, "memory");
    let mark = Mark {
        path: PathId(1),
        kind: MarkKind::Exists,
    };
    rows.marks.push(mark).expect(rt, "memory");
    rows
}

// What makes documents of these versions of others.
fn change(
    rt: &impl Abort,
    alloc: Global,
    before: &[Option<u32>],
    after: &[Option<u32>],
) -> RowChange {
    let mut change = RowChange::new(alloc);
    for id in 0..8 {
        let (old, new) = (version_at(before, id), version_at(after, id));
        if old == new {
            continue;
        }
        if let Some(version) = old {
            let rows = rows(rt, alloc, version);
            change
                .take_out(alloc, DocId(id), &rows)
                .expect(rt, "memory");
        }
        if let Some(version) = new {
            let rows = rows(rt, alloc, version);
            change.put_in(alloc, DocId(id), &rows).expect(rt, "memory");
        }
    }
    change
}

// How many places the word has in the index.
fn places(index: &RowIndex, word: &Word) -> usize {
    match index.places().list(word) {
        Some(list) => list.len(),
        None => 0,
    }
}

// The index answers as documents of these versions do.
fn answers(rt: &impl Abort, alloc: Global, index: &RowIndex, versions: &[Option<u32>]) {
    let ids = index.ids();
    for number in 0..3_u32 {
        let value = FacetValue::Number(i128::from(number));
        let facets = index.facets();
        let docs = facets
            .equal(alloc, PathId(1), &value, ids)
            .expect(rt, "memory");
        let length = number as usize + 1;
        let lengths = index.lengths();
        let long = lengths
            .documents(alloc, PathId(0), length, ids)
            .expect(rt, "memory");
        let mut wanted = 0_usize;
        for id in 0..8 {
            let version = version_at(versions, id);
            assert!(rt; ids.contains(DocId(id)) == version.is_some());
            assert!(rt; docs.contains(DocId(id)) == (version == Some(number)));
            assert!(rt; long.contains(DocId(id)) == (version == Some(number)));
            if version >= Some(number) {
                wanted = wanted.saturating_add(1);
            }
        }
        let word = word(rt, alloc, WORDS[number as usize]);
        assert!(rt; places(index, &word) == wanted);
    }
}

#[test]
fn an_index_is_that_of_its_documents(rt: HostRuntime) -> Result<(), Fail> {
    let alloc = rt.alloc();
    let mut index = RowIndex::new(alloc);
    let mut before = versions(&rt, alloc, "........");
    for state in STATES {
        let after = versions(&rt, alloc, state);
        let given_up = change(&rt, alloc, before.as_slice(), after.as_slice());
        let prepared = index.prepare(alloc, given_up)?;
        answers(&rt, alloc, &index, before.as_slice());
        index.release(prepared);
        answers(&rt, alloc, &index, before.as_slice());
        let made = change(&rt, alloc, before.as_slice(), after.as_slice());
        let prepared = index.prepare(alloc, made)?;
        index.commit(prepared);
        answers(&rt, alloc, &index, after.as_slice());
        before = after;
    }
    index.clear(alloc);
    answers(
        &rt,
        alloc,
        &index,
        &[None, None, None, None, None, None, None, None],
    );
    Ok(())
}

#[test]
fn documents_that_come_make_an_index(rt: HostRuntime) -> Result<(), Fail> {
    let alloc = rt.alloc();
    for state in STATES {
        let documents = versions(&rt, alloc, state);
        let come = change(&rt, alloc, &[], documents.as_slice());
        let index = index_of_change(alloc, come)?;
        answers(&rt, alloc, &index, documents.as_slice());
    }
    Ok(())
}
