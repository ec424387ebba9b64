ghost use Rattle.std.specs.Prelude.{◌≡◌, ◌++◌, length};
ghost use Rattle.doc_store.specs.Sound.{IsSound};
ghost use Rattle.row_index.specs.Standing.{StandsFor};
ghost use Rattle.doc_index.specs.Documents.{documents_of};
ghost use Rattle.doc_index.specs.Named.{named, AreRead};

use doc_index::{
    Stored, clear_documents, index_of_all, read_named, remove_documents, rows_in, store_documents,
};
use doc_rows::PathUse;
use doc_sets::DocSet;
use doc_store::{DocStore, StoreRow};
use doc_values::{Document, DocumentText};
use row_index::RowIndex;
use search_base::{FacetValue, MarkKind, PathId, Steps, Word};
use serde_json::Value;
use std::alloc::Global;
use std::ops::Bound;
use std::process::Abort;

// How the paths `kind`, `note`, `text` and `title` are used.
pub(crate) const USES: [PathUse; 4] = [
    PathUse {
        rank: None,
        faceted: true,
    },
    PathUse {
        rank: None,
        faceted: false,
    },
    PathUse {
        rank: Some(1),
        faceted: false,
    },
    PathUse {
        rank: Some(0),
        faceted: true,
    },
];

// A document that has all paths.
const FIRST: &str = r#"{"kind":"a","note":"n","text":"dark","title":"Dark"}"#;

// One change after the other: the external ids of two documents that come, or go where no documents are told, how many
// stored documents are read for it, and how often each word then stands in the index.
const CHANGES: &str =
    r#"1 2|0|dark 3;knight 1;one 1;two 2;|{"kind":["a",7],"text":"dark knight","title":"One"}|{"kind":null,"note":"dark","title":"Two two"}
3 3|0|dark 3;knight 1;last 1;one 1;two 2;|{"kind":7,"title":"first"}|{"kind":"A","title":"Last"}
1 4|1|dark 2;knight 2;last 1;two 2;|{"kind":"A","text":"knight knight"}|{"note":"dark"}
0 0|1|knight 2;last 1;two 2;zero 1;|{"title":"dark"}|{"kind":"","title":"zero"}
3 9|1|knight 2;two 2;zero 1;
1 1|1|two 2;zero 1;
3 1|0|dark 1;knight 1;two 2;zero 1;|{"title":"dark"}|{"kind":7,"text":"knight"}
9 8|0|dark 1;knight 1;two 2;zero 1;"#;

pub(crate) fn word(rt: &impl Abort, alloc: Global, text: &str) -> Word {
    Word::new(alloc, text).expect(rt, "memory")
}

pub(crate) fn stored_row(rt: &impl Abort, alloc: Global, external: &str, text: &str) -> StoreRow {
    let value = Value::from_str(alloc, text).expect(rt, "JSON");
    let document = Document::from_json(alloc, value).expect(rt, "a document");
    StoreRow {
        external: word(rt, alloc, external),
        document: DocumentText::of(alloc, &document).expect(rt, "memory"),
    }
}

// The store of a document that has all paths.
pub(crate) fn first_store(rt: &impl Abort, alloc: Global) -> DocStore {
    let mut store = DocStore::new(alloc).expect(rt, "memory");
    let mut rows = Vec::new(alloc);
    let row = stored_row(rt, alloc, "0", FIRST);
    rows.push(row).expect(rt, "memory");
    let admission = store.admit(alloc, rows.as_slice()).expect(rt, "admitted");
    let plan = store.prepare(rows, admission).expect(rt, "memory");
    let _ids = store.commit(plan);
    store
}

pub(crate) fn index_of(rt: &impl Abort, alloc: Global, store: &DocStore) -> RowIndex
    ensures uses { length store.now.content.paths ≡ 4 }
    ensures sound { IsSound store.now.content }
    ensures stands { StandsFor result (documents_of store.now.content.paths USES store.now.content.rows) }
{
    let _documents = store.len();
    assert!(rt; store.paths().len() == USES.len());
    let mut fetches = Steps::<u8>::new();
    index_of_all(alloc, store, &USES, &mut fetches).expect(rt, "memory")
}

pub(crate) fn read(
    rt: &impl Abort,
    alloc: Global,
    store: &DocStore,
    externals: &[Word],
) -> Vec<Stored>
    requires { IsSound store.now.content }
    ensures { AreRead result.items (named externals.now store.now.content.rows) }
{
    let mut fetches = Steps::<u8>::new();
    read_named(alloc, store, externals, &mut fetches).expect(rt, "memory")
}

fn add_paths(rt: &impl Abort, paths: &[Word], all: &mut Vec<Word>)
    ensures { all.new.items ≡ all.old.items ++ paths.now }
{
    for path in paths {
        let path = path.clone().expect(rt, "memory");
        all.push(path).expect(rt, "memory");
    }
}

// The paths of a store.
pub(crate) fn paths(rt: &impl Abort, alloc: Global, store: &DocStore) -> Vec<Word>
    ensures { result.items ≡ store.now.content.paths }
{
    let mut all = Vec::new(alloc);
    add_paths(rt, store.paths(), &mut all);
    all
}

// Two documents come. Gives the changed index, and how many documents were read.
fn put(
    rt: &impl Abort,
    alloc: Global,
    store: &mut DocStore,
    first: StoreRow,
    second: StoreRow,
) -> (RowIndex, usize) {
    let mut index = index_of(rt, alloc, store);
    let externals = [
        first.external.clone().expect(rt, "memory"),
        second.external.clone().expect(rt, "memory"),
    ];
    let replaced = read(rt, alloc, store, &externals);
    let mut rows = Vec::new(alloc);
    rows.push(first).expect(rt, "memory");
    rows.push(second).expect(rt, "memory");
    let admission = store.admit(alloc, rows.as_slice()).expect(rt, "admitted");
    let paths = paths(rt, alloc, store);
    store_documents(
        alloc,
        store,
        &mut index,
        rows,
        admission,
        replaced.as_slice(),
        paths.as_slice(),
        &USES,
    )
    .expect(rt, "memory");
    (index, replaced.len())
}

// Documents go. Gives the changed index, and how many documents were read.
fn remove(
    rt: &impl Abort,
    alloc: Global,
    store: &mut DocStore,
    externals: &[Word],
) -> (RowIndex, usize) {
    let mut index = index_of(rt, alloc, store);
    let removed = read(rt, alloc, store, externals);
    remove_documents(
        alloc,
        store,
        &mut index,
        externals,
        removed.as_slice(),
        &USES,
    )
    .expect(rt, "memory");
    (index, removed.len())
}

// How often each word stands in an index.
pub(crate) fn words(rt: &impl Abort, alloc: Global, index: &RowIndex) -> String {
    let mut text = String::new(alloc);
    for (word, list) in index.places().words_from(Bound::Unbounded) {
        write!(text, "{} {};", word.as_str(), list.pages().len()).expect(rt, "memory");
    }
    text
}

fn tell_ids(rt: &impl Abort, ids: &DocSet, text: &mut String) {
    for id in ids.iter() {
        write!(text, " {}", id.0).expect(rt, "memory");
    }
    text.push(';').expect(rt, "memory");
}

// Where each word stands.
fn tell_places(rt: &impl Abort, index: &RowIndex, text: &mut String) {
    for (word, list) in index.places().words_from(Bound::Unbounded) {
        text.push_str(word.as_str()).expect(rt, "memory");
        for entry in list.pages().iter() {
            write!(text, " {entry}").expect(rt, "memory");
        }
    }
}

// Which documents have each length of a path, each mark and each value there.
fn tell_path(rt: &impl Abort, alloc: Global, index: &RowIndex, path: PathId, text: &mut String) {
    let (lengths, facets, ids) = (index.lengths(), index.facets(), index.ids());
    for length in 0..4 {
        let docs = lengths
            .documents(alloc, path, length, ids)
            .expect(rt, "memory");
        tell_ids(rt, &docs, text);
    }
    for kind in [MarkKind::Exists, MarkKind::Null, MarkKind::Empty] {
        let docs = facets.marked(alloc, path, kind, ids).expect(rt, "memory");
        tell_ids(rt, &docs, text);
    }
    let number = FacetValue::Number(7);
    let docs = facets.equal(alloc, path, &number, ids).expect(rt, "memory");
    tell_ids(rt, &docs, text);
    for name in ["a", "", "dark", "last", "two two", "zero"] {
        let value = FacetValue::Text(word(rt, alloc, name));
        let docs = facets.equal(alloc, path, &value, ids).expect(rt, "memory");
        tell_ids(rt, &docs, text);
    }
}

// What an index answers.
fn told(rt: &impl Abort, alloc: Global, index: &RowIndex) -> String {
    let mut text = String::new(alloc);
    tell_places(rt, index, &mut text);
    tell_ids(rt, index.ids(), &mut text);
    for path in 0..4 {
        tell_path(rt, alloc, index, PathId(path), &mut text);
    }
    text
}

// A change is made, and then the index answers as one that is built afresh.
fn check_change(rt: &impl Abort, alloc: Global, store: &mut DocStore, row: &str) {
    let mut parts = row.split('|');
    let externals = parts.next().unwrap_or("");
    let (first, second) = externals.split_once(' ').unwrap_or(("", ""));
    let wanted = parts.next().unwrap_or("").parse::<usize>().ok();
    let standing = parts.next().unwrap_or("");
    let (index, read) = match (parts.next(), parts.next()) {
        (Some(one), Some(other)) => {
            let first = stored_row(rt, alloc, first, one);
            let second = stored_row(rt, alloc, second, other);
            put(rt, alloc, store, first, second)
        }
        _ => {
            let externals = [word(rt, alloc, first), word(rt, alloc, second)];
            remove(rt, alloc, store, &externals)
        }
    };
    assert!(rt; Some(read) == wanted, "{row}: {read}");
    let found = words(rt, alloc, &index);
    assert!(rt; found.as_str() == standing, "{row}: {found}");
    let fresh = index_of(rt, alloc, store);
    let (found, wanted) = (told(rt, alloc, &index), told(rt, alloc, &fresh));
    assert!(rt; found.as_str() == wanted.as_str(), "{row}: {found}");
}

#[test]
fn a_changed_index_is_one_built_afresh(rt: HostRuntime) {
    let alloc = rt.alloc();
    let mut store = first_store(&rt, alloc);
    for row in CHANGES.lines() {
        check_change(&rt, alloc, &mut store, row);
    }
    let mut index = index_of(&rt, alloc, &store);
    clear_documents(alloc, &mut store, &mut index);
    assert!(rt; store.len() == 0 && index.ids().len() == 0);
}

// What searches see of the first document: the paths and words of its texts, and the paths and spellings of its values.
#[test]
fn a_text_is_seen_by_its_paths(rt: HostRuntime) {
    let alloc = rt.alloc();
    let row = stored_row(&rt, alloc, "0", FIRST);
    let paths = [
        word(&rt, alloc, "kind"),
        word(&rt, alloc, "note"),
        word(&rt, alloc, "text"),
        word(&rt, alloc, "title"),
    ];
    let rows = rows_in(alloc, &row.document, &paths, &USES).expect(&rt, "memory");
    let mut text = String::new(alloc);
    for place in &rows.places {
        write!(text, "{} {};", place.path.0, place.word.as_str()).expect(&rt, "memory");
    }
    for leaf in &rows.leaves {
        write!(text, "{} {};", leaf.path.0, leaf.shown.as_str()).expect(&rt, "memory");
    }
    assert!(rt; text.as_str() == "2 dark;3 dark;0 a;3 Dark;", "{text}");
}
