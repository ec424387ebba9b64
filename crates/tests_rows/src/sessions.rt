ghost use Rattle.std.specs.Prelude.{◌≡◌, ◌<◌};
ghost use Rattle.doc_store.specs.Store.{externals};
ghost use Rattle.row_index.specs.Standing.{StandsFor};
ghost use Rattle.doc_index.specs.Documents.{documents_of};

use crate::same::is_theirs;
use crate::stored::{USES, first_store, index_of, paths, read, stored_row, word, words};
use doc_index::{clear_documents, remove_documents, store_documents};
use doc_store::{DocStore, StoreRow};
use row_index::RowIndex;
use search_base::Word;
use std::alloc::Global;
use std::process::Abort;

// What documents of sessions are made of: their external ids, and then their kinds and the phrases of their text and
// title.
const NAMES: [&str; 8] = ["0", "1", "2", "3", "4", "5", "6", "7"];

const KINDS: [&str; 8] = [
    "7",
    "12",
    "null",
    "[]",
    r#""""#,
    r#""a""#,
    r#"["A",7]"#,
    r#""dark""#,
];

const PHRASES: [&str; 8] = [
    "",
    "dark",
    "Knight",
    "dark knight",
    "knight dark knight",
    "rises",
    "the dark rises",
    "zero the last",
];

// Documents that come after the first, and go, and come again.
const STOCK: &str = r#"1|{"kind":["a",7],"text":"dark knight","title":"One"}
2|{"kind":null,"note":"dark","title":"Two two"}
3|{"kind":12,"text":"last dark last","title":"Knight"}
4|{"kind":"","text":""}"#;

// How often each word stands in the index of the first document.
const FIRST_WORDS: &str = "dark 2;";

// How often it stands there once these have come.
const STOCK_WORDS: &str = "dark 4;knight 2;last 2;one 1;two 2;";

// A number below 16, the next of a linear congruential generator.
fn draw(seed: &mut u64) -> usize
    ensures { result < 16 }
{
    *seed = seed
        .wrapping_mul(6_364_136_223_846_793_005)
        .wrapping_add(1_442_695_040_888_963_407);
    ((*seed >> 33) % 16) as usize
}

fn pick<'a>(seed: &mut u64, stock: &[&'a str; 8]) -> &'a str {
    stock[draw(seed) / 2]
}

fn any_row(rt: &impl Abort, alloc: Global, seed: &mut u64) -> StoreRow {
    let external = pick(seed, &NAMES);
    let (kind, text, title) = (
        pick(seed, &KINDS),
        pick(seed, &PHRASES),
        pick(seed, &PHRASES),
    );
    let mut json = String::new(alloc);
    write!(
        json,
        r#"{{"kind":{kind},"text":"{text}","title":"{title}"}}"#
    )
    .expect(rt, "memory");
    stored_row(rt, alloc, external, json.as_str())
}

fn any_rows(rt: &impl Abort, alloc: Global, seed: &mut u64, many: usize) -> Vec<StoreRow> {
    let mut rows = Vec::new(alloc);
    for _ in 0..many {
        let row = any_row(rt, alloc, seed);
        rows.push(row).expect(rt, "memory");
    }
    rows
}

fn externals_of(rt: &impl Abort, alloc: Global, rows: &[StoreRow]) -> Vec<Word>
    ensures { result.items ≡ externals rows.now }
{
    let mut all = Vec::new(alloc);
    for row in rows {
        let external = row.external.clone().expect(rt, "memory");
        all.push(external).expect(rt, "memory");
    }
    all
}

// Documents come. They have no new paths.
fn put(
    rt: &impl Abort,
    alloc: Global,
    store: &mut DocStore,
    index: &mut RowIndex,
    rows: Vec<StoreRow>,
)
    requires { StandsFor index.old (documents_of store.old.content.paths USES store.old.content.rows) }
    ensures { StandsFor index.new (documents_of store.new.content.paths USES store.new.content.rows) }
{
    let _documents = store.len();
    let externals = externals_of(rt, alloc, rows.as_slice());
    let replaced = read(rt, alloc, store, externals.as_slice());
    let paths = paths(rt, alloc, store);
    let admission = store.admit(alloc, rows.as_slice()).expect(rt, "admitted");
    assert!(rt; paths.len() == USES.len() && admission.added().is_empty());
    store_documents(
        alloc,
        store,
        index,
        rows,
        admission,
        replaced.as_slice(),
        paths.as_slice(),
        &USES,
    )
    .expect(rt, "memory");
}

// Documents go.
fn remove(
    rt: &impl Abort,
    alloc: Global,
    store: &mut DocStore,
    index: &mut RowIndex,
    externals: &[Word],
)
    requires { StandsFor index.old (documents_of store.old.content.paths USES store.old.content.rows) }
    ensures { StandsFor index.new (documents_of store.new.content.paths USES store.new.content.rows) }
{
    let _documents = store.len();
    assert!(rt; store.paths().len() == USES.len());
    let removed = read(rt, alloc, store, externals);
    let removed = removed.as_slice();
    remove_documents(alloc, store, index, externals, removed, &USES).expect(rt, "memory");
}

// One to three documents come, two go if they are there, or now and then all.
fn change(
    rt: &impl Abort,
    alloc: Global,
    store: &mut DocStore,
    index: &mut RowIndex,
    seed: &mut u64,
)
    requires { StandsFor index.old (documents_of store.old.content.paths USES store.old.content.rows) }
    ensures { StandsFor index.new (documents_of store.new.content.paths USES store.new.content.rows) }
{
    let drawn = draw(seed);
    if drawn == 0 {
        let _documents = store.len();
        clear_documents(alloc, store, index);
    } else if drawn < 5 {
        let externals = [
            word(rt, alloc, pick(seed, &NAMES)),
            word(rt, alloc, pick(seed, &NAMES)),
        ];
        remove(rt, alloc, store, index, &externals);
    } else {
        let rows = any_rows(rt, alloc, seed, drawn % 3 + 1);
        put(rt, alloc, store, index, rows);
    }
}

fn check_session(rt: &impl Abort, alloc: Global, number: u64) {
    let mut seed = number;
    let mut store = first_store(rt, alloc);
    let mut index = index_of(rt, alloc, &store);
    for _change in 0..6 {
        change(rt, alloc, &mut store, &mut index, &mut seed);
    }
    let theirs = is_theirs(rt, alloc, &store, &index);
    assert!(rt; theirs, "session {number}");
}

#[test]
fn after_each_session_an_index_is_that_of_its_documents(rt: HostRuntime) {
    for number in 0..50 {
        check_session(&rt, rt.alloc(), number);
    }
}

fn stock(rt: &impl Abort, alloc: Global) -> Vec<StoreRow> {
    let mut rows = Vec::new(alloc);
    for line in STOCK.lines() {
        let (external, text) = line.split_once('|').unwrap_or((line, ""));
        let row = stored_row(rt, alloc, external, text);
        rows.push(row).expect(rt, "memory");
    }
    rows
}

// The index is that of the documents, and has these words.
fn check_words(rt: &impl Abort, alloc: Global, store: &DocStore, index: &RowIndex, wanted: &str) {
    let found = words(rt, alloc, index);
    assert!(rt; found.as_str() == wanted, "{found}");
    let theirs = is_theirs(rt, alloc, store, index);
    assert!(rt; theirs, "{wanted}");
}

#[test]
fn documents_go_and_come_again(rt: HostRuntime) {
    let alloc = rt.alloc();
    let mut store = first_store(&rt, alloc);
    let mut index = index_of(&rt, alloc, &store);
    let rows = stock(&rt, alloc);
    let externals = externals_of(&rt, alloc, rows.as_slice());
    put(&rt, alloc, &mut store, &mut index, rows);
    check_words(&rt, alloc, &store, &index, STOCK_WORDS);
    remove(&rt, alloc, &mut store, &mut index, externals.as_slice());
    check_words(&rt, alloc, &store, &index, FIRST_WORDS);
    let rows = stock(&rt, alloc);
    put(&rt, alloc, &mut store, &mut index, rows);
    check_words(&rt, alloc, &store, &index, STOCK_WORDS);
}
