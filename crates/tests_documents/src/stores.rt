ghost use Rattle.std.specs.Prelude.{◌≡◌};

use crate::checks::{check, check_text, word};
use doc_store::{Admission, DocStore, StoreFault, StoreRefusal, StoreRow};
use doc_values::{Document, DocumentText, documents_of};
use path_registry::MetPaths;
use search_base::{DocId, Fault, PathId, Steps};
use serde_json::Value;
use std::alloc::Global;
use std::process::Abort;

fn documents(rt: &impl Abort, alloc: Global, body: &str) -> Vec<Document> {
    let value = Value::from_str(alloc, body).expect(rt, "JSON");
    documents_of(alloc, value).expect(rt, "documents")
}

fn row(rt: &impl Abort, alloc: Global, external: &str, document: &Document) -> StoreRow
    ensures { result.document ≡ document.now }
{
    StoreRow {
        external: word(rt, alloc, external),
        document: DocumentText::of(alloc, document).expect(rt, "memory"),
    }
}

// The documents of a body, each under the external id at its place.
fn rows(rt: &impl Abort, alloc: Global, externals: &str, body: &str) -> Vec<StoreRow> {
    let documents = documents(rt, alloc, body);
    let mut rows = Vec::new(alloc);
    for (document, external) in documents.iter().zip(externals.split(' ')) {
        let row = row(rt, alloc, external, document);
        rows.push(row).expect(rt, "memory");
    }
    rows
}

// Stores documents, and gives the internal id of each and how many paths are new.
fn store_rows(
    rt: &impl Abort,
    alloc: Global,
    store: &mut DocStore,
    come: Vec<StoreRow>,
) -> (Vec<DocId>, usize) {
    let admission = store.admit(alloc, come.as_slice()).expect(rt, "admitted");
    let count = admission.ids().len();
    let added = admission.added().len();
    let plan = store.prepare(come, admission).expect(rt, "a plan");
    check(rt, store.staged().len() == count, "staged");
    let stored = store.commit(plan);
    check(rt, stored.len() == count, "stored");
    (stored, added)
}

// The internal ids that documents are stored under, with a blank behind each, and how many paths are new.
fn store_all(
    rt: &impl Abort,
    alloc: Global,
    store: &mut DocStore,
    externals: &str,
    body: &str,
) -> String {
    let rows = rows(rt, alloc, externals, body);
    let (stored, added) = store_rows(rt, alloc, store, rows);
    let mut text = ids_text(rt, alloc, &stored);
    write!(text, "+{added}").expect(rt, "memory");
    text
}

fn ids_text(rt: &impl Abort, alloc: Global, ids: &[DocId]) -> String {
    let mut text = String::new(alloc);
    for id in ids {
        write!(text, "{} ", id.0).expect(rt, "memory");
    }
    text
}

fn check_id(
    rt: &impl Abort,
    alloc: Global,
    store: &DocStore,
    external: &str,
    wanted: Option<DocId>,
) {
    let id = store.id_of(&word(rt, alloc, external));
    check(rt, id == wanted, external);
}

// What a store has next, how many documents it has, and how many paths.
fn check_counts(rt: &impl Abort, store: &DocStore, next: u32, documents: u64, paths: usize) {
    check(rt, store.next_id() == next, "the next id");
    check(rt, store.len() == documents, "documents");
    check(rt, store.paths().len() == paths, "paths");
}

fn new_store(rt: &impl Abort, alloc: Global) -> DocStore {
    DocStore::new(alloc).expect(rt, "memory")
}

// Of the ids 1, 2 and 3, how many are passed over, how many are listed at most, and which.
const LISTED: [(u64, u64, &str); 4] = [(0, 9, "1 2 3 "), (1, 1, "2 "), (0, 0, ""), (3, 9, "")];

fn check_listed(
    rt: &impl Abort,
    alloc: Global,
    store: &DocStore,
    offset: u64,
    limit: u64,
    wanted: &str,
) {
    let ids = store.ids(alloc, offset, limit).expect(rt, "memory");
    check_text(rt, &ids_text(rt, alloc, &ids), wanted, "ids");
}

#[test]
fn documents_come_and_go(rt: HostRuntime) {
    let alloc = rt.alloc();
    let mut store = new_store(&rt, alloc);
    let body = "[{\"id\":7,\"t\":1},{\"id\":\"a\"}]";
    let stored = store_all(&rt, alloc, &mut store, "7 a", body);
    check_text(&rt, &stored, "0 1 +2", "stored");
    check_id(&rt, alloc, &store, "a", Some(DocId(1)));
    check_id(&rt, alloc, &store, "b", None);
    check_counts(&rt, &store, 2, 2, 2);
    let removed = store.remove(DocId(0));
    check(&rt, removed, "removed");
    let removed = store.remove(DocId(0));
    check(&rt, !removed, "removed twice");
    check_id(&rt, alloc, &store, "7", None);
    check_counts(&rt, &store, 2, 1, 2);
    let stored = store_all(&rt, alloc, &mut store, "b c", "[{},{}]");
    check_text(&rt, &stored, "2 3 +0", "stored again");
    for (offset, limit, wanted) in &LISTED {
        check_listed(&rt, alloc, &store, *offset, *limit, wanted);
    }
}

fn check_fetched(rt: &impl Abort, store: &DocStore, id: DocId, wanted: Option<&str>) {
    let mut fetches = Steps::<u8>::new();
    let text = store.fetch(id, &mut fetches).map(|kept| kept.text());
    check(rt, text == wanted, "fetched");
}

// Documents that are staged are let go again.
fn stage_in_vain(rt: &impl Abort, alloc: Global, store: &mut DocStore) {
    let come = rows(rt, alloc, "a", "[{}]");
    let admission = store.admit(alloc, come.as_slice()).expect(rt, "admitted");
    let _plan = store.prepare(come, admission).expect(rt, "a plan");
    store.unstage();
    check(rt, store.staged().is_empty(), "staged");
}

#[test]
fn later_documents_replace_earlier_ones(rt: HostRuntime) {
    let alloc = rt.alloc();
    let mut store = new_store(&rt, alloc);
    let body = "[{\"old\":1},{\"b\":2},{\"new\":{\"old\":3}}]";
    let stored = store_all(&rt, alloc, &mut store, "1 2 1", body);
    check_text(&rt, &stored, "0 1 0 +4", "stored");
    check_counts(&rt, &store, 2, 2, 4);
    let first = Some("{\"new\":{\"old\":3}}");
    check_fetched(&rt, &store, DocId(0), first);
    check_fetched(&rt, &store, DocId(2), None);
    check(&rt, store.holds(DocId(1)), "1 is held");
    stage_in_vain(&rt, alloc, &mut store);
    check_counts(&rt, &store, 2, 2, 4);
    check(&rt, !store.holds(DocId(2)), "2 is not held");
    let stored = store_all(&rt, alloc, &mut store, "b", "[{}]");
    check_text(&rt, &stored, "2 +0", "stored again");
    let external = store.external(DocId(2)).expect(&rt, "a document");
    check_text(&rt, external.as_str(), "b", "external");
}

// External ids of few bytes and of more, some of which differ in the last byte alone.
const EXTERNALS: &str = "7 8 é è 0000007 00000007 00000008 日本ab 日本ac 000000078 000000079 日本語 日本話";

// External ids that are like those.
const ABSENT: [&str; 8] = [
    "",
    "0",
    "ê",
    "0000000",
    "00000009",
    "日本ad",
    "000000077",
    "日本",
];

#[test]
fn short_and_long_external_ids_are_told_apart(rt: HostRuntime) {
    let alloc = rt.alloc();
    let mut store = new_store(&rt, alloc);
    let body = "[{},{},{},{},{},{},{},{},{},{},{},{},{}]";
    let stored = store_all(&rt, alloc, &mut store, EXTERNALS, body);
    check_text(&rt, &stored, "0 1 2 3 4 5 6 7 8 9 10 11 12 +0", "stored");
    for (number, external) in EXTERNALS.split(' ').enumerate() {
        let id = DocId(number as u32);
        check_id(&rt, alloc, &store, external, Some(id));
    }
    for external in &ABSENT {
        check_id(&rt, alloc, &store, external, None);
    }
    for (number, external) in EXTERNALS.split(' ').enumerate() {
        let id = DocId(number as u32);
        let removed = store.remove(id);
        check(&rt, removed, external);
        check_id(&rt, alloc, &store, external, None);
    }
    check_counts(&rt, &store, 13, 0, 0);
}

#[test]
fn the_empty_name_is_a_name(rt: HostRuntime) {
    let alloc = rt.alloc();
    let mut store = new_store(&rt, alloc);
    let stored = store_all(&rt, alloc, &mut store, "", "[{\"\":1}]");
    check_text(&rt, &stored, "0 +1", "stored");
    check_id(&rt, alloc, &store, "", Some(DocId(0)));
    let path = store.path_id(&word(&rt, alloc, ""));
    check(&rt, path == Some(PathId(0)), "the empty path");
    let stored = store_all(&rt, alloc, &mut store, "a", "[{\"\":2}]");
    check_text(&rt, &stored, "1 +0", "stored again");
}

// A body of one document with that many members.
fn wide(rt: &impl Abort, alloc: Global, members: u32) -> String {
    let mut body = String::from_str(alloc, "[{\"p\":0").expect(rt, "memory");
    for number in 1..members {
        write!(body, ",\"p{number}\":0").expect(rt, "memory");
    }
    body.push_str("}]").expect(rt, "memory");
    body
}

fn spent(admitted: &Result<Admission, StoreFault>) -> &'static str {
    match admitted {
        Err(Fault::Refused(StoreRefusal::IdsSpent)) => "ids",
        Err(Fault::Refused(StoreRefusal::PathsSpent)) => "paths",
        _ => "none",
    }
}

fn check_spent(rt: &impl Abort, alloc: Global, store: &DocStore, body: &str, wanted: &str) {
    let rows = rows(rt, alloc, "w", body);
    let admitted = store.admit(alloc, rows.as_slice());
    check_text(rt, spent(&admitted), wanted, "spent");
}

#[test]
fn ids_and_paths_end(rt: HostRuntime) {
    let alloc = rt.alloc();
    let none = Vec::new(alloc);
    let full = DocStore::restore(alloc, Vec::new(alloc), 1_000_000, none).expect(&rt, "memory");
    check_spent(&rt, alloc, &full, "[{}]", "ids");
    check_counts(&rt, &full, 1_000_000, 0, 0);
    let mut store = new_store(&rt, alloc);
    check_spent(&rt, alloc, &store, &wide(&rt, alloc, 1_001), "paths");
    check_counts(&rt, &store, 0, 0, 0);
    let stored = store_all(&rt, alloc, &mut store, "w", &wide(&rt, alloc, 1_000));
    check_text(&rt, &stored, "0 +1000", "stored");
}

// What a store admits of one document, the paths of which are noted first.
fn noted(
    rt: &impl Abort,
    alloc: Global,
    store: &DocStore,
    document: &Document,
) -> Result<Admission, StoreFault> {
    let mut admitting = store.start_admitting(alloc);
    let mut new = admitting.new_paths(alloc);
    store.note(alloc, &admitting, document, &mut new)?;
    let rows = [row(rt, alloc, "w", document)];
    store.admit_noted(&mut admitting, &rows, new)?;
    Ok(admitting.finish())
}

// The ids and the paths of an admission, or why there is none.
fn admission_text(
    rt: &impl Abort,
    alloc: Global,
    admitted: &Result<Admission, StoreFault>,
) -> String {
    let mut text = String::new(alloc);
    match admitted {
        Ok(admission) => {
            text = ids_text(rt, alloc, admission.ids());
            for path in admission.added() {
                write!(text, "{} ", path.as_str()).expect(rt, "memory");
            }
        }
        Err(_) => text.push_str(spent(admitted)).expect(rt, "memory"),
    }
    text
}

fn check_noted(rt: &impl Abort, alloc: Global, store: &DocStore, body: &str, wanted: &str) {
    for document in &documents(rt, alloc, body) {
        let admitted = noted(rt, alloc, store, document);
        check_text(rt, &admission_text(rt, alloc, &admitted), wanted, "noted");
    }
}

// Documents behind one that has the path `a`, each with its internal id and the paths that are new.
const NOTED: [(&str, &str); 3] = [
    ("[{}]", "1 "),
    (r#"[{"a":1}]"#, "1 "),
    (r#"[{"c":1,"a":{"b":2}}]"#, "1 a.b c "),
];

#[test]
fn paths_are_noted_before_documents_are_admitted(rt: HostRuntime) {
    let alloc = rt.alloc();
    let mut store = new_store(&rt, alloc);
    let stored = store_all(&rt, alloc, &mut store, "1", "[{\"a\":0}]");
    check_text(&rt, &stored, "0 +1", "stored");
    for (document, wanted) in &NOTED {
        check_noted(&rt, alloc, &store, document, wanted);
    }
    check_noted(&rt, alloc, &store, &wide(&rt, alloc, 1_000), "paths");
}

// What a store admits of documents, the paths of which are met before it is known to which store they come.
fn met(
    rt: &impl Abort,
    alloc: Global,
    store: &DocStore,
    documents: &[Document],
) -> Result<Admission, StoreFault> {
    let mut met = MetPaths::new(alloc);
    let mut rows = Vec::new(alloc);
    for document in documents {
        met.meet(alloc, document)?;
        let row = row(rt, alloc, "w", document);
        rows.push(row)?;
    }
    let Some(paths) = met.into_paths() else {
        return Err(Fault::Refused(StoreRefusal::PathsSpent));
    };
    let mut admitting = store.start_admitting(alloc);
    let new = store.note_met(alloc, &admitting, paths)?;
    store.admit_noted(&mut admitting, rows.as_slice(), new)?;
    Ok(admitting.finish())
}

// Documents that all have one external id are admitted as they are where each is read for itself.
fn check_met(rt: &impl Abort, alloc: Global, store: &DocStore, body: &str, wanted: &str) {
    let admitted = met(rt, alloc, store, &documents(rt, alloc, body));
    check_text(rt, &admission_text(rt, alloc, &admitted), wanted, "met");
    let rows = rows(rt, alloc, "w w", body);
    let admitted = store.admit(alloc, rows.as_slice());
    check_text(rt, &admission_text(rt, alloc, &admitted), wanted, "read");
}

// Documents behind one that has the path `a`, with the internal id of each and the paths that are new.
const MET: [(&str, &str); 3] = [
    ("[{},{}]", "1 1 "),
    (r#"[{"c":1,"a":0}]"#, "1 c "),
    (r#"[{"c":1,"a":0},{"b":2,"c":{"a":3}}]"#, "1 1 c b c.a "),
];

#[test]
fn paths_are_met_before_it_is_known_to_which_store(rt: HostRuntime) {
    let alloc = rt.alloc();
    let mut store = new_store(&rt, alloc);
    let stored = store_all(&rt, alloc, &mut store, "1", "[{\"a\":0}]");
    check_text(&rt, &stored, "0 +1", "stored");
    for (documents, wanted) in &MET {
        check_met(&rt, alloc, &store, documents, wanted);
    }
    check_met(&rt, alloc, &store, &wide(&rt, alloc, 1_000), "paths");
    check_met(&rt, alloc, &store, &wide(&rt, alloc, 1_001), "paths");
}
