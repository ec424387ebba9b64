ghost use Rattle.document_changes.specs.Changes.{kind_view};
ghost use Rattle.index_changes.specs.Keyed.{HasKey};

use crate::checks::{check, check_text, word};
use bucket_sort::{BucketLog, Opening, RecordLog};
use doc_values::{DocumentText, documents_of};
use document_changes::{ChangeKind, Documents};
use filter_tree::Filter;
use index_core::IndexCore;
use search_base::{CostKey, Steps, Strategy};
use search_call::{FormatCall, SearchCall, Window};
use serde_json::Value;
use std::alloc::Global;
use std::process::Abort;

// The marks of the steps that these tests count.
pub(crate) struct Fetch;

pub(crate) struct Opened;

pub(crate) const FILMS: &str =
    r#"[{"id":1,"title":"The Dark Knight","year":2008,"genres":["Action","Drama"]},
{"id":2,"title":"Dark Knight Rises","year":2012,"genres":["Action"]},
{"id":3,"title":"Knight of the Dark","year":1999},
{"id":4,"title":"Darkness","year":2002,"genres":["drama"]}]"#;

pub(crate) fn documents(rt: &impl Abort, alloc: Global, body: &str) -> Vec<DocumentText> {
    let value = Value::from_str(alloc, body).expect(rt, "JSON");
    let mut texts = Vec::new(alloc);
    for document in documents_of(alloc, value).expect(rt, "documents") {
        let text = DocumentText::of(alloc, &document).expect(rt, "memory");
        texts.push(text).expect(rt, "memory");
    }
    texts
}

pub(crate) fn change(rt: &impl Abort, alloc: Global, index: &mut IndexCore, kind: ChangeKind)
    requires { HasKey (kind_view kind) }
{
    let mut fetches = Steps::<Fetch>::new();
    let plan = index.plan(alloc, kind).expect(rt, "a plan");
    index.apply(alloc, plan, &mut fetches).expect(rt, "memory");
}

// An index with the documents of a body.
pub(crate) fn filled(rt: &impl Abort, alloc: Global, body: &str) -> IndexCore {
    let mut index = IndexCore::new(alloc).expect(rt, "memory");
    let documents = Documents::unread(documents(rt, alloc, body));
    let key = None;
    change(
        rt,
        alloc,
        &mut index,
        ChangeKind::Replace { key, documents },
    );
    index
}

// Texts as they are stored.
fn no_formats(rt: &impl Abort, alloc: Global) -> FormatCall {
    FormatCall {
        highlight: None,
        crop: None,
        marker: word(rt, alloc, ""),
        pre: word(rt, alloc, ""),
        post: word(rt, alloc, ""),
        positions: false,
    }
}

pub(crate) fn call(rt: &impl Abort, alloc: Global, q: &str, limit: u64) -> SearchCall {
    SearchCall {
        q: word(rt, alloc, q),
        window: Window::Slice { offset: 0, limit },
        filter: Filter::All,
        facets: None,
        sort: Vec::new(alloc),
        strategy: Strategy::Last,
        costs: false,
        retrieve: Vec::new(alloc),
        formats: no_formats(rt, alloc),
        distinct: None,
    }
}

fn tell_opening(rt: &impl Abort, opening: &Opening, told: &mut String) {
    write!(told, "({},", opening.level).expect(rt, "memory");
    if let CostKey::Number(number) = opening.key {
        write!(told, "{number}").expect(rt, "memory");
    }
    write!(told, ",{}) ", opening.size).expect(rt, "memory");
}

// What a log is told of the buckets that a search opens: of each its level, its key and its size.
fn check_openings(
    rt: &impl Abort,
    alloc: Global,
    index: &IndexCore,
    q: &str,
    limit: u64,
    wanted: &str,
) {
    let log = Box::new(alloc, RecordLog::new(alloc)).expect(rt, "memory");
    let mut log: Box<dyn BucketLog> = log;
    let mut openings = Steps::<Opened>::new();
    let call = call(rt, alloc, q, limit);
    let found = index.search(
        alloc,
        &call,
        &mut log,
        &mut Steps::<Fetch>::new(),
        &mut openings,
    );
    check(rt, found.is_ok(), wanted);
    let mut told = String::new(alloc);
    for opening in log.heard().unwrap_or(&[]) {
        tell_opening(rt, opening, &mut told);
    }
    check_text(rt, told.as_str(), wanted, q);
}

const OPENINGS: [(&str, u64, &str); 3] = [
    (
        "dark",
        20,
        "(1,0,4) (2,0,4) (3,2,4) (4,0,2) (5,1,1) (5,2,1) (4,1,1) (4,3,1) ",
    ),
    ("dark", 1, "(1,0,4) (2,0,4) (3,2,4) (4,0,2) (5,1,1) "),
    ("dark", 0, ""),
];

#[test]
fn a_log_is_told_what_a_search_opens(rt: HostRuntime) {
    let alloc = rt.alloc();
    let index = filled(&rt, alloc, FILMS);
    for (q, limit, wanted) in &OPENINGS {
        check_openings(&rt, alloc, &index, q, *limit, wanted);
    }
}
