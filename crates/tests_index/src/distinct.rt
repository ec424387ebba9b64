use crate::checks::{check_text, word};
use crate::index::{FILMS, Fetch, Opened, call, change, filled};
use bucket_sort::{BucketLog, RecordLog};
use document_changes::ChangeKind;
use index_core::IndexCore;
use search_base::Steps;
use search_result::Hit;
use serde_json::Value;
use std::alloc::Global;
use std::process::Abort;

// A patch of settings, the text that is searched for, how many hits are asked for, and the ids of those of which no two
// have a genre in common, of how many matches.
const DISTINCT: [(&str, &str, u64, &str); 8] = [
    ("{}", "", 20, "1 3 of 4"),
    ("{}", "dark", 20, "2 4 3 of 4"),
    ("{}", "dark", 1, "2 of 4"),
    ("{}", "dark", 0, "of 4"),
    (r#"{"filterableAttributes":["genres"]}"#, "", 20, "1 3 of 4"),
    (
        r#"{"filterableAttributes":["genres"]}"#,
        "dark",
        20,
        "2 4 3 of 4",
    ),
    (r#"{"sortableAttributes":["genres"]}"#, "dark", 1, "2 of 4"),
    (
        r#"{"filterableAttributes":["title"]}"#,
        "dark",
        2,
        "2 4 of 4",
    ),
];

// The ids of hits, each one digit.
fn tell_hits(rt: &impl Abort, hits: &[Hit], told: &mut String) {
    for hit in hits {
        let text = hit.document.text();
        let (_, id) = text.split_once("\"id\":").expect(rt, "an id");
        let (id, _) = id.split_once(",").expect(rt, "a member behind it");
        write!(told, "{id} ").expect(rt, "memory");
    }
}

// What a search finds of which no two hits have a genre in common.
fn told_of(rt: &impl Abort, alloc: Global, index: &IndexCore, q: &str, limit: u64) -> String {
    let log = Box::new(alloc, RecordLog::new(alloc)).expect(rt, "memory");
    let mut log: Box<dyn BucketLog> = log;
    let mut call = call(rt, alloc, q, limit);
    call.distinct = Some(word(rt, alloc, "genres"));
    let found = index
        .search(
            alloc,
            &call,
            &mut log,
            &mut Steps::<Fetch>::new(),
            &mut Steps::<Opened>::new(),
        )
        .expect(rt, "hits");
    let mut told = String::new(alloc);
    tell_hits(rt, found.hits.as_slice(), &mut told);
    write!(told, "of {}", found.total).expect(rt, "memory");
    told
}

#[test]
fn no_two_hits_have_a_value_in_common(rt: HostRuntime) {
    let alloc = rt.alloc();
    for (patch, q, limit, wanted) in &DISTINCT {
        let mut index = filled(&rt, alloc, FILMS);
        let members = Value::from_str(alloc, patch).expect(&rt, "JSON");
        change(&rt, alloc, &mut index, ChangeKind::Patch { members });
        let told = told_of(&rt, alloc, &index, q, *limit);
        check_text(&rt, told.as_str(), wanted, wanted);
    }
}
