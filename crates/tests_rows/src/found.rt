ghost use Rattle.std.specs.Prelude.{◌≡◌};
ghost use Rattle.doc_search.specs.Ranked.{RankedBelow};

use crate::stored::{USES, first_store, index_of, stored_row, word};
use bucket_sort::{BucketLog, SilentLog};
use doc_rows::PathUse;
use doc_search::{AskedCounts, DocumentsFound, IndexedDocuments, Search, search_documents};
use doc_store::DocStore;
use facet_counts::FacetPath;
use filter_tree::{Filter, Test};
use query_graph::{build_graph, items};
use rule_buckets::HitWindow;
use search_base::{PathId, Rule, Steps, Strategy};
use std::alloc::Global;
use std::process::Abort;
use synonym_terms::SynonymTable;

// Documents that come after one that has the word `dark` in its title and its text, and `a` for its kind.
const DOCUMENTS: &str = r#"1|{"kind":["A",7],"text":"dark knight","title":"One"}
2|{"kind":7,"title":"Knight"}
3|{"note":"dark"}"#;

// What a search asks for; the least number that a kind is to have, or after `!` that it is not to have, or a value after
// `=`, or none; from which hit on and for how many; its hits, the best first; how many documents match; and of each value
// of a kind its text, how it is spelled and how many of these documents have it.
const SEARCHES: &str = "dark||0 9|0 1|2|7 7 1;a a 2;
dark||1 9|1|2|7 7 1;a a 2;
knight||0 9|2 1|2|7 7 2;a A 1;
knight||0 1|2|2|7 7 2;a A 1;
||0 9|0 1 2 3|4|7 7 2;a a 2;
gotham||0 9||0|";

// Documents whose kind is a year, and searches that count years in all that pass and match, beyond the asked hits.
const YEARS: &str = r#"1|{"kind":2008,"title":"the dark knight"}
2|{"kind":2012,"title":"dark knight rises"}
3|{"kind":1999,"title":"knight"}
4|{"kind":2002,"title":"darkness"}"#;

const SEARCHES_OF_YEARS: &str = "knight dark||0 1|1|3|1999 1999 1;2008 2008 1;2012 2012 1;
knight dark|2000|0 1|1|2|2008 2008 1;2012 2012 1;
|2002|1 1|2|3|2002 2002 1;2008 2008 1;2012 2012 1;";

// Documents whose kind is a number far out, or several values, and searches with ranges and others beside words.
const NUMBERS: &str = r#"1|{"kind":[-9223372036854775808,5],"title":"dark knight"}
2|{"kind":18446744073709551615,"title":"knight"}
3|{"kind":[-1,"b"],"title":"dark"}"#;

const SEARCHES_OF_NUMBERS: &str = "dark|0|0 9|1|1|-9223372036854775808 -9223372036854775808 1;5 5 1;
dark|-1|0 9|1 3|2|-1 -1 1;-9223372036854775808 -9223372036854775808 1;5 5 1;b b 1;
dark|!0|0 9|0 3|2|-1 -1 1;a a 1;b b 1;
dark|=b|0 9|3|1|-1 -1 1;b b 1;
knight|6|0 9|2|1|18446744073709551615 18446744073709551615 1;
knight|=a|0 9||0|
|6|0 9|2|1|18446744073709551615 18446744073709551615 1;";

fn uses() -> [PathUse; 4]
    ensures is { result ≡ USES }
    ensures ranks { RankedBelow 65535 result }
{
    USES
}

// A document comes.
fn add(rt: &impl Abort, alloc: Global, store: &mut DocStore, line: &str) {
    let (external, text) = line.split_once('|').unwrap_or((line, ""));
    let mut rows = Vec::new(alloc);
    let row = stored_row(rt, alloc, external, text);
    rows.push(row).expect(rt, "memory");
    let admission = store.admit(alloc, rows.as_slice()).expect(rt, "admitted");
    let plan = store.prepare(rows, admission).expect(rt, "memory");
    let _ids = store.commit(plan);
}

// The documents of a kind that passes a test.
fn of_kind(rt: &impl Abort, alloc: Global, test: Test) -> Filter {
    Filter::Test {
        attribute: word(rt, alloc, "kind"),
        test,
    }
}

// The documents of a kind that is not below a number, or is a value, or is below a number, or all.
fn filter(rt: &impl Abort, alloc: Global, asked: &str) -> Filter {
    if let Some(text) = asked.strip_prefix("=") {
        return of_kind(rt, alloc, Test::Equal(word(rt, alloc, text)));
    }
    let Ok(number) = asked.strip_prefix("!").unwrap_or(asked).parse::<i128>() else {
        return Filter::All;
    };
    let filter = of_kind(rt, alloc, Test::AtLeast(number));
    if asked.starts_with("!") {
        Filter::Not(Box::new(alloc, filter).expect(rt, "memory"))
    } else {
        filter
    }
}

fn found(
    rt: &impl Abort,
    alloc: Global,
    store: &DocStore,
    query: &str,
    least: &str,
    window: HitWindow,
) -> DocumentsFound {
    let index = index_of(rt, alloc, store);
    let filter = filter(rt, alloc, least);
    let uses = uses();
    let items = items(alloc, query, &[]).expect(rt, "memory");
    let table = SynonymTable::new(alloc);
    let graph = build_graph(alloc, &items, &table, Strategy::Last).expect(rt, "memory");
    let log = Box::new(alloc, SilentLog).expect(rt, "memory");
    let mut log: Box<dyn BucketLog> = log;
    let mut openings = Steps::<u8>::new();
    let mut asked = Vec::new(alloc);
    let kind = FacetPath {
        attribute: word(rt, alloc, "kind"),
        path: Some(PathId(0)),
    };
    asked.push(kind).expect(rt, "memory");
    let documents = IndexedDocuments::new(alloc, store, &index, &uses).expect(rt, "memory");
    let search = Search {
        query: &graph,
        filter: &filter,
        rules: &[Rule::Field],
        window,
        counts: AskedCounts {
            attributes: asked,
            most: 10,
        },
    };
    search_documents(alloc, &documents, search, &mut log, &mut openings).expect(rt, "memory")
}

fn told(rt: &impl Abort, alloc: Global, found: &DocumentsFound) -> String {
    let mut text = String::new(alloc);
    for (i, id) in found.hits.iter().enumerate() {
        let before = if i == 0 { "" } else { " " };
        write!(text, "{before}{}", id.0).expect(rt, "memory");
    }
    write!(text, "|{}|", found.total).expect(rt, "memory");
    for facet in &found.facets {
        for row in &facet.rows {
            let (value, shown) = (row.value.as_str(), row.shown.as_str());
            write!(text, "{value} {shown} {};", row.count).expect(rt, "memory");
        }
    }
    text
}

fn check_search(rt: &impl Abort, alloc: Global, store: &DocStore, line: &str) {
    let mut parts = line.splitn(4, '|');
    let query = parts.next().unwrap_or("");
    let least = parts.next().unwrap_or("");
    let window = parts.next().unwrap_or("");
    let wanted = parts.next().unwrap_or("");
    let (offset, limit) = window.split_once(' ').unwrap_or(("", ""));
    let offset = offset.parse::<u64>().ok().expect(rt, "a number");
    let limit = limit.parse::<u64>().ok().expect(rt, "a number");
    let window = HitWindow { offset, limit };
    let found = found(rt, alloc, store, query, least, window);
    let told = told(rt, alloc, &found);
    assert!(rt; told.as_str() == wanted, "{line}: {told}");
}

// Searches over these documents, which come after the first.
fn check_all(rt: &impl Abort, alloc: Global, documents: &str, searches: &str) {
    let mut store = first_store(rt, alloc);
    for line in documents.lines() {
        add(rt, alloc, &mut store, line);
    }
    for line in searches.lines() {
        check_search(rt, alloc, &store, line);
    }
}

#[test]
fn stored_documents_are_found_through_their_index(rt: HostRuntime) {
    check_all(&rt, rt.alloc(), DOCUMENTS, SEARCHES);
}

#[test]
fn values_are_counted_in_all_matches(rt: HostRuntime) {
    check_all(&rt, rt.alloc(), YEARS, SEARCHES_OF_YEARS);
}

#[test]
fn numbers_are_asked_of_what_matches(rt: HostRuntime) {
    check_all(&rt, rt.alloc(), NUMBERS, SEARCHES_OF_NUMBERS);
}
