use crate::checks::{check_text, word};
use crate::index::{FILMS, change, filled};
use document_changes::ChangeKind;
use facet_counts::CountRow;
use filter_tree::{Filter, Test};
use index_core::IndexCore;
use search_base::{Fault, Strategy};
use search_call::FacetCall;
use search_settings::{SearchFault, SearchRefusal};
use serde_json::Value;
use std::alloc::Global;
use std::process::Abort;

const SETTINGS: &str =
    r#"{"filterableAttributes":["genres","year","studio"],"faceting":{"maxValuesPerFacet":3}}"#;

// The attribute, the text as which values begin, the text that is searched for, the year after which films came out,
// and the values that are found, each as its spelling and the number of films.
const VALUES: [(&str, Option<&str>, &str, i128, &str); 10] = [
    ("genres", None, "", 0, "Action 2, Drama 2, "),
    ("genres", Some("DR"), "", 0, "Drama 2, "),
    ("genres", Some(""), "", 2005, "Action 2, Drama 1, "),
    ("genres", Some("dr"), "rises", 0, ""),
    ("genres", Some("dr"), "darkness", 0, "drama 1, "),
    ("genres", Some("\u{c1}c"), "dark knight", 2010, "Action 1, "),
    ("year", Some("20"), "", 0, "2002 1, 2008 1, 2012 1, "),
    ("year", None, "", 0, "1999 1, 2002 1, 2008 1, "),
    ("studio", None, "", 0, ""),
    ("title", None, "", 0, "title is no facet"),
];

// A search of the values of films that came out after a year.
fn facet_call(rt: &impl Abort, alloc: Global, name: &str, q: &str, year: i128) -> FacetCall {
    FacetCall {
        name: word(rt, alloc, name),
        query: None,
        q: word(rt, alloc, q),
        filter: Filter::Test {
            attribute: word(rt, alloc, "year"),
            test: Test::Above(year),
        },
        strategy: Strategy::Last,
    }
}

fn tell_values(rt: &impl Abort, rows: &[CountRow], told: &mut String) {
    for row in rows {
        write!(told, "{} {}, ", row.shown.as_str(), row.count).expect(rt, "memory");
    }
}

// What a search of values finds, or why it finds none.
fn told_of(rt: &impl Abort, alloc: Global, found: &Result<Vec<CountRow>, SearchFault>) -> String {
    let mut told = String::new(alloc);
    match found {
        Ok(rows) => tell_values(rt, rows.as_slice(), &mut told),
        Err(Fault::Refused(SearchRefusal::NotFacet { attribute })) => {
            write!(told, "{} is no facet", attribute.as_str()).expect(rt, "memory");
        }
        Err(_) => write!(told, "no values").expect(rt, "memory"),
    }
    told
}

// The films in an index that may be filtered by some attributes.
fn films(rt: &impl Abort, alloc: Global) -> IndexCore {
    let mut index = filled(rt, alloc, FILMS);
    let members = Value::from_str(alloc, SETTINGS).expect(rt, "JSON");
    change(rt, alloc, &mut index, ChangeKind::Patch { members });
    index
}

#[test]
fn values_of_an_attribute_are_searched(rt: HostRuntime) {
    let alloc = rt.alloc();
    let index = films(&rt, alloc);
    for (name, query, q, year, wanted) in &VALUES {
        let mut call = facet_call(&rt, alloc, name, q, *year);
        if let Some(text) = query {
            call.query = Some(word(&rt, alloc, text));
        }
        let told = told_of(&rt, alloc, &index.facet_search(alloc, &call));
        check_text(&rt, told.as_str(), wanted, wanted);
    }
}
