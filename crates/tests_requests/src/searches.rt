use crate::calls::call_of;
use crate::checks::{add, check_text, string, times};
use filter_tree::Filter;
use request_calls::{Call, ReadCall};
use search_base::Word;
use search_call::{Criterion, SearchCall};
use std::alloc::Global;
use std::process::Abort;

const SEARCH: &str = "/indexes/m/search";

// A body, and the search that it asks for.
const BODIES: &str = r#"~|Slice { offset: 0, limit: 20 }|all|-||Last|false|*
{}~|Slice { offset: 0, limit: 20 }|all|-||Last|false|*
{"q":null,"offset":null,"limit":null,"page":null,"hitsPerPage":null}~|Slice { offset: 0, limit: 20 }|all|-||Last|false|*
{"filter":null,"facets":null,"sort":null,"showCosts":null}~|Slice { offset: 0, limit: 20 }|all|-||Last|false|*
{"attributesToRetrieve":null,"matchingStrategy":null}~|Slice { offset: 0, limit: 20 }|all|-||Last|false|*
{"q":"\u0022a b\u0022 c","offset":3}~"a b" c|Slice { offset: 3, limit: 20 }|all|-||Last|false|*
{"limit":18446744073709551615}~|Slice { offset: 0, limit: 18446744073709551615 }|all|-||Last|false|*
{"matchingStrategy":"all","showCosts":true}~|Slice { offset: 0, limit: 20 }|all|-||All|true|*
{"matchingStrategy":"last","showCosts":false}~|Slice { offset: 0, limit: 20 }|all|-||Last|false|*
{"page":0}~|Page { page: 0, per: 20 }|all|-||Last|false|*
{"hitsPerPage":0}~|Page { page: 1, per: 0 }|all|-||Last|false|*
{"page":3,"offset":7,"limit":9}~|Page { page: 3, per: 20 }|all|-||Last|false|*
{"hitsPerPage":7,"page":null}~|Page { page: 1, per: 7 }|all|-||Last|false|*
{"facets":[],"sort":[],"attributesToRetrieve":[]}~|Slice { offset: 0, limit: 20 }|all|[]||Last|false|
{"facets":["*","a.b"]}~|Slice { offset: 0, limit: 20 }|all|[*,a.b]||Last|false|*
{"sort":["a:b:asc","asc:desc"," :asc"]}~|Slice { offset: 0, limit: 20 }|all|-|a:b+asc- +|Last|false|*
{"attributesToRetrieve":["a","","a"]}~|Slice { offset: 0, limit: 20 }|all|-||Last|false|a,,a
{"filter":""}~|Slice { offset: 0, limit: 20 }|all|-||Last|false|*
{"filter":[" ",[],["\t"],"a EXISTS"]}~|Slice { offset: 0, limit: 20 }|test|-||Last|false|*
{"filter":[["a = 1","b = 1"],"c = 1"]}~|Slice { offset: 0, limit: 20 }|and|-||Last|false|*
{"filter":["NOT a = 1"]}~|Slice { offset: 0, limit: 20 }|not|-||Last|false|*"#;

// A query string, and the search that it asks for.
const QUERIES: &str = r#"~|Slice { offset: 0, limit: 20 }|all|-||Last|false|*
q=it%27s+a%20b~it's a b|Slice { offset: 0, limit: 20 }|all|-||Last|false|*
q=null&offset=007&limit=3~null|Slice { offset: 7, limit: 3 }|all|-||Last|false|*
limit=18446744073709551615~|Slice { offset: 0, limit: 18446744073709551615 }|all|-||Last|false|*
page=2~|Page { page: 2, per: 20 }|all|-||Last|false|*
hitsPerPage=0~|Page { page: 1, per: 0 }|all|-||Last|false|*
page=1&page=3&hitsPerPage=5&offset=9~|Page { page: 3, per: 5 }|all|-||Last|false|*
offset=x&offset=1~|Slice { offset: 1, limit: 20 }|all|-||Last|false|*
q=a&q=b&q~|Slice { offset: 0, limit: 20 }|all|-||Last|false|*
facets=&sort=&attributesToRetrieve=~|Slice { offset: 0, limit: 20 }|all|[]||Last|false|
facets=a%2Cb,&sort=a:asc,b:c:desc~|Slice { offset: 0, limit: 20 }|all|[a,b,]|a+b:c-|Last|false|*
facets=a+b~|Slice { offset: 0, limit: 20 }|all|[a b]||Last|false|*
attributesToRetrieve=,~|Slice { offset: 0, limit: 20 }|all|-||Last|false|,
showCosts=true&matchingStrategy=all~|Slice { offset: 0, limit: 20 }|all|-||All|true|*
showCosts=false&matchingStrategy=last~|Slice { offset: 0, limit: 20 }|all|-||Last|false|*
filter=~|Slice { offset: 0, limit: 20 }|all|-||Last|false|*
filter=a+%3D+1+OR+b+EXISTS~|Slice { offset: 0, limit: 20 }|or|-||Last|false|*"#;

fn tell_names(rt: &impl Abort, names: &[Word], text: &mut String) {
    let mut comma = "";
    for name in names {
        add(rt, text, comma);
        add(rt, text, name.as_str());
        comma = ",";
    }
}

// The names of a list, or `-` where none is given.
fn tell_given(rt: &impl Abort, names: &Option<Vec<Word>>, text: &mut String) {
    match names {
        Some(names) => {
            add(rt, text, "[");
            tell_names(rt, names, text);
            add(rt, text, "]");
        }
        None => add(rt, text, "-"),
    }
}

// `+` stands behind an attribute from whose least value on hits are sorted.
fn tell_sort(rt: &impl Abort, criteria: &[Criterion], text: &mut String) {
    for criterion in criteria {
        add(rt, text, criterion.attribute.as_str());
        add(rt, text, if criterion.up { "+" } else { "-" });
    }
}

fn filter_kind(filter: &Filter) -> &'static str {
    match filter {
        Filter::All => "all",
        Filter::And(_) => "and",
        Filter::Or(_) => "or",
        Filter::Not(_) => "not",
        Filter::Test { .. } => "test",
    }
}

fn search_text(rt: &impl Abort, alloc: Global, call: &SearchCall) -> String {
    let mut text = String::new(alloc);
    let (q, filter) = (call.q.as_str(), filter_kind(&call.filter));
    write!(text, "{q}|{:?}|{filter}|", call.window).expect(rt, "memory");
    tell_given(rt, &call.facets, &mut text);
    add(rt, &mut text, "|");
    tell_sort(rt, &call.sort, &mut text);
    write!(text, "|{:?}|{}|", call.strategy, call.costs).expect(rt, "memory");
    tell_names(rt, &call.retrieve, &mut text);
    text
}

// The search that a request asks for.
fn found(rt: &impl Abort, alloc: Global, method: &str, target: &str, body: &str) -> String {
    match &call_of(rt, alloc, method, target, body) {
        Call::Read(ReadCall::Search { call, .. }) => search_text(rt, alloc, call),
        _ => string(rt, alloc, "no search"),
    }
}

fn check_body(rt: &impl Abort, alloc: Global, body: &str, wanted: &str) {
    let found = found(rt, alloc, "POST", SEARCH, body);
    check_text(rt, &found, wanted, body);
}

fn check_query(rt: &impl Abort, alloc: Global, query: &str, wanted: &str) {
    let target = format!(in alloc; "{SEARCH}?{query}").expect(rt, "memory");
    let found = found(rt, alloc, "GET", &target, "{");
    check_text(rt, &found, wanted, query);
}

fn check_bodies(rt: &impl Abort, alloc: Global, table: &str) {
    for row in table.lines() {
        let (body, rest) = row.split_once('~').unwrap_or((row, ""));
        check_body(rt, alloc, body, rest);
    }
}

fn check_queries(rt: &impl Abort, alloc: Global, table: &str) {
    for row in table.lines() {
        let (query, rest) = row.split_once('~').unwrap_or((row, ""));
        check_query(rt, alloc, query, rest);
    }
}

#[test]
fn what_searches_say(rt: HostRuntime) {
    check_bodies(&rt, rt.alloc(), BODIES);
    check_queries(&rt, rt.alloc(), QUERIES);
}

#[test]
fn sixteen_criteria_are_taken(rt: HostRuntime) {
    let alloc = rt.alloc();
    let most = times(&rt, alloc, "a:asc,", 15);
    let query = format!(in alloc; "sort={most}b:asc").expect(&rt, "memory");
    let told = times(&rt, alloc, "a+", 15);
    let whole = format!(in alloc; "|Slice {{ offset: 0, limit: 20 }}|all|-|{told}b+|Last|false|*");
    check_query(&rt, alloc, &query, &whole.expect(&rt, "memory"));
}
