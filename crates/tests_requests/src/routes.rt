use crate::checks::{check, check_text, times};
use request_routes::{
    Found, Pair, Route, RouteTable, check_named, count_in, fields_in, find_route, read_query,
    split_target, text_in,
};
use search_base::Word;
use std::alloc::Global;
use std::process::Abort;

// A method, a target, and what they come to: the route, the uid and the id of the path, and the number of pairs.
const ROUTES: &str = r#"GET~/health~Health `` `` 0
POST~/indexes~CreateIndex `` `` 0
GET~/indexes?limit=007&offset=18446744073709551615~ListIndexes `` `` 2
GET~/indexes/m?~ShowIndex `m` `` 0
DELETE~/indexes/m~DropIndex `m` `` 0
POST~/indexes/m/documents~AddDocuments `m` `` 0
PUT~/indexes/m/documents?primaryKey=%69d~UpdateDocuments `m` `` 1
GET~/indexes/m/documents?fields=a&limit=1~ListDocuments `m` `` 2
GET~/indexes/m/documents?limit=x&limit=1~ListDocuments `m` `` 1
DELETE~/indexes/m/documents~ClearDocuments `m` `` 0
GET~/indexes/m/documents/a%20b?fields=id~ShowDocument `m` `a%20b` 1
DELETE~/indexes/m/documents/a.b~RemoveDocument `m` `a.b` 0
GET~/indexes/m/documents/delete-batch~ShowDocument `m` `delete-batch` 0
DELETE~/indexes/m/documents/delete-batch~RemoveDocument `m` `delete-batch` 0
POST~/indexes/m/documents/delete-batch~RemoveDocuments `m` `` 0
GET~/indexes/m/settings~ShowSettings `m` `` 0
PATCH~/indexes/m/settings~PatchSettings `m` `` 0
DELETE~/indexes/m/settings~ResetSettings `m` `` 0
GET~/indexes/_~ShowIndex `_` `` 0
DELETE~/indexes/_/documents/_~RemoveDocument `_` `_` 0
POST~/indexes/m/search~Search `m` `` 0
GET~/indexes/m/search~SearchByQuery `m` `` 0
GET~/indexes/m/search?limit=x&q&zz=1&q=b~SearchByQuery `m` `` 3
POST~/multi-search~MultiSearch `` `` 0
POST~/indexes/m/facet-search~FacetSearch `m` `` 0
GET~/tasks/07?~ShowTask `07` `` 0
GET~/tasks/_~ShowTask `_` `` 0"#;

// The route, the uid, the id and the number of pairs that a method and a target come to.
fn asked(rt: &impl Abort, alloc: Global, method: &str, target: &str) -> String {
    let (path, query) = split_target(target);
    let table = RouteTable::new(alloc).expect(rt, "memory");
    let Found { route, uid, id } = find_route(alloc, &table, method, path).expect(rt, "a route");
    let count = pairs(rt, alloc, route, query).len();
    let text = format!(in alloc; "{route:?} `{uid}` `{id}` {count}");
    text.expect(rt, "memory")
}

// A row of a table, whose parts stand between `~`.
fn check_row(rt: &impl Abort, alloc: Global, row: &str) {
    let mut parts = row.split('~');
    let method = parts.next().unwrap_or("");
    let target = parts.next().unwrap_or("");
    let found = asked(rt, alloc, method, target);
    check_text(rt, &found, parts.next().unwrap_or(""), row);
}

fn check_table(rt: &impl Abort, alloc: Global, table: &str) {
    for row in table.lines() {
        check_row(rt, alloc, row);
    }
}

#[test]
fn each_route(rt: HostRuntime) {
    check_table(&rt, rt.alloc(), ROUTES);
}

fn check_length(rt: &impl Abort, alloc: Global, letters: usize, wanted: bool) {
    let uid = times(rt, alloc, "a", letters);
    let checked = check_named(Route::ShowIndex, &uid);
    check(rt, checked.is_ok() == wanted, &uid);
}

#[test]
fn uids_at_their_limits(rt: HostRuntime) {
    check_length(&rt, rt.alloc(), 400, true);
    check_length(&rt, rt.alloc(), 401, false);
}

fn pairs(rt: &impl Abort, alloc: Global, route: Route, query: &str) -> Vec<Pair> {
    read_query(alloc, route, query).expect(rt, "pairs")
}

fn fields(rt: &impl Abort, alloc: Global, pairs: &[Pair]) -> Vec<Word> {
    fields_in(alloc, pairs).expect(rt, "memory")
}

fn check_key(rt: &impl Abort, alloc: Global, pairs: &[Pair]) {
    let key = text_in(pairs, "primaryKey").expect(rt, "memory");
    check(rt, key.is_some_and(|key| key.as_str() == "id"), "key");
    let fields = fields(rt, alloc, pairs);
    check(rt, fields.iter().all(|name| name.as_str() == "*"), "*");
}

#[test]
fn what_query_strings_say(rt: HostRuntime) {
    let alloc = rt.alloc();
    let listed = pairs(&rt, alloc, Route::ListDocuments, "fields=a%2Cb,&limit=007");
    check(&rt, count_in(&listed, "offset", 5) == 5, "offset");
    check(&rt, count_in(&listed, "limit", 20) == 7, "limit");
    let names = fields(&rt, alloc, &listed);
    check(&rt, names.len() == 3, "fields");
    check(&rt, names.iter().any(|name| name.as_str() == "b"), "b");
    let added = pairs(
        &rt,
        alloc,
        Route::AddDocuments,
        "primaryKey=a&primaryKey=%69d",
    );
    check_key(&rt, alloc, &added);
}
