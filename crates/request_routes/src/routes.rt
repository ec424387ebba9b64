ghost use Rattle.std.specs.Prelude.{◌≡◌, ◌<◌, [], length, map, get_or, IfOk, string_bytes};
ghost use Rattle.search_base.specs.Gives.{Gives, Tells, Checks};
ghost use Rattle.request_routes.specs.Held.{given_by};
ghost use Rattle.request_routes.specs.declared.table.Path.TheVariants.{Health, Indexes, Index, Documents, Document, Settings, Search, MultiSearch, FacetSearch, Task};
ghost use Rattle.request_routes.specs.Patterns.{Names, joined, mark as mark_of, marked_parts, parts_with};
ghost use Rattle.request_routes.specs.Routes.{path_of, query_of, parts_of as parts_in, route_of, uid_fault, task_number as task_number_in, task_fault, names_task as names_task_in, named_fault, is_padded as is_padded_in};

use crate::parts::parts_of;
use crate::query::number_of;
use crate::table::{Path, RouteTable};
use doc_values::is_uid;
use request_refusals::Refusal;
use search_base::{Fault, NoMemory};
use std::alloc::Global;

// The most digits of a task's number.
const MOST_DIGITS: usize = 19;

/// The routes.
#[derive(Clone, Copy, Debug, PartialEq, Eq)]
pub enum Route {
    /// `GET /health`
    Health,
    /// `POST /indexes`
    CreateIndex,
    /// `GET /indexes`
    ListIndexes,
    /// `GET /indexes/{uid}`
    ShowIndex,
    /// `DELETE /indexes/{uid}`
    DropIndex,
    /// `POST /indexes/{uid}/documents`
    AddDocuments,
    /// `PUT /indexes/{uid}/documents`
    UpdateDocuments,
    /// `GET /indexes/{uid}/documents`
    ListDocuments,
    /// `DELETE /indexes/{uid}/documents`
    ClearDocuments,
    /// `GET /indexes/{uid}/documents/{id}`
    ShowDocument,
    /// `DELETE /indexes/{uid}/documents/{id}`
    RemoveDocument,
    /// `POST /indexes/{uid}/documents/delete-batch`
    RemoveDocuments,
    /// `GET /indexes/{uid}/settings`
    ShowSettings,
    /// `PATCH /indexes/{uid}/settings`
    PatchSettings,
    /// `DELETE /indexes/{uid}/settings`
    ResetSettings,
    /// `POST /indexes/{uid}/search`
    Search,
    /// `GET /indexes/{uid}/search`
    SearchByQuery,
    /// `POST /multi-search`
    MultiSearch,
    /// `POST /indexes/{uid}/facet-search`
    FacetSearch,
    /// `GET /tasks/{uid}`
    ShowTask,
}

/// A route, with the uid of an index or of a task and the id of a document that the request's path names; each is empty
/// where the path names none.
#[derive(Clone, Copy)]
pub struct Found<'a> {
    pub route: Route,
    pub uid: &'a str,
    pub id: &'a str,
}

/// A target's path, and its query string: what follows its first `?`, or the empty text where it has none. Takes no
/// memory.
pub fn split_target(target: &str) -> (&str, &str)
    ensures path { result.0.now ≡ path_of target.now }
    ensures query { result.1.now ≡ query_of target.now }
{
    match target.split_once('?') {
        Some((path, query)) => (path, query),
        None => (target, ""),
    }
}

/// The route that a method and a path name, with the uid and the id of the path.
///
/// Refused is a path that no route has (`NoRoute`), and then a method that none of the path's routes has
/// (`MethodNotAllowed`). Its one other error is want of memory.
pub fn find_route<'a>(
    alloc: Global,
    table: &RouteTable,
    method: &str,
    path: &'a str,
) -> Result<Found<'a>, Fault<Refusal>>
    ensures { Gives given_by result (route_of method.now (parts_in path.now)) }
{
    let parts = parts_of(alloc, path, '/')?;
    let pattern = pattern_of(alloc, &parts)?;
    let Some(path) = table.path_with(&pattern) else {
        return Err(Fault::Refused(Refusal::NoRoute));
    };
    match route_at(path, method, part_at(&parts, 2), part_at(&parts, 4)) {
        Ok(found) => Ok(found),
        Err(refusal) => Err(Fault::Refused(refusal)),
    }
}

/// Tries the uid that the path of a route names. That of a task is refused (`InvalidTaskUid`) where `task_number` finds
/// none in it, and that of an index (`InvalidUid`) unless it is 1 to 400 bytes of ASCII letters, digits, `-` and `_`;
/// it is empty where the path names none. Takes no memory.
pub fn check_named(route: Route, uid: &str) -> Result<(), Fault<Refusal>>
    ensures { Checks result (named_fault route uid.now) }
{
    if names_task(route) {
        check_task(uid)
    } else {
        check_uid(uid)
    }
}

/// The number that the uid of a task writes: 1 to 19 decimal digits without a leading zero, where `0` alone is one.
/// Takes no memory.
pub fn task_number(uid: &str) -> Option<u64>
    ensures { result ≡ task_number_in uid.now }
{
    if uid.len() > MOST_DIGITS || is_padded(uid.as_bytes()) {
        return None;
    }
    number_of(uid)
}

fn names_task(route: Route) -> bool
    ensures { result ≡ names_task_in route }
{
    matches!(route, Route::ShowTask)
}

// Whether there are several bytes, and the first is `0`.
fn is_padded(bytes: &[u8]) -> bool
    ensures { result ≡ is_padded_in bytes.now }
{
    match bytes {
        [b'0', _, ..] => true,
        _ => false,
    }
}

fn check_task(uid: &str) -> Result<(), Fault<Refusal>>
    ensures { Checks result (task_fault uid.now) }
{
    match task_number(uid) {
        Some(_) => Ok(()),
        None => Err(Fault::Refused(Refusal::InvalidTaskUid)),
    }
}

fn check_uid(uid: &str) -> Result<(), Fault<Refusal>>
    ensures { Checks result (uid_fault uid.now) }
{
    if uid.is_empty() || is_uid(uid) {
        Ok(())
    } else {
        Err(Fault::Refused(Refusal::InvalidUid))
    }
}

// The part at a place, or the empty text where there is none.
fn part_at<'a>(parts: &[&'a str], place: usize) -> &'a str
    ensures { result.now ≡ get_or (map (λ part. part.now) parts.now) place [] }
{
    match parts.get(place) {
        Some(part) => *part,
        None => "",
    }
}

// The pattern of a request's path, whose third part is a uid and whose fifth is an id.
fn pattern_of(alloc: Global, parts: &[&str]) -> Result<String, NoMemory>
    ensures { IfOk result (λ pattern. string_bytes pattern ≡ joined (marked_parts (map (λ part. part.now) parts.now))) }
{
    match *parts {
        [root, first] => Ok(format!(in alloc; "{root}/{first}")?),
        [root, first, uid] => Ok(format!(in alloc; "{root}/{first}/{}", mark(uid))?),
        [root, first, uid, page] => Ok(format!(in alloc; "{root}/{first}/{}/{page}", mark(uid))?),
        [root, first, uid, page, id] => {
            let (uid, id) = (mark(uid), mark(id));
            Ok(format!(in alloc; "{root}/{first}/{uid}/{page}/{id}")?)
        }
        _ => Ok(String::new(alloc)),
    }
}

// What stands in a pattern for a named part. An empty part is no name.
fn mark(part: &str) -> &str
    ensures { result.now ≡ mark_of part.now }
{
    if part.is_empty() { "" } else { "_" }
}

// The route of a path with the method.
fn route_at<'a>(path: Path, method: &str, uid: &'a str, id: &'a str) -> Result<Found<'a>, Refusal>
    requires { Names path uid.now id.now }
    ensures { Tells given_by result (route_of method.now (parts_with uid.now id.now path)) }
{
    match path {
        Path::Health => health_route(method),
        Path::Indexes => indexes_route(method),
        Path::Index => index_route(method, uid),
        Path::Documents => documents_route(method, uid),
        Path::Document => document_route(method, uid, id),
        Path::Settings => settings_route(method, uid),
        Path::Search => search_route(method, uid),
        Path::MultiSearch => multi_search_route(method),
        Path::FacetSearch => facet_search_route(method, uid),
        Path::Task => task_route(method, uid),
    }
}

// The route of `/health` with the method.
fn health_route<'a>(method: &str) -> Result<Found<'a>, Refusal>
    ensures { Tells given_by result (route_of method.now (parts_with [] [] Health)) }
{
    let route = match method {
        "GET" => Route::Health,
        _ => return Err(Refusal::MethodNotAllowed),
    };
    Ok(Found {
        route,
        uid: "",
        id: "",
    })
}

// The route of all indexes.
fn indexes_route<'a>(method: &str) -> Result<Found<'a>, Refusal>
    ensures { Tells given_by result (route_of method.now (parts_with [] [] Indexes)) }
{
    let route = match method {
        "POST" => Route::CreateIndex,
        "GET" => Route::ListIndexes,
        _ => return Err(Refusal::MethodNotAllowed),
    };
    Ok(Found {
        route,
        uid: "",
        id: "",
    })
}

// The route of one index.
fn index_route<'a>(method: &str, uid: &'a str) -> Result<Found<'a>, Refusal>
    requires { 0 < length uid.now }
    ensures { Tells given_by result (route_of method.now (parts_with uid.now [] Index)) }
{
    let route = match method {
        "GET" => Route::ShowIndex,
        "DELETE" => Route::DropIndex,
        _ => return Err(Refusal::MethodNotAllowed),
    };
    Ok(Found { route, uid, id: "" })
}

// The route of the documents of an index.
fn documents_route<'a>(method: &str, uid: &'a str) -> Result<Found<'a>, Refusal>
    requires { 0 < length uid.now }
    ensures { Tells given_by result (route_of method.now (parts_with uid.now [] Documents)) }
{
    let route = match method {
        "POST" => Route::AddDocuments,
        "PUT" => Route::UpdateDocuments,
        "GET" => Route::ListDocuments,
        "DELETE" => Route::ClearDocuments,
        _ => return Err(Refusal::MethodNotAllowed),
    };
    Ok(Found { route, uid, id: "" })
}

// The route of one document; `delete-batch` is no id for `POST`, and one for each other method.
fn document_route<'a>(method: &str, uid: &'a str, id: &'a str) -> Result<Found<'a>, Refusal>
    requires uid { 0 < length uid.now }
    requires id { 0 < length id.now }
    ensures { Tells given_by result (route_of method.now (parts_with uid.now id.now Document)) }
{
    let (route, id) = match method {
        "GET" => (Route::ShowDocument, id),
        "DELETE" => (Route::RemoveDocument, id),
        "POST" if id == "delete-batch" => (Route::RemoveDocuments, ""),
        _ => return Err(Refusal::MethodNotAllowed),
    };
    Ok(Found { route, uid, id })
}

// The route of the settings of an index.
fn settings_route<'a>(method: &str, uid: &'a str) -> Result<Found<'a>, Refusal>
    requires { 0 < length uid.now }
    ensures { Tells given_by result (route_of method.now (parts_with uid.now [] Settings)) }
{
    let route = match method {
        "GET" => Route::ShowSettings,
        "PATCH" => Route::PatchSettings,
        "DELETE" => Route::ResetSettings,
        _ => return Err(Refusal::MethodNotAllowed),
    };
    Ok(Found { route, uid, id: "" })
}

// The route of searches of an index.
fn search_route<'a>(method: &str, uid: &'a str) -> Result<Found<'a>, Refusal>
    requires { 0 < length uid.now }
    ensures { Tells given_by result (route_of method.now (parts_with uid.now [] Search)) }
{
    let route = match method {
        "POST" => Route::Search,
        "GET" => Route::SearchByQuery,
        _ => return Err(Refusal::MethodNotAllowed),
    };
    Ok(Found { route, uid, id: "" })
}

// The route of several searches.
fn multi_search_route<'a>(method: &str) -> Result<Found<'a>, Refusal>
    ensures { Tells given_by result (route_of method.now (parts_with [] [] MultiSearch)) }
{
    let route = match method {
        "POST" => Route::MultiSearch,
        _ => return Err(Refusal::MethodNotAllowed),
    };
    Ok(Found {
        route,
        uid: "",
        id: "",
    })
}

// The route of searches of a facet of an index.
fn facet_search_route<'a>(method: &str, uid: &'a str) -> Result<Found<'a>, Refusal>
    requires { 0 < length uid.now }
    ensures { Tells given_by result (route_of method.now (parts_with uid.now [] FacetSearch)) }
{
    let route = match method {
        "POST" => Route::FacetSearch,
        _ => return Err(Refusal::MethodNotAllowed),
    };
    Ok(Found { route, uid, id: "" })
}

// The route of one task.
fn task_route<'a>(method: &str, uid: &'a str) -> Result<Found<'a>, Refusal>
    requires { 0 < length uid.now }
    ensures { Tells given_by result (route_of method.now (parts_with uid.now [] Task)) }
{
    let route = match method {
        "GET" => Route::ShowTask,
        _ => return Err(Refusal::MethodNotAllowed),
    };
    Ok(Found { route, uid, id: "" })
}
