ghost use Rattle.std.specs.Prelude.{◌≡◌, [], IfOk, map, Ok};
ghost use Rattle.document_changes.specs.Changes.{kind_view};
ghost use Rattle.http_wire.specs.Wire.{request_of};
ghost use Rattle.search_base.specs.Gives.{Gives};
ghost use Rattle.request_routes.specs.Held.{pair_of};
ghost use Rattle.request_routes.specs.declared.routes.Route.TheVariants.{CreateIndex, ListIndexes, AddDocuments, UpdateDocuments, ListDocuments, ShowDocument, RemoveDocument, RemoveDocuments, PatchSettings, Search, SearchByQuery, MultiSearch, FacetSearch, ShowTask};
ghost use Rattle.request_calls.specs.Asked.{write};
ghost use Rattle.request_calls.specs.Calls.{call_of, call_at, IsCall, IsAccepted, OnChange};
ghost use Rattle.request_calls.specs.Held.{call_data};

use crate::body::{NewIndex, read_documents, read_ids, read_index};
use crate::reply::refusal_reply;
use crate::settings::read_patch;
use document_changes::{Change, ChangeKind};
use http_wire::{Reply, Wire};
use request_refusals::Refusal;
use request_routes::{
    Found, Pair, Route, RouteTable, check_named, count_in, fields_in, find_route, read_query,
    split_target, task_number, text_in,
};
use search_base::{Fault, NoMemory, Word};
use search_bodies::{MultiCall, read_facets, read_multi, read_search, search_by_pairs};
use search_call::{FacetCall, SearchCall};
use std::alloc::Global;

/// A request that changes nothing. Contracts see it through `read_view`.
#[derive(Debug, Drop)]
pub enum ReadCall {
    /// Whether the server answers.
    Health,
    /// What becomes of the task of this number.
    Task {
        number: u64,
    },
    /// The indexes by their uids' bytes, `limit` of them from the place `offset` on, counted from 0.
    Indexes {
        offset: u64,
        limit: u64,
    },
    /// The index named `uid`.
    Index {
        uid: Word,
    },
    /// The documents of an index in the order of their internal ids, `limit` of them from the place `offset` on. Shown
    /// are the top members named by `fields`, where `*` names all.
    Documents {
        uid: Word,
        offset: u64,
        limit: u64,
        fields: Vec<Word>,
    },
    /// The document of an index that has the external id `id`, with the top members named by `fields`.
    Document {
        uid: Word,
        id: Word,
        fields: Vec<Word>,
    },
    /// The settings of the index named `uid`.
    Settings {
        uid: Word,
    },
    /// A search of the index named `uid`.
    Search {
        uid: Word,
        call: SearchCall,
    },
    /// Several searches, at most 100, one after the other.
    Multi {
        calls: Vec<MultiCall>,
    },
    /// A search of the values of a facet of the index named `uid`.
    Facets {
        uid: Word,
        call: FacetCall,
    },
}

/// What a request asks for.
#[derive(Drop)]
pub enum Call {
    /// Nothing: what the request says is refused, whatever the machine holds. This is the reply.
    Refused(Reply),
    /// A change, which may yet be refused by what the machine holds.
    Write(Change),
    /// A read, which may yet be refused by what the machine holds.
    Read(ReadCall),
}

// A call that is not refused.
pub(crate) enum Request {
    Write(Change),
    Read(ReadCall),
}

/// The call that a request is, or the reply to it where it is refused by what it says alone.
///
/// Tried are its path, its method, the uid of an index or of a task in the path, the query string in the order of its
/// pairs, the body as JSON (RFC 8259) and the body's shape, and the first fault is the one that is told. A change has a
/// valid uid, a key that is not empty, and a patch of settings without fault, with no float, nested no deeper than a
/// JSON text may. Its error is want of memory.
pub fn read_call(alloc: Global, table: &RouteTable, wire: &Wire) -> Result<Call, NoMemory>
    ensures call { IfOk result (λ call. IsCall call (call_of (request_of wire.now))) }
    ensures accepted { IfOk result (OnChange IsAccepted) }
{
    match ask(alloc, table, wire) {
        Ok(Request::Write(change)) => Ok(Call::Write(change)),
        Ok(Request::Read(call)) => Ok(Call::Read(call)),
        Err(Fault::Refused(refusal)) => Ok(Call::Refused(refusal_reply(alloc, &refusal)?)),
        Err(Fault::NoMemory) => Err(NoMemory),
    }
}

fn ask(alloc: Global, table: &RouteTable, wire: &Wire) -> Result<Request, Fault<Refusal>>
    ensures { Gives call_data result (call_of (request_of wire.now)) }
{
    let (path, query) = split_target(wire.target.as_str());
    let found = find_route(alloc, table, wire.method.as_str(), path)?;
    check_named(found.route, found.uid)?;
    let pairs = read_query(alloc, found.route, query)?;
    ask_at(alloc, found, &pairs, &wire.body)
}

// What a route makes of what its path names, of the query string and of the body.
fn ask_at(
    alloc: Global,
    found: Found,
    pairs: &[Pair],
    body: &[u8],
) -> Result<Request, Fault<Refusal>>
    ensures { Gives call_data result
        (call_at found.entry.route found.entry.uid.now found.entry.id.now (map pair_of pairs.now) body.now) }
{
    let Found { route, uid, id } = found;
    match route {
        Route::Health => Ok(Request::Read(ReadCall::Health)),
        Route::CreateIndex => create_index(alloc, body),
        Route::ListIndexes => Ok(list_indexes(pairs)),
        Route::ShowIndex => Ok(Request::Read(ReadCall::Index {
            uid: Word::new(alloc, uid)?,
        })),
        Route::DropIndex => changed(alloc, uid, ChangeKind::Drop),
        Route::AddDocuments => add_documents(alloc, uid, pairs, body),
        Route::UpdateDocuments => update_documents(alloc, uid, pairs, body),
        Route::ListDocuments => list_documents(alloc, uid, pairs),
        Route::ClearDocuments => changed(alloc, uid, ChangeKind::Clear),
        Route::ShowDocument => show_document(alloc, uid, id, pairs),
        Route::RemoveDocument => remove_document(alloc, uid, id),
        Route::RemoveDocuments => remove_documents(alloc, uid, body),
        Route::ShowSettings => Ok(Request::Read(ReadCall::Settings {
            uid: Word::new(alloc, uid)?,
        })),
        Route::PatchSettings => patch_settings(alloc, uid, body),
        Route::ResetSettings => changed(alloc, uid, ChangeKind::Reset),
        Route::Search => search(alloc, uid, body),
        Route::SearchByQuery => search_by_query(alloc, uid, pairs),
        Route::MultiSearch => multi_search(alloc, body),
        Route::FacetSearch => facet_search(alloc, uid, body),
        Route::ShowTask => show_task(uid),
    }
}

fn changed(alloc: Global, uid: &str, kind: ChangeKind) -> Result<Request, Fault<Refusal>>
    ensures { Gives call_data result (Ok (write (record { uid = uid.now; kind = kind_view kind }))) }
{
    Ok(Request::Write(Change {
        uid: Word::new(alloc, uid)?,
        kind,
    }))
}

fn create_index(alloc: Global, body: &[u8]) -> Result<Request, Fault<Refusal>>
    ensures { Gives call_data result (call_at CreateIndex [] [] [] body.now) }
{
    let NewIndex { uid, key } = read_index(alloc, body)?;
    Ok(Request::Write(Change {
        uid,
        kind: ChangeKind::Create { key },
    }))
}

fn show_task(uid: &str) -> Result<Request, Fault<Refusal>>
    ensures { Gives call_data result (call_at ShowTask uid.now [] [] []) }
{
    match task_number(uid) {
        Some(number) => Ok(Request::Read(ReadCall::Task { number })),
        None => Err(Fault::Refused(Refusal::InvalidTaskUid)),
    }
}

fn list_indexes(pairs: &[Pair]) -> Request
    ensures { Ok (call_data result) ≡ call_at ListIndexes [] [] (map pair_of pairs.now) [] }
{
    Request::Read(ReadCall::Indexes {
        offset: count_in(pairs, "offset", 0),
        limit: count_in(pairs, "limit", 20),
    })
}

fn add_documents(
    alloc: Global,
    uid: &str,
    pairs: &[Pair],
    body: &[u8],
) -> Result<Request, Fault<Refusal>>
    ensures { Gives call_data result (call_at AddDocuments uid.now [] (map pair_of pairs.now) body.now) }
{
    let key = text_in(pairs, "primaryKey")?;
    let documents = read_documents(alloc, body, key.clone()?)?;
    changed(alloc, uid, ChangeKind::Replace { key, documents })
}

fn update_documents(
    alloc: Global,
    uid: &str,
    pairs: &[Pair],
    body: &[u8],
) -> Result<Request, Fault<Refusal>>
    ensures { Gives call_data result (call_at UpdateDocuments uid.now [] (map pair_of pairs.now) body.now) }
{
    let key = text_in(pairs, "primaryKey")?;
    let documents = read_documents(alloc, body, key.clone()?)?;
    changed(alloc, uid, ChangeKind::Update { key, documents })
}

fn list_documents(alloc: Global, uid: &str, pairs: &[Pair]) -> Result<Request, Fault<Refusal>>
    ensures { Gives call_data result (call_at ListDocuments uid.now [] (map pair_of pairs.now) []) }
{
    Ok(Request::Read(ReadCall::Documents {
        uid: Word::new(alloc, uid)?,
        offset: count_in(pairs, "offset", 0),
        limit: count_in(pairs, "limit", 20),
        fields: fields_in(alloc, pairs)?,
    }))
}

fn show_document(
    alloc: Global,
    uid: &str,
    id: &str,
    pairs: &[Pair],
) -> Result<Request, Fault<Refusal>>
    ensures { Gives call_data result (call_at ShowDocument uid.now id.now (map pair_of pairs.now) []) }
{
    Ok(Request::Read(ReadCall::Document {
        uid: Word::new(alloc, uid)?,
        id: Word::new(alloc, id)?,
        fields: fields_in(alloc, pairs)?,
    }))
}

fn remove_document(alloc: Global, uid: &str, id: &str) -> Result<Request, Fault<Refusal>>
    ensures { Gives call_data result (call_at RemoveDocument uid.now id.now [] []) }
{
    let mut ids = Vec::new(alloc);
    ids.push(Word::new(alloc, id)?)?;
    changed(alloc, uid, ChangeKind::Remove { ids })
}

fn remove_documents(alloc: Global, uid: &str, body: &[u8]) -> Result<Request, Fault<Refusal>>
    ensures { Gives call_data result (call_at RemoveDocuments uid.now [] [] body.now) }
{
    let ids = read_ids(alloc, body)?;
    changed(alloc, uid, ChangeKind::Remove { ids })
}

fn patch_settings(alloc: Global, uid: &str, body: &[u8]) -> Result<Request, Fault<Refusal>>
    ensures { Gives call_data result (call_at PatchSettings uid.now [] [] body.now) }
{
    let members = read_patch(alloc, body)?;
    changed(alloc, uid, ChangeKind::Patch { members })
}

fn search(alloc: Global, uid: &str, body: &[u8]) -> Result<Request, Fault<Refusal>>
    ensures { Gives call_data result (call_at Search uid.now [] [] body.now) }
{
    let call = read_search(alloc, body)?;
    Ok(Request::Read(ReadCall::Search {
        uid: Word::new(alloc, uid)?,
        call,
    }))
}

fn search_by_query(alloc: Global, uid: &str, pairs: &[Pair]) -> Result<Request, Fault<Refusal>>
    ensures { Gives call_data result (call_at SearchByQuery uid.now [] (map pair_of pairs.now) []) }
{
    let call = search_by_pairs(alloc, pairs)?;
    Ok(Request::Read(ReadCall::Search {
        uid: Word::new(alloc, uid)?,
        call,
    }))
}

fn multi_search(alloc: Global, body: &[u8]) -> Result<Request, Fault<Refusal>>
    ensures { Gives call_data result (call_at MultiSearch [] [] [] body.now) }
{
    let calls = read_multi(alloc, body)?;
    Ok(Request::Read(ReadCall::Multi { calls }))
}

fn facet_search(alloc: Global, uid: &str, body: &[u8]) -> Result<Request, Fault<Refusal>>
    ensures { Gives call_data result (call_at FacetSearch uid.now [] [] body.now) }
{
    let call = read_facets(alloc, body)?;
    Ok(Request::Read(ReadCall::Facets {
        uid: Word::new(alloc, uid)?,
        call,
    }))
}
