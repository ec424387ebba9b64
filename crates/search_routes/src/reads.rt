// The calls that change nothing, one function a route.
ghost use Rattle.std.specs.Prelude.{◌≡◌, ◌+◌, ◌≤◌};
ghost use Rattle.bucket_sort.specs.Opens.{log_state, Opens, is_starved};
ghost use Rattle.request_calls.specs.Asked.{read_view};
ghost use Rattle.request_calls.specs.Asked as asked;
ghost use Rattle.search_routes.specs.Done.{Sends};
ghost use Rattle.search_routes.specs.Machine.{answer_to, facet_refusal as refusal_of_facets};
ghost use Rattle.search_routes.specs.Needs.{read_need};
ghost use Rattle.search_routes.specs.Openings.{read_opened, read_most};

use crate::indexes::{index_named, index_values};
use crate::multi::search_several;
use crate::searching::{search_index, shown_reply};
use bucket_sort::BucketLog;
use http_wire::Reply;
use named_indexes::{Indexes, Payload};
use queued_changes::Queued;
use request_calls::ReadCall;
use request_refusals::Refusal;
use request_replies::{
    document_reply, documents_reply, facet_hits_reply, health_reply, index_reply, list_reply,
    results_reply, settings_reply, task_reply,
};
use search_base::{Fault, Steps, Word};
use search_bodies::MultiCall;
use search_call::{FacetCall, SearchCall};
use search_settings::SearchRefusal;
use std::alloc::Global;

/// Answers a call from the tasks and the indexes. `fetches` counts the documents that are read, and `openings` the
/// buckets that are opened, each of which is told to the log.
pub(crate) fn read_queued<F, G>(
    alloc: Global,
    queued: &Queued<Payload, Indexes>,
    call: ReadCall,
    log: &mut Box<dyn BucketLog>,
    fetches: &mut Steps<F>,
    openings: &mut Steps<G>,
) -> Result<Reply, Fault<Refusal>>
    ensures answer { Sends (answer_to queued.now (read_view call)) result }
    ensures fetched { fetches.new ≤ fetches.old + read_need queued.now.indexes (read_view call) }
    ensures opens { Opens (is_starved result) (read_opened queued.now.indexes (read_view call))
        (log_state (told log.old) openings.old) (log_state (told log.new) openings.new) }
    ensures few { openings.new ≤ openings.old + read_most queued.now.indexes (read_view call) }
{
    match call {
        ReadCall::Health => Ok(health_reply(alloc)?),
        ReadCall::Task { number } => show_task(alloc, queued, number),
        ReadCall::Indexes { offset, limit } => list_indexes(alloc, queued, offset, limit),
        ReadCall::Index { uid } => show_index(alloc, queued, &uid),
        ReadCall::Documents {
            uid,
            offset,
            limit,
            fields,
        } => list_documents(alloc, queued, &uid, offset, limit, &fields, fetches),
        ReadCall::Document { uid, id, fields } => {
            show_document(alloc, queued, &uid, id, &fields, fetches)
        }
        ReadCall::Settings { uid } => show_settings(alloc, queued, &uid),
        ReadCall::Search { uid, call } => {
            search(alloc, queued, &uid, &call, log, fetches, openings)
        }
        ReadCall::Multi { calls } => { search_all(alloc, queued, &calls, log, fetches, openings) }
        ReadCall::Facets { uid, call } => search_facets(alloc, queued, &uid, &call),
    }
}

fn show_task(
    alloc: Global,
    queued: &Queued<Payload, Indexes>,
    number: u64,
) -> Result<Reply, Fault<Refusal>>
    ensures { Sends (answer_to queued.now (asked.task number)) result }
{
    match queued.find(number) {
        Some(task) => Ok(task_reply(alloc, task)?),
        None => Err(Fault::Refused(Refusal::NoTask { number })),
    }
}

fn list_indexes(
    alloc: Global,
    queued: &Queued<Payload, Indexes>,
    offset: u64,
    limit: u64,
) -> Result<Reply, Fault<Refusal>>
    ensures { Sends (answer_to queued.now (asked.indexes offset limit)) result }
{
    let indexes = queued.worker();
    let total = indexes.len() as u64;
    let rows = index_values(alloc, offset, limit, indexes)?;
    Ok(list_reply(alloc, offset, limit, rows, total)?)
}

fn show_index(
    alloc: Global,
    queued: &Queued<Payload, Indexes>,
    uid: &Word,
) -> Result<Reply, Fault<Refusal>>
    ensures { Sends (answer_to queued.now (asked.index uid.now)) result }
{
    let index = index_named(queued.worker(), uid)?;
    Ok(index_reply(alloc, uid.as_str(), index.key())?)
}

fn list_documents<F>(
    alloc: Global,
    queued: &Queued<Payload, Indexes>,
    uid: &Word,
    offset: u64,
    limit: u64,
    fields: &[Word],
    fetches: &mut Steps<F>,
) -> Result<Reply, Fault<Refusal>>
    ensures answer { Sends (answer_to queued.now (asked.documents uid.now offset limit fields.now)) result }
    ensures fetched { fetches.new
        ≤ fetches.old + read_need queued.now.indexes (asked.documents uid.now offset limit fields.now) }
{
    let index = index_named(queued.worker(), uid)?;
    let listing = index.list(alloc, offset, limit, fetches)?;
    Ok(documents_reply(
        alloc,
        offset,
        limit,
        fields,
        &listing.documents,
        listing.total,
    )?)
}

fn show_document<F>(
    alloc: Global,
    queued: &Queued<Payload, Indexes>,
    uid: &Word,
    id: Word,
    fields: &[Word],
    fetches: &mut Steps<F>,
) -> Result<Reply, Fault<Refusal>>
    ensures answer { Sends (answer_to queued.now (asked.document uid.now id fields.now)) result }
    ensures fetched { fetches.new ≤ fetches.old + read_need queued.now.indexes (asked.document uid.now id fields.now) }
{
    let index = index_named(queued.worker(), uid)?;
    match index.get(&id, fetches) {
        Some(document) => Ok(document_reply(alloc, fields, document)?),
        None => Err(Fault::Refused(Refusal::NoDocument { id })),
    }
}

fn show_settings(
    alloc: Global,
    queued: &Queued<Payload, Indexes>,
    uid: &Word,
) -> Result<Reply, Fault<Refusal>>
    ensures { Sends (answer_to queued.now (asked.settings uid.now)) result }
{
    let index = index_named(queued.worker(), uid)?;
    Ok(settings_reply(alloc, index.settings())?)
}

fn search<F, G>(
    alloc: Global,
    queued: &Queued<Payload, Indexes>,
    uid: &Word,
    call: &SearchCall,
    log: &mut Box<dyn BucketLog>,
    fetches: &mut Steps<F>,
    openings: &mut Steps<G>,
) -> Result<Reply, Fault<Refusal>>
    ensures answer { Sends (answer_to queued.now (asked.search uid.now call.now)) result }
    ensures fetched { fetches.new ≤ fetches.old + read_need queued.now.indexes (asked.search uid.now call.now) }
    ensures opens { Opens (is_starved result) (read_opened queued.now.indexes (asked.search uid.now call.now))
        (log_state (told log.old) openings.old) (log_state (told log.new) openings.new) }
    ensures few { openings.new ≤ openings.old + read_most queued.now.indexes (asked.search uid.now call.now) }
{
    let indexes = queued.worker();
    let shown = search_index(alloc, indexes, uid, call, log, fetches, openings)?;
    Ok(shown_reply(alloc, call, &shown)?)
}

fn search_all<F, G>(
    alloc: Global,
    queued: &Queued<Payload, Indexes>,
    calls: &[MultiCall],
    log: &mut Box<dyn BucketLog>,
    fetches: &mut Steps<F>,
    openings: &mut Steps<G>,
) -> Result<Reply, Fault<Refusal>>
    ensures answer { Sends (answer_to queued.now (asked.multi calls.now)) result }
    ensures fetched { fetches.new ≤ fetches.old + read_need queued.now.indexes (asked.multi calls.now) }
    ensures opens { Opens (is_starved result) (read_opened queued.now.indexes (asked.multi calls.now))
        (log_state (told log.old) openings.old) (log_state (told log.new) openings.new) }
    ensures few { openings.new ≤ openings.old + read_most queued.now.indexes (asked.multi calls.now) }
{
    let indexes = queued.worker();
    let results = search_several(alloc, indexes, calls, log, fetches, openings)?;
    Ok(results_reply(alloc, &results)?)
}

fn search_facets(
    alloc: Global,
    queued: &Queued<Payload, Indexes>,
    uid: &Word,
    call: &FacetCall,
) -> Result<Reply, Fault<Refusal>>
    ensures { Sends (answer_to queued.now (asked.facets uid.now call.now)) result }
{
    let index = index_named(queued.worker(), uid)?;
    let rows = match index.facet_search(alloc, call) {
        Ok(rows) => rows,
        Err(Fault::Refused(refusal)) => return Err(Fault::Refused(facet_refusal(refusal))),
        Err(Fault::NoMemory) => return Err(Fault::NoMemory),
    };
    Ok(facet_hits_reply(alloc, call.query.as_ref(), &rows)?)
}

// Why a search of the values of an attribute is refused, by why its index refuses it.
fn facet_refusal(refusal: SearchRefusal) -> Refusal
    ensures { result ≡ refusal_of_facets refusal }
{
    match refusal {
        SearchRefusal::NoSortRule => Refusal::NoSortRule,
        SearchRefusal::NotSortable { attribute } => Refusal::NotSortable { attribute },
        SearchRefusal::NotFilterable { attribute } => Refusal::NotFilterable { attribute },
        SearchRefusal::NotFacet { attribute: _ } => Refusal::InvalidFacetName,
    }
}
