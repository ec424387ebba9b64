// The replies to calls that are not refused.
ghost use Rattle.std.specs.Prelude.{◌≡◌, IfOk, List, map, false};
ghost use Rattle.std.specs.Option.{option_copied};
ghost use Rattle.serde_json.specs.Data.{Data};
ghost use Rattle.serde_json.specs.View.{view};
ghost use Rattle.serde_json.specs.Written.{compact_text, has_float};
ghost use Rattle.http_wire.specs.Sent.{IsSentAs};
ghost use Rattle.search_result.specs.View.{found_view};
ghost use Rattle.request_replies.specs.Replies.{answer, health, health_data, index_data, one_index, one_document, list_data, documents_listing, facet_hits, found_data, settings as shown_settings, hits as hits_answer, results as all_results, with_uid};

use crate::found::found_text;
use crate::listing::listing_text;
use crate::result::ResultText;
use crate::several::{facet_hits_text, results_text};
use doc_values::DocumentText;
use facet_counts::CountRow;
use http::StatusCode;
use http_wire::{Reply, make_reply};
use index_settings::{Settings, to_json};
use search_base::{NoMemory, Word};
use search_call::SearchCall;
use search_replies::shown_text;
use search_result::SearchResult;
use serde_json::{Value, json};
use std::alloc::{AllocError, Global};

/// The reply that the server is there.
pub fn health_reply(alloc: Global) -> Result<Reply, NoMemory>
    ensures { IfOk result (λ reply. IsSentAs reply health) }
{
    let value = health_value(alloc)?;
    let body = value.to_vec(alloc)?;
    make_reply(alloc, StatusCode::OK, body)
}

fn health_value(alloc: Global) -> Result<Value, AllocError>
    ensures { IfOk result (λ value. view value ≡ health_data) }
{
    json!(in alloc; {"status": "available"})
}

/// The reply that shows an index by its uid, with its primary key.
pub fn index_reply(alloc: Global, uid: &str, key: Option<&Word>) -> Result<Reply, NoMemory>
    ensures { IfOk result (λ reply. IsSentAs reply (one_index uid.now (option_copied key.entry))) }
{
    let value = index_value(alloc, uid, key)?;
    let body = value.to_vec(alloc)?;
    make_reply(alloc, StatusCode::OK, body)
}

/// An index as JSON.
pub fn index_value(alloc: Global, uid: &str, key: Option<&Word>) -> Result<Value, AllocError>
    ensures { IfOk result (λ value. view value ≡ index_data uid.now (option_copied key.entry)) }
{
    match key {
        Some(key) => json!(in alloc; {"primaryKey": key.as_str(), "uid": uid}),
        None => json!(in alloc; {"primaryKey": null, "uid": uid}),
    }
}

/// The reply that shows the settings of an index.
pub fn settings_reply(alloc: Global, settings: &Settings) -> Result<Reply, NoMemory>
    ensures { IfOk result (λ reply. IsSentAs reply (shown_settings settings.now)) }
{
    let value = to_json(alloc, settings)?;
    let body = value.to_vec(alloc)?;
    make_reply(alloc, StatusCode::OK, body)
}

/// The reply that lists some of `total` things, with these results, which hold no float, by the place of the first and
/// the most that were asked for.
pub fn list_reply(
    alloc: Global,
    offset: u64,
    limit: u64,
    results: Value,
    total: u64,
) -> Result<Reply, NoMemory>
    requires { has_float (view results) ≡ false }
    ensures { IfOk result (λ reply. IsSentAs reply (answer 200 (list_data offset limit (view results) total))) }
{
    let value = list_value(alloc, offset, limit, results, total)?;
    let body = value.to_vec(alloc)?;
    make_reply(alloc, StatusCode::OK, body)
}

fn list_value(
    alloc: Global,
    offset: u64,
    limit: u64,
    results: Value,
    total: u64,
) -> Result<Value, AllocError>
    ensures { IfOk result (λ value. view value ≡ list_data offset limit (view results) total) }
{
    json!(in alloc; {"limit": limit, "offset": offset, "results": results, "total": total})
}

/// The reply that shows some of `total` documents, by the members that `fields` names.
pub fn documents_reply(
    alloc: Global,
    offset: u64,
    limit: u64,
    fields: &[Word],
    documents: &[&DocumentText],
    total: u64,
) -> Result<Reply, NoMemory>
    ensures { IfOk result (λ reply. IsSentAs reply
        (documents_listing offset limit fields.now (map (λ d. d.now) documents.now) total)) }
{
    let body = listing_text(alloc, offset, limit, fields, documents, total)?;
    make_reply(alloc, StatusCode::OK, body.into_bytes())
}

/// The reply that shows one document, by the members that `fields` names.
pub fn document_reply(
    alloc: Global,
    fields: &[Word],
    document: &DocumentText,
) -> Result<Reply, NoMemory>
    ensures { IfOk result (λ reply. IsSentAs reply (one_document fields.now document.now)) }
{
    let body = shown_text(alloc, fields, document)?;
    make_reply(alloc, StatusCode::OK, body.into_bytes())
}

/// The reply to a search, with its hits by the displayed members that the call asks for and what it adds to them, and
/// with the counts of values, where there are some.
pub fn hits_reply(
    alloc: Global,
    call: &SearchCall,
    displayed: &[Word],
    found: &SearchResult,
) -> Result<Reply, NoMemory>
    ensures { IfOk result (λ reply. IsSentAs reply (hits_answer displayed.now call.now found.now.terms.items
        (found_view found.now))) }
{
    let body = found_text(alloc, None, call, displayed, found)?;
    make_reply(alloc, StatusCode::OK, body.into_bytes())
}

/// What one of several searches found, as `hits_reply` shows it, with the uid of its index.
pub fn result_text(
    alloc: Global,
    uid: &str,
    call: &SearchCall,
    displayed: &[Word],
    found: &SearchResult,
) -> Result<ResultText, NoMemory>
    ensures { IfOk result (λ text. text ≡ compact_text (with_uid uid.now (found_data displayed.now call.now
        found.now.terms.items (found_view found.now)))) }
{
    let text = found_text(alloc, Some(uid), call, displayed, found)?;
    Ok(ResultText::new(text))
}

/// The reply to several searches, by what each of them found, in their order.
pub fn results_reply(alloc: Global, results: &[ResultText]) -> Result<Reply, NoMemory>
    ensures { IfOk result (λ reply. (ds : List Data) → results.now ≡ map compact_text ds
        → IsSentAs reply (all_results ds)) }
{
    let body = results_text(alloc, results)?;
    make_reply(alloc, StatusCode::OK, body.into_bytes())
}

/// The reply to a search of the values of an attribute, by a text, if by one.
pub fn facet_hits_reply(
    alloc: Global,
    query: Option<&Word>,
    rows: &[CountRow],
) -> Result<Reply, NoMemory>
    ensures { IfOk result (λ reply. IsSentAs reply (facet_hits (option_copied query.entry) rows.now)) }
{
    let body = facet_hits_text(alloc, query, rows)?;
    make_reply(alloc, StatusCode::OK, body.into_bytes())
}
