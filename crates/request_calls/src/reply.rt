ghost use Rattle.std.specs.Prelude.{◌≡◌, IfOk, string_bytes};
ghost use Rattle.request_refusals.specs.declared.refusal.Refusal.TheVariants.{InvalidSearch, FilterSyntax, FilterTooDeep, FilterNotANumber, NotSortable, NotFilterable};
ghost use Rattle.serde_json.specs.View.{view};
ghost use Rattle.http_wire.specs.Sent.{IsSentAs};
ghost use Rattle.request_calls.specs.Refusals.{told_of, refused, refusal_data};

use http::StatusCode;
use http_wire::{Reply, make_reply};
use request_refusals::{Refusal, SearchMember};
use search_base::NoMemory;
use serde_json::{Value, json};
use std::alloc::{AllocError, Global};

fn status_of(refusal: &Refusal) -> StatusCode
    ensures { result ≡ (told_of refusal.now).status }
{
    match refusal {
        Refusal::NoRoute
        | Refusal::NoIndex { .. }
        | Refusal::NoTask { .. }
        | Refusal::NoDocument { .. } => StatusCode::NOT_FOUND,
        Refusal::MethodNotAllowed => StatusCode::METHOD_NOT_ALLOWED,
        _ => StatusCode::BAD_REQUEST,
    }
}

fn code_of(refusal: &Refusal) -> &'static str
    ensures { result.now ≡ (told_of refusal.now).code }
{
    match refusal {
        Refusal::NoRoute => "not_found",
        Refusal::MethodNotAllowed => "method_not_allowed",
        Refusal::InvalidUid => "invalid_index_uid",
        Refusal::InvalidTaskUid => "invalid_task_uid",
        Refusal::Unknown { .. } | Refusal::BadQueries => "bad_request",
        Refusal::InvalidSearch { member } => member.row().code,
        Refusal::FilterSyntax { .. }
        | Refusal::FilterTooDeep { .. }
        | Refusal::FilterNotANumber { .. }
        | Refusal::NotFilterable { .. } => "invalid_search_filter",
        Refusal::NoSortRule | Refusal::NotSortable { .. } => "invalid_search_sort",
        Refusal::NotFacet { .. } => "invalid_search_facets",
        Refusal::NotJson | Refusal::NotList | Refusal::NotObject { .. } => "malformed_payload",
        Refusal::NumberNotWhole { .. } => "number_not_whole",
        Refusal::BadListedId { .. } => "invalid_document_id",
        Refusal::MissingUid | Refusal::MissingQueryUid { .. } => "missing_index_uid",
        Refusal::BadSettings { .. } => "invalid_settings",
        Refusal::BadRankingRule { .. } => "invalid_settings_ranking_rules",
        Refusal::MissingFacetName => "missing_facet_search_facet_name",
        Refusal::InvalidFacetName => "invalid_facet_search_facet_name",
        Refusal::InvalidFacetQuery => "invalid_facet_search_facet_query",
        Refusal::NoIndex { .. } => "index_not_found",
        Refusal::NoTask { .. } => "task_not_found",
        Refusal::NoDocument { .. } => "document_not_found",
        Refusal::ChangesSpent => "changes_spent",
    }
}

fn member_message(alloc: Global, member: SearchMember) -> Result<String, AllocError>
    ensures { IfOk result (λ message. string_bytes message ≡ (told_of (InvalidSearch member)).message) }
{
    format!(in alloc; "Invalid `{name}`.", name = member.row().name)
}

fn syntax_message(alloc: Global, text: u32, place: u32) -> Result<String, AllocError>
    ensures { IfOk result (λ message. string_bytes message ≡ (told_of (FilterSyntax text place)).message) }
{
    format!(in alloc; "Filter text {text}: unexpected at byte {place}.")
}

fn depth_message(alloc: Global, text: u32, place: u32) -> Result<String, AllocError>
    ensures { IfOk result (λ message. string_bytes message ≡ (told_of (FilterTooDeep text place)).message) }
{
    format!(in alloc; "Filter text {text}: deeper than 200 at byte {place}.")
}

fn number_message(alloc: Global, value: &str) -> Result<String, AllocError>
    ensures { IfOk result (λ message. string_bytes message ≡ (told_of (FilterNotANumber value.now)).message) }
{
    format!(in alloc; "`{value}` is not a whole number.")
}

fn sortable_message(alloc: Global, attribute: &str) -> Result<String, AllocError>
    ensures { IfOk result (λ message. string_bytes message ≡ (told_of (NotSortable attribute.now)).message) }
{
    format!(in alloc; "`{attribute}` is not sortable.")
}

fn filterable_message(alloc: Global, attribute: &str) -> Result<String, AllocError>
    ensures { IfOk result (λ message. string_bytes message ≡ (told_of (NotFilterable attribute.now)).message) }
{
    format!(in alloc; "`{attribute}` is not filterable.")
}

fn message_of(alloc: Global, refusal: &Refusal) -> Result<String, AllocError>
    ensures { IfOk result (λ message. string_bytes message ≡ (told_of refusal.now).message) }
{
    match refusal {
        Refusal::NoRoute => String::from_str(alloc, "No such route."),
        Refusal::MethodNotAllowed => String::from_str(alloc, "Method not allowed."),
        Refusal::InvalidUid => String::from_str(alloc, "Invalid index uid."),
        Refusal::InvalidTaskUid => String::from_str(alloc, "Invalid task uid."),
        Refusal::Unknown { name } => format!(in alloc;
            "Unknown or malformed `{name}`.",
            name = name.as_str()
        ),
        Refusal::InvalidSearch { member } => member_message(alloc, *member),
        Refusal::FilterSyntax { text, place } => syntax_message(alloc, *text, *place),
        Refusal::FilterTooDeep { text, place } => depth_message(alloc, *text, *place),
        Refusal::FilterNotANumber { value } => number_message(alloc, value.as_str()),
        Refusal::NotJson => String::from_str(alloc, "The body is not JSON."),
        Refusal::NotList => String::from_str(alloc, "The body is not a list."),
        Refusal::NotObject { document } => format!(in alloc;
            "Document {document} is not an object."
        ),
        Refusal::NumberNotWhole { document, path } => format!(in alloc;
            "Document {document} has a number at `{path}` that is not whole.",
            path = path.as_str()
        ),
        Refusal::BadListedId { place } => format!(in alloc; "Id {place} is invalid."),
        Refusal::MissingUid => String::from_str(alloc, "The uid is missing."),
        Refusal::BadSettings { name } => format!(in alloc;
            "Invalid `{name}`.",
            name = name.as_str()
        ),
        Refusal::BadRankingRule { text } => format!(in alloc;
            "Invalid ranking rule `{text}`.",
            text = text.as_str()
        ),
        Refusal::BadQueries => String::from_str(alloc, "Malformed `queries`."),
        Refusal::MissingQueryUid { query } => format!(in alloc; "Query {query} has no index uid."),
        Refusal::MissingFacetName => String::from_str(alloc, "The facet name is missing."),
        Refusal::InvalidFacetName => String::from_str(alloc, "Invalid `facetName`."),
        Refusal::InvalidFacetQuery => String::from_str(alloc, "Invalid `facetQuery`."),
        Refusal::NoTask { number } => format!(in alloc; "No task {number}."),
        Refusal::NoDocument { id } => format!(in alloc; "No document `{id}`.", id = id.as_str()),
        Refusal::NoIndex { uid } => format!(in alloc; "No index `{uid}`.", uid = uid.as_str()),
        Refusal::ChangesSpent => String::from_str(alloc, "No more changes."),
        Refusal::NoSortRule => String::from_str(alloc, "The ranking rules have no sort."),
        Refusal::NotSortable { attribute } => sortable_message(alloc, attribute.as_str()),
        Refusal::NotFilterable { attribute } | Refusal::NotFacet { attribute } => {
            filterable_message(alloc, attribute.as_str())
        }
    }
}

fn refusal_value(alloc: Global, code: &str, message: &str) -> Result<Value, AllocError>
    ensures { IfOk result (λ value. view value ≡ refusal_data code.now message.now) }
{
    json!(in alloc; {"code": code, "message": message, "type": "invalid_request"})
}

/// The reply to a request that is refused: the status of the refusal, and a body with its code, its message and the
/// type of all refusals. Its one error is want of memory.
pub fn refusal_reply(alloc: Global, refusal: &Refusal) -> Result<Reply, NoMemory>
    ensures { IfOk result (λ reply. IsSentAs reply (refused refusal.now)) }
{
    let message = message_of(alloc, refusal)?;
    let value = refusal_value(alloc, code_of(refusal), message.as_str())?;
    let body = value.to_vec(alloc)?;
    make_reply(alloc, status_of(refusal), body)
}
