ghost use Rattle.std.specs.Prelude.{◌≡◌, [], IfOk, option_map, unwrap_or, false};
ghost use Rattle.serde_json.specs.Find.{as_str, as_bool, get};
ghost use Rattle.serde_json.specs.View.{view, items_view};
ghost use Rattle.search_call.specs.SearchView.{names_view};
ghost use Rattle.search_base.specs.declared.query.Strategy.TheVariants as strategy;
ghost use Rattle.request_refusals.specs.Members.{row_of};
ghost use Rattle.request_refusals.specs.declared.member.SearchMember.TheVariants.{Sort, MatchingStrategy};
ghost use Rattle.search_bodies.specs.Values.{each_of, names_in as names_by, criterion_in, criteria_in, sort_in as sort_by, strategy_by, strategy_in as strategy_from, count_in, said};

use index_settings::{RankingRule, ranking_rule};
use request_refusals::SearchMember;
use search_base::{NoMemory, Strategy, Word};
use search_call::Criterion;
use serde_json::Value;
use std::alloc::Global;

/// A search sorts by at most so many criteria.
const MAX_CRITERIA: usize = 16;

/// The texts of a list of them.
pub(crate) fn names_in(alloc: Global, value: &Value) -> Result<Option<Vec<Word>>, NoMemory>
    ensures { IfOk result (λ names. names_view names ≡ names_by (view value.now)) }
{
    match value {
        Value::Array(items) => texts_of(alloc, items),
        _ => Ok(None),
    }
}

// The texts of a list, where each item is one.
fn texts_of(alloc: Global, items: &[Value]) -> Result<Option<Vec<Word>>, NoMemory>
    ensures { IfOk result (λ texts. names_view texts ≡ each_of as_str (items_view items.now)) }
{
    let mut texts = Vec::new(alloc);
    for item in items {
        match item.as_str() {
            Some(text) => texts.push(Word::new(alloc, text)?)?,
            None => return Ok(None),
        }
    }
    Ok(Some(texts))
}

/// The criteria of a list of them.
pub(crate) fn sort_in(alloc: Global, value: &Value) -> Result<Option<Vec<Criterion>>, NoMemory>
    ensures { IfOk result (λ criteria. option_map (λ list. list.items) criteria ≡ sort_by (view value.now)) }
{
    match value {
        Value::Array(items) => criteria_of(alloc, items),
        _ => Ok(None),
    }
}

// The criteria of a list, where each item is one and they are not too many.
#[tactic(auto, using(crate::proofs::Lengths::items_len_of_view))]
fn criteria_of(alloc: Global, items: &[Value]) -> Result<Option<Vec<Criterion>>, NoMemory>
    ensures { IfOk result (λ criteria.
        option_map (λ list. list.items) criteria ≡ criteria_in (items_view items.now)) }
{
    if items.len() <= MAX_CRITERIA {
        each_criterion(alloc, items)
    } else {
        Ok(None)
    }
}

fn each_criterion(alloc: Global, items: &[Value]) -> Result<Option<Vec<Criterion>>, NoMemory>
    ensures { IfOk result (λ criteria.
        option_map (λ list. list.items) criteria ≡ each_of criterion_in (items_view items.now)) }
{
    let mut criteria = Vec::new(alloc);
    for item in items {
        match criterion_of(alloc, item)? {
            Some(criterion) => criteria.push(criterion)?,
            None => return Ok(None),
        }
    }
    Ok(Some(criteria))
}

// An attribute with `:asc` or `:desc` behind it.
fn criterion_of(alloc: Global, value: &Value) -> Result<Option<Criterion>, NoMemory>
    ensures { IfOk result (λ criterion. criterion ≡ criterion_in (view value.now)) }
{
    let Some(text) = value.as_str() else {
        return Ok(None);
    };
    match ranking_rule(alloc, text)? {
        Some(RankingRule::Up { attribute }) => Ok(Some(Criterion {
            attribute,
            up: true,
        })),
        Some(RankingRule::Down { attribute }) => Ok(Some(Criterion {
            attribute,
            up: false,
        })),
        _ => Ok(None),
    }
}

/// Which words a hit must hold.
pub(crate) fn strategy_in(value: &Value) -> Option<Strategy>
    ensures { result ≡ strategy_from (view value.now) }
{
    match value {
        Value::String(text) => strategy_named(text.as_str()),
        _ => None,
    }
}

fn strategy_named(text: &str) -> Option<Strategy>
    ensures { result ≡ strategy_by text.now }
{
    match text {
        "last" => Some(Strategy::Last),
        "all" => Some(Strategy::All),
        _ => None,
    }
}

// The value of a member of an object, where it is there.
fn value_at(object: &Value, member: SearchMember) -> Option<&Value>
    ensures { option_map (λ value. view value.now) result ≡ get (row_of member).name (view object.now) }
{
    object.get(member.row().name)
}

/// The text that a member is.
pub(crate) fn text_at(
    alloc: Global,
    object: &Value,
    member: SearchMember,
) -> Result<Option<Word>, NoMemory>
    ensures { IfOk result (λ text. text ≡ said as_str member (view object.now)) }
{
    match str_at(object, member) {
        Some(text) => Ok(Some(Word::new(alloc, text)?)),
        None => Ok(None),
    }
}

/// The text that a member is, or else this one.
pub(crate) fn text_or(
    alloc: Global,
    object: &Value,
    member: SearchMember,
    default: &str,
) -> Result<Word, NoMemory>
    ensures { IfOk result (λ text. text ≡ unwrap_or (said as_str member (view object.now)) default.now) }
{
    match str_at(object, member) {
        Some(text) => Word::new(alloc, text),
        None => Word::new(alloc, default),
    }
}

fn str_at(object: &Value, member: SearchMember) -> Option<&str>
    ensures { option_map (λ text. text.now) result ≡ said as_str member (view object.now) }
{
    value_at(object, member).and_then(Value::as_str)
}

/// The number that a member is.
pub(crate) fn count_at(object: &Value, member: SearchMember) -> Option<u64>
    ensures { result ≡ said count_in member (view object.now) }
{
    value_at(object, member).and_then(Value::as_u64)
}

/// The truth value that a member is, or else false.
pub(crate) fn flag_at(object: &Value, member: SearchMember) -> bool
    ensures { result ≡ unwrap_or (said as_bool member (view object.now)) false }
{
    value_at(object, member)
        .and_then(Value::as_bool)
        .unwrap_or(false)
}

/// The texts of the list that a member is.
pub(crate) fn names_at(
    alloc: Global,
    object: &Value,
    member: SearchMember,
) -> Result<Option<Vec<Word>>, NoMemory>
    ensures { IfOk result (λ names. names_view names ≡ said names_by member (view object.now)) }
{
    match value_at(object, member) {
        Some(value) => names_in(alloc, value),
        None => Ok(None),
    }
}

/// The criteria by which hits are sorted: none where the object does not say.
pub(crate) fn sort_at(alloc: Global, object: &Value) -> Result<Vec<Criterion>, NoMemory>
    ensures { IfOk result (λ criteria. criteria.items ≡ unwrap_or (said sort_by Sort (view object.now)) []) }
{
    match criteria_at(alloc, object)? {
        Some(criteria) => Ok(criteria),
        None => Ok(Vec::new(alloc)),
    }
}

fn criteria_at(alloc: Global, object: &Value) -> Result<Option<Vec<Criterion>>, NoMemory>
    ensures { IfOk result (λ criteria.
        option_map (λ list. list.items) criteria ≡ said sort_by Sort (view object.now)) }
{
    match value_at(object, SearchMember::Sort) {
        Some(value) => sort_in(alloc, value),
        None => Ok(None),
    }
}

/// Which words a hit must hold: as many as there are where the object does not say.
pub(crate) fn strategy_at(object: &Value) -> Strategy
    ensures { result ≡ unwrap_or (said strategy_from MatchingStrategy (view object.now)) strategy.Last }
{
    match value_at(object, SearchMember::MatchingStrategy) {
        Some(value) => strategy_in(value).unwrap_or(Strategy::Last),
        None => Strategy::Last,
    }
}
