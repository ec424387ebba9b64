ghost use Rattle.std.specs.Prelude.{◌≡◌, [], ◌∷◌};
ghost use Rattle.serde_json.specs.View.{view as data_of, items_view, members_view};
ghost use Rattle.search_base.specs.Gives.{Checks, Turns};
ghost use Rattle.index_settings.specs.Rules.{bad_rule};
ghost use Rattle.index_settings.specs.Table.{shape_of as shape_at, shape_fault, member_fault, first_fault, patch_fault, inner_fault, first_inner, nested_fault, wrong_unless};
ghost use Rattle.index_settings.specs.Values.{item_texts};

use crate::fault::{SettingsFault, SettingsRefusal};
use crate::rule::ranking_rule;
use crate::texts::{are_synonyms, are_texts, are_texts_up_to, is_number_up_to};
use search_base::{Fault, Word};
use serde_json::{Map, Value};
use std::alloc::Global;

/// What a member of the settings may hold beside null.
#[derive(Clone, Copy, Debug, Drop)]
pub(crate) enum Shape {
    /// A list of at most 65,535 texts.
    Entries,
    /// A list of texts.
    Texts,
    /// A list of at most 32 texts, each the name of a ranking rule.
    Rules,
    /// An object of lists of texts.
    Synonyms,
    /// The name of an attribute: a text.
    Attribute,
    /// An object with the number `maxValuesPerFacet`.
    Faceting,
    /// An object with the number `maxTotalHits`.
    Pagination,
}

/// The members of the settings, and the shape of each.
pub(crate) fn shape_of(name: &str) -> Option<Shape>
    ensures { result ≡ shape_at name.now }
{
    match name {
        "displayedAttributes" => Some(Shape::Entries),
        "distinctAttribute" => Some(Shape::Attribute),
        "faceting" => Some(Shape::Faceting),
        "filterableAttributes" => Some(Shape::Texts),
        "pagination" => Some(Shape::Pagination),
        "rankingRules" => Some(Shape::Rules),
        "searchableAttributes" => Some(Shape::Entries),
        "sortableAttributes" => Some(Shape::Texts),
        "stopWords" => Some(Shape::Texts),
        "synonyms" => Some(Shape::Synonyms),
        _ => None,
    }
}

/// Tries a patch of settings, member by member in byte order of their names; whether it is accepted does not depend
/// on the settings that it changes. Each fault is that of the first member that is not acceptable, or of the patch
/// that is no object.
pub fn check_patch(alloc: Global, patch: &Value) -> Result<(), SettingsFault>
    ensures { Checks result (patch_fault (data_of patch.now)) }
{
    match patch {
        Value::Object(members) => check_members(alloc, members),
        _ => Err(wrong_shape(alloc, "")),
    }
}

fn check_members(alloc: Global, members: &Map<String, Value>) -> Result<(), SettingsFault>
    ensures { Checks result (first_fault (members_view members.now.entries)) }
{
    for (name, value) in members.iter() {
        check_member(alloc, name.as_str(), value)?;
    }
    Ok(())
}

fn check_member(alloc: Global, name: &str, value: &Value) -> Result<(), SettingsFault>
    ensures { Checks result (member_fault name.now (data_of value.now)) }
{
    match shape_of(name) {
        None => {
            let member = Word::new(alloc, name)?;
            Err(Fault::Refused(SettingsRefusal::UnknownMember { member }))
        }
        Some(shape) => if value.is_null() {
            Ok(())
        } else {
            check_shape(alloc, shape, name, value)
        },
    }
}

/// Tries a value that is not null.
fn check_shape(alloc: Global, shape: Shape, name: &str, value: &Value) -> Result<(), SettingsFault>
    ensures { Checks result (shape_fault shape name.now (data_of value.now)) }
{
    match shape {
        Shape::Entries => check_right(alloc, are_texts_up_to(value, 65_535), name),
        Shape::Texts => check_right(alloc, are_texts(value), name),
        Shape::Rules => check_rules(alloc, name, value),
        Shape::Synonyms => check_right(alloc, are_synonyms(value), name),
        Shape::Attribute => check_right(alloc, value.is_string(), name),
        Shape::Faceting => check_nested(alloc, name, "maxValuesPerFacet", value),
        Shape::Pagination => check_nested(alloc, name, "maxTotalHits", value),
    }
}

fn check_right(alloc: Global, right: bool, name: &str) -> Result<(), SettingsFault>
    ensures { Checks result (wrong_unless right name.now) }
{
    if right {
        Ok(())
    } else {
        Err(wrong_shape(alloc, name))
    }
}

fn wrong_shape(alloc: Global, name: &str) -> SettingsFault
    ensures { Turns (SettingsRefusal.WrongShape name.now) result }
{
    match Word::new(alloc, name) {
        Ok(member) => Fault::Refused(SettingsRefusal::WrongShape { member }),
        Err(_) => Fault::NoMemory,
    }
}

fn check_rules(alloc: Global, name: &str, value: &Value) -> Result<(), SettingsFault>
    ensures { Checks result (shape_fault Shape.Rules name.now (data_of value.now)) }
{
    if !are_texts_up_to(value, 32) {
        return Err(wrong_shape(alloc, name));
    }
    match value {
        Value::Array(items) => check_rule_names(alloc, items),
        _ => Ok(()),
    }
}

fn check_rule_names(alloc: Global, items: &Vec<Value>) -> Result<(), SettingsFault>
    ensures { Checks result (bad_rule (item_texts (items_view items.now.items))) }
{
    for item in items {
        if let Some(text) = item.as_str() {
            check_rule_name(alloc, text)?;
        }
    }
    Ok(())
}

fn check_rule_name(alloc: Global, text: &str) -> Result<(), SettingsFault>
    ensures { Checks result (bad_rule (text.now ∷ [])) }
{
    match ranking_rule(alloc, text)? {
        Some(_) => Ok(()),
        None => {
            let text = Word::new(alloc, text)?;
            Err(Fault::Refused(SettingsRefusal::BadRankingRule { text }))
        }
    }
}

/// Tries an object that may have one member, a number.
fn check_nested(alloc: Global, outer: &str, inner: &str, value: &Value) -> Result<(), SettingsFault>
    ensures { Checks result (nested_fault outer.now inner.now (data_of value.now)) }
{
    match value {
        Value::Object(members) => check_inside(alloc, outer, inner, members),
        _ => Err(wrong_shape(alloc, outer)),
    }
}

fn check_inside(
    alloc: Global,
    outer: &str,
    inner: &str,
    members: &Map<String, Value>,
) -> Result<(), SettingsFault>
    ensures { Checks result (first_inner outer.now inner.now (members_view members.now.entries)) }
{
    for (name, value) in members.iter() {
        check_inner(alloc, outer, inner, name.as_str(), value)?;
    }
    Ok(())
}

fn check_inner(
    alloc: Global,
    outer: &str,
    inner: &str,
    name: &str,
    value: &Value,
) -> Result<(), SettingsFault>
    ensures { Checks result (inner_fault outer.now inner.now name.now (data_of value.now)) }
{
    let whole = format!(in alloc; "{outer}.{name}")?;
    if name != inner {
        let member = Word::from_string(whole)?;
        return Err(Fault::Refused(SettingsRefusal::UnknownMember { member }));
    }
    check_right(
        alloc,
        value.is_null() || is_number_up_to(value, 1_000_000),
        whole.as_str(),
    )
}
