ghost use Rattle.std.specs.Prelude.{◌≡◌, ◌≤◌, Ok, false, IfOk, OnOk, option_map};
ghost use Rattle.serde_json.specs.Data.{object, put, depth};
ghost use Rattle.serde_json.specs.Read.{max_depth};
ghost use Rattle.serde_json.specs.View.{view as data_of, members_view};
ghost use Rattle.serde_json.specs.Written.{has_float};
ghost use Rattle.index_settings.specs.Json.{settings_data, nested_number, synonym_members, texts_data, text_or_null};
ghost use Rattle.index_settings.specs.Limits.{AreInOrder, IsSettings};
ghost use Rattle.index_settings.specs.View.{SettingsView};
ghost use Rattle.index_settings.specs.Patch.{patch_of};

use crate::settings::Settings;
use crate::synonyms::SynonymList;
use search_base::{NoMemory, Word};
use serde_json::{Map, Value};
use std::alloc::Global;

/// The settings as JSON: an object of all ten members. Taken as a patch of any settings, it gives these.
pub fn to_json(alloc: Global, settings: &Settings) -> Result<Value, NoMemory>
    ensures value { IfOk result (λ value. data_of value ≡ settings_data settings.now) }
    ensures back { IfOk result (λ value. (old : SettingsView) → patch_of old (data_of value) ≡ Ok settings.now) }
    ensures whole { IfOk result (λ value. has_float (data_of value) ≡ false) }
    ensures shallow { IfOk result (λ value. depth (data_of value) ≤ max_depth) }
{
    let value = settings_value(alloc, settings)?;
    Ok(value)
}

fn settings_value(alloc: Global, settings: &Settings) -> Result<Value, NoMemory>
    ensures value { IfOk result (λ value. data_of value ≡ settings_data settings.now) }
    ensures within { OnOk result (IsSettings settings.now) }
{
    let mut members = Map::new(alloc);
    put_texts(
        alloc,
        &mut members,
        "displayedAttributes",
        settings.displayed_attributes(),
    )?;
    let distinct = text_value(alloc, settings.distinct_attribute())?;
    serde_json::put(&mut members, alloc, "distinctAttribute", distinct)?;
    let faceting = number_value(alloc, "maxValuesPerFacet", settings.max_values_per_facet)?;
    serde_json::put(&mut members, alloc, "faceting", faceting)?;
    put_texts(
        alloc,
        &mut members,
        "filterableAttributes",
        settings.filterable_attributes(),
    )?;
    let pagination = number_value(alloc, "maxTotalHits", settings.max_total_hits)?;
    serde_json::put(&mut members, alloc, "pagination", pagination)?;
    put_texts(
        alloc,
        &mut members,
        "rankingRules",
        settings.ranking_rules(),
    )?;
    put_texts(
        alloc,
        &mut members,
        "searchableAttributes",
        settings.searchable_attributes(),
    )?;
    put_texts(
        alloc,
        &mut members,
        "sortableAttributes",
        settings.sortable_attributes(),
    )?;
    put_texts(alloc, &mut members, "stopWords", settings.stop_words())?;
    let synonyms = synonyms_value(alloc, settings.synonyms())?;
    serde_json::put(&mut members, alloc, "synonyms", synonyms)?;
    Ok(Value::Object(members))
}

fn put_texts(
    alloc: Global,
    members: &mut Map<String, Value>,
    name: &str,
    texts: &[Word],
) -> Result<(), NoMemory>
    ensures { OnOk result (members_view members.new.entries
        ≡ put name.now (texts_data texts.now) (members_view members.old.entries)) }
{
    let value = texts_value(alloc, texts)?;
    serde_json::put(members, alloc, name, value)?;
    Ok(())
}

/// An object of one number.
fn number_value(alloc: Global, name: &str, number: u64) -> Result<Value, NoMemory>
    ensures { IfOk result (λ value. data_of value ≡ nested_number name.now number) }
{
    let mut members = Map::new(alloc);
    serde_json::put(&mut members, alloc, name, Value::from(number))?;
    Ok(Value::Object(members))
}

fn texts_value(alloc: Global, texts: &[Word]) -> Result<Value, NoMemory>
    ensures { IfOk result (λ value. data_of value ≡ texts_data texts.now) }
{
    let mut items = Vec::new(alloc);
    for text in texts {
        items.push(Value::try_from_str(alloc, text.as_str())?)?;
    }
    Ok(Value::Array(items))
}

fn text_value(alloc: Global, text: Option<&Word>) -> Result<Value, NoMemory>
    ensures { IfOk result (λ value. data_of value ≡ text_or_null (option_map (λ text. text.now) text.entry)) }
{
    match text {
        Some(text) => Ok(Value::try_from_str(alloc, text.as_str())?),
        None => Ok(Value::Null),
    }
}

fn synonyms_value(alloc: Global, lists: &[SynonymList]) -> Result<Value, NoMemory>
    requires { AreInOrder lists.now }
    ensures { IfOk result (λ value. data_of value ≡ object (synonym_members lists.now)) }
{
    let mut members = Map::new(alloc);
    for list in lists {
        let texts = texts_value(alloc, &list.texts)?;
        serde_json::put(&mut members, alloc, list.key.as_str(), texts)?;
    }
    Ok(Value::Object(members))
}
