ghost use Rattle.std.specs.Prelude.{◌≡◌, None, IfOk, option_map};
ghost use Rattle.std.specs.Rc.{rc_slice_items};
ghost use Rattle.serde_json.specs.Find.{get, as_str};
ghost use Rattle.serde_json.specs.View.{view as data_of};
ghost use Rattle.search_base.specs.Gives.{Gives};
ghost use Rattle.index_settings.specs.Limits.{AreInOrder};
ghost use Rattle.index_settings.specs.Patch.{chosen, patch_of, patched as patched_view};
ghost use Rattle.index_settings.specs.Table.{defaults, patch_fault};
ghost use Rattle.index_settings.specs.Values.{number_in, texts_in, synonyms_in};

use crate::fault::SettingsFault;
use crate::settings::Settings;
use crate::shape::check_patch;
use crate::synonyms::{SynonymList, synonyms_of};
use crate::texts::texts_of;
use search_base::{NoMemory, Word};
use serde_json::Value;
use std::alloc::Global;
use std::rc::RcSlice;

/// The settings after a patch: a JSON object that names the members to be changed.
///
/// A member that is not named stays as it was in `old`; null gives a member its default. The first member
/// in byte order of names that is not acceptable decides which fault it is. `old` stays as it was.
pub fn patch(alloc: Global, old: &Settings, members: &Value) -> Result<Settings, SettingsFault>
    ensures { Gives (λ settings. settings) result (patch_of old.now (data_of members.now)) }
{
    check_patch(alloc, members)?;
    Ok(patch_checked(alloc, old, members)?)
}

/// The settings after a patch that `check_patch` accepts. `old` stays as it was.
pub fn patch_checked(alloc: Global, old: &Settings, members: &Value) -> Result<Settings, NoMemory>
    requires { patch_fault (data_of members.now) ≡ None }
    ensures { IfOk result (λ settings. settings ≡ patched_view defaults old.now (data_of members.now)) }
{
    let default = Settings::defaults(alloc)?;
    patched(alloc, &default, old, members)
}

/// The settings after a patch that has no fault. Null gives the member of `default`.
fn patched(
    alloc: Global,
    default: &Settings,
    old: &Settings,
    members: &Value,
) -> Result<Settings, NoMemory>
    requires { patch_fault (data_of members.now) ≡ None }
    ensures { IfOk result (λ settings. settings
        ≡ patched_view default.now old.now (data_of members.now)) }
{
    Ok(Settings {
        displayed_attributes: texts_after(
            alloc,
            &old.displayed_attributes,
            &default.displayed_attributes,
            members.get("displayedAttributes"),
        )?,
        distinct_attribute: attribute_after(
            alloc,
            &old.distinct_attribute,
            &default.distinct_attribute,
            members.get("distinctAttribute"),
        )?,
        filterable_attributes: texts_after(
            alloc,
            &old.filterable_attributes,
            &default.filterable_attributes,
            members.get("filterableAttributes"),
        )?,
        max_total_hits: number_inside_after(
            old.max_total_hits,
            default.max_total_hits,
            "maxTotalHits",
            members.get("pagination"),
        ),
        max_values_per_facet: number_inside_after(
            old.max_values_per_facet,
            default.max_values_per_facet,
            "maxValuesPerFacet",
            members.get("faceting"),
        ),
        ranking_rules: texts_after(
            alloc,
            &old.ranking_rules,
            &default.ranking_rules,
            members.get("rankingRules"),
        )?,
        searchable_attributes: texts_after(
            alloc,
            &old.searchable_attributes,
            &default.searchable_attributes,
            members.get("searchableAttributes"),
        )?,
        sortable_attributes: texts_after(
            alloc,
            &old.sortable_attributes,
            &default.sortable_attributes,
            members.get("sortableAttributes"),
        )?,
        stop_words: texts_after(
            alloc,
            &old.stop_words,
            &default.stop_words,
            members.get("stopWords"),
        )?,
        synonyms: synonyms_after(
            alloc,
            &old.synonyms,
            &default.synonyms,
            members.get("synonyms"),
        )?,
    })
}

/// A list of texts after a patch that gives it `value`.
fn texts_after(
    alloc: Global,
    old: &RcSlice<Word>,
    default: &RcSlice<Word>,
    value: Option<&Value>,
) -> Result<RcSlice<Word>, NoMemory>
    ensures { IfOk result (λ texts. rc_slice_items texts
        ≡ chosen (rc_slice_items old.now) (rc_slice_items default.now) texts_in
        (option_map (λ v. data_of v.now) value.entry)) }
{
    match value {
        None => Ok(old.clone()?),
        Some(value) => if value.is_null() {
            Ok(default.clone()?)
        } else {
            Ok(RcSlice::from_vec(texts_of(alloc, value)?)?)
        },
    }
}

/// The synonyms after a patch that gives them `value`.
fn synonyms_after(
    alloc: Global,
    old: &RcSlice<SynonymList>,
    default: &RcSlice<SynonymList>,
    value: Option<&Value>,
) -> Result<RcSlice<SynonymList>, NoMemory>
    requires old { AreInOrder (rc_slice_items old.now) }
    requires default { AreInOrder (rc_slice_items default.now) }
    ensures lists { IfOk result (λ lists. rc_slice_items lists
        ≡ chosen (rc_slice_items old.now) (rc_slice_items default.now) synonyms_in
        (option_map (λ v. data_of v.now) value.entry)) }
    ensures in_order { IfOk result (λ lists. AreInOrder (rc_slice_items lists)) }
{
    match value {
        None => Ok(old.clone()?),
        Some(value) => if value.is_null() {
            Ok(default.clone()?)
        } else {
            Ok(RcSlice::from_vec(synonyms_of(alloc, value)?)?)
        },
    }
}

/// The name of an attribute after a patch that gives it `value`.
fn attribute_after(
    alloc: Global,
    old: &Option<Word>,
    default: &Option<Word>,
    value: Option<&Value>,
) -> Result<Option<Word>, NoMemory>
    ensures { IfOk result (λ attribute. attribute
        ≡ chosen old.now default.now as_str (option_map (λ v. data_of v.now) value.entry)) }
{
    match value {
        None => Ok(old.clone()?),
        Some(value) => if value.is_null() {
            Ok(default.clone()?)
        } else {
            named(alloc, value.as_str())
        },
    }
}

fn named(alloc: Global, text: Option<&str>) -> Result<Option<Word>, NoMemory>
    ensures { IfOk result (λ name. name ≡ option_map (λ t. t.now) text.entry) }
{
    match text {
        Some(text) => Ok(Some(Word::new(alloc, text)?)),
        None => Ok(None),
    }
}

/// A number after a patch that gives the object it stands in, under the name `inner`, as `value`.
fn number_inside_after(old: u64, default: u64, inner: &str, value: Option<&Value>) -> u64
    ensures { result ≡ chosen old default (λ d. chosen old default number_in (get inner.now d))
        (option_map (λ v. data_of v.now) value.entry) }
{
    match value {
        None => old,
        Some(value) => if value.is_null() {
            default
        } else {
            number_after(old, default, value.get(inner))
        },
    }
}

/// A number after a patch that gives it as `value`.
fn number_after(old: u64, default: u64, value: Option<&Value>) -> u64
    ensures { result ≡ chosen old default number_in (option_map (λ v. data_of v.now) value.entry) }
{
    match value {
        None => old,
        Some(value) => if value.is_null() {
            default
        } else {
            value.as_u64().unwrap_or(0)
        },
    }
}
