ghost use Rattle.std.specs.Prelude.{◌≡◌, IfOk, map, option_map};
ghost use Rattle.std.specs.Path.{rsplit_once};
ghost use Rattle.serde_json.specs.View.{view};
ghost use Rattle.search_bodies.specs.Formats.{formats_in as formats_by, crop_in as crop_by, crop_row as crop_row_of, own_length as own_length_of};

use crate::values::{count_at, flag_at, names_at, text_or};
use request_refusals::SearchMember;
use request_routes::number_of;
use search_base::{NoMemory, Word};
use search_call::{CropRow, FormatCall};
use serde_json::Value;
use std::alloc::Global;

/// An entry gives its own length in at most so many digits.
const MAX_DIGITS: usize = 18;

/// How hits show their texts, as the members of an object ask for it. Each has its default until it is given.
pub(crate) fn formats_in(alloc: Global, object: &Value) -> Result<FormatCall, NoMemory>
    ensures { IfOk result (λ formats. formats ≡ formats_by (view object.now)) }
{
    Ok(FormatCall {
        highlight: names_at(alloc, object, SearchMember::AttributesToHighlight)?,
        crop: crop_in(alloc, object)?,
        marker: text_or(alloc, object, SearchMember::CropMarker, "…")?,
        pre: text_or(alloc, object, SearchMember::HighlightPreTag, "<em>")?,
        post: text_or(alloc, object, SearchMember::HighlightPostTag, "</em>")?,
        positions: flag_at(object, SearchMember::ShowMatchesPosition),
    })
}

fn crop_in(alloc: Global, object: &Value) -> Result<Option<Vec<CropRow>>, NoMemory>
    ensures { IfOk result (λ rows. option_map (λ list. list.items) rows ≡ crop_by (view object.now)) }
{
    let default = count_at(object, SearchMember::CropLength).unwrap_or(10);
    match names_at(alloc, object, SearchMember::AttributesToCrop)? {
        Some(entries) => Ok(Some(crop_rows(alloc, default, &entries)?)),
        None => Ok(None),
    }
}

fn crop_rows(alloc: Global, default: u64, entries: &[Word]) -> Result<Vec<CropRow>, NoMemory>
    ensures { IfOk result (λ rows. rows.items ≡ map (crop_row_of default) entries.now) }
{
    let mut rows = Vec::new(alloc);
    for entry in entries {
        rows.push(crop_row(alloc, default, entry.as_str())?)?;
    }
    Ok(rows)
}

// An entry's attribute, with its own length behind a colon, or else with this one.
fn crop_row(alloc: Global, default: u64, entry: &str) -> Result<CropRow, NoMemory>
    ensures { IfOk result (λ row. row ≡ crop_row_of default entry.now) }
{
    if let Some((attribute, digits)) = at_last_colon(entry) {
        if let Some(length) = own_length(digits) {
            return Ok(CropRow {
                attribute: Word::new(alloc, attribute)?,
                length,
            });
        }
    }
    Ok(CropRow {
        attribute: Word::new(alloc, entry)?,
        length: default,
    })
}

// What stands before the last colon, and what behind it.
fn at_last_colon(entry: &str) -> Option<(&str, &str)>
    ensures { option_map (λ parts. (parts.0.now, parts.1.now)) result ≡ rsplit_once 58 entry.now }
{
    entry.rsplit_once(':')
}

fn own_length(digits: &str) -> Option<u64>
    ensures { result ≡ own_length_of digits.now }
{
    if digits.len() <= MAX_DIGITS {
        number_of(digits)
    } else {
        None
    }
}
