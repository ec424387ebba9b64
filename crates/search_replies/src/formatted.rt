// Members with their texts as a search shows them.
ghost use Rattle.std.specs.Prelude.{◌≡◌, ◌++◌, ◌∷◌, OnOk, string_bytes, false};
ghost use Rattle.json.specs.Print.{quoted};
ghost use Rattle.serde_json.specs.Data.{array, object};
ghost use Rattle.serde_json.specs.View.{view, items_view, members_view};
ghost use Rattle.serde_json.specs.Written.{compact_text, has_float, items_have_float, members_have_float};
ghost use Rattle.hit_format.specs.Formats.{format};
ghost use Rattle.search_replies.specs.Added.{members_of};
ghost use Rattle.search_replies.specs.Formatted.{format_for, formatted, formatted_data, items_with_texts, members_with_texts, with_texts};

use crate::marks::Marks;
use crate::own::Own;
use crate::text::{put_comma, put_name, put_value, quoted_text};
use hit_format::{Format, TermSet};
use search_base::NoMemory;
use serde_json::{Map, Value};
use std::alloc::Global;

/// Puts the object of the members that a hit has from its document, with their texts as the search shows them.
pub(crate) fn put_formatted(
    alloc: Global,
    text: &mut String,
    own: &Own,
    marks: &Marks,
) -> Result<(), NoMemory>
    requires { members_have_float (members_view own.now.members.now.entries) ≡ false }
    ensures { OnOk result (string_bytes text.new ≡ string_bytes text.old
        ++ compact_text (formatted_data marks.now.terms marks.now.formats
        (members_of own.now))) }
{
    text.push_str("{")?;
    let mut later = false;
    for (name, value) in own.members.iter() {
        if !own.has(name.as_str()) {
            continue;
        }
        put_comma(text, later)?;
        put_member(alloc, text, marks, name.as_str(), value)?;
        later = true;
    }
    text.push_str("}")?;
    Ok(())
}

fn put_member(
    alloc: Global,
    text: &mut String,
    marks: &Marks,
    name: &str,
    value: &Value,
) -> Result<(), NoMemory>
    requires { has_float (view value.now) ≡ false }
    ensures { OnOk result (string_bytes text.new ≡ string_bytes text.old ++ (quoted name.now ++ 58 ∷ compact_text
        (formatted marks.now.terms (format_for marks.now.formats name.now) (view value.now)))) }
{
    put_name(alloc, text, name)?;
    match &marks.format(name)? {
        Some(how) => put_with_texts(alloc, text, marks.terms(), how, value),
        None => put_value(alloc, text, value),
    }
}

// Puts a value, with the texts in it as they are shown.
#[cycle(texts)]
fn put_with_texts(
    alloc: Global,
    text: &mut String,
    terms: &TermSet,
    how: &Format,
    value: &Value,
) -> Result<(), NoMemory>
    requires { has_float (view value.now) ≡ false }
    ensures { OnOk result (string_bytes text.new
        ≡ string_bytes text.old ++ compact_text (with_texts terms.now how.now (view value.now))) }
{
    match value {
        Value::String(plain) => put_shown(alloc, text, terms, how, plain.as_str()),
        Value::Array(items) => put_items(alloc, text, terms, how, items),
        Value::Object(members) => put_members(alloc, text, terms, how, members),
        _ => put_value(alloc, text, value),
    }
}

fn put_shown(
    alloc: Global,
    text: &mut String,
    terms: &TermSet,
    how: &Format,
    plain: &str,
) -> Result<(), NoMemory>
    ensures { OnOk result (string_bytes text.new
        ≡ string_bytes text.old ++ quoted (format plain.now terms.now how.now)) }
{
    let shown = terms.format(alloc, plain, how)?;
    let shown = quoted_text(alloc, shown.as_str())?;
    text.push_str(&shown)?;
    Ok(())
}

#[cycle(texts)]
fn put_items(
    alloc: Global,
    text: &mut String,
    terms: &TermSet,
    how: &Format,
    items: &Vec<Value>,
) -> Result<(), NoMemory>
    requires { items_have_float (items_view items.now.items) ≡ false }
    ensures { OnOk result (string_bytes text.new ≡ string_bytes text.old
        ++ compact_text (array (items_with_texts terms.now how.now (items_view items.now.items)))) }
{
    text.push_str("[")?;
    let mut later = false;
    for item in items {
        put_comma(text, later)?;
        put_with_texts(alloc, text, terms, how, item)?;
        later = true;
    }
    text.push_str("]")?;
    Ok(())
}

#[cycle(texts)]
fn put_members(
    alloc: Global,
    text: &mut String,
    terms: &TermSet,
    how: &Format,
    members: &Map<String, Value>,
) -> Result<(), NoMemory>
    requires { members_have_float (members_view members.now.entries) ≡ false }
    ensures { OnOk result (string_bytes text.new ≡ string_bytes text.old
        ++ compact_text (object (members_with_texts terms.now how.now (members_view members.now.entries)))) }
{
    text.push_str("{")?;
    let mut later = false;
    for (name, member) in members.iter() {
        put_comma(text, later)?;
        put_name(alloc, text, name.as_str())?;
        put_with_texts(alloc, text, terms, how, member)?;
        later = true;
    }
    text.push_str("}")?;
    Ok(())
}
