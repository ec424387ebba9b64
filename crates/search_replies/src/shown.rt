// Documents and hits in the bodies of replies: kept texts are joined, and read back only where some members are left
// out or others come to them.
ghost use Rattle.std.specs.Prelude.{◌≡◌, ◌++◌, ◌∷◌, IfOk, OnOk, map, string_bytes, false};
ghost use Rattle.std.specs.Option.{option_copied};
ghost use Rattle.json.specs.Print.{quoted};
ghost use Rattle.serde_json.specs.Data.{Members, no_members, member, array, object};
ghost use Rattle.serde_json.specs.View.{view, items_of, members_view};
ghost use Rattle.serde_json.specs.Written.{comma_if, compact_text, has_float, members_text, members_have_float};
ghost use Rattle.doc_values.specs.Walk.{members_in};
ghost use Rattle.search_replies.specs.Added.{members_of, owns, with_waiting, AreInOrder};
ghost use Rattle.search_replies.specs.Members.{members_by};
ghost use Rattle.search_replies.specs.Names.{shows};
ghost use Rattle.search_replies.specs.Shown.{shown, all_shown, shown_by};
ghost use Rattle.search_result.specs.View.{hit_view};

use crate::added::{Added, added_to, put_added};
use crate::display::Display;
use crate::names::Names;
use crate::own::Own;
use crate::text::{put_comma, put_name, put_value};
use doc_values::DocumentText;
use search_base::{NoMemory, Word};
use search_result::Hit;
use serde_json::{Map, Value};
use std::alloc::Global;
use std::cmp::Ordering;

/// The text of a document, by the members that `fields` names. Its one error is want of memory.
pub fn shown_text(
    alloc: Global,
    fields: &[Word],
    document: &DocumentText,
) -> Result<String, NoMemory>
    ensures { IfOk result (λ text. string_bytes text ≡ compact_text (shown fields.now document.now)) }
{
    let names = Names::of(alloc, fields)?;
    let mut text = String::new(alloc);
    put_document(alloc, &mut text, &names, document)?;
    Ok(text)
}

/// Puts a list of documents behind a text, each by the members that `fields` names. Its one error is want of memory.
pub fn put_documents(
    alloc: Global,
    text: &mut String,
    fields: &[Word],
    documents: &[&DocumentText],
) -> Result<(), NoMemory>
    ensures { OnOk result (string_bytes text.new ≡ string_bytes text.old
        ++ compact_text (array (items_of (all_shown fields.now (map (λ d. d.now) documents.now))))) }
{
    let names = Names::of(alloc, fields)?;
    put_by_names(alloc, text, &names, documents)?;
    Ok(())
}

// Puts a list of documents, by the members that these names show.
fn put_by_names(
    alloc: Global,
    text: &mut String,
    names: &Names,
    documents: &[&DocumentText],
) -> Result<(), NoMemory>
    ensures { OnOk result (string_bytes text.new ≡ string_bytes text.old ++ compact_text (array (items_of
        (map (λ d. object (members_by (shows names.now) (members_in d))) (map (λ d. d.now) documents.now))))) }
{
    text.push_str("[")?;
    let mut later = false;
    for document in documents {
        put_comma(text, later)?;
        put_document(alloc, text, names, document)?;
        later = true;
    }
    text.push_str("]")?;
    Ok(())
}

/// Puts a list of hits behind a text, each as `display` shows it. Its one error is want of memory.
pub fn put_hits(
    alloc: Global,
    text: &mut String,
    display: &Display,
    hits: &[Hit],
) -> Result<(), NoMemory>
    ensures { OnOk result (string_bytes text.new ≡ string_bytes text.old ++ compact_text (array (items_of
        (map (shown_by display.now) (map hit_view hits.now))))) }
{
    text.push_str("[")?;
    let mut later = false;
    for hit in hits {
        put_comma(text, later)?;
        put_hit(alloc, text, display, hit)?;
        later = true;
    }
    text.push_str("]")?;
    Ok(())
}

fn put_hit(alloc: Global, text: &mut String, display: &Display, hit: &Hit) -> Result<(), NoMemory>
    ensures { OnOk result (string_bytes text.new
        ≡ string_bytes text.old ++ compact_text (shown_by display.now (hit_view hit.now))) }
{
    let costs = hit.all_costs();
    let added = added_to(alloc, &display.marks, costs)?;
    if added.is_empty() {
        put_document(alloc, text, &display.names, hit.document)
    } else {
        put_chosen(alloc, text, &display.names, added.as_slice(), hit.document)
    }
}

// Puts a document by the members that these names show.
fn put_document(
    alloc: Global,
    text: &mut String,
    names: &Names,
    document: &DocumentText,
) -> Result<(), NoMemory>
    ensures { OnOk result (string_bytes text.new
        ≡ string_bytes text.old ++ compact_text (object (members_by (shows names.now) (members_in document.now)))) }
{
    if names.has_all() {
        text.push_str(document.text())?;
        return Ok(());
    }
    put_chosen(alloc, text, names, &[], document)
}

// Puts the members of a document that these names show, and the added ones.
fn put_chosen(
    alloc: Global,
    text: &mut String,
    names: &Names,
    added: &[Added],
    document: &DocumentText,
) -> Result<(), NoMemory>
    requires { AreInOrder added.now }
    ensures { OnOk result (string_bytes text.new ≡ string_bytes text.old ++ compact_text (object
        (with_waiting (members_by (owns names.now added.now) (members_in document.now)) added.now
        (members_by (shows names.now) (members_in document.now))))) }
{
    let document = document.document(alloc)?;
    match document.as_json() {
        Value::Object(members) => {
            let own = Own {
                names,
                added,
                members,
            };
            put_members(alloc, text, &own)
        }
        // A document is an object.
        _ => Ok(()),
    }
}

fn put_members(alloc: Global, text: &mut String, own: &Own) -> Result<(), NoMemory>
    requires whole { members_have_float (members_view own.now.members.now.entries) ≡ false }
    requires order { AreInOrder own.now.added.now }
    ensures { OnOk result (string_bytes text.new ≡ string_bytes text.old ++ compact_text (object
        (with_waiting (members_of own.now) own.now.added.now
        (members_by (shows own.now.names.now) (members_view own.now.members.now.entries))))) }
{
    text.push_str("{")?;
    let mut line = Line {
        later: false,
        waiting: own.added,
    };
    for (name, value) in own.members.iter() {
        if own.names.has(name.as_str()) {
            line = put_shown(alloc, text, line, own, name.as_str(), value)?;
        }
    }
    put_rest(alloc, text, line, own)
}

// An object whose members are put one after the other: whether some stand there, and the added ones that still wait for
// their place.
#[derive(Clone, Copy)]
struct Line<'a> {
    later: bool,
    waiting: &'a [Added<'a>],
}

// Puts a member, and before it or in its place the added ones that stand there.
fn put_shown<'a>(
    alloc: Global,
    text: &mut String,
    line: Line<'a>,
    own: &Own,
    name: &str,
    value: &Value,
) -> Result<Line<'a>, NoMemory>
    requires whole { has_float (view value.now) ≡ false }
    requires all_whole { members_have_float (members_view own.now.members.now.entries) ≡ false }
    requires order { AreInOrder line.waiting.now }
    ensures order { IfOk result (λ after. AreInOrder after.waiting.now) }
    ensures text { IfOk result (λ after. (rest : Members) → string_bytes text.new
        ++ members_text after.later (with_waiting (members_of own.now) after.waiting.now rest)
        ≡ string_bytes text.old ++ members_text line.entry.later (with_waiting (members_of own.now)
        line.entry.waiting.now (member name.now (view value.now) rest))) }
{
    let Some((added, waiting)) = line.waiting.split_first() else {
        put_member(alloc, text, line.later, name, value)?;
        return Ok(Line {
            later: true,
            waiting: line.waiting,
        });
    };
    let line_after = Line {
        later: true,
        waiting,
    };
    match added.name().cmp(name) {
        Ordering::Less => {
            put_added(alloc, text, line.later, own, added)?;
            put_shown(alloc, text, line_after, own, name, value)
        }
        Ordering::Equal => {
            put_added(alloc, text, line.later, own, added)?;
            Ok(line_after)
        }
        Ordering::Greater => {
            put_member(alloc, text, line.later, name, value)?;
            Ok(Line {
                later: true,
                waiting: line.waiting,
            })
        }
    }
}

fn put_member(
    alloc: Global,
    text: &mut String,
    later: bool,
    name: &str,
    value: &Value,
) -> Result<(), NoMemory>
    requires { has_float (view value.now) ≡ false }
    ensures { OnOk result (string_bytes text.new ≡ string_bytes text.old
        ++ (comma_if later ++ (quoted name.now ++ 58 ∷ compact_text (view value.now)))) }
{
    put_comma(text, later)?;
    put_name(alloc, text, name)?;
    put_value(alloc, text, value)
}

// Puts the added members that still wait, and the end of the object.
fn put_rest(alloc: Global, text: &mut String, line: Line, own: &Own) -> Result<(), NoMemory>
    requires whole { members_have_float (members_view own.now.members.now.entries) ≡ false }
    requires order { AreInOrder line.waiting.now }
    ensures { OnOk result (string_bytes text.new ≡ string_bytes text.old
        ++ members_text line.entry.later (with_waiting (members_of own.now) line.entry.waiting.now no_members)) }
{
    let mut later = line.later;
    for added in line.waiting {
        put_added(alloc, text, later, own, added)?;
        later = true;
    }
    text.push_str("}")?;
    Ok(())
}
