ghost use Rattle.std.specs.Prelude.{◌≡◌, ℕ, List, [], ◌++◌, bytes_eq, if◌then◌else◌, IfOk, OnOk};
ghost use Rattle.std.specs.Option.{option_copied};
ghost use Rattle.serde_json.specs.View.{view, items_view, members_view, number_view};
ghost use Rattle.doc_values.specs.Walk.{walk, walk_of_members, walk_inside, walk_inside_items, mark_of, whole_number};
ghost use Rattle.doc_values.specs.Leaves.{leaves_of, leaves_of_items, marks_of, found_at};
ghost use Rattle.doc_values.specs.Grouped.{values_at};

use crate::document::Document;
use crate::walk::member_path;
use search_base::{MarkKind, NoMemory, Word};
use serde_json::{Map, Number, Value};
use std::alloc::Global;
use std::collections::BTreeMap;

/// What a path holds: a leaf (a text, a whole number from -2^63 to 2^64 - 1, or a truth value), or a mark.
#[derive(Debug, Drop)]
pub enum Flat {
    Text(Word),
    Number(i128),
    Bool(bool),
    Mark(MarkKind),
}

/// What each path of a document holds, in the order of the walk. A path that is not there holds nothing.
pub type PathValues = BTreeMap<Word, Vec<Flat>>;

/// What the walk of a document finds at each path.
///
/// A path has, of each member visited there in turn, the marks that hold of its value, `Exists` and then `Null` or
/// `Empty`, and then the leaves of its value, as they stand in it (through arrays). Null in an array leaves nothing.
/// A path is spelt once for each member visited there.
pub fn values_by_path(alloc: Global, document: &Document) -> Result<PathValues, NoMemory>
    ensures { IfOk result (λ values. (path : List ℕ) → values_at values path ≡ found_at path (walk document.now)) }
{
    let mut values = BTreeMap::new(alloc);
    if let Value::Object(members) = document.as_json() {
        put_members(alloc, None, members, &mut values)?;
    }
    Ok(values)
}

// The mark that holds of a value beside `Exists`.
fn second_mark(value: &Value) -> Option<MarkKind>
    ensures { result ≡ mark_of (view value.now) }
{
    match value {
        Value::Null => Some(MarkKind::Null),
        Value::String(text) => if text.is_empty() {
            Some(MarkKind::Empty)
        } else {
            None
        },
        Value::Array(items) => if items.is_empty() {
            Some(MarkKind::Empty)
        } else {
            None
        },
        Value::Object(members) => if members.is_empty() {
            Some(MarkKind::Empty)
        } else {
            None
        },
        _ => None,
    }
}

fn whole_of(number: &Number) -> i128
    ensures { result ≡ whole_number (number_view number.now) }
{
    number.as_i128().unwrap_or(0)
}

#[cycle(leaves)]
fn add_leaves(alloc: Global, value: &Value, leaves: &mut Vec<Flat>) -> Result<(), NoMemory>
    ensures { OnOk result (leaves.new.items ≡ leaves.old.items ++ leaves_of (view value.now)) }
{
    match value {
        Value::Bool(truth) => leaves.push(Flat::Bool(*truth))?,
        Value::Number(number) => leaves.push(Flat::Number(whole_of(number)))?,
        Value::String(text) => leaves.push(Flat::Text(Word::new(alloc, text.as_str())?))?,
        Value::Array(items) => add_leaves_of_items(alloc, items, leaves)?,
        Value::Null => {}
        Value::Object(_) => {}
    }
    Ok(())
}

#[cycle(leaves)]
fn add_leaves_of_items(
    alloc: Global,
    items: &Vec<Value>,
    leaves: &mut Vec<Flat>,
) -> Result<(), NoMemory>
    ensures { OnOk result (leaves.new.items ≡ leaves.old.items ++ leaves_of_items (items_view items.now.items)) }
{
    for item in items {
        add_leaves(alloc, item, leaves)?;
    }
    Ok(())
}

// The marks that hold of a value, and its leaves.
fn own_values(alloc: Global, value: &Value) -> Result<Vec<Flat>, NoMemory>
    ensures { IfOk result (λ own. own.items ≡ marks_of (view value.now) ++ leaves_of (view value.now)) }
{
    let mut own = Vec::new(alloc);
    own.push(Flat::Mark(MarkKind::Exists))?;
    if let Some(kind) = second_mark(value) {
        own.push(Flat::Mark(kind))?;
    }
    add_leaves(alloc, value, &mut own)?;
    Ok(own)
}

// Puts values behind those that their path has.
fn put_values(
    alloc: Global,
    path: Word,
    own: Vec<Flat>,
    values: &mut PathValues,
) -> Result<(), NoMemory>
    ensures { OnOk result ((other : List ℕ) → values_at values.new other
        ≡ values_at values.old other ++ (if bytes_eq other path then own.items else [])) }
{
    let list = values.entry(path)?.or_insert(Vec::new(alloc));
    if list.is_empty() {
        *list = own;
    } else {
        let mut own = own;
        list.append(&mut own)?;
    }
    Ok(())
}

// Puts what each member of an object holds, and what the members inside it hold, under their paths. Those inside come
// first, so that the member's path is borrowed for them, and then moved.
#[cycle(put)]
fn put_members(
    alloc: Global,
    above: Option<&Word>,
    members: &Map<String, Value>,
    values: &mut PathValues,
) -> Result<(), NoMemory>
    ensures { OnOk result ((path : List ℕ) → values_at values.new path ≡ values_at values.old path
        ++ found_at path (walk_of_members (option_copied above.entry) (members_view members.now.entries))) }
{
    for (name, member) in members.iter() {
        let path = member_path(alloc, above, name.as_str())?;
        put_inside(alloc, &path, member, values)?;
        put_values(alloc, path, own_values(alloc, member)?, values)?;
    }
    Ok(())
}

// The same of the members inside a value, whose path is given.
#[cycle(put)]
fn put_inside(
    alloc: Global,
    path: &Word,
    value: &Value,
    values: &mut PathValues,
) -> Result<(), NoMemory>
    ensures { OnOk result ((other : List ℕ) → values_at values.new other
        ≡ values_at values.old other ++ found_at other (walk_inside path.now (view value.now))) }
{
    match value {
        Value::Array(items) => put_inside_items(alloc, path, items, values),
        Value::Object(members) => put_members(alloc, Some(path), members, values),
        _ => Ok(()),
    }
}

#[cycle(put)]
fn put_inside_items(
    alloc: Global,
    path: &Word,
    items: &Vec<Value>,
    values: &mut PathValues,
) -> Result<(), NoMemory>
    ensures { OnOk result ((other : List ℕ) → values_at values.new other
        ≡ values_at values.old other ++ found_at other (walk_inside_items path.now (items_view items.now.items))) }
{
    for item in items {
        put_inside(alloc, path, item, values)?;
    }
    Ok(())
}
