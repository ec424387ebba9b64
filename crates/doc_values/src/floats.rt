ghost use Rattle.std.specs.Prelude.{◌≡◌, None};
ghost use Rattle.std.specs.Option.{option_copied};
ghost use Rattle.serde_json.specs.View.{view, items_view, members_view};
ghost use Rattle.serde_json.specs.Written.{has_float as value_has_float, items_have_float, members_have_float as members_have};
ghost use Rattle.search_base.specs.Gives.{Checks};
ghost use Rattle.doc_values.specs.Walk.{holds_float as value_holds_float, items_hold_float, first_broken, walk_of_members, walk_inside, walk_inside_items};

use crate::document::{DocumentFault, DocumentRefusal};
use crate::walk::member_path;
use search_base::{Fault, Word};
use serde_json::{Map, Value};
use std::alloc::Global;

/// Whether JSON's reader keeps some number of a value, at any depth, as a float. Takes no memory.
#[cycle(have_float)]
pub fn has_float(value: &Value) -> bool
    ensures { result ≡ value_has_float (view value.now) }
{
    match value {
        Value::Number(number) => number.is_f64(),
        Value::Array(items) => items_have_a_float(items),
        Value::Object(members) => members_have_float(members),
        _ => false,
    }
}

#[cycle(have_float)]
fn items_have_a_float(items: &Vec<Value>) -> bool
    ensures { result ≡ items_have_float (items_view items.now.items) }
{
    for item in items {
        if has_float(item) {
            return true;
        }
    }
    false
}

#[cycle(have_float)]
fn members_have_float(members: &Map<String, Value>) -> bool
    ensures { result ≡ members_have (members_view members.now.entries) }
{
    for (_, member) in members.iter() {
        if has_float(member) {
            return true;
        }
    }
    false
}

// Whether a value holds, directly or through arrays, a number that is not whole.
#[cycle(hold_float)]
fn holds_float(value: &Value) -> bool
    ensures { result ≡ value_holds_float (view value.now) }
{
    match value {
        Value::Number(number) => number.is_f64(),
        Value::Array(items) => one_holds_float(items),
        _ => false,
    }
}

#[cycle(hold_float)]
fn one_holds_float(items: &Vec<Value>) -> bool
    ensures { result ≡ items_hold_float (items_view items.now.items) }
{
    for item in items {
        if holds_float(item) {
            return true;
        }
    }
    false
}

// Whether no member under a path holds a number that is not whole, or which is the first that does.
#[cycle(check)]
#[tactic(auto, using(crate::proofs::Broken::first_broken_append))]
fn check_members(
    alloc: Global,
    above: Option<&Word>,
    members: &Map<String, Value>,
) -> Result<(), DocumentFault>
    ensures { Checks result
        (first_broken (walk_of_members (option_copied above.entry) (members_view members.now.entries))) }
{
    for (name, member) in members.iter() {
        let path = member_path(alloc, above, name.as_str())?;
        if holds_float(member) {
            return Err(Fault::Refused(DocumentRefusal::NumberNotWhole { path }));
        }
        check_inside(alloc, &path, member)?;
    }
    Ok(())
}

// The same of the members inside a value, whose path is given.
#[cycle(check)]
#[tactic(auto, using(crate::proofs::Broken::first_broken_append))]
fn check_inside(alloc: Global, path: &Word, value: &Value) -> Result<(), DocumentFault>
    ensures { Checks result (first_broken (walk_inside path.now (view value.now))) }
{
    match value {
        Value::Array(items) => check_inside_items(alloc, path, items),
        Value::Object(members) => check_members(alloc, Some(path), members),
        _ => Ok(()),
    }
}

#[cycle(check)]
#[tactic(auto, using(std::proofs::lemmas::Grind::common_steps, crate::proofs::Broken::first_broken_append))]
fn check_inside_items(alloc: Global, path: &Word, items: &Vec<Value>) -> Result<(), DocumentFault>
    ensures { Checks result (first_broken (walk_inside_items path.now (items_view items.now.items))) }
{
    for item in items {
        check_inside(alloc, path, item)?;
    }
    Ok(())
}

// The same of an object's members, where a path takes memory only once it is known that there is one.
#[tactic(auto, using(crate::proofs::Broken::walk_of_members_none))]
pub(crate) fn check_object(alloc: Global, members: &Map<String, Value>) -> Result<(), DocumentFault>
    ensures { Checks result (first_broken (walk_of_members None (members_view members.now.entries))) }
{
    if members_have_float(members) {
        check_members(alloc, None, members)
    } else {
        Ok(())
    }
}
