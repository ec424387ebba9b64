ghost use Rattle.std.specs.Prelude.{◌≡◌, ◌<◌, [], ◌++◌, length, get_or, Some, IfOk, OnOk};
ghost use Rattle.std.specs.Option.{option_copied, IfSome};
ghost use Rattle.serde_json.specs.View.{view, items_view, members_view};
ghost use Rattle.doc_values.specs.Walk.{path_of, paths_of, path_at as at_place, visited};
ghost use Rattle.doc_values.specs.Walk.{walk_of_members, walk_inside, walk_inside_items};

use crate::document::Document;
use search_base::{NoMemory, Word};
use serde_json::{Map, Value};
use std::alloc::Global;

/// The paths of the members that the walk of a document visits, in its order and as often as it visits them.
///
/// Members are visited in byte order of their names, each before the members inside its value. A member of an
/// object inside a member has the two names joined by a dot; an object in an array stands under the array's path.
pub fn paths(alloc: Global, document: &Document) -> Result<Vec<Word>, NoMemory>
    ensures { IfOk result (λ paths. paths.items ≡ paths_of document.now) }
{
    let mut paths = Vec::new(alloc);
    if let Value::Object(members) = document.as_json() {
        add_members(alloc, None, members, &mut paths)?;
    }
    Ok(paths)
}

// The path of a member, whose name stands below a path or at the top.
pub(crate) fn member_path(alloc: Global, above: Option<&Word>, name: &str) -> Result<Word, NoMemory>
    ensures { IfOk result (λ path. path ≡ path_of (option_copied above.entry) name.now) }
{
    match above {
        None => Word::new(alloc, name),
        Some(above) => Word::from_string(format!(in alloc; "{}.{}", above.as_str(), name)?),
    }
}

// The path at a place among paths, which may be none.
fn path_at(paths: &[Word], place: Option<usize>) -> Option<&Word>
    requires { IfSome place (λ place. place < length paths.now) }
    ensures { option_copied result ≡ at_place paths.now place }
{
    match place {
        None => None,
        Some(place) => Some(&paths[place]),
    }
}

// The members of an object, and those inside them. The path of the member above them stands among the paths.
#[cycle(add)]
fn add_members(
    alloc: Global,
    above: Option<usize>,
    members: &Map<String, Value>,
    paths: &mut Vec<Word>,
) -> Result<(), NoMemory>
    requires { IfSome above (λ place. place < length paths.old.items) }
    ensures { OnOk result (paths.new.items ≡ paths.old.items
        ++ visited (walk_of_members (at_place paths.old.items above) (members_view members.now.entries))) }
{
    for (name, member) in members.iter() {
        let path = member_path(alloc, path_at(paths, above), name.as_str())?;
        let place = paths.len();
        paths.push(path)?;
        add_inside(alloc, place, member, paths)?;
    }
    Ok(())
}

// The members inside a value, whose path stands at this place among the paths.
#[cycle(add)]
fn add_inside(
    alloc: Global,
    place: usize,
    value: &Value,
    paths: &mut Vec<Word>,
) -> Result<(), NoMemory>
    requires { place < length paths.old.items }
    ensures { OnOk result (paths.new.items ≡ paths.old.items
        ++ visited (walk_inside (get_or paths.old.items place []) (view value.now))) }
{
    match value {
        Value::Array(items) => add_inside_items(alloc, place, items, paths),
        Value::Object(members) => add_members(alloc, Some(place), members, paths),
        _ => Ok(()),
    }
}

#[cycle(add)]
fn add_inside_items(
    alloc: Global,
    place: usize,
    items: &Vec<Value>,
    paths: &mut Vec<Word>,
) -> Result<(), NoMemory>
    requires { place < length paths.old.items }
    ensures { OnOk result (paths.new.items ≡ paths.old.items
        ++ visited (walk_inside_items (get_or paths.old.items place []) (items_view items.now.items))) }
{
    for item in items {
        add_inside(alloc, place, item, paths)?;
    }
    Ok(())
}
