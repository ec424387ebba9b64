ghost use Rattle.std.specs.Prelude.{◌≡◌, IfOk, OnOk};
ghost use Rattle.serde_json.specs.View.{view, members_view};
ghost use Rattle.doc_values.specs.Walk.{members_in};
ghost use Rattle.doc_values.specs.Stored.{merge, put_all};

use crate::document::Document;
use search_base::NoMemory;
use serde_json::{Map, Value};
use std::alloc::Global;

/// The document that an update leaves: the members of `new`, and those top members of `old` that `new` does not name.
pub fn merged(alloc: Global, old: &Document, new: &Document) -> Result<Document, NoMemory>
    ensures { IfOk result (λ document. document ≡ merge old.now new.now) }
{
    match old.as_json().clone()? {
        Value::Object(mut members) => {
            put_members_of(alloc, &mut members, new.as_json())?;
            Ok(Document::whole(Value::Object(members)))
        }
        other => Ok(Document::whole(other)),
    }
}

// Puts each member of an object into the map.
fn put_members_of(
    alloc: Global,
    members: &mut Map<String, Value>,
    added: &Value,
) -> Result<(), NoMemory>
    ensures { OnOk result (members_view members.new.entries
        ≡ put_all (members_in (view added.now)) (members_view members.old.entries)) }
{
    match added {
        Value::Object(added) => put_members(alloc, members, added),
        _ => Ok(()),
    }
}

fn put_members(
    alloc: Global,
    members: &mut Map<String, Value>,
    added: &Map<String, Value>,
) -> Result<(), NoMemory>
    ensures { OnOk result (members_view members.new.entries
        ≡ put_all (members_view added.now.entries) (members_view members.old.entries)) }
{
    for (name, member) in added.iter() {
        serde_json::put(members, alloc, name.as_str(), member.clone()?)?;
    }
    Ok(())
}
