ghost use Rattle.std.specs.Prelude.{◌≡◌, is_some};
ghost use Rattle.serde_json.specs.View.{view as data_of, items_view};
ghost use Rattle.filter_expr.specs.Texts.{texts_in, group_of, groups_in, groups_of};

use serde_json::Value;

/// Whether an array has texts alone.
fn are_texts(members: &Vec<Value>) -> bool
    ensures { result ≡ is_some (texts_in (items_view members.now.items)) }
{
    for member in members {
        match member {
            Value::String(_) => {}
            _ => return false,
        }
    }
    true
}

/// Whether a member of the outer array is a text or an array of texts.
fn is_group(member: &Value) -> bool
    ensures { result ≡ is_some (group_of (data_of member.now)) }
{
    match member {
        Value::String(_) => true,
        Value::Array(members) => are_texts(members),
        _ => false,
    }
}

/// Whether an array has texts and arrays of texts alone.
fn are_groups(members: &Vec<Value>) -> bool
    ensures { result ≡ is_some (groups_in (items_view members.now.items)) }
{
    for member in members {
        if !is_group(member) {
            return false;
        }
    }
    true
}

/// Whether a value has the shape of a filter.
pub(crate) fn has_groups(value: &Value) -> bool
    ensures { result ≡ is_some (groups_of (data_of value.now)) }
{
    match value {
        Value::Null => true,
        Value::String(_) => true,
        Value::Array(members) => are_groups(members),
        _ => false,
    }
}
