// The indexes that a machine holds, each under its uid.
ghost use Rattle.std.specs.Prelude.{◌≡◌, ◌++◌, ◌∷◌, List, IfOk, OnOk, map, false};
ghost use Rattle.std.specs.Option.{option_copied};
ghost use Rattle.serde_json.specs.Data.{Data, array};
ghost use Rattle.serde_json.specs.View.{view, items_of, items_view};
ghost use Rattle.serde_json.specs.Written.{has_float, items_have_float};
ghost use Rattle.search_base.specs.Gives.{Gives};
ghost use Rattle.request_replies.specs.Replies.{index_data};
ghost use Rattle.search_routes.specs.Machine.{slice, index_named as index_under, index_rows};

use index_core::IndexCore;
use named_indexes::Indexes;
use request_refusals::Refusal;
use request_replies::index_value;
use search_base::{Fault, NoMemory, Word};
use serde_json::Value;
use std::alloc::Global;

/// The index of this uid, or its refusal.
pub(crate) fn index_named<'a>(
    indexes: &'a Indexes,
    uid: &Word,
) -> Result<&'a IndexCore, Fault<Refusal>>
    ensures { Gives (λ index. index.now) result (index_under uid.now indexes.now) }
{
    match indexes.get(uid) {
        Some(index) => Ok(index),
        None => Err(Fault::Refused(Refusal::NoIndex { uid: uid.clone()? })),
    }
}

/// The indexes from the place `offset` on, at most `limit` of them, as a JSON array.
pub(crate) fn index_values(
    alloc: Global,
    offset: u64,
    limit: u64,
    indexes: &Indexes,
) -> Result<Value, NoMemory>
    ensures value { IfOk result (λ value. view value
        ≡ array (items_of (slice offset limit (index_rows indexes.now)))) }
    ensures whole { IfOk result (λ value. has_float (view value) ≡ false) }
{
    let mut values = Vec::new(alloc);
    let mut left = Left {
        skip: offset,
        room: limit,
    };
    let entries = indexes.entries();
    for (uid, index) in entries.iter() {
        left = put_index(alloc, &mut values, left, uid.as_str(), index.key())?;
    }
    Ok(Value::Array(values))
}

// How many rows are still passed over, and how many are taken after them.
#[derive(Clone, Copy)]
struct Left {
    skip: u64,
    room: u64,
}

// Passes over an index, or puts it among the values where there is room.
fn put_index(
    alloc: Global,
    values: &mut Vec<Value>,
    left: Left,
    uid: &str,
    key: Option<&Word>,
) -> Result<Left, NoMemory>
    ensures rows { IfOk result (λ after. (rest : List Data)
        → map view values.new.items ++ slice after.skip after.room rest
        ≡ map view values.old.items
        ++ slice left.skip left.room (index_data uid.now (option_copied key.entry) ∷ rest)) }
    ensures whole { items_have_float (items_view values.old.items) ≡ false
        → OnOk result (items_have_float (items_view values.new.items) ≡ false) }
{
    if left.skip > 0 {
        return Ok(Left {
            skip: left.skip - 1,
            room: left.room,
        });
    }
    if left.room == 0 {
        return Ok(left);
    }
    values.push(index_value(alloc, uid, key)?)?;
    Ok(Left {
        skip: 0,
        room: left.room - 1,
    })
}
