ghost use Rattle.std.specs.Prelude.{◌≡◌, ◌<◌, ◌≤◌, ◌∷◌, length, Some, None, option_map, OnOk, MatchResult};
ghost use Rattle.json.specs.Json.{read_key};
ghost use Rattle.json.specs.Reads.{token_of};
ghost use Rattle.serde_json.specs.View.{view, items_view, members_view};
ghost use Rattle.search_base.specs.declared.fault.Fault.TheVariants.{Refused as Turned};
ghost use Rattle.document_stream.specs.declared.fault.BodyRefusal.TheVariants.{NotJson as Broken};
ghost use Rattle.document_stream.specs.Reads.{value_at, items_at, members_at, Reads};

use crate::fault::{BodyFault, BodyRefusal};
use crate::number::read_number;
use json::{Reader, Token};
use search_base::Fault;
use serde_json::{Map, Value};
use std::alloc::Global;

/// The value that comes next, with lists and objects nested no deeper than `depth`.
///
/// The fault is `NotJson` or want of memory; what is left then is not said.
#[cycle(values)]
pub(crate) fn read_value(
    alloc: Global,
    reader: &mut Reader<'_>,
    depth: usize,
) -> Result<Value, BodyFault>
    ensures value { Reads view result (value_at depth reader.old) reader.new }
    ensures shorter { OnOk result (length reader.new < length reader.old) }
{
    let first = reader.next().ok_or(Fault::Refused(BodyRefusal::NotJson))?;
    value_from(alloc, first, reader, depth)
}

/// The value that begins with the token `first`, as `read_value` reads it.
#[cycle(values)]
pub(crate) fn value_from(
    alloc: Global,
    first: Token<'_>,
    reader: &mut Reader<'_>,
    depth: usize,
) -> Result<Value, BodyFault>
    ensures value { Reads view result (value_at depth (token_of first.entry ∷ reader.old)) reader.new }
    ensures shorter { OnOk result (length reader.new ≤ length reader.old) }
{
    match first {
        Token::Null => Ok(Value::Null),
        Token::Bool(b) => Ok(Value::Bool(b)),
        Token::Number(text) => match read_number(text) {
            Some(number) => Ok(Value::Number(number)),
            None => Err(Fault::Refused(BodyRefusal::NotJson)),
        },
        Token::String(text) => Ok(Value::String(String::from_str(alloc, text)?)),
        Token::BeginArray => {
            if depth == 0 {
                return Err(Fault::Refused(BodyRefusal::NotJson));
            }
            Ok(Value::Array(read_items(alloc, reader, depth - 1)?))
        }
        Token::BeginObject => {
            if depth == 0 {
                return Err(Fault::Refused(BodyRefusal::NotJson));
            }
            Ok(Value::Object(read_members(alloc, reader, depth - 1)?))
        }
        Token::EndArray | Token::EndObject | Token::Key(_) | Token::Bad => Err(Fault::Refused(
            BodyRefusal::NotJson,
        )),
    }
}

#[cycle(values)]
fn read_items(alloc: Global, reader: &mut Reader<'_>, depth: usize) -> Result<Vec<Value>, BodyFault>
    ensures items { Reads (λ found. items_view found.items) result (items_at depth reader.old) reader.new }
    ensures shorter { OnOk result (length reader.new ≤ length reader.old) }
{
    let mut found = Vec::new(alloc);
    'items: while !reader.take_end_array() {
        let item = read_value(alloc, reader, depth)?;
        found.push(item)?;
    }
    Ok(found)
}

#[cycle(values)]
fn read_members(
    alloc: Global,
    reader: &mut Reader<'_>,
    depth: usize,
) -> Result<Map<String, Value>, BodyFault>
    ensures members { Reads (λ found. members_view found.entries) result (members_at depth reader.old) reader.new }
    ensures shorter { OnOk result (length reader.new ≤ length reader.old) }
{
    let mut found = Map::new(alloc);
    'members: while let Some(name) = next_name(reader)? {
        let key = String::from_str(alloc, name)?;
        let member = read_value(alloc, reader, depth)?;
        drop(found.insert(key, member)?);
    }
    Ok(found)
}

// The name of the member that comes next, or None at the end of the object.
fn next_name<'a>(reader: &mut Reader<'a>) -> Result<Option<&'a str>, BodyFault>
    ensures { MatchResult result
        (λ name. read_key reader.old ≡ Some (option_map (λ s. s.now) name, reader.new))
        (λ fault. (fault ≡ Turned Broken) × (read_key reader.old ≡ None)) }
{
    reader
        .next_key()
        .map_err(|_| Fault::Refused(BodyRefusal::NotJson))
}
