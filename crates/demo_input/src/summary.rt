// The lines that the demo prints.
ghost use Rattle.std.specs.Prelude.{◌≡◌, ◌++◌, IfOk, OnOk, string_bytes, unwrap_or};
ghost use Rattle.serde_json.specs.View.{view as data_of, items_view};
ghost use Rattle.demo_input.specs.Summary.{value_in, number_at as number_in, total_in, ids_text, ids_in, line_of, search_line as line_by, first_line as first};

use search_base::NoMemory;
use serde_json::Value;
use std::alloc::Global;
use std::fmt::Write;

/// The first line of the summary: `documents`, their number and a line feed.
#[tactic(auto, unfolding(crate::specs::Summary::first_line))]
pub fn first_line(alloc: Global, count: u32) -> Result<String, NoMemory>
    ensures { IfOk result (λ line. string_bytes line ≡ first count) }
{
    Ok(format!(in alloc; "documents {count}\n")?)
}

/// The line of a search: `search`, its number, `total` and how many documents it found, `ids` and the id of each hit,
/// and a line feed, by the body of the reply to it. A body that tells no total counts as 0, and where it has no hits,
/// or a hit no number as id, nothing stands in their place.
#[tactic(auto, unfolding(crate::specs::Summary::line_of))]
pub fn search_line(alloc: Global, number: u8, body: &[u8]) -> Result<String, NoMemory>
    ensures { IfOk result (λ line. string_bytes line ≡ line_by number body.now) }
{
    let value = parsed(alloc, body)?;
    let mut line = String::new(alloc);
    let total = total(&value);
    write!(line, "search {number} total {total} ids")?;
    put_ids(&mut line, &value)?;
    line.push_str("\n")?;
    Ok(line)
}

// The value that a body is, and null where it is no JSON.
fn parsed(alloc: Global, body: &[u8]) -> Result<Value, NoMemory>
    ensures { IfOk result (λ value. data_of value ≡ value_in body.now) }
{
    match Value::from_slice(alloc, body) {
        Ok(value) => Ok(value),
        Err(e) => if e.is_memory() {
            Err(NoMemory)
        } else {
            Ok(Value::Null)
        },
    }
}

fn total(reply: &Value) -> u64
    ensures { result ≡ total_in (data_of reply.now) }
{
    number_at(reply, "estimatedTotalHits")
        .or(number_at(reply, "totalHits"))
        .unwrap_or(0)
}

fn number_at(value: &Value, name: &str) -> Option<u64>
    ensures { result ≡ number_in name.now (data_of value.now) }
{
    value.get(name).and_then(Value::as_u64)
}

// Puts the id of each hit behind a blank.
fn put_ids(line: &mut String, reply: &Value) -> Result<(), NoMemory>
    ensures { OnOk result (string_bytes line.new ≡ string_bytes line.old ++ ids_in (data_of reply.now)) }
{
    match reply.get("hits").and_then(Value::as_array) {
        Some(hits) => put_ids_of(line, hits),
        None => Ok(()),
    }
}

fn put_ids_of(line: &mut String, hits: &[Value]) -> Result<(), NoMemory>
    ensures { OnOk result (string_bytes line.new ≡ string_bytes line.old ++ ids_text (items_view hits.now)) }
{
    for hit in hits {
        if let Some(id) = number_at(hit, "id") {
            write!(line, " {id}")?;
        }
    }
    Ok(())
}
