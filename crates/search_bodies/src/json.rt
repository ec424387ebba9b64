// The JSON value that a body is, and the texts among its members.
ghost use Rattle.std.specs.Prelude.{◌≡◌, ◌≤◌, IfOk};
ghost use Rattle.serde_json.specs.Data.{depth};
ghost use Rattle.serde_json.specs.Read.{max_depth};
ghost use Rattle.serde_json.specs.Find.{get};
ghost use Rattle.serde_json.specs.View.{view};
ghost use Rattle.search_base.specs.Gives.{Gives};
ghost use Rattle.search_bodies.specs.Json.{json_in, text_or_none};

use request_refusals::Refusal;
use search_base::{Fault, NoMemory, Word};
use serde_json::Value;
use std::alloc::Global;

/// The JSON value that a body is. Refused is a body that is none (`NotJson`); the one other error is want of memory.
pub fn read_json(alloc: Global, body: &[u8]) -> Result<Value, Fault<Refusal>>
    ensures value { Gives view result (json_in body.now) }
    ensures shallow { IfOk result (λ value. depth (view value) ≤ max_depth) }
{
    match Value::from_slice(alloc, body) {
        Ok(value) => Ok(value),
        Err(e) => if e.is_memory() {
            Err(Fault::NoMemory)
        } else {
            Err(Fault::Refused(Refusal::NotJson))
        },
    }
}

/// The text that the member of this name is, where it is there and is one. Its one error is want of memory.
pub fn text_at(alloc: Global, value: &Value, name: &str) -> Result<Option<Word>, NoMemory>
    ensures { IfOk result (λ word. word ≡ text_or_none (get name.now (view value.now))) }
{
    match value.get(name).and_then(Value::as_str) {
        Some(text) => Ok(Some(Word::new(alloc, text)?)),
        None => Ok(None),
    }
}
