// Pieces of JSON that are put behind a text.
ghost use Rattle.std.specs.Prelude.{◌≡◌, ◌++◌, [], ◌∷◌, IfOk, OnOk, string_bytes, false};
ghost use Rattle.json.specs.Print.{quoted};
ghost use Rattle.serde_json.specs.View.{view};
ghost use Rattle.serde_json.specs.Written.{compact_text, comma_if, has_float};

use search_base::NoMemory;
use serde_json::Value;
use std::alloc::Global;

/// Puts a comma behind a text, where something stands before. Its one error is want of memory.
pub fn put_comma(text: &mut String, later: bool) -> Result<(), NoMemory>
    ensures { OnOk result (string_bytes text.new ≡ string_bytes text.old ++ comma_if later) }
{
    if later {
        text.push_str(",")?;
    }
    Ok(())
}

/// A text as JSON, between its quotes. Its one error is want of memory.
pub fn quoted_text(alloc: Global, plain: &str) -> Result<String, NoMemory>
    ensures { IfOk result (λ text. string_bytes text ≡ quoted plain.now) }
{
    let value = Value::try_from_str(alloc, plain)?;
    Ok(value.to_string(alloc)?)
}

/// Puts the name of a member, and what stands before its value.
pub(crate) fn put_name(alloc: Global, text: &mut String, name: &str) -> Result<(), NoMemory>
    ensures { OnOk result (string_bytes text.new ≡ string_bytes text.old ++ (quoted name.now ++ 58 ∷ [])) }
{
    let name = quoted_text(alloc, name)?;
    text.push_str(&name)?;
    text.push_str(":")?;
    Ok(())
}

/// Puts a value.
pub(crate) fn put_value(alloc: Global, text: &mut String, value: &Value) -> Result<(), NoMemory>
    requires { has_float (view value.now) ≡ false }
    ensures { OnOk result (string_bytes text.new ≡ string_bytes text.old ++ compact_text (view value.now)) }
{
    let value = value.to_string(alloc)?;
    text.push_str(&value)?;
    Ok(())
}
