ghost use Rattle.std.specs.Prelude.{◌≡◌, ◌==◌, ◌<◌, length, IfOk, MatchOption, map};
ghost use Rattle.std.specs.List.{position_or_len, before_first, after_first};
ghost use Rattle.form_urlencoded.specs.Form.{split};

use search_base::NoMemory;
use std::alloc::Global;

// The text before the first separator and the text after it.
fn first_part(text: &str, separator: char) -> Option<(&str, &str)>
    requires { separator < 128 }
    ensures { MatchOption result (position_or_len (λ b. b == separator) text.now ≡ length text.now)
        (λ parts. (parts.0.now ≡ before_first (λ b. b == separator) text.now)
        × (parts.1.now ≡ after_first (λ b. b == separator) text.now)
        × (position_or_len (λ b. b == separator) text.now < length text.now)) }
{
    text.split_once(separator)
}

/// The parts of a text, between the separators.
pub(crate) fn parts_of(alloc: Global, text: &str, separator: char) -> Result<Vec<&str>, NoMemory>
    requires { separator < 128 }
    ensures { IfOk result (λ parts. map (λ part. part.now) parts.items ≡ split separator text.now) }
{
    let mut parts = Vec::new(alloc);
    let mut left = text;
    while let Some((part, rest)) = first_part(left, separator) {
        parts.push(part)?;
        left = rest;
    }
    parts.push(left)?;
    Ok(parts)
}
