ghost use Rattle.std.specs.Prelude.{◌≡◌, string_bytes};

use std::marker::Model;

/// What one of several searches found, as a text. Contracts see its bytes.
#[derive(Drop)]
pub struct ResultText {
    text: String,
}

impl Model for ResultText {
    ghost use Rattle.std.specs.Prelude.{ℕ, List, string_bytes};

    ghost Value = { List ℕ };

    ghost view = { λ result. string_bytes result.text };
}

impl ResultText {
    /// The result that stands in a text.
    pub(crate) fn new(text: String) -> ResultText
        ensures { result ≡ string_bytes text }
    {
        ResultText { text }
    }

    /// Its text.
    pub(crate) fn as_str(&self) -> &str
        ensures { result.now ≡ self.now }
    {
        &self.text
    }
}
