ghost use Rattle.std.specs.Prelude.{◌≡◌, ℕ, ◌≤◌, ◌<◌, List, length, take, IsUtf8, MatchOption};

use std::marker::Model;
use std::str;

/// How many bytes a short text has at most.
pub(crate) const CAPACITY: usize = 14;

/// A text of at most 14 bytes, which lie in the value itself: seen as its bytes.
#[derive(Debug, Drop)]
pub(crate) struct ShortText {
    length: u8,
    bytes: [u8; CAPACITY],
}

impl Model for ShortText {
    ghost use Rattle.std.specs.Prelude.{◌≤◌, ℕ, List, take, IsUtf8};

    ghost Value = { List ℕ };

    ghost view = { λ s. take s.length s.bytes };

    ghost invariant = { λ s. (s.length ≤ 14) × ∥ IsUtf8 (take s.length s.bytes) ∥₁ };
}

impl ShortText {
    /// A copy of the text, or nothing where it has more than 14 bytes.
    pub(crate) fn new(text: &str) -> Option<ShortText>
        ensures { MatchOption result (14 < length text.now) (λ short. short ≡ text.now) }
    {
        if text.len() > CAPACITY {
            return None;
        }
        let mut bytes = [0; CAPACITY];
        bytes[..text.len()].copy_from_slice(text.as_bytes());
        Some(ShortText {
            length: text.len() as u8,
            bytes,
        })
    }

    /// The same text once more.
    pub(crate) fn copied(&self) -> ShortText
        ensures { result ≡ self.now }
    {
        ShortText {
            length: self.length,
            bytes: self.bytes,
        }
    }

    /// How the text is spelled.
    pub(crate) fn as_str(&self) -> &str
        ensures { result.now ≡ self.now }
    {
        unsafe { str::from_utf8_unchecked(&self.bytes[..usize::from(self.length)]) }
    }
}
