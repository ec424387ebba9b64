ghost use Rattle.std.specs.Prelude.{◌≡◌, filter, chars, string_bytes, encode_utf8_all, IfOk};
ghost use Rattle.std.specs.Bool.{OnTrue};
ghost use Rattle.std.specs.Str.{str_to_ascii_lowercase};
ghost use Rattle.token_words.specs.Normal.{normal, is_kept};

use caseless::default_case_fold_str;
use search_base::{NoMemory, Word};
use std::alloc::{AllocError, Global};
use ucd_category::GeneralCategory;
use unicode_normalization::to_nfkd;

/// The normal form of a text: its compatibility decomposition (NFKD of UAX #15) without the
/// nonspacing marks (general category Mn), fully case folded. Texts of one normal form count as
/// the same word: `É` and `e`, `ﬁ` and `fi`, `ß` and `SS`. Of a text that is ASCII this is its
/// lower case.
pub fn normal(alloc: Global, text: &str) -> Result<Word, NoMemory>
    ensures { IfOk result (λ word. word ≡ normal text.now) }
{
    if text.is_ascii() {
        if is_lower(text.as_bytes()) {
            return Word::new(alloc, text);
        }
        let lowered = text.to_ascii_lowercase(alloc)?;
        return Word::from_string(lowered);
    }
    let decomposed = to_nfkd(alloc, text)?;
    let kept = without_marks(alloc, decomposed.as_str())?;
    let folded = default_case_fold_str(alloc, kept.as_str())?;
    Word::from_string(folded)
}

// Whether no byte is a capital letter of ASCII.
fn is_lower(bytes: &[u8]) -> bool
    ensures { OnTrue result (str_to_ascii_lowercase bytes.now ≡ bytes.now) }
{
    bytes.iter().all(|byte| !byte.is_ascii_uppercase())
}

// The text without its nonspacing marks.
fn without_marks(alloc: Global, text: &str) -> Result<String, AllocError>
    ensures { IfOk result (λ kept. string_bytes kept ≡ encode_utf8_all (filter is_kept (chars text.now))) }
{
    text.chars().filter(|c| is_kept(*c)).collect(alloc)
}

// Whether a normal form keeps the character.
fn is_kept(c: char) -> bool
    ensures { result ≡ is_kept c }
{
    !matches!(
        GeneralCategory::for_char(c),
        GeneralCategory::NonspacingMark
    )
}
