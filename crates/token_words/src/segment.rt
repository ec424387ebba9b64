ghost use Rattle.std.specs.Prelude.{◌≡◌, chars, IfOk, if◌then◌else◌};
ghost use Rattle.std.specs.List.{list_any};
ghost use Rattle.unicode_segmentation.specs.Segments.{is_number, is_alphanumeric};
ghost use Rattle.token_words.specs.Normal.{normal};
ghost use Rattle.token_words.specs.Segments.{is_word, is_hard_char};

use crate::normal_form::normal;
use search_base::{NoMemory, Word};
use std::alloc::Global;
use ucd_category::GeneralCategory;
use ucd_derived::is_alphabetic;

// The normal form of a segment that is a word. A separator is not normalised.
pub fn word_of(alloc: Global, segment: &str) -> Result<Option<Word>, NoMemory>
    ensures { IfOk result (λ word. word ≡ (if is_word segment.now then Some (normal segment.now) else None)) }
{
    if !has_alphanumeric(segment) {
        return Ok(None);
    }
    let word = normal(alloc, segment)?;
    if word.as_str().is_empty() {
        Ok(None)
    } else {
        Ok(Some(word))
    }
}

// Whether the segment holds a letter or a number.
pub fn has_alphanumeric(segment: &str) -> bool
    ensures { result ≡ list_any is_alphanumeric (chars segment.now) }
{
    segment.chars().any(|c| is_alphanumeric(c))
}

// Whether the character is a letter or a number. Of an ASCII character no table is asked.
fn is_alphanumeric(c: char) -> bool
    ensures { result ≡ is_alphanumeric c }
{
    if c.is_ascii() {
        return c.is_ascii_alphanumeric();
    }
    is_alphabetic(c) || is_number(GeneralCategory::for_char(c))
}

fn is_number(category: GeneralCategory) -> bool
    ensures { result ≡ is_number category }
{
    matches!(
        category,
        GeneralCategory::DecimalNumber
            | GeneralCategory::LetterNumber
            | GeneralCategory::OtherNumber
    )
}

// Whether the separator holds a hard character.
pub fn is_hard(segment: &str) -> bool
    ensures { result ≡ list_any is_hard_char (chars segment.now) }
{
    segment.chars().any(|c| is_hard_char(c))
}

fn is_hard_char(c: char) -> bool
    ensures { result ≡ is_hard_char c }
{
    matches!(
        c,
        '.' | ';' | ',' | '!' | '?' | '(' | ')' | '[' | ']' | '{' | '}' | '|'
    )
}
