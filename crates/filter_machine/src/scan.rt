ghost use Rattle.std.specs.Prelude.{◌≡◌, IfOk};
ghost use Rattle.filter_machine.specs.Text.{class_of as class_at, word_token as token_at};
ghost use Rattle.filter_machine.specs.Scan.{starts_with, fits as fits_in};
ghost use Rattle.filter_machine.specs.Held.{place_view, class_view, QuoteIs};

use crate::machine::Place;
use crate::token::{Comparison, Token};
use search_base::{NoMemory, Word};
use std::alloc::Global;

/// One of the two quotes.
#[derive(Clone, Copy, Debug, PartialEq, Eq)]
pub enum Quote {
    Single,
    Double,
}

/// What a byte is where a token may begin.
#[derive(Debug, Drop)]
pub enum Class {
    Space,
    Letter,
    Quote(Quote),
    Bang,
    Greater,
    Less,
    Single(Token),
    Strange,
}

/// The class of a byte; a byte of a character that is not ASCII is a letter.
#[tactic(auto, unfolding(crate::specs::Text::class_of))]
pub fn class_of(byte: u8) -> Class
    ensures class { class_view result ≡ class_at byte }
    ensures quote { QuoteIs result byte }
{
    if byte == b' ' || byte == b'\t' || byte == b'\r' || byte == b'\n' {
        Class::Space
    } else if byte >= 128
        || byte.is_ascii_alphanumeric()
        || byte == b'_'
        || byte == b'-'
        || byte == b'/'
        || byte == b'.'
    {
        Class::Letter
    } else if byte == b'\'' {
        Class::Quote(Quote::Single)
    } else if byte == b'"' {
        Class::Quote(Quote::Double)
    } else if byte == b'!' {
        Class::Bang
    } else if byte == b'>' {
        Class::Greater
    } else if byte == b'<' {
        Class::Less
    } else if byte == b'=' {
        Class::Single(Token::Compare(Comparison::Equal))
    } else if byte == b'(' {
        Class::Single(Token::Open)
    } else if byte == b')' {
        Class::Single(Token::Close)
    } else if byte == b'[' {
        Class::Single(Token::ListOpen)
    } else if byte == b']' {
        Class::Single(Token::ListClose)
    } else if byte == b',' {
        Class::Single(Token::Comma)
    } else {
        Class::Strange
    }
}

/// Whether the keyword begins with the word.
fn starts(word: &[u8], keyword: &[u8]) -> bool
    ensures { result ≡ starts_with word.now keyword.now }
{
    match word {
        [] => true,
        [x, word @ ..] => match keyword {
            [] => false,
            [y, keyword @ ..] => *x == *y && starts(word, keyword),
        },
    }
}

/// Whether a word that begins so may come at a place.
pub fn fits(place: &Place, word: &[u8]) -> bool
    ensures { result ≡ fits_in (place_view place.now) word.now }
{
    match place {
        Place::Start
        | Place::Attribute(_)
        | Place::Value(_, _)
        | Place::High(_, _)
        | Place::First(_, _)
        | Place::AfterComma(_, _, _) => true,
        Place::Low(_, _) => starts(word, b"TO"),
        Place::Refused(_) => starts(word, b"IN") || starts(word, b"EXISTS"),
        Place::InList(_, _) | Place::Item(_, _, _) => false,
        Place::Being(_) => starts(word, b"NOT") || starts(word, b"NULL") || starts(word, b"EMPTY"),
        Place::NotBeing(_) => starts(word, b"NULL") || starts(word, b"EMPTY"),
        Place::Done => starts(word, b"AND") || starts(word, b"OR"),
    }
}

/// The token of a whole word: a keyword, or else a text. `NoMemory` comes only of a text.
pub fn word_token(alloc: Global, word: &str) -> Result<Token, NoMemory>
    ensures { IfOk result (λ token. token ≡ token_at word.now) }
{
    match word {
        "AND" => Ok(Token::And),
        "OR" => Ok(Token::Or),
        "NOT" => Ok(Token::Not),
        "IN" => Ok(Token::In),
        "TO" => Ok(Token::To),
        "EXISTS" => Ok(Token::Exists),
        "IS" => Ok(Token::Is),
        "NULL" => Ok(Token::Null),
        "EMPTY" => Ok(Token::Empty),
        _ => Ok(Token::Text(Word::new(alloc, word)?)),
    }
}
