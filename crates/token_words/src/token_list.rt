ghost use Rattle.std.specs.Prelude.{◌≡◌, ◌^◌, ◌<◌, take, unwrap_or, IfOk};
ghost use Rattle.token_words.specs.Tokens.{next_position, tokens};
ghost use Rattle.token_words.specs.Words.{AreTheWords};

use crate::segment::{is_hard, word_of};
use search_base::{NoMemory, Token};
use std::alloc::Global;
use unicode_segmentation::UnicodeSegmentation;

// Room for so many words at most is taken before they are known.
const SOME: usize = 64;

/// The words of a text in order, each in its normal form, with its position and its bytes.
///
/// The segments of the text are those of UAX #29. One that holds a letter or a number (it is
/// alphabetic, or of general category Nd, Nl or No) is a word, unless its normal form is empty;
/// any other is a separator. Positions begin at 0. Each next position is one more or,
/// where one of the separators between the two words holds one of `. ; , ! ? ( ) [ ] { } |`,
/// eight more.
pub fn tokens(alloc: Global, text: &str) -> Result<Vec<Token>, NoMemory>
    ensures { IfOk result (λ list. list.items ≡ tokens text.now) }
{
    first_tokens(alloc, text, text.len())
}

/// The first words of a text, as `tokens` has them, `most` at the most. No other word is made.
pub fn first_tokens(alloc: Global, text: &str, most: usize) -> Result<Vec<Token>, NoMemory>
    ensures { IfOk result (λ list. list.items ≡ take most (tokens text.now)) }
{
    let mut list = Vec::with_capacity(alloc, most.min(text.len() / 8).min(SOME))?;
    let mut last = None;
    let mut hard = false;
    let mut at = 0;
    for segment in text.split_word_bounds() {
        if list.len() >= most {
            return Ok(list);
        }
        let end = at + segment.len();
        match word_of(alloc, segment)? {
            Some(word) => {
                let position = next_position(last, hard);
                list.push(Token {
                    position,
                    word,
                    start: at as u64,
                    end: end as u64,
                })?;
                last = Some(position);
                hard = false;
            }
            None => hard = hard || is_hard(segment),
        }
        at = end;
    }
    Ok(list)
}

// The position of a word, where one of the separators since the last word is hard or none is.
pub fn next_position(last: Option<u128>, hard: bool) -> u128
    requires { unwrap_or last 0 < 2 ^ 127 }
    ensures { result ≡ next_position last hard }
{
    match last {
        None => 0,
        Some(last) => last + if hard { 8 } else { 1 },
    }
}

/// Between two neighbouring tokens of a text stand exactly the separators between their segments,
/// and the second's position is eight more than the first's where one of these is hard, else one
/// more. Before the first token, whose position is 0, and after the last one stand separators
/// alone. The bytes of each token cut its segment out of the text. It does nothing.
pub fn tokens_are_the_words(text: &str)
    ensures { AreTheWords text.now (tokens text.now) }
{}
