ghost use Rattle.std.specs.Prelude.{◌≡◌, ◌+◌, ◌≤◌, ◌++◌, map, filter, min, OnOk};
ghost use Rattle.std.specs.List.{filter_map};
ghost use Rattle.doc_rows.specs.Rows.{place_of, next_start, is_searched, places_of as places_of_path, places_at};
ghost use Rattle.doc_rows.specs.Texts.{leaf_text};

use crate::path_texts::texts;
use doc_values::Flat;
use search_base::{NoMemory, PathId, Place, Token, Word};
use std::alloc::Global;
use token_words::tokens;

const LAST_SEARCHED: u128 = 65535;

const TEXT_STEP: u128 = 8;

/// Adds the words that are searched of the path with this number and rank, which has these values. A path without a
/// rank is not searched.
pub fn add_places(
    alloc: Global,
    number: u16,
    rank: Option<u16>,
    values: &[Flat],
    places: &mut Vec<Place>,
) -> Result<(), NoMemory>
    ensures { OnOk result (places.new.items
        ≡ places.old.items ++ places_at number rank (filter_map leaf_text values.now)) }
{
    match rank {
        Some(rank) => {
            let texts = texts(alloc, values)?;
            add_texts(alloc, number, rank, texts.as_slice(), places)
        }
        None => Ok(()),
    }
}

fn add_texts(
    alloc: Global,
    number: u16,
    rank: u16,
    texts: &[Word],
    places: &mut Vec<Place>,
) -> Result<(), NoMemory>
    ensures { OnOk result (places.new.items ≡ places.old.items ++ places_of_path number rank texts.now) }
{
    let mut start = 0;
    for text in texts {
        let words = tokens(alloc, text.as_str())?;
        let words = words.as_slice();
        add_words(number, rank, start, words, places)?;
        start = next_start(start, words);
    }
    Ok(())
}

// The words of a text that starts at `start`.
fn add_words(
    number: u16,
    rank: u16,
    start: u128,
    words: &[Token],
    places: &mut Vec<Place>,
) -> Result<(), NoMemory>
    ensures { OnOk result (places.new.items
        ≡ places.old.items ++ filter is_searched (map (place_of number rank start) words.now)) }
{
    for word in words {
        let position = start.saturating_add(word.position);
        if position <= LAST_SEARCHED {
            places.push(Place {
                path: PathId(number),
                rank,
                position: position as u16,
                word: word.word.clone()?,
            })?;
        }
    }
    Ok(())
}

// Where the path's next text starts. All starts behind the last position that is searched are one.
fn next_start(start: u128, words: &[Token]) -> u128
    requires { start ≤ 65536 }
    ensures { result ≡ min (next_start start words.now) 65536 }
{
    match words.last() {
        None => start,
        Some(last) => {
            let position = last.position.min(LAST_SEARCHED + 1);
            (start + position + TEXT_STEP).min(LAST_SEARCHED + 1)
        }
    }
}
