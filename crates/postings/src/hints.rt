use crate::change::WordChange;
use crate::slots::Slot;
use search_base::{NoMemory, Word};
use std::alloc::Global;

// Where the numbers of words are likely found: a table by a hash of the words. Nothing relies on what it says, since a
// number is taken only where its word is the one that is asked for. Else a dictionary asks its ordered map, and a
// change that is gathered takes one more row. So words that are chosen to meet in one place of the table cost a
// dictionary no more than a look-up in that map, and a change no more than a few rows each.
#[derive(Drop)]
pub(crate) struct Hints {
    // Rows of places, each of which holds a number below a tag of eight bits, or nothing.
    places: Vec<u32>,
}

// So many places stand in a row, in one of which a word is kept.
const ROW: usize = 4;

// What a place holds where it holds nothing. No number is so great.
const NOTHING: u32 = u32::MAX;

// The bits of a number below its tag.
const NUMBER: u32 = 0x00ff_ffff;

// A hash of a word.
fn hash_of(word: &Word) -> u64 {
    let mut hash: u64 = 0xcbf2_9ce4_8422_2325;
    for byte in word.as_str().as_bytes() {
        hash = (hash ^ u64::from(*byte)).wrapping_mul(0x0000_0100_0000_01b3);
    }
    hash ^ (hash >> 29)
}

impl Hints {
    // A table without a place. Takes no memory.
    pub(crate) fn new(alloc: Global) -> Hints {
        Hints {
            places: Vec::new(alloc),
        }
    }

    // The number that a word likely has.
    pub(crate) fn number(&self, word: &Word) -> Option<u32> {
        let hash = hash_of(word);
        let tag = tag_of(hash);
        let row = row_of(hash, self.places.len());
        for place in self.places.get(row..)?.iter().take(ROW) {
            if *place & !NUMBER == tag && *place != NOTHING {
                return Some(*place & NUMBER);
            }
        }
        None
    }

    // Keeps the number of a word, unless it is too great, and tells whether it is kept and no other went for it. Takes
    // no memory.
    pub(crate) fn keep(&mut self, word: &Word, number: u32) -> bool {
        if number >= NUMBER {
            return false;
        }
        let hash = hash_of(word);
        let row = row_of(hash, self.places.len());
        let told = tag_of(hash) | number;
        put(self.places.as_mut_slice(), row, hash, told)
    }

    // Makes the table longer where there are more words than it has places for, with the words of these slots.
    pub(crate) fn grow(&mut self, alloc: Global, slots: &[Option<Slot>]) -> Result<(), NoMemory> {
        if slots.len() < self.places.len() / 4 * 3 {
            return Ok(());
        }
        self.places = places_for(alloc, slots.len())?;
        let mut number: u32 = 0;
        for slot in slots {
            if let Some(slot) = slot {
                let _kept = self.keep(&slot.word, number);
            }
            number = number.saturating_add(1);
        }
        Ok(())
    }

    // A table for so many words, with those of these rows, whose numbers are their places here.
    pub(crate) fn of_rows(
        alloc: Global,
        rows: &[(Word, WordChange)],
        words: usize,
    ) -> Result<Hints, NoMemory> {
        let places = places_for(alloc, words)?;
        let mut hints = Hints { places };
        let mut number: u32 = 0;
        for row in rows {
            let _kept = hints.keep(&row.0, number);
            number = number.saturating_add(1);
        }
        Ok(hints)
    }
}

// The tag of a hash.
fn tag_of(hash: u64) -> u32 {
    ((hash >> 32) as u32) & !NUMBER
}

// The first place of the row of a hash, in so many places.
fn row_of(hash: u64, places: usize) -> usize {
    let rows = (places / ROW).max(1);
    (hash as usize % rows) * ROW
}

// Puts what a place is to hold into a row: where nothing stands, or else in place of something. Tells which.
fn put(places: &mut [u32], row: usize, hash: u64, told: u32) -> bool {
    for at in row..row.saturating_add(ROW) {
        if at < places.len() && places[at] == NOTHING {
            places[at] = told;
            return true;
        }
    }
    let at = row.saturating_add((hash >> 24) as usize % ROW);
    if at < places.len() {
        places[at] = told;
    }
    false
}

// Places for so many words, twice as many as they are, that hold nothing.
fn places_for(alloc: Global, words: usize) -> Result<Vec<u32>, NoMemory> {
    let mut places = Vec::new(alloc);
    places.resize(words.saturating_mul(2).max(ROW), NOTHING)?;
    Ok(places)
}
