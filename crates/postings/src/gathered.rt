ghost use Rattle.std.specs.Prelude.{◌≡◌, ◌<◌, ℕ, List, [], ◌==◌, ◌&&◌, ◌||◌, length, get_or, IfOk, IfSome, OnOk};
ghost use Rattle.std.specs.Str.{bytes_eq};
ghost use Rattle.postings.specs.declared.change.WordChange.{WordChange as WordChangeData};
ghost use Rattle.postings.specs.declared.change.Side.{Side as SideData};
ghost use Rattle.postings.specs.Changes.{is_side, named, gathered};

use crate::change::{Side, WordChange, add_entry};
use crate::hints::Hints;
use crate::joined::{WordChanges, in_rows, joined};
use search_base::{NoMemory, Word};
use std::alloc::Global;
use std::mem;

// What words lose and gain, in the order in which they were named.
#[derive(Drop)]
pub(crate) struct Gathered {
    // A word may stand in several rows, where its hint was lost.
    pub(crate) rows: Vec<(Word, WordChange)>,
    // In which row a word likely stands.
    hints: Hints,
    // How many hints were lost since they were last made.
    lost: usize,
    // With so many rows the hints are made anew.
    limit: usize,
}

// Hints are made for so many rows at least.
const FEW: usize = 32;

// The rows of each word are joined where as many hints were lost as this part of the rows.
const MANY: usize = 4;

impl Gathered {
    // No word. Takes no memory.
    pub(crate) fn new(alloc: Global) -> Gathered
        ensures { result.rows.items ≡ [] }
    {
        Gathered {
            rows: Vec::new(alloc),
            hints: Hints::new(alloc),
            lost: 0,
            limit: 0,
        }
    }

    // Names an entry of a word.
    pub(crate) fn name(
        &mut self,
        alloc: Global,
        side: Side,
        word: &Word,
        entry: u64,
    ) -> Result<(), NoMemory>
        ensures { OnOk result ((s : SideData) (w : List ℕ) (e : ℕ) → gathered s w e self.new.rows.items
            ≡ ((is_side side s && (bytes_eq word.now w && (entry == e))) || gathered s w e self.old.rows.items)) }
    {
        if let Some(at) = self.row_of(word) {
            return add_entry(&mut self.rows[at].1, side, entry);
        }
        if self.rows.len() >= self.limit {
            self.grow(alloc)?;
        }
        let mut change = WordChange {
            gone: Vec::new(alloc),
            come: Vec::new(alloc),
        };
        add_entry(&mut change, side, entry)?;
        self.rows.push((copy_word(word)?, change))?;
        self.keep_last(word);
        Ok(())
    }

    // What each word loses and gains.
    pub(crate) fn by_word(self, alloc: Global) -> Result<WordChanges, NoMemory>
        ensures { IfOk result (λ words. (s : SideData) (w : List ℕ) (e : ℕ) → named s w e words.entries
            ≡ gathered s w e self.rows.items) }
    {
        joined(alloc, self.rows)
    }

    // A row in which the word stands, if its hint is there.
    fn row_of(&self, word: &Word) -> Option<usize>
        ensures { IfSome result (λ at. (at < length self.now.rows.items)
            × ((d : List ℕ × WordChangeData) → (get_or self.now.rows.items at d).0 ≡ word.now)) }
    {
        let at = self.hints.number(word)? as usize;
        if at < self.rows.len() {
            if self.rows[at].0 == *word {
                return Some(at);
            }
        }
        None
    }

    // Makes hints for twice as many rows. Where a good part of the rows may be of words that stand in others too, one row
    // of each word is left: so words that are chosen to meet in one place cost no more than a few rows each.
    fn grow(&mut self, alloc: Global) -> Result<(), NoMemory>
        ensures { OnOk result ((s : SideData) (w : List ℕ) (e : ℕ) → gathered s w e self.new.rows.items
            ≡ gathered s w e self.old.rows.items) }
    {
        if self.lost > self.rows.len() / MANY {
            self.join(alloc)?;
        }
        self.lost = 0;
        self.limit = self.rows.len().saturating_mul(2).max(FEW);
        self.hints = Hints::of_rows(alloc, &self.rows, self.limit)?;
        Ok(())
    }

    // Leaves one row of each word.
    fn join(&mut self, alloc: Global) -> Result<(), NoMemory>
        ensures { OnOk result ((s : SideData) (w : List ℕ) (e : ℕ) → gathered s w e self.new.rows.items
            ≡ gathered s w e self.old.rows.items) }
    {
        let rows = mem::replace(&mut self.rows, Vec::new(alloc));
        self.rows = in_rows(alloc, joined(alloc, rows)?)?;
        Ok(())
    }

    // Keeps the hint of the word of the last row.
    fn keep_last(&mut self, word: &Word)
        ensures { self.new.rows ≡ self.old.rows }
    {
        let number = self.rows.len().saturating_sub(1).min(0xff_ffff) as u32;
        if !self.hints.keep(word, number) {
            self.lost = self.lost.saturating_add(1);
        }
    }
}

// The same word.
pub(crate) fn copy_word(word: &Word) -> Result<Word, NoMemory>
    ensures { IfOk result (λ copy. copy ≡ word.now) }
{
    Ok(word.clone()?)
}
