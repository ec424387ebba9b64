ghost use Rattle.std.specs.Prelude.{◌≡◌, ℕ, List, ◌||◌, IfOk, OnOk};
ghost use Rattle.sorted_pages.specs.Entries.{has};
ghost use Rattle.postings.specs.declared.change.Side.{Side as SideData};
ghost use Rattle.postings.specs.Changes.{side_of, names, named, gathered};

use crate::change::WordChange;
use search_base::{NoMemory, Word};
use std::alloc::Global;
use std::collections::BTreeMap;

// What each word loses and gains.
pub(crate) type WordChanges = BTreeMap<Word, WordChange>;

// The same changes, in which each word stands once.
pub(crate) fn joined(alloc: Global, rows: Vec<(Word, WordChange)>) -> Result<WordChanges, NoMemory>
    ensures { IfOk result (λ words. (s : SideData) (w : List ℕ) (e : ℕ) → named s w e words.entries
        ≡ gathered s w e rows.items) }
{
    let mut words = BTreeMap::new(alloc);
    for (word, change) in rows {
        add_row(&mut words, word, change)?;
    }
    Ok(words)
}

// Adds a row to those of the words.
fn add_row(words: &mut WordChanges, word: Word, change: WordChange) -> Result<(), NoMemory>
    ensures { OnOk result ((s : SideData) (w : List ℕ) (e : ℕ) → named s w e words.new.entries
        ≡ (names s w e (word, change) || named s w e words.old.entries)) }
{
    match words.get_mut(&word) {
        Some(known) => {
            add_entries(known, &change)?;
            return Ok(());
        }
        None => {}
    }
    words.insert(word, change)?;
    Ok(())
}

// Adds the entries of another change of the same word.
fn add_entries(change: &mut WordChange, more: &WordChange) -> Result<(), NoMemory>
    ensures { OnOk result ((s : SideData) (e : ℕ) → has (side_of s change.new) e
        ≡ (has (side_of s more.now) e || has (side_of s change.old) e)) }
{
    change.gone.extend_from_slice(&more.gone)?;
    change.come.extend_from_slice(&more.come)?;
    Ok(())
}

// The rows of the words, in their order.
pub(crate) fn in_rows(
    alloc: Global,
    words: WordChanges,
) -> Result<Vec<(Word, WordChange)>, NoMemory>
    ensures { IfOk result (λ rows. (s : SideData) (w : List ℕ) (e : ℕ) → gathered s w e rows.items
        ≡ named s w e words.entries) }
{
    let mut rows = Vec::with_capacity(alloc, words.len())?;
    for row in words {
        rows.push(row)?;
    }
    Ok(rows)
}
