ghost use Rattle.std.specs.Prelude.{◌≡◌, ℕ, ◌+◌, ◌↔◌, length, IfOk, IsTrue};
ghost use Rattle.sorted_pages.specs.Entries.{has, IsIncreasing, difference};
ghost use Rattle.postings.specs.Changes.{IsRowOf, AreSettled, AreSettledOf};

use crate::change::WordChange;
use crate::joined::WordChanges;
use search_base::{NoMemory, Word};
use sorted_pages::{changes_are_on_members, is_increasing};
use std::alloc::Global;

// The changes of the words, with the entries of each in order, without those that go and come. A word of which
// nothing goes or comes then is left out.
pub(crate) fn settle(alloc: Global, words: WordChanges) -> Result<Vec<(Word, WordChange)>, NoMemory>
    ensures settled { IfOk result (λ rows. AreSettled rows.items) }
    ensures same { IfOk result (λ rows. AreSettledOf words.entries rows.items) }
{
    let mut rows = Vec::new(alloc);
    let _words = words.len();
    for (word, change) in words {
        let settled = settle_word(change)?;
        if is_empty(&settled) {
            continue;
        }
        rows.push((word, settled))?;
    }
    Ok(rows)
}

// Whether nothing goes and nothing comes.
fn is_empty(change: &WordChange) -> bool
    ensures { IsTrue result ↔ (length change.now.gone.items + length change.now.come.items ≡ 0) }
{
    change.gone.is_empty() && change.come.is_empty()
}

// The same change, with its entries in order, without those that go and come.
fn settle_word(change: WordChange) -> Result<WordChange, NoMemory>
    ensures { IfOk result (λ row. IsRowOf change row) }
{
    changes_are_on_members();
    let gone = in_order(change.gone);
    let come = in_order(change.come);
    if gone.is_empty() || come.is_empty() {
        return Ok(WordChange { gone, come });
    }
    Ok(WordChange {
        gone: without(gone.clone()?, come.as_slice()),
        come: without(come, gone.as_slice()),
    })
}

// The same entries in order, each once.
fn in_order(entries: Vec<u64>) -> Vec<u64>
    ensures increasing { IsIncreasing result.items }
    ensures same { (entry : ℕ) → has result.items entry ≡ has entries.items entry }
{
    if is_increasing(&entries) {
        return entries;
    }
    let mut entries = entries;
    entries.sort_unstable();
    entries.dedup();
    entries
}

// The entries that are not among the others.
fn without(entries: Vec<u64>, others: &[u64]) -> Vec<u64>
    requires { IsIncreasing others.now }
    ensures { result.items ≡ difference entries.items others.now }
{
    let mut entries = entries;
    entries.retain(|entry| !holds(others, *entry));
    entries
}

// Whether the entry is among these, found by halving.
fn holds(entries: &[u64], entry: u64) -> bool
    requires { IsIncreasing entries.now }
    ensures { result ≡ has entries.now entry }
{
    entries.binary_search(&entry).is_ok()
}
