ghost use Rattle.std.specs.Prelude.{◌≡◌, ℕ, List, [], not, ◌&&◌, ◌||◌, None, nat_eq, if◌then◌else◌};
ghost use Rattle.std.specs.Prelude.{IfOk, MatchResult};
ghost use Rattle.std.specs.List.{starts_with};
ghost use Rattle.std.specs.List.Sorted.{IsStrictlySortedBy};
ghost use Rattle.std.specs.Map.{keys_of};
ghost use Rattle.std.specs.BTreeMap.Range.{is_from_start, is_past_end};
ghost use Rattle.std.specs.Range.Bound.{bound_map};
ghost use Rattle.std.specs.Option.{option_map};
ghost use Rattle.sorted_pages.specs.Entries.{has};
ghost use Rattle.postings.specs.Documents.{Document, IsBatch, after};
ghost use Rattle.postings.specs.Dictionary.{word_cmp, value_at, list_at, some_list, HasRooms, IsTight, none};
ghost use Rattle.postings.specs.Changes.{named, IsChangeOf, IsPreparedOf};
ghost use Rattle.postings.specs.declared.change.Side.TheVariants.{Goes, Comes};
ghost use Rattle.postings.specs.Fresh.{StandsFor};
ghost use Rattle.postings.specs.Prefixes.{rows_left};

use crate::change::{Change, Prepared, WordChange};
use crate::dictionary::{
    Dictionary, change_words, drop_all_spent, list_of, no_words, reserve_words,
};
use crate::prefix::PrefixLists;
use crate::settled::settle;
use crate::words::WordLists;
use posting_list::{PostingList, last_document};
use search_base::{DocId, NoMemory, Word};
use sorted_pages::SortedPages;
use std::alloc::Global;
use std::marker::Model;
use std::ops::Bound;

/// For each word the list of its places.
#[derive(Drop)]
pub struct Postings {
    lists: Dictionary,
    // No document that came is above it.
    last: DocId,
}

impl Model for Postings {
    ghost use Rattle.postings.specs.Dictionary.{PostingsView, IsNumbered, lists_of};

    ghost Value = { PostingsView };

    ghost view = { λ postings. record { lists = lists_of postings.lists } };

    ghost invariant = { λ postings. IsNumbered (lists_of postings.lists) };
}

impl Postings {
    /// The postings of no document. Takes no memory.
    pub fn new(alloc: Global) -> Postings
        ensures fresh { StandsFor result [] }
        ensures tight { IsTight none result.lists }
    {
        Postings {
            lists: no_words(alloc),
            last: DocId(0),
        }
    }

    /// The list of the word, or none where it stands nowhere. Takes no memory.
    pub fn row(&self, word: &Word) -> Option<&PostingList>
        ensures { option_map (λ list. list.now.entries) result ≡ some_list (list_at word.now self.now) }
    {
        match list_of(&self.lists, word) {
            Some(list) => { if list.is_empty() { None } else { Some(list) } }
            None => None,
        }
    }

    /// The places of the word, in increasing order, or none where it stands nowhere. Takes no memory.
    pub fn list(&self, word: &Word) -> Option<&SortedPages>
        ensures { option_map (λ pages. pages.now.entries) result ≡ some_list (list_at word.now self.now) }
    {
        Some(self.row(word)?.pages())
    }

    /// The words that begin so, in order, each with the list of its places. Takes no memory, and
    /// looks at no other word.
    pub fn with_prefix<'a>(&'a self, prefix: &'a Word) -> PrefixLists<'a>
        ensures lists { (word : List ℕ) → value_at word (rows_left result)
            ≡ (if starts_with nat_eq word prefix.now then some_list (list_at word self.now) else None) }
        ensures order { IsStrictlySortedBy word_cmp (keys_of (rows_left result)) }
    {
        let _words = self.lists.numbers.len();
        PrefixLists {
            prefix,
            slots: &self.lists.slots,
            lists: self
                .lists
                .numbers
                .range((Bound::Included(prefix), Bound::Unbounded)),
            done: false,
        }
    }

    /// The words from a bound on, in order, each with the list of its places. Takes no memory, and
    /// looks at no word before the bound.
    pub fn words_from<'a>(&'a self, low: Bound<&'a Word>) -> WordLists<'a>
        ensures lists { (word : List ℕ) → value_at word result
            ≡ (if is_from_start word_cmp (bound_map (λ w. w.now) low.entry) word
            then some_list (list_at word self.now) else None) }
        ensures order { IsStrictlySortedBy word_cmp (keys_of result) }
    {
        let _words = self.lists.numbers.len();
        WordLists {
            slots: &self.lists.slots,
            lists: self.lists.numbers.range((low, Bound::Unbounded)),
        }
    }

    /// The words up to a bound, in order, each with the list of its places. Takes no memory, and
    /// looks at no word behind the bound.
    pub fn words_up_to<'a>(&'a self, high: Bound<&'a Word>) -> WordLists<'a>
        ensures lists { (word : List ℕ) → value_at word result
            ≡ (if is_past_end word_cmp (bound_map (λ w. w.now) high.entry) word then None
            else some_list (list_at word self.now)) }
        ensures order { IsStrictlySortedBy word_cmp (keys_of result) }
    {
        let _words = self.lists.numbers.len();
        WordLists {
            slots: &self.lists.slots,
            lists: self.lists.numbers.range((Bound::Unbounded, high)),
        }
    }

    /// Takes all memory that the change needs, in proportion to the change. What goes and comes is
    /// left out, and so is a word of which nothing is left. Each list stays as it was, whatever the
    /// result, and after a refusal no room is left at a word without a place.
    pub fn prepare(&mut self, alloc: Global, change: Change) -> Result<Prepared, NoMemory>
        ensures lists { (word : List ℕ) → list_at word self.new ≡ list_at word self.old }
        ensures made { IfOk result (λ prepared. (gone come : List Document) → IsChangeOf change gone come
            → IsPreparedOf prepared gone come) }
        ensures room { IfOk result (λ prepared. HasRooms self.new.lists prepared.words) }
        ensures tight { IsTight none self.old.lists
            → MatchResult result (λ prepared. IsTight prepared.words self.new.lists)
            (λ _. IsTight none self.new.lists) }
    {
        let words = settle(alloc, change.gathered.by_word(alloc)?)?;
        let rows = words.as_slice();
        self.last = last_in(rows, self.last);
        let mut numbers = Vec::new(alloc);
        match reserve_words(alloc, &mut self.lists, rows, self.last, &mut numbers) {
            Ok(()) => Ok(Prepared { words, numbers }),
            Err(refused) => {
                drop_all_spent(&mut self.lists, rows);
                Err(refused)
            }
        }
    }

    /// Makes a change that was prepared on these postings as they are, and changes the lists of its
    /// words alone. Takes no memory. Where they were those of some documents, they are those of the
    /// documents after the change, and no word without a place is kept.
    pub fn commit(&mut self, prepared: Prepared)
        requires { HasRooms self.old.lists prepared.words }
        ensures lists { (word : List ℕ) (entry : ℕ) → has (list_at word self.new) entry
            ≡ ((named Comes word entry prepared.words || has (list_at word self.old) entry)
            && not (named Goes word entry prepared.words)) }
        ensures fresh { (gone come documents : List Document) → IsPreparedOf prepared gone come
            → IsBatch gone come documents → StandsFor self.old documents
            → StandsFor self.new (after gone come documents) }
        ensures tight { IsTight prepared.words self.old.lists → IsTight none self.new.lists }
    {
        let rows = prepared.words.as_slice();
        change_words(&mut self.lists, rows, &prepared.numbers, self.last);
    }

    /// Gives back the room of a prepared change that is not to be made. Each list stays as it was.
    /// Takes no memory.
    pub fn release(&mut self, prepared: Prepared)
        ensures lists { (word : List ℕ) → list_at word self.new ≡ list_at word self.old }
        ensures tight { IsTight prepared.words self.old.lists → IsTight none self.new.lists }
    {
        drop_all_spent(&mut self.lists, prepared.words.as_slice());
    }
}

// The greatest document that comes, or one where none is above it.
fn last_in(rows: &[(Word, WordChange)], one: DocId) -> DocId {
    let mut last = one;
    for row in rows {
        last = last_document(&row.1.come, last);
    }
    last
}
