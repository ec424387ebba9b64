ghost use Rattle.std.specs.Prelude.{◌≡◌, ℕ, ◌<◌, List, [], length, not, ◌&&◌, ◌||◌, IfOk, OnOk, None, Some};
ghost use Rattle.std.specs.Bool.{OnTrue, OnFalse};
ghost use Rattle.std.specs.Option.{option_map, option_copied};
ghost use Rattle.std.specs.Ordering.{is_eq};
ghost use Rattle.sorted_pages.specs.Entries.{has, IsIncreasing};
ghost use Rattle.postings.specs.Dictionary.{word_cmp, value_at, entries_of, RoomAt, HasRooms};
ghost use Rattle.postings.specs.Dictionary.{IsNumbered, lists_of, pages_at};
ghost use Rattle.postings.specs.Dictionary.{HasSameLists, HasSameOthers, IsTight, IsTightAt, none};
ghost use Rattle.postings.specs.Changes.{named, AreSettled};
ghost use Rattle.postings.specs.declared.change.Side.TheVariants.{Goes, Comes};

use crate::change::WordChange;
use crate::gathered::copy_word;
use crate::hints::Hints;
use crate::slots::{
    Slot, change_at, clear_at, free_number, is_empty_at, is_word_at, put_at, reserve_at, slot_at,
};
use posting_list::PostingList;
use search_base::{DocId, NoMemory, Word};
use std::alloc::Global;
use std::collections::BTreeMap;

// The words with their lists, each under its number, and the numbers of the words in order. A list that is empty only
// holds room.
#[derive(Drop)]
pub(crate) struct Dictionary {
    pub(crate) slots: Vec<Option<Slot>>,
    pub(crate) numbers: BTreeMap<Word, u32>,
    // Numbers of no word, with room for all.
    pub(crate) free: Vec<u32>,
    // Where the number of a word is likely found.
    pub(crate) hints: Hints,
}

// A dictionary of no word. Takes no memory.
pub(crate) fn no_words(alloc: Global) -> Dictionary
    ensures numbered { IsNumbered (lists_of result) }
    ensures empty { (word : List ℕ) → pages_at word (lists_of result) ≡ None }
{
    Dictionary {
        slots: Vec::new(alloc),
        numbers: BTreeMap::new(alloc),
        free: Vec::new(alloc),
        hints: Hints::new(alloc),
    }
}

// The number of a word, if it has one.
fn number_of(lists: &Dictionary, word: &Word) -> Option<u32>
    requires { IsNumbered (lists_of lists.now) }
    ensures { result ≡ value_at word.now lists.now.numbers.entries }
{
    likely_number_of(lists, word, lists.hints.number(word))
}

// The same, where it is likely this one.
fn likely_number_of(lists: &Dictionary, word: &Word, likely: Option<u32>) -> Option<u32>
    requires { IsNumbered (lists_of lists.now) }
    ensures { result ≡ value_at word.now lists.now.numbers.entries }
{
    match likely {
        Some(number) => {
            if is_word_at(&lists.slots, number, word) {
                return Some(number);
            }
        }
        None => {}
    }
    lists.numbers.get(word).copied()
}

// The list of a word, if it has one.
pub(crate) fn list_of<'a>(lists: &'a Dictionary, word: &Word) -> Option<&'a PostingList>
    requires { IsNumbered (lists_of lists.now) }
    ensures { option_copied result ≡ pages_at word.now (lists_of lists.now) }
{
    match number_of(lists, word) {
        Some(number) => match slot_at(&lists.slots, number) {
            Some(slot) => Some(&slot.list),
            None => None,
        },
        None => None,
    }
}

// Gives a word that has none a number and an empty list.
fn add_word(alloc: Global, lists: &mut Dictionary, word: &Word) -> Result<u32, NoMemory>
    requires numbered { IsNumbered (lists_of lists.old) }
    requires new { value_at word.now lists.old.numbers.entries ≡ None }
    ensures numbered { IsNumbered (lists_of lists.new) }
    ensures lists { HasSameLists (lists_of lists.old) (lists_of lists.new) }
    ensures others { HasSameOthers word.now (lists_of lists.old) (lists_of lists.new) }
    ensures number { IfOk result (λ number. value_at word.now lists.new.numbers.entries ≡ Some number) }
{
    let slot = Slot {
        word: copy_word(word)?,
        list: PostingList::new(alloc),
    };
    let key = copy_word(word)?;
    lists.hints.grow(alloc, &lists.slots)?;
    let number = free_number(&mut lists.slots, &mut lists.free)?;
    match lists.numbers.insert(key, number) {
        Ok(_) => {
            let _is_kept = lists.hints.keep(word, number);
            put_at(&mut lists.slots, number, slot);
            Ok(number)
        }
        Err(_) => {
            let _kept = lists.free.push(number);
            Err(NoMemory)
        }
    }
}

// The number of a word, which is given one with an empty list where it has none.
fn some_number_of(alloc: Global, lists: &mut Dictionary, word: &Word) -> Result<u32, NoMemory>
    requires { IsNumbered (lists_of lists.old) }
    ensures numbered { IsNumbered (lists_of lists.new) }
    ensures lists { HasSameLists (lists_of lists.old) (lists_of lists.new) }
    ensures others { HasSameOthers word.now (lists_of lists.old) (lists_of lists.new) }
    ensures number { IfOk result (λ number. value_at word.now lists.new.numbers.entries ≡ Some number) }
{
    match number_of(lists, word) {
        Some(number) => Ok(number),
        None => add_word(alloc, lists, word),
    }
}

// Makes room for what a word gains, and gives its number.
fn reserve_word(
    alloc: Global,
    lists: &mut Dictionary,
    word: &Word,
    come: &[u64],
    last: DocId,
) -> Result<u32, NoMemory>
    requires numbered { IsNumbered (lists_of lists.old) }
    requires come { IsIncreasing come.now }
    ensures numbered { IsNumbered (lists_of lists.new) }
    ensures lists { HasSameLists (lists_of lists.old) (lists_of lists.new) }
    ensures others { HasSameOthers word.now (lists_of lists.old) (lists_of lists.new) }
    ensures room { OnOk result (RoomAt (pages_at word.now (lists_of lists.new)) come.now) }
{
    let number = some_number_of(alloc, lists, word)?;
    reserve_at(alloc, &mut lists.slots, number, come, last)?;
    Ok(number)
}

// Makes room for what each word gains, where no document is above the last, and adds the numbers of the words.
pub(crate) fn reserve_words(
    alloc: Global,
    lists: &mut Dictionary,
    rows: &[(Word, WordChange)],
    last: DocId,
    numbers: &mut Vec<u32>,
) -> Result<(), NoMemory>
    requires numbered { IsNumbered (lists_of lists.old) }
    requires settled { AreSettled rows.now }
    ensures numbered { IsNumbered (lists_of lists.new) }
    ensures lists { HasSameLists (lists_of lists.old) (lists_of lists.new) }
    ensures others { (w : List ℕ) → value_at w rows.now ≡ None → pages_at w (lists_of lists.new) ≡ pages_at w (lists_of lists.old) }
    ensures room { OnOk result (HasRooms (lists_of lists.new) rows.now) }
{
    for row in rows {
        let number = reserve_word(alloc, lists, &row.0, &row.1.come, last)?;
        numbers.push(number)?;
    }
    Ok(())
}

// Takes out a word.
fn drop_word(lists: &mut Dictionary, word: &Word, number: u32)
    requires numbered { IsNumbered (lists_of lists.old) }
    requires number { value_at word.now lists.old.numbers.entries ≡ Some number }
    ensures numbered { IsNumbered (lists_of lists.new) }
    ensures others { HasSameOthers word.now (lists_of lists.old) (lists_of lists.new) }
    ensures gone { pages_at word.now (lists_of lists.new) ≡ None }
{
    let _number = lists.numbers.remove(word);
    clear_at(&mut lists.slots, number);
    let _kept = lists.free.push(number);
}

// Makes the change of a word, for which there is room, and keeps no empty list.
fn change_number(lists: &mut Dictionary, word: &Word, number: u32, change: &WordChange, last: DocId)
    requires numbered { IsNumbered (lists_of lists.old) }
    requires number { value_at word.now lists.old.numbers.entries ≡ Some number }
    requires gone { IsIncreasing change.now.gone.items }
    requires come { IsIncreasing change.now.come.items }
    requires room { RoomAt (pages_at word.now (lists_of lists.old)) change.now.come.items }
    ensures numbered { IsNumbered (lists_of lists.new) }
    ensures list { (entry : ℕ) → has (entries_of (pages_at word.now (lists_of lists.new))) entry
        ≡ ((has change.now.come.items entry || has (entries_of (pages_at word.now (lists_of lists.old))) entry)
        && not (has change.now.gone.items entry)) }
    ensures others { HasSameOthers word.now (lists_of lists.old) (lists_of lists.new) }
    ensures tight { IsTightAt word.now (lists_of lists.new) }
{
    change_at(&mut lists.slots, number, &change.gone, &change.come, last);
    if is_empty_at(&lists.slots, number) {
        drop_word(lists, word, number);
    }
}

// The same, where the number is likely this one.
fn change_word(
    lists: &mut Dictionary,
    word: &Word,
    likely: Option<u32>,
    change: &WordChange,
    last: DocId,
)
    requires numbered { IsNumbered (lists_of lists.old) }
    requires gone { IsIncreasing change.now.gone.items }
    requires come { IsIncreasing change.now.come.items }
    requires room { RoomAt (pages_at word.now (lists_of lists.old)) change.now.come.items }
    ensures numbered { IsNumbered (lists_of lists.new) }
    ensures list { (entry : ℕ) → has (entries_of (pages_at word.now (lists_of lists.new))) entry
        ≡ ((has change.now.come.items entry || has (entries_of (pages_at word.now (lists_of lists.old))) entry)
        && not (has change.now.gone.items entry)) }
    ensures others { HasSameOthers word.now (lists_of lists.old) (lists_of lists.new) }
    ensures tight { IsTightAt word.now (lists_of lists.new) }
{
    match likely_number_of(lists, word, likely) {
        Some(number) => change_number(lists, word, number, change, last),
        None => {}
    }
}

// Makes the change of each word, for all of which there is room. No document is above the last. The numbers of the
// words are likely these.
pub(crate) fn change_words(
    lists: &mut Dictionary,
    rows: &[(Word, WordChange)],
    likely: &[u32],
    last: DocId,
)
    requires numbered { IsNumbered (lists_of lists.old) }
    requires settled { AreSettled rows.now }
    requires room { HasRooms (lists_of lists.old) rows.now }
    ensures numbered { IsNumbered (lists_of lists.new) }
    ensures lists { (word : List ℕ) (entry : ℕ) → has (entries_of (pages_at word (lists_of lists.new))) entry
        ≡ ((named Comes word entry rows.now || has (entries_of (pages_at word (lists_of lists.old))) entry)
        && not (named Goes word entry rows.now)) }
    ensures tight { IsTight rows.now (lists_of lists.old) → IsTight none (lists_of lists.new) }
{
    let mut numbers = likely.iter();
    for row in rows {
        let likely = numbers.next().copied();
        change_word(lists, &row.0, likely, &row.1, last);
    }
}

// Takes out a word, if its list is empty.
fn drop_spent(lists: &mut Dictionary, word: &Word)
    requires { IsNumbered (lists_of lists.old) }
    ensures numbered { IsNumbered (lists_of lists.new) }
    ensures lists { HasSameLists (lists_of lists.old) (lists_of lists.new) }
    ensures others { HasSameOthers word.now (lists_of lists.old) (lists_of lists.new) }
    ensures tight { IsTightAt word.now (lists_of lists.new) }
{
    match number_of(lists, word) {
        Some(number) => {
            if is_empty_at(&lists.slots, number) {
                drop_word(lists, word, number);
            }
        }
        None => {}
    }
}

// Takes out those of these words whose lists are empty.
pub(crate) fn drop_all_spent(lists: &mut Dictionary, rows: &[(Word, WordChange)])
    requires { IsNumbered (lists_of lists.old) }
    ensures numbered { IsNumbered (lists_of lists.new) }
    ensures lists { HasSameLists (lists_of lists.old) (lists_of lists.new) }
    ensures tight { IsTight rows.now (lists_of lists.old) → IsTight none (lists_of lists.new) }
{
    for row in rows {
        drop_spent(lists, &row.0);
    }
}
