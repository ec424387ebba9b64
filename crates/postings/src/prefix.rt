ghost use Rattle.std.specs.Iterator.{YieldsFirstBy, item_count};
ghost use Rattle.std.specs.Prelude.{◌≡◌, [], ◌∷◌, IfSome, IfNone, nat_eq};
ghost use Rattle.std.specs.List.{starts_with};
ghost use Rattle.std.specs.Option.{option_map};
ghost use Rattle.postings.specs.Dictionary.{some_list};
ghost use Rattle.postings.specs.Prefixes.{rows_left, first_rows, entries_in};

use crate::slots::{Slot, slot_at};
use posting_list::PostingList;
use search_base::Word;
use std::collections::btree_map::Range;

/// The words with a prefix that are left, in order, each with its list.
#[derive(Drop)]
pub struct PrefixLists<'a> {
    pub(crate) prefix: &'a Word,
    pub(crate) slots: &'a [Option<Slot>],
    pub(crate) lists: Range<'a, Word, u32>,
    pub(crate) done: bool,
}

impl<'a> Iterator for PrefixLists<'a> {
    type Item = (&'a Word, &'a PostingList);

    ghost next_gives = { YieldsFirstBy (λ row. (row.0.now, row.1.now.entries)) (λ left. rows_left left) };

    ghost remaining = { item_count (λ left. rows_left left) };

    fn next(&mut self) -> Option<(&'a Word, &'a PostingList)> {
        if self.done {
            return None;
        }
        let found = next_with(self.slots, &mut self.lists, self.prefix);
        self.done = found.is_none();
        found
    }
}

// The next word of the dictionary, if it begins so. Those with an empty list are passed over.
fn next_with<'a>(
    slots: &'a [Option<Slot>],
    lists: &mut Range<'a, Word, u32>,
    prefix: &Word,
) -> Option<(&'a Word, &'a PostingList)>
    ensures some { IfSome result (λ row. first_rows slots.now prefix.now lists.old
        ≡ (row.0.now, row.1.now.entries) ∷ first_rows slots.now prefix.now lists.new) }
    ensures none { IfNone result (first_rows slots.now prefix.now lists.old ≡ []) }
{
    while let Some((word, number)) = lists.next() {
        if !begins(word, prefix) {
            return None;
        }
        match shown_at(slots, *number) {
            Some(list) => return Some((word, list)),
            None => {}
        }
    }
    None
}

// Whether the word begins so.
fn begins(word: &Word, prefix: &Word) -> bool
    ensures { result ≡ starts_with nat_eq word.now prefix.now }
{
    let prefix = prefix.as_str().as_bytes();
    word.as_str().as_bytes().starts_with(prefix)
}

// The list of a number, if it has a place.
pub(crate) fn shown_at(slots: &[Option<Slot>], number: u32) -> Option<&PostingList>
    ensures { option_map (λ list. list.now.entries) result ≡ some_list (entries_in slots.now number) }
{
    match slot_at(slots, number) {
        Some(slot) => {
            if slot.list.is_empty() {
                None
            } else {
                Some(&slot.list)
            }
        }
        None => None,
    }
}
