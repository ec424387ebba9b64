ghost use Rattle.std.specs.Iterator.{YieldsFirstBy, item_count};
ghost use Rattle.std.specs.Prelude.{◌≡◌, [], ◌∷◌, ◌++◌, IfSome, IfNone};
ghost use Rattle.postings.specs.Words.{shown_rows};

use crate::prefix::shown_at;
use crate::slots::Slot;
use posting_list::PostingList;
use search_base::Word;
use std::collections::btree_map::Range;
use std::marker::Model;

/// The words that are left of those from a bound on, or up to one, in order, each with its list.
#[derive(Drop)]
pub struct WordLists<'a> {
    pub(crate) slots: &'a [Option<Slot>],
    pub(crate) lists: Range<'a, Word, u32>,
}

impl<'a> Model for WordLists<'a> {
    ghost use Rattle.std.specs.Prelude.{ℕ, List};
    ghost use Rattle.postings.specs.Words.{shown_rows};

    ghost Value = { List (List ℕ × List ℕ) };

    ghost view = { λ left. shown_rows left.slots.now left.lists };
}

impl<'a> Iterator for WordLists<'a> {
    type Item = (&'a Word, &'a PostingList);

    ghost next_gives = { YieldsFirstBy (λ row. (row.0.now, row.1.now.entries)) (λ left. left) };

    ghost remaining = { item_count (λ left. left) };

    fn next(&mut self) -> Option<(&'a Word, &'a PostingList)> {
        next_shown(self.slots, &mut self.lists)
    }
}

impl<'a> WordLists<'a> {
    /// The last of the words that are left, with its list, which is taken out of them. Takes no memory.
    pub fn next_back(&mut self) -> Option<(&'a Word, &'a PostingList)>
        ensures some { IfSome result (λ row. self.old ≡ self.new ++ (row.0.now, row.1.now.entries) ∷ []) }
        ensures none { IfNone result (self.old ≡ []) }
    {
        last_shown(self.slots, &mut self.lists)
    }
}

// The next word of the dictionary that has a place. Those with an empty list are passed over.
fn next_shown<'a>(
    slots: &'a [Option<Slot>],
    lists: &mut Range<'a, Word, u32>,
) -> Option<(&'a Word, &'a PostingList)>
    ensures some { IfSome result (λ row. shown_rows slots.now lists.old
        ≡ (row.0.now, row.1.now.entries) ∷ shown_rows slots.now lists.new) }
    ensures none { IfNone result ((shown_rows slots.now lists.old ≡ []) × (shown_rows slots.now lists.new ≡ [])) }
{
    while let Some((word, number)) = lists.next() {
        match shown_at(slots, *number) {
            Some(list) => return Some((word, list)),
            None => {}
        }
    }
    None
}

// The last word of the dictionary that has a place. Those with an empty list are passed over.
fn last_shown<'a>(
    slots: &'a [Option<Slot>],
    lists: &mut Range<'a, Word, u32>,
) -> Option<(&'a Word, &'a PostingList)>
    ensures some { IfSome result (λ row. shown_rows slots.now lists.old
        ≡ shown_rows slots.now lists.new ++ (row.0.now, row.1.now.entries) ∷ []) }
    ensures none { IfNone result (shown_rows slots.now lists.old ≡ []) }
{
    while let Some((word, number)) = lists.next_back() {
        match shown_at(slots, *number) {
            Some(list) => return Some((word, list)),
            None => {}
        }
    }
    None
}
