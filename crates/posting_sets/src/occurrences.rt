ghost use Rattle.std.specs.Prelude.{◌≡◌, ◌<◌, nat_lt, List, [], ◌∷◌, map, length, IfOk, MatchOption};
ghost use Rattle.std.specs.List.{filter};
ghost use Rattle.posting_sets.specs.Entries.{document_of};
ghost use Rattle.posting_sets.specs.Starts.{is_inside, is_around, AreStarts};

use crate::entry::document_of;
use crate::finder::{Finder, finders};
use doc_sets::DocSet;
use search_base::{DocId, NoMemory};
use sorted_pages::{Entries, SortedPages};
use std::alloc::Global;
use std::marker::Model;

// The places that are left where some words stand in a row, in documents of the universe. The list
// of one of the words is walked, and the others are looked up beside it.
#[derive(Drop)]
pub(crate) struct Occurrences<'a> {
    walked: Entries<'a>,
    lists: Vec<Finder<'a>>,
    at: usize,
    universe: &'a DocSet,
}

impl<'a> Model for Occurrences<'a> {
    ghost use Rattle.std.specs.Prelude.{ℕ, ◌<◌, List, length};
    ghost use Rattle.posting_sets.specs.Starts.{starts_at};

    ghost Value = { List ℕ };

    ghost view = { λ s. starts_at s.universe.now.ids s.lists.items s.at s.walked };

    ghost invariant = { λ s. s.at < length s.lists.items };
}

// Passes over the entries of the documents up to this one.
fn pass_document(entries: &mut Entries<'_>, id: DocId)
    ensures { entries.new ≡ filter (λ entry. nat_lt id.0 (document_of entry)) entries.old }
{
    let last = u64::from(id.0) * 0x1_0000_0000 + 0xffff_ffff;
    entries.seek(last);
    if entries.first() == Some(last) {
        let _last = entries.next();
    }
}

// Takes the next entry of a document of the universe, and passes over those before it.
fn next_inside(entries: &mut Entries<'_>, universe: &DocSet) -> Option<u64>
    ensures { let left = filter (is_inside universe.now.ids) in MatchOption result
        ((left entries.old ≡ []) × (left entries.new ≡ []))
        (λ entry. left entries.old ≡ entry ∷ left entries.new) }
{
    while let Some(entry) = entries.first() {
        let id = document_of(entry);
        if universe.contains(id) {
            let _entry = entries.next();
            return Some(entry);
        }
        match universe.next_after(id) {
            Some(next) => pass_document(entries, DocId(next.0 - 1)),
            None => return None,
        }
    }
    None
}

// Whether the others stand in a row around the word of one list, which is at this entry.
fn stand_around(lists: &mut Vec<Finder<'_>>, at: usize, entry: u64) -> bool
    requires { at < length lists.old.items }
    ensures around { result ≡ is_around lists.old.items at entry }
    ensures same { lists.new.items ≡ lists.old.items }
{
    let position = entry % 0x1_0000;
    let before = at as u64;
    if position < before || position - before + lists.len() as u64 > 0x1_0000 {
        return false;
    }
    for index in 0..lists.len() {
        if index != at && !lists[index].contains(entry - before + index as u64) {
            return false;
        }
    }
    true
}

// Which of the lists is the shortest.
fn rarest(lists: &[&SortedPages]) -> usize
    requires { 0 < length lists.now }
    ensures { result < length lists.now }
{
    let mut at = 0;
    let mut fewest = usize::MAX;
    for (index, list) in lists.iter().enumerate() {
        let len = list.len();
        if len < fewest {
            at = index;
            fewest = len;
        }
    }
    at
}

impl<'a> Occurrences<'a> {
    // All places where the words of these lists stand in a row, in documents of the universe.
    pub(crate) fn new(
        alloc: Global,
        lists: &[&'a SortedPages],
        universe: &'a DocSet,
    ) -> Result<Occurrences<'a>, NoMemory>
        requires { 0 < length lists.now }
        ensures { IfOk result (λ made. AreStarts universe.now.ids (map (λ list. list.now.entries) lists.now) made) }
    {
        let at = rarest(lists);
        let walked = lists[at].iter();
        let lists = finders(alloc, lists)?;
        Ok(Occurrences {
            walked,
            lists,
            at,
            universe,
        })
    }

    // The next place, by the entry of the first word.
    pub(crate) fn next(&mut self) -> Option<u64>
        ensures { MatchOption result ((self.old ≡ []) × (self.new ≡ [])) (λ start. self.old ≡ start ∷ self.new) }
    {
        while let Some(entry) = next_inside(&mut self.walked, self.universe) {
            if stand_around(&mut self.lists, self.at, entry) {
                return Some(entry - self.at as u64);
            }
        }
        None
    }

    // Passes over the places of the documents up to this one.
    pub(crate) fn pass(&mut self, id: DocId)
        ensures { self.new ≡ filter (λ start. nat_lt id.0 (document_of start)) self.old }
    {
        pass_document(&mut self.walked, id);
    }
}
