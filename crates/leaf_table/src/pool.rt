ghost use Rattle.std.specs.Prelude.{◌≡◌, ◌<◌, ◌≤◌, ◌+◌, ℕ, length, true, None, Some, OnOk, slice_index_or};
ghost use Rattle.std.specs.List.{All};
ghost use Rattle.std.specs.Option.{option_copied, option_to_list};
ghost use Rattle.search_base.specs.SortKeys.{leaves_under};
ghost use Rattle.search_base.specs.declared.document.Leaf.{Leaf};
ghost use Rattle.leaf_table.specs.Rows.{leaf_in, room_of, Each};

use crate::columns::make_room;
use crate::hints::{Hints, hash_of};
use crate::leaf_row::LeafRow;
use search_base::{Leaf, NoMemory, PathId};
use std::alloc::Global;

/// Leaves by number. One that several documents have is kept once, as far as its number is found.
#[derive(Drop)]
pub(crate) struct LeafPool {
    pub(crate) leaves: Vec<Option<Leaf>>,
    // For each number whether a row has it, while the leaves that no row has are let go.
    marks: Vec<bool>,
    // Below it no number is free.
    free: usize,
    hints: Hints,
}

// Numbers are below it.
const LIMIT: usize = 0xffff_ffff;

// The leaf of a number, where there is one.
pub(crate) fn leaf_at(leaves: &[Option<Leaf>], number: u32) -> Option<&Leaf>
    ensures { option_copied result ≡ leaf_in leaves.now number }
{
    match leaves.get(number as usize) {
        Some(place) => match place {
            Some(leaf) => Some(leaf),
            None => None,
        },
        None => None,
    }
}

// The leaf of a number, where it stands under the path.
pub(crate) fn leaf_under(leaves: &[Option<Leaf>], number: u32, path: PathId) -> Option<&Leaf>
    ensures { option_to_list (option_copied result) ≡ leaves_under path.0 (option_to_list (leaf_in leaves.now number)) }
{
    let leaf = leaf_at(leaves, number)?;
    if leaf.path == path { Some(leaf) } else { None }
}

impl LeafPool {
    /// No leaves. Takes no memory.
    pub(crate) fn new(alloc: Global) -> LeafPool {
        LeafPool {
            leaves: Vec::new(alloc),
            marks: Vec::new(alloc),
            free: 0,
            hints: Hints::new(alloc),
        }
    }

    /// Takes memory for so many leaves more.
    pub(crate) fn reserve(&mut self, alloc: Global, more: usize) -> Result<(), NoMemory>
        ensures leaves { self.new.leaves.items ≡ self.old.leaves.items }
        ensures room { OnOk result (more ≤ room_of self.new.leaves) }
    {
        let Some(len) = self.leaves.len().checked_add(more) else {
            return Err(NoMemory);
        };
        if len > LIMIT {
            return Err(NoMemory);
        }
        make_room(&mut self.leaves, len)?;
        make_room(&mut self.marks, len)?;
        if !self.hints.fit(len) {
            self.hints.renew(alloc, len)?;
            self.hints.keep_all(self.leaves.as_slice());
        }
        Ok(())
    }

    /// The number of a leaf: the one that it has, or a free one, which it is given. Takes no memory.
    pub(crate) fn number(&mut self, leaf: Leaf) -> u32
        requires { 0 < room_of self.old.leaves }
        ensures here { leaf_in self.new.leaves.items result ≡ Some leaf }
        ensures others { (number : ℕ) (other : Leaf) → leaf_in self.old.leaves.items number ≡ Some other
            → leaf_in self.new.leaves.items number ≡ Some other }
        ensures room { room_of self.old.leaves ≤ room_of self.new.leaves + 1 }
    {
        let hash = hash_of(&leaf);
        if let Some(number) = self.hints.number(hash, self.leaves.as_slice(), &leaf) {
            return number;
        }
        let number = self.add(leaf);
        self.hints.keep(hash, number);
        number
    }

    // Gives a leaf a number.
    fn add(&mut self, leaf: Leaf) -> u32
        requires { 0 < room_of self.old.leaves }
        ensures here { leaf_in self.new.leaves.items result ≡ Some leaf }
        ensures others { (number : ℕ) (other : Leaf) → leaf_in self.old.leaves.items number ≡ Some other
            → leaf_in self.new.leaves.items number ≡ Some other }
        ensures room { room_of self.old.leaves ≤ room_of self.new.leaves + 1 }
    {
        let number = first_free(self.leaves.as_slice(), self.free);
        self.free = number;
        if number < self.leaves.len() {
            self.leaves[number] = Some(leaf);
        } else {
            self.leaves.push_reserved(Some(leaf));
            let _marked = self.marks.push(true);
        }
        number as u32
    }

    /// Lets go the leaves whose numbers no row has. Takes no memory.
    pub(crate) fn let_go(&mut self, rows: &[LeafRow])
        ensures leaves { Each (λ number. leaf_in self.new.leaves.items number ≡ leaf_in self.old.leaves.items number) rows.now }
        ensures room { room_of self.new.leaves ≡ room_of self.old.leaves }
    {
        self.marks.fill(false);
        mark_all(self.marks.as_mut_slice(), rows);
        clear_unmarked(self.leaves.as_mut_slice(), self.marks.as_slice());
        self.free = 0;
        self.hints.clear();
        self.hints.keep_all(self.leaves.as_slice());
    }
}

// The first number from this one on that no leaf has, or else the one behind the last.
fn first_free(leaves: &[Option<Leaf>], from: usize) -> usize
    ensures inside { result ≤ length leaves.now }
    ensures free { leaf_in leaves.now result ≡ None }
{
    let mut number = from;
    while number < leaves.len() {
        if leaves[number].is_none() {
            return number;
        }
        number += 1;
    }
    leaves.len()
}

// Marks the numbers of all rows.
fn mark_all(marks: &mut [bool], rows: &[LeafRow])
    ensures { Each (λ number. slice_index_or marks.new number true ≡ true) rows.now }
{
    for row in rows {
        mark(marks, row.numbers());
    }
}

// Marks these numbers.
fn mark(marks: &mut [bool], numbers: &[u32])
    ensures marked { (number : ℕ) → slice_index_or marks.old number true ≡ true → slice_index_or marks.new number true ≡ true }
    ensures each { All (λ number. slice_index_or marks.new number true ≡ true) numbers.now }
{
    for number in numbers {
        let at = *number as usize;
        if at < marks.len() {
            marks[at] = true;
        }
    }
}

// Clears the places of numbers that are not marked.
fn clear_unmarked(leaves: &mut [Option<Leaf>], marks: &[bool])
    ensures { (number : ℕ) → slice_index_or marks.now number true ≡ true
        → leaf_in leaves.new number ≡ leaf_in leaves.old number }
{
    for (number, marked) in marks.iter().enumerate() {
        if !*marked && number < leaves.len() {
            leaves[number] = None;
        }
    }
}
