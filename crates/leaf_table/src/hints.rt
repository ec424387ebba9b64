ghost use Rattle.std.specs.Prelude.{◌≡◌, Some, IfSome};
ghost use Rattle.std.specs.Bool.{OnTrue};
ghost use Rattle.leaf_table.specs.Rows.{leaf_in};

use crate::pool::leaf_at;
use search_base::{FacetValue, Leaf, NoMemory, Word};
use std::alloc::Global;

/// Where the numbers of leaves are likely found, by a hash. Nothing relies on what it says, since a number is taken only
/// where its leaf is the one that is asked for: a leaf that is not found is only kept once more. So leaves that are
/// chosen to meet in one place cost no more than that.
#[derive(Drop)]
pub(crate) struct Hints {
    // At a place of its hash, or behind it, a number below the upper half of the hash, or nothing.
    places: Vec<u64>,
}

// A number stands at one of so many places.
const PLACES: usize = 16;

// What a place holds where it holds nothing. No number is so great.
const NOTHING: u64 = u64::MAX;

// The bits of a number.
const NUMBER: u64 = 0xffff_ffff;

impl Hints {
    /// No places. Takes no memory.
    pub(crate) fn new(alloc: Global) -> Hints {
        Hints {
            places: Vec::new(alloc),
        }
    }

    /// Whether there are places enough for so many leaves, and not far too many.
    pub(crate) fn fit(&self, leaves: usize) -> bool {
        leaves <= self.places.len() / 2 && self.places.len() / 16 <= leaves.saturating_add(PLACES)
    }

    /// Takes places for so many leaves, which hold nothing. After a refusal all is as it was.
    pub(crate) fn renew(&mut self, alloc: Global, leaves: usize) -> Result<(), NoMemory> {
        let mut places = Vec::new(alloc);
        places.resize(leaves.saturating_mul(3).saturating_add(PLACES), NOTHING)?;
        self.places = places;
        Ok(())
    }

    /// Forgets all.
    pub(crate) fn clear(&mut self) {
        self.places.fill(NOTHING);
    }

    /// Keeps the number of a leaf of this hash, where a place is left. Takes no memory.
    pub(crate) fn keep(&mut self, hash: u64, number: u32) {
        let first = first_of(hash, self.places.len());
        for at in first..first.saturating_add(PLACES) {
            if at < self.places.len() && self.places[at] == NOTHING {
                self.places[at] = (hash & !NUMBER) | u64::from(number);
                return;
            }
        }
    }

    /// Keeps the numbers of these leaves, which are their places here. Takes no memory.
    pub(crate) fn keep_all(&mut self, leaves: &[Option<Leaf>]) {
        let mut number: u32 = 0;
        for place in leaves {
            if let Some(leaf) = place {
                self.keep(hash_of(leaf), number);
            }
            number = number.saturating_add(1);
        }
    }

    /// A leaf's number among the leaves, where its hash leads to it.
    pub(crate) fn number(&self, hash: u64, leaves: &[Option<Leaf>], leaf: &Leaf) -> Option<u32>
        ensures { IfSome result (λ number. leaf_in leaves.now number ≡ Some leaf.now) }
    {
        let first = first_of(hash, self.places.len());
        for place in self.places.get(first..)?.iter().take(PLACES) {
            if *place == NOTHING {
                return None;
            }
            let number = (*place & NUMBER) as u32;
            if *place & !NUMBER == hash & !NUMBER && is_leaf_at(leaves, number, leaf) {
                return Some(number);
            }
        }
        None
    }
}

// The first place of a hash, of so many.
fn first_of(hash: u64, places: usize) -> usize {
    hash as usize % places.saturating_sub(PLACES).max(1)
}

// Whether this is the number of the leaf.
fn is_leaf_at(leaves: &[Option<Leaf>], number: u32, leaf: &Leaf) -> bool
    ensures { OnTrue result (leaf_in leaves.now number ≡ Some leaf.now) }
{
    match leaf_at(leaves, number) {
        Some(known) => are_same(known, leaf),
        None => false,
    }
}

// Whether two leaves are the same in path, value and spelling.
fn are_same(one: &Leaf, other: &Leaf) -> bool
    ensures { OnTrue result (one.now ≡ other.now) }
{
    one.path == other.path && one.value == other.value && one.shown == other.shown
}

// A number that leaves which are the same have, and others seldom.
pub(crate) fn hash_of(leaf: &Leaf) -> u64 {
    let path = with_bytes(START, &leaf.path.0.to_le_bytes());
    let value = match &leaf.value {
        FacetValue::Number(number) => with_bytes(path, &number.to_le_bytes()),
        FacetValue::Text(text) => with_word(path, text),
    };
    with_word(value, &leaf.shown)
}

// The hash of nothing.
const START: u64 = 0xcbf2_9ce4_8422_2325;

// The hash with the bytes of a word behind it.
fn with_word(hash: u64, word: &Word) -> u64 {
    with_bytes(hash, word.as_str().as_bytes())
}

// The hash with some bytes behind it.
fn with_bytes(hash: u64, bytes: &[u8]) -> u64 {
    let mut mixed = hash;
    for byte in bytes {
        mixed = (mixed ^ u64::from(*byte)).wrapping_mul(0x0000_0100_0000_01b3);
    }
    mixed
}
