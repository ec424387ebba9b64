ghost use Rattle.std.specs.Prelude.{◌≡◌, ◌<◌, ◌≤◌, ◌^◌, [], length, IfOk, OnOk, OnErr};
ghost use Rattle.std.specs.Option.{option_map};
ghost use Rattle.std.specs.List.{slice_get};
ghost use Rattle.std.specs.Iterator.{YieldsFirstBy, item_count};
ghost use Rattle.doc_sets.specs.Sets.{has, IsIncreasing, above, with_id, without_id, intersection, difference, union};

use crate::words::{and_words, count_common, count_words, minus_words, or_words};
use search_base::{DocId, NoMemory};
use std::alloc::{AllocError, Global};
use std::marker::Model;

/// A set of documents below a limit, with one bit for each of them.
#[derive(Drop)]
pub struct Bits {
    words: Vec<u64>,
}

impl Model for Bits {
    ghost use Rattle.std.specs.Prelude.{◌*◌, ◌≤◌, ◌^◌, vec_len};
    ghost use Rattle.doc_sets.specs.BitsView.{BitsView};
    ghost use Rattle.doc_sets.specs.Bits.{ids_of};

    ghost Value = { BitsView };

    ghost view = { λ b. record { ids = ids_of b.words.items; limit = 64 * vec_len b.words } };

    ghost invariant = { λ b. 64 * vec_len b.words ≤ 2 ^ 32 };
}

impl Clone for Bits {
    ghost is_clone = { λ bits copy. copy ≡ bits };

    fn clone(&self) -> Result<Bits, AllocError> {
        let words = self.words.clone()?;
        Ok(Bits { words })
    }
}

impl Bits {
    /// The empty set of documents below a limit that is at least this one.
    pub fn new(alloc: Global, limit: u64) -> Result<Bits, NoMemory>
        requires { limit ≤ 2 ^ 32 }
        ensures ids { IfOk result (λ bits. bits.ids ≡ []) }
        ensures limit { IfOk result (λ bits. limit ≤ bits.limit) }
    {
        let words = vec![in alloc; 0; limit.div_ceil(64) as usize]?;
        Ok(Bits { words })
    }

    // Where the memory comes from.
    pub(crate) fn allocator(&self) -> Global {
        *self.words.allocator()
    }

    /// What every id of the set is below.
    pub fn limit(&self) -> u64
        ensures limit { result ≡ self.now.limit }
        ensures small { result ≤ 2 ^ 32 }
        ensures few { length self.now.ids ≤ result }
        ensures increasing { IsIncreasing self.now.ids }
    {
        64 * self.words.len() as u64
    }

    /// Whether the document is in the set.
    pub fn contains(&self, id: DocId) -> bool
        ensures { result ≡ has self.now.ids id.0 }
    {
        let at = id.0 as usize / 64;
        at < self.words.len() && self.words[at] >> (id.0 % 64) & 1 == 1
    }

    /// Puts the document in. It takes no memory.
    pub fn set(&mut self, id: DocId)
        requires { id.0 < self.old.limit }
        ensures ids { self.new.ids ≡ with_id id.0 self.old.ids }
        ensures limit { self.new.limit ≡ self.old.limit }
    {
        self.words[id.0 as usize / 64] |= 1 << (id.0 % 64);
    }

    /// Takes the document out.
    pub fn unset(&mut self, id: DocId)
        ensures ids { self.new.ids ≡ without_id id.0 self.old.ids }
        ensures limit { self.new.limit ≡ self.old.limit }
    {
        let at = id.0 as usize / 64;
        if at < self.words.len() {
            self.words[at] &= !(1 << (id.0 % 64));
        }
    }

    /// How many documents are in the set.
    pub fn count(&self) -> u64
        ensures count { result ≡ length self.now.ids }
        ensures increasing { IsIncreasing self.now.ids }
    {
        count_words(self.words.as_slice())
    }

    /// How many documents are in both sets. It takes no memory.
    pub fn and_count(&self, other: &Bits) -> u64
        ensures { result ≡ length (intersection self.now.ids other.now.ids) }
    {
        count_common(self.words.as_slice(), other.words.as_slice())
    }

    /// Keeps what the other set has too. It takes no memory.
    pub fn and_with(&mut self, other: &Bits)
        ensures ids { self.new.ids ≡ intersection self.old.ids other.now.ids }
        ensures limit { self.new.limit ≡ self.old.limit }
    {
        and_words(self.words.as_mut_slice(), other.words.as_slice());
    }

    /// Puts in what the other set has. It takes no memory.
    pub fn or_with(&mut self, other: &Bits)
        requires { other.now.limit ≤ self.old.limit }
        ensures ids { self.new.ids ≡ union self.old.ids other.now.ids }
        ensures limit { self.new.limit ≡ self.old.limit }
    {
        or_words(self.words.as_mut_slice(), other.words.as_slice());
    }

    /// Takes out what the other set has. It takes no memory.
    pub fn minus_with(&mut self, other: &Bits)
        ensures ids { self.new.ids ≡ difference self.old.ids other.now.ids }
        ensures limit { self.new.limit ≡ self.old.limit }
    {
        minus_words(self.words.as_mut_slice(), other.words.as_slice());
    }

    /// Raises the limit to at least this one, where it is lower. The ids stay, and where there is
    /// no memory the whole set does.
    pub fn grow(&mut self, limit: u64) -> Result<(), NoMemory>
        requires { limit ≤ 2 ^ 32 }
        ensures ids { self.new.ids ≡ self.old.ids }
        ensures limit { OnOk result (limit ≤ self.new.limit) }
        ensures never_falls { self.old.limit ≤ self.new.limit }
        ensures err { OnErr result (self.new ≡ self.old) }
    {
        let wanted = limit.div_ceil(64) as usize;
        if self.words.len() < wanted {
            self.words.resize(wanted, 0)?;
        }
        Ok(())
    }

    /// The least id, or none where the set is empty.
    pub fn first(&self) -> Option<DocId>
        ensures { option_map (λ id. id.0) result ≡ slice_get self.now.ids 0 }
    {
        self.iter().next()
    }

    /// The least id of the set that is greater than this one, or none. It takes no memory.
    pub fn next_after(&self, id: DocId) -> Option<DocId>
        ensures { option_map (λ id. id.0) result ≡ slice_get (above id.0 self.now.ids) 0 }
    {
        let at = id.0 as usize / 64;
        if self.words.len() <= at {
            return None;
        }
        let (_before, words) = self.words.as_slice().split_at(at);
        let (word, rest) = words.split_first()?;
        let bit: u64 = 1 << (id.0 % 64);
        let mut left = BitIter {
            base: at as u32 * 64,
            word: *word & !bit & !(bit - 1),
            rest,
        };
        left.next()
    }

    /// The ids, in increasing order.
    pub fn iter(&self) -> BitIter<'_>
        ensures ids { result ≡ self.now.ids }
        ensures increasing { IsIncreasing self.now.ids }
    {
        match self.words.split_first() {
            Some((word, rest)) => BitIter {
                base: 0,
                word: *word,
                rest,
            },
            None => BitIter {
                base: 0,
                word: 0,
                rest: self.words.as_slice(),
            },
        }
    }
}

/// The ids of a set kept as bits that are left, in increasing order.
#[derive(Drop)]
pub struct BitIter<'a> {
    // What the first bit of the word stands for. The rest follows the word.
    base: u32,
    word: u64,
    rest: &'a [u64],
}

impl<'a> Model for BitIter<'a> {
    ghost use Rattle.std.specs.Prelude.{ℕ, ◌+◌, ◌*◌, ◌≤◌, ◌^◌, List, ◌∷◌, length};
    ghost use Rattle.doc_sets.specs.Bits.{ids_from};

    ghost Value = { List ℕ };

    ghost view = { λ left. ids_from left.base (left.word ∷ left.rest.now) };

    ghost invariant = { λ left. left.base + 64 * (length left.rest.now + 1) ≤ 2 ^ 32 };
}

impl<'a> Iterator for BitIter<'a> {
    type Item = DocId;

    ghost next_gives = { YieldsFirstBy (λ id. id.0) (λ left. left) };

    ghost remaining = { item_count (λ left. left) };

    fn next(&mut self) -> Option<DocId> {
        while self.word == 0 {
            let (word, rest) = self.rest.split_first()?;
            self.base += 64;
            self.word = *word;
            self.rest = rest;
        }
        let at = self.word.trailing_zeros();
        self.word &= !(1 << at);
        Some(DocId(self.base + at))
    }
}
