ghost use Rattle.std.specs.Prelude.{◌≡◌, ℕ, ◌+◌, ◌≤◌, [], length, map, not, IfOk, OnOk, OnErr, ◌==◌};
ghost use Rattle.std.specs.Bool.{OnTrue, OnFalse};
ghost use Rattle.std.specs.Option.{option_map};
ghost use Rattle.std.specs.List.{slice_get};
ghost use Rattle.std.specs.Iterator.{YieldsFirstBy, item_count};
ghost use Rattle.doc_sets.specs.Sets.{has, IsIncreasing, above, with_id, without_id, intersection, difference, union};

use crate::bits::{BitIter, Bits};
use crate::in_place::{kept_join, kept_subtract};
use crate::kept::{
    Kept, add_to, kept_and, kept_and_len, kept_insert, kept_insert_reserved, kept_limit,
    kept_make_room, kept_minus, kept_or, kept_put_in_room, kept_remove, listed_and_reserved,
    numbers, packed, packed_list,
};
use crate::merge::{Ids, first_above, holds};
use search_base::{DocId, NoMemory};
use smallvec::SmallVec;
use std::alloc::{AllocError, Global};
use std::marker::Model;

/// A set of documents, which chooses between a list of their ids and a bit for each id below a
/// limit. Up to four ids take no memory.
#[derive(Drop)]
pub struct DocSet {
    kept: Kept,
}

impl Model for DocSet {
    ghost use Rattle.doc_sets.specs.SetView.{SetView};
    ghost use Rattle.doc_sets.specs.Kept.{kept_ids, kept_spare, IsKept};

    ghost Value = { SetView };

    ghost view = { λ s. record { ids = kept_ids s.kept; spare = kept_spare s.kept } };

    ghost invariant = { λ s. IsKept s.kept };
}

impl Clone for DocSet {
    ghost is_clone = { λ set copy. copy.ids ≡ set.ids };

    fn clone(&self) -> Result<DocSet, AllocError> {
        match &self.kept {
            Kept::Few(ids) => {
                let ids = SmallVec::from_slice(*ids.allocator(), ids.as_slice())?;
                Ok(DocSet {
                    kept: Kept::Few(ids),
                })
            }
            Kept::Many(bits, count) => {
                let bits = bits.clone()?;
                Ok(DocSet {
                    kept: Kept::Many(bits, *count),
                })
            }
        }
    }
}

impl DocSet {
    /// The empty set. It takes no memory.
    pub fn new(alloc: Global) -> DocSet
        ensures { result.ids ≡ [] }
    {
        DocSet {
            kept: Kept::Few(SmallVec::new(alloc)),
        }
    }

    /// The set of these ids, each of which is below the next.
    pub fn from_sorted(alloc: Global, ids: &[DocId]) -> Result<DocSet, NoMemory>
        requires { IsIncreasing (map (λ id. id.0) ids.now) }
        ensures { IfOk result (λ set. set.ids ≡ map (λ id. id.0) ids.now) }
    {
        let list = numbers(alloc, ids)?;
        DocSet::from_list(alloc, list)
    }

    /// Whether the document is in the set, found by halving or by its bit.
    pub fn contains(&self, id: DocId) -> bool
        ensures { result ≡ has self.now.ids id.0 }
    {
        match &self.kept {
            Kept::Few(ids) => holds(ids.as_slice(), id.0),
            Kept::Many(bits, _) => bits.contains(id),
        }
    }

    /// How many documents are in the set, each of whose ids is below the next.
    pub fn len(&self) -> u64
        ensures len { result ≡ length self.now.ids }
        ensures increasing { IsIncreasing self.now.ids }
    {
        match &self.kept {
            Kept::Few(ids) => ids.len() as u64,
            Kept::Many(_, count) => *count,
        }
    }

    /// Whether no document is in the set.
    pub fn is_empty(&self) -> bool
        ensures { result ≡ (length self.now.ids == 0) }
    {
        self.len() == 0
    }

    /// The least id, or none where the set is empty.
    pub fn first(&self) -> Option<DocId>
        ensures first { option_map (λ id. id.0) result ≡ slice_get self.now.ids 0 }
        ensures increasing { IsIncreasing self.now.ids }
    {
        match &self.kept {
            Kept::Few(ids) => match ids.as_slice().first() {
                Some(id) => Some(DocId(*id)),
                None => None,
            },
            Kept::Many(bits, _) => bits.first(),
        }
    }

    /// The least id of the set that is greater than this one, or none. It takes no memory.
    pub fn next_after(&self, id: DocId) -> Option<DocId>
        ensures next { option_map (λ id. id.0) result ≡ slice_get (above id.0 self.now.ids) 0 }
        ensures increasing { IsIncreasing self.now.ids }
    {
        match &self.kept {
            Kept::Few(ids) => match first_above(ids.as_slice(), id.0) {
                Some(next) => Some(DocId(next)),
                None => None,
            },
            Kept::Many(bits, _) => bits.next_after(id),
        }
    }

    /// The ids, in increasing order.
    pub fn iter(&self) -> DocIter<'_>
        ensures ids { result ≡ self.now.ids }
        ensures increasing { IsIncreasing self.now.ids }
    {
        match &self.kept {
            Kept::Few(ids) => DocIter {
                left: Left::Few(ids.as_slice()),
            },
            Kept::Many(bits, _) => DocIter {
                left: Left::Many(bits.iter()),
            },
        }
    }

    /// Puts the document in, and tells whether it is new. Where there is no memory the ids stay as
    /// they were.
    pub fn insert(&mut self, id: DocId) -> Result<bool, NoMemory>
        ensures ids { OnOk result (self.new.ids ≡ with_id id.0 self.old.ids) }
        ensures new { IfOk result (λ new. new ≡ not (has self.old.ids id.0)) }
        ensures err { OnErr result (self.new ≡ self.old) }
    {
        kept_insert(&mut self.kept, id)
    }

    /// Makes `spare` at least `extra`; it never falls. The ids stay, and where there is no memory
    /// the whole set stays as it was.
    pub fn reserve(&mut self, extra: usize) -> Result<(), NoMemory>
        ensures ids { self.new.ids ≡ self.old.ids }
        ensures spare { self.old.spare ≤ self.new.spare }
        ensures room { OnOk result (extra ≤ self.new.spare) }
        ensures err { OnErr result (self.new ≡ self.old) }
    {
        match &mut self.kept {
            Kept::Few(ids) => {
                ids.reserve(extra)?;
            }
            Kept::Many(bits, count) => {
                let ids = listed_and_reserved(bits, *count, extra)?;
                self.kept = Kept::Few(ids);
            }
        }
        Ok(())
    }

    /// Puts the document in where `spare` is at least 1, and tells whether it is new. It takes no
    /// memory, and lowers `spare` by at most 1.
    pub fn insert_reserved(&mut self, id: DocId) -> bool
        requires { 1 ≤ self.old.spare }
        ensures ids { self.new.ids ≡ with_id id.0 self.old.ids }
        ensures new { result ≡ not (has self.old.ids id.0) }
        ensures spare { self.old.spare ≤ self.new.spare + 1 }
    {
        kept_insert_reserved(&mut self.kept, id)
    }

    /// Makes the set one of bits, with room for the documents up to this one and some behind it, into which
    /// `put_in_room` can put them. The ids stay, whatever the result.
    pub fn make_room(&mut self, alloc: Global, last: DocId) -> Result<(), NoMemory>
        ensures { self.new.ids ≡ self.old.ids }
    {
        kept_make_room(alloc, &mut self.kept, u64::from(last.0) + 1)
    }

    /// Puts the document in where the set has room for it as bits, and tells whether it is in then. Otherwise the
    /// ids stay as they were. It takes no memory.
    pub fn put_in_room(&mut self, id: DocId) -> bool
        ensures put { OnTrue result (self.new.ids ≡ with_id id.0 self.old.ids) }
        ensures not_put { OnFalse result (self.new.ids ≡ self.old.ids) }
    {
        kept_put_in_room(&mut self.kept, id)
    }

    /// Takes the document out, and tells whether it was there. `spare` does not fall.
    pub fn remove(&mut self, id: DocId) -> bool
        ensures ids { self.new.ids ≡ without_id id.0 self.old.ids }
        ensures was { result ≡ has self.old.ids id.0 }
        ensures spare { self.old.spare ≤ self.new.spare }
    {
        kept_remove(&mut self.kept, id)
    }

    /// The documents that are in both sets. The ids of a list are looked up in bits, and those of a
    /// much shorter list in the longer one.
    pub fn and(&self, alloc: Global, other: &DocSet) -> Result<DocSet, NoMemory>
        ensures { IfOk result (λ set. set.ids ≡ intersection self.now.ids other.now.ids) }
    {
        let kept = kept_and(alloc, &self.kept, &other.kept)?;
        Ok(DocSet { kept })
    }

    /// How many documents are in both sets. It takes no memory.
    pub fn and_len(&self, other: &DocSet) -> u64
        ensures { result ≡ length (intersection self.now.ids other.now.ids) }
    {
        kept_and_len(&self.kept, &other.kept)
    }

    /// The documents that are in one set or the other, or in both.
    pub fn or(&self, alloc: Global, other: &DocSet) -> Result<DocSet, NoMemory>
        ensures { IfOk result (λ set. set.ids ≡ union self.now.ids other.now.ids) }
    {
        let kept = kept_or(alloc, &self.kept, &other.kept)?;
        Ok(DocSet { kept })
    }

    /// The documents that are in this set and not in the other.
    pub fn minus(&self, alloc: Global, other: &DocSet) -> Result<DocSet, NoMemory>
        ensures { IfOk result (λ set. set.ids ≡ difference self.now.ids other.now.ids) }
    {
        let kept = kept_minus(alloc, &self.kept, &other.kept)?;
        Ok(DocSet { kept })
    }

    /// The documents that are in one set or the other, or in both. Where one is empty it is the other, and where one is
    /// kept as bits with room for the other it takes this in: then it takes no memory.
    pub fn join(self, alloc: Global, other: DocSet) -> Result<DocSet, NoMemory>
        ensures { IfOk result (λ set. set.ids ≡ union self.ids other.ids) }
    {
        let kept = kept_join(alloc, self.kept, other.kept)?;
        Ok(DocSet { kept })
    }

    /// Takes out the documents that are in the other set. Of a set kept as bits, it copies none. Where there is no memory
    /// the set stays as it was.
    pub fn subtract(&mut self, alloc: Global, other: &DocSet) -> Result<(), NoMemory>
        ensures ids { OnOk result (self.new.ids ≡ difference self.old.ids other.now.ids) }
        ensures err { OnErr result (self.new ≡ self.old) }
    {
        kept_subtract(alloc, &mut self.kept, &other.kept)
    }

    // The set of a list of ids.
    pub(crate) fn from_list(alloc: Global, ids: Ids) -> Result<DocSet, NoMemory>
        requires { IsIncreasing ids.items }
        ensures { IfOk result (λ set. set.ids ≡ ids.items) }
    {
        let kept = packed_list(alloc, ids)?;
        Ok(DocSet { kept })
    }

    // The set of these bits.
    pub(crate) fn from_bits(alloc: Global, bits: Bits) -> Result<DocSet, NoMemory>
        ensures { IfOk result (λ set. set.ids ≡ bits.ids) }
    {
        let kept = packed(alloc, bits)?;
        Ok(DocSet { kept })
    }

    // Puts the ids of this set into bits, whose limit it raises.
    pub(crate) fn add_to(&self, bits: &mut Bits) -> Result<(), NoMemory>
        ensures ids { OnOk result (bits.new.ids ≡ union self.now.ids bits.old.ids) }
        ensures err { OnErr result (bits.new.ids ≡ bits.old.ids) }
    {
        bits.grow(kept_limit(&self.kept))?;
        add_to(bits, &self.kept);
        Ok(())
    }
}

/// The ids of a set that are left, in increasing order.
#[derive(Drop)]
pub struct DocIter<'a> {
    left: Left<'a>,
}

// What is left of a list, or of bits.
#[derive(Drop)]
enum Left<'a> {
    Few(&'a [u32]),
    Many(BitIter<'a>),
}

impl<'a> Model for DocIter<'a> {
    ghost use Rattle.std.specs.Prelude.{ℕ, List};
    ghost use Rattle.doc_sets.specs.Left.{left_ids};

    ghost Value = { List ℕ };

    ghost view = { λ ids. left_ids ids.left };
}

impl<'a> Iterator for DocIter<'a> {
    type Item = DocId;

    ghost next_gives = { YieldsFirstBy (λ id. id.0) (λ left. left) };

    ghost remaining = { item_count (λ left. left) };

    fn next(&mut self) -> Option<DocId> {
        match &mut self.left {
            Left::Few(left) => {
                let (first, others) = left.split_first()?;
                *left = others;
                Some(DocId(*first))
            }
            Left::Many(left) => left.next(),
        }
    }
}
