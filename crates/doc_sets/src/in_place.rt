//! Sets that take in another or lose it, in the memory that they have.
ghost use Rattle.std.specs.Prelude.{◌≡◌, ◌+◌, ◌<◌, ◌≤◌, length, IfOk, OnOk, OnErr};
ghost use Rattle.std.specs.Bool.{OnTrue, OnFalse};
ghost use Rattle.doc_sets.specs.Sets.{IsIncreasing, with_id, difference, union};
ghost use Rattle.doc_sets.specs.Kept.{kept_ids, IsKept, IsLimit, AreBelow};

use crate::bits::Bits;
use crate::kept::{Kept, is_dense, kept_len, kept_limit, kept_minus, kept_or, listed, take_out};
use search_base::{DocId, NoMemory};
use std::alloc::Global;

// Puts an id into a set, and tells how many are new: one or none.
fn put_one(bits: &mut Bits, id: u32) -> u64
    requires { id < bits.old.limit }
    ensures ids { bits.new.ids ≡ with_id id bits.old.ids }
    ensures count { result + length bits.old.ids ≡ length bits.new.ids }
    ensures limit { bits.new.limit ≡ bits.old.limit }
    ensures one { result ≤ 1 }
{
    let _limit = bits.limit();
    if bits.contains(DocId(id)) {
        return 0;
    }
    bits.set(DocId(id));
    1
}

// Puts the ids of a list into a set, and tells how many are new.
fn put_each(bits: &mut Bits, ids: &[u32]) -> u64
    requires { AreBelow bits.old.limit ids.now }
    ensures ids { bits.new.ids ≡ union ids.now bits.old.ids }
    ensures count { result + length bits.old.ids ≡ length bits.new.ids }
    ensures limit { bits.new.limit ≡ bits.old.limit }
{
    let _limit = bits.limit();
    let mut new = 0;
    for id in ids {
        new += put_one(bits, *id);
    }
    new
}

// Puts a set into one of so many ids, and tells how many they are then.
fn put_in(bits: &mut Bits, count: u64, other: &Kept) -> u64
    requires other { IsKept other.now }
    requires limit { IsLimit bits.old.limit other.now }
    requires count { count ≡ length bits.old.ids }
    ensures ids { bits.new.ids ≡ union (kept_ids other.now) bits.old.ids }
    ensures count { result ≡ length bits.new.ids }
    ensures increasing { IsIncreasing bits.new.ids }
{
    let _limit = bits.limit();
    match other {
        Kept::Few(ids) => {
            let new = put_each(bits, ids.as_slice());
            let _limit = bits.limit();
            count + new
        }
        Kept::Many(others, _) => {
            bits.or_with(others);
            bits.count()
        }
    }
}

// Puts a set into one of bits whose limit is no lower, and tells whether it is in then.
fn put_where_room(kept: &mut Kept, other: &Kept) -> bool
    requires kept { IsKept kept.old }
    requires other { IsKept other.now }
    ensures put { OnTrue result (kept_ids kept.new ≡ union (kept_ids other.now) (kept_ids kept.old)) }
    ensures not_put { OnFalse result (kept.new ≡ kept.old) }
    ensures sound { IsKept kept.new }
{
    match kept {
        Kept::Few(_) => false,
        Kept::Many(bits, count) => {
            if bits.limit() < kept_limit(other) {
                return false;
            }
            *count = put_in(bits, *count, other);
            true
        }
    }
}

/// What is in the one set or the other. Takes no memory where one of them is empty, or is one of bits with room for
/// the other.
pub(crate) fn kept_join(alloc: Global, left: Kept, right: Kept) -> Result<Kept, NoMemory>
    requires left { IsKept left }
    requires right { IsKept right }
    ensures ids { IfOk result (λ kept. kept_ids kept ≡ union (kept_ids left) (kept_ids right)) }
    ensures sound { IfOk result IsKept }
{
    if kept_len(&left) == 0 {
        return Ok(right);
    }
    if kept_len(&right) == 0 {
        return Ok(left);
    }
    let mut left = left;
    if put_where_room(&mut left, &right) {
        return Ok(left);
    }
    let mut right = right;
    if put_where_room(&mut right, &left) {
        return Ok(right);
    }
    kept_or(alloc, &left, &right)
}

// The set of so many bits: as a list where this is shorter and there is memory for it.
fn settle(alloc: Global, kept: &mut Kept)
    requires { IsKept kept.old }
    ensures ids { kept_ids kept.new ≡ kept_ids kept.old }
    ensures sound { IsKept kept.new }
{
    if let Kept::Many(bits, count) = kept
        && !is_dense(*count, bits.limit())
        && let Ok(ids) = listed(alloc, bits, *count)
    {
        *kept = Kept::Few(ids);
    }
}

/// Takes the ids of another set out of a set. Bits stay where they are, unless so few are left that a list is shorter.
/// Where there is no memory the set stays as it was.
pub(crate) fn kept_subtract(alloc: Global, kept: &mut Kept, other: &Kept) -> Result<(), NoMemory>
    requires kept { IsKept kept.old }
    requires other { IsKept other.now }
    ensures ids { OnOk result (kept_ids kept.new ≡ difference (kept_ids kept.old) (kept_ids other.now)) }
    ensures sound { IsKept kept.new }
    ensures err { OnErr result (kept.new ≡ kept.old) }
{
    match kept {
        Kept::Few(_) => {
            let rest = kept_minus(alloc, kept, other)?;
            *kept = rest;
        }
        Kept::Many(bits, count) => {
            *count = take_out(bits, *count, other);
            settle(alloc, kept);
        }
    }
    Ok(())
}
