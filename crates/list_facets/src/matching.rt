ghost use Rattle.std.specs.Prelude.{◌≡◌, ◌≤◌, ◌/◌, ◌^◌, IfOk, filter, length, slice_get};
ghost use Rattle.std.specs.Option.{option_map};
ghost use Rattle.doc_sets.specs.Sets.{has, IsIncreasing};
ghost use Rattle.list_facets.specs.Hits.{ids_of};
ghost use Rattle.list_facets.specs.Matches.{HasSame};

use doc_sets::{Bits, DocIter, DocSet, operations_are_on_members};
use search_base::{DocId, NoMemory};
use std::alloc::Global;
use std::marker::Model;

// A set of fewer documents is asked for by bits, whatever form it has.
const FEW: u64 = 16_384;

/// The documents of a set, each of which is asked for quickly.
#[derive(Drop)]
pub(crate) struct Matching<'a> {
    set: &'a DocSet,
    bits: Option<Bits>,
}

impl<'a> Model for Matching<'a> {
    ghost use Rattle.std.specs.Option.{IfSome};
    ghost use Rattle.list_facets.specs.Matches.{MatchView, HasSame};

    ghost Value = { MatchView };

    ghost view = { λ m. record { ids = m.set.now.ids } };

    ghost invariant = { λ m. IfSome m.bits (λ bits. HasSame bits.ids m.set.now.ids) };
}

impl<'a> Matching<'a> {
    /// The documents of this set.
    pub(crate) fn of(alloc: Global, set: &'a DocSet) -> Result<Matching<'a>, NoMemory>
        ensures { IfOk result (λ matching. matching.ids ≡ set.now.ids) }
    {
        if set.len() < FEW {
            let bits = bits_of(alloc, set)?;
            Ok(Matching {
                set,
                bits: Some(bits),
            })
        } else {
            Ok(Matching { set, bits: None })
        }
    }

    /// Whether the document is among them.
    pub(crate) fn contains(&self, id: DocId) -> bool
        ensures { result ≡ has self.now.ids id.0 }
    {
        match &self.bits {
            Some(bits) => bits.contains(id),
            None => self.set.contains(id),
        }
    }

    /// How many entries of a page are of them.
    pub(crate) fn count_in(&self, page: &[u64]) -> u64
        ensures { result ≡ length (filter (has self.now.ids) (ids_of page.now)) }
    {
        match &self.bits {
            Some(bits) => count_in_bits(page, bits),
            None => count_in_set(page, self.set),
        }
    }

    /// The first of them that a page has an entry of.
    pub(crate) fn first_in(&self, page: &[u64]) -> Option<DocId>
        ensures { option_map (λ id. id.0) result ≡ slice_get (filter (has self.now.ids) (ids_of page.now)) 0 }
    {
        for entry in page {
            let id = document_of(*entry);
            if self.contains(id) {
                return Some(id);
            }
        }
        None
    }

    /// How many of them are in a set.
    pub(crate) fn count_both(&self, kept: &DocSet) -> u64
        ensures { result ≡ length (filter (has kept.now.ids) self.now.ids) }
    {
        self.set.and_len(kept)
    }

    /// The first of them that is in a set.
    pub(crate) fn first_both(&self, kept: &DocSet) -> Option<DocId>
        ensures { option_map (λ id. id.0) result ≡ slice_get (filter (has kept.now.ids) self.now.ids) 0 }
    {
        for id in self.set.iter() {
            if kept.contains(id) {
                return Some(id);
            }
        }
        None
    }

    /// How many they are.
    pub(crate) fn len(&self) -> u64
        ensures len { result ≡ length self.now.ids }
        ensures increasing { IsIncreasing self.now.ids }
    {
        self.set.len()
    }

    /// Their ids, in increasing order.
    pub(crate) fn iter(&self) -> DocIter<'_>
        ensures { result ≡ self.now.ids }
    {
        self.set.iter()
    }
}

// What the ids of a set are below.
fn limit_of(set: &DocSet) -> u64
    ensures { result ≤ 2 ^ 32 }
{
    match set.iter().last() {
        Some(id) => u64::from(id.0) + 1,
        None => 0,
    }
}

// The documents of a set as bits. Their memory is taken at once, and so growing takes no more.
fn bits_of(alloc: Global, set: &DocSet) -> Result<Bits, NoMemory>
    ensures { IfOk result (λ bits. HasSame bits.ids set.now.ids) }
{
    operations_are_on_members();
    let mut bits = Bits::new(alloc, limit_of(set))?;
    for id in set.iter() {
        bits.grow(u64::from(id.0) + 1)?;
        bits.set(id);
    }
    Ok(bits)
}

// The document of an entry.
fn document_of(entry: u64) -> DocId
    ensures { result.0 ≡ entry / 2 ^ 32 }
{
    DocId((entry >> 32) as u32)
}

// How many entries of a page are of documents of a set. Each is added as 0 or 1, since a branch would be guessed wrong
// as often as not.
fn count_in_set(page: &[u64], set: &DocSet) -> u64
    ensures { result ≡ length (filter (has set.now.ids) (ids_of page.now)) }
{
    let mut count = 0;
    for entry in page {
        count += u64::from(set.contains(document_of(*entry)));
    }
    count
}

// The same, asked by bits.
fn count_in_bits(page: &[u64], bits: &Bits) -> u64
    ensures { result ≡ length (filter (has bits.now.ids) (ids_of page.now)) }
{
    let mut count = 0;
    for entry in page {
        count += u64::from(bits.contains(document_of(*entry)));
    }
    count
}
