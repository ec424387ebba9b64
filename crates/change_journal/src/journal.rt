ghost use Rattle.std.specs.Prelude.{◌≡◌, ◌≢◌, ◌⊎◌, ◌+◌, ◌<◌, ◌≤◌, ◌^◌, ◌-◌, ◌↔◌, [], ◌∷◌, IsTrue, true, false, Ok, List, ℕ, None, Some, OnOk, OnErr, length};
ghost use Rattle.outside_io.specs.Faults.{HasCause, Rose};
ghost use Rattle.outside_io.specs.Disks.{Contents, Told, fresh, LeavesOnly};
ghost use Rattle.change_journal.specs.Format.{stored_pair, pair_in, look};
ghost use Rattle.change_journal.specs.First.{journal_bytes, AreShort};
ghost use Rattle.change_journal.specs.Fits.{IsSettled, Holds, Fits, IsDue, next_side, disk_on, HasCount, alone, Grows, grown, IsBeforeOrAfter, PairsOnly, IsOlder, IsOldOrImage, image_pair, StandsFor};
ghost use Rattle.change_journal.specs.Opens.{number_of};
ghost use Rattle.change_journal.specs.Shut.{Remade, image_disk, is_told};

use crate::add::add;
use crate::remake::remake;
use crate::{FirstJournal, Record};
use outside_io::{Disk, Failed};

// How much a journal may grow before a checkpoint is due.
const LONG: u64 = 16_777_216;

/// One of the two disks: `A` is number 0, `B` is number 1.
#[derive(Clone, Copy, Debug, PartialEq, Eq)]
pub enum Side {
    A,
    B,
}

impl Side {
    /// The number of the disk.
    pub(crate) fn number(self) -> u8
        ensures { result ≡ number_of self }
    {
        match self {
            Side::A => 0,
            Side::B => 1,
        }
    }
}

/// Where the journal of two disks goes on: which disk is active, its generation, the place of its
/// shut gate, the count of changes held, and the bytes by which the journal has grown since the last
/// checkpoint: what that wrote does not count, but all that `open` found does. Made by `open`; after
/// a `Failed` of its calls the disks are opened again.
#[derive(Drop)]
pub struct Journal {
    pub(crate) active: Option<Side>,
    pub(crate) generation: u64,
    pub(crate) gate: u64,
    pub(crate) count: u64,
    pub(crate) grown: u64,
}

impl Journal {
    /// Adds a change to the journal on the active disk, behind those that are there, in a journal
    /// that has an image; it takes no memory. The record has the number of changes held before.
    ///
    /// A crash while the call runs or behind it leaves the pair that was stored, with the payload at
    /// its end or without it; behind `Ok` always with it, and nothing is pending. `Failed`: a disk's
    /// count of faults rose, and the journal stays as it was. A disk tells its contents after the call
    /// exactly where it told them before.
    pub fn append<K: Disk>(
        &mut self,
        disk_a: &mut K,
        disk_b: &mut K,
        entry: Record,
    ) -> Result<(), Failed>
        requires active { self.old.active ≢ None }
        requires fits { Fits self.old (K.contents disk_a.old) (K.contents disk_b.old) }
        requires number { entry.number ≡ self.old.count }
        requires room { entry.number + 1 < 2 ^ 64 }
        ensures any_moment { (a b : List ℕ) → K.contents disk_a.old ≡ Some (fresh a) → K.contents disk_b.old ≡ Some (fresh b)
            → PairsOnly K.moment K.left_since disk_a.old disk_b.old disk_a.new disk_b.new
            (λ c d. IsBeforeOrAfter entry.payload (stored_pair a b) (stored_pair c d)) }
        ensures now { OnOk result ((a b : List ℕ) → K.contents disk_a.old ≡ Some (fresh a) → K.contents disk_b.old ≡ Some (fresh b)
            → StandsFor (K.contents disk_a.new) (K.contents disk_b.new) (grown entry.payload (stored_pair a b))) }
        ensures fits { OnOk result (Fits self.new (K.contents disk_a.new) (K.contents disk_b.new)) }
        ensures count { OnOk result (self.new.count ≡ self.old.count + 1) }
        ensures grown { OnOk result (self.new.grown ≡ self.old.grown + length entry.payload + 13) }
        ensures active { self.new.active ≡ self.old.active }
        ensures generation { self.new.generation ≡ self.old.generation }
        ensures told_a { is_told (K.contents disk_a.new) ≡ is_told (K.contents disk_a.old) }
        ensures told_b { is_told (K.contents disk_b.new) ≡ is_told (K.contents disk_b.old) }
        ensures settled_a { OnOk result (IsSettled (K.contents disk_a.old) → IsSettled (K.contents disk_a.new)) }
        ensures settled_b { OnOk result (IsSettled (K.contents disk_b.old) → IsSettled (K.contents disk_b.new)) }
        ensures stays { OnErr result (self.new ≡ self.old) }
        ensures cause { OnErr result (Rose (K.disk_faults disk_a.old) (K.disk_faults disk_a.new) ⊎ Rose (K.disk_faults disk_b.old) (K.disk_faults disk_b.new)) }
        ensures later_a { K.disk_faults disk_a.old ≤ K.disk_faults disk_a.new }
        ensures later_b { K.disk_faults disk_b.old ≤ K.disk_faults disk_b.new }
    {
        match self.active {
            Some(Side::A) => self.append_on(disk_a, &entry),
            Some(Side::B) => self.append_on(disk_b, &entry),
            None => unreachable!(),
        }
    }

    /// Makes the disk that is not active anew, `A` where none is, with an image and these changes behind
    /// it, and takes it as the active one, one generation up; it takes no memory, and the disk that was
    /// active stays as it was. The image is that of a state which counts the changes before the first of
    /// these, and with them it has all the changes held. At generation 2^64 - 1 nothing is done, and the
    /// answer is `Ok`.
    ///
    /// A crash while the call runs or behind it leaves the pair that was stored, or the image with these
    /// changes; behind `Ok` always the latter, and nothing is pending.
    /// `Failed`: a disk's count of faults rose, and the journal stays as it was.
    pub fn checkpoint<K: Disk>(
        &mut self,
        disk_a: &mut K,
        disk_b: &mut K,
        image: &[u8],
        first: &FirstJournal,
    ) -> Result<(), Failed>
        requires fits { Fits self.old (K.contents disk_a.old) (K.contents disk_b.old) }
        requires image { HasCount image.now first.now.number }
        requires held { self.old.count ≡ first.now.number + length first.now.payloads }
        ensures any_moment { (a b : List ℕ) → K.contents disk_a.old ≡ Some (fresh a) → K.contents disk_b.old ≡ Some (fresh b)
            → PairsOnly K.moment K.left_since disk_a.old disk_b.old disk_a.new disk_b.new
            (λ c d. IsOldOrImage image.now first.now.payloads (stored_pair a b) (stored_pair c d)) }
        ensures now { OnOk result (self.old.generation < 2 ^ 64 - 1
            → (a b : List ℕ) → K.contents disk_a.old ≡ Some (fresh a) → K.contents disk_b.old ≡ Some (fresh b)
            → StandsFor (K.contents disk_a.new) (K.contents disk_b.new) (Ok (image_pair image.now first.now.payloads))) }
        ensures last { 2 ^ 64 - 1 ≤ self.old.generation → (result ≡ Ok tt) × (self.new ≡ self.old) × (disk_a.new ≡ disk_a.old) × (disk_b.new ≡ disk_b.old) }
        ensures fits { OnOk result (Fits self.new (K.contents disk_a.new) (K.contents disk_b.new)) }
        ensures active { OnOk result (self.old.generation < 2 ^ 64 - 1 → self.new.active ≡ Some (next_side self.old.active)) }
        ensures generation { OnOk result (self.old.generation < 2 ^ 64 - 1 → self.new.generation ≡ self.old.generation + 1) }
        ensures made { OnOk result (self.old.generation < 2 ^ 64 - 1
            → (ys : List ℕ) → K.contents (disk_on (next_side self.old.active) disk_a.old disk_b.old) ≡ Some (fresh ys)
            → K.contents (disk_on (next_side self.old.active) disk_a.new disk_b.new) ≡ Some (fresh (1 ∷ image_disk (self.old.generation + 1) image.now (journal_bytes first.now.number first.now.payloads)))) }
        ensures other { disk_on (next_side self.old.active) disk_b.new disk_a.new ≡ disk_on (next_side self.old.active) disk_b.old disk_a.old }
        ensures count { self.new.count ≡ self.old.count }
        // Nothing that is written here counts as growth, whatever payloads stand behind the image.
        ensures grown { OnOk result (self.old.generation < 2 ^ 64 - 1 → self.new.grown ≡ 0) }
        ensures told_a { is_told (K.contents disk_a.new) ≡ is_told (K.contents disk_a.old) }
        ensures told_b { is_told (K.contents disk_b.new) ≡ is_told (K.contents disk_b.old) }
        ensures settled_a { OnOk result (IsSettled (K.contents disk_a.old) → IsSettled (K.contents disk_a.new)) }
        ensures settled_b { OnOk result (IsSettled (K.contents disk_b.old) → IsSettled (K.contents disk_b.new)) }
        ensures stays { OnErr result (self.new ≡ self.old) }
        ensures cause { OnErr result (Rose (K.disk_faults disk_a.old) (K.disk_faults disk_a.new) ⊎ Rose (K.disk_faults disk_b.old) (K.disk_faults disk_b.new)) }
        ensures later_a { K.disk_faults disk_a.old ≤ K.disk_faults disk_a.new }
        ensures later_b { K.disk_faults disk_b.old ≤ K.disk_faults disk_b.new }
    {
        if self.generation == u64::MAX {
            return Ok(());
        }
        match self.active {
            Some(Side::A) => self.checkpoint_on(disk_b, Side::B, image, first),
            Some(Side::B) => self.checkpoint_on(disk_a, Side::A, image, first),
            None => self.checkpoint_on(disk_a, Side::A, image, first),
        }
    }

    /// The count of changes held.
    pub fn count(&self) -> u64
        ensures { result ≡ self.now.count }
    {
        self.count
    }

    /// Whether a checkpoint is due: the journal has grown by more than 16,777,216 bytes since the last
    /// one, what was found at opening counting as growth, and the generation is not the last.
    pub fn due(&self) -> bool
        ensures { IsTrue result ↔ IsDue self.now }
    {
        self.grown > LONG && self.generation < u64::MAX
    }

    /// Whether the generation is the last, 2^64 - 1: then no checkpoint is made any more.
    pub fn is_last(&self) -> bool
        ensures last { result ≡ true → self.now.generation ≡ 2 ^ 64 - 1 }
        ensures few { result ≡ false → self.now.generation < 2 ^ 64 - 1 }
    {
        self.generation == u64::MAX
    }

    // The same on the disk that is not active, where there is a generation left.
    fn checkpoint_on<K: Disk>(
        &mut self,
        disk: &mut K,
        side: Side,
        image: &[u8],
        first: &FirstJournal,
    ) -> Result<(), Failed>
        requires few { self.old.generation < 2 ^ 64 - 1 }
        requires older { Told (K.contents disk.old) (λ ys. IsOlder self.old.generation (look ys)) }
        requires image { HasCount image.now first.now.number }
        requires held { self.old.count ≡ first.now.number + length first.now.payloads }
        ensures any_moment { (ys : List ℕ) → K.contents disk.old ≡ Some (fresh ys)
            → LeavesOnly K.moment K.left_since disk.old disk.new (Remade self.old.generation (self.old.generation + 1) image.now (journal_bytes first.now.number first.now.payloads)) }
        ensures now { OnOk result ((ys : List ℕ) → K.contents disk.old ≡ Some (fresh ys) → K.contents disk.new ≡ Some (fresh (1 ∷ image_disk (self.old.generation + 1) image.now (journal_bytes first.now.number first.now.payloads)))) }
        ensures holds { OnOk result (Told (K.contents disk.new) (Holds self.new)) }
        ensures room { OnOk result (self.new.gate + 1 < 2 ^ 64) }
        ensures within { OnOk result (self.new.grown ≤ self.new.gate + 1) }
        ensures grown { OnOk result (self.new.grown ≡ 0) }
        ensures count { self.new.count ≡ self.old.count }
        ensures active { OnOk result (self.new.active ≡ Some side) }
        ensures generation { OnOk result (self.new.generation ≡ self.old.generation + 1) }
        ensures told { is_told (K.contents disk.new) ≡ is_told (K.contents disk.old) }
        ensures short { AreShort first.now.payloads }
        ensures small { first.now.number + length first.now.payloads ≤ 2 ^ 64 }
        ensures settled { OnOk result (IsSettled (K.contents disk.old) → IsSettled (K.contents disk.new)) }
        ensures stays { OnErr result (self.new ≡ self.old) }
        ensures cause { HasCause (K.disk_faults disk.old) (K.disk_faults disk.new) result }
    {
        let next = self.generation + 1;
        let journal = first.bytes();
        remake(disk, self.generation, next, image, journal)?;
        self.active = Some(side);
        self.generation = next;
        self.gate = 24 + image.len() as u64 + journal.len() as u64 - 1;
        self.grown = 0;
        Ok(())
    }

    // An addition to the active disk.
    fn append_on<K: Disk>(&mut self, disk: &mut K, entry: &Record) -> Result<(), Failed>
        requires room { self.old.gate + 1 < 2 ^ 64 }
        requires within { self.old.grown ≤ self.old.gate + 1 }
        requires holds { Told (K.contents disk.old) (Holds self.old) }
        requires number { entry.now.number ≡ self.old.count }
        requires few { entry.now.number + 1 < 2 ^ 64 }
        ensures any_moment { (xs : List ℕ) → K.contents disk.old ≡ Some (fresh xs)
            → LeavesOnly K.moment K.left_since disk.old disk.new (Grows xs entry.now.payload) }
        ensures holds { OnOk result (Told (K.contents disk.new) (Holds self.new)) }
        ensures now { OnOk result ((xs : List ℕ) → K.contents disk.old ≡ Some (fresh xs) → (c : List ℕ) × (K.contents disk.new ≡ Some (fresh c)) × (look c ≡ look xs)
            × ((d : ℕ) → pair_in (alone d c) ≡ grown entry.now.payload (pair_in (alone d xs)))) }
        ensures room { OnOk result (self.new.gate + 1 < 2 ^ 64) }
        ensures within { OnOk result (self.new.grown ≤ self.new.gate + 1) }
        ensures count { OnOk result (self.new.count ≡ self.old.count + 1) }
        ensures grown { OnOk result (self.new.grown ≡ self.old.grown + length entry.now.payload + 13) }
        ensures active { self.new.active ≡ self.old.active }
        ensures generation { self.new.generation ≡ self.old.generation }
        ensures told { is_told (K.contents disk.new) ≡ is_told (K.contents disk.old) }
        ensures settled { OnOk result (IsSettled (K.contents disk.old) → IsSettled (K.contents disk.new)) }
        ensures stays { OnErr result (self.new ≡ self.old) }
        ensures cause { HasCause (K.disk_faults disk.old) (K.disk_faults disk.new) result }
    {
        let piece = entry.bytes();
        add(disk, self.gate, piece)?;
        let more = piece.len() as u64;
        self.gate += more;
        self.grown += more;
        self.count += 1;
        Ok(())
    }
}
