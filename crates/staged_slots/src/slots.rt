ghost use Rattle.std.specs.Prelude.{◌≡◌, ◌<◌, ◌≤◌, ◌++◌, ◌∷◌, [], map, length, slice_set, slice_index_or, None, Some, OnOk, OnErr, List};
ghost use Rattle.staged_slots.specs.Staged.{settled};

use search_base::NoMemory;
use std::alloc::Global;
use std::marker::Model;
use std::mem;

/// A list of slots, each with a value or empty, and behind them values that wait for a slot, in order. Seen as the
/// two lists.
#[derive(Drop)]
pub struct StagedSlots<T> {
    items: Vec<Option<T>>,
    // How many of the items are slots.
    slots: usize,
    // Where the first value that is staged stands. Between the slots and that one is room that was left.
    next: usize,
}

impl<T> Model for StagedSlots<T> {
    ghost use Rattle.std.specs.Prelude.{take, drop};
    ghost use Rattle.staged_slots.specs.Staged.{StagedView, staged_code, filled, IsCut};

    ghost Value = { StagedView T };

    ghost coded = { staged_code T.code };

    ghost view = { λ s. record { slots = take s.slots s.items.items; staged = filled (drop s.next s.items.items) } };

    ghost invariant = { λ s. IsCut s.items.items s.slots s.next };
}

impl<T: Drop> StagedSlots<T> {
    /// No slots, and nothing staged. Takes no memory.
    pub fn new(alloc: Global) -> StagedSlots<T>
        ensures slots { result.slots ≡ [] }
        ensures staged { result.staged ≡ [] }
    {
        StagedSlots {
            items: Vec::new(alloc),
            slots: 0,
            next: 0,
        }
    }

    /// These slots, and nothing staged. Takes no memory.
    pub fn from_slots(slots: Vec<Option<T>>) -> StagedSlots<T>
        ensures slots { result.slots ≡ slots.items }
        ensures staged { result.staged ≡ [] }
    {
        let len = slots.len();
        StagedSlots {
            items: slots,
            slots: len,
            next: len,
        }
    }

    /// How many slots there are. Takes no memory.
    pub fn len(&self) -> usize
        ensures { result ≡ length self.now.slots }
    {
        self.slots
    }

    /// The slots, in order. Takes no memory.
    pub fn as_slice(&self) -> &[Option<T>]
        ensures { result.now ≡ self.now.slots }
    {
        &self.items[..self.slots]
    }

    /// The values that are staged, in order; each is there. Takes no memory.
    pub fn staged(&self) -> &[Option<T>]
        ensures { result.now ≡ map Some self.now.staged }
    {
        &self.items[self.next..]
    }

    /// Takes the memory in which some more values can be staged, so that they are not moved as they come. Nothing
    /// changes.
    pub fn reserve(&mut self, more: usize) -> Result<(), NoMemory>
        ensures slots { self.new.slots ≡ self.old.slots }
        ensures staged { self.new.staged ≡ self.old.staged }
    {
        self.items.reserve(more)?;
        Ok(())
    }

    /// Stages a value behind the others. The slots stay, and a refusal changes nothing.
    pub fn stage(&mut self, value: T) -> Result<(), NoMemory>
        ensures slots { self.new.slots ≡ self.old.slots }
        ensures staged { OnOk result (self.new.staged ≡ self.old.staged ++ value ∷ []) }
        ensures stays { OnErr result (self.new.staged ≡ self.old.staged) }
    {
        self.items.push(Some(value))?;
        Ok(())
    }

    /// Lets go what is staged. The slots stay. Takes no memory.
    pub fn unstage(&mut self)
        ensures slots { self.new.slots ≡ self.old.slots }
        ensures staged { self.new.staged ≡ [] }
    {
        self.items.truncate(self.slots);
        self.next = self.slots;
    }

    /// Moves the first value that is staged into a slot, in place of what is there, or into a new one behind the
    /// others. Takes no memory.
    pub fn settle(&mut self, at: usize)
        requires staged { 0 < length self.old.staged }
        requires slot { at ≤ length self.old.slots }
        ensures { (first : T) (rest : List T) → self.old.staged ≡ first ∷ rest
            → (self.new.staged ≡ rest) × (self.new.slots ≡ settled at first self.old.slots) }
    {
        let first = mem::replace(&mut self.items[self.next], None);
        self.items[at] = first;
        self.next += 1;
        if at == self.slots {
            self.slots += 1;
        }
    }

    /// Empties a slot, and gives what was in it. Takes no memory.
    pub fn take(&mut self, at: usize) -> Option<T>
        requires { at < length self.old.slots }
        ensures value { result ≡ slice_index_or self.old.slots at None }
        ensures slots { self.new.slots ≡ slice_set self.old.slots at None }
        ensures staged { self.new.staged ≡ self.old.staged }
    {
        mem::replace(&mut self.items[at], None)
    }

    /// Adds a slot behind the others, and lets go what is staged. A refusal leaves the slots.
    pub fn push(&mut self, slot: Option<T>) -> Result<(), NoMemory>
        ensures slots { OnOk result (self.new.slots ≡ self.old.slots ++ slot ∷ []) }
        ensures stays { OnErr result (self.new.slots ≡ self.old.slots) }
        ensures staged { self.new.staged ≡ [] }
    {
        let end = self.slots;
        self.items.truncate(end);
        self.next = end;
        self.items.push(slot)?;
        self.slots = end + 1;
        self.next = end + 1;
        Ok(())
    }
}
