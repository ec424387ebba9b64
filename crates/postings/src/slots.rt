ghost use Rattle.std.specs.Prelude.{◌≡◌, ℕ, ◌<◌, List, [], length, ◌==◌, false, IfOk, OnOk, IsSome, None, Some};
ghost use Rattle.std.specs.Bool.{OnTrue, OnFalse};
ghost use Rattle.std.specs.Option.{option_map, option_copied};
ghost use Rattle.sorted_pages.specs.Entries.{IsIncreasing};
ghost use Rattle.sorted_pages.specs.Rooms.{HasRoom};
ghost use Rattle.postings.specs.Dictionary.{entries_of, RoomAt, slot_in, word_in, pages_in, HasSameSlots};
ghost use Rattle.posting_list.specs.Sets.{AreAfter};

use posting_list::PostingList;
use search_base::{DocId, NoMemory, Word};
use std::alloc::Global;

// A word and its list.
#[derive(Drop)]
pub(crate) struct Slot {
    pub(crate) word: Word,
    pub(crate) list: PostingList,
}

// What stands under a number, if it is the number of a word.
pub(crate) fn slot_at(slots: &[Option<Slot>], number: u32) -> Option<&Slot>
    ensures { option_copied result ≡ slot_in slots.now number }
{
    match slots.get(number as usize) {
        Some(place) => match place {
            Some(slot) => Some(slot),
            None => None,
        },
        None => None,
    }
}

// Whether this is the number of the word.
pub(crate) fn is_word_at(slots: &[Option<Slot>], number: u32, word: &Word) -> bool
    ensures { OnTrue result (word_in slots.now number ≡ Some word.now) }
{
    match slot_at(slots, number) {
        Some(slot) => slot.word == *word,
        None => false,
    }
}

// Whether the list of a number is there and empty.
pub(crate) fn is_empty_at(slots: &[Option<Slot>], number: u32) -> bool
    ensures empty { OnTrue result (entries_of (pages_in slots.now (Some number)) ≡ []) }
    ensures kept { OnFalse result (entries_of (pages_in slots.now (Some number)) ≡ []
        → pages_in slots.now (Some number) ≡ None) }
{
    match slot_at(slots, number) {
        Some(slot) => slot.list.is_empty(),
        None => false,
    }
}

// A number that no word has.
pub(crate) fn free_number(
    slots: &mut Vec<Option<Slot>>,
    free: &mut Vec<u32>,
) -> Result<u32, NoMemory>
    ensures slots { (number : ℕ) → slot_in slots.new.items number ≡ slot_in slots.old.items number }
    ensures free { IfOk result (λ number. slot_in slots.old.items number ≡ None) }
    ensures inside { IfOk result (λ number. number < length slots.new.items) }
{
    match free.pop() {
        Some(number) => {
            if is_free_at(slots, number) {
                return Ok(number);
            }
        }
        None => {}
    }
    new_number(slots, free)
}

// Whether the number is there, and no word has it.
fn is_free_at(slots: &[Option<Slot>], number: u32) -> bool
    ensures free { OnTrue result (slot_in slots.now number ≡ None) }
    ensures inside { OnTrue result (number < length slots.now) }
{
    (number as usize) < slots.len() && slot_at(slots, number).is_none()
}

// A number more, with room to take it back.
fn new_number(slots: &mut Vec<Option<Slot>>, free: &mut Vec<u32>) -> Result<u32, NoMemory>
    ensures slots { (number : ℕ) → slot_in slots.new.items number ≡ slot_in slots.old.items number }
    ensures free { IfOk result (λ number. slot_in slots.old.items number ≡ None) }
    ensures inside { IfOk result (λ number. number < length slots.new.items) }
{
    let Ok(number) = u32::try_from(slots.len()) else {
        return Err(NoMemory);
    };
    free.reserve(slots.len().saturating_add(1))?;
    slots.push(None)?;
    Ok(number)
}

// Makes room in a list, if there is one.
fn reserve_slot(
    alloc: Global,
    place: &mut Option<Slot>,
    come: &[u64],
    last: DocId,
) -> Result<(), NoMemory>
    requires { IsIncreasing come.now }
    ensures word { option_map (λ slot. slot.word) place.new ≡ option_map (λ slot. slot.word) place.old }
    ensures entries { entries_of (option_map (λ slot. slot.list) place.new)
        ≡ entries_of (option_map (λ slot. slot.list) place.old) }
    ensures room { OnOk result (IsSome place.old → RoomAt (option_map (λ slot. slot.list) place.new) come.now) }
{
    match place {
        Some(slot) => slot.list.reserve(alloc, come, last),
        None => Ok(()),
    }
}

// Makes room in the list of a number.
pub(crate) fn reserve_at(
    alloc: Global,
    slots: &mut Vec<Option<Slot>>,
    number: u32,
    come: &[u64],
    last: DocId,
) -> Result<(), NoMemory>
    requires come { IsIncreasing come.now }
    requires inside { IsSome (slot_in slots.old.items number) }
    ensures others { HasSameSlots number slots.old.items slots.new.items }
    ensures word { word_in slots.new.items number ≡ word_in slots.old.items number }
    ensures entries { entries_of (pages_in slots.new.items (Some number))
        ≡ entries_of (pages_in slots.old.items (Some number)) }
    ensures room { OnOk result (RoomAt (pages_in slots.new.items (Some number)) come.now) }
{
    match slots.get_mut(number as usize) {
        Some(place) => reserve_slot(alloc, place, come, last),
        None => Ok(()),
    }
}

// Makes a change in a list, if there is one.
fn change_slot(place: &mut Option<Slot>, gone: &[u64], come: &[u64], last: DocId)
    requires gone { IsIncreasing gone.now }
    requires come { IsIncreasing come.now }
    requires room { RoomAt (option_map (λ slot. slot.list) place.old) come.now }
    ensures word { option_map (λ slot. slot.word) place.new ≡ option_map (λ slot. slot.word) place.old }
    ensures list { AreAfter gone.now come.now (entries_of (option_map (λ slot. slot.list) place.old))
        (entries_of (option_map (λ slot. slot.list) place.new)) }
{
    match place {
        Some(slot) => slot.list.change(gone, come, last),
        None => {}
    }
}

// Makes a change in the list of a number.
pub(crate) fn change_at(
    slots: &mut Vec<Option<Slot>>,
    number: u32,
    gone: &[u64],
    come: &[u64],
    last: DocId,
)
    requires gone { IsIncreasing gone.now }
    requires come { IsIncreasing come.now }
    requires room { RoomAt (pages_in slots.old.items (Some number)) come.now }
    ensures others { HasSameSlots number slots.old.items slots.new.items }
    ensures word { word_in slots.new.items number ≡ word_in slots.old.items number }
    ensures list { AreAfter gone.now come.now (entries_of (pages_in slots.old.items (Some number)))
        (entries_of (pages_in slots.new.items (Some number))) }
{
    match slots.get_mut(number as usize) {
        Some(place) => change_slot(place, gone, come, last),
        None => {}
    }
}

// Puts a word with its list under a number.
pub(crate) fn put_at(slots: &mut Vec<Option<Slot>>, number: u32, slot: Slot)
    requires { number < length slots.old.items }
    ensures others { HasSameSlots number slots.old.items slots.new.items }
    ensures here { slot_in slots.new.items number ≡ Some slot }
{
    slots[number as usize] = Some(slot);
}

// Takes out what stands under a number.
pub(crate) fn clear_at(slots: &mut Vec<Option<Slot>>, number: u32)
    ensures others { HasSameSlots number slots.old.items slots.new.items }
    ensures here { slot_in slots.new.items number ≡ None }
{
    if (number as usize) < slots.len() {
        slots[number as usize] = None;
    }
}
