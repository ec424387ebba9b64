ghost use Rattle.std.specs.Prelude.{◌≡◌, ◌++◌, ◌∷◌, [], OnOk};
ghost use Rattle.sorted_pages.specs.Entries.{IsIncreasing, union, difference};
ghost use Rattle.sorted_pages.specs.Rooms.{Fits};
ghost use Rattle.sorted_pages.specs.Pages.{flat, pages_in, count_in, count_of, room_of, rooms_of, IsWhole};

use crate::page::{Page, merge_into, strike_out};
use crate::page_list::{PART, reserve_in, split_long};
use crate::whole::{FrontPages, cut_last, insert_all, make_room, no_pages, remove_each};
use search_base::NoMemory;
use std::alloc::Global;

/// The pages of a list before the last, which a short list has none of.
pub(crate) type Front = Option<Box<FrontPages>>;

// The pages.
pub(crate) fn pages_of(front: &Front) -> &[Page]
    ensures { result.now ≡ pages_in front.now }
{
    match front {
        Some(front) => front.pages.as_slice(),
        None => &[],
    }
}

// How many numbers the pages have, as far as a `usize` goes.
pub(crate) fn counted(front: &Front) -> usize
    ensures { result ≡ count_in front.now }
{
    match front {
        Some(front) => front.count,
        None => 0,
    }
}

// Puts the numbers in, where there is room, and says whether a page before the last is long then.
pub(crate) fn put_in(front: &mut Front, last: &mut Page, come: &[u64]) -> bool
    requires whole { IsWhole (pages_in front.old) last.old.items }
    requires counted { count_in front.old ≡ count_of (pages_in front.old) }
    requires come { IsIncreasing come.now }
    requires room { Fits (rooms_of (pages_in front.old) ++ room_of last.old ∷ []) come.now }
    ensures entries { flat (pages_in front.new) ++ last.new.items
        ≡ union come.now (flat (pages_in front.old) ++ last.old.items) }
    ensures whole { IsWhole (pages_in front.new) last.new.items }
    ensures counted { count_in front.new ≡ count_of (pages_in front.new) }
{
    match front {
        Some(front) => insert_all(front, last, come),
        None => {
            merge_into(last, come);
            false
        }
    }
}

// Takes the numbers out.
pub(crate) fn take_out(front: &mut Front, last: &mut Page, gone: &[u64])
    requires whole { IsWhole (pages_in front.old) last.old.items }
    requires counted { count_in front.old ≡ count_of (pages_in front.old) }
    requires gone { IsIncreasing gone.now }
    ensures entries { flat (pages_in front.new) ++ last.new.items
        ≡ difference (flat (pages_in front.old) ++ last.old.items) gone.now }
    ensures whole { IsWhole (pages_in front.new) last.new.items }
    ensures counted { count_in front.new ≡ count_of (pages_in front.new) }
{
    match front {
        Some(front) => remove_each(front, last, gone),
        None => strike_out(last, gone),
    }
}

// Splits the pages that are long.
pub(crate) fn split_front(front: &mut Front, last: &Page) -> Result<(), NoMemory>
    requires whole { IsWhole (pages_in front.old) last.now.items }
    requires counted { count_in front.old ≡ count_of (pages_in front.old) }
    ensures flat { flat (pages_in front.new) ≡ flat (pages_in front.old) }
    ensures whole { IsWhole (pages_in front.new) last.now.items }
    ensures counted { count_in front.new ≡ count_of (pages_in front.new) }
{
    match front {
        Some(front) => split_long(&mut front.pages),
        None => Ok(()),
    }
}

// Makes pages of the first numbers of the last page, where that is longer than a page is to be.
pub(crate) fn cut_off(alloc: Global, front: &mut Front, last: &mut Page) -> Result<(), NoMemory>
    requires whole { IsWhole (pages_in front.old) last.old.items }
    requires counted { count_in front.old ≡ count_of (pages_in front.old) }
    ensures entries { flat (pages_in front.new) ++ last.new.items ≡ flat (pages_in front.old) ++ last.old.items }
    ensures whole { IsWhole (pages_in front.new) last.new.items }
    ensures counted { count_in front.new ≡ count_of (pages_in front.new) }
{
    if last.len() <= PART {
        return Ok(());
    }
    if front.is_none() {
        *front = Some(Box::new(alloc, no_pages(alloc))?);
    }
    match front {
        Some(front) => cut_last(alloc, front, last),
        None => Ok(()),
    }
}

// Makes room for the numbers.
pub(crate) fn reserve_for(front: &mut Front, last: &mut Page, come: &[u64]) -> Result<(), NoMemory>
    requires whole { IsWhole (pages_in front.old) last.old.items }
    requires counted { count_in front.old ≡ count_of (pages_in front.old) }
    requires come { IsIncreasing come.now }
    ensures entries { flat (pages_in front.new) ++ last.new.items ≡ flat (pages_in front.old) ++ last.old.items }
    ensures whole { IsWhole (pages_in front.new) last.new.items }
    ensures counted { count_in front.new ≡ count_of (pages_in front.new) }
    ensures room { OnOk result (Fits (rooms_of (pages_in front.new) ++ room_of last.new ∷ []) come.now) }
{
    match front {
        Some(front) => make_room(&mut front.pages, last, come),
        None => {
            reserve_in(last, come.len())?;
            Ok(())
        }
    }
}
