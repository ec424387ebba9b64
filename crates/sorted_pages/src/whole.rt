ghost use Rattle.std.specs.Prelude.{◌≡◌, ◌+◌, ◌<◌, ◌++◌, ◌∷◌, [], length, min, OnOk};
ghost use Rattle.sorted_pages.specs.Entries.{IsIncreasing, union, difference};
ghost use Rattle.sorted_pages.specs.Rooms.{Fits};
ghost use Rattle.sorted_pages.specs.Pages.{flat, count_of, room_of, rooms_of, RestFull, IsWhole, IsCut};

use crate::page::{Page, merge_into, strike_out};
use crate::page_list::{PART, insert_runs, paged, remove_runs, reserve_in, reserve_runs};
use crate::reads::count;
use crate::run::before_last;
use search_base::NoMemory;
use std::alloc::Global;

/// The pages of a list before the last, and how many numbers they have, as far as a `usize` goes.
#[derive(Drop)]
pub(crate) struct FrontPages {
    pub(crate) pages: Vec<Page>,
    pub(crate) count: usize,
}

// No pages yet.
pub(crate) fn no_pages(alloc: Global) -> FrontPages
    ensures pages { result.pages.items ≡ [] }
    ensures count { result.count ≡ 0 }
{
    FrontPages {
        pages: Vec::new(alloc),
        count: 0,
    }
}

// How many numbers the pages have after some went, by how many there were.
fn count_left(pages: &[Page], counted: usize, went: usize) -> usize
    requires { counted ≡ min (length (flat pages.now) + went) usize.MAX }
    ensures { result ≡ count_of pages.now }
{
    if counted == usize::MAX {
        count(pages)
    } else {
        counted - went
    }
}

// The numbers that go to the pages before the last, and those that go to the last.
fn parted<'a>(pages: &Vec<Page>, last: &Page, numbers: &'a [u64]) -> (&'a [u64], &'a [u64])
    requires { IsIncreasing numbers.now }
    ensures cut { IsCut pages.now.items last.now.items result.0.now result.1.now }
    ensures all { result.0.now ++ result.1.now ≡ numbers.now }
    ensures front { IsIncreasing result.0.now }
    ensures back { IsIncreasing result.1.now }
{
    let n = before_last(pages.as_slice(), last.as_slice(), numbers);
    numbers.split_at(n)
}

// Puts the numbers in, where there is room, and says whether a page before the last is long then.
pub(crate) fn insert_all(front: &mut FrontPages, last: &mut Page, come: &[u64]) -> bool
    requires whole { IsWhole front.old.pages.items last.old.items }
    requires counted { front.old.count ≡ count_of front.old.pages.items }
    requires come { IsIncreasing come.now }
    requires room { Fits (rooms_of front.old.pages.items ++ room_of last.old ∷ []) come.now }
    ensures entries { flat front.new.pages.items ++ last.new.items
        ≡ union come.now (flat front.old.pages.items ++ last.old.items) }
    ensures whole { IsWhole front.new.pages.items last.new.items }
    ensures counted { front.new.count ≡ count_of front.new.pages.items }
{
    let (early, late) = parted(&front.pages, last, come);
    let (came, long) = insert_runs(&mut front.pages, early);
    front.count = front.count.saturating_add(came);
    merge_into(last, late);
    long
}

// Makes the last of the pages the last page, where that is empty.
fn fill_last(front: &mut FrontPages, last: &mut Page)
    requires rest { RestFull front.old.pages.items }
    requires counted { front.old.count ≡ count_of front.old.pages.items }
    ensures entries { flat front.new.pages.items ++ last.new.items ≡ flat front.old.pages.items ++ last.old.items }
    ensures rest { RestFull front.new.pages.items }
    ensures some { 0 < length (flat front.new.pages.items) → 0 < length last.new.items }
    ensures counted { front.new.count ≡ count_of front.new.pages.items }
{
    if last.is_empty() {
        if let Some(page) = front.pages.pop() {
            front.count = count_left(front.pages.as_slice(), front.count, page.len());
            *last = page;
        }
    }
}

// Takes the numbers out.
pub(crate) fn remove_each(front: &mut FrontPages, last: &mut Page, gone: &[u64])
    requires whole { IsWhole front.old.pages.items last.old.items }
    requires counted { front.old.count ≡ count_of front.old.pages.items }
    requires gone { IsIncreasing gone.now }
    ensures entries { flat front.new.pages.items ++ last.new.items
        ≡ difference (flat front.old.pages.items ++ last.old.items) gone.now }
    ensures whole { IsWhole front.new.pages.items last.new.items }
    ensures counted { front.new.count ≡ count_of front.new.pages.items }
{
    let (early, late) = parted(&front.pages, last, gone);
    let went = remove_runs(&mut front.pages, early);
    front.count = count_left(front.pages.as_slice(), front.count, went);
    strike_out(last, late);
    fill_last(front, last);
}

// Makes pages of the first numbers of the last page, where that is longer than a page is to be.
pub(crate) fn cut_last(
    alloc: Global,
    front: &mut FrontPages,
    last: &mut Page,
) -> Result<(), NoMemory>
    requires whole { IsWhole front.old.pages.items last.old.items }
    requires counted { front.old.count ≡ count_of front.old.pages.items }
    ensures entries { flat front.new.pages.items ++ last.new.items ≡ flat front.old.pages.items ++ last.old.items }
    ensures whole { IsWhole front.new.pages.items last.new.items }
    ensures counted { front.new.count ≡ count_of front.new.pages.items }
{
    let len = last.len();
    if len <= PART {
        return Ok(());
    }
    let n = (len - 1) / PART * PART;
    let (early, _late) = last.as_slice().split_at(n);
    let mut made = paged(alloc, early)?;
    front.pages.reserve(made.len())?;
    let tail = last.split_off(n)?;
    match front.pages.append(&mut made) {
        Ok(()) => {}
        Err(_) => unreachable!(),
    }
    front.count = front.count.saturating_add(n);
    *last = tail;
    Ok(())
}

// Makes room for the numbers.
pub(crate) fn make_room(
    pages: &mut Vec<Page>,
    last: &mut Page,
    come: &[u64],
) -> Result<(), NoMemory>
    requires whole { IsWhole pages.old.items last.old.items }
    requires come { IsIncreasing come.now }
    ensures flat { flat pages.new.items ≡ flat pages.old.items }
    ensures last { last.new.items ≡ last.old.items }
    ensures whole { IsWhole pages.new.items last.new.items }
    ensures room { OnOk result (Fits (rooms_of pages.new.items ++ room_of last.new ∷ []) come.now) }
{
    let (early, late) = parted(pages, last, come);
    reserve_runs(pages, early)?;
    reserve_in(last, late.len())?;
    Ok(())
}
