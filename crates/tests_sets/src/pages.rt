use crate::checks::check;
use sorted_pages::{SortedPages, is_increasing};
use std::alloc::Global;
use std::process::Abort;

// Numbers that look random.
fn next(seed: &mut u64) -> u64 {
    *seed = seed
        .wrapping_mul(6364136223846793005)
        .wrapping_add(1442695040888963407);
    *seed >> 33
}

// An increasing list of some numbers below a bound, from a least on.
fn batch(
    rt: &impl Abort,
    alloc: Global,
    seed: &mut u64,
    size: usize,
    low: u64,
    width: u64,
) -> Vec<u64> {
    let mut made = Vec::new(alloc);
    for _ in 0..size {
        let number = next(seed).checked_rem(width).unwrap_or(0);
        made.push(low.wrapping_add(number)).expect(rt, "memory");
    }
    made.sort_unstable();
    made.dedup();
    made
}

// The plain lists.
fn put(rt: &impl Abort, alloc: Global, list: &[u64], come: &[u64]) -> Vec<u64> {
    let mut both = Vec::from_slice(alloc, list).expect(rt, "memory");
    both.extend_from_slice(come).expect(rt, "memory");
    both.sort_unstable();
    both.dedup();
    both
}

fn out(rt: &impl Abort, alloc: Global, list: &[u64], gone: &[u64]) -> Vec<u64> {
    let mut left = Vec::new(alloc);
    for x in list {
        if gone.binary_search(x).is_err() {
            left.push(*x).expect(rt, "memory");
        }
    }
    left
}

fn joined(rt: &impl Abort, alloc: Global, pages: &SortedPages) -> Vec<u64> {
    let mut joined = Vec::new(alloc);
    for page in pages.pages() {
        joined.extend_from_slice(page).expect(rt, "memory");
    }
    joined
}

// The pages answer at a number as the list does.
fn check_at(rt: &impl Abort, pages: &SortedPages, list: &[u64], least: u64) {
    let found = list.binary_search(&least);
    check(rt, pages.contains(least) == found.is_ok(), "contains");
    let place = match found {
        Ok(place) => place,
        Err(place) => place,
    };
    let rest = list.get(place..).unwrap_or(&[]);
    check(rt, pages.from(least).eq(rest.iter().copied()), "from");
    let mut left = pages.from(least / 2);
    left.seek(least);
    check(rt, left.first() == rest.first().copied(), "first one left");
    check(rt, left.eq(rest.iter().copied()), "seek");
}

// The pages answer as the list does.
fn check_same(rt: &impl Abort, alloc: Global, pages: &SortedPages, list: &[u64], seed: &mut u64) {
    check(rt, pages.len() == list.len(), "length");
    check(rt, pages.is_empty() == list.is_empty(), "emptiness");
    check(rt, pages.first() == list.first().copied(), "first");
    check(rt, pages.iter().eq(list.iter().copied()), "entries");
    check(rt, joined(rt, alloc, pages).as_slice() == list, "pages");
    for i in 0..6_u64 {
        check_at(rt, pages, list, sought(list, i, seed));
    }
}

// A number in the list or beside one, or any.
fn sought(list: &[u64], i: u64, seed: &mut u64) -> u64 {
    let any = next(seed);
    let picked = if i % 2 == 0 || list.is_empty() {
        None
    } else {
        list.get(any as usize % list.len()).copied()
    };
    picked.unwrap_or(any % 300_000).wrapping_add(i % 3)
}

// A change of both: room is made, entries come, and others go.
fn step(
    rt: &impl Abort,
    alloc: Global,
    pages: &mut SortedPages,
    list: &[u64],
    gone: &[u64],
    come: &[u64],
    seed: &mut u64,
) -> Vec<u64> {
    assert!(rt; is_increasing(come));
    assert!(rt; is_increasing(gone));
    pages.reserve(alloc, come).expect(rt, "memory");
    check_same(rt, alloc, pages, list, seed);
    pages.insert_reserved(come);
    let both = put(rt, alloc, list, come);
    check_same(rt, alloc, pages, &both, seed);
    pages.remove_all(gone);
    let left = out(rt, alloc, &both, gone);
    check_same(rt, alloc, pages, &left, seed);
    left
}

fn size_of(turn: u64, round: u64) -> usize {
    match turn.wrapping_add(round) % 7 {
        0 => 1,
        1 => 511 + (turn % 3) as usize,
        2 => 1023 + (turn % 4) as usize,
        3 => 5000,
        4 => 40,
        5 => 0,
        _ => 2000,
    }
}

// The least number that comes, and how far on others do: all over the list, in one place, at the end, over and over.
fn range_of(turn: u64) -> (u64, u64) {
    match turn % 4 {
        0 => (0, 100_000),
        1 => (50_000, 3_000),
        2 => (turn.wrapping_mul(10_000).wrapping_add(100_000), 9_000),
        _ => (0, 200),
    }
}

// What goes, where these come.
fn lost(rt: &impl Abort, alloc: Global, seed: &mut u64, turn: u64, come: &[u64]) -> Vec<u64> {
    match turn % 5 {
        0 => batch(rt, alloc, seed, 3000, 0, 300_000),
        1 => batch(rt, alloc, seed, 1, 0, 100_000),
        2 => batch(rt, alloc, seed, 4000, 40_000, 4_000),
        3 => Vec::new(alloc),
        _ => put(rt, alloc, come, &[]),
    }
}

fn take_turn(
    rt: &impl Abort,
    alloc: Global,
    pages: &mut SortedPages,
    list: &[u64],
    turn: u64,
    round: u64,
    seed: &mut u64,
) -> Vec<u64> {
    let (low, width) = range_of(turn);
    let come = batch(rt, alloc, seed, size_of(turn, round), low, width);
    let gone = lost(rt, alloc, seed, turn, &come);
    step(rt, alloc, pages, list, &gone, &come, seed)
}

// All of the list goes, and a few numbers come again.
fn check_emptied(
    rt: &impl Abort,
    alloc: Global,
    pages: &mut SortedPages,
    list: &[u64],
    seed: &mut u64,
) {
    let all = put(rt, alloc, list, &[]);
    let none = step(rt, alloc, pages, list, &all, &[], seed);
    check(rt, none.is_empty(), "none are left");
    let come = batch(rt, alloc, seed, 3, 10, 100);
    let few = step(rt, alloc, pages, &none, &[], &come, seed);
    check(rt, few.len() == come.len(), "all come");
}

fn take_turns(rt: &impl Abort, alloc: Global, round: u64, seed: &mut u64) {
    let mut pages = SortedPages::new(alloc);
    let mut list = Vec::new(alloc);
    check_same(rt, alloc, &pages, &list, seed);
    for turn in 0..14_u64 {
        list = take_turn(rt, alloc, &mut pages, &list, turn, round, seed);
    }
    check_emptied(rt, alloc, &mut pages, &list, seed);
}

#[test]
fn random_batches(rt: HostRuntime) {
    let mut seed = 7;
    for round in 0..3_u64 {
        take_turns(&rt, rt.alloc(), round, &mut seed);
    }
}

const ENDS: &[u64] = &[0, 1, u64::MAX - 1, u64::MAX];

#[test]
fn ends_of_numbers(rt: HostRuntime) {
    let alloc = rt.alloc();
    let mut seed = 3;
    let mut pages = SortedPages::new(alloc);
    let come = &[0, u64::MAX];
    let list = step(&rt, alloc, &mut pages, &[], &[], come, &mut seed);
    let list = step(&rt, alloc, &mut pages, &list, &[0], ENDS, &mut seed);
    check(&rt, list.as_slice() == &ENDS[1..], "ends");
}

// Numbers that come or go: the first, and how many; those that come have a step between them.
enum Change {
    Come(u64, u64, u64),
    Go(u64, u64),
}

// Changes in turn, and how many entries there are after each: pages are cut off, get numbers between theirs, are split,
// go one behind the other, and come again.
const CHANGES: &[(Change, usize)] = &[
    (Change::Come(0, 2, 3000), 3000),
    (Change::Come(1, 2, 1000), 4000),
    (Change::Come(0, 4, 1000), 4000),
    (Change::Come(0, 1, 0), 4000),
    (Change::Go(500, 5000), 750),
    (Change::Go(0, 0), 750),
    (Change::Go(5000, 4000), 500),
    (Change::Come(7000, 1, 2000), 2500),
    (Change::Go(8000, 1), 2499),
    (Change::Go(0, 9000), 0),
    (Change::Come(3, 1, 2), 2),
];

fn steps(rt: &impl Abort, alloc: Global, first: u64, step: u64, count: u64) -> Vec<u64> {
    let mut numbers = Vec::new(alloc);
    for i in 0..count {
        let number = first.wrapping_add(i.wrapping_mul(step));
        numbers.push(number).expect(rt, "memory");
    }
    numbers
}

fn make_change(rt: &impl Abort, alloc: Global, pages: &mut SortedPages, change: &Change) {
    match change {
        Change::Come(first, step, count) => {
            let come = steps(rt, alloc, *first, *step, *count);
            assert!(rt; is_increasing(&come));
            pages.reserve(alloc, &come).expect(rt, "memory");
            pages.insert_reserved(&come);
        }
        Change::Go(first, count) => {
            let gone = steps(rt, alloc, *first, 1, *count);
            assert!(rt; is_increasing(&gone));
            pages.remove_all(&gone);
        }
    }
}

// How many entries a list has, one after the other.
fn entries_in(pages: &SortedPages) -> usize {
    let mut count: usize = 0;
    for _entry in pages.iter() {
        count = count.saturating_add(1);
    }
    count
}

#[test]
fn entries_are_counted(rt: HostRuntime) {
    let alloc = rt.alloc();
    let mut pages = SortedPages::new(alloc);
    for (change, len) in CHANGES {
        make_change(&rt, alloc, &mut pages, change);
        check(&rt, pages.len() == *len, "length");
        check(&rt, entries_in(&pages) == *len, "entries");
    }
}
