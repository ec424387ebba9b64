ghost use Rattle.std.specs.Prelude.{◌≡◌, ◌≢◌, ◌+◌, ◌<◌, ◌≤◌, ◌^◌, length, None, Some, IfOk};
ghost use Rattle.outside_io.specs.MemoryDisk.{contents_of};
ghost use Rattle.change_journal.specs.Fits.{Fits, HasCount};

use crate::disks::{answer, check, check_answer, check_content, disk_of, failing_disk};
use change_journal::{FirstJournal, Journal, Record, open, record};
use index_image::decode;
use outside_io::MemoryDisk;
use std::alloc::Global;
use std::process::Abort;

// Images that count no change, one, and two.
const IMAGES: [&[u8]; 3] = [
    b"\x02\0\0\0\0\0\0\0\0\0\0\0\0\0\0\0\0",
    b"\x02\x01\0\0\0\0\0\0\0\0\0\0\0\0\0\0\0",
    b"\x02\x02\0\0\0\0\0\0\0\0\0\0\0\0\0\0\0",
];

// What disk 0 holds after the first checkpoint, and with one change behind it.
const FIRST: &str =
    "0152414e4b49445801000000000000001100000000000000020000000000000000000000000000000000";

const SECOND: &str =
    "0152414e4b494458010000000000000011000000000000000200000000000000000000000000000000010000000000000000070000000101000000650000";

// What disk 1 holds after a checkpoint with two changes behind its image.
const WAITING: &str =
    "0152414e4b494458020000000000000011000000000000000200000000000000000000000000000000010000000000000000030000006f6e650101000000000000000000000000";

// Of each number of changes that an image counts, what the two disks stand for before and after each of
// three changes and of the checkpoint behind the second of them.
const STATES: [[&str; 5]; 3] = [
    [
        "disk 0 indexes 0 count 0",
        "disk 0 indexes 0 count 1 54+3",
        "disk 0 indexes 0 count 2 54+3 70+0",
        "disk 1 indexes 0 count 2 54+3 70+0",
        "disk 1 indexes 0 count 3 54+3 70+0 83+5",
    ],
    [
        "disk 0 indexes 0 count 0",
        "disk 0 indexes 0 count 1 54+3",
        "disk 0 indexes 0 count 2 54+3 70+0",
        "disk 1 indexes 0 count 2 54+0",
        "disk 1 indexes 0 count 3 54+0 67+5",
    ],
    [
        "disk 0 indexes 0 count 0",
        "disk 0 indexes 0 count 1 54+3",
        "disk 0 indexes 0 count 2 54+3 70+0",
        "disk 1 indexes 0 count 2",
        "disk 1 indexes 0 count 3 54+5",
    ],
];

fn entry_of(rt: &impl Abort, alloc: Global, number: u64, payload: &[u8]) -> Record
    requires { length payload.now < 2 ^ 32 }
    ensures { result.number ≡ number }
{
    record(alloc, number, payload).expect(rt, "memory")
}

// How many changes an image counts.
fn count_of(rt: &impl Abort, alloc: Global, image: &[u8]) -> u64
    ensures { HasCount image.now result }
{
    decode(alloc, image).expect(rt, "an image").changes
}

// The image that counts so many changes.
fn image_of(rt: &impl Abort, alloc: Global, number: usize) -> &'static [u8]
    requires { number ≤ 2 }
    ensures { HasCount result.now number }
{
    let image = IMAGES[number];
    assert!(rt; count_of(rt, alloc, image) == number as u64);
    image
}

// Those of two changes that an image of so many does not count.
fn waiting_from(rt: &impl Abort, alloc: Global, number: usize) -> FirstJournal
    requires { number ≤ 2 }
    ensures number { result.number ≡ number }
    ensures count { number + length result.payloads ≡ 2 }
{
    let mut waiting = FirstJournal::new(alloc, number as u64);
    if number == 0 {
        waiting.add(b"one").expect(rt, "memory");
    }
    if number <= 1 {
        waiting.add(b"").expect(rt, "memory");
    }
    waiting
}

// Two changes, and a checkpoint with an image of so many of them; where one of these fails, the number of
// those that were done.
fn two_changes(
    rt: &impl Abort,
    alloc: Global,
    a: &mut MemoryDisk,
    b: &mut MemoryDisk,
    number: usize,
) -> Result<Journal, usize>
    requires { number ≤ 2 }
    ensures fits { IfOk result (λ journal. Fits journal (Some (contents_of a.new)) (Some (contents_of b.new))) }
    ensures active { IfOk result (λ journal. journal.active ≢ None) }
    ensures count { IfOk result (λ journal. journal.count ≡ 2) }
{
    let Ok(opened) = open(alloc, a, b) else {
        return Err(0);
    };
    assert!(rt; opened.image.is_some());
    let mut journal = opened.journal;
    assert!(rt; journal.count() == 0);
    if journal
        .append(a, b, entry_of(rt, alloc, 0, b"one"))
        .is_err()
    {
        return Err(0);
    }
    if journal.append(a, b, entry_of(rt, alloc, 1, b"")).is_err() {
        return Err(1);
    }
    let waiting = waiting_from(rt, alloc, number);
    if journal
        .checkpoint(a, b, image_of(rt, alloc, number), &waiting)
        .is_err()
    {
        return Err(2);
    }
    Ok(journal)
}

// The same, and a third change behind it; how many steps were done.
fn three_changes(
    rt: &impl Abort,
    alloc: Global,
    a: &mut MemoryDisk,
    b: &mut MemoryDisk,
    number: usize,
) -> usize
    requires { number ≤ 2 }
{
    match two_changes(rt, alloc, a, b, number) {
        Err(done) => done,
        Ok(mut journal) => {
            if journal
                .append(a, b, entry_of(rt, alloc, 2, b"three"))
                .is_err()
            {
                return 3;
            }
            4
        }
    }
}

// Every crash leaves one of two states.
fn check_crashes(
    rt: &impl Abort,
    alloc: Global,
    a: &MemoryDisk,
    b: &MemoryDisk,
    states: (&str, &str),
) {
    for kept_a in 0..6 {
        for kept_b in 0..6 {
            let mut c = a.after_crash(kept_a).expect(rt, "memory");
            let mut d = b.after_crash(kept_b).expect(rt, "memory");
            let found = answer(rt, alloc, &mut c, &mut d);
            let stands = found.as_str() == states.0 || found.as_str() == states.1;
            check(rt, stands, found.as_str());
        }
    }
}

// The three changes on two disks of which one fails from a call on: so many steps are done, and every crash
// then leaves what they leave, or what the next one leaves too.
fn check_stop(rt: &impl Abort, alloc: Global, number: usize, from: (u64, u64), done: usize)
    requires { number ≤ 2 }
{
    let mut a = failing_disk(rt, alloc, FIRST, from.0);
    let mut b = failing_disk(rt, alloc, "", from.1);
    let found = three_changes(rt, alloc, &mut a, &mut b, number);
    let states = &STATES[number];
    let now = states.get(done).copied().unwrap_or("");
    let next = states.get(done.saturating_add(1)).copied().unwrap_or("");
    check(rt, found == done, now);
    check_crashes(rt, alloc, &a, &b, (now, next));
}

// A stop at each call of each disk. Opening makes two calls on each disk and two more on the active one, an
// addition four, and the checkpoint ten, whatever stands behind its image.
fn check_stops(rt: &impl Abort, alloc: Global, number: usize)
    requires { number ≤ 2 }
{
    let first = [0, 0, 0, 0, 0, 0, 0, 0, 1, 1, 1, 1, 4];
    for (from, done) in first.iter().enumerate() {
        check_stop(rt, alloc, number, (from as u64, 40), *done);
    }
    let second = [0, 0, 2, 2, 2, 2, 2, 2, 2, 2, 2, 2, 3, 3, 3, 3, 4];
    for (from, done) in second.iter().enumerate() {
        check_stop(rt, alloc, number, (40, from as u64), *done);
    }
}

#[test]
fn every_stop_where_nothing_waits(rt: HostRuntime) {
    check_stops(&rt, rt.alloc(), 2);
}

#[test]
fn every_stop_where_changes_wait(rt: HostRuntime) {
    check_stops(&rt, rt.alloc(), 1);
    check_stops(&rt, rt.alloc(), 0);
}

// The worked example of the format, byte for byte.
#[test]
fn two_empty_disks_and_one_change(rt: HostRuntime) {
    let alloc = rt.alloc();
    let mut a = disk_of(&rt, alloc, "");
    let mut b = disk_of(&rt, alloc, "");
    let opened = open(alloc, &mut a, &mut b).expect(&rt, "two disks");
    assert!(&rt; opened.image.is_none());
    let mut journal = opened.journal;
    let none = FirstJournal::new(alloc, 0);
    let image = image_of(&rt, alloc, 0);
    assert!(rt; journal.checkpoint(&mut a, &mut b, image, &none).is_ok());
    check_content(&rt, alloc, &a, FIRST);
    check_content(&rt, alloc, &b, "");
    let entry = entry_of(&rt, alloc, 0, b"\x01\x01\0\0\0e\0");
    assert!(rt; journal.append(&mut a, &mut b, entry).is_ok());
    check_content(&rt, alloc, &a, SECOND);
    check(&rt, !journal.due(), "due");
    check_answer(&rt, alloc, &mut a, &mut b, "disk 0 indexes 0 count 1 54+7");
}

// The same of a checkpoint behind whose image changes wait.
#[test]
fn two_changes_behind_an_image(rt: HostRuntime) {
    let alloc = rt.alloc();
    let mut a = disk_of(&rt, alloc, FIRST);
    let mut b = disk_of(&rt, alloc, "");
    check(
        &rt,
        two_changes(&rt, alloc, &mut a, &mut b, 0).is_ok(),
        "no journal",
    );
    check_content(&rt, alloc, &b, WAITING);
    check_answer(&rt, alloc, &mut a, &mut b, STATES[0][3]);
}

// One addition on a first disk that fails from a call on, and what a crash leaves that keeps so many calls.
fn check_append(rt: &impl Abort, alloc: Global, from: u64, kept: u64, expected: &str) {
    let mut a = failing_disk(rt, alloc, FIRST, from);
    let mut b = disk_of(rt, alloc, "");
    let opened = open(alloc, &mut a, &mut b).expect(rt, "two disks");
    assert!(rt; opened.image.is_some());
    let mut journal = opened.journal;
    assert!(rt; journal.count() == 0);
    let entry = entry_of(rt, alloc, 0, b"one");
    let is_ok = journal.append(&mut a, &mut b, entry).is_ok();
    check(rt, is_ok == (from == 8), expected);
    let mut c = a.after_crash(kept).expect(rt, "memory");
    let mut d = b.after_crash(0).expect(rt, "memory");
    check_answer(rt, alloc, &mut c, &mut d, expected);
}

// The first sync makes the record last behind a gate that is shut, the second one opens the gate.
#[test]
fn a_stop_after_each_sync_of_an_append(rt: HostRuntime) {
    let rows = [
        (6, 0, STATES[0][0]),
        (6, 1, STATES[0][1]),
        (8, 0, STATES[0][1]),
        (8, 1, STATES[0][1]),
    ];
    for (from, kept, expected) in &rows {
        check_append(&rt, rt.alloc(), *from, *kept, expected);
    }
}
