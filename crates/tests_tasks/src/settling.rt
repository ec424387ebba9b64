use crate::counter::Counter;
use queued_changes::Queued;
use search_base::{Steps, Word};
use std::alloc::Global;
use std::process::Abort;
use task_queue::{TaskState, TaskView};

struct Counted;

// A change as a table has it: a uid, the byte of a kind, and an amount, of which 0 is refused.
type Write = (&'static str, u8, u8);

// Enqueues a change, with room made for it.
fn write(rt: &impl Abort, alloc: Global, queued: &mut Queued<u8, Counter>, change: Write) {
    let (uid, kind, amount) = change;
    let mut fetches: Steps<Counted> = Steps::new();
    queued.make_room(alloc, &mut fetches).expect(rt, "memory");
    let free = queued.waiting().len() < 16 && queued.accepted() < 1_000_000;
    assert!(rt; free, "room for a task");
    let uid = Word::new(alloc, uid).expect(rt, "memory");
    queued.enqueue(uid, kind, amount);
}

// What is told of a task: `?` where it waits, `+` where it succeeded, its row where it did not.
fn add(rt: &impl Abort, told: &mut String, view: Option<TaskView<'_>>) {
    match view {
        None => told.push_str("-").expect(rt, "memory"),
        Some(view) => match view.state {
            TaskState::Enqueued => told.push_str("?").expect(rt, "memory"),
            TaskState::Succeeded => told.push_str("+").expect(rt, "memory"),
            TaskState::Failed { row } => write!(told, "{row}").expect(rt, "memory"),
        },
    }
}

// How many tasks wait, how many each batch had, the amounts that were kept, and what is told of all tasks and of the next.
fn told(rt: &impl Abort, alloc: Global, queued: &Queued<u8, Counter>) -> String {
    let mut told = String::new(alloc);
    let waiting = queued.waiting().len();
    write!(told, "{waiting} wait, batches").expect(rt, "memory");
    for tasks in &queued.worker().batches {
        write!(told, " {tasks}").expect(rt, "memory");
    }
    told.push_str(", kept").expect(rt, "memory");
    for amount in &queued.worker().kept {
        write!(told, " {amount}").expect(rt, "memory");
    }
    told.push_str(", ").expect(rt, "memory");
    for number in 0..=queued.accepted() {
        add(rt, &mut told, queued.find(number));
    }
    told
}

// Changes of two indexes and three kinds: five batches.
const CUT: [Write; 7] = [
    ("a", 3, 1),
    ("a", 3, 2),
    ("a", 4, 3),
    ("b", 4, 4),
    ("b", 4, 5),
    ("b", 7, 6),
    ("b", 7, 7),
];

// Changes, how often memory is wanting, how many batches are then settled, and what is told after that.
type Row = (&'static [Write], u64, usize, &'static str);

const ROWS: [Row; 7] = [
    (&[], 0, 1, "0 wait, batches, kept, -"),
    (&CUT, 0, 2, "4 wait, batches 2 1, kept 1 2 3, +++????-"),
    (
        &CUT,
        0,
        5,
        "0 wait, batches 2 1 2 1 1, kept 1 2 3 4 5 6 7, +++++++-",
    ),
    (
        &[("a", 3, 1), ("a", 3, 0), ("a", 3, 2)],
        0,
        1,
        "0 wait, batches 3, kept 1 2, +27+-",
    ),
    (
        &[("a", 3, 0), ("b", 3, 3)],
        0,
        3,
        "0 wait, batches 1 1, kept 3, 27+-",
    ),
    (
        &[("a", 3, 1), ("a", 3, 2), ("b", 3, 3)],
        1,
        1,
        "3 wait, batches, kept, ???-",
    ),
    (
        &[("a", 3, 1), ("a", 3, 2), ("b", 3, 3)],
        1,
        2,
        "1 wait, batches 2, kept 1 2, ++?-",
    ),
];

// What is told of a machine.
fn check(rt: &impl Abort, alloc: Global, queued: &Queued<u8, Counter>, wanted: &str) {
    let told = told(rt, alloc, queued);
    assert!(rt; told.as_str() == wanted, "{wanted}: {told}");
}

fn check_row(
    rt: &impl Abort,
    alloc: Global,
    changes: &[Write],
    refusals: u64,
    batches: usize,
    wanted: &str,
) {
    let counter = Counter::new(alloc, refusals);
    let mut queued = Queued::new(alloc, 0, counter).expect(rt, "memory");
    for change in changes {
        write(rt, alloc, &mut queued, *change);
    }
    for _ in 0..batches {
        let mut fetches: Steps<Counted> = Steps::new();
        let _done = queued.settle(alloc, &mut fetches);
    }
    check(rt, alloc, &queued, wanted);
}

#[test]
fn batches_leave_what_their_changes_leave(rt: HostRuntime) {
    for (changes, refusals, batches, wanted) in &ROWS {
        check_row(&rt, rt.alloc(), changes, *refusals, *batches, wanted);
    }
}

// How many changes come, and what is told after that.
const SIXTEEN: [(u8, &str); 3] = [
    (15, "15 wait, batches, kept, ???????????????-"),
    (16, "16 wait, batches, kept, ????????????????-"),
    (
        17,
        "1 wait, batches 16, kept 1 2 3 4 5 6 7 8 9 10 11 12 13 14 15 16, ++++++++++++++++?-",
    ),
];

fn check_count(rt: &impl Abort, alloc: Global, count: u8, wanted: &str) {
    let counter = Counter::new(alloc, 0);
    let mut queued = Queued::new(alloc, 0, counter).expect(rt, "memory");
    for amount in 1..=count {
        write(rt, alloc, &mut queued, ("m", 3, amount));
    }
    check(rt, alloc, &queued, wanted);
}

#[test]
fn the_seventeenth_change_makes_room(rt: HostRuntime) {
    for (count, wanted) in &SIXTEEN {
        check_count(&rt, rt.alloc(), *count, wanted);
    }
}

#[test]
fn all_that_waits_is_settled(rt: HostRuntime) {
    let alloc = rt.alloc();
    let counter = Counter::new(alloc, 0);
    let mut queued = Queued::new(alloc, 5, counter).expect(&rt, "memory");
    for change in [("a", 3, 1), ("b", 3, 0), ("b", 3, 2)] {
        write(&rt, alloc, &mut queued, change);
    }
    let mut fetches: Steps<Counted> = Steps::new();
    queued.settle_all(alloc, &mut fetches).expect(&rt, "memory");
    let wanted = "0 wait, batches 1 2, kept 1 2, -----+27+-";
    check(&rt, alloc, &queued, wanted);
}
