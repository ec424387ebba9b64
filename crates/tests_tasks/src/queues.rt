use search_base::{OutcomeRow, Word};
use std::alloc::Global;
use std::process::Abort;
use task_queue::{Outcome, Task, TaskQueue, TaskState, TaskView};

fn word(rt: &impl Abort, alloc: Global, text: &str) -> Word {
    Word::new(alloc, text).expect(rt, "memory")
}

// Puts a task behind the others, under the next number.
fn put(rt: &impl Abort, alloc: Global, queue: &mut TaskQueue<()>, uid: &str, kind: u8) {
    let number = queue.accepted();
    assert!(rt; number < 1_000_000 && !queue.full(), "room for a task");
    queue.push(Task {
        number,
        uid: word(rt, alloc, uid),
        kind,
        change: (),
    });
}

// Moves the oldest tasks to those that have finished.
fn end(rt: &impl Abort, queue: &mut TaskQueue<()>, outcomes: &[Outcome]) {
    assert!(rt; outcomes.len() <= queue.queued().len(), "tasks that wait");
    queue.finish(outcomes);
}

// Writes what is told of a task: number, uid and kind, and `?` where it waits, `+` where it succeeded, the row where not.
fn add(rt: &impl Abort, alloc: Global, told: &mut String, view: Option<TaskView<'_>>) {
    let Some(view) = view else {
        told.push_str("- ").expect(rt, "memory");
        return;
    };
    let uid = view.uid.as_str();
    let state = match view.state {
        TaskState::Enqueued => String::from_str(alloc, "?").expect(rt, "memory"),
        TaskState::Succeeded => String::from_str(alloc, "+").expect(rt, "memory"),
        TaskState::Failed { row } => row.to_string(alloc).expect(rt, "memory"),
    };
    write!(told, "{}{uid}{}{state} ", view.number, view.kind).expect(rt, "memory");
}

// What is told of the ten numbers from one on is this, and the oldest batch has so many tasks.
fn check(
    rt: &impl Abort,
    alloc: Global,
    queue: &TaskQueue<()>,
    batch: usize,
    from: u64,
    wanted: &str,
) {
    let mut told = String::new(alloc);
    for number in 0..10 {
        add(
            rt,
            alloc,
            &mut told,
            queue.find(from.saturating_add(number)),
        );
    }
    assert!(rt; told.as_str() == wanted, "{wanted}: {told}");
    assert!(rt;
        queue.batch_len() == batch,
        "{wanted}: a batch of {}",
        queue.batch_len()
    );
}

// The kinds of changes in the tables: 3 replaces documents, 4 updates and 5 removes some, 7 patches settings.
const TASKS: [(&str, u8); 8] = [
    ("a", 3),
    ("a", 3),
    ("a", 4),
    ("b", 4),
    ("b", 4),
    ("b", 7),
    ("b", 7),
    ("b", 5),
];

const OUTCOMES: [(Outcome, usize, &str); 4] = [
    (
        Outcome::Succeeded,
        1,
        "0a3+ 1a3? 2a4? 3b4? 4b4? 5b7? 6b7? 7b5? - - ",
    ),
    (
        Outcome::Failed { row: 27 },
        1,
        "0a3+ 1a327 2a4? 3b4? 4b4? 5b7? 6b7? 7b5? - - ",
    ),
    (
        Outcome::Succeeded,
        2,
        "0a3+ 1a327 2a4+ 3b4? 4b4? 5b7? 6b7? 7b5? - - ",
    ),
    (
        Outcome::Failed { row: 23 },
        1,
        "0a3+ 1a327 2a4+ 3b423 4b4? 5b7? 6b7? 7b5? - - ",
    ),
];

#[test]
fn batches_are_cut_at_another_uid_or_kind(rt: HostRuntime) {
    let alloc = rt.alloc();
    let mut queue = TaskQueue::new(alloc, 0).expect(&rt, "memory");
    check(&rt, alloc, &queue, 0, 0, "- - - - - - - - - - ");
    for (uid, kind) in TASKS {
        put(&rt, alloc, &mut queue, uid, kind);
    }
    check(
        &rt,
        alloc,
        &queue,
        2,
        0,
        "0a3? 1a3? 2a4? 3b4? 4b4? 5b7? 6b7? 7b5? - - ",
    );
    for (outcome, batch, wanted) in OUTCOMES {
        end(&rt, &mut queue, &[outcome]);
        check(&rt, alloc, &queue, batch, 0, wanted);
    }
    end(&rt, &mut queue, &[Outcome::Succeeded, Outcome::Succeeded]);
    check(
        &rt,
        alloc,
        &queue,
        1,
        0,
        "0a3+ 1a327 2a4+ 3b423 4b4+ 5b7+ 6b7? 7b5? - - ",
    );
}

#[test]
fn the_last_thousand_outcomes_are_found(rt: HostRuntime) {
    let alloc = rt.alloc();
    let mut queue = TaskQueue::new(alloc, 5).expect(&rt, "memory");
    for _ in 5..1010 {
        put(&rt, alloc, &mut queue, "m", 7);
        end(&rt, &mut queue, &[Outcome::Failed { row: 23 }]);
    }
    check(
        &rt,
        alloc,
        &queue,
        0,
        5,
        "- - - - - 10m723 11m723 12m723 13m723 14m723 ",
    );
    check(
        &rt,
        alloc,
        &queue,
        0,
        1004,
        "1004m723 1005m723 1006m723 1007m723 1008m723 1009m723 - - - - ",
    );
}

#[test]
fn sixteen_tasks_fill_a_queue(rt: HostRuntime) {
    let alloc = rt.alloc();
    let mut queue = TaskQueue::new(alloc, 0).expect(&rt, "memory");
    for _ in 0..16 {
        put(&rt, alloc, &mut queue, "c", 1);
    }
    assert!(&rt; queue.full() && queue.queued().len() == 16, "sixteen tasks");
    end(&rt, &mut queue, &[Outcome::Succeeded]);
    assert!(&rt; !queue.full(), "fifteen tasks");
}

#[test]
fn outcomes_are_restored(rt: HostRuntime) {
    let alloc = rt.alloc();
    let mut rows = Vec::new(alloc);
    for row in [27, 0] {
        rows.push(OutcomeRow {
            uid: word(&rt, alloc, "n"),
            kind: 3,
            row,
        })
        .expect(&rt, "memory");
    }
    assert!(&rt; rows.len() == 2, "two outcomes");
    let queue = TaskQueue::restore(alloc, 2, rows).expect(&rt, "memory");
    check(&rt, alloc, &queue, 0, 0, "0n327 1n3+ - - - - - - - - ");
    let kept = queue.outcomes(alloc).expect(&rt, "memory");
    assert!(&rt; kept.len() == 2, "two outcomes again");
}
