use crate::checks::{add, check, check_text};
use staged_slots::StagedSlots;
use std::alloc::Global;
use std::process::Abort;

// Writes the values of some slots behind a text, `-` for an empty one.
fn tell(rt: &impl Abort, slots: &[Option<u32>], told: &mut String) {
    for slot in slots {
        match slot {
            Some(value) => write!(told, "{value} ").expect(rt, "memory"),
            None => add(rt, told, "- "),
        }
    }
}

// The slots, and what is staged, are these.
fn check_slots(rt: &impl Abort, alloc: Global, slots: &StagedSlots<u32>, wanted: &str) {
    let mut told = String::new(alloc);
    tell(rt, slots.as_slice(), &mut told);
    add(rt, &mut told, "|");
    tell(rt, slots.staged(), &mut told);
    check_text(rt, &told, wanted, wanted);
}

// One step: a value is staged, `s`, settled, `m`, or taken out, `t`, all that is staged is let go, `u`, or a slot is
// added, `p`, an empty one at 0.
fn step(rt: &impl Abort, slots: &mut StagedSlots<u32>, kind: char, number: u32) {
    let at = number as usize;
    match kind {
        's' => slots.stage(number).expect(rt, "memory"),
        'p' => slots
            .push(if number == 0 { None } else { Some(number) })
            .expect(rt, "memory"),
        'u' => slots.unstage(),
        't' => {
            assert!(rt; at < slots.len(), "a slot");
            let taken = slots.take(at);
            check(rt, taken == Some(10), "the first value");
        }
        _ => {
            assert!(rt;
                at <= slots.len() && !slots.staged().is_empty(),
                "a slot and a value"
            );
            slots.settle(at);
        }
    }
}

const STEPS: [(char, u32, &str); 14] = [
    ('s', 10, "|10 "),
    ('s', 11, "|10 11 "),
    ('m', 0, "10 |11 "),
    ('m', 1, "10 11 |"),
    ('s', 12, "10 11 |12 "),
    ('s', 13, "10 11 |12 13 "),
    ('s', 14, "10 11 |12 13 14 "),
    ('m', 1, "10 12 |13 14 "),
    ('m', 2, "10 12 13 |14 "),
    ('u', 0, "10 12 13 |"),
    ('t', 0, "- 12 13 |"),
    ('p', 0, "- 12 13 - |"),
    ('p', 15, "- 12 13 - 15 |"),
    ('s', 16, "- 12 13 - 15 |16 "),
];

#[test]
fn values_are_staged_and_then_settled(rt: HostRuntime) {
    let alloc = rt.alloc();
    let mut slots = StagedSlots::new(alloc);
    slots.reserve(2).expect(&rt, "memory");
    for (kind, number, wanted) in STEPS {
        step(&rt, &mut slots, kind, number);
        check_slots(&rt, alloc, &slots, wanted);
    }
    check(&rt, slots.len() == 5, "five slots");
}

#[test]
fn slots_are_taken_over(rt: HostRuntime) {
    let alloc = rt.alloc();
    let items = Vec::from_array(alloc, [Some(1), None]).expect(&rt, "memory");
    let mut slots = StagedSlots::from_slots(items);
    step(&rt, &mut slots, 's', 2);
    step(&rt, &mut slots, 'm', 1);
    check_slots(&rt, alloc, &slots, "1 2 |");
}
