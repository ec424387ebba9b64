use crate::checks::{check, check_text};
use search_base::{CostKey, DocId, SortKey, Steps, Word, bucket, keys_are_ordered};
use std::alloc::Global;
use std::mem;
use std::process::Abort;

fn word(rt: &impl Abort, alloc: Global, text: &str) -> Word {
    Word::new(alloc, text).expect(rt, "memory")
}

#[test]
fn a_word_is_its_text(rt: HostRuntime) {
    let alloc = rt.alloc();
    let dark = word(&rt, alloc, "dark");
    check_text(&rt, dark.as_str(), "dark", "of a text");
    let text = String::from_str(alloc, "dark").expect(&rt, "memory");
    let owned = Word::from_string(text).expect(&rt, "memory");
    let cloned = owned.clone().expect(&rt, "memory");
    check(&rt, cloned == dark, "of a text that is given away");
}

fn sort_keys(rt: &impl Abort, alloc: Global) -> [SortKey; 5] {
    [
        SortKey::Number(-7),
        SortKey::Number(5),
        SortKey::Text(word(rt, alloc, "dark")),
        SortKey::Text(word(rt, alloc, "darkness")),
        SortKey::Missing,
    ]
}

// Whether a key is before another one at exactly the places at which it stands first in its order.
fn check_order(rt: &impl Abort, keys: &[SortKey], places: &[usize], up: bool) {
    for (i, place) in places.iter().enumerate() {
        for (j, other) in places.iter().enumerate() {
            if let (Some(key), Some(next)) = (keys.get(*place), keys.get(*other)) {
                let before = if up {
                    key.before_up(next)
                } else {
                    key.before_down(next)
                };
                assert!(rt; before == (i < j), "{i} and {j}");
            }
        }
    }
}

#[test]
fn numbers_then_texts_then_missing_both_ways(rt: HostRuntime) {
    let keys = sort_keys(&rt, rt.alloc());
    check_order(&rt, &keys, &[0, 1, 2, 3, 4], true);
    check_order(&rt, &keys, &[1, 0, 3, 2, 4], false);
}

#[test]
fn costs_then_ascending_then_descending_keys(rt: HostRuntime) {
    let keys = [
        CostKey::Number(0),
        CostKey::Number(7),
        CostKey::Up(SortKey::Number(9)),
        CostKey::Up(SortKey::Missing),
        CostKey::Down(SortKey::Number(9)),
        CostKey::Down(SortKey::Number(1)),
    ];
    keys_are_ordered();
    for (i, key) in keys.iter().enumerate() {
        for (j, other) in keys.iter().enumerate() {
            assert!(rt; key.before(other) == (i < j), "{i} and {j}");
        }
    }
}

#[test]
fn a_counter_takes_no_bytes(rt: HostRuntime) {
    let mut steps = Steps::<DocId>::new();
    steps.tick();
    check(&rt, mem::size_of::<Steps<DocId>>() == 0, "steps");
}

// A position, and its bucket: exact up to 7, and then by powers of two.
const BUCKETS: [(u16, u8); 6] = [(0, 0), (7, 7), (8, 8), (15, 8), (16, 9), (65_535, 20)];

#[test]
fn buckets_are_exact_and_then_powers_of_two(rt: HostRuntime) {
    for (position, wanted) in &BUCKETS {
        assert!(rt; bucket(*position) == *wanted, "{position}");
    }
}
