mod images;
mod outcomes;

use crate::checks::{bytes_of, check, check_text, fault_text, word};
use index_image::{ImageRows, decode, encode};
use search_base::OutcomeRow;
use std::alloc::Global;
use std::process::Abort;

// What decoding an image gives: whole, where the state has these bytes again, in version 2.
fn state_text(rt: &impl Abort, alloc: Global, bytes: &[u8]) -> String {
    match decode(alloc, bytes) {
        Ok(rows) => again_text(rt, alloc, &rows, bytes),
        Err(fault) => fault_text(rt, alloc, fault),
    }
}

fn again_text(rt: &impl Abort, alloc: Global, rows: &ImageRows, bytes: &[u8]) -> String {
    let again = encode(alloc, rows).expect(rt, "memory");
    let written = as_written(rt, alloc, bytes);
    let text = if again.as_slice() == written.as_slice() {
        "whole"
    } else {
        "another"
    };
    String::from_str(alloc, text).expect(rt, "memory")
}

// The bytes of an image as version 2 has them: one of version 1 gets no outcomes.
fn as_written(rt: &impl Abort, alloc: Global, bytes: &[u8]) -> Vec<u8> {
    let mut image = bytes.to_vec(alloc).expect(rt, "memory");
    if let [1, ..] = bytes {
        put_byte(&mut image, 0, 2);
        image.extend_from_slice(&[0; 4]).expect(rt, "memory");
    }
    image
}

fn put_byte(image: &mut Vec<u8>, place: usize, byte: u8) {
    if let Some(there) = image.get_mut(place) {
        *there = byte;
    }
}

fn check_state(rt: &impl Abort, alloc: Global, bytes: &[u8], wanted: &str, row: &str) {
    let found = state_text(rt, alloc, bytes);
    check_text(rt, &found, wanted, row);
}

// Each row is an image in hexadecimal, and what decoding it gives.
fn check_table(rt: &impl Abort, alloc: Global, table: &str) {
    for row in table.lines() {
        let (hex, wanted) = row.split_once(',').unwrap_or((row, ""));
        let bytes = bytes_of(rt, alloc, hex);
        check_state(rt, alloc, &bytes, wanted, row);
    }
}

#[test]
fn images_as_the_other_machine_says(rt: HostRuntime) {
    check_table(&rt, rt.alloc(), images::TABLE);
}

#[test]
fn outcomes_as_the_other_machine_says(rt: HostRuntime) {
    check_table(&rt, rt.alloc(), outcomes::TABLE);
}

const EMPTY_IMAGE: &[u8] = b"\x02\0\0\0\0\0\0\0\0\0\0\0\0\0\0\0\0";

#[test]
fn the_empty_state_takes_seventeen_bytes(rt: HostRuntime) {
    let alloc = rt.alloc();
    let bytes = image_of(&rt, alloc, 0, 0);
    check(&rt, bytes.as_slice() == EMPTY_IMAGE, "seventeen bytes");
    check_state(&rt, alloc, &bytes, "whole", "the empty state");
    check_state(&rt, alloc, b"\x03", "damaged 0 3", "3");
}

// An image of one outcome, whose kind stands at 17 and whose row at 23.
const OUTCOME: &str = "020100000000000000000000000100000003010000006e1b";

const KINDS: &[u8] = &[1, 2, 3, 4, 5, 6, 7, 8];

const ROWS: &[u8] = &[0, 23, 24, 26, 27, 28, 29, 30, 32, 33, 34];

fn check_byte(rt: &impl Abort, alloc: Global, place: usize, byte: u8, allowed: &[u8]) {
    let mut image = bytes_of(rt, alloc, OUTCOME);
    put_byte(&mut image, place, byte);
    let damaged = format!(in alloc; "damaged {place} {byte}").expect(rt, "memory");
    let wanted = if allowed.contains(&byte) {
        "whole"
    } else {
        damaged.as_str()
    };
    check_state(rt, alloc, &image, wanted, damaged.as_str());
}

#[test]
fn each_byte_as_a_kind_and_as_a_row(rt: HostRuntime) {
    for byte in 0..=255 {
        check_byte(&rt, rt.alloc(), 17, byte, KINDS);
        check_byte(&rt, rt.alloc(), 23, byte, ROWS);
    }
}

// The image of a state that counts so many changes and has so many outcomes.
fn image_of(rt: &impl Abort, alloc: Global, changes: u64, outcomes: u32) -> Vec<u8> {
    let mut rows = ImageRows {
        changes,
        indexes: Vec::new(alloc),
        outcomes: Vec::new(alloc),
    };
    for _ in 0..outcomes {
        let outcome = OutcomeRow {
            uid: word(rt, alloc, "m"),
            kind: 3,
            row: 0,
        };
        rows.outcomes.push(outcome).expect(rt, "memory");
    }
    encode(alloc, &rows).expect(rt, "memory")
}

// There may be 1,000 outcomes, and no more than the changes that are counted.
const NUMBERS: [(u64, u32, &str); 6] = [
    (1000, 1000, "whole"),
    (1_000_000_000, 1000, "whole"),
    (1001, 1001, "damaged 13 233"),
    (1_000_000_000, 1001, "damaged 13 233"),
    (999, 1000, "damaged 13 232"),
    (0, 1, "damaged 13 1"),
];

#[test]
fn as_many_outcomes_as_there_may_be(rt: HostRuntime) {
    let alloc = rt.alloc();
    for (changes, outcomes, wanted) in &NUMBERS {
        let image = image_of(&rt, alloc, *changes, *outcomes);
        check_state(&rt, alloc, &image, wanted, wanted);
    }
}
