mod changes;

use crate::checks::{bytes_of, check, check_text, fault_text, word};
use change_payloads::{
    damage, decode_change, encode_change, optional, put_length, put_optional, put_word, text,
    u8_at, u32_at,
};
use document_changes::{Change, ChangeKind};
use search_base::Word;
use std::alloc::Global;
use std::process::Abort;

// What decoding a payload gives.
fn change_text(rt: &impl Abort, alloc: Global, bytes: &[u8]) -> String {
    match decode_change(alloc, bytes) {
        Ok(_) => String::from_str(alloc, "whole").expect(rt, "memory"),
        Err(fault) => fault_text(rt, alloc, fault),
    }
}

fn check_change(rt: &impl Abort, alloc: Global, bytes: &[u8], wanted: &str, row: &str) {
    let found = change_text(rt, alloc, bytes);
    check_text(rt, &found, wanted, row);
}

// Each row is a payload in hexadecimal, and what decoding it gives.
fn check_table(rt: &impl Abort, alloc: Global, table: &str) {
    for row in table.lines() {
        let (hex, wanted) = row.split_once(',').unwrap_or((row, ""));
        let bytes = bytes_of(rt, alloc, hex);
        check_change(rt, alloc, &bytes, wanted, row);
    }
}

#[test]
fn payloads_as_the_other_machine_says(rt: HostRuntime) {
    check_table(&rt, rt.alloc(), changes::TABLE);
}

const CREATED: &[u8] = b"\x01\x01\0\0\0e\0";

// The worked example of the format.
#[test]
fn a_created_index_takes_seven_bytes(rt: HostRuntime) {
    let alloc = rt.alloc();
    let change = Change {
        uid: word(&rt, alloc, "e"),
        kind: ChangeKind::Create { key: None },
    };
    let bytes = encode_change(alloc, &change).expect(&rt, "memory");
    check(&rt, bytes.as_slice() == CREATED, "seven bytes");
    check_change(&rt, alloc, &bytes, "whole", "created");
    check_change(&rt, alloc, b"", "damaged 0 end", "no byte");
}

// A float has no text of its own: it is damage at the text that holds it.
#[test]
fn a_float_in_a_patch(rt: HostRuntime) {
    let payload = b"\x07\x01\0\0\0e\x03\0\0\x001.5";
    check_change(&rt, rt.alloc(), payload, "damaged 10 49", "1.5");
}

const FIELDS: &[u8] = b"\x02\x01\0\0\x02\0\0\0id\0\x01\x01\0\0\0k";

// The number 258, the text `id`, no text and the text `k`.
fn put_fields(rt: &impl Abort, alloc: Global) -> Vec<u8> {
    let mut bytes = Vec::new(alloc);
    put_length(&mut bytes, 258).expect(rt, "memory");
    put_word(&mut bytes, &word(rt, alloc, "id")).expect(rt, "memory");
    put_optional(&mut bytes, &None).expect(rt, "memory");
    let key = Some(word(rt, alloc, "k"));
    put_optional(&mut bytes, &key).expect(rt, "memory");
    bytes
}

fn check_no_text(rt: &impl Abort, none: Option<Word>) {
    check(rt, none.is_none(), "no text");
}

// The fields that images have too, written one behind the other and read again.
#[test]
fn fields_that_are_put_are_read(rt: HostRuntime) {
    let alloc = rt.alloc();
    let bytes = put_fields(&rt, alloc);
    check(&rt, bytes.as_slice() == FIELDS, "fields");
    let (number, rest) = u32_at(&bytes).expect(&rt, "a number");
    check(&rt, number == 258, "258");
    let (id, rest) = text(alloc, rest).expect(&rt, "a text");
    check_text(&rt, id.as_str(), "id", "id");
    let (none, rest) = optional(alloc, rest).expect(&rt, "a mark");
    check_no_text(&rt, none);
    let (one, rest) = u8_at(rest).expect(&rt, "a mark");
    check(&rt, one == 1, "1");
    let (key, rest) = text(alloc, rest).expect(&rt, "a text");
    check_text(&rt, key.as_str(), "k", "k");
    check(&rt, rest.is_empty(), "the end");
}

const DAMAGES: [(usize, &str); 2] = [(2, "damaged 1 98"), (0, "damaged 3 end")];

#[test]
fn damage_is_told_by_its_place(rt: HostRuntime) {
    for (left, wanted) in &DAMAGES {
        let found = fault_text(&rt, rt.alloc(), damage(b"abc", *left));
        check_text(&rt, &found, wanted, "abc");
    }
}
