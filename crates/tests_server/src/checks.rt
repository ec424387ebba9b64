use bucket_sort::SilentLog;
use std::alloc::Global;
use std::process::Abort;
use std::str;

// Whether a row has what it is to have.
pub(crate) fn check(rt: &impl Abort, holds: bool, row: &str) {
    assert!(rt; holds, "{row}");
}

// Whether a row has the text that it is to have.
pub(crate) fn check_text(rt: &impl Abort, found: &str, wanted: &str, row: &str) {
    assert!(rt; found == wanted, "{row}: {found}");
}

pub(crate) fn bytes(rt: &impl Abort, alloc: Global, text: &[u8]) -> Vec<u8> {
    text.to_vec(alloc).expect(rt, "memory")
}

pub(crate) fn add(rt: &impl Abort, bytes: &mut Vec<u8>, more: &[u8]) {
    bytes.extend_from_slice(more).expect(rt, "memory");
}

pub(crate) fn text_of<'a>(rt: &impl Abort, bytes: &'a [u8]) -> &'a str {
    str::from_utf8(bytes).expect(rt, "text")
}

// A log that tells nothing.
pub(crate) fn silent(rt: &impl Abort, alloc: Global) -> Box<SilentLog> {
    Box::new(alloc, SilentLog).expect(rt, "memory")
}
