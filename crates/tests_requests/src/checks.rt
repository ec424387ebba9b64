ghost use Rattle.std.specs.Prelude.{◌≡◌};

use search_base::Word;
use std::alloc::Global;
use std::process::Abort;

// Whether a row has what it is to have.
pub(crate) fn check(rt: &impl Abort, holds: bool, row: &str) {
    assert!(rt; holds, "{row}");
}

// Whether a row has the text that it is to have.
pub(crate) fn check_text(rt: &impl Abort, found: &str, wanted: &str, row: &str) {
    assert!(rt; found == wanted, "{row}: {found}");
}

pub(crate) fn word(rt: &impl Abort, alloc: Global, text: &str) -> Word
    ensures { result ≡ text.now }
{
    Word::new(alloc, text).expect(rt, "memory")
}

pub(crate) fn string(rt: &impl Abort, alloc: Global, text: &str) -> String {
    String::from_str(alloc, text).expect(rt, "memory")
}

pub(crate) fn add(rt: &impl Abort, text: &mut String, part: &str) {
    text.push_str(part).expect(rt, "memory");
}

// A text so many times.
pub(crate) fn times(rt: &impl Abort, alloc: Global, text: &str, count: usize) -> String {
    text.repeat(alloc, count).expect(rt, "memory")
}
