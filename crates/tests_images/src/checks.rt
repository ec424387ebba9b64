ghost use Rattle.std.specs.Prelude.{◌≡◌};

use change_payloads::ImageFault;
use search_base::Word;
use std::alloc::Global;
use std::process::Abort;

// Whether a row has what it is to have.
pub(crate) fn check(rt: &impl Abort, holds: bool, row: &str) {
    assert!(rt; holds, "{row}");
}

// Whether a row has the text that it is to have.
pub(crate) fn check_text(rt: &impl Abort, found: &str, wanted: &str, row: &str) {
    assert!(rt; found == wanted, "{row}: {found}");
}

pub(crate) fn word(rt: &impl Abort, alloc: Global, text: &str) -> Word
    ensures { result ≡ text.now }
{
    Word::new(alloc, text).expect(rt, "memory")
}

// The bytes of a text in hexadecimal.
pub(crate) fn bytes_of(rt: &impl Abort, alloc: Global, text: &str) -> Vec<u8> {
    hex::decode(alloc, text).expect(rt, "hexadecimal")
}

// Where bytes are damaged, and the byte that stands there.
pub(crate) fn fault_text(rt: &impl Abort, alloc: Global, fault: ImageFault) -> String {
    let text = match fault {
        ImageFault::NoMemory => format!(in alloc; "no memory"),
        ImageFault::Damaged { place, found: None } => format!(in alloc; "damaged {place} end"),
        ImageFault::Damaged {
            place,
            found: Some(byte),
        } => format!(in alloc; "damaged {place} {byte}"),
    };
    text.expect(rt, "memory")
}
