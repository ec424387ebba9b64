use change_journal::{JournalFault, Opened, open};
use outside_io::MemoryDisk;
use std::alloc::{AllocError, Global};
use std::process::Abort;

// The bytes of a text in hexadecimal.
fn bytes_of(rt: &impl Abort, alloc: Global, text: &str) -> Vec<u8> {
    hex::decode(alloc, text).expect(rt, "hexadecimal")
}

/// A disk that holds these bytes, and whose calls from one on to the 39th fail.
pub(crate) fn failing_disk(rt: &impl Abort, alloc: Global, hex: &str, from: u64) -> MemoryDisk {
    let mut failing = Vec::new(alloc);
    for call in 0..40 {
        if call >= from {
            failing.push(call).expect(rt, "memory");
        }
    }
    MemoryDisk::new(alloc, bytes_of(rt, alloc, hex), failing).expect(rt, "memory")
}

/// A disk that holds these bytes, and never fails.
pub(crate) fn disk_of(rt: &impl Abort, alloc: Global, hex: &str) -> MemoryDisk {
    failing_disk(rt, alloc, hex, 40)
}

/// Whether a row has what it is to have.
pub(crate) fn check(rt: &impl Abort, holds: bool, row: &str) {
    assert!(rt; holds, "{row}");
}

/// Whether a disk holds these bytes.
pub(crate) fn check_content(rt: &impl Abort, alloc: Global, disk: &MemoryDisk, hex: &str) {
    let wanted = bytes_of(rt, alloc, hex);
    check(rt, disk.content() == wanted.as_slice(), hex);
}

// The active disk, how many indexes its image has, the count, and each payload's place and size.
fn line_of(alloc: Global, opened: &Opened) -> Result<String, AllocError> {
    let indexes = match &opened.image {
        None => return "empty".to_string(alloc),
        Some(image) => image.indexes.len(),
    };
    let active = opened.active;
    let count = opened.journal.count();
    let mut line = format!(in alloc; "disk {active} indexes {indexes} count {count}")?;
    for change in &opened.changes {
        let place = change.place;
        let size = change.payload.len();
        line.push_str(format!(in alloc; " {place}+{size}")?.as_str())?;
    }
    Ok(line)
}

fn fault_line(alloc: Global, fault: JournalFault) -> Result<String, AllocError> {
    match fault {
        JournalFault::DiskFault => "disk fault".to_string(alloc),
        JournalFault::NoMemory => "no memory".to_string(alloc),
        JournalFault::Damaged { disk, place, found } => match found {
            None => format!(in alloc; "damaged {disk} {place} end"),
            Some(byte) => format!(in alloc; "damaged {disk} {place} {byte}"),
        },
    }
}

/// What opening two disks gives, in a line.
pub(crate) fn answer(
    rt: &impl Abort,
    alloc: Global,
    a: &mut MemoryDisk,
    b: &mut MemoryDisk,
) -> String {
    let line = match open(alloc, a, b) {
        Ok(opened) => line_of(alloc, &opened),
        Err(fault) => fault_line(alloc, fault),
    };
    line.expect(rt, "memory")
}

/// Whether opening two disks gives this.
pub(crate) fn check_answer(
    rt: &impl Abort,
    alloc: Global,
    a: &mut MemoryDisk,
    b: &mut MemoryDisk,
    wanted: &str,
) {
    let found = answer(rt, alloc, a, b);
    assert!(rt; found.as_str() == wanted, "{wanted}: {found}");
}
