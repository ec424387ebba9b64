use crate::checks::{add, bytes, check, check_text, silent, text_of};
use crate::disks::{crashed, serve_on};
use bucket_sort::BucketLog;
use link_doors::MemoryDoor;
use outside_io::{MemoryDisk, MemoryLink};
use search_base::Steps;
use search_server::{Status, run_search_server};
use std::alloc::Global;
use std::process::Abort;

// What two disks hold after the first opening, and after an index `e` was made.
const FIRST: &str =
    "0152414e4b494458 0100000000000000 1100000000000000 02 0000000000000000 00000000 00000000 00";

const WITH_E: &str =
    "0152414e4b494458 0100000000000000 1100000000000000 02 0000000000000000 00000000 00000000 01
    0000000000000000 07000000 01 01000000 65 00 00";

// The same with images of version 1, as an older program wrote them; the first also with the last generation.
const OLDER: &str =
    "0152414e4b494458 0100000000000000 0d00000000000000 01 0000000000000000 00000000 00";

const OLDER_AT_LAST: &str =
    "0152414e4b494458 ffffffffffffffff 0d00000000000000 01 0000000000000000 00000000 00";

const OLDER_WITH_E: &str =
    "0152414e4b494458 0100000000000000 0d00000000000000 01 0000000000000000 00000000 01
    0000000000000000 07000000 01 01000000 65 00 00";

const MAKE_E_AND_F: &str = "POST /indexes HTTP/1.1\r\nContent-Length: 11\r\n\r\n{\"uid\":\"e\"}\
    POST /indexes HTTP/1.1\r\nContent-Length: 11\r\n\r\n{\"uid\":\"f\"}";

const LIST: &str = "GET /indexes HTTP/1.1\r\n\r\n";

// What a run of `pipe` came to.
#[derive(Drop)]
struct Outcome {
    // The number of the status, and of damage the disk, the place and the byte there.
    status: String,
    told: String,
    disk_a: MemoryDisk,
    disk_b: MemoryDisk,
}

fn digit(letter: u8) -> u8 {
    if letter >= b'a' {
        letter.saturating_sub(87)
    } else {
        letter.saturating_sub(48)
    }
}

// The bytes of hexadecimal digits, between which blanks may stand.
fn bytes_of(rt: &impl Abort, alloc: Global, text: &str) -> Vec<u8> {
    let mut bytes = Vec::new(alloc);
    let mut front: Option<u8> = None;
    for letter in text.bytes() {
        if letter > b' ' {
            front = match front {
                None => Some((digit(letter) & 15) * 16),
                Some(high) => {
                    let byte = high.saturating_add(digit(letter) & 15);
                    bytes.push(byte).expect(rt, "memory");
                    None
                }
            };
        }
    }
    bytes
}

// The numbers from one on to 39.
fn calls_from(rt: &impl Abort, alloc: Global, from: u64) -> Vec<u64> {
    let mut calls = Vec::new(alloc);
    for call in from..40 {
        calls.push(call).expect(rt, "memory");
    }
    calls
}

// A disk with these bytes that fails at all calls from one on.
fn disk(rt: &impl Abort, alloc: Global, content: &str, from: u64) -> MemoryDisk {
    let content = bytes_of(rt, alloc, content);
    let failing = calls_from(rt, alloc, from);
    MemoryDisk::new(alloc, content, failing).expect(rt, "memory")
}

fn status_text(rt: &impl Abort, alloc: Global, status: &Status) -> String {
    let text = match status {
        Status::Damaged {
            disk,
            place,
            found: Some(byte),
        } => format!(in alloc; "{disk} {place} {byte}"),
        Status::Damaged {
            disk,
            place,
            found: None,
        } => format!(in alloc; "{disk} {place} end"),
        other => format!(in alloc; "{}", other.number()),
    };
    text.expect(rt, "memory")
}

fn run_on(
    rt: &impl Abort,
    alloc: Global,
    pipe: &mut MemoryLink,
    disk_a: &mut MemoryDisk,
    disk_b: &mut MemoryDisk,
) -> Status {
    let word = "pipe".to_string(alloc).expect(rt, "memory");
    let words = Vec::from_array(alloc, [word]).expect(rt, "memory");
    let door = MemoryDoor::new(alloc, Vec::new(alloc), Vec::new(alloc));
    let mut door = door.expect(rt, "memory");
    let log: Box<dyn BucketLog> = silent(rt, alloc);
    let mut fetches: Steps<()> = Steps::new();
    let mut openings: Steps<()> = Steps::new();
    run_search_server(
        alloc,
        &words,
        pipe,
        &mut door,
        disk_a,
        disk_b,
        log,
        &mut fetches,
        &mut openings,
    )
}

fn run(
    rt: &impl Abort,
    alloc: Global,
    input: &str,
    disk_a: MemoryDisk,
    disk_b: MemoryDisk,
) -> Outcome {
    let input = bytes(rt, alloc, input.as_bytes());
    let mut pipe = MemoryLink::new(alloc, input, Vec::new(alloc)).expect(rt, "memory");
    let (mut disk_a, mut disk_b) = (disk_a, disk_b);
    let status = run_on(rt, alloc, &mut pipe, &mut disk_a, &mut disk_b);
    let told = text_of(rt, pipe.written());
    Outcome {
        status: status_text(rt, alloc, &status),
        told: told.to_string(alloc).expect(rt, "memory"),
        disk_a,
        disk_b,
    }
}

const THREE: &str =
    "0152414e4b494458 0100000000000000 0d00000000000000 03 0000000000000000 00000000 00";

const INSIDE: &str =
    "0152414e4b494458 0100000000000000 0e00000000000000 01 0000000000000000 01000000 ff 01";

// An index is made again that is there: that task fails.
const TAKEN: &str =
    "0152414e4b494458 0100000000000000 1100000000000000 02 0000000000000000 00000000 00000000 01
    0000000000000000 07000000 01 01000000 65 00 01 0100000000000000 07000000 01 01000000 65 00 00";

// No request makes an index of this uid.
const NO_UID: &str =
    "0152414e4b494458 0100000000000000 0d00000000000000 01 0000000000000000 00000000 01
    0000000000000000 07000000 01 01000000 20 00 00";

// An index goes that is not there: that task fails, and an image of version 2 says so.
const GONE: &str =
    "0152414e4b494458 0100000000000000 0d00000000000000 01 0000000000000000 00000000 01
    0000000000000000 06000000 02 01000000 65 00";

const GONE_ANEW: &str =
    "0152414e4b494458 0200000000000000 1800000000000000 02 0100000000000000 00000000 01000000
    02 01000000 65 17 00";

const ANEW: &str =
    "0152414e4b494458 0200000000000000 1100000000000000 02 0000000000000000 00000000 00000000 00";

// The status, disk 0, disk 1, the call from which disk 0 fails, disk 0 and disk 1 then.
const OPENINGS: [(&str, &str, &str, u64, &str, &str); 15] = [
    ("0", "", "", 40, FIRST, ""),
    ("0", "", "00 ff", 40, FIRST, "00 ff"),
    ("0", FIRST, "", 40, FIRST, ""),
    ("0", "", WITH_E, 40, "", WITH_E),
    ("0", OLDER, "", 40, OLDER, ANEW),
    ("0", OLDER_AT_LAST, "", 40, OLDER_AT_LAST, ""),
    ("0", "", GONE, 40, GONE_ANEW, GONE),
    ("0 24 3", THREE, "", 40, THREE, ""),
    ("1 8 1", FIRST, FIRST, 40, FIRST, FIRST),
    ("0 37 255", INSIDE, "", 40, INSIDE, ""),
    ("0", TAKEN, "", 40, TAKEN, ""),
    ("0 50 1", NO_UID, "", 40, NO_UID, ""),
    ("6", FIRST, "", 0, FIRST, ""),
    ("6", "", "", 2, "", ""),
    ("6", "", "", 3, "", ""),
];

fn opened(rt: &impl Abort, alloc: Global, a: &str, b: &str, from: u64) -> Outcome {
    let disk_a = disk(rt, alloc, a, from);
    let disk_b = disk(rt, alloc, b, 40);
    run(rt, alloc, "", disk_a, disk_b)
}

fn check_content(rt: &impl Abort, alloc: Global, disk: &MemoryDisk, wanted: &str) {
    let wanted = bytes_of(rt, alloc, wanted);
    check(rt, disk.content() == wanted.as_slice(), "content");
}

// Runs on two disks, what the program says and what stands there then. Disk 0 fails from a call on.
#[test]
fn what_opening_two_disks_comes_to(rt: HostRuntime) {
    let alloc = rt.alloc();
    for (status, a, b, from, then_a, then_b) in &OPENINGS {
        let ran = opened(&rt, alloc, a, b, *from);
        check_text(&rt, &ran.status, status, "status");
        check_content(&rt, alloc, &ran.disk_a, then_a);
        check_content(&rt, alloc, &ran.disk_b, then_b);
    }
}

const NONE: &str = r#""results":[],"total":0}"#;

const E: &str = r#""results":[{"primaryKey":null,"uid":"e"}],"total":1}"#;

const E_AND_F: &str =
    r#""results":[{"primaryKey":null,"uid":"e"},{"primaryKey":null,"uid":"f"}],"total":2}"#;

const NOTHING: &str = "";

const FIRST_REPLY: &str =
    "HTTP/1.1 202 Accepted\r\ncontent-length: 71\r\ncontent-type: application/json\r\n\r\n\
    {\"indexUid\":\"e\",\"status\":\"enqueued\",\"taskUid\":0,\"type\":\"indexCreation\"}";

const BOTH_REPLIES: &str =
    "HTTP/1.1 202 Accepted\r\ncontent-length: 71\r\ncontent-type: application/json\r\n\r\n\
    {\"indexUid\":\"e\",\"status\":\"enqueued\",\"taskUid\":0,\"type\":\"indexCreation\"}\
    HTTP/1.1 202 Accepted\r\ncontent-length: 71\r\ncontent-type: application/json\r\n\r\n\
    {\"indexUid\":\"f\",\"status\":\"enqueued\",\"taskUid\":1,\"type\":\"indexCreation\"}";

// The call from which disk 0 fails, how many later writes the crash lets through, the status, what is told, and how the
// list of indexes ends then.
const STOPS: [(u64, u64, &str, &str, &str); 19] = [
    (4, 0, "6", NOTHING, NONE),
    (4, 1, "6", NOTHING, NONE),
    (5, 0, "6", NOTHING, NONE),
    (5, 1, "6", NOTHING, NONE),
    (6, 0, "6", NOTHING, NONE),
    (6, 1, "6", NOTHING, NONE),
    (7, 0, "6", NOTHING, NONE),
    (7, 1, "6", NOTHING, E),
    (8, 0, "6", NOTHING, NONE),
    (8, 1, "6", NOTHING, E),
    (9, 0, "6", FIRST_REPLY, E),
    (9, 1, "6", FIRST_REPLY, E),
    (10, 0, "6", FIRST_REPLY, E),
    (10, 1, "6", FIRST_REPLY, E),
    (11, 0, "6", FIRST_REPLY, E),
    (11, 1, "6", FIRST_REPLY, E_AND_F),
    (12, 0, "6", FIRST_REPLY, E),
    (12, 1, "6", FIRST_REPLY, E_AND_F),
    (13, 0, "0", BOTH_REPLIES, E_AND_F),
];

fn stopped(rt: &impl Abort, alloc: Global, from: u64) -> Outcome {
    let disk_a = disk(rt, alloc, FIRST, from);
    let disk_b = disk(rt, alloc, "", 40);
    run(rt, alloc, MAKE_E_AND_F, disk_a, disk_b)
}

// How the list of indexes ends after a crash.
fn check_listed(rt: &impl Abort, alloc: Global, ran: &Outcome, kept: u64, listed: &str) {
    let disk_a = crashed(rt, &ran.disk_a, kept);
    let disk_b = crashed(rt, &ran.disk_b, kept);
    let again = run(rt, alloc, LIST, disk_a, disk_b);
    check_text(rt, &again.status, "0", "status");
    check(rt, again.told.ends_with(listed), listed);
}

// A task is there or not after a crash, and there wherever its reply was begun, one that waits behind another too.
// Disk 0 holds no index and fails from a call on: opening makes the calls 0 to 4, the last of them a sync, recording
// the first task the calls 5 to 8, and the second, while the first waits, the calls 9 to 12.
#[test]
fn a_stop_while_a_task_waits_behind_another(rt: HostRuntime) {
    let alloc = rt.alloc();
    for (from, kept, status, told, listed) in &STOPS {
        let ran = stopped(&rt, alloc, *from);
        check_text(&rt, &ran.status, status, "status");
        check_text(&rt, &ran.told, told, listed);
        check_listed(&rt, alloc, &ran, *kept, listed);
    }
}

// Disk 0 fails from a call on while it gets an image of version 2. Whatever a crash lets through then, the index is
// there: it stands on disk 1, which an older program wrote, until it stands on disk 0. Opening makes the calls 0 to 2
// on disk 0, the last of them a sync, and its checkpoint the calls 3 to 12.
#[test]
fn a_stop_while_older_disks_are_made_anew(rt: HostRuntime) {
    let alloc = rt.alloc();
    for from in 0..14 {
        let ran = opened(&rt, alloc, "", OLDER_WITH_E, from);
        let status = if from < 13 { "6" } else { "0" };
        check_text(&rt, &ran.status, status, "status");
        check_listed(&rt, alloc, &ran, 0, E);
        check_listed(&rt, alloc, &ran, 1, E);
    }
}

const PATCH_HEAD: &[u8] =
    b"PATCH /indexes/e/settings HTTP/1.1\r\nContent-Length: 9000028\r\n\r\n{\"displayedAttributes\":[\"";

// How a disk begins after the second checkpoint, of no index, where tasks wait.
const CHECKPOINT: &str =
    "0152414e4b494458 0200000000000000 1100000000000000 02 0000000000000000 00000000 00000000 01
    0000000000000000";

// Adds a request that gives the settings of `e` one displayed attribute of nine million bytes.
fn add_patch(rt: &impl Abort, alloc: Global, letter: &str, input: &mut Vec<u8>) {
    let attribute = letter.repeat(alloc, 9_000_000).expect(rt, "memory");
    add(rt, input, PATCH_HEAD);
    add(rt, input, attribute.as_bytes());
    add(rt, input, b"\"]}");
}

// The second of two such patches makes the journal longer than 16 MiB, so that a checkpoint is made on disk 1: an image
// of no index, and both tasks, which still wait, as its journal.
#[test]
fn a_long_journal_ends_in_a_checkpoint(rt: HostRuntime) {
    let alloc = rt.alloc();
    let mut disk_a = disk(&rt, alloc, FIRST, 40);
    let mut disk_b = disk(&rt, alloc, "", 40);
    let mut input = Vec::new(alloc);
    add_patch(&rt, alloc, "a", &mut input);
    add_patch(&rt, alloc, "b", &mut input);
    let mut link = MemoryLink::new(alloc, input, Vec::new(alloc)).expect(&rt, "memory");
    let end = serve_on(&rt, alloc, &mut link, &mut disk_a, &mut disk_b);
    check(&rt, end.status.number() == 0, "status");
    check(&rt, end.requests == 2, "requests");
    check(&rt, end.passed == 0, "passed");
    let begins = bytes_of(&rt, alloc, CHECKPOINT);
    check(&rt, disk_b.content().len() > 18_000_000, "length");
    check(&rt, disk_b.content().starts_with(&begins), "begins");
}
