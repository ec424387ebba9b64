ghost use Rattle.std.specs.Prelude.{◌≡◌, false};

use crate::checks::{bytes, check, check_text, silent, text_of};
use crate::disks::empty_disk;
use bucket_sort::BucketLog;
use link_doors::{Door, MemoryDoor};
use outside_io::MemoryLink;
use search_base::Steps;
use search_server::{Status, run_search_server};
use std::alloc::Global;
use std::process::Abort;

// What a run of the program came to.
#[derive(Drop)]
struct Outcome {
    status: u8,
    // What was written to the pipe.
    told: String,
    // What was written on the links that were given back, each before a bar.
    answers: String,
}

// The words between blanks; `_` stands for a blank in a word.
fn words_in(rt: &impl Abort, alloc: Global, text: &str) -> Vec<String> {
    let mut words = Vec::new(alloc);
    for word in text.split(' ') {
        if !word.is_empty() {
            let spaced = word.replace(alloc, "_", " ").expect(rt, "memory");
            words.push(spaced).expect(rt, "memory");
        }
    }
    words
}

// The numbers of one digit each.
fn digits(rt: &impl Abort, alloc: Global, text: &str) -> Vec<u64> {
    let mut numbers = Vec::new(alloc);
    for byte in text.bytes() {
        let number = u64::from(byte.saturating_sub(b'0'));
        numbers.push(number).expect(rt, "memory");
    }
    numbers
}

fn link(rt: &impl Abort, alloc: Global, input: &str, fails: &str) -> MemoryLink {
    let failing = digits(rt, alloc, fails);
    MemoryLink::new(alloc, bytes(rt, alloc, input.as_bytes()), failing).expect(rt, "memory")
}

// The links of these inputs, which stand between bars.
fn links(rt: &impl Abort, alloc: Global, inputs: &str) -> Vec<MemoryLink> {
    let mut links = Vec::new(alloc);
    for input in inputs.split('|') {
        links.push(link(rt, alloc, input, "")).expect(rt, "memory");
    }
    links
}

// Runs the program with two empty disks.
fn run_on(
    rt: &impl Abort,
    alloc: Global,
    words: &[String],
    pipe: &mut MemoryLink,
    door: &mut MemoryDoor,
) -> Status
    requires { door.old.is_out ≡ false }
{
    let log: Box<dyn BucketLog> = silent(rt, alloc);
    let mut fetches: Steps<()> = Steps::new();
    let mut openings: Steps<()> = Steps::new();
    let mut disk_a = empty_disk(rt, alloc);
    let mut disk_b = empty_disk(rt, alloc);
    run_search_server(
        alloc,
        words,
        pipe,
        door,
        &mut disk_a,
        &mut disk_b,
        log,
        &mut fetches,
        &mut openings,
    )
}

fn answers_of(rt: &impl Abort, alloc: Global, door: &MemoryDoor) -> String {
    let mut answers = String::new(alloc);
    for link in door.returned() {
        let text = text_of(rt, link.written());
        answers.push_str(text).expect(rt, "memory");
        answers.push_str("|").expect(rt, "memory");
    }
    answers
}

// Runs the program with a pipe that gives no bytes and fails at these calls, and a door of these links.
fn run(
    rt: &impl Abort,
    alloc: Global,
    words: &str,
    pipe_fails: &str,
    inputs: &str,
    door_fails: &str,
) -> Outcome {
    let words = words_in(rt, alloc, words);
    let mut pipe = link(rt, alloc, "", pipe_fails);
    let links = links(rt, alloc, inputs);
    let failing = digits(rt, alloc, door_fails);
    let mut door = MemoryDoor::new(alloc, links, failing).expect(rt, "memory");
    let status = run_on(rt, alloc, &words, &mut pipe, &mut door);
    let told = text_of(rt, pipe.written());
    Outcome {
        status: status.number(),
        told: told.to_string(alloc).expect(rt, "memory"),
        answers: answers_of(rt, alloc, &door),
    }
}

fn check_run(rt: &impl Abort, run: &Outcome, status: u8, told: &str, answers: &str, row: &str) {
    check(rt, run.status == status, row);
    check_text(rt, &run.told, told, row);
    check_text(rt, &run.answers, answers, row);
}

const HEALTH: &str = "GET /health HTTP/1.1\r\nHost: x\r\n\r\n";

const NO_COMMANDS: [&str; 29] = [
    "",
    "Pipe",
    "pipes",
    "pipe pipe",
    "serve",
    "serve 7700",
    "serve 0 1",
    "serve 65536 1",
    "serve 7700 0",
    "serve 7700 1000001",
    "serve 07700 1",
    "serve 7700 01",
    "serve +7700 1",
    "serve -1 1",
    "serve 7700_ 1",
    "serve _7700 1",
    "serve 7700 1 1",
    "serve 7700 18446744073709551617",
    "demo",
    "demo 1",
    "demo 01 1",
    "demo 1 0",
    "demo 1 2147483647",
    "demo 100001 1",
    "demo 1 1 1",
    "demo +1 1",
    "demo 00 1",
    "demo 1 x",
    "Demo 1 1",
];

fn check_no_command(rt: &impl Abort, alloc: Global, words: &str) {
    let run = run(rt, alloc, words, "", HEALTH, "");
    check_run(rt, &run, 2, "", "", words);
}

#[test]
fn words_that_are_no_command(rt: HostRuntime) {
    for words in &NO_COMMANDS {
        check_no_command(&rt, rt.alloc(), words);
    }
}

const TWO: &str = "GET /health HTTP/1.1\r\nHost: x\r\n\r\n|GET /health HT";

// The second link finds the task of the first, which runs behind the first reply on it.
const MADE_AND_SHOWN: &str = "POST /indexes HTTP/1.1\r\ncontent-length: 11\r\n\r\n{\"uid\":\"m\"}|\
    GET /tasks/0 HTTP/1.1\r\n\r\nGET /indexes/m HTTP/1.0\r\n\r\n";

const REFUSED: &str = "POST /indexes HTTP/1.1\r\n\r\n|";

const HEALTHY: &str =
    "HTTP/1.1 200 OK\r\ncontent-length: 22\r\ncontent-type: application/json\r\n\r\n\
    {\"status\":\"available\"}|";

const HEALTHY_AND_CUT: &str =
    "HTTP/1.1 200 OK\r\ncontent-length: 22\r\ncontent-type: application/json\r\n\r\n\
    {\"status\":\"available\"}||";

const MADE_AND_SEEN: &str =
    "HTTP/1.1 202 Accepted\r\ncontent-length: 71\r\ncontent-type: application/json\r\n\r\n\
    {\"indexUid\":\"m\",\"status\":\"enqueued\",\"taskUid\":0,\"type\":\"indexCreation\"}|\
    HTTP/1.1 200 OK\r\ncontent-length: 80\r\ncontent-type: application/json\r\n\r\n\
    {\"error\":null,\"indexUid\":\"m\",\"status\":\"enqueued\",\"type\":\"indexCreation\",\"uid\":0}\
    HTTP/1.1 200 OK\r\ncontent-length: 29\r\ncontent-type: application/json\r\nconnection: close\r\n\r\n\
    {\"primaryKey\":null,\"uid\":\"m\"}|";

const NO_LENGTH: &str =
    "HTTP/1.1 411 Length Required\r\ncontent-length: 80\r\ncontent-type: application/json\r\n\
    connection: close\r\n\r\n{\"code\":\"length_required\",\"message\":\"Length required.\",\
    \"type\":\"invalid_request\"}||";

const FIRST: &str = "link 1 status 0 requests 1\n";

const BOTH: &str = "link 1 status 0 requests 1\nlink 2 status 8 requests 0\n";

const DONE: &str = "link 1 status 0 requests 1\nlink 2 status 0 requests 2\n";

const BAD: &str = "link 1 status 9 requests 0\nlink 2 status 0 requests 0\n";

// The words, calls of the pipe and of the door that fail, links, the status, what the pipe is told, and answers.
struct Row {
    words: &'static str,
    pipe_fails: &'static str,
    door_fails: &'static str,
    inputs: &'static str,
    status: u8,
    told: &'static str,
    answers: &'static str,
}

const ROWS: [Row; 9] = [
    Row {
        words: "serve 7700 3",
        pipe_fails: "",
        door_fails: "",
        inputs: TWO,
        status: 0,
        told: BOTH,
        answers: HEALTHY_AND_CUT,
    },
    Row {
        words: "serve 7700 3",
        pipe_fails: "",
        door_fails: "0",
        inputs: TWO,
        status: 5,
        told: "",
        answers: "",
    },
    Row {
        words: "serve 7700 3",
        pipe_fails: "",
        door_fails: "1",
        inputs: TWO,
        status: 5,
        told: "",
        answers: "",
    },
    Row {
        words: "serve 7700 3",
        pipe_fails: "",
        door_fails: "2",
        inputs: TWO,
        status: 5,
        told: FIRST,
        answers: HEALTHY,
    },
    Row {
        words: "serve 7700 3",
        pipe_fails: "0",
        door_fails: "",
        inputs: TWO,
        status: 4,
        told: "",
        answers: HEALTHY,
    },
    Row {
        words: "serve 7700 3",
        pipe_fails: "1",
        door_fails: "",
        inputs: TWO,
        status: 4,
        told: FIRST,
        answers: HEALTHY_AND_CUT,
    },
    Row {
        words: "serve 7700 1",
        pipe_fails: "",
        door_fails: "",
        inputs: TWO,
        status: 0,
        told: FIRST,
        answers: HEALTHY,
    },
    Row {
        words: "serve 65535 1000000",
        pipe_fails: "",
        door_fails: "",
        inputs: MADE_AND_SHOWN,
        status: 0,
        told: DONE,
        answers: MADE_AND_SEEN,
    },
    Row {
        words: "serve 1 2",
        pipe_fails: "",
        door_fails: "",
        inputs: REFUSED,
        status: 0,
        told: BAD,
        answers: NO_LENGTH,
    },
];

fn check_row(rt: &impl Abort, alloc: Global, row: &Row) {
    let (words, pipe_fails, door_fails) = (row.words, row.pipe_fails, row.door_fails);
    let run = run(rt, alloc, words, pipe_fails, row.inputs, door_fails);
    check_run(rt, &run, row.status, row.told, row.answers, words);
}

#[test]
fn links_of_a_door_are_served_one_after_the_other(rt: HostRuntime) {
    for row in &ROWS {
        check_row(&rt, rt.alloc(), row);
    }
}

const NO_DOCUMENT: &str =
    "documents 0\nsearch 1 total 0 ids\nsearch 2 total 0 ids\nsearch 3 total 0 ids\nsearch 4 total 0 ids\n\
    search 5 total 0 ids\nsearch 6 total 0 ids\nsearch 7 total 0 ids\nsearch 8 total 0 ids\nsearch 9 total 0 ids\n\
    search 10 total 0 ids\n";

const ONE_DOCUMENT: &str =
    "documents 1\nsearch 1 total 1 ids 1\nsearch 2 total 0 ids\nsearch 3 total 0 ids\nsearch 4 total 0 ids\n\
    search 5 total 0 ids\nsearch 6 total 1 ids 1\nsearch 7 total 1 ids\nsearch 8 total 0 ids\nsearch 9 total 0 ids\n\
    search 10 total 0 ids\n";

// The words, calls of the pipe that fail, the status and what the pipe is told.
const DEMOS: [(&str, &str, u8, &str); 3] = [
    ("demo 0 1", "", 0, NO_DOCUMENT),
    ("demo 1 1", "", 0, ONE_DOCUMENT),
    ("demo 1 1", "0", 4, ""),
];

fn check_demo(
    rt: &impl Abort,
    alloc: Global,
    words: &str,
    pipe_fails: &str,
    status: u8,
    told: &str,
) {
    let run = run(rt, alloc, words, pipe_fails, HEALTH, "");
    check_run(rt, &run, status, told, "", words);
}

#[test]
fn a_demo_is_shown(rt: HostRuntime) {
    for (words, pipe_fails, status, told) in &DEMOS {
        check_demo(&rt, rt.alloc(), words, pipe_fails, *status, told);
    }
}

#[test]
fn a_demo_is_the_same_again(rt: HostRuntime) {
    let first = run(&rt, rt.alloc(), "demo 2000 7", "", "", "");
    let second = run(&rt, rt.alloc(), "demo 2000 7", "", "", "");
    let begins = first.told.starts_with("documents 2000\nsearch 1 total ");
    check(&rt, begins, "begins");
    check_text(&rt, &first.told, &second.told, "again");
}
