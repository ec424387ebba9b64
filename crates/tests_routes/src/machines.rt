use crate::checks::{check, check_text, word};
use bucket_sort::{BucketLog, SilentLog};
use change_payloads::ImageFault;
use http_wire::{Reply, Wire};
use search_base::Steps;
use search_routes::{Machine, answer, is_followed};
use std::alloc::Global;
use std::process::Abort;
use std::str;

// Requests to a machine that may accept one more task.
const LAST_TASK: &str =
    r#"POST~/indexes/m/documents~{"id":1}~202 {"indexUid":"m","status":"enqueued","taskUid":999999999,
"type":"documentAdditionOrUpdate"}

GET~/tasks/999999999~~200 {"error":null,"indexUid":"m","status":"enqueued","type":"documentAdditionOrUpdate",
"uid":999999999}

GET~/tasks/999999999~~200 {"error":null,"indexUid":"m","status":"succeeded","type":"documentAdditionOrUpdate",
"uid":999999999}

GET~/tasks/1000000000~~404 {"code":"task_not_found","message":"No task 1000000000.","type":"invalid_request"}

POST~/indexes/m/documents~[]~400 {"code":"changes_spent","message":"No more changes.","type":"invalid_request"}

PATCH~/indexes/z/settings~{}~400 {"code":"changes_spent","message":"No more changes.","type":"invalid_request"}

DELETE~/indexes/m~~400 {"code":"changes_spent","message":"No more changes.","type":"invalid_request"}

POST~/indexes/m/documents~{}~400 {"code":"changes_spent","message":"No more changes.","type":"invalid_request"}

POST~/indexes/m/documents~[~400 {"code":"malformed_payload","message":"The body is not JSON.",
"type":"invalid_request"}"#;

// Three tasks, of which the first two have run: one was refused.
const ONE_WAITS: &str =
    r#"POST~/indexes~{"uid":"a"}~202 {"indexUid":"a","status":"enqueued","taskUid":0,"type":"indexCreation"}

DELETE~/indexes/b~~202 {"indexUid":"b","status":"enqueued","taskUid":1,"type":"indexDeletion"}

POST~/indexes~{"uid":"b"}~202 {"indexUid":"b","status":"enqueued","taskUid":2,"type":"indexCreation"}

GET~/health~~200 {"status":"available"}

GET~/indexes~~200 {"limit":20,"offset":0,"results":[{"primaryKey":null,"uid":"a"}],"total":1}"#;

// What is told of them then, and by a machine of the image, which keeps what became of the tasks that have run.
const STILL_THERE: &str =
    r#"GET~/tasks/1~~200 {"error":{"code":"index_not_found","message":"Task 1 was refused.",
"type":"invalid_request"},"indexUid":"b","status":"failed","type":"indexDeletion","uid":1}

GET~/indexes/b~~200 {"primaryKey":null,"uid":"b"}"#;

const OPENED_AGAIN: &str =
    r#"GET~/tasks/1~~200 {"error":{"code":"index_not_found","message":"Task 1 was refused.",
"type":"invalid_request"},"indexUid":"b","status":"failed","type":"indexDeletion","uid":1}

GET~/tasks/2~~404 {"code":"task_not_found","message":"No task 2.","type":"invalid_request"}

GET~/indexes~~200 {"limit":20,"offset":0,"results":[{"primaryKey":null,"uid":"a"}],"total":1}

DELETE~/indexes/a~~202 {"indexUid":"a","status":"enqueued","taskUid":2,"type":"indexDeletion"}"#;

// Two tasks of one index, which run together: the first is refused.
const ONE_REFUSED: &str =
    r#"POST~/indexes/n/documents~[{"title":"x"}]~202 {"indexUid":"n","status":"enqueued","taskUid":0,
"type":"documentAdditionOrUpdate"}

POST~/indexes/n/documents~[{"id":1}]~202 {"indexUid":"n","status":"enqueued","taskUid":1,
"type":"documentAdditionOrUpdate"}

GET~/tasks/0~~200 {"error":null,"indexUid":"n","status":"enqueued","type":"documentAdditionOrUpdate","uid":0}"#;

// What is told of them then, and by a machine of the image.
const REFUSED_AND_DONE: &str =
    r#"GET~/tasks/0~~200 {"error":{"code":"index_primary_key_no_candidate_found","message":"Task 0 was refused.",
"type":"invalid_request"},"indexUid":"n","status":"failed","type":"documentAdditionOrUpdate","uid":0}

GET~/tasks/1~~200 {"error":null,"indexUid":"n","status":"succeeded","type":"documentAdditionOrUpdate","uid":1}

GET~/tasks/9~~404 {"code":"task_not_found","message":"No task 9.","type":"invalid_request"}"#;

// The end of the image: how many outcomes, and each with its kind, its uid and its row.
const TWO_OUTCOMES: [u8; 18] = [2, 0, 0, 0, 3, 1, 0, 0, 0, b'n', 27, 3, 1, 0, 0, 0, b'n', 0];

// What a machine tells of the first and the last of 1,001 tasks, and after 1,000 of them.
const FIRST_FORGOTTEN: &str =
    r#"GET~/tasks/0~~404 {"code":"task_not_found","message":"No task 0.","type":"invalid_request"}

GET~/tasks/1~~200 {"error":{"code":"index_not_found","message":"Task 1 was refused.",
"type":"invalid_request"},"indexUid":"b","status":"failed","type":"indexDeletion","uid":1}

GET~/tasks/1000~~200 {"error":{"code":"index_not_found","message":"Task 1000 was refused.",
"type":"invalid_request"},"indexUid":"b","status":"failed","type":"indexDeletion","uid":1000}"#;

const NONE_FORGOTTEN: &str =
    r#"GET~/tasks/0~~200 {"error":{"code":"index_not_found","message":"Task 0 was refused.",
"type":"invalid_request"},"indexUid":"b","status":"failed","type":"indexDeletion","uid":0}

GET~/tasks/1000~~404 {"code":"task_not_found","message":"No task 1000.","type":"invalid_request"}"#;

// Images of no indexes: of a new machine, and, of the version without outcomes, of one that may accept one more task.
const NEW_IMAGE: [u8; 17] = [2, 0, 0, 0, 0, 0, 0, 0, 0, 0, 0, 0, 0, 0, 0, 0, 0];

const LAST_TASK_IMAGE: [u8; 13] = [1, 0xff, 0xc9, 0x9a, 0x3b, 0, 0, 0, 0, 0, 0, 0, 0];

pub(crate) fn new_machine(rt: &impl Abort, alloc: Global) -> Machine {
    Machine::new(alloc).expect(rt, "memory")
}

// The machine of an image.
fn opened(rt: &impl Abort, alloc: Global, image: &[u8]) -> Machine {
    let mut fetches: Steps<()> = Steps::new();
    Machine::open(alloc, image, &mut fetches).expect(rt, "a machine")
}

fn wire(rt: &impl Abort, alloc: Global, method: &str, target: &str, body: &str) -> Wire {
    Wire {
        method: word(rt, alloc, method),
        target: word(rt, alloc, target),
        body: body.as_bytes().to_vec(alloc).expect(rt, "memory"),
        closes: false,
    }
}

fn reply_text(rt: &impl Abort, alloc: Global, reply: &Reply) -> String {
    let text = match reply {
        Reply::Made { status, body, .. } => {
            format!(in alloc; "{status} {}", str::from_utf8(body).unwrap_or("no text"))
        }
        Reply::Memory => "memory".to_string(alloc),
    };
    text.expect(rt, "memory")
}

// The status and the body of the reply to a request, behind which the oldest batch runs where one is to.
fn reply_to(
    rt: &impl Abort,
    alloc: Global,
    machine: &mut Machine,
    method: &str,
    target: &str,
    body: &str,
) -> String {
    let wire = wire(rt, alloc, method, target, body);
    let log = Box::new(alloc, SilentLog).expect(rt, "memory");
    let mut log: Box<dyn BucketLog> = log;
    let mut fetches: Steps<()> = Steps::new();
    let mut openings: Steps<()> = Steps::new();
    let reply = answer(alloc, machine, wire, &mut log, &mut fetches, &mut openings);
    if is_followed(&reply) {
        machine.settle(alloc, &mut fetches).expect(rt, "memory");
    }
    reply_text(rt, alloc, &reply)
}

fn check_row(rt: &impl Abort, alloc: Global, machine: &mut Machine, row: &str) {
    let mut parts = row.split('~');
    let method = parts.next().unwrap_or("");
    let target = parts.next().unwrap_or("");
    let body = parts.next().unwrap_or("");
    let found = reply_to(rt, alloc, machine, method, target, body);
    check_text(rt, &found, parts.next().unwrap_or(""), row);
}

pub(crate) fn check_table(rt: &impl Abort, alloc: Global, machine: &mut Machine, table: &str) {
    let mut row = String::new(alloc);
    for line in table.lines() {
        if line.is_empty() {
            check_row(rt, alloc, machine, &row);
            row.clear();
        }
        row.push_str(line).expect(rt, "memory");
    }
    check_row(rt, alloc, machine, &row);
}

#[test]
fn the_image_of_a_new_machine(rt: HostRuntime) {
    let new = new_machine(&rt, rt.alloc());
    let image = new.image(rt.alloc()).expect(&rt, "memory");
    check(&rt, image.as_slice() == NEW_IMAGE.as_slice(), "image");
    let machine = opened(&rt, rt.alloc(), &image);
    check(&rt, machine.accepted() == 0, "no task");
}

// The same with another last byte.
fn ended_by(rt: &impl Abort, alloc: Global, image: &[u8], last: u8) -> Vec<u8> {
    let mut other = image.to_vec(alloc).expect(rt, "memory");
    other.pop();
    other.push(last).expect(rt, "memory");
    other
}

// Whether an image with another last byte is damaged there.
fn check_damage(rt: &impl Abort, alloc: Global, image: &[u8], last: u8) {
    let image = ended_by(rt, alloc, image, last);
    let mut fetches: Steps<()> = Steps::new();
    let is_damaged = match Machine::open(alloc, &image, &mut fetches) {
        Err(ImageFault::Damaged { place, found }) => {
            place == (image.len() as u64).saturating_sub(1) && found == Some(last)
        }
        _ => false,
    };
    check(rt, is_damaged, "damage");
}

// A machine after so many tasks, each of which was refused.
fn refused_machine(rt: &impl Abort, alloc: Global, count: u64) -> Machine {
    let mut machine = new_machine(rt, alloc);
    for _ in 0..count {
        let _accepted = reply_to(rt, alloc, &mut machine, "DELETE", "/indexes/b", "");
        let _told = reply_to(rt, alloc, &mut machine, "GET", "/health", "");
    }
    machine
}

// The machine of its image, which keeps 1,000 outcomes of tasks.
fn opened_again(rt: &impl Abort, alloc: Global, machine: &Machine) -> Machine {
    let image = machine.image(alloc).expect(rt, "memory");
    check(rt, image.len() == 17 + 1_000 * 7, "a thousand outcomes");
    opened(rt, alloc, &image)
}

#[test]
fn the_image_after_a_task_was_refused(rt: HostRuntime) {
    let alloc = rt.alloc();
    let mut machine = new_machine(&rt, alloc);
    check_table(&rt, alloc, &mut machine, ONE_REFUSED);
    check_table(&rt, alloc, &mut machine, REFUSED_AND_DONE);
    let image = machine.image(alloc).expect(&rt, "memory");
    let ends = image.as_slice().ends_with(TWO_OUTCOMES.as_slice());
    check(&rt, ends, "outcomes");
    let mut again = opened(&rt, alloc, &image);
    check_table(&rt, alloc, &mut again, REFUSED_AND_DONE);
    check_damage(&rt, alloc, &image, 5);
}

#[test]
fn the_image_after_a_thousand_tasks(rt: HostRuntime) {
    let alloc = rt.alloc();
    let machine = refused_machine(&rt, alloc, 1_000);
    let mut again = opened_again(&rt, alloc, &machine);
    check_table(&rt, alloc, &mut again, NONE_FORGOTTEN);
}

#[test]
fn the_image_after_one_task_more(rt: HostRuntime) {
    let alloc = rt.alloc();
    let machine = refused_machine(&rt, alloc, 1_001);
    let mut again = opened_again(&rt, alloc, &machine);
    check_table(&rt, alloc, &mut again, FIRST_FORGOTTEN);
}

#[test]
fn the_last_task_that_is_accepted(rt: HostRuntime) {
    let mut machine = opened(&rt, rt.alloc(), &LAST_TASK_IMAGE);
    check_table(&rt, rt.alloc(), &mut machine, LAST_TASK);
    check(&rt, machine.accepted() == 1_000_000_000, "tasks");
}

#[test]
fn the_image_while_a_task_waits(rt: HostRuntime) {
    let alloc = rt.alloc();
    let mut machine = new_machine(&rt, alloc);
    check_table(&rt, alloc, &mut machine, ONE_WAITS);
    check(&rt, machine.queued().len() == 1, "one waits");
    let image = machine.image(alloc).expect(&rt, "memory");
    let mut again = opened(&rt, alloc, &image);
    check_table(&rt, alloc, &mut machine, STILL_THERE);
    check_table(&rt, alloc, &mut again, OPENED_AGAIN);
}
