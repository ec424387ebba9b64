use crate::calls::{call_of, refusal, reply_text};
use crate::checks::{check, check_text, string, word};
use http_wire::Reply;
use request_calls::{Call, ReadCall};
use request_refusals::{TaskRefusal, task_code};
use request_replies::{accepted_reply, task_reply};
use std::alloc::Global;
use std::process::Abort;
use task_queue::{TaskState, TaskView};

// A target, and the number of the task that a request asks for, or the reply that refuses it.
const NUMBERS: &str = r#"/tasks/0~0
/tasks/9~9
/tasks/10~10
/tasks/1000000000~1000000000
/tasks/1000000000000000000~1000000000000000000
/tasks/9999999999999999999~9999999999999999999
/tasks/7?~7
/tasks/00~uid
/tasks/07~uid
/tasks/0000000000000000001~uid
/tasks/10000000000000000000~uid
/tasks/18446744073709551615~uid
/tasks/18446744073709551616~uid
/tasks/-1~uid
/tasks/+1~uid
/tasks/1.0~uid
/tasks/1e3~uid
/tasks/ 1~uid
/tasks/%31~uid
/tasks/m~uid
/tasks/m?zz=1~uid
/tasks/7?zz=1~`zz`
/tasks/~route
/tasks~route
/tasks/7/~route"#;

fn wanted_number(rt: &impl Abort, alloc: Global, wanted: &str) -> String {
    match wanted {
        "uid" => refusal(rt, alloc, "400", "invalid_task_uid", "Invalid task uid."),
        "`zz`" => refusal(
            rt,
            alloc,
            "400",
            "bad_request",
            "Unknown or malformed `zz`.",
        ),
        "route" => refusal(rt, alloc, "404", "not_found", "No such route."),
        number => string(rt, alloc, number),
    }
}

// The number of the task that a request asks for, or the reply that refuses it.
fn asked_number(rt: &impl Abort, alloc: Global, target: &str) -> String {
    match &call_of(rt, alloc, "GET", target, "") {
        Call::Read(ReadCall::Task { number }) => {
            format!(in alloc; "{number}").expect(rt, "memory")
        }
        Call::Refused(reply) => reply_text(rt, alloc, reply),
        _ => string(rt, alloc, "no task"),
    }
}

#[test]
fn each_form_of_a_number(rt: HostRuntime) {
    let alloc = rt.alloc();
    for row in NUMBERS.lines() {
        let (target, wanted) = row.split_once('~').unwrap_or((row, ""));
        let wanted = wanted_number(&rt, alloc, wanted);
        check_text(&rt, &asked_number(&rt, alloc, target), &wanted, row);
    }
}

// The byte of a kind, and the reply to a change of it that was accepted.
const ACCEPTED: [(u8, &str); 9] = [
    (1, "indexCreation"),
    (2, "indexDeletion"),
    (3, "documentAdditionOrUpdate"),
    (4, "documentAdditionOrUpdate"),
    (5, "documentDeletion"),
    (6, "documentDeletion"),
    (7, "settingsUpdate"),
    (8, "settingsUpdate"),
    (9, ""),
];

fn accepted_text(rt: &impl Abort, alloc: Global, kind: &str, number: u64) -> String {
    let text = format!(in alloc;
        "202 {{\"indexUid\":\"m\",\"status\":\"enqueued\",\"taskUid\":{number},\"type\":\"{kind}\"}}"
    );
    text.expect(rt, "memory")
}

fn check_accepted(rt: &impl Abort, alloc: Global, kind: u8, name: &str, number: u64) {
    let reply = accepted_reply(alloc, "m", kind, number).expect(rt, "memory");
    let wanted = accepted_text(rt, alloc, name, number);
    check_text(rt, &reply_text(rt, alloc, &reply), &wanted, name);
}

#[test]
fn replies_to_accepted_changes(rt: HostRuntime) {
    for (kind, name) in &ACCEPTED {
        check_accepted(&rt, rt.alloc(), *kind, name, 0);
        check_accepted(&rt, rt.alloc(), *kind, name, 999_999_999);
    }
}

// The number of a task, the byte of its kind, where it stands, and the reply that tells of it.
const TOLD: [(u64, u8, TaskState, &str); 5] = [
    (
        0,
        3,
        TaskState::Enqueued,
        r#"200 {"error":null,"indexUid":"m","status":"enqueued","type":"documentAdditionOrUpdate","uid":0}"#,
    ),
    (
        12,
        7,
        TaskState::Succeeded,
        r#"200 {"error":null,"indexUid":"m","status":"succeeded","type":"settingsUpdate","uid":12}"#,
    ),
    (
        999_999_999,
        1,
        TaskState::Failed { row: 24 },
        "200 {\"error\":{\"code\":\"index_already_exists\",\"message\":\"Task 999999999 was refused.\",\
    \"type\":\"invalid_request\"},\"indexUid\":\"m\",\"status\":\"failed\",\
    \"type\":\"indexCreation\",\"uid\":999999999}",
    ),
    (
        1,
        3,
        TaskState::Failed { row: 27 },
        "200 {\"error\":{\"code\":\"index_primary_key_no_candidate_found\",\"message\":\"Task 1 was refused.\",\
    \"type\":\"invalid_request\"},\"indexUid\":\"m\",\"status\":\"failed\",\
    \"type\":\"documentAdditionOrUpdate\",\"uid\":1}",
    ),
    (
        2,
        6,
        TaskState::Failed { row: 23 },
        "200 {\"error\":{\"code\":\"index_not_found\",\"message\":\"Task 2 was refused.\",\
    \"type\":\"invalid_request\"},\"indexUid\":\"m\",\"status\":\"failed\",\
    \"type\":\"documentDeletion\",\"uid\":2}",
    ),
];

fn told(rt: &impl Abort, alloc: Global, number: u64, kind: u8, state: TaskState) -> Reply {
    let uid = word(rt, alloc, "m");
    let view = TaskView {
        number,
        uid: &uid,
        kind,
        state,
    };
    task_reply(alloc, view).expect(rt, "memory")
}

#[test]
fn replies_that_tell_of_tasks(rt: HostRuntime) {
    let alloc = rt.alloc();
    for (number, kind, state, wanted) in &TOLD {
        let reply = told(&rt, alloc, *number, *kind, *state);
        check_text(&rt, &reply_text(&rt, alloc, &reply), wanted, wanted);
    }
}

// Why a task fails, its number, and its code.
const REFUSALS: [(TaskRefusal, u8, &str); 10] = [
    (TaskRefusal::NoIndex, 23, "index_not_found"),
    (TaskRefusal::IndexExists, 24, "index_already_exists"),
    (
        TaskRefusal::KeyDiffers,
        26,
        "index_primary_key_already_exists",
    ),
    (
        TaskRefusal::NoCandidate,
        27,
        "index_primary_key_no_candidate_found",
    ),
    (
        TaskRefusal::SeveralCandidates,
        28,
        "index_primary_key_multiple_candidates_found",
    ),
    (TaskRefusal::MissingId, 29, "missing_document_id"),
    (TaskRefusal::BadId, 30, "invalid_document_id"),
    (TaskRefusal::IndexesSpent, 32, "indexes_spent"),
    (TaskRefusal::IdsSpent, 33, "ids_spent"),
    (TaskRefusal::PathsSpent, 34, "paths_spent"),
];

#[test]
fn each_refusal_of_a_task(rt: HostRuntime) {
    for (why, row, code) in &REFUSALS {
        check(&rt, why.row() == *row, code);
        check_text(&rt, task_code(*row), code, code);
    }
    for row in [0, 22, 25, 31, 35, 255] {
        check_text(&rt, task_code(row), "", "no task is refused by it");
    }
}
