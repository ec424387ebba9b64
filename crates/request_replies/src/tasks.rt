// The replies that tell of tasks.
ghost use Rattle.std.specs.Prelude.{◌≡◌, IfOk, string_bytes};
ghost use Rattle.serde_json.specs.View.{view};
ghost use Rattle.http_wire.specs.Sent.{IsSentAs};
ghost use Rattle.task_queue.specs.Queue.{shown};
ghost use Rattle.request_replies.specs.Replies.{accepted, accepted_data, kind_name as name_of_kind, status_name as name_of_status, failure_data, failure_message as message_of_failure, error_data, task_data, task as task_answer};

use http::StatusCode;
use http_wire::{Reply, make_reply};
use request_refusals::task_code;
use search_base::NoMemory;
use serde_json::{Value, json};
use std::alloc::{AllocError, Global};
use task_queue::{TaskState, TaskView};

/// The reply to a change that was accepted as the task of this number: the uid of its index, and the byte of its kind,
/// as a recorded change begins with it. Its one error is want of memory.
pub fn accepted_reply(alloc: Global, uid: &str, kind: u8, number: u64) -> Result<Reply, NoMemory>
    ensures { IfOk result (λ reply. IsSentAs reply (accepted uid.now kind number)) }
{
    let value = accepted_value(alloc, uid, kind, number)?;
    let body = value.to_vec(alloc)?;
    make_reply(alloc, StatusCode::ACCEPTED, body)
}

/// The reply that tells what became of a task: whether it waits, has succeeded or has failed, and why. Its one error is
/// want of memory.
pub fn task_reply(alloc: Global, task: TaskView<'_>) -> Result<Reply, NoMemory>
    ensures { IfOk result (λ reply. IsSentAs reply (task_answer (shown task.entry))) }
{
    let value = task_value(alloc, task)?;
    let body = value.to_vec(alloc)?;
    make_reply(alloc, StatusCode::OK, body)
}

fn accepted_value(alloc: Global, uid: &str, kind: u8, number: u64) -> Result<Value, AllocError>
    ensures { IfOk result (λ value. view value ≡ accepted_data uid.now kind number) }
{
    let name = kind_name(kind);
    json!(in alloc; {"indexUid": uid, "status": "enqueued", "taskUid": number, "type": name})
}

fn task_value(alloc: Global, task: TaskView<'_>) -> Result<Value, AllocError>
    ensures { IfOk result (λ value. view value ≡ task_data (shown task.entry)) }
{
    let error = error_value(alloc, task.number, task.state)?;
    json!(in alloc; {
        "error": error,
        "indexUid": task.uid.as_str(),
        "status": status_name(task.state),
        "type": kind_name(task.kind),
        "uid": task.number,
    })
}

// What a change of this kind is called.
fn kind_name(kind: u8) -> &'static str
    ensures { result.now ≡ name_of_kind kind }
{
    match kind {
        1 => "indexCreation",
        2 => "indexDeletion",
        3 | 4 => "documentAdditionOrUpdate",
        5 | 6 => "documentDeletion",
        7 | 8 => "settingsUpdate",
        _ => "",
    }
}

fn status_name(state: TaskState) -> &'static str
    ensures { result.now ≡ name_of_status state }
{
    match state {
        TaskState::Enqueued => "enqueued",
        TaskState::Succeeded => "succeeded",
        TaskState::Failed { .. } => "failed",
    }
}

// Why a task failed, or null.
fn error_value(alloc: Global, number: u64, state: TaskState) -> Result<Value, AllocError>
    ensures { IfOk result (λ value. view value ≡ error_data number state) }
{
    match state {
        TaskState::Enqueued => Ok(Value::Null),
        TaskState::Succeeded => Ok(Value::Null),
        TaskState::Failed { row } => {
            let message = failure_message(alloc, number)?;
            failure_value(alloc, task_code(row), message.as_str())
        }
    }
}

fn failure_message(alloc: Global, number: u64) -> Result<String, AllocError>
    ensures { IfOk result (λ message. string_bytes message ≡ message_of_failure number) }
{
    format!(in alloc; "Task {number} was refused.")
}

fn failure_value(alloc: Global, code: &str, message: &str) -> Result<Value, AllocError>
    ensures { IfOk result (λ value. view value ≡ failure_data code.now message.now) }
{
    json!(in alloc; {"code": code, "message": message, "type": "invalid_request"})
}
