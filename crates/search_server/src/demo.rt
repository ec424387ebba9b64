// The demo: what a machine answers to many documents that are made from one number.
ghost use Rattle.std.specs.Prelude.{◌≡◌, ◌+◌, ◌++◌, ◌≤◌, false, IfOk, OnOk, string_bytes};
ghost use Rattle.http_wire.specs.Wire.{request_of};
ghost use Rattle.demo_input.specs.Steps.{steps};
ghost use Rattle.demo_input.specs.Summary.{line_for};
ghost use Rattle.search_routes.specs.State.{empty_state};
ghost use Rattle.search_routes.specs.Chosen.{answer_of, state_after};
ghost use Rattle.search_routes.specs.Needs.{needed_fetches};
ghost use Rattle.search_routes.specs.Openings.{most_opened_by};
ghost use Rattle.search_server.specs.Demo.{ShowsDemo, demo_needs, demo_openings, demo_text as text_of_demo};

use crate::Status;
use bucket_sort::BucketLog;
use demo_input::{Demo, Step, first_line, search_line};
use http_wire::{Reply, Wire, write_all};
use outside_io::{Failed, Link};
use search_base::{NoMemory, Steps};
use search_routes::{Machine, perform, read_call};
use std::alloc::Global;

// The status of the reply for want of memory, which no other reply has.
const NO_MEMORY: u16 = 503;

// The body of the reply to a request, which is let go before its call is performed.
fn reply_body<F, G>(
    alloc: Global,
    machine: &mut Machine,
    wire: Wire,
    log: &mut Box<dyn BucketLog>,
    fetches: &mut Steps<F>,
    openings: &mut Steps<G>,
) -> Result<Vec<u8>, NoMemory>
    ensures body { IfOk result (λ body. body.items ≡ (answer_of machine.old (request_of wire) false).body) }
    ensures state { OnOk result (machine.new ≡ state_after machine.old (request_of wire) false) }
    ensures fetched { fetches.new ≤ fetches.old + needed_fetches machine.old (request_of wire) }
    ensures few { openings.new ≤ openings.old + most_opened_by machine.old (request_of wire) }
{
    let call = read_call(alloc, machine.table(), &wire)?;
    drop(wire);
    match perform(alloc, machine, call, log, fetches, openings) {
        Reply::Made { status, body, .. } if status != NO_MEMORY => Ok(body),
        _ => Err(NoMemory),
    }
}

// Adds the line of a request, if it has one.
fn add_line(
    alloc: Global,
    text: &mut String,
    search: Option<u8>,
    body: &[u8],
) -> Result<(), NoMemory>
    ensures { OnOk result (string_bytes text.new ≡ string_bytes text.old ++ line_for search body.now) }
{
    if let Some(number) = search {
        text.push_str(&search_line(alloc, number, body)?)?;
    }
    Ok(())
}

// All that the demo prints. Behind each reply all tasks that wait run.
fn demo_text<F, G>(
    alloc: Global,
    count: u32,
    seed: u32,
    log: &mut Box<dyn BucketLog>,
    fetches: &mut Steps<F>,
    openings: &mut Steps<G>,
) -> Result<String, NoMemory>
    ensures text { IfOk result (λ text. string_bytes text ≡ text_of_demo count seed) }
    ensures fetched { fetches.new ≤ fetches.old + demo_needs empty_state (steps count seed) }
    ensures few { openings.new ≤ openings.old + demo_openings empty_state (steps count seed) }
{
    let mut machine = Machine::new(alloc)?;
    let mut demo = Demo::new(count, seed);
    let mut text = first_line(alloc, count)?;
    while let Some(step) = demo.next(alloc)? {
        let Step { search, wire } = step;
        let body = reply_body(alloc, &mut machine, wire, log, fetches, openings)?;
        machine.settle_all(alloc, fetches)?;
        add_line(alloc, &mut text, search, &body)?;
    }
    Ok(text)
}

/// Makes so many documents from a seed, sends them to a machine that holds nothing, lets it run their tasks, searches
/// it, and prints the totals and ids that it answers.
///
/// `Done`: all of it is written. `WriteFault`: a part is written and not the whole. `NoMemory`: nothing is.
pub fn show_demo<P: Link, F, G>(
    alloc: Global,
    count: u32,
    seed: u32,
    pipe: &mut P,
    log: &mut Box<dyn BucketLog>,
    fetches: &mut Steps<F>,
    openings: &mut Steps<G>,
) -> Status
    ensures promise { ShowsDemo count seed
        (record {
          told = P.told pipe.old;
          fetches = fetches.old;
          openings = openings.old;
          write_faults = P.write_faults pipe.old;
        })
        (record {
          told = P.told pipe.new;
          fetches = fetches.new;
          openings = openings.new;
          write_faults = P.write_faults pipe.new;
        })
        result }
    ensures left { P.left pipe.new ≡ P.left pipe.old }
    ensures read_faults { P.read_faults pipe.new ≡ P.read_faults pipe.old }
    ensures write_later { P.write_faults pipe.old ≤ P.write_faults pipe.new }
{
    match demo_text(alloc, count, seed, log, fetches, openings) {
        Err(NoMemory) => Status::NoMemory,
        Ok(text) => match write_all(pipe, text.as_bytes()) {
            Ok(()) => Status::Done,
            Err(Failed) => Status::WriteFault,
        },
    }
}
