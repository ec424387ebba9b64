// Several searches in one call.
ghost use Rattle.std.specs.Prelude.{◌≡◌, ◌+◌, ◌≤◌, ◌<◌, ◌^◌, length};
ghost use Rattle.bucket_sort.specs.Opens.{log_state, Opens, is_starved};
ghost use Rattle.search_base.specs.Gives.{Gives};
ghost use Rattle.request_calls.specs.Asked as asked;
ghost use Rattle.search_routes.specs.Machine.{results_of};
ghost use Rattle.search_routes.specs.Needs.{read_need, search_need};
ghost use Rattle.search_routes.specs.Openings.{read_opened, read_most, search_opened, search_most};
ghost use Rattle.search_routes.specs.Several.{Searched, Searches as AreMade, Shows, text_of};
ghost use Rattle.search_routes.specs.Several.{outcome_of as outcome_from, fault_of as fault_from};

use crate::searching::{search_index, shown_text};
use bucket_sort::BucketLog;
use multi_search::{MultiFault, OneFault, SearchOne, run};
use named_indexes::Indexes;
use request_refusals::Refusal;
use request_replies::ResultText;
use search_base::{Fault, Steps};
use search_bodies::MultiCall;
use std::alloc::Global;

/// Makes several searches, one after the other, and gives what each shows. The first that is refused refuses all. 2^32
/// searches or more count as ones for which there is no memory.
pub(crate) fn search_several<'a, F, G>(
    alloc: Global,
    indexes: &'a Indexes,
    calls: &[MultiCall],
    log: &'a mut Box<dyn BucketLog>,
    fetches: &'a mut Steps<F>,
    openings: &'a mut Steps<G>,
) -> Result<Vec<ResultText>, Fault<Refusal>>
    ensures answer { Shows (results_of indexes.now calls.now) result }
    ensures fetched { fetches.new ≤ fetches.old + read_need indexes.now (asked.multi calls.now) }
    ensures opens { Opens (is_starved result) (read_opened indexes.now (asked.multi calls.now))
        (log_state (told log.old) openings.old) (log_state (told log.new) openings.new) }
    ensures few { openings.new ≤ openings.old + read_most indexes.now (asked.multi calls.now) }
{
    if calls.len() > u32::MAX as usize {
        return Err(Fault::NoMemory);
    }
    let mut searches = Searches {
        indexes,
        log,
        fetches,
        openings,
    };
    search_each(alloc, &mut searches, calls)
}

// Searches of some indexes, and what they tell and count.
#[derive(Drop)]
struct Searches<'a, F, G> {
    indexes: &'a Indexes,
    log: &'a mut Box<dyn BucketLog>,
    fetches: &'a mut Steps<F>,
    openings: &'a mut Steps<G>,
}

impl<'a, F, G> SearchOne for Searches<'a, F, G> {
    type Call = MultiCall;

    type Answer = ResultText;

    type Fault = Refusal;

    ghost outcome = { λ searches call. text_of searches.indexes.now call };

    ghost Leaves = { λ before call outcome after.
        (after.indexes.now ≡ before.indexes.now)
        × (after.log.ghost_name ≡ before.log.ghost_name)
        × (after.fetches.ghost_name ≡ before.fetches.ghost_name)
        × (after.openings.ghost_name ≡ before.openings.ghost_name)
        × Searched before.indexes.now call outcome
        (record {
          fetched = before.fetches.now;
          log = log_state ((BucketLog-box before.log.now).told before.log.now.value) before.openings.now;
        })
        (record {
          fetched = after.fetches.now;
          log = log_state ((BucketLog-box after.log.now).told after.log.now.value) after.openings.now;
        }) };

    fn one(&mut self, alloc: Global, call: &MultiCall) -> Result<ResultText, OneFault<Refusal>> {
        let text = search_one(
            alloc,
            self.indexes,
            call,
            self.log,
            self.fetches,
            self.openings,
        );
        outcome_of(text)
    }
}

// Makes one of several searches.
fn search_one<F, G>(
    alloc: Global,
    indexes: &Indexes,
    call: &MultiCall,
    log: &mut Box<dyn BucketLog>,
    fetches: &mut Steps<F>,
    openings: &mut Steps<G>,
) -> Result<ResultText, Fault<Refusal>>
    requires { Unit {0} }
    ensures answer { Gives (λ text. text) result (text_of indexes.now call.now) }
    ensures fetched { fetches.new ≤ fetches.old + search_need indexes.now call.now.uid call.now.call }
    ensures opens { Opens (is_starved result) (search_opened indexes.now call.now.uid call.now.call)
        (log_state (told log.old) openings.old) (log_state (told log.new) openings.new) }
    ensures few { openings.new ≤ openings.old + search_most indexes.now call.now.uid call.now.call }
{
    let MultiCall { uid, call } = call;
    let shown = search_index(alloc, indexes, uid, call, log, fetches, openings)?;
    Ok(shown_text(alloc, uid.as_str(), call, &shown)?)
}

// What comes of one of several searches.
fn outcome_of(text: Result<ResultText, Fault<Refusal>>) -> Result<ResultText, OneFault<Refusal>>
    ensures { result ≡ outcome_from text }
{
    match text {
        Ok(text) => Ok(text),
        Err(Fault::Refused(refusal)) => Err(OneFault::Refused(refusal)),
        Err(Fault::NoMemory) => Err(OneFault::NoMemory),
    }
}

// Makes the searches in order, up to the first that has no answer.
fn search_each<F, G>(
    alloc: Global,
    searches: &mut Searches<F, G>,
    calls: &[MultiCall],
) -> Result<Vec<ResultText>, Fault<Refusal>>
    requires { length calls.now < 2 ^ 32 }
    ensures same_log { searches.new.log.ghost_name ≡ searches.old.log.ghost_name }
    ensures same_fetches { searches.new.fetches.ghost_name ≡ searches.old.fetches.ghost_name }
    ensures same_openings { searches.new.openings.ghost_name ≡ searches.old.openings.ghost_name }
    ensures answer { Shows (results_of searches.old.indexes.now calls.now) result }
    ensures made { AreMade searches.old.indexes.now (is_starved result) calls.now
        (record {
          fetched = searches.old.fetches.now;
          log = log_state ((BucketLog-box searches.old.log.now).told searches.old.log.now.value)
              searches.old.openings.now;
        })
        (record {
          fetched = searches.new.fetches.now;
          log = log_state ((BucketLog-box searches.new.log.now).told searches.new.log.now.value)
              searches.new.openings.now;
        }) }
{
    match run(alloc, searches, calls) {
        Ok(results) => Ok(results),
        Err(fault) => Err(fault_of(fault)),
    }
}

// Why several searches have no answer.
fn fault_of(fault: MultiFault<Refusal>) -> Fault<Refusal>
    ensures { result ≡ fault_from fault }
{
    match fault {
        MultiFault::Query { index: _, fault } => Fault::Refused(fault),
        MultiFault::NoMemory => Fault::NoMemory,
    }
}
