// The requests of the demo.
ghost use Rattle.std.specs.Prelude.{◌≡◌, ◌+◌, ◌∷◌, slice_index_or, ◌<◌, ◌*◌, ◌^◌, [], MatchOption, IfOk, OnOk, OnErr, string_bytes};
ghost use Rattle.http_wire.specs.Wire.{request_of};
ghost use Rattle.demo_input.specs.Draws.{draw};
ghost use Rattle.demo_input.specs.Steps.{view_of, steps, settings_step, batch, queries, search_step, request_to};

use crate::documents::documents_text;
use crate::draws::Draws;
use http_wire::Wire;
use search_base::{NoMemory, Word};
use std::alloc::Global;
use std::marker::Model;

const BATCH: u32 = 1000;

const SETTINGS: &str =
    "{\"filterableAttributes\":[\"tags\",\"year\"],\"sortableAttributes\":[\"year\"]}";

const QUERIES: [&str; 10] = [
    "{\"q\":\"cloud garden\"}",
    "{\"q\":\"amber bri\"}",
    "{\"q\":\"\\\"north pebble\\\"\"}",
    "{\"q\":\"ocean delta forest\"}",
    "{\"q\":\"delta\",\"filter\":\"year > 2005\"}",
    "{\"q\":\"\",\"sort\":[\"year:desc\"],\"limit\":5}",
    "{\"facets\":[\"tags\"],\"limit\":0}",
    "{\"q\":\"ember\",\"matchingStrategy\":\"all\",\"filter\":\"tags = red\"}",
    "{\"q\":\"harb our\"}",
    "{\"q\":\"kettle lantern\",\"page\":2,\"hitsPerPage\":3}",
];

/// A request of the demo.
#[derive(Drop)]
pub struct Step {
    /// Which search it is, from 1 to 10. None for a change.
    pub search: Option<u8>,
    pub wire: Wire,
}

/// The requests of the demo that are left: the settings, the documents in batches of 1,000, and ten searches.
#[derive(Drop)]
pub struct Demo {
    settled: bool,
    count: u32,
    made: u32,
    draws: Draws,
    searched: u8,
}

impl Model for Demo {
    ghost use Rattle.std.specs.Prelude.{List, ◌≤◌};
    ghost use Rattle.demo_input.specs.Steps.{DemoStep, steps_left};

    ghost Value = { List DemoStep };

    ghost view = { λ d. steps_left d.settled d.made d.count d.draws.last d.searched };

    ghost invariant = { λ d. (d.made ≤ d.count) × (d.searched ≤ 10) };
}

impl Demo {
    /// The demo of so many documents, drawn from a seed. Takes no memory.
    pub fn new(count: u32, seed: u32) -> Demo
        ensures { result ≡ steps count seed }
    {
        Demo {
            settled: false,
            count,
            made: 0,
            draws: Draws { last: seed },
            searched: 0,
        }
    }

    /// The next request, or None where none is left. `NoMemory` leaves the demo as it was.
    pub fn next(&mut self, alloc: Global) -> Result<Option<Step>, NoMemory>
        ensures next { IfOk result (λ next. MatchOption next
            ((self.old ≡ []) × (self.new ≡ []))
            (λ step. self.old ≡ view_of step ∷ self.new)) }
        ensures memory { OnErr result (self.new ≡ self.old) }
    {
        if !self.settled {
            let step = settings_request(alloc)?;
            self.settled = true;
            return Ok(Some(step));
        }
        if self.made < self.count {
            let size = BATCH.min(self.count - self.made);
            let mut draws = self.draws;
            let step = batch_request(alloc, size, self.made, &mut draws)?;
            self.made += size;
            self.draws = draws;
            return Ok(Some(step));
        }
        if usize::from(self.searched) == QUERIES.len() {
            return Ok(None);
        }
        let number = self.searched + 1;
        let step = search_request(alloc, number, query(self.searched))?;
        self.searched = number;
        Ok(Some(step))
    }
}

// The body of the search behind the first `searched`.
#[tactic(auto, unfolding(crate::specs::Steps::queries))]
fn query(searched: u8) -> &'static str
    requires { searched < 10 }
    ensures { result.now ≡ slice_index_or queries searched [] }
{
    QUERIES[usize::from(searched)]
}

fn settings_request(alloc: Global) -> Result<Step, NoMemory>
    ensures { IfOk result (λ step. view_of step ≡ settings_step) }
{
    let body = String::from_str(alloc, SETTINGS)?;
    let wire = request(alloc, "PATCH", "/indexes/demo/settings", body)?;
    Ok(Step { search: None, wire })
}

// The request that sends `size` documents behind the first `made`.
fn batch_request(alloc: Global, size: u32, made: u32, draws: &mut Draws) -> Result<Step, NoMemory>
    requires { made + size < 2 ^ 32 }
    ensures step { IfOk result (λ step. view_of step ≡ batch size made draws.old.last) }
    ensures drawn { OnOk result (draws.new.last ≡ draw (6 * size) draws.old.last) }
{
    let body = documents_text(alloc, size, made, draws)?;
    let wire = request(alloc, "POST", "/indexes/demo/documents", body)?;
    Ok(Step { search: None, wire })
}

fn search_request(alloc: Global, number: u8, query: &str) -> Result<Step, NoMemory>
    ensures { IfOk result (λ step. view_of step ≡ search_step number query.now) }
{
    let body = String::from_str(alloc, query)?;
    let wire = request(alloc, "POST", "/indexes/demo/search", body)?;
    Ok(Step {
        search: Some(number),
        wire,
    })
}

fn request(alloc: Global, method: &str, target: &str, body: String) -> Result<Wire, NoMemory>
    ensures { IfOk result (λ wire. request_of wire ≡ request_to method.now target.now (string_bytes body)) }
{
    Ok(Wire {
        method: Word::new(alloc, method)?,
        target: Word::new(alloc, target)?,
        body: body.into_bytes(),
        closes: false,
    })
}
