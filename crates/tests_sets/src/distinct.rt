ghost use Rattle.std.specs.Prelude.{map, ◌≡◌, IfOk};
ghost use Rattle.tests_sets.specs.Genres.{genres_of};

use crate::buckets::{Counted, DARK_TABLE, tell_openings};
use crate::checks::{check_text, set_of};
use bucket_sort::*;
use distinct_hits::*;
use search_base::{DocId, FacetValue, NoMemory, Steps};
use std::alloc::Global;
use std::process::Abort;

// The genres of the films, and whose were asked for.
#[derive(Drop)]
struct Genres {
    asked: Vec<DocId>,
}

fn genres_of(alloc: Global, id: DocId) -> Result<Vec<FacetValue>, NoMemory>
    ensures { IfOk result (λ list. list.items ≡ genres_of id.0) }
{
    let mut list = Vec::new(alloc);
    if id.0 == 0 {
        list.push(FacetValue::Number(1))?;
        list.push(FacetValue::Number(2))?;
    } else if id.0 == 1 {
        list.push(FacetValue::Number(1))?;
    } else if id.0 == 3 {
        list.push(FacetValue::Number(2))?;
    }
    Ok(list)
}

impl Values for Genres {
    ghost values = { λ genres d. genres_of d };

    ghost asked = { λ genres. map (λ id. id.0) genres.asked.items };

    ghost Asks = { λ before d after. Unit {0} };

    fn values(&mut self, alloc: Global, id: DocId) -> Result<Vec<FacetValue>, NoMemory> {
        let list = genres_of(alloc, id)?;
        self.asked.push(id)?;
        Ok(list)
    }
}

fn page_of(
    rt: &impl Abort,
    alloc: Global,
    genres: &mut Genres,
    offset: u64,
    limit: u64,
    log: &mut Box<dyn BucketLog>,
) -> Vec<DocId> {
    let all = set_of(rt, alloc, &[0, 1, 2, 3]);
    let mut openings = Steps::<Counted>::new();
    let hits = distinct_page(
        alloc,
        &DARK_TABLE,
        genres,
        all,
        offset,
        limit,
        log,
        &mut openings,
    );
    hits.expect(rt, "memory")
}

fn tell_ids(rt: &impl Abort, ids: &[DocId], text: &mut String) {
    for id in ids {
        write!(text, "{} ", id.0).expect(rt, "memory");
    }
    text.push_str("| ").expect(rt, "memory");
}

// The hits, the documents whose values were asked for, and what was opened.
fn check_distinct(rt: &impl Abort, alloc: Global, offset: u64, limit: u64, wanted: &str) {
    let record = RecordLog::new(alloc);
    let mut log: Box<dyn BucketLog> = Box::new(alloc, record).expect(rt, "memory");
    let mut genres = Genres {
        asked: Vec::new(alloc),
    };
    let mut text = String::new(alloc);
    let hits = page_of(rt, alloc, &mut genres, offset, limit, &mut log);
    tell_ids(rt, hits.as_slice(), &mut text);
    tell_ids(rt, genres.asked.as_slice(), &mut text);
    if let Some(rows) = log.heard() {
        tell_openings(rt, rows, &mut text);
    }
    check_text(rt, &text, wanted, "distinct page");
}

const FIRST: &str = "1 | 1 | (1,0,4) (2,0,4) (3,2,4) (4,0,2) (5,1,1) ";

const SECOND: &str = "3 | 1 3 | (1,0,4) (2,0,4) (3,2,4) (4,0,2) (5,1,1) (5,2,1) ";

const THIRD: &str =
    "2 | 1 3 0 2 | (1,0,4) (2,0,4) (3,2,4) (4,0,2) (5,1,1) (5,2,1) (4,1,1) (4,3,1) ";

const ALL: &str =
    "1 3 2 | 1 3 0 2 | (1,0,4) (2,0,4) (3,2,4) (4,0,2) (5,1,1) (5,2,1) (4,1,1) (4,3,1) ";

const PAST: &str = "| 1 3 0 2 | (1,0,4) (2,0,4) (3,2,4) (4,0,2) (5,1,1) (5,2,1) (4,1,1) (4,3,1) ";

#[test]
fn hits_are_taken_until_the_page_is_full(rt: HostRuntime) {
    let alloc = rt.alloc();
    check_distinct(&rt, alloc, 0, 20, ALL);
    check_distinct(&rt, alloc, 0, 1, FIRST);
    check_distinct(&rt, alloc, 1, 1, SECOND);
    check_distinct(&rt, alloc, 2, 1, THIRD);
    check_distinct(&rt, alloc, 3, 5, PAST);
    check_distinct(&rt, alloc, u64::MAX, u64::MAX, PAST);
}

#[test]
fn an_empty_page_takes_no_hit(rt: HostRuntime) {
    check_distinct(&rt, rt.alloc(), 0, 0, "| | ");
    check_distinct(&rt, rt.alloc(), 2, 0, "| | ");
}
