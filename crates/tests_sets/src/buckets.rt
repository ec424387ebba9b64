ghost use Rattle.std.specs.Prelude.{◌≡◌, filter, true, IfOk};
ghost use Rattle.bucket_sort.specs.Buckets.{AreAmong};
ghost use Rattle.bucket_sort.specs.Tables.{number_at, lesser_number, least_from, is_kept, key_of};

use crate::checks::{check, check_text, set_of};
use bucket_sort::*;
use doc_sets::DocSet;
use search_base::{CostKey, DocId, NoMemory, Steps};
use std::alloc::Global;
use std::process::Abort;

pub(crate) struct Counted;

// Documents whose keys stand in a row each, a key for each level.
#[derive(Drop)]
pub(crate) struct Table<'a> {
    levels: usize,
    rows: &'a [[u32; 6]],
}

// Some of the documents by their keys at a level.
#[derive(Drop)]
pub(crate) struct Scan<'a> {
    level: usize,
    rows: &'a [[u32; 6]],
    left: DocSet,
}

fn key_at(rows: &[[u32; 6]], level: usize, id: DocId) -> u32
    ensures { result ≡ number_at rows.now level id.0 }
{
    let Some(row) = rows.get(id.0 as usize) else {
        return 0;
    };
    match row.get(level) {
        Some(key) => *key,
        None => 0,
    }
}

// The least key of the documents.
fn least_key(rows: &[[u32; 6]], level: usize, docs: &DocSet) -> Option<u32>
    ensures { result ≡ least_from (number_at rows.now level) None docs.now.ids }
{
    let mut least = None;
    for id in docs.iter() {
        least = Some(lesser(least, key_at(rows, level, id)));
    }
    least
}

fn lesser(least: Option<u32>, key: u32) -> u32
    ensures { result ≡ lesser_number least key }
{
    match least {
        Some(bound) => { if key < bound { key } else { bound } }
        None => key,
    }
}

fn is_wanted(rows: &[[u32; 6]], level: usize, id: DocId, key: u32, has_it: bool) -> bool
    ensures { result ≡ is_kept (number_at rows.now level) key has_it id.0 }
{
    let same = key_at(rows, level, id) == key;
    if has_it { same } else { !same }
}

// The documents that have a key, or those that do not.
fn keyed(
    alloc: Global,
    rows: &[[u32; 6]],
    level: usize,
    docs: &DocSet,
    key: u32,
    has_it: bool,
) -> Result<DocSet, NoMemory>
    ensures { IfOk result (λ kept. kept.ids ≡ filter (is_kept (number_at rows.now level) key has_it) docs.now.ids) }
{
    let mut kept = Vec::new(alloc);
    for id in docs.iter() {
        if is_wanted(rows, level, id, key, has_it) {
            kept.push(id)?;
        }
    }
    DocSet::from_sorted(alloc, kept.as_slice())
}

impl<'a> BucketStream for Scan<'a> {
    ghost remaining = { λ scan. scan.left.ids };

    ghost key = { λ scan d. key_of scan.rows.now scan.level d };

    fn next_bucket<G>(
        &mut self,
        alloc: Global,
        openings: &mut Steps<G>,
    ) -> Result<Option<Bucket>, NoMemory> {
        let Some(least) = least_key(self.rows, self.level, &self.left) else {
            return Ok(None);
        };
        let docs = keyed(alloc, self.rows, self.level, &self.left, least, true)?;
        let others = keyed(alloc, self.rows, self.level, &self.left, least, false)?;
        self.left = others;
        openings.tick();
        Ok(Some(Bucket {
            key: CostKey::Number(least),
            docs,
        }))
    }
}

impl<'a> RuleSet for Table<'a> {
    type Stream = Scan<'a>;

    // A document with no row has the keys 0.
    ghost documents = { λ table d. true };

    ghost key = { λ table level d. key_of table.rows.now level d };

    ghost count = { λ table. table.levels };

    fn levels(&self) -> usize {
        self.levels
    }

    fn open(&self, _alloc: Global, level: usize, universe: DocSet) -> Result<Scan<'a>, NoMemory> {
        Ok(Scan {
            level,
            rows: self.rows,
            left: universe,
        })
    }
}

// The costs of four documents under the word `dark`.
const DARK: [[u32; 6]; 4] = [
    [0, 0, 2, 1, 2, 0],
    [0, 0, 2, 0, 1, 0],
    [0, 0, 2, 3, 2, 0],
    [0, 0, 2, 0, 2, 1],
];

pub(crate) const DARK_TABLE: Table<'static> = Table {
    levels: 6,
    rows: &DARK,
};

pub(crate) fn tell_openings(rt: &impl Abort, rows: &[Opening], text: &mut String) {
    for row in rows {
        let key = match &row.key {
            CostKey::Number(key) => *key,
            _ => 99,
        };
        write!(text, "({},{key},{}) ", row.level, row.size).expect(rt, "memory");
    }
}

fn page_of(
    rt: &impl Abort,
    alloc: Global,
    offset: u64,
    limit: u64,
    log: &mut Box<dyn BucketLog>,
) -> Vec<DocId> {
    let all = set_of(rt, alloc, &[0, 1, 2, 3]);
    let mut openings = Steps::<Counted>::new();
    let hits = page(alloc, &DARK_TABLE, all, offset, limit, log, &mut openings);
    hits.expect(rt, "memory")
}

// The ids of the hits and what was opened, as text.
fn recorded(rt: &impl Abort, alloc: Global, offset: u64, limit: u64) -> String {
    let record = RecordLog::new(alloc);
    let mut log: Box<dyn BucketLog> = Box::new(alloc, record).expect(rt, "memory");
    let mut text = String::new(alloc);
    for id in &page_of(rt, alloc, offset, limit, &mut log) {
        write!(text, "{} ", id.0).expect(rt, "memory");
    }
    if let Some(rows) = log.heard() {
        tell_openings(rt, rows, &mut text);
    }
    text
}

fn check_page(rt: &impl Abort, alloc: Global, offset: u64, limit: u64, wanted: &str) {
    check_text(rt, &recorded(rt, alloc, offset, limit), wanted, "page");
}

const WHOLE_PAGE: &str = "1 3 0 2 (1,0,4) (2,0,4) (3,2,4) (4,0,2) (5,1,1) (5,2,1) (4,1,1) (4,3,1) ";

#[test]
fn whole_page_opens_each_class(rt: HostRuntime) {
    check_page(&rt, rt.alloc(), 0, 20, WHOLE_PAGE);
}

#[test]
fn first_hit_opens_five(rt: HostRuntime) {
    let wanted = "1 (1,0,4) (2,0,4) (3,2,4) (4,0,2) (5,1,1) ";
    check_page(&rt, rt.alloc(), 0, 1, wanted);
}

#[test]
fn bucket_before_the_window_is_passed_whole(rt: HostRuntime) {
    let wanted = "0 (1,0,4) (2,0,4) (3,2,4) (4,0,2) (4,1,1) ";
    check_page(&rt, rt.alloc(), 2, 1, wanted);
}

#[test]
fn window_with_no_hit_opens_nothing(rt: HostRuntime) {
    check_page(&rt, rt.alloc(), 0, 0, "");
    check_page(&rt, rt.alloc(), 4, 3, "");
    check_page(&rt, rt.alloc(), u64::MAX, u64::MAX, "");
}

// Whether the first two hits that are asked for are refused.
fn both_refused<R: RuleSet>(
    rt: &impl Abort,
    alloc: Global,
    rules: &R,
    universe: DocSet,
    log: &mut Box<dyn BucketLog>,
) -> bool
    requires { AreAmong (R.documents rules.now) universe.ids }
{
    let mut openings = Steps::<Counted>::new();
    let mut stream = HitStream::new(alloc, rules, universe, 0, 9).expect(rt, "memory");
    let first = stream.next_hit(alloc, log, &mut openings).is_err();
    let second = stream.next_hit(alloc, log, &mut openings).is_err();
    first & second
}

fn count_of(heard: Option<&[Opening]>) -> usize {
    match heard {
        Some(rows) => rows.len(),
        None => 99,
    }
}

#[test]
fn refused_log_stops_the_search(rt: HostRuntime) {
    let alloc = rt.alloc();
    let refusing = RefuseLog::new(alloc, 2);
    let mut log: Box<dyn BucketLog> = Box::new(alloc, refusing).expect(&rt, "memory");
    let all = set_of(&rt, alloc, &[0, 1, 2, 3]);
    let refused = both_refused(&rt, alloc, &DARK_TABLE, all, &mut log);
    check(&rt, refused, "refused");
    check(&rt, count_of(log.heard()) == 2, "two are told");
}
