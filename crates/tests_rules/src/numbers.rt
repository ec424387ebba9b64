ghost use Rattle.std.specs.Prelude.{◌≡◌, IfOk};
ghost use Rattle.sort_rule.specs.Rows.{AreRows};
ghost use Rattle.tests_rules.specs.Priced.{priced_keys, priced_key, priced_missing};

use bucket_sort::{Bucket, BucketStream};
use doc_sets::DocSet;
use search_base::{CostKey, DocId, NoMemory, SortKey, Steps};
use sort_rule::{Numbered, OrderedRows, SortBuckets};
use std::alloc::Global;
use std::process::Abort;

struct Counted;

// Documents by their numbers: that of document d stands at place d, where there is one. They are told in no other way.
#[derive(Drop)]
struct Priced {
    up: bool,
    numbers: Vec<i64>,
}

impl OrderedRows for Priced {
    ghost use Rattle.tests_rules.specs.Priced.{priced_keys, priced_key};

    ghost keys = { λ rows. priced_keys rows.up rows.numbers.items };

    ghost key = { λ rows d. priced_key rows.up rows.numbers.items d };

    fn next_key(
        &self,
        alloc: Global,
        after: Option<&CostKey>,
        universe: &DocSet,
    ) -> Result<Option<CostKey>, NoMemory> {
        Err(NoMemory)
    }

    fn docs_at(&self, alloc: Global, at: &CostKey, universe: &DocSet) -> Result<DocSet, NoMemory> {
        Err(NoMemory)
    }

    fn numbers(&self, alloc: Global, universe: &DocSet) -> Result<Option<Numbered>, NoMemory> {
        let mut pairs = Vec::new(alloc);
        for id in universe.iter() {
            match self.numbers.get(id.0 as usize) {
                Some(number) => pairs.push((*number, id))?,
                None => return Ok(None),
            }
        }
        Ok(Some(Numbered { up: self.up, pairs }))
    }

    fn ordered(&self, alloc: Global, universe: &DocSet) -> Result<Option<Vec<Bucket>>, NoMemory> {
        Ok(None)
    }
}

fn missing(up: bool) -> CostKey
    ensures { result ≡ priced_missing up }
{
    if up {
        CostKey::Up(SortKey::Missing)
    } else {
        CostKey::Down(SortKey::Missing)
    }
}

// The documents of a universe by their numbers.
fn buckets(
    alloc: Global,
    up: bool,
    numbers: &[i64],
    universe: &[u32],
) -> Result<SortBuckets<Priced>, NoMemory> {
    let mut rows = Vec::new(alloc);
    for number in numbers {
        rows.push(*number)?;
    }
    let mut set = DocSet::new(alloc);
    for id in universe {
        let _new = set.insert(DocId(*id))?;
    }
    let rows = Priced { up, numbers: rows };
    SortBuckets::new(alloc, rows, missing(up), set)
}

// Adds a bucket to what was told: its key and its documents.
fn tell(rt: &impl Abort, bucket: &Bucket, told: &mut String) {
    match &bucket.key {
        CostKey::Up(SortKey::Number(number)) => write!(told, "up {number}:").expect(rt, "memory"),
        CostKey::Down(SortKey::Number(number)) => {
            write!(told, "down {number}:").expect(rt, "memory");
        }
        _ => write!(told, "another:").expect(rt, "memory"),
    }
    for id in bucket.docs.iter() {
        write!(told, " {}", id.0).expect(rt, "memory");
    }
    write!(told, "; ").expect(rt, "memory");
}

// Checks what a stream tells, asked five times.
fn check_told(rt: &impl Abort, alloc: Global, stream: &mut SortBuckets<Priced>, wanted: &str) {
    let mut openings = Steps::<Counted>::new();
    let mut told = String::new(alloc);
    for _time in 0..5u32 {
        match stream.next_bucket(alloc, &mut openings) {
            Ok(Some(bucket)) => tell(rt, &bucket, &mut told),
            Ok(None) => {}
            Err(_) => write!(told, "refused; ").expect(rt, "memory"),
        }
    }
    assert!(rt; told.as_str() == wanted, "{wanted} {told}");
}

const LEAST: i64 = -9_223_372_036_854_775_808;

const GREATEST: i64 = 9_223_372_036_854_775_807;

// The direction, the numbers of the documents from 0 on, the documents of the universe, and their buckets.
const ROWS: [(bool, &[i64], &[u32], &str); 7] = [
    (
        true,
        &[5, -3, GREATEST, LEAST, -3],
        &[0, 1, 2, 3, 4],
        "up -9223372036854775808: 3; up -3: 1 4; up 5: 0; up 9223372036854775807: 2; ",
    ),
    (
        false,
        &[5, -3, GREATEST, LEAST, -3],
        &[0, 1, 2, 3, 4],
        "down 9223372036854775807: 2; down 5: 0; down -3: 1 4; down -9223372036854775808: 3; ",
    ),
    (
        true,
        &[0, -1, 1],
        &[0, 1, 2],
        "up -1: 1; up 0: 0; up 1: 2; ",
    ),
    (false, &[7, 8, 7], &[0, 2], "down 7: 0 2; "),
    (
        false,
        &[1, 1, 2, 1, 1, 1],
        &[0, 1, 2, 3, 4, 5],
        "down 2: 2; down 1: 0 1 3 4 5; ",
    ),
    // A document without a number: the keys are asked for.
    (
        true,
        &[1, 2],
        &[0, 1, 2],
        "refused; refused; refused; refused; refused; ",
    ),
    (true, &[1], &[], ""),
];

#[test]
fn documents_come_by_their_numbers(rt: HostRuntime) {
    let alloc = rt.alloc();
    for (up, numbers, universe, wanted) in &ROWS {
        let mut stream = buckets(alloc, *up, numbers, universe).expect(&rt, "memory");
        check_told(&rt, alloc, &mut stream, wanted);
    }
}
