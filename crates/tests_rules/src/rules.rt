ghost use Rattle.std.specs.Prelude.{[]};
ghost use Rattle.search_base.specs.Graphs.{IsGraph};

use bucket_sort::{Bucket, BucketLog, BucketStream, RecordLog, RuleSet};
use condition_graph::Condition;
use doc_sets::DocSet;
use rule_buckets::{HitWindow, RuleSource, Rules, page};
use search_base::{CostKey, DocId, Graph, NoMemory, PathId, Rule, SortKey, Steps, Word};
use std::alloc::Global;
use std::process::Abort;

struct Counted;

// An index of documents without a word and without a value.
#[derive(Drop)]
struct Bare;

impl RuleSource for Bare {
    ghost use Rattle.tests_rules.specs.Bare.{no_entries};

    ghost rows = { λ bare d. record { places = []; leaves = []; marks = [] } };

    ghost keys = { λ bare up path. [] };

    ghost sorted = { λ bare up path. no_entries up path };

    fn ranks(&self) -> u16 {
        0
    }

    fn meeting(
        &self,
        alloc: Global,
        condition: &Condition,
        universe: &DocSet,
    ) -> Result<DocSet, NoMemory> {
        Err(NoMemory)
    }

    fn at_hand(
        &self,
        alloc: Global,
        condition: &Condition,
        universe: &DocSet,
    ) -> Result<Option<DocSet>, NoMemory> {
        Ok(None)
    }

    fn meeting_by_number(
        &self,
        alloc: Global,
        condition: &Condition,
        universe: &DocSet,
    ) -> Result<Vec<(u16, DocSet)>, NoMemory> {
        Err(NoMemory)
    }

    fn at_whole_cost(
        &self,
        alloc: Global,
        words: &[Word],
        cost: u32,
        universe: &DocSet,
    ) -> Result<DocSet, NoMemory> {
        Err(NoMemory)
    }

    fn next_key(
        &self,
        alloc: Global,
        path: PathId,
        up: bool,
        after: Option<&CostKey>,
        universe: &DocSet,
    ) -> Result<Option<CostKey>, NoMemory> {
        Ok(None)
    }

    fn docs_at(
        &self,
        alloc: Global,
        path: PathId,
        up: bool,
        at: &CostKey,
        universe: &DocSet,
    ) -> Result<DocSet, NoMemory> {
        Err(NoMemory)
    }

    fn numbers(
        &self,
        alloc: Global,
        path: PathId,
        universe: &DocSet,
    ) -> Result<Option<Vec<(i64, DocId)>>, NoMemory> {
        Ok(None)
    }

    fn ordered(
        &self,
        alloc: Global,
        path: PathId,
        up: bool,
        universe: &DocSet,
    ) -> Result<Option<Vec<Bucket>>, NoMemory> {
        Ok(None)
    }
}

// The query without words.
fn empty(alloc: Global) -> Graph
    ensures { IsGraph result }
{
    Graph {
        levels: Vec::new(alloc),
        whole: Vec::new(alloc),
    }
}

fn set(rt: &impl Abort, alloc: Global) -> DocSet {
    DocSet::from_sorted(alloc, &[DocId(1), DocId(3), DocId(4)]).expect(rt, "memory")
}

// The first bucket of a level has the three documents, under this key.
fn check_first(
    rt: &impl Abort,
    alloc: Global,
    rules: &Rules<'_, Bare>,
    level: usize,
    wanted: &CostKey,
) {
    assert!(rt; level < rules.levels(), "a level");
    let universe = rules.matching().clone().expect(rt, "memory");
    let mut openings: Steps<Counted> = Steps::new();
    let mut stream = rules.open(alloc, level, universe).expect(rt, "memory");
    match stream
        .next_bucket(alloc, &mut openings)
        .expect(rt, "memory")
    {
        Some(Bucket { key, docs }) => {
            assert!(rt; key == *wanted && docs.len() == 3, "level {level}");
        }
        None => assert!(rt; false, "level {level}"),
    }
}

#[test]
fn a_query_without_words_gives_all_documents_at_once(rt: HostRuntime) {
    let alloc = rt.alloc();
    let universe = set(&rt, alloc);
    let graph = empty(alloc);
    let list = [
        Rule::Words,
        Rule::Proximity,
        Rule::Whole,
        Rule::Down(Some(PathId(2))),
        Rule::Up(None),
    ];
    let rules = Rules::new(alloc, &Bare, &graph, &list, &universe).expect(&rt, "memory");
    assert!(rt;
        rules.levels() == 5 && rules.matching().len() == 3,
        "five rules"
    );
    let keys = [
        CostKey::Number(0),
        CostKey::Number(0),
        CostKey::Number(0),
        CostKey::Down(SortKey::Missing),
        CostKey::Up(SortKey::Missing),
    ];
    for (level, key) in keys.iter().enumerate() {
        check_first(&rt, alloc, &rules, level, key);
    }
}

#[test]
fn the_asked_slice_is_found(rt: HostRuntime) {
    let alloc = rt.alloc();
    let universe = set(&rt, alloc);
    let graph = empty(alloc);
    let rules = [Rule::Words, Rule::Down(Some(PathId(2)))];
    let log = Box::new(alloc, RecordLog::new(alloc)).expect(&rt, "memory");
    let mut log: Box<dyn BucketLog> = log;
    let mut openings: Steps<Counted> = Steps::new();
    let (log, steps) = (&mut log, &mut openings);
    let rules = Rules::new(alloc, &Bare, &graph, &rules, &universe).expect(&rt, "memory");
    let window = HitWindow {
        offset: 1,
        limit: 5,
    };
    let hits = page(alloc, &rules, window, log, steps).expect(&rt, "memory");
    assert!(rt; hits.as_slice() == [DocId(3), DocId(4)].as_slice(), "hits");
    assert!(rt; rules.matching().len() == 3, "matching");
}
