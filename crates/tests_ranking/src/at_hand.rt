ghost use Rattle.std.specs.Prelude.{◌<◌};
ghost use Rattle.search_base.specs.Graphs.{IsGraph};

use crate::checks::check;
use crate::costs::{CASES, RULES, graph};
use crate::searched::shelf;
use bucket_sort::{Bucket, BucketLog, RecordLog};
use condition_graph::Condition;
use doc_search::{IndexedRows, Snapshot};
use doc_sets::DocSet;
use rule_buckets::{HitWindow, RuleSource, Rules, page};
use search_base::{CostKey, DocId, Graph, NoMemory, PathId, Rule, Steps, Word};
use std::alloc::Global;
use std::process::Abort;

struct Counted;

// An index that has the documents of any condition at hand, and none by number.
#[derive(Drop)]
struct AtHand<'a, S: RuleSource> {
    inner: &'a S,
}

impl<'a, S: RuleSource> RuleSource for AtHand<'a, S> {
    ghost rows = { λ source. S.rows source.inner.now };

    ghost keys = { λ source. S.keys source.inner.now };

    ghost sorted = { λ source. S.sorted source.inner.now };

    fn ranks(&self) -> u16 {
        self.inner.ranks()
    }

    fn meeting(
        &self,
        alloc: Global,
        condition: &Condition,
        universe: &DocSet,
    ) -> Result<DocSet, NoMemory> {
        self.inner.meeting(alloc, condition, universe)
    }

    fn at_hand(
        &self,
        alloc: Global,
        condition: &Condition,
        universe: &DocSet,
    ) -> Result<Option<DocSet>, NoMemory> {
        let docs = self.inner.meeting(alloc, condition, universe)?;
        Ok(Some(docs))
    }

    fn meeting_by_number(
        &self,
        alloc: Global,
        condition: &Condition,
        universe: &DocSet,
    ) -> Result<Vec<(u16, DocSet)>, NoMemory> {
        Err(NoMemory)
    }

    fn at_whole_cost(
        &self,
        alloc: Global,
        words: &[Word],
        cost: u32,
        universe: &DocSet,
    ) -> Result<DocSet, NoMemory> {
        self.inner.at_whole_cost(alloc, words, cost, universe)
    }

    fn next_key(
        &self,
        alloc: Global,
        path: PathId,
        up: bool,
        after: Option<&CostKey>,
        universe: &DocSet,
    ) -> Result<Option<CostKey>, NoMemory> {
        self.inner.next_key(alloc, path, up, after, universe)
    }

    fn docs_at(
        &self,
        alloc: Global,
        path: PathId,
        up: bool,
        at: &CostKey,
        universe: &DocSet,
    ) -> Result<DocSet, NoMemory> {
        self.inner.docs_at(alloc, path, up, at, universe)
    }

    fn numbers(
        &self,
        alloc: Global,
        path: PathId,
        universe: &DocSet,
    ) -> Result<Option<Vec<(i64, DocId)>>, NoMemory> {
        self.inner.numbers(alloc, path, universe)
    }

    fn ordered(
        &self,
        alloc: Global,
        path: PathId,
        up: bool,
        universe: &DocSet,
    ) -> Result<Option<Vec<Bucket>>, NoMemory> {
        self.inner.ordered(alloc, path, up, universe)
    }
}

// All that match, in order.
fn all_hits<S: RuleSource>(
    rt: &impl Abort,
    alloc: Global,
    source: &S,
    graph: &Graph,
    rules: &[Rule],
    universe: &DocSet,
) -> Vec<DocId>
    requires { IsGraph graph.now }
{
    let log = Box::new(alloc, RecordLog::new(alloc)).expect(rt, "memory");
    let mut log: Box<dyn BucketLog> = log;
    let mut openings: Steps<Counted> = Steps::new();
    let window = HitWindow {
        offset: 0,
        limit: 100,
    };
    let rules = Rules::new(alloc, source, graph, rules, universe).expect(rt, "memory");
    page(alloc, &rules, window, &mut log, &mut openings).expect(rt, "memory")
}

// Documents at hand and documents by number stand in one order.
fn check_same(rt: &impl Abort, alloc: Global, query: &str, lines: &str, rules: &[Rule]) {
    let shelf = shelf(rt, alloc, lines);
    let all = shelf.index().ids();
    let graph = graph(rt, alloc, query);
    let snapshot = Snapshot::of_query(alloc, &shelf, &graph).expect(rt, "memory");
    let by_number = all_hits(rt, alloc, &snapshot, &graph, rules, all);
    let at_hand = AtHand { inner: &snapshot };
    let at_hand = all_hits(rt, alloc, &at_hand, &graph, rules, all);
    check(rt, at_hand.len() > 0, query);
    check(rt, at_hand.as_slice() == by_number.as_slice(), query);
}

#[test]
fn no_number_is_asked_for_where_documents_are_at_hand(rt: HostRuntime) {
    let (query, lines) = CASES[1];
    check_same(&rt, rt.alloc(), query, lines, &RULES);
    for rule in &RULES {
        check_same(&rt, rt.alloc(), query, lines, std::slice::from_ref(rule));
    }
}
