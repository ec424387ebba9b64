ghost use Rattle.std.specs.Prelude.{◌≡◌, ◌<◌, ◌||◌, ◌&&◌, ℕ, true, false, not, [], length, IfOk, OnOk, IfSome, IfNone, Some};
ghost use Rattle.std.specs.List.{AllByRecursion};
ghost use Rattle.search_base.specs.CostOrder.{before};
ghost use Rattle.search_base.specs.Graphs.{IsGraph};
ghost use Rattle.search_base.specs.Least.{least_by, lesser};
ghost use Rattle.search_base.specs.Tuple.{cost_of as words_cost_of};
ghost use Rattle.doc_sets.specs.Sets.{has, IsIncreasing};
ghost use Rattle.path_costs.specs.Costs.{is_cost};
ghost use Rattle.bucket_sort.specs.Buckets.{IsBucket};
ghost use Rattle.rule_buckets.specs.Entries.{entry_in, is_entry};
ghost use Rattle.rule_buckets.specs.Listed.{left_from};
ghost use Rattle.rule_buckets.specs.Rules.{AreTheirs, is_path};
ghost use Rattle.rule_buckets.specs.Streams.{IsStream, IsReady, ComesFrom, is_member, is_in_any, remaining_in, next_cost, taken_at, without};

use crate::asked::Asked;
use crate::query::RuleQuery;
use crate::source::RuleSource;
use bucket_sort::{Bucket, BucketStream};
use condition_graph::conditions;
use doc_sets::DocSet;
use path_costs::PathCosts;
use search_base::{CostKey, NoMemory, Steps};
use std::alloc::Global;
use std::marker::Model;
use std::mem;

// The documents that one level of the query matches first, by their costs. What comes next is kept where it is known.
#[derive(Drop)]
pub(crate) struct LevelCosts<'a, S: RuleSource> {
    costs: PathCosts<Asked<'a, S>>,
    next: Option<(u32, DocSet)>,
}

impl<'a, S: RuleSource> Model for LevelCosts<'a, S> {
    ghost use Rattle.rule_buckets.specs.Streams.{LevelCostsView};

    ghost Value = { LevelCostsView S };

    ghost view = { λ s. record {
      source = s.costs.source;
      graph = s.costs.graph;
      ahead = s.next;
      rest = s.costs.remaining;
    } };
}

/// The documents that match, by a cost that is a least sum over the readings of the level that matches them first.
#[derive(Drop)]
pub(crate) struct PathBuckets<'a, S: RuleSource> {
    query: RuleQuery<'a, S>,
    streams: Vec<LevelCosts<'a, S>>,
}

impl<'a, S: RuleSource> Model for PathBuckets<'a, S> {
    ghost use Rattle.std.specs.List.{AllByRecursion};
    ghost use Rattle.rule_buckets.specs.Entries.{StreamView};
    ghost use Rattle.rule_buckets.specs.Streams.{IsStream, remaining_in};

    ghost Value = { StreamView S };

    ghost view = { λ p. record { query = p.query; remaining = remaining_in p.streams.items } };

    ghost invariant = { λ p. AllByRecursion (IsStream S.rows p.query) p.streams.items };
}

// A level's documents by their costs. No cost is asked for yet, but the conditions on numbers are.
fn level_costs<'a, S: RuleSource>(
    alloc: Global,
    query: &RuleQuery<'a, S>,
    level: usize,
    docs: DocSet,
) -> Result<LevelCosts<'a, S>, NoMemory>
    requires graph { IsGraph query.now.graph }
    requires rule { is_path query.now.rule ≡ true }
    requires level { level < length query.now.graph.levels }
    requires docs { (d : ℕ) → has docs.ids d ≡ true
        → is_cost level (words_cost_of (S.rows query.now.source d).places query.now.graph.levels) ≡ true }
    ensures stream { IfOk result (IsStream S.rows query.now) }
    ensures docs { IfOk result (λ stream. (d : ℕ) → is_member stream d ≡ has docs.ids d) }
{
    let source = query.source;
    let made = conditions(alloc, query.graph, query.rule, level, source.ranks())?;
    let costs = PathCosts::new(alloc, made, Asked::new(alloc, source), docs)?;
    Ok(LevelCosts { costs, next: None })
}

// Adds a level's documents by their costs, where it has any.
fn push_level<'a, S: RuleSource>(
    alloc: Global,
    query: &RuleQuery<'a, S>,
    level: usize,
    docs: DocSet,
    streams: &mut Vec<LevelCosts<'a, S>>,
) -> Result<(), NoMemory>
    requires graph { IsGraph query.now.graph }
    requires rule { is_path query.now.rule ≡ true }
    requires level { level < length query.now.graph.levels }
    requires docs { (d : ℕ) → has docs.ids d ≡ true
        → is_cost level (words_cost_of (S.rows query.now.source d).places query.now.graph.levels) ≡ true }
    requires streams { AllByRecursion (IsStream S.rows query.now) streams.old.items }
    ensures streams { OnOk result (AllByRecursion (IsStream S.rows query.now) streams.new.items) }
    ensures docs { OnOk result ((d : ℕ) → is_in_any streams.new.items d
        ≡ (is_in_any streams.old.items d || has docs.ids d)) }
{
    if docs.len() > 0 {
        let stream = level_costs(alloc, query, level, docs)?;
        streams.push(stream)?;
    }
    Ok(())
}

/// The documents of the universe, all of which match, by their costs under a rule.
pub(crate) fn path_buckets<'a, S: RuleSource>(
    alloc: Global,
    query: RuleQuery<'a, S>,
    levels: Vec<DocSet>,
) -> Result<PathBuckets<'a, S>, NoMemory>
    requires graph { IsGraph query.graph }
    requires rule { is_path query.rule ≡ true }
    requires count { length levels.items ≡ length query.graph.levels }
    requires levels { AreTheirs (S.rows query.source) query.graph levels.items }
    ensures query { IfOk result (λ made. made.query ≡ query.entry) }
    ensures docs { IfOk result (λ made. made.remaining ≡ left_from 0 levels.items) }
{
    let mut streams = Vec::with_capacity(alloc, levels.len())?;
    let mut level = 0;
    for docs in levels {
        push_level(alloc, &query, level, docs, &mut streams)?;
        level += 1;
    }
    Ok(PathBuckets { query, streams })
}

// Finds what comes next in a stream, unless it is known. None where the stream has ended.
fn look_ahead<'a, S: RuleSource>(
    alloc: Global,
    _query: &RuleQuery<'a, S>,
    stream: LevelCosts<'a, S>,
) -> Result<Option<LevelCosts<'a, S>>, NoMemory>
    requires { IsStream S.rows _query.now stream }
    ensures ready { IfOk result (λ found. IfSome found (IsReady S.rows _query.now)) }
    ensures same { IfOk result (λ found. IfSome found (λ ahead. (d : ℕ) → is_member ahead d ≡ is_member stream.entry d)) }
    ensures ended { IfOk result (λ found. IfNone found ((d : ℕ) → is_member stream.entry d ≡ false)) }
{
    let LevelCosts { costs, next } = stream;
    let mut costs = costs;
    match next {
        Some(found) => Ok(Some(LevelCosts {
            costs,
            next: Some(found),
        })),
        None => match costs.next_cost(alloc)? {
            Some(found) => Ok(Some(LevelCosts {
                costs,
                next: Some(found),
            })),
            None => Ok(None),
        },
    }
}

// Finds what comes next in each stream. Those that have ended go.
fn look_ahead_all<'a, S: RuleSource>(
    alloc: Global,
    query: &RuleQuery<'a, S>,
    streams: Vec<LevelCosts<'a, S>>,
) -> Result<Vec<LevelCosts<'a, S>>, NoMemory>
    requires { AllByRecursion (IsStream S.rows query.now) streams.items }
    ensures ready { IfOk result (λ ready. AllByRecursion (IsReady S.rows query.now) ready.items) }
    ensures same { IfOk result (λ ready. (d : ℕ) → is_in_any ready.items d ≡ is_in_any streams.entry.items d) }
{
    let mut ready = Vec::with_capacity(alloc, streams.len())?;
    for stream in streams {
        if let Some(stream) = look_ahead(alloc, query, stream)? {
            ready.push(stream)?;
        }
    }
    Ok(ready)
}

// The least cost that comes next in any of the streams.
fn least_ahead<'a, S: RuleSource>(streams: &[LevelCosts<'a, S>]) -> Option<u32>
    ensures { result ≡ least_by next_cost streams.now }
{
    let mut least = None;
    for stream in streams {
        match &stream.next {
            Some((cost, _)) => least = lesser(least, *cost),
            None => {}
        }
    }
    least
}

// The lesser of a cost and what may be one.
fn lesser(least: Option<u32>, cost: u32) -> Option<u32>
    ensures { result ≡ lesser least (Some cost) }
{
    match least {
        Some(least) if least < cost => Some(least),
        _ => Some(cost),
    }
}

// The documents that come next at a cost, added to others, and the stream without them.
fn take_from<'a, S: RuleSource>(
    alloc: Global,
    stream: LevelCosts<'a, S>,
    cost: u32,
    found: &mut DocSet,
) -> Result<LevelCosts<'a, S>, NoMemory>
    ensures found { OnOk result ((d : ℕ) → has found.new.ids d
        ≡ (has found.old.ids d || has (taken_at cost stream.entry.ahead) d)) }
    ensures left { IfOk result (λ left. left ≡ without cost stream.entry) }
{
    let LevelCosts { costs, next } = stream;
    match next {
        Some((here, docs)) => {
            if here != cost {
                return Ok(LevelCosts {
                    costs,
                    next: Some((here, docs)),
                });
            }
            let others = mem::replace(found, DocSet::new(alloc));
            let all = others.join(alloc, docs)?;
            *found = all;
            Ok(LevelCosts { costs, next: None })
        }
        None => Ok(LevelCosts { costs, next: None }),
    }
}

// The documents that come next at the least cost of all, and the streams without them.
fn take_all<'a, S: RuleSource>(
    alloc: Global,
    query: &RuleQuery<'a, S>,
    streams: Vec<LevelCosts<'a, S>>,
    cost: u32,
) -> Result<(Vec<LevelCosts<'a, S>>, DocSet), NoMemory>
    requires ready { AllByRecursion (IsReady S.rows query.now) streams.items }
    requires least { AllByRecursion (ComesFrom cost) streams.items }
    ensures streams { IfOk result (λ (left, docs). AllByRecursion (IsStream S.rows query.now) left.items) }
    ensures docs { IfOk result (λ (left, docs). (d : ℕ) → has docs.ids d
        ≡ (is_in_any streams.entry.items d && is_entry cost (entry_in S.rows query.now d))) }
    ensures left { IfOk result (λ (left, docs). (d : ℕ) → is_in_any left.items d
        ≡ (is_in_any streams.entry.items d && not (is_entry cost (entry_in S.rows query.now d)))) }
    ensures increasing { IfOk result (λ (left, docs). IsIncreasing docs.ids) }
{
    let mut found = DocSet::new(alloc);
    let mut left = Vec::with_capacity(alloc, streams.len())?;
    for stream in streams {
        let rest = take_from(alloc, stream, cost, &mut found)?;
        left.push(rest)?;
    }
    let _len = found.len();
    Ok((left, found))
}

// The documents of the least cost, with that cost, and the streams without them.
fn next_of<'a, S: RuleSource>(
    alloc: Global,
    query: &RuleQuery<'a, S>,
    streams: Vec<LevelCosts<'a, S>>,
) -> Result<Option<(Vec<LevelCosts<'a, S>>, Bucket)>, NoMemory>
    requires { AllByRecursion (IsStream S.rows query.now) streams.items }
    ensures streams { IfOk result (λ found. IfSome found (λ (left, bucket). AllByRecursion (IsStream S.rows query.now) left.items)) }
    ensures bucket { IfOk result (λ found. IfSome found (λ (left, bucket).
        IsBucket before (entry_in S.rows query.now) (remaining_in streams.entry.items) (remaining_in left.items) bucket.key
        bucket.docs.ids)) }
    ensures none { IfOk result (λ found. IfNone found (remaining_in streams.entry.items ≡ [])) }
{
    let ready = look_ahead_all(alloc, query, streams)?;
    match least_ahead(ready.as_slice()) {
        Some(cost) => {
            let (left, docs) = take_all(alloc, query, ready, cost)?;
            let key = CostKey::Number(cost);
            Ok(Some((left, Bucket { key, docs })))
        }
        None => Ok(None),
    }
}

impl<'a, S: RuleSource> BucketStream for PathBuckets<'a, S> {
    ghost use Rattle.rule_buckets.specs.Entries.{entry_in};

    ghost remaining = { λ p. p.remaining };

    ghost key = { λ p. entry_in S.rows p.query };

    /// The remaining documents of the least cost. Where memory runs out the documents that remained are let go.
    fn next_bucket<G>(
        &mut self,
        alloc: Global,
        openings: &mut Steps<G>,
    ) -> Result<Option<Bucket>, NoMemory> {
        let streams = mem::replace(&mut self.streams, Vec::new(alloc));
        match next_of(alloc, &self.query, streams)? {
            Some((left, bucket)) => {
                self.streams = left;
                openings.tick();
                Ok(Some(bucket))
            }
            None => Ok(None),
        }
    }
}
