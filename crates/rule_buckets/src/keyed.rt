ghost use Rattle.std.specs.Prelude.{◌≡◌, true, filter, IfOk};
ghost use Rattle.std.specs.Option.{option_copied};
ghost use Rattle.sort_rule.specs.Rows.{next_of, is_under};
ghost use Rattle.rule_buckets.specs.Keyed.{whole_keys, known_cost, missing_of, key_kind, key_in};
ghost use Rattle.rule_buckets.specs.Rules.{is_keyed};

use crate::query::RuleQuery;
use crate::source::RuleSource;
use bucket_sort::{Bucket, BucketStream};
use doc_sets::DocSet;
use search_base::{CostKey, NoMemory, PathId, Rule, SortKey, Steps};
use sort_rule::{Numbered, OrderedRows, SortBuckets};
use std::alloc::Global;
use std::marker::Model;
use std::mem;

/// The documents of an index by the entries of a rule on values, or of the one on whole attributes.
#[derive(Drop)]
pub(crate) struct KeyedRows<'a, S: RuleSource> {
    pub(crate) query: RuleQuery<'a, S>,
}

impl<'a, S: RuleSource> OrderedRows for KeyedRows<'a, S> {
    ghost use Rattle.rule_buckets.specs.Keyed.{keys_of, key_in};

    ghost keys = { λ k. keys_of (S.keys k.query.source) k.query.rule };

    ghost key = { λ k. key_in S.rows k.query };

    fn next_key(
        &self,
        alloc: Global,
        after: Option<&CostKey>,
        universe: &DocSet,
    ) -> Result<Option<CostKey>, NoMemory> {
        let source = self.query.source;
        match key_kind(self.query.rule) {
            KeyKind::Whole => Ok(next_whole(after)),
            KeyKind::Values { path, up } => source.next_key(alloc, path, up, after, universe),
            KeyKind::Nothing => Ok(None),
        }
    }

    fn docs_at(&self, alloc: Global, at: &CostKey, universe: &DocSet) -> Result<DocSet, NoMemory> {
        docs_under(alloc, &self.query, at, universe)
    }

    /// What the source tells of the values of a path, and nothing of whole attributes.
    fn numbers(&self, alloc: Global, universe: &DocSet) -> Result<Option<Numbered>, NoMemory> {
        match key_kind(self.query.rule) {
            KeyKind::Values { path, up } => {
                let source = self.query.source;
                match source.numbers(alloc, path, universe)? {
                    Some(pairs) => Ok(Some(Numbered { up, pairs })),
                    None => Ok(None),
                }
            }
            KeyKind::Whole | KeyKind::Nothing => Ok(None),
        }
    }

    /// What the source tells of the values of a path, and nothing of whole attributes.
    fn ordered(&self, alloc: Global, universe: &DocSet) -> Result<Option<Vec<Bucket>>, NoMemory> {
        match key_kind(self.query.rule) {
            KeyKind::Values { path, up } => {
                let source = self.query.source;
                let buckets = source.ordered(alloc, path, up, universe)?;
                Ok(buckets)
            }
            KeyKind::Whole | KeyKind::Nothing => Ok(None),
        }
    }
}

// The documents of the universe that have an entry.
fn docs_under<'a, S: RuleSource>(
    alloc: Global,
    query: &RuleQuery<'a, S>,
    at: &CostKey,
    universe: &DocSet,
) -> Result<DocSet, NoMemory>
    ensures { IfOk result (λ set.
        set.ids ≡ filter (λ d. is_under at.now (key_in S.rows query.now d)) universe.now.ids) }
{
    match key_kind(query.rule) {
        KeyKind::Whole => match known_cost(at) {
            Some(cost) => {
                let graph = query.graph;
                let docs = query
                    .source
                    .at_whole_cost(alloc, graph.whole.as_slice(), cost, universe)?;
                Ok(docs)
            }
            None => Ok(DocSet::new(alloc)),
        },
        KeyKind::Values { path, up } => {
            let docs = query.source.docs_at(alloc, path, up, at, universe)?;
            Ok(docs)
        }
        KeyKind::Nothing => Ok(DocSet::new(alloc)),
    }
}

// What documents are known by under a rule.
#[derive(Clone, Copy, Drop)]
pub(crate) enum KeyKind {
    // How near a path is to the query.
    Whole,
    // The values of a path, ascending or not.
    Values { path: PathId, up: bool },
    // Nothing: no document has a key.
    Nothing,
}

fn key_kind(rule: Rule) -> KeyKind
    ensures { result ≡ key_kind rule }
{
    match rule {
        Rule::Whole => KeyKind::Whole,
        Rule::Up(Some(path)) => KeyKind::Values { path, up: true },
        Rule::Down(Some(path)) => KeyKind::Values { path, up: false },
        _ => KeyKind::Nothing,
    }
}

// The cost of a whole attribute by which documents are known, if the entry is one.
fn known_cost(at: &CostKey) -> Option<u32>
    ensures { result ≡ known_cost at.now }
{
    match at {
        CostKey::Number(cost) => { if *cost < 2 { Some(*cost) } else { None } }
        CostKey::Up(_) => None,
        CostKey::Down(_) => None,
    }
}

// The costs 0 and 1 of whole attributes, by which documents are known; the others cost 2.
fn next_whole(after: Option<&CostKey>) -> Option<CostKey>
    ensures { result ≡ next_of whole_keys (option_copied after.entry) }
{
    match after {
        None => Some(CostKey::Number(0)),
        Some(CostKey::Number(0)) => Some(CostKey::Number(1)),
        Some(_) => None,
    }
}

/// The entry of documents without a key.
pub(crate) fn missing_of(rule: Rule) -> CostKey
    ensures { result ≡ missing_of rule }
{
    match rule {
        Rule::Up(_) => CostKey::Up(SortKey::Missing),
        Rule::Down(_) => CostKey::Down(SortKey::Missing),
        _ => CostKey::Number(2),
    }
}

/// The documents of a universe under a rule whose entries the index knows in their order.
#[derive(Drop)]
pub(crate) struct KeyedBuckets<'a, S: RuleSource> {
    query: RuleQuery<'a, S>,
    // None where memory has run out.
    stream: Option<SortBuckets<KeyedRows<'a, S>>>,
}

impl<'a, S: RuleSource> Model for KeyedBuckets<'a, S> {
    ghost use Rattle.std.specs.Prelude.{◌≡◌, ℕ, [], unwrap_or, IfSome};
    ghost use Rattle.std.specs.Option.{option_map};
    ghost use Rattle.sort_rule.specs.Buckets.{key_or};
    ghost use Rattle.rule_buckets.specs.Entries.{StreamView, entry_in};
    ghost use Rattle.rule_buckets.specs.Keyed.{key_in};

    ghost Value = { StreamView S };

    ghost view = { λ k. record {
      query = k.query;
      remaining = unwrap_or (option_map (λ s. s.remaining) k.stream) [];
    } };

    ghost invariant = { λ k. IfSome k.stream (λ s. (d : ℕ)
        → key_or (key_in S.rows s.rows.query) s.missing d ≡ entry_in S.rows k.query d) };
}

/// The documents of a universe by their entries; those without a key come last. An error says that there is no memory.
pub(crate) fn keyed_buckets<'a, S: RuleSource>(
    alloc: Global,
    query: RuleQuery<'a, S>,
    universe: DocSet,
) -> Result<KeyedBuckets<'a, S>, NoMemory>
    requires { is_keyed query.graph.levels query.rule ≡ true }
    ensures query { IfOk result (λ buckets. buckets.query ≡ query.entry) }
    ensures remaining { IfOk result (λ buckets. buckets.remaining ≡ universe.ids) }
{
    let missing = missing_of(query.rule);
    let rows = KeyedRows {
        query: RuleQuery {
            source: query.source,
            graph: query.graph,
            rule: query.rule,
        },
    };
    let stream = SortBuckets::new(alloc, rows, missing, universe)?;
    Ok(KeyedBuckets {
        query,
        stream: Some(stream),
    })
}

impl<'a, S: RuleSource> BucketStream for KeyedBuckets<'a, S> {
    ghost use Rattle.rule_buckets.specs.Entries.{entry_in};

    ghost remaining = { λ k. k.remaining };

    ghost key = { λ k. entry_in S.rows k.query };

    /// The remaining documents of the least entry. Where memory runs out the documents that remained are let go.
    fn next_bucket<G>(
        &mut self,
        alloc: Global,
        openings: &mut Steps<G>,
    ) -> Result<Option<Bucket>, NoMemory> {
        let Some(stream) = mem::replace(&mut self.stream, None) else {
            return Ok(None);
        };
        let mut stream = stream;
        let found = stream.next_bucket(alloc, openings)?;
        self.stream = Some(stream);
        Ok(found)
    }
}
