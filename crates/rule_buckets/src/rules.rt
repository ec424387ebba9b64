ghost use Rattle.std.specs.Prelude.{◌≡◌, ◌==◌, false, ◌∷◌, [], length, filter, IfOk};
ghost use Rattle.search_base.specs.Graphs.{IsGraph};
ghost use Rattle.doc_sets.specs.Sets.{has};
ghost use Rattle.bucket_sort.specs.Buckets.{AreAmong};
ghost use Rattle.rule_buckets.specs.Entries.{is_match};
ghost use Rattle.rule_buckets.specs.Listed.{left_from};
ghost use Rattle.rule_buckets.specs.Rules.{AreTheirs, IsCount, is_keyed, is_listed};

use crate::buckets::{Kind, KindBuckets, RuleBuckets};
use crate::keyed::keyed_buckets;
use crate::listed::ListedBuckets;
use crate::matching::{all_of, level_count, matching_alone, matching_levels, within};
use crate::paths::path_buckets;
use crate::query::RuleQuery;
use crate::source::RuleSource;
use bucket_sort::RuleSet;
use doc_sets::DocSet;
use search_base::{Graph, NoMemory, Rule};
use std::alloc::Global;
use std::marker::Model;

/// The documents of a universe that a query matches, and ranking rules over them.
#[derive(Drop)]
pub struct Rules<'a, S: RuleSource> {
    source: &'a S,
    graph: &'a Graph,
    rules: &'a [Rule],
    // The documents of each level, where the query has several.
    levels: Vec<DocSet>,
    matching: DocSet,
}

impl<'a, S: RuleSource> Model for Rules<'a, S> {
    ghost use Rattle.std.specs.Prelude.{◌≡◌, ℕ, true};
    ghost use Rattle.search_base.specs.Graphs.{IsGraph};
    ghost use Rattle.doc_sets.specs.Sets.{has as has_id};
    ghost use Rattle.rule_buckets.specs.Entries.{is_match as matches};
    ghost use Rattle.rule_buckets.specs.Rules.{RulesView, AreLevelsOrOne};

    ghost Value = { RulesView S };

    ghost view = { λ r. record {
      source = r.source.now;
      graph = r.graph.now;
      rules = r.rules.now;
      matching = r.matching.ids;
    } };

    ghost invariant = { λ r. IsGraph r.graph.now
        × AreLevelsOrOne (S.rows r.source.now) r.graph.now r.matching.ids r.levels.items
        × ((d : ℕ) → has_id r.matching.ids d ≡ true → matches (S.rows r.source.now d) r.graph.now ≡ true) };
}

impl<'a, S: RuleSource> Rules<'a, S> {
    /// The rules over the documents of the universe that the query matches: by a reading of one of its levels, or all
    /// of them where it has no level.
    pub fn new(
        alloc: Global,
        source: &'a S,
        graph: &'a Graph,
        rules: &'a [Rule],
        universe: &DocSet,
    ) -> Result<Rules<'a, S>, NoMemory>
        requires { IsGraph graph.now }
        ensures matching { IfOk result (λ made.
            made.matching ≡ filter (λ d. is_match (S.rows source.now d) graph.now) universe.now.ids) }
        ensures source { IfOk result (λ made. made.source ≡ source.now) }
        ensures graph { IfOk result (λ made. made.graph ≡ graph.now) }
        ensures rules { IfOk result (λ made. made.rules ≡ rules.now) }
    {
        let _len = universe.len();
        if level_count(graph) < 2 {
            let matching = matching_alone(alloc, source, graph, universe)?;
            return Ok(Rules {
                source,
                graph,
                rules,
                levels: Vec::new(alloc),
                matching,
            });
        }
        let levels = matching_levels(alloc, source, graph, universe)?;
        let matching = all_of(alloc, levels.as_slice())?;
        Ok(Rules {
            source,
            graph,
            rules,
            levels,
            matching,
        })
    }

    /// The same rules over some of the documents that match.
    pub fn narrowed(self, alloc: Global, docs: DocSet) -> Result<Rules<'a, S>, NoMemory>
        requires { AreAmong (has self.matching) docs.ids }
        ensures matching { IfOk result (λ made. made.matching ≡ docs.ids) }
        ensures source { IfOk result (λ made. made.source ≡ self.entry.source) }
        ensures graph { IfOk result (λ made. made.graph ≡ self.entry.graph) }
        ensures rules { IfOk result (λ made. made.rules ≡ self.entry.rules) }
    {
        let levels = within(alloc, self.levels.as_slice(), &docs)?;
        Ok(Rules {
            source: self.source,
            graph: self.graph,
            rules: self.rules,
            levels,
            matching: docs,
        })
    }

    /// The documents that match. Takes no memory.
    pub fn matching(&self) -> &DocSet
        ensures { result.now.ids ≡ self.now.matching }
    {
        &self.matching
    }
}

impl<'a, S: RuleSource> RuleSet for Rules<'a, S> {
    ghost use Rattle.std.specs.Prelude.{length};
    ghost use Rattle.doc_sets.specs.Sets.{has as has_id};
    ghost use Rattle.rule_buckets.specs.Entries.{entry_at as rule_entry};

    type Stream = RuleBuckets<'a, S>;

    ghost documents = { λ r. has_id r.matching };

    ghost key = { λ r level d. rule_entry (S.rows r.source d) r.graph r.rules level };

    ghost count = { λ r. length r.rules };

    fn levels(&self) -> usize {
        self.rules.len()
    }

    fn open(
        &self,
        alloc: Global,
        level: usize,
        universe: DocSet,
    ) -> Result<RuleBuckets<'a, S>, NoMemory> {
        let query = RuleQuery {
            source: self.source,
            graph: self.graph,
            rule: self.rules[level],
        };
        if is_keyed(self.graph, query.rule) {
            let buckets = KindBuckets {
                kind: Kind::Keyed(keyed_buckets(alloc, query, universe)?),
            };
            return Ok(RuleBuckets::new(buckets));
        }
        let sets = sets_of(alloc, self, universe)?;
        let buckets = counted(alloc, query, sets)?;
        Ok(buckets)
    }
}

// Whether no set is there.
fn are_none(sets: &[DocSet]) -> bool
    ensures { result ≡ (length sets.now == 0) }
{
    sets.is_empty()
}

// One set in a list.
fn alone(alloc: Global, set: DocSet) -> Result<Vec<DocSet>, NoMemory>
    ensures { IfOk result (λ sets. sets.items ≡ set ∷ []) }
{
    let mut sets = Vec::with_capacity(alloc, 1)?;
    sets.push(set)?;
    Ok(sets)
}

// Of each level the documents of a universe that match. Of one level they are the universe.
fn sets_of<'a, S: RuleSource>(
    alloc: Global,
    rules: &Rules<'a, S>,
    universe: DocSet,
) -> Result<Vec<DocSet>, NoMemory>
    requires { AreAmong (has rules.now.matching) universe.ids }
    ensures theirs { IfOk result (λ sets. AreTheirs (S.rows rules.now.source) rules.now.graph sets.items) }
    ensures all { IfOk result (λ sets. left_from 0 sets.items ≡ universe.ids) }
    ensures count { IfOk result (λ sets. IsCount rules.now.graph.levels (length sets.items)) }
{
    let _len = universe.len();
    if are_none(rules.levels.as_slice()) {
        let one = alone(alloc, universe)?;
        return Ok(one);
    }
    let sets = within(alloc, rules.levels.as_slice(), &universe)?;
    Ok(sets)
}

// Whether the index knows the entries of a rule in their order.
fn is_keyed(graph: &Graph, rule: Rule) -> bool
    ensures { result ≡ is_keyed graph.now.levels rule }
{
    match rule {
        Rule::Up(_) | Rule::Down(_) => true,
        Rule::Whole => level_count(graph) > 0,
        _ => false,
    }
}

// Whether the level that matches first is the entry.
fn is_listed(graph: &Graph, rule: Rule) -> bool
    ensures { result ≡ is_listed graph.now.levels rule }
{
    match rule {
        Rule::Words => true,
        _ => level_count(graph) == 0,
    }
}

// The documents of the sets, each of which a level matches first, under a rule that gives costs by level.
fn counted<'a, S: RuleSource>(
    alloc: Global,
    query: RuleQuery<'a, S>,
    sets: Vec<DocSet>,
) -> Result<RuleBuckets<'a, S>, NoMemory>
    requires graph { IsGraph query.graph }
    requires rule { is_keyed query.graph.levels query.rule ≡ false }
    requires sets { AreTheirs (S.rows query.source) query.graph sets.items }
    requires count { IsCount query.graph.levels (length sets.items) }
    ensures query { IfOk result (λ buckets. buckets.query ≡ query.entry) }
    ensures remaining { IfOk result (λ buckets. buckets.remaining ≡ left_from 0 sets.items) }
{
    let kind = if is_listed(query.graph, query.rule) {
        Kind::Listed(ListedBuckets {
            query,
            sets,
            next: 0,
        })
    } else {
        Kind::Paths(path_buckets(alloc, query, sets)?)
    };
    Ok(RuleBuckets::new(KindBuckets { kind }))
}
