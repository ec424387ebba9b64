//! A source as that of a condition graph, which keeps the tables that it made.
ghost use Rattle.std.specs.Prelude.{◌≡◌, ℕ, true, filter, IfOk, IfSome, Some, is_some};
ghost use Rattle.std.specs.List.{AllByRecursion};
ghost use Rattle.condition_graph.specs.Meets.{meets};
ghost use Rattle.condition_graph.specs.Numbers.{number_of, at_number};
ghost use Rattle.condition_graph.specs.Promise.{IsCondition};
ghost use Rattle.doc_sets.specs.Sets.{has, intersection};
ghost use Rattle.path_costs.specs.Sets.{set_at};
ghost use Rattle.rule_buckets.specs.Tables.{IsTable};

use crate::source::RuleSource;
use condition_graph::Condition;
use doc_sets::DocSet;
use path_costs::Resolve;
use search_base::NoMemory;
use std::alloc::Global;
use std::marker::Model;

/// The documents of a universe by the number of a condition.
#[derive(Drop)]
pub(crate) struct Table {
    pub(crate) condition: Condition,
    pub(crate) universe: DocSet,
    pub(crate) rows: Vec<(u16, DocSet)>,
}

/// A source as that of a condition graph. The tables that are made are kept, so that the numbers of one term are one
/// question.
#[derive(Drop)]
pub(crate) struct Asked<'a, S: RuleSource> {
    source: &'a S,
    tables: Vec<Table>,
}

impl<'a, S: RuleSource> Model for Asked<'a, S> {
    ghost use Rattle.std.specs.List.{AllByRecursion};
    ghost use Rattle.rule_buckets.specs.Tables.{IsTable};

    ghost Value = { S };

    ghost view = { λ asked. asked.source.now };

    ghost invariant = { λ asked. AllByRecursion (IsTable (S.rows asked.source.now)) asked.tables.items };
}

impl<'a, S: RuleSource> Asked<'a, S> {
    /// A source of which nothing is kept yet. Takes no memory.
    pub(crate) fn new(alloc: Global, source: &'a S) -> Asked<'a, S>
        ensures { result ≡ source.now }
    {
        Asked {
            source,
            tables: Vec::new(alloc),
        }
    }
}

// Whether each document of a set is in another.
fn is_within(docs: &DocSet, all: &DocSet) -> bool
    ensures { result ≡ true → (d : ℕ) → has docs.now.ids d ≡ true → has all.now.ids d ≡ true }
{
    docs.and_len(all) == docs.len()
}

// Whether a table tells of a condition and a universe.
fn tells(table: &Table, condition: &Condition, universe: &DocSet) -> bool
    ensures alike { result ≡ true → (n : ℕ) → number_of condition.now ≡ Some n
        → condition.now ≡ at_number n table.now.condition }
    ensures whole { result ≡ true → (d : ℕ) → has universe.now.ids d ≡ true → has table.now.universe.ids d ≡ true }
{
    table.condition.is_alike(condition) && is_within(universe, &table.universe)
}

// The table of a condition and a universe.
fn table_of<S: RuleSource>(
    alloc: Global,
    source: &S,
    condition: &Condition,
    universe: &DocSet,
) -> Result<Table, NoMemory>
    requires condition { IsCondition condition.now }
    requires number { is_some (number_of condition.now) ≡ true }
    ensures right { IfOk result (IsTable (S.rows source.now)) }
    ensures condition { IfOk result (λ table. table.condition ≡ condition.now) }
    ensures universe { IfOk result (λ table. table.universe.ids ≡ universe.now.ids) }
{
    let rows = source.meeting_by_number(alloc, condition, universe)?;
    let condition = condition.clone()?;
    let universe = universe.clone()?;
    Ok(Table {
        condition,
        universe,
        rows,
    })
}

// The documents of the universe that stand at a number.
fn docs_at(
    alloc: Global,
    rows: &[(u16, DocSet)],
    number: u16,
    universe: &DocSet,
) -> Result<DocSet, NoMemory>
    ensures { IfOk result (λ set. set.ids ≡ intersection universe.now.ids (set_at number rows.now)) }
{
    for row in rows {
        if row.0 == number {
            let docs = universe.and(alloc, &row.1)?;
            return Ok(docs);
        }
    }
    Ok(DocSet::new(alloc))
}

// The documents of the universe that meet a condition on a number, where a table that is kept tells of them.
fn docs_kept<S: RuleSource>(
    alloc: Global,
    _source: &S,
    tables: &[Table],
    condition: &Condition,
    number: u16,
    universe: &DocSet,
) -> Result<Option<DocSet>, NoMemory>
    requires condition { IsCondition condition.now }
    requires number { number_of condition.now ≡ Some number }
    requires tables { AllByRecursion (IsTable (S.rows _source.now)) tables.now }
    ensures { IfOk result (λ found. IfSome found (λ docs. docs.ids
        ≡ filter (λ d. meets (S.rows _source.now d).places condition.now) universe.now.ids)) }
{
    for table in tables {
        if tells(table, condition, universe) {
            let docs = docs_at(alloc, table.rows.as_slice(), number, universe)?;
            return Ok(Some(docs));
        }
    }
    Ok(None)
}

// Keeps a table. Without memory it is dropped.
fn keep<S: RuleSource>(_source: &S, tables: &mut Vec<Table>, table: Table) -> Result<(), NoMemory>
    requires table { IsTable (S.rows _source.now) table }
    requires tables { AllByRecursion (IsTable (S.rows _source.now)) tables.old.items }
    ensures { AllByRecursion (IsTable (S.rows _source.now)) tables.new.items }
{
    tables.push(table)?;
    Ok(())
}

// The documents of the universe that meet a condition. Of one on a number a table is made, unless they are at hand or
// a table tells of them.
fn documents_meeting<S: RuleSource>(
    alloc: Global,
    source: &S,
    tables: &mut Vec<Table>,
    condition: &Condition,
    universe: &DocSet,
) -> Result<DocSet, NoMemory>
    requires condition { IsCondition condition.now }
    requires tables { AllByRecursion (IsTable (S.rows source.now)) tables.old.items }
    ensures tables { AllByRecursion (IsTable (S.rows source.now)) tables.new.items }
    ensures docs { IfOk result (λ docs. docs.ids
        ≡ filter (λ d. meets (S.rows source.now d).places condition.now) universe.now.ids) }
{
    let Some(number) = condition.number() else {
        let docs = source.meeting(alloc, condition, universe)?;
        return Ok(docs);
    };
    let kept = tables.as_slice();
    if let Some(docs) = docs_kept(alloc, source, kept, condition, number, universe)? {
        return Ok(docs);
    }
    if let Some(docs) = source.at_hand(alloc, condition, universe)? {
        return Ok(docs);
    }
    let table = table_of(alloc, source, condition, universe)?;
    let docs = docs_at(alloc, table.rows.as_slice(), number, universe)?;
    keep(source, tables, table)?;
    Ok(docs)
}

impl<'a, S: RuleSource> Resolve for Asked<'a, S> {
    ghost use Rattle.std.specs.Prelude.{refl};
    ghost use Rattle.condition_graph.specs.Meets.{meets as condition_meets};

    ghost meets = { λ asked condition d. condition_meets (S.rows asked d).places condition };

    ghost free = { λ asked d. refl };

    fn docs(
        &mut self,
        alloc: Global,
        condition: &Condition,
        universe: &DocSet,
    ) -> Result<DocSet, NoMemory> {
        documents_meeting(alloc, self.source, &mut self.tables, condition, universe)
    }

    fn docs_by_number(
        &self,
        alloc: Global,
        condition: &Condition,
        universe: &DocSet,
    ) -> Result<Vec<(u16, DocSet)>, NoMemory> {
        self.source.meeting_by_number(alloc, condition, universe)
    }
}
