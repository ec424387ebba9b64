ghost use Rattle.std.specs.Prelude.{◌≡◌, IfOk};

use crate::answers::{
    above_ranks, documents_at_cost, documents_under, next_entry, numbers_under, ordered_under,
};
use crate::by_number::meeting_by_number;
use crate::indexed::IndexedRows;
use crate::lists::SearchLists;
use crate::met::{meeting, meeting_at_hand};
use bucket_sort::Bucket;
use condition_graph::Condition;
use doc_sets::DocSet;
use rule_buckets::RuleSource;
use search_base::{CostKey, DocId, Graph, NoMemory, PathId, Word};
use std::alloc::Global;
use std::marker::Model;

/// An index as ranking rules see it, while nothing in it changes. Seen as what has the index.
#[derive(Drop)]
pub struct Snapshot<'a, I: IndexedRows> {
    rows: &'a I,
    lists: SearchLists<'a>,
}

impl<'a, I: IndexedRows> Model for Snapshot<'a, I> {
    ghost use Rattle.std.specs.Prelude.{map};
    ghost use Rattle.postings.specs.Fresh.{StandsFor};
    ghost use Rattle.posting_sets.specs.Blocks.{HaveRanks};
    ghost use Rattle.row_index.specs.Standing.{placed};

    ghost Value = { I };

    ghost view = { λ snapshot. snapshot.rows.now };

    ghost invariant = { λ snapshot.
        StandsFor snapshot.lists.postings (map placed (I.documents snapshot.rows.now))
        × HaveRanks snapshot.lists.ranks (map placed (I.documents snapshot.rows.now)) };
}

impl<'a, I: IndexedRows> Snapshot<'a, I> {
    /// The snapshot of an index as it is. Takes no memory.
    pub fn new(alloc: Global, rows: &'a I) -> Snapshot<'a, I>
        ensures { result ≡ rows.now }
    {
        let index = rows.index();
        Snapshot {
            rows,
            lists: SearchLists::new(alloc, index.places(), rows.ranks()),
        }
    }

    /// The same, where a query is asked of it: the places of each prefix of the query are gathered once. An error is
    /// want of memory.
    pub fn of_query(
        alloc: Global,
        rows: &'a I,
        query: &'a Graph,
    ) -> Result<Snapshot<'a, I>, NoMemory>
        ensures { IfOk result (λ made. made ≡ rows.now) }
    {
        let mut made = Snapshot::new(alloc, rows);
        made.lists.gather_all(alloc, query)?;
        Ok(made)
    }

    /// What has the index. Takes no memory.
    pub fn rows(&self) -> &I
        ensures { result.now ≡ self.now }
    {
        self.rows
    }
}

impl<'a, I: IndexedRows> RuleSource for Snapshot<'a, I> {
    ghost use Rattle.doc_search.specs.Entries.{sort_keys};
    ghost use Rattle.doc_search.specs.Laws.{sorted_at};
    ghost use Rattle.doc_search.specs.Rows.{rows_at};

    ghost rows = { λ snapshot. rows_at (I.documents snapshot) };

    ghost keys = { λ snapshot up path. sort_keys up path (I.documents snapshot) };

    ghost sorted = { λ snapshot up path. sorted_at up path (I.documents snapshot) };

    fn ranks(&self) -> u16 {
        above_ranks(self.rows)
    }

    fn meeting(
        &self,
        alloc: Global,
        condition: &Condition,
        universe: &DocSet,
    ) -> Result<DocSet, NoMemory> {
        meeting(alloc, &self.lists, condition, universe)
    }

    fn at_hand(
        &self,
        alloc: Global,
        condition: &Condition,
        universe: &DocSet,
    ) -> Result<Option<DocSet>, NoMemory> {
        meeting_at_hand(alloc, &self.lists, condition, universe)
    }

    fn meeting_by_number(
        &self,
        alloc: Global,
        condition: &Condition,
        universe: &DocSet,
    ) -> Result<Vec<(u16, DocSet)>, NoMemory> {
        meeting_by_number(alloc, &self.lists, condition, universe)
    }

    fn at_whole_cost(
        &self,
        alloc: Global,
        words: &[Word],
        cost: u32,
        universe: &DocSet,
    ) -> Result<DocSet, NoMemory> {
        documents_at_cost(alloc, self.rows, words, cost, universe)
    }

    fn next_key(
        &self,
        alloc: Global,
        path: PathId,
        up: bool,
        after: Option<&CostKey>,
        universe: &DocSet,
    ) -> Result<Option<CostKey>, NoMemory> {
        next_entry(alloc, self.rows, path, up, after, universe)
    }

    fn docs_at(
        &self,
        alloc: Global,
        path: PathId,
        up: bool,
        at: &CostKey,
        universe: &DocSet,
    ) -> Result<DocSet, NoMemory> {
        documents_under(alloc, self.rows, path, up, at, universe)
    }

    fn numbers(
        &self,
        alloc: Global,
        path: PathId,
        universe: &DocSet,
    ) -> Result<Option<Vec<(i64, DocId)>>, NoMemory> {
        numbers_under(alloc, self.rows, path, universe)
    }

    fn ordered(
        &self,
        alloc: Global,
        path: PathId,
        up: bool,
        universe: &DocSet,
    ) -> Result<Option<Vec<Bucket>>, NoMemory> {
        ordered_under(alloc, self.rows, path, up, universe)
    }
}
