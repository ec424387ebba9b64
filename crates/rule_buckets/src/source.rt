ghost use Rattle.std.specs.Prelude.{◌≡◌, ◌==◌, ◌<◌, ℕ, Bool, true, List, filter, reverse, IfOk, IfSome, IfNone, is_some};
ghost use Rattle.std.specs.List.{AllByRecursion};
ghost use Rattle.std.specs.Option.{option_copied};
ghost use Rattle.search_base.specs.RowsView.{RowsView};
ghost use Rattle.search_base.specs.Whole.{whole_cost};
ghost use Rattle.search_base.specs.declared.cost_key.CostKey.{CostKey as Key};
ghost use Rattle.condition_graph.specs.Meets.{meets, IsRanked};
ghost use Rattle.condition_graph.specs.Numbers.{number_of};
ghost use Rattle.condition_graph.specs.Promise.{IsCondition};
ghost use Rattle.path_costs.specs.Sets.{AreByNumber};
ghost use Rattle.sort_rule.specs.Rows.{AreRows, is_under, IsNextFor, HasNoneAfter};
ghost use Rattle.sort_rule.specs.Ordered.{AreOrdered};
ghost use Rattle.sort_rule.specs.Numbers.{AreNumbered};
ghost use Rattle.rule_buckets.specs.Entries.{sort_entry, missing_entry};

use bucket_sort::Bucket;
use condition_graph::Condition;
use doc_sets::DocSet;
use search_base::{CostKey, DocId, NoMemory, PathId, Word};
use std::alloc::Global;

/// An index as ranking rules see it. A universe is a set of its documents; each answer is about these alone.
pub trait RuleSource {
    // The rows of each document.
    ghost rows: { Self → ℕ → RowsView };

    // The entries of a path in a direction, ascending or not.
    ghost keys: { Self → Bool → ℕ → List Key };

    /// A number above each rank that a place has.
    fn ranks(&self) -> u16
        ensures { (d : ℕ) → AllByRecursion (IsRanked result) (rows self.now d).places };

    /// The documents of the universe that meet a condition, which is one of a condition graph's.
    fn meeting(
        &self,
        alloc: Global,
        condition: &Condition,
        universe: &DocSet,
    ) -> Result<DocSet, NoMemory>
        requires { IsCondition condition.now }
        ensures { IfOk result (λ set.
            set.ids ≡ filter (λ d. meets (rows self.now d).places condition.now) universe.now.ids) };

    /// The same, where it is at hand without going over a long list, and else none.
    fn at_hand(
        &self,
        alloc: Global,
        condition: &Condition,
        universe: &DocSet,
    ) -> Result<Option<DocSet>, NoMemory>
        requires { IsCondition condition.now }
        ensures { IfOk result (λ found. IfSome found (λ set.
            set.ids ≡ filter (λ d. meets (rows self.now d).places condition.now) universe.now.ids)) };

    /// The same of a condition on a number, for all its numbers at once: rows with a number and the documents that meet
    /// the condition on it. Of a number that is in no row there are none, and of two rows with one number the first
    /// counts.
    fn meeting_by_number(
        &self,
        alloc: Global,
        condition: &Condition,
        universe: &DocSet,
    ) -> Result<Vec<(u16, DocSet)>, NoMemory>
        requires condition { IsCondition condition.now }
        requires number { is_some (number_of condition.now) ≡ true }
        ensures { IfOk result (λ sets. AreByNumber (λ asked d. meets (rows self.now d).places asked)
            condition.now universe.now.ids sets.items) };

    /// The documents of the universe that have a path whose words are exactly these (cost 0), or have none such and
    /// one that begins so (cost 1).
    fn at_whole_cost(
        &self,
        alloc: Global,
        words: &[Word],
        cost: u32,
        universe: &DocSet,
    ) -> Result<DocSet, NoMemory>
        requires { cost < 2 }
        ensures { IfOk result (λ set.
            set.ids ≡ filter (λ d. whole_cost (rows self.now d).places words.now == cost) universe.now.ids) };

    /// An entry of the path after the given one, or any without one, such that no document of the universe has an entry
    /// between; none where no document of the universe has a later one.
    fn next_key(
        &self,
        alloc: Global,
        path: PathId,
        up: bool,
        after: Option<&CostKey>,
        universe: &DocSet,
    ) -> Result<Option<CostKey>, NoMemory>
        ensures some { IfOk result (λ found. IfSome found (λ next.
            IsNextFor (keys self.now up path.0) (λ d. sort_entry up path.0 (rows self.now d).leaves)
            universe.now.ids (option_copied after.entry) next)) }
        ensures none { IfOk result (λ found. IfNone found
            (HasNoneAfter (λ d. sort_entry up path.0 (rows self.now d).leaves) universe.now.ids
            (option_copied after.entry))) };

    /// The documents of the universe that have this entry under the path.
    fn docs_at(
        &self,
        alloc: Global,
        path: PathId,
        up: bool,
        at: &CostKey,
        universe: &DocSet,
    ) -> Result<DocSet, NoMemory>
        ensures { IfOk result (λ set.
            set.ids ≡ filter (λ d. is_under at.now (sort_entry up path.0 (rows self.now d).leaves)) universe.now.ids) };

    /// The documents of the universe, in order, each with the number that its entry under the path is of, whatever the
    /// direction; none where one of them has no such entry, or where another way is sooner done.
    fn numbers(
        &self,
        alloc: Global,
        path: PathId,
        universe: &DocSet,
    ) -> Result<Option<Vec<(i64, DocId)>>, NoMemory>
        ensures { IfOk result (λ found. IfSome found (λ pairs. (up : Bool) → AreNumbered
            (λ d. sort_entry up path.0 (rows self.now d).leaves) up universe.now.ids pairs.items)) };

    /// The documents of the universe in buckets by their entries under the path, that of the least entry last, where that
    /// is sooner done than going through the entries, and else none. Documents without an entry stand in no bucket.
    fn ordered(
        &self,
        alloc: Global,
        path: PathId,
        up: bool,
        universe: &DocSet,
    ) -> Result<Option<Vec<Bucket>>, NoMemory>
        ensures { IfOk result (λ found. IfSome found (λ buckets.
            AreOrdered (λ d. sort_entry up path.0 (rows self.now d).leaves) universe.now.ids (reverse buckets.items))) };

    /// Each document has one of the entries of a path, or none.
    ghost sorted: { (source : Self) (up : Bool) (path : ℕ)
        → AreRows (keys source up path) (λ d. sort_entry up path (rows source d).leaves) (missing_entry up) };
}
