ghost use Rattle.std.specs.Prelude.{◌≡◌, ℕ, List, filter, reverse, Option, IfOk, IfSome, IfNone};
ghost use Rattle.std.specs.Option.{option_copied};
ghost use Rattle.search_base.specs.declared.cost_key.CostKey.{CostKey as Key};
ghost use Rattle.sort_rule.specs.Rows.{is_under, IsNextFor, HasNoneAfter};
ghost use Rattle.sort_rule.specs.Ordered.{AreOrdered};
ghost use Rattle.sort_rule.specs.Numbers.{AreNumbered};

use bucket_sort::Bucket;
use doc_sets::DocSet;
use search_base::{CostKey, DocId, NoMemory};
use std::alloc::Global;

/// Documents, each with the number that it is sorted by.
#[derive(Drop)]
pub struct Numbered {
    /// Whether the least number comes first, and else the greatest.
    pub up: bool,
    pub pairs: Vec<(i64, DocId)>,
}

/// Documents under keys, which are known in their order.
pub trait OrderedRows {
    // The keys.
    ghost keys: { Self → List Key };

    // The key under which a document stands, where there is one.
    ghost key: { Self → ℕ → Option Key };

    /// A key after the given one, or any without one, such that no document of the universe stands under a key between;
    /// none where no document of the universe stands under a later key. So keys that none of them has may be passed.
    fn next_key(
        &self,
        alloc: Global,
        after: Option<&CostKey>,
        universe: &DocSet,
    ) -> Result<Option<CostKey>, NoMemory>
        ensures some { IfOk result (λ found. IfSome found (λ next.
            IsNextFor (keys self.now) (key self.now) universe.now.ids (option_copied after.entry) next)) }
        ensures none { IfOk result (λ found. IfNone found
            (HasNoneAfter (key self.now) universe.now.ids (option_copied after.entry))) };

    /// The documents of the universe that stand under a key.
    fn docs_at(&self, alloc: Global, at: &CostKey, universe: &DocSet) -> Result<DocSet, NoMemory>
        ensures { IfOk result (λ docs.
            docs.ids ≡ filter (λ d. is_under at.now (key self.now d)) universe.now.ids) };

    /// The documents of the universe, in order, each with the number whose key it stands under; none where one of them
    /// has no such key, or where another way is sooner done.
    fn numbers(&self, alloc: Global, universe: &DocSet) -> Result<Option<Numbered>, NoMemory>
        ensures { IfOk result (λ found. IfSome found (λ numbered.
            AreNumbered (key self.now) numbered.up universe.now.ids numbered.pairs.items)) };

    /// The documents of the universe in buckets by their keys, that of the least key last, where that is sooner done than
    /// going through the keys, and else none. Documents without a key stand in no bucket.
    fn ordered(&self, alloc: Global, universe: &DocSet) -> Result<Option<Vec<Bucket>>, NoMemory>
        ensures { IfOk result (λ found. IfSome found (λ buckets.
            AreOrdered (key self.now) universe.now.ids (reverse buckets.items))) };
}
