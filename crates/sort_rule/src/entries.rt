ghost use Rattle.std.specs.Prelude.{◌≡◌, ℕ, List, Option};
ghost use Rattle.std.specs.Ordering.{is_lt};
ghost use Rattle.search_base.specs.declared.cost_key.CostKey.{CostKey as Key};
ghost use Rattle.search_base.specs.CostOrder.{before};
ghost use Rattle.sort_rule.specs.Entries.{AreEntriesOf, AreRising};

use search_base::{CostKey, DocId};
use std::cmp::Ordering;

/// A document and the key that it stands under.
#[derive(Drop)]
pub struct Entry {
    pub key: CostKey,
    pub id: DocId,
}

// How two keys compare.
fn compare(key: &CostKey, other: &CostKey) -> Ordering
    ensures { is_lt result ≡ before key.now other.now }
{
    if key.before(other) {
        Ordering::Less
    } else if other.before(key) {
        Ordering::Greater
    } else {
        Ordering::Equal
    }
}

/// The same entries, none of which comes before the one that stands before it.
pub(crate) fn in_order(entries: Vec<Entry>) -> Vec<Entry>
    ensures rising { AreRising result.items }
    ensures same { (key : ℕ → Option Key) (universe : List ℕ) → AreEntriesOf key universe entries.items
        → AreEntriesOf key universe result.items }
{
    let mut entries = entries;
    entries.sort_unstable_by(|entry, other| compare(&entry.key, &other.key));
    entries
}
