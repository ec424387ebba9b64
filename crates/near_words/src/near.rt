ghost use Rattle.std.specs.Prelude.{◌≡◌, ℕ, ◌<◌, ◌≤◌, length, slice_index, List, Bool, min, if◌then◌else◌};
ghost use Rattle.search_base.specs.declared.document.Place.{Place};
ghost use Rattle.search_base.specs.PairCost.{distance, cost_between};
ghost use Rattle.sorted_pages.specs.Entries.{IsIncreasing};
ghost use Rattle.postings.specs.Documents.{AreNarrow};
ghost use Rattle.near_words.specs.EntryCost.{is_apart, cut_distance, cost_of, AreEntriesOf};

// The distance from one entry to another, cut at 8, and 8 where they are not two positions of one path.
fn distance(from: u64, to: u64) -> u64
    ensures { result ≡ (if is_apart from to then min 8 (distance from to) else 8) }
{
    if from / 0x1_0000 != to / 0x1_0000 || from == to {
        8
    } else if from < to {
        (to - from).min(8)
    } else {
        (from - to + 1).min(8)
    }
}

// The same to the entry at a place of a list, and 8 where the list has none there.
fn distance_to(from: u64, list: &[u64], at: usize) -> u64
    ensures some { at < length list.now → result
        ≡ (if is_apart from (slice_index list.now at) then min 8 (distance from (slice_index list.now at)) else 8) }
    ensures none { length list.now ≤ at → result ≡ 8 }
{
    match list.get(at) {
        Some(to) => distance(from, *to),
        None => 8,
    }
}

// The least distance from an entry of one list to one of the other, cut at 8. Both lists are gone over once: an entry
// is compared with the nearest ones of the other list, before it and behind it.
fn least_distance(left: &[u64], right: &[u64]) -> u64
    requires left { IsIncreasing left.now }
    requires right { IsIncreasing right.now }
    ensures { result ≡ cut_distance left.now right.now }
{
    let mut least: u64 = 8;
    let mut i = 0;
    let mut j = 0;
    while i < left.len() && j < right.len() {
        let (from, to) = (left[i], right[j]);
        if to < from {
            least = least.min(distance(from, to));
            j += 1;
        } else {
            let next = if from == to { j + 1 } else { j };
            least = least.min(distance_to(from, right, next));
            i += 1;
        }
    }
    least
}

/// The pair cost of two words of a document, from 0 to 7, given the entries of the places of each, in increasing order:
/// the least distance from one word to the other in one path, cut at 8, less 1. It takes time in proportion to the
/// places, and no memory.
pub fn pair_cost(left: &[u64], right: &[u64]) -> u8
    requires left { IsIncreasing left.now }
    requires right { IsIncreasing right.now }
    ensures entries { result ≡ cost_of left.now right.now }
    ensures document { (id : ℕ) (places : List Place) (is_left is_right : List ℕ → Bool) → AreNarrow places
        → AreEntriesOf id places is_left left.now → AreEntriesOf id places is_right right.now
        → result ≡ cost_between places is_left is_right }
    ensures small { result ≤ 7 }
{
    least_distance(left, right).saturating_sub(1) as u8
}
