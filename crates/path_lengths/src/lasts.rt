ghost use Rattle.std.specs.Prelude.{◌≡◌, ℕ, ◌+◌, ◌<◌, ◌^◌, length, slice_index, drop, IfOk};
ghost use Rattle.sorted_pages.specs.Entries.{has, IsIncreasing};
ghost use Rattle.postings.specs.Documents.{AreNarrow};
ghost use Rattle.path_lengths.specs.Lasts.{spot_of, is_taken, goes_on};

use search_base::{NoMemory, Place};
use std::alloc::Global;

// The path and the position of a place as one number.
fn spot_of(place: &Place) -> u32
    ensures spot { result ≡ spot_of place.now }
    ensures path { place.now.path.0 < 2 ^ 16 }
    ensures position { place.now.position < 2 ^ 16 }
{
    let path = u32::from(place.path.0);
    let position = u32::from(place.position);
    path * 0x1_0000 + position
}

// The same numbers in order, each once.
fn in_order(spots: Vec<u32>) -> Vec<u32>
    ensures increasing { IsIncreasing result.items }
    ensures same { (spot : ℕ) → has result.items spot ≡ has spots.items spot }
{
    let mut spots = spots;
    spots.sort_unstable();
    spots.dedup();
    spots
}

// The paths and positions of the places, in order.
pub(crate) fn spots_of(alloc: Global, places: &[Place]) -> Result<Vec<u32>, NoMemory>
    ensures increasing { IfOk result (λ spots. IsIncreasing spots.items) }
    ensures same { IfOk result (λ spots. (spot : ℕ) → has spots.items spot ≡ is_taken places.now spot) }
    ensures narrow { IfOk result (λ _. AreNarrow places.now) }
{
    let mut spots = Vec::with_capacity(alloc, places.len())?;
    for place in places {
        spots.push(spot_of(place))?;
    }
    Ok(in_order(spots))
}

// Whether the spot at an index is not the last of its path.
pub(crate) fn goes_on(spots: &[u32], index: usize) -> bool
    requires { index < length spots.now }
    ensures { result ≡ goes_on (slice_index spots.now index) (drop (index + 1) spots.now) }
{
    match spots.get(index + 1) {
        Some(next) => *next / 0x1_0000 == spots[index] / 0x1_0000,
        None => false,
    }
}
