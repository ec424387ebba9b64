ghost use Rattle.std.specs.Prelude.{◌≡◌, ◌++◌, IfOk, OnOk};
ghost use Rattle.std.specs.Option.{option_copied};
ghost use Rattle.search_base.specs.SortKeys.{sooner as sooner_by};
ghost use Rattle.facet_keys.specs.Keys.{key_bytes, IsNarrow};
ghost use Rattle.facet_index.specs.Ends.{value_before as value_before_in, first_value as first_value_in, end_facet, end_at, ends_at, ends_of, new_ends, has_path as has_path_in};
ghost use Rattle.facet_index.specs.Places.{places_of, AreNarrow};

use crate::places::place_of;
use facet_keys::{greatest_key, least_key};
use search_base::{FacetValue, Leaf, NoMemory, PathId, Place, Word};
use std::alloc::Global;

/// Adds for each path of the leaves the places of the values that come first there.
pub(crate) fn add_ends(
    alloc: Global,
    places: &mut Vec<Place>,
    leaves: &[Leaf],
) -> Result<(), NoMemory>
    ensures places { OnOk result (places.new.items ≡ places.old.items ++ places_of (ends_of leaves.now)) }
    ensures narrow { OnOk result (AreNarrow (ends_of leaves.now)) }
{
    let mut rest = leaves;
    'paths: while let Some((leaf, others)) = rest.split_first() {
        add_new_ends(alloc, places, leaves, leaf.path, others)?;
        rest = others;
    }
    Ok(())
}

// Adds the places of the values that come first under a path, unless it is the path of other leaves too.
fn add_new_ends(
    alloc: Global,
    places: &mut Vec<Place>,
    leaves: &[Leaf],
    path: PathId,
    others: &[Leaf],
) -> Result<(), NoMemory>
    ensures places { OnOk result (places.new.items
        ≡ places.old.items ++ places_of (new_ends leaves.now path.0 others.now)) }
    ensures narrow { OnOk result (AreNarrow (new_ends leaves.now path.0 others.now)) }
{
    if has_path(others, path) {
        Ok(())
    } else {
        add_ends_at(alloc, places, leaves, path)
    }
}

// Whether a leaf stands under the path.
fn has_path(leaves: &[Leaf], path: PathId) -> bool
    ensures { result ≡ has_path_in path.0 leaves.now }
{
    leaves.iter().any(|leaf| leaf.path == path)
}

// Adds the places of the values that come first under a path, ascending and descending.
fn add_ends_at(
    alloc: Global,
    places: &mut Vec<Place>,
    leaves: &[Leaf],
    path: PathId,
) -> Result<(), NoMemory>
    ensures places { OnOk result (places.new.items ≡ places.old.items ++ places_of (ends_at leaves.now path.0)) }
    ensures narrow { OnOk result (AreNarrow (ends_at leaves.now path.0)) }
{
    add_end(alloc, places, leaves, path, true)?;
    add_end(alloc, places, leaves, path, false)
}

// Adds the place of the value that comes first under a path in a direction.
fn add_end(
    alloc: Global,
    places: &mut Vec<Place>,
    leaves: &[Leaf],
    path: PathId,
    up: bool,
) -> Result<(), NoMemory>
    ensures places { OnOk result (places.new.items ≡ places.old.items ++ places_of (end_at up path.0 leaves.now)) }
    ensures narrow { OnOk result (AreNarrow (end_at up path.0 leaves.now)) }
{
    match first_value(leaves, path, up) {
        Some(value) => {
            let key = end_key(alloc, path, up, value)?;
            places.push(place_of(key))?;
            Ok(())
        }
        None => Ok(()),
    }
}

/// The key of the value that comes first under a path in a direction.
pub(crate) fn end_key(
    alloc: Global,
    path: PathId,
    up: bool,
    value: &FacetValue,
) -> Result<Word, NoMemory>
    ensures key { IfOk result (λ key. key ≡ key_bytes path.0 (end_facet up value.now)) }
    ensures narrow { IsNarrow path.0 (end_facet up value.now) }
{
    if up {
        least_key(alloc, path, value)
    } else {
        greatest_key(alloc, path, value)
    }
}

/// Of the values that leaves have under a path the one that comes first: ascending the least number, else the least
/// text, and descending the greatest number, else the greatest text. None exactly where no leaf stands under the path.
/// Takes no memory, and goes over all the leaves.
pub fn first_value(leaves: &[Leaf], path: PathId, up: bool) -> Option<&FacetValue>
    ensures { option_copied result ≡ first_value_in up path.0 leaves.now }
{
    let mut first: Option<&FacetValue> = None;
    let mut left = leaves.len();
    while left > 0 {
        left -= 1;
        let leaf = &leaves[left];
        if leaf.path == path {
            first = Some(sooner(up, &leaf.value, first));
        }
    }
    first
}

// Of a value and another, where there is one, the value that comes first in the direction; the given one where neither
// comes before the other.
fn sooner<'a>(up: bool, value: &'a FacetValue, other: Option<&'a FacetValue>) -> &'a FacetValue
    ensures { result.now ≡ sooner_by (value_before_in up) value.now (option_copied other.entry) }
{
    match other {
        Some(other) => {
            if value_before(up, other, value) {
                other
            } else {
                value
            }
        }
        None => value,
    }
}

// Whether a value comes before another.
fn value_before(up: bool, value: &FacetValue, other: &FacetValue) -> bool
    ensures { result ≡ value_before_in up value.now other.now }
{
    match value {
        FacetValue::Number(number) => match other {
            FacetValue::Number(bound) => { if up { number < bound } else { bound < number } }
            FacetValue::Text(_) => true,
        },
        FacetValue::Text(text) => match other {
            FacetValue::Number(_) => false,
            FacetValue::Text(bound) => { if up { text < bound } else { bound < text } }
        },
    }
}
