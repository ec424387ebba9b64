ghost use Rattle.std.specs.Prelude.{◌≡◌, ◌∷◌, [], ◌++◌, List, IfOk, OnOk};
ghost use Rattle.search_base.specs.declared.document.Leaf.{Leaf as Seen};
ghost use Rattle.facet_counts.specs.Counts.{text_of};
ghost use Rattle.facet_keys.specs.Keys.{counted, key_bytes};
ghost use Rattle.facet_index.specs.Counted.{counted_of, new_counted, if_other, HasSeen};
ghost use Rattle.facet_index.specs.Places.{places_of, AreNarrow};

use crate::places::place_of;
use facet_keys::{counted_key, keys_tell_facets_apart, spelling_key};
use search_base::{FacetValue, Leaf, NoMemory, PathId, Place, Word};
use std::alloc::Global;
use std::collections::BTreeSet;

/// Adds for each text as which leaves are counted under a path its place, and that of the spelling of its first leaf,
/// where this is another than the text.
pub(crate) fn add_counted(
    alloc: Global,
    places: &mut Vec<Place>,
    leaves: &[Leaf],
) -> Result<(), NoMemory>
    ensures places { OnOk result (places.new.items ≡ places.old.items ++ places_of (counted_of leaves.now)) }
    ensures narrow { OnOk result (AreNarrow (counted_of leaves.now)) }
{
    // A set keeps this at n log n comparisons.
    let mut seen = BTreeSet::new(alloc);
    for leaf in leaves {
        add_new(alloc, places, &mut seen, leaf)?;
    }
    Ok(())
}

// Adds the places of a leaf for its count, unless its text was seen.
fn add_new(
    alloc: Global,
    places: &mut Vec<Place>,
    seen: &mut BTreeSet<Word>,
    leaf: &Leaf,
) -> Result<(), NoMemory>
    ensures places { OnOk result ((before : List Seen) → HasSeen seen.old before
        → places.new.items ≡ places.old.items ++ places_of (new_counted before leaf.now)) }
    ensures narrow { OnOk result ((before : List Seen) → HasSeen seen.old before
        → AreNarrow (new_counted before leaf.now)) }
    ensures seen { OnOk result ((before : List Seen) → HasSeen seen.old before
        → HasSeen seen.new (before ++ leaf.now ∷ [])) }
{
    keys_tell_facets_apart();
    let text = count_text(alloc, &leaf.value)?;
    let key = counted_key(alloc, leaf.path, text.as_str())?;
    if seen.insert(key.clone()?)? {
        places.push(place_of(key))?;
        add_other(alloc, places, leaf.path, &text, &leaf.shown)?;
    }
    Ok(())
}

// Adds the place of a spelling, unless it is the text itself.
fn add_other(
    alloc: Global,
    places: &mut Vec<Place>,
    path: PathId,
    text: &Word,
    shown: &Word,
) -> Result<(), NoMemory>
    ensures places { OnOk result (places.new.items
        ≡ places.old.items ++ places_of (if_other path.0 text.now shown.now)) }
    ensures narrow { OnOk result (AreNarrow (if_other path.0 text.now shown.now)) }
{
    if shown == text {
        return Ok(());
    }
    let key = spelling_key(alloc, path, text.as_str(), shown.as_str())?;
    places.push(place_of(key))?;
    Ok(())
}

// The text as which a value is counted: its normal form, or the decimal text of a number.
fn count_text(alloc: Global, value: &FacetValue) -> Result<Word, NoMemory>
    ensures { IfOk result (λ text. text ≡ text_of value.now) }
{
    match value {
        FacetValue::Number(number) => Word::from_string(format!(in alloc; "{number}")?),
        FacetValue::Text(form) => Ok(form.clone()?),
    }
}
