ghost use Rattle.std.specs.Prelude.{◌≡◌, ℕ, ◌++◌, IfOk, OnOk};
ghost use Rattle.facet_index.specs.LeavesView.{leaves_at};
ghost use Rattle.facet_index.specs.Places.{keyed, place_of, places_of as places_in, leaf_facets, mark_facets, AreNarrow, IsNarrowDocument};

use crate::counted::add_counted;
use crate::ends::add_ends;
use facet_keys::{mark_key, value_key};
use search_base::{Leaf, Mark, NoMemory, PathId, Place, Word};
use std::alloc::Global;

// The places of a document's keys.
pub(crate) fn places_of(
    alloc: Global,
    leaves: &[Leaf],
    marks: &[Mark],
) -> Result<Vec<Place>, NoMemory>
    ensures places { IfOk result (λ places. (id : ℕ)
        → places.items ≡ (keyed (leaves_at id leaves.now marks.now)).places) }
    ensures narrow { OnOk result ((id : ℕ) → IsNarrowDocument (leaves_at id leaves.now marks.now)) }
{
    let mut places = Vec::new(alloc);
    add_leaves(alloc, &mut places, leaves)?;
    add_marks(alloc, &mut places, marks)?;
    add_ends(alloc, &mut places, leaves)?;
    add_counted(alloc, &mut places, leaves)?;
    Ok(places)
}

// Adds the places of the keys of some leaves.
fn add_leaves(alloc: Global, places: &mut Vec<Place>, leaves: &[Leaf]) -> Result<(), NoMemory>
    ensures places { OnOk result (places.new.items ≡ places.old.items ++ places_in (leaf_facets leaves.now)) }
    ensures narrow { OnOk result (AreNarrow (leaf_facets leaves.now)) }
{
    for leaf in leaves {
        let key = value_key(alloc, leaf.path, &leaf.value)?;
        places.push(place_of(key))?;
    }
    Ok(())
}

// Adds the places of the keys of some marks.
fn add_marks(alloc: Global, places: &mut Vec<Place>, marks: &[Mark]) -> Result<(), NoMemory>
    ensures places { OnOk result (places.new.items ≡ places.old.items ++ places_in (mark_facets marks.now)) }
    ensures narrow { OnOk result (AreNarrow (mark_facets marks.now)) }
{
    for mark in marks {
        let key = mark_key(alloc, mark.path, mark.kind)?;
        places.push(place_of(key))?;
    }
    Ok(())
}

/// The place of a key.
pub(crate) fn place_of(key: Word) -> Place
    ensures { result ≡ place_of key }
{
    Place {
        path: PathId(0),
        rank: 0,
        position: 0,
        word: key,
    }
}
