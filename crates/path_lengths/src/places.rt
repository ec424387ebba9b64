ghost use Rattle.std.specs.Prelude.{◌≡◌, pos, map, IfOk, OnOk};
ghost use Rattle.search_base.specs.declared.value.FacetValue.TheVariants.{Number};
ghost use Rattle.postings.specs.Documents.{AreNarrow};
ghost use Rattle.facet_keys.specs.Keys.{leaf, IsNarrow};
ghost use Rattle.path_lengths.specs.Measured.{length_key};
ghost use Rattle.path_lengths.specs.Lasts.{lasts, spot_place, AreLengthPlaces};

use crate::lasts::{goes_on, spots_of};
use facet_keys::value_key;
use search_base::{FacetValue, NoMemory, PathId, Place, Word};
use std::alloc::Global;

// The key of a path and a length.
pub(crate) fn length_key(alloc: Global, path: PathId, length: usize) -> Result<Word, NoMemory>
    ensures key { IfOk result (λ key. key ≡ length_key path.0 length) }
    ensures narrow { IsNarrow path.0 (leaf (Number (pos length))) }
{
    value_key(alloc, path, &FacetValue::Number(length as i128))
}

// The place of the length of a path, by its last spot.
fn spot_place(alloc: Global, spot: u32) -> Result<Place, NoMemory>
    ensures { IfOk result (λ place. place ≡ spot_place spot) }
{
    let path = PathId((spot / 0x1_0000) as u16);
    let length = (spot % 0x1_0000) as usize + 1;
    let word = length_key(alloc, path, length)?;
    Ok(Place {
        path: PathId(0),
        rank: 0,
        position: 0,
        word,
    })
}

// The places of the lengths, given all spots in order.
fn places_at(alloc: Global, spots: &[u32]) -> Result<Vec<Place>, NoMemory>
    ensures { IfOk result (λ found. found.items ≡ map spot_place (lasts spots.now)) }
{
    let mut found = Vec::new(alloc);
    for index in 0..spots.len() {
        if !goes_on(spots, index) {
            found.push(spot_place(alloc, spots[index])?)?;
        }
    }
    Ok(found)
}

// The places of the lengths of a document's paths.
pub(crate) fn length_places(alloc: Global, places: &[Place]) -> Result<Vec<Place>, NoMemory>
    ensures places { IfOk result (λ found. AreLengthPlaces places.now found.items) }
    ensures narrow { OnOk result (AreNarrow places.now) }
{
    let spots = spots_of(alloc, places)?;
    places_at(alloc, spots.as_slice())
}
