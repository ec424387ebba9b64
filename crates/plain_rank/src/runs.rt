ghost use Rattle.std.specs.Prelude.{◌≡◌, ◌<◌, ◌≤◌, ◌-◌, true, false, length, take, drop, filter, IsTrue};
ghost use Rattle.std.specs.List.Sorted.{IsPartitionPoint};
ghost use Rattle.plain_rank.specs.Near.{InOrder};
ghost use Rattle.plain_rank.specs.Runs.{is_at, is_before};

use search_base::Place;

// Whether the place is in an earlier path, or in this one before the position.
fn is_before(path: u16, position: usize, place: &Place) -> bool
    ensures { result ≡ is_before path position place.now }
{
    place.path.0 < path || place.path.0 == path && (place.position as usize) < position
}

// How many of the places are before a position of a path.
fn count_before(places: &[Place], path: u16, position: usize) -> usize
    requires { InOrder places.now }
    ensures within { result ≤ length places.now }
    ensures parted { IsPartitionPoint (λ place. is_before path position place ≡ true)
        (λ place. is_before path position place ≡ false) places.now result }
{
    places.partition_point(|place| is_before(path, position, place))
}

// The places from a number on, to before another.
fn between(places: &[Place], start: usize, end: usize) -> &[Place]
    requires rise { start ≤ end }
    requires within { end ≤ length places.now }
    ensures { result.now ≡ take (end - start) (drop start places.now) }
{
    &places[start..end]
}

// A part of the places that has all those at a position of a path, and no others where the places stand in order.
pub fn those_at(places: &[Place], ordered: bool, path: u16, position: usize) -> &[Place]
    requires few { position < 18446744073709551615 }
    requires ordered { IsTrue ordered → InOrder places.now }
    ensures { filter (is_at path position) result.now ≡ filter (is_at path position) places.now }
{
    if !ordered {
        return places;
    }
    let start = count_before(places, path, position);
    let end = count_before(places, path, position + 1);
    between(places, start, end)
}
