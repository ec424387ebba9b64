ghost use Rattle.std.specs.Prelude.{◌≡◌, ◌||◌, true};
ghost use Rattle.std.specs.Str.{bytes_eq};
ghost use Rattle.search_base.specs.Least.{least_by};
ghost use Rattle.search_base.specs.Occurrence.{is_asked};
ghost use Rattle.search_base.specs.PairCost.{distance};
ghost use Rattle.plain_rank.specs.Near.{stands_before, InOrder, is_beyond, near_pair, near_both, least_near};

use crate::least::lesser_sum;
use crate::occurrence::is_asked;
use search_base::{Place, Word};

// The distance from a position to another one.
pub fn distance(from: u16, to: u16) -> u32
    ensures { result ≡ distance from to }
{
    if from < to {
        u32::from(to - from)
    } else {
        u32::from(from - to) + 1
    }
}

// Whether the place is in an earlier path, or not behind the other in the same path.
fn stands_before(a: &Place, b: &Place) -> bool
    ensures { result ≡ stands_before a.now b.now }
{
    a.path.0 < b.path.0 || a.path.0 == b.path.0 && a.position <= b.position
}

// Whether the places stand in order, by path and then by position.
pub fn are_in_order(places: &[Place]) -> bool
    ensures { result ≡ true → InOrder places.now }
{
    let mut i = places.len();
    while i > 1 {
        if !stands_before(&places[i - 2], &places[i - 1]) {
            return false;
        }
        i -= 1;
    }
    true
}

// Whether the other place is in a later path, or more than 7 positions behind.
fn is_beyond(a: &Place, b: &Place) -> bool
    ensures { result ≡ is_beyond a.now b.now }
{
    a.path.0 < b.path.0 || a.path.0 == b.path.0 && u32::from(a.position) + 7 < u32::from(b.position)
}

// The distance from a place with the left word to one that is asked for, below 8.
fn near_pair(left: &Word, prefix: bool, right: &Word, a: &Place, b: &Place) -> Option<u32>
    ensures { result ≡ near_pair left.now prefix right.now a.now b.now }
{
    if a.path.0 == b.path.0
        && a.position != b.position
        && distance(a.position, b.position) < 8
        && *left == a.word
        && is_asked(prefix, right, &b.word)
    {
        Some(distance(a.position, b.position))
    } else {
        None
    }
}

// Both ways.
fn near_both(left: &Word, prefix: bool, right: &Word, a: &Place, b: &Place) -> Option<u32>
    ensures { result ≡ near_both left.now prefix right.now a.now b.now }
{
    lesser_sum(
        near_pair(left, prefix, right, a, b),
        near_pair(left, prefix, right, b, a),
    )
}

// The least of a place and those behind it, as far as they are in reach.
fn near_after(
    left: &Word,
    prefix: bool,
    right: &Word,
    place: &Place,
    later: &[Place],
) -> Option<u32>
    requires { InOrder later.now }
    ensures { result ≡ least_by (near_both left.now prefix right.now place.now) later.now }
{
    let mut least = None;
    for next in later {
        if is_beyond(place, next) {
            return least;
        }
        least = lesser_sum(least, near_both(left, prefix, right, place, next));
    }
    least
}

// Whether the place has the left word, or one that is asked for.
fn has_either(left: &Word, prefix: bool, right: &Word, place: &Place) -> bool
    ensures { result ≡ (bytes_eq left.now place.now.word || is_asked prefix right.now place.now.word) }
{
    *left == place.word || is_asked(prefix, right, &place.word)
}

// The same, where the place has one of the words at all.
fn near_of(left: &Word, prefix: bool, right: &Word, place: &Place, later: &[Place]) -> Option<u32>
    requires { InOrder later.now }
    ensures { result ≡ least_by (near_both left.now prefix right.now place.now) later.now }
{
    if has_either(left, prefix, right, place) {
        near_after(left, prefix, right, place, later)
    } else {
        None
    }
}

// The least distance below 8 from the left word to one that is asked for, in places in order.
pub fn least_near(places: &[Place], left: &Word, prefix: bool, right: &Word) -> Option<u32>
    requires { InOrder places.now }
    ensures { result ≡ least_near left.now prefix right.now places.now }
{
    let mut least = None;
    for (i, place) in places.iter().enumerate() {
        let near = near_of(left, prefix, right, place, &places[i + 1..]);
        least = lesser_sum(least, near);
    }
    least
}
