ghost use Rattle.std.specs.Prelude.{◌≡◌, ◌<◌, ◌&&◌, length, IsTrue};
ghost use Rattle.std.specs.List.{list_any};
ghost use Rattle.search_base.specs.Whole.{ends_so, whole_cost};
ghost use Rattle.plain_rank.specs.Beginnings.{begins_at};
ghost use Rattle.plain_rank.specs.Near.{InOrder};

use crate::near::are_in_order;
use crate::occurrence::starts_at;
use search_base::{Place, Word};

// Whether the place is the first of its path, and the words start there.
fn begins_at(places: &[Place], ordered: bool, first: &Word, rest: &[Word], place: &Place) -> bool
    requires { IsTrue ordered → InOrder places.now }
    ensures { result ≡ begins_at places.now first.now rest.now place.now }
{
    place.position == 0 && starts_at(places, ordered, false, first, rest, place)
}

// Whether the path has no word behind as many words.
fn ends_so(places: &[Place], words: &[Word], path: u16) -> bool
    ensures { result ≡ ends_so places.now words.now path }
{
    places.iter().all(|place| place.path.0 != path || (place.position as usize) < words.len())
}

fn is_whole_at(
    places: &[Place],
    ordered: bool,
    words: &[Word],
    first: &Word,
    rest: &[Word],
    place: &Place,
) -> bool
    requires { IsTrue ordered → InOrder places.now }
    ensures { result
        ≡ (begins_at places.now first.now rest.now place.now
        && ends_so places.now words.now place.now.path.0) }
{
    begins_at(places, ordered, first, rest, place) && ends_so(places, words, place.path.0)
}

// Whether the words of some path are exactly these.
fn some_is_whole(
    places: &[Place],
    ordered: bool,
    words: &[Word],
    first: &Word,
    rest: &[Word],
) -> bool
    requires { IsTrue ordered → InOrder places.now }
    ensures { result
        ≡ list_any
        (λ place. begins_at places.now first.now rest.now place
        && ends_so places.now words.now place.path.0)
        places.now }
{
    places.iter().any(|place| is_whole_at(places, ordered, words, first, rest, place))
}

// Whether the words of some path begin so.
fn some_begins(places: &[Place], ordered: bool, first: &Word, rest: &[Word]) -> bool
    requires { IsTrue ordered → InOrder places.now }
    ensures { result ≡ list_any (begins_at places.now first.now rest.now) places.now }
{
    places
        .iter()
        .any(|place| begins_at(places, ordered, first, rest, place))
}

// 0 where the words of some path are exactly these, 1 where the words of some path begin so, else 2.
pub fn whole_cost(places: &[Place], words: &[Word]) -> u32
    requires { 0 < length words.now }
    ensures { result ≡ whole_cost places.now words.now }
{
    match words {
        [] => 2,
        [first, rest @ ..] => {
            let ordered = are_in_order(places);
            if some_is_whole(places, ordered, words, first, rest) {
                0
            } else if some_begins(places, ordered, first, rest) {
                1
            } else {
                2
            }
        }
    }
}
