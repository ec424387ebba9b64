ghost use Rattle.std.specs.Prelude.{◌≡◌, ◌<◌, ◌≤◌, length, min, unwrap_or};
ghost use Rattle.search_base.specs.Least.{least, least_by};
ghost use Rattle.std.specs.Str.{bytes_eq};
ghost use Rattle.search_base.specs.Occurrence.{is_asked};
ghost use Rattle.search_base.specs.PairCost.{distances, asked_cost, term_cost};
ghost use Rattle.search_base.specs.TermView.{TermView};
ghost use Rattle.plain_rank.specs.Distances.{distance_if, distance_from};

use crate::least::lesser_sum;
use crate::near::{are_in_order, distance, least_near};
use crate::occurrence::is_asked;
use search_base::{Place, Term, Word};

// The distance from a place to another, if that has a word that is asked for in the same path.
fn distance_if(prefix: bool, right: &Word, a: &Place, b: &Place) -> Option<u32>
    ensures { result ≡ distance_if prefix right.now a.now b.now }
{
    if a.path.0 == b.path.0 && a.position != b.position && is_asked(prefix, right, &b.word) {
        Some(distance(a.position, b.position))
    } else {
        None
    }
}

// The least distance from a place to a word that is asked for.
fn least_distance_if(places: &[Place], prefix: bool, right: &Word, a: &Place) -> Option<u32>
    ensures { result ≡ least_by (distance_if prefix right.now a.now) places.now }
{
    let mut least = None;
    for b in places {
        least = lesser_sum(least, distance_if(prefix, right, a, b));
    }
    least
}

// The same, if the place has the left word.
fn distance_from(
    places: &[Place],
    left: &Word,
    prefix: bool,
    right: &Word,
    a: &Place,
) -> Option<u32>
    ensures { result ≡ distance_from places.now left.now prefix right.now a.now }
{
    if *left == a.word {
        least_distance_if(places, prefix, right, a)
    } else {
        None
    }
}

// The least distance from the left word to one that is asked for.
fn least_distance(places: &[Place], left: &Word, prefix: bool, right: &Word) -> Option<u32>
    ensures { result ≡ least (distances places.now (bytes_eq left.now) (is_asked prefix right.now)) }
{
    let mut least = None;
    for a in places {
        least = lesser_sum(least, distance_from(places, left, prefix, right, a));
    }
    least
}

// The least distance from the left word to one that is asked for, cut at 8. Where the places stand
// in order, only those near each other are compared.
fn cut_distance(places: &[Place], left: &Word, prefix: bool, right: &Word) -> u32
    ensures { result
        ≡ min 8 (unwrap_or (least (distances places.now (bytes_eq left.now) (is_asked prefix right.now))) 8) }
{
    if are_in_order(places) {
        least_near(places, left, prefix, right).unwrap_or(8).min(8)
    } else {
        least_distance(places, left, prefix, right)
            .unwrap_or(8)
            .min(8)
    }
}

// The pair cost of a word and of one that is asked for.
fn asked_cost(places: &[Place], left: &Word, prefix: bool, right: &Word) -> u32
    ensures value { result ≡ asked_cost places.now left.now prefix right.now }
    ensures small { result ≤ 7 }
{
    cut_distance(places, left, prefix, right).saturating_sub(1)
}

// The pair cost of two terms in succession.
pub fn term_cost(places: &[Place], left: &Term, right: &Term) -> u32
    requires left { 0 < length left.now.words }
    requires right { 0 < length right.now.words }
    ensures value { result ≡ term_cost places.now left.now right.now }
    ensures small { result ≤ 7 }
{
    let words = left.words.as_slice();
    asked_cost(
        places,
        &words[words.len() - 1],
        right.prefix,
        &right.words[0],
    )
}
