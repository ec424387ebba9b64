ghost use Rattle.std.specs.Prelude.{◌≡◌, ◌<◌, ◌≤◌, map, length, IfSome, IsTrue};
ghost use Rattle.search_base.specs.BlockCosts.{places_of, block_cost, inexact_of};
ghost use Rattle.search_base.specs.Least.{least, least_by};
ghost use Rattle.search_base.specs.TermView.{TermView};
ghost use Rattle.plain_rank.specs.Near.{InOrder};
ghost use Rattle.plain_rank.specs.Numbers.{number_of, number_there, number_from, cost_if};

use crate::least::lesser_number;
use crate::near::are_in_order;
use crate::occurrence::{occurs, starts_at};
use crate::runs::those_at;
use search_base::{Block, Kind, Place, Rule, Term, Word, bucket};

// The rank of a place, or its bucket.
fn number_of(by_rank: bool, place: &Place) -> u16
    ensures { result ≡ number_of by_rank place.now }
{
    if by_rank {
        place.rank
    } else {
        u16::from(bucket(place.position))
    }
}

// The number of a place that is at the position of another.
fn number_there(by_rank: bool, start: &Place, place: &Place) -> Option<u16>
    ensures { result ≡ number_there by_rank start.now place.now }
{
    if start.path.0 == place.path.0 && start.position == place.position {
        Some(number_of(by_rank, place))
    } else {
        None
    }
}

// The least number of the places at the position of one, of those that may stand there.
fn least_of(by_rank: bool, places: &[Place], start: &Place) -> Option<u16>
    ensures { result ≡ least_by (number_there by_rank start.now) places.now }
{
    let mut least = None;
    for place in places {
        least = lesser_number(least, number_there(by_rank, start, place));
    }
    least
}

// The least number of the places at the position of one.
fn least_there(by_rank: bool, places: &[Place], ordered: bool, start: &Place) -> Option<u16>
    requires { IsTrue ordered → InOrder places.now }
    ensures { result ≡ least_by (number_there by_rank start.now) places.now }
{
    let there = those_at(places, ordered, start.path.0, start.position as usize);
    least_of(by_rank, there, start)
}

// The least number of the places at which the words start at one.
fn number_from(
    by_rank: bool,
    places: &[Place],
    ordered: bool,
    prefix: bool,
    first: &Word,
    rest: &[Word],
    start: &Place,
) -> Option<u16>
    requires { IsTrue ordered → InOrder places.now }
    ensures { result ≡ number_from by_rank places.now prefix first.now rest.now start.now }
{
    if starts_at(places, ordered, prefix, first, rest, start) {
        least_there(by_rank, places, ordered, start)
    } else {
        None
    }
}

// The least number of the places at which the words start.
fn least_from(
    by_rank: bool,
    places: &[Place],
    prefix: bool,
    first: &Word,
    rest: &[Word],
) -> Option<u16>
    ensures { result ≡ least_by (number_from by_rank places.now prefix first.now rest.now) places.now }
{
    let ordered = are_in_order(places);
    let mut least = None;
    for start in places {
        let number = number_from(by_rank, places, ordered, prefix, first, rest, start);
        least = lesser_number(least, number);
    }
    least
}

// The least rank, or the least bucket, of the places where the term occurs.
fn least_number(by_rank: bool, places: &[Place], term: &Term) -> Option<u16>
    requires { 0 < length term.now.words }
    ensures { result ≡ least (map (number_of by_rank) (places_of places.now term.now)) }
{
    match term.words.as_slice() {
        [] => None,
        [first, rest @ ..] => least_from(by_rank, places, term.prefix, first, rest),
    }
}

// What each item costs that is read otherwise than it was written.
fn inexact_of(kind: Kind) -> u32
    ensures value { result ≡ inexact_of kind }
    ensures small { result ≤ 1 }
{
    match kind {
        Kind::Plain | Kind::Phrase => 0,
        Kind::Prefix | Kind::Joined | Kind::Synonym => 1,
    }
}

// The cost of a block.
fn block_cost(rule: Rule, places: &[Place], block: &Block) -> u32
    requires few { block.now.span ≤ 10 }
    requires term { 0 < length block.now.term.words }
    ensures value { result ≡ block_cost rule places.now block.now }
    ensures small { result ≤ 655350 }
{
    let span = u32::from(block.span);
    match rule {
        Rule::Proximity => span.saturating_sub(1),
        Rule::Field => {
            let rank = least_number(true, places, &block.term);
            span * u32::from(rank.unwrap_or(0))
        }
        Rule::Position => {
            let bucket = least_number(false, places, &block.term);
            span * u32::from(bucket.unwrap_or(0))
        }
        Rule::Inexact => span * inexact_of(block.kind),
        Rule::Words | Rule::Whole | Rule::Up(_) | Rule::Down(_) => 0,
    }
}

// The cost of a block, if it occurs.
pub fn cost_if(rule: Rule, places: &[Place], block: &Block) -> Option<u32>
    requires few { block.now.span ≤ 10 }
    requires term { 0 < length block.now.term.words }
    ensures value { result ≡ cost_if rule places.now block.now }
    ensures small { IfSome result (λ cost. cost ≤ 655350) }
{
    if occurs(places, &block.term) {
        Some(block_cost(rule, places, block))
    } else {
        None
    }
}
