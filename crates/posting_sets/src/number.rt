ghost use Rattle.std.specs.Prelude.{◌≡◌, ◌==◌, if◌then◌else◌, None, Some};
ghost use Rattle.posting_sets.specs.Entries.{path_of, position_of};
ghost use Rattle.posting_sets.specs.Numbers.{rank_at};
ghost use Rattle.posting_sets.specs.Gathered.{number_at};

use crate::entry::{path_of, position_of};
use search_base::bucket;

// What a place is told apart by.
#[derive(Clone, Copy)]
pub(crate) enum Number<'a> {
    // The rank of its path.
    Rank(&'a [Option<u16>]),
    // The bucket of its position.
    Bucket,
    // Its path, where it is the beginning of that.
    Beginning,
    // Nothing: the beginnings of paths have number 0, and other places none.
    First,
}

// The rank of a path, if it has one.
pub(crate) fn rank_of(ranks: &[Option<u16>], path: u16) -> Option<u16>
    ensures { result ≡ rank_at ranks.now path }
{
    ranks.get(usize::from(path)).copied().flatten()
}

// The number, if the entry is at the beginning of its path.
fn at_beginning(number: u16, entry: u64) -> Option<u16>
    ensures { result ≡ (if position_of entry == 0 then Some number else None) }
{
    if position_of(entry) == 0 {
        Some(number)
    } else {
        None
    }
}

// The number of an entry. A path without a rank has none, nor has a place behind the beginning of its path where these
// are asked for.
pub(crate) fn number_of(number: Number<'_>, entry: u64) -> Option<u16>
    ensures { result ≡ number_at number.entry (path_of entry) (position_of entry) }
{
    match number {
        Number::Rank(ranks) => rank_of(ranks, path_of(entry)),
        Number::Bucket => Some(u16::from(bucket(position_of(entry)))),
        Number::Beginning => at_beginning(path_of(entry), entry),
        Number::First => at_beginning(0, entry),
    }
}
