ghost use Rattle.std.specs.Prelude.{◌≡◌, nat_le, ◌&&◌, false};
ghost use Rattle.std.specs.Bool.{OnFalse};
ghost use Rattle.std.specs.List.{AllByRecursion};
ghost use Rattle.posting_list.specs.Sets.{is_part};

use crate::part::{PATHS, Part, is_first, path_of};
use std::marker::Model;

// Entries that go or come, and what is known of all of them: the paths that they are between, and whether one is at the
// beginning of its path.
#[derive(Drop)]
pub(crate) struct Moved<'a> {
    entries: &'a [u64],
    least: u16,
    greatest: u16,
    first: bool,
}

impl<'a> Model for Moved<'a> {
    ghost use Rattle.std.specs.Prelude.{ℕ, List};
    ghost use Rattle.std.specs.List.{AllByRecursion};
    ghost use Rattle.posting_list.specs.Sets.{IsWithin};

    ghost Value = { List ℕ };

    ghost view = { λ moved. moved.entries.now };

    ghost invariant = { λ moved.
        AllByRecursion (IsWithin moved.least moved.greatest moved.first) moved.entries.now };
}

impl<'a> Moved<'a> {
    pub(crate) fn new(entries: &'a [u64]) -> Moved<'a>
        ensures { result ≡ entries.now }
    {
        let mut least = u16::MAX;
        let mut greatest = 0;
        let mut first = false;
        for entry in entries {
            let path = path_of(*entry);
            least = least.min(path);
            greatest = greatest.max(path);
            first = first || is_first(*entry);
        }
        Moved {
            entries,
            least,
            greatest,
            first,
        }
    }

    pub(crate) fn entries(&self) -> &[u64]
        ensures { result.now ≡ self.now }
    {
        self.entries
    }

    // Whether one of the entries may be of the part. Where none may be, none is.
    pub(crate) fn may_have(&self, part: Part) -> bool
        ensures { OnFalse result (AllByRecursion (λ entry. is_part part entry ≡ false) self.now) }
    {
        match part {
            Part::All => true,
            Part::First => self.first,
            Part::Path(path) => is_between(self.least, path, self.greatest),
            Part::Start(path) => self.first && is_between(self.least, path, self.greatest),
            Part::Later => PATHS <= self.greatest,
        }
    }
}

// Whether the path is one of those between two.
fn is_between(least: u16, path: u16, greatest: u16) -> bool
    ensures { result ≡ (nat_le least path && nat_le path greatest) }
{
    least <= path && path <= greatest
}
