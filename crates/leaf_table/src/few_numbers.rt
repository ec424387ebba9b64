ghost use Rattle.std.specs.Prelude.{◌≡◌, ◌<◌, ◌≤◌, length, set};

use std::marker::Model;

/// How many numbers stand in place at most.
pub(crate) const FEW: usize = 4;

/// At most four numbers, which lie in the value itself.
#[derive(Drop)]
pub(crate) struct FewNumbers {
    len: u8,
    numbers: [u32; FEW],
}

impl Model for FewNumbers {
    ghost use Rattle.std.specs.Prelude.{◌≤◌, ℕ, List, take};

    ghost Value = { List ℕ };

    ghost view = { λ few. take few.len few.numbers };

    ghost invariant = { λ few. few.len ≤ 4 };
}

impl FewNumbers {
    /// So many numbers, which are to be set.
    pub(crate) fn of_len(len: usize) -> FewNumbers
        requires { len ≤ 4 }
        ensures { length result ≡ len }
    {
        FewNumbers {
            len: len as u8,
            numbers: [0; FEW],
        }
    }

    /// Sets the number at a place.
    pub(crate) fn set(&mut self, at: usize, number: u32)
        requires { at < length self.old }
        ensures { self.new ≡ set self.old at number }
    {
        if at < usize::from(self.len) {
            self.numbers[at] = number;
        }
    }

    /// The numbers.
    pub(crate) fn as_slice(&self) -> &[u32]
        ensures { result.now ≡ self.now }
    {
        &self.numbers[..usize::from(self.len)]
    }
}
