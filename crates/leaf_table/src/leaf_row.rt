ghost use Rattle.std.specs.Prelude.{◌≡◌, ◌<◌, [], length, set, unwrap_or, None, IfOk, IsSome};

use crate::few_numbers::{FEW, FewNumbers};
use search_base::NoMemory;
use std::alloc::Global;
use std::marker::Model;

/// What stands under an id: nothing, or the numbers of a document's leaves.
#[derive(Drop)]
pub(crate) struct LeafRow {
    kept: Kept,
}

#[derive(Drop)]
enum Kept {
    Nothing,
    Few(FewNumbers),
    More(Box<Vec<u32>>),
}

impl Model for LeafRow {
    ghost use Rattle.std.specs.Prelude.{ℕ, List, Option};
    ghost use Rattle.leaf_table.specs.Rows.{row_numbers};

    ghost Value = { Option (List ℕ) };

    ghost view = { λ row. row_numbers row.kept };
}

impl LeafRow {
    /// The row of no document.
    pub(crate) fn nothing() -> LeafRow
        ensures { result ≡ None }
    {
        LeafRow {
            kept: Kept::Nothing,
        }
    }

    /// A row of so many numbers, which are to be set. Memory is taken for more than four.
    pub(crate) fn of_len(alloc: Global, len: usize) -> Result<LeafRow, NoMemory>
        ensures some { IfOk result (λ row. IsSome row) }
        ensures len { IfOk result (λ row. length (unwrap_or row []) ≡ len) }
    {
        let kept = if len <= FEW {
            Kept::Few(FewNumbers::of_len(len))
        } else {
            let mut numbers = Vec::new(alloc);
            numbers.resize(len, 0)?;
            Kept::More(Box::new(alloc, numbers)?)
        };
        Ok(LeafRow { kept })
    }

    /// Sets the number at a place of the row.
    pub(crate) fn set(&mut self, at: usize, number: u32)
        requires { at < length (unwrap_or self.old []) }
        ensures numbers { unwrap_or self.new [] ≡ set (unwrap_or self.old []) at number }
        ensures some { IsSome self.old → IsSome self.new }
    {
        match &mut self.kept {
            Kept::Nothing => {}
            Kept::Few(numbers) => numbers.set(at, number),
            Kept::More(numbers) => numbers[at] = number,
        }
    }

    /// The numbers, and none where there is no document.
    pub(crate) fn numbers(&self) -> &[u32]
        ensures { result.now ≡ unwrap_or self.now [] }
    {
        match &self.kept {
            Kept::Nothing => &[],
            Kept::Few(numbers) => numbers.as_slice(),
            Kept::More(numbers) => numbers.as_slice(),
        }
    }
}
