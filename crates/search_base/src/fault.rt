ghost use Rattle.std.specs.Prelude.{◌≡◌};
ghost use Rattle.search_base.specs.declared.fault.Fault.TheVariants.{Refused as Turned, NoMemory as Memory};

use crate::memory::NoMemory;
use std::alloc::{AllocError, AllocFailed};

/// Why a call gives no answer: it is refused for a cause, or memory ran out.
#[derive(Debug, Drop)]
pub enum Fault<R> {
    /// The call is refused, and this is why.
    Refused(R),
    /// Memory ran out.
    NoMemory,
}

impl<R> From<NoMemory> for Fault<R> {
    ghost from_gives = { λ _ fault. fault ≡ Memory };

    fn from(_refused: NoMemory) -> Fault<R> {
        Fault::NoMemory
    }
}

impl<R> From<AllocError> for Fault<R> {
    ghost from_gives = { λ _ fault. fault ≡ Memory };

    fn from(_refused: AllocError) -> Fault<R> {
        Fault::NoMemory
    }
}

impl<R, T: Drop> From<AllocFailed<T>> for Fault<R> {
    ghost from_gives = { λ _ fault. fault ≡ Memory };

    fn from(_refused: AllocFailed<T>) -> Fault<R> {
        Fault::NoMemory
    }
}
