ghost use Rattle.std.specs.Prelude.{◌≡◌};
ghost use Rattle.change_payloads.specs.declared.fault.ImageFault.TheVariants.{NoMemory as Memory};
ghost use Rattle.change_payloads.specs.declared.fault.ReadFault.TheVariants.{NoMemory as NoRoom};

use search_base::NoMemory;
use std::alloc::{AllocError, AllocFailed};

/// Why bytes give no change or no state.
#[derive(Debug, Drop)]
pub enum ImageFault {
    /// The first field that ends too early or says what it may not begins at `place`, where the byte `found` stands; at
    /// the end of the bytes there is none.
    Damaged { place: u64, found: Option<u8> },
    /// Memory ran out.
    NoMemory,
}

impl From<NoMemory> for ImageFault {
    ghost from_gives = { λ _ fault. fault ≡ Memory };

    fn from(_refused: NoMemory) -> ImageFault {
        ImageFault::NoMemory
    }
}

/// Why a field could not be read.
#[derive(Debug, Drop)]
pub enum ReadFault {
    /// The field is cut off or not allowed: so many bytes stand from the damaged field on to the end.
    Left(usize),
    /// Memory ran out.
    NoMemory,
}

impl From<NoMemory> for ReadFault {
    ghost from_gives = { λ _ fault. fault ≡ NoRoom };

    fn from(_refused: NoMemory) -> ReadFault {
        ReadFault::NoMemory
    }
}

impl From<AllocError> for ReadFault {
    ghost from_gives = { λ _ fault. fault ≡ NoRoom };

    fn from(_refused: AllocError) -> ReadFault {
        ReadFault::NoMemory
    }
}

impl<T: Drop> From<AllocFailed<T>> for ReadFault {
    ghost from_gives = { λ _ fault. fault ≡ NoRoom };

    fn from(_refused: AllocFailed<T>) -> ReadFault {
        ReadFault::NoMemory
    }
}
