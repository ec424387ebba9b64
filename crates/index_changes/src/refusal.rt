ghost use Rattle.std.specs.Prelude.{◌≡◌, IfOk, OnErr};
ghost use Rattle.index_changes.specs.Refusals.{store_fault};
ghost use Rattle.search_base.specs.declared.fault.Fault.TheVariants.{Refused as Turned, NoMemory as Memory};

use doc_store::{StoreFault, StoreRefusal};
use index_settings::SettingsRefusal;
use search_base::{Fault, NoMemory};

/// Why an index refuses a change. Documents of a change are numbered from 1.
#[derive(Debug, Drop)]
pub enum CoreRefusal {
    /// The index has a primary key, and the change names another.
    KeyDiffers,
    /// A key must be inferred, and no name at the top of the first document ends in `id`.
    NoCandidate,
    /// A key must be inferred, and several such names do.
    SeveralCandidates,
    /// This document has no member of the key's name, and those before it have ids.
    MissingId { document: u32 },
    /// This document's member of the key's name is no id, and those before it have ids.
    BadId { document: u32 },
    /// A new document would take the internal id 1,000,000.
    IdsSpent,
    /// The registry would have more than 1,000 paths.
    PathsSpent,
    /// A patch of the settings is refused for this.
    Settings(SettingsRefusal),
}

/// Why an index gives no answer: a refusal, or want of memory.
pub type CoreFault = Fault<CoreRefusal>;

/// What a store's fault is to an index.
pub(crate) fn of_store(fault: StoreFault) -> CoreFault
    ensures { result ≡ store_fault fault }
{
    match fault {
        Fault::Refused(StoreRefusal::IdsSpent) => Fault::Refused(CoreRefusal::IdsSpent),
        Fault::Refused(StoreRefusal::PathsSpent) => Fault::Refused(CoreRefusal::PathsSpent),
        Fault::NoMemory => Fault::NoMemory,
    }
}

/// The refusal that a fault is, where memory is not wanting.
pub fn refusal_in(fault: CoreFault) -> Result<CoreRefusal, NoMemory>
    ensures refused { IfOk result (λ why. fault ≡ Turned why) }
    ensures starved { OnErr result (fault ≡ Memory) }
{
    match fault {
        Fault::Refused(why) => Ok(why),
        Fault::NoMemory => Err(NoMemory),
    }
}
