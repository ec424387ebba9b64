ghost use Rattle.std.specs.Prelude.{◌≡◌, ◌+◌, ◌^◌, ◌<◌, ◌++◌, length, IfOk, OnOk, OnErr};
ghost use Rattle.change_journal.specs.Format.{entry_bytes};

use crate::Record;
use search_base::NoMemory;
use std::alloc::{AllocError, Global};

/// The record of a change: its number, which is the count of changes before it, and its payload.
/// All memory that an addition needs is taken here.
pub fn record(alloc: Global, number: u64, payload: &[u8]) -> Result<Record, NoMemory>
    requires { length payload.now < 2 ^ 32 }
    ensures { IfOk result (λ r. r ≡ record { number = number; payload = payload.now }) }
{
    let mut bytes = Vec::with_capacity(alloc, payload.len() + 13)?;
    put_record(&mut bytes, number, payload)?;
    Ok(Record { number, bytes })
}

// Puts the bytes of a record, and a shut gate, behind what is there. On an error all is as it was.
pub(crate) fn put_record(bytes: &mut Vec<u8>, number: u64, payload: &[u8]) -> Result<(), AllocError>
    requires { length payload.now < 2 ^ 32 }
    ensures put { OnOk result (bytes.new.items ≡ bytes.old.items ++ entry_bytes number payload.now) }
    ensures stays { OnErr result (bytes.new.items ≡ bytes.old.items) }
{
    bytes.reserve(payload.len() + 13)?;
    bytes.extend_from_slice(&number.to_le_bytes())?;
    bytes.extend_from_slice(&(payload.len() as u32).to_le_bytes())?;
    bytes.extend_from_slice(payload)?;
    bytes.push(0)?;
    Ok(())
}
