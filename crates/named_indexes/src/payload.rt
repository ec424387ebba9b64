// The payloads that record changes, and the changes that they record.
ghost use Rattle.std.specs.Prelude.{◌≡◌, Ok, IfOk};
ghost use Rattle.std.specs.Option.{option_copied};
ghost use Rattle.serde_json.specs.View.{view as data_of};
ghost use Rattle.change_payloads.specs.Answers.{Decodes};
ghost use Rattle.change_payloads.specs.Change.{change_at};
ghost use Rattle.change_payloads.specs.Spelling.{kind_byte as byte_of};
ghost use Rattle.change_payloads.specs.declared.fault.ImageFault.TheVariants.{Damaged};
ghost use Rattle.document_changes.specs.Changes.{change_view, kind_view, patch};
ghost use Rattle.named_indexes.specs.Payloads.{Accepts, IsRecordable, Records, first_byte as first_spot, is_good as is_good_change, is_good_kind as is_good_of, is_key as is_key_of, recorded_in};

use crate::copies::copy_of;
use change_payloads::{ImageFault, damage, decode_change, encode_change};
use doc_values::is_uid;
use document_changes::{Change, ChangeKind};
use index_settings::check_patch;
use search_base::{Fault, NoMemory, Word};
use serde_json::Value;
use std::alloc::Global;
use std::marker::Model;

/// The payload that records a change, beside this change, as which it is seen. Its uid is one, its key is not empty, and
/// its patch has no fault.
#[derive(Drop)]
pub struct Payload {
    bytes: Vec<u8>,
    change: Change,
}

impl Model for Payload {
    ghost use Rattle.std.specs.Prelude.{◌≡◌, true};
    ghost use Rattle.std.specs.Coded.{codes};
    ghost use Rattle.document_changes.specs.Changes.{ChangeData, change_view};
    ghost use Rattle.doc_values.specs.DataCode.{data_code};
    ghost use Rattle.named_indexes.specs.Payloads.{Records, is_good};

    ghost Value = { ChangeData };

    ghost coded = { Prim.hlevel (codes, data_code) };

    ghost view = { λ p. change_view p.change };

    ghost invariant = { λ p. Records (change_view p.change) p.bytes.items × (is_good (change_view p.change) ≡ true) };
}

impl Payload {
    /// The payload that records a change. One of 2^32 bytes or more counts as one for which there is no memory, as does
    /// a text or a list of so many. The payload shares the texts of the change's documents.
    pub fn new(alloc: Global, change: &Change) -> Result<Payload, NoMemory>
        requires { IsRecordable (change_view change.now) }
        ensures { IfOk result (λ payload. payload ≡ change_view change.now) }
    {
        let bytes = encode_change(alloc, change)?;
        if bytes.len() > u32::MAX as usize {
            return Err(NoMemory);
        }
        let change = copy_of(change)?;
        Ok(Payload { bytes, change })
    }

    /// The bytes. Takes no memory.
    pub fn bytes(&self) -> &[u8]
        ensures { Records self.now result.now }
    {
        &self.bytes
    }

    /// The change, which shares the texts of its documents with the payload. Its error is want of memory.
    pub fn change(&self) -> Result<Change, NoMemory>
        ensures { IfOk result (λ change. change_view change ≡ self.now) }
    {
        copy_of(&self.change)
    }

    // What a task keeps: the payload, with the uid and the byte of the kind of its change.
    fn recorded(self) -> Result<Recorded, NoMemory>
        ensures payload { IfOk result (λ recorded. recorded.payload ≡ self) }
        ensures accepted { IfOk result (λ recorded. Accepts recorded.uid recorded.kind recorded.payload) }
    {
        Ok(Recorded {
            uid: self.change.uid.clone()?,
            kind: kind_byte(&self.change.kind),
            payload: self,
        })
    }
}

/// A change that was recorded: its payload, with its uid and the byte of its kind.
#[derive(Drop)]
pub struct Recorded {
    pub uid: Word,
    pub kind: u8,
    pub payload: Payload,
}

impl Recorded {
    /// A change, recorded. Its error is want of memory.
    pub fn new(alloc: Global, change: &Change) -> Result<Recorded, NoMemory>
        requires { IsRecordable (change_view change.now) }
        ensures payload { IfOk result (λ recorded. recorded.payload ≡ change_view change.now) }
        ensures accepted { IfOk result (λ recorded. Accepts recorded.uid recorded.kind recorded.payload) }
    {
        Payload::new(alloc, change)?.recorded()
    }
}

/// The change that bytes record. Bytes that spell none are damaged, and the first byte is where the change is one that no
/// index takes. Bytes of 2^32 or more count as ones for which there is no memory.
pub fn recorded_change(alloc: Global, bytes: Vec<u8>) -> Result<Recorded, ImageFault>
    ensures exact { Decodes (λ recorded. recorded.payload) result (recorded_in bytes.items) }
    ensures spelled { IfOk result (λ recorded. change_at bytes.items ≡ Ok recorded.payload) }
    ensures accepted { IfOk result (λ recorded. Accepts recorded.uid recorded.kind recorded.payload) }
{
    let change = decode_change(alloc, &bytes)?;
    let good = is_good(alloc, &change)?;
    if !good {
        return Err(first_byte(&bytes));
    }
    if bytes.len() > u32::MAX as usize {
        return Err(ImageFault::NoMemory);
    }
    let payload = Payload { bytes, change };
    Ok(payload.recorded()?)
}

// Damage at the first byte.
fn first_byte(bytes: &[u8]) -> ImageFault
    ensures { result ≡ Damaged (first_spot bytes.now).place (first_spot bytes.now).found }
{
    damage(bytes, bytes.len())
}

// Whether an index takes what a change says: its uid, the key that it gives, or the members of its patch.
fn is_good(alloc: Global, change: &Change) -> Result<bool, NoMemory>
    ensures { IfOk result (λ good. good ≡ is_good_change (change_view change.now)) }
{
    if !is_uid(change.uid.as_str()) {
        return Ok(false);
    }
    is_good_kind(alloc, &change.kind)
}

fn is_good_kind(alloc: Global, kind: &ChangeKind) -> Result<bool, NoMemory>
    ensures { IfOk result (λ good. good ≡ is_good_of (kind_view kind.now)) }
{
    match kind {
        ChangeKind::Create { key } => Ok(is_key(key.as_ref())),
        ChangeKind::Replace { key, documents: _ } => Ok(is_key(key.as_ref())),
        ChangeKind::Update { key, documents: _ } => Ok(is_key(key.as_ref())),
        ChangeKind::Patch { members } => is_patch(alloc, members),
        _ => Ok(true),
    }
}

// A key that is given is not empty.
fn is_key(key: Option<&Word>) -> bool
    ensures { result ≡ is_key_of (option_copied key.entry) }
{
    match key {
        Some(key) => !key.as_str().is_empty(),
        None => true,
    }
}

fn is_patch(alloc: Global, members: &Value) -> Result<bool, NoMemory>
    ensures { IfOk result (λ good. good ≡ is_good_of (patch (data_of members.now))) }
{
    match check_patch(alloc, members) {
        Ok(()) => Ok(true),
        Err(Fault::Refused(_)) => Ok(false),
        Err(Fault::NoMemory) => Err(NoMemory),
    }
}

// The byte of a kind of change.
fn kind_byte(kind: &ChangeKind) -> u8
    ensures { result ≡ byte_of (kind_view kind.now) }
{
    match kind {
        ChangeKind::Create { .. } => 1,
        ChangeKind::Drop => 2,
        ChangeKind::Replace { .. } => 3,
        ChangeKind::Update { .. } => 4,
        ChangeKind::Remove { .. } => 5,
        ChangeKind::Clear => 6,
        ChangeKind::Patch { .. } => 7,
        ChangeKind::Reset => 8,
    }
}
