ghost use Rattle.std.specs.Prelude.{◌≡◌, Ok, IfOk};
ghost use Rattle.document_changes.specs.Changes.{ChangeData, replace, update, kind_view, change_view};
ghost use Rattle.change_payloads.specs.Answers.{Gives, Decodes};
ghost use Rattle.change_payloads.specs.Spelling.{change as spelling};
ghost use Rattle.change_payloads.specs.Fits.{IsChange};
ghost use Rattle.change_payloads.specs.Change.{kind_at as kind_in, create_at, stored_with, remove_at, patch_at, body_at, whole_change, change_at, spot};

use crate::fault::{ImageFault, ReadFault};
use crate::fields::{documents, optional, text, u8_at};
use crate::json::{ids, value};
use document_changes::{Change, ChangeKind};
use std::alloc::Global;

/// The change that a payload spells: a kind, the uid of the index, and what the kind has.
///
/// Where the bytes spell none, the fault is at the first byte of the field that ends too early or says what it may not,
/// or behind the last field. Of a text the length is such a field where it leads past the end, and else its bytes are.
/// A float in a patch has no text of its own: it is damage at the text of the patch.
pub fn decode_change(alloc: Global, bytes: &[u8]) -> Result<Change, ImageFault>
    ensures exact { Decodes change_view result (change_at bytes.now) }
    ensures only { (c : ChangeData) → IsChange c → bytes.now ≡ spelling c → Decodes change_view result (Ok c) }
    ensures found { IfOk result (λ change. bytes.now ≡ spelling (change_view change)) }
{
    decoded(alloc, bytes)
}

fn decoded(alloc: Global, bytes: &[u8]) -> Result<Change, ImageFault>
    ensures { Decodes change_view result (change_at bytes.now) }
{
    match whole(alloc, bytes) {
        Ok(change) => Ok(change),
        Err(ReadFault::NoMemory) => Err(ImageFault::NoMemory),
        Err(ReadFault::Left(left)) => Err(damage(bytes, left)),
    }
}

/// The damage at the field from which `left` of the bytes stand to the end: its place, and the byte there, if there is one.
pub fn damage(bytes: &[u8], left: usize) -> ImageFault
    ensures { result ≡ ImageFault.Damaged (spot bytes.now left).place (spot bytes.now left).found }
{
    let place = bytes.len().saturating_sub(left);
    ImageFault::Damaged {
        place: place as u64,
        found: bytes.get(place).copied(),
    }
}

#[tactic(auto, unfolding(crate::specs::Change::whole_change))]
fn whole(alloc: Global, bytes: &[u8]) -> Result<Change, ReadFault>
    ensures { Gives change_view result (whole_change bytes.now) }
{
    let (byte, rest) = kind_at(bytes)?;
    let (uid, rest) = text(alloc, rest)?;
    let (kind, rest) = body(alloc, byte, rest)?;
    if !rest.is_empty() {
        return Err(ReadFault::Left(rest.len()));
    }
    Ok(Change { uid, kind })
}

/// The byte of one of the eight kinds of changes, and the bytes behind it. Another byte, or no byte, is damage there.
#[tactic(auto, unfolding(crate::specs::Change::kind_at))]
pub fn kind_at(bytes: &[u8]) -> Result<(u8, &[u8]), ReadFault>
    ensures { Gives (λ x. (x.0, x.1.now)) result (kind_in bytes.now) }
{
    let (byte, rest) = u8_at(bytes)?;
    if byte == 0 || byte > 8 {
        return Err(ReadFault::Left(bytes.len()));
    }
    Ok((byte, rest))
}

#[tactic(auto, unfolding(crate::specs::Change::body_at))]
fn body(alloc: Global, byte: u8, bytes: &[u8]) -> Result<(ChangeKind, &[u8]), ReadFault>
    ensures { Gives (λ x. (kind_view x.0, x.1.now)) result (body_at byte bytes.now) }
{
    match byte {
        1 => create(alloc, bytes),
        2 => Ok((ChangeKind::Drop, bytes)),
        3 => replacing(alloc, bytes),
        4 => updating(alloc, bytes),
        5 => removing(alloc, bytes),
        6 => Ok((ChangeKind::Clear, bytes)),
        7 => patching(alloc, bytes),
        _ => Ok((ChangeKind::Reset, bytes)),
    }
}

#[tactic(auto, unfolding(crate::specs::Change::create_at))]
fn create(alloc: Global, bytes: &[u8]) -> Result<(ChangeKind, &[u8]), ReadFault>
    ensures { Gives (λ x. (kind_view x.0, x.1.now)) result (create_at bytes.now) }
{
    let (key, rest) = optional(alloc, bytes)?;
    Ok((ChangeKind::Create { key }, rest))
}

#[tactic(auto, unfolding(crate::specs::Change::stored_with))]
fn replacing(alloc: Global, bytes: &[u8]) -> Result<(ChangeKind, &[u8]), ReadFault>
    ensures { Gives (λ x. (kind_view x.0, x.1.now)) result (stored_with replace bytes.now) }
{
    let (key, rest) = optional(alloc, bytes)?;
    let (documents, rest) = documents(alloc, rest)?;
    Ok((ChangeKind::Replace { key, documents }, rest))
}

#[tactic(auto, unfolding(crate::specs::Change::stored_with))]
fn updating(alloc: Global, bytes: &[u8]) -> Result<(ChangeKind, &[u8]), ReadFault>
    ensures { Gives (λ x. (kind_view x.0, x.1.now)) result (stored_with update bytes.now) }
{
    let (key, rest) = optional(alloc, bytes)?;
    let (documents, rest) = documents(alloc, rest)?;
    Ok((ChangeKind::Update { key, documents }, rest))
}

#[tactic(auto, unfolding(crate::specs::Change::remove_at))]
fn removing(alloc: Global, bytes: &[u8]) -> Result<(ChangeKind, &[u8]), ReadFault>
    ensures { Gives (λ x. (kind_view x.0, x.1.now)) result (remove_at bytes.now) }
{
    let (ids, rest) = ids(alloc, bytes)?;
    Ok((ChangeKind::Remove { ids }, rest))
}

#[tactic(auto, unfolding(crate::specs::Change::patch_at))]
fn patching(alloc: Global, bytes: &[u8]) -> Result<(ChangeKind, &[u8]), ReadFault>
    ensures { Gives (λ x. (kind_view x.0, x.1.now)) result (patch_at bytes.now) }
{
    let (members, rest) = value(alloc, bytes)?;
    Ok((ChangeKind::Patch { members }, rest))
}
