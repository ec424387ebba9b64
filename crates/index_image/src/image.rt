ghost use Rattle.std.specs.Prelude.{[], Ok, IfOk, map};
ghost use Rattle.change_payloads.specs.Answers.{Gives, Decodes};
ghost use Rattle.index_image.specs.Fits.{HasImage};
ghost use Rattle.index_image.specs.Image.{version_at, list_at, counted_list_at, index_at, whole_image, state_at};
ghost use Rattle.index_image.specs.Layout.{IsSpelled};
ghost use Rattle.index_image.specs.Rows.{ImageData, index_view, image_view};
ghost use Rattle.index_image.specs.State.{IsState};

use crate::index::index;
use crate::numbers::{u32_up_to, u64_up_to};
use crate::outcomes::outcomes;
use crate::rows::{ImageIndex, ImageRows};
use change_payloads::{ImageFault, ReadFault, damage, u8_at};
use std::alloc::Global;

/// The version that has no outcomes, and is only read.
pub(crate) const FIRST_VERSION: u8 = 1;

/// The version that is written.
pub(crate) const VERSION: u8 = 2;

// The most changes and the most indexes of a state.
const MAX_CHANGES: u64 = 1_000_000_000;

const MAX_INDEXES: u32 = 1000;

/// The state that an image spells, of version 2 or of version 1, which has no outcomes.
///
/// Where the bytes spell none, the fault is at the first byte of the field that ends too early or says what it may not,
/// or behind the last field. Of a text the length is such a field where it leads past the end, and else its bytes are.
pub fn decode(alloc: Global, bytes: &[u8]) -> Result<ImageRows, ImageFault>
    ensures exact { Decodes image_view result (state_at bytes.now) }
    ensures only { (s : ImageData) → IsState s → HasImage s → IsSpelled bytes.now s → Decodes image_view result (Ok s) }
    ensures found { IfOk result (λ rows. IsSpelled bytes.now (image_view rows)) }
    ensures state { IfOk result (λ rows. IsState (image_view rows)) }
{
    decoded(alloc, bytes)
}

fn decoded(alloc: Global, bytes: &[u8]) -> Result<ImageRows, ImageFault>
    ensures { Decodes image_view result (state_at bytes.now) }
{
    match whole(alloc, bytes) {
        Ok(rows) => Ok(rows),
        Err(ReadFault::NoMemory) => Err(ImageFault::NoMemory),
        Err(ReadFault::Left(left)) => Err(damage(bytes, left)),
    }
}

#[tactic(auto, unfolding(crate::specs::Image::whole_image))]
fn whole(alloc: Global, bytes: &[u8]) -> Result<ImageRows, ReadFault>
    ensures { Gives image_view result (whole_image bytes.now) }
{
    let (version, rest) = version(bytes)?;
    let (changes, rest) = u64_up_to(rest, MAX_CHANGES)?;
    let (indexes, rest) = indexes(alloc, rest)?;
    let (outcomes, rest) = outcomes(alloc, version, changes, rest)?;
    if !rest.is_empty() {
        return Err(ReadFault::Left(rest.len()));
    }
    Ok(ImageRows {
        changes,
        indexes,
        outcomes,
    })
}

#[tactic(auto, unfolding(crate::specs::Image::version_at))]
fn version(bytes: &[u8]) -> Result<(u8, &[u8]), ReadFault>
    ensures { Gives (λ x. (x.0, x.1.now)) result (version_at bytes.now) }
{
    let (byte, rest) = u8_at(bytes)?;
    if byte != FIRST_VERSION && byte != VERSION {
        return Err(ReadFault::Left(bytes.len()));
    }
    Ok((byte, rest))
}

#[tactic(auto, unfolding(crate::specs::Image::counted_list_at))]
fn indexes(alloc: Global, bytes: &[u8]) -> Result<(Vec<ImageIndex>, &[u8]), ReadFault>
    ensures { Gives (λ x. (map index_view x.0.items, x.1.now)) result (counted_list_at index_at 1000 bytes.now) }
{
    let (count, rest) = u32_up_to(bytes, MAX_INDEXES)?;
    some_indexes(alloc, count, rest)
}

fn some_indexes(
    alloc: Global,
    count: u32,
    bytes: &[u8],
) -> Result<(Vec<ImageIndex>, &[u8]), ReadFault>
    ensures { Gives (λ x. (map index_view x.0.items, x.1.now)) result (list_at index_at count [] bytes.now) }
{
    let mut indexes = Vec::new(alloc);
    let mut rest = bytes;
    for _ in 0..count {
        let (index, after) = index(alloc, indexes.as_slice(), rest)?;
        indexes.push(index)?;
        rest = after;
    }
    Ok((indexes, rest))
}
