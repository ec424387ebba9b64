// The outcomes of finished tasks, behind the indexes.
ghost use Rattle.std.specs.Prelude.{◌≡◌, ◌++◌, [], OnOk};
ghost use Rattle.std.specs.List.{flat_map, AllByRecursion};
ghost use Rattle.change_payloads.specs.Answers.{Gives};
ghost use Rattle.index_image.specs.Image.{list_at, outcome_uid_at, row_at as row_in, outcome_at, outcomes_at};
ghost use Rattle.index_image.specs.Layout.{list_bytes};
ghost use Rattle.index_image.specs.Outcomes.{is_row as is_row_byte, outcome_bytes, HasOutcomeText};

use crate::image::FIRST_VERSION;
use crate::numbers::u32_up_to;
use change_payloads::{ReadFault, kind_at, put_length, put_word, text, u8_at};
use doc_values::is_uid;
use search_base::{NoMemory, OutcomeRow, Word};
use std::alloc::Global;

const MAX_OUTCOMES: u64 = 1000;

/// The outcomes of an image of this version that counts so many changes, and the bytes behind them. Version 1 has none.
#[tactic(auto, unfolding(crate::specs::Image::outcomes_at, crate::specs::Image::counted_list_at))]
pub(crate) fn outcomes(
    alloc: Global,
    version: u8,
    changes: u64,
    bytes: &[u8],
) -> Result<(Vec<OutcomeRow>, &[u8]), ReadFault>
    ensures { Gives (λ x. (x.0.items, x.1.now)) result (outcomes_at version changes bytes.now) }
{
    if version == FIRST_VERSION {
        return Ok((Vec::new(alloc), bytes));
    }
    let most = MAX_OUTCOMES.min(changes) as u32;
    let (count, rest) = u32_up_to(bytes, most)?;
    some_outcomes(alloc, count, rest)
}

fn some_outcomes(
    alloc: Global,
    count: u32,
    bytes: &[u8],
) -> Result<(Vec<OutcomeRow>, &[u8]), ReadFault>
    ensures { Gives (λ x. (x.0.items, x.1.now)) result (list_at (λ before. outcome_at) count [] bytes.now) }
{
    let mut outcomes = Vec::new(alloc);
    let mut rest = bytes;
    for _ in 0..count {
        let (outcome, after) = outcome(alloc, rest)?;
        outcomes.push(outcome)?;
        rest = after;
    }
    Ok((outcomes, rest))
}

#[tactic(auto, unfolding(crate::specs::Image::outcome_at))]
fn outcome(alloc: Global, bytes: &[u8]) -> Result<(OutcomeRow, &[u8]), ReadFault>
    ensures { Gives (λ x. (x.0, x.1.now)) result (outcome_at bytes.now) }
{
    let (kind, rest) = kind_at(bytes)?;
    let (uid, rest) = outcome_uid(alloc, rest)?;
    let (row, rest) = row_at(rest)?;
    Ok((OutcomeRow { uid, kind, row }, rest))
}

#[tactic(auto, unfolding(crate::specs::Image::outcome_uid_at))]
fn outcome_uid(alloc: Global, bytes: &[u8]) -> Result<(Word, &[u8]), ReadFault>
    ensures { Gives (λ x. (x.0, x.1.now)) result (outcome_uid_at bytes.now) }
{
    let (uid, rest) = text(alloc, bytes)?;
    if is_uid(uid.as_str()) {
        Ok((uid, rest))
    } else {
        Err(ReadFault::Left(uid.as_str().len() + rest.len()))
    }
}

#[tactic(auto, unfolding(crate::specs::Image::row_at))]
fn row_at(bytes: &[u8]) -> Result<(u8, &[u8]), ReadFault>
    ensures { Gives (λ x. (x.0, x.1.now)) result (row_in bytes.now) }
{
    let (byte, rest) = u8_at(bytes)?;
    if is_row(byte) {
        Ok((byte, rest))
    } else {
        Err(ReadFault::Left(bytes.len()))
    }
}

/// Whether a task can succeed or fail by this row.
fn is_row(row: u8) -> bool
    ensures { result ≡ is_row_byte row }
{
    matches!(row, 0 | 23 | 24 | 26..=30 | 32..=34)
}

/// Writes the outcomes behind what is there.
pub(crate) fn put_outcomes(out: &mut Vec<u8>, outcomes: &[OutcomeRow]) -> Result<(), NoMemory>
    ensures bytes { OnOk result (out.new.items ≡ out.old.items ++ list_bytes outcome_bytes outcomes.now) }
    ensures texts { OnOk result (AllByRecursion HasOutcomeText outcomes.now) }
{
    put_length(out, outcomes.len())?;
    put_each_outcome(out, outcomes)
}

fn put_each_outcome(out: &mut Vec<u8>, outcomes: &[OutcomeRow]) -> Result<(), NoMemory>
    ensures bytes { OnOk result (out.new.items ≡ out.old.items ++ flat_map outcome_bytes outcomes.now) }
    ensures texts { OnOk result (AllByRecursion HasOutcomeText outcomes.now) }
{
    for outcome in outcomes {
        put_outcome(out, outcome)?;
    }
    Ok(())
}

fn put_outcome(out: &mut Vec<u8>, outcome: &OutcomeRow) -> Result<(), NoMemory>
    ensures bytes { OnOk result (out.new.items ≡ out.old.items ++ outcome_bytes outcome.now) }
    ensures text { OnOk result (HasOutcomeText outcome.now) }
{
    out.push(outcome.kind)?;
    put_word(out, &outcome.uid)?;
    out.push(outcome.row)?;
    Ok(())
}
