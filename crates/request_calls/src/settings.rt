ghost use Rattle.serde_json.specs.View.{view};
ghost use Rattle.search_base.specs.Gives.{Gives, Checks, Turns};
ghost use Rattle.request_calls.specs.Bodies.{patch_in, patch_refusal, settings_refusal};

use index_settings::{SettingsRefusal, check_patch};
use request_refusals::Refusal;
use search_base::{Fault, Word};
use search_bodies::read_json;
use serde_json::Value;
use std::alloc::Global;

/// The patch that a body is: an object of members that settings accept.
pub(crate) fn read_patch(alloc: Global, body: &[u8]) -> Result<Value, Fault<Refusal>>
    ensures { Gives view result (patch_in body.now) }
{
    let value = read_json(alloc, body)?;
    try_patch(alloc, &value)?;
    Ok(value)
}

#[tactic(auto, using(crate::proofs::Patches::turned))]
fn try_patch(alloc: Global, patch: &Value) -> Result<(), Fault<Refusal>>
    ensures { Checks result (patch_refusal (view patch.now)) }
{
    match check_patch(alloc, patch) {
        Ok(()) => Ok(()),
        Err(Fault::Refused(refusal)) => Err(settings_fault(alloc, refusal)),
        Err(Fault::NoMemory) => Err(Fault::NoMemory),
    }
}

/// Why a request is refused, by the fault of its patch of settings; or want of memory.
pub fn settings_fault(alloc: Global, refusal: SettingsRefusal) -> Fault<Refusal>
    ensures { Turns (settings_refusal refusal) result }
{
    match refusal {
        SettingsRefusal::UnknownMember { member } => Fault::Refused(Refusal::Unknown {
            name: member,
        }),
        SettingsRefusal::WrongShape { member } => wrong_shape(alloc, member),
        SettingsRefusal::BadRankingRule { text } => Fault::Refused(Refusal::BadRankingRule {
            text,
        }),
    }
}

// The name is empty where the patch is no object.
fn wrong_shape(alloc: Global, member: Word) -> Fault<Refusal>
    ensures { Turns (settings_refusal (SettingsRefusal.WrongShape member)) result }
{
    if !member.as_str().is_empty() {
        return Fault::Refused(Refusal::BadSettings { name: member });
    }
    match Word::new(alloc, "body") {
        Ok(name) => Fault::Refused(Refusal::Unknown { name }),
        Err(_) => Fault::NoMemory,
    }
}
