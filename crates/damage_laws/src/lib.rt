//! Where `change_payloads`, `index_image` and `change_journal` name damage, nothing is spelled so far.
//!
//! Promises, as laws that no program calls, that the place of damage is not too early: no change, no state and no entry of
//! a journal has a spelling that agrees with the bytes through the field that stands there. Stands on these three, whose
//! definitions it ties to one another.
#![tactic(auto)]

ghost use Rattle.damage_laws.specs.Laws.{FieldsSpellChanges, FieldsSpellStates, NoChangeIsSpelledSoFar, NoEntryIsSpelledSoFar, NoStateIsSpelledSoFar};

/// Where a payload is damaged, no change has a spelling that agrees with it through the field at that place.
pub fn no_change_is_spelled_so_far()
    ensures { NoChangeIsSpelledSoFar }
{}

/// Where an image is damaged, no state has a spelling that agrees with it through the field at that place.
pub fn no_state_is_spelled_so_far()
    ensures { NoStateIsSpelledSoFar }
{}

/// Where a journal is damaged, no entries have a spelling that agrees with it through the field at that place.
pub fn no_entry_is_spelled_so_far()
    ensures { NoEntryIsSpelledSoFar }
{}

/// The fields of a change, one after the other, are its spelling.
pub fn fields_spell_changes()
    ensures { FieldsSpellChanges }
{}

/// The fields of a state, one after the other, are its spelling.
pub fn fields_spell_states()
    ensures { FieldsSpellStates }
{}
