//! A list of slots, and values that are staged for it.
//!
//! A change stages its values behind the slots, which takes all memory and changes no slot. Then it settles them,
//! each into the slot that it names, which takes none and cannot be refused; or it lets them go. A value that is
//! staged stands where the slots will: it is moved and never kept twice.
//! Contracts see a `StagedSlots` as the list of its slots and the list of the values that are staged.
//! Stands on `search_base`, which has the error for want of memory.
#![tactic(auto)]

mod slots;

pub use slots::StagedSlots;
