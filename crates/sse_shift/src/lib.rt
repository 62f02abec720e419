//! Shifts by a count that is known: one instruction, which has the count in itself.
#![tactic(auto)]

mod shifts;

pub use shifts::shift_by;
