//! What does the elements of a row: blocks of instructions, turns of one element and of several, and the loops around them.
//!
//! [`region`] gives a block for one element or for several, and [`row_flow`] the loops over the elements of one row, as a tree without jumps.
//! Code around rows takes from here the registers that it shares with the loops, as [`pointer`] and [`COUNTER`]. `specs/Elements` says what
//! blocks and rows do in a good call. `specs/Code` has what blocks and turns are made of, and `specs/Regions` what the loops are.
#![tactic(auto)]

mod fars;
mod homes;
mod lists;
mod loops;
mod residents;
mod rules;
mod span;
mod taking;
mod turns;

pub use lists::{COUNTER, pointer};
pub use residents::{resident_loads, sum_stores};
pub use turns::{region, row_flow};
