//! What the vector instructions between registers compute, lane by lane.
//!
//! Lanes are counted from the low end of a register, and a register is its 16 bytes, lowest first.
#![tactic(auto)]

mod arithmetic;
mod build;
mod extends;
mod forms;
mod packs;
mod select;
mod shifts;
mod shuffles;
#[cfg(test)]
mod tests;
mod width;

pub use build::{shift_result, shuffle_result, vec_result};
