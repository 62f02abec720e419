//! The machine: code at an address, a memory of segments, and runs of the code within a budget.
#![tactic(auto)]

mod fetching;
mod machine;
mod running;
mod segments;

pub use machine::{End, Machine};
pub use running::{one_end, run, step, step_on};
pub use segments::Segments;

#[cfg(test)]
mod tests;
