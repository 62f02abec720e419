//! Loads from other places of an array: the elements that are read, the value, and the code that gathers values.
#![tactic(auto)]

mod assembly;
mod beside;
mod pieces;
mod plan;
mod turn;

pub use assembly::gather;
pub use orc_ops::{Reach, blend, reach};
pub use plan::FarPlan;
pub use turn::{FarSource, bring};

#[cfg(test)]
mod tests;
