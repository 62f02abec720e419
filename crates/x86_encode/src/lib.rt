//! Instructions as bytes: the one spelling of each instruction.
#![tactic(auto)]

mod forms;
mod law;
mod patch;
mod rows;
mod tables;
#[cfg(test)]
mod tests;

pub use law::spelling_sizes;
pub use patch::patch_rel32;
pub use rows::encode;
