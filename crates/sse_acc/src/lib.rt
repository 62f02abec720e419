//! Sequences of vector instructions for the opcodes that add to an accumulator.
#![tactic(auto)]

mod laws;
mod rules;

pub use laws::rules_add_up;
pub use rules::{has_rule, rule};
