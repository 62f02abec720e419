//! Sequences of vector instructions that compute the opcodes on longs on all lanes of a register.
#![tactic(auto)]

mod lines;
mod rules;

pub use rules::{has_rule, rule};
