//! Sequences of vector instructions that compute the opcodes whose operands are of more than one size.
#![tactic(auto)]

mod lines;
mod rules;

pub use rules::{has_rule, rule};
