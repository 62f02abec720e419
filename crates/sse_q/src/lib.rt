//! Sequences of vector instructions that compute the quad opcodes on both quads of a register.
#![tactic(auto)]

mod lines;
mod rules;

pub use rules::{has_rule, rule};
