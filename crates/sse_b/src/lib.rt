//! The rules of the opcodes on bytes: for each a sequence of SSE2 instructions that computes it on all 16 bytes of a
//! register.
#![tactic(auto)]

mod lines;
mod rules;

pub use rules::{has_rule, rule};
