//! Sequences of vector instructions of SSSE3 and SSE4.1 that compute opcodes in fewer instructions than those of SSE2.
#![tactic(auto)]

mod lines;
mod rules;

pub use rules::rule41;
