//! Entries of functions that C calls by their plain prototypes.
//!
//! A function's code takes its numbers from an argument block. [`entry_for`] puts a list of instructions before that code, which makes
//! such a block on the function's own stack out of the arguments of C, and a list behind it, which stores each sum through its pointer.
//! `specs/Arguments` has the order of the arguments and where each is, and `specs/Entry` what a good entry is and what the code then does.
#![tactic(auto)]

mod entry;
mod lists;
mod sources;

pub use entry::{EntryCode, entry_for};
pub use sources::Source;
