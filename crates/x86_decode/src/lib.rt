//! Bytes as instructions: the instruction whose one spelling begins the bytes, if there is one.
#![tactic(auto)]

mod decoder;
mod fields;
mod rows;
mod tables;
#[cfg(test)]
mod tests;

pub use decoder::{decode, one_spelling};
