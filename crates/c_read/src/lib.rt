//! A reader of C texts.
#![tactic(auto)]

mod error;
mod expr;
mod function;
mod reading;
mod scan;
mod stmt;

pub use error::CError;
pub use reading::read_c;

#[cfg(test)]
mod tests;
