//! Emulation: what a function does, in code beside its definition, on a store of bytes.
#![tactic(auto)]

mod access;
mod act;
mod far;
mod lanes;
mod places;
mod run;
mod state;
mod store;

pub use places::{array_number, count, count_before, variable};
pub use run::{Accs, emulate};
pub use state::Unmapped;
pub use store::{Store, are_low};

#[cfg(test)]
mod tests;
