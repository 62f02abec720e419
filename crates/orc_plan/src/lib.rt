//! Functions as steps over value numbers, how many values each step needs at once, and places for them.
//!
//! [`lower`] turns a function into a [`Core`]: one step per instruction, with numbered values in place of temps. [`need`] counts the values
//! that a step needs at once and [`widest_need`] is the largest such count. [`place`] gives each value one of 74 places, ten of which are
//! registers, or refuses with [`Pressure`] where some step needs more. [`lanes`] and [`cost`] are figures of a function. [`places_stand`] is a law: a temp that is read
//! stands in its place until it is read for the last time.
//!
//! `specs/` says what steps keep (`Core`), what they need (`Need`), when places are good (`Places`), what the steps of a function are
//! (`Lowered`) and what places mean for temps (`Standing`).
#![tactic(auto)]

mod copying;
mod counting;
mod figures;
mod items;
mod laws;
mod lowering;
mod placing;
mod reads;
mod spilling;
mod steps;
mod variables;

pub use counting::{need, widest_need};
pub use figures::{cost, cost_for, lanes};
pub use laws::places_stand;
pub use lowering::lower;
pub use placing::{place, place_of};
pub use steps::{Core, Item, Placed, Pressure, Step};

#[cfg(test)]
mod tests;
