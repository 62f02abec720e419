//! Exact integers and their bits, lanes of 16 bytes, and bytes at addresses.
#![tactic(auto)]

pub mod lane;
mod parts;
mod views;

pub use lane::LaneView;
pub use parts::{BuildError, Code, Part, Parts};
pub use views::{clamp_s, clamp_u, cut, signed};

#[cfg(test)]
mod tests;
