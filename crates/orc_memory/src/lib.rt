//! A map of bytes: parts of a memory of which no two share an address.
#![tactic(auto)]

mod extents;
mod map;

pub use extents::overlaps;
pub use map::PartMap;

#[cfg(test)]
mod tests;
