//! What is known of every call of a function.

use arrayvec::ArrayVec;

/// What is known of a count of elements or rows in every call.
#[derive(Clone, Copy, Debug, PartialEq, Eq)]
pub struct CountFacts {
    /// The count itself, from 1; 0 where it isn't known.
    pub exact: u32,
    /// A number from 1 that divides the count.
    pub mult: u32,
    /// The least count.
    pub min: u32,
    /// The greatest count.
    pub max: u32,
}

/// What is known of every call of a function.
#[derive(Debug, Drop)]
pub struct Facts {
    /// Of the elements of a row.
    pub n: CountFacts,
    /// Of the rows; nothing where the function has none.
    pub m: CountFacts,
    /// For each array, dests first, a power of two from 1 to 4096 that divides its base and, where the function has rows, its stride.
    pub aligns: ArrayVec<u16, 12>,
}
