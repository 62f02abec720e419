//! The state between statements.

/// The greatest number of variables of a function.
pub const MOST_VARIABLES: usize = 256;

/// The greatest number of running sums of a function.
pub const MOST_SUMS: usize = 4;

/// What statements change besides the memory. A variable or a running sum has a number once it was set.
#[derive(Drop)]
pub struct Values {
    /// The variables.
    pub v: [Option<u64>; MOST_VARIABLES],
    /// The running sums.
    pub w: [Option<u64>; MOST_SUMS],
    /// The number of statements done.
    pub done: u64,
}

/// The turns of the two loops that are under way.
#[derive(Clone, Copy, Debug)]
pub struct Spot {
    /// The turn of the outer loop.
    pub row: u32,
    /// The turn of the inner loop.
    pub element: u32,
}

/// Why a call goes no further.
#[derive(Clone, Copy, Debug, PartialEq, Eq)]
pub enum CStop {
    /// A statement, counted from 0, has no meaning.
    NoMeaning(u64),
    /// There is one statement more than the budget has.
    Budget,
}
