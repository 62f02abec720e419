//! The state between instructions.

ghost use Rattle.std.specs.Prelude.{◌≡◌};

/// A cell that is read or written has a byte that isn't mapped: where it was met, and the address of the first such byte.
#[derive(Clone, Copy, Debug, PartialEq, Eq)]
pub struct Unmapped {
    /// The row, from 0.
    pub row: u32,
    /// The element of that row, from 0.
    pub element: u32,
    /// The address of the cell's first byte that isn't mapped, modulo 2^64.
    pub at: u64,
}

/// The greatest number of variables of a function: 8 sources, 4 dests, 4 accumulators, 8 parameters, 32 constants and
/// 128 temps.
pub const MOST_VARS: usize = 184;

/// The temps and the running sums, by the variable's place.
#[derive(Debug, Drop)]
pub struct Values {
    pub temps: [u64; MOST_VARS],
    pub sums: [u64; MOST_VARS],
}

/// The element of a row that is worked on.
#[derive(Clone, Copy, Debug)]
pub struct Spot {
    pub row: u32,
    pub element: u32,
}

impl Spot {
    /// A byte there isn't mapped.
    pub fn unmapped(self, at: u64) -> Unmapped
        ensures { result ≡ record { row = self.row; element = self.element; at = at } }
    {
        Unmapped {
            row: self.row,
            element: self.element,
            at,
        }
    }
}
