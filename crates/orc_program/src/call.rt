//! Calls of a function.

use arrayvec::ArrayVec;

/// Where an array's cells lie: the cell at row r and element i starts at `base` + r·`stride` + i·size, modulo 2^64.
#[derive(Clone, Copy, Debug, Default, PartialEq, Eq)]
pub struct Place {
    /// The address of the first cell.
    pub base: u64,
    /// The bytes from one row to the next.
    pub stride: i64,
}

/// Places of a call's arrays.
pub type Places = ArrayVec<Place, 12>;

/// Numbers of a call's parameters.
pub type Params = ArrayVec<u64, 8>;

/// A call of a function.
#[derive(Debug, Drop)]
pub struct Call {
    /// The elements of a row.
    pub n: u32,
    /// The rows, where the function has rows; else there is one, whatever stands here.
    pub m: u32,
    /// The dests, then the sources, each in order of declaration.
    pub arrays: Places,
    /// The parameters, in order of declaration.
    pub params: Params,
}
