//! Where the code finds what it needs.

use arrayvec::ArrayVec;

/// Where a far load's code finds what it needs, and what it may change. The displacements are in bytes from RSP.
#[derive(Debug, Drop)]
pub struct FarPlan {
    /// Of the word with the address of the array's element 0 in this row.
    pub array: i32,
    /// Of the pattern of each scalar, in order: its low 32 bits count.
    pub scalars: ArrayVec<i32, 2>,
    /// Of the word with the first element's number.
    pub index: i32,
    /// Of 16 bytes that may be overwritten.
    pub work: i32,
    /// The numbers of three different general registers, none of them RSP.
    pub scratch: [u8; 3],
    /// Whether the first element's number is odd, where that is known.
    pub odd: Option<bool>,
}
