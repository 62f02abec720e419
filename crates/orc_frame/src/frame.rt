//! Where a function's numbers lie in the frame.

use arrayvec::ArrayVec;
use orc_program::{Facts, Pattern};

/// Where a function's numbers lie in the frame, and what of the function decides what lies there. Displacements are from RSP as it stands
/// after the prologue, in bytes.
#[derive(Debug, Drop)]
pub struct Layout {
    /// Whether the function has rows.
    pub two_d: bool,
    /// The patterns, in the order of first use.
    pub patterns: ArrayVec<Pattern, 48>,
    /// The sizes of the accumulators in bytes, 2 or 4, in order of declaration.
    pub acc_sizes: ArrayVec<u8, 4>,
    /// The places of the parameters in the function's list of variables, in order of declaration.
    pub params: ArrayVec<u16, 8>,
    /// The displacement of each pattern's 16 bytes.
    pub pattern_at: ArrayVec<i32, 48>,
    /// The displacement of each accumulator's running sum of 16 bytes.
    pub sum_at: ArrayVec<i32, 4>,
    /// The displacements of the words of the saved RBX, RBP and R12 to R15.
    pub saved_at: [i32; 6],
    /// The displacement of the word of each array slot's row base.
    pub row_at: [i32; 12],
    /// The displacement of the word of the argument block's address.
    pub block_at: i32,
    /// The displacement of the word of the rows left.
    pub rows_at: i32,
    /// The displacement of the word in which the elements that are left in a row's body wait while its head is done.
    pub left_at: i32,
    /// The displacement of the word in which a far load's code puts the number of its first element.
    pub index_at: i32,
    /// The displacement of the 16 bytes in the first word of which RCX waits while a far load's code gathers.
    pub work_at: i32,
    /// The displacement of the first spill slot, which holds values of temps for which no register is left. Slot k is 16 * k bytes further.
    pub spill_at: i32,
    /// What is known of every call.
    pub facts: Facts,
}
