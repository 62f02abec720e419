//! The words of the argument block, by their displacements from RDI in bytes.

ghost use Rattle.std.specs.Prelude.{◌≡◌, ◌<◌, ◌≤◌};
ghost use Rattle.orc_frame.specs.Parts.{base_word, stride_word, param_word, sum_word};

/// The bytes of the block.
pub const BLOCK_SIZE: usize = 304;

/// Where the block has the number of elements of a row.
pub const ELEMENTS_WORD: usize = 0;

/// Where the block has the number of rows.
pub const ROWS_WORD: usize = 8;

/// Where the block has the base of an array slot.
pub fn base_word(slot: usize) -> usize
    requires { slot < 12 }
    ensures { result ≡ base_word slot }
{
    16 + 16 * slot
}

/// Where the block has the stride of an array slot.
pub fn stride_word(slot: usize) -> usize
    requires { slot < 12 }
    ensures { result ≡ stride_word slot }
{
    24 + 16 * slot
}

/// Where the block has a parameter, by its number, or where the parameters end.
pub fn param_word(number: usize) -> usize
    requires { number ≤ 8 }
    ensures { result ≡ param_word number }
{
    208 + 8 * number
}

/// Where the block has an accumulator, by its number.
pub fn sum_word(number: usize) -> usize
    requires { number < 4 }
    ensures { result ≡ sum_word number }
{
    272 + 8 * number
}
