//! Displacements from RSP, as a layout has them.

ghost use Rattle.std.specs.Prelude.{◌≡◌, ◌<◌, length, pos};
ghost use Rattle.orc_frame.specs.Frame.{IsLayout};
ghost use Rattle.orc_frame.specs.Layout.{pattern_slot, sum_slot, row_slot, block_slot, rows_slot, left_slot, index_slot, work_slot, spill_slots, spill_slot};

use crate::frame::Layout;

/// Where the 16 bytes of a pattern are, in bytes above RSP as it stands after the prologue.
pub fn pattern_at(layout: &Layout, number: usize) -> i32
    requires layout { IsLayout layout.now }
    requires inside { number < length layout.now.patterns.items }
    ensures { result ≡ pos (pattern_slot number) }
{
    layout.pattern_at.as_slice()[number]
}

/// Where the 16 bytes of an accumulator's running sum are.
pub fn sum_at(layout: &Layout, number: usize) -> i32
    requires layout { IsLayout layout.now }
    requires inside { number < length layout.now.acc_sizes.items }
    ensures { result ≡ pos (sum_slot number) }
{
    layout.sum_at.as_slice()[number]
}

/// Where the word of the base of an array slot's row is.
pub fn row_at(layout: &Layout, slot: usize) -> i32
    requires layout { IsLayout layout.now }
    requires inside { slot < 12 }
    ensures { result ≡ pos (row_slot slot) }
{
    layout.row_at[slot]
}

/// Where the word of the block's address is.
pub fn block_at(layout: &Layout) -> i32
    requires { IsLayout layout.now }
    ensures { result ≡ pos block_slot }
{
    layout.block_at
}

/// Where the word of the rows left is.
pub fn rows_at(layout: &Layout) -> i32
    requires { IsLayout layout.now }
    ensures { result ≡ pos rows_slot }
{
    layout.rows_at
}

/// Where the word is in which the elements that are left in a row's body wait while its head is done.
pub fn left_at(layout: &Layout) -> i32
    requires { IsLayout layout.now }
    ensures { result ≡ pos left_slot }
{
    layout.left_at
}

/// Where the word is in which a far load's code puts the number of its first element.
pub fn index_at(layout: &Layout) -> i32
    requires { IsLayout layout.now }
    ensures { result ≡ pos index_slot }
{
    layout.index_at
}

/// Where the 16 bytes are in the first word of which RCX waits while a far load's code gathers.
pub fn work_at(layout: &Layout) -> i32
    requires { IsLayout layout.now }
    ensures { result ≡ pos work_slot }
{
    layout.work_at
}

/// Where the 16 bytes of a spill slot are.
pub fn spill_slot_at(layout: &Layout, number: usize) -> i32
    requires layout { IsLayout layout.now }
    requires inside { number < spill_slots }
    ensures { result ≡ pos (spill_slot number) }
{
    layout.spill_at + 16 * number as i32
}
