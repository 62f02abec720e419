//! Which elements a block does, and how.

use crate::residents::Seats;
use orc_frame::Layout;
use orc_ops::Target;

/// Which elements of a turn a block does, and how: `count` of them from number `first` on, counted from the one that the pointers are at.
#[derive(Clone, Copy, Debug, PartialEq, Eq)]
pub struct Span {
    /// The number of the first element.
    pub first: usize,
    /// How many elements there are: 1, or as many as are done at once.
    pub count: usize,
    /// Whether the first dest's cells are stored at a multiple of 16.
    pub aligned: bool,
    /// The target whose rules compute the opcodes.
    pub target: Target,
}

/// What the code of steps depends on besides the steps.
#[derive(Clone, Copy)]
pub struct Setting<'t> {
    /// Where values stand, and patterns.
    pub seats: Seats<'t>,
    /// The bytes of an element of each array slot.
    pub sizes: &'t [u8; 12],
    /// Where the function's numbers lie in the frame.
    pub layout: &'t Layout,
    /// Which elements the code does.
    pub span: Span,
}
