//! What a far load reads.

/// The elements that a far load reads.
#[derive(Clone, Copy, Debug, PartialEq, Eq)]
pub struct Reach {
    /// The element that is read first.
    pub first: i64,
    /// The one that is read after it, where there is one.
    pub second: Option<i64>,
    /// The share of the second, in parts of 256; 0 where the opcode has none.
    pub part: u8,
}
