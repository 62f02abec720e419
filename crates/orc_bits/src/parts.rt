//! Bytes of code, and bytes at addresses.

use sqlite_items::Items;

/// Machine code: its bytes, in the order in which they stand.
pub type Code = Items<u8>;

/// Bytes at an address: byte `i` stands at `at + i`.
#[derive(Debug, Drop)]
pub struct Part {
    pub at: u64,
    pub bytes: Items<u8>,
}

/// Parts of a memory, in the order given.
pub type Parts = Items<Part>;

/// Why no memory was made of some parts.
#[derive(Clone, Copy, Debug, PartialEq, Eq)]
pub enum BuildError {
    /// Two of the parts share an address.
    Overlap,
    /// There was no memory left for it.
    Memory,
}
