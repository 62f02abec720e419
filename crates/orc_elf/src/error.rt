//! Why an object is refused.

/// Why bytes are not read as an object: the first field, in their order, that is not all there or not allowed.
#[derive(Clone, Copy, Debug, PartialEq, Eq)]
pub enum ElfError {
    /// The bytes end within a field, or within the contents of a section.
    Short {
        /// The offset of the end, so the number of bytes that are needed.
        need: u64,
    },
    /// A field has a value that is not allowed.
    BadField {
        /// The offset of the field's first byte.
        at: u64,
    },
    /// There was not enough memory for the functions.
    Memory,
}
