//! Why an image is refused.

/// Why bytes are not read as an image: the first field, in their order, that is not all there or not allowed.
#[derive(Clone, Copy, Debug, PartialEq, Eq)]
pub enum ImageError {
    /// The first four bytes are not `ORCI`.
    BadMagic,
    /// The version is neither 1 nor 2.
    BadVersion,
    /// The bytes end within a field, whose end is at this offset.
    Short {
        /// The offset of the field's end, so the number of bytes that are needed.
        need: usize,
    },
    /// A field has a value that is not allowed.
    BadField {
        /// The offset of the field's first byte.
        at: usize,
    },
    /// There was not enough memory for the image.
    Memory,
}
