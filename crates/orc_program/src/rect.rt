//! Rectangles of a call's rows and elements.

/// Some rows of a call that follow each other, and in each of them the same elements.
#[derive(Clone, Copy, Debug, Default, PartialEq, Eq)]
pub struct Rect {
    /// The first row.
    pub row: u32,
    /// How many rows.
    pub rows: u32,
    /// The first element of each of these rows.
    pub element: u32,
    /// How many elements of each of these rows.
    pub elements: u32,
}
