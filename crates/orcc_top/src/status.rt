//! How a run ends.

/// How a run ended. The program ends with the number.
#[derive(Clone, Copy, Debug, PartialEq, Eq)]
pub enum Status {
    /// The output was written.
    Done = 0,
    /// The input was refused, and the notes have the line that says why.
    Refused = 1,
    /// The words are no listed form, and the notes have the line that lists the forms.
    Usage = 2,
    /// The input failed. Nothing was written.
    ReadFault = 3,
    /// The output or the notes failed, and may have some first bytes of what was to be written.
    WriteFault = 4,
    /// Want of memory. Nothing was written.
    Memory = 5,
}
