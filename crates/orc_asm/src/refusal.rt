//! Why a function has no code.

/// Why a function has no code.
#[derive(Clone, Copy, Debug, PartialEq, Eq)]
pub enum AsmError {
    /// The first instruction that needs more values of temps at once than there are places for them.
    Pressure {
        /// The instruction's line.
        line: u32,
        /// How many values it needs.
        need: u32,
    },
    /// There was no memory left for the code.
    Memory,
}
