//! What a job's run or emulation ended with.

use orc_bits::Parts;
use orc_emul::Accs;
use x86_ins::Why;

/// How a run or an emulation ended.
#[derive(Clone, Copy, Debug, PartialEq, Eq)]
pub enum EndLine {
    /// The code returned.
    Returned {
        /// The instructions that were done.
        steps: u64,
    },
    /// An instruction had no effect.
    Trap {
        /// The reason.
        why: Why,
        /// The address that the reason speaks of.
        at: u64,
        /// The instructions that were done before it.
        steps: u64,
    },
    /// The job's budget was used up.
    Budget {
        /// The instructions that were done, which is the budget.
        steps: u64,
    },
    /// The emulation was done to its end.
    Emulated,
    /// The emulation met a cell with a byte that isn't mapped.
    Unmapped {
        /// The row, from 0.
        row: u32,
        /// The element of that row, from 0.
        element: u32,
        /// The address of the cell's first byte that isn't mapped.
        at: u64,
    },
}

/// What a job ended with.
#[derive(Debug, Drop)]
pub struct Outcome {
    /// How it ended.
    pub end: EndLine,
    /// The sums of the accumulators, in order of declaration.
    pub accs: Accs,
    /// The segments in the job's order, with their bytes at the end.
    pub memory: Parts,
}
