//! The machine and the ends of its runs.

ghost use Rattle.std.specs.Prelude.{◌+◌, ◌≤◌, ◌^◌, length};

use crate::segments::Segments;
use orc_bits::Code;
use x86_ins::state::{State, Trap};

/// Code at an address, the state and the memory on which it runs, and the values of RIP and RSP at which a run is over.
#[derive(Debug, Drop)]
pub struct Machine {
    /// Registers, flags and RIP.
    pub state: State,
    /// The address of the code's first byte.
    pub code_at: u64,
    /// The code, which can't be written, and is no part of the memory. It ends at most at 2^64.
    pub code: Code,
    /// The mapped bytes.
    pub memory: Segments,
    /// The value of RIP at which a run is over, where RSP has its value too.
    pub stop_rip: u64,
    /// The value of RSP at which a run is over, where RIP has its value too.
    pub stop_rsp: u64,
    ghost low: { code_at + length code ≤ 2 ^ 64 },
}

/// How a run ends.
#[derive(Clone, Copy, Debug, PartialEq, Eq)]
pub enum End {
    /// RIP and RSP have the stop values after so many steps.
    Returned { steps: u64 },
    /// The step after so many steps has no effect.
    Trapped { steps: u64, trap: Trap },
    /// No end came within the budget.
    Budget,
}
