//! A memory and its runners.

ghost use Rattle.std.specs.Prelude.{◌≡◌, ◌+◌, ◌≤◌, ◌^◌, length, IfOk, OnOk, IfErr};
ghost use Rattle.orc_bits.specs.Parts.{layout, memory_of, Overlaps};

use orc_bits::{BuildError, Code, Parts};
use std::alloc::Global;
use x86_ins::state::{State, Trap};
use x86_machine::Segments;

/// A job: code at an address, a machine's state, the values at which its run is over, and the steps that it has taken.
#[derive(Debug, Drop)]
pub struct Runner {
    /// Registers, flags and RIP.
    pub state: State,
    /// The address of the code's first byte.
    pub code_at: u64,
    /// The code, which can't be written, and is no part of the memory. It ends at most at 2^64.
    pub code: Code,
    /// The value of RIP at which the run is over, where RSP has its value too.
    pub stop_rip: u64,
    /// The value of RSP at which the run is over, where RIP has its value too.
    pub stop_rsp: u64,
    /// The steps that it has taken.
    pub steps: u64,
    ghost low: { code_at + length code ≤ 2 ^ 64 },
}

/// Runners, by their numbers from 0 on.
pub type Runners = Vec<Runner>;

/// Runners on one memory.
#[derive(Debug, Drop)]
pub struct World {
    /// The mapped bytes.
    pub memory: Segments,
    /// The runners.
    pub runners: Runners,
}

/// What a turn did.
#[derive(Clone, Copy, Debug, PartialEq, Eq)]
pub enum Turn {
    /// One step.
    Moved,
    /// Nothing: the runner stands at its stop values.
    Ended,
    /// Nothing: the runner's next step has no effect.
    Trapped(Trap),
}

impl World {
    /// The world of these runners on the memory that has the bytes of these parts. A refusal drops both.
    ///
    /// # Errors
    ///
    /// `Overlap` exactly where two parts share an address; `Memory` where memory is wanting.
    pub fn build(alloc: Global, parts: Parts, runners: Runners) -> Result<World, BuildError>
        ensures memory { IfOk result (λ w. memory_of w.memory ≡ memory_of parts) }
        ensures runners { IfOk result (λ w. w.runners ≡ runners) }
        ensures apart { OnOk result (Overlaps (layout parts) → ⊥) }
        ensures overlap { IfErr result (λ e. e ≡ BuildError.Overlap → Overlaps (layout parts)) }
    {
        let memory = Segments::build(alloc, parts)?;
        Ok(World { memory, runners })
    }
}
