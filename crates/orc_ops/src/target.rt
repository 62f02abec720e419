//! Targets of code, and the classes of opcodes for each.

ghost use Rattle.std.specs.Prelude.{◌≡◌};
ghost use Rattle.orc_ops.specs.Targets.{is_shortened, class_for};

use crate::opcode::{Op, info};

/// Which instructions code may hold.
#[derive(Clone, Copy, Debug, PartialEq, Eq)]
pub enum Target {
    /// SSE2, which each x86-64 processor has.
    Sse2,
    /// SSE2 with the rows of SSSE3 and SSE4.1 that the machine has.
    Sse41,
}

/// Whether SSSE3 and SSE4.1 shorten the opcode.
pub fn is_shortened(op: Op) -> bool
    ensures { result ≡ is_shortened op }
{
    match op {
        Op::Absl
        | Op::Maxsb
        | Op::Minsb
        | Op::Maxsl
        | Op::Minsl
        | Op::Maxul
        | Op::Minul
        | Op::Mulll
        | Op::Convsuslw
        | Op::Mulsbw
        | Op::Mulubw
        | Op::Mulswl
        | Op::Muluwl
        | Op::Mulslq
        | Op::Mululq => true,
        _ => false,
    }
}

/// The class of an opcode for a target: the greatest number of the target's instructions that compute it on all lanes of
/// a register. It is 3 for the opcodes that SSSE3 and SSE4.1 shorten, where the target has these, and else the table's.
pub fn class_for(op: Op, target: Target) -> u8
    ensures { result ≡ class_for op target }
{
    match target {
        Target::Sse2 => info(op).class,
        Target::Sse41 => if is_shortened(op) { 3 } else { info(op).class },
    }
}
