//! The rules of the opcodes on quads.

ghost use Rattle.std.specs.Prelude.{◌≡◌, ◌≤◌, length, true};
ghost use Rattle.orc_ops.specs.declared.target.Target.TheVariants.{Sse2};
ghost use Rattle.orc_ops.specs.Table.{row};
ghost use Rattle.sse_laws.specs.Meets.{Meets, is_of_size};
ghost use Rattle.sse_laws.specs.Targets.{IsCodeFor};
ghost use Rattle.sse_q.specs.Rules.{rule_of};

use crate::lines::lines;
use arrayvec::ArrayVec;
use orc_ops::Op;
use sse_laws::{is_of_size, list};
use x86_ins::Ins;

/// Whether this crate has the opcode's rule: all its operands, a count apart, have eight bytes, and it adds to no
/// accumulator.
pub fn has_rule(op: Op) -> bool
    ensures { result ≡ is_of_size 8 op }
{
    is_of_size(8, op)
}

/// The sequence of an opcode, as the table has it.
fn sequence(op: Op) -> ArrayVec<Ins, 100>
    ensures is { result.items ≡ rule_of op }
    ensures few { length result.items ≤ (row op).class }
{
    list(lines(op))
}

/// The instructions that compute an opcode on all quads of a register. The sources stand in XMM0 and XMM1, a shift's
/// count in the low 64 bits of XMM1; the result is left in XMM0. There are at most as many instructions as the
/// opcode's class, all of SSE2, and they change XMM0 to XMM5 alone.
pub fn rule(op: Op) -> ArrayVec<Ins, 100>
    requires { is_of_size 8 op ≡ true }
    ensures meets { Meets op result.items }
    ensures few { length result.items ≤ (row op).class }
    ensures sse2 { IsCodeFor Sse2 result.items }
{
    sequence(op)
}
