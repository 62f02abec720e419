//! The rules of the opcodes whose operands are of more than one size.

ghost use Rattle.std.specs.Prelude.{◌≡◌, ◌≤◌, length, true};
ghost use Rattle.orc_ops.specs.declared.target.Target.TheVariants.{Sse2};
ghost use Rattle.orc_ops.specs.Table.{row};
ghost use Rattle.sse_laws.specs.Meets.{Meets};
ghost use Rattle.sse_laws.specs.Targets.{IsCodeFor};
ghost use Rattle.sse_conv.specs.Rules.{rule_of};
ghost use Rattle.sse_conv.specs.Sizes.{changes_size};

use crate::lines::lines;
use arrayvec::ArrayVec;
use orc_ops::{Kind, Op, kind_of};
use sse_laws::{is_of_size, list};
use x86_ins::Ins;

/// Whether this crate has the opcode's rule: its operands, a count apart, are of more than one size, and it adds to
/// no accumulator.
pub fn has_rule(op: Op) -> bool
    ensures { result ≡ changes_size op }
{
    let one_size = is_of_size(1, op) || is_of_size(2, op) || is_of_size(4, op) || is_of_size(8, op);
    kind_of(op) != Kind::Sum && !one_size
}

/// The sequence of an opcode, as the table has it.
fn sequence(op: Op) -> ArrayVec<Ins, 100>
    ensures is { result.items ≡ rule_of op }
    ensures few { length result.items ≤ (row op).class }
{
    list(lines(op))
}

/// The instructions that compute an opcode on all lanes of a register that fit. The sources stand in XMM0 and XMM1,
/// their lanes packed from the low end; the result is left in XMM0, and a second one in XMM1. There are at most as
/// many instructions as the opcode's class, all of SSE2, and they change XMM0 to XMM5 alone.
pub fn rule(op: Op) -> ArrayVec<Ins, 100>
    requires { changes_size op ≡ true }
    ensures meets { Meets op result.items }
    ensures few { length result.items ≤ (row op).class }
    ensures sse2 { IsCodeFor Sse2 result.items }
{
    sequence(op)
}
