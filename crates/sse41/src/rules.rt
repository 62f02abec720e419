//! The rules of the opcodes that SSSE3 and SSE4.1 shorten.

ghost use Rattle.std.specs.Prelude.{◌≡◌, ◌≤◌, length, is_some, IfSome, true};
ghost use Rattle.orc_ops.specs.Targets.{is_shortened, class_for};
ghost use Rattle.orc_ops.specs.declared.target.Target.{Target};
ghost use Rattle.sse_laws.specs.Meets.{Meets};
ghost use Rattle.sse41.specs.Rules.{rule_of};

use crate::lines::lines;
use arrayvec::ArrayVec;
use orc_ops::{Op, is_shortened};
use sse_laws::list;
use x86_ins::Ins;

/// The sequence of an opcode, as the table has it.
fn sequence(op: Op) -> ArrayVec<Ins, 100>
    ensures is { result.items ≡ rule_of op }
    ensures few { length result.items ≤ 3 }
{
    list(lines(op))
}

/// The rule of an opcode that SSSE3 and SSE4.1 shorten.
fn shortened(op: Op) -> ArrayVec<Ins, 100>
    requires { is_shortened op ≡ true }
    ensures meets { Meets op result.items }
    ensures few { length result.items ≤ class_for op Target.Sse41 }
{
    sequence(op)
}

/// The instructions that compute an opcode on all lanes of a register that fit, with those of SSSE3 and SSE4.1; None
/// where these don't shorten the SSE2 rule. The sources stand in XMM0 and XMM1, their lanes packed from the low end;
/// the result is left in XMM0. There are at most 3 instructions, the opcode's class for the target, and they change
/// XMM0 to XMM5 alone. It takes no memory.
pub fn rule41(op: Op) -> Option<ArrayVec<Ins, 100>>
    // There is a rule exactly for the opcodes that are shortened.
    ensures which { is_some result ≡ is_shortened op }
    ensures meets { IfSome result (λ is. Meets op is.items) }
    ensures few { IfSome result (λ is. length is.items ≤ class_for op Target.Sse41) }
{
    if is_shortened(op) {
        Some(shortened(op))
    } else {
        None
    }
}
