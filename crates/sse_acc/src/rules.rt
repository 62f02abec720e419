//! The rules of the opcodes that add to an accumulator.

ghost use Rattle.std.specs.Prelude.{◌≡◌, ◌≤◌, ◌/◌, length, true};
ghost use Rattle.orc_ops.specs.declared.target.Target.TheVariants.{Sse2};
ghost use Rattle.orc_ops.specs.Table.{row, size_of_result};
ghost use Rattle.sse_laws.specs.Meets.{is_sum};
ghost use Rattle.sse_laws.specs.Targets.{IsCodeFor};
ghost use Rattle.sse_acc.specs.Rules.{rule_of};
ghost use Rattle.sse_acc.specs.Sums.{AddsUp};

use arrayvec::ArrayVec;
use orc_ops::{Kind, Op, kind_of};
use sse_laws::{Line, list};
use x86_ins::{Ins, VecImmOp, VecOp};

/// An operation on two registers, named by their numbers, the destination first.
macro_rules! v {
    ($op:ident, $dst:literal, $src:literal) => { Line::Vec(VecOp::$op, $dst, $src) };
}

/// A shift of a register towards the high end by so many bytes.
macro_rules! up {
    ($dst:literal, $count:expr) => { Line::VecImm(VecImmOp::Pslldq, $dst, $count) };
}

/// Whether this crate has the opcode's rule: it adds to an accumulator.
pub fn has_rule(op: Op) -> bool
    ensures { result ≡ is_sum (row op).kind }
{
    matches!(kind_of(op), Kind::Sum)
}

/// The sequence of an opcode, none where it adds to no accumulator. The lanes beyond the first `lanes` are shifted out, where there are any.
fn sequence(op: Op, lanes: u8) -> ArrayVec<Ins, 100>
    requires { lanes ≤ 16 / size_of_result op 0 }
    ensures is { result.items ≡ rule_of op lanes }
    ensures few { length result.items ≤ (row op).class }
{
    match op {
        Op::Accw if lanes == 8 => list(&[v!(Paddw, 2, 0)]),
        Op::Accw => list(&[up!(0, 16 - 2 * lanes), v!(Paddw, 2, 0)]),
        Op::Accl if lanes == 4 => list(&[v!(Paddd, 2, 0)]),
        Op::Accl => list(&[up!(0, 16 - 4 * lanes), v!(Paddd, 2, 0)]),
        Op::Accsadubl => list(&[
            up!(0, 16 - lanes),
            up!(1, 16 - lanes),
            v!(Psadbw, 0, 1),
            v!(Paddd, 2, 0),
        ]),
        _ => ArrayVec::new(),
    }
}

/// The instructions that add an opcode's numbers of the first `lanes` elements to running sums, and nothing of the
/// elements beyond them. The elements stand in XMM0, and those of a second source in XMM1. The running sums are the
/// lanes of XMM2 of the accumulator's size, as many as fit into 16 bytes; what grows is the sum of them all, modulo 2
/// to the accumulator's bits. There are at most as many instructions as the opcode's class, all of SSE2, and they
/// change XMM0 to XMM5 alone.
pub fn rule(op: Op, lanes: u8) -> ArrayVec<Ins, 100>
    requires sums { is_sum (row op).kind ≡ true }
    requires some { 1 ≤ lanes }
    requires fit { lanes ≤ 16 / size_of_result op 0 }
    ensures adds { AddsUp op lanes result.items }
    ensures few { length result.items ≤ (row op).class }
    ensures sse2 { IsCodeFor Sse2 result.items }
{
    sequence(op, lanes)
}
