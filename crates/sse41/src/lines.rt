//! The sequences, as a table.

ghost use Rattle.std.specs.Prelude.{◌≡◌, ◌≤◌, length, map, true};
ghost use Rattle.std.specs.List.{list_all};
ghost use Rattle.sse_laws.specs.Line.{ins_of, is_in};
ghost use Rattle.sse41.specs.Rules.{rule_of};

use orc_ops::Op;
use sse_laws::Line;
use x86_ins::VecOp;

/// An operation on two registers, named by their numbers, the destination first.
macro_rules! v {
    ($op:ident, $dst:literal, $src:literal) => { Line::Vec(VecOp::$op, $dst, $src) };
}

/// The sequence of an opcode, none where SSSE3 and SSE4.1 don't shorten it. Sources are in XMM0 and XMM1, and the
/// result is in XMM0. Lanes lie packed from the low end of a register.
pub(crate) fn lines(op: Op) -> &'static [Line]
    ensures is { map ins_of result.now ≡ rule_of op }
    ensures known { list_all is_in result.now ≡ true }
    ensures few { length result.now ≤ 3 }
{
    match op {
        Op::Absl => &[v!(Pabsd, 0, 0)],
        Op::Maxsb => &[v!(Pmaxsb, 0, 1)],
        Op::Minsb => &[v!(Pminsb, 0, 1)],
        Op::Maxsl => &[v!(Pmaxsd, 0, 1)],
        Op::Minsl => &[v!(Pminsd, 0, 1)],
        Op::Maxul => &[v!(Pmaxud, 0, 1)],
        Op::Minul => &[v!(Pminud, 0, 1)],
        Op::Mulll => &[v!(Pmulld, 0, 1)],
        Op::Convsuslw => &[v!(Packusdw, 0, 0)],
        Op::Mulsbw => &[v!(Pmovsxbw, 0, 0), v!(Pmovsxbw, 1, 1), v!(Pmullw, 0, 1)],
        Op::Mulubw => &[v!(Pmovzxbw, 0, 0), v!(Pmovzxbw, 1, 1), v!(Pmullw, 0, 1)],
        Op::Mulswl => &[v!(Pmovsxwd, 0, 0), v!(Pmovsxwd, 1, 1), v!(Pmulld, 0, 1)],
        Op::Muluwl => &[v!(Pmovzxwd, 0, 0), v!(Pmovzxwd, 1, 1), v!(Pmulld, 0, 1)],
        Op::Mulslq => &[v!(Pmovsxdq, 0, 0), v!(Pmovsxdq, 1, 1), v!(Pmuldq, 0, 1)],
        Op::Mululq => &[v!(Pmovzxdq, 0, 0), v!(Pmovzxdq, 1, 1), v!(Pmuludq, 0, 1)],
        _ => &[],
    }
}
