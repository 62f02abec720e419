//! The sequences of the quad opcodes, as a table.

ghost use Rattle.std.specs.Prelude.{◌≡◌, ◌≤◌, length, map, true};
ghost use Rattle.std.specs.List.{list_all};
ghost use Rattle.orc_ops.specs.Table.{row};
ghost use Rattle.sse_laws.specs.Line.{ins_of, is_in};
ghost use Rattle.sse_q.specs.Rules.{rule_of};

use orc_ops::Op;
use sse_laws::Line;
use x86_ins::{ShuffleOp, VecImmOp, VecOp};

/// An operation on two registers, named by their numbers, the destination first.
macro_rules! v {
    ($op:ident, $dst:literal, $src:literal) => { Line::Vec(VecOp::$op, $dst, $src) };
}

/// A shift of a register's lanes by a fixed count.
macro_rules! i {
    ($op:ident, $dst:literal, $count:literal) => { Line::VecImm(VecImmOp::$op, $dst, $count) };
}

/// A shuffle of the source by an order, into the destination.
macro_rules! s {
    ($op:ident, $dst:literal, $src:literal, $order:literal) => { Line::Shuffle(ShuffleOp::$op, $dst, $src, $order) };
}

/// The sequence of an opcode, none where it isn't one of quads. Sources are in XMM0 and XMM1, the result is in XMM0, and
/// XMM2 to XMM5 are free.
pub(crate) fn lines(op: Op) -> &'static [Line]
    ensures is { map ins_of result.now ≡ rule_of op }
    ensures known { list_all is_in result.now ≡ true }
    ensures few { length result.now ≤ 100 }
    ensures short { length result.now ≤ (row op).class }
{
    match op {
        Op::Addq => &[v!(Paddq, 0, 1)],
        Op::Andnq => &[v!(Pandn, 0, 1)],
        Op::Andq => &[v!(Pand, 0, 1)],
        Op::Cmpeqq => &[v!(Pcmpeqd, 0, 1), s!(Pshufd, 1, 0, 177), v!(Pand, 0, 1)],
        Op::Cmpgtsq => &[
            v!(Movdqa, 2, 1),
            v!(Psubq, 2, 0),
            v!(Movdqa, 3, 0),
            v!(Pcmpeqd, 3, 1),
            v!(Pand, 2, 3),
            v!(Pcmpgtd, 0, 1),
            v!(Por, 0, 2),
            s!(Pshufd, 0, 0, 245),
        ],
        Op::Copyq => &[],
        Op::Loadpq => &[],
        Op::Loadq => &[],
        Op::Orq => &[v!(Por, 0, 1)],
        Op::Shlq => &[v!(Psllq, 0, 1)],
        Op::Shrsq => &[
            v!(Pxor, 3, 3),
            v!(Pcmpgtd, 3, 0),
            s!(Pshufd, 2, 3, 245),
            v!(Pxor, 0, 2),
            v!(Psrlq, 0, 1),
            v!(Pxor, 0, 2),
        ],
        Op::Shruq => &[v!(Psrlq, 0, 1)],
        Op::Splatw3q => &[s!(Pshuflw, 0, 0, 255), s!(Pshufhw, 0, 0, 255)],
        Op::Storeq => &[],
        Op::Subq => &[v!(Psubq, 0, 1)],
        Op::Swaplq => &[s!(Pshufd, 0, 0, 177)],
        Op::Swapq => &[
            s!(Pshuflw, 0, 0, 27),
            s!(Pshufhw, 0, 0, 27),
            v!(Movdqa, 1, 0),
            i!(Psllw, 0, 8),
            i!(Psrlw, 1, 8),
            v!(Paddw, 0, 1),
        ],
        Op::Xorq => &[v!(Pxor, 0, 1)],
        _ => &[],
    }
}
