//! The sequences of the opcodes on longs, as a table.

ghost use Rattle.std.specs.Prelude.{◌≡◌, ◌≤◌, length, map, true};
ghost use Rattle.std.specs.List.{list_all};
ghost use Rattle.orc_ops.specs.Table.{row};
ghost use Rattle.sse_laws.specs.Line.{ins_of, is_in};
ghost use Rattle.sse_l.specs.Rules.{rule_of};

use orc_ops::Op;
use sse_laws::Line;
use x86_ins::{ShuffleOp, VecImmOp, VecOp};

/// An operation on two registers, named by their numbers, the destination first.
macro_rules! v {
    ($op:ident, $dst:literal, $src:literal) => { Line::Vec(VecOp::$op, $dst, $src) };
}

/// A shift of a register's lanes by a fixed count.
macro_rules! i {
    ($op:ident, $dst:literal, $count:literal) => { Line::VecImm(VecImmOp::$op, $dst, $count) };
}

/// A shuffle of the source by an order, into the destination.
macro_rules! s {
    ($op:ident, $dst:literal, $src:literal, $order:literal) => { Line::Shuffle(ShuffleOp::$op, $dst, $src, $order) };
}

/// The sequence of an opcode, none where it isn't one on longs. Sources are in XMM0 and XMM1, the result is in XMM0, and
/// XMM2 to XMM5 are free.
pub(crate) fn lines(op: Op) -> &'static [Line]
    ensures is { map ins_of result.now ≡ rule_of op }
    ensures known { list_all is_in result.now ≡ true }
    ensures few { length result.now ≤ 100 }
    ensures short { length result.now ≤ (row op).class }
{
    match op {
        Op::Absl => &[
            v!(Pxor, 1, 1),
            v!(Pcmpgtd, 1, 0),
            v!(Pxor, 0, 1),
            v!(Psubd, 0, 1),
        ],
        Op::Addl => &[v!(Paddd, 0, 1)],
        Op::Addssl => &[
            v!(Movdqa, 2, 0),
            v!(Paddd, 0, 1),
            v!(Pcmpgtd, 2, 0),
            v!(Pxor, 3, 3),
            v!(Pcmpgtd, 3, 1),
            v!(Pcmpeqd, 2, 3),
            v!(Pcmpeqd, 4, 4),
            i!(Psrld, 4, 1),
            v!(Psubd, 4, 3),
            v!(Pand, 0, 2),
            v!(Pandn, 2, 4),
            v!(Por, 0, 2),
        ],
        Op::Addusl => &[
            v!(Pcmpeqd, 3, 3),
            i!(Pslld, 3, 31),
            v!(Movdqa, 2, 0),
            v!(Paddd, 2, 3),
            v!(Paddd, 0, 1),
            v!(Paddd, 3, 0),
            v!(Pcmpgtd, 2, 3),
            v!(Por, 0, 2),
        ],
        Op::Andl => &[v!(Pand, 0, 1)],
        Op::Andnl => &[v!(Pandn, 0, 1)],
        Op::Avgsl => &[
            v!(Movdqa, 2, 0),
            v!(Por, 2, 1),
            i!(Pslld, 2, 31),
            i!(Psrld, 2, 31),
            i!(Psrad, 0, 1),
            i!(Psrad, 1, 1),
            v!(Paddd, 0, 1),
            v!(Paddd, 0, 2),
        ],
        Op::Avgul => &[
            v!(Movdqa, 2, 0),
            v!(Por, 2, 1),
            i!(Pslld, 2, 31),
            i!(Psrld, 2, 31),
            i!(Psrld, 0, 1),
            i!(Psrld, 1, 1),
            v!(Paddd, 0, 1),
            v!(Paddd, 0, 2),
        ],
        Op::Cmpeql => &[v!(Pcmpeqd, 0, 1)],
        Op::Cmpgtsl => &[v!(Pcmpgtd, 0, 1)],
        Op::Copyl => &[],
        Op::Loadl => &[],
        Op::Loadpl => &[],
        Op::Maxsl => &[
            v!(Movdqa, 2, 0),
            v!(Pcmpgtd, 2, 1),
            v!(Pand, 0, 2),
            v!(Pandn, 2, 1),
            v!(Por, 0, 2),
        ],
        Op::Maxul => &[
            v!(Pcmpeqd, 3, 3),
            i!(Pslld, 3, 31),
            v!(Movdqa, 2, 0),
            v!(Paddd, 2, 3),
            v!(Paddd, 3, 1),
            v!(Pcmpgtd, 2, 3),
            v!(Pand, 0, 2),
            v!(Pandn, 2, 1),
            v!(Por, 0, 2),
        ],
        Op::Minsl => &[
            v!(Movdqa, 2, 1),
            v!(Pcmpgtd, 2, 0),
            v!(Pand, 0, 2),
            v!(Pandn, 2, 1),
            v!(Por, 0, 2),
        ],
        Op::Minul => &[
            v!(Pcmpeqd, 3, 3),
            i!(Pslld, 3, 31),
            v!(Movdqa, 2, 1),
            v!(Paddd, 2, 3),
            v!(Paddd, 3, 0),
            v!(Pcmpgtd, 2, 3),
            v!(Pand, 0, 2),
            v!(Pandn, 2, 1),
            v!(Por, 0, 2),
        ],
        Op::Mulhsl => &[
            v!(Pxor, 2, 2),
            v!(Pcmpgtd, 2, 0),
            v!(Pand, 2, 1),
            v!(Pxor, 3, 3),
            v!(Pcmpgtd, 3, 1),
            v!(Pand, 3, 0),
            v!(Paddd, 2, 3),
            v!(Movdqa, 3, 0),
            v!(Pmuludq, 3, 1),
            i!(Psrlq, 3, 32),
            i!(Psrlq, 0, 32),
            i!(Psrlq, 1, 32),
            v!(Pmuludq, 0, 1),
            i!(Psrlq, 0, 32),
            i!(Psllq, 0, 32),
            v!(Paddq, 0, 3),
            v!(Psubd, 0, 2),
        ],
        Op::Mulhul => &[
            v!(Movdqa, 3, 0),
            v!(Pmuludq, 3, 1),
            i!(Psrlq, 3, 32),
            i!(Psrlq, 0, 32),
            i!(Psrlq, 1, 32),
            v!(Pmuludq, 0, 1),
            i!(Psrlq, 0, 32),
            i!(Psllq, 0, 32),
            v!(Paddq, 0, 3),
        ],
        Op::Mulll => &[
            v!(Movdqa, 2, 0),
            v!(Pmuludq, 2, 1),
            i!(Psllq, 2, 32),
            i!(Psrlq, 2, 32),
            i!(Psrlq, 0, 32),
            i!(Psrlq, 1, 32),
            v!(Pmuludq, 0, 1),
            i!(Psllq, 0, 32),
            v!(Paddq, 0, 2),
        ],
        Op::Orl => &[v!(Por, 0, 1)],
        Op::Shll => &[v!(Pslld, 0, 1)],
        Op::Shrsl => &[v!(Psrad, 0, 1)],
        Op::Shrul => &[v!(Psrld, 0, 1)],
        Op::Signl => &[
            v!(Pxor, 1, 1),
            v!(Movdqa, 2, 1),
            v!(Pcmpgtd, 2, 0),
            v!(Pcmpgtd, 0, 1),
            v!(Psubd, 2, 0),
            v!(Movdqa, 0, 2),
        ],
        Op::Storel => &[],
        Op::Subl => &[v!(Psubd, 0, 1)],
        Op::Subssl => &[
            v!(Movdqa, 2, 0),
            v!(Psubd, 0, 1),
            v!(Movdqa, 4, 0),
            v!(Pcmpgtd, 4, 2),
            v!(Pxor, 3, 3),
            v!(Pcmpgtd, 3, 1),
            v!(Pcmpeqd, 4, 3),
            v!(Pcmpeqd, 5, 5),
            i!(Pslld, 5, 31),
            v!(Paddd, 5, 3),
            v!(Pand, 0, 4),
            v!(Pandn, 4, 5),
            v!(Por, 0, 4),
        ],
        Op::Subusl => &[
            v!(Pcmpeqd, 3, 3),
            i!(Pslld, 3, 31),
            v!(Movdqa, 2, 0),
            v!(Paddd, 2, 3),
            v!(Paddd, 3, 1),
            v!(Pcmpgtd, 2, 3),
            v!(Psubd, 0, 1),
            v!(Pand, 0, 2),
        ],
        Op::Swapl => &[
            s!(Pshuflw, 0, 0, 177),
            s!(Pshufhw, 0, 0, 177),
            v!(Movdqa, 1, 0),
            i!(Psllw, 0, 8),
            i!(Psrlw, 1, 8),
            v!(Paddw, 0, 1),
        ],
        Op::Swapwl => &[s!(Pshuflw, 0, 0, 177), s!(Pshufhw, 0, 0, 177)],
        Op::Xorl => &[v!(Pxor, 0, 1)],
        _ => &[],
    }
}
