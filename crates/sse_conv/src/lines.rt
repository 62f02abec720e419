//! The sequences of the opcodes whose operands are of more than one size, as a table.

ghost use Rattle.std.specs.Prelude.{◌≡◌, ◌≤◌, length, map, true};
ghost use Rattle.std.specs.List.{list_all};
ghost use Rattle.orc_ops.specs.Table.{row};
ghost use Rattle.sse_laws.specs.Line.{ins_of, is_in};
ghost use Rattle.sse_conv.specs.Rules.{rule_of};

use orc_ops::Op;
use sse_laws::Line;
use x86_ins::{ShuffleOp, VecImmOp, VecOp};

/// An operation on two registers, named by their numbers, the destination first.
macro_rules! v {
    ($op:ident, $dst:literal, $src:literal) => { Line::Vec(VecOp::$op, $dst, $src) };
}

/// A shift of a register's lanes by a fixed count.
macro_rules! i {
    ($op:ident, $dst:literal, $count:literal) => { Line::VecImm(VecImmOp::$op, $dst, $count) };
}

/// A shuffle of the source by an order, into the destination.
macro_rules! s {
    ($op:ident, $dst:literal, $src:literal, $order:literal) => { Line::Shuffle(ShuffleOp::$op, $dst, $src, $order) };
}

/// The sequence of an opcode, none where its operands are of one size or it adds to an accumulator. Sources are in
/// XMM0 and XMM1, the result is in XMM0 and a second one in XMM1, and XMM2 to XMM5 are free. Lanes lie packed from
/// the low end of a register.
pub(crate) fn lines(op: Op) -> &'static [Line]
    ensures is { map ins_of result.now ≡ rule_of op }
    ensures known { list_all is_in result.now ≡ true }
    ensures few { length result.now ≤ 100 }
    ensures short { length result.now ≤ (row op).class }
{
    match op {
        Op::Convhlw => &[i!(Psrad, 0, 16), v!(Packssdw, 0, 0)],
        Op::Convhql => &[s!(Pshufd, 0, 0, 13)],
        Op::Convhwb => &[i!(Psraw, 0, 8), v!(Packsswb, 0, 0)],
        Op::Convlw => &[i!(Pslld, 0, 16), i!(Psrad, 0, 16), v!(Packssdw, 0, 0)],
        Op::Convql => &[s!(Pshufd, 0, 0, 8)],
        Op::Convsbw => &[v!(Punpcklbw, 0, 0), i!(Psraw, 0, 8)],
        Op::Convslq => &[v!(Pxor, 1, 1), v!(Pcmpgtd, 1, 0), v!(Punpckldq, 0, 1)],
        Op::Convssslw => &[v!(Packssdw, 0, 0)],
        Op::Convsssql => &[
            s!(Pshufd, 1, 0, 13),
            s!(Pshufd, 0, 0, 8),
            v!(Pxor, 2, 2),
            v!(Movdqa, 3, 2),
            v!(Pcmpgtd, 2, 0),
            v!(Pcmpgtd, 3, 1),
            v!(Pcmpeqd, 2, 1),
            v!(Pcmpeqd, 4, 4),
            i!(Psrld, 4, 1),
            v!(Psubd, 4, 3),
            v!(Pand, 0, 2),
            v!(Pandn, 2, 4),
            v!(Por, 0, 2),
        ],
        Op::Convssswb => &[v!(Packsswb, 0, 0)],
        Op::Convsuslw => &[
            v!(Movdqa, 1, 0),
            i!(Psrld, 1, 16),
            v!(Pxor, 2, 2),
            v!(Pcmpeqd, 1, 2),
            v!(Movdqa, 3, 0),
            v!(Pcmpgtd, 3, 2),
            i!(Psrld, 3, 16),
            v!(Pand, 0, 1),
            v!(Pandn, 1, 3),
            v!(Por, 0, 1),
            i!(Pslld, 0, 16),
            i!(Psrad, 0, 16),
            v!(Packssdw, 0, 0),
        ],
        Op::Convsusql => &[
            s!(Pshufd, 1, 0, 13),
            s!(Pshufd, 0, 0, 8),
            v!(Pxor, 2, 2),
            v!(Movdqa, 3, 1),
            v!(Pcmpgtd, 3, 2),
            v!(Pcmpeqd, 1, 2),
            v!(Pand, 0, 1),
            v!(Pandn, 1, 3),
            v!(Por, 0, 1),
        ],
        Op::Convsuswb => &[v!(Packuswb, 0, 0)],
        Op::Convswl => &[v!(Punpcklwd, 0, 0), i!(Psrad, 0, 16)],
        Op::Convubw => &[v!(Pxor, 1, 1), v!(Punpcklbw, 0, 1)],
        Op::Convulq => &[v!(Pxor, 1, 1), v!(Punpckldq, 0, 1)],
        Op::Convusslw => &[
            v!(Movdqa, 1, 0),
            i!(Psrld, 1, 15),
            v!(Pxor, 2, 2),
            v!(Pcmpeqd, 1, 2),
            v!(Pcmpeqd, 2, 2),
            i!(Psrld, 2, 17),
            v!(Pand, 0, 1),
            v!(Pandn, 1, 2),
            v!(Por, 0, 1),
            v!(Packssdw, 0, 0),
        ],
        Op::Convussql => &[
            s!(Pshufd, 1, 0, 13),
            s!(Pshufd, 0, 0, 8),
            v!(Pxor, 2, 2),
            v!(Pcmpeqd, 1, 2),
            v!(Pcmpgtd, 2, 0),
            v!(Pandn, 2, 1),
            v!(Pcmpeqd, 3, 3),
            i!(Psrld, 3, 1),
            v!(Pand, 0, 2),
            v!(Pandn, 2, 3),
            v!(Por, 0, 2),
        ],
        Op::Convusswb => &[
            v!(Movdqa, 1, 0),
            i!(Psrlw, 1, 7),
            v!(Pxor, 2, 2),
            v!(Pcmpeqw, 1, 2),
            v!(Pcmpeqw, 2, 2),
            i!(Psrlw, 2, 9),
            v!(Pand, 0, 1),
            v!(Pandn, 1, 2),
            v!(Por, 0, 1),
            v!(Packsswb, 0, 0),
        ],
        Op::Convuuslw => &[
            v!(Movdqa, 1, 0),
            i!(Psrld, 1, 16),
            v!(Pxor, 2, 2),
            v!(Pcmpeqd, 1, 2),
            v!(Pcmpeqd, 2, 2),
            i!(Psrld, 2, 16),
            v!(Pand, 0, 1),
            v!(Pandn, 1, 2),
            v!(Por, 0, 1),
            i!(Pslld, 0, 16),
            i!(Psrad, 0, 16),
            v!(Packssdw, 0, 0),
        ],
        Op::Convuusql => &[
            s!(Pshufd, 1, 0, 13),
            s!(Pshufd, 0, 0, 8),
            v!(Pxor, 2, 2),
            v!(Pcmpeqd, 1, 2),
            v!(Pcmpeqd, 2, 2),
            v!(Pand, 0, 1),
            v!(Pandn, 1, 2),
            v!(Por, 0, 1),
        ],
        Op::Convuuswb => &[
            v!(Movdqa, 1, 0),
            i!(Psrlw, 1, 8),
            v!(Pxor, 2, 2),
            v!(Pcmpeqw, 1, 2),
            v!(Pcmpeqw, 2, 2),
            i!(Psrlw, 2, 8),
            v!(Pand, 0, 1),
            v!(Pandn, 1, 2),
            v!(Por, 0, 1),
            i!(Psllw, 0, 8),
            i!(Psraw, 0, 8),
            v!(Packsswb, 0, 0),
        ],
        Op::Convuwl => &[v!(Pxor, 1, 1), v!(Punpcklwd, 0, 1)],
        Op::Convwb => &[i!(Psllw, 0, 8), i!(Psraw, 0, 8), v!(Packsswb, 0, 0)],
        Op::Mergebw => &[v!(Punpcklbw, 0, 1)],
        Op::Mergelq => &[v!(Punpckldq, 0, 1)],
        Op::Mergewl => &[v!(Punpcklwd, 0, 1)],
        Op::Mulsbw => &[
            v!(Punpcklbw, 0, 0),
            i!(Psraw, 0, 8),
            v!(Punpcklbw, 1, 1),
            i!(Psraw, 1, 8),
            v!(Pmullw, 0, 1),
        ],
        Op::Mulslq => &[
            v!(Pxor, 2, 2),
            v!(Pcmpgtd, 2, 0),
            v!(Pand, 2, 1),
            v!(Pxor, 3, 3),
            v!(Pcmpgtd, 3, 1),
            v!(Pand, 3, 0),
            v!(Paddd, 2, 3),
            v!(Pxor, 3, 3),
            v!(Punpckldq, 0, 3),
            v!(Punpckldq, 1, 3),
            v!(Pmuludq, 0, 1),
            v!(Punpckldq, 3, 2),
            v!(Psubq, 0, 3),
        ],
        Op::Mulswl => &[
            v!(Movdqa, 2, 0),
            v!(Pmulhw, 2, 1),
            v!(Pmullw, 0, 1),
            v!(Punpcklwd, 0, 2),
        ],
        Op::Mulubw => &[
            v!(Pxor, 2, 2),
            v!(Punpcklbw, 0, 2),
            v!(Punpcklbw, 1, 2),
            v!(Pmullw, 0, 1),
        ],
        Op::Mululq => &[
            v!(Pxor, 2, 2),
            v!(Punpckldq, 0, 2),
            v!(Punpckldq, 1, 2),
            v!(Pmuludq, 0, 1),
        ],
        Op::Muluwl => &[
            v!(Movdqa, 2, 0),
            v!(Pmulhuw, 2, 1),
            v!(Pmullw, 0, 1),
            v!(Punpcklwd, 0, 2),
        ],
        Op::Select0lw => &[i!(Pslld, 0, 16), i!(Psrad, 0, 16), v!(Packssdw, 0, 0)],
        Op::Select0ql => &[s!(Pshufd, 0, 0, 8)],
        Op::Select0wb => &[i!(Psllw, 0, 8), i!(Psraw, 0, 8), v!(Packsswb, 0, 0)],
        Op::Select1lw => &[i!(Psrad, 0, 16), v!(Packssdw, 0, 0)],
        Op::Select1ql => &[s!(Pshufd, 0, 0, 13)],
        Op::Select1wb => &[i!(Psraw, 0, 8), v!(Packsswb, 0, 0)],
        Op::Splatbl => &[v!(Punpcklbw, 0, 0), v!(Punpcklwd, 0, 0)],
        Op::Splatbw => &[v!(Punpcklbw, 0, 0)],
        Op::Splitlw => &[
            v!(Movdqa, 1, 0),
            i!(Psrad, 0, 16),
            v!(Packssdw, 0, 0),
            i!(Pslld, 1, 16),
            i!(Psrad, 1, 16),
            v!(Packssdw, 1, 1),
        ],
        Op::Splitql => &[s!(Pshufd, 1, 0, 8), s!(Pshufd, 0, 0, 13)],
        Op::Splitwb => &[
            v!(Movdqa, 1, 0),
            i!(Psraw, 0, 8),
            v!(Packsswb, 0, 0),
            i!(Psllw, 1, 8),
            i!(Psraw, 1, 8),
            v!(Packsswb, 1, 1),
        ],
        _ => &[],
    }
}
