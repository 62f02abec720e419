//! The sequences of the word opcodes, as a table.

ghost use Rattle.std.specs.Prelude.{◌≡◌, ◌≤◌, length, map, true};
ghost use Rattle.std.specs.List.{list_all};
ghost use Rattle.orc_ops.specs.Table.{row};
ghost use Rattle.sse_laws.specs.Line.{ins_of, is_in};
ghost use Rattle.sse_w.specs.Rules.{rule_of};

use orc_ops::Op;
use sse_laws::Line;
use x86_ins::{VecImmOp, VecOp};

/// An operation on two registers, named by their numbers, the destination first.
macro_rules! v {
    ($op:ident, $dst:literal, $src:literal) => { Line::Vec(VecOp::$op, $dst, $src) };
}

/// A shift of a register's lanes by a fixed count.
macro_rules! i {
    ($op:ident, $dst:literal, $count:literal) => { Line::VecImm(VecImmOp::$op, $dst, $count) };
}

/// The sequence of an opcode, none where it isn't one of words. Sources are in XMM0 and XMM1, the result is in XMM0, and
/// XMM2 to XMM5 are free.
pub(crate) fn lines(op: Op) -> &'static [Line]
    ensures is { map ins_of result.now ≡ rule_of op }
    ensures known { list_all is_in result.now ≡ true }
    ensures few { length result.now ≤ 100 }
    ensures short { length result.now ≤ (row op).class }
{
    match op {
        Op::Absw => &[v!(Pxor, 1, 1), v!(Psubw, 1, 0), v!(Pmaxsw, 0, 1)],
        Op::Addssw => &[v!(Paddsw, 0, 1)],
        Op::Addusw => &[v!(Paddusw, 0, 1)],
        Op::Addw => &[v!(Paddw, 0, 1)],
        Op::Andnw => &[v!(Pandn, 0, 1)],
        Op::Andw => &[v!(Pand, 0, 1)],
        Op::Avgsw => &[
            v!(Pcmpeqw, 2, 2),
            i!(Psllw, 2, 15),
            v!(Paddw, 0, 2),
            v!(Paddw, 1, 2),
            v!(Pavgw, 0, 1),
            v!(Paddw, 0, 2),
        ],
        Op::Avguw => &[v!(Pavgw, 0, 1)],
        Op::Cmpeqw => &[v!(Pcmpeqw, 0, 1)],
        Op::Cmpgtsw => &[v!(Pcmpgtw, 0, 1)],
        Op::Copyw => &[],
        Op::Div255w => &[
            v!(Pcmpeqw, 1, 1),
            i!(Psllw, 1, 7),
            v!(Psubw, 0, 1),
            v!(Movdqa, 1, 0),
            i!(Psrlw, 1, 8),
            v!(Paddw, 0, 1),
            i!(Psrlw, 0, 8),
        ],
        Op::Divluw => &[
            i!(Psllw, 1, 8),
            i!(Psrlw, 1, 8),
            v!(Pxor, 4, 4),
            v!(Pxor, 5, 5),
            v!(Movdqa, 2, 1),
            i!(Psllw, 2, 7),
            v!(Movdqa, 3, 2),
            v!(Psubusw, 3, 0),
            v!(Pcmpeqw, 3, 4),
            v!(Pand, 2, 3),
            v!(Psubw, 0, 2),
            v!(Paddw, 5, 5),
            v!(Psubw, 5, 3),
            v!(Movdqa, 2, 1),
            i!(Psllw, 2, 6),
            v!(Movdqa, 3, 2),
            v!(Psubusw, 3, 0),
            v!(Pcmpeqw, 3, 4),
            v!(Pand, 2, 3),
            v!(Psubw, 0, 2),
            v!(Paddw, 5, 5),
            v!(Psubw, 5, 3),
            v!(Movdqa, 2, 1),
            i!(Psllw, 2, 5),
            v!(Movdqa, 3, 2),
            v!(Psubusw, 3, 0),
            v!(Pcmpeqw, 3, 4),
            v!(Pand, 2, 3),
            v!(Psubw, 0, 2),
            v!(Paddw, 5, 5),
            v!(Psubw, 5, 3),
            v!(Movdqa, 2, 1),
            i!(Psllw, 2, 4),
            v!(Movdqa, 3, 2),
            v!(Psubusw, 3, 0),
            v!(Pcmpeqw, 3, 4),
            v!(Pand, 2, 3),
            v!(Psubw, 0, 2),
            v!(Paddw, 5, 5),
            v!(Psubw, 5, 3),
            v!(Movdqa, 2, 1),
            i!(Psllw, 2, 3),
            v!(Movdqa, 3, 2),
            v!(Psubusw, 3, 0),
            v!(Pcmpeqw, 3, 4),
            v!(Pand, 2, 3),
            v!(Psubw, 0, 2),
            v!(Paddw, 5, 5),
            v!(Psubw, 5, 3),
            v!(Movdqa, 2, 1),
            i!(Psllw, 2, 2),
            v!(Movdqa, 3, 2),
            v!(Psubusw, 3, 0),
            v!(Pcmpeqw, 3, 4),
            v!(Pand, 2, 3),
            v!(Psubw, 0, 2),
            v!(Paddw, 5, 5),
            v!(Psubw, 5, 3),
            v!(Movdqa, 2, 1),
            i!(Psllw, 2, 1),
            v!(Movdqa, 3, 2),
            v!(Psubusw, 3, 0),
            v!(Pcmpeqw, 3, 4),
            v!(Pand, 2, 3),
            v!(Psubw, 0, 2),
            v!(Paddw, 5, 5),
            v!(Psubw, 5, 3),
            v!(Movdqa, 2, 1),
            i!(Psllw, 2, 0),
            v!(Movdqa, 3, 2),
            v!(Psubusw, 3, 0),
            v!(Pcmpeqw, 3, 4),
            v!(Pand, 2, 3),
            v!(Psubw, 0, 2),
            v!(Paddw, 5, 5),
            v!(Psubw, 5, 3),
            v!(Movdqa, 0, 5),
        ],
        Op::Loadpw => &[],
        Op::Loadw => &[],
        Op::Maxsw => &[v!(Pmaxsw, 0, 1)],
        Op::Maxuw => &[v!(Psubusw, 0, 1), v!(Paddw, 0, 1)],
        Op::Minsw => &[v!(Pminsw, 0, 1)],
        Op::Minuw => &[v!(Movdqa, 2, 0), v!(Psubusw, 2, 1), v!(Psubw, 0, 2)],
        Op::Mulhsw => &[v!(Pmulhw, 0, 1)],
        Op::Mulhuw => &[v!(Pmulhuw, 0, 1)],
        Op::Mullw => &[v!(Pmullw, 0, 1)],
        Op::Orw => &[v!(Por, 0, 1)],
        Op::Shlw => &[v!(Psllw, 0, 1)],
        Op::Shrsw => &[v!(Psraw, 0, 1)],
        Op::Shruw => &[v!(Psrlw, 0, 1)],
        Op::Signw => &[
            v!(Pxor, 1, 1),
            v!(Movdqa, 2, 1),
            v!(Pcmpgtw, 2, 0),
            v!(Pcmpgtw, 0, 1),
            v!(Psubw, 2, 0),
            v!(Movdqa, 0, 2),
        ],
        Op::Storew => &[],
        Op::Subssw => &[v!(Psubsw, 0, 1)],
        Op::Subusw => &[v!(Psubusw, 0, 1)],
        Op::Subw => &[v!(Psubw, 0, 1)],
        Op::Swapw => &[
            v!(Movdqa, 1, 0),
            i!(Psllw, 0, 8),
            i!(Psrlw, 1, 8),
            v!(Paddw, 0, 1),
        ],
        Op::Xorw => &[v!(Pxor, 0, 1)],
        _ => &[],
    }
}
