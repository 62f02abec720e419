//! The sequences: a table with an arm for each opcode of this crate.

ghost use Rattle.std.specs.Prelude.{◌≡◌, ◌≤◌, length, map, true};
ghost use Rattle.std.specs.List.{list_all};
ghost use Rattle.orc_ops.specs.Table.{row};
ghost use Rattle.sse_laws.specs.Line.{ins_of, is_in};
ghost use Rattle.sse_b.specs.Rules.{rule_of};

use orc_ops::Op;
use sse_laws::Line;
use x86_ins::ins::{VecImmOp, VecOp};

// an operation on two registers, the destination first
macro_rules! v {
    ($op:ident, $dst:literal, $src:literal) => { Line::Vec(VecOp::$op, $dst, $src) };
}

// a shift by a fixed count
macro_rules! i {
    ($op:ident, $dst:literal, $count:literal) => { Line::VecImm(VecImmOp::$op, $dst, $count) };
}

/// The lines of an opcode's rule, none where it is another crate's.
pub(crate) fn lines(op: Op) -> &'static [Line]
    ensures is { map ins_of result.now ≡ rule_of op }
    ensures known { list_all is_in result.now ≡ true }
    ensures few { length result.now ≤ 100 }
    ensures short { length result.now ≤ (row op).class }
{
    match op {
        Op::Absb => &[v!(Pxor, 1, 1), v!(Psubb, 1, 0), v!(Pminub, 0, 1)],
        Op::Addb => &[v!(Paddb, 0, 1)],
        Op::Addssb => &[v!(Paddsb, 0, 1)],
        Op::Addusb => &[v!(Paddusb, 0, 1)],
        Op::Andb => &[v!(Pand, 0, 1)],
        Op::Andnb => &[v!(Pandn, 0, 1)],
        Op::Avgsb => &[
            v!(Pxor, 3, 3),
            v!(Pcmpeqb, 2, 2),
            v!(Pavgb, 2, 3),
            v!(Paddb, 0, 2),
            v!(Paddb, 1, 2),
            v!(Pavgb, 0, 1),
            v!(Paddb, 0, 2),
        ],
        Op::Avgub => &[v!(Pavgb, 0, 1)],
        Op::Cmpeqb => &[v!(Pcmpeqb, 0, 1)],
        Op::Cmpgtsb => &[v!(Pcmpgtb, 0, 1)],
        Op::Copyb => &[],
        Op::Loadb => &[],
        Op::Loadpb => &[],
        Op::Maxsb => &[
            v!(Movdqa, 2, 0),
            v!(Pcmpgtb, 2, 1),
            v!(Pand, 0, 2),
            v!(Pandn, 2, 1),
            v!(Por, 0, 2),
        ],
        Op::Maxub => &[v!(Pmaxub, 0, 1)],
        Op::Minsb => &[
            v!(Movdqa, 2, 1),
            v!(Pcmpgtb, 2, 0),
            v!(Pand, 0, 2),
            v!(Pandn, 2, 1),
            v!(Por, 0, 2),
        ],
        Op::Minub => &[v!(Pminub, 0, 1)],
        Op::Mulhsb => &[
            v!(Movdqa, 2, 0),
            i!(Psllw, 2, 8),
            i!(Psraw, 2, 8),
            v!(Movdqa, 3, 1),
            i!(Psllw, 3, 8),
            i!(Psraw, 3, 8),
            v!(Pmullw, 2, 3),
            i!(Psrlw, 2, 8),
            i!(Psraw, 0, 8),
            i!(Psraw, 1, 8),
            v!(Pmullw, 0, 1),
            i!(Psrlw, 0, 8),
            i!(Psllw, 0, 8),
            v!(Paddw, 0, 2),
        ],
        Op::Mulhub => &[
            v!(Movdqa, 2, 0),
            i!(Psllw, 2, 8),
            i!(Psrlw, 2, 8),
            v!(Movdqa, 3, 1),
            i!(Psllw, 3, 8),
            i!(Psrlw, 3, 8),
            v!(Pmullw, 2, 3),
            i!(Psrlw, 2, 8),
            i!(Psrlw, 0, 8),
            i!(Psrlw, 1, 8),
            v!(Pmullw, 0, 1),
            i!(Psrlw, 0, 8),
            i!(Psllw, 0, 8),
            v!(Paddw, 0, 2),
        ],
        Op::Mullb => &[
            v!(Movdqa, 2, 0),
            i!(Psllw, 2, 8),
            i!(Psrlw, 2, 8),
            v!(Movdqa, 3, 1),
            i!(Psllw, 3, 8),
            i!(Psrlw, 3, 8),
            v!(Pmullw, 2, 3),
            i!(Psllw, 2, 8),
            i!(Psrlw, 2, 8),
            i!(Psrlw, 0, 8),
            i!(Psrlw, 1, 8),
            v!(Pmullw, 0, 1),
            i!(Psllw, 0, 8),
            v!(Paddw, 0, 2),
        ],
        Op::Orb => &[v!(Por, 0, 1)],
        Op::Shlb => &[
            v!(Movdqa, 2, 0),
            i!(Psllw, 2, 8),
            i!(Psrlw, 2, 8),
            v!(Psllw, 2, 1),
            i!(Psllw, 2, 8),
            i!(Psrlw, 2, 8),
            i!(Psrlw, 0, 8),
            v!(Psllw, 0, 1),
            i!(Psllw, 0, 8),
            v!(Paddw, 0, 2),
        ],
        Op::Shrsb => &[
            v!(Movdqa, 2, 0),
            i!(Psllw, 2, 8),
            i!(Psraw, 2, 8),
            v!(Psraw, 2, 1),
            i!(Psllw, 2, 8),
            i!(Psrlw, 2, 8),
            i!(Psraw, 0, 8),
            v!(Psraw, 0, 1),
            i!(Psllw, 0, 8),
            v!(Paddw, 0, 2),
        ],
        Op::Shrub => &[
            v!(Movdqa, 2, 0),
            i!(Psllw, 2, 8),
            i!(Psrlw, 2, 8),
            v!(Psrlw, 2, 1),
            i!(Psllw, 2, 8),
            i!(Psrlw, 2, 8),
            i!(Psrlw, 0, 8),
            v!(Psrlw, 0, 1),
            i!(Psllw, 0, 8),
            v!(Paddw, 0, 2),
        ],
        Op::Signb => &[
            v!(Pxor, 1, 1),
            v!(Movdqa, 2, 1),
            v!(Pcmpgtb, 2, 0),
            v!(Pcmpgtb, 0, 1),
            v!(Psubb, 2, 0),
            v!(Movdqa, 0, 2),
        ],
        Op::Storeb => &[],
        Op::Subb => &[v!(Psubb, 0, 1)],
        Op::Subssb => &[v!(Psubsb, 0, 1)],
        Op::Subusb => &[v!(Psubusb, 0, 1)],
        Op::Xorb => &[v!(Pxor, 0, 1)],
        _ => &[],
    }
}
