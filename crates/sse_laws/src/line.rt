//! Lines of a sequence, and the instructions that they stand for.

ghost use Rattle.std.specs.Prelude.{◌≡◌, ◌≤◌, ℕ, IsTrue, length, map, true};
ghost use Rattle.std.specs.List.{list_all};
ghost use Rattle.sse_laws.specs.Line.{ins_of, is_in};

use arrayvec::ArrayVec;
use x86_ins::ins::{Ins, ShuffleOp, VecImmOp, VecOp, Xmm};

/// A line of a sequence: an instruction on vector registers, which are named by their numbers, the destination first.
#[derive(Clone, Copy, Debug)]
pub enum Line {
    /// An operation on two registers: the destination and the source.
    Vec(VecOp, u8, u8),
    /// A shift of a register's lanes, or of its bytes, by a fixed count.
    VecImm(VecImmOp, u8, u8),
    /// A shuffle: the destination, the source and the order.
    Shuffle(ShuffleOp, u8, u8, u8),
}

/// The instruction of a line.
fn ins(line: Line) -> Ins
    requires { IsTrue (is_in line) }
    ensures { result ≡ ins_of line }
{
    match line {
        Line::Vec(op, dst, src) => Ins::Vec {
            op,
            dst: Xmm { number: dst },
            src: Xmm { number: src },
        },
        Line::VecImm(op, dst, count) => Ins::VecImm {
            op,
            dst: Xmm { number: dst },
            count,
        },
        Line::Shuffle(op, dst, src, order) => Ins::Shuffle {
            op,
            dst: Xmm { number: dst },
            src: Xmm { number: src },
            order,
        },
    }
}

/// The instructions of at most 100 lines, in order.
#[tactic(auto, using(crate::proofs::Known::in_at))]
pub fn list(lines: &[Line]) -> ArrayVec<Ins, 100>
    requires few { length lines.now ≤ 100 }
    requires known { list_all is_in lines.now ≡ true }
    ensures { result.items ≡ map ins_of lines.now }
{
    let mut out = ArrayVec::new();
    for line in lines {
        out.push(ins(*line));
    }
    out
}
