//! The instructions of shifts by a count that is known.

ghost use Rattle.std.specs.Prelude.{◌≡◌, ◌∷◌, [], is_some, IfSome};
ghost use Rattle.orc_ops.specs.declared.target.Target.TheVariants.{Sse2};
ghost use Rattle.sse_laws.specs.Targets.{IsCodeFor};
ghost use Rattle.sse_shift.specs.Meets.{MeetsAt};
ghost use Rattle.sse_shift.specs.Shifts.{instruction, has_shift};

use orc_ops::Op;
use x86_ins::{Ins, VecImmOp, Xmm};

/// The instruction that an opcode is where the count is known, if there is one.
fn instruction(op: Op) -> Option<VecImmOp>
    ensures { result ≡ instruction op }
{
    match op {
        Op::Shlw => Some(VecImmOp::Psllw),
        Op::Shll => Some(VecImmOp::Pslld),
        Op::Shlq => Some(VecImmOp::Psllq),
        Op::Shrsw => Some(VecImmOp::Psraw),
        Op::Shrsl => Some(VecImmOp::Psrad),
        Op::Shruw => Some(VecImmOp::Psrlw),
        Op::Shrul => Some(VecImmOp::Psrld),
        Op::Shruq => Some(VecImmOp::Psrlq),
        _ => None,
    }
}

/// The instruction that shifts all lanes of XMM0 by a count, as an opcode does; None where SSE2 has none, as for bytes. XMM0 alone changes.
pub fn shift_by(op: Op, count: u64) -> Option<Ins>
    // There is one exactly for the shifts of words and longs, and for those of quads that shift in zeros.
    ensures which { is_some result ≡ has_shift op }
    ensures meets { IfSome result (λ ins. MeetsAt op count (ins ∷ [])) }
    ensures sse2 { IfSome result (λ ins. IsCodeFor Sse2 (ins ∷ [])) }
{
    let op = instruction(op)?;
    // A byte holds counts up to 255, and each of 64 or more shifts all bits out.
    Some(Ins::VecImm {
        op,
        dst: Xmm { number: 0 },
        count: count.min(255) as u8,
    })
}
