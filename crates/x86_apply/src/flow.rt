//! Jumps and returns. Names in capitals are the pages of the Intel SDM, volumes 2A and 2B.

ghost use Rattle.std.specs.Prelude.{◌≡◌};
ghost use Rattle.orc_bits.specs.Memory.{Memory};
ghost use Rattle.x86_ins.specs.declared.ins.Ins.TheVariants as Ins;
ghost use Rattle.x86_apply.specs.Applied.{Applied};
ghost use Rattle.x86_apply.specs.Steps.{IsDone};

use crate::access::load_number;
use crate::flags::test;
use crate::state::{RSP, gpr, moved_by, set_gpr};
use x86_ins::{Bytes, Cond, State, Trap, Why};

/// JMP, by so many bytes from the end of the instruction.
pub fn jump(rel: i32, s: &mut State)
    ensures { IsDone (Ins.Jump rel) s.old s.new }
{
    s.rip = moved_by(s.rip, rel);
}

/// Jcc. It needs flags, taken or not.
pub fn jump_if(cond: Cond, rel: i32, s: &mut State) -> Result<(), Trap>
    ensures { (m : Memory) → Applied (Ins.JumpIf cond rel) s.old m s.new m result }
{
    match test(cond, s.flags) {
        None => Err(Trap {
            at: s.rip,
            why: Why::NoFlags,
        }),
        Some(false) => Ok(()),
        Some(true) => {
            s.rip = moved_by(s.rip, rel);
            Ok(())
        }
    }
}

/// RET, near: the word at RSP becomes RIP, and RSP is raised by 8.
pub fn ret<B: Bytes>(s: &mut State, mem: &B) -> Result<(), Trap>
    ensures { Applied Ins.Ret s.old (B.bytes mem.now) s.new (B.bytes mem.now) result }
{
    let a = gpr(s, RSP);
    match load_number(8, a, mem) {
        Ok(v) => {
            set_gpr(s, RSP, a.wrapping_add(8));
            s.rip = v;
            Ok(())
        }
        Err(t) => Err(t),
    }
}
