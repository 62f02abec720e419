//! Lists of instructions as bytes, and loops around bytes.

ghost use Rattle.std.specs.Prelude.{◌≡◌, ◌<◌, ◌+◌, ◌++◌, All, OnOk, IsTrue, length, pos, negsuc};
ghost use Rattle.x86_ins.specs.Spelling.{spelling, has_spelling};
ghost use Rattle.x86_ins.specs.declared.ins.Ins.TheVariants.{JumpIf, Jump};
ghost use Rattle.x86_flow.specs.Flow.{spell_all, opposite, enter_jump, again_jump};

use std::alloc::AllocError;
use x86_encode::encode;
use x86_ins::{Cond, Ins};

/// Appends the bytes of an instruction, which has a spelling.
pub fn put(code: &mut Vec<u8>, ins: &Ins) -> Result<(), AllocError>
    requires { IsTrue (has_spelling ins.now) }
    ensures { OnOk result (code.new.items ≡ code.old.items ++ spelling ins.now) }
{
    code.extend_from_slice(encode(ins).as_slice())
}

/// Appends the bytes of instructions, each of which has a spelling.
pub fn put_list(code: &mut Vec<u8>, list: &[Ins]) -> Result<(), AllocError>
    requires { All (λ i. IsTrue (has_spelling i)) list.now }
    ensures { OnOk result (code.new.items ≡ code.old.items ++ spell_all list.now) }
{
    for ins in list {
        put(code, ins)?;
    }
    Ok(())
}

/// Appends a loop around the bytes of its turn, which is done while the condition holds: a jump past it where that doesn't hold at first, and behind the turn a jump back to it where that still holds.
pub fn put_loop(code: &mut Vec<u8>, cond: Cond, turn: &[u8]) -> Result<(), AllocError>
    requires { length turn.now < 2000000000 }
    ensures { OnOk result (code.new.items ≡ code.old.items ++ (spelling (enter_jump cond (length turn.now)) ++ (turn.now ++ spelling (again_jump cond (length turn.now))))) }
{
    put(code, &enter_jump(cond, turn.len()))?;
    code.extend_from_slice(turn)?;
    put(code, &again_jump(cond, turn.len()))
}

/// Appends a choice between bytes: the first where the condition holds, and else the second.
pub fn put_choice(code: &mut Vec<u8>, cond: Cond, yes: &[u8], no: &[u8]) -> Result<(), AllocError>
    requires yes { length yes.now < 2000000000 }
    requires no { length no.now < 2000000000 }
    ensures { OnOk result (code.new.items ≡ code.old.items ++ (spelling (JumpIf cond (pos (length no.now + 5))) ++ (no.now ++ (spelling (Jump (pos (length yes.now))) ++ yes.now)))) }
{
    put(
        code,
        &Ins::JumpIf {
            cond,
            rel: ahead(no.len()),
        },
    )?;
    code.extend_from_slice(no)?;
    put(
        code,
        &Ins::Jump {
            rel: yes.len() as i32,
        },
    )?;
    code.extend_from_slice(yes)
}

/// The condition that holds where this one doesn't.
pub fn opposite(cond: Cond) -> Cond
    ensures { result ≡ opposite cond }
{
    match cond {
        Cond::B => Cond::Ae,
        Cond::Ae => Cond::B,
        Cond::E => Cond::Ne,
        Cond::Ne => Cond::E,
        Cond::Be => Cond::A,
        Cond::A => Cond::Be,
        Cond::S => Cond::Ns,
        Cond::Ns => Cond::S,
        Cond::L => Cond::Ge,
        Cond::Ge => Cond::L,
        Cond::Le => Cond::G,
        Cond::G => Cond::Le,
    }
}

/// The distance over so many bytes and a jump behind them.
fn ahead(size: usize) -> i32
    requires { size < 2000000000 }
    ensures { result ≡ pos (size + 5) }
{
    size as i32 + 5
}

/// The test before a loop around so many bytes: a jump past its end where the condition doesn't hold.
fn enter_jump(cond: Cond, size: usize) -> Ins
    requires { size < 2000000000 }
    ensures { result ≡ enter_jump cond size }
{
    Ins::JumpIf {
        cond: opposite(cond),
        rel: size as i32 + 6,
    }
}

/// The test behind each turn: a jump back to its first byte where the condition holds.
fn again_jump(cond: Cond, size: usize) -> Ins
    requires { size < 2000000000 }
    ensures { result ≡ again_jump cond size }
{
    Ins::JumpIf {
        cond,
        rel: -(size as i32 + 6),
    }
}
