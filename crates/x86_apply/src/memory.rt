//! Loads and stores. Names in capitals are the pages of the Intel SDM, volume 2B.

ghost use Rattle.std.specs.Prelude.{◌≡◌, ◌≤◌, if◌then◌else◌, Result, Err};
ghost use Rattle.orc_bits.specs.Memory.{Memory};
ghost use Rattle.x86_ins.specs.Machine.{Core, core_of, aligned, move_size, below_stack};
ghost use Rattle.x86_ins.specs.declared.ins.Ins.TheVariants as Ins;
ghost use Rattle.x86_apply.specs.Applied.{Applied};
ghost use Rattle.x86_apply.specs.Steps.{Loads, Stores};

use crate::access::{load_number, load_register, save_number, save_register};
use crate::state::{RSP, address_of, gpr, set_gpr, set_xmm, xmm};
use x86_ins::{Addr, Bytes, Gpr, MoveOp, State, Trap, Why, Xmm};

/// Whether an access has to be refused for its address.
fn is_misaligned(op: MoveOp, a: u64) -> bool
    ensures { (r : Result Core Trap) →
        aligned op a r ≡ (if result then Err (record { at = a; why = Why.Misaligned }) else r) }
{
    match op {
        MoveOp::Movdqa => a % 16 != 0,
        MoveOp::Movdqu => false,
        MoveOp::Movq => false,
        MoveOp::Movd => false,
    }
}

/// The bytes that a vector load or store moves.
fn move_size(op: MoveOp) -> usize
    ensures value { result ≡ move_size op }
    ensures few { result ≤ 16 }
{
    match op {
        MoveOp::Movdqa => 16,
        MoveOp::Movdqu => 16,
        MoveOp::Movq => 8,
        MoveOp::Movd => 4,
    }
}

/// MOVDQA,VMOVDQA32/64, MOVDQU,VMOVDQU8/16/32/64, MOVQ and MOVD/MOVQ from memory. The other bytes of the register become
/// 0.
pub fn vec_load<B: Bytes>(
    op: MoveOp,
    dst: Xmm,
    at: &Addr,
    s: &mut State,
    mem: &B,
) -> Result<(), Trap>
    ensures { Applied (Ins.VecLoad op dst at.now) s.old (B.bytes mem.now) s.new (B.bytes mem.now) result }
{
    let a = address_of(s, at);
    if is_misaligned(op, a) {
        return Err(Trap {
            at: a,
            why: Why::Misaligned,
        });
    }
    match load_register(move_size(op), a, mem) {
        Ok(v) => {
            set_xmm(s, dst, v);
            Ok(())
        }
        Err(t) => Err(t),
    }
}

/// MOVDQA,VMOVDQA32/64, MOVDQU,VMOVDQU8/16/32/64, MOVQ and MOVD/MOVQ to memory.
pub fn vec_store<B: Bytes>(
    op: MoveOp,
    src: Xmm,
    at: &Addr,
    s: &State,
    mem: &mut B,
) -> Result<(), Trap>
    ensures { Applied (Ins.VecStore op src at.now) s.now (B.bytes mem.old) s.now (B.bytes mem.new) result }
{
    let a = address_of(s, at);
    if is_misaligned(op, a) {
        return Err(Trap {
            at: a,
            why: Why::Misaligned,
        });
    }
    save_register(move_size(op), a, &xmm(s, src), mem)
}

/// MOV and MOVZX from memory: so many bytes, and 0 above them.
pub fn load<B: Bytes>(n: usize, dst: Gpr, at: &Addr, s: &mut State, mem: &B) -> Result<(), Trap>
    requires few { n ≤ 8 }
    ensures { Loads n dst at.now s.old (B.bytes mem.now) s.new result }
{
    let a = address_of(s, at);
    match load_number(n, a, mem) {
        Ok(v) => {
            set_gpr(s, dst, v);
            Ok(())
        }
        Err(t) => Err(t),
    }
}

/// MOV to memory: so many bytes.
pub fn store<B: Bytes>(n: usize, src: Gpr, at: &Addr, s: &State, mem: &mut B) -> Result<(), Trap>
    requires few { n ≤ 8 }
    ensures { Stores n src at.now s.now (B.bytes mem.old) (B.bytes mem.new) result }
{
    let a = address_of(s, at);
    save_number(n, a, gpr(s, src), mem)
}

/// The place 8 bytes below RSP.
fn below(s: &State) -> u64
    ensures { (m : Memory) → result ≡ below_stack (core_of s.now m) }
{
    s.gpr[4].wrapping_sub(8)
}

/// PUSH: RSP is lowered by 8, and the register stored there.
pub fn push<B: Bytes>(src: Gpr, s: &mut State, mem: &mut B) -> Result<(), Trap>
    ensures { Applied (Ins.Push src) s.old (B.bytes mem.old) s.new (B.bytes mem.new) result }
{
    let a = below(s);
    match save_number(8, a, gpr(s, src), mem) {
        Ok(()) => {
            set_gpr(s, RSP, a);
            Ok(())
        }
        Err(t) => Err(t),
    }
}

/// POP: the word at RSP is loaded, and RSP raised by 8.
pub fn pop<B: Bytes>(dst: Gpr, s: &mut State, mem: &B) -> Result<(), Trap>
    ensures { Applied (Ins.Pop dst) s.old (B.bytes mem.now) s.new (B.bytes mem.now) result }
{
    let a = gpr(s, RSP);
    match load_number(8, a, mem) {
        Ok(v) => {
            set_gpr(s, RSP, a.wrapping_add(8));
            set_gpr(s, dst, v);
            Ok(())
        }
        Err(t) => Err(t),
    }
}
