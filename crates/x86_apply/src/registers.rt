//! Instructions on registers and flags alone. Names in capitals are the pages of the Intel SDM, volumes 2A and 2B.

ghost use Rattle.std.specs.Prelude.{◌≡◌, ◌<◌, ◌≤◌, get_or, if◌then◌else◌, None};
ghost use Rattle.orc_bits.specs.Memory.{Memory};
ghost use Rattle.orc_bits.specs.Numbers.{wrap};
ghost use Rattle.x86_ins.specs.Machine.{core_of, alu_core, with_flags, with_gpr};
ghost use Rattle.x86_ins.specs.declared.ins.Ins.TheVariants as Ins;
ghost use Rattle.x86_apply.specs.Steps.{with_result, IsDone};

use crate::access::number_bytes;
use crate::flags::{alu_flags, bit_flags, extended, shifted};
use crate::state::{address_of, gpr, set_gpr, set_xmm, xmm};
use orc_bits::lane::lane_at;
use x86_ins::{Addr, AluOp, Gpr, ShiftOp, ShuffleOp, State, VecImmOp, VecOp, Xmm};
use x86_vector::{shift_result, shuffle_result, vec_result};

/// A vector operation on two registers: the pages PADDB/PADDW/PADDD/PADDQ to PXOR, and MOVDQA,VMOVDQA32/64.
pub fn vec(op: VecOp, dst: Xmm, src: Xmm, s: &mut State)
    ensures { IsDone (Ins.Vec op dst src) s.old s.new }
{
    let x = xmm(s, dst);
    let y = xmm(s, src);
    set_xmm(s, dst, vec_result(op, &x, &y));
}

/// A vector shift by a count: PSLLW/PSLLD/PSLLQ, PSRLW/PSRLD/PSRLQ, PSRAW/PSRAD/PSRAQ, PSLLDQ, PSRLDQ.
pub fn vec_imm(op: VecImmOp, dst: Xmm, count: u8, s: &mut State)
    ensures { IsDone (Ins.VecImm op dst count) s.old s.new }
{
    let x = xmm(s, dst);
    set_xmm(s, dst, shift_result(op, count, &x));
}

/// A shuffle by an order: PSHUFD, PSHUFLW, PSHUFHW.
pub fn shuffle(op: ShuffleOp, dst: Xmm, src: Xmm, order: u8, s: &mut State)
    ensures { IsDone (Ins.Shuffle op dst src order) s.old s.new }
{
    let y = xmm(s, src);
    set_xmm(s, dst, shuffle_result(op, order, &y));
}

/// The bytes that a move between a general and a vector register moves.
fn size(wide: bool) -> usize
    ensures value { result ≡ (if wide then 8 else 4) }
    ensures few { result ≤ 8 }
{
    if wide { 8 } else { 4 }
}

/// MOVD/MOVQ to a vector register, whose other bytes become 0.
pub fn from_gpr(wide: bool, dst: Xmm, src: Gpr, s: &mut State)
    ensures { IsDone (Ins.FromGpr wide dst src) s.old s.new }
{
    let size = size(wide);
    let v = gpr(s, src);
    set_xmm(s, dst, number_bytes(size, v));
}

/// MOVD/MOVQ to a general register, whose other bytes become 0.
pub fn to_gpr(wide: bool, dst: Gpr, src: Xmm, s: &mut State)
    ensures { IsDone (Ins.ToGpr wide dst src) s.old s.new }
{
    let size = size(wide);
    let y = xmm(s, src);
    set_gpr(s, dst, lane_at(&y, size, 0));
}

/// MOV between general registers.
pub fn mov(dst: Gpr, src: Gpr, s: &mut State)
    ensures { IsDone (Ins.Move dst src) s.old s.new }
{
    let v = gpr(s, src);
    set_gpr(s, dst, v);
}

/// MOV of a number.
pub fn mov_imm(dst: Gpr, value: u64, s: &mut State)
    ensures { IsDone (Ins.MovImm dst value) s.old s.new }
{
    set_gpr(s, dst, value);
}

/// LEA: an address, and no access.
pub fn lea(dst: Gpr, at: &Addr, s: &mut State)
    ensures { IsDone (Ins.Lea dst at.now) s.old s.new }
{
    let a = address_of(s, at);
    set_gpr(s, dst, a);
}

/// Writes the result of an operation, unless it keeps its register.
fn write_result(op: AluOp, d: Gpr, a: u64, b: u64, s: &mut State)
    requires { a ≡ get_or s.old.gpr d 0 }
    ensures core { (m : Memory) → core_of s.new m ≡ with_result op (core_of s.old m) d b }
    ensures rip { s.new.rip ≡ s.old.rip }
{
    match op {
        AluOp::Add => set_gpr(s, d, a.wrapping_add(b)),
        AluOp::Sub => set_gpr(s, d, a.wrapping_sub(b)),
        AluOp::And => set_gpr(s, d, a & b),
        AluOp::Cmp => {}
    }
}

/// Arithmetic on a register and a number, and its flags.
fn alu_with(op: AluOp, d: Gpr, b: u64, s: &mut State)
    ensures core { (m : Memory) → alu_core op (core_of s.old m) d b ≡ core_of s.new m }
    ensures rip { s.new.rip ≡ s.old.rip }
{
    let a = gpr(s, d);
    write_result(op, d, a, b, s);
    s.flags = Some(alu_flags(op, a, b));
}

/// ADD, SUB, AND and CMP of two registers.
pub fn alu(op: AluOp, dst: Gpr, src: Gpr, s: &mut State)
    ensures { IsDone (Ins.Alu op dst src) s.old s.new }
{
    let b = gpr(s, src);
    alu_with(op, dst, b, s);
}

/// ADD, SUB, AND and CMP of a register and a number, which is sign-extended.
pub fn alu_imm(op: AluOp, dst: Gpr, value: i32, s: &mut State)
    ensures { IsDone (Ins.AluImm op dst value) s.old s.new }
{
    alu_with(op, dst, extended(value), s);
}

/// TEST: the flags of AND, and no result.
pub fn test(a: Gpr, b: Gpr, s: &mut State)
    ensures { IsDone (Ins.Test a b) s.old s.new }
{
    let bits = gpr(s, a) & gpr(s, b);
    s.flags = Some(bit_flags(bits));
}

/// Sets a general register, and leaves the flags unset.
fn set_and_unset_flags(s: &mut State, d: Gpr, v: u64)
    ensures core { (m : Memory) → core_of s.new m ≡ with_flags (with_gpr (core_of s.old m) d v) None }
    ensures rip { s.new.rip ≡ s.old.rip }
{
    set_gpr(s, d, v);
    s.flags = None;
}

/// SAL/SAR/SHL/SHR by a count. The flags are unset.
pub fn shift(op: ShiftOp, dst: Gpr, count: u8, s: &mut State)
    requires { count < 64 }
    ensures { IsDone (Ins.Shift op dst count) s.old s.new }
{
    let a = gpr(s, dst);
    set_and_unset_flags(s, dst, shifted(op, a, count));
}

/// IMUL, the low 64 bits of the product. The flags are unset.
pub fn imul(dst: Gpr, src: Gpr, s: &mut State)
    ensures { IsDone (Ins.Imul dst src) s.old s.new }
{
    let a = gpr(s, dst);
    let b = gpr(s, src);
    set_and_unset_flags(s, dst, a.wrapping_mul(b));
}
