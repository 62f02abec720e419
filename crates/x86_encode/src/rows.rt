//! One spelling for each form of instruction.

ghost use Rattle.std.specs.Prelude.{◌≡◌, IsTrue};
ghost use Rattle.x86_ins.specs.Spelling.{spelling, has_spelling};

use crate::forms::{
    Code, fits_byte, mem_form, plus_form, put, put_dword, put_small, reg_form, with_byte,
};
use crate::tables::{
    alu_extension, alu_opcode, condition_code, has_38, imm_extension, imm_opcode, opcode_of_load,
    opcode_of_store, prefix_of_load, prefix_of_shuffle, prefix_of_store, shift_extension, vec_byte,
};
use arrayvec::ArrayVec;
use x86_ins::{Addr, AluOp, Cond, Gpr, Ins, VecOp, Xmm};

#[tactic(auto, unfolding(x86_ins::specs::Spelling::spelling))]
fn vec(op: VecOp, dst: Xmm, src: Xmm) -> Code
    ensures { result.items ≡ spelling (Ins.Vec op dst src) }
{
    let last = vec_byte(op);
    if has_38(op) {
        return reg_form(&[0x66], false, &[0x0f, 0x38, last], dst.number, src.number);
    }
    reg_form(&[0x66], false, &[0x0f, last], dst.number, src.number)
}

#[tactic(auto, unfolding(x86_ins::specs::Spelling::spelling))]
fn store8(src: Gpr, at: Addr) -> Code
    ensures { result.items ≡ spelling (Ins.Store8 src at) }
{
    let number = src.number;
    let base = at.base.number;
    if number < 8 && number >= 4 && base < 8 {
        let mut out = ArrayVec::new();
        out.push(0x40);
        let rest = mem_form(&[], false, &[0x88], number, at);
        put(&mut out, &rest);
        return out;
    }
    mem_form(&[], false, &[0x88], number, at)
}

#[tactic(auto, unfolding(x86_ins::specs::Spelling::spelling))]
fn mov_imm(dst: Gpr, value: u64) -> Code
    ensures { result.items ≡ spelling (Ins.MovImm dst value) }
{
    if value < 0x1_0000_0000 {
        let mut out = plus_form(false, 0xb8, dst.number);
        put(&mut out, &(value as u32).to_le_bytes());
        return out;
    }
    let mut out = plus_form(true, 0xb8, dst.number);
    put(&mut out, &value.to_le_bytes());
    out
}

#[tactic(auto, unfolding(x86_ins::specs::Spelling::spelling))]
fn alu_imm(op: AluOp, dst: Gpr, value: i32) -> Code
    ensures { result.items ≡ spelling (Ins.AluImm op dst value) }
{
    if fits_byte(value) {
        let mut out = reg_form(&[], true, &[0x83], alu_extension(op), dst.number);
        put_small(&mut out, value);
        return out;
    }
    let mut out = reg_form(&[], true, &[0x81], alu_extension(op), dst.number);
    put_dword(&mut out, value);
    out
}

#[tactic(auto, unfolding(x86_ins::specs::Spelling::spelling))]
fn jump(rel: i32) -> Code
    ensures { result.items ≡ spelling (Ins.Jump rel) }
{
    let mut out = ArrayVec::new();
    out.push(0xe9);
    put_dword(&mut out, rel);
    out
}

#[tactic(auto, unfolding(x86_ins::specs::Spelling::spelling))]
fn jump_if(cond: Cond, rel: i32) -> Code
    ensures { result.items ≡ spelling (Ins.JumpIf cond rel) }
{
    let mut out = ArrayVec::new();
    out.push(0x0f);
    out.push(0x80 + condition_code(cond));
    put_dword(&mut out, rel);
    out
}

#[tactic(auto, unfolding(x86_ins::specs::Spelling::spelling))]
fn ret() -> Code
    ensures { result.items ≡ spelling Ins.Ret }
{
    let mut out = ArrayVec::new();
    out.push(0xc3);
    out
}

/// The one spelling of an instruction: its bytes in the order of the code. It takes no memory and has no failure.
///
/// It needs an instruction that has a spelling, which [`x86_ins::allowed`] tells.
#[tactic(auto, unfolding(x86_ins::specs::Spelling::spelling))]
pub fn encode(ins: &Ins) -> ArrayVec<u8, 15>
    requires { IsTrue (has_spelling ins.now) }
    ensures { result.items ≡ spelling ins.now }
{
    match *ins {
        Ins::Vec { op, dst, src } => vec(op, dst, src),
        Ins::VecImm { op, dst, count } => with_byte(
            reg_form(
                &[0x66],
                false,
                &[0x0f, imm_opcode(op)],
                imm_extension(op),
                dst.number,
            ),
            count,
        ),
        Ins::Shuffle {
            op,
            dst,
            src,
            order,
        } => with_byte(
            reg_form(
                &[prefix_of_shuffle(op)],
                false,
                &[0x0f, 0x70],
                dst.number,
                src.number,
            ),
            order,
        ),
        Ins::VecLoad { op, dst, at } => mem_form(
            &[prefix_of_load(op)],
            false,
            &[0x0f, opcode_of_load(op)],
            dst.number,
            at,
        ),
        Ins::VecStore { op, src, at } => mem_form(
            &[prefix_of_store(op)],
            false,
            &[0x0f, opcode_of_store(op)],
            src.number,
            at,
        ),
        Ins::FromGpr { wide, dst, src } => reg_form(
            &[0x66],
            wide,
            &[0x0f, 0x6e],
            dst.number,
            src.number,
        ),
        Ins::ToGpr { wide, dst, src } => reg_form(
            &[0x66],
            wide,
            &[0x0f, 0x7e],
            src.number,
            dst.number,
        ),
        Ins::Move { dst, src } => reg_form(&[], true, &[0x8b], dst.number, src.number),
        Ins::Load { dst, at } => mem_form(&[], true, &[0x8b], dst.number, at),
        Ins::Store { src, at } => mem_form(&[], true, &[0x89], src.number, at),
        Ins::Store8 { src, at } => store8(src, at),
        Ins::Store16 { src, at } => mem_form(&[0x66], false, &[0x89], src.number, at),
        Ins::Load8 { dst, at } => mem_form(&[], false, &[0x0f, 0xb6], dst.number, at),
        Ins::Load16 { dst, at } => mem_form(&[], false, &[0x0f, 0xb7], dst.number, at),
        Ins::MovImm { dst, value } => mov_imm(dst, value),
        Ins::Alu { op, dst, src } => reg_form(&[], true, &[alu_opcode(op)], dst.number, src.number),
        Ins::AluImm { op, dst, value } => alu_imm(op, dst, value),
        Ins::Test { a, b } => reg_form(&[], true, &[0x85], b.number, a.number),
        Ins::Shift { op, dst, count } => with_byte(
            reg_form(&[], true, &[0xc1], shift_extension(op), dst.number),
            count,
        ),
        Ins::Imul { dst, src } => reg_form(&[], true, &[0x0f, 0xaf], dst.number, src.number),
        Ins::Lea { dst, at } => mem_form(&[], true, &[0x8d], dst.number, at),
        Ins::Push { src } => plus_form(false, 0x50, src.number),
        Ins::Pop { dst } => plus_form(false, 0x58, dst.number),
        Ins::Jump { rel } => jump(rel),
        Ins::JumpIf { cond, rel } => jump_if(cond, rel),
        Ins::Ret => ret(),
    }
}
