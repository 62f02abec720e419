//! The effect of each instruction on registers, flags and memory.
#![tactic(auto)]

mod access;
mod flags;
mod flow;
mod memory;
mod registers;
mod state;
#[cfg(test)]
mod tests;

ghost use Rattle.std.specs.Prelude.{◌≡◌, IsTrue};
ghost use Rattle.x86_ins.specs.Spelling.{has_spelling};
ghost use Rattle.x86_apply.specs.Applied.{Applied};

use crate::flow::{jump, jump_if, ret};
use crate::memory::{load, pop, push, store, vec_load, vec_store};
use crate::registers::{
    alu, alu_imm, from_gpr, imul, lea, mov, mov_imm, shift, shuffle, test, to_gpr, vec, vec_imm,
};
use x86_ins::{Bytes, Ins, State, Trap};

/// Does an instruction that has a spelling (`x86_ins::allowed`), where `s.rip` is the address behind it.
///
/// The effect is that of the instruction's page in the Intel manual, volume 2, on lanes as exact numbers. The flags are
/// unset behind a shift and a product, whose pages leave some of them undefined. An address, RIP and RSP are counted
/// modulo 2^64.
///
/// # Errors
///
/// A trap, which changes neither the state nor the memory. The reasons are tried in this order:
///
/// - `Why::Misaligned`, where a movdqa's address, which the trap gives, is no multiple of 16;
/// - `Why::Unmapped`, where a byte of an access isn't mapped; the trap gives the address of the first such byte;
/// - `Why::NoFlags`, where a conditional jump meets unset flags; the trap gives `s.rip`.
pub fn apply<B: Bytes>(ins: &Ins, s: &mut State, mem: &mut B) -> Result<(), Trap>
    requires { IsTrue (has_spelling ins.now) }
    ensures { Applied ins.now s.old (B.bytes mem.old) s.new (B.bytes mem.new) result }
{
    match *ins {
        Ins::Vec { op, dst, src } => Ok(vec(op, dst, src, s)),
        Ins::VecImm { op, dst, count } => Ok(vec_imm(op, dst, count, s)),
        Ins::Shuffle {
            op,
            dst,
            src,
            order,
        } => Ok(shuffle(op, dst, src, order, s)),
        Ins::VecLoad { op, dst, at } => vec_load(op, dst, &at, s, mem),
        Ins::VecStore { op, src, at } => vec_store(op, src, &at, s, mem),
        Ins::FromGpr { wide, dst, src } => Ok(from_gpr(wide, dst, src, s)),
        Ins::ToGpr { wide, dst, src } => Ok(to_gpr(wide, dst, src, s)),
        Ins::Move { dst, src } => Ok(mov(dst, src, s)),
        Ins::Load { dst, at } => load(8, dst, &at, s, mem),
        Ins::Store { src, at } => store(8, src, &at, s, mem),
        Ins::Store8 { src, at } => store(1, src, &at, s, mem),
        Ins::Store16 { src, at } => store(2, src, &at, s, mem),
        Ins::Load8 { dst, at } => load(1, dst, &at, s, mem),
        Ins::Load16 { dst, at } => load(2, dst, &at, s, mem),
        Ins::MovImm { dst, value } => Ok(mov_imm(dst, value, s)),
        Ins::Alu { op, dst, src } => Ok(alu(op, dst, src, s)),
        Ins::AluImm { op, dst, value } => Ok(alu_imm(op, dst, value, s)),
        Ins::Test { a, b } => Ok(test(a, b, s)),
        Ins::Shift { op, dst, count } => Ok(shift(op, dst, count, s)),
        Ins::Imul { dst, src } => Ok(imul(dst, src, s)),
        Ins::Lea { dst, at } => Ok(lea(dst, &at, s)),
        Ins::Push { src } => push(src, s, mem),
        Ins::Pop { dst } => pop(dst, s, mem),
        Ins::Jump { rel } => Ok(jump(rel, s)),
        Ins::JumpIf { cond, rel } => jump_if(cond, rel, s),
        Ins::Ret => ret(s, mem),
    }
}
