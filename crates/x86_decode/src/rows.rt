//! The rows of the tables: the only instruction that may begin the bytes.

ghost use Rattle.std.specs.Prelude.{◌≡◌, Some, None};
ghost use Rattle.x86_decode.specs.Reading.{shuffle_row, imm_row, vec_row, regs_66, mem_66, mem_f3, shift_row};
ghost use Rattle.x86_decode.specs.Reading.{small_row, large_row, alu_row, regs_one, mem_one, mem_two};
ghost use Rattle.x86_decode.specs.Reading.{by_66, by_f3, by_f2, by_none, by_prefix, with_operand, long_row};
ghost use Rattle.x86_decode.specs.Reading.{short_row, mov_row, jump_row, jump_if_row, row_one, row_two};
ghost use Rattle.x86_decode.specs.Reading.{row_three, row_at, after_rex, guess};

use crate::fields::{
    Operand, Rex, byte, dword, opcode, prefix, qword, read_operand, read_rex, register, small, xmm,
};
use crate::tables::{
    alu_by_digit, alu_operation, condition, imm_operation, shift_operation, vec_operation,
};
use x86_ins::{Addr, Gpr, Ins, MoveOp, ShuffleOp};

/// A shuffle, with its order behind the registers.
#[tactic(auto, unfolding(crate::specs::Reading::shuffle_row))]
fn shuffle_row(op: ShuffleOp, reg: Gpr, rm: Gpr, rest: &[u8]) -> Option<Ins>
    ensures { result ≡ shuffle_row op reg rm rest.now }
{
    let (order, _) = byte(rest)?;
    Some(Ins::Shuffle {
        op,
        dst: xmm(reg),
        src: xmm(rm),
        order,
    })
}

/// A shift of a vector register, with its count behind the register.
#[tactic(auto, unfolding(crate::specs::Reading::imm_row))]
fn imm_row(op: u8, reg: Gpr, rm: Gpr, rest: &[u8]) -> Option<Ins>
    ensures { result ≡ imm_row op reg rm rest.now }
{
    let op = imm_operation(op, reg.number)?;
    let (count, _) = byte(rest)?;
    Some(Ins::VecImm {
        op,
        dst: xmm(rm),
        count,
    })
}

/// An operation on two vector registers.
#[tactic(auto, unfolding(crate::specs::Reading::vec_row))]
fn vec_row(op: u8, reg: Gpr, rm: Gpr) -> Option<Ins>
    ensures { result ≡ vec_row op reg rm }
{
    let op = vec_operation(op)?;
    Some(Ins::Vec {
        op,
        dst: xmm(reg),
        src: xmm(rm),
    })
}

/// The rows with 66 between registers.
#[tactic(auto, unfolding(crate::specs::Reading::regs_66))]
fn regs_66(wide: bool, op: u8, reg: Gpr, rm: Gpr, rest: &[u8]) -> Option<Ins>
    ensures { result ≡ regs_66 wide op reg rm rest.now }
{
    match op {
        0x6e => Some(Ins::FromGpr {
            wide,
            dst: xmm(reg),
            src: rm,
        }),
        0x7e => Some(Ins::ToGpr {
            wide,
            dst: rm,
            src: xmm(reg),
        }),
        0x70 => shuffle_row(ShuffleOp::Pshufd, reg, rm, rest),
        0x71..=0x73 => imm_row(op, reg, rm, rest),
        _ => vec_row(op, reg, rm),
    }
}

/// The rows with 66 at an address.
#[tactic(auto, unfolding(crate::specs::Reading::mem_66))]
fn mem_66(op: u8, reg: Gpr, at: Addr) -> Option<Ins>
    ensures { result ≡ mem_66 op reg at }
{
    match op {
        0x6f => Some(Ins::VecLoad {
            op: MoveOp::Movdqa,
            dst: xmm(reg),
            at,
        }),
        0x6e => Some(Ins::VecLoad {
            op: MoveOp::Movd,
            dst: xmm(reg),
            at,
        }),
        0x7f => Some(Ins::VecStore {
            op: MoveOp::Movdqa,
            src: xmm(reg),
            at,
        }),
        0xd6 => Some(Ins::VecStore {
            op: MoveOp::Movq,
            src: xmm(reg),
            at,
        }),
        0x7e => Some(Ins::VecStore {
            op: MoveOp::Movd,
            src: xmm(reg),
            at,
        }),
        _ => Some(Ins::Store16 { src: reg, at }),
    }
}

/// The rows with F3 at an address.
#[tactic(auto, unfolding(crate::specs::Reading::mem_f3))]
fn mem_f3(op: u8, reg: Gpr, at: Addr) -> Option<Ins>
    ensures { result ≡ mem_f3 op reg at }
{
    match op {
        0x6f => Some(Ins::VecLoad {
            op: MoveOp::Movdqu,
            dst: xmm(reg),
            at,
        }),
        0x7e => Some(Ins::VecLoad {
            op: MoveOp::Movq,
            dst: xmm(reg),
            at,
        }),
        _ => Some(Ins::VecStore {
            op: MoveOp::Movdqu,
            src: xmm(reg),
            at,
        }),
    }
}

/// A shift of a general register, with its count behind the register.
#[tactic(auto, unfolding(crate::specs::Reading::shift_row))]
fn shift_row(reg: Gpr, rm: Gpr, rest: &[u8]) -> Option<Ins>
    ensures { result ≡ shift_row reg rm rest.now }
{
    let op = shift_operation(reg.number)?;
    let (count, _) = byte(rest)?;
    Some(Ins::Shift { op, dst: rm, count })
}

/// Arithmetic with a number of one byte.
#[tactic(auto, unfolding(crate::specs::Reading::small_row))]
fn small_row(reg: Gpr, rm: Gpr, rest: &[u8]) -> Option<Ins>
    ensures { result ≡ small_row reg rm rest.now }
{
    let op = alu_by_digit(reg.number)?;
    let (value, _) = small(rest)?;
    Some(Ins::AluImm { op, dst: rm, value })
}

/// Arithmetic with a number of four bytes.
#[tactic(auto, unfolding(crate::specs::Reading::large_row))]
fn large_row(reg: Gpr, rm: Gpr, rest: &[u8]) -> Option<Ins>
    ensures { result ≡ large_row reg rm rest.now }
{
    let op = alu_by_digit(reg.number)?;
    let (value, _) = dword(rest)?;
    Some(Ins::AluImm {
        op,
        dst: rm,
        value: value.cast_signed(),
    })
}

/// Arithmetic between registers.
#[tactic(auto, unfolding(crate::specs::Reading::alu_row))]
fn alu_row(op: u8, reg: Gpr, rm: Gpr) -> Option<Ins>
    ensures { result ≡ alu_row op reg rm }
{
    let op = alu_operation(op)?;
    Some(Ins::Alu {
        op,
        dst: reg,
        src: rm,
    })
}

/// The rows of one opcode byte between registers.
#[tactic(auto, unfolding(crate::specs::Reading::regs_one))]
fn regs_one(op: u8, reg: Gpr, rm: Gpr, rest: &[u8]) -> Option<Ins>
    ensures { result ≡ regs_one op reg rm rest.now }
{
    match op {
        0x8b => Some(Ins::Move { dst: reg, src: rm }),
        0x85 => Some(Ins::Test { a: rm, b: reg }),
        0xc1 => shift_row(reg, rm, rest),
        0x83 => small_row(reg, rm, rest),
        0x81 => large_row(reg, rm, rest),
        _ => alu_row(op, reg, rm),
    }
}

/// The rows of one opcode byte at an address.
#[tactic(auto, unfolding(crate::specs::Reading::mem_one))]
fn mem_one(op: u8, reg: Gpr, at: Addr) -> Option<Ins>
    ensures { result ≡ mem_one op reg at }
{
    match op {
        0x8b => Some(Ins::Load { dst: reg, at }),
        0x89 => Some(Ins::Store { src: reg, at }),
        0x88 => Some(Ins::Store8 { src: reg, at }),
        _ => Some(Ins::Lea { dst: reg, at }),
    }
}

/// The rows with 0F at an address.
#[tactic(auto, unfolding(crate::specs::Reading::mem_two))]
fn mem_two(op: u8, reg: Gpr, at: Addr) -> Option<Ins>
    ensures { result ≡ mem_two op reg at }
{
    if op == 0xb6 {
        Some(Ins::Load8 { dst: reg, at })
    } else {
        Some(Ins::Load16 { dst: reg, at })
    }
}

/// The rows with 66.
#[tactic(auto, unfolding(crate::specs::Reading::by_66))]
fn by_66(wide: bool, op: u8, reg: Gpr, x: Operand, rest: &[u8]) -> Option<Ins>
    ensures { result ≡ by_66 wide op reg x rest.now }
{
    match x {
        Operand::Reg(rm) => regs_66(wide, op, reg, rm, rest),
        Operand::Mem(at) => mem_66(op, reg, at),
    }
}

/// The rows with F3.
#[tactic(auto, unfolding(crate::specs::Reading::by_f3))]
fn by_f3(op: u8, reg: Gpr, x: Operand, rest: &[u8]) -> Option<Ins>
    ensures { result ≡ by_f3 op reg x rest.now }
{
    match x {
        Operand::Reg(rm) => shuffle_row(ShuffleOp::Pshufhw, reg, rm, rest),
        Operand::Mem(at) => mem_f3(op, reg, at),
    }
}

/// The rows with F2.
#[tactic(auto, unfolding(crate::specs::Reading::by_f2))]
fn by_f2(reg: Gpr, x: Operand, rest: &[u8]) -> Option<Ins>
    ensures { result ≡ by_f2 reg x rest.now }
{
    match x {
        Operand::Reg(rm) => shuffle_row(ShuffleOp::Pshuflw, reg, rm, rest),
        Operand::Mem(_) => None,
    }
}

/// The rows without a prefix.
#[tactic(auto, unfolding(crate::specs::Reading::by_none))]
fn by_none(two: bool, op: u8, reg: Gpr, x: Operand, rest: &[u8]) -> Option<Ins>
    ensures { result ≡ by_none two op reg x rest.now }
{
    match (two, x) {
        (true, Operand::Reg(rm)) => Some(Ins::Imul { dst: reg, src: rm }),
        (true, Operand::Mem(at)) => mem_two(op, reg, at),
        (false, Operand::Reg(rm)) => regs_one(op, reg, rm, rest),
        (false, Operand::Mem(at)) => mem_one(op, reg, at),
    }
}

/// The rows with ModRM, by their prefix.
#[tactic(auto, unfolding(crate::specs::Reading::by_prefix))]
fn by_prefix(
    prefix: u8,
    wide: bool,
    two: bool,
    op: u8,
    reg: Gpr,
    x: Operand,
    rest: &[u8],
) -> Option<Ins>
    ensures { result ≡ by_prefix prefix wide two op reg x rest.now }
{
    match prefix {
        0x66 => by_66(wide, op, reg, x, rest),
        0xf3 => by_f3(op, reg, x, rest),
        0xf2 => by_f2(reg, x, rest),
        _ => by_none(two, op, reg, x, rest),
    }
}

/// Reads ModRM, and then the row.
#[tactic(auto, unfolding(crate::specs::Reading::with_operand))]
fn with_operand(prefix: u8, rex: Rex, two: bool, op: u8, bytes: &[u8]) -> Option<Ins>
    ensures { result ≡ with_operand prefix rex two op bytes.now }
{
    match read_operand(rex, bytes) {
        Some((reg, x, rest)) => by_prefix(prefix, rex.wide, two, op, reg, x, rest),
        None => None,
    }
}

/// MOV with a number of eight bytes.
#[tactic(auto, unfolding(crate::specs::Reading::long_row))]
fn long_row(dst: Gpr, bytes: &[u8]) -> Option<Ins>
    ensures { result ≡ long_row dst bytes.now }
{
    let value = qword(bytes)?;
    Some(Ins::MovImm { dst, value })
}

/// MOV with a number of four bytes.
#[tactic(auto, unfolding(crate::specs::Reading::short_row))]
fn short_row(dst: Gpr, bytes: &[u8]) -> Option<Ins>
    ensures { result ≡ short_row dst bytes.now }
{
    let (value, _) = dword(bytes)?;
    Some(Ins::MovImm {
        dst,
        value: u64::from(value),
    })
}

/// MOV with a number.
#[tactic(auto, unfolding(crate::specs::Reading::mov_row))]
fn mov_row(wide: bool, dst: Gpr, bytes: &[u8]) -> Option<Ins>
    ensures { result ≡ mov_row wide dst bytes.now }
{
    if wide {
        long_row(dst, bytes)
    } else {
        short_row(dst, bytes)
    }
}

/// JMP.
#[tactic(auto, unfolding(crate::specs::Reading::jump_row))]
fn jump_row(bytes: &[u8]) -> Option<Ins>
    ensures { result ≡ jump_row bytes.now }
{
    let (rel, _) = dword(bytes)?;
    Some(Ins::Jump {
        rel: rel.cast_signed(),
    })
}

/// Jcc.
#[tactic(auto, unfolding(crate::specs::Reading::jump_if_row))]
fn jump_if_row(op: u8, bytes: &[u8]) -> Option<Ins>
    ensures { result ≡ jump_if_row op bytes.now }
{
    let cond = condition(op % 16)?;
    let (rel, _) = dword(bytes)?;
    Some(Ins::JumpIf {
        cond,
        rel: rel.cast_signed(),
    })
}

/// The rows of one opcode byte.
#[tactic(auto, unfolding(crate::specs::Reading::row_one))]
fn row_one(prefix: u8, rex: Rex, op: u8, bytes: &[u8]) -> Option<Ins>
    ensures { result ≡ row_one prefix rex op bytes.now }
{
    if op == 0xc3 {
        return Some(Ins::Ret);
    }
    if op == 0xe9 {
        return jump_row(bytes);
    }
    let rm = register(op, rex.rm);
    if op / 8 == 10 {
        return Some(Ins::Push { src: rm });
    }
    if op / 8 == 11 {
        return Some(Ins::Pop { dst: rm });
    }
    if op / 8 == 23 {
        return mov_row(rex.wide, rm, bytes);
    }
    with_operand(prefix, rex, false, op, bytes)
}

/// The rows of three opcode bytes, 0F 38 the first.
#[tactic(auto, unfolding(crate::specs::Reading::row_three))]
fn row_three(prefix: u8, rex: Rex, bytes: &[u8]) -> Option<Ins>
    ensures { result ≡ row_three prefix rex bytes.now }
{
    let (op, rest) = byte(bytes)?;
    with_operand(prefix, rex, true, op, rest)
}

/// The rows whose first opcode byte is 0F.
#[tactic(auto, unfolding(crate::specs::Reading::row_two))]
fn row_two(prefix: u8, rex: Rex, op: u8, bytes: &[u8]) -> Option<Ins>
    ensures { result ≡ row_two prefix rex op bytes.now }
{
    if op / 16 == 8 {
        return jump_if_row(op, bytes);
    }
    if op == 0x38 {
        return row_three(prefix, rex, bytes);
    }
    with_operand(prefix, rex, true, op, bytes)
}

/// The row of an opcode.
#[tactic(auto, unfolding(crate::specs::Reading::row_at))]
fn row(prefix: u8, rex: Rex, two: bool, op: u8, bytes: &[u8]) -> Option<Ins>
    ensures { result ≡ row_at prefix rex two op bytes.now }
{
    if two {
        row_two(prefix, rex, op, bytes)
    } else {
        row_one(prefix, rex, op, bytes)
    }
}

/// Reads the opcode, and then the row.
#[tactic(auto, unfolding(crate::specs::Reading::after_rex))]
fn after_rex(prefix: u8, rex: Rex, bytes: &[u8]) -> Option<Ins>
    ensures { result ≡ after_rex prefix rex bytes.now }
{
    let (two, op, rest) = opcode(bytes)?;
    row(prefix, rex, two, op, rest)
}

/// The only instruction whose spelling may begin the bytes.
#[tactic(auto, unfolding(crate::specs::Reading::guess))]
pub(crate) fn guess(bytes: &[u8]) -> Option<Ins>
    ensures { result ≡ guess bytes.now }
{
    let (prefix, rest) = prefix(bytes);
    let (rex, rest) = read_rex(rest);
    after_rex(prefix, rex, rest)
}
