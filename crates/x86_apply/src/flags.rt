//! Results and flags of arithmetic, and conditions on flags.

ghost use Rattle.std.specs.Prelude.{◌≡◌, ◌<◌, ◌^◌, ◌+ℤ◌, ◌-ℤ◌, ◌≤ℤ◌, ◌<ℤ◌, neg_ℤ, pos, false};
ghost use Rattle.orc_bits.specs.Numbers.{signed, wrap};
ghost use Rattle.x86_ins.specs.Machine.{alu_result, alu_flags, shift_result, test, holds, is_out, flags_of};

use crate::state::moved_by;
use orc_bits::signed;
use x86_ins::{AluOp, Cond, Flags, ShiftOp};

/// The sign bit of a general register.
const SIGN: u64 = 0x8000_0000_0000_0000;

/// A signed number as 64 bits.
pub fn extended(z: i32) -> u64
    ensures { result ≡ wrap 64 z }
{
    moved_by(0, z)
}

/// The signed reading of a general register.
fn signed_quadword(v: u64) -> i128
    ensures value { result ≡ signed 64 v }
    ensures low { neg_ℤ (pos (2 ^ 63)) ≤ℤ result }
    ensures high { result <ℤ pos (2 ^ 63) }
{
    i128::from(signed(v, 64))
}

/// Whether a number is outside the signed range.
fn is_out(z: i128) -> bool
    ensures { result ≡ is_out z }
{
    z < i128::from(i64::MIN) || z > i128::from(i64::MAX)
}

/// The flags of a sum.
fn add_flags(a: u64, b: u64) -> Flags
    ensures { result ≡ alu_flags AluOp.Add a b }
{
    let r = a.wrapping_add(b);
    Flags {
        carry: r < a,
        zero: r == 0,
        sign: r >= SIGN,
        overflow: is_out(signed_quadword(a) + signed_quadword(b)),
    }
}

/// The flags of a difference.
fn sub_flags(a: u64, b: u64) -> Flags
    ensures { result ≡ alu_flags AluOp.Sub a b }
{
    let r = a.wrapping_sub(b);
    Flags {
        carry: a < b,
        zero: r == 0,
        sign: r >= SIGN,
        overflow: is_out(signed_quadword(a) - signed_quadword(b)),
    }
}

/// The flags of bits.
pub fn bit_flags(r: u64) -> Flags
    ensures { result ≡ flags_of false false r }
{
    Flags {
        carry: false,
        zero: r == 0,
        sign: r >= SIGN,
        overflow: false,
    }
}

/// The flags of an operation.
pub fn alu_flags(op: AluOp, a: u64, b: u64) -> Flags
    ensures { result ≡ alu_flags op a b }
{
    match op {
        AluOp::Add => add_flags(a, b),
        AluOp::Sub => sub_flags(a, b),
        AluOp::And => bit_flags(a & b),
        AluOp::Cmp => sub_flags(a, b),
    }
}

/// The result of a shift.
pub fn shifted(op: ShiftOp, a: u64, count: u8) -> u64
    requires { count < 64 }
    ensures { result ≡ shift_result op a count }
{
    match op {
        ShiftOp::Shl => a << count,
        ShiftOp::Shr => a >> count,
        ShiftOp::Sar => if a < SIGN { a >> count } else { !(!a >> count) },
    }
}

/// Whether a condition holds.
fn holds(cond: Cond, f: Flags) -> bool
    ensures { result ≡ holds cond f }
{
    match cond {
        Cond::B => f.carry,
        Cond::Ae => !f.carry,
        Cond::E => f.zero,
        Cond::Ne => !f.zero,
        Cond::Be => f.carry || f.zero,
        Cond::A => !(f.carry || f.zero),
        Cond::S => f.sign,
        Cond::Ns => !f.sign,
        Cond::L => f.sign != f.overflow,
        Cond::Ge => f.sign == f.overflow,
        Cond::Le => f.zero || f.sign != f.overflow,
        Cond::G => !(f.zero || f.sign != f.overflow),
    }
}

/// Whether a condition holds, where there are flags.
pub fn test(cond: Cond, f: Option<Flags>) -> Option<bool>
    ensures { result ≡ test cond f }
{
    match f {
        Some(f) => Some(holds(cond, f)),
        None => None,
    }
}
