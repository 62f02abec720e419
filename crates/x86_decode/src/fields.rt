//! The fields of an instruction, read from left to right.

ghost use Rattle.std.specs.Prelude.{◌≡◌, option_map};
ghost use Rattle.x86_decode.specs.Reading.{prefix_at, rex_at, opcode_at, byte_at, small_at, dword_at, qword_at};
ghost use Rattle.x86_decode.specs.Reading.{number, skip_sib, small_mem, large_mem, operand_at};

use x86_ins::{Addr, Gpr, Xmm};

/// The bits of a REX prefix.
#[derive(Clone, Copy)]
pub struct Rex {
    /// W.
    pub wide: bool,
    /// R, the top bit of reg's number.
    pub reg: bool,
    /// B, the top bit of rm's.
    pub rm: bool,
}

/// What ModRM's mod and rm give: a register or an address.
#[derive(Clone, Copy)]
pub enum Operand {
    Reg(Gpr),
    Mem(Addr),
}

/// The prefix 66, F2 or F3, or else 0, and what follows it.
#[tactic(auto, unfolding(crate::specs::Reading::prefix_at))]
pub(crate) fn prefix(bytes: &[u8]) -> (u8, &[u8])
    ensures { (result.0, result.1.now) ≡ prefix_at bytes.now }
{
    match bytes {
        [] => (0, bytes),
        [b, rest @ ..] => {
            if *b == 0x66 || *b == 0xf2 || *b == 0xf3 {
                (*b, rest)
            } else {
                (0, bytes)
            }
        }
    }
}

/// The bits of REX, all unset where there is none, and what follows it.
#[tactic(auto, unfolding(crate::specs::Reading::rex_at))]
pub(crate) fn read_rex(bytes: &[u8]) -> (Rex, &[u8])
    ensures { (result.0, result.1.now) ≡ rex_at bytes.now }
{
    let none = Rex {
        wide: false,
        reg: false,
        rm: false,
    };
    match bytes {
        [] => (none, bytes),
        [b, rest @ ..] => {
            if *b / 16 == 4 {
                let found = Rex {
                    wide: *b / 8 % 2 == 1,
                    reg: *b / 4 % 2 == 1,
                    rm: *b % 2 == 1,
                };
                (found, rest)
            } else {
                (none, bytes)
            }
        }
    }
}

/// Whether 0F stands before the opcode byte, the opcode byte, and what follows it.
#[tactic(auto, unfolding(crate::specs::Reading::opcode_at))]
pub(crate) fn opcode(bytes: &[u8]) -> Option<(bool, u8, &[u8])>
    ensures { option_map (λ x. (x.0, x.1, x.2.now)) result ≡ opcode_at bytes.now }
{
    match bytes {
        [] => None,
        [0x0f] => None,
        [0x0f, b, rest @ ..] => Some((true, *b, rest)),
        [b, rest @ ..] => Some((false, *b, rest)),
    }
}

/// A byte, and what follows it.
pub(crate) fn byte(bytes: &[u8]) -> Option<(u8, &[u8])>
    ensures { option_map (λ x. (x.0, x.1.now)) result ≡ byte_at bytes.now }
{
    match bytes {
        [] => None,
        [b, rest @ ..] => Some((*b, rest)),
    }
}

/// A signed byte, and what follows it.
#[tactic(auto, unfolding(crate::specs::Reading::small_at))]
pub(crate) fn small(bytes: &[u8]) -> Option<(i32, &[u8])>
    ensures { option_map (λ x. (x.0, x.1.now)) result ≡ small_at bytes.now }
{
    match bytes {
        [] => None,
        [b, rest @ ..] => Some((i32::from(b.cast_signed()), rest)),
    }
}

/// Four bytes as a number, the lowest first, and what follows them.
#[tactic(auto, unfolding(crate::specs::Reading::dword_at))]
pub(crate) fn dword(bytes: &[u8]) -> Option<(u32, &[u8])>
    ensures { option_map (λ x. (x.0, x.1.now)) result ≡ dword_at bytes.now }
{
    if bytes.len() < 4 {
        return None;
    }
    let (front, rest) = bytes.split_at(4);
    let number = u32::from_le_bytes([front[0], front[1], front[2], front[3]]);
    Some((number, rest))
}

/// Eight bytes as a number, the lowest first.
#[tactic(auto, unfolding(crate::specs::Reading::qword_at))]
pub(crate) fn qword(bytes: &[u8]) -> Option<u64>
    ensures { result ≡ qword_at bytes.now }
{
    if bytes.len() < 8 {
        return None;
    }
    let (front, _) = bytes.split_at(8);
    let number = u64::from_le_bytes([
        front[0], front[1], front[2], front[3], front[4], front[5], front[6], front[7],
    ]);
    Some(number)
}

/// A register number from its low three bits and its top one.
pub(crate) fn register(low: u8, high: bool) -> Gpr
    ensures { result ≡ number low high }
{
    let top = if high { 8 } else { 0 };
    Gpr {
        number: low % 8 + top,
    }
}

/// The vector register of the same number.
pub(crate) fn xmm(r: Gpr) -> Xmm
    ensures { result ≡ r }
{
    Xmm { number: r.number }
}

/// What follows SIB, which stands there where the low three bits of ModRM are 4.
pub(crate) fn after_sib(m: u8, bytes: &[u8]) -> &[u8]
    ensures { result.now ≡ skip_sib m bytes.now }
{
    if m % 8 != 4 {
        return bytes;
    }
    match bytes {
        [] => bytes,
        [_, rest @ ..] => rest,
    }
}

/// An address with a displacement of one byte.
#[tactic(auto, unfolding(crate::specs::Reading::small_mem))]
pub(crate) fn near(m: u8, reg: Gpr, base: Gpr, bytes: &[u8]) -> Option<(Gpr, Operand, &[u8])>
    ensures { option_map (λ x. (x.0, x.1, x.2.now)) result ≡ small_mem m reg base bytes.now }
{
    let (disp, rest) = small(after_sib(m, bytes))?;
    Some((reg, Operand::Mem(Addr { base, disp }), rest))
}

/// An address with a displacement of four bytes.
#[tactic(auto, unfolding(crate::specs::Reading::large_mem))]
pub(crate) fn far(m: u8, reg: Gpr, base: Gpr, bytes: &[u8]) -> Option<(Gpr, Operand, &[u8])>
    ensures { option_map (λ x. (x.0, x.1, x.2.now)) result ≡ large_mem m reg base bytes.now }
{
    let (disp, rest) = dword(after_sib(m, bytes))?;
    let disp = disp.cast_signed();
    Some((reg, Operand::Mem(Addr { base, disp }), rest))
}

/// The registers of ModRM or its register and address, and what follows them. Any mod that is not 11 or 01 is read as
/// 10: a comparison comes later.
#[tactic(auto, unfolding(crate::specs::Reading::operand_at))]
pub(crate) fn read_operand(rex: Rex, bytes: &[u8]) -> Option<(Gpr, Operand, &[u8])>
    ensures { option_map (λ x. (x.0, x.1, x.2.now)) result ≡ operand_at rex bytes.now }
{
    match bytes {
        [] => None,
        [m, rest @ ..] => {
            let reg = register(*m / 8, rex.reg);
            let rm = register(*m, rex.rm);
            if *m / 64 == 3 {
                return Some((reg, Operand::Reg(rm), rest));
            }
            if *m / 64 == 1 {
                return near(*m, reg, rm, rest);
            }
            far(*m, reg, rm, rest)
        }
    }
}
