//! Registers of the state, and addresses.

ghost use Rattle.std.specs.Prelude.{◌≡◌, get_or, []};
ghost use Rattle.orc_bits.specs.Memory.{Memory};
ghost use Rattle.x86_ins.specs.Machine.{core_of, with_gpr, with_xmm, moved, address};

use x86_ins::{Addr, Gpr, State, Xmm};

/// RSP, the stack pointer.
pub const RSP: Gpr = Gpr { number: 4 };

/// Sets a general register.
pub fn set_gpr(s: &mut State, d: Gpr, v: u64)
    ensures core { (m : Memory) → core_of s.new m ≡ with_gpr (core_of s.old m) d v }
    ensures rip { s.new.rip ≡ s.old.rip }
{
    s.gpr[d.number as usize] = v;
}

/// Sets a vector register.
pub fn set_xmm(s: &mut State, d: Xmm, v: [u8; 16])
    ensures core { (m : Memory) → core_of s.new m ≡ with_xmm (core_of s.old m) d v }
    ensures rip { s.new.rip ≡ s.old.rip }
{
    s.xmm[d.number as usize] = v;
}

/// A general register.
pub fn gpr(s: &State, r: Gpr) -> u64
    ensures { result ≡ get_or s.now.gpr r 0 }
{
    s.gpr[r.number as usize]
}

/// A vector register.
pub fn xmm(s: &State, r: Xmm) -> [u8; 16]
    ensures { result ≡ get_or s.now.xmm r [] }
{
    s.xmm[r.number as usize]
}

/// A number moved by a signed one, modulo 2^64.
pub fn moved_by(a: u64, z: i32) -> u64
    ensures { result ≡ moved a z }
{
    if z < 0 {
        a.wrapping_sub(u64::from(z.unsigned_abs()))
    } else {
        a.wrapping_add(z as u64)
    }
}

/// An address.
pub fn address_of(s: &State, at: &Addr) -> u64
    ensures { (m : Memory) → result ≡ address (core_of s.now m) at.now }
{
    moved_by(s.gpr[at.base.number as usize], at.disp)
}
