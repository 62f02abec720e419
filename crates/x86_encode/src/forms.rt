//! The parts that spellings are made of.

ghost use Rattle.std.specs.Prelude.{◌≡◌, ◌+◌, ◌<◌, ◌≤◌, [], ◌∷◌, ◌++◌, length, IsTrue};
ghost use Rattle.arrayvec.specs.ArrayVec.{array_vec_len};
ghost use Rattle.x86_ins.specs.Spelling.{rex, is_small, m_mem, byte, dword, reg_form, mem_form, plus_form};

use arrayvec::ArrayVec;
use x86_ins::Addr;

/// The bytes of one instruction.
pub(crate) type Code = ArrayVec<u8, 15>;

/// Appends the bytes.
pub(crate) fn put(out: &mut Code, bytes: &[u8])
    requires { array_vec_len out.old + length bytes.now ≤ 15 }
    ensures items { out.new.items ≡ out.old.items ++ bytes.now }
    ensures len { array_vec_len out.new ≡ array_vec_len out.old + length bytes.now }
{
    for b in bytes {
        out.push(*b);
    }
}

/// Appends REX, where one of its bits is 1: W where `wide`, R where reg's number is above 7, B where rm's is.
pub(crate) fn put_rex(out: &mut Code, wide: bool, reg: u8, rm: u8)
    requires room { array_vec_len out.old < 15 }
    requires reg_in { reg < 16 }
    requires rm_in { rm < 16 }
    ensures items { out.new.items ≡ out.old.items ++ rex wide reg rm }
    ensures len { array_vec_len out.new ≤ array_vec_len out.old + 1 }
{
    if wide || reg > 7 || rm > 7 {
        let w = if wide { 8 } else { 0 };
        let r = if reg > 7 { 4 } else { 0 };
        let b = if rm > 7 { 1 } else { 0 };
        out.push(0x40 + w + r + b);
    }
}

/// Appends a number that fits one byte.
pub(crate) fn put_small(out: &mut Code, z: i32)
    requires room { array_vec_len out.old < 15 }
    requires small { IsTrue (is_small z) }
    ensures items { out.new.items ≡ out.old.items ++ byte z }
    ensures len { array_vec_len out.new ≡ array_vec_len out.old + 1 }
{
    out.push((z as i8).cast_unsigned());
}

/// Appends a number as four bytes, the lowest first.
pub(crate) fn put_dword(out: &mut Code, z: i32)
    requires { array_vec_len out.old ≤ 11 }
    ensures items { out.new.items ≡ out.old.items ++ dword z }
    ensures len { array_vec_len out.new ≡ array_vec_len out.old + 4 }
{
    put(out, &z.cast_unsigned().to_le_bytes());
}

/// Whether a number is from -128 to 127.
pub(crate) fn fits_byte(z: i32) -> bool
    ensures { result ≡ is_small z }
{
    z >= -128 && z <= 127
}

/// Appends ModRM at an address, SIB where the base asks for it, and the displacement.
pub(crate) fn put_mem(out: &mut Code, reg: u8, at: Addr)
    requires { array_vec_len out.old ≤ 9 }
    ensures items { out.new.items ≡ out.old.items ++ m_mem reg at }
    ensures len { array_vec_len out.new ≤ array_vec_len out.old + 6 }
{
    let base = at.base.number;
    let one_byte = fits_byte(at.disp);
    let mode = if one_byte { 0x40 } else { 0x80 };
    out.push(mode + 8 * (reg % 8) + base % 8);
    if base % 8 == 4 {
        out.push(0x24);
    }
    if one_byte {
        put_small(out, at.disp);
    } else {
        put_dword(out, at.disp);
    }
}

/// Prefix, REX, opcode, and ModRM at a register.
#[tactic(auto, unfolding(x86_ins::specs::Spelling::reg_form))]
pub(crate) fn reg_form(pre: &[u8], wide: bool, opcode: &[u8], reg: u8, rm: u8) -> Code
    requires pre_few { length pre.now ≤ 1 }
    requires opcode_few { length opcode.now ≤ 3 }
    requires reg_in { reg < 16 }
    requires rm_in { rm < 16 }
    ensures items { result.items ≡ reg_form pre.now wide opcode.now reg rm }
    ensures len { array_vec_len result ≤ 6 }
{
    let mut out = ArrayVec::new();
    put(&mut out, pre);
    put_rex(&mut out, wide, reg, rm);
    put(&mut out, opcode);
    out.push(0xc0 + 8 * (reg % 8) + rm % 8);
    out
}

/// Prefix, REX, opcode, and ModRM at an address.
#[tactic(auto, unfolding(x86_ins::specs::Spelling::mem_form))]
pub(crate) fn mem_form(pre: &[u8], wide: bool, opcode: &[u8], reg: u8, at: Addr) -> Code
    requires pre_few { length pre.now ≤ 1 }
    requires opcode_few { length opcode.now ≤ 2 }
    requires reg_in { reg < 16 }
    ensures items { result.items ≡ mem_form pre.now wide opcode.now reg at }
    ensures len { array_vec_len result ≤ 10 }
{
    let base = at.base.number;
    let mut out = ArrayVec::new();
    put(&mut out, pre);
    put_rex(&mut out, wide, reg, base);
    put(&mut out, opcode);
    put_mem(&mut out, reg, at);
    out
}

/// REX, and an opcode byte with a register in its low three bits.
#[tactic(auto, unfolding(x86_ins::specs::Spelling::plus_form))]
pub(crate) fn plus_form(wide: bool, opcode: u8, rm: u8) -> Code
    requires opcode_in { opcode < 0xf0 }
    requires rm_in { rm < 16 }
    ensures items { result.items ≡ plus_form wide opcode rm }
    ensures len { array_vec_len result ≤ 2 }
{
    let mut out = ArrayVec::new();
    put_rex(&mut out, wide, 0, rm);
    out.push(opcode + rm % 8);
    out
}

/// A form with a byte after it.
pub(crate) fn with_byte(mut form: Code, b: u8) -> Code
    requires { array_vec_len form < 15 }
    ensures { result.items ≡ form.items ++ b ∷ [] }
{
    form.push(b);
    form
}
