//! Numbers of an object.

ghost use Rattle.std.specs.Prelude.{◌≡◌, ◌++◌, OnOk};
ghost use Rattle.orc_elf.specs.Layout.{spelled};

use std::alloc::AllocError;

/// A number of an object (System V gABI, chapter 4, "Data Representation").
#[derive(Clone, Copy)]
pub enum Number {
    /// An unsigned char.
    Byte(u8),
    /// An Elf64_Half, of 2 bytes.
    Half(u16),
    /// An Elf64_Word, of 4 bytes.
    Word(u32),
    /// An Elf64_Xword, Elf64_Addr or Elf64_Off, of 8 bytes.
    Xword(u64),
}

/// Appends a number, lowest byte first.
pub fn put_number(out: &mut Vec<u8>, n: Number) -> Result<(), AllocError>
    ensures { OnOk result (out.new.items ≡ out.old.items ++ spelled n) }
{
    match n {
        Number::Byte(b) => out.extend_from_slice(&[b]),
        Number::Half(n) => out.extend_from_slice(&n.to_le_bytes()),
        Number::Word(n) => out.extend_from_slice(&n.to_le_bytes()),
        Number::Xword(n) => out.extend_from_slice(&n.to_le_bytes()),
    }
}
