//! Call frame information: how a debugger finds the caller of a library's function (DWARF 4, section 6.4).

ghost use Rattle.std.specs.Prelude.{◌≡◌, ◌+◌, ◌-◌, ◌*◌, ◌/◌, ◌%◌, ◌<◌, ◌≤◌, ◌^◌, ◌++◌, ◌∷◌, [], length, replicate, Option, Some, IfOk, OnOk};
ghost use Rattle.orc_elf.specs.Entries.{IsEntry};
ghost use Rattle.orc_elf.specs.Layout.{gap, spelling};
ghost use Rattle.orc_elf.specs.Frames.{uleb, common_entry, advance, row, saved, restored, last_row, rows, frame_bytes};
ghost use Rattle.orc_elf.specs.Frames.{frames_from, relocation_bytes, relocations_from, frame_part, relocation_part};

use crate::elf::ElfEntry;
use crate::library::Unwind;
use crate::number::Number;
use crate::writing::{gap, put};
use std::alloc::{AllocError, Global};

/// DW_CFA_restore of RBX, RBP and R12 to R15.
const RESTORED: &[u8] = &[0xc3, 0xc6, 0xcc, 0xcd, 0xce, 0xcf];

/// A number as a ULEB128 number of two bytes.
fn uleb(n: u16) -> u16
    requires { n < 2 ^ 14 }
    ensures { result ≡ uleb n }
{
    n % 128 + 128 + 256 * (n / 128)
}

/// Appends the entry that all functions share (a CIE).
#[tactic(auto, unfolding(crate::specs::Frames::common_entry))]
fn put_common_entry(out: &mut Vec<u8>) -> Result<(), AllocError>
    ensures { OnOk result (out.new.items ≡ out.old.items ++ common_entry) }
{
    put(
        out,
        &[
            // length, CIE_id, version
            Number::Word(20),
            Number::Word(0),
            Number::Byte(1),
            // augmentation: "zR"
            Number::Byte(b'z'),
            Number::Byte(b'R'),
            Number::Byte(0),
            // code alignment factor, data alignment factor -8, return address register
            Number::Byte(1),
            Number::Byte(0x78),
            Number::Byte(16),
            // augmentation data: pc-relative, 4 bytes with a sign
            Number::Byte(1),
            Number::Byte(0x1b),
            // DW_CFA_def_cfa, DW_CFA_offset, two of DW_CFA_nop
            Number::Byte(0x0c),
            Number::Byte(7),
            Number::Byte(8),
            Number::Byte(0x90),
            Number::Byte(1),
            Number::Half(0),
        ],
    )
}

/// Appends DW_CFA_advance_loc4.
fn put_advance(out: &mut Vec<u8>, distance: u32) -> Result<(), AllocError>
    ensures { OnOk result (out.new.items ≡ out.old.items ++ advance distance) }
{
    put(out, &[Number::Byte(0x04), Number::Word(distance)])
}

/// Appends a row: so many bytes on, the CFA is so far above RSP.
#[tactic(auto, unfolding(crate::specs::Frames::row))]
fn put_row(out: &mut Vec<u8>, distance: u32, above: u16) -> Result<(), AllocError>
    requires { above < 2 ^ 14 }
    ensures { OnOk result (out.new.items ≡ out.old.items ++ row distance above) }
{
    put(
        out,
        &[
            Number::Byte(0x04),
            Number::Word(distance),
            Number::Byte(0x0e),
            Number::Half(uleb(above)),
        ],
    )
}

/// Appends where RBX, RBP and R12 to R15 are saved: DW_CFA_offset, in words below the CFA.
#[tactic(auto, unfolding(crate::specs::Frames::saved))]
fn put_saved(out: &mut Vec<u8>) -> Result<(), AllocError>
    ensures { OnOk result (out.new.items ≡ out.old.items ++ saved) }
{
    put(
        out,
        &[
            Number::Byte(0x83),
            Number::Half(uleb(196)),
            Number::Byte(0x86),
            Number::Half(uleb(195)),
            Number::Byte(0x8c),
            Number::Half(uleb(194)),
            Number::Byte(0x8d),
            Number::Half(uleb(193)),
            Number::Byte(0x8e),
            Number::Half(uleb(192)),
            Number::Byte(0x8f),
            Number::Half(uleb(191)),
        ],
    )
}

/// Appends the rows of a function that moves the stack pointer.
fn put_moving_rows(out: &mut Vec<u8>, size: u32, unwind: Unwind) -> Result<(), AllocError>
    requires { 1 ≤ size }
    ensures { OnOk result (out.new.items ≡ out.old.items ++ rows size (Some unwind)) }
{
    put_row(out, 7, 352)?;
    put_row(out, unwind.body, 2400)?;
    put_advance(out, 48)?;
    put_saved(out)?;
    put_row(
        out,
        unwind.exit.saturating_sub(unwind.body).saturating_sub(55),
        352,
    )?;
    out.extend_from_slice(RESTORED)?;
    put_advance(out, (size - 1).saturating_sub(unwind.exit))?;
    out.extend_from_slice(&[0x0e, 8, 0, 0, 0])
}

/// Appends the rows of a function.
#[tactic(auto, unfolding(crate::specs::Frames::rows))]
fn put_rows(out: &mut Vec<u8>, size: u32, unwind: Option<Unwind>) -> Result<(), AllocError>
    requires { 1 ≤ size }
    ensures { OnOk result (out.new.items ≡ out.old.items ++ rows size unwind) }
{
    match unwind {
        Some(unwind) => put_moving_rows(out, size, unwind),
        None => out.extend_from_slice(&[0; 63]),
    }
}

/// Appends the entry of a function (an FDE), at an offset of the section.
#[tactic(auto, unfolding(crate::specs::Frames::frame_bytes))]
fn put_frame(
    out: &mut Vec<u8>,
    at: u32,
    size: u32,
    unwind: Option<Unwind>,
) -> Result<(), AllocError>
    requires low { at < 2 ^ 31 }
    requires some { 1 ≤ size }
    ensures { OnOk result (out.new.items ≡ out.old.items ++ frame_bytes at size unwind) }
{
    put(
        out,
        &[
            // length, CIE_pointer, PC begin, PC range, augmentation length
            Number::Word(76),
            Number::Word(at + 4),
            Number::Word(0),
            Number::Word(size),
            Number::Byte(0),
        ],
    )?;
    put_rows(out, size, unwind)
}

/// Appends the entries of functions, from an offset of the section on.
#[tactic(auto, unfolding(crate::specs::Frames::frames_from))]
fn put_frames(
    out: &mut Vec<u8>,
    at: u32,
    entries: &[ElfEntry],
    unwinds: &[Option<Unwind>],
) -> Result<(), AllocError>
    requires { at + 80 * length entries.now < 2 ^ 31 }
    ensures { OnOk result (out.new.items ≡ out.old.items ++ frames_from at entries.now unwinds.now) }
{
    let [e, later @ ..] = entries else {
        return Ok(());
    };
    let [unwind, more @ ..] = unwinds else {
        return Ok(());
    };
    put_frame(out, at, e.code_bytes().len() as u32, *unwind)?;
    put_frames(out, at + 80, later, more)
}

/// Appends the relocation of an entry at an offset, for the code at an offset of section 1.
#[tactic(auto, unfolding(crate::specs::Frames::relocation_bytes))]
fn put_relocation(out: &mut Vec<u8>, at: usize, code: usize) -> Result<(), AllocError>
    requires { at < 2 ^ 31 }
    ensures { OnOk result (out.new.items ≡ out.old.items ++ relocation_bytes at code) }
{
    put(
        out,
        &[
            // r_offset, r_info, r_addend
            Number::Xword((at + 8) as u64),
            Number::Word(2),
            Number::Word(1),
            Number::Xword(code as u64),
        ],
    )
}

/// Appends the relocations of functions, whose codes follow an offset of section 1.
#[tactic(auto, unfolding(crate::specs::Frames::relocations_from))]
fn put_relocations(
    out: &mut Vec<u8>,
    at: usize,
    code: usize,
    entries: &[ElfEntry],
) -> Result<(), AllocError>
    requires frames { at + 80 * length entries.now < 2 ^ 31 }
    requires codes { code + 1048592 * length entries.now < 2 ^ 31 }
    ensures { OnOk result (out.new.items ≡ out.old.items ++ relocations_from at code entries.now) }
{
    let [e, later @ ..] = entries else {
        return Ok(());
    };
    let start = code + gap(16, code);
    put_relocation(out, at, start)?;
    put_relocations(out, at + 80, start + e.code_bytes().len(), later)
}

/// The contents of .eh_frame.
pub fn frame_part(
    alloc: Global,
    entries: &[ElfEntry],
    unwinds: &[Option<Unwind>],
) -> Result<Vec<u8>, AllocError>
    requires { length entries.now ≤ 65 }
    ensures { IfOk result (λ v. v.items ≡ frame_part entries.now unwinds.now) }
{
    let mut out = Vec::new(alloc);
    put_common_entry(&mut out)?;
    put_frames(&mut out, 24, entries, unwinds)?;
    Ok(out)
}

/// The contents of .rela.eh_frame.
pub fn relocation_part(alloc: Global, entries: &[ElfEntry]) -> Result<Vec<u8>, AllocError>
    requires { length entries.now ≤ 65 }
    ensures { IfOk result (λ v. v.items ≡ relocation_part entries.now) }
{
    let mut out = Vec::new(alloc);
    put_relocations(&mut out, 24, 0, entries)?;
    Ok(out)
}
