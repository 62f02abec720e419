//! Writing the object of a library.

ghost use Rattle.std.specs.Prelude.{◌≡◌, ◌+◌, ◌<◌, ◌≤◌, ◌^◌, ◌++◌, ◌∷◌, [], length, replicate, IfOk, OnOk};
ghost use Rattle.orc_elf.specs.Sections.{null, text, strtab, library_symtab, no_stack, eh_frame, rela_eh_frame};
ghost use Rattle.orc_elf.specs.Entries.{IsEntry, AreEntries};
ghost use Rattle.orc_elf.specs.Layout.{aligned, symbol_bytes, symbols_from, code_part, name_part, contents_part, places};
ghost use Rattle.orc_elf.specs.Layout.{headers_of, assembled};
ghost use Rattle.orc_elf.specs.Library.{IsLibrary, local_symbols, library_symbol_part, library_section_names, end_of};
ghost use Rattle.orc_elf.specs.Library.{more_headers, library_parts, library_bytes};
ghost use Rattle.orc_elf.specs.Frames.{frame_part, relocation_part};
ghost use Rattle.orc_elf.specs.LibraryFields.{LibraryGives};

use crate::elf::ElfEntry;
use crate::frames::{frame_part, relocation_part};
use crate::library::Library;
use crate::section::{
    EH_FRAME, LIBRARY_SYMTAB, NO_STACK, Place, Places, RELA_EH_FRAME, SectionHeader,
};
use crate::writing::{
    assemble, code_part, contents_part, gap, header, headers_of, name_part, places, put_symbol,
    put_symbols,
};
use std::alloc::{AllocError, Global};

/// The names of the sections.
const SECTION_NAMES: &[u8] =
    b"\0.text\0.symtab\0.strtab\0.shstrtab\0.note.GNU-stack\0.eh_frame\0.rela.eh_frame\0";

/// The contents of section 2: STN_UNDEF, the symbol of section 1, and those of the functions.
fn symbol_part(alloc: Global, entries: &[ElfEntry]) -> Result<Vec<u8>, AllocError>
    requires { length entries.now ≤ 65 }
    ensures { IfOk result (λ v. v.items ≡ library_symbol_part entries.now) }
{
    let mut out = Vec::from_slice(alloc, &[0; 24])?;
    put_symbol(&mut out, 0x03, 0, 0, 0)?;
    put_symbols(&mut out, entries)?;
    Ok(out)
}

/// The headers of the sections behind section 4, of which the last two have so many bytes.
fn more_headers(p: &Places, frames: usize, relocations: usize) -> [SectionHeader; 3]
    requires names { p.now.section_names.offset + p.now.section_names.size < 2 ^ 32 }
    requires frames { frames < 2 ^ 32 }
    ensures { result ≡ more_headers p.now frames relocations }
{
    let names_end = p.section_names.offset + p.section_names.size;
    let end = names_end + gap(8, names_end);
    [
        header(
            NO_STACK,
            33,
            Place {
                offset: end,
                size: 0,
            },
        ),
        header(
            EH_FRAME,
            49,
            Place {
                offset: end,
                size: frames,
            },
        ),
        header(
            RELA_EH_FRAME,
            59,
            Place {
                offset: end + frames,
                size: relocations,
            },
        ),
    ]
}

/// An object with these contents.
#[tactic(auto, unfolding(crate::specs::Layout::places))]
fn assemble_library(
    alloc: Global,
    code: &[u8],
    symbols: &[u8],
    names: &[u8],
    frames: &[u8],
    relocations: &[u8],
) -> Result<Vec<u8>, AllocError>
    requires code_in { length code.now < 2 ^ 28 }
    requires symbols_in { length symbols.now < 2 ^ 12 }
    requires names_in { length names.now < 2 ^ 13 }
    requires frames_in { length frames.now < 2 ^ 13 }
    ensures { IfOk result (λ v. v.items ≡ library_parts code.now symbols.now names.now frames.now relocations.now) }
{
    let p = places(code.len(), symbols.len(), names.len(), SECTION_NAMES.len());
    let mut headers = Vec::from_slice(alloc, &headers_of(LIBRARY_SYMTAB, &p))?;
    headers.extend_from_slice(&more_headers(&p, frames.len(), relocations.len()))?;
    let mut contents = contents_part(alloc, code, symbols, names, SECTION_NAMES)?;
    contents.extend_from_slice(frames)?;
    contents.extend_from_slice(relocations)?;
    assemble(alloc, contents.as_slice(), headers.as_slice())
}

/// The bytes of an ELF64 relocatable object for x86-64 with these functions, each a global symbol of its name (System V
/// gABI, chapter 4), for linking with C: it says that no executable stack is wanted, and how each function's caller is
/// found while it runs (.eh_frame). Where the offsets of an `Unwind` are not in the order of its code, a distance
/// between rows there is 0.
///
/// # Errors
///
/// Where memory is wanting.
pub fn write_library(alloc: Global, e: &Library) -> Result<Vec<u8>, AllocError>
    // They are the parts, one after the other.
    ensures layout { IfOk result (λ v. v.items ≡ library_bytes e.now) }
    // They are an object with these functions.
    ensures gives { IfOk result (λ v. LibraryGives v.items e.now.entries) }
{
    let _ = e.len();
    let entries = e.entries.as_slice();
    let code = code_part(alloc, entries)?;
    let symbols = symbol_part(alloc, entries)?;
    let names = name_part(alloc, entries)?;
    let frames = frame_part(alloc, entries, e.unwinds.as_slice())?;
    let relocations = relocation_part(alloc, entries)?;
    assemble_library(
        alloc,
        code.as_slice(),
        symbols.as_slice(),
        names.as_slice(),
        frames.as_slice(),
        relocations.as_slice(),
    )
}
