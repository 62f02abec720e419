//! Writing an object.

ghost use Rattle.std.specs.Prelude.{◌≡◌, ◌+◌, ◌*◌, ◌-◌, ◌%◌, ◌<◌, ◌≤◌, ◌^◌, ◌++◌, ◌∷◌, [], length, replicate, IfOk, OnOk};
ghost use Rattle.std.specs.Int.{w16, w32, w64, to_le_bytes};
ghost use Rattle.orc_elf.specs.Entries.{IsElf, IsEntry, AreEntries};
ghost use Rattle.orc_elf.specs.Sections.{null, text, symtab, strtab};
ghost use Rattle.orc_elf.specs.Fields.{ElfGives};
ghost use Rattle.orc_elf.specs.Layout.{gap, aligned, padded, spelling, codes_from, symbol_bytes, symbols_from, names_from};
ghost use Rattle.orc_elf.specs.Layout.{code_part, symbol_part, name_part, contents_part, section_names, places};
ghost use Rattle.orc_elf.specs.Layout.{places_of, file_header, header_bytes, headers_part, headers_of, assembled, object_bytes};

use crate::elf::{ElfCode, ElfEntry};
use crate::number::{Number, put_number};
use crate::section::{NULL, Place, Places, STRTAB, SYMTAB, SectionHeader, SectionKind, TEXT};
use std::alloc::{AllocError, Global};

/// The names of the sections.
const SECTION_NAMES: &[u8] = b"\0.text\0.symtab\0.strtab\0.shstrtab\0";

/// How far it is from an offset to the next multiple.
#[tactic(auto, unfolding(crate::specs::Layout::gap))]
pub fn gap(multiple: usize, at: usize) -> usize
    requires { (0 < multiple) × (multiple ≤ 16) }
    ensures gap { result ≡ gap multiple at }
    ensures small { result < multiple }
{
    (multiple - at % multiple) % multiple
}

/// Appends a byte up to the next multiple of a number of bytes.
fn pad(out: &mut Vec<u8>, multiple: usize, byte: u8) -> Result<(), AllocError>
    requires { (0 < multiple) × (multiple ≤ 16) }
    ensures { OnOk result (out.new.items ≡ out.old.items ++ replicate (gap multiple (length out.old.items)) byte) }
{
    let n = gap(multiple, out.len());
    out.extend_from_slice(&[byte; 16][..n])
}

/// Appends numbers, lowest byte first.
pub fn put(out: &mut Vec<u8>, numbers: &[Number]) -> Result<(), AllocError>
    ensures { OnOk result (out.new.items ≡ out.old.items ++ spelling numbers.now) }
{
    for n in numbers {
        put_number(out, *n)?;
    }
    Ok(())
}

/// Appends the file header, where so many section headers stand at this offset (System V gABI, chapter 4, "ELF Header",
/// Elf64_Ehdr).
#[tactic(auto, unfolding(crate::specs::Layout::file_header))]
fn put_file_header(out: &mut Vec<u8>, headers: usize, count: u16) -> Result<(), AllocError>
    ensures { OnOk result (out.new.items ≡ out.old.items ++ file_header headers count) }
{
    put(
        out,
        &[
            // e_ident
            Number::Word(0x464c_457f),
            Number::Byte(2),
            Number::Byte(1),
            Number::Byte(1),
            Number::Xword(0),
            Number::Byte(0),
            // e_type, e_machine, e_version
            Number::Half(1),
            Number::Half(62),
            Number::Word(1),
            // e_entry, e_phoff, e_shoff
            Number::Xword(0),
            Number::Xword(0),
            Number::Xword(headers as u64),
            // e_flags, e_ehsize, e_phentsize, e_phnum, e_shentsize, e_shnum, e_shstrndx
            Number::Word(0),
            Number::Half(64),
            Number::Half(0),
            Number::Half(0),
            Number::Half(64),
            Number::Half(count),
            Number::Half(4),
        ],
    )
}

/// Appends a section header (System V gABI, chapter 4, "Sections", Elf64_Shdr).
#[tactic(auto, unfolding(crate::specs::Layout::header_bytes))]
fn put_header(out: &mut Vec<u8>, header: &SectionHeader) -> Result<(), AllocError>
    ensures { OnOk result (out.new.items ≡ out.old.items ++ header_bytes header.now) }
{
    let SectionHeader { kind, name, place } = *header;
    put(
        out,
        &[
            // sh_name, sh_type, sh_flags, sh_addr
            Number::Word(name),
            Number::Word(kind.kind),
            Number::Xword(kind.flags),
            Number::Xword(0),
            // sh_offset, sh_size
            Number::Xword(place.offset as u64),
            Number::Xword(place.size as u64),
            // sh_link, sh_info, sh_addralign, sh_entsize
            Number::Word(kind.link),
            Number::Word(kind.info),
            Number::Xword(kind.align),
            Number::Xword(kind.entry_size),
        ],
    )
}

/// Appends a symbol of section 1 (System V gABI, chapter 4, "Symbol Table", Elf64_Sym), where `info` is its st_info.
#[tactic(auto, unfolding(crate::specs::Layout::symbol_bytes))]
pub fn put_symbol(
    out: &mut Vec<u8>,
    info: u8,
    name: u32,
    value: usize,
    size: usize,
) -> Result<(), AllocError>
    ensures { OnOk result (out.new.items ≡ out.old.items ++ symbol_bytes info name value size) }
{
    put(
        out,
        &[
            // st_name, st_info, st_other, st_shndx
            Number::Word(name),
            Number::Byte(info),
            Number::Byte(0),
            Number::Half(1),
            // st_value, st_size
            Number::Xword(value as u64),
            Number::Xword(size as u64),
        ],
    )
}

/// The contents of section 1: the codes, each at a multiple of 16.
pub fn code_part(alloc: Global, entries: &[ElfEntry]) -> Result<Vec<u8>, AllocError>
    ensures { IfOk result (λ v. v.items ≡ code_part entries.now) }
{
    let mut out = Vec::new(alloc);
    for e in entries {
        pad(&mut out, 16, 0xcc)?;
        out.extend_from_slice(e.code_bytes())?;
    }
    Ok(out)
}

/// Appends the symbols of functions: STB_GLOBAL and STT_FUNC.
pub fn put_symbols(out: &mut Vec<u8>, entries: &[ElfEntry]) -> Result<(), AllocError>
    requires { length entries.now ≤ 65 }
    ensures { OnOk result (out.new.items ≡ out.old.items ++ symbols_from 1 0 entries.now) }
{
    let mut name = 1;
    let mut at = 0;
    for e in entries {
        at += gap(16, at);
        let size = e.code_bytes().len();
        put_symbol(out, 0x12, name, at, size)?;
        name += e.name_bytes().len() as u32 + 1;
        at += size;
    }
    Ok(())
}

/// The contents of section 2: the symbols, behind STN_UNDEF.
fn symbol_part(alloc: Global, entries: &[ElfEntry]) -> Result<Vec<u8>, AllocError>
    requires { length entries.now ≤ 64 }
    ensures { IfOk result (λ v. v.items ≡ symbol_part entries.now) }
{
    let mut out = Vec::from_slice(alloc, &[0; 24])?;
    put_symbols(&mut out, entries)?;
    Ok(out)
}

/// The contents of section 3: the names.
pub fn name_part(alloc: Global, entries: &[ElfEntry]) -> Result<Vec<u8>, AllocError>
    ensures { IfOk result (λ v. v.items ≡ name_part entries.now) }
{
    let mut out = Vec::new(alloc);
    out.push(0)?;
    for e in entries {
        out.extend_from_slice(e.name_bytes())?;
        out.push(0)?;
    }
    Ok(out)
}

/// The contents of sections 1 to 4, one after the other.
pub fn contents_part(
    alloc: Global,
    code: &[u8],
    symbols: &[u8],
    names: &[u8],
    section_names: &[u8],
) -> Result<Vec<u8>, AllocError>
    ensures { IfOk result (λ v. v.items ≡ contents_part code.now symbols.now names.now section_names.now) }
{
    let mut out = Vec::from_slice(alloc, code)?;
    pad(&mut out, 8, 0)?;
    out.extend_from_slice(symbols)?;
    out.extend_from_slice(names)?;
    out.extend_from_slice(section_names)?;
    pad(&mut out, 8, 0)?;
    Ok(out)
}

/// Where the contents of sections 1 to 4 stand, where they have these sizes.
#[tactic(auto, unfolding(crate::specs::Layout::places))]
pub fn places(code: usize, symbols: usize, names: usize, section_names: usize) -> Places
    requires code_in { code < 2 ^ 28 }
    requires symbols_in { symbols < 2 ^ 12 }
    requires names_in { names < 2 ^ 13 }
    ensures places { result ≡ places code symbols names section_names }
    ensures low { result.section_names.offset < 2 ^ 30 }
{
    let symbols_at = 64 + code + gap(8, code);
    let names_at = symbols_at + symbols;
    Places {
        code: Place {
            offset: 64,
            size: code,
        },
        symbols: Place {
            offset: symbols_at,
            size: symbols,
        },
        names: Place {
            offset: names_at,
            size: names,
        },
        section_names: Place {
            offset: names_at + names,
            size: section_names,
        },
    }
}

/// A section's header.
pub fn header(kind: SectionKind, name: u32, place: Place) -> SectionHeader
    ensures { result ≡ record { kind = kind; name = name; place = place } }
{
    SectionHeader { kind, name, place }
}

/// The headers of sections 0 to 4, where section 2 is of this kind.
pub fn headers_of(symbols: SectionKind, p: &Places) -> [SectionHeader; 5]
    ensures { result ≡ headers_of symbols p.now }
{
    [
        header(NULL, 0, Place { offset: 0, size: 0 }),
        header(TEXT, 1, p.code),
        header(symbols, 7, p.symbols),
        header(STRTAB, 15, p.names),
        header(STRTAB, 23, p.section_names),
    ]
}

/// An object whose sections have these contents, one after the other, and these headers.
#[tactic(auto, unfolding(crate::specs::Layout::assembled))]
pub fn assemble(
    alloc: Global,
    contents: &[u8],
    headers: &[SectionHeader],
) -> Result<Vec<u8>, AllocError>
    requires { length headers.now < 2 ^ 16 }
    ensures { IfOk result (λ v. v.items ≡ assembled contents.now headers.now) }
{
    let mut out = Vec::new(alloc);
    put_file_header(&mut out, 64 + contents.len(), headers.len() as u16)?;
    out.extend_from_slice(contents)?;
    for header in headers {
        put_header(&mut out, header)?;
    }
    Ok(out)
}

/// An object whose sections 1 to 3 have these contents.
fn assemble_parts(
    alloc: Global,
    code: &[u8],
    symbols: &[u8],
    names: &[u8],
) -> Result<Vec<u8>, AllocError>
    requires code_in { length code.now < 2 ^ 28 }
    requires symbols_in { length symbols.now < 2 ^ 12 }
    requires names_in { length names.now < 2 ^ 13 }
    ensures { IfOk result (λ v. v.items ≡ assembled (contents_part code.now symbols.now names.now section_names)
        (headers_of symtab (places (length code.now) (length symbols.now) (length names.now) 33))) }
{
    let p = places(code.len(), symbols.len(), names.len(), SECTION_NAMES.len());
    let contents = contents_part(alloc, code, symbols, names, SECTION_NAMES)?;
    assemble(alloc, contents.as_slice(), &headers_of(SYMTAB, &p))
}

/// The bytes of an ELF64 relocatable object for x86-64 with these functions, each a global symbol of its name (System V
/// gABI, chapter 4).
///
/// # Errors
///
/// Where memory is wanting.
pub fn write_elf(alloc: Global, e: &ElfCode) -> Result<Vec<u8>, AllocError>
    // They are the parts, one after the other.
    ensures layout { IfOk result (λ v. v.items ≡ object_bytes e.now) }
    // They are an object with these functions.
    ensures gives { IfOk result (λ v. ElfGives v.items e.now.entries) }
{
    let _ = e.len();
    let entries = e.entries.as_slice();
    let code = code_part(alloc, entries)?;
    let symbols = symbol_part(alloc, entries)?;
    let names = name_part(alloc, entries)?;
    assemble_parts(alloc, code.as_slice(), symbols.as_slice(), names.as_slice())
}
