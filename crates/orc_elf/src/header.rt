//! Reading the headers of an object.

ghost use Rattle.std.specs.Prelude.{◌≡◌, ◌+◌, ◌<◌, ◌^◌, true, IfOk};
ghost use Rattle.orc_elf.specs.Sections.{text, symtab, strtab};
ghost use Rattle.orc_elf.specs.Fields.{number_at, identification, file_kind, file_sizes, null_header};
ghost use Rattle.orc_elf.specs.Fields.{section_header, is_size, headers, headers_at, refused, first_refused};
ghost use Rattle.orc_elf.specs.Told.{refusal_in, IsPlace};

use crate::error::ElfError;
use crate::field::{exact, number_at, part, up_to, zeros};
use crate::section::{Place, Places, STRTAB, SYMTAB, SectionKind, TEXT};

/// The greatest offset and size of a section.
const MOST: u64 = 0xffff_ffff;

/// e_ident.
#[tactic(auto, unfolding(crate::specs::Fields::identification))]
pub fn identification(bytes: &[u8]) -> Result<(), ElfError>
    ensures { refusal_in result ≡ first_refused bytes.now (identification bytes.now) }
{
    exact(bytes, 0, 4, 0x464c_457f)?; // EI_MAG0 to EI_MAG3
    exact(bytes, 4, 1, 2)?; // EI_CLASS
    exact(bytes, 5, 1, 1)?; // EI_DATA
    exact(bytes, 6, 1, 1)?; // EI_VERSION
    zeros(bytes, 7, 9) // EI_OSABI, EI_ABIVERSION, EI_PAD
}

/// e_type to e_phoff.
#[tactic(auto, unfolding(crate::specs::Fields::file_kind))]
pub fn file_kind(bytes: &[u8]) -> Result<(), ElfError>
    ensures { refusal_in result ≡ first_refused bytes.now (file_kind bytes.now) }
{
    exact(bytes, 16, 2, 1)?; // e_type
    exact(bytes, 18, 2, 62)?; // e_machine
    exact(bytes, 20, 4, 1)?; // e_version
    exact(bytes, 24, 8, 0)?; // e_entry
    exact(bytes, 32, 8, 0) // e_phoff
}

/// e_shoff to e_shstrndx: where the section headers stand.
#[tactic(auto, unfolding(crate::specs::Fields::file_sizes))]
pub fn file_sizes(bytes: &[u8]) -> Result<usize, ElfError>
    ensures told { refusal_in result ≡ first_refused bytes.now (file_sizes 5 bytes.now) }
    ensures value { IfOk result (λ x. (x ≡ headers_at bytes.now) × (x < 2 ^ 32)) }
{
    let shoff = up_to(bytes, 40, 8, MOST)?;
    exact(bytes, 48, 4, 0)?; // e_flags
    exact(bytes, 52, 2, 64)?; // e_ehsize
    exact(bytes, 54, 2, 0)?; // e_phentsize
    exact(bytes, 56, 2, 0)?; // e_phnum
    exact(bytes, 58, 2, 64)?; // e_shentsize
    exact(bytes, 60, 2, 5)?; // e_shnum
    exact(bytes, 62, 2, 4)?; // e_shstrndx
    Ok(shoff as usize)
}

/// The header of section 0.
#[tactic(auto, unfolding(crate::specs::Fields::null_header))]
fn null_header(bytes: &[u8], at: usize) -> Result<(), ElfError>
    requires { at < 2 ^ 33 }
    ensures { refusal_in result ≡ first_refused bytes.now (null_header bytes.now at) }
{
    exact(bytes, at, 4, 0)?; // sh_name
    exact(bytes, at + 4, 4, 0)?; // sh_type
    exact(bytes, at + 8, 8, 0)?; // sh_flags
    exact(bytes, at + 16, 8, 0)?; // sh_addr
    exact(bytes, at + 24, 8, 0)?; // sh_offset
    exact(bytes, at + 32, 8, 0)?; // sh_size
    exact(bytes, at + 40, 4, 0)?; // sh_link
    exact(bytes, at + 44, 4, 0)?; // sh_info
    exact(bytes, at + 48, 8, 0)?; // sh_addralign
    exact(bytes, at + 56, 8, 0) // sh_entsize
}

/// Whether a section of this kind may have this size.
fn is_size(kind: &SectionKind, n: u64) -> bool
    ensures { result ≡ is_size kind.now n }
{
    if kind.entry_size == 24 {
        n % 24 == 0 && 24 <= n && n <= 1560
    } else {
        n <= MOST
    }
}

/// sh_size.
#[tactic(auto, unfolding(crate::specs::Fields::refused))]
fn section_size(bytes: &[u8], kind: &SectionKind, at: usize) -> Result<u64, ElfError>
    requires { at < 2 ^ 34 }
    ensures told { refusal_in result ≡ refused bytes.now
        (record { at = at; size = 8; allowed = is_size kind.now (number_at bytes.now at 8) }) }
    ensures value { IfOk result (λ x. (x ≡ number_at bytes.now at 8) × (is_size kind.now x ≡ true) × (x < 2 ^ 32)) }
{
    let n = number_at(bytes, at, 8)?;
    if is_size(kind, n) {
        Ok(n)
    } else {
        Err(ElfError::BadField { at: at as u64 })
    }
}

/// The header of a section of this kind.
#[tactic(auto, unfolding(crate::specs::Fields::section_header))]
fn section_header(bytes: &[u8], kind: &SectionKind, at: usize) -> Result<Place, ElfError>
    requires { at < 2 ^ 33 }
    ensures told { refusal_in result ≡ first_refused bytes.now (section_header bytes.now kind.now at) }
    ensures place { IfOk result (λ p. (p.offset ≡ number_at bytes.now (at + 24) 8) × (p.offset < 2 ^ 32)) }
    ensures room { IfOk result (λ p. (p.size ≡ number_at bytes.now (at + 32) 8) × (is_size kind.now p.size ≡ true)
        × (p.size < 2 ^ 32)) }
{
    part(bytes, at, 4)?; // sh_name
    exact(bytes, at + 4, 4, u64::from(kind.kind))?; // sh_type
    exact(bytes, at + 8, 8, kind.flags)?; // sh_flags
    exact(bytes, at + 16, 8, 0)?; // sh_addr
    let offset = up_to(bytes, at + 24, 8, MOST)?;
    let size = section_size(bytes, kind, at + 32)?;
    exact(bytes, at + 40, 4, u64::from(kind.link))?; // sh_link
    exact(bytes, at + 44, 4, u64::from(kind.info))?; // sh_info
    exact(bytes, at + 48, 8, kind.align)?; // sh_addralign
    exact(bytes, at + 56, 8, kind.entry_size)?; // sh_entsize
    Ok(Place {
        offset: offset as usize,
        size: size as usize,
    })
}

/// The section headers.
#[tactic(auto, using(crate::proofs::Refusals::refused_append), unfolding(crate::specs::Fields::headers))]
pub fn headers(bytes: &[u8], at: usize) -> Result<Places, ElfError>
    requires at_in { at ≡ headers_at bytes.now }
    requires low { at < 2 ^ 32 }
    ensures told { refusal_in result ≡ first_refused bytes.now (headers bytes.now) }
    ensures code { IfOk result (λ p. IsPlace bytes.now 1 p.code.offset p.code.size) }
    ensures symbols { IfOk result (λ p. IsPlace bytes.now 2 p.symbols.offset p.symbols.size
        × (is_size symtab p.symbols.size ≡ true)) }
    ensures names { IfOk result (λ p. IsPlace bytes.now 3 p.names.offset p.names.size) }
    ensures section_names { IfOk result (λ p. IsPlace bytes.now 4 p.section_names.offset p.section_names.size) }
{
    null_header(bytes, at)?;
    let code = section_header(bytes, &TEXT, at + 64)?;
    let symbols = section_header(bytes, &SYMTAB, at + 128)?;
    let names = section_header(bytes, &STRTAB, at + 192)?;
    let section_names = section_header(bytes, &STRTAB, at + 256)?;
    Ok(Places {
        code,
        symbols,
        names,
        section_names,
    })
}
