//! Reading an object.

ghost use Rattle.std.specs.Prelude.{◌≡◌, ◌==◌, ◌+◌, ◌<◌, ◌≤◌, ◌^◌, ℕ, List, [], Some, Ok, true, false};
ghost use Rattle.std.specs.Prelude.{length, position, option_map, IfOk, IfSome, is_some};
ghost use Rattle.orc_elf.specs.Entries.{EntryValue, names, is_among};
ghost use Rattle.orc_elf.specs.Sections.{symtab};
ghost use Rattle.orc_elf.specs.Fields.{part, number_at, is_size, offset_of, contents, count_of, string_at, name_of};
ghost use Rattle.orc_elf.specs.Fields.{word_of, is_new, is_code_size, symbol, symbols, insides, entry_at, entries_at};
ghost use Rattle.orc_elf.specs.Fields.{refused, first_refused, first_bad_field, ElfGives, OneObject};
ghost use Rattle.orc_elf.specs.Told.{refusal_in, UnlessMemory, IsPlace, Knows};

use crate::elf::{ElfCode, ElfEntry};
use crate::error::ElfError;
use crate::field::{exact, number_at, part, up_to, zeros};
use crate::header::{file_kind, file_sizes, headers, identification};
use crate::section::Places;
use orc_program::Name;
use sqlite_items::Items;
use std::alloc::Global;

/// What the symbols need of the sections.
#[derive(Clone, Copy)]
struct Sections<'t> {
    code: &'t [u8],
    names: &'t [u8],
    /// The offset of the first symbol.
    first: usize,
    /// How many symbols follow it.
    count: usize,
}

/// What a symbol tells of.
#[derive(Drop)]
struct Symbol<'t> {
    name: Name,
    code: &'t [u8],
}

/// The contents of the sections, and the first symbol.
#[tactic(auto, unfolding(crate::specs::Fields::insides))]
fn insides<'t>(bytes: &'t [u8], places: &Places) -> Result<Sections<'t>, ElfError>
    requires code { IsPlace bytes.now 1 places.now.code.offset places.now.code.size }
    requires symbols { IsPlace bytes.now 2 places.now.symbols.offset places.now.symbols.size }
    requires some { is_size symtab places.now.symbols.size ≡ true }
    requires names { IsPlace bytes.now 3 places.now.names.offset places.now.names.size }
    requires section_names { IsPlace bytes.now 4 places.now.section_names.offset places.now.section_names.size }
    ensures told { refusal_in result ≡ first_refused bytes.now (insides bytes.now) }
    ensures knows { IfOk result (λ s. Knows bytes.now s.code.now s.names.now s.first s.count) }
{
    let code = part(bytes, places.code.offset, places.code.size)?;
    part(bytes, places.symbols.offset, places.symbols.size)?;
    let names = part(bytes, places.names.offset, places.names.size)?;
    part(
        bytes,
        places.section_names.offset,
        places.section_names.size,
    )?;
    zeros(bytes, places.symbols.offset, 24)?;
    Ok(Sections {
        code,
        names,
        first: places.symbols.offset,
        count: places.symbols.size / 24 - 1,
    })
}

/// The place of the first byte 0.
fn end_of_name(text: &[u8]) -> Option<usize>
    ensures { result ≡ position (λ b. b == 0) text.now }
{
    text.iter().position(|b| *b == 0)
}

/// The bytes from an offset of the names on, up to a byte 0.
fn string_at(names: &[u8], n: usize) -> Option<&[u8]>
    ensures { option_map (λ w. w.now) result ≡ string_at names.now n }
{
    if names.len() < n {
        return None;
    }
    let (_, rest) = names.split_at(n);
    match end_of_name(rest) {
        Some(end) => Some(&rest[..end]),
        None => None,
    }
}

/// A word as a name that no function has so far.
fn new_name(word: &[u8], seen: &ElfCode) -> Option<Name>
    ensures found { is_some result ≡ is_new (names seen.now.entries) (Some word.now) }
    ensures value { IfSome result (λ w. (w ≡ word.now) × (is_among (names seen.now.entries) w ≡ false)) }
{
    if seen.contains(word) {
        None
    } else {
        Name::new(word)
    }
}

/// st_name: the name of the symbol at an offset, which no function has so far.
#[tactic(auto, unfolding(crate::specs::Fields::refused, crate::specs::Fields::name_of))]
fn symbol_name(bytes: &[u8], strings: &[u8], at: usize, seen: &ElfCode) -> Result<Name, ElfError>
    requires at_in { at < 2 ^ 34 }
    requires section_3 { strings.now ≡ contents bytes.now 3 }
    ensures told { refusal_in result ≡ refused bytes.now
        (record { at = at; size = 4; allowed = is_new (names seen.now.entries) (name_of bytes.now at) }) }
    ensures value { IfOk result (λ w. (w ≡ word_of (name_of bytes.now at)) × (is_among (names seen.now.entries) w ≡ false)) }
{
    let n = number_at(bytes, at, 4)?;
    let Some(word) = string_at(strings, n as usize) else {
        return Err(ElfError::BadField { at: at as u64 });
    };
    match new_name(word, seen) {
        Some(name) => Ok(name),
        None => Err(ElfError::BadField { at: at as u64 }),
    }
}

/// st_size: the size of code from an offset of section 1 on, which has so many bytes.
#[tactic(auto, unfolding(crate::specs::Fields::refused))]
fn code_size(bytes: &[u8], at: usize, whole: u64, value: u64) -> Result<u64, ElfError>
    requires at_in { at < 2 ^ 34 }
    requires small { value < 2 ^ 32 }
    ensures told { refusal_in result ≡ refused bytes.now
        (record { at = at; size = 8; allowed = is_code_size whole value (number_at bytes.now at 8) }) }
    ensures found { IfOk result (λ n. n ≡ number_at bytes.now at 8) }
    ensures in_range { IfOk result (λ n. (1 ≤ n) × (n ≤ 1048576) × (value + n ≤ whole)) }
{
    let n = number_at(bytes, at, 8)?;
    if 1 <= n && n <= 1_048_576 && value + n <= whole {
        Ok(n)
    } else {
        Err(ElfError::BadField { at: at as u64 })
    }
}

/// The symbol at an offset, after those of some functions.
#[tactic(auto, unfolding(crate::specs::Fields::symbol))]
fn read_symbol<'t>(
    bytes: &'t [u8],
    sections: &Sections<'t>,
    at: usize,
    seen: &ElfCode,
) -> Result<Symbol<'t>, ElfError>
    requires at_in { at < 2 ^ 33 }
    requires knows { Knows bytes.now sections.now.code.now sections.now.names.now sections.now.first sections.now.count }
    ensures told { refusal_in result ≡ first_refused bytes.now (symbol bytes.now (names seen.now.entries) at) }
    ensures name { IfOk result (λ s. (s.name ≡ word_of (name_of bytes.now at))
        × (is_among (names seen.now.entries) s.name ≡ false)) }
    ensures code { IfOk result (λ s. s.code.now ≡ part (contents bytes.now 1) (number_at bytes.now (at + 8) 8)
        (number_at bytes.now (at + 16) 8)) }
    ensures size { IfOk result (λ s. (1 ≤ length s.code.now) × (length s.code.now ≤ 1048576)) }
{
    exact(bytes, at + 4, 1, 0x12)?; // st_info
    exact(bytes, at + 5, 1, 0)?; // st_other
    exact(bytes, at + 6, 2, 1)?; // st_shndx
    let whole = sections.code.len() as u64;
    let value = up_to(bytes, at + 8, 8, whole)?;
    let size = code_size(bytes, at + 16, whole, value)?;
    let name = symbol_name(bytes, sections.names, at, seen)?;
    let (_, rest) = sections.code.split_at(value as usize);
    let (code, _) = rest.split_at(size as usize);
    Ok(Symbol { name, code })
}

/// The function that the symbol at an offset tells of, after some functions.
#[tactic(auto, using(crate::proofs::Unless::unless))]
fn read_entry(
    alloc: Global,
    bytes: &[u8],
    sections: &Sections,
    at: usize,
    seen: &ElfCode,
) -> Result<ElfEntry, ElfError>
    requires at_in { at < 2 ^ 33 }
    requires knows { Knows bytes.now sections.now.code.now sections.now.names.now sections.now.first sections.now.count }
    ensures told { UnlessMemory result
        (refusal_in result ≡ first_refused bytes.now (symbol bytes.now (names seen.now.entries) at)) }
    ensures entry { IfOk result (λ e. e ≡ entry_at bytes.now at) }
    ensures new { IfOk result (λ e. is_among (names seen.now.entries) e.name ≡ false) }
{
    let symbol = read_symbol(bytes, sections, at, seen)?;
    match Items::from_slice(alloc, symbol.code) {
        Ok(code) => Ok(ElfEntry {
            name: symbol.name,
            code,
        }),
        Err(_) => Err(ElfError::Memory),
    }
}

/// The functions of the symbols.
fn read_entries(alloc: Global, bytes: &[u8], sections: &Sections) -> Result<ElfCode, ElfError>
    requires { Knows bytes.now sections.now.code.now sections.now.names.now sections.now.first sections.now.count }
    ensures told { UnlessMemory result
        (refusal_in result ≡ first_refused bytes.now (symbols bytes.now [] (sections.now.first + 24) sections.now.count)) }
    ensures entries { IfOk result (λ e. e.entries ≡ entries_at bytes.now (sections.now.first + 24) sections.now.count) }
{
    let count = sections.count;
    let mut found = ElfCode::new(alloc);
    let mut at = sections.first + 24;
    for _ in 0..count {
        let entry = read_entry(alloc, bytes, sections, at, &found)?;
        if found.push(entry).is_err() {
            return Err(ElfError::Memory);
        }
        at += 24;
    }
    Ok(found)
}

/// All fields of an object, and its functions.
#[tactic(auto, using(crate::proofs::Unless::unless, crate::proofs::Refusals::refused_append), unfolding(crate::specs::Fields::fields))]
fn read_object(alloc: Global, bytes: &[u8]) -> Result<ElfCode, ElfError>
    ensures told { UnlessMemory result (refusal_in result ≡ first_bad_field bytes.now) }
    ensures entries { IfOk result (λ e. e.entries ≡ entries_at bytes.now (offset_of bytes.now 2 + 24) (count_of bytes.now)) }
{
    identification(bytes)?;
    file_kind(bytes)?;
    let at = file_sizes(bytes)?;
    let places = headers(bytes, at)?;
    let sections = insides(bytes, &places)?;
    read_entries(alloc, bytes, &sections)
}

/// The functions of the ELF64 relocatable object for x86-64 that the bytes are (System V gABI, chapter 4), in the order
/// of their symbols.
///
/// # Errors
///
/// The first field, in the order of tests, that is not all there (`Short`) or not allowed (`BadField`); `Memory` where
/// memory is wanting.
#[tactic(auto, using(crate::proofs::Refusals::good_none, crate::proofs::Refusals::none_good))]
pub fn read_elf(alloc: Global, bytes: &[u8]) -> Result<ElfCode, ElfError>
    // The bytes are an object with what is read.
    ensures found { IfOk result (λ e. ElfGives bytes.now e.entries) }
    // What the bytes are an object with is read, unless memory runs out.
    ensures only { (es : List EntryValue) → ElfGives bytes.now es
        → UnlessMemory result (result ≡ Ok (record { entries = es })) }
    // A refusal is that of the first field that isn't all there or isn't allowed, unless memory runs out.
    ensures refused { UnlessMemory result (refusal_in result ≡ first_bad_field bytes.now) }
{
    read_object(alloc, bytes)
}

/// The law of one object: bytes are an object with one list of functions.
pub fn one_object()
    ensures { OneObject }
{}
