//! The object of a text whose functions C calls by their prototypes.
ghost use Rattle.std.specs.Prelude.{◌≡◌, ◌≤◌, ◌++◌, ◌∷◌, [], None, true, length, map, IfOk, OnOk, IfErr};
ghost use Rattle.orc_program.specs.Kept.{all_distinct};
ghost use Rattle.x86_ins.specs.declared.ins.Ins.TheVariants.{Ret};
ghost use Rattle.x86_ins.specs.Spelling.{spelling};
ghost use Rattle.orc_asm.specs.Function.{first_pressure};
ghost use Rattle.orc_elf.specs.Entries.{is_among, names};
ghost use Rattle.orc_text.specs.Each.{OneForEach};
ghost use Rattle.orcc_top.specs.Assembly.{first_pressure_in, TellsPressure};
ghost use Rattle.orcc_top.specs.Code.{HoldsLibrary};
ghost use Rattle.orcc_top.specs.Libraries.{EnteredOf, init_function};

use orc_asm::AsmError;
use orc_elf::{ElfEntry, Library, Unwind, write_library};
use orc_entry::entry_for;
use orc_ops::Target;
use orc_program::{Function, Name, Program};
use orc_prototype::long_params;
use sqlite_items::Items;
use std::alloc::{AllocError, Global};
use x86_flow::put;
use x86_ins::Ins;

/// A function of a library.
#[derive(Drop)]
struct Entered {
    /// Its name and its code.
    entry: ElfEntry,
    /// Where its code moves the stack pointer.
    unwind: Unwind,
}

/// The function of a library that a function of a text makes.
#[tactic(auto, using(crate::proofs::Entries::refusal_tells))]
fn entered_of(alloc: Global, text: &[u8], f: &Function, target: Target) -> Result<Entered, AsmError>
    ensures entered { IfOk result (λ entered. EnteredOf text.now target f.now entered.entry) }
    ensures placed { OnOk result (first_pressure f.now ≡ None) }
    ensures pressure { IfErr result (λ e. TellsPressure (first_pressure f.now) e) }
{
    let Ok(longs) = long_params(alloc, text, f.name.as_slice()) else {
        return Err(AsmError::Memory);
    };
    let code = entry_for(alloc, f, longs.as_slice(), target)?;
    let unwind = Unwind {
        body: code.body as u32,
        exit: code.exit as u32,
    };
    let Some(name) = Name::new(f.name.as_slice()) else {
        unreachable!();
    };
    let entry = ElfEntry {
        name,
        code: code.code,
    };
    Ok(Entered { entry, unwind })
}

/// The library of a text's functions.
fn library_of(
    alloc: Global,
    text: &[u8],
    functions: &[Function],
    target: Target,
) -> Result<Library, AsmError>
    requires few { length functions.now ≤ 64 }
    requires distinct { all_distinct (map (λ f. f.name) functions.now) ≡ true }
    ensures entries { IfOk result (λ library. OneForEach (EnteredOf text.now target) functions.now library.entries) }
    ensures placed { OnOk result (first_pressure_in functions.now ≡ None) }
    ensures pressure { IfErr result (λ e. TellsPressure (first_pressure_in functions.now) e) }
{
    let mut library = Library::new(alloc);
    for f in functions {
        let entered = entered_of(alloc, text, f, target)?;
        if library.push(entered.entry, Some(entered.unwind)).is_err() {
            return Err(AsmError::Memory);
        }
    }
    Ok(library)
}

/// A function that returns at once.
fn empty_function(alloc: Global, name: &Name) -> Result<ElfEntry, AllocError>
    ensures { IfOk result (λ entry. entry ≡ record { name = name.now; code = spelling Ret }) }
{
    let mut code = Vec::new(alloc);
    put(&mut code, &Ins::Ret)?;
    let Some(name) = Name::new(name.as_slice()) else {
        unreachable!();
    };
    Ok(ElfEntry {
        name,
        code: Items::from_vec(code),
    })
}

/// The library and behind its functions the one after `.init`, where none of them has its name.
fn with_init(alloc: Global, library: Library, name: &Option<Name>) -> Result<Library, AllocError>
    requires { length library.entries ≤ 64 }
    ensures { IfOk result (λ whole. whole.entries ≡ library.entries ++ init_function name.now (names library.entries)) }
{
    let mut whole = library;
    let Some(name) = name else {
        return Ok(whole);
    };
    if whole.contains(name.as_slice()) {
        return Ok(whole);
    }
    whole.push(empty_function(alloc, name)?, None)?;
    Ok(whole)
}

/// The bytes of the object of a program's functions for C, and of the function after `.init`; `text` is what reads as the program.
pub fn library_bytes(
    alloc: Global,
    text: &[u8],
    program: &Program,
    target: Target,
) -> Result<Vec<u8>, AsmError>
    requires few { length program.now.functions ≤ 64 }
    requires distinct { all_distinct (map (λ f. f.name) program.now.functions) ≡ true }
    ensures holds { IfOk result (λ bytes. HoldsLibrary text.now target program.now bytes.items) }
    ensures placed { OnOk result (first_pressure_in program.now.functions ≡ None) }
    ensures pressure { IfErr result (λ e. TellsPressure (first_pressure_in program.now.functions) e) }
{
    let library = library_of(alloc, text, program.functions.as_slice(), target)?;
    let Ok(whole) = with_init(alloc, library, &program.init) else {
        return Err(AsmError::Memory);
    };
    match write_library(alloc, &whole) {
        Ok(bytes) => Ok(bytes),
        Err(AllocError) => Err(AsmError::Memory),
    }
}
