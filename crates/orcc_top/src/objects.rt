//! The object of a text.
ghost use Rattle.std.specs.Prelude.{◌≡◌, ◌≤◌, None, true, false, length, map, IfOk, OnOk, IfErr};
ghost use Rattle.orc_program.specs.Kept.{all_distinct};
ghost use Rattle.orc_asm.specs.Function.{first_pressure, IsRefusal};
ghost use Rattle.orcc_top.specs.Assembly.{first_pressure_in, TellsPressure};
ghost use Rattle.orcc_top.specs.Code.{HoldsObject};
ghost use Rattle.orc_text.specs.Each.{OneForEach};
ghost use Rattle.orcc_top.specs.Objects.{CompiledOf};

use orc_asm::{AsmError, assemble};
use orc_elf::{ElfCode, ElfEntry, write_elf};
use orc_program::{Function, Name};
use std::alloc::{AllocError, Global};

/// A function's entry in an object.
fn entry_of(alloc: Global, f: &Function) -> Result<ElfEntry, AsmError>
    ensures entry { IfOk result (λ entry. CompiledOf f.now entry) }
    ensures placed { OnOk result (first_pressure f.now ≡ None) }
    ensures refusal { IfErr result (λ e. IsRefusal f.now e) }
{
    let code = assemble(alloc, f)?;
    let Some(name) = Name::new(f.name.as_slice()) else {
        unreachable!();
    };
    Ok(ElfEntry { name, code })
}

/// The object of a program's functions.
fn object_of(alloc: Global, functions: &[Function]) -> Result<ElfCode, AsmError>
    requires few { length functions.now ≤ 64 }
    requires distinct { all_distinct (map (λ f. f.name) functions.now) ≡ true }
    ensures entries { IfOk result (λ object. OneForEach CompiledOf functions.now object.entries) }
    ensures placed { OnOk result (first_pressure_in functions.now ≡ None) }
    ensures pressure { IfErr result (λ e. TellsPressure (first_pressure_in functions.now) e) }
{
    let mut object = ElfCode::new(alloc);
    for f in functions {
        let entry = entry_of(alloc, f)?;
        if object.push(entry).is_err() {
            return Err(AsmError::Memory);
        }
    }
    Ok(object)
}

/// The bytes of the object of a program's functions.
pub fn object_bytes(alloc: Global, functions: &[Function]) -> Result<Vec<u8>, AsmError>
    requires few { length functions.now ≤ 64 }
    requires distinct { all_distinct (map (λ f. f.name) functions.now) ≡ true }
    ensures holds { IfOk result (λ bytes. HoldsObject functions.now bytes.items) }
    ensures placed { OnOk result (first_pressure_in functions.now ≡ None) }
    ensures pressure { IfErr result (λ e. TellsPressure (first_pressure_in functions.now) e) }
{
    let object = object_of(alloc, functions)?;
    match write_elf(alloc, &object) {
        Ok(bytes) => Ok(bytes),
        Err(AllocError) => Err(AsmError::Memory),
    }
}
