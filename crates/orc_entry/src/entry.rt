//! A function's code between the lists of its entry.

ghost use Rattle.std.specs.Prelude.{◌≡◌, ◌≤◌, ◌++◌, ℕ, List, IfOk, OnOk, IfErr, None, length, true};
ghost use Rattle.orc_program.specs.Kept.{is_function};
ghost use Rattle.x86_ins.specs.declared.ins.Ins.TheVariants.{Ret};
ghost use Rattle.x86_ins.specs.Spelling.{spelling};
ghost use Rattle.orc_asm.specs.Function.{HasOnly, first_pressure, IsRefusal};
ghost use Rattle.orc_entry.specs.Entry.{EntersAs};
ghost use Rattle.orc_entry.specs.Whole.{HasBody, Surrounds};

use crate::lists::{entry_list, exit_list};
use orc_asm::{AsmError, assemble_for};
use orc_bits::Code;
use orc_ops::Target;
use orc_program::Function;
use sqlite_items::Items;
use std::alloc::{AllocError, Global};
use x86_flow::{put, put_list};
use x86_ins::Ins;

/// Code of a function that C calls by its prototype, and where in it the function's own code stands.
#[derive(Drop)]
pub struct EntryCode {
    /// The bytes.
    pub code: Code,
    /// How many bytes stand before the function's own code.
    pub body: usize,
    /// How many bytes stand before what is behind the function's own code.
    pub exit: usize,
}

/// A function's code, but for its return, between the lists, and a return.
fn around(alloc: Global, f: &Function, longs: &[bool], code: &[u8]) -> Result<EntryCode, AllocError>
    requires { 1 ≤ length code.now }
    ensures body { IfOk result (λ entry. (body : List ℕ) → code.now ≡ body ++ spelling Ret → HasBody f.now longs.now body entry) }
    ensures kept { OnOk result (is_function f.now ≡ true) }
{
    // What the type keeps of a function is known where the function is read.
    let _vars = f.vars.as_slice();
    let first = entry_list(alloc, f, longs)?;
    let last = exit_list(alloc, f)?;
    let mut bytes = Vec::new(alloc);
    put_list(&mut bytes, first.as_slice())?;
    let body = bytes.len();
    bytes.extend_from_slice(&code[..code.len() - 1])?;
    let exit = bytes.len();
    put_list(&mut bytes, last.as_slice())?;
    put(&mut bytes, &Ins::Ret)?;
    Ok(EntryCode {
        code: Items::from_vec(bytes),
        body,
        exit,
    })
}

/// Code of a function that C calls by its plain prototype. From each good call it returns as the function means, with each sum stored
/// where its pointer points; on the way it changes no byte but those of dests' cells, of accumulators' integers and of the stack below
/// the return word that is its own.
/// `longs` says of each parameter, in order of declaration, whether it is an integer of 64 bits; those behind its end are not.
/// The code is a list of instructions that makes an argument block out of the arguments, the function's code without its return, a list
/// that stores the sums, and a return. It is instructions of the target alone, and has 1 to 1,048,576 bytes.
/// A function is refused as by [`assemble_for`].
pub fn entry_for(
    alloc: Global,
    f: &Function,
    longs: &[bool],
    target: Target,
) -> Result<EntryCode, AsmError>
    ensures enters { IfOk result (λ entry. EntersAs f.now longs.now target entry.code) }
    ensures surrounds { IfOk result (λ entry. Surrounds f.now longs.now target entry) }
    ensures target { IfOk result (λ entry. HasOnly target entry.code) }
    ensures bytes { IfOk result (λ entry. (1 ≤ length entry.code) × (length entry.code ≤ 1048576)) }
    ensures inside { IfOk result (λ entry. (entry.body ≤ entry.exit) × (entry.exit ≤ length entry.code)) }
    ensures few { OnOk result (first_pressure f.now ≡ None) }
    ensures refusal { IfErr result (λ e. IsRefusal f.now e) }
{
    match assemble_for(alloc, f, target) {
        Ok(code) => match around(alloc, f, longs, code.as_slice()) {
            Ok(entry) => Ok(entry),
            Err(_) => Err(AsmError::Memory),
        },
        Err(e) => Err(e),
    }
}
