//! Assembling a text.
ghost use Rattle.std.specs.Prelude.{◌≡◌, ◌≤◌, None, true, false, length, map, IfOk, OnOk, IfErr};
ghost use Rattle.std.specs.List.{list_all};
ghost use Rattle.orc_program.specs.Program.{count_of};
ghost use Rattle.orc_program.specs.Kept.{is_function, all_distinct, most_of};
ghost use Rattle.orc_program.specs.Facts.{facts_of, is_free};
ghost use Rattle.orc_image.specs.Spelling.{is_version};
ghost use Rattle.orc_asm.specs.Function.{first_pressure, IsRefusal};
ghost use Rattle.orcc_top.specs.Assembly.{EntryOf, EntriesOf, version_of, first_pressure_in, TellsPressure};
ghost use Rattle.orcc_top.specs.Code.{HoldsCode, HoldsImage, command_for};
ghost use Rattle.orcc_top.specs.Replies.{Replies};

use crate::library::library_bytes;
use crate::objects::object_bytes;
use crate::parsing::read_text;
use crate::refusal::{Refusal, line_of};
use crate::reply::Reply;
use orc_asm::{AsmError, assemble_for};
use orc_image::{Image, ImageFunction, write_image};
use orc_ops::Target;
use orc_program::{Function, Name, Program, VarKind, count_of, facts, is_free};
use std::alloc::{AllocError, Global};

/// What a text's code is written as.
#[derive(Clone, Copy, Debug, PartialEq, Eq)]
pub enum Form {
    /// An image, with code for the target.
    Image(Target),
    /// An ELF64 object, with code for SSE2.
    Object,
    /// An ELF64 object whose functions C calls by their prototypes, with code for the target.
    Library(Target),
}

/// How many variables of a kind a function has.
#[tactic(auto, using(crate::proofs::Entries::few, crate::proofs::Entries::most_fits))]
pub fn count(f: &Function, kind: VarKind) -> u8
    requires { is_function f.now ≡ true }
    ensures count { result ≡ count_of kind f.now.vars }
    ensures few { result ≤ most_of kind }
{
    count_of(f, kind) as u8
}

/// A function's entry in an image.
fn entry_of(alloc: Global, f: &Function, target: Target) -> Result<ImageFunction, AsmError>
    ensures entry { IfOk result (λ entry. EntryOf target f.now entry) }
    ensures placed { OnOk result (first_pressure f.now ≡ None) }
    ensures refusal { IfErr result (λ e. IsRefusal f.now e) }
{
    let code = assemble_for(alloc, f, target)?;
    let Some(name) = Name::new(f.name.as_slice()) else {
        unreachable!();
    };
    Ok(ImageFunction {
        name,
        two_d: f.two_d,
        dests: count(f, VarKind::Dest),
        sources: count(f, VarKind::Source),
        params: count(f, VarKind::Param),
        accs: count(f, VarKind::Accumulator),
        facts: facts(f),
        code,
    })
}

/// Whether nothing is stated of calls of a function.
fn has_no_facts(f: &Function) -> bool
    ensures { result ≡ is_free (facts_of f.now) }
{
    is_free(&facts(f))
}

fn have_no_facts(functions: &[Function]) -> bool
    ensures { result ≡ list_all (λ f. is_free (facts_of f)) functions.now }
{
    functions.iter().all(|f| has_no_facts(f))
}

/// The version of an image of these functions.
fn version_of(functions: &[Function]) -> u8
    ensures value { result ≡ version_of functions.now }
    ensures known { is_version result ≡ true }
{
    if have_no_facts(functions) { 1 } else { 2 }
}

/// The image of a program's functions, with code for a target.
pub fn image_of(alloc: Global, functions: &[Function], target: Target) -> Result<Image, AsmError>
    requires few { length functions.now ≤ 64 }
    requires distinct { all_distinct (map (λ f. f.name) functions.now) ≡ true }
    ensures entries { IfOk result (λ image. EntriesOf target functions.now image.functions) }
    ensures version { IfOk result (λ image. image.version ≡ version_of functions.now) }
    ensures placed { OnOk result (first_pressure_in functions.now ≡ None) }
    ensures pressure { IfErr result (λ e. TellsPressure (first_pressure_in functions.now) e) }
{
    let mut image = Image::new(alloc, version_of(functions));
    for f in functions {
        let entry = entry_of(alloc, f, target)?;
        if image.push(entry).is_err() {
            return Err(AsmError::Memory);
        }
    }
    Ok(image)
}

/// The bytes of the image of a program's functions.
fn image_bytes(alloc: Global, functions: &[Function], target: Target) -> Result<Vec<u8>, AsmError>
    requires few { length functions.now ≤ 64 }
    requires distinct { all_distinct (map (λ f. f.name) functions.now) ≡ true }
    ensures holds { IfOk result (λ bytes. HoldsImage target functions.now bytes.items) }
    ensures placed { OnOk result (first_pressure_in functions.now ≡ None) }
    ensures pressure { IfErr result (λ e. TellsPressure (first_pressure_in functions.now) e) }
{
    let image = image_of(alloc, functions, target)?;
    match write_image(alloc, &image) {
        Ok(bytes) => Ok(bytes),
        Err(AllocError) => Err(AsmError::Memory),
    }
}

/// The bytes of a program's code in a form; `text` is what reads as the program.
fn bytes_of(alloc: Global, form: Form, text: &[u8], program: &Program) -> Result<Vec<u8>, AsmError>
    ensures holds { IfOk result (λ bytes. HoldsCode form text.now program.now bytes.items) }
    ensures placed { OnOk result (first_pressure_in program.now.functions ≡ None) }
    ensures pressure { IfErr result (λ e. TellsPressure (first_pressure_in program.now.functions) e) }
{
    let functions = program.functions.as_slice();
    match form {
        Form::Image(target) => image_bytes(alloc, functions, target),
        Form::Object => object_bytes(alloc, functions),
        Form::Library(target) => library_bytes(alloc, text, program, target),
    }
}

/// What `asm`, `asm41`, `obj`, `lib` and `lib41` answer to a text, as the form asks.
pub fn assemble_text(alloc: Global, form: Form, text: &[u8]) -> Result<Reply, AllocError>
    requires { length text.now ≤ 1048576 }
    ensures { IfOk result (λ reply. Replies (command_for form) text.now reply) }
{
    let program = match read_text(alloc, text)? {
        Ok(program) => program,
        Err(line) => return Ok(Reply::Refusal(line)),
    };
    match bytes_of(alloc, form, text, &program) {
        Ok(bytes) => Ok(Reply::Output(bytes)),
        Err(AsmError::Pressure { line, need }) => {
            let refusal = Refusal::Pressure { line, need };
            Ok(Reply::Refusal(line_of(alloc, refusal)?))
        }
        Err(AsmError::Memory) => Err(AllocError),
    }
}
