//! From functions to code.

ghost use Rattle.std.specs.Prelude.{◌≡◌, ◌≤◌, IfOk, OnOk, IfErr, None, length, true, false};
ghost use Rattle.orc_ops.specs.declared.target.Target.TheVariants.{Sse2};
ghost use Rattle.orc_program.specs.declared.program.VarKind.TheVariants as kind;
ghost use Rattle.orc_program.specs.Program.{count_of};
ghost use Rattle.orc_program.specs.Kept.{is_function};
ghost use Rattle.orc_program.specs.Need.{lanes};
ghost use Rattle.orc_plan.specs.Lowered.{steps_of, sizes_of};
ghost use Rattle.orc_asm.specs.Function.{RunsAs, RunsFully, EndsByReturn, HasOnly, first_pressure, IsRefusal};

use crate::refusal::AsmError;
use crate::rows::whole_code;
use orc_bits::Code;
use orc_frame::{epilogue, layout, prologue};
use orc_ops::Target;
use orc_plan::{Placed, lower, place};
use orc_program::variables::count_of;
use orc_program::{Function, VarKind};
use orc_region::{resident_loads, row_flow, sum_stores};
use std::alloc::{AllocError, Global};

/// Code of a function, which does in every good call what the function means, in at most as many steps as are stated for the target. It does so inside any
/// larger memory too, and on the way changes no byte but those of dests' cells, of accumulators' words and of the frame. Few of its steps touch cells,
/// at most one in a turn for each operand that is an array, but two for each element of a far load, and where the first dest can be stored by aligned stores in every row, and is no
/// other dest, it is. The code is instructions of the target alone, and has 1 to 1,048,576 bytes, and at most 1,040,000, which leaves room for lists around it.
/// It ends with a return, and what stands before that may stand inside other code: there each such call leads to the place behind it, with RSP as before, in at
/// most one step less, and with all that is promised above.
/// A function is refused exactly where some instruction needs more values of temps at once than there are places for them: with the first
/// such instruction's line and need.
#[tactic(auto, using(crate::proofs::Calls::Weaker::runs_as, crate::proofs::Function::Pressed::none_pressed, crate::proofs::Function::Pressed::first_pressed))]
pub fn assemble_for(alloc: Global, f: &Function, target: Target) -> Result<Code, AsmError>
    ensures runs { IfOk result (λ code. RunsAs f.now target code) }
    ensures inside { IfOk result (λ code. RunsFully f.now target code) }
    ensures passes { IfOk result (λ code. EndsByReturn f.now target code) }
    ensures target { IfOk result (λ code. HasOnly target code) }
    ensures bytes { IfOk result (λ code. (1 ≤ length code) × (length code ≤ 1048576)) }
    ensures room { IfOk result (λ code. length code ≤ 1040000) }
    ensures few { OnOk result (first_pressure f.now ≡ None) }
    ensures refusal { IfErr result (λ e. IsRefusal f.now e) }
{
    let core = lower(f);
    match place(&core) {
        Ok(placed) => match code_of(alloc, f, &placed, target) {
            Ok(code) => Ok(code),
            Err(_) => Err(AsmError::Memory),
        },
        Err(pressure) => Err(AsmError::Pressure {
            line: pressure.line,
            need: pressure.need,
        }),
    }
}

/// Code for SSE2: [`assemble_for`] of [`Target::Sse2`].
pub fn assemble(alloc: Global, f: &Function) -> Result<Code, AsmError>
    ensures runs { IfOk result (λ code. RunsAs f.now Sse2 code) }
    ensures inside { IfOk result (λ code. RunsFully f.now Sse2 code) }
    ensures passes { IfOk result (λ code. EndsByReturn f.now Sse2 code) }
    ensures target { IfOk result (λ code. HasOnly Sse2 code) }
    ensures bytes { IfOk result (λ code. (1 ≤ length code) × (length code ≤ 1048576)) }
    ensures room { IfOk result (λ code. length code ≤ 1040000) }
    ensures few { OnOk result (first_pressure f.now ≡ None) }
    ensures refusal { IfErr result (λ e. IsRefusal f.now e) }
{
    assemble_for(alloc, f, Target::Sse2)
}

/// How many arrays a function has.
#[derive(Clone, Copy)]
struct Counts {
    /// Its dests.
    dests: usize,
    /// Its sources.
    sources: usize,
}

/// Counts variables.
#[tactic(auto, using(orc_region::proofs::Checked::Slots::limits))]
fn counts_of(f: &Function) -> Counts
    ensures dests { result.dests ≡ count_of kind.Dest f.now.vars }
    ensures sources { result.sources ≡ count_of kind.Source f.now.vars }
    ensures few { (result.dests ≤ 4) × (result.sources ≤ 8) }
    ensures kept { is_function f.now ≡ true }
{
    let vars = f.vars.as_slice();
    Counts {
        dests: count_of(vars, VarKind::Dest),
        sources: count_of(vars, VarKind::Source),
    }
}

/// The code of a function by its placed steps: rows of elements, and before and after them what the frame wants.
fn code_of(alloc: Global, f: &Function, placed: &Placed, target: Target) -> Result<Code, AllocError>
    requires steps { placed.now.core.steps ≡ steps_of f.now }
    requires sizes { placed.now.core.sizes ≡ sizes_of f.now }
    requires lanes { placed.now.core.lanes ≡ lanes f.now }
    ensures inside { IfOk result (λ code. RunsFully f.now target code) }
    ensures passes { IfOk result (λ code. EndsByReturn f.now target code) }
    ensures target { IfOk result (λ code. HasOnly target code) }
    ensures bytes { IfOk result (λ code. (1 ≤ length code) × (length code ≤ 1048576)) }
    ensures room { IfOk result (λ code. length code ≤ 1040000) }
{
    let counts = counts_of(f);
    let layout = layout(f);
    let mut first = prologue(alloc, &layout)?;
    first.append(resident_loads(alloc, placed, &layout)?)?;
    let elements = row_flow(alloc, placed, &layout, target)?;
    let mut last = sum_stores(alloc, placed, &layout)?;
    last.append(epilogue(alloc, &layout)?)?;
    whole_code(
        alloc,
        &layout,
        first.as_slice(),
        &elements,
        last.as_slice(),
        counts.dests,
        counts.sources,
    )
}
