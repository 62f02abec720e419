//! Rows, elements and instructions, in that order.

ghost use Rattle.std.specs.Prelude.{◌≡◌, List, Ok, Err, IfOk, IfErr, map, slice_index};
ghost use Rattle.orc_bits.specs.declared.parts.Part.{Part};
ghost use Rattle.orc_program.specs.Program.{places_of};
ghost use Rattle.orc_program.specs.Meaning as meaning;
ghost use Rattle.orc_bits.specs.Parts.{memory_of, layout};
ghost use Rattle.orc_emul.specs.State.{HasCounts, state_of, after, gap};

use crate::act::act;
use crate::state::{MOST_VARS, Spot, Unmapped, Values};
use crate::store::Store;
use arrayvec::ArrayVec;
use orc_program::variables::same_kind;
use orc_program::{Call, Function, VarKind};

/// Does the instructions, in order, on one element.
fn element(
    f: &Function,
    call: &Call,
    store: &mut Store,
    values: &mut Values,
    spot: Spot,
) -> Result<(), Unmapped>
    requires counts { HasCounts f.now call.now }
    ensures value { meaning.element f.now call.now spot.row spot.element f.now.insns (state_of store.old values.old) ≡ after result store.new values.new }
    ensures layout { layout store.new ≡ layout store.old }
{
    for insn in f.insns.as_slice() {
        act(f, call, store, values, spot, insn)?;
    }
    Ok(())
}

/// Does the elements of a row.
fn row_of(
    f: &Function,
    call: &Call,
    store: &mut Store,
    values: &mut Values,
    row: u32,
) -> Result<(), Unmapped>
    requires counts { HasCounts f.now call.now }
    ensures value { meaning.row_of f.now call.now row call.now.n (state_of store.old values.old) ≡ after result store.new values.new }
    ensures layout { layout store.new ≡ layout store.old }
{
    for i in 0..call.n {
        element(f, call, store, values, Spot { row, element: i })?;
    }
    Ok(())
}

/// The number of rows.
fn rows(f: &Function, call: &Call) -> u32
    ensures { result ≡ meaning.rows f.now call.now }
{
    if f.two_d { call.m } else { 1 }
}

/// Does all rows.
fn rows_of(
    f: &Function,
    call: &Call,
    store: &mut Store,
    values: &mut Values,
) -> Result<(), Unmapped>
    requires counts { HasCounts f.now call.now }
    ensures value { meaning.rows_of f.now call.now (meaning.rows f.now call.now) (state_of store.old values.old) ≡ after result store.new values.new }
    ensures layout { layout store.new ≡ layout store.old }
{
    for row in 0..rows(f, call) {
        row_of(f, call, store, values, row)?;
    }
    Ok(())
}

/// The running sums of a function's accumulators, in order of declaration.
pub type Accs = ArrayVec<u64, 4>;

/// The sums, in order of declaration.
fn sums_of(f: &Function, values: &Values) -> Accs
    ensures { result.items ≡ map (λ p. slice_index values.now.sums p) (places_of VarKind.Accumulator f.now.vars) }
{
    let mut sums = Accs::new();
    for (p, var) in f.vars.as_slice().iter().enumerate() {
        if same_kind(VarKind::Accumulator, var.kind) {
            sums.push(values.sums[p]);
        }
    }
    sums
}

/// Temps and sums at the start.
fn zeros() -> Values
    ensures { (parts : List Part) → state_of parts result ≡ meaning.start (memory_of parts) }
{
    Values {
        temps: [0; MOST_VARS],
        sums: [0; MOST_VARS],
    }
}

/// Does a function on a store: for each row, for each element, each instruction in order. The call has an array for
/// each dest and source of the function and a number for each parameter. Takes no memory.
///
/// # Errors
///
/// `Unmapped` exactly where a cell that is read or written has a byte that isn't mapped, with the row, the element and
/// the address of the first such byte, modulo 2^64. The store keeps what was written before that access.
pub fn emulate(f: &Function, call: &Call, store: &mut Store) -> Result<Accs, Unmapped>
    requires { HasCounts f.now call.now }
    ensures ended { IfOk result (λ sums. meaning.emulate f.now call.now (memory_of store.old) ≡ Ok (memory_of store.new, sums.items)) }
    ensures unmapped { IfErr result (λ u. meaning.emulate f.now call.now (memory_of store.old) ≡ Err (gap u (memory_of store.new))) }
    ensures layout { layout store.new ≡ layout store.old }
{
    let mut values = zeros();
    rows_of(f, call, store, &mut values)?;
    Ok(sums_of(f, &values))
}
