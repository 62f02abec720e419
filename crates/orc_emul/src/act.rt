//! One instruction on one element.

ghost use Rattle.std.specs.Prelude.{◌≡◌, ◌<◌, ℕ, true, None, Some, Ok, length};
ghost use Rattle.std.specs.List.{list_all};
ghost use Rattle.orc_ops.specs.Far.{far_of};
ghost use Rattle.orc_program.specs.Program.{var_at, is_array};
ghost use Rattle.orc_program.specs.Kept.{is_in_range};
ghost use Rattle.orc_program.specs.Meaning as meaning;
ghost use Rattle.orc_bits.specs.Parts.{memory_of, layout};
ghost use Rattle.orc_emul.specs.State.{HasCounts, Fits, state_of, number_or, memory_or, after, given_or, two_given_or};

use crate::access::{read, write};
use crate::far::load;
use crate::lanes::{Given, lanewise, low_bits};
use crate::places::{cell, param_at, variable};
use crate::state::{Spot, Unmapped, Values};
use crate::store::Store;
use orc_ops::{Far, Op, far_of};
use orc_program::{Call, Function, Insn, Operand, VarKind};

/// The number in a cell.
fn read_cell(f: &Function, call: &Call, store: &Store, spot: Spot, p: u16) -> Result<u64, Unmapped>
    requires inside { p < length f.now.vars }
    requires array { is_array (var_at f.now.vars p) ≡ true }
    requires counts { HasCounts f.now call.now }
    ensures { meaning.read_cell f.now call.now spot.row spot.element p (meaning.start (memory_of store.now)) ≡ number_or result (memory_of store.now) }
{
    match read(store, cell(f, call, p, spot), variable(f, p).size) {
        Ok(v) => Ok(v),
        Err(at) => Err(spot.unmapped(at)),
    }
}

/// What an array gives as a source.
fn read_array(
    f: &Function,
    call: &Call,
    store: &Store,
    spot: Spot,
    p: u16,
) -> Result<Given, Unmapped>
    requires inside { p < length f.now.vars }
    requires array { is_array (var_at f.now.vars p) ≡ true }
    requires counts { HasCounts f.now call.now }
    ensures { (w : ℕ) → meaning.go_on (meaning.read_cell f.now call.now spot.row spot.element p (meaning.start (memory_of store.now))) (λ v. Ok (meaning.sub_lane w v)) ≡ given_or w result (memory_of store.now) }
{
    let v = read_cell(f, call, store, spot, p)?;
    Ok(Given::Lanes(v))
}

/// What a variable gives as a source.
fn read_var(
    f: &Function,
    call: &Call,
    store: &Store,
    values: &Values,
    spot: Spot,
    p: u16,
) -> Result<Given, Unmapped>
    requires inside { p < length f.now.vars }
    requires counts { HasCounts f.now call.now }
    ensures { (w : ℕ) → meaning.read_var f.now call.now spot.row spot.element w (state_of store.now values.now) p (var_at f.now.vars p).kind ≡ given_or w result (memory_of store.now) }
{
    let var = variable(f, p);
    match var.kind {
        VarKind::Source => read_array(f, call, store, spot, p),
        VarKind::Dest => read_array(f, call, store, spot, p),
        VarKind::Temp => Ok(Given::Lanes(values.temps[usize::from(p)])),
        VarKind::Param => Ok(Given::Same(param_at(f, call, p))),
        VarKind::Const => Ok(Given::Same(var.number)),
        VarKind::Accumulator => Ok(Given::Same(0)),
    }
}

/// What a source gives.
fn read_source(
    f: &Function,
    call: &Call,
    store: &Store,
    values: &Values,
    spot: Spot,
    source: Operand,
) -> Result<Given, Unmapped>
    requires known { is_in_range f.now.vars source ≡ true }
    requires counts { HasCounts f.now call.now }
    ensures { (w : ℕ) → meaning.read_source f.now call.now spot.row spot.element w (state_of store.now values.now) source ≡ given_or w result (memory_of store.now) }
{
    match source {
        Operand::Var(p) => read_var(f, call, store, values, spot, p),
        Operand::Number(n) => Ok(Given::Same(n)),
    }
}

/// What the sources give, from the left.
fn read_sources(
    f: &Function,
    call: &Call,
    store: &Store,
    values: &Values,
    spot: Spot,
    op: Op,
    sources: &[Operand],
) -> Result<(Given, Given), Unmapped>
    requires known { list_all (is_in_range f.now.vars) sources.now ≡ true }
    requires counts { HasCounts f.now call.now }
    ensures { meaning.read_sources f.now call.now spot.row spot.element op (state_of store.now values.now) sources.now ≡ two_given_or op result (memory_of store.now) }
{
    match sources {
        [] => Ok((Given::Same(0), Given::Same(0))),
        [x] => {
            let a = read_source(f, call, store, values, spot, *x)?;
            Ok((a, Given::Same(0)))
        }
        [x, y, ..] => {
            let first = read_source(f, call, store, values, spot, *x)?;
            let second = read_source(f, call, store, values, spot, *y)?;
            Ok((first, second))
        }
    }
}

/// Writes a number into a cell.
fn write_cell(
    f: &Function,
    call: &Call,
    store: &mut Store,
    spot: Spot,
    p: u16,
    v: u64,
) -> Result<(), Unmapped>
    requires inside { p < length f.now.vars }
    requires array { is_array (var_at f.now.vars p) ≡ true }
    requires counts { HasCounts f.now call.now }
    ensures value { meaning.write_cell f.now call.now spot.row spot.element p v (meaning.start (memory_of store.old)) ≡ memory_or result (memory_of store.new) }
    ensures layout { layout store.new ≡ layout store.old }
{
    match write(store, cell(f, call, p, spot), variable(f, p).size, v) {
        Ok(()) => Ok(()),
        Err(at) => Err(spot.unmapped(at)),
    }
}

/// A number goes to a temp or a cell, or is added to a sum.
fn write_var(
    f: &Function,
    call: &Call,
    store: &mut Store,
    values: &mut Values,
    spot: Spot,
    p: u16,
    v: u64,
) -> Result<(), Unmapped>
    requires inside { p < length f.now.vars }
    requires counts { HasCounts f.now call.now }
    ensures value { meaning.write_var f.now call.now spot.row spot.element v (state_of store.old values.old) p (var_at f.now.vars p).kind ≡ after result store.new values.new }
    ensures layout { layout store.new ≡ layout store.old }
{
    let var = variable(f, p);
    let i = usize::from(p);
    match var.kind {
        VarKind::Dest => write_cell(f, call, store, spot, p, v),
        VarKind::Temp => {
            values.temps[i] = v;
            Ok(())
        }
        VarKind::Accumulator => {
            values.sums[i] = low_bits(values.sums[i].wrapping_add(v), 8 * u32::from(var.size));
            Ok(())
        }
        VarKind::Source | VarKind::Param | VarKind::Const => Ok(()),
    }
}

/// Writes one result.
fn write_result(
    f: &Function,
    call: &Call,
    store: &mut Store,
    values: &mut Values,
    spot: Spot,
    to: Operand,
    v: u64,
) -> Result<(), Unmapped>
    requires known { is_in_range f.now.vars to ≡ true }
    requires counts { HasCounts f.now call.now }
    ensures value { meaning.write_result f.now call.now spot.row spot.element v (state_of store.old values.old) to ≡ after result store.new values.new }
    ensures layout { layout store.new ≡ layout store.old }
{
    match to {
        Operand::Var(p) => write_var(f, call, store, values, spot, p, v),
        Operand::Number(_) => Ok(()),
    }
}

/// Writes the results, the first before the second.
fn write_results(
    f: &Function,
    call: &Call,
    store: &mut Store,
    values: &mut Values,
    spot: Spot,
    to: &[Operand],
    v: (u64, u64),
) -> Result<(), Unmapped>
    requires known { list_all (is_in_range f.now.vars) to.now ≡ true }
    requires counts { HasCounts f.now call.now }
    ensures value { meaning.write_results f.now call.now spot.row spot.element v (state_of store.old values.old) to.now ≡ after result store.new values.new }
    ensures layout { layout store.new ≡ layout store.old }
{
    match to {
        [] => Ok(()),
        [x] => write_result(f, call, store, values, spot, *x, v.0),
        [x, y, ..] => {
            write_result(f, call, store, values, spot, *x, v.0)?;
            write_result(f, call, store, values, spot, *y, v.1)
        }
    }
}

/// Does a far load: its value is loaded and written.
fn act_far(
    f: &Function,
    call: &Call,
    store: &mut Store,
    values: &mut Values,
    spot: Spot,
    insn: &Insn,
    far: Far,
) -> Result<(), Unmapped>
    requires far { far_of insn.now.op ≡ Some far }
    requires fits { Fits f.now.vars insn.now }
    requires counts { HasCounts f.now call.now }
    ensures value { meaning.act_as f.now call.now spot.row spot.element insn.now (state_of store.old values.old) (Some far) ≡ after result store.new values.new }
    ensures layout { layout store.new ≡ layout store.old }
{
    let v = load(f, call, store, spot, far, insn.sources.as_slice())?;
    write_results(
        f,
        call,
        store,
        values,
        spot,
        insn.results.as_slice(),
        (v, 0),
    )
}

/// Does an instruction that is no far load: sources are read from the left, results are written, the first before the second.
fn act_near(
    f: &Function,
    call: &Call,
    store: &mut Store,
    values: &mut Values,
    spot: Spot,
    insn: &Insn,
) -> Result<(), Unmapped>
    requires near { far_of insn.now.op ≡ None }
    requires fits { Fits f.now.vars insn.now }
    requires counts { HasCounts f.now call.now }
    ensures value { meaning.act_as f.now call.now spot.row spot.element insn.now (state_of store.old values.old) None ≡ after result store.new values.new }
    ensures layout { layout store.new ≡ layout store.old }
{
    let sources = insn.sources.as_slice();
    let given = read_sources(f, call, store, values, spot, insn.op, sources)?;
    let v = lanewise(insn.op, insn.prefix, given.0, given.1);
    write_results(f, call, store, values, spot, insn.results.as_slice(), v)
}

/// Does one instruction.
pub fn act(
    f: &Function,
    call: &Call,
    store: &mut Store,
    values: &mut Values,
    spot: Spot,
    insn: &Insn,
) -> Result<(), Unmapped>
    requires fits { Fits f.now.vars insn.now }
    requires counts { HasCounts f.now call.now }
    ensures value { meaning.act f.now call.now spot.row spot.element insn.now (state_of store.old values.old) ≡ after result store.new values.new }
    ensures layout { layout store.new ≡ layout store.old }
{
    match far_of(insn.op) {
        Some(far) => act_far(f, call, store, values, spot, insn, far),
        None => act_near(f, call, store, values, spot, insn),
    }
}
