//! Functions as steps: each write of a temp makes a new value, and a read of a temp reads its last one.

ghost use Rattle.std.specs.Prelude.{◌≡◌, ◌+◌, ◌*◌, ◌≤◌, ◌++◌, ℕ, length, slice_index};
ghost use Rattle.orc_program.specs.Program.{var_at, temps_among};
ghost use Rattle.orc_program.specs.Good.{IsArray};
ghost use Rattle.orc_program.specs.Need.{lanes, need_of};
ghost use Rattle.orc_program.specs.Slots.{slot_of};
ghost use Rattle.orc_plan.specs.Need.{need_in};
ghost use Rattle.orc_plan.specs.Lowered.{result_items, source_items, step_of, steps_after, steps_of, sizes_of};

use crate::figures::lanes;
use crate::items::{result_item, source_item};
use crate::steps::{Core, Item, Step};
use crate::variables::sizes;
use arrayvec::ArrayVec;
use orc_ops::Op;
use orc_program::variables::{is_temp, kind_at, same_kind, way_of};
use orc_program::{Function, Insn, Operand, Pattern, Var, VarKind, patterns};

/// The temps of all values, by their numbers.
type Temps = ArrayVec<u16, 200>;

/// Adds the items of results, with the next number for each temp.
fn add_results(vars: &[Var], next: u16, operands: &[Operand], items: &mut ArrayVec<Item, 2>)
    requires few { length vars.now ≤ 184 }
    requires numbers { next + length operands.now ≤ 202 }
    requires room { length items.old.items + length operands.now ≤ 2 }
    ensures { items.new.items ≡ items.old.items ++ result_items vars.now next operands.now }
{
    let [operand, rest @ ..] = operands else {
        return;
    };
    if is_temp(vars, *operand) {
        items.push(Item::Value(next));
        add_results(vars, next + 1, rest, items);
    } else {
        items.push(result_item(vars, *operand));
        add_results(vars, next, rest, items);
    }
}

/// The items of results, after so many values were made.
fn result_items(vars: &[Var], next: u16, operands: &[Operand]) -> ArrayVec<Item, 2>
    requires vars { length vars.now ≤ 184 }
    requires numbers { next ≤ 200 }
    requires few { length operands.now ≤ 2 }
    ensures { result.items ≡ result_items vars.now next operands.now }
{
    let mut items = ArrayVec::new();
    add_results(vars, next, operands, &mut items);
    items
}

/// Adds the items of sources from a position on.
fn add_sources(
    vars: &[Var],
    known: &[Pattern],
    temps: &[u16],
    op: Op,
    position: usize,
    operands: &[Operand],
    items: &mut ArrayVec<Item, 3>,
)
    requires vars { length vars.now ≤ 184 }
    requires known { length known.now ≤ 48 }
    requires temps { length temps.now ≤ 200 }
    requires place { position ≡ length items.old.items }
    requires few { length items.old.items + length operands.now ≤ 3 }
    ensures { items.new.items ≡ items.old.items ++ source_items vars.now known.now temps.now op position operands.now }
{
    let [operand, rest @ ..] = operands else {
        return;
    };
    items.push(source_item(vars, known, temps, way_of(op, position), *operand));
    add_sources(vars, known, temps, op, position + 1, rest, items);
}

/// The items of sources.
fn source_items(
    vars: &[Var],
    known: &[Pattern],
    temps: &[u16],
    op: Op,
    operands: &[Operand],
) -> ArrayVec<Item, 3>
    requires vars { length vars.now ≤ 184 }
    requires known { length known.now ≤ 48 }
    requires temps { length temps.now ≤ 200 }
    requires few { length operands.now ≤ 3 }
    ensures { result.items ≡ source_items vars.now known.now temps.now op 0 operands.now }
{
    let mut items = ArrayVec::new();
    add_sources(vars, known, temps, op, 0, operands, &mut items);
    items
}

/// The step of an instruction, after values of these temps were made.
fn step_of(vars: &[Var], known: &[Pattern], temps: &[u16], insn: &Insn) -> Step
    requires vars { length vars.now ≤ 184 }
    requires known { length known.now ≤ 48 }
    requires temps { length temps.now ≤ 200 }
    ensures { result ≡ step_of vars.now known.now temps.now insn.now }
{
    Step {
        op: insn.op,
        prefix: insn.prefix,
        line: insn.line,
        results: result_items(vars, temps.len() as u16, insn.results.as_slice()),
        sources: source_items(vars, known, temps, insn.op, insn.sources.as_slice()),
    }
}

/// Adds the temps among results.
fn add_temps(vars: &[Var], operands: &[Operand], temps: &mut Temps)
    requires room { length temps.old.items + length operands.now ≤ 200 }
    ensures made { temps.new.items ≡ temps.old.items ++ temps_among vars.now operands.now }
    ensures few { length temps.new.items ≤ length temps.old.items + length operands.now }
{
    let [operand, rest @ ..] = operands else {
        return;
    };
    if let Operand::Var(place) = operand {
        if same_kind(VarKind::Temp, kind_at(vars, *place)) {
            temps.push(*place);
        }
    }
    add_temps(vars, rest, temps);
}

/// Adds the steps of instructions.
fn add_steps(
    vars: &[Var],
    known: &[Pattern],
    insns: &[Insn],
    temps: &mut Temps,
    steps: &mut ArrayVec<Step, 100>,
)
    requires vars { length vars.now ≤ 184 }
    requires known { length known.now ≤ 48 }
    requires temps { length temps.old.items + 2 * length insns.now ≤ 200 }
    requires room { length steps.old.items + length insns.now ≤ 100 }
    ensures { steps.new.items ≡ steps.old.items ++ steps_after vars.now known.now temps.old.items insns.now }
{
    let [insn, rest @ ..] = insns else {
        return;
    };
    steps.push(step_of(vars, known, temps.as_slice(), insn));
    add_temps(vars, insn.results.as_slice(), temps);
    add_steps(vars, known, rest, temps, steps);
}

/// The steps of a function: one per instruction, with its opcode, prefix, line and operands. Values stand in place of temps: each write of
/// a temp makes a new value, and a read of a temp is its last value. Need of a step is Need of its instruction. The size of an array stands in
/// the array's slot.
pub fn lower(f: &Function) -> Core
    ensures steps { result.steps ≡ steps_of f.now }
    ensures sizes { result.sizes ≡ sizes_of f.now }
    ensures lanes { result.lanes ≡ lanes f.now }
    ensures arrays { (p : ℕ) → IsArray f.now p → slice_index result.sizes (slot_of f.now.vars p) ≡ (var_at f.now.vars p).size }
    ensures need { (j : ℕ) → need_in result.steps j ≡ need_of f.now.vars f.now.insns j }
{
    let known = patterns(f);
    let mut temps = ArrayVec::new();
    let mut steps = ArrayVec::new();
    add_steps(
        f.vars.as_slice(),
        known.as_slice(),
        f.insns.as_slice(),
        &mut temps,
        &mut steps,
    );
    Core {
        steps,
        sizes: sizes(f),
        lanes: lanes(f),
    }
}
