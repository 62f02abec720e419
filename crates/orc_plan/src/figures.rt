//! Figures of a function: its lanes and its cost.

ghost use Rattle.std.specs.Prelude.{◌≡◌, ◌*◌, ◌≤◌, length, map, max};
ghost use Rattle.std.specs.List.{fold, sum_by};
ghost use Rattle.orc_ops.specs.Far.{far_of, far_weight};
ghost use Rattle.orc_program.specs.Checks.{operand_sizes};
ghost use Rattle.orc_program.specs.Need.{largest, declared_size, insn_size, lanes, spills, cost, cost_for, source_cost, result_cost, op_cost, insn_cost};

use crate::counting::widest_need;
use crate::lowering::lower;
use crate::placing::REGISTERS;
use orc_ops::{Far, Op, Target, class_for, far_of};
use orc_program::variables::kind_at;
use orc_program::{Function, Insn, Operand, Var, VarKind, is_count, result_size, source_size};

/// The size of a variable, 0 of a parameter and of a constant.
fn declared_size(var: &Var) -> u32
    ensures { result ≡ declared_size var.now }
{
    match var.kind {
        VarKind::Param | VarKind::Const => 0,
        VarKind::Source | VarKind::Dest | VarKind::Accumulator | VarKind::Temp => {
            u32::from(var.size)
        }
    }
}

/// The largest of the variables' sizes and of one more.
fn largest_declared(vars: &[Var], size: u32) -> u32
    ensures { result ≡ fold max size (map declared_size vars.now) }
{
    let [var, rest @ ..] = vars else {
        return size;
    };
    largest_declared(rest, size.max(declared_size(var)))
}

/// The size of an opcode's largest operand, counts apart.
fn operand_size(op: Op) -> u8
    ensures { result ≡ largest (operand_sizes op) }
{
    let second_source = if is_count(op, 1) {
        0
    } else {
        source_size(op, 1)
    };
    result_size(op, 0)
        .max(result_size(op, 1))
        .max(source_size(op, 0))
        .max(second_source)
        .max(source_size(op, 2))
}

/// The size of an instruction's largest operand under its prefix, counts apart.
fn insn_size(insn: &Insn) -> u32
    ensures { result ≡ insn_size insn.now }
{
    u32::from(operand_size(insn.op)) * u32::from(insn.prefix)
}

/// The largest of the instructions' sizes and of one more.
fn largest_operand(insns: &[Insn], size: u32) -> u32
    ensures { result ≡ fold max size (map insn_size insns.now) }
{
    let [insn, rest @ ..] = insns else {
        return size;
    };
    largest_operand(rest, size.max(insn_size(insn)))
}

/// The elements that are done at once: as many as fit into 16 bytes of the largest of the sizes that dests, sources, temps and
/// accumulators are declared with and of the sizes times prefix of all operands, counts apart; 16 where there is no size.
pub fn lanes(f: &Function) -> u8
    ensures { result ≡ lanes f.now }
{
    let declared = largest_declared(f.vars.as_slice(), 0);
    let size = declared.max(largest_operand(f.insns.as_slice(), 0));
    (16 / size.max(1)) as u8
}

/// The cost of a source: 2 of a dest or a source variable, else 1.
fn source_cost(vars: &[Var], operand: Operand) -> u32
    ensures cost { result ≡ source_cost vars.now operand }
    ensures few { result ≤ 2 }
{
    match operand {
        Operand::Var(place) => match kind_at(vars, place) {
            VarKind::Dest | VarKind::Source => 2,
            VarKind::Accumulator | VarKind::Param | VarKind::Const | VarKind::Temp => 1,
        },
        Operand::Number(_) => 1,
    }
}

/// Whether some instruction needs more values of temps than there are registers.
#[tactic(auto, using(crate::proofs::SameNeed::widest_is))]
fn spills(f: &Function) -> bool
    ensures { result ≡ spills f.now }
{
    widest_need(&lower(f)) > REGISTERS as u32
}

/// The cost of a result: 2 of a dest or an accumulator, and of a temp 1 where the function spills, else 0.
fn result_cost(spills: bool, vars: &[Var], operand: Operand) -> u32
    ensures cost { result ≡ result_cost spills vars.now operand }
    ensures few { result ≤ 2 }
{
    match operand {
        Operand::Var(place) => match kind_at(vars, place) {
            VarKind::Dest | VarKind::Accumulator => 2,
            VarKind::Temp => u32::from(spills),
            VarKind::Source | VarKind::Param | VarKind::Const => 0,
        },
        Operand::Number(_) => 0,
    }
}

/// The cost of sources.
fn sources_cost(vars: &[Var], operands: &[Operand]) -> u32
    requires { length operands.now ≤ 3 }
    ensures cost { result ≡ sum_by (source_cost vars.now) operands.now }
    ensures few { result ≤ 2 * length operands.now }
{
    let [operand, rest @ ..] = operands else {
        return 0;
    };
    source_cost(vars, *operand) + sources_cost(vars, rest)
}

/// The cost of results.
fn results_cost(spills: bool, vars: &[Var], operands: &[Operand]) -> u32
    requires { length operands.now ≤ 2 }
    ensures cost { result ≡ sum_by (result_cost spills vars.now) operands.now }
    ensures few { result ≤ 2 * length operands.now }
{
    let [operand, rest @ ..] = operands else {
        return 0;
    };
    result_cost(spills, vars, *operand) + results_cost(spills, vars, rest)
}

/// The greatest number of instructions that bring the values of a far load for `count` elements to a register.
fn far_weight(far: Far, count: u8) -> u32
    ensures weight { result ≡ far_weight far count }
    ensures few { result ≤ 17000 }
{
    let count = u32::from(count);
    match far {
        Far::Loadoffb | Far::Loadoffw | Far::Loadoffl => 16,
        Far::Loadupdb | Far::Loadupib | Far::Ldresnearb | Far::Ldresnearl => 16 + 24 * count,
        Far::Ldreslinb => 16 + 32 * count,
        Far::Ldreslinl => 16 + 64 * count,
    }
}

/// The cost of an opcode: that of a far load for so many elements, else its class for the target.
fn op_cost(op: Op, lanes: u8, target: Target) -> u32
    ensures cost { result ≡ op_cost target lanes op (far_of op) }
    ensures few { result ≤ 17000 }
{
    match far_of(op) {
        Some(far) => far_weight(far, lanes),
        None => u32::from(class_for(op, target)),
    }
}

/// The cost of an instruction: its sources', its results', and its opcode's.
fn insn_cost(spills: bool, lanes: u8, vars: &[Var], insn: &Insn, target: Target) -> u32
    ensures cost { result ≡ insn_cost target lanes spills vars.now insn.now }
    ensures few { result ≤ 18000 }
{
    let sources = sources_cost(vars, insn.sources.as_slice());
    let results = results_cost(spills, vars, insn.results.as_slice());
    sources + results + op_cost(insn.op, lanes, target)
}

/// The cost of instructions.
fn cost_of(spills: bool, lanes: u8, vars: &[Var], insns: &[Insn], target: Target) -> u32
    requires { length insns.now ≤ 100 }
    ensures cost { result ≡ sum_by (insn_cost target lanes spills vars.now) insns.now }
    ensures few { result ≤ 18000 * length insns.now }
{
    let [insn, rest @ ..] = insns else {
        return 0;
    };
    insn_cost(spills, lanes, vars, insn, target) + cost_of(spills, lanes, vars, rest, target)
}

/// The sum over all instructions of the class of the opcode for the target, 2 for each source that is a dest or a source variable, 1 for
/// each other source, and 2 for each result that is a dest or an accumulator; a result that is a temp costs 1 where some instruction needs
/// more than ten values of temps at once, else nothing. A far load has in place of the class the greatest number of instructions that bring
/// its values for as many elements as are done at once.
pub fn cost_for(f: &Function, target: Target) -> u32
    ensures { result ≡ cost_for f.now target }
{
    cost_of(
        spills(f),
        lanes(f),
        f.vars.as_slice(),
        f.insns.as_slice(),
        target,
    )
}

/// The cost for SSE2: [`cost_for`] of [`Target::Sse2`].
pub fn cost(f: &Function) -> u32
    ensures { result ≡ cost f.now }
{
    cost_for(f, Target::Sse2)
}
