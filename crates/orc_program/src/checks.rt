//! What is wrong with an instruction after those before it.

ghost use Rattle.std.specs.Prelude.{◌≡◌, ◌<◌, ◌+◌, ◌*◌, ◌^◌, true, nat_lt, length};
ghost use Rattle.std.specs.Result.{result_err};
ghost use Rattle.std.specs.List.{list_any};
ghost use Rattle.orc_ops.specs.Table.{row};
ghost use Rattle.orc_program.specs.Program.{is_place};
ghost use Rattle.orc_program.specs.Checks.{check, is_bad_prefix, result_kind_fault, source_kind_fault, is_wrong_size, is_set, is_unset, result_fault, source_fault, results_fault, sources_fault, is_too_many, insn_fault, most_insns};
ghost use Rattle.orc_program.specs.Kept.{is_shaped};

use crate::fault::Fault;
use crate::operands::{is_count, is_scalar, result_size, source_size};
use crate::program::{Function, Insn, Operand, Var, VarKind};
use crate::uses::{add_patterns, patterns};
use crate::variables::{kind_at, operand_kind, size_at};
use orc_ops::{Kind, Op, kind_of};

/// The greatest number of instructions of a function.
pub const MOST_INSNS: usize = 100;

/// The fault, where the condition holds.
fn check(condition: bool, fault: Fault) -> Result<(), Fault>
    ensures { result_err result ≡ check condition fault }
{
    if condition { Err(fault) } else { Ok(()) }
}

/// Whether an operand of this size would be longer than 8 bytes.
fn is_too_long(size: u8, prefix: u8) -> bool
    ensures { result ≡ nat_lt 8 (size * prefix) }
{
    u32::from(size) * u32::from(prefix) > 8
}

/// Whether the prefix stands before a sum or a far load, or makes an operand longer than 8 bytes.
pub fn is_bad_prefix(op: Op, prefix: u8) -> bool
    ensures { result ≡ is_bad_prefix op prefix }
{
    if prefix == 1 {
        return false;
    }
    let counted = if is_count(op, 1) {
        0
    } else {
        source_size(op, 1)
    };
    matches!(kind_of(op), Kind::Sum | Kind::Far)
        || is_too_long(result_size(op, 0), prefix)
        || is_too_long(result_size(op, 1), prefix)
        || is_too_long(source_size(op, 0), prefix)
        || is_too_long(counted, prefix)
        || is_too_long(source_size(op, 2), prefix)
}

/// The fault of a result's kind.
fn check_result_kind(op: Op, kind: Option<VarKind>) -> Result<(), Fault>
    ensures { result_err result ≡ result_kind_fault (row op).kind kind }
{
    match kind_of(op) {
        Kind::Sum => check(
            !matches!(kind, Some(VarKind::Accumulator)),
            Fault::NotAccumulator,
        ),
        Kind::Store => check(!matches!(kind, Some(VarKind::Dest)), Fault::NotArray),
        Kind::Plain | Kind::Load | Kind::LoadParam | Kind::Shift | Kind::Far => {
            check(
                !matches!(kind, Some(VarKind::Temp | VarKind::Dest)),
                Fault::NotWritable,
            )
        }
    }
}

/// The fault of a source's kind, at its position.
fn check_source_kind(op: Op, position: usize, kind: Option<VarKind>) -> Result<(), Fault>
    ensures { result_err result ≡ source_kind_fault (row op).kind position kind }
{
    let is_sum = matches!(kind, Some(VarKind::Accumulator));
    match kind_of(op) {
        Kind::Load => check(
            !matches!(kind, Some(VarKind::Source | VarKind::Dest)),
            Fault::NotArray,
        ),
        Kind::LoadParam => check(!is_scalar(kind), Fault::NotScalar),
        Kind::Shift if position == 1 => check(!is_scalar(kind), Fault::NotScalar),
        Kind::Far if position == 0 => check(
            !matches!(kind, Some(VarKind::Source)),
            Fault::NotArray,
        ),
        Kind::Far => check(!is_scalar(kind), Fault::NotScalar),
        Kind::Plain | Kind::Store | Kind::Shift | Kind::Sum => check(is_sum, Fault::NotReadable),
    }
}

/// Whether an operand has another size than the opcode's size times the prefix; parameters, constants and numbers are exempt.
fn is_wrong_size(vars: &[Var], size: u8, prefix: u8, operand: Operand) -> bool
    ensures { result ≡ is_wrong_size vars.now (size * prefix) operand }
{
    match operand {
        Operand::Var(place) => {
            !is_scalar(Some(kind_at(vars, place)))
                && u32::from(size_at(vars, place)) != u32::from(size) * u32::from(prefix)
        }
        Operand::Number(_) => false,
    }
}

fn is_place(place: u16, operand: &Operand) -> bool
    ensures { result ≡ is_place place operand.now }
{
    match operand {
        Operand::Var(other) => place == *other,
        Operand::Number(_) => false,
    }
}

fn has_result(insn: &Insn, place: u16) -> bool
    ensures { result ≡ list_any (is_place place) insn.now.results.items }
{
    insn.results
        .as_slice()
        .iter()
        .any(|operand| is_place(place, operand))
}

/// Whether an instruction has the variable at this place as a result.
fn is_set(insns: &[Insn], place: u16) -> bool
    ensures { result ≡ is_set insns.now place }
{
    insns.iter().any(|insn| has_result(insn, place))
}

/// Whether an operand is a temp that no earlier instruction has as a result.
fn is_unset(vars: &[Var], earlier: &[Insn], operand: Operand) -> bool
    ensures { result ≡ is_unset vars.now earlier.now operand }
{
    match operand {
        Operand::Var(place) => {
            matches!(kind_at(vars, place), VarKind::Temp) && !is_set(earlier, place)
        }
        Operand::Number(_) => false,
    }
}

/// The first fault of a result: its kind, then its size.
fn result_fault(
    vars: &[Var],
    op: Op,
    prefix: u8,
    position: usize,
    operand: Operand,
) -> Result<(), Fault>
    ensures { result_err result ≡ result_fault vars.now op prefix position operand }
{
    check_result_kind(op, operand_kind(vars, operand))?;
    check(
        is_wrong_size(vars, result_size(op, position), prefix, operand),
        Fault::SizeMismatch,
    )
}

/// The first fault of a source: its kind, then its size, then whether it is set.
fn source_fault(
    vars: &[Var],
    earlier: &[Insn],
    op: Op,
    prefix: u8,
    position: usize,
    operand: Operand,
) -> Result<(), Fault>
    ensures { result_err result ≡ source_fault vars.now earlier.now op prefix position operand }
{
    check_source_kind(op, position, operand_kind(vars, operand))?;
    check(
        is_wrong_size(vars, source_size(op, position), prefix, operand),
        Fault::SizeMismatch,
    )?;
    check(is_unset(vars, earlier, operand), Fault::Unset)
}

/// The first fault of results from a position on.
fn results_fault(
    vars: &[Var],
    op: Op,
    prefix: u8,
    position: usize,
    operands: &[Operand],
) -> Result<(), Fault>
    requires { position + length operands.now < 2 ^ 32 }
    ensures { result_err result ≡ results_fault vars.now op prefix position operands.now }
{
    let [operand, rest @ ..] = operands else {
        return Ok(());
    };
    result_fault(vars, op, prefix, position, *operand)?;
    results_fault(vars, op, prefix, position + 1, rest)
}

/// The first fault of sources from a position on.
fn sources_fault(
    vars: &[Var],
    earlier: &[Insn],
    op: Op,
    prefix: u8,
    position: usize,
    operands: &[Operand],
) -> Result<(), Fault>
    requires { position + length operands.now < 2 ^ 32 }
    ensures { result_err result ≡ sources_fault vars.now earlier.now op prefix position operands.now }
{
    let [operand, rest @ ..] = operands else {
        return Ok(());
    };
    source_fault(vars, earlier, op, prefix, position, *operand)?;
    sources_fault(vars, earlier, op, prefix, position + 1, rest)
}

/// The first fault of a result operand at its position: its kind's, then `SizeMismatch`.
pub fn check_result(
    f: &Function,
    op: Op,
    prefix: u8,
    position: usize,
    operand: Operand,
) -> Result<(), Fault>
    ensures { result_err result ≡ result_fault f.now.vars op prefix position operand }
{
    result_fault(f.vars.as_slice(), op, prefix, position, operand)
}

/// The first fault of a source operand at its position, in an instruction that is added to `f`: its kind's, then `SizeMismatch`, then `Unset`.
pub fn check_source(
    f: &Function,
    op: Op,
    prefix: u8,
    position: usize,
    operand: Operand,
) -> Result<(), Fault>
    ensures { result_err result ≡ source_fault f.now.vars f.now.insns op prefix position operand }
{
    source_fault(
        f.vars.as_slice(),
        f.insns.as_slice(),
        op,
        prefix,
        position,
        operand,
    )
}

/// Whether the instruction is one more than a function may have, or uses one pattern more.
pub fn is_too_many(f: &Function, insn: &Insn) -> bool
    ensures { result ≡ is_too_many f.now.vars f.now.insns insn.now }
{
    if f.insns.len() >= MOST_INSNS {
        return true;
    }
    let mut known = patterns(f);
    add_patterns(f.vars.as_slice(), &mut known, insn).is_err()
}

/// Whether an instruction may be added to `f`: the first of `BadPrefix`, the operands' faults from the left, results first, and `TooMany`.
/// An operand's faults are its kind's (`NotAccumulator`, `NotArray`, `NotWritable`, `NotScalar`, `NotReadable`), `SizeMismatch`, and, of a source, `Unset`.
#[tactic(auto, unfolding(crate::specs::Checks::insn_fault))]
pub fn check_insn(f: &Function, insn: &Insn) -> Result<(), Fault>
    requires { is_shaped f.now.vars insn.now ≡ true }
    ensures { result_err result ≡ insn_fault f.now.vars f.now.insns insn.now }
{
    let vars = f.vars.as_slice();
    check(is_bad_prefix(insn.op, insn.prefix), Fault::BadPrefix)?;
    results_fault(vars, insn.op, insn.prefix, 0, insn.results.as_slice())?;
    sources_fault(
        vars,
        f.insns.as_slice(),
        insn.op,
        insn.prefix,
        0,
        insn.sources.as_slice(),
    )?;
    check(is_too_many(f, insn), Fault::TooMany)
}
