//! Sizes of an opcode's operands, and instructions that can be checked.

ghost use Rattle.std.specs.Prelude.{◌≡◌, slice_index};
ghost use Rattle.std.specs.List.{list_all};
ghost use Rattle.orc_ops.specs.Table.{size_of_result, size_of_source};
ghost use Rattle.orc_program.specs.Checks.{is_count, is_scalar};
ghost use Rattle.orc_program.specs.Kept.{count_sizes, result_count, source_count, is_in_range, is_shaped};

use crate::program::{Function, Insn, Operand, Var, VarKind};
use orc_ops::{Kind, Op, kind_of, results, sources};

/// The size of the operand at a position, 0 where there is none.
fn size_in(sizes: &[u8], position: usize) -> u8
    ensures { result ≡ slice_index sizes.now position }
{
    match sizes.get(position) {
        Some(size) => *size,
        None => 0,
    }
}

/// The size of a result before the prefix, 0 for one that isn't there.
pub fn result_size(op: Op, position: usize) -> u8
    ensures { result ≡ size_of_result op position }
{
    size_in(&results(op), position)
}

/// The size of a source before the prefix, 0 for one that isn't there.
pub fn source_size(op: Op, position: usize) -> u8
    ensures { result ≡ size_of_source op position }
{
    size_in(&sources(op), position)
}

/// Whether the source at a position is the count of a shift.
pub fn is_count(op: Op, position: usize) -> bool
    ensures { result ≡ is_count op position }
{
    matches!(kind_of(op), Kind::Shift) && position == 1
}

/// How many of two sizes are there.
fn count_sizes(a: u8, b: u8) -> usize
    ensures { result ≡ count_sizes a b }
{
    match (a, b) {
        (0, _) => 0,
        (_, 0) => 1,
        _ => 2,
    }
}

/// The number of an opcode's results.
pub fn result_count(op: Op) -> usize
    ensures { result ≡ result_count op }
{
    count_sizes(result_size(op, 0), result_size(op, 1))
}

/// The number of an opcode's sources.
pub fn source_count(op: Op) -> usize
    ensures { result ≡ source_count op }
{
    if source_size(op, 2) == 0 {
        count_sizes(source_size(op, 0), source_size(op, 1))
    } else {
        3
    }
}

/// Whether an operand of this kind is a parameter, a constant or a number.
pub(crate) fn is_scalar(kind: Option<VarKind>) -> bool
    ensures { result ≡ is_scalar kind }
{
    matches!(kind, None | Some(VarKind::Param | VarKind::Const))
}

fn is_in_range(vars: &[Var], operand: &Operand) -> bool
    ensures { result ≡ is_in_range vars.now operand.now }
{
    match operand {
        Operand::Var(place) => usize::from(*place) < vars.len(),
        Operand::Number(number) => {
            let _in_range = *number;
            true
        }
    }
}

fn are_in_range(vars: &[Var], operands: &[Operand]) -> bool
    ensures { result ≡ list_all (is_in_range vars.now) operands.now }
{
    operands.iter().all(|operand| is_in_range(vars, operand))
}

/// Whether the instruction is one that [`check_insn`](crate::check_insn) can be asked about: it has a prefix of 1, 2 or 4, its opcode's
/// numbers of results and of sources, and operands that are variables of the function, or numbers.
pub fn is_shaped(f: &Function, insn: &Insn) -> bool
    ensures { result ≡ is_shaped f.now.vars insn.now }
{
    let vars = f.vars.as_slice();
    let _line = insn.line;
    matches!(insn.prefix, 1 | 2 | 4)
        && insn.results.len() == result_count(insn.op)
        && insn.sources.len() == source_count(insn.op)
        && are_in_range(vars, insn.results.as_slice())
        && are_in_range(vars, insn.sources.as_slice())
}
