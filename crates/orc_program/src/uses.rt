//! The patterns of a function: its numbers, each with the way in which it is used.

ghost use Rattle.std.specs.Prelude.{◌≡◌, ◌<◌, ◌≤◌, ◌+◌, ◌^◌, fold, length};
ghost use Rattle.std.specs.List.{list_any};
ghost use Rattle.orc_program.specs.Checks.{same_pattern, number_in, way_of, pattern_with, uses_from, add_pattern, add_patterns, patterns_of, most_patterns, AddsUnlessMany};

use crate::fault::Fault;
use crate::program::{Function, Insn, Operand, Pattern, Var};
use crate::variables::{number_in, same_pattern, way_of};
use arrayvec::ArrayVec;
use orc_ops::Op;

/// Patterns of one function, each once.
pub type Patterns = ArrayVec<Pattern, 48>;

/// The pattern that a source uses, if it is a number.
fn pattern_of(vars: &[Var], op: Op, position: usize, operand: Operand) -> Option<Pattern>
    ensures { result ≡ pattern_with (way_of op position) (number_in vars.now operand) }
{
    let number = number_in(vars, operand)?;
    Some(Pattern {
        number,
        way: way_of(op, position),
    })
}

fn is_known(known: &[Pattern], pattern: Pattern) -> bool
    ensures { result ≡ list_any (same_pattern pattern) known.now }
{
    known.iter().any(|other| same_pattern(pattern, *other))
}

/// Adds a pattern that isn't known yet; `TooMany` where there is no room for it.
fn add_pattern(known: &mut Patterns, pattern: Pattern) -> Result<(), Fault>
    ensures found { AddsUnlessMany result known.new.items (add_pattern known.old.items pattern) }
    ensures few { length known.new.items ≤ most_patterns }
{
    if is_known(known.as_slice(), pattern) {
        return Ok(());
    }
    match known.try_push(pattern) {
        Ok(()) => Ok(()),
        Err(_) => Err(Fault::TooMany),
    }
}

/// Adds the patterns of sources from a position on.
#[tactic(auto, using(crate::proofs::PatternLaws::uses_grow))]
fn add_uses(
    vars: &[Var],
    op: Op,
    position: usize,
    operands: &[Operand],
    known: &mut Patterns,
) -> Result<(), Fault>
    requires short { position + length operands.now < 2 ^ 32 }
    requires few { length known.old.items ≤ most_patterns }
    ensures found { AddsUnlessMany result known.new.items (fold add_pattern known.old.items (uses_from vars.now op position operands.now)) }
    ensures few { length known.new.items ≤ most_patterns }
{
    let [operand, rest @ ..] = operands else {
        return Ok(());
    };
    if let Some(pattern) = pattern_of(vars, op, position, *operand) {
        add_pattern(known, pattern)?;
    }
    add_uses(vars, op, position + 1, rest, known)
}

/// Adds the patterns of an instruction.
pub(crate) fn add_patterns(vars: &[Var], known: &mut Patterns, insn: &Insn) -> Result<(), Fault>
    requires few { length known.old.items ≤ most_patterns }
    ensures found { AddsUnlessMany result known.new.items (add_patterns vars.now known.old.items insn.now) }
    ensures few { length known.new.items ≤ most_patterns }
{
    add_uses(vars, insn.op, 0, insn.sources.as_slice(), known)
}

/// Adds the patterns of instructions, in order.
#[tactic(auto, using(crate::proofs::PatternLaws::insns_grow))]
fn add_all(vars: &[Var], insns: &[Insn], known: &mut Patterns) -> Result<(), Fault>
    requires few { length known.old.items ≤ most_patterns }
    ensures found { AddsUnlessMany result known.new.items (fold (add_patterns vars.now) known.old.items insns.now) }
    ensures few { length known.new.items ≤ most_patterns }
{
    let [insn, rest @ ..] = insns else {
        return Ok(());
    };
    add_patterns(vars, known, insn)?;
    add_all(vars, rest, known)
}

/// Lists each pattern of the function once, in the order of first use: by instruction, and then by source from the left.
#[tactic(auto, using(crate::proofs::PatternLaws::patterns_few), unfolding(crate::specs::Checks::patterns_of))]
pub fn patterns(f: &Function) -> Patterns
    ensures { result.items ≡ patterns_of f.now.vars f.now.insns }
{
    let mut known = ArrayVec::new();
    // there is room for all of them, as the function keeps
    let _ = add_all(f.vars.as_slice(), f.insns.as_slice(), &mut known);
    known
}
