//! Rules: lists of vector instructions that compute opcodes.

ghost use Rattle.std.specs.Prelude.{◌≡◌, ◌≤◌, ◌∷◌, [], length, slice_get, true, false, None, is_some, IfSome};
ghost use Rattle.orc_ops.specs.declared.target.Target.TheVariants.{Sse2};
ghost use Rattle.orc_ops.specs.Table.{row};
ghost use Rattle.orc_ops.specs.Targets.{class_for};
ghost use Rattle.sse_laws.specs.Meets.{Meets, is_sum};
ghost use Rattle.sse_laws.specs.Targets.{IsCodeFor};
ghost use Rattle.sse_acc.specs.Sums.{AddsUp};
ghost use Rattle.orc_region.specs.Code.{HasRule, MeetsBy, computed_op, count_by, known_number, known_second, seats_in};

use crate::residents::Seats;
use arrayvec::ArrayVec;
use orc_ops::{Op, Target, far_of};
use orc_plan::{Item, Step};
use orc_program::{Operand, Pattern};
use sse_shift::shift_by;
use sse41::rule41;
use x86_ins::Ins;

/// The number of a pattern, unless it is that of a parameter.
fn known_number(patterns: &[Pattern], pattern: u8) -> Option<u64>
    ensures { result ≡ known_number (slice_get patterns.now pattern) }
{
    match patterns.get(usize::from(pattern))?.number {
        Operand::Number(number) => Some(number),
        Operand::Var(_) => None,
    }
}

/// The number of a second source of two, where it is a pattern whose number is known.
fn known_second(patterns: &[Pattern], sources: &[Item]) -> Option<u64>
    ensures { result ≡ known_second patterns.now sources.now }
{
    match sources {
        [_, Item::Pattern(pattern)] => known_number(patterns, *pattern),
        _ => None,
    }
}

/// The one instruction of a step that shifts by a known count, where there is one.
fn shift_of(seats: &Seats<'_>, step: &Step) -> Option<Ins>
    ensures which { is_some result ≡ is_some (count_by (seats_in seats.now) step.now.op step.now.sources.items) }
    ensures meets { IfSome result (λ ins. MeetsBy (count_by (seats_in seats.now) step.now.op step.now.sources.items) step.now.op (ins ∷ [])) }
    ensures sse2 { IfSome result (λ ins. IsCodeFor Sse2 (ins ∷ [])) }
{
    let count = known_second(seats.patterns, step.sources.as_slice())?;
    shift_by(step.op, count)
}

/// Whether a step is one instruction that has its count in itself.
pub fn has_count(seats: &Seats<'_>, step: &Step) -> bool
    ensures { result ≡ is_some (count_by (seats_in seats.now) step.now.op step.now.sources.items) }
{
    shift_of(seats, step).is_some()
}

/// Instructions of a target that compute a step's opcode from its sources. A known count is in the instruction, where there is one for it.
/// The value of a far load is its source, from which nothing is left to compute.
pub fn rule_of(seats: &Seats<'_>, step: &Step, target: Target, count: usize) -> ArrayVec<Ins, 100>
    requires { HasRule count step.now.op }
    ensures meets { is_sum (row (computed_op step.now.op)).kind ≡ false → MeetsBy (count_by (seats_in seats.now) step.now.op step.now.sources.items) (computed_op step.now.op) result.items }
    ensures adds { is_sum (row (computed_op step.now.op)).kind ≡ true → (count_by (seats_in seats.now) step.now.op step.now.sources.items ≡ None) × AddsUp (computed_op step.now.op) count result.items }
    ensures few { length result.items ≤ class_for step.now.op target }
    ensures target { IsCodeFor target result.items }
{
    match far_of(step.op) {
        Some(_) => ArrayVec::new(),
        None => rule_by_op(seats, step, target, count),
    }
}

/// The same of a step that is no far load.
fn rule_by_op(seats: &Seats<'_>, step: &Step, target: Target, count: usize) -> ArrayVec<Ins, 100>
    requires { HasRule count step.now.op }
    ensures meets { is_sum (row step.now.op).kind ≡ false → MeetsBy (count_by (seats_in seats.now) step.now.op step.now.sources.items) step.now.op result.items }
    ensures adds { is_sum (row step.now.op).kind ≡ true → (count_by (seats_in seats.now) step.now.op step.now.sources.items ≡ None) × AddsUp step.now.op count result.items }
    ensures few { length result.items ≤ class_for step.now.op target }
    ensures target { IsCodeFor target result.items }
{
    match shift_of(seats, step) {
        Some(shift) => {
            let mut rule = ArrayVec::new();
            rule.push(shift);
            rule
        }
        None => rule_for(step.op, target, count),
    }
}

/// Instructions of a target that compute an opcode on all lanes of the vector registers. Of an opcode that adds to an accumulator they add
/// the numbers of `count` elements to the running sum in XMM2.
#[tactic(auto, using(crate::proofs::Shortened::never_adds, crate::proofs::Shortened::class_of_others, sse_laws::proofs::Targeted::all_of_41))]
fn rule_for(op: Op, target: Target, count: usize) -> ArrayVec<Ins, 100>
    requires { HasRule count op }
    ensures meets { is_sum (row op).kind ≡ false → Meets op result.items }
    ensures adds { is_sum (row op).kind ≡ true → AddsUp op count result.items }
    ensures few { length result.items ≤ class_for op target }
    ensures target { IsCodeFor target result.items }
{
    match target {
        Target::Sse2 => rule(op, count),
        Target::Sse41 => match rule41(op) {
            Some(shorter) => shorter,
            None => rule(op, count),
        },
    }
}

/// The same of SSE2.
fn rule(op: Op, count: usize) -> ArrayVec<Ins, 100>
    requires { HasRule count op }
    ensures meets { is_sum (row op).kind ≡ false → Meets op result.items }
    ensures adds { is_sum (row op).kind ≡ true → AddsUp op count result.items }
    ensures few { length result.items ≤ (row op).class }
    ensures sse2 { IsCodeFor Sse2 result.items }
{
    if sse_acc::has_rule(op) {
        sse_acc::rule(op, count as u8)
    } else {
        computing(op)
    }
}

/// Instructions that compute an opcode that adds to no accumulator.
fn computing(op: Op) -> ArrayVec<Ins, 100>
    requires { is_sum (row op).kind ≡ false }
    ensures meets { Meets op result.items }
    ensures few { length result.items ≤ (row op).class }
    ensures sse2 { IsCodeFor Sse2 result.items }
{
    if sse_b::has_rule(op) {
        sse_b::rule(op)
    } else if sse_w::has_rule(op) {
        sse_w::rule(op)
    } else if sse_l::has_rule(op) {
        sse_l::rule(op)
    } else if sse_q::has_rule(op) {
        sse_q::rule(op)
    } else {
        sse_conv::rule(op)
    }
}
