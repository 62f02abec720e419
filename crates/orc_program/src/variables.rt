//! Variables by their places, slots of arrays, and what operands stand for.
//!
//! A place past the end of a function's list is that of a constant 0 of size 0.

ghost use Rattle.std.specs.Prelude.{◌≡◌, ◌≤◌, ◌+◌, length, slice_index};
ghost use Rattle.orc_program.specs.Program.{same_kind, var_at, count_of, count_before, places_of, operand_kind, is_temp};
ghost use Rattle.orc_program.specs.Slots.{slot_of, size_of_slot};
ghost use Rattle.orc_program.specs.Checks.{same_operand, same_pattern, number_in, way_of, pattern_number};

use crate::operands::{is_count, source_size};
use crate::program::{Operand, Pattern, Var, VarKind};
use orc_ops::Op;

/// Whether two kinds are one.
pub fn same_kind(a: VarKind, b: VarKind) -> bool
    ensures { result ≡ same_kind a b }
{
    a == b
}

/// The kind of the variable at a place.
pub fn kind_at(vars: &[Var], place: u16) -> VarKind
    ensures { result ≡ (var_at vars.now place).kind }
{
    match vars.get(usize::from(place)) {
        Some(var) => var.kind,
        None => VarKind::Const,
    }
}

/// The size of the variable at a place.
pub fn size_at(vars: &[Var], place: u16) -> u8
    ensures { result ≡ (var_at vars.now place).size }
{
    size_of(vars, usize::from(place))
}

fn size_of(vars: &[Var], place: usize) -> u8
    ensures { result ≡ (var_at vars.now place).size }
{
    match vars.get(place) {
        Some(var) => var.size,
        None => 0,
    }
}

/// The number of the variable at a place.
pub fn number_at(vars: &[Var], place: u16) -> u64
    ensures { result ≡ (var_at vars.now place).number }
{
    match vars.get(usize::from(place)) {
        Some(var) => var.number,
        None => 0,
    }
}

/// How many variables of a kind there are.
pub fn count_of(vars: &[Var], kind: VarKind) -> usize
    ensures value { result ≡ count_of kind vars.now }
    ensures few { result ≤ length vars.now }
{
    vars.iter().filter(|var| same_kind(kind, var.kind)).count()
}

/// How many variables of a kind stand before a place.
pub fn count_before(vars: &[Var], kind: VarKind, place: u16) -> usize
    ensures value { result ≡ count_before kind vars.now place }
    ensures few { result ≤ length vars.now }
{
    if usize::from(place) < vars.len() {
        count_of(&vars[..usize::from(place)], kind)
    } else {
        count_of(vars, kind)
    }
}

/// The slot of the array at a place: dests have the slots 0 to 3, and sources the slots 4 to 11.
pub fn slot_of(vars: &[Var], place: u16) -> usize
    ensures value { result ≡ slot_of vars.now place }
    ensures few { result ≤ 4 + length vars.now }
{
    if same_kind(VarKind::Dest, kind_at(vars, place)) {
        count_before(vars, VarKind::Dest, place)
    } else {
        4 + count_before(vars, VarKind::Source, place)
    }
}

/// The place of variable number `k` of a kind, 0 where there are fewer.
#[tactic(auto, using(crate::proofs::Nth::places_first, crate::proofs::Nth::places_last, crate::proofs::Nth::nth_here, crate::proofs::Nth::nth_next, crate::proofs::Nth::nth_skip))]
fn nth_place(vars: &[Var], kind: VarKind, k: usize) -> usize
    ensures { result ≡ slice_index (places_of kind vars.now) k }
{
    let mut left = k;
    for place in 0..vars.len() {
        if same_kind(kind, vars[place].kind) {
            if left == 0 {
                return place;
            }
            left -= 1;
        }
    }
    0
}

/// The bytes of an element of the array in a slot, in a slot without an array those of the variable at place 0.
pub fn size_of_slot(vars: &[Var], slot: usize) -> u8
    ensures { result ≡ size_of_slot vars.now slot }
{
    if slot < 4 {
        size_of(vars, nth_place(vars, VarKind::Dest, slot))
    } else {
        size_of(vars, nth_place(vars, VarKind::Source, slot - 4))
    }
}

/// The kind of the variable that an operand is; a number has none.
pub fn operand_kind(vars: &[Var], operand: Operand) -> Option<VarKind>
    ensures { result ≡ operand_kind vars.now operand }
{
    match operand {
        Operand::Var(place) => Some(kind_at(vars, place)),
        Operand::Number(_) => None,
    }
}

/// Whether an operand is a temp.
pub fn is_temp(vars: &[Var], operand: Operand) -> bool
    ensures { result ≡ is_temp vars.now operand }
{
    match operand {
        Operand::Var(place) => same_kind(VarKind::Temp, kind_at(vars, place)),
        Operand::Number(_) => false,
    }
}

/// The number that an operand stands for: a parameter is its own, and a constant is its number.
pub fn number_in(vars: &[Var], operand: Operand) -> Option<Operand>
    ensures { result ≡ number_in vars.now operand }
{
    match operand {
        Operand::Number(_) => Some(operand),
        Operand::Var(place) => match kind_at(vars, place) {
            VarKind::Param => Some(operand),
            VarKind::Const => Some(Operand::Number(number_at(vars, place))),
            VarKind::Source | VarKind::Dest | VarKind::Accumulator | VarKind::Temp => None,
        },
    }
}

/// The way in which the source at a position is used: 0 for a shift count, else its size before the prefix.
pub fn way_of(op: Op, position: usize) -> u8
    ensures { result ≡ way_of op position }
{
    if is_count(op, position) {
        0
    } else {
        source_size(op, position)
    }
}

fn same_operand(a: Operand, b: Operand) -> bool
    ensures { result ≡ same_operand a b }
{
    a == b
}

/// Whether two patterns are one number, used in one way.
pub fn same_pattern(a: Pattern, b: Pattern) -> bool
    ensures { result ≡ same_pattern a b }
{
    same_operand(a.number, b.number) && a.way == b.way
}

/// The place of a pattern among patterns, and their number where it isn't there.
pub fn pattern_number(known: &[Pattern], pattern: Pattern) -> usize
    ensures value { result ≡ pattern_number known.now pattern }
    ensures few { result ≤ length known.now }
{
    let [other, rest @ ..] = known else {
        return 0;
    };
    if same_pattern(pattern, *other) {
        0
    } else {
        1 + pattern_number(rest, pattern)
    }
}
