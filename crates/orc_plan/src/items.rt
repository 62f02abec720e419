//! Operands of instructions as items of steps.

ghost use Rattle.std.specs.Prelude.{◌≡◌, ◌≤◌, length};
ghost use Rattle.orc_program.specs.Program.{var_at};
ghost use Rattle.orc_plan.specs.Lowered.{last_value, acc_item, result_item, pattern_item, var_item, source_item};

use crate::steps::Item;
use orc_program::variables::{
    count_before, kind_at, number_at, pattern_number, same_kind, size_at, slot_of,
};
use orc_program::{Operand, Pattern, Var, VarKind};

/// The accumulator at a place.
fn acc_item(vars: &[Var], place: u16) -> Item
    requires { length vars.now ≤ 184 }
    ensures { result ≡ acc_item vars.now place }
{
    Item::Acc {
        slot: count_before(vars, VarKind::Accumulator, place) as u8,
        size: size_at(vars, place),
    }
}

/// A result that is no temp.
pub(crate) fn result_item(vars: &[Var], operand: Operand) -> Item
    requires { length vars.now ≤ 184 }
    ensures { result ≡ result_item vars.now operand }
{
    match operand {
        Operand::Var(place) if same_kind(VarKind::Accumulator, kind_at(vars, place)) => {
            acc_item(vars, place)
        }
        Operand::Var(place) => Item::Array(slot_of(vars, place) as u8),
        Operand::Number(_) => Item::Pattern(0),
    }
}

/// The number of the last value of a temp, the number of all values where it has none.
fn last_value(temps: &[u16], place: u16) -> u16
    requires { length temps.now ≤ 200 }
    ensures value { result ≡ last_value temps.now place }
{
    let mut last = temps.len() as u16;
    for (value, temp) in temps.iter().enumerate() {
        if place == *temp {
            last = value as u16;
        }
    }
    last
}

/// A number that is used in this way.
fn pattern_item(known: &[Pattern], number: Operand, way: u8) -> Item
    requires { length known.now ≤ 48 }
    ensures { result ≡ pattern_item known.now number way }
{
    Item::Pattern(pattern_number(known, Pattern { number, way }) as u8)
}

/// The source at a place, which is used in this way.
fn var_item(vars: &[Var], known: &[Pattern], temps: &[u16], way: u8, place: u16) -> Item
    requires vars { length vars.now ≤ 184 }
    requires known { length known.now ≤ 48 }
    requires temps { length temps.now ≤ 200 }
    ensures { result ≡ var_item vars.now known.now temps.now way place (var_at vars.now place).kind }
{
    match kind_at(vars, place) {
        VarKind::Temp => Item::Value(last_value(temps, place)),
        VarKind::Source | VarKind::Dest => Item::Array(slot_of(vars, place) as u8),
        VarKind::Accumulator => acc_item(vars, place),
        VarKind::Param => pattern_item(known, Operand::Var(place), way),
        VarKind::Const => pattern_item(known, Operand::Number(number_at(vars, place)), way),
    }
}

/// A source that is used in this way.
pub(crate) fn source_item(
    vars: &[Var],
    known: &[Pattern],
    temps: &[u16],
    way: u8,
    operand: Operand,
) -> Item
    requires vars { length vars.now ≤ 184 }
    requires known { length known.now ≤ 48 }
    requires temps { length temps.now ≤ 200 }
    ensures { result ≡ source_item vars.now known.now temps.now way operand }
{
    match operand {
        Operand::Var(place) => var_item(vars, known, temps, way, place),
        Operand::Number(_) => pattern_item(known, operand, way),
    }
}
