//! Variables, and where a call's cells and parameters stand.

ghost use Rattle.std.specs.Prelude.{◌≡◌, ◌<◌, ◌≤◌, ◌+◌, true, length};
ghost use Rattle.orc_program.specs.Program as program;
ghost use Rattle.orc_program.specs.Program.{var_at, is_array};
ghost use Rattle.orc_program.specs.Meaning as meaning;
ghost use Rattle.orc_emul.specs.State.{HasCounts};

use crate::state::Spot;
use orc_program::variables::count_of;
use orc_program::{Call, Function, Place, Var, VarKind};

/// The variable at a place.
pub fn variable(f: &Function, p: u16) -> &Var
    requires { p < length f.now.vars }
    ensures value { result.now ≡ var_at f.now.vars p }
    ensures size { result.now.size ≤ 8 }
    ensures few { length f.now.vars ≤ 184 }
{
    &f.vars.as_slice()[usize::from(p)]
}

/// How many variables of a kind there are.
pub fn count(vars: &[Var], kind: VarKind) -> usize
    ensures value { result ≡ program.count_of kind vars.now }
    ensures few { result ≤ length vars.now }
{
    count_of(vars, kind)
}

/// How many variables of a kind stand before a place.
pub fn count_before(f: &Function, kind: VarKind, p: u16) -> usize
    requires { p < length f.now.vars }
    ensures value { result ≡ program.count_before kind f.now.vars p }
    ensures few { result ≤ p }
{
    count(&f.vars.as_slice()[..usize::from(p)], kind)
}

/// The place of an array among a call's.
pub fn array_number(f: &Function, p: u16) -> usize
    requires { p < length f.now.vars }
    ensures value { result ≡ program.array_number f.now.vars p }
    ensures few { result ≤ 12 }
{
    if variable(f, p).kind == VarKind::Dest {
        count_before(f, VarKind::Dest, p)
    } else {
        count(f.vars.as_slice(), VarKind::Dest) + count_before(f, VarKind::Source, p)
    }
}

/// The base and the stride of an array.
fn place_at(f: &Function, call: &Call, p: u16) -> Place
    requires inside { p < length f.now.vars }
    requires array { is_array (var_at f.now.vars p) ≡ true }
    requires counts { HasCounts f.now call.now }
    ensures { result ≡ meaning.place_at f.now call.now p }
{
    call.arrays.as_slice()[array_number(f, p)]
}

/// The address of element `k`, modulo 2^64, of a row of an array.
pub fn address(f: &Function, call: &Call, p: u16, row: u32, k: u64) -> u64
    requires inside { p < length f.now.vars }
    requires array { is_array (var_at f.now.vars p) ≡ true }
    requires counts { HasCounts f.now call.now }
    ensures { result ≡ meaning.cell f.now call.now p row k }
{
    let place = place_at(f, call, p);
    let start = u64::from(row).wrapping_mul(place.stride.cast_unsigned());
    let element = k.wrapping_mul(u64::from(variable(f, p).size));
    place.base.wrapping_add(start).wrapping_add(element)
}

/// The address of an array's cell.
pub fn cell(f: &Function, call: &Call, p: u16, spot: Spot) -> u64
    requires inside { p < length f.now.vars }
    requires array { is_array (var_at f.now.vars p) ≡ true }
    requires counts { HasCounts f.now call.now }
    ensures { result ≡ meaning.cell f.now call.now p spot.row spot.element }
{
    address(f, call, p, spot.row, u64::from(spot.element))
}

/// The number of a parameter.
pub fn param_at(f: &Function, call: &Call, p: u16) -> u64
    requires inside { p < length f.now.vars }
    requires param { (var_at f.now.vars p).kind ≡ VarKind.Param }
    requires counts { HasCounts f.now call.now }
    ensures { result ≡ meaning.param_at f.now call.now p }
{
    call.params.as_slice()[count_before(f, VarKind::Param, p)]
}
